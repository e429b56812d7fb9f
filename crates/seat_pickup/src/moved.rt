//! What became of seats behind the first lines of an inventory, where they are counted.
//! It knows no flight's name.
ghost use Rattle.std.specs.Prelude.{◌≡◌, ◌≤◌, ◌<◌, ◌+◌, ◌-◌, IfOk, drop, length};
ghost use Rattle.std.specs.List.{sum_by};
ghost use Rattle.seat_rules.specs.Inventory.{state_now};
ghost use Rattle.seat_desk.specs.AuditDesk.{most_lines};
ghost use Rattle.seat_pickup.specs.Moves.{held_in, holds, is_at};
ghost use Rattle.seat_pickup.specs.Pickups.{AreMoves, has_any, moved_behind};

use crate::counting::count_at;
use crate::moves::{cancelled_in, confirmed_in, sold_in};
use crate::pairing::Pairing;
use crate::split::{Split, Tally, is_at};
use airline_base::Memory;
use seat_core::Core;
use seat_rules::Booking;
use std::alloc::Global;

/// What lines moved, by flight and class or leg.
#[derive(Drop)]
pub struct Moves {
    pub split: Split,
    pub flights: u32,
    pub sold: Vec<u64>,
    pub cancelled: Vec<u64>,
    pub confirmed: Vec<u64>,
}

/// What became of seats.
#[derive(Clone, Copy)]
pub struct MoveSums {
    /// The seats that were held before.
    pub before: u64,
    /// Those that the lines confirmed at once.
    pub sold: u64,
    /// Those that were held and given back.
    pub cancelled: u64,
    /// Those that waited and were confirmed.
    pub confirmed: u64,
    /// Those that are held now.
    pub held: u64,
}

/// What the lines behind the first ones moved.
pub fn moves_behind(
    alloc: Global,
    split: Split,
    flights: u32,
    core: &Core,
    lines: usize,
) -> Result<Moves, Memory>
    requires within { lines ≤ length core.now.journal }
    ensures split { IfOk result (λ moves. moves.split ≡ split) }
    ensures flights { IfOk result (λ moves. moves.flights ≡ flights) }
    ensures moved { IfOk result (AreMoves (drop lines core.now.journal)) }
{
    let _pairing: Option<Pairing<'_>> = None;
    let since = &core.journal()[lines..];
    let tally = Tally::OnFlights(split);
    Ok(Moves {
        split,
        flights,
        sold: sold_in(alloc, &tally, flights, since)?,
        cancelled: cancelled_in(alloc, &tally, flights, since)?,
        confirmed: confirmed_in(alloc, &tally, flights, since)?,
    })
}

/// What became of the seats of a flight in the class of a letter, or on the leg of one: `A` is the first leg.
#[tactic(auto, using(crate::proofs::Picking::spot_within, crate::proofs::Picking::sums_are))]
pub fn moved_at(
    core: &Core,
    moves: &Moves,
    lines: usize,
    flight: u32,
    letter: u8,
) -> Result<MoveSums, Memory>
    requires capped { core.now.cap ≤ most_lines }
    requires within { lines ≤ length core.now.journal }
    requires inside { flight < moves.now.flights }
    requires moved { AreMoves (drop lines core.now.journal) moves.now }
    requires from { 65 ≤ letter }
    requires to { letter ≤ 90 }
    ensures { IfOk result (λ sums. sums ≡ moved_behind core.now.grid core.now.journal lines (is_at moves.now.split) flight letter) }
{
    // For the prover alone: only the inventory itself says that its journal is legal.
    let _ = core.journal();
    let held = held_in(core, moves.split, flight, letter);
    let sold = count_at(&moves.sold, flight, letter);
    let cancelled = count_at(&moves.cancelled, flight, letter);
    let confirmed = count_at(&moves.confirmed, flight, letter);
    let before = before(held, sold, cancelled, confirmed)?;
    Ok(MoveSums {
        before,
        sold,
        cancelled,
        confirmed,
        held,
    })
}

/// What was held before: what is, with what was cancelled and without what came. A count that 64 bits don't hold is want of memory.
fn before(held: u64, sold: u64, cancelled: u64, confirmed: u64) -> Result<u64, Memory>
    ensures { IfOk result (λ n. n ≡ (held + cancelled) - (sold + confirmed)) }
{
    let Some(all) = held.checked_add(cancelled) else {
        return Err(Memory);
    };
    let Some(came) = sold.checked_add(confirmed) else {
        return Err(Memory);
    };
    Ok(all.saturating_sub(came))
}

/// The seats that are held on a flight there.
#[tactic(auto, using(seat_questions::proofs::Standings::few_bookings, crate::proofs::Picking::held_is))]
fn held_in(core: &Core, split: Split, flight: u32, letter: u8) -> u64
    requires capped { core.now.cap ≤ most_lines }
    ensures { result ≡ held_in (is_at split) (state_now core.now).bookings flight letter }
{
    // For the prover alone: a journal of so few lines leaves no more bookings, so that their sum fits.
    let _ = core.journal();
    held_among(core.bookings_on(flight), split, flight, letter)
}

fn held_among(bookings: &[Booking], split: Split, flight: u32, letter: u8) -> u64
    requires few { length bookings.now ≤ 999999 }
    ensures { result ≡ sum_by (holds (is_at split) flight letter) bookings.now }
{
    let mut seats = 0u64;
    for booking in bookings {
        seats += u64::from(holds(booking, split, flight, letter));
    }
    seats
}

/// The seats of a booking that is held, if they count there.
fn holds(booking: &Booking, split: Split, flight: u32, letter: u8) -> u16
    ensures { result ≡ holds (is_at split) flight letter booking.now }
{
    if !booking.is_waiting() && is_at(split, booking.place, booking.class, flight, letter) {
        booking.seats
    } else {
        0
    }
}

/// Whether anything was held there before, or came.
pub fn has_any(sums: &MoveSums) -> bool
    ensures { result ≡ has_any sums.now }
{
    0 < sums.before || 0 < sums.sold || 0 < sums.confirmed
}
