//! What became of seats behind the first lines of an inventory, by the pair of stations between which a booking's place runs.
//! It knows no flight's name.
ghost use Rattle.std.specs.Prelude.{◌≡◌, ◌≤◌, ◌<◌, ◌+◌, ◌-◌, IfOk, length};
ghost use Rattle.seat_pickup.specs.Pairs.{ArePairMoves, pairs_at};
ghost use Rattle.seat_pickup.specs.Pickups.{moved_behind};

use crate::counting::count_at;
use crate::moved::MoveSums;
use crate::moves::{cancelled_in, confirmed_in, sold_in};
use crate::pairing::Pairing;
use crate::split::Tally;
use airline_base::Memory;
use seat_core::Core;
use std::alloc::Global;

/// What the lines of a journal moved by pair, those ahead and those behind.
#[derive(Drop)]
pub struct PairMoves<'a> {
    pub pairing: Pairing<'a>,
    /// How many pairs there are.
    pub count: u32,
    pub sold_ahead: Vec<u64>,
    pub cancelled_ahead: Vec<u64>,
    pub confirmed_ahead: Vec<u64>,
    pub sold: Vec<u64>,
    pub cancelled: Vec<u64>,
    pub confirmed: Vec<u64>,
}

/// What the first lines moved, and those behind them. More pairs than 32 bits count are want of memory.
pub fn pair_moves<'a>(
    alloc: Global,
    pairing: &Pairing<'a>,
    core: &Core,
    lines: usize,
) -> Result<PairMoves<'a>, Memory>
    requires within { lines ≤ length core.now.journal }
    ensures pairing { IfOk result (λ moves. moves.pairing ≡ pairing.now) }
    ensures count { IfOk result (λ moves. moves.count ≡ length pairing.now.pairs.now) }
    ensures moved { IfOk result (ArePairMoves core.now.journal lines) }
{
    let count = count_of(pairing.pairs.len())?;
    let ahead = &core.journal()[..lines];
    let since = &core.journal()[lines..];
    let tally = Tally::Between(same(pairing));
    Ok(PairMoves {
        pairing: same(pairing),
        count,
        sold_ahead: sold_in(alloc, &tally, count, ahead)?,
        cancelled_ahead: cancelled_in(alloc, &tally, count, ahead)?,
        confirmed_ahead: confirmed_in(alloc, &tally, count, ahead)?,
        sold: sold_in(alloc, &tally, count, since)?,
        cancelled: cancelled_in(alloc, &tally, count, since)?,
        confirmed: confirmed_in(alloc, &tally, count, since)?,
    })
}

/// The same pairing.
fn same<'a>(pairing: &Pairing<'a>) -> Pairing<'a>
    ensures { result ≡ pairing.now }
{
    Pairing {
        flights: pairing.flights,
        asked: pairing.asked,
        pairs: pairing.pairs,
    }
}

fn count_of(pairs: usize) -> Result<u32, Memory>
    ensures { IfOk result (λ n. n ≡ pairs) }
{
    if pairs > u32::MAX as usize {
        return Err(Memory);
    }
    Ok(pairs as u32)
}

/// What became of the seats of the bookings whose places run between the stations of a pair.
#[tactic(auto, using(crate::proofs::Picking::spot_within, crate::proofs::Between::pair_sums_are))]
pub fn paired_at(
    core: &Core,
    moves: &PairMoves<'_>,
    lines: usize,
    number: u32,
) -> Result<MoveSums, Memory>
    requires within { lines ≤ length core.now.journal }
    requires inside { number < moves.now.count }
    requires moved { ArePairMoves core.now.journal lines moves.now }
    ensures { IfOk result (λ sums. sums ≡ moved_behind core.now.grid core.now.journal lines (pairs_at moves.now.pairing) number 65) }
{
    // For the prover alone: only the inventory itself says that its journal is legal.
    let _ = core.journal();
    let sold_ahead = count_at(&moves.sold_ahead, number, b'A');
    let cancelled_ahead = count_at(&moves.cancelled_ahead, number, b'A');
    let confirmed_ahead = count_at(&moves.confirmed_ahead, number, b'A');
    let sold = count_at(&moves.sold, number, b'A');
    let cancelled = count_at(&moves.cancelled, number, b'A');
    let confirmed = count_at(&moves.confirmed, number, b'A');
    let before = left(0, sold_ahead, confirmed_ahead, cancelled_ahead)?;
    let held = left(before, sold, confirmed, cancelled)?;
    Ok(MoveSums {
        before,
        sold,
        cancelled,
        confirmed,
        held,
    })
}

/// What is held: what was, with what was sold and confirmed and without what was cancelled. A count that 64 bits don't hold is want of memory.
fn left(before: u64, sold: u64, confirmed: u64, cancelled: u64) -> Result<u64, Memory>
    ensures { IfOk result (λ n. n ≡ before + (sold + confirmed) - cancelled) }
{
    let Some(came) = sold.checked_add(confirmed) else {
        return Err(Memory);
    };
    let Some(all) = before.checked_add(came) else {
        return Err(Memory);
    };
    Ok(all.saturating_sub(cancelled))
}
