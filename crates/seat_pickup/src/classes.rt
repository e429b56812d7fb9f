//! What the lines behind the first ones made of each class of each flight.
//! It knows no text.
ghost use Rattle.std.specs.Prelude.{◌≡◌, ◌≤◌, ◌<◌, ◌++◌, ◌||◌, IfOk, OnOk, drop, length, nat_lt, take};
ghost use Rattle.seat_rules.specs.Inventory.{state_now};
ghost use Rattle.seat_rules.specs.Journal.{replay};
ghost use Rattle.seat_desk.specs.AuditDesk.{most_lines};
ghost use Rattle.seat_pickup.specs.Pickups.{AreMoves, of_class, of_flight, of_letters, pickups_of, with_any};
ghost use Rattle.seat_pickup.specs.declared.split.Split.TheVariants.{Classes};

use crate::moved::{Moves, moved_at, moves_behind};
use crate::split::Split;
use airline_base::{Class, Memory};
use seat_core::Core;
use seat_lists::{Designator, keeps_flight};
use ssim_flights::{Flight, Flights};
use std::alloc::Global;

/// What became of the seats of a class on a flight: a booking's count once, however many legs it has.
#[derive(Clone, Copy)]
pub struct Pickup {
    /// The flight's index.
    pub flight: u32,
    pub name: Designator,
    pub class: Class,
    /// The seats that were held before.
    pub before: u64,
    /// Those that the lines confirmed at once.
    pub sold: u64,
    /// Those that were held and given back.
    pub cancelled: u64,
    /// Those that waited and were confirmed.
    pub confirmed: u64,
    /// Those that are held now.
    pub held: u64,
}

/// What the lines behind the first `lines` of an inventory made of each class of each flight that is asked for: by flight, and from A to Z. A class
/// in which nothing was held or came is left out.
pub fn pickups(
    alloc: Global,
    flights: &Flights,
    core: &Core,
    lines: usize,
    flight: &Option<Designator>,
) -> Result<Vec<Pickup>, Memory>
    requires capped { core.now.cap ≤ most_lines }
    requires within { lines ≤ length core.now.journal }
    ensures { IfOk result (λ all. all.items ≡ pickups_of flight.now flights.now core.now.grid core.now.journal lines) }
{
    let moves = moves_behind(alloc, Split::Classes, flights.len(), core, lines)?;
    let mut all = Vec::new(alloc);
    for index in 0..flights.len() {
        add_flight(
            &mut all,
            core,
            &moves,
            lines,
            flight,
            index,
            &flights.flight(index),
        )?;
    }
    Ok(all)
}

/// Adds those of a flight, if it is asked for.
#[tactic(auto, using(crate::proofs::Picking::flight_left, crate::proofs::Picking::flight_kept))]
fn add_flight(
    all: &mut Vec<Pickup>,
    core: &Core,
    moves: &Moves,
    lines: usize,
    asked: &Option<Designator>,
    index: u32,
    flight: &Flight,
) -> Result<(), Memory>
    requires capped { core.now.cap ≤ most_lines }
    requires within { lines ≤ length core.now.journal }
    requires inside { index < moves.now.flights }
    requires classes { moves.now.split ≡ Classes }
    requires moved { AreMoves (drop lines core.now.journal) moves.now }
    ensures { OnOk result (all.new.items ≡ all.old.items ++ of_flight asked.now (of_class (replay core.now.grid (take lines core.now.journal)).bookings
        (drop lines core.now.journal) (state_now core.now).bookings) index flight.now) }
{
    if !keeps_flight(*asked, flight) {
        return Ok(());
    }
    add_classes(all, core, moves, lines, index, flight)
}

/// Adds those of a flight, from A to Z.
fn add_classes(
    all: &mut Vec<Pickup>,
    core: &Core,
    moves: &Moves,
    lines: usize,
    index: u32,
    flight: &Flight,
) -> Result<(), Memory>
    requires capped { core.now.cap ≤ most_lines }
    requires within { lines ≤ length core.now.journal }
    requires inside { index < moves.now.flights }
    requires classes { moves.now.split ≡ Classes }
    requires moved { AreMoves (drop lines core.now.journal) moves.now }
    ensures { OnOk result (all.new.items ≡ all.old.items ++ of_letters (of_class (replay core.now.grid (take lines core.now.journal)).bookings
        (drop lines core.now.journal) (state_now core.now).bookings index flight.now)) }
{
    for i in 0..26u8 {
        add_letter(all, core, moves, lines, index, flight, b'A' + i)?;
    }
    Ok(())
}

/// Adds that of the class of a letter.
#[tactic(auto, using(crate::proofs::Picking::is_letter, crate::proofs::Picking::letter_added))]
fn add_letter(
    all: &mut Vec<Pickup>,
    core: &Core,
    moves: &Moves,
    lines: usize,
    index: u32,
    flight: &Flight,
    letter: u8,
) -> Result<(), Memory>
    requires capped { core.now.cap ≤ most_lines }
    requires within { lines ≤ length core.now.journal }
    requires inside { index < moves.now.flights }
    requires classes { moves.now.split ≡ Classes }
    requires moved { AreMoves (drop lines core.now.journal) moves.now }
    requires from { 65 ≤ letter }
    requires to { letter ≤ 90 }
    ensures { OnOk result (all.new.items ≡ all.old.items ++ with_any (of_class (replay core.now.grid (take lines core.now.journal)).bookings
        (drop lines core.now.journal) (state_now core.now).bookings index flight.now letter)) }
{
    match Class::new(letter) {
        Some(class) => add_class(all, core, moves, lines, index, flight, class),
        None => Ok(()),
    }
}

/// Adds that of a class, if anything was held in it or came.
#[tactic(auto, using(crate::proofs::Picking::class_left, crate::proofs::Picking::class_kept))]
fn add_class(
    all: &mut Vec<Pickup>,
    core: &Core,
    moves: &Moves,
    lines: usize,
    index: u32,
    flight: &Flight,
    class: Class,
) -> Result<(), Memory>
    requires capped { core.now.cap ≤ most_lines }
    requires within { lines ≤ length core.now.journal }
    requires inside { index < moves.now.flights }
    requires classes { moves.now.split ≡ Classes }
    requires moved { AreMoves (drop lines core.now.journal) moves.now }
    ensures { OnOk result (all.new.items ≡ all.old.items ++ with_any (of_class (replay core.now.grid (take lines core.now.journal)).bookings
        (drop lines core.now.journal) (state_now core.now).bookings index flight.now class)) }
{
    let _name: Option<Designator> = None;
    let pickup = of_class(core, moves, lines, index, flight, class)?;
    if !has_any(&pickup) {
        return Ok(());
    }
    all.push(pickup)?;
    Ok(())
}

/// Whether anything was held in a class before, or came.
fn has_any(pickup: &Pickup) -> bool
    ensures { result ≡ (nat_lt 0 pickup.now.before || nat_lt 0 pickup.now.sold || nat_lt 0 pickup.now.confirmed) }
{
    0 < pickup.before || 0 < pickup.sold || 0 < pickup.confirmed
}

/// What became of a class of a flight.
#[tactic(auto, using(crate::proofs::Counted::low, crate::proofs::Counted::high, crate::proofs::Picking::pickup_is))]
fn of_class(
    core: &Core,
    moves: &Moves,
    lines: usize,
    index: u32,
    flight: &Flight,
    class: Class,
) -> Result<Pickup, Memory>
    requires capped { core.now.cap ≤ most_lines }
    requires within { lines ≤ length core.now.journal }
    requires inside { index < moves.now.flights }
    requires classes { moves.now.split ≡ Classes }
    requires moved { AreMoves (drop lines core.now.journal) moves.now }
    ensures { IfOk result (λ p. p ≡ of_class (replay core.now.grid (take lines core.now.journal)).bookings
        (drop lines core.now.journal) (state_now core.now).bookings index flight.now class) }
{
    let sums = moved_at(core, moves, lines, index, class.letter())?;
    Ok(Pickup {
        flight: index,
        name: name_of(flight),
        class,
        before: sums.before,
        sold: sums.sold,
        cancelled: sums.cancelled,
        confirmed: sums.confirmed,
        held: sums.held,
    })
}

/// What names a flight.
fn name_of(flight: &Flight) -> Designator
    ensures airline { result.airline ≡ flight.now.airline }
    ensures number { result.number ≡ flight.now.number }
    ensures suffix { result.suffix ≡ flight.now.suffix }
{
    Designator {
        airline: flight.airline,
        number: flight.number,
        suffix: flight.suffix,
    }
}
