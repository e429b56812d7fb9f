//! Seats, counted by flight and class or leg in one row: 26 counts for each flight. By pair of stations the first of 26 counts.
//! It knows no line of a journal.
ghost use Rattle.std.specs.Prelude.{◌≡◌, ◌<◌, ◌≤◌, ◌+◌, ◌*◌, IfOk, OnOk, length, replicate};
ghost use Rattle.seat_pickup.specs.Counting.{Adds, AddsAt, count_at, spot};
ghost use Rattle.seat_pickup.specs.Moves.{is_at, on_leg, those};
ghost use Rattle.seat_pickup.specs.Pairs.{pairs_at, tally_at};
ghost use Rattle.seat_pickup.specs.declared.split.Split.TheVariants.{Classes, Legs};

use crate::pairing::{Pairing, number_of};
use crate::split::{Split, Tally};
use airline_base::{Class, Memory, Place};
use seat_questions::has_leg;
use std::alloc::Global;

/// A row that counts nothing.
pub fn no_counts(alloc: Global, flights: u32) -> Result<Vec<u64>, Memory>
    ensures { IfOk result (λ row. row.items ≡ replicate (flights * 26) 0) }
{
    let row = vec![in alloc; 0u64; flights as usize * 26]?;
    Ok(row)
}

/// Adds the seats of a place and class where they count. A flight or pair beyond the row counts nowhere.
#[tactic(auto, using(crate::proofs::Between::no_seats, crate::proofs::Between::on_flights, crate::proofs::Between::between_pairs))]
pub fn add(
    row: &mut Vec<u64>,
    tally: &Tally<'_>,
    place: Place,
    class: Class,
    seats: u16,
) -> Result<(), Memory>
    ensures { OnOk result (Adds (those (tally_at tally.now) place class seats) row.old.items row.new.items) }
{
    if seats == 0 {
        return Ok(());
    }
    match tally {
        Tally::OnFlights(split) => add_on_flight(row, *split, place, class, seats),
        Tally::Between(pairing) => add_between(row, pairing, place, class, seats),
    }
}

/// Adds them on the flight of the place.
#[tactic(auto, using(crate::proofs::Counted::in_class, crate::proofs::Counted::on_legs))]
fn add_on_flight(
    row: &mut Vec<u64>,
    split: Split,
    place: Place,
    class: Class,
    seats: u16,
) -> Result<(), Memory>
    ensures { OnOk result (Adds (those (is_at split) place class seats) row.old.items row.new.items) }
{
    match split {
        Split::Classes => add_in_class(row, place, class, seats),
        Split::Legs => add_on_legs(row, place, class, seats),
    }
}

/// Adds them at the number of the place's pair, if it has one.
#[tactic(auto, using(crate::proofs::Between::pair_away, crate::proofs::Between::pair_added))]
fn add_between(
    row: &mut Vec<u64>,
    pairing: &Pairing<'_>,
    place: Place,
    class: Class,
    seats: u16,
) -> Result<(), Memory>
    ensures { OnOk result (Adds (those (pairs_at pairing.now) place class seats) row.old.items row.new.items) }
{
    let Some(number) = number_of(pairing, place) else {
        return Ok(());
    };
    let Some(at) = number.checked_mul(26) else {
        return Err(Memory);
    };
    add_at(row, at, u64::from(seats))
}

#[tactic(auto, using(crate::proofs::Counted::added))]
fn add_in_class(row: &mut Vec<u64>, place: Place, class: Class, seats: u16) -> Result<(), Memory>
    ensures { OnOk result (Adds (those (is_at Classes) place class seats) row.old.items row.new.items) }
{
    add_at(row, class_spot(place.flight, class), u64::from(seats))
}

/// Adds them on each leg of the place.
fn add_on_legs(row: &mut Vec<u64>, place: Place, class: Class, seats: u16) -> Result<(), Memory>
    ensures { OnOk result (Adds (those (is_at Legs) place class seats) row.old.items row.new.items) }
{
    for leg in 0..26u8 {
        add_on_leg(row, place, leg, seats)?;
    }
    Ok(())
}

/// Adds them on one leg, if the place covers it.
#[tactic(auto, using(crate::proofs::Counted::leg_away, crate::proofs::Counted::leg_added))]
fn add_on_leg(row: &mut Vec<u64>, place: Place, leg: u8, seats: u16) -> Result<(), Memory>
    requires { leg < 26 }
    ensures { OnOk result (Adds (on_leg place leg seats) row.old.items row.new.items) }
{
    if !has_leg(place, leg) {
        return Ok(());
    }
    add_at(row, leg_spot(place.flight, leg), u64::from(seats))
}

/// Adds seats at a place, if the row has it. A count that 64 bits don't hold is want of memory.
#[tactic(auto, using(crate::proofs::Counted::beyond, crate::proofs::Counted::there))]
pub fn add_at(row: &mut Vec<u64>, place: usize, seats: u64) -> Result<(), Memory>
    ensures { OnOk result (AddsAt place seats row.old.items row.new.items) }
{
    if place >= row.len() {
        return Ok(());
    }
    let Some(more) = row[place].checked_add(seats) else {
        return Err(Memory);
    };
    row[place] = more;
    Ok(())
}

/// The place of a flight and class.
#[tactic(auto, using(crate::proofs::Counted::low, crate::proofs::Counted::high))]
fn class_spot(flight: u32, class: Class) -> usize
    ensures { result ≡ spot flight class }
{
    spot(flight, class.letter())
}

/// That of a leg.
fn leg_spot(flight: u32, leg: u8) -> usize
    requires { leg < 26 }
    ensures { result ≡ spot flight (65 + leg) }
{
    spot(flight, b'A' + leg)
}

/// The place of a flight and a class, or of its leg: both by a letter.
fn spot(flight: u32, letter: u8) -> usize
    requires from { 65 ≤ letter }
    requires to { letter ≤ 90 }
    ensures { result ≡ spot flight letter }
{
    flight as usize * 26 + usize::from(letter - b'A')
}

/// The count of a flight and a class or leg.
pub fn count_at(row: &[u64], flight: u32, letter: u8) -> u64
    requires from { 65 ≤ letter }
    requires to { letter ≤ 90 }
    requires there { spot flight letter < length row.now }
    ensures { result ≡ count_at row.now flight letter }
{
    row[spot(flight, letter)]
}
