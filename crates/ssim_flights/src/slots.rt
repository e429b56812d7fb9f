//! Flights in slots, by number, suffix and the local days on which their legs depart.
ghost use Rattle.std.specs.Prelude.{◌≡◌, ◌*◌, ◌+◌, ◌≤◌, ◌<◌, ◌==◌, [], IfOk, OnOk, length, replicate};
ghost use Rattle.ssim_flights.specs.Slots.{along, begins_on, in_slot, leaving_for, listed, place_among, slot_of, AreLinked, AreSlotsOf, IsInside, PutsFirst};

use crate::flight::{DatedLeg, Flight, Wanted};
use crate::flights::Flights;
use crate::flown::Departure;
use crate::on_flight::place_on;
use airline_base::{Day, Memory, Place};
use std::alloc::Global;

/// A flight that is listed in a slot, and the entry with which the list of that slot goes on.
/// Entries are counted from 1, and 0 ends a list.
#[derive(Clone, Copy)]
pub(crate) struct Entry {
    flight: u32,
    next: u32,
}

/// Flights in slots, by their departures. Those of a slot are listed in the order of their numbers.
#[derive(Drop)]
pub(crate) struct Slots {
    /// The first entry of each slot.
    heads: Vec<u32>,
    entries: Vec<Entry>,
}

impl Slots {
    /// The first place that serves what is wanted, on the first of the flights of its slot that has one.
    #[tactic(auto, using(crate::proofs::Slotting::head_linked, crate::proofs::Slotting::head_inside, crate::proofs::Slotting::listed_is))]
    pub(crate) fn place(&self, flights: &Flights, wanted: &Wanted) -> Option<Place>
        requires { IsInside self.now }
        ensures { result ≡ place_among flights.now (listed self.now (leaving_for wanted.now)) wanted.now }
    {
        let slot = slot_of(&leaving_for(wanted), self.heads.len());
        place_along(flights, self.entries.as_slice(), self.heads[slot], wanted)
    }
}

/// The departure that is wanted.
fn leaving_for(wanted: &Wanted) -> Departure
    ensures { result ≡ leaving_for wanted.now }
{
    Departure {
        number: wanted.number,
        suffix: wanted.suffix,
        day: wanted.day,
    }
}

/// The slot of a departure, counted from 0. Departures that differ by little lie far apart.
#[tactic(auto, unfolding(crate::specs::Slots::slot_of))]
fn slot_of(departure: &Departure, slots: usize) -> usize
    requires { 0 < slots }
    ensures value { result ≡ slot_of departure.now slots }
    ensures bound { result < slots }
{
    let letter = departure.suffix.unwrap_or(0);
    let day = departure.day.number();
    let key = u64::from(departure.number) * 401 + u64::from(letter) * 13 + u64::from(day);
    (key * 2_654_435_769 % 4_294_967_296 % slots as u64) as usize
}

/// These flights in slots.
#[tactic(auto, using(crate::proofs::Slotting::slots_none, crate::proofs::Slotting::slots_more))]
pub(crate) fn slots_for(alloc: Global, flights: &Flights) -> Result<Slots, Memory>
    ensures { IfOk result (λ held. AreSlotsOf held flights.now 0) }
{
    let mut n = flights.len();
    let Ok(mut held) = empty(alloc, n as usize) else {
        return Err(Memory);
    };
    while n > 0 {
        n -= 1;
        let flight = flights.flight(n);
        let Ok(()) = add_legs(&mut held, &flight, n, flight.legs.as_slice()) else {
            return Err(Memory);
        };
    }
    Ok(held)
}

/// No flights, and two slots for each of so many.
fn empty(alloc: Global, count: usize) -> Result<Slots, Memory>
    requires { count ≤ 100000 }
    ensures heads { IfOk result (λ held. held.heads.items ≡ replicate (2 * count + 1) 0) }
    ensures entries { IfOk result (λ held. held.entries.items ≡ []) }
{
    let Ok(heads) = no_entries(alloc, 2 * count + 1) else {
        return Err(Memory);
    };
    let Ok(entries) = Vec::with_capacity(alloc, count) else {
        return Err(Memory);
    };
    Ok(Slots { heads, entries })
}

/// So many slots without an entry.
fn no_entries(alloc: Global, slots: usize) -> Result<Vec<u32>, Memory>
    ensures { IfOk result (λ heads. heads.items ≡ replicate slots 0) }
{
    let heads = vec![in alloc; 0u32; slots]?;
    Ok(heads)
}

/// Lists a flight for the departures of these legs of it, once for legs behind one another on one day.
#[tactic(auto, using(crate::proofs::Slotting::first_none, crate::proofs::Slotting::first_more, crate::proofs::Slotting::first_same, crate::proofs::Slotting::still_inside))]
fn add_legs(held: &mut Slots, flight: &Flight, n: u32, legs: &[DatedLeg]) -> Result<(), Memory>
    requires inside { IsInside held.old }
    requires room { length held.old.entries.items + length legs.now ≤ 800000 }
    ensures lists { OnOk result (PutsFirst held.old held.new n
        (in_slot flight.now legs.now (length held.old.heads.items))) }
    ensures few { OnOk result (length held.new.entries.items ≤ length held.old.entries.items + length legs.now) }
{
    let Some((leg, rest)) = legs.split_first() else {
        return Ok(());
    };
    if begins_on(rest, leg.day) {
        return add_legs(held, flight, n, rest);
    }
    let departure = Departure {
        number: flight.number,
        suffix: flight.suffix,
        day: leg.day,
    };
    let Ok(()) = add(held, &departure, n) else {
        return Err(Memory);
    };
    add_legs(held, flight, n, rest)
}

/// Lists a flight ahead of the others in the slot of a departure.
#[tactic(auto, using(crate::proofs::Slotting::first_one))]
fn add(held: &mut Slots, departure: &Departure, n: u32) -> Result<(), Memory>
    requires inside { IsInside held.old }
    requires room { length held.old.entries.items < 800000 }
    ensures lists { OnOk result (PutsFirst held.old held.new n
        (λ slot. slot_of departure.now (length held.old.heads.items) == slot)) }
    ensures few { OnOk result (length held.new.entries.items ≤ length held.old.entries.items + 1) }
{
    let slot = slot_of(departure, held.heads.len());
    let next = held.heads[slot];
    let Ok(()) = held.entries.push(Entry { flight: n, next }) else {
        return Err(Memory);
    };
    let entry = held.entries.len() as u32;
    held.heads[slot] = entry;
    Ok(())
}

/// Whether the first of these legs departs on a day.
fn begins_on(legs: &[DatedLeg], day: Day) -> bool
    ensures { result ≡ begins_on legs.now day }
{
    match legs.first() {
        Some(leg) => leg.day == day,
        None => false,
    }
}

/// The first place that serves what is wanted, on the flights of a list from one entry on.
#[tactic(auto, using(crate::proofs::Slotting::along_none, crate::proofs::Slotting::along_found, crate::proofs::Slotting::along_more, crate::proofs::Slotting::along_back))]
fn place_along(flights: &Flights, entries: &[Entry], entry: u32, wanted: &Wanted) -> Option<Place>
    requires linked { AreLinked entries.now }
    requires inside { entry ≤ length entries.now }
    ensures { result ≡ place_among flights.now (along entries.now entry) wanted.now }
{
    let k = entry.checked_sub(1)?;
    let listed = &entries[k as usize];
    match place_on(flights, listed.flight, wanted) {
        Some(place) => Some(place),
        None => place_along(flights, entries, listed.next, wanted),
    }
}
