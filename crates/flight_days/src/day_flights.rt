//! The flights of each day.
ghost use Rattle.std.specs.Prelude.{◌≡◌, ◌<◌, ◌==◌, [], IfOk, OnOk, length, replicate};
ghost use Rattle.flight_days.specs.Leaving.{in_list, list_of, listed, AreDaysOf, PutsLast};

use airline_base::{Day, Items, Memory};
use ssim_flights::{DatedLeg, Flights};
use std::alloc::Global;

/// The numbers of flights by the days on which they have a leg that departs, each day's in their order.
/// Days that lie 512 days or a multiple of that apart share a list; a horizon has at most 366 days.
#[derive(Drop)]
pub struct DayFlights {
    lists: Vec<Items<u32>>,
}

impl DayFlights {
    /// These flights, by their days.
    pub fn new(alloc: Global, flights: &Flights) -> Result<DayFlights, Memory>
        ensures { IfOk result (λ days. AreDaysOf days flights.now) }
    {
        let mut days = no_flights(alloc)?;
        for index in 0..flights.len() {
            let flight = flights.flight(index);
            add_legs(&mut days, index, flight.legs.as_slice())?;
        }
        Ok(days)
    }

    /// The numbers of the flights in the list of a day.
    pub fn on(&self, day: Day) -> &[u32]
        ensures { result.now ≡ listed self.now day }
    {
        let lists = self.lists.as_slice();
        match lists.get(list_of(day)) {
            Some(list) => list.as_slice(),
            None => &[],
        }
    }
}

/// The list of a day, counted from 0.
fn list_of(day: Day) -> usize
    ensures value { result ≡ list_of day }
    ensures bound { result < 512 }
{
    (day.number() % 512) as usize
}

/// A list for each of so many days, and no flight.
#[tactic(auto, using(crate::proofs::Listing::one_more))]
fn no_flights(alloc: Global) -> Result<DayFlights, Memory>
    ensures { IfOk result (λ days. days.lists.items ≡ replicate 512 []) }
{
    let mut lists = Vec::with_capacity(alloc, 512)?;
    for _ in 0..512u32 {
        lists.push(Items::new(alloc))?;
    }
    Ok(DayFlights { lists })
}

/// Lists a flight behind the others on the days of these legs of it, once in a list.
#[tactic(auto, using(crate::proofs::Listing::last_none, crate::proofs::Listing::last_same, crate::proofs::Listing::last_more, crate::proofs::Listing::still_long))]
fn add_legs(days: &mut DayFlights, number: u32, legs: &[DatedLeg]) -> Result<(), Memory>
    requires { length days.old.lists.items ≡ 512 }
    ensures { OnOk result (PutsLast days.old days.new number (in_list legs.now)) }
{
    let Some((leg, rest)) = legs.split_first() else {
        return Ok(());
    };
    let list = list_of(leg.day);
    if is_in_list(rest, list) {
        return add_legs(days, number, rest);
    }
    add(days, number, list)?;
    add_legs(days, number, rest)
}

/// Lists a flight behind the others of a list.
#[tactic(auto, using(crate::proofs::Listing::last_one))]
fn add(days: &mut DayFlights, number: u32, list: usize) -> Result<(), Memory>
    requires { list < length days.old.lists.items }
    ensures { OnOk result (PutsLast days.old days.new number (λ k. list == k)) }
{
    days.lists[list].push(number)?;
    Ok(())
}

/// Whether one of these legs departs on a day of a list.
fn is_in_list(legs: &[DatedLeg], list: usize) -> bool
    ensures { result ≡ in_list legs.now list }
{
    legs.iter().any(|leg| list_of(leg.day) == list)
}
