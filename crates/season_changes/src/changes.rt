//! What becomes of the flights of both seasons: of those of the old one in their order, and then of those that are added.
//! It knows nothing of texts.
ghost use Rattle.std.specs.Prelude.{◌≡◌, ◌≤◌, ◌++◌, IfOk, OnOk, length};
ghost use Rattle.seat_rules.specs.Inventory.{state_now};
ghost use Rattle.seat_desk.specs.AuditDesk.{most_lines};
ghost use Rattle.season_changes.specs.Changes.{change_of, changes_of, each_from, is_common, of_compared, of_name, of_new, of_new_on, of_old, of_old_on, what_added, what_becomes};
ghost use Rattle.season_changes.specs.Naming.{AreNumbersOf};

use crate::comparing::Comparison;
use crate::differing::{
    What, differing, flight_at, ladders_differ, legs_by, same_legs, times_differ,
};
use crate::naming::{Name, name_on, number_of, numbers_of};
use crate::seats::{held_on, waiting_on};
use airline_base::{Airline, Day, Memory};
use seat_core::Core;
use seat_nesting::Grid;
use ssim_flights::{DatedLeg, Flight, Flights};
use std::alloc::Global;
use std::collections::HashMap;

/// A flight of which something becomes.
#[derive(Clone, Copy)]
pub struct Change {
    pub name: Name,
    pub what: What,
    /// The seats that are held on the flight of the old season, each booking's once; 0 where it is added or not compared.
    pub held: u64,
    /// Those that wait for it.
    pub waiting: u64,
}

/// What becomes of the flights of an old season, with the seats of the lines so far, and then of those that the new one adds.
pub fn fates(
    alloc: Global,
    asked: &Comparison<'_>,
    flights: &Flights,
    core: &Core,
) -> Result<Vec<Change>, Memory>
    requires capped { core.now.cap ≤ most_lines }
    ensures { IfOk result (λ all. all.items
        ≡ changes_of asked.now flights.now core.now.grid (state_now core.now).bookings) }
{
    let mut all = Vec::new(alloc);
    let numbers = numbers_of(alloc, asked.flights)?;
    add_olds(&mut all, asked, flights, core, &numbers)?;
    let numbers = numbers_of(alloc, flights)?;
    add_news(&mut all, asked, flights, &numbers)?;
    Ok(all)
}

/// Adds what becomes of each flight of the old season.
fn add_olds(
    all: &mut Vec<Change>,
    asked: &Comparison<'_>,
    flights: &Flights,
    core: &Core,
    numbers: &HashMap<Name, u32>,
) -> Result<(), Memory>
    requires capped { core.now.cap ≤ most_lines }
    requires numbers { AreNumbersOf numbers.now 0 asked.now.flights.now }
    ensures { OnOk result (all.new.items ≡ all.old.items
        ++ each_from (of_old asked.now core.now.grid (state_now core.now).bookings) 0 flights.now) }
{
    for i in 0..flights.len() {
        add_old(all, asked, core, numbers, i, &flights.flight(i))?;
    }
    Ok(())
}

/// Adds what becomes of a flight of the old season. One without a leg is none.
#[tactic(auto, using(crate::proofs::Becoming::old_none, crate::proofs::Becoming::old_some))]
fn add_old(
    all: &mut Vec<Change>,
    asked: &Comparison<'_>,
    core: &Core,
    numbers: &HashMap<Name, u32>,
    i: u32,
    flight: &Flight,
) -> Result<(), Memory>
    requires capped { core.now.cap ≤ most_lines }
    requires numbers { AreNumbersOf numbers.now 0 asked.now.flights.now }
    requires legs { length flight.now.legs ≤ 8 }
    ensures { OnOk result (all.new.items ≡ all.old.items
        ++ of_old asked.now core.now.grid (state_now core.now).bookings i flight.now) }
{
    match flight.legs.as_slice() {
        [leg, ..] => add_old_on(all, asked, core, numbers, i, flight, leg),
        [] => Ok(()),
    }
}

/// Adds what becomes of a flight of the old season that begins with a leg.
#[tactic(auto, using(crate::proofs::Becoming::old_outside, crate::proofs::Becoming::old_inside))]
fn add_old_on(
    all: &mut Vec<Change>,
    asked: &Comparison<'_>,
    core: &Core,
    numbers: &HashMap<Name, u32>,
    i: u32,
    flight: &Flight,
    leg: &DatedLeg,
) -> Result<(), Memory>
    requires capped { core.now.cap ≤ most_lines }
    requires numbers { AreNumbersOf numbers.now 0 asked.now.flights.now }
    requires legs { length flight.now.legs ≤ 8 }
    ensures { OnOk result (all.new.items ≡ all.old.items
        ++ of_old_on asked.now core.now.grid (state_now core.now).bookings i flight.now leg.now) }
{
    let name = name_on(flight, leg);
    if !is_common(asked, leg.day) {
        return add(all, name, Some(What::Outside), 0, 0);
    }
    add_compared(all, asked, core, numbers, i, flight, name)
}

/// Adds what becomes of a flight of this name that is compared.
fn add_compared(
    all: &mut Vec<Change>,
    asked: &Comparison<'_>,
    core: &Core,
    numbers: &HashMap<Name, u32>,
    i: u32,
    flight: &Flight,
    name: Name,
) -> Result<(), Memory>
    requires capped { core.now.cap ≤ most_lines }
    requires numbers { AreNumbersOf numbers.now 0 asked.now.flights.now }
    requires legs { length flight.now.legs ≤ 8 }
    ensures { OnOk result (all.new.items ≡ all.old.items
        ++ of_compared asked.now core.now.grid (state_now core.now).bookings i flight.now name) }
{
    let _airline: Airline = name.airline;
    let what = what_becomes(asked, core.grid(), i, flight, number_of(numbers, &name));
    add(all, name, what, held_on(core, i), waiting_on(core, i))?;
    Ok(())
}

/// What becomes of flight `i` of the old season, of which the flight of this number in the new season has the name.
fn what_becomes(
    asked: &Comparison<'_>,
    grid: &Grid,
    i: u32,
    flight: &Flight,
    number: Option<u32>,
) -> Option<What>
    requires legs { length flight.now.legs ≤ 8 }
    ensures { result ≡ what_becomes asked.now grid.now i flight.now number }
{
    let Some(k) = number else {
        return Some(What::Gone);
    };
    let legs = flight.legs.as_slice();
    let other = flight_at(asked.flights, k);
    let others = legs_by(&other);
    differing(
        !same_legs(legs, others),
        times_differ(legs, others),
        ladders_differ(grid, i, asked.grid, k, 0, legs),
    )
}

/// Adds each flight of the new season that the old one has not.
fn add_news(
    all: &mut Vec<Change>,
    asked: &Comparison<'_>,
    _flights: &Flights,
    numbers: &HashMap<Name, u32>,
) -> Result<(), Memory>
    requires numbers { AreNumbersOf numbers.now 0 _flights.now }
    ensures { OnOk result (all.new.items ≡ all.old.items
        ++ each_from (λ i. of_new asked.now _flights.now) 0 asked.now.flights.now) }
{
    for i in 0..asked.flights.len() {
        add_new(all, asked, _flights, numbers, &asked.flights.flight(i))?;
    }
    Ok(())
}

/// Adds a flight of the new season, if the old one has none of its name.
#[tactic(auto, using(crate::proofs::Becoming::new_none, crate::proofs::Becoming::new_some))]
fn add_new(
    all: &mut Vec<Change>,
    asked: &Comparison<'_>,
    _flights: &Flights,
    numbers: &HashMap<Name, u32>,
    flight: &Flight,
) -> Result<(), Memory>
    requires numbers { AreNumbersOf numbers.now 0 _flights.now }
    ensures { OnOk result (all.new.items ≡ all.old.items ++ of_new asked.now _flights.now flight.now) }
{
    match flight.legs.as_slice() {
        [leg, ..] => add_new_on(all, asked, _flights, numbers, flight, leg),
        [] => Ok(()),
    }
}

/// Adds one that begins with a leg.
#[tactic(auto, using(crate::proofs::Becoming::new_outside, crate::proofs::Becoming::new_inside))]
fn add_new_on(
    all: &mut Vec<Change>,
    asked: &Comparison<'_>,
    _flights: &Flights,
    numbers: &HashMap<Name, u32>,
    flight: &Flight,
    leg: &DatedLeg,
) -> Result<(), Memory>
    requires numbers { AreNumbersOf numbers.now 0 _flights.now }
    ensures { OnOk result (all.new.items ≡ all.old.items ++ of_new_on asked.now _flights.now flight.now leg.now) }
{
    let name = name_on(flight, leg);
    if !is_common(asked, leg.day) {
        return add(all, name, Some(What::Outside), 0, 0);
    }
    add_if_new(all, _flights, numbers, name)
}

/// Adds a flight of this name, if the old season has none.
fn add_if_new(
    all: &mut Vec<Change>,
    _flights: &Flights,
    numbers: &HashMap<Name, u32>,
    name: Name,
) -> Result<(), Memory>
    requires numbers { AreNumbersOf numbers.now 0 _flights.now }
    ensures { OnOk result (all.new.items ≡ all.old.items ++ of_name _flights.now name) }
{
    let _airline: Airline = name.airline;
    let what = what_added(number_of(numbers, &name));
    add(all, name, what, 0, 0)?;
    Ok(())
}

/// What becomes of a flight of the new season, of which the flight of this number in the old season has the name.
fn what_added(number: Option<u32>) -> Option<What>
    ensures { result ≡ what_added number }
{
    match number {
        Some(_) => None,
        None => Some(What::Added),
    }
}

/// Whether both seasons have a day.
fn is_common(asked: &Comparison<'_>, day: Day) -> bool
    ensures { result ≡ is_common asked.now day }
{
    asked.first.number() <= day.number() && day.number() <= asked.last.number()
}

/// Adds a change, if there is one.
fn add(
    all: &mut Vec<Change>,
    name: Name,
    what: Option<What>,
    held: u64,
    waiting: u64,
) -> Result<(), Memory>
    ensures { OnOk result (all.new.items ≡ all.old.items ++ change_of name held waiting what) }
{
    let _airline: Airline = name.airline;
    let _day: Day = name.day;
    if let Some(what) = what {
        all.push(Change {
            name,
            what,
            held,
            waiting,
        })?;
    }
    Ok(())
}
