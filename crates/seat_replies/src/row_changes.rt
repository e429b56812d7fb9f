//! The legs that a row of changes is for, and what it sets on them.
ghost use Rattle.std.specs.Prelude.{◌≡◌, ◌≤◌, ◌==◌, ◌∷◌, ◌++◌, [], length, option_map, if◌then◌else◌, IfOk, OnOk};
ghost use Rattle.flight_days.specs.Leaving.{AreDaysOf};
ghost use Rattle.seat_replies.specs.Changes.{is_named, on_flights, on_leg, on_legs, on_place, some_of, wanted_by};
ghost use Rattle.ssim_flights.specs.Places.{place_wanted};

use airline_base::{Class, Memory};
use flight_days::DayFlights;
use seat_journal::{Change, Control, SaleChange};
use seat_limits::{ChangeRow, Cities, RowSetting};
use ssim_flights::{DatedLeg, Flight, Flights, Served, Wanted};
use std::alloc::Global;

/// What a row sets on the one leg that serves two cities. None where no leg does, or several legs together.
pub fn changes_between(
    alloc: Global,
    served: &Served<'_>,
    row: &ChangeRow,
    cities: Cities,
) -> Result<Option<Vec<Control>>, Memory>
    ensures { IfOk result (λ o. option_map (λ v. v.items) o
        ≡ on_place row.now.setting (place_wanted served.now (wanted_by row.now cities))) }
{
    let Some(place) = served.find(&wanted_by(row, cities)) else {
        return Ok(None);
    };
    if place.from != place.to {
        return Ok(None);
    }
    let mut one = Vec::new(alloc);
    add(&mut one, on_leg(row.setting, place.flight, place.from))?;
    Ok(Some(one))
}

/// What a row sets on each leg of its flight that departs on its day, in the order of flight and leg. None where none does.
/// It looks at the flights of that day alone.
pub fn changes_on_day(
    alloc: Global,
    flights: &Flights,
    days: &DayFlights,
    row: &ChangeRow,
) -> Result<Option<Vec<Control>>, Memory>
    requires days { AreDaysOf days.now flights.now }
    ensures { IfOk result (λ o. option_map (λ v. v.items) o ≡ some_of (on_flights row.now 0 flights.now)) }
{
    let mut all = Vec::new(alloc);
    put_flights(&mut all, flights, days, row)?;
    Ok(some_of(all))
}

#[tactic(auto, using(crate::proofs::Changing::some_is_all, crate::proofs::Changing::none_is_all))]
fn some_of(all: Vec<Control>) -> Option<Vec<Control>>
    ensures { option_map (λ v. v.items) result ≡ some_of all.items }
{
    if all.is_empty() {
        return None;
    }
    Some(all)
}

// On the legs of the flights that are listed for a row's day.
fn put_flights(
    all: &mut Vec<Control>,
    flights: &Flights,
    days: &DayFlights,
    row: &ChangeRow,
) -> Result<(), Memory>
    requires days { AreDaysOf days.now flights.now }
    ensures { OnOk result (all.new.items ≡ all.old.items ++ on_flights row.now 0 flights.now) }
{
    let numbers = days.on(row.day);
    for number in numbers {
        let flight = flights.flight(*number);
        put_flight(all, &flight, row, *number)?;
    }
    Ok(())
}

fn put_flight(
    all: &mut Vec<Control>,
    flight: &Flight,
    row: &ChangeRow,
    number: u32,
) -> Result<(), Memory>
    requires legs { length flight.now.legs ≤ 8 }
    ensures { OnOk result (all.new.items ≡ all.old.items
        ++ (if is_named row.now flight.now then on_legs row.now number 0 flight.now.legs else [])) }
{
    if !is_named(row, flight) {
        return Ok(());
    }
    put_legs(all, flight.legs.as_slice(), row, number)
}

fn is_named(row: &ChangeRow, flight: &Flight) -> bool
    ensures { result ≡ is_named row.now flight.now }
{
    flight.airline == row.airline && flight.number == row.number && flight.suffix == row.suffix
}

#[tactic(auto, using(crate::proofs::Changing::leg_put, crate::proofs::Changing::legs_put))]
fn put_legs(
    all: &mut Vec<Control>,
    legs: &[DatedLeg],
    row: &ChangeRow,
    flight: u32,
) -> Result<(), Memory>
    requires legs { length legs.now ≤ 8 }
    ensures { OnOk result (all.new.items ≡ all.old.items ++ on_legs row.now flight 0 legs.now) }
{
    for leg in 0..legs.len() {
        put_leg(all, &legs[leg], row, flight, leg as u8)?;
    }
    Ok(())
}

fn put_leg(
    all: &mut Vec<Control>,
    here: &DatedLeg,
    row: &ChangeRow,
    flight: u32,
    leg: u8,
) -> Result<(), Memory>
    ensures { OnOk result (all.new.items ≡ all.old.items
        ++ (if here.now.day == row.now.day then on_leg row.now.setting flight leg ∷ [] else [])) }
{
    if here.day != row.day {
        return Ok(());
    }
    add(all, on_leg(row.setting, flight, leg))
}

fn add(all: &mut Vec<Control>, control: Control) -> Result<(), Memory>
    ensures { OnOk result (all.new.items ≡ all.old.items ++ control ∷ []) }
{
    let _limit: Option<Change> = None;
    let _sale: Option<SaleChange> = None;
    let _class: Option<Class> = None;
    all.push(control)?;
    Ok(())
}

// What a row sets, on a leg.
fn on_leg(setting: RowSetting, flight: u32, leg: u8) -> Control
    ensures { result ≡ on_leg setting flight leg }
{
    match setting {
        RowSetting::SetLimit(class, limit, wait) => Control::ToLimit(Change {
            flight,
            leg,
            class,
            limit,
            wait,
        }),
        RowSetting::SetSale(class, closed) => Control::ToSale(SaleChange {
            flight,
            leg,
            class,
            closed,
        }),
    }
}

// The flight and the day that a row names, and two cities.
fn wanted_by(row: &ChangeRow, cities: Cities) -> Wanted
    ensures { result ≡ wanted_by row.now cities }
{
    Wanted {
        airline: row.airline,
        number: row.number,
        suffix: row.suffix,
        day: row.day,
        board: cities.board,
        off: cities.off,
    }
}
