//! A look at the seats that are left.
ghost use Rattle.std.specs.Prelude.{◌≡◌, ◌==◌, ◌++◌, IfOk, IfSome, OnOk};
ghost use Rattle.ssim_flights.specs.Places.{place_wanted};
ghost use Rattle.flight_days.specs.Leaving.{AreDaysOf};
ghost use Rattle.seat_desk.specs.FlightsDesk.{designator_text, IsText};
ghost use Rattle.seat_desk.specs.Loading.{IsGridOf};
ghost use Rattle.seat_nesting.specs.Nesting.{Fits};
ghost use Rattle.desk_answers.specs.Looks.{class_text, classes_text, wanted_at, wanted_on, IsAhead, IsDayLook, IsFlightLine, IsFoundLine, IsLookLine, IsNoneLine, IsOwnLine, IsPlaceLine, IsSaidOf, IsSeen};

use crate::look_parts::{asked_part, flight_part, left_part, lines_part};
use crate::seats::Seats;
use airimp_lines::{FlightClass, Look};
use airline_base::{Memory, Place};
use flight_days::DayFlights;
use seat_desk::{put, put_designator, put_number};
use seat_nesting::Step;
use ssim_flights::{Flight, Flights, Served, Wanted};
use std::alloc::Global;

/// The lines that answer a look, where the flights of each day are known: a look at a day goes over its flights alone.
pub fn seen<S: Seats>(
    alloc: Global,
    flights: &Flights,
    served: &Served<'_>,
    days: &DayFlights,
    seats: &S,
    look: &Look,
) -> Result<Vec<u8>, Memory>
    requires served { served.now ≡ flights.now }
    requires days { AreDaysOf days.now flights.now }
    requires grid { IsGridOf flights.now (S.ladders seats.now) }
    ensures { IfOk result (λ text. IsSeen flights.now (S.ladders seats.now) (S.state seats.now) (S.count seats.now)
        look.now.flight look.now text.items) }
{
    match &look.flight {
        Some(flight) => look_line(alloc, served, seats, flight, look),
        None => day_lines(alloc, flights, served, days, seats, look),
    }
}

// The line that answers a look at a class of a flight.
#[tactic(auto, using(crate::proofs::Finding::there_fits))]
fn look_line<S: Seats>(
    alloc: Global,
    served: &Served<'_>,
    seats: &S,
    flight: &FlightClass,
    look: &Look,
) -> Result<Vec<u8>, Memory>
    requires { IsGridOf served.now (S.ladders seats.now) }
    ensures { IfOk result (λ text. IsLookLine served.now (S.state seats.now) (S.count seats.now) flight.now look.now
        text.items) }
{
    let place = served.find(&wanted_at(flight, look));
    let mut text = ahead(alloc, seats, look, flight_part(flight).as_slice())?;
    put(&mut text, left_part(seats, place, flight.class).as_slice())?;
    Ok(text)
}

// The lines that answer a look at each flight of a day between two stations.
#[tactic(auto, using(crate::proofs::Days::day_said))]
fn day_lines<S: Seats>(
    alloc: Global,
    flights: &Flights,
    served: &Served<'_>,
    days: &DayFlights,
    seats: &S,
    look: &Look,
) -> Result<Vec<u8>, Memory>
    requires served { served.now ≡ flights.now }
    requires days { AreDaysOf days.now flights.now }
    requires grid { IsGridOf flights.now (S.ladders seats.now) }
    ensures { IfOk result (λ text. IsDayLook flights.now (S.ladders seats.now) (S.state seats.now) (S.count seats.now) look.now text.items) }
{
    let lines = flight_lines(alloc, flights, served, days, seats, look)?;
    lines_or_none(alloc, seats, look, lines)
}

// Where there are no lines, that of no flight.
#[tactic(auto, using(crate::proofs::Days::none_said, crate::proofs::Days::some_said))]
fn lines_or_none<S: Seats>(
    alloc: Global,
    seats: &S,
    look: &Look,
    lines: Vec<u8>,
) -> Result<Vec<u8>, Memory>
    ensures { IfOk result (λ text. IsSaidOf (S.count seats.now) look.now lines.items text.items) }
{
    if lines.is_empty() {
        return none_line(alloc, seats, look);
    }
    Ok(lines)
}

// LOOK, how many lines the journal has, a flight, the day and the stations.
fn ahead<S: Seats>(alloc: Global, seats: &S, look: &Look, flight: &[u8]) -> Result<Vec<u8>, Memory>
    ensures { IfOk result (λ text. IsAhead (S.count seats.now) look.now flight.now text.items) }
{
    let mut text = Vec::new(alloc);
    put(&mut text, lines_part(seats.lines_seen()).as_slice())?;
    put(&mut text, flight)?;
    put(&mut text, asked_part(look.day.bytes(), look).as_slice())?;
    Ok(text)
}

// The lines of all flights: one that is not in the day's list has none.
fn flight_lines<S: Seats>(
    alloc: Global,
    flights: &Flights,
    served: &Served<'_>,
    days: &DayFlights,
    seats: &S,
    look: &Look,
) -> Result<Vec<u8>, Memory>
    requires served { served.now ≡ flights.now }
    requires days { AreDaysOf days.now flights.now }
    requires grid { IsGridOf flights.now (S.ladders seats.now) }
    ensures { IfOk result (λ text. IsText
        (IsFlightLine flights.now (S.ladders seats.now) (S.state seats.now) (S.count seats.now) look.now) 0 flights.now text.items) }
{
    let mut text = Vec::new(alloc);
    let numbers = days.on(look.day);
    for index in numbers {
        let flight = flights.flight(*index);
        let line = flight_line(alloc, served, seats, look, *index, &flight)?;
        put(&mut text, line.as_slice())?;
    }
    Ok(text)
}

// The line of a flight, if what is looked at is a place of it.
#[tactic(auto, using(crate::proofs::Finding::there_fits))]
fn flight_line<S: Seats>(
    alloc: Global,
    served: &Served<'_>,
    seats: &S,
    look: &Look,
    index: u32,
    flight: &Flight,
) -> Result<Vec<u8>, Memory>
    requires grid { IsGridOf served.now (S.ladders seats.now) }
    ensures { IfOk result (λ text. IsFlightLine served.now (S.ladders seats.now) (S.state seats.now) (S.count seats.now) look.now index flight.now
        text.items) }
{
    let place = served.find(&wanted_on(flight, look));
    found_line(alloc, seats, look, index, flight, place)
}

fn found_line<S: Seats>(
    alloc: Global,
    seats: &S,
    look: &Look,
    index: u32,
    flight: &Flight,
    place: Option<Place>,
) -> Result<Vec<u8>, Memory>
    requires { IfSome place (Fits (S.ladders seats.now)) }
    ensures { IfOk result (λ text. IsFoundLine (S.ladders seats.now) (S.state seats.now) (S.count seats.now) look.now index flight.now place
        text.items) }
{
    match place {
        Some(place) => own_line(alloc, seats, look, index, flight, place),
        None => Ok(Vec::new(alloc)),
    }
}

fn own_line<S: Seats>(
    alloc: Global,
    seats: &S,
    look: &Look,
    index: u32,
    flight: &Flight,
    place: Place,
) -> Result<Vec<u8>, Memory>
    requires { Fits (S.ladders seats.now) place }
    ensures { IfOk result (λ text. IsOwnLine (S.ladders seats.now) (S.state seats.now) (S.count seats.now) look.now flight.now place
        (place.flight == index) text.items) }
{
    if place.flight == index {
        place_line(alloc, seats, look, flight, place)
    } else {
        Ok(Vec::new(alloc))
    }
}

// The line of a place of a flight.
fn place_line<S: Seats>(
    alloc: Global,
    seats: &S,
    look: &Look,
    flight: &Flight,
    place: Place,
) -> Result<Vec<u8>, Memory>
    requires { Fits (S.ladders seats.now) place }
    ensures { IfOk result (λ text. IsPlaceLine (S.ladders seats.now) (S.state seats.now) (S.count seats.now) look.now flight.now place
        text.items) }
{
    let mut text = flight_ahead(alloc, seats, look, flight)?;
    put_classes(&mut text, seats, place)?;
    put(&mut text, b"\n")?;
    Ok(text)
}

// What stands ahead of the seats of a flight.
fn flight_ahead<S: Seats>(
    alloc: Global,
    seats: &S,
    look: &Look,
    flight: &Flight,
) -> Result<Vec<u8>, Memory>
    ensures { IfOk result (λ text. IsAhead (S.count seats.now) look.now (designator_text flight.now) text.items) }
{
    let mut name = Vec::new(alloc);
    put_designator(&mut name, flight)?;
    let text = ahead(alloc, seats, look, name.as_slice())?;
    Ok(text)
}

// The seats that are left in each class of the place's first leg.
fn put_classes<S: Seats>(text: &mut Vec<u8>, seats: &S, place: Place) -> Result<(), Memory>
    requires { Fits (S.ladders seats.now) place }
    ensures { OnOk result (text.new.items ≡ text.old.items
        ++ classes_text (S.ladders seats.now) (S.state seats.now) place) }
{
    let steps = seats.opening().steps(place.flight, place.from);
    for step in steps {
        put_class(text, seats, place, step)?;
    }
    Ok(())
}

fn put_class<S: Seats>(
    text: &mut Vec<u8>,
    seats: &S,
    place: Place,
    step: &Step,
) -> Result<(), Memory>
    requires { Fits (S.ladders seats.now) place }
    ensures { OnOk result (text.new.items ≡ text.old.items
        ++ class_text (S.state seats.now) place step.now) }
{
    put(text, b" ")?;
    put(text, &[step.class.letter()])?;
    put_number(text, u64::from(seats.left_on(place, step.class)))?;
    Ok(())
}

// No flight serves what is looked at.
fn none_line<S: Seats>(alloc: Global, seats: &S, look: &Look) -> Result<Vec<u8>, Memory>
    ensures { IfOk result (λ text. IsNoneLine (S.count seats.now) look.now text.items) }
{
    let mut text = ahead(alloc, seats, look, b"-")?;
    put(&mut text, b" -\n")?;
    Ok(text)
}

fn wanted_at(flight: &FlightClass, look: &Look) -> Wanted
    ensures { result ≡ wanted_at flight.now look.now }
{
    Wanted {
        airline: flight.airline,
        number: flight.number,
        suffix: flight.suffix,
        day: look.day,
        board: look.board,
        off: look.off,
    }
}

fn wanted_on(flight: &Flight, look: &Look) -> Wanted
    ensures { result ≡ wanted_on flight.now look.now }
{
    Wanted {
        airline: flight.airline,
        number: flight.number,
        suffix: flight.suffix,
        day: look.day,
        board: look.board,
        off: look.off,
    }
}
