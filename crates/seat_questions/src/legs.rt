//! The legs of a place as they stand after the lines so far.
ghost use Rattle.std.specs.Prelude.{◌≡◌, ◌++◌, ◌≤◌, ◌<◌, IfSome, OnOk, length};
ghost use Rattle.std.specs.List.{flat_map, list_any};
ghost use Rattle.seat_nesting.specs.Nesting.{Fits, ladder_at};
ghost use Rattle.seat_rules.specs.Bookings.{held, waiting, waits_on};
ghost use Rattle.seat_rules.specs.Inventory.{state_now};
ghost use Rattle.seat_desk.specs.AuditDesk.{most_lines};
ghost use Rattle.seat_desk.specs.FlightsDesk.{IsPut};
ghost use Rattle.seat_questions.specs.Why.{IsLegPart, IsLegPut, IsPlacePut, IsStandingPut, class_text, closed_line, closed_text, dated_legs, has_leg, held_line, held_texts, is_closed, limit_line, limit_text, one_leg, room_line, room_text, standing_text, wait_line, wait_text};

use airline_base::{Class, Place};
use seat_core::Core;
use seat_desk::{put, put_number, put_way};
use seat_nesting::Step;
use seat_rules::Booking;
use ssim_flights::{DatedLeg, Flights};
use std::alloc::AllocError;

/// Adds the lines of each leg of a place; no place has none.
#[tactic(auto, using(crate::proofs::Standings::place_none, crate::proofs::Standings::place_some))]
pub fn put_place(
    text: &mut Vec<u8>,
    flights: &Flights,
    core: &Core,
    place: Option<Place>,
) -> Result<(), AllocError>
    requires capped { core.now.cap ≤ most_lines }
    requires fits { IfSome place (Fits core.now.grid) }
    ensures { OnOk result (IsPlacePut flights.now (state_now core.now) place text.old.items text.new.items) }
{
    match place {
        Some(place) => put_flight(text, flights, core, place),
        None => Ok(()),
    }
}

#[tactic(auto, using(crate::proofs::Standings::no_flight, crate::proofs::Standings::flight_there))]
fn put_flight(
    text: &mut Vec<u8>,
    flights: &Flights,
    core: &Core,
    place: Place,
) -> Result<(), AllocError>
    requires capped { core.now.cap ≤ most_lines }
    requires fits { Fits core.now.grid place }
    ensures { OnOk result (IsPut (IsLegPart (state_now core.now) place) 0 (dated_legs flights.now place.flight)
        text.old.items text.new.items) }
{
    if place.flight >= flights.len() {
        return Ok(());
    }
    let flight = flights.flight(place.flight);
    put_legs(text, core, place, flight.legs.as_slice())
}

fn put_legs(
    text: &mut Vec<u8>,
    core: &Core,
    place: Place,
    legs: &[DatedLeg],
) -> Result<(), AllocError>
    requires capped { core.now.cap ≤ most_lines }
    requires fits { Fits core.now.grid place }
    requires few { length legs.now ≤ 8 }
    ensures { OnOk result (IsPut (IsLegPart (state_now core.now) place) 0 legs.now text.old.items text.new.items) }
{
    for j in 0..legs.len() {
        put_leg(text, core, place, j as u8, &legs[j])?;
    }
    Ok(())
}

/// Adds the lines of a leg, if the place covers it.
#[tactic(auto, using(crate::proofs::Standings::leg_away, crate::proofs::Standings::leg_there, crate::proofs::Standings::leg_fits))]
fn put_leg(
    text: &mut Vec<u8>,
    core: &Core,
    place: Place,
    leg: u8,
    dated: &DatedLeg,
) -> Result<(), AllocError>
    requires capped { core.now.cap ≤ most_lines }
    requires fits { Fits core.now.grid place }
    ensures { OnOk result (IsLegPut (state_now core.now) place leg dated.now text.old.items text.new.items) }
{
    if !has_leg(place, leg) {
        return Ok(());
    }
    put_covered(text, core, place.flight, leg, dated)
}

/// Whether a place covers a leg of its flight.
pub fn has_leg(place: Place, leg: u8) -> bool
    ensures { result ≡ has_leg place leg }
{
    place.from <= leg && leg <= place.to
}

/// Adds the lines of a leg.
#[tactic(auto, using(crate::proofs::Standings::standing_put))]
fn put_covered(
    text: &mut Vec<u8>,
    core: &Core,
    flight: u32,
    leg: u8,
    dated: &DatedLeg,
) -> Result<(), AllocError>
    requires capped { core.now.cap ≤ most_lines }
    requires fits { Fits core.now.grid (one_leg flight leg) }
    ensures { OnOk result (IsStandingPut (state_now core.now) flight leg dated.now text.old.items text.new.items) }
{
    put(text, b"LEG")?;
    put_way(text, dated)?;
    put(text, b"\n")?;
    put_standing(text, core, flight, leg)
}

/// One leg of a flight.
pub fn one_leg(flight: u32, leg: u8) -> Place
    ensures { result ≡ one_leg flight leg }
{
    Place {
        flight,
        from: leg,
        to: leg,
    }
}

/// Adds the limits, the seats held, the room and the seats that wait, and what is closed.
fn put_standing(text: &mut Vec<u8>, core: &Core, flight: u32, leg: u8) -> Result<(), AllocError>
    requires capped { core.now.cap ≤ most_lines }
    requires fits { Fits core.now.grid (one_leg flight leg) }
    ensures { OnOk result (text.new.items ≡ text.old.items ++ standing_text (state_now core.now) flight leg) }
{
    let steps = core.steps(flight, leg);
    put_limits(text, steps)?;
    put_held(text, core, flight, leg, steps)?;
    put_rooms(text, core, flight, leg, steps)?;
    put_waits(text, core, flight, leg, steps)?;
    put_closed(text, steps)
}

/// Adds a class and a number behind a blank.
pub fn put_class(text: &mut Vec<u8>, class: Class, number: u64) -> Result<(), AllocError>
    ensures { OnOk result (text.new.items ≡ text.old.items ++ class_text class number) }
{
    put(text, &[b' ', class.letter()])?;
    put_number(text, number)
}

fn put_limits(text: &mut Vec<u8>, steps: &[Step]) -> Result<(), AllocError>
    ensures { OnOk result (text.new.items ≡ text.old.items ++ limit_line steps.now) }
{
    put(text, b"LIMIT")?;
    put_each_limit(text, steps)?;
    put(text, b"\n")
}

fn put_each_limit(text: &mut Vec<u8>, steps: &[Step]) -> Result<(), AllocError>
    ensures { OnOk result (text.new.items ≡ text.old.items ++ flat_map limit_text steps.now) }
{
    for step in steps {
        put_class(text, step.class, u64::from(step.limit))?;
    }
    Ok(())
}

fn put_held(
    text: &mut Vec<u8>,
    core: &Core,
    flight: u32,
    leg: u8,
    steps: &[Step],
) -> Result<(), AllocError>
    requires ladder { steps.now ≡ ladder_at (state_now core.now).grid flight leg }
    ensures { OnOk result (text.new.items ≡ text.old.items
        ++ held_line (held (state_now core.now).bookings flight leg) steps.now) }
{
    put(text, b"HELD")?;
    put_each_held(text, core, flight, leg, steps)?;
    put(text, b"\n")
}

/// Adds the seats held in each class and those below it.
#[tactic(auto, using(crate::proofs::Standings::held_put))]
fn put_each_held(
    text: &mut Vec<u8>,
    core: &Core,
    flight: u32,
    leg: u8,
    steps: &[Step],
) -> Result<(), AllocError>
    requires ladder { steps.now ≡ ladder_at (state_now core.now).grid flight leg }
    ensures { OnOk result (text.new.items ≡ text.old.items
        ++ held_texts (held (state_now core.now).bookings flight leg) steps.now) }
{
    for i in 0..steps.len() {
        let seats = core.held_from(flight, leg, i);
        put_class(text, steps[i].class, u64::from(seats))?;
    }
    Ok(())
}

/// The seats that wait on a leg in a class.
#[tactic(auto, using(crate::proofs::Standings::waiting_there, crate::proofs::Standings::few_bookings))]
pub fn waiting(core: &Core, flight: u32, leg: u8, class: Class) -> u64
    requires capped { core.now.cap ≤ most_lines }
    ensures { result ≡ waiting (state_now core.now).bookings flight leg class }
{
    // For the prover alone: a journal of so few lines leaves no more bookings, so that their sum fits.
    let _ = core.journal();
    waiting_by(core.bookings_on(flight), flight, leg, class)
}

fn waiting_by(bookings: &[Booking], flight: u32, leg: u8, class: Class) -> u64
    requires few { length bookings.now ≤ 999999 }
    ensures { result ≡ waiting bookings.now flight leg class }
{
    let mut count = 0u64;
    for booking in bookings {
        count += u64::from(waits_on(booking, flight, leg, class));
    }
    count
}

/// The seats that a booking waits for on a leg in a class.
fn waits_on(booking: &Booking, flight: u32, leg: u8, class: Class) -> u16
    ensures { result ≡ waits_on flight leg class booking.now }
{
    let waits = booking.is_waiting() && booking.place.flight == flight;
    if waits && has_leg(booking.place, leg) && booking.class == class {
        booking.seats
    } else {
        0
    }
}

fn put_rooms(
    text: &mut Vec<u8>,
    core: &Core,
    flight: u32,
    leg: u8,
    steps: &[Step],
) -> Result<(), AllocError>
    requires fits { Fits core.now.grid (one_leg flight leg) }
    ensures { OnOk result (text.new.items ≡ text.old.items ++ room_line (state_now core.now) flight leg steps.now) }
{
    put(text, b"ROOM")?;
    put_each_room(text, core, flight, leg, steps)?;
    put(text, b"\n")
}

/// Adds the room in each class on a leg alone.
pub fn put_each_room(
    text: &mut Vec<u8>,
    core: &Core,
    flight: u32,
    leg: u8,
    steps: &[Step],
) -> Result<(), AllocError>
    requires fits { Fits core.now.grid (one_leg flight leg) }
    ensures { OnOk result (text.new.items ≡ text.old.items
        ++ flat_map (room_text (state_now core.now) flight leg) steps.now) }
{
    let place = one_leg(flight, leg);
    for step in steps {
        put_class(text, step.class, u64::from(core.room(place, step.class)))?;
    }
    Ok(())
}

fn put_waits(
    text: &mut Vec<u8>,
    core: &Core,
    flight: u32,
    leg: u8,
    steps: &[Step],
) -> Result<(), AllocError>
    requires capped { core.now.cap ≤ most_lines }
    ensures { OnOk result (text.new.items ≡ text.old.items
        ++ wait_line (waiting (state_now core.now).bookings flight leg) steps.now) }
{
    put(text, b"WAIT")?;
    put_each_wait(text, core, flight, leg, steps)?;
    put(text, b"\n")
}

/// Adds the seats that wait in each class, of the most that may.
pub fn put_each_wait(
    text: &mut Vec<u8>,
    core: &Core,
    flight: u32,
    leg: u8,
    steps: &[Step],
) -> Result<(), AllocError>
    requires capped { core.now.cap ≤ most_lines }
    ensures { OnOk result (text.new.items ≡ text.old.items
        ++ flat_map (wait_text (waiting (state_now core.now).bookings flight leg)) steps.now) }
{
    for step in steps {
        put_wait(text, core, flight, leg, step)?;
    }
    Ok(())
}

/// Adds the seats that wait in a class, of the most that may.
fn put_wait(
    text: &mut Vec<u8>,
    core: &Core,
    flight: u32,
    leg: u8,
    step: &Step,
) -> Result<(), AllocError>
    requires capped { core.now.cap ≤ most_lines }
    ensures { OnOk result (text.new.items ≡ text.old.items
        ++ wait_text (waiting (state_now core.now).bookings flight leg) step.now) }
{
    put_class(text, step.class, waiting(core, flight, leg, step.class))?;
    put(text, b"/")?;
    put_number(text, u64::from(step.wait))
}

/// Adds the classes that are closed, where there are any.
fn put_closed(text: &mut Vec<u8>, steps: &[Step]) -> Result<(), AllocError>
    ensures { OnOk result (text.new.items ≡ text.old.items ++ closed_line steps.now) }
{
    if !has_closed(steps) {
        return put(text, &[]);
    }
    put(text, b"CLOSED")?;
    put_each_closed(text, steps)?;
    put(text, b"\n")
}

/// Whether any class is closed.
fn has_closed(steps: &[Step]) -> bool
    ensures { result ≡ list_any is_closed steps.now }
{
    steps.iter().any(|step| step.closed)
}

fn put_each_closed(text: &mut Vec<u8>, steps: &[Step]) -> Result<(), AllocError>
    ensures { OnOk result (text.new.items ≡ text.old.items ++ flat_map closed_text steps.now) }
{
    for step in steps {
        put_if_closed(text, step)?;
    }
    Ok(())
}

/// Adds a class behind a blank, where it is closed.
fn put_if_closed(text: &mut Vec<u8>, step: &Step) -> Result<(), AllocError>
    ensures { OnOk result (text.new.items ≡ text.old.items ++ closed_text step.now) }
{
    if step.closed {
        put(text, &[b' ', step.class.letter()])
    } else {
        put(text, &[])
    }
}
