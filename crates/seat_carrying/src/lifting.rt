//! Limits lifted to what is held and what waits.
ghost use Rattle.std.specs.Prelude.{◌≡◌, ◌≤◌, ◌<◌, ◌==◌, ◌&&◌, min, max, length, slice_set};
ghost use Rattle.seat_nesting.specs.Nesting.{IsLadder, covers};
ghost use Rattle.seat_rules.specs.Bookings.{held, seats_on, waiting, waits_on};
ghost use Rattle.seat_carrying.specs.Lifting.{lifted};

use airline_base::{Class, Place};
use arrayvec::ArrayVec;
use seat_nesting::{Ladder, Step};
use seat_rules::Booking;

/// Seats are counted up to here: no limit and no wait is above 999.
const MANY: u32 = 1_000;

/// The limits of a leg of so many seats, at most 999, lifted for these bookings: each rank to what is held in it and below it, as far as there are seats,
/// and each wait to what waits, as far as 999.
pub fn lifted_for(seats: u16, ladder: &Ladder, bookings: &[Booking], flight: u32, leg: u8) -> Ladder
    requires { seats ≤ 999 }
    ensures { result ≡ lifted seats (held bookings.now flight leg) (waiting bookings.now flight leg) ladder.now }
{
    let lifted = lifted_steps(seats, ladder.steps(), bookings, flight, leg);
    match Ladder::new(&lifted) {
        Ok(ladder) => ladder,
        Err(_) => unreachable!(),
    }
}

fn lifted_steps(
    top: u16,
    steps: &[Step],
    bookings: &[Booking],
    flight: u32,
    leg: u8,
) -> ArrayVec<Step, 26>
    requires few { top ≤ 999 }
    requires ladder { IsLadder steps.now }
    ensures { result.items ≡ lifted top (held bookings.now flight leg) (waiting bookings.now flight leg) steps.now }
{
    let mut new = copy_of(steps);
    let mut held = 0u32;
    let mut rank = steps.len();
    while rank > 0 {
        rank -= 1;
        let step = &steps[rank];
        held = (held + seats_held(bookings, flight, leg, step.class)).min(MANY);
        let waits = seats_waiting(bookings, flight, leg, step.class);
        put_step(&mut new, rank, lifted_step(top, step, held, waits));
    }
    new
}

fn put_step(steps: &mut ArrayVec<Step, 26>, rank: usize, step: Step)
    requires { rank < length steps.old.items }
    ensures { steps.new.items ≡ slice_set steps.old.items rank step }
{
    steps[rank] = step;
}

fn copy_of(steps: &[Step]) -> ArrayVec<Step, 26>
    requires { length steps.now ≤ 26 }
    ensures { result.items ≡ steps.now }
{
    let mut copy = ArrayVec::new();
    let extended = copy.try_extend_from_slice(steps);
    prove!(extended.is_ok());
    let _ = extended;
    copy
}

/// A step with room for what is held in it and below it, as far as there are seats, and for what waits.
fn lifted_step(top: u16, step: &Step, held: u32, waits: u32) -> Step
    ensures { result ≡ record step.now { limit = min top (max step.now.limit held); wait = min 999 (max step.now.wait waits) } }
{
    Step {
        limit: u32::from(step.limit).max(held).min(u32::from(top)) as u16,
        wait: u32::from(step.wait).max(waits).min(999) as u16,
        class: step.class,
        listed: step.listed,
        closed: step.closed,
    }
}

/// The seats that bookings hold on a leg in a class, counted up to 1,000.
fn seats_held(bookings: &[Booking], flight: u32, leg: u8, class: Class) -> u32
    ensures { result ≡ min 1000 (held bookings.now flight leg class) }
{
    let mut seats = 0u32;
    for booking in bookings {
        seats = (seats + seats_on(booking, flight, leg, class)).min(MANY);
    }
    seats
}

/// The seats for which bookings wait on a leg in a class, counted up to 1,000.
fn seats_waiting(bookings: &[Booking], flight: u32, leg: u8, class: Class) -> u32
    ensures { result ≡ min 1000 (waiting bookings.now flight leg class) }
{
    let mut seats = 0u32;
    for booking in bookings {
        seats = (seats + waits_on(booking, flight, leg, class)).min(MANY);
    }
    seats
}

fn seats_on(booking: &Booking, flight: u32, leg: u8, class: Class) -> u32
    ensures seats { result ≡ seats_on flight leg class booking.now }
    ensures few { result ≤ 65535 }
{
    if !booking.is_waiting() && is_on(booking, flight, leg, class) {
        u32::from(booking.seats)
    } else {
        0
    }
}

fn waits_on(booking: &Booking, flight: u32, leg: u8, class: Class) -> u32
    ensures seats { result ≡ waits_on flight leg class booking.now }
    ensures few { result ≤ 65535 }
{
    if booking.is_waiting() && is_on(booking, flight, leg, class) {
        u32::from(booking.seats)
    } else {
        0
    }
}

/// Whether a booking is for the class on the leg.
fn is_on(booking: &Booking, flight: u32, leg: u8, class: Class) -> bool
    ensures { result ≡ (covers flight leg booking.now.place && (booking.now.class == class)) }
{
    covers(flight, leg, booking.place) && booking.class == class
}

fn covers(flight: u32, leg: u8, place: Place) -> bool
    ensures { result ≡ covers flight leg place }
{
    place.flight == flight && place.from <= leg && leg <= place.to
}
