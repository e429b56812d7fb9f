//! Whether limits have room as they are for what bookings hold and for what waits.
//! It knows no season.
ghost use Rattle.std.specs.Prelude.{◌≡◌, ◌==◌, ◌&&◌, IfSome, min};
ghost use Rattle.std.specs.Bool.{OnTrue};
ghost use Rattle.seat_nesting.specs.Nesting.{covers};
ghost use Rattle.seat_rules.specs.Bookings.{held, seats_on, waiting, waits_on};
ghost use Rattle.carry_limits.specs.Filed.{HoldsRoomy, IsRoomy};
ghost use Rattle.carry_limits.specs.Overs.{most_counted};

use airline_base::{Class, Place};
use seat_nesting::Step;
use seat_rules::Booking;

/// What bookings hold and what they wait for on a leg in a class, each counted up to 4,294,967,295.
#[derive(Clone, Copy)]
struct Claims {
    held: u32,
    waits: u32,
}

/// Whether each rank of a leg has room for what bookings hold in it and below it, and for what waits in it.
#[tactic(auto, using(crate::proofs::Unlifted::roomy_of))]
pub(crate) fn has_room(steps: &[Step], bookings: &[Booking], flight: u32, leg: u8) -> bool
    ensures { OnTrue result (IsRoomy steps.now (held bookings.now flight leg) (waiting bookings.now flight leg)) }
{
    match held_roomy(steps, bookings, flight, leg) {
        Some(_held) => true,
        None => false,
    }
}

/// What bookings hold in these ranks, where each of them has room.
#[tactic(auto, using(crate::proofs::Unlifted::roomy_none, crate::proofs::Unlifted::roomy_more))]
fn held_roomy(steps: &[Step], bookings: &[Booking], flight: u32, leg: u8) -> Option<u32>
    ensures { IfSome result (HoldsRoomy steps.now (held bookings.now flight leg) (waiting bookings.now flight leg)) }
{
    let Some((step, lower)) = steps.split_first() else {
        return Some(0);
    };
    let below = held_roomy(lower, bookings, flight, leg)?;
    let claims = claims_on(bookings, flight, leg, step.class);
    let held = below.saturating_add(claims.held);
    if held > u32::from(step.limit) {
        return None;
    }
    if claims.waits > u32::from(step.wait) {
        return None;
    }
    Some(held)
}

fn claims_on(bookings: &[Booking], flight: u32, leg: u8, class: Class) -> Claims
    ensures held { result.held ≡ min most_counted (held bookings.now flight leg class) }
    ensures waits { result.waits ≡ min most_counted (waiting bookings.now flight leg class) }
{
    let mut held = 0u32;
    let mut waits = 0u32;
    for booking in bookings {
        held = held.saturating_add(seats_on(booking, flight, leg, class));
        waits = waits.saturating_add(waits_on(booking, flight, leg, class));
    }
    Claims { held, waits }
}

fn seats_on(booking: &Booking, flight: u32, leg: u8, class: Class) -> u32
    ensures { result ≡ seats_on flight leg class booking.now }
{
    if !booking.is_waiting() && is_on(booking, flight, leg, class) {
        u32::from(booking.seats)
    } else {
        0
    }
}

fn waits_on(booking: &Booking, flight: u32, leg: u8, class: Class) -> u32
    ensures { result ≡ waits_on flight leg class booking.now }
{
    if booking.is_waiting() && is_on(booking, flight, leg, class) {
        u32::from(booking.seats)
    } else {
        0
    }
}

/// Whether a booking is for the class on the leg.
fn is_on(booking: &Booking, flight: u32, leg: u8, class: Class) -> bool
    ensures { result ≡ (covers flight leg booking.now.place && (booking.now.class == class)) }
{
    covers(flight, leg, booking.place) && booking.class == class
}

/// Whether a place covers a leg.
pub(crate) fn covers(flight: u32, leg: u8, place: Place) -> bool
    ensures { result ≡ covers flight leg place }
{
    place.flight == flight && place.from <= leg && leg <= place.to
}
