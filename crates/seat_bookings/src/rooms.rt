//! Whether more may wait on a leg, and whether its class has the mark by which a need is listed.
ghost use Rattle.std.specs.Prelude.{◌≡◌, ◌+◌, ◌≤◌, length, nat_le};
ghost use Rattle.seat_nesting.specs.Counting.{limits_of};
ghost use Rattle.seat_bookings.specs.Demands.{waits_of};
ghost use Rattle.seat_nesting.specs.Nesting.{ladder_at, is_listed, is_listed_on, may_wait, may_wait_on};

use crate::demands::Demand;
use airline_base::{Class, Place};
use seat_nesting::{Counts, Step};

/// Whether so many seats, with those that wait in this class on this leg, are at most `most`.
fn fits_waiting(
    demands: &[Demand],
    flight: u32,
    leg: u8,
    class: Class,
    seats: u16,
    most: u16,
) -> bool
    ensures { result ≡ nat_le (waits_of demands.now flight leg class + seats) most }
{
    let mut left = u64::from(most);
    for demand in demands {
        let waits = demand.waits_on(flight, leg, class);
        if waits > left {
            return false;
        }
        left -= waits;
    }
    u64::from(seats) <= left
}

/// Whether so many more seats may wait on one leg, whose ladder this is.
pub fn may_wait_on_leg(
    steps: &[Step],
    demands: &[Demand],
    flight: u32,
    leg: u8,
    class: Class,
    seats: u16,
) -> bool
    ensures { result ≡ may_wait_on steps.now (waits_of demands.now flight leg) class seats }
{
    for step in steps {
        if step.class == class {
            if step.closed {
                return false;
            }
            let wait = step.wait;
            return fits_waiting(demands, flight, leg, class, seats, wait);
        }
    }
    false
}

/// Whether so many more seats may wait on a place.
pub fn may_wait_at(
    counts: &Counts,
    demands: &[Demand],
    place: Place,
    class: Class,
    seats: u16,
) -> bool
    ensures { result ≡ may_wait (limits_of counts.now) (waits_of demands.now) place class seats }
{
    let flight = place.flight;
    if place.from > place.to {
        return false;
    }
    let first = steps_at(counts, flight, place.from);
    let mut may = may_wait_on_leg(first, demands, flight, place.from, class, seats);
    for leg in place.from..place.to {
        let next = leg + 1;
        let steps = steps_at(counts, flight, next);
        let here = may_wait_on_leg(steps, demands, flight, next, class, seats);
        may = may && here;
    }
    may
}

/// Whether the class has the mark on one leg, whose ladder this is.
fn is_listed_on_leg(steps: &[Step], class: Class) -> bool
    ensures { result ≡ is_listed_on steps.now class }
{
    for step in steps {
        if step.class == class {
            return step.listed;
        }
    }
    false
}

/// Whether each leg of a place has the class with the mark.
pub fn is_listed_at(counts: &Counts, place: Place, class: Class) -> bool
    ensures { result ≡ is_listed (limits_of counts.now) place class }
{
    let flight = place.flight;
    if place.from > place.to {
        return false;
    }
    let first = steps_at(counts, flight, place.from);
    let mut listed = is_listed_on_leg(first, class);
    for leg in place.from..place.to {
        let steps = steps_at(counts, flight, leg + 1);
        let here = is_listed_on_leg(steps, class);
        listed = listed && here;
    }
    listed
}

/// The limits of a leg now; no step where it has none.
pub fn steps_at(counts: &Counts, flight: u32, leg: u8) -> &[Step]
    ensures value { result.now ≡ ladder_at (limits_of counts.now) flight leg }
    ensures short { length result.now ≤ 26 }
{
    match counts.ladder(flight, leg) {
        Some(ladder) => ladder.steps(),
        None => &[],
    }
}
