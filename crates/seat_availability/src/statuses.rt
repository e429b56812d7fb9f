//! The status of a class on a place.
//! It knows no partner and no text.
ghost use Rattle.std.specs.Prelude.{◌≡◌, ◌+◌, ◌≤◌, nat_le};
ghost use Rattle.seat_nesting.specs.Nesting.{ladder_at, may_wait, may_wait_on};
ghost use Rattle.seat_rules.specs.Bookings.{waiting};
ghost use Rattle.seat_rules.specs.Inventory.{state_now};
ghost use Rattle.seat_desk.specs.AuditDesk.{most_lines};
ghost use Rattle.seat_availability.specs.Statuses.{has_seats, is_operated, status_at};

use airline_base::{Class, Place};
use seat_core::Core;
use seat_nesting::Step;
use seat_questions::waiting;

/// What a class of a segment is.
#[derive(Clone, Copy)]
pub enum Status {
    /// Seats are for sale.
    Open,
    /// None is, and a seat may wait.
    ListOpen,
    /// None is, and none may wait.
    Closed,
    /// On a leg of the segment no seat is authorised in any class.
    NotOperated,
}

/// The status of a class on a place with so much room, where the room of the threshold counts as none.
pub fn status_at(core: &Core, place: Place, class: Class, threshold: u16, room: u16) -> Status
    requires capped { core.now.cap ≤ most_lines }
    ensures { result ≡ status_at (state_now core.now) place class threshold room }
{
    if !is_operated(core, place) {
        return Status::NotOperated;
    }
    if threshold < room {
        return Status::Open;
    }
    if may_wait(core, place, class) {
        return Status::ListOpen;
    }
    Status::Closed
}

/// Whether a seat is authorised on each leg of a place.
fn is_operated(core: &Core, place: Place) -> bool
    ensures { result ≡ is_operated (state_now core.now).grid place }
{
    let flight = place.flight;
    if place.from > place.to {
        return false;
    }
    let mut all = has_seats(core.steps(flight, place.from));
    for leg in place.from..place.to {
        let here = has_seats(core.steps(flight, leg + 1));
        all = all && here;
    }
    all
}

/// Whether the highest class of a leg has a seat.
fn has_seats(steps: &[Step]) -> bool
    ensures { result ≡ has_seats steps.now }
{
    match steps {
        [] => false,
        [first, ..] => 0 < first.limit,
    }
}

/// Whether a seat may wait on each leg of a place.
fn may_wait(core: &Core, place: Place, class: Class) -> bool
    requires capped { core.now.cap ≤ most_lines }
    ensures { result ≡ may_wait (state_now core.now).grid (waiting (state_now core.now).bookings) place class 1 }
{
    let flight = place.flight;
    if place.from > place.to {
        return false;
    }
    let mut may = may_wait_on(core, flight, place.from, class);
    for leg in place.from..place.to {
        let here = may_wait_on(core, flight, leg + 1, class);
        may = may && here;
    }
    may
}

/// Whether a seat may wait on a leg, where the class is open.
fn may_wait_on(core: &Core, flight: u32, leg: u8, class: Class) -> bool
    requires capped { core.now.cap ≤ most_lines }
    ensures { result ≡ may_wait_on (ladder_at (state_now core.now).grid flight leg)
        (waiting (state_now core.now).bookings flight leg) class 1 }
{
    let steps = core.steps(flight, leg);
    for step in steps {
        if step.class == class {
            if step.closed {
                return false;
            }
            return takes_one(core, flight, leg, class, step.wait);
        }
    }
    false
}

/// Whether the list of a class, which takes so many seats, takes one more.
#[tactic(auto, using(crate::proofs::Standing::takes_none, crate::proofs::Standing::takes_one))]
fn takes_one(core: &Core, flight: u32, leg: u8, class: Class, wait: u16) -> bool
    requires capped { core.now.cap ≤ most_lines }
    ensures { result ≡ nat_le (waiting (state_now core.now).bookings flight leg class + 1) wait }
{
    // Most classes have no list, and no booking is looked at for them.
    if wait == 0 {
        return false;
    }
    let seats = waiting(core, flight, leg, class);
    seats < u64::from(wait)
}
