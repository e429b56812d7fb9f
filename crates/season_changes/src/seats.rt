//! The seats of the live bookings of a flight.
//! It knows no other flight.
ghost use Rattle.std.specs.Prelude.{◌≡◌, ◌≤◌, length};
ghost use Rattle.std.specs.List.{sum_by};
ghost use Rattle.seat_rules.specs.Bookings.{is_held, is_waiting};
ghost use Rattle.seat_rules.specs.Inventory.{state_now};
ghost use Rattle.seat_desk.specs.AuditDesk.{most_lines};
ghost use Rattle.season_changes.specs.Seats.{seats_if, seats_on};

use seat_core::Core;
use seat_rules::Booking;

/// The seats that are held on a flight.
#[tactic(auto, using(seat_questions::proofs::Standings::few_bookings, crate::proofs::Seating::seats_are))]
pub(crate) fn held_on(core: &Core, flight: u32) -> u64
    requires capped { core.now.cap ≤ most_lines }
    ensures { result ≡ seats_on is_held flight (state_now core.now).bookings }
{
    // For the prover alone: a journal of so few lines leaves no more bookings, so that their sum fits.
    let _ = core.journal();
    held_among(core.bookings_on(flight))
}

/// The seats that wait for it.
#[tactic(auto, using(seat_questions::proofs::Standings::few_bookings, crate::proofs::Seating::seats_are))]
pub(crate) fn waiting_on(core: &Core, flight: u32) -> u64
    requires capped { core.now.cap ≤ most_lines }
    ensures { result ≡ seats_on is_waiting flight (state_now core.now).bookings }
{
    let _ = core.journal();
    waiting_among(core.bookings_on(flight))
}

fn held_among(bookings: &[Booking]) -> u64
    requires few { length bookings.now ≤ 999999 }
    ensures { result ≡ sum_by (seats_if is_held) bookings.now }
{
    let mut seats = 0u64;
    for booking in bookings {
        seats += u64::from(held_by(booking));
    }
    seats
}

fn waiting_among(bookings: &[Booking]) -> u64
    requires few { length bookings.now ≤ 999999 }
    ensures { result ≡ sum_by (seats_if is_waiting) bookings.now }
{
    let mut seats = 0u64;
    for booking in bookings {
        seats += u64::from(waiting_by(booking));
    }
    seats
}

fn held_by(booking: &Booking) -> u16
    ensures { result ≡ seats_if is_held booking.now }
{
    if booking.is_waiting() {
        0
    } else {
        booking.seats
    }
}

fn waiting_by(booking: &Booking) -> u16
    ensures { result ≡ seats_if is_waiting booking.now }
{
    if booking.is_waiting() {
        booking.seats
    } else {
        0
    }
}
