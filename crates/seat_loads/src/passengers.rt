//! The passengers on the legs that are kept: the seats of bookings, each once.
//! It knows no limit.
ghost use Rattle.std.specs.Prelude.{◌≡◌, ◌≤◌, length};
ghost use Rattle.seat_rules.specs.Bookings.{is_held, is_waiting};
ghost use Rattle.seat_rules.specs.Inventory.{state_now};
ghost use Rattle.seat_desk.specs.AuditDesk.{most_lines};
ghost use Rattle.seat_loads.specs.Sums.{AreRiders, AreRidersOn, is_on, meets, most_riders, rides, seats_among};

use crate::loads::{LoadsOf, is_kept};
use seat_core::Core;
use seat_lists::keeps_flight;
use seat_questions::has_leg;
use seat_rules::Booking;
use ssim_flights::{DatedLeg, Flight, Flights};

/// The seats of bookings.
#[derive(Clone, Copy)]
pub struct Riders {
    /// Of those that are held.
    pub held: u64,
    /// Of those that wait.
    pub waiting: u64,
}

/// The passengers on any leg that is kept.
#[tactic(auto, using(crate::proofs::Riding::no_riders, crate::proofs::Riding::all_riders))]
pub fn riders_of(flights: &Flights, core: &Core, asked: &LoadsOf) -> Riders
    requires capped { core.now.cap ≤ most_lines }
    ensures { AreRiders asked.now (state_now core.now) flights.now result }
{
    let mut riders = Riders {
        held: 0,
        waiting: 0,
    };
    for index in 0..flights.len() {
        let more = flight_riders(core, asked, index, &flights.flight(index));
        riders = Riders {
            held: riders.held + more.held,
            waiting: riders.waiting + more.waiting,
        };
    }
    riders
}

/// Those of a flight: none where it is not kept.
#[tactic(auto, using(seat_questions::proofs::Standings::few_bookings, crate::proofs::Riding::left_riders, crate::proofs::Riding::kept_riders))]
pub fn flight_riders(core: &Core, asked: &LoadsOf, index: u32, flight: &Flight) -> Riders
    requires capped { core.now.cap ≤ most_lines }
    requires legs { length flight.now.legs ≤ 8 }
    ensures { AreRidersOn asked.now (state_now core.now) index flight.now result }
{
    if !keeps_flight(asked.flight, flight) {
        return Riders {
            held: 0,
            waiting: 0,
        };
    }
    // For the prover alone: a journal of so few lines leaves no more bookings, so that their sum fits.
    let _ = core.journal();
    let bookings = core.bookings_on(index);
    let legs = flight.legs.as_slice();
    Riders {
        held: held_among(bookings, asked, legs),
        waiting: waiting_among(bookings, asked, legs),
    }
}

/// The seats of the bookings that are held and on any of these legs that is kept.
fn held_among(bookings: &[Booking], asked: &LoadsOf, legs: &[DatedLeg]) -> u64
    requires few { length bookings.now ≤ 999999 }
    requires legs { length legs.now ≤ 8 }
    ensures value { result ≡ seats_among asked.now is_held legs.now bookings.now }
    ensures few { result ≤ most_riders }
{
    let mut seats = 0u64;
    for booking in bookings {
        seats += u64::from(rides(booking, !booking.is_waiting(), asked, legs));
    }
    seats
}

/// The seats of those that wait.
fn waiting_among(bookings: &[Booking], asked: &LoadsOf, legs: &[DatedLeg]) -> u64
    requires few { length bookings.now ≤ 999999 }
    requires legs { length legs.now ≤ 8 }
    ensures value { result ≡ seats_among asked.now is_waiting legs.now bookings.now }
    ensures few { result ≤ most_riders }
{
    let mut seats = 0u64;
    for booking in bookings {
        seats += u64::from(rides(booking, booking.is_waiting(), asked, legs));
    }
    seats
}

/// The seats of a booking that counts and is on any of these legs that is kept; else none.
fn rides(booking: &Booking, counts: bool, asked: &LoadsOf, legs: &[DatedLeg]) -> u16
    requires legs { length legs.now ≤ 8 }
    ensures { result ≡ rides asked.now counts legs.now booking.now }
{
    if counts && is_on(booking, asked, legs) {
        booking.seats
    } else {
        0
    }
}

/// Whether a booking is on any of these legs that is kept.
#[tactic(auto, using(crate::proofs::Riding::leg_passed, crate::proofs::Riding::leg_met, crate::proofs::Riding::none_met))]
fn is_on(booking: &Booking, asked: &LoadsOf, legs: &[DatedLeg]) -> bool
    requires legs { length legs.now ≤ 8 }
    ensures { result ≡ is_on asked.now booking.now 0 legs.now }
{
    for j in 0..legs.len() {
        if meets(booking, asked, j as u8, &legs[j]) {
            return true;
        }
    }
    false
}

/// Whether a leg of the booking's flight is kept and the booking's.
fn meets(booking: &Booking, asked: &LoadsOf, leg: u8, dated: &DatedLeg) -> bool
    ensures { result ≡ meets asked.now booking.now leg dated.now }
{
    has_leg(booking.place, leg) && is_kept(asked, dated)
}
