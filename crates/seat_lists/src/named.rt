//! How a booking is named in a line.
//! It knows no other booking.
ghost use Rattle.std.specs.Prelude.{◌≡◌, ◌++◌, OnOk};
ghost use Rattle.seat_lists.specs.Named.{IsNamedPut, IsSegmentPut, locator_text, segment_of, status_code};
ghost use Rattle.seat_lists.specs.Picking.{HasPlace};

use airimp_lines::{Segment, reply_text};
use airline_base::Code;
use seat_desk::{put, put_number};
use seat_rules::{Booking, Status};
use ssim_flights::{DatedLeg, Flight, Flights};
use std::alloc::AllocError;

/// Adds the number of a booking, its locator unless it stands alone, and its segment.
pub fn put_named(
    text: &mut Vec<u8>,
    flights: &Flights,
    alone: bool,
    booking: &Booking,
) -> Result<(), AllocError>
    requires { HasPlace flights.now booking.now.place }
    ensures { OnOk result (IsNamedPut flights.now alone booking.now text.old.items text.new.items) }
{
    let place = booking.place;
    let flight = flights.flight(place.flight);
    let legs = flight.legs.as_slice();
    let first = &legs[place.from as usize];
    let last = &legs[place.to as usize];
    put_number(text, u64::from(booking.number))?;
    put(text, b" ")?;
    put_locator(text, alone, booking)?;
    put_segment(text, &flight, first, last, booking)?;
    Ok(())
}

/// Adds the locator and a blank, unless it stands alone.
#[tactic(auto, using(crate::proofs::LiveTexts::locator_put, crate::proofs::LiveTexts::locator_left))]
fn put_locator(text: &mut Vec<u8>, alone: bool, booking: &Booking) -> Result<(), AllocError>
    ensures { OnOk result (text.new.items ≡ text.old.items ++ locator_text alone booking.now) }
{
    if alone {
        return Ok(());
    }
    put(text, &booking.locator.characters())?;
    put(text, b" ")
}

/// Adds the segment of a booking that leaves with one leg of its flight and arrives with another.
#[tactic(auto, using(crate::proofs::LiveTexts::segment_put))]
fn put_segment(
    text: &mut Vec<u8>,
    flight: &Flight,
    first: &DatedLeg,
    last: &DatedLeg,
    booking: &Booking,
) -> Result<(), AllocError>
    ensures { OnOk result (IsSegmentPut (segment_of flight.now first.now last.now booking.now) text.old.items
        text.new.items) }
{
    let segment = segment_of(flight, first, last, booking);
    put(
        text,
        reply_text(&segment, segment.code, segment.seats).as_slice(),
    )
}

/// The segment of such a booking.
fn segment_of(flight: &Flight, first: &DatedLeg, last: &DatedLeg, booking: &Booking) -> Segment
    ensures { result ≡ segment_of flight.now first.now last.now booking.now }
{
    Segment {
        airline: flight.airline,
        number: flight.number,
        suffix: flight.suffix,
        class: booking.class,
        day: first.day,
        board: first.board,
        off: last.off,
        code: status_code(booking.status),
        seats: booking.seats,
    }
}

/// HK where the seats are held, HL where they wait.
pub fn status_code(status: Status) -> Code
    ensures { result ≡ status_code status }
{
    match status {
        Status::Held => Code::of(*b"HK"),
        Status::Waiting => Code::of(*b"HL"),
    }
}
