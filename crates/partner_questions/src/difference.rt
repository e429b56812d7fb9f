//! One difference, and when there is one.
//! It knows nothing of where a booking is found.
ghost use Rattle.std.specs.Prelude.{◌≡◌};
ghost use Rattle.partner_questions.specs.Differences.{agrees, is_matched, is_number, our_difference, standing_in, standing_of, their_difference};

use crate::here::command_of;
use airimp_lines::{Request, Segment};
use airline_base::{Code, Locator};
use desk_telling::segment_of;
use seat_lists::status_code;
use seat_rules::Booking;
use ssim_flights::Flights;

/// A status: HK, the seats are held, or HL, they wait; and how many, 1 to 999.
#[derive(Clone, Copy)]
pub struct Standing {
    pub code: Code,
    pub seats: u16,
}

/// A booking that a list and the journal do not have alike.
#[derive(Clone, Copy)]
pub struct Difference {
    pub locator: Locator,
    /// None where no flight has it.
    pub segment: Option<Segment>,
    /// What the list says; none where it has no such line.
    pub theirs: Option<Standing>,
    /// What is here; none where there is no such live booking.
    pub here: Option<Standing>,
    /// The last line of the journal that touched it.
    pub line: Option<u32>,
}

/// What a line of a list says of its booking.
fn standing_in(segment: &Segment) -> Standing
    ensures { result ≡ standing_in segment.now }
{
    Standing {
        code: segment.code,
        seats: segment.seats,
    }
}

/// How a booking stands here.
pub fn standing_of(booking: &Booking) -> Standing
    ensures { result ≡ standing_of booking.now }
{
    Standing {
        code: status_code(booking.status),
        seats: booking.seats,
    }
}

fn agrees(theirs: &Standing, here: &Option<Standing>) -> bool
    ensures { result ≡ agrees theirs.now here.now }
{
    match here {
        Some(here) => theirs.code == here.code && theirs.seats == here.seats,
        None => false,
    }
}

/// The difference of a line of a list, if there is one, to what is found here under its name; with the last line that touched that.
pub fn their_difference(
    request: &Request,
    found: Option<Standing>,
    line: Option<u32>,
) -> Option<Difference>
    ensures { result ≡ their_difference request.now found line }
{
    let theirs = standing_in(&request.segment);
    if agrees(&theirs, &found) {
        return None;
    }
    Some(Difference {
        locator: request.locator,
        segment: Some(request.segment),
        theirs: Some(theirs),
        here: found,
        line,
    })
}

fn is_number(number: u32, found: &Option<Booking>) -> bool
    ensures { result ≡ is_number number found.now }
{
    match found {
        Some(booking) => booking.number == number,
        None => false,
    }
}

fn is_matched(listed: Option<u32>, found: &Option<Booking>, booking: &Booking) -> bool
    ensures { result ≡ is_matched listed found.now booking.now }
{
    listed.is_some() && is_number(booking.number, found)
}

/// The difference of a booking that no line of the list has. `listed` is the line with its name, and `found` the booking that is found under it.
pub fn our_difference(
    flights: &Flights,
    booking: &Booking,
    listed: Option<u32>,
    found: &Option<Booking>,
    line: Option<u32>,
) -> Option<Difference>
    ensures { result ≡ our_difference flights.now booking.now listed found.now line }
{
    if is_matched(listed, found, booking) {
        return None;
    }
    Some(Difference {
        locator: booking.locator,
        segment: segment_of(flights, &command_of(booking)),
        theirs: None,
        here: Some(standing_of(booking)),
        line,
    })
}
