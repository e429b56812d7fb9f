//! Whether what a line of a journal asks for is a request of a script. It knows a day and its month, and no year.
ghost use Rattle.std.specs.Prelude.{◌≡◌, ◌↔◌, IsTrue, Some, slice_get};
ghost use Rattle.seat_replies.specs.VeryRequest.{Agree, IsAskedAs, IsPlacedAs, IsSameDate, IsSameFlight, IsVeryRequest, same_asked, same_named};

use airimp_lines::{Request, Segment};
use airline_base::Day;
use desk_telling::segment_of;
use seat_journal::{Command, Work};
use ssim_flights::Flights;

/// Whether the request at this place is there, and is what a line asks for.
pub fn is_asked(flights: &Flights, requests: &[Request], place: u32, work: Work) -> bool
    ensures { IsTrue result ↔ Agree flights.now (slice_get requests.now place) (Some work) }
{
    match requests.get(place as usize) {
        Some(request) => is_very_request(flights, request, work),
        None => false,
    }
}

/// Whether what a line asks for is this very request, whatever the year.
#[tactic(auto, using(crate::proofs::Very::very_then, crate::proofs::Very::very_else))]
pub fn is_very_request(flights: &Flights, request: &Request, work: Work) -> bool
    ensures { IsTrue result ↔ IsVeryRequest flights.now request.now work }
{
    match work {
        Work::Seats(command) => {
            is_asked_as(&command, request) && is_placed_as(flights, &command, &request.segment)
        }
        Work::Limit(_) => false,
        Work::Sale(_) => false,
    }
}

/// Whether the locator, the class, the code and the seats are those of the request.
#[tactic(auto, using(crate::proofs::Very::asked_alike))]
fn is_asked_as(command: &Command, request: &Request) -> bool
    ensures { IsTrue result ↔ IsAskedAs command.now request.now }
{
    agree_asked(command, request)
}

fn agree_asked(command: &Command, request: &Request) -> bool
    ensures { result ≡ same_asked command.now request.now }
{
    let segment = &request.segment;
    command.locator == request.locator
        && command.class == segment.class
        && command.code == segment.code
        && command.seats == segment.seats
}

/// Whether the segment on the flight of the command's place, where it has one, is that of the request.
fn is_placed_as(flights: &Flights, command: &Command, asked: &Segment) -> bool
    ensures { IsTrue result ↔ IsPlacedAs flights.now command.now command.now.place asked.now }
{
    if command.place.is_none() {
        return true;
    }
    match segment_of(flights, command) {
        Some(flown) => is_same_flight(&flown, asked),
        None => false,
    }
}

/// Whether the designator, the day and the month, and the pair are the same.
#[tactic(auto, using(crate::proofs::Very::flights_then, crate::proofs::Very::flights_else))]
fn is_same_flight(flown: &Segment, asked: &Segment) -> bool
    ensures { IsTrue result ↔ IsSameFlight flown.now asked.now }
{
    agree_named(flown, asked) && is_same_date(flown.day, asked.day)
}

fn agree_named(flown: &Segment, asked: &Segment) -> bool
    ensures { result ≡ same_named flown.now asked.now }
{
    flown.airline == asked.airline
        && flown.number == asked.number
        && flown.suffix == asked.suffix
        && flown.board == asked.board
        && flown.off == asked.off
}

/// Whether the day and the month are the same.
fn is_same_date(flown: Day, asked: Day) -> bool
    ensures { IsTrue result ↔ IsSameDate flown asked }
{
    let (_, month, day) = flown.parts();
    let (_, asked_month, asked_day) = asked.parts();
    month == asked_month && day == asked_day
}
