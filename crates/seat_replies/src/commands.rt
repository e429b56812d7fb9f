//! What a request asks of the inventory, on the first place that serves it.
ghost use Rattle.std.specs.Prelude.{◌≡◌};
ghost use Rattle.seat_replies.specs.Requests.{command_of, wanted_of};

use airimp_lines::{Request, Segment};
use seat_journal::Command;
use ssim_flights::{Served, Wanted};

/// The command that a request asks for; its place is none where no flight serves it.
pub fn command_of(served: &Served<'_>, request: &Request) -> Command
    ensures { result ≡ command_of served.now request.now }
{
    let segment = &request.segment;
    Command {
        locator: request.locator,
        place: served.find(&wanted_of(segment)),
        class: segment.class,
        code: segment.code,
        seats: segment.seats,
    }
}

fn wanted_of(segment: &Segment) -> Wanted
    ensures { result ≡ wanted_of segment.now }
{
    Wanted {
        airline: segment.airline,
        number: segment.number,
        suffix: segment.suffix,
        day: segment.day,
        board: segment.board,
        off: segment.off,
    }
}
