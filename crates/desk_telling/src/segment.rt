//! The segment that a line of a journal asks for, by the names of its flight. It knows the place that the line has, and nothing of the
//! request that came with it.
ghost use Rattle.std.specs.Prelude.{◌≡◌, Some};
ghost use Rattle.desk_telling.specs.Segments.{segment_at, segment_of};

use airimp_lines::Segment;
use airline_base::Place;
use seat_journal::Command;
use ssim_flights::{Flight, Flights};

/// The segment that a command asks for, on the flight of its place. A command without a place has none.
pub fn segment_of(flights: &Flights, command: &Command) -> Option<Segment>
    ensures { result ≡ segment_of flights.now command.now }
{
    let place = command.place?;
    if place.flight >= flights.len() {
        return None;
    }
    segment_on(&flights.flight(place.flight), place, command)
}

fn segment_on(flight: &Flight, place: Place, command: &Command) -> Option<Segment>
    ensures { result ≡ segment_at command.now place (Some flight.now) }
{
    let legs = flight.legs.as_slice();
    let first = legs.get(usize::from(place.from))?;
    let last = legs.get(usize::from(place.to))?;
    Some(Segment {
        airline: flight.airline,
        number: flight.number,
        suffix: flight.suffix,
        class: command.class,
        day: first.day,
        board: first.board,
        off: last.off,
        code: command.code,
        seats: command.seats,
    })
}
