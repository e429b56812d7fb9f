//! Which of several hosts a part is of.
ghost use Rattle.std.specs.Prelude.{◌≡◌};
ghost use Rattle.carry_parts.specs.Parts.{has_flight, has_flown};

use flight_routes::Designator;
use ssim_flights::{Flight, Flights};

/// The part of one of so many hosts.
#[derive(Clone, Copy)]
pub struct Part {
    /// Which host it is, counted from 1.
    pub shard: u16,
    /// How many hosts there are. Where there are none, no part has a flight.
    pub shards: u16,
}

/// Whether a part has the flight of this index: where its designator's shard of so many is the part's.
pub fn has_flight(part: Part, flights: &Flights, flight: u32) -> bool
    ensures { result ≡ has_flight part flights.now flight }
{
    if flight >= flights.len() {
        return false;
    }
    has_flown(part, &flights.flight(flight))
}

fn has_flown(part: Part, flight: &Flight) -> bool
    ensures { result ≡ has_flown part flight.now }
{
    if part.shards < 1 {
        return false;
    }
    let name = Designator {
        airline: flight.airline,
        number: flight.number,
        suffix: flight.suffix,
    };
    name.shard(part.shards) == part.shard
}
