//! Where seats are counted: in the class of a booking, on each of its legs, or between its stations.
//! It knows no row of counts.
ghost use Rattle.std.specs.Prelude.{◌≡◌};
ghost use Rattle.seat_pickup.specs.Moves.{is_at};

use crate::pairing::Pairing;
use airline_base::{Class, Place};
use seat_questions::has_leg;

/// What seats are counted by, on each flight.
#[derive(Clone, Copy)]
pub enum Split {
    /// The class, by its letter.
    Classes,
    /// The legs, from `A` on: a booking's seats on each leg of its place.
    Legs,
}

/// What seats are counted by.
#[derive(Clone, Copy)]
pub enum Tally<'a> {
    /// A class or leg of a flight.
    OnFlights(Split),
    /// The pair of stations between which a place runs, whatever the flight: a booking's seats once.
    Between(Pairing<'a>),
}

/// Whether the seats of a place and class count there.
pub fn is_at(split: Split, place: Place, class: Class, flight: u32, letter: u8) -> bool
    ensures { result ≡ is_at split place class flight letter }
{
    match split {
        Split::Classes => place.flight == flight && class.letter() == letter,
        Split::Legs => place.flight == flight && has_leg(place, letter.saturating_sub(b'A')),
    }
}
