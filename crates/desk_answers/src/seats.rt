//! The seats that are left after some lines, whoever knows them.
ghost use Rattle.std.specs.Prelude.{◌≡◌, ℕ};
ghost use Rattle.seat_nesting.specs.Nesting.{Fits, Ladders};
ghost use Rattle.seat_rules.specs.Sequential.{room_left, State};

use airline_base::{Class, Place};
use seat_disk::Tape;
use seat_nesting::Grid;
use seat_serving::Serving;

/// The limits and bookings after so many lines of a journal.
pub trait Seats {
    /// The opening limits.
    ghost ladders: { Self → Ladders };

    /// How many lines there are.
    ghost count: { Self → ℕ };

    /// What they leave.
    ghost state: { Self → State };

    /// How many lines there are.
    fn lines_seen(&self) -> u32
        ensures { result ≡ count self.now };

    /// The opening limits.
    fn opening(&self) -> &Grid
        ensures { result.now ≡ ladders self.now };

    /// The seats that are left on a place in a class.
    fn left_on(&self, place: Place, class: Class) -> u16
        requires { Fits (ladders self.now) place }
        ensures { result ≡ room_left (state self.now) place class };
}

impl<D: Tape> Seats for Serving<D> {
    ghost use Rattle.std.specs.Prelude.{length};
    ghost use Rattle.seat_rules.specs.Journal.{replay};

    ghost ladders = { λ s. s.grid };

    ghost count = { λ s. length s.journal };

    ghost state = { λ s. replay s.grid s.journal };

    fn lines_seen(&self) -> u32 {
        self.journal().len() as u32
    }

    fn opening(&self) -> &Grid {
        self.grid()
    }

    fn left_on(&self, place: Place, class: Class) -> u16 {
        self.seats_left(place, class)
    }
}
