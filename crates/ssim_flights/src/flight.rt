//! A flight on its dates, and what a passenger asks for.
ghost use Rattle.std.specs.Prelude.{◌≡◌, ◌<◌, ◌==◌, ◌++◌, ◌∷◌, [], length};

use airline_base::{Airline, Day, Station};
use arrayvec::ArrayVec;
use std::marker::Model;

/// A leg on its local day of departure.
#[derive(Clone, Copy)]
pub struct DatedLeg {
    /// The local day of departure at the board point.
    pub day: Day,
    /// The aircraft's scheduled local time of departure there, in minutes of the day, 0 to 1440.
    pub time: u16,
    pub board: Station,
    pub off: Station,
}

impl Default for DatedLeg {
    fn default() -> Self {
        let station = Station::new(b"AAA").unwrap();
        DatedLeg {
            day: Day::numbered(10957),
            time: 0,
            board: station,
            off: station,
        }
    }
}

/// The legs of a flight in order, at most 8. They lie in the value itself.
#[derive(Drop)]
pub struct DatedLegs {
    legs: ArrayVec<DatedLeg, 8>,
}

impl Model for DatedLegs {
    ghost use Rattle.std.specs.Prelude.{List};
    ghost use Rattle.ssim_flights.specs.declared.flight.DatedLeg.{DatedLeg};

    ghost Value = { List DatedLeg };

    ghost view = { λ l. l.legs.items };
}

impl DatedLegs {
    pub fn as_slice(&self) -> &[DatedLeg]
        ensures { result.now ≡ self.now }
    {
        self.legs.as_slice()
    }

    pub fn len(&self) -> usize
        ensures { result ≡ length self.now }
    {
        self.legs.len()
    }

    pub fn is_empty(&self) -> bool
        ensures { result ≡ (length self.now == 0) }
    {
        self.legs.is_empty()
    }

    /// No legs.
    pub(crate) fn new() -> Self
        ensures { result ≡ [] }
    {
        DatedLegs {
            legs: ArrayVec::new(),
        }
    }

    /// Adds a leg at the end, for which there is room.
    pub(crate) fn push(&mut self, leg: DatedLeg)
        requires { length self.old < 8 }
        ensures { self.new ≡ self.old ++ leg ∷ [] }
    {
        self.legs.push(leg);
    }
}

/// A flight of the horizon, with its legs.
#[derive(Drop)]
pub struct Flight {
    pub airline: Airline,
    /// 1 to 9999.
    pub number: u16,
    /// The operational suffix, A to Z.
    pub suffix: Option<u8>,
    pub legs: DatedLegs,
}

/// What a passenger asks for: a flight from one station, on a local day there, to another.
#[derive(Clone, Copy, PartialEq, Eq)]
pub struct Wanted {
    pub airline: Airline,
    pub number: u16,
    pub suffix: Option<u8>,
    pub day: Day,
    pub board: Station,
    pub off: Station,
}
