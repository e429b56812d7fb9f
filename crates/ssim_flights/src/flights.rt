//! The flights of a horizon.
ghost use Rattle.std.specs.Prelude.{◌≡◌, ◌<◌, ◌≤◌, IsTrue, Some, length, slice_get};
ghost use Rattle.ssim_flights.specs.Few.{AreFew, AreJoined, joins_up};
ghost use Rattle.ssim_flights.specs.Slots.{has_name};
ghost use Rattle.ssim_flights.specs.Timetables.{flights_in, IsTable};

use crate::flight::{Flight, Wanted};
use crate::timetable::Timetable;
use std::marker::Model;

/// Flights in the order of their numbers, counted from 0.
#[derive(Drop)]
pub struct Flights {
    table: Timetable,
}

impl Model for Flights {
    ghost use Rattle.std.specs.Prelude.{List};
    ghost use Rattle.ssim_flights.specs.declared.flight.Flight.{Flight as Flown};
    ghost use Rattle.ssim_flights.specs.Few.{AreFew, AreJoined};
    ghost use Rattle.ssim_flights.specs.Timetables.{flights_in, IsTable};

    ghost Value = { List Flown };

    ghost view = { λ f. flights_in f.table };

    ghost invariant = { λ f. IsTable f.table × AreFew (flights_in f.table) × AreJoined (flights_in f.table) };
}

impl Flights {
    /// How many flights there are.
    pub fn len(&self) -> u32
        ensures value { result ≡ length self.now }
        ensures few { AreFew self.now }
    {
        let count = self.table.len();
        count as u32
    }

    /// Flight `i`, counted from 0.
    pub fn flight(&self, i: u32) -> Flight
        requires { i < length self.now }
        ensures value { slice_get self.now i ≡ Some result }
        ensures legs { length result.legs ≤ 8 }
        ensures joined { IsTrue (joins_up result.legs) }
    {
        self.table.flight(i as usize)
    }

    /// Whether flight `i` has the number and the suffix that are wanted. The flight is not worked out.
    pub(crate) fn is_named(&self, i: u32, wanted: &Wanted) -> bool
        ensures { result ≡ has_name wanted.now (slice_get self.now i) }
    {
        self.table.is_named(i as usize, wanted)
    }

    /// The flights of a timetable, in their order.
    pub(crate) fn of(table: Timetable) -> Self
        requires table { IsTable table }
        requires few { AreFew (flights_in table) }
        requires joined { AreJoined (flights_in table) }
        ensures { result ≡ flights_in table }
    {
        Flights { table }
    }
}
