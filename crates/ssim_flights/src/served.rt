//! Finding a place on a flight by what is asked for.
ghost use Rattle.std.specs.Prelude.{◌≡◌, IfOk};
ghost use Rattle.ssim_flights.specs.Places.{place_wanted};

use crate::flight::Wanted;
use crate::flights::Flights;
use crate::slots::{Slots, slots_for};
use airline_base::{Memory, Place};
use std::alloc::Global;
use std::marker::Model;

/// Flights in slots by number, suffix and the days on which their legs depart.
/// The slots are made once, in memory for each day on which a flight has a leg, so a caller that looks for no place makes none.
#[derive(Drop)]
pub struct Served<'a> {
    flights: &'a Flights,
    slots: Slots,
}

impl<'a> Model for Served<'a> {
    ghost use Rattle.std.specs.Prelude.{List};
    ghost use Rattle.ssim_flights.specs.declared.flight.Flight.{Flight as Flown};
    ghost use Rattle.ssim_flights.specs.Slots.{AreSlotsOf};

    ghost Value = { List Flown };

    ghost view = { λ s. s.flights.now };

    ghost invariant = { λ s. AreSlotsOf s.slots s.flights.now 0 };
}

impl<'a> Served<'a> {
    /// These flights, indexed.
    pub fn new(alloc: Global, flights: &'a Flights) -> Result<Served<'a>, Memory>
        ensures { IfOk result (λ served. served ≡ flights.now) }
    {
        let Ok(slots) = slots_for(alloc, flights) else {
            return Err(Memory);
        };
        Ok(Served { flights, slots })
    }

    /// The first place that serves what is wanted, by flight, first leg and last leg.
    /// It takes no memory.
    #[tactic(auto, using(crate::proofs::Slotting::slots_inside, crate::proofs::Slotting::found_is))]
    pub fn find(&self, wanted: &Wanted) -> Option<Place>
        ensures { result ≡ place_wanted self.now wanted.now }
    {
        self.slots.place(self.flights, wanted)
    }
}
