//! A grid that is laid out flight by flight.
ghost use Rattle.std.specs.Prelude.{◌≡◌, ◌<◌, [], length, IfOk, OnOk, IfSome};
ghost use Rattle.seat_nesting.specs.Nesting.{steps_at};
ghost use Rattle.seat_nesting.specs.FlatCounts.{IsLaid};
ghost use Rattle.seat_nesting.specs.Planning.{IsPlanned, no_plan, steps_in, with_flight, with_ladder, with_leg};

use crate::ladder::Ladder;
use crate::laid_out::{Layout, add_leg, no_layout, number, push_flight, put, share};
use airline_base::Memory;
use std::alloc::Global;
use std::marker::Model;

/// The ladders that legs may have, the flights, and the legs of the next flight, which is closed when it
/// has them all. Legs that have the same ladder share it.
#[derive(Drop)]
pub struct GridPlan {
    layout: Layout,
    /// The first leg of the next flight.
    first: u32,
}

impl Model for GridPlan {
    ghost use Rattle.seat_nesting.specs.Planning.{Planned, IsPlanned, planned};

    ghost Value = { Planned };

    ghost view = { λ p. planned p.layout p.first };

    ghost invariant = { λ p. IsPlanned p.layout p.first (planned p.layout p.first) };
}

impl GridPlan {
    /// No flight and no ladder yet, with memory for so many flights of one leg each.
    pub fn new(alloc: Global, flights: usize) -> Result<GridPlan, Memory>
        ensures { IfOk result (λ plan. plan ≡ no_plan) }
    {
        let Ok(layout) = no_layout(alloc, flights) else {
            return Err(Memory);
        };
        Ok(GridPlan { layout, first: 0 })
    }

    /// Puts a ladder behind those that legs may have, and says its number.
    pub fn put(&mut self, ladder: Ladder) -> Result<u32, Memory>
        ensures ladder { OnOk result (self.new ≡ with_ladder self.old ladder) }
        ensures number { IfOk result (λ i. i ≡ length self.old.ladders) }
    {
        put(&mut self.layout.shared, ladder)
    }

    /// The number of an equal ladder among the last eight that were put, or of a copy that is put behind them.
    pub fn share(&mut self, ladder: &Ladder) -> Result<u32, Memory>
        ensures there { IfOk result (λ i. (i < length self.new.ladders) × (steps_at self.new.ladders i ≡ ladder.now)) }
        ensures flights { self.new.flights ≡ self.old.flights }
        ensures legs { self.new.legs ≡ self.old.legs }
    {
        share(&mut self.layout.shared, ladder)
    }

    /// Adds a leg to the next flight, with the ladder of this number or without limits.
    pub fn add_leg(&mut self, ladder: Option<u32>) -> Result<(), Memory>
        requires { IfSome ladder (λ i. i < length self.old.ladders) }
        ensures { OnOk result (self.new ≡ with_leg self.old (steps_in self.old.ladders ladder)) }
    {
        add_leg(&mut self.layout, ladder)
    }

    /// Closes the next flight, which has the legs that were added since the last was closed.
    pub fn close_flight(&mut self) -> Result<(), Memory>
        ensures { OnOk result (self.new ≡ with_flight self.old) }
    {
        let Ok(end) = number(self.layout.legs.len()) else {
            return Err(Memory);
        };
        let Ok(()) = push_flight(&mut self.layout, self.first, end - self.first) else {
            return Err(Memory);
        };
        self.first = end;
        Ok(())
    }

    /// The layout of its flights, of which none is open.
    pub(crate) fn into_layout(self) -> Layout
        requires { self.legs ≡ [] }
        ensures { IsLaid result self.flights }
    {
        self.layout
    }
}
