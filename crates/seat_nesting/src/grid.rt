//! The ladder of each leg of each dated flight.
ghost use Rattle.std.specs.Prelude.{◌≡◌, ◌≤◌, ◌<◌, length, [], ◌∷◌, IfOk, IfSome, IfNone, IsTrue, ◌↔◌};
ghost use Rattle.seat_nesting.specs.Nesting.{Fits, ladder_at, legs_of, IsDistinct, HasLadders};
ghost use Rattle.seat_nesting.specs.Changing.{FitsLimit};
ghost use Rattle.seat_nesting.specs.FlatCounts.{IsLaid};

use crate::counted_flights::leg_index;
use crate::grid_plan::GridPlan;
use crate::ladder::{Ladder, Step};
use crate::shared::SharedLayout;
use airline_base::{Memory, Place};
use std::alloc::Global;
use std::marker::Model;

/// The ladder of each leg of each flight. No leg's ladder has a class twice, which
/// [`Grid::ladders_are_distinct`] hands out.
#[derive(Drop)]
pub struct Grid {
    layout: SharedLayout,
}

impl Model for Grid {
    ghost use Rattle.std.specs.Prelude.{List};
    ghost use Rattle.seat_nesting.specs.declared.ladder.Step.{Step};

    ghost Value = { List (List (List Step)) };

    ghost use Rattle.seat_nesting.specs.FlatCounts.{IsLaid, grid_in};

    ghost view = { λ g. grid_in g.layout };

    ghost invariant = { λ g. IsLaid g.layout (grid_in g.layout) };
}

impl Grid {
    /// One flight of one leg.
    pub fn single(alloc: Global, ladder: Ladder) -> Result<Grid, Memory>
        ensures { IfOk result (λ grid. grid ≡ (ladder ∷ []) ∷ []) }
    {
        let Ok(mut plan) = GridPlan::new(alloc, 1) else {
            return Err(Memory);
        };
        let Ok(i) = plan.put(ladder) else {
            return Err(Memory);
        };
        let Ok(()) = plan.add_leg(Some(i)) else {
            return Err(Memory);
        };
        let Ok(()) = plan.close_flight() else {
            return Err(Memory);
        };
        Grid::of(alloc, plan)
    }

    /// The grid of the flights of a plan, of which none is open.
    pub fn of(alloc: Global, plan: GridPlan) -> Result<Grid, Memory>
        requires closed { plan.legs ≡ [] }
        ensures { IfOk result (λ grid. grid ≡ plan.flights) }
    {
        let Ok(layout) = SharedLayout::of(alloc, plan.into_layout()) else {
            return Err(Memory);
        };
        Ok(Grid { layout })
    }

    /// The same grid once more. Its memory is shared.
    pub fn copy(&self, _alloc: Global) -> Result<Grid, Memory>
        ensures { IfOk result (λ grid. grid ≡ self.now) }
    {
        let Ok(layout) = self.layout.again() else {
            return Err(Memory);
        };
        Ok(Grid { layout })
    }

    /// Whether the flight and both legs are there, the second not before the first.
    pub fn fits(&self, place: Place) -> bool
        ensures { IsTrue result ↔ Fits self.now place }
    {
        place.from <= place.to && u32::from(place.to) < self.legs_on(place.flight)
    }

    /// Whether the flight and the leg are there.
    pub fn has_leg(&self, flight: u32, leg: u8) -> bool
        ensures { IsTrue result ↔ leg < length (legs_of self.now flight) }
    {
        u32::from(leg) < self.legs_on(flight)
    }

    /// Whether the flight and the leg are there, and limit and wait are at most 999.
    pub fn fits_limit(&self, flight: u32, leg: u8, limit: u16, wait: u16) -> bool
        ensures { IsTrue result ↔ FitsLimit self.now flight leg limit wait }
    {
        u32::from(leg) < self.legs_on(flight) && limit <= 999 && wait <= 999
    }

    /// The ladder of a leg, where it has one.
    pub fn ladder(&self, flight: u32, leg: u8) -> Option<&Ladder>
        ensures found { IfSome result (λ l. l.now ≡ ladder_at self.now flight leg) }
        ensures none { IfNone result (ladder_at self.now flight leg ≡ []) }
    {
        let layout = self.layout.get();
        let Some(i) = leg_index(&layout.flights, flight, leg) else {
            return None;
        };
        layout.legs[i].limits.ladder(&layout.shared, &[])
    }

    /// The steps of a leg; none where it has no limits.
    pub fn steps(&self, flight: u32, leg: u8) -> &[Step]
        ensures value { result.now ≡ ladder_at self.now flight leg }
        ensures distinct { IsDistinct result.now }
        ensures short { length result.now ≤ 26 }
    {
        match self.ladder(flight, leg) {
            Some(ladder) => ladder.steps(),
            None => &[],
        }
    }

    /// No class stands twice in a leg's steps. It does nothing: each grid promises this.
    pub fn ladders_are_distinct(&self)
        ensures { HasLadders self.now }
    {
        let _ = &self.layout;
    }

    /// How its legs are laid out.
    pub(crate) fn layout(&self) -> &SharedLayout
        ensures { IsLaid result.now self.now }
    {
        &self.layout
    }

    /// How many legs a flight has; none where it is not there.
    fn legs_on(&self, flight: u32) -> u32
        ensures { result ≡ length (legs_of self.now flight) }
    {
        match self.layout.get().flights.get(flight as usize) {
            Some(part) => part.legs,
            None => 0,
        }
    }
}
