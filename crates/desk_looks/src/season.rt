//! Flights and their opening limits, which threads share.
ghost use Rattle.std.specs.Prelude.{◌≡◌, IfOk};
ghost use Rattle.std.specs.Arc.{arc_value};
ghost use Rattle.flight_days.specs.Leaving.{AreDaysOf};
ghost use Rattle.seat_desk.specs.Loading.{IsGridOf};

use airline_base::Memory;
use flight_days::DayFlights;
use seat_nesting::Grid;
use ssim_flights::Flights;
use std::alloc::Global;
use std::marker::Model;
use std::sync::Arc;

/// Dated flights, those of each day, and the limits of their legs that a journal begins with.
#[derive(Drop)]
pub struct Season {
    flights: Flights,
    days: DayFlights,
    grid: Grid,
}

impl Model for Season {
    ghost use Rattle.desk_looks.specs.Windows.{Flown};
    ghost use Rattle.flight_days.specs.Leaving.{AreDaysOf};
    ghost use Rattle.seat_desk.specs.Loading.{IsGridOf};

    ghost Value = { Flown };

    ghost view = { λ s. record { flights = s.flights; grid = s.grid } };

    ghost invariant = { λ s. IsGridOf s.flights s.grid × AreDaysOf s.days s.flights };
}

impl Season {
    /// Flights and the limits of their legs.
    fn new(alloc: Global, flights: Flights, grid: &Grid) -> Result<Season, Memory>
        requires grid { IsGridOf flights grid.now }
        ensures { IfOk result (λ season. (season.flights ≡ flights) × (season.grid ≡ grid.now)) }
    {
        let days = DayFlights::new(alloc, &flights)?;
        let grid = grid.copy(alloc)?;
        Ok(Season {
            flights,
            days,
            grid,
        })
    }

    /// The same for threads that share it.
    pub fn shared(alloc: Global, flights: Flights, grid: &Grid) -> Result<Arc<Season>, Memory>
        requires grid { IsGridOf flights grid.now }
        ensures { IfOk result (λ season. ((arc_value season).flights ≡ flights) × ((arc_value season).grid ≡ grid.now)) }
    {
        Ok(Arc::new(alloc, Season::new(alloc, flights, grid)?)?)
    }

    pub fn flights(&self) -> &Flights
        ensures { result.now ≡ self.now.flights }
    {
        &self.flights
    }

    /// Those of each day.
    pub fn days(&self) -> &DayFlights
        ensures { AreDaysOf result.now self.now.flights }
    {
        &self.days
    }

    pub fn grid(&self) -> &Grid
        ensures value { result.now ≡ self.now.grid }
        ensures grid { IsGridOf self.now.flights self.now.grid }
    {
        &self.grid
    }
}
