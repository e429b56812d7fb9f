//! The one leg that a row of the manager is for, and what the row sets on it.
//! It knows rows and flights, and nothing of lines, of desks or of an inventory.
ghost use Rattle.std.specs.Prelude.{◌≡◌, option_map, IfOk};
ghost use Rattle.desk_hall.specs.OneLeg.{control_of, the_one};
ghost use Rattle.flight_days.specs.Leaving.{AreDaysOf};
ghost use Rattle.seat_replies.specs.Changes.{changes_of};

use airline_base::Memory;
use flight_days::DayFlights;
use seat_journal::Control;
use seat_limits::ChangeRow;
use seat_replies::{changes_between, changes_on_day};
use ssim_flights::{Flights, Served};
use std::alloc::Global;

/// What a row sets that is for exactly one leg: the one that serves its two cities, or, where it names none, the one of its flight that
/// departs on its day.
pub(crate) fn control_of(
    alloc: Global,
    flights: &Flights,
    served: &Served<'_>,
    days: &DayFlights,
    row: &ChangeRow,
) -> Result<Option<Control>, Memory>
    requires served { served.now ≡ flights.now }
    requires days { AreDaysOf days.now flights.now }
    ensures { IfOk result (λ control. control ≡ control_of served.now row.now) }
{
    let Some(all) = changes_of(alloc, flights, served, days, row)? else {
        return Ok(None);
    };
    Ok(the_one(all.as_slice()))
}

// What a row sets, where there is a leg for it.
fn changes_of(
    alloc: Global,
    flights: &Flights,
    served: &Served<'_>,
    days: &DayFlights,
    row: &ChangeRow,
) -> Result<Option<Vec<Control>>, Memory>
    requires served { served.now ≡ flights.now }
    requires days { AreDaysOf days.now flights.now }
    ensures { IfOk result (λ o. option_map (λ v. v.items) o ≡ changes_of served.now row.now) }
{
    match row.cities {
        Some(cities) => changes_between(alloc, served, row, cities),
        None => changes_on_day(alloc, flights, days, row),
    }
}

fn the_one(all: &[Control]) -> Option<Control>
    ensures { result ≡ the_one all.now }
{
    match all {
        [control] => Some(*control),
        _ => None,
    }
}
