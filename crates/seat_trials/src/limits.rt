//! The limits of four flights.
ghost use Rattle.std.specs.Prelude.{◌≡◌, []};
ghost use Rattle.std.specs.Option.{OnSome};

use airline_base::Class;
use seat_nesting::{Grid, GridPlan, Ladder, Step};
use std::alloc::Global;

/// How many legs each flight has.
const LEGS: &[u16] = &[1, 2, 3, 2];

/// The ladders of the four flights.
pub fn grid(alloc: Global) -> Option<Grid> {
    let Ok(mut plan) = GridPlan::new(alloc, LEGS.len()) else {
        return None;
    };
    for flight in 0..LEGS.len() {
        let Some(()) = add_flight(&mut plan, LEGS[flight]) else {
            return None;
        };
    }
    match Grid::of(alloc, plan) {
        Ok(grid) => Some(grid),
        Err(_) => None,
    }
}

/// Adds a flight of so many legs, each with a seat less than the one ahead of it.
fn add_flight(plan: &mut GridPlan, count: u16) -> Option<()>
    ensures { OnSome result (plan.new.legs ≡ []) }
{
    for leg in 0..count {
        let Some(ladder) = ladder_of(9u16.saturating_sub(leg)) else {
            return None;
        };
        let Ok(number) = plan.share(&ladder) else {
            return None;
        };
        let Ok(()) = plan.add_leg(Some(number)) else {
            return None;
        };
    }
    match plan.close_flight() {
        Ok(()) => Some(()),
        Err(_) => None,
    }
}

/// So many seats of Y, and three of M below it, where nobody is listed.
fn ladder_of(seats: u16) -> Option<Ladder> {
    let (Some(high), Some(low)) = (Class::new(b'Y'), Class::new(b'M')) else {
        return None;
    };
    let upper = Step {
        class: high,
        limit: seats,
        wait: 9,
        listed: true,
        closed: false,
    };
    let lower = Step {
        class: low,
        limit: 3,
        wait: 12,
        listed: false,
        closed: false,
    };
    match Ladder::new(&[upper, lower]) {
        Ok(ladder) => Some(ladder),
        Err(_) => None,
    }
}
