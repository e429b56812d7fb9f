//! In what a flight of an old season and the one of its name in a new season differ.
//! It knows neither who is on them nor which days both seasons have.
ghost use Rattle.std.specs.Prelude.{◌≡◌, ◌≤◌, ◌+◌, length, slice_get};
ghost use Rattle.season_changes.specs.Differing.{differing, ladders_differ, legs_by, same_ladder, same_leg, same_legs, same_step, times_differ};

use seat_nesting::{Grid, Step};
use ssim_flights::{DatedLeg, Flight, Flights};

/// What becomes of a flight.
#[derive(Clone, Copy)]
pub enum What {
    /// The new season has no flight of its name.
    Gone,
    /// The old season has none.
    Added,
    /// It departs first on a day that one of the seasons has not.
    Outside,
    /// Both have it, and something differs.
    Changed {
        /// The stations of its legs, their order, or the local days on which they depart.
        legs: bool,
        /// The local time of day at which a leg departs.
        times: bool,
        /// The ladder of a leg.
        limits: bool,
    },
}

/// What becomes of a flight that both seasons have, if anything differs.
pub(crate) fn differing(legs: bool, times: bool, limits: bool) -> Option<What>
    ensures { result ≡ differing legs times limits }
{
    if legs || times || limits {
        Some(What::Changed {
            legs,
            times,
            limits,
        })
    } else {
        None
    }
}

/// Flight `k`; none where it is not there.
pub(crate) fn flight_at(flights: &Flights, k: u32) -> Option<Flight>
    ensures { result ≡ slice_get flights.now k }
{
    if k < flights.len() {
        Some(flights.flight(k))
    } else {
        None
    }
}

/// The legs of a flight; none where it is not there.
pub(crate) fn legs_by(flight: &Option<Flight>) -> &[DatedLeg]
    ensures { result.now ≡ legs_by flight.now }
{
    match flight {
        Some(flight) => flight.legs.as_slice(),
        None => &[],
    }
}

/// Whether there are as many legs, and each is between the stations and on the local day of the other at its place.
pub fn same_legs(legs: &[DatedLeg], others: &[DatedLeg]) -> bool
    ensures { result ≡ same_legs legs.now others.now }
{
    match legs {
        [] => others.is_empty(),
        [leg, rest @ ..] => match others {
            [] => false,
            [other, more @ ..] => same_leg(leg, other) && same_legs(rest, more),
        },
    }
}

fn same_leg(leg: &DatedLeg, other: &DatedLeg) -> bool
    ensures { result ≡ same_leg leg.now other.now }
{
    leg.board == other.board && leg.off == other.off && leg.day == other.day
}

/// Whether a leg departs at another local time of day than the one at its place. Nothing is said of a leg that has none at its place.
pub fn times_differ(legs: &[DatedLeg], others: &[DatedLeg]) -> bool
    ensures { result ≡ times_differ legs.now others.now }
{
    match legs {
        [] => false,
        [leg, rest @ ..] => match others {
            [] => false,
            [other, more @ ..] => leg.time != other.time || times_differ(rest, more),
        },
    }
}

/// Whether a leg of flight `i` of the old grid, from leg `j` on, has another ladder than the leg at its place of flight `k` of the new one.
pub(crate) fn ladders_differ(
    old: &Grid,
    i: u32,
    new: &Grid,
    k: u32,
    j: u8,
    legs: &[DatedLeg],
) -> bool
    requires { j + length legs.now ≤ 8 }
    ensures { result ≡ ladders_differ old.now i new.now k j legs.now }
{
    match legs {
        [] => false,
        [_leg, rest @ ..] => {
            !same_ladder(old.steps(i, j), new.steps(k, j))
                || ladders_differ(old, i, new, k, j + 1, rest)
        }
    }
}

/// Whether two ladders have the same steps in the same order.
fn same_ladder(steps: &[Step], others: &[Step]) -> bool
    ensures { result ≡ same_ladder steps.now others.now }
{
    match steps {
        [] => others.is_empty(),
        [step, lower @ ..] => match others {
            [] => false,
            [other, more @ ..] => same_step(step, other) && same_ladder(lower, more),
        },
    }
}

fn same_step(step: &Step, other: &Step) -> bool
    ensures { result ≡ same_step step.now other.now }
{
    step.class == other.class
        && step.limit == other.limit
        && step.wait == other.wait
        && step.listed == other.listed
}
