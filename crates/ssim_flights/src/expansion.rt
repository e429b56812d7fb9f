//! From the legs of a data set to its dated flights.
ghost use Rattle.std.specs.Prelude.{◌≡◌, ◌≤◌, All, IfErr, IfOk, None, OnOk};
ghost use Rattle.std.specs.List.{IsDistinct};
ghost use Rattle.ssim_flights.specs.Flown.{all_departures, dated_flights, first_fault, same_departure, IsRefusal};
ghost use Rattle.ssim_flights.specs.Itineraries.{itineraries};
ghost use Rattle.ssim_flights.specs.Right.{IsOfCentury, IsRightCarrier, IsRightLeg};
ghost use Rattle.ssim_flights.specs.Schedules.{plan_of};

use crate::adding::{Flown, Workspace, add};
use crate::fault::FlightFault;
use crate::flights::Flights;
use crate::itinerary::itineraries;
use crate::plan::Plan;
use crate::timetable::Timetable;
use airline_base::Day;
use ssim_records::{Carrier, DataSet};
use std::alloc::Global;
use std::collections::HashSet;

/// The dated flights of the `days` days from the first one on, at most `most` (1 to 100,000).
/// The first day is in 2000 to 2099, and `days` is 1 to 366.
/// A refusal names the first itinerary that has a fault, and its first fault; want of memory may come first.
pub fn expand(
    alloc: Global,
    set: &DataSet,
    first: Day,
    days: u16,
    most: u32,
) -> Result<Flights, FlightFault>
    requires first { IsOfCentury first }
    requires days { (1 ≤ days) × (days ≤ 366) }
    requires most { (1 ≤ most) × (most ≤ 100000) }
    requires carrier { IsRightCarrier set.now.carrier }
    requires legs { All IsRightLeg set.now.legs }
    ensures faultless { OnOk result
        (first_fault (plan_of set.now.carrier first days most) (itineraries set.now.legs) ≡ None) }
    ensures flights { IfOk result
        (λ flights. flights ≡ dated_flights (plan_of set.now.carrier first days most) (itineraries set.now.legs)) }
    // No two flights have the same number, suffix and first operating day.
    ensures apart { OnOk result (IsDistinct same_departure
        (all_departures (plan_of set.now.carrier first days most) (itineraries set.now.legs))) }
    ensures fault { IfErr result
        (λ fault. IsRefusal fault (first_fault (plan_of set.now.carrier first days most) (itineraries set.now.legs))) }
{
    let plan = plan_of(&set.carrier, first, days, most);
    let Ok(all) = itineraries(alloc, set.legs.as_slice()) else {
        return Err(FlightFault::of_memory());
    };
    let mut flown = Flown {
        flights: Timetable::new(alloc),
        taken: HashSet::new(alloc),
    };
    let mut space = Workspace {
        chained: Vec::new(alloc),
        scheduled: Vec::new(alloc),
    };
    for legs in all.as_slice() {
        if let Err(fault) = add(&plan, legs.as_slice(), &mut space, &mut flown) {
            return Err(fault);
        }
    }
    let Flown {
        flights,
        taken: _taken,
    } = flown;
    Ok(Flights::of(flights))
}

#[tactic(auto, unfolding(crate::specs::Schedules::plan_of))]
fn plan_of(carrier: &Carrier, first: Day, days: u16, most: u32) -> Plan
    requires first { IsOfCentury first }
    requires days { (1 ≤ days) × (days ≤ 366) }
    ensures { result ≡ plan_of carrier.now first days most }
{
    let last = Day::numbered(first.number() + u32::from(days) - 1);
    Plan {
        airline: carrier.airline,
        local: carrier.local,
        first,
        last,
        end: carrier.to.unwrap_or(last),
        most,
    }
}
