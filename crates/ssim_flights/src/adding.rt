//! Adding the flights of one itinerary to those of the earlier ones.
ghost use Rattle.std.specs.Prelude.{◌≡◌, ◌+◌, ◌≤◌, nat_lt, All, Err, IfErr, OnOk, Some, length};
ghost use Rattle.std.specs.List.{list_any};
ghost use Rattle.ssim_flights.specs.LegChains.{chain, first_record_if};
ghost use Rattle.ssim_flights.specs.Adding.{IsAdded, IsChainAdded};
ghost use Rattle.ssim_flights.specs.Flown.{days_fault, departures_on, fault_of, leg_one_if, IsRefusal};
ghost use Rattle.ssim_flights.specs.Right.{IsRightLeg};
ghost use Rattle.ssim_flights.specs.Schedules.{flights_on, rows, schedule};
ghost use Rattle.ssim_flights.specs.Taken.{has_departure};
ghost use Rattle.ssim_flights.specs.Timetables.{flights_in, IsTable};

use crate::chain::{broken_chain, chain, missing_leg, repeated_leg};
use crate::fault::{FlightFault, FlightKind};
use crate::flown::{Departure, is_taken, take_all};
use crate::plan::Plan;
use crate::rows::{RowRange, differing, falling_back, rows};
use crate::schedule::{Scheduled, schedule};
use crate::timetable::Timetable;
use ssim_records::Leg;
use std::collections::HashSet;

/// The flights so far, and their departures.
#[derive(Drop)]
pub(crate) struct Flown {
    pub flights: Timetable,
    pub taken: HashSet<Departure>,
}

/// Memory that each itinerary uses anew.
#[derive(Drop)]
pub(crate) struct Workspace {
    pub chained: Vec<Leg>,
    pub scheduled: Vec<Scheduled>,
}

/// Adds the flights of an itinerary.
pub(crate) fn add(
    plan: &Plan,
    legs: &[Leg],
    space: &mut Workspace,
    flown: &mut Flown,
) -> Result<(), FlightFault>
    requires right { All IsRightLeg legs.now }
    requires end { plan.now.end ≤ 47846 }
    requires table { IsTable flown.old.flights }
    requires few { length (flights_in flown.old.flights) ≤ 100000 }
    ensures ok { OnOk result (IsAdded plan.now legs.now flown.old flown.new) }
    ensures fault { IfErr result (λ fault. IsRefusal fault
        (fault_of plan.now (has_departure flown.old.taken) (length (flights_in flown.old.flights)) legs.now)) }
{
    if let Some(serial) = missing_leg(legs) {
        return refuse(serial, FlightKind::MissingLeg);
    }
    if let Some(serial) = repeated_leg(legs) {
        return refuse(serial, FlightKind::RepeatedLeg);
    }
    let Ok(()) = chain(&mut space.chained, legs) else {
        return Err(FlightFault::of_memory());
    };
    let chained = space.chained.as_slice();
    if let Some(serial) = broken_chain(chained) {
        return refuse(serial, FlightKind::BrokenChain);
    }
    let Ok(()) = schedule(&mut space.scheduled, plan, chained) else {
        return Err(FlightFault::of_memory());
    };
    let scheduled = space.scheduled.as_slice();
    add_chain(plan, legs, scheduled, flown)
}

fn refuse(serial: u32, kind: FlightKind) -> Result<(), FlightFault>
    ensures { result ≡ Err (record { serial = serial; kind = kind }) }
{
    Err(FlightFault { serial, kind })
}

/// Adds the flights of a chain.
fn add_chain(
    plan: &Plan,
    legs: &[Leg],
    chained: &[Scheduled],
    flown: &mut Flown,
) -> Result<(), FlightFault>
    requires right { All IsRightLeg legs.now }
    requires end { plan.now.end ≤ 47846 }
    requires chained { chained.now ≡ schedule plan.now (chain legs.now) }
    requires table { IsTable flown.old.flights }
    requires few { length (flights_in flown.old.flights) ≤ 100000 }
    ensures ok { OnOk result (IsChainAdded plan.now legs.now chained.now flown.old flown.new) }
    ensures fault { IfErr result (λ fault. IsRefusal fault
        (days_fault plan.now (has_departure flown.old.taken) (length (flights_in flown.old.flights)) legs.now chained.now)) }
{
    let indices = rows(plan, chained);
    if let Some(fault) = days_fault(plan, flown, legs, chained, &indices) {
        return Err(fault);
    }
    let Some((first, _rest)) = chained.split_first() else {
        return Ok(());
    };
    let Ok(()) = flown.flights.add(plan, &first.leg, chained, &indices) else {
        return Err(FlightFault::of_memory());
    };
    let Ok(()) = take_all(&mut flown.taken, first, &indices) else {
        return Err(FlightFault::of_memory());
    };
    Ok(())
}

/// What is wrong with the days and the number of a chain's flights.
#[tactic(auto, using(crate::proofs::Chaining::days_one, crate::proofs::Chaining::days_two, crate::proofs::Chaining::days_three, crate::proofs::Chaining::days_four, crate::proofs::Chaining::days_five, crate::proofs::Chaining::days_none, crate::proofs::Chaining::falling_is))]
fn days_fault(
    plan: &Plan,
    flown: &Flown,
    legs: &[Leg],
    chained: &[Scheduled],
    indices: &RowRange,
) -> Option<FlightFault>
    requires { indices.now ≡ rows plan.now chained.now }
    ensures { result
        ≡ days_fault plan.now (has_departure flown.now.taken) (length (flights_in flown.now.flights)) legs.now chained.now }
{
    if let Some(serial) = differing(chained) {
        return found(serial, FlightKind::LegDatesDiffer);
    }
    if let Some(serial) = falling_back(chained, indices) {
        return found(serial, FlightKind::DatesFallBack);
    }
    if let Some(serial) = twice_on_date(plan, &flown.taken, chained, indices) {
        return found(serial, FlightKind::TwiceOnDate);
    }
    if let Some(serial) = too_many_legs(legs, chained) {
        return found(serial, FlightKind::TooManyLegs);
    }
    if let Some(serial) = too_many_flights(plan, flown.flights.len(), chained, indices) {
        return found(serial, FlightKind::TooManyFlights);
    }
    None
}

fn found(serial: u32, kind: FlightKind) -> Option<FlightFault>
    ensures { result ≡ Some (record { serial = serial; kind = kind }) }
{
    Some(FlightFault { serial, kind })
}

/// The serial of leg 1, where an earlier flight departs as one of these does.
#[tactic(auto, using(crate::proofs::Chaining::twice_is))]
fn twice_on_date(
    plan: &Plan,
    taken: &HashSet<Departure>,
    chained: &[Scheduled],
    indices: &RowRange,
) -> Option<u32>
    requires { indices.now ≡ rows plan.now chained.now }
    ensures { result
        ≡ leg_one_if (list_any (has_departure taken.now) (departures_on plan.now chained.now)) chained.now }
{
    let Some((first, _rest)) = chained.split_first() else {
        return None;
    };
    if is_taken(taken, first, indices) {
        Some(first.leg.serial)
    } else {
        None
    }
}

/// The serial of the first record, where there are more than 8 legs.
fn too_many_legs(legs: &[Leg], chained: &[Scheduled]) -> Option<u32>
    ensures { result ≡ first_record_if (nat_lt 8 (length chained.now)) legs.now }
{
    match legs.first() {
        Some(leg) if chained.len() > 8 => Some(leg.serial),
        _ => None,
    }
}

/// The serial of leg 1, where these flights and the earlier ones are more than there may be.
#[tactic(auto, using(crate::proofs::Chaining::too_many_is))]
fn too_many_flights(
    plan: &Plan,
    count: usize,
    chained: &[Scheduled],
    indices: &RowRange,
) -> Option<u32>
    requires { indices.now ≡ rows plan.now chained.now }
    ensures { result ≡ leg_one_if (nat_lt plan.now.most (count + length (flights_on plan.now chained.now)))
        chained.now }
{
    let Some((first, _rest)) = chained.split_first() else {
        return None;
    };
    if count.saturating_add(indices.len()) > plan.most as usize {
        Some(first.leg.serial)
    } else {
        None
    }
}
