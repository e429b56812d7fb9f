//! What the legs that are kept come to.
//! It knows no text but its own line.
ghost use Rattle.std.specs.Prelude.{◌≡◌, ◌++◌, ◌+◌, ◌^◌, ◌≤◌, ◌<◌, OnOk, length};
ghost use Rattle.seat_rules.specs.Inventory.{state_now};
ghost use Rattle.seat_desk.specs.AuditDesk.{most_lines};
ghost use Rattle.seat_loads.specs.Legs.{held_on, limit_on};
ghost use Rattle.seat_loads.specs.Sums.{AddUp, AreFewLegs, AreLegSums, AreSums, IsLegSum, IsLegSumOfFlight, IsLegSumOfLegs, sums_text};

use crate::leg::{held_on, put_share, top_limit};
use crate::loads::{LoadsOf, is_kept};
use crate::passengers::{Riders, riders_of};
use seat_core::Core;
use seat_desk::{put, put_number};
use seat_lists::keeps_flight;
use ssim_flights::{DatedLeg, Flight, Flights};
use std::alloc::AllocError;

/// Sums over legs.
#[derive(Clone, Copy)]
pub struct LegSums {
    pub legs: u64,
    /// The seats that are held on them.
    pub seats: u64,
    /// The limits of their highest classes.
    pub limits: u64,
}

/// Sums over the legs that are kept, and over the bookings on any of them: a passenger over two legs is two seats and one passenger.
#[derive(Clone, Copy)]
pub struct Sums {
    pub legs: LegSums,
    pub riders: Riders,
}

/// What the legs that are kept come to.
pub fn sums_of(flights: &Flights, core: &Core, asked: &LoadsOf) -> Sums
    requires capped { core.now.cap ≤ most_lines }
    ensures value { AreSums asked.now (state_now core.now) flights.now result }
    ensures few { AreFewLegs result.legs }
{
    Sums {
        legs: legs_of(flights, core, asked),
        riders: riders_of(flights, core, asked),
    }
}

#[tactic(auto, using(crate::proofs::Adding::no_flights, crate::proofs::Adding::all_legs, crate::proofs::Adding::few_in_all))]
fn legs_of(flights: &Flights, core: &Core, asked: &LoadsOf) -> LegSums
    ensures value { AreLegSums asked.now (state_now core.now) flights.now result }
    ensures few { AreFewLegs result }
{
    let mut sums = LegSums {
        legs: 0,
        seats: 0,
        limits: 0,
    };
    for index in 0..flights.len() {
        let more = kept_legs(core, asked, index, &flights.flight(index));
        sums = plus(&sums, &more);
    }
    sums
}

/// Those of a flight: none where it is not kept.
#[tactic(auto, using(crate::proofs::Adding::left_flight, crate::proofs::Adding::kept_flight))]
pub fn kept_legs(core: &Core, asked: &LoadsOf, index: u32, flight: &Flight) -> LegSums
    requires few { length flight.now.legs ≤ 8 }
    ensures { IsLegSumOfFlight asked.now (state_now core.now) index flight.now result }
{
    if !keeps_flight(asked.flight, flight) {
        return LegSums {
            legs: 0,
            seats: 0,
            limits: 0,
        };
    }
    flight_legs(core, asked, index, flight)
}

/// Those of the legs of a flight.
#[tactic(auto, using(crate::proofs::Adding::no_legs, crate::proofs::Adding::leg_more, crate::proofs::Adding::all_of_flight))]
fn flight_legs(core: &Core, asked: &LoadsOf, index: u32, flight: &Flight) -> LegSums
    requires few { length flight.now.legs ≤ 8 }
    ensures { IsLegSumOfLegs asked.now (state_now core.now) index flight.now result }
{
    let mut sums = LegSums {
        legs: 0,
        seats: 0,
        limits: 0,
    };
    let legs = flight.legs.as_slice();
    for j in 0..legs.len() {
        let more = leg_sum(core, asked, index, j as u8, &legs[j]);
        sums = plus(&sums, &more);
    }
    sums
}

/// That of a leg: nothing where it is not kept.
#[tactic(auto, using(crate::proofs::Adding::left_leg, crate::proofs::Adding::kept_leg))]
fn leg_sum(core: &Core, asked: &LoadsOf, index: u32, leg: u8, dated: &DatedLeg) -> LegSums
    ensures { IsLegSum asked.now (state_now core.now) index leg dated.now result }
{
    if !is_kept(asked, dated) {
        return LegSums {
            legs: 0,
            seats: 0,
            limits: 0,
        };
    }
    LegSums {
        legs: 1,
        seats: held_on(core, index, leg),
        limits: u64::from(top_limit(core.steps(index, leg))),
    }
}

fn plus(a: &LegSums, b: &LegSums) -> LegSums
    requires legs { a.now.legs + b.now.legs < 2 ^ 64 }
    requires seats { a.now.seats + b.now.seats < 2 ^ 64 }
    requires limits { a.now.limits + b.now.limits < 2 ^ 64 }
    ensures { AddUp a.now b.now result }
{
    LegSums {
        legs: a.legs + b.legs,
        seats: a.seats + b.seats,
        limits: a.limits + b.limits,
    }
}

/// Adds the line of the sums.
pub fn put_sums(text: &mut Vec<u8>, sums: &Sums) -> Result<(), AllocError>
    requires few { AreFewLegs sums.now.legs }
    ensures { OnOk result (text.new.items ≡ text.old.items ++ sums_text sums.now) }
{
    put(text, b"SUMS legs ")?;
    put_number(text, sums.legs.legs)?;
    put(text, b" seats ")?;
    put_share(text, sums.legs.seats, sums.legs.limits)?;
    put(text, b" passengers ")?;
    put_number(text, sums.riders.held)?;
    put(text, b" waiting ")?;
    put_number(text, sums.riders.waiting)?;
    put(text, b"\n")
}
