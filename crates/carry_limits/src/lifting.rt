//! The limits of all legs, lifted for the bookings that are carried.
//! It knows no booking's fate.
ghost use Rattle.std.specs.Prelude.{◌≡◌, ◌≤◌, ◌++◌, ◌∷◌, [], ℕ, IfOk, OnOk, length, unwrap_or};
ghost use Rattle.std.specs.Bool.{OnFalse, OnTrue};
ghost use Rattle.seat_nesting.specs.Nesting.{IsLegLadder, ladder_at, steps_at};
ghost use Rattle.seat_rules.specs.Bookings.{held, waiting};
ghost use Rattle.limit_changes.specs.Laws.{AreLadders};
ghost use Rattle.seat_carrying.specs.Lifting.{lifted, top_of};
ghost use Rattle.carry_limits.specs.Filed.{AreAsBegun};
ghost use Rattle.carry_limits.specs.Legs.{leg_ladders};
ghost use Rattle.carry_limits.specs.Lifting.{FileNests, LegsNest, lifted_limits, lifted_on};
ghost use Rattle.carry_limits.specs.Wanting.{wanted_on};

use crate::fitting::has_room;
use crate::parting::ByFlight;
use crate::wanting::{Seasons, other_limits, sets_any};
use airline_base::Memory;
use seat_carrying::lifted_for;
use seat_nesting::{Grid, GridPlan, Ladder, Step};
use seat_rules::Booking;
use ssim_flights::DatedLeg;
use std::alloc::Global;

/// The limits over which bookings are carried into a new season: the wanted ones of each leg, each rank lifted to what is held in it and below it, as far as
/// the highest rank of the file has seats, and each wait to what waits, as far as 999. A leg without limits in the file has none.
#[tactic(auto, using(crate::proofs::Grids::flights_none, crate::proofs::Grids::file_nests))]
pub fn lifted_limits(alloc: Global, seasons: &Seasons<'_>, by: &ByFlight) -> Result<Grid, Memory>
    requires new { seasons.now.new.now ≡ seasons.now.flights.now }
    ensures value { IfOk result (λ grid. grid ≡ lifted_limits seasons.now by.now) }
    ensures nested { IfOk result (λ grid. AreLadders grid) }
    ensures file { OnOk result (FileNests seasons.now) }
{
    let flights = seasons.flights;
    let sets = sets_any(seasons.before);
    let mut plan = GridPlan::new(alloc, flights.len() as usize)?;
    for flight in 0..flights.len() {
        let flown = flights.flight(flight);
        let legs = flown.legs.as_slice();
        add_flight(&mut plan, seasons, sets, by, flight, legs)?;
    }
    Grid::of(alloc, plan)
}

/// Adds a flight with those of its legs.
#[tactic(auto, using(crate::proofs::Grids::legs_none))]
fn add_flight(
    plan: &mut GridPlan,
    seasons: &Seasons<'_>,
    sets: bool,
    by: &ByFlight,
    flight: u32,
    legs: &[DatedLeg],
) -> Result<(), Memory>
    requires closed { plan.old.legs ≡ [] }
    requires few { length legs.now ≤ 8 }
    requires new { seasons.now.new.now ≡ seasons.now.flights.now }
    requires sets { OnFalse sets (AreAsBegun seasons.now.before.now) }
    ensures value { OnOk result (plan.new.flights
        ≡ plan.old.flights ++ leg_ladders (lifted_on seasons.now by.now flight) legs.now ∷ []) }
    ensures closed { OnOk result (plan.new.legs ≡ []) }
    ensures nested { OnOk result ((leg : ℕ)
        → IsLegLadder (steps_at (leg_ladders (lifted_on seasons.now by.now flight) legs.now) leg)) }
    ensures file { OnOk result (LegsNest seasons.now.file.now flight (length legs.now)) }
{
    for leg in 0..legs.len() {
        add_leg(plan, seasons, sets, by, flight, leg as u8)?;
    }
    plan.close_flight()
}

/// Adds a leg with those that it has, where the file has any.
#[tactic(auto, using(crate::proofs::Lifted::none_lifted, crate::proofs::Standing::leg_ladder_of, crate::proofs::Standing::leg_ladder_none))]
fn add_leg(
    plan: &mut GridPlan,
    seasons: &Seasons<'_>,
    sets: bool,
    by: &ByFlight,
    flight: u32,
    leg: u8,
) -> Result<(), Memory>
    requires new { seasons.now.new.now ≡ seasons.now.flights.now }
    requires sets { OnFalse sets (AreAsBegun seasons.now.before.now) }
    ensures value { OnOk result (plan.new.legs ≡ plan.old.legs ++ lifted_on seasons.now by.now flight leg ∷ []) }
    ensures flights { OnOk result (plan.new.flights ≡ plan.old.flights) }
    ensures nested { OnOk result (IsLegLadder (lifted_on seasons.now by.now flight leg)) }
    ensures file { OnOk result (IsLegLadder (ladder_at seasons.now.file.now flight leg)) }
{
    let Some(file) = seasons.file.ladder(flight, leg) else {
        return plan.add_leg(None);
    };
    let lifted = lifted_ladder(seasons, sets, file, by.on(flight), flight, leg);
    let ladder = ladder_or(&lifted, file);
    // For the prover alone: a ladder says that its limits nest.
    let _ = file.steps();
    let _ = ladder.steps();
    let number = plan.share(ladder)?;
    plan.add_leg(Some(number))
}

/// The wanted limits of a leg whose file has these, lifted: none where they are the file's.
fn lifted_ladder(
    seasons: &Seasons<'_>,
    sets: bool,
    file: &Ladder,
    bookings: &[Booking],
    flight: u32,
    leg: u8,
) -> Option<Ladder>
    requires new { seasons.now.new.now ≡ seasons.now.flights.now }
    requires file { file.now ≡ ladder_at seasons.now.file.now flight leg }
    requires sets { OnFalse sets (AreAsBegun seasons.now.before.now) }
    ensures { unwrap_or result file.now
        ≡ lifted (top_of file.now) (held bookings.now flight leg) (waiting bookings.now flight leg) (wanted_on seasons.now flight leg) }
{
    match other_limits(seasons, sets, file, flight, leg) {
        Some(wanted) => Some(lifted_for(top_of(file), &wanted, bookings, flight, leg)),
        None => lifted_file(file, bookings, flight, leg),
    }
}

/// The file's limits, lifted: nearly all have room as they are.
#[tactic(auto, using(crate::proofs::Unlifted::roomy_file))]
fn lifted_file(file: &Ladder, bookings: &[Booking], flight: u32, leg: u8) -> Option<Ladder>
    ensures { unwrap_or result file.now
        ≡ lifted (top_of file.now) (held bookings.now flight leg) (waiting bookings.now flight leg) file.now }
{
    if has_room(file.steps(), bookings, flight, leg) {
        return None;
    }
    Some(lifted_for(top_of(file), file, bookings, flight, leg))
}

/// The lifted ladder, where it is not the file's.
fn ladder_or<'a>(lifted: &'a Option<Ladder>, file: &'a Ladder) -> &'a Ladder
    ensures { result.now ≡ unwrap_or lifted.now file.now }
{
    match lifted {
        Some(ladder) => ladder,
        None => file,
    }
}

/// The limit of the highest rank.
pub(crate) fn top_of(ladder: &Ladder) -> u16
    ensures value { result ≡ top_of ladder.now }
    ensures few { result ≤ 999 }
{
    match ladder.steps() {
        [step, ..] => step.limit,
        [] => 0,
    }
}

/// Whether the steps are the very ones.
pub(crate) fn is_very(file: &[Step], steps: &[Step]) -> bool
    ensures { OnTrue result (file.now ≡ steps.now) }
{
    file == steps
}
