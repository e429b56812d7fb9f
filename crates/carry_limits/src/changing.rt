//! The manager's changes that bring the file's limits to the lifted ones.
//! It knows no line's text.
ghost use Rattle.std.specs.Prelude.{◌≡◌, ◌≤◌, ◌++◌, ◌∷◌, [], IfOk, OnOk, length, map};
ghost use Rattle.std.specs.List.{All};
ghost use Rattle.limit_changes.specs.Laws.{AreLadders, change_in};
ghost use Rattle.limit_changes.specs.Legs.{every_leg, legs_on};
ghost use Rattle.limit_changes.specs.Rows.{rows};
ghost use Rattle.seat_rules.specs.Journal.{FitsChange};
ghost use Rattle.seat_rules.specs.Sequential.{state_of};
ghost use Rattle.carry_limits.specs.Filed.{HaveRowsOf, IsNested};
ghost use Rattle.carry_limits.specs.Legs.{HasLegsOf};
ghost use Rattle.carry_limits.specs.Changes.{AreAllMade, AreReached, HasRoomBehind, changes_for};

use crate::lifting::{is_very, lifted_limits};
use crate::parting::ByFlight;
use crate::wanting::Seasons;
use airline_base::{Day, Memory};
use limit_changes::{NamedLeg, Row, changes_of, named_leg};
use seat_core::Core;
use seat_journal::Change;
use seat_lists::Designator;
use seat_nesting::Grid;
use ssim_flights::{Flight, Flights};
use std::alloc::Global;

/// The manager's changes that bring the file's limits to the lifted ones, over which the bookings are carried: all cuts, those of a leg from the lowest rank
/// up, and then all raises, from the highest down, so that limits nest behind each.
#[tactic(auto, using(crate::proofs::Unlifted::nested_of))]
pub fn changes_for(
    alloc: Global,
    seasons: &Seasons<'_>,
    by: &ByFlight,
) -> Result<Vec<Change>, Memory>
    requires new { seasons.now.new.now ≡ seasons.now.flights.now }
    requires legs { HasLegsOf seasons.now.file.now seasons.now.flights.now }
    ensures value { IfOk result (λ all. all.items ≡ changes_for seasons.now by.now) }
    ensures fits { IfOk result (λ all. All (FitsChange seasons.now.file.now) all.items) }
    ensures accepted { IfOk result (λ all. AreAllMade (state_of seasons.now.file.now []) all.items) }
    ensures reached { IfOk result (λ all. AreReached seasons.now by.now all.items) }
    ensures room { IfOk result (λ all. HasRoomBehind seasons.now by.now all.items) }
    ensures ladders { OnOk result (AreLadders seasons.now.file.now) }
{
    let lifted = lifted_limits(alloc, seasons, by)?;
    let rows = rows_between(alloc, seasons.flights, seasons.file, &lifted)?;
    let all = changes_in(alloc, &rows)?;
    Ok(all)
}

/// The changes of limits over which nothing is held to others.
#[tactic(auto, using(crate::proofs::Unlifted::rows_of_all))]
fn rows_between(
    alloc: Global,
    flights: &Flights,
    file: &Grid,
    lifted: &Grid,
) -> Result<Vec<Row>, Memory>
    requires nested { IsNested file.now }
    ensures { IfOk result (λ all. all.items ≡ rows lifted.now (state_of file.now []) (every_leg flights.now)) }
{
    let legs = lifted_legs(alloc, flights, file, lifted)?;
    let all = rows_on(alloc, file, lifted, &legs)?;
    Ok(all)
}

/// Those of some legs. Where there are none no counters are made.
#[tactic(auto, using(crate::proofs::Unlifted::rows_of_none))]
fn rows_on(alloc: Global, file: &Grid, lifted: &Grid, legs: &[NamedLeg]) -> Result<Vec<Row>, Memory>
    ensures { IfOk result (λ all. all.items ≡ rows lifted.now (state_of file.now []) legs.now) }
{
    match legs {
        [] => Ok(Vec::new(alloc)),
        [_leg, ..] => rows_over(alloc, file, lifted, legs),
    }
}

/// Those of some legs, by the counters of an inventory without lines.
#[tactic(auto, using(crate::proofs::Behind::rows_opened))]
fn rows_over(
    alloc: Global,
    file: &Grid,
    lifted: &Grid,
    legs: &[NamedLeg],
) -> Result<Vec<Row>, Memory>
    ensures { IfOk result (λ all. all.items ≡ rows lifted.now (state_of file.now []) legs.now) }
{
    let empty = Core::new(alloc, file.copy(alloc)?, 0)?;
    let rows = changes_of(alloc, &empty, lifted, legs)?;
    Ok(rows)
}

/// The legs whose limits are others than the file's: those of any other change nothing.
#[tactic(auto, using(crate::proofs::Unlifted::rows_self))]
fn lifted_legs(
    alloc: Global,
    flights: &Flights,
    file: &Grid,
    lifted: &Grid,
) -> Result<Vec<NamedLeg>, Memory>
    requires nested { IsNested file.now }
    ensures { IfOk result (λ legs. HaveRowsOf lifted.now (state_of file.now []) legs.items (every_leg flights.now)) }
{
    let mut all = Vec::new(alloc);
    for index in 0..flights.len() {
        add_lifted(&mut all, file, lifted, index, &flights.flight(index))?;
    }
    Ok(all)
}

/// Adds those of a flight.
fn add_lifted(
    all: &mut Vec<NamedLeg>,
    file: &Grid,
    lifted: &Grid,
    index: u32,
    flight: &Flight,
) -> Result<(), Memory>
    requires few { length flight.now.legs ≤ 8 }
    requires nested { IsNested file.now }
    ensures { OnOk result (HaveRowsOf lifted.now (state_of file.now []) all.new.items (all.old.items ++ legs_on index flight.now)) }
{
    let legs = flight.legs.as_slice();
    for j in 0..legs.len() {
        add_leg(
            all,
            file,
            lifted,
            named_leg(index, flight, j as u8, &legs[j]),
        )?;
    }
    Ok(())
}

/// Adds a leg, if its limits are others than the file's.
#[tactic(auto, using(crate::proofs::Unlifted::leg_other))]
fn add_leg(all: &mut Vec<NamedLeg>, file: &Grid, lifted: &Grid, leg: NamedLeg) -> Result<(), Memory>
    requires nested { IsNested file.now }
    ensures { OnOk result (HaveRowsOf lifted.now (state_of file.now []) all.new.items (all.old.items ++ leg ∷ [])) }
{
    let steps = file.steps(leg.flight, leg.leg);
    if is_very(steps, lifted.steps(leg.flight, leg.leg)) {
        return Ok(());
    }
    push_leg(all, leg)
}

fn push_leg(all: &mut Vec<NamedLeg>, leg: NamedLeg) -> Result<(), Memory>
    ensures { OnOk result (all.new.items ≡ all.old.items ++ leg ∷ []) }
{
    let _day: Option<Day> = None;
    let _name: Option<Designator> = None;
    all.push(leg)?;
    Ok(())
}

/// What the manager asks for.
fn changes_in(alloc: Global, rows: &[Row]) -> Result<Vec<Change>, Memory>
    ensures { IfOk result (λ all. all.items ≡ map change_in rows.now) }
{
    let mut all = Vec::with_capacity(alloc, rows.len())?;
    for row in rows {
        all.push(change_in(row))?;
    }
    Ok(all)
}

fn change_in(row: &Row) -> Change
    ensures { result ≡ change_in row.now }
{
    Change {
        flight: row.leg.flight,
        leg: row.leg.leg,
        class: row.class,
        limit: row.limit,
        wait: row.wait,
    }
}
