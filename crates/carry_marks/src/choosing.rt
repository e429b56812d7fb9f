//! The classes of each leg.
ghost use Rattle.std.specs.Prelude.{◌≡◌, ◌++◌, ◌==◌, ◌&&◌, IfOk, OnOk, flat_map, option_to_list};
ghost use Rattle.std.specs.List.{All};
ghost use Rattle.seat_nesting.specs.Nesting.{has_class, ladder_at};
ghost use Rattle.seat_rules.specs.Inventory.{state_now};
ghost use Rattle.carry_lines.specs.Setting.{FitsMark};
ghost use Rattle.carry_marks.specs.Marks.{has_leg_with, mark_of, mark_on, marks, marks_on_leg, marks_on_legs, wish_of};

use airline_base::{Class, Memory, Place};
use carry_lines::Mark;
use limit_changes::{LegsAsked, NamedLeg, legs_by};
use seat_core::Core;
use seat_nesting::{Grid, Step};
use ssim_flights::{Flights, Served, Wanted};
use std::alloc::Global;

/// The classes that are closed again: each that an inventory has closed now on a leg of its flights, on the leg of the new flights that has the name of that
/// one, where the new limits have the class. By flight and leg of the old flights, and from the highest rank down.
#[tactic(auto, using(crate::proofs::Fitting::all_fit))]
pub fn marks_of(
    alloc: Global,
    flights: &Flights,
    old: &Served<'_>,
    core: &Core,
    new: &Served<'_>,
    grid: &Grid,
) -> Result<Vec<Mark>, Memory>
    requires served { old.now ≡ flights.now }
    ensures marks { IfOk result (λ all. all.items ≡ marks flights.now (state_now core.now).grid new.now grid.now) }
    ensures fits { IfOk result (λ all. All (FitsMark grid.now) all.items) }
{
    let every = LegsAsked {
        flight: None,
        day: None,
        pair: None,
    };
    let Ok(legs) = legs_by(alloc, flights, old, &every, true) else {
        return Err(Memory);
    };
    marks_on_legs(alloc, core, legs.as_slice(), new, grid)
}

fn marks_on_legs(
    alloc: Global,
    core: &Core,
    legs: &[NamedLeg],
    new: &Served<'_>,
    grid: &Grid,
) -> Result<Vec<Mark>, Memory>
    ensures { IfOk result (λ all. all.items ≡ marks_on_legs (state_now core.now).grid new.now grid.now legs.now) }
{
    let mut all = Vec::new(alloc);
    for leg in legs {
        add_leg(&mut all, leg, core.steps(leg.flight, leg.leg), new, grid)?;
    }
    Ok(all)
}

/// Adds those of a leg that has these limits now.
fn add_leg(
    all: &mut Vec<Mark>,
    leg: &NamedLeg,
    steps: &[Step],
    new: &Served<'_>,
    grid: &Grid,
) -> Result<(), Memory>
    ensures { OnOk result (all.new.items ≡ all.old.items ++ flat_map (λ s. option_to_list (mark_of new.now grid.now leg.now s)) steps.now) }
{
    for step in steps {
        add(all, mark_of(new, grid, leg, step))?;
    }
    Ok(())
}

fn add(all: &mut Vec<Mark>, mark: Option<Mark>) -> Result<(), Memory>
    ensures { OnOk result (all.new.items ≡ all.old.items ++ option_to_list mark) }
{
    let Some(mark) = mark else {
        return Ok(());
    };
    match all.push(mark) {
        Ok(()) => Ok(()),
        Err(_) => Err(Memory),
    }
}

/// Where a class of a leg is closed again, if it is closed now.
fn mark_of(new: &Served<'_>, grid: &Grid, leg: &NamedLeg, step: &Step) -> Option<Mark>
    ensures { result ≡ mark_of new.now grid.now leg.now step.now }
{
    if !step.closed {
        return None;
    }
    mark_on(grid, step.class, new.find(&wish_of(leg)))
}

/// What passengers call a leg.
fn wish_of(leg: &NamedLeg) -> Wanted
    ensures { result ≡ wish_of leg.now }
{
    Wanted {
        airline: leg.name.airline,
        number: leg.name.number,
        suffix: leg.name.suffix,
        day: leg.run.day,
        board: leg.run.board,
        off: leg.run.off,
    }
}

/// A class of the place that was found, if that is one leg whose limits have it.
fn mark_on(grid: &Grid, class: Class, found: Option<Place>) -> Option<Mark>
    ensures { result ≡ mark_on grid.now class found }
{
    let place = found?;
    if has_leg_with(grid, class, place) {
        Some(Mark {
            flight: place.flight,
            leg: place.from,
            class,
        })
    } else {
        None
    }
}

/// Whether a place is one leg whose limits have the class.
fn has_leg_with(grid: &Grid, class: Class, place: Place) -> bool
    ensures { result ≡ has_leg_with grid.now class place }
{
    place.from == place.to && has_class(grid.steps(place.flight, place.from), class)
}

fn has_class(steps: &[Step], class: Class) -> bool
    ensures { result ≡ has_class steps.now class }
{
    steps.iter().any(|step| class == step.class)
}
