//! The changes of all legs that are asked for, in the order in which they are made.
//! It knows no text.
ghost use Rattle.std.specs.Prelude.{◌≡◌, ◌++◌, ◌∷◌, [], IfOk, OnOk, ◌==◌, ◌&&◌, flat_map, length, map};
ghost use Rattle.seat_rules.specs.Inventory.{state_now};
ghost use Rattle.limit_changes.specs.Rows.{cuts_of, raises_of, row_of, rows};
ghost use Rattle.limit_changes.specs.Reaching.{change_of, changes_down, changes_up};

use crate::legs::NamedLeg;
use crate::reaching::{cut_steps, raise_steps};
use airline_base::Class;
use seat_core::Core;
use seat_lists::Designator;
use seat_nesting::{Grid, Step};
use ssim_flights::DatedLeg;
use std::alloc::{AllocError, Global};

/// The limit and the wait that a class of a leg gets, each from 0 to 999 seats.
#[derive(Clone, Copy)]
pub struct Row {
    pub leg: NamedLeg,
    pub class: Class,
    pub limit: u16,
    pub wait: u16,
}

/// The changes that bring the limits of these legs to those that are wanted, as far as that can be: all cuts, those of a leg from the lowest rank up,
/// and then all raises, from the highest down. A fault is want of memory.
#[tactic(auto, using(crate::proofs::Listing::both_parts))]
pub fn changes_of(
    alloc: Global,
    core: &Core,
    wanted: &Grid,
    legs: &[NamedLeg],
) -> Result<Vec<Row>, AllocError>
    ensures { IfOk result (λ all. all.items ≡ rows wanted.now (state_now core.now) legs.now) }
{
    let mut all = Vec::new(alloc);
    add_cuts(alloc, &mut all, core, wanted, legs)?;
    add_raises(alloc, &mut all, core, wanted, legs)?;
    Ok(all)
}

/// Adds the cuts of these legs.
fn add_cuts(
    alloc: Global,
    all: &mut Vec<Row>,
    core: &Core,
    wanted: &Grid,
    legs: &[NamedLeg],
) -> Result<(), AllocError>
    ensures { OnOk result (all.new.items ≡ all.old.items
        ++ flat_map (cuts_of wanted.now (state_now core.now)) legs.now) }
{
    for i in 0..legs.len() {
        add_leg_cuts(alloc, all, core, wanted, &legs[i])?;
    }
    Ok(())
}

/// Adds their raises.
fn add_raises(
    alloc: Global,
    all: &mut Vec<Row>,
    core: &Core,
    wanted: &Grid,
    legs: &[NamedLeg],
) -> Result<(), AllocError>
    ensures { OnOk result (all.new.items ≡ all.old.items
        ++ flat_map (raises_of wanted.now (state_now core.now)) legs.now) }
{
    for i in 0..legs.len() {
        add_leg_raises(alloc, all, core, wanted, &legs[i])?;
    }
    Ok(())
}

/// Adds the cuts of a leg.
fn add_leg_cuts(
    alloc: Global,
    all: &mut Vec<Row>,
    core: &Core,
    wanted: &Grid,
    leg: &NamedLeg,
) -> Result<(), AllocError>
    ensures { OnOk result (all.new.items ≡ all.old.items ++ cuts_of wanted.now (state_now core.now) leg.now) }
{
    let steps = wanted.steps(leg.flight, leg.leg);
    let cut = cut_steps(alloc, core, steps, leg.flight, leg.leg)?;
    add_up(all, leg, core.steps(leg.flight, leg.leg), &cut)
}

/// Adds its raises.
fn add_leg_raises(
    alloc: Global,
    all: &mut Vec<Row>,
    core: &Core,
    wanted: &Grid,
    leg: &NamedLeg,
) -> Result<(), AllocError>
    ensures { OnOk result (all.new.items ≡ all.old.items ++ raises_of wanted.now (state_now core.now) leg.now) }
{
    let steps = wanted.steps(leg.flight, leg.leg);
    let cut = cut_steps(alloc, core, steps, leg.flight, leg.leg)?;
    let new = raise_steps(alloc, steps, &cut)?;
    add_down(all, leg, &cut, &new)
}

/// Adds a change of each rank whose step is another, from the lowest up.
#[tactic(auto, using(crate::proofs::Listing::up_none, crate::proofs::Listing::up_next, crate::proofs::Listing::up_inside, crate::proofs::Listing::up_within, crate::proofs::Listing::up_whole))]
fn add_up(all: &mut Vec<Row>, leg: &NamedLeg, old: &[Step], new: &[Step]) -> Result<(), AllocError>
    requires { length new.now ≡ length old.now }
    ensures { OnOk result (all.new.items ≡ all.old.items ++ map (row_of leg.now) (changes_up old.now new.now)) }
{
    let mut i = old.len();
    while i > 0 {
        i -= 1;
        add_change(all, leg, &old[i], &new[i])?;
    }
    Ok(())
}

/// From the highest down.
#[tactic(auto, using(crate::proofs::Listing::down_more, crate::proofs::Listing::down_whole))]
fn add_down(
    all: &mut Vec<Row>,
    leg: &NamedLeg,
    old: &[Step],
    new: &[Step],
) -> Result<(), AllocError>
    requires { length new.now ≡ length old.now }
    ensures { OnOk result (all.new.items ≡ all.old.items ++ map (row_of leg.now) (changes_down old.now new.now)) }
{
    for i in 0..old.len() {
        add_change(all, leg, &old[i], &new[i])?;
    }
    Ok(())
}

/// Adds a change to the limit and the wait of a step, where they are other ones.
#[tactic(auto, using(crate::proofs::Listing::change_left, crate::proofs::Listing::change_added))]
fn add_change(all: &mut Vec<Row>, leg: &NamedLeg, old: &Step, new: &Step) -> Result<(), AllocError>
    ensures { OnOk result (all.new.items ≡ all.old.items ++ map (row_of leg.now) (change_of old.now new.now)) }
{
    if is_same(old, new) {
        return Ok(());
    }
    add_row(all, row_of(leg, new))
}

fn row_of(leg: &NamedLeg, step: &Step) -> Row
    ensures { result ≡ row_of leg.now step.now }
{
    Row {
        leg: *leg,
        class: step.class,
        limit: step.limit,
        wait: step.wait,
    }
}

/// Whether two steps have the same limit and the same wait.
fn is_same(old: &Step, new: &Step) -> bool
    ensures { result ≡ ((old.now.limit == new.now.limit) && (old.now.wait == new.now.wait)) }
{
    old.limit == new.limit && old.wait == new.wait
}

fn add_row(all: &mut Vec<Row>, row: Row) -> Result<(), AllocError>
    ensures { OnOk result (all.new.items ≡ all.old.items ++ row ∷ []) }
{
    let _name: Option<Designator> = None;
    let _run: Option<DatedLeg> = None;
    all.push(row)?;
    Ok(())
}
