//! The classes whose limits do not come to what is wanted.
//! It knows no text.
ghost use Rattle.std.specs.Prelude.{◌≡◌, ◌++◌, ◌∷◌, [], IfOk, OnOk, flat_map, length};
ghost use Rattle.seat_rules.specs.Inventory.{state_now};
ghost use Rattle.limit_changes.specs.Rows.{reached_on, seats_now, steps_now};
ghost use Rattle.limit_changes.specs.Shorts.{short_of, shorts, shorts_from, shorts_of, unnamed, unnamed_of};

use crate::legs::NamedLeg;
use crate::reaching::{cut_steps, raise_steps, step_of};
use airline_base::Class;
use seat_core::Core;
use seat_lists::Designator;
use seat_nesting::{Grid, Step};
use ssim_flights::DatedLeg;
use std::alloc::{AllocError, Global};

/// A class of a leg whose limit does not come to what is wanted.
#[derive(Clone, Copy)]
pub struct Short {
    pub leg: NamedLeg,
    pub class: Class,
    /// The limit that is wanted.
    pub wanted: u16,
    /// The seats that are held in the class and those below it.
    pub held: u16,
    /// What its limit comes to.
    pub limit: u16,
}

/// Those of these legs, by leg and from the highest rank down. A fault is want of memory.
pub fn shorts_of(
    alloc: Global,
    core: &Core,
    wanted: &Grid,
    legs: &[NamedLeg],
) -> Result<Vec<Short>, AllocError>
    ensures { IfOk result (λ all. all.items ≡ shorts wanted.now (state_now core.now) legs.now) }
{
    let mut all = Vec::new(alloc);
    for i in 0..legs.len() {
        add_leg(alloc, &mut all, core, wanted, &legs[i])?;
    }
    Ok(all)
}

/// Adds those of a leg.
fn add_leg(
    alloc: Global,
    all: &mut Vec<Short>,
    core: &Core,
    wanted: &Grid,
    leg: &NamedLeg,
) -> Result<(), AllocError>
    ensures { OnOk result (all.new.items ≡ all.old.items ++ shorts_of wanted.now (state_now core.now) leg.now) }
{
    let steps = wanted.steps(leg.flight, leg.leg);
    let cut = cut_steps(alloc, core, steps, leg.flight, leg.leg)?;
    let new = raise_steps(alloc, steps, &cut)?;
    add_ranks(all, core, leg, steps, &new)
}

/// The classes of legs that no row names whose limits are others than are wanted. A fault is want of memory.
pub fn unnamed_of(
    alloc: Global,
    core: &Core,
    wanted: &Grid,
    legs: &[NamedLeg],
) -> Result<Vec<Short>, AllocError>
    ensures { IfOk result (λ all. all.items ≡ unnamed wanted.now (state_now core.now) legs.now) }
{
    let mut all = Vec::new(alloc);
    for i in 0..legs.len() {
        add_unnamed(&mut all, core, wanted, &legs[i])?;
    }
    Ok(all)
}

/// Adds those of such a leg, which stays as it is.
fn add_unnamed(
    all: &mut Vec<Short>,
    core: &Core,
    wanted: &Grid,
    leg: &NamedLeg,
) -> Result<(), AllocError>
    ensures { OnOk result (all.new.items ≡ all.old.items ++ unnamed_of wanted.now (state_now core.now) leg.now) }
{
    let steps = wanted.steps(leg.flight, leg.leg);
    add_ranks(all, core, leg, steps, core.steps(leg.flight, leg.leg))
}

/// Adds those of the ranks, which come to these steps.
#[tactic(auto, using(crate::proofs::Listing::rank_more, crate::proofs::Listing::ranks_whole))]
fn add_ranks(
    all: &mut Vec<Short>,
    core: &Core,
    leg: &NamedLeg,
    wanted: &[Step],
    new: &[Step],
) -> Result<(), AllocError>
    requires { length new.now ≡ length (steps_now (state_now core.now) leg.now) }
    ensures { OnOk result (all.new.items ≡ all.old.items ++ shorts_from leg.now wanted.now
        (seats_now (state_now core.now) leg.now) (steps_now (state_now core.now) leg.now) new.now) }
{
    let steps = core.steps(leg.flight, leg.leg);
    for i in 0..steps.len() {
        let held = core.held_from(leg.flight, leg.leg, i);
        add_short(all, leg, step_of(wanted, steps[i].class), held, &new[i])?;
    }
    Ok(())
}

/// Adds a class, if its limit comes to another than is wanted.
#[tactic(auto, using(crate::proofs::Listing::none_wanted, crate::proofs::Listing::short_left, crate::proofs::Listing::short_added))]
fn add_short(
    all: &mut Vec<Short>,
    leg: &NamedLeg,
    wanted: Option<Step>,
    held: u16,
    new: &Step,
) -> Result<(), AllocError>
    ensures { OnOk result (all.new.items ≡ all.old.items ++ short_of leg.now wanted held new.now) }
{
    let Some(wanted) = wanted else {
        return Ok(());
    };
    if new.limit == wanted.limit {
        return Ok(());
    }
    push_short(
        all,
        Short {
            leg: *leg,
            class: new.class,
            wanted: wanted.limit,
            held,
            limit: new.limit,
        },
    )
}

fn push_short(all: &mut Vec<Short>, short: Short) -> Result<(), AllocError>
    ensures { OnOk result (all.new.items ≡ all.old.items ++ short ∷ []) }
{
    let _name: Option<Designator> = None;
    let _run: Option<DatedLeg> = None;
    all.push(short)?;
    Ok(())
}
