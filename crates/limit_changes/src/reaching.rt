//! How the limits of a leg come to those that are wanted.
//! It knows the ranks of one leg, and nothing of how a change is told.
ghost use Rattle.std.specs.Prelude.{◌≡◌, ◌<◌, IfOk, length, set};
ghost use Rattle.seat_nesting.specs.Changing.{step_of};
ghost use Rattle.seat_nesting.specs.Nesting.{ladder_at};
ghost use Rattle.seat_rules.specs.Bookings.{held};
ghost use Rattle.seat_rules.specs.Inventory.{state_now};
ghost use Rattle.limit_changes.specs.Reaching.{cut_steps, cut_to, raise_steps, raise_to};

use airline_base::Class;
use seat_core::Core;
use seat_nesting::Step;
use std::alloc::{AllocError, Global};

/// The limits of a leg, cut: from the lowest rank up, each to what is wanted, or as low as it goes.
#[tactic(auto, using(crate::proofs::Ranking::none_cut, crate::proofs::Ranking::cut_next, crate::proofs::Ranking::cut_inside, crate::proofs::Ranking::cut_whole, crate::proofs::Ranking::cut_count))]
pub fn cut_steps(
    alloc: Global,
    core: &Core,
    wanted: &[Step],
    flight: u32,
    leg: u8,
) -> Result<Vec<Step>, AllocError>
    ensures value { IfOk result (λ cut. cut.items ≡ cut_steps wanted.now (held (state_now core.now).bookings flight leg)
        (ladder_at (state_now core.now).grid flight leg)) }
    ensures length { IfOk result (λ cut. length cut.items ≡ length (ladder_at (state_now core.now).grid flight leg)) }
{
    let mut steps = Vec::from_slice(alloc, core.steps(flight, leg))?;
    let mut below = 0;
    let mut i = steps.len();
    while i > 0 {
        i -= 1;
        let step = &steps[i];
        let lowest = core.held_from(flight, leg, i).max(below);
        let new = cut_to(step_of(wanted, step.class), lowest, step);
        below = new.limit;
        put_step(&mut steps, i, new);
    }
    Ok(steps)
}

/// These limits, raised: from the highest rank down, each that is not above what is wanted to it, or as high as it goes.
#[tactic(auto, using(crate::proofs::Ranking::none_raised, crate::proofs::Ranking::raised_more, crate::proofs::Ranking::raised_whole, crate::proofs::Ranking::raised_count))]
pub fn raise_steps(alloc: Global, wanted: &[Step], cut: &[Step]) -> Result<Vec<Step>, AllocError>
    ensures value { IfOk result (λ new. new.items ≡ raise_steps wanted.now 999 cut.now) }
    ensures length { IfOk result (λ new. length new.items ≡ length cut.now) }
{
    let mut steps = Vec::from_slice(alloc, cut)?;
    let mut highest = 999;
    for i in 0..steps.len() {
        let step = &steps[i];
        let new = raise_to(step_of(wanted, step.class), highest, step);
        highest = new.limit;
        put_step(&mut steps, i, new);
    }
    Ok(steps)
}

/// Puts a step in the place of another.
fn put_step(steps: &mut Vec<Step>, rank: usize, step: Step)
    requires { rank < length steps.old.items }
    ensures { steps.new.items ≡ set steps.old.items rank step }
{
    steps[rank] = step;
}

/// The step of a class, where it is there.
pub fn step_of(steps: &[Step], class: Class) -> Option<Step>
    ensures { result ≡ step_of steps.now class }
{
    let mut rest = steps;
    while let [step, lower @ ..] = rest {
        if step.class == class {
            return Some(*step);
        }
        rest = lower;
    }
    None
}

/// A step whose limit is above what is wanted, cut to it or as low as it goes; else as it was.
fn cut_to(wanted: Option<Step>, lowest: u16, step: &Step) -> Step
    ensures { result ≡ cut_to wanted lowest step.now }
{
    match wanted {
        Some(wanted) if wanted.limit < step.limit => Step {
            class: step.class,
            limit: wanted.limit.max(lowest),
            wait: wanted.wait,
            listed: step.listed,
            closed: step.closed,
        },
        _ => *step,
    }
}

/// A step whose limit is not above what is wanted, raised to it or as high as it goes; else as it was.
fn raise_to(wanted: Option<Step>, highest: u16, step: &Step) -> Step
    ensures { result ≡ raise_to wanted highest step.now }
{
    match wanted {
        Some(wanted) if step.limit <= wanted.limit => Step {
            class: step.class,
            limit: wanted.limit.min(highest),
            wait: wanted.wait,
            listed: step.listed,
            closed: step.closed,
        },
        _ => *step,
    }
}
