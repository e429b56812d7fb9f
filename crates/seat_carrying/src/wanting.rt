//! What is wanted of the limits of a leg.
ghost use Rattle.std.specs.Prelude.{◌≡◌, ◌≤◌, ◌<◌, ◌++◌, ◌∷◌, [], min, length};
ghost use Rattle.std.specs.List.{AllByRecursion};
ghost use Rattle.seat_nesting.specs.Nesting.{IsLadder};
ghost use Rattle.seat_nesting.specs.Changing.{step_of};
ghost use Rattle.seat_carrying.specs.Lifting.{changed_step, step_wanted, top_of, wanted, with_change};

use airline_base::Class;
use arrayvec::ArrayVec;
use seat_nesting::{Ladder, Step};

/// The limits of a leg in a new file, with what a journal's changes set of the classes that are still there: its limits of the leg were these when
/// it began, and are these now. Each is brought under the one above it, and the highest under the authorised seats of the file.
pub fn wanted_for(file: &Ladder, begun: &[Step], now: &[Step]) -> Ladder
    requires waits { AllByRecursion (λ step. step.wait ≤ 999) now.now }
    ensures { result ≡ wanted file.now begun.now now.now }
{
    let wanted = steps_wanted(file.steps(), begun, now);
    match Ladder::new(&wanted) {
        Ok(ladder) => ladder,
        Err(_) => unreachable!(),
    }
}

fn steps_wanted(file: &[Step], begun: &[Step], now: &[Step]) -> ArrayVec<Step, 26>
    requires ladder { IsLadder file.now }
    ensures { result.items ≡ wanted file.now begun.now now.now }
{
    let mut all = ArrayVec::new();
    let mut most = file[0].limit;
    for step in file {
        let wanted = step_wanted(most, begun, now, step);
        most = wanted.limit;
        push(&mut all, wanted);
    }
    all
}

/// One step more, for which there is room.
fn push(steps: &mut ArrayVec<Step, 26>, step: Step)
    requires { length steps.old.items < 26 }
    ensures { steps.new.items ≡ steps.old.items ++ step ∷ [] }
{
    let pushed = steps.try_push(step);
    prove!(pushed.is_ok());
    let _ = pushed;
}

/// A step of the file as it is wanted, under the limit above it.
fn step_wanted(most: u16, begun: &[Step], now: &[Step], step: &Step) -> Step
    ensures { result ≡ step_wanted most begun.now now.now step.now }
{
    let changed = changed_step(step_of(begun, step.class), step_of(now, step.class));
    let step = with_change(changed, step);
    Step {
        limit: step.limit.min(most),
        ..step
    }
}

/// What the journal's changes set of a class.
fn changed_step(begun: Option<Step>, now: Option<Step>) -> Option<Step>
    ensures { result ≡ changed_step begun now }
{
    let begun = begun?;
    let now = now?;
    if begun.limit == now.limit && begun.wait == now.wait {
        None
    } else {
        Some(now)
    }
}

fn with_change(changed: Option<Step>, step: &Step) -> Step
    ensures { result ≡ with_change changed step.now }
{
    match changed {
        Some(now) => Step {
            class: step.class,
            limit: now.limit,
            wait: now.wait,
            listed: step.listed,
            closed: step.closed,
        },
        None => *step,
    }
}

fn step_of(steps: &[Step], class: Class) -> Option<Step>
    ensures { result ≡ step_of steps.now class }
{
    for step in steps {
        if step.class == class {
            return Some(*step);
        }
    }
    None
}
