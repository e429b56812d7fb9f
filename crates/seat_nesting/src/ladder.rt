//! Ladders of nested booking limits.
ghost use Rattle.std.specs.Prelude.{◌≡◌, ◌≤◌, ◌<◌, ◌==◌, ◌↔◌, ◌++◌, ◌∷◌, [], None, IfNone, IfOk, IsOk, length};
ghost use Rattle.std.specs.Bool.{OnFalse};
ghost use Rattle.std.specs.List.{position};
ghost use Rattle.std.specs.Result.{result_err};
ghost use Rattle.seat_nesting.specs.Nesting.{IsLadder, HasLetters, has_class};
ghost use Rattle.seat_nesting.specs.Ladders.{ladder_fault, repeats_class, is_below_next, is_rising, is_too_large};
ghost use Rattle.seat_nesting.specs.FaultText.{ladder_code};
ghost use Rattle.seat_nesting.specs.Changing.{closed_at, has_named, is_named, marked, with_limit, with_marks, with_sale, with_setting};

use crate::setting::Setting;
use airline_base::Class;
use arrayvec::ArrayVec;
use std::fmt;
use std::marker::Model;

/// A class, how many seats may be held in it and below, how many may wait in it, whether a
/// need that finds no room is listed, and whether the class is closed: then nothing is sold, listed or
/// confirmed in it. No class is closed in a file of limits.
#[derive(Clone, Copy, PartialEq, Eq)]
pub struct Step {
    pub class: Class,
    pub limit: u16,
    pub wait: u16,
    pub listed: bool,
    pub closed: bool,
}

impl Default for Step {
    fn default() -> Self {
        Step {
            class: Class::new(b'A').unwrap(),
            limit: 0,
            wait: 0,
            listed: false,
            closed: false,
        }
    }
}

/// Why steps are no ladder: the first fault in this order.
#[derive(Clone, Copy)]
pub enum LadderFault {
    /// There is no step.
    Empty,
    /// A class stands twice.
    RepeatedClass,
    /// A limit is above that of the rank before it.
    Rising,
    /// A limit or a wait is above 999.
    TooLarge,
}

impl fmt::Display for LadderFault {
    ghost use Rattle.std.specs.Prelude.{Some};

    ghost output = { λ fault. Some (ladder_code fault) };

    /// The code, L1 to L4.
    fn fmt<W: fmt::Write>(&self, f: &mut fmt::Formatter<W>) -> fmt::Result {
        f.write_str(code_of(*self))
    }
}

fn code_of(fault: LadderFault) -> &'static str
    ensures { result.now ≡ ladder_code fault }
{
    match fault {
        LadderFault::Empty => "L1",
        LadderFault::RepeatedClass => "L2",
        LadderFault::Rising => "L3",
        LadderFault::TooLarge => "L4",
    }
}

/// 1 to 26 steps, highest rank first.
#[derive(Drop)]
pub struct Ladder {
    steps: ArrayVec<Step, 26>,
}

impl Model for Ladder {
    ghost use Rattle.std.specs.Prelude.{List};
    ghost use Rattle.seat_nesting.specs.declared.ladder.Step.{Step};

    ghost Value = { List Step };

    ghost use Rattle.seat_nesting.specs.Nesting.{IsLadder};

    ghost view = { λ l. l.steps.items };

    ghost invariant = { λ l. IsLadder l.steps.items };
}

impl Ladder {
    /// The ladder of these steps, which are given from the highest rank to the lowest.
    #[tactic(auto, using(crate::proofs::LadderFaults::no_fault))]
    pub fn new(steps: &[Step]) -> Result<Ladder, LadderFault>
        // The steps are those given.
        ensures value { IfOk result (λ ladder. ladder ≡ steps.now) }
        ensures ladder { IsOk result ↔ IsLadder steps.now }
        ensures fault { result_err result ≡ ladder_fault steps.now }
    {
        match fault_of(steps) {
            Some(fault) => Err(fault),
            None => Ok(Ladder {
                steps: copy_of(steps),
            }),
        }
    }

    /// The steps from the highest rank to the lowest.
    pub fn steps(&self) -> &[Step]
        ensures value { result.now ≡ self.now }
        ensures ladder { IsLadder self.now }
    {
        self.steps.as_slice()
    }

    /// Sets what a setting says, and nothing else.
    pub(crate) fn set(&mut self, setting: &Setting)
        requires { IsLadder (with_setting self.old setting.now) }
        ensures { self.new ≡ with_setting self.old setting.now }
    {
        match setting {
            Setting::ToLimit(class, limit, wait) => self.set_limit(*class, *limit, *wait),
            Setting::ToSale(class, closed) => self.set_sale(*class, *closed),
            Setting::ToMarks(marks) => self.set_marks(marks.steps()),
        }
    }

    /// Sets the limit and the wait of the class, which keeps its marks.
    fn set_limit(&mut self, class: Class, limit: u16, wait: u16)
        requires { IsLadder (with_limit self.old class limit wait) }
        ensures { self.new ≡ with_limit self.old class limit wait }
    {
        if let Some(rank) = rank_of(self.steps.as_slice(), class) {
            let step = with_limit(&self.steps[rank], limit, wait);
            self.steps[rank] = step;
        }
    }

    /// Closes or opens the class, or each where none is named.
    fn set_sale(&mut self, class: Option<Class>, closed: bool)
        requires { IsLadder (with_sale self.old class closed) }
        ensures { self.new ≡ with_sale self.old class closed }
    {
        self.steps = with_sale(self.steps.as_slice(), &class, closed);
    }

    /// Closes and opens at each rank what is closed and open in these steps.
    fn set_marks(&mut self, marks: &[Step])
        requires { IsLadder (with_marks self.old marks.now) }
        ensures { self.new ≡ with_marks self.old marks.now }
    {
        self.steps = with_marks(self.steps.as_slice(), marks);
    }

    /// A copy of the ladder.
    pub fn copy(&self) -> Ladder
        ensures { result ≡ self.now }
    {
        Ladder {
            steps: copy_of(self.steps.as_slice()),
        }
    }
}

/// A step with another limit and another wait.
fn with_limit(step: &Step, limit: u16, wait: u16) -> Step
    ensures { result ≡ record step.now { limit = limit; wait = wait } }
{
    Step {
        class: step.class,
        limit,
        wait,
        listed: step.listed,
        closed: step.closed,
    }
}

/// The steps, of which those of the class, or each where none is named, are closed or open.
#[tactic(auto, using(crate::proofs::MarkChanges::sale_none, crate::proofs::MarkChanges::sale_push, crate::proofs::MarkChanges::sale_room, crate::proofs::MarkChanges::sale_all))]
fn with_sale(steps: &[Step], class: &Option<Class>, closed: bool) -> ArrayVec<Step, 26>
    requires { length steps.now ≤ 26 }
    ensures { result.items ≡ with_sale steps.now class.now closed }
{
    let mut marked_steps = ArrayVec::new();
    for step in steps {
        push(&mut marked_steps, marked(step, class, closed));
    }
    marked_steps
}

/// One step more, for which there is room.
fn push(steps: &mut ArrayVec<Step, 26>, step: Step)
    requires { length steps.old.items < 26 }
    ensures { steps.new.items ≡ steps.old.items ++ step ∷ [] }
{
    let pushed = steps.try_push(step);
    prove!(pushed.is_ok());
    let _ = pushed;
}

/// A step, closed or open where its class is named or none is.
fn marked(step: &Step, class: &Option<Class>, closed: bool) -> Step
    ensures { result ≡ marked class.now closed step.now }
{
    if !is_named(*class, step.class) {
        return *step;
    }
    with_mark(step, closed)
}

/// A step that is closed or open.
fn with_mark(step: &Step, closed: bool) -> Step
    ensures { result ≡ record step.now { closed = closed } }
{
    Step {
        class: step.class,
        limit: step.limit,
        wait: step.wait,
        listed: step.listed,
        closed,
    }
}

/// The steps, closed and open at each rank as the others.
#[tactic(auto, using(crate::proofs::MarkChanges::marks_none, crate::proofs::MarkChanges::marks_pushed, crate::proofs::MarkChanges::marks_room))]
fn with_marks(steps: &[Step], marks: &[Step]) -> ArrayVec<Step, 26>
    requires { length steps.now ≤ 26 }
    ensures { result.items ≡ with_marks steps.now marks.now }
{
    let mut marked_steps = ArrayVec::new();
    for rank in 0..steps.len() {
        let step = &steps[rank];
        let closed = closed_at(marks, rank, step.closed);
        push(&mut marked_steps, with_mark(step, closed));
    }
    marked_steps
}

/// Whether the steps have a class closed at a rank; `closed` where they have no such rank.
fn closed_at(marks: &[Step], rank: usize, closed: bool) -> bool
    ensures { result ≡ closed_at marks.now rank closed }
{
    match marks.get(rank) {
        Some(step) => step.closed,
        None => closed,
    }
}

/// Whether a class is the one that is named; each is where none is named.
fn is_named(named: Option<Class>, class: Class) -> bool
    ensures { result ≡ is_named named class }
{
    match named {
        Some(named) => named == class,
        None => true,
    }
}

/// Whether a class that is named stands in the steps; where none is named, whether there is a step.
pub(crate) fn has_named(steps: &[Step], class: Option<Class>) -> bool
    ensures { result ≡ has_named steps.now class }
{
    match class {
        Some(class) => has_class(steps, class),
        None => has_step(steps),
    }
}

/// Whether there is a step.
fn has_step(steps: &[Step]) -> bool
    ensures { result ≡ has_named steps.now None }
{
    match steps {
        [_step, ..] => true,
        [] => false,
    }
}

/// The first fault of the steps.
#[tactic(auto, unfolding(crate::specs::Ladders::ladder_fault), using(crate::proofs::LadderFaults::is_ladder))]
fn fault_of(steps: &[Step]) -> Option<LadderFault>
    ensures value { result ≡ ladder_fault steps.now }
    ensures ladder { IfNone result (IsLadder steps.now) }
{
    if steps.is_empty() {
        return Some(LadderFault::Empty);
    }
    if repeats_class(steps) {
        return Some(LadderFault::RepeatedClass);
    }
    if is_rising(steps) {
        return Some(LadderFault::Rising);
    }
    if is_too_large(steps) {
        return Some(LadderFault::TooLarge);
    }
    None
}

fn copy_of(steps: &[Step]) -> ArrayVec<Step, 26>
    requires { length steps.now ≤ 26 }
    ensures { result.items ≡ steps.now }
{
    let mut copy = ArrayVec::new();
    let extended = copy.try_extend_from_slice(steps);
    prove!(extended.is_ok());
    let _ = extended;
    copy
}

/// Whether a class stands twice.
fn repeats_class(steps: &[Step]) -> bool
    ensures value { result ≡ repeats_class steps.now }
    ensures letters { OnFalse result (HasLetters steps.now) }
{
    let mut rest = steps;
    while let [step, lower @ ..] = rest {
        // For the prover alone: a class says that it is a letter.
        let _ = step.class.letter();
        if has_class(lower, step.class) {
            return true;
        }
        rest = lower;
    }
    false
}

#[tactic(auto, using(crate::proofs::LegCounting::rank_tells))]
fn has_class(steps: &[Step], class: Class) -> bool
    ensures { result ≡ has_class steps.now class }
{
    rank_of(steps, class).is_some()
}

/// Whether a limit rises from a rank to the next lower one.
fn is_rising(steps: &[Step]) -> bool
    ensures { result ≡ is_rising steps.now }
{
    let mut rest = steps;
    while let [step, lower @ ..] = rest {
        if is_below_next(step.limit, lower) {
            return true;
        }
        rest = lower;
    }
    false
}

/// Whether a limit is below that of the next lower rank.
fn is_below_next(limit: u16, lower: &[Step]) -> bool
    ensures { result ≡ is_below_next limit lower.now }
{
    match lower {
        [next, ..] => limit < next.limit,
        [] => false,
    }
}

/// The rank of a class, counted from 0.
pub(crate) fn rank_of(steps: &[Step], class: Class) -> Option<usize>
    ensures { result ≡ position (λ s. class == s.class) steps.now }
{
    steps.iter().position(|step| class == step.class)
}

fn is_too_large(steps: &[Step]) -> bool
    ensures { result ≡ is_too_large steps.now }
{
    steps.iter().any(|step| step.limit > 999 || step.wait > 999)
}
