//! A line of the manager or of a session in a feed, and what comes of it.
ghost use Rattle.std.specs.Prelude.{◌≡◌, ◌≤◌, ◌<◌, ◌+◌, ◌++◌, ◌∷◌, [], drop, length, slice_get, true, Some, IfErr, IfOk, OnErr, OnOk};
ghost use Rattle.std.specs.Prelude.{option_to_list};
ghost use Rattle.airline_base.specs.Days.{IsCenturyDay};
ghost use Rattle.flight_days.specs.Leaving.{AreDaysOf};
ghost use Rattle.seat_desk.specs.Loading.{IsGridOf};
ghost use Rattle.seat_serving.specs.Answering.{AreRight};
ghost use Rattle.desk_stream.specs.Hearing.{ahead_of, come_to, ComesBy, ComesTo, HasHeardAt, IsCameTo, IsNoStranger, IsOwnCall, IsOwnOf, IsOwnStep, IsPlanned, IsRightPlan, IsSamePending, CallsBy, HearsBy, IsStrangeBy, IsStrangeCall, IsStrangeStep, IsStrangeTo, IsWaiting};
ghost use Rattle.desk_stream.specs.Meaning.{IsMeant, IsRightMeant};
ghost use Rattle.desk_stream.specs.Planning.{Passes, Plans};
ghost use Rattle.desk_stream.specs.Reading.{IsRightStep};
ghost use Rattle.desk_stream.specs.Wanting.{IsRightWanted};
ghost use Rattle.desk_stream.specs.declared.hearing.FeedFault.TheVariants.{Memory as NoMemory, Strange as Stranger};

use crate::meant::{Meant, meant_by, ordered};
use crate::planning::{Called, Plan, plan_of};
use crate::reading::Step;
use crate::telling::FeedTurn;
use airline_base::{Class, Day, Memory};
use desk_feed::Progress;
use desk_hall::order_of;
use desk_lines::Desk;
use flight_days::DayFlights;
use seat_disk::Tape;
use seat_journal::{SaleChange, Work};
use seat_serving::{Asked, Serving};
use ssim_flights::{Flights, Served};
use std::alloc::Global;

/// Why a line of a feed is not heard.
#[derive(Clone, Copy)]
pub enum FeedFault {
    /// A growth was refused. Nothing comes of the line.
    Memory,
    /// The next line of the journal is another's: this is not the journal's feed.
    Strange,
}

/// How far a feed has come, and what its lines ask for and how they are answered that were heard since.
#[derive(Drop)]
pub struct Pending {
    pub progress: Progress,
    pub asked: Vec<Asked>,
    pub turns: Vec<FeedTurn>,
}

/// What comes of a line of the feed by what stands at its front; a numbered one is another journal's where the epoch is not its own.
#[tactic(auto, using(crate::proofs::Hears::comes_behind, crate::proofs::Hears::strange_behind, crate::proofs::Hears::own_behind))]
pub(crate) fn hear_step<D: Tape>(
    alloc: Global,
    flights: &Flights,
    served: &Served<'_>,
    days: &DayFlights,
    serving: &Serving<D>,
    is_own: bool,
    desks: &mut Vec<Desk>,
    pending: &mut Pending,
    step: Step,
    line: &[u8],
) -> Result<(), FeedFault>
    requires served { served.now ≡ flights.now }
    requires days { AreDaysOf days.now flights.now }
    requires grid { IsGridOf flights.now serving.now.grid }
    requires right { IsRightStep line.now step }
    requires desks { length desks.old.items ≡ 9 }
    requires waiting { IsWaiting serving.now pending.old }
    ensures hears { OnOk result (HearsBy step flights.now serving.now is_own desks.old.items desks.new.items pending.old pending.new
        line.now) }
    ensures strange { IfErr result (λ f. f ≡ Stranger → IsStrangeStep step flights.now serving.now is_own desks.old.items
        pending.old line.now) }
    ensures memory { IfErr result (λ f. f ≡ NoMemory → IsOwnStep step flights.now serving.now is_own desks.old.items pending.old
        line.now) }
    ensures same { OnErr result (IsSamePending pending.old pending.new) }
    ensures waiting { IsWaiting serving.now pending.new }
    ensures desks { length desks.new.items ≡ 9 }
{
    match step {
        Step::Told(turn) => match tell(serving, pending, turn) {
            Ok(()) => Ok(()),
            Err(_) => Err(FeedFault::Memory),
        },
        Step::Silent => Ok(()),
        Step::Line(session, today) => {
            let rest = behind_lead(line);
            match hear_line(
                alloc, flights, served, days, serving, is_own, desks, pending, session, today, rest,
            ) {
                Ok(()) => Ok(()),
                Err(fault) => Err(fault),
            }
        }
    }
}

// What stands behind a digit and a blank.
fn behind_lead(line: &[u8]) -> &[u8]
    requires { 2 ≤ length line.now }
    ensures { result.now ≡ drop 2 line.now }
{
    &line[2..]
}

// Hears a line of the manager or of a session, read on this day.
#[tactic(auto, using(crate::proofs::Hears::came_by, crate::proofs::Hears::strange_by, crate::proofs::Hears::own_to, crate::proofs::Hears::own_row))]
fn hear_line<D: Tape>(
    alloc: Global,
    flights: &Flights,
    served: &Served<'_>,
    days: &DayFlights,
    serving: &Serving<D>,
    is_own: bool,
    desks: &mut Vec<Desk>,
    pending: &mut Pending,
    session: u8,
    today: Day,
    line: &[u8],
) -> Result<(), FeedFault>
    requires served { served.now ≡ flights.now }
    requires days { AreDaysOf days.now flights.now }
    requires grid { IsGridOf flights.now serving.now.grid }
    requires today { IsCenturyDay today }
    requires session { (session ≤ 8) × (length desks.old.items ≡ 9) }
    requires waiting { IsWaiting serving.now pending.old }
    ensures comes { OnOk result (ComesTo flights.now serving.now is_own desks.old.items desks.new.items pending.old pending.new
        session today line.now) }
    ensures strange { IfErr result (λ f. f ≡ Stranger → IsStrangeTo flights.now serving.now is_own desks.old.items pending.old
        session today line.now) }
    ensures memory { IfErr result (λ f. f ≡ NoMemory → IsOwnOf flights.now serving.now is_own desks.old.items
        pending.old session today line.now) }
    ensures same { OnErr result (IsSamePending pending.old pending.new) }
    ensures waiting { IsWaiting serving.now pending.new }
    ensures desks { length desks.new.items ≡ 9 }
{
    let Ok((desk, meant)) = hear_at(alloc, flights, served, days, desks, session, today, line)
    else {
        return Err(FeedFault::Memory);
    };
    match come_by(
        flights, served, serving, is_own, pending, session, &desk, &meant,
    ) {
        Ok(()) => Ok(()),
        Err(fault) => Err(fault),
    }
}

// The desk hears it.
#[tactic(auto, using(crate::proofs::Hears::heard_at))]
fn hear_at(
    alloc: Global,
    flights: &Flights,
    served: &Served<'_>,
    days: &DayFlights,
    desks: &mut Vec<Desk>,
    session: u8,
    today: Day,
    line: &[u8],
) -> Result<(Desk, Meant), Memory>
    requires served { served.now ≡ flights.now }
    requires days { AreDaysOf days.now flights.now }
    requires today { IsCenturyDay today }
    requires session { (session ≤ 8) × (length desks.old.items ≡ 9) }
    ensures heard { IfOk result (λ r. HasHeardAt flights.now desks.old.items desks.new.items session today line.now r.0 r.1) }
    ensures right { IfOk result (λ r. IsRightMeant flights.now session r.1) }
    ensures manager { OnErr result (session ≡ 0) }
    ensures desks { length desks.new.items ≡ 9 }
{
    let mut desk = desk_at(desks.as_slice(), session);
    desk.today = today;
    let meant = match meant_of(alloc, flights, served, days, &mut desk, session, line) {
        Ok(meant) => meant,
        Err(_) => return Err(Memory),
    };
    desks[usize::from(session)] = desk;
    Ok((desk, meant))
}

fn desk_at(desks: &[Desk], session: u8) -> Desk
    requires { session < length desks.now }
    ensures { slice_get desks.now session ≡ Some result }
{
    desks[usize::from(session)]
}

#[tactic(auto, using(crate::proofs::Hears::of_session, crate::proofs::Hears::of_manager, crate::proofs::Hears::right_manager))]
fn meant_of(
    alloc: Global,
    flights: &Flights,
    served: &Served<'_>,
    days: &DayFlights,
    desk: &mut Desk,
    session: u8,
    line: &[u8],
) -> Result<Meant, Memory>
    requires served { served.now ≡ flights.now }
    requires days { AreDaysOf days.now flights.now }
    requires today { IsCenturyDay desk.old.today }
    ensures meant { IfOk result (IsMeant flights.now session desk.old desk.new line.now) }
    ensures right { IfOk result (IsRightMeant flights.now session) }
    ensures manager { OnErr result (session ≡ 0) }
{
    if session == 0 {
        let order = order_of(alloc, flights, served, days, desk, line, false)?;
        return Ok(ordered(served, desk, order));
    }
    let meaning = desk.hear(line);
    Ok(meant_by(session, desk, meaning))
}

// What comes of it.
#[tactic(auto, using(crate::proofs::Hears::own_said, crate::proofs::Hears::own_called))]
fn come_by<D: Tape>(
    flights: &Flights,
    served: &Served<'_>,
    serving: &Serving<D>,
    is_own: bool,
    pending: &mut Pending,
    session: u8,
    desk: &Desk,
    meant: &Meant,
) -> Result<(), FeedFault>
    requires served { served.now ≡ flights.now }
    requires grid { IsGridOf flights.now serving.now.grid }
    requires session { session ≤ 8 }
    requires right { IsRightMeant flights.now session meant.now }
    requires waiting { IsWaiting serving.now pending.old }
    ensures comes { OnOk result (ComesBy flights.now serving.now is_own pending.old pending.new session desk.now meant.now) }
    ensures strange { IfErr result (λ f. f ≡ Stranger → IsStrangeBy flights.now serving.now is_own pending.old session meant.now) }
    ensures memory { IfErr result (λ f. f ≡ NoMemory → IsNoStranger flights.now serving.now is_own pending.old session meant.now) }
    ensures same { OnErr result (IsSamePending pending.old pending.new) }
    ensures waiting { IsWaiting serving.now pending.new }
{
    match meant {
        Meant::Said(turn) => match tell(serving, pending, FeedTurn::Desk(*turn)) {
            Ok(()) => Ok(()),
            Err(_) => Err(FeedFault::Memory),
        },
        Meant::Called(number, wanted) => {
            let called = Called {
                session,
                number: *number,
                wanted: *wanted,
            };
            match come_by_call(flights, served, serving, is_own, pending, desk, &called) {
                Ok(()) => Ok(()),
                Err(fault) => Err(fault),
            }
        }
    }
}

// A numbered one that is for another journal is refused.
#[tactic(auto, using(crate::proofs::Hears::calls_own, crate::proofs::Hears::calls_foreign))]
fn come_by_call<D: Tape>(
    flights: &Flights,
    served: &Served<'_>,
    serving: &Serving<D>,
    is_own: bool,
    pending: &mut Pending,
    desk: &Desk,
    called: &Called,
) -> Result<(), FeedFault>
    requires served { served.now ≡ flights.now }
    requires grid { IsGridOf flights.now serving.now.grid }
    requires session { called.now.session ≤ 8 }
    requires right { IsRightWanted flights.now called.now.session called.now.wanted }
    requires waiting { IsWaiting serving.now pending.old }
    ensures comes { OnOk result (CallsBy is_own flights.now serving.now pending.old pending.new desk.now called.now) }
    ensures strange { IfErr result (λ f. f ≡ Stranger → (is_own ≡ true) × IsStrangeCall flights.now serving.now pending.old called.now) }
    ensures memory { IfErr result (λ f. f ≡ NoMemory → is_own ≡ true → IsOwnCall flights.now serving.now pending.old called.now) }
    ensures same { OnErr result (IsSamePending pending.old pending.new) }
    ensures waiting { IsWaiting serving.now pending.new }
{
    if is_own {
        return match call(flights, served, serving, pending, desk, called) {
            Ok(()) => Ok(()),
            Err(fault) => Err(fault),
        };
    }
    match tell(
        serving,
        pending,
        FeedTurn::Foreign(called.session, called.number),
    ) {
        Ok(()) => Ok(()),
        Err(_) => Err(FeedFault::Memory),
    }
}

/// A line is answered so, and asks for nothing.
#[tactic(auto, using(crate::proofs::Hears::waiting_same))]
pub(crate) fn tell<D: Tape>(
    serving: &Serving<D>,
    pending: &mut Pending,
    turn: FeedTurn,
) -> Result<(), FeedFault>
    requires waiting { IsWaiting serving.now pending.old }
    ensures told { OnOk result (IsCameTo pending.old pending.new turn) }
    ensures waiting { IsWaiting serving.now pending.new }
    ensures same { OnErr result (IsSamePending pending.old pending.new) }
    ensures fault { IfErr result (λ f. f ≡ NoMemory) }
{
    if push(&mut pending.turns, turn).is_ok() {
        return Ok(());
    }
    Err(FeedFault::Memory)
}

// A numbered request of this journal.
#[tactic(auto, using(crate::proofs::Hears::waiting_of, crate::proofs::Hears::waiting_still, crate::proofs::Hears::own_planned))]
fn call<D: Tape>(
    flights: &Flights,
    served: &Served<'_>,
    serving: &Serving<D>,
    pending: &mut Pending,
    desk: &Desk,
    called: &Called,
) -> Result<(), FeedFault>
    requires served { served.now ≡ flights.now }
    requires grid { IsGridOf flights.now serving.now.grid }
    requires session { called.now.session ≤ 8 }
    requires right { IsRightWanted flights.now called.now.session called.now.wanted }
    requires waiting { IsWaiting serving.now pending.old }
    ensures planned { OnOk result (IsPlanned flights.now serving.now pending.old pending.new desk.now called.now) }
    ensures strange { IfErr result (λ f. f ≡ Stranger → IsStrangeCall flights.now serving.now pending.old called.now) }
    ensures memory { IfErr result (λ f. f ≡ NoMemory → IsOwnCall flights.now serving.now pending.old called.now) }
    ensures same { OnErr result (IsSamePending pending.old pending.new) }
    ensures waiting { IsWaiting serving.now pending.new }
{
    // For the prover alone: only the inventory itself says that its journal is within its limits.
    let _ = serving.journal();
    let Ok(plan) = plan_of(flights, served, serving, pending, desk, called) else {
        return Err(FeedFault::Strange);
    };
    match take_plan(flights, serving, pending, desk, called, &plan) {
        Ok(()) => Ok(()),
        Err(_) => Err(FeedFault::Memory),
    }
}

// What is planned is asked for and told.
#[tactic(auto, using(crate::proofs::Hears::planned))]
fn take_plan<D: Tape>(
    flights: &Flights,
    serving: &Serving<D>,
    pending: &mut Pending,
    desk: &Desk,
    called: &Called,
    plan: &Plan,
) -> Result<(), FeedFault>
    requires session { called.now.session ≤ 8 }
    requires plans { Plans flights.now serving.now.cap called.now desk.now (come_to serving.now pending.old)
        (ahead_of serving.now pending.old) plan.now }
    requires right { IsRightPlan serving.now pending.old plan.now }
    requires waiting { IsWaiting serving.now pending.old }
    ensures planned { OnOk result (IsPlanned flights.now serving.now pending.old pending.new desk.now called.now) }
    ensures same { OnErr result (IsSamePending pending.old pending.new) }
{
    // For the prover alone: only the inventory itself says that its journal is within its limits.
    let _ = serving.journal();
    if add(&mut pending.asked, &mut pending.turns, plan).is_err() {
        return Err(FeedFault::Memory);
    }
    pass_if(&mut pending.progress, plan.passes, called.session);
    Ok(())
}

// The feed comes to a line more, or stays where it is.
fn pass_if(progress: &mut Progress, passes: bool, session: u8)
    requires session { session ≤ 8 }
    ensures { Passes passes progress.old progress.new session }
{
    if passes {
        progress.pass(session);
    }
}

// Adds how a line is answered, and what it asks for.
#[tactic(auto, using(crate::proofs::Hears::cut_turn))]
fn add(asked: &mut Vec<Asked>, turns: &mut Vec<FeedTurn>, plan: &Plan) -> Result<(), Memory>
    ensures more { OnOk result ((asked.new.items ≡ asked.old.items ++ option_to_list plan.now.asked)
        × (turns.new.items ≡ turns.old.items ++ FeedTurn.Desk plan.now.turn ∷ [])) }
    ensures same { OnErr result ((asked.new.items ≡ asked.old.items) × (turns.new.items ≡ turns.old.items)) }
{
    let length = turns.len();
    push(turns, FeedTurn::Desk(plan.turn))?;
    if add_asked(asked, plan.asked).is_ok() {
        return Ok(());
    }
    turns.truncate(length);
    Err(Memory)
}

fn add_asked(asked: &mut Vec<Asked>, more: Option<Asked>) -> Result<(), Memory>
    ensures more { OnOk result (asked.new.items ≡ asked.old.items ++ option_to_list more) }
    ensures same { OnErr result (asked.new.items ≡ asked.old.items) }
{
    match more {
        Some(one) => {
            // For the prover alone: it is told where these types are.
            let _work: Work = one.work;
            let _sale: Option<SaleChange> = None;
            let _class: Option<Class> = None;
            push(asked, one)
        }
        None => Ok(()),
    }
}

fn push<T: Drop>(list: &mut Vec<T>, item: T) -> Result<(), Memory>
    ensures more { OnOk result (list.new.items ≡ list.old.items ++ item ∷ []) }
    ensures same { OnErr result (list.new.items ≡ list.old.items) }
{
    list.push(item)?;
    Ok(())
}
