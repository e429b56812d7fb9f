//! What a numbered line comes to, by the calls of then: it is lived again, booked, told once more or refused.
ghost use Rattle.std.specs.Prelude.{◌≡◌, ◌↔◌, ◌≤◌, None, length, nat_lt, IfOk, IsTrue, OnErr};
ghost use Rattle.seat_desk.specs.Loading.{IsGridOf};
ghost use Rattle.desk_stream.specs.Hearing.{ahead_of, come_to, lines_with, IsRightPlan, IsWaiting};
ghost use Rattle.desk_feed.specs.Feeding.{IsItsLine, IsStrange};
ghost use Rattle.desk_stream.specs.Planning.{IsNextStrange, IsTold, Plans, PlansAhead, PlansLive, PlansNext};
ghost use Rattle.desk_stream.specs.Wanting.{asking_of, IsRightWanted, IsVery};

use crate::hearing::Pending;
use crate::wanted::{Wanted, asked_for, is_very, repeat_of};
use desk_feed::CallKind;
use desk_hall::{Turn, line_at};
use desk_lines::{Desk, Meaning, Wrong};
use seat_disk::Tape;
use seat_journal::Entry;
use seat_serving::{Asked, Serving};
use ssim_flights::{Flights, Served};

/// A numbered line: whose it is, the number of its call, and what it asks for.
#[derive(Clone, Copy)]
pub struct Called {
    pub session: u8,
    pub number: u32,
    pub wanted: Wanted,
}

/// How a numbered line is answered, what it asks of the inventory, and whether the feed comes to a line more by it.
#[derive(Clone, Copy)]
pub struct Plan {
    pub turn: Turn,
    pub asked: Option<Asked>,
    pub passes: bool,
}

/// The next line of the journal is not that of a next call: the feed is another's.
#[derive(Clone, Copy)]
pub struct Strange;

/// What a numbered line comes to, of a desk that stands so behind it, where the feed has come so far.
#[tactic(auto, using(crate::proofs::Plans::planned_next, crate::proofs::Plans::planned_there, crate::proofs::Plans::planned_beyond, crate::proofs::Plans::strange_next, crate::proofs::Plans::right_told))]
pub(crate) fn plan_of<D: Tape>(
    flights: &Flights,
    served: &Served<'_>,
    serving: &Serving<D>,
    pending: &Pending,
    desk: &Desk,
    called: &Called,
) -> Result<Plan, Strange>
    requires served { served.now ≡ flights.now }
    requires grid { IsGridOf flights.now serving.now.grid }
    requires session { called.now.session ≤ 8 }
    requires right { IsRightWanted flights.now called.now.session called.now.wanted }
    requires waiting { IsWaiting serving.now pending.now }
    ensures plans { IfOk result (Plans flights.now serving.now.cap called.now desk.now
        (come_to serving.now pending.now) (ahead_of serving.now pending.now)) }
    ensures strange { OnErr result (IsStrange (asking_of flights.now called.now) (IsVery flights.now called.now.wanted)
        (come_to serving.now pending.now) (ahead_of serving.now pending.now)) }
    ensures right { IfOk result (IsRightPlan serving.now pending.now) }
{
    match pending.progress.kind_of(called.session, called.number) {
        CallKind::Next => match plan_next(flights, served, serving, pending, called) {
            Ok(plan) => Ok(plan),
            Err(strange) => Err(strange),
        },
        CallKind::There => Ok(told(repeat_of(called.session, called.number, &called.wanted))),
        CallKind::Beyond => Ok(told(Turn::Quiet(
            called.session,
            *desk,
            Meaning::WrongCall(called.number, Wrong::Beyond),
        ))),
    }
}

// A call that is the next.
#[tactic(auto, using(crate::proofs::Plans::ahead_planned, crate::proofs::Plans::ahead_strange, crate::proofs::Plans::live_planned, crate::proofs::Plans::right_none))]
fn plan_next<D: Tape>(
    flights: &Flights,
    served: &Served<'_>,
    serving: &Serving<D>,
    pending: &Pending,
    called: &Called,
) -> Result<Plan, Strange>
    requires served { served.now ≡ flights.now }
    requires grid { IsGridOf flights.now serving.now.grid }
    requires session { called.now.session ≤ 8 }
    requires right { IsRightWanted flights.now called.now.session called.now.wanted }
    requires waiting { IsWaiting serving.now pending.now }
    ensures plans { IfOk result (PlansNext flights.now serving.now.cap called.now
        (come_to serving.now pending.now) (ahead_of serving.now pending.now)) }
    ensures strange { OnErr result (IsNextStrange flights.now called.now
        (ahead_of serving.now pending.now)) }
    ensures right { IfOk result (IsRightPlan serving.now pending.now) }
{
    match line_at(serving.journal(), pending.progress.lines) {
        Some(line) => match plan_ahead(flights, pending.progress.lines, called, line) {
            Ok(plan) => Ok(plan),
            Err(strange) => Err(strange),
        },
        None => Ok(plan_live(flights, served, serving, pending, called)),
    }
}

// A line of the journal is ahead, which stands at this place: it is lived again where it is the call's own.
fn plan_ahead(flights: &Flights, at: u32, called: &Called, line: &Entry) -> Result<Plan, Strange>
    ensures plans { IfOk result (PlansAhead flights.now called.now line.now at) }
    ensures strange { OnErr result (IsItsLine (asking_of flights.now called.now) (IsVery flights.now called.now.wanted) line.now → ⊥) }
    ensures none { IfOk result (λ plan. plan.asked ≡ None) }
{
    if is_its_line(flights, called, line) {
        return Ok(Plan {
            turn: Turn::Line(at),
            asked: None,
            passes: true,
        });
    }
    Err(Strange)
}

#[tactic(auto, using(crate::proofs::Plans::own_line))]
fn is_its_line(flights: &Flights, called: &Called, line: &Entry) -> bool
    ensures { IsTrue result ↔ IsItsLine (asking_of flights.now called.now) (IsVery flights.now called.now.wanted) line.now }
{
    line.session == called.session && is_very(flights, &called.wanted, line.work)
}

// Behind the last line it is booked where there is room.
#[tactic(auto, using(crate::proofs::Plans::live_booked, crate::proofs::Plans::live_full, crate::proofs::Plans::booked_plan, crate::proofs::Plans::room_for, crate::proofs::Plans::right_some, crate::proofs::Plans::right_told))]
fn plan_live<D: Tape>(
    flights: &Flights,
    served: &Served<'_>,
    serving: &Serving<D>,
    pending: &Pending,
    called: &Called,
) -> Plan
    requires served { served.now ≡ flights.now }
    requires grid { IsGridOf flights.now serving.now.grid }
    requires session { called.now.session ≤ 8 }
    requires right { IsRightWanted flights.now called.now.session called.now.wanted }
    requires waiting { IsWaiting serving.now pending.now }
    ensures plans { PlansLive (nat_lt (length (lines_with serving.now pending.now)) serving.now.cap)
        flights.now called.now pending.now.progress.lines result }
    ensures right { IsRightPlan serving.now pending.now result }
{
    if has_room(serving, pending) {
        return Plan {
            turn: Turn::Line(pending.progress.lines),
            asked: Some(asked_for(served, serving, called.session, &called.wanted)),
            passes: true,
        };
    }
    told(Turn::Full(called.session, called.number))
}

// Whether there is room for a line behind those that are asked for.
#[tactic(auto, using(crate::proofs::Plans::room_is))]
fn has_room<D: Tape>(serving: &Serving<D>, pending: &Pending) -> bool
    ensures { result ≡ nat_lt (length (lines_with serving.now pending.now)) serving.now.cap }
{
    is_below(pending.asked.len(), serving.room())
}

fn is_below(count: usize, room: u32) -> bool
    ensures { result ≡ nat_lt count room }
{
    count < room as usize
}

// It is answered so, and nothing comes of it.
fn told(turn: Turn) -> Plan
    ensures { IsTold turn result }
{
    Plan {
        turn,
        asked: None,
        passes: false,
    }
}
