//! What a line comes to behind the lines of the journal, and behind those that are asked for.
ghost use Rattle.std.specs.Prelude.{◌≡◌, ◌==◌, ◌≤◌, ◌<◌, ◌+◌, None, length, IfSome, count_by, nat_le, nat_lt};
ghost use Rattle.desk_lines.specs.Lines.{IsRightMeaning};
ghost use Rattle.airimp_lines.specs.Grammar.{IsRightSegment};
ghost use Rattle.seat_desk.specs.Loading.{IsGridOf};
ghost use Rattle.seat_rules.specs.Journal.{calls_of};
ghost use Rattle.seat_serving.specs.Answering.{behind, IsRight};
ghost use Rattle.desk_hall.specs.Planning.{Plans, PlansCall, PlansRequest};

use crate::turn::Turn;
use airimp_lines::Request;
use desk_answers::asked_by;
use desk_lines::{Desk, Meaning, Wrong};
use seat_disk::Tape;
use seat_serving::{Asked, Serving};
use ssim_flights::{Flights, Served};

/// How a line is answered, and what it asks of the inventory.
#[derive(Clone, Copy)]
pub struct Plan {
    pub turn: Turn,
    pub asked: Option<Asked>,
}

/// What a line of a session's desk comes to that means this.
pub(crate) fn plan_of<D: Tape>(
    flights: &Flights,
    served: &Served<'_>,
    serving: &Serving<D>,
    asked: &[Asked],
    session: u8,
    desk: &Desk,
    meaning: &Meaning,
) -> Plan
    requires served { served.now ≡ flights.now }
    requires grid { IsGridOf flights.now serving.now.grid }
    requires session { (1 ≤ session) × (session ≤ 8) }
    requires right { IsRightMeaning meaning.now }
    requires room { length serving.now.journal + length asked.now ≤ serving.now.cap }
    ensures right { IfSome result.asked (IsRight serving.now.grid) }
    ensures room { IfSome result.asked (λ a. length serving.now.journal + length asked.now < serving.now.cap) }
    ensures plans { Plans flights.now serving.now.cap session desk.now (behind serving.now.grid serving.now.journal asked.now)
        meaning.now result }
{
    match meaning {
        Meaning::Request(wish) => plan_request(flights, served, serving, asked, session, wish),
        Meaning::Call(number, wish) => {
            plan_call(
                flights, served, serving, asked, session, desk, *number, wish,
            )
        }
        _ => quiet(session, desk, *meaning),
    }
}

pub(crate) fn quiet(session: u8, desk: &Desk, meaning: Meaning) -> Plan
    ensures { (result.turn ≡ Turn.Quiet session desk.now meaning) × (result.asked ≡ None) }
{
    Plan {
        turn: Turn::Quiet(session, *desk, meaning),
        asked: None,
    }
}

// A request is booked where there is room.
#[tactic(auto, using(crate::proofs::Planned::planned_full))]
fn plan_request<D: Tape>(
    flights: &Flights,
    served: &Served<'_>,
    serving: &Serving<D>,
    asked: &[Asked],
    session: u8,
    wish: &Request,
) -> Plan
    requires served { served.now ≡ flights.now }
    requires grid { IsGridOf flights.now serving.now.grid }
    requires session { (1 ≤ session) × (session ≤ 8) }
    requires right { IsRightSegment wish.now.segment }
    requires room { length serving.now.journal + length asked.now ≤ serving.now.cap }
    ensures right { IfSome result.asked (IsRight serving.now.grid) }
    ensures room { IfSome result.asked (λ a. length serving.now.journal + length asked.now < serving.now.cap) }
    ensures plans { PlansRequest (nat_lt (length (behind serving.now.grid serving.now.journal asked.now)) serving.now.cap)
        flights.now session (behind serving.now.grid serving.now.journal asked.now) wish.now result }
{
    if asked.len() < serving.room() as usize {
        let place = (serving.journal().len() + asked.len()) as u32;
        return Plan {
            turn: Turn::Line(place),
            asked: Some(asked_by(served, session, wish)),
        };
    }
    Plan {
        turn: Turn::Full(session, calls_behind(serving, asked, session) + 1),
        asked: None,
    }
}

// A numbered request is booked where its number is that of the session's next call.
#[tactic(auto, using(crate::proofs::Planned::planned_next, crate::proofs::Planned::planned_there, crate::proofs::Planned::planned_beyond))]
fn plan_call<D: Tape>(
    flights: &Flights,
    served: &Served<'_>,
    serving: &Serving<D>,
    asked: &[Asked],
    session: u8,
    desk: &Desk,
    number: u32,
    wish: &Request,
) -> Plan
    requires served { served.now ≡ flights.now }
    requires grid { IsGridOf flights.now serving.now.grid }
    requires session { (1 ≤ session) × (session ≤ 8) }
    requires right { IsRightSegment wish.now.segment }
    requires room { length serving.now.journal + length asked.now ≤ serving.now.cap }
    ensures right { IfSome result.asked (IsRight serving.now.grid) }
    ensures room { IfSome result.asked (λ a. length serving.now.journal + length asked.now < serving.now.cap) }
    ensures plans { PlansCall (number == calls_of (behind serving.now.grid serving.now.journal asked.now) session + 1)
        (nat_le number (calls_of (behind serving.now.grid serving.now.journal asked.now) session)) flights.now serving.now.cap
        session desk.now number (behind serving.now.grid serving.now.journal asked.now) wish.now result }
{
    let calls = calls_behind(serving, asked, session);
    if number == calls + 1 {
        return plan_request(flights, served, serving, asked, session, wish);
    }
    if number <= calls {
        return Plan {
            turn: Turn::Repeated(session, number, *wish),
            asked: None,
        };
    }
    quiet(session, desk, Meaning::WrongCall(number, Wrong::Beyond))
}

// How many calls a session has behind what is asked for.
#[tactic(auto, using(crate::proofs::Planned::calls_more))]
pub(crate) fn calls_behind<D: Tape>(serving: &Serving<D>, asked: &[Asked], session: u8) -> u32
    requires room { length serving.now.journal + length asked.now ≤ serving.now.cap }
    ensures value { result ≡ calls_of (behind serving.now.grid serving.now.journal asked.now) session }
    ensures few { result ≤ 1999998 }
{
    let _ = serving.journal();
    serving.calls_of(session) + asked_in(asked, session)
}

// How many of these a session asks for.
fn asked_in(asked: &[Asked], session: u8) -> u32
    requires few { length asked.now ≤ 999999 }
    ensures value { result ≡ count_by (λ a. a.session == session) asked.now }
    ensures few { result ≤ 999999 }
{
    asked.iter().filter(|a| a.session == session).count() as u32
}
