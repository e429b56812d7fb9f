//! A numbered request: the session's next call is put into the journal, and one that is there is told once more.
ghost use Rattle.std.specs.Prelude.{◌≡◌, ◌==◌, ◌≤◌, ◌+◌, [], ◌∷◌, false, None, IfOk, IfErr, IsTrue, OnOk};
ghost use Rattle.airline_base.specs.Noting.{noted};
ghost use Rattle.airimp_lines.specs.Grammar.{IsRightSegment};
ghost use Rattle.desk_calls.specs.Calls.{call_line, IsLineIn};
ghost use Rattle.seat_desk.specs.Loading.{IsGridOf};
ghost use Rattle.seat_disk.specs.Growing.{KeepsFront};
ghost use Rattle.seat_recovery.specs.OpenText.{open_text};
ghost use Rattle.seat_rules.specs.Journal.{calls_of};
ghost use Rattle.seat_rules.specs.Prefixes.{Begins};
ghost use Rattle.seat_replies.specs.RunDesk.{IsAnswer};
ghost use Rattle.seat_serving.specs.Answering.{with_line};
ghost use Rattle.desk_answers.specs.Hosts.{IsReady};
ghost use Rattle.desk_answers.specs.Saying.{asked_by, IsAgain, IsAnsweredAgain, IsCalled};
ghost use Rattle.desk_answers.specs.declared.heard.HearFault.TheVariants.{Memory as NoMemory, Untold, Device};

use crate::asking::ask;
use crate::faults::wrong_call_line;
use crate::heard::HearFault;
use airimp_lines::Request;
use airline_base::Memory;
use desk_calls::CallIndex;
use desk_lines::Wrong;
use seat_disk::Tape;
use seat_journal::Entry;
use seat_replies::{is_very_request, put_answer};
use seat_serving::Serving;
use ssim_flights::{Flights, Served};
use std::alloc::Global;
use std::sync::Wait;

/// Books what a session asks for as the call of this number, where that is its next and the journal has room. Where the call is there
/// and is this very request its answer is told once more; else the line is refused, and nothing changes.
#[tactic(auto, using(crate::proofs::Repeats::next_called, crate::proofs::Repeats::other_called))]
pub(crate) fn call<R: Wait, D: Tape>(
    rt: &R,
    alloc: Global,
    flights: &Flights,
    served: &Served<'_>,
    serving: &mut Serving<D>,
    calls: &mut CallIndex,
    session: u8,
    number: u32,
    wish: &Request,
) -> Result<Vec<u8>, HearFault>
    requires ready { IsReady D.seen D.may_leave D.unsynced serving.old }
    requires served { served.now ≡ flights.now }
    requires grid { IsGridOf flights.now serving.old.grid }
    requires session { (1 ≤ session) × (session ≤ 8) }
    requires right { IsRightSegment wish.now.segment }
    ensures called { IfOk result (λ text. IsCalled (number == calls_of serving.old.journal session + 1) flights.now
        serving.old.grid serving.old.cap session number serving.old.journal serving.new.journal wish.now text.items) }
    ensures ready { OnOk result (IsReady D.seen D.may_leave D.unsynced serving.new) }
    ensures still { IfErr result (λ f. (f ≡ Device → ⊥) → IsReady D.seen D.may_leave D.unsynced serving.new) }
    ensures memory { IfErr result (λ f. f ≡ NoMemory → serving.new.journal ≡ serving.old.journal) }
    ensures untold { IfErr result (λ f. f ≡ Untold → serving.new.journal
        ≡ with_line serving.old.grid serving.old.journal (asked_by flights.now session wish.now)) }
    ensures device { IfErr result (λ f. f ≡ Device → (serving.new.is_open ≡ false)
        × (serving.new.kept ≡ serving.old.kept)
        × (D.failure_count serving.new.tape ≡ noted (D.failure_count serving.old.tape))) }
    ensures counted { OnOk result (D.failure_count serving.new.tape ≡ D.failure_count serving.old.tape) }
    ensures uncounted { IfErr result (λ f. (f ≡ Device → ⊥)
        → D.failure_count serving.new.tape ≡ D.failure_count serving.old.tape) }
    ensures front { Begins serving.old.kept serving.new.kept }
    ensures told { KeepsFront (open_text serving.old.kept) (D.may_leave serving.new.tape) }
    ensures same { (serving.new.grid ≡ serving.old.grid) × (serving.new.cap ≡ serving.old.cap) }
{
    if number == serving.calls_of(session) + 1 {
        return ask(rt, alloc, flights, served, serving, session, wish);
    }
    match again(alloc, flights, serving, calls, session, number, wish) {
        Ok(text) => Ok(text),
        Err(_) => Err(HearFault::Memory),
    }
}

// What is said of a call that is not the next.
#[tactic(auto, using(crate::proofs::Repeats::is_again, crate::proofs::Repeats::is_beyond, desk_calls::proofs::Indexing::calls_run))]
fn again<D: Tape>(
    alloc: Global,
    flights: &Flights,
    serving: &Serving<D>,
    calls: &mut CallIndex,
    session: u8,
    number: u32,
    wish: &Request,
) -> Result<Vec<u8>, Memory>
    requires grid { IsGridOf flights.now serving.now.grid }
    ensures { IfOk result (λ text. IsAgain (call_line session number serving.now.journal) flights.now
        serving.now.journal session number wish.now text.items) }
{
    if is_beyond(serving, session, number) {
        return wrong_call_line(alloc, Wrong::Beyond, session, number);
    }
    match calls.line_of(session, number, serving.journal())? {
        Some(line) => line_again(alloc, flights, serving, session, number, wish, line),
        None => wrong_call_line(alloc, Wrong::Beyond, session, number),
    }
}

// Whether a session has no call of this number. Then no line is looked at.
#[tactic(auto, using(desk_calls::proofs::Indexing::no_call_of_zero, desk_calls::proofs::Indexing::no_call_beyond))]
fn is_beyond<D: Tape>(serving: &Serving<D>, session: u8, number: u32) -> bool
    ensures { IsTrue result → None ≡ call_line session number serving.now.journal }
{
    number == 0 || number > serving.calls_of(session)
}

// What is said of a call whose line is there.
#[tactic(auto, using(crate::proofs::Repeats::is_there, crate::proofs::Repeats::is_another))]
fn line_again<D: Tape>(
    alloc: Global,
    flights: &Flights,
    serving: &Serving<D>,
    session: u8,
    number: u32,
    wish: &Request,
    line: &Entry,
) -> Result<Vec<u8>, Memory>
    requires grid { IsGridOf flights.now serving.now.grid }
    requires there { IsLineIn serving.now.journal line.now }
    ensures { IfOk result (λ text. IsAnsweredAgain flights.now serving.now.journal session number line.now wish.now text.items) }
{
    if is_very_request(flights, wish, line.work) {
        return answer_again(alloc, flights, serving, wish, line);
    }
    wrong_call_line(alloc, Wrong::Other, session, number)
}

// The reply to a line of the journal, and its advices.
#[tactic(auto, using(crate::proofs::Wishes::whole_answer))]
fn answer_again<D: Tape>(
    alloc: Global,
    flights: &Flights,
    serving: &Serving<D>,
    wish: &Request,
    line: &Entry,
) -> Result<Vec<u8>, Memory>
    requires grid { IsGridOf flights.now serving.now.grid }
    requires there { IsLineIn serving.now.journal line.now }
    ensures { IfOk result (λ text. IsAnswer flights.now (wish.now ∷ []) serving.now.journal 0 line.now text.items) }
{
    let mut text = Vec::new(alloc);
    let wishes = [*wish];
    put_answer(&mut text, flights, &wishes, serving.journal(), 0, line)?;
    Ok(text)
}
