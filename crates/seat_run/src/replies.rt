//! The replies to the receipts of the manager and of each session, one session after the other.
ghost use Rattle.std.specs.Prelude.{◌≡◌, ◌≤◌, IfOk, OnOk, length};
ghost use Rattle.seat_desk.specs.FlightsDesk.{IsPut, IsText};
ghost use Rattle.seat_replies.specs.Answering.{AreAllAnswerable, AreAnswerable};
ghost use Rattle.seat_replies.specs.Going.{behind};
ghost use Rattle.seat_replies.specs.RunDesk.{AreSessions, IsAnswer, requests_of};

use airimp_lines::{Request, Requests};
use seat_host::{AllReceipts, Receipts};
use seat_journal::Entry;
use seat_replies::{Past, put_answer};
use ssim_flights::Flights;
use std::alloc::{AllocError, Global};

/// The replies to the lines behind the past: those of session 0, the manager, then of session 1, and so on, each with the
/// advices of its line.
#[tactic(auto, using(seat_desk::proofs::Texts::put_none, seat_replies::proofs::Parts::sessions_whole))]
pub fn replies(
    alloc: Global,
    flights: &Flights,
    past: &Past,
    scripts: &[Requests],
    journal: &[Entry],
    receipts: &AllReceipts<'_>,
) -> Result<Vec<u8>, AllocError>
    requires few { length receipts.now ≤ 9 }
    requires lines { AreAllAnswerable flights.now scripts.now journal.now (behind past.now.calls receipts.now) }
    ensures { IfOk result (λ text. IsText (AreSessions flights.now scripts.now journal.now) 0
        (behind past.now.calls receipts.now) text.items) }
{
    let mut text = Vec::new(alloc);
    for session in 0..receipts.len() {
        let own = receipts.at(session);
        let lines = own.behind(past.calls[session] as usize);
        put_session(&mut text, flights, scripts, session, journal, &lines)?;
    }
    Ok(text)
}

/// Adds the answers to the lines of a session: the manager, session 0, has no script, and the first script is that of session 1.
#[tactic(auto, using(crate::proofs::Asked::managed, crate::proofs::Asked::scripted, crate::proofs::Asked::unscripted))]
fn put_session(
    text: &mut Vec<u8>,
    flights: &Flights,
    scripts: &[Requests],
    session: usize,
    journal: &[Entry],
    receipts: &Receipts<'_>,
) -> Result<(), AllocError>
    requires lines { AreAnswerable flights.now (requests_of scripts.now session) journal.now receipts.now }
    ensures { OnOk result (IsPut (IsAnswer flights.now (requests_of scripts.now session) journal.now) 0 receipts.now
        text.old.items text.new.items) }
{
    if session == 0 {
        return put_answers(text, flights, &[], journal, receipts);
    }
    match scripts.get(session - 1) {
        Some(script) => put_answers(text, flights, script.as_slice(), journal, receipts),
        None => put_answers(text, flights, &[], journal, receipts),
    }
}

/// Adds the answers to lines, each beside the request at its place.
#[tactic(auto, using(seat_desk::proofs::Texts::put_none, seat_replies::proofs::Parts::answers_more, seat_replies::proofs::Parts::line_answerable))]
fn put_answers(
    text: &mut Vec<u8>,
    flights: &Flights,
    requests: &[Request],
    journal: &[Entry],
    receipts: &Receipts<'_>,
) -> Result<(), AllocError>
    requires lines { AreAnswerable flights.now requests.now journal.now receipts.now }
    ensures { OnOk result (IsPut (IsAnswer flights.now requests.now journal.now) 0 receipts.now text.old.items
        text.new.items) }
{
    for place in 0..receipts.len() {
        put_answer(text, flights, requests, journal, place, receipts.at(place))?;
    }
    Ok(())
}
