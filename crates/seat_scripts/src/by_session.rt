//! The replies to the lines that were added to a journal: those of the manager, then those of each session, one after the other.
//! It knows nothing of who booked them.
ghost use Rattle.std.specs.Prelude.{◌≡◌, ◌≤◌, IfOk, OnOk, length};
ghost use Rattle.seat_desk.specs.FlightsDesk.{IsPut, IsText};
ghost use Rattle.seat_rules.specs.Histories.{by_session, of_session};
ghost use Rattle.seat_replies.specs.Answering.{AreAllAnswerable, AreAnswerable, IsAnswerable, IsBehind};
ghost use Rattle.seat_scripts.specs.Replying.{AreWantedSessions, IsWantedAnswer, is_wanted};
ghost use Rattle.seat_replies.specs.RunDesk.{requests_of};

use airimp_lines::{Request, Requests};
use seat_journal::Entry;
use seat_replies::put_answer;
use ssim_flights::Flights;
use std::alloc::{AllocError, Global};

/// Which replies are wanted: those to the lines of one session, if one is named, and to lines from this number on. Session 0 is the
/// manager; with no session and from 0 on it is all.
#[derive(Clone, Copy)]
pub struct Wanted {
    pub session: Option<u8>,
    pub from: u32,
}

impl Wanted {
    /// Whether the reply to a line is.
    pub fn has(&self, entry: &Entry) -> bool
        ensures { result ≡ is_wanted self.now entry.now }
    {
        let is_of_session = match self.session {
            Some(session) => entry.session == session,
            None => true,
        };
        is_of_session && self.from <= entry.number
    }
}

/// The wanted replies to lines that were added to a journal: those of session 0, the manager, then of session 1, and so on, each with
/// the advices of its line.
#[tactic(auto, using(seat_desk::proofs::Texts::put_none, crate::proofs::Sessions::session_answerable_of, crate::proofs::Sessions::session_more, crate::proofs::Sessions::sessions_all))]
pub fn session_replies(
    alloc: Global,
    flights: &Flights,
    scripts: &[Requests],
    journal: &[Entry],
    added: &[Entry],
    wanted: Wanted,
) -> Result<Vec<u8>, AllocError>
    requires few { length scripts.now ≤ 8 }
    requires lines { AreAllAnswerable flights.now scripts.now journal.now (by_session (length scripts.now) added.now) }
    ensures { IfOk result (λ text. IsText (AreWantedSessions wanted flights.now scripts.now journal.now) 0
        (by_session (length scripts.now) added.now) text.items) }
{
    let mut text = Vec::new(alloc);
    for session in 0..scripts.len() + 1 {
        put_session(&mut text, flights, scripts, session, journal, added, wanted)?;
    }
    Ok(text)
}

/// Adds the wanted answers to the lines of a session.
fn put_session(
    text: &mut Vec<u8>,
    flights: &Flights,
    scripts: &[Requests],
    session: usize,
    journal: &[Entry],
    lines: &[Entry],
    wanted: Wanted,
) -> Result<(), AllocError>
    requires lines { AreAnswerable flights.now (requests_of scripts.now session) journal.now
        (of_session session lines.now) }
    ensures { OnOk result (IsPut (IsWantedAnswer wanted flights.now (requests_of scripts.now session) journal.now) 0
        (of_session session lines.now) text.old.items text.new.items) }
{
    let requests = requests_of(scripts, session);
    put_answers(text, flights, requests, session, journal, lines, wanted)
}

/// What a session asks: the manager, session 0, has no script, and the first script is that of session 1.
#[tactic(auto, using(crate::proofs::Sessions::managed, crate::proofs::Sessions::scripted, crate::proofs::Sessions::unscripted))]
pub(crate) fn requests_of(scripts: &[Requests], session: usize) -> &[Request]
    ensures { result.now ≡ requests_of scripts.now session }
{
    if session == 0 {
        return &[];
    }
    match scripts.get(session - 1) {
        Some(script) => script.as_slice(),
        None => &[],
    }
}

/// Adds the wanted answers to the lines of a session, each beside the request at its place.
#[tactic(auto, using(crate::proofs::Sessions::none_answered, crate::proofs::Sessions::entry_answerable, crate::proofs::Sessions::all_answered))]
fn put_answers(
    text: &mut Vec<u8>,
    flights: &Flights,
    requests: &[Request],
    session: usize,
    journal: &[Entry],
    lines: &[Entry],
    wanted: Wanted,
) -> Result<(), AllocError>
    requires lines { AreAnswerable flights.now requests.now journal.now (of_session session lines.now) }
    ensures { OnOk result (IsPut (IsWantedAnswer wanted flights.now requests.now journal.now) 0 (of_session session lines.now)
        text.old.items text.new.items) }
{
    let mut place: usize = 0;
    for entry in lines {
        if usize::from(entry.session) == session {
            put_wanted(text, flights, requests, journal, place, entry, wanted)?;
            place += 1;
        }
    }
    Ok(())
}

/// Adds the answer to a line, if it is wanted.
fn put_wanted(
    text: &mut Vec<u8>,
    flights: &Flights,
    requests: &[Request],
    journal: &[Entry],
    place: usize,
    entry: &Entry,
    wanted: Wanted,
) -> Result<(), AllocError>
    requires { IsAnswerable flights.now requests.now journal.now place entry.now }
    ensures { OnOk result (IsBehind (IsWantedAnswer wanted flights.now requests.now journal.now place entry.now)
        text.old.items text.new.items) }
{
    if wanted.has(entry) {
        return put_answer(text, flights, requests, journal, place, entry);
    }
    Ok(())
}
