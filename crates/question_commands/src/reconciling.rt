//! `reconcile`: a partner's or a desk's own list beside the live bookings of a journal.
//! It knows which file is which, and nothing of how a list is read or compared.
ghost use Rattle.airline_base.specs.Days.{IsCenturyDay};

use crate::commands::asked_of;
use airimp_lines::Requests;
use airline_base::Day;
use command_inputs::days_of;
use partner_lists::{PartnerFault, PartnerKind, read_list};
use partner_questions::ReconcileOf;
use progress_meter::Meter;
use seat_desk::{DeskFault, MOST_JOURNAL_BYTES, read_input};
use seat_files::{ListKind, Refusal, opened};
use seat_words::{ReconcileJob, WordFault, session_word};
use std::cell::Cell;
use std::thread::Threads;

/// In what the list and the live bookings differ, or those of a session. The list is read ahead of all else. It answers the number of differences.
pub fn reconcile<R: Threads + Sync>(
    rt: &HostRuntime,
    threads: &R,
    meter: &Meter,
    asked: &ReconcileJob<'_>,
) -> Result<usize, Refusal> {
    let over = &asked.horizon;
    let days = days_of(over.first, over.days)?;
    let session = session_asked(asked.session)?;
    let theirs = match theirs_of(rt, asked.theirs, days.0) {
        Ok(theirs) => theirs,
        Err(refusal) => return Err(refusal),
    };
    let differ = Cell::new(0);
    let question = ReconcileOf {
        theirs: theirs.as_slice(),
        session,
        differ: &differ,
    };
    let journal = Some(asked.journal);
    match asked_of(
        rt,
        threads,
        meter,
        over,
        days,
        &question,
        journal,
        asked.is_open,
    ) {
        Ok(()) => Ok(differ.get()),
        Err(refusal) => Err(refusal),
    }
}

/// The session whose bookings are compared, if one is asked for.
fn session_asked(session: Option<&str>) -> Result<Option<u8>, WordFault> {
    match session {
        None => Ok(None),
        Some(word) => match session_word(word) {
            Some(session) => Ok(Some(session)),
            None => Err(WordFault::BadSession),
        },
    }
}

/// The lines of the list, whose days are the earliest such on or after the first day.
fn theirs_of(rt: &HostRuntime, name: &str, first: Day) -> Result<Requests, Refusal>
    requires first { IsCenturyDay first }
{
    let mut input = opened(rt, name)?;
    let bytes = match read_input(rt.alloc(), &mut input, MOST_JOURNAL_BYTES) {
        Ok(bytes) => bytes,
        Err(fault) => return Err(Refusal::from(fault).noting_all(&[&input])),
    };
    match read_list(rt.alloc(), &bytes, first) {
        Ok(theirs) => Ok(theirs),
        Err(fault) => Err(refusal_of(fault).noting_all(&[&input])),
    }
}

/// The refusal of a list. Want of memory says nothing about it.
fn refusal_of(fault: PartnerFault) -> Refusal {
    let line = fault.line;
    match fault.kind {
        PartnerKind::Locator => Refusal::of_list(ListKind::Locator, line),
        PartnerKind::Line(inner) => Refusal::of_list(ListKind::Segment(inner), line),
        PartnerKind::Status => Refusal::of_list(ListKind::Status, line),
        PartnerKind::Twice => Refusal::of_list(ListKind::Again, line),
        PartnerKind::Memory => Refusal::from(DeskFault::Memory),
    }
}
