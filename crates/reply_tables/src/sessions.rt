//! The rows of the replies that are wanted: those of the manager, then those of each session, one after the other.
//! It knows nothing of how a line is answered.
ghost use Rattle.std.specs.Prelude.{◌≡◌, ◌++◌, IfOk, OnOk, drop, length, take};
ghost use Rattle.seat_rules.specs.Histories.{by_session, of_session};
ghost use Rattle.seat_tables.specs.Rows.{IsTable, rows_from};
ghost use Rattle.seat_tables.specs.Sheets.{ArePut, IsReady};
ghost use Rattle.reply_tables.specs.ReplyRows.{reply_names, session_rows, wanted_rows};

use crate::rows::{names, put_answer};
use airimp_lines::{Request, Requests};
use seat_journal::Entry;
use seat_scripts::Wanted;
use seat_tables::{Form, Sheet};
use ssim_flights::Flights;
use std::alloc::{AllocError, Global};

/// The table of the wanted replies to lines that were added to a journal.
#[tactic(auto, using(seat_tables::proofs::Putting::table_of))]
pub fn reply_table(
    alloc: Global,
    form: Form,
    flights: &Flights,
    scripts: &[Requests],
    journal: &[Entry],
    added: &[Entry],
    wanted: Wanted,
) -> Result<Vec<u8>, AllocError>
    ensures { IfOk result (λ text. IsTable form reply_names
        (rows_from (session_rows wanted flights.now scripts.now journal.now) 0 (by_session (length scripts.now) added.now)) text.items) }
{
    let mut sheet = Sheet::new(alloc, form, &names())?;
    put_sessions(alloc, &mut sheet, flights, scripts, journal, added, wanted)?;
    sheet.into_text()
}

/// Adds the rows of all sessions.
fn put_sessions(
    alloc: Global,
    sheet: &mut Sheet,
    flights: &Flights,
    scripts: &[Requests],
    journal: &[Entry],
    added: &[Entry],
    wanted: Wanted,
) -> Result<(), AllocError>
    requires ready { IsReady sheet.old }
    ensures { OnOk result (ArePut reply_names
        (rows_from (session_rows wanted flights.now scripts.now journal.now) 0 (by_session (length scripts.now) added.now)) sheet.old sheet.new) }
{
    for session in 0..scripts.len() + 1 {
        put_session(
            alloc, sheet, flights, scripts, session, journal, added, wanted,
        )?;
    }
    Ok(())
}

/// Adds the rows of a session: the manager, session 0, has no script, and the first script is that of session 1.
#[tactic(auto, using(seat_scripts::proofs::Sessions::managed, seat_scripts::proofs::Sessions::scripted, seat_scripts::proofs::Sessions::unscripted, crate::proofs::Writing::asked_by))]
fn put_session(
    alloc: Global,
    sheet: &mut Sheet,
    flights: &Flights,
    scripts: &[Requests],
    session: usize,
    journal: &[Entry],
    lines: &[Entry],
    wanted: Wanted,
) -> Result<(), AllocError>
    requires ready { IsReady sheet.old }
    ensures { OnOk result (ArePut reply_names
        (session_rows wanted flights.now scripts.now journal.now session (of_session session lines.now)) sheet.old sheet.new) }
{
    if session == 0 {
        return put_lines(alloc, sheet, flights, &[], session, journal, lines, wanted);
    }
    match scripts.get(session - 1) {
        Some(script) => put_lines(
            alloc,
            sheet,
            flights,
            script.as_slice(),
            session,
            journal,
            lines,
            wanted,
        ),
        None => put_lines(alloc, sheet, flights, &[], session, journal, lines, wanted),
    }
}

/// Adds the rows of the lines of a session, each beside the request at its place.
#[tactic(auto, using(crate::proofs::Answered::none_written, crate::proofs::Answered::all_written))]
fn put_lines(
    alloc: Global,
    sheet: &mut Sheet,
    flights: &Flights,
    requests: &[Request],
    session: usize,
    journal: &[Entry],
    lines: &[Entry],
    wanted: Wanted,
) -> Result<(), AllocError>
    requires ready { IsReady sheet.old }
    ensures { OnOk result (ArePut reply_names
        (rows_from (wanted_rows wanted flights.now requests.now journal.now) 0 (of_session session lines.now)) sheet.old sheet.new) }
{
    let mut place: usize = 0;
    for entry in lines {
        if usize::from(entry.session) == session {
            put_wanted(
                alloc, sheet, flights, requests, journal, place, entry, wanted,
            )?;
            place += 1;
        }
    }
    Ok(())
}

/// Adds the rows of a line, if its reply is wanted.
#[tactic(auto, using(crate::proofs::Writing::wanted_put, crate::proofs::Writing::unwanted_put))]
fn put_wanted(
    alloc: Global,
    sheet: &mut Sheet,
    flights: &Flights,
    requests: &[Request],
    journal: &[Entry],
    place: usize,
    entry: &Entry,
    wanted: Wanted,
) -> Result<(), AllocError>
    requires ready { IsReady sheet.old }
    ensures { OnOk result (ArePut reply_names (wanted_rows wanted flights.now requests.now journal.now place entry.now)
        sheet.old sheet.new) }
{
    if wanted.has(entry) {
        return put_answer(alloc, sheet, flights, requests, journal, place, entry);
    }
    Ok(())
}
