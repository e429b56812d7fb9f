//! Where the runs of a journal began that its seal knows, and what that seal has against a run that goes on with scripts.
//! It knows numbers of lines, and no text.
ghost use Rattle.std.specs.Prelude.{◌≡◌, ◌+◌, ◌≤◌, IfErr, OnOk, None, Some, length};
ghost use Rattle.std.specs.List.{list_all, list_any};
ghost use Rattle.seat_desk.specs.AuditDesk.{most_lines};
ghost use Rattle.seat_seal.specs.declared.comparing.SealFault.{SealFault as Fault};
ghost use Rattle.seat_scripts.specs.Begun.{began_at, fault_among, fault_of_known, fault_of_runs};

use seat_core::Core;
use seat_desk::DeskFault;
use seat_seal::{Run, SealFault, Sealed, era_known, runs_in};

/// Refuses scripts and changes that go on behind the lines of an older journal and so many more, where the journal's seal has something against it:
/// the bookings were carried to another journal, or what the runs that it knows say.
pub(crate) fn of_known(
    again: bool,
    given: Option<u32>,
    older: &Core,
    more: u32,
    known: &Option<Sealed>,
    is_repeated: bool,
) -> Result<(), DeskFault>
    requires { length older.now.journal ≤ most_lines }
    ensures ok { OnOk result
        (fault_of_known again given (length older.now.journal + more) known.now is_repeated ≡ None) }
    ensures fault { IfErr result (λ f. (s : Fault) × (f ≡ DeskFault.Seal s) ×
        (fault_of_known again given (length older.now.journal + more) known.now is_repeated ≡ Some s)) }
{
    let lines = lines_ahead(older, more);
    match fault_of_known(again, given, lines, known, is_repeated) {
        Some(fault) => Err(DeskFault::Seal(fault)),
        None => Ok(()),
    }
}

/// The lines of an older journal and so many more.
pub(crate) fn lines_ahead(older: &Core, more: u32) -> u64
    requires { length older.now.journal ≤ most_lines }
    ensures { result ≡ length older.now.journal + more }
{
    older.journal().len() as u64 + more as u64
}

fn fault_of_known(
    again: bool,
    given: Option<u32>,
    lines: u64,
    known: &Option<Sealed>,
    is_repeated: bool,
) -> Option<SealFault>
    ensures { result ≡ fault_of_known again given lines known.now is_repeated }
{
    if era_known(known).is_carried() {
        return Some(SealFault::Carried);
    }
    fault_of_runs(again, given, lines, runs_in(known), is_repeated)
}

fn fault_of_runs(
    again: bool,
    given: Option<u32>,
    lines: u64,
    runs: &[Run],
    is_repeated: bool,
) -> Option<SealFault>
    ensures { result ≡ fault_of_runs again given lines runs.now is_repeated }
{
    match runs {
        [] => None,
        [_, ..] => fault_among(again, given, lines, runs, is_repeated),
    }
}

fn fault_among(
    again: bool,
    given: Option<u32>,
    lines: u64,
    runs: &[Run],
    is_repeated: bool,
) -> Option<SealFault>
    ensures { result ≡ fault_among again given lines runs.now is_repeated }
{
    if !has_begun_at(lines, runs) {
        return Some(SealFault::Behind);
    }
    if given.is_none() && !have_begun_at(lines, runs) {
        return Some(SealFault::Several);
    }
    if !again && is_repeated {
        return Some(SealFault::Again);
    }
    None
}

/// Whether a run began behind so many lines.
fn has_begun_at(lines: u64, runs: &[Run]) -> bool
    ensures { result ≡ list_any (began_at lines) runs.now }
{
    runs.iter().any(|run| began_at(lines, run))
}

/// Whether each did.
fn have_begun_at(lines: u64, runs: &[Run]) -> bool
    ensures { result ≡ list_all (began_at lines) runs.now }
{
    runs.iter().all(|run| began_at(lines, run))
}

fn began_at(lines: u64, run: &Run) -> bool
    ensures { result ≡ began_at lines run.now }
{
    lines == run.behind as u64
}
