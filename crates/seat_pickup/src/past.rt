//! The lines of a journal that stand ahead of those that are looked at: so many, or those of an older journal.
//! It knows nothing of what lines move, and of no text.
ghost use Rattle.std.specs.Prelude.{◌≡◌, ◌≤◌, IfErr, IfNone, IfOk, IfSome, length};
ghost use Rattle.seat_journal.specs.declared.entry.Work.TheVariants.{Limit, Sale, Seats};
ghost use Rattle.seat_rules.specs.Prefixes.{Begins};
ghost use Rattle.seat_pickup.specs.Older.{IsNoBeginning, IsNoBeginningBy, IsNoPast, IsPast, IsTooShortFor, past_lines, same_line, same_work};

use seat_core::are_same_advices;
use seat_desk::DeskFault;
use seat_journal::{Change, Command, Entry, SaleChange, Work};

/// Which lines stand ahead.
#[derive(Clone, Copy)]
pub enum Past<'a> {
    /// So many, as a journal had when it was looked at before: 0 to 999,999.
    Lines(u32),
    /// Those of an older journal, with which the journal must begin, line by line.
    Older(&'a [Entry]),
}

/// How many lines of a journal are its past. It is refused where it has fewer lines than are given, or parts from the older one.
#[tactic(auto, using(crate::proofs::Parting::lines_past, crate::proofs::Parting::short_past))]
pub fn past_of(past: &Past<'_>, journal: &[Entry]) -> Result<usize, DeskFault>
    ensures within { IfOk result (λ n. n ≤ length journal.now) }
    ensures count { IfOk result (λ n. n ≡ past_lines past.now) }
    ensures past { IfOk result (λ n. IsPast past.now journal.now) }
    ensures fault { IfErr result (IsNoPast past.now journal.now) }
{
    match past {
        Past::Lines(lines) => lines_ahead(*lines, journal),
        Past::Older(older) => older_ahead(older, journal),
    }
}

/// So many lines, if the journal has as many.
#[tactic(auto, using(crate::proofs::Parting::too_short))]
fn lines_ahead(lines: u32, journal: &[Entry]) -> Result<usize, DeskFault>
    ensures within { IfOk result (λ n. n ≤ length journal.now) }
    ensures count { IfOk result (λ n. n ≡ lines) }
    ensures enough { IfOk result (λ n. lines ≤ length journal.now) }
    ensures fault { IfErr result (IsTooShortFor lines journal.now) }
{
    if journal.len() < lines as usize {
        return Err(DeskFault::NoBehind);
    }
    Ok(lines as usize)
}

/// The lines of an older journal, if the journal begins with them.
#[tactic(auto, using(crate::proofs::Parting::older_within))]
fn older_ahead(older: &[Entry], journal: &[Entry]) -> Result<usize, DeskFault>
    ensures within { IfOk result (λ n. n ≤ length journal.now) }
    ensures count { IfOk result (λ n. n ≡ length older.now) }
    ensures begins { IfOk result (λ n. Begins older.now journal.now) }
    ensures fault { IfErr result (IsNoBeginningBy older.now journal.now) }
{
    match parting(older, journal) {
        Some((session, call)) => Err(DeskFault::Unasked { session, call }),
        None => Ok(older.len()),
    }
}

/// The session and the call of the first line of a journal that is not the older one's, or of the older one's where the journal has ended.
fn parting(older: &[Entry], journal: &[Entry]) -> Option<(u8, u32)>
    ensures begins { IfNone result (Begins older.now journal.now) }
    ensures named { IfSome result (λ named. IsNoBeginning older.now journal.now named.0 named.1) }
{
    for place in 0..older.len() {
        let line = &older[place];
        let Some(there) = journal.get(place) else {
            return Some((line.session, line.call));
        };
        if !are_same(there, line) {
            return Some((there.session, there.call));
        }
    }
    None
}

/// Whether two lines are one.
fn are_same(a: &Entry, b: &Entry) -> bool
    ensures { result ≡ same_line a.now b.now }
{
    a.number == b.number
        && a.session == b.session
        && a.call == b.call
        && is_same_work(&a.work, &b.work)
        && a.reply == b.reply
        && a.released == b.released
        && are_same_advices(a.advices.as_slice(), b.advices.as_slice())
}

/// Whether they ask for the same.
fn is_same_work(a: &Work, b: &Work) -> bool
    ensures { result ≡ same_work a.now b.now }
{
    match a {
        Work::Seats(command) => asks(command, b),
        Work::Limit(change) => sets(change, b),
        Work::Sale(change) => closes(change, b),
    }
}

/// Whether a command is what is asked.
fn asks(command: &Command, work: &Work) -> bool
    ensures { result ≡ same_work (Seats command.now) work.now }
{
    match work {
        Work::Seats(other) => command == other,
        Work::Limit(_) => false,
        Work::Sale(_) => false,
    }
}

/// Whether a change is.
fn sets(change: &Change, work: &Work) -> bool
    ensures { result ≡ same_work (Limit change.now) work.now }
{
    match work {
        Work::Seats(_) => false,
        Work::Limit(other) => change == other,
        Work::Sale(_) => false,
    }
}

/// Whether a closing or opening is.
fn closes(change: &SaleChange, work: &Work) -> bool
    ensures { result ≡ same_work (Sale change.now) work.now }
{
    match work {
        Work::Seats(_) => false,
        Work::Limit(_) => false,
        Work::Sale(other) => change == other,
    }
}
