//! Whether a seal keeps its rules.
ghost use Rattle.std.specs.Prelude.{◌≡◌};
ghost use Rattle.std.specs.List.{list_all};
ghost use Rattle.seat_seal.specs.Rules.{is_era, is_imprint, is_journal, is_script, are_changes, are_rising, is_run, is_sealed, is_entry, is_second, is_seal, is_today, is_carried_to};

use crate::date::Date;
use crate::era::Era;
use crate::imprint::Imprint;
use crate::run::Run;
use crate::scripts::Script;
use crate::seal::{Seal, SealEntry, Sealed, SealedJournal};

/// The most lines of a journal.
const MOST_LINES: u32 = 999_999;

/// The last epoch.
const MOST_EPOCHS: u32 = 999_999;

/// The most runs of an entry.
const MOST_RUNS: usize = 128;

/// Whether each entry keeps the rules of an entry.
#[tactic(auto, unfolding(crate::specs::Rules::is_seal))]
pub fn is_seal(seal: &Seal) -> bool
    ensures { result ≡ is_seal seal.now }
{
    is_entry(&seal.first) && is_second(&seal.second)
}

fn is_second(entry: &Option<SealEntry>) -> bool
    ensures { result ≡ is_second entry.now }
{
    match entry {
        Some(entry) => is_entry(entry),
        None => true,
    }
}

/// Whether the entry keeps its rules.
pub fn is_entry(entry: &SealEntry) -> bool
    ensures { result ≡ is_entry entry.now }
{
    match entry {
        SealEntry::Sealed(sealed) => is_sealed(sealed),
        SealEntry::Other(imprint) => is_imprint(imprint),
    }
}

/// Whether what a journal belongs to keeps the rules of an entry.
#[tactic(auto, unfolding(crate::specs::Rules::is_sealed))]
pub fn is_sealed(sealed: &Sealed) -> bool
    ensures { result ≡ is_sealed sealed.now }
{
    sealed.first.day().is_some()
        && 1 <= sealed.days
        && sealed.days <= 366
        && is_journal(&sealed.journal)
        && is_era(&sealed.era)
        && sealed.runs.as_slice().len() <= MOST_RUNS
        && are_runs(sealed.runs.as_slice(), sealed.journal.lines)
}

fn is_era(era: &Era) -> bool
    ensures { result ≡ is_era era.now }
{
    1 <= era.epoch
        && era.epoch <= MOST_EPOCHS
        && is_today(&era.today)
        && is_carried_to(&era.carried)
}

fn is_carried_to(carried: &Option<Imprint>) -> bool
    ensures { result ≡ is_carried_to carried.now }
{
    match carried {
        Some(imprint) => is_imprint(imprint),
        None => true,
    }
}

fn is_today(today: &Option<Date>) -> bool
    ensures { result ≡ is_today today.now }
{
    match today {
        Some(date) => date.day().is_some(),
        None => true,
    }
}

fn are_runs(runs: &[Run], lines: u32) -> bool
    ensures { result ≡ list_all (is_run lines) runs.now }
{
    match runs {
        [] => true,
        [run, more @ ..] => is_run(run, lines) && are_runs(more, lines),
    }
}

#[tactic(auto, unfolding(crate::specs::Rules::is_run))]
fn is_run(run: &Run, lines: u32) -> bool
    ensures { result ≡ is_run lines run.now }
{
    run.behind <= lines
        && run.today.day().is_some()
        && are_rising(run.scripts.as_slice())
        && are_scripts(run.scripts.as_slice())
        && are_changes(&run.changes)
}

fn are_scripts(scripts: &[Script]) -> bool
    ensures { result ≡ list_all is_script scripts.now }
{
    match scripts {
        [] => true,
        [script, more @ ..] => is_imprint(&script.imprint) && are_scripts(more),
    }
}

fn are_changes(changes: &Option<Imprint>) -> bool
    ensures { result ≡ are_changes changes.now }
{
    match changes {
        Some(imprint) => is_imprint(imprint),
        None => true,
    }
}

fn is_journal(journal: &SealedJournal) -> bool
    ensures { result ≡ is_journal journal.now }
{
    is_imprint(&journal.imprint) && journal.lines <= MOST_LINES
}

// At most ten digits.
fn is_imprint(imprint: &Imprint) -> bool
    ensures { result ≡ is_imprint imprint.now }
{
    imprint.bytes <= 9_999_999_999
}

fn are_rising(scripts: &[Script]) -> bool
    ensures { result ≡ are_rising 0 scripts.now }
{
    let mut last = 0;
    let mut rest = scripts;
    while let [script, more @ ..] = rest {
        if !(last < script.session && script.session <= 8) {
            return false;
        }
        last = script.session;
        rest = more;
    }
    true
}
