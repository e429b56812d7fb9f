//! The entry that a seal has of a run's journal.
//! It knows imprints and counts, and no file.
ghost use Rattle.std.specs.Prelude.{◌≡◌, ◌+◌, ◌++◌, ◌<◌, ◌≤◌, ℕ, List, length};
ghost use Rattle.seat_seal.specs.Fronts.{front_of};
ghost use Rattle.seat_seal.specs.Imprints.{imprint_of};
ghost use Rattle.seat_scripts.specs.SealedRun.{IsEntryOfRun, IsRun, named, named_from};

use airline_base::Day;
use seat_seal::{
    Basis, Carried, Date, Imprint, JournalState, Run, Script, Scripts, Sealed, SealedJournal,
};

/// What a run stands on: the set, the limits and the days, its scripts and changes, the count of the lines that it goes on from, and
/// its day.
#[derive(Clone, Copy)]
pub struct RunBasis<'a> {
    pub basis: Basis,
    /// Of the scripts, the first that of session 1: none where a script has no byte.
    pub imprints: &'a [Option<Imprint>],
    pub changes: Option<Imprint>,
    pub behind: u32,
    pub today: Day,
}

/// The entry of a journal with this imprint of its head and entries, with so many lines, of the era that was, and with this run behind the earlier ones.
pub fn entry_of_run(run: &RunBasis<'_>, earlier: Carried, lines: u32, imprint: Imprint) -> Sealed
    requires { length run.now.imprints.now ≤ 8 }
    ensures entry { (text : List ℕ) → imprint ≡ imprint_of (front_of text)
        → IsEntryOfRun run.now.basis run.now.imprints.now run.now.changes run.now.behind lines run.now.today earlier text result }
    ensures imprint { result.journal.imprint ≡ imprint }
{
    let journal = SealedJournal {
        imprint,
        lines,
        state: JournalState::Closed,
    };
    let first = Date::of(run.basis.first);
    let this = run_of(run);
    let Carried { runs, era } = earlier;
    let mut runs = runs;
    runs.add(this);
    Sealed {
        set: run.basis.set,
        limits: run.basis.limits,
        first,
        days: run.basis.days,
        era,
        journal,
        runs,
    }
}

fn run_of(run: &RunBasis<'_>) -> Run
    requires { length run.now.imprints.now ≤ 8 }
    ensures { IsRun run.now.imprints.now run.now.changes run.now.behind run.now.today result }
{
    Run {
        behind: run.behind,
        today: Date::of(run.today),
        scripts: named_scripts(run.imprints),
        changes: run.changes,
    }
}

fn named_scripts(imprints: &[Option<Imprint>]) -> Scripts
    requires { length imprints.now ≤ 8 }
    ensures { result ≡ named_from 1 imprints.now }
{
    let mut scripts = Scripts::new();
    add_named(imprints, 1, &mut scripts);
    scripts
}

/// Adds the scripts of which these are the imprints, the first that of this session.
#[tactic(auto, using(crate::proofs::Naming::named_none, crate::proofs::Naming::named_more))]
fn add_named(imprints: &[Option<Imprint>], session: u8, scripts: &mut Scripts)
    requires sessions { session + length imprints.now ≤ 9 }
    requires room { length scripts.old < session }
    ensures { scripts.new ≡ scripts.old ++ named_from session imprints.now }
{
    let [imprint, more @ ..] = imprints else {
        return;
    };
    add_one(*imprint, session, scripts);
    add_named(more, session + 1, scripts);
}

fn add_one(imprint: Option<Imprint>, session: u8, scripts: &mut Scripts)
    requires { length scripts.old < 8 }
    ensures scripts { scripts.new ≡ scripts.old ++ named session imprint }
    ensures count { length scripts.new ≤ length scripts.old + 1 }
{
    if let Some(imprint) = imprint {
        scripts.push(Script { session, imprint });
    }
}
