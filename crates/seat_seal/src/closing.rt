//! The entry of a journal: of one to which lines are added, and of one to which none is any more.
//! It knows digests, days and runs, and no journal's bytes.
ghost use Rattle.std.specs.Prelude.{◌≡◌};
ghost use Rattle.seat_seal.specs.Closing.{IsClosedEntry, IsEntryIn, IsOpenEntry};

use crate::beside::Basis;
use crate::date::Date;
use crate::era::Era;
use crate::imprint::Imprint;
use crate::run::Runs;
use crate::seal::{JournalState, Sealed, SealedJournal};

/// The entry of an open journal on this basis: with this imprint of the head and the entries that it begins with, so many of these, of
/// this era, and with these runs.
pub fn open_entry(basis: &Basis, era: Era, imprint: Imprint, lines: u32, runs: Runs) -> Sealed
    ensures entry { IsOpenEntry basis.now imprint lines runs result }
    ensures era { result.era ≡ era }
{
    entry_in(JournalState::Open, basis, era, imprint, lines, runs)
}

/// The entry of a closed journal on this basis: with this imprint of its head and entries, so many of these, of this era, and with
/// these runs.
pub fn closed_entry(basis: &Basis, era: Era, imprint: Imprint, lines: u32, runs: Runs) -> Sealed
    ensures entry { IsClosedEntry basis.now imprint lines runs result }
    ensures era { result.era ≡ era }
{
    entry_in(JournalState::Closed, basis, era, imprint, lines, runs)
}

fn entry_in(
    state: JournalState,
    basis: &Basis,
    era: Era,
    imprint: Imprint,
    lines: u32,
    runs: Runs,
) -> Sealed
    ensures entry { IsEntryIn state basis.now imprint lines runs result }
    ensures era { result.era ≡ era }
{
    Sealed {
        set: basis.set,
        limits: basis.limits,
        first: Date::of(basis.first),
        days: basis.days,
        era,
        journal: SealedJournal {
            imprint,
            lines,
            state,
        },
        runs,
    }
}
