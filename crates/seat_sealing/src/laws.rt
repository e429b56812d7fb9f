//! Laws of the definitions, on functions that do nothing.
ghost use Rattle.std.specs.Prelude.{◌^◌, ◌<◌, List, length};
ghost use Rattle.seat_journal.specs.declared.entry.Entry.{Entry};
ghost use Rattle.seat_sealing.specs.Laws.{EndIsLast, NoCrashDenies};

use seat_disk::Replaced;
use seat_seal::{SealEntry, Sealed};

/// What stands ahead of a journal's END line is its head and its entries.
pub fn ends_are_last()
    ensures { (entries : List Entry) → length entries < 2 ^ 64 → EndIsLast entries }
{}

/// In whichever of the three steps a crash comes, it leaves a pair of journal and seal that it might have left before, or a seal
/// that has the journal's entry.
pub fn no_crash_denies<J: Replaced, K: Replaced>(
    journal: &J,
    seal: &K,
    journal_then: &J,
    seal_then: &K,
    older: &SealEntry,
    newer: &Sealed,
    text: &[u8],
)
    ensures { NoCrashDenies older.now newer.now text.now (J.may_leave journal.now) (K.may_leave seal.now)
        (J.may_leave journal_then.now) (K.may_leave seal_then.now) }
{}
