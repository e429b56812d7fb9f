//! The entry of a journal that is to be replaced.
//! It knows texts and imprints, and no file.
ghost use Rattle.std.specs.Prelude.{◌≡◌, IsTrue, if◌then◌else◌, option_map};
ghost use Rattle.seat_seal.specs.Comparing.{is_its_journal, entry_for};
ghost use Rattle.seat_seal.specs.declared.seal.SealEntry.TheVariants.{Other};
ghost use Rattle.seat_seal.specs.Imprints.{imprint_of};
ghost use Rattle.seat_sealing.specs.Older.{IsEntryBeside, IsSealIn, entry_or_other, older_entry};

use seat_seal::{Seal, SealEntry, imprint_of, is_its_journal, read_seal};

/// The entry of a journal that the text beside it has, where that is the text of a seal: [`older_entry`] of it.
#[tactic(auto, using(crate::proofs::Known::beside))]
pub fn entry_beside(text: Option<&[u8]>, journal: &[u8]) -> SealEntry
    ensures value { IsEntryBeside (option_map (λ text. text.now) text.entry) journal.now result }
    ensures fits { IsTrue (is_its_journal result journal.now) }
{
    let seal = seal_in(text);
    older_entry(seal, journal)
}

#[tactic(auto, using(crate::proofs::Known::read_in))]
fn seal_in(text: Option<&[u8]>) -> Option<Seal>
    ensures { IsSealIn (option_map (λ text. text.now) text.entry) result }
{
    match text {
        Some(text) => read_seal(text),
        None => None,
    }
}

/// The entry that the seal has of the journal. Where there is no seal, or none of its entries is, nothing is known of the journal: so of
/// one that is empty, or was written without a seal.
pub fn older_entry(seal: Option<Seal>, journal: &[u8]) -> SealEntry
    ensures value { result ≡ older_entry seal journal.now }
    ensures fits { IsTrue (is_its_journal result journal.now) }
{
    match seal {
        Some(seal) => entry_or_other(seal, journal),
        None => other(journal),
    }
}

fn entry_or_other(seal: Seal, journal: &[u8]) -> SealEntry
    ensures value { result ≡ entry_or_other (entry_for seal journal.now) (imprint_of journal.now) }
    ensures fits { IsTrue (is_its_journal result journal.now) }
{
    let Seal { first, second } = seal;
    if is_its_journal(&first, journal) {
        return first;
    }
    match second {
        Some(second) => second_or_other(second, journal),
        None => other(journal),
    }
}

fn second_or_other(second: SealEntry, journal: &[u8]) -> SealEntry
    ensures value { result ≡ (if is_its_journal second journal.now then second else Other (imprint_of journal.now)) }
    ensures fits { IsTrue (is_its_journal result journal.now) }
{
    if is_its_journal(&second, journal) {
        return second;
    }
    other(journal)
}

/// The entry of a journal of which nothing is known.
#[tactic(auto, using(crate::proofs::Known::other_is_its))]
fn other(journal: &[u8]) -> SealEntry
    ensures value { result ≡ Other (imprint_of journal.now) }
    ensures fits { IsTrue (is_its_journal result journal.now) }
{
    SealEntry::Other(imprint_of(journal))
}
