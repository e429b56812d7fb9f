//! What a seal knows of the journal beside it.
ghost use Rattle.std.specs.Prelude.{◌≡◌, ◌⊎◌};
ghost use Rattle.seat_seal.specs.Besides.{entry_of};
ghost use Rattle.seat_seal.specs.Known.{IsKnown, IsKnownBy, IsKnownByNone, carried_by, known_in, runs_known};
ghost use Rattle.seat_seal.specs.Reading.{two_entries};

use crate::beside::Beside;
use crate::comparing::is_its_journal;
use crate::era::{Era, era_known};
use crate::reading::read_seal;
use crate::run::{Run, Runs};
use crate::seal::{Seal, SealEntry, Sealed};

/// What the seal of a journal that goes on from another takes of that one's seal.
#[derive(Drop)]
pub struct Carried {
    pub runs: Runs,
    pub era: Era,
}

/// What the seal beside a journal knows of it; nothing where there is no seal, or it knows no more than the bytes. Of a seal of two
/// entries it is the one that is compared.
pub fn known_of(beside: &Beside<'_>, journal: &[u8]) -> Option<Sealed>
    ensures { IsKnown beside.now journal.now result }
{
    match beside.text {
        Some(text) => known_by(text, journal),
        None => None,
    }
}

/// The runs that are known.
pub fn runs_in(known: &Option<Sealed>) -> &[Run]
    ensures { result.now ≡ runs_known known.now }
{
    match known {
        Some(entry) => entry.runs.as_slice(),
        None => &[],
    }
}

/// The runs that are known, by themselves.
pub fn runs_known(known: Option<Sealed>) -> Runs
    ensures { result ≡ runs_known known }
{
    match known {
        Some(entry) => runs_of(entry),
        None => Runs::new(),
    }
}

/// The runs and the era that are known, by themselves.
pub fn carried_by(known: Option<Sealed>) -> Carried
    ensures { result ≡ carried_by known }
{
    let era = era_known(&known);
    Carried {
        runs: runs_known(known),
        era,
    }
}

fn runs_of(entry: Sealed) -> Runs
    ensures { result ≡ entry.runs }
{
    let Sealed { runs, .. } = entry;
    runs
}

#[tactic(auto, using(crate::proofs::Knowing::known_by, crate::proofs::Knowing::known_by_none))]
fn known_by(text: &[u8], journal: &[u8]) -> Option<Sealed>
    ensures { IsKnownByNone text.now result ⊎ IsKnownBy text.now journal.now result }
{
    match read_seal(text) {
        Some(seal) => compared_in(seal, journal),
        None => None,
    }
}

// The journal's bytes are read once more only beside a seal of two entries.
fn compared_in(seal: Seal, journal: &[u8]) -> Option<Sealed>
    ensures { result ≡ known_in (entry_of seal journal.now) }
{
    let Seal { first, second } = seal;
    match second {
        Some(second) => compared_of(first, second, journal),
        None => known_in(first),
    }
}

fn compared_of(first: SealEntry, second: SealEntry, journal: &[u8]) -> Option<Sealed>
    ensures { result ≡ known_in (entry_of (two_entries first second) journal.now) }
{
    if is_its_journal(&first, journal) {
        return known_in(first);
    }
    known_in(second)
}

fn known_in(entry: SealEntry) -> Option<Sealed>
    ensures { result ≡ known_in entry }
{
    match entry {
        SealEntry::Sealed(sealed) => Some(sealed),
        SealEntry::Other(_) => None,
    }
}
