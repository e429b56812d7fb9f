//! What stands beside a journal, and the first fault of it.
ghost use Rattle.std.specs.Prelude.{◌≡◌};
ghost use Rattle.seat_seal.specs.Besides.{IsFaultBeside, IsGiven, entry_fault, entry_of, missing, seal_fault};

use crate::comparing::{Given, SealFault, compared, is_its_journal, same_imprint};
use crate::date::Date;
use crate::digest::Digest;
use crate::imprint::imprint_of;
use crate::reading::read_seal;
use crate::seal::{Seal, SealEntry};
use airline_base::Day;

/// What stands beside a journal.
#[derive(Clone, Copy)]
pub struct Beside<'a> {
    /// The bytes of its seal's file, where there is one.
    pub text: Option<&'a [u8]>,
    /// Whether there must be one.
    pub is_wanted: bool,
}

/// What a journal is taken to stand on.
#[derive(Clone, Copy)]
pub struct Basis {
    /// Of the data set's bytes.
    pub set: Digest,
    /// Of the limit rows' bytes.
    pub limits: Digest,
    /// The first day of the flights, and the count of their days.
    pub first: Day,
    pub days: u16,
}

/// The first fault of what stands beside a journal of these bytes on this basis: a seal that must be there and is not, a text that is no
/// seal, and then the first in which the seal differs, in the order of [`compared`]. Of a seal of two entries that is compared whose
/// journal it is, and where it is of neither the last one. The journal's bytes are digested once, and again only beside a seal of two
/// entries.
pub fn fault_beside(beside: &Beside<'_>, basis: &Basis, journal: &[u8]) -> Option<SealFault>
    ensures { IsFaultBeside beside.now basis.now journal.now result }
{
    let Some(text) = beside.text else {
        return missing(beside.is_wanted);
    };
    let Some(seal) = read_seal(text) else {
        return Some(SealFault::Form);
    };
    seal_fault(&seal, &given_of(basis), journal)
}

fn missing(is_wanted: bool) -> Option<SealFault>
    ensures { result ≡ missing is_wanted }
{
    if is_wanted {
        Some(SealFault::Missing)
    } else {
        None
    }
}

/// The first in which a seal differs from what is given and the journal.
fn seal_fault(seal: &Seal, given: &Given, journal: &[u8]) -> Option<SealFault>
    ensures { result ≡ seal_fault seal.now given.now journal.now }
{
    entry_fault(entry_of(seal, journal), given, journal)
}

fn entry_fault(entry: &SealEntry, given: &Given, journal: &[u8]) -> Option<SealFault>
    ensures { result ≡ entry_fault entry.now given.now journal.now }
{
    match entry {
        SealEntry::Sealed(sealed) => compared(sealed, given, journal),
        SealEntry::Other(imprint) => {
            if same_imprint(imprint, &imprint_of(journal)) {
                None
            } else {
                Some(SealFault::Journal)
            }
        }
    }
}

/// The entry that is compared: the first whose journal it is, or else the last.
fn entry_of<'a>(seal: &'a Seal, journal: &[u8]) -> &'a SealEntry
    ensures { result.now ≡ entry_of seal.now journal.now }
{
    match &seal.second {
        None => &seal.first,
        Some(_) if is_its_journal(&seal.first, journal) => &seal.first,
        Some(second) => second,
    }
}

fn given_of(basis: &Basis) -> Given
    ensures { IsGiven basis.now result }
{
    Given {
        set: basis.set,
        limits: basis.limits,
        first: Date::of(basis.first),
        days: basis.days,
    }
}
