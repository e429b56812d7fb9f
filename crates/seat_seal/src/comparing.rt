//! What a seal says beside what is given.
ghost use Rattle.std.specs.Prelude.{◌≡◌, option_map};
ghost use Rattle.airline_base.specs.Bytes.{same_text};
ghost use Rattle.seat_seal.specs.Faults.{words_of};
ghost use Rattle.seat_seal.specs.Comparing.{begins_sealed, same_imprint, same_date, compared, is_its_journal, is_sealed_one, entry_for};

use crate::date::Date;
use crate::digest::Digest;
use crate::front::{beginning, front_for};
use crate::imprint::{Imprint, imprint_of};
use crate::seal::{Seal, SealEntry, Sealed, SealedJournal};
use std::fmt;

/// What is wrong with a seal.
#[derive(Clone, Copy)]
pub enum SealFault {
    /// No seal stands there, and one must.
    Missing,
    /// The text is no seal.
    Form,
    /// The data set is another.
    Set,
    /// The limit rows are others.
    Limits,
    /// The first day is another.
    First,
    /// The count of days is another.
    Days,
    /// The journal is another.
    Journal,
    /// A script stands in the journal.
    Again,
    /// No run began behind so many lines.
    Behind,
    /// Several runs began, and behind which of them is not said.
    Several,
    /// Its bookings were carried to another journal.
    Carried,
}

impl fmt::Display for SealFault {
    ghost use Rattle.std.specs.Prelude.{Some};
    ghost use Rattle.seat_seal.specs.Faults.{words_of};

    ghost output = { λ fault. Some (words_of fault) };

    /// SEAL and one word.
    fn fmt<W: fmt::Write>(&self, f: &mut fmt::Formatter<W>) -> fmt::Result {
        f.write_str(words_of(*self))
    }
}

fn words_of(fault: SealFault) -> &'static str
    ensures { result.now ≡ words_of fault }
{
    match fault {
        SealFault::Missing => "SEAL none",
        SealFault::Form => "SEAL form",
        SealFault::Set => "SEAL set",
        SealFault::Limits => "SEAL limits",
        SealFault::First => "SEAL first",
        SealFault::Days => "SEAL days",
        SealFault::Journal => "SEAL journal",
        SealFault::Again => "SEAL again",
        SealFault::Behind => "SEAL behind",
        SealFault::Several => "SEAL runs",
        SealFault::Carried => "SEAL carried",
    }
}

/// What a journal is to belong to.
#[derive(Clone, Copy)]
pub struct Given {
    pub set: Digest,
    pub limits: Digest,
    pub first: Date,
    pub days: u16,
}

/// The first in which the entry differs from what is given: set, limits, first, days, journal.
#[tactic(auto, unfolding(crate::specs::Comparing::compared))]
pub fn compared(entry: &Sealed, given: &Given, journal: &[u8]) -> Option<SealFault>
    ensures { result ≡ compared entry.now given.now journal.now }
{
    if !same_digest(&entry.set, &given.set) {
        return Some(SealFault::Set);
    }
    if !same_digest(&entry.limits, &given.limits) {
        return Some(SealFault::Limits);
    }
    if !same_date(&entry.first, &given.first) {
        return Some(SealFault::First);
    }
    if entry.days != given.days {
        return Some(SealFault::Days);
    }
    if !is_sealed_one(&entry.journal, journal) {
        return Some(SealFault::Journal);
    }
    None
}

/// The first entry whose journal it is.
pub fn entry_for<'a>(seal: &'a Seal, journal: &[u8]) -> Option<&'a SealEntry>
    ensures { option_map (λ e. e.now) result ≡ entry_for seal.now journal.now }
{
    if is_its_journal(&seal.first, journal) {
        return Some(&seal.first);
    }
    match &seal.second {
        Some(second) if is_its_journal(second, journal) => Some(second),
        _ => None,
    }
}

/// Whether the entry is of this journal: by its head and entries, or by those that it began with, or by all its bytes.
pub fn is_its_journal(entry: &SealEntry, journal: &[u8]) -> bool
    ensures { result ≡ is_its_journal entry.now journal.now }
{
    match entry {
        SealEntry::Sealed(sealed) => is_sealed_one(&sealed.journal, journal),
        SealEntry::Other(imprint) => same_imprint(imprint, &imprint_of(journal)),
    }
}

/// Whether the journal is the sealed one, or where more lines may come begins with it.
fn is_sealed_one(sealed: &SealedJournal, journal: &[u8]) -> bool
    ensures { result ≡ is_sealed_one sealed.now journal.now }
{
    same_imprint(&sealed.imprint, &imprint_of(front_for(sealed, journal)))
}

/// Whether a text begins with as many bytes as were sealed, and these are the sealed ones.
pub fn begins_sealed(sealed: &SealedJournal, text: &[u8]) -> bool
    ensures { result ≡ begins_sealed sealed.now text.now }
{
    same_imprint(
        &sealed.imprint,
        &imprint_of(beginning(text, sealed.imprint.bytes)),
    )
}

pub(crate) fn same_digest(a: &Digest, b: &Digest) -> bool
    ensures { result ≡ same_text a.now b.now }
{
    a.bytes() == b.bytes()
}

/// Whether two imprints are the same: digest and count.
pub fn same_imprint(a: &Imprint, b: &Imprint) -> bool
    ensures { result ≡ same_imprint a.now b.now }
{
    same_digest(&a.digest, &b.digest) && a.bytes == b.bytes
}

pub(crate) fn same_date(a: &Date, b: &Date) -> bool
    ensures { result ≡ same_date a.now b.now }
{
    a.year == b.year && a.month == b.month && a.day == b.day
}
