//! Whether the bookings of a journal may be carried to a newer one.
//! It knows the mark of an entry, and the bytes that stand under the newer journal's name and beside it.
ghost use Rattle.std.specs.Prelude.{◌≡◌, Err, Ok, Some, if◌then◌else◌, option_map};
ghost use Rattle.seat_sealing.specs.Older.{IsSealIn};
ghost use Rattle.seat_handing.specs.Deciding.{IsHand, finish_for, hand_for, is_mark_of, is_sealed_alone, is_whole, may_be_put, names_alone, stands};

use crate::marking::{mark_of, may_be_marked};
use seat_seal::{Imprint, Seal, SealEntry, Sealed, front_of, imprint_of, read_seal, same_imprint};

/// What is done with the mark as the newer journal is written.
#[derive(Clone, Copy)]
pub enum Hand {
    /// The bookings were not carried yet: the older journal is marked.
    Mark,
    /// They were carried to this very journal under this very name, or to all the parts of which it is one: it is to be finished.
    Finish,
    /// They were carried to another one, which doesn't stand there, and this one is to take its place.
    Anew,
}

/// Why nothing may be written.
#[derive(Clone, Copy)]
pub enum HandRefusal {
    /// The bookings were carried to another journal, and it isn't said that this one is to take its place, or that one stands there.
    Unfinished,
    /// Other bytes stand under the newer journal's name.
    New,
}

/// What is done where the bookings of a journal of this entry are carried to the newer one of this text, as the bytes `there` stand under that one's own
/// name, and a seal of the text `beside`: each `None` where no file is.
///
/// The older journal's mark is of `name` and `whole`. Where the newer journal takes all bookings those are its own name and the same bytes as `text`. Where
/// it is one of several that each take a part, `name` is one for all of them and `whole` a text that all have, so that each part finds the same mark.
///
/// Nothing is to be done, `None`, where the bookings were carried to this very whole, and the newer journal and its seal are whole. Another one to which
/// they were carried is given up only where `anew` says so, and not where all of it stands under the newer journal's name, which no part of several is.
/// Nothing but these very bytes is ever replaced.
#[tactic(auto, using(crate::proofs::Hands::hand_is))]
pub fn may_hand(
    known: &Sealed,
    name: &str,
    whole: &[u8],
    there: Option<&[u8]>,
    beside: Option<&[u8]>,
    text: &[u8],
    anew: bool,
) -> Result<Option<Hand>, HandRefusal>
    ensures { IsHand known.now.era.carried name.now whole.now (option_map (λ bytes. bytes.now) there.entry) (option_map (λ text. text.now) beside.entry)
        text.now anew result }
{
    let seal = seal_in(beside);
    hand_for(&known.era.carried, name, whole, there, &seal, text, anew)
}

#[tactic(auto, using(crate::proofs::Hands::read_in))]
pub(crate) fn seal_in(text: Option<&[u8]>) -> Option<Seal>
    ensures { IsSealIn (option_map (λ text. text.now) text.entry) result }
{
    match text {
        Some(text) => read_seal(text),
        None => None,
    }
}

pub(crate) fn hand_for(
    carried: &Option<Imprint>,
    name: &str,
    whole: &[u8],
    there: Option<&[u8]>,
    seal: &Option<Seal>,
    text: &[u8],
    anew: bool,
) -> Result<Option<Hand>, HandRefusal>
    ensures { result ≡ hand_for carried.now name.now whole.now (option_map (λ bytes. bytes.now) there.entry) seal.now text.now anew }
{
    match carried {
        Some(mark) => hand_behind(mark, name, whole, there, seal, text, anew),
        None => put_as(Some(Hand::Mark), there, text),
    }
}

/// The same behind this mark.
fn hand_behind(
    mark: &Imprint,
    name: &str,
    whole: &[u8],
    there: Option<&[u8]>,
    seal: &Option<Seal>,
    text: &[u8],
    anew: bool,
) -> Result<Option<Hand>, HandRefusal>
    ensures { result ≡ hand_for (Some mark.now) name.now whole.now (option_map (λ bytes. bytes.now) there.entry) seal.now text.now anew }
{
    if is_mark_of(mark, name, whole) {
        return put_as(finish_for(there, seal, text), there, text);
    }
    if !anew || stands(mark, name, there) {
        return Err(HandRefusal::Unfinished);
    }
    put_as(Some(Hand::Anew), there, text)
}

/// What is left to be done of a journal that was begun.
fn finish_for(there: Option<&[u8]>, seal: &Option<Seal>, text: &[u8]) -> Option<Hand>
    ensures { result ≡ finish_for (option_map (λ bytes. bytes.now) there.entry) seal.now text.now }
{
    if is_whole(there, seal, text) {
        None
    } else {
        Some(Hand::Finish)
    }
}

fn is_whole(there: Option<&[u8]>, seal: &Option<Seal>, text: &[u8]) -> bool
    ensures { result ≡ is_whole (option_map (λ bytes. bytes.now) there.entry) seal.now text.now }
{
    match there {
        Some(bytes) => bytes == text && is_sealed_alone(seal, text),
        None => false,
    }
}

fn is_sealed_alone(seal: &Option<Seal>, text: &[u8]) -> bool
    ensures { result ≡ is_sealed_alone seal.now text.now }
{
    match seal {
        Some(seal) => names_alone(&seal.first, &seal.second, text),
        None => false,
    }
}

/// Whether this is the seal of the newer journal and of no other.
fn names_alone(first: &SealEntry, second: &Option<SealEntry>, text: &[u8]) -> bool
    ensures { result ≡ names_alone first.now second.now text.now }
{
    match first {
        SealEntry::Sealed(entry) => match second {
            Some(_) => false,
            None => same_imprint(&entry.journal.imprint, &imprint_of(front_of(text))),
        },
        SealEntry::Other(_) => false,
    }
}

/// So, unless other bytes would be lost.
fn put_as(
    hand: Option<Hand>,
    there: Option<&[u8]>,
    text: &[u8],
) -> Result<Option<Hand>, HandRefusal>
    ensures { result ≡ (if may_be_put (option_map (λ bytes. bytes.now) there.entry) text.now then Ok hand else Err HandRefusal.New) }
{
    if may_be_put(there, text) {
        return Ok(hand);
    }
    Err(HandRefusal::New)
}

fn may_be_put(there: Option<&[u8]>, text: &[u8]) -> bool
    ensures { result ≡ may_be_put (option_map (λ bytes. bytes.now) there.entry) text.now }
{
    let Some(bytes) = there else {
        return true;
    };
    match bytes {
        [] => true,
        [_, ..] => bytes == text,
    }
}

/// Whether the journal that a mark names by itself stands there, under this name.
fn stands(mark: &Imprint, name: &str, there: Option<&[u8]>) -> bool
    ensures { result ≡ stands mark.now name.now (option_map (λ bytes. bytes.now) there.entry) }
{
    match there {
        Some(bytes) => is_mark_of(mark, name, bytes),
        None => false,
    }
}

/// Whether the mark is that of this name and this whole text.
fn is_mark_of(mark: &Imprint, name: &str, whole: &[u8]) -> bool
    ensures { result ≡ is_mark_of mark.now name.now whole.now }
{
    if !may_be_marked(name, whole) {
        return false;
    }
    same_imprint(mark, &mark_of(name, whole))
}
