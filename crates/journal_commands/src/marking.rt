//! What stands beside several journals whose bookings are carried to one, and the mark of each.
//! It knows no file, and nothing of what becomes of a mark.
ghost use Rattle.std.specs.Prelude.{◌≡◌, ◌≤◌, ◌+◌, ◌++◌, ◌∷◌, [], Some, IfOk, OnOk, length, map, option_map, true};
ghost use Rattle.std.specs.List.{list_all};
ghost use Rattle.std.specs.Vec.Iter.{into_iter_items, into_iter_len};
ghost use Rattle.seat_seal.specs.Rules.{is_imprint, is_sealed};
ghost use Rattle.seat_handing.specs.Marking.{mark_of};
ghost use Rattle.seat_handing.specs.Several.{SayCarried};
ghost use Rattle.journal_commands.specs.Marks.{bytes_in, mark_for, marks_for, wanted};

use airline_base::{Items, Memory};
use seat_files::SealFile;
use seat_handing::{Hand, OlderMark, older_mark};
use seat_seal::{Beside, Sealed, is_sealed};
use std::alloc::{AllocError, Global};
use std::vec::IntoIter;

/// The bytes of a seal as they are kept.
pub(crate) fn kept(text: Option<Vec<u8>>) -> Option<Items<u8>>
    ensures { result ≡ option_map (λ text. text.items) text }
{
    match text {
        Some(text) => Some(Items::from_vec(text)),
        None => None,
    }
}

/// The bytes of what stands there, none where nothing does.
pub(crate) fn bytes_in(text: &Option<Items<u8>>) -> &[u8]
    ensures { result.now ≡ bytes_in text.now }
{
    match text {
        Some(text) => text.as_slice(),
        None => &[],
    }
}

/// What stands beside each of the journals, where a seal must.
pub(crate) fn besides_of<'b>(
    alloc: Global,
    texts: &'b [Option<Items<u8>>],
) -> Result<Vec<Beside<'b>>, Memory>
    ensures wanted { IfOk result (λ besides. map wanted besides.items ≡ map Some texts.now) }
    ensures as_many { IfOk result (λ besides. length besides.items ≡ length texts.now) }
{
    let mut besides: Vec<Beside<'b>> = Vec::new(alloc);
    match add_besides(texts, &mut besides) {
        Ok(()) => Ok(besides),
        Err(_) => Err(Memory),
    }
}

/// Adds what stands beside each.
#[tactic(auto, using(crate::proofs::Marked::none_wanted, crate::proofs::Marked::more_wanted))]
fn add_besides<'b>(
    texts: &'b [Option<Items<u8>>],
    besides: &mut Vec<Beside<'b>>,
) -> Result<(), Memory>
    ensures wanted { OnOk result (map wanted besides.new.items ≡ map wanted besides.old.items ++ map Some texts.now) }
    ensures as_many { OnOk result (length besides.new.items ≡ length besides.old.items + length texts.now) }
{
    let Some((first, later)) = texts.split_first() else {
        return Ok(());
    };
    match add_beside(besides, beside_of(first)) {
        Ok(()) => {}
        Err(_) => return Err(Memory),
    }
    match add_besides(later, besides) {
        Ok(()) => Ok(()),
        Err(_) => Err(Memory),
    }
}

fn add_beside<'b>(besides: &mut Vec<Beside<'b>>, beside: Beside<'b>) -> Result<(), Memory>
    ensures ok { OnOk result (besides.new.items ≡ besides.old.items ++ beside.entry ∷ []) }
    ensures as_many { OnOk result (length besides.new.items ≡ length besides.old.items + 1) }
{
    match besides.push(beside) {
        Ok(()) => Ok(()),
        Err(_) => Err(Memory),
    }
}

fn beside_of(text: &Option<Items<u8>>) -> Beside<'_>
    ensures { wanted result ≡ Some text.now }
{
    let text = match text {
        Some(text) => Some(text.as_slice()),
        None => None,
    };
    Beside {
        text,
        is_wanted: true,
    }
}

/// What stands beside each of the journals that are open.
pub(crate) fn besides_in(alloc: Global, seals: &[SealFile]) -> Result<Vec<Beside<'_>>, Memory>
    ensures { IfOk result (λ besides. length besides.items ≡ length seals.now) }
{
    let mut besides = Vec::new(alloc);
    match add_open(seals, &mut besides) {
        Ok(()) => Ok(besides),
        Err(_) => Err(Memory),
    }
}

fn add_open<'b>(seals: &'b [SealFile], besides: &mut Vec<Beside<'b>>) -> Result<(), Memory>
    ensures { OnOk result (length besides.new.items ≡ length besides.old.items + length seals.now) }
{
    let Some((first, later)) = seals.split_first() else {
        return Ok(());
    };
    match add_beside(besides, first.as_beside()) {
        Ok(()) => {}
        Err(_) => return Err(Memory),
    }
    match add_open(later, besides) {
        Ok(()) => Ok(()),
        Err(_) => Err(Memory),
    }
}

/// Whether each keeps the rules of a seal.
pub(crate) fn all_sealed(knowns: &[Sealed]) -> bool
    ensures { result ≡ list_all is_sealed knowns.now }
{
    knowns.iter().all(|known| is_sealed(known))
}

/// The marks of these journals, in order, as their bookings are handed over to the one of this name and this text.
#[tactic(auto, using(crate::proofs::Marked::say_none, crate::proofs::Marked::all_marked))]
pub(crate) fn marks_of(
    alloc: Global,
    hands: &[Hand],
    knowns: Vec<Sealed>,
    texts: &[Option<Items<u8>>],
    name: &str,
    text: &[u8],
) -> Result<Vec<OlderMark>, Memory>
    requires fits { is_imprint (mark_of name.now text.now) ≡ true }
    requires known { list_all is_sealed knowns.items ≡ true }
    requires as_many { length hands.now ≡ length knowns.items }
    requires had { length hands.now ≤ length texts.now }
    ensures marks { IfOk result (λ marks. marks.items ≡ marks_for (mark_of name.now text.now) hands.now knowns.items texts.now) }
    ensures say { IfOk result (λ marks. SayCarried (mark_of name.now text.now) marks.items) }
    ensures as_many { IfOk result (λ marks. length marks.items ≡ length hands.now) }
{
    let mut marks: Vec<OlderMark> = Vec::new(alloc);
    let mut left = knowns.into_iter();
    match add_marks(alloc, hands, &mut left, texts, name, text, &mut marks) {
        Ok(()) => Ok(marks),
        Err(_) => Err(Memory),
    }
}

/// Adds the marks of those that are left.
#[tactic(auto, using(crate::proofs::Marked::first_keeps, crate::proofs::Marked::later_keep, crate::proofs::Marked::none_marked, crate::proofs::Marked::more_marked))]
fn add_marks(
    alloc: Global,
    hands: &[Hand],
    left: &mut IntoIter<Sealed, Global>,
    texts: &[Option<Items<u8>>],
    name: &str,
    text: &[u8],
    marks: &mut Vec<OlderMark>,
) -> Result<(), Memory>
    requires fits { is_imprint (mark_of name.now text.now) ≡ true }
    requires known { list_all is_sealed (into_iter_items left.old) ≡ true }
    requires as_many { length hands.now ≡ into_iter_len left.old }
    requires had { length hands.now ≤ length texts.now }
    requires say { SayCarried (mark_of name.now text.now) marks.old.items }
    ensures marks { OnOk result (marks.new.items
        ≡ marks.old.items ++ marks_for (mark_of name.now text.now) hands.now (into_iter_items left.old) texts.now) }
    ensures say { OnOk result (SayCarried (mark_of name.now text.now) marks.new.items) }
    ensures as_many { OnOk result (length marks.new.items ≡ length marks.old.items + length hands.now) }
{
    let Some((hand, later)) = hands.split_first() else {
        return Ok(());
    };
    let Some(known) = left.next() else {
        unreachable!()
    };
    let Some((had, others)) = texts.split_first() else {
        unreachable!()
    };
    match add_mark(alloc, *hand, known, bytes_in(had), name, text, marks) {
        Ok(()) => {}
        Err(_) => return Err(Memory),
    }
    match add_marks(alloc, later, left, others, name, text, marks) {
        Ok(()) => Ok(()),
        Err(_) => Err(Memory),
    }
}

/// Adds the mark of the journal of this entry, whose seal has these bytes.
#[tactic(auto, using(crate::proofs::Marked::say_more, crate::proofs::Marked::one_marked))]
fn add_mark(
    alloc: Global,
    hand: Hand,
    known: Sealed,
    had: &[u8],
    name: &str,
    text: &[u8],
    marks: &mut Vec<OlderMark>,
) -> Result<(), Memory>
    requires known { is_sealed known ≡ true }
    requires fits { is_imprint (mark_of name.now text.now) ≡ true }
    requires say { SayCarried (mark_of name.now text.now) marks.old.items }
    ensures mark { OnOk result (marks.new.items ≡ marks.old.items ++ mark_for (mark_of name.now text.now) hand known had.now ∷ []) }
    ensures say { OnOk result (SayCarried (mark_of name.now text.now) marks.new.items) }
    ensures as_many { OnOk result (length marks.new.items ≡ length marks.old.items + 1) }
{
    let Ok(before) = copied(alloc, had) else {
        return Err(Memory);
    };
    let Ok(mark) = older_mark(alloc, hand, known, before, name, text) else {
        return Err(Memory);
    };
    match push_mark(marks, mark) {
        Ok(()) => Ok(()),
        Err(_) => Err(Memory),
    }
}

fn push_mark(marks: &mut Vec<OlderMark>, mark: OlderMark) -> Result<(), Memory>
    ensures ok { OnOk result (marks.new.items ≡ marks.old.items ++ mark ∷ []) }
    ensures as_many { OnOk result (length marks.new.items ≡ length marks.old.items + 1) }
{
    match marks.push(mark) {
        Ok(()) => Ok(()),
        Err(_) => Err(Memory),
    }
}

fn copied(alloc: Global, bytes: &[u8]) -> Result<Items<u8>, AllocError>
    ensures { IfOk result (λ items. items ≡ bytes.now) }
{
    let mut copy = Vec::new(alloc);
    copy.extend_from_slice(bytes)?;
    Ok(Items::from_vec(copy))
}
