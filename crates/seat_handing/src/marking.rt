//! The mark in a journal's own entry: that its bookings were carried to another journal, of this name and this text, or to several that share both.
ghost use Rattle.std.specs.Prelude.{◌≡◌, ◌<◌, ◌^◌, List, [], ◌∷◌, ◌++◌, length, true};
ghost use Rattle.seat_seal.specs.Imprints.{HasTaken};
ghost use Rattle.seat_seal.specs.Rules.{is_imprint};
ghost use Rattle.seat_seal.specs.Text.{newline};
ghost use Rattle.seat_handing.specs.Marking.{mark_of, marked};

use seat_seal::{Imprint, Sealed, Tally};

/// The most bytes that a mark counts, ten digits of them.
const MOST_BYTES: usize = 9_999_999_999;

/// Whether a mark may count as many bytes as this name and this text have.
#[tactic(auto, using(crate::proofs::Counted::long_name, crate::proofs::Counted::counts))]
pub fn may_be_marked(name: &str, text: &[u8]) -> bool
    ensures { result ≡ is_imprint (mark_of name.now text.now) }
{
    if name.len() >= MOST_BYTES {
        return false;
    }
    text.len() < MOST_BYTES - name.len()
}

/// What a mark has of the journal of this name and this text: the imprint of the name, an LF, and the text.
#[tactic(auto, using(crate::proofs::Counted::may_take_text, crate::proofs::Counted::mark_is))]
pub(crate) fn mark_of(name: &str, text: &[u8]) -> Imprint
    requires fits { is_imprint (mark_of name.now text.now) ≡ true }
    ensures { result ≡ mark_of name.now text.now }
{
    let mut tally = tally_of_line(name, text);
    tally.take(text);
    tally.imprint()
}

/// A tally that has taken the name and an LF.
#[tactic(auto, using(crate::proofs::Counted::may_take_line, crate::proofs::Counted::takes))]
fn tally_of_line(name: &str, text: &[u8]) -> Tally
    requires fits { is_imprint (mark_of name.now text.now) ≡ true }
    ensures { HasTaken result (name.now ++ newline ∷ []) }
{
    let _text = text;
    let mut tally = tally_of(name);
    tally.take(b"\n");
    tally
}

/// A tally that has taken these bytes.
#[tactic(auto, using(crate::proofs::Counted::may_take_first, crate::proofs::Counted::takes_first))]
fn tally_of(name: &str) -> Tally
    ensures { HasTaken result name.now }
{
    let mut tally = Tally::new();
    tally.take(name.as_bytes());
    tally
}

/// The same entry, of a journal whose bookings are carried to the one of this mark.
pub fn marked(entry: Sealed, mark: Imprint) -> Sealed
    ensures { result ≡ marked entry mark }
{
    let mut entry = entry;
    entry.era = entry.era.carried_to(mark);
    entry
}
