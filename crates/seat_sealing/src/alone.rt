//! The seal of a journal whose file is not replaced: put in place ahead of the first line that is added to it, and once it is ended.
//! It knows seals and a file that is replaced whole, and nothing of the journal's own file.
ghost use Rattle.std.specs.Prelude.{◌≡◌, List, OnErr, OnOk, true, ℕ};
ghost use Rattle.airline_base.specs.Noting.{noted};
ghost use Rattle.seat_disk.specs.Keeping.{KeepsNoMore};
ghost use Rattle.seat_disk.specs.Leaving.{OldOr, Only, replaced_by};
ghost use Rattle.seat_seal.specs.declared.seal.JournalState.TheVariants.{Open};
ghost use Rattle.seat_seal.specs.Imprints.{imprint_of};
ghost use Rattle.seat_seal.specs.Rules.{is_sealed};
ghost use Rattle.seat_sealing.specs.Pairs.{Names, NamesEach};
ghost use Rattle.seat_sealing.specs.Steps.{alone_text};

use airline_base::WriteFault;
use seat_disk::{Replaced, replace_whole};
use seat_seal::{SealText, Sealed, one_seal_text};

/// Puts the seal of this entry alone in place of what the file has, and syncs it. A crash at any moment leaves what it would have left
/// before, or that seal, whole, and keeps nothing of what stood there. A reader finds the entry in it for the journal that was sealed, and where the entry is of an open one for each journal
/// that begins with that one.
pub fn put_alone<K: Replaced>(seal: &mut K, entry: &Sealed) -> Result<(), WriteFault>
    requires rules { is_sealed entry.now ≡ true }
    ensures ok { OnOk result (K.named seal.new ≡ replaced_by (K.named seal.old) (alone_text entry.now)) }
    ensures kept { OnOk result (Only (alone_text entry.now) (K.may_leave seal.new)) }
    ensures crash { OldOr (alone_text entry.now) (K.may_leave seal.old) (K.may_leave seal.new) }
    ensures names { Names (alone_text entry.now) entry.now.journal.imprint }
    ensures each { (begun : List ℕ) → entry.now.journal.state ≡ Open → entry.now.journal.imprint ≡ imprint_of begun
        → NamesEach (alone_text entry.now) begun }
    ensures only { KeepsNoMore (K.kept_may_leave seal.old) (K.kept_may_leave seal.new) }
    ensures counted { OnOk result (K.failure_count seal.new ≡ K.failure_count seal.old) }
    ensures device { OnErr result (K.failure_count seal.new ≡ noted (K.failure_count seal.old)) }
{
    let text = text_of(entry);
    replace_whole(seal, text.as_slice(), false)
}

#[tactic(auto, using(crate::proofs::Denials::one_names, crate::proofs::Denials::one_names_each))]
fn text_of(entry: &Sealed) -> SealText
    requires rules { is_sealed entry.now ≡ true }
    ensures text { result.items ≡ alone_text entry.now }
    ensures names { Names (alone_text entry.now) entry.now.journal.imprint }
    ensures each { (begun : List ℕ) → entry.now.journal.state ≡ Open → entry.now.journal.imprint ≡ imprint_of begun
        → NamesEach (alone_text entry.now) begun }
{
    one_seal_text(entry)
}
