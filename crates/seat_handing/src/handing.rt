//! A journal's bookings handed over to another: the mark in the older one's seal, the newer journal and its seal, and what is said of it.
//! It knows nothing of how the newer journal's text comes about.
ghost use Rattle.std.specs.Prelude.{◌≡◌, ◌≢◌, ◌⊎◌, ℕ, IfErr, IsTrue, List, OnOk, true};
ghost use Rattle.seat_disk.specs.Keeping.{KeepsNoMore};
ghost use Rattle.seat_disk.specs.Syncs.{AllSynced, AreSynced, NeitherUnsynced, NoneUnsynced, SameNames};
ghost use Rattle.seat_seal.specs.Fronts.{front_of};
ghost use Rattle.seat_seal.specs.Imprints.{imprint_of};
ghost use Rattle.seat_seal.specs.Reading.{two_entries};
ghost use Rattle.seat_seal.specs.Rules.{is_imprint, is_seal, is_sealed};
ghost use Rattle.seat_seal.specs.declared.seal.JournalState.TheVariants.{Open};
ghost use Rattle.seat_seal.specs.declared.seal.SealEntry.TheVariants.{Sealed as IsSealed};
ghost use Rattle.seat_sealing.specs.Pairs.{Names, NamesEach, NoneDenied};
ghost use Rattle.seat_sealing.specs.Steps.{alone_text, both_text};
ghost use Rattle.hand_steps.specs.Handing.{AreHanded, AreHandedOver, InHandOrder, OldOrBack};
ghost use Rattle.hand_steps.specs.Stopping.{HasFailedBack, HasNoneBack, IsPutBack, IsTakenBack, IsUnfinished, IsUnsaid};
ghost use Rattle.seat_handing.specs.Handing.{is_taken_back, put_back};
ghost use Rattle.seat_handing.specs.Marking.{NeverBoth, SaysCarried, mark_of, mark_text};

use crate::deciding::Hand;
use crate::marking::{mark_of, marked};
use airline_base::NotedWrite;
use hand_steps::{HandFault, hand_in_order};
use seat_disk::Replaced;
use seat_seal::{SealEntry, SealText, Sealed, one_seal_text};
use seat_sealing::seal_texts;

/// Hands the bookings of the journal of this entry, whose seal has the text `before`, over to the one with this text and entry, under whose name
/// stands the journal of the `older` entry. First the mark goes into the older journal's seal, on the disk, also where it stands there already:
/// a crash may take what was never synced. Then a seal that names both what stood there and the newer journal, the newer journal, and its seal alone; and
/// last what is said of it. Nothing is kept of any file.
///
/// The mark is of `name` and `whole`: where the newer journal takes all bookings, of its own name and the same bytes as `text`; where it is one of several
/// that each take a part, of a name for all of them and of a text that all have, as the seal of the journal that they would be together. What is put is
/// `text`.
///
/// Where a file fails ahead of the newer journal's name the mark is taken back, unless another one stood there before.
/// At no moment does a crash leave the newer journal beside a seal of the older one without the mark, unless it stood there before.
pub fn hand_over<S: Replaced, J: Replaced, K: Replaced, W: NotedWrite>(
    hand: Hand,
    known: Sealed,
    before: &[u8],
    older: SealEntry,
    newer: Sealed,
    name: &str,
    whole: &[u8],
    text: &[u8],
    report: &[u8],
    seal: &mut S,
    journal: &mut J,
    new_seal: &mut K,
    out: &mut W,
) -> Result<(), HandFault>
    requires known { is_sealed known ≡ true }
    requires rules { IsTrue (is_seal (two_entries older (IsSealed newer))) }
    requires fits { is_imprint (mark_of name.now whole.now) ≡ true }
    requires imprint { newer.journal.imprint ≡ imprint_of (front_of text.now) }
    ensures ok { OnOk result (AreHandedOver
        (AreHanded S.failure_count S.named S.may_leave (mark_text known (mark_of name.now whole.now)) text.now (alone_text newer)
        seal.old seal.new (J.named journal.old) (J.named journal.new) (K.named new_seal.old) (K.named new_seal.new)
        (J.may_leave journal.new) (K.may_leave new_seal.new))
        report.now (W.contents out.old) (W.contents out.new)) }
    // Whatever a crash leaves: both are never sold from.
    ensures never { NeverBoth (mark_of name.now whole.now) (J.may_leave journal.old) (J.may_leave journal.new) (S.may_leave seal.new) }
    ensures order { InHandOrder (mark_text known (mark_of name.now whole.now)) (put_back hand before.now) (both_text older newer) text.now
        (alone_text newer) (S.may_leave seal.old) (J.may_leave journal.old) (K.may_leave new_seal.old)
        (S.may_leave seal.new) (J.may_leave journal.new) (K.may_leave new_seal.new) }
    // The seal with the mark has the older journal's entry.
    ensures names { Names (mark_text known (mark_of name.now whole.now)) known.journal.imprint }
    ensures each { (begun : List ℕ) → known.journal.state ≡ Open → known.journal.imprint ≡ imprint_of begun
        → NamesEach (mark_text known (mark_of name.now whole.now)) begun }
    // The newer journal's seal has its entry.
    ensures sealed { OnOk result (NoneDenied (J.may_leave journal.new) (K.may_leave new_seal.new)) }
    ensures taken { IfErr result (λ f. f ≡ HandFault.TakenBack
        → IsTakenBack S.failure_count S.named S.may_leave J.failure_count J.named J.may_leave K.failure_count K.named K.may_leave
        (mark_text known (mark_of name.now whole.now)) (put_back hand before.now) (both_text older newer)
        seal.old seal.new journal.old journal.new new_seal.old new_seal.new) }
    ensures unfinished { IfErr result (λ f. f ≡ HandFault.Unfinished
        → IsUnfinished S.failure_count S.named S.may_leave J.failure_count J.named J.may_leave K.failure_count K.named K.may_leave
        (mark_text known (mark_of name.now whole.now)) (put_back hand before.now) (both_text older newer) text.now (alone_text newer)
        seal.old seal.new journal.old journal.new new_seal.old new_seal.new) }
    ensures unsaid { IfErr result (λ f. f ≡ HandFault.Unsaid → IsUnsaid
        (AreHanded S.failure_count S.named S.may_leave (mark_text known (mark_of name.now whole.now)) text.now (alone_text newer)
        seal.old seal.new (J.named journal.old) (J.named journal.new) (K.named new_seal.old) (K.named new_seal.new)
        (J.may_leave journal.new) (K.may_leave new_seal.new))
        W.failure_count W.contents report.now out.old out.new) }
    ensures silent { IfErr result (λ f. f ≢ HandFault.Unsaid → out.new ≡ out.old) }
    ensures only { KeepsNoMore (S.kept_may_leave seal.old) (S.kept_may_leave seal.new) }
    ensures only_new { KeepsNoMore (J.kept_may_leave journal.old) (J.kept_may_leave journal.new)
        × KeepsNoMore (K.kept_may_leave new_seal.old) (K.kept_may_leave new_seal.new) }
    // Over files of which no bytes are known too: no file gets a name ahead of a sync of it, the newer journal none ahead of the mark, and nothing is
    // said ahead of all.
    ensures synced { OnOk result (AllSynced (S.synced seal.new) × AreSynced (J.synced journal.new) (K.synced new_seal.new)) }
    ensures ahead { NoneUnsynced (S.synced seal.old) (S.synced seal.new)
        × NeitherUnsynced (J.synced journal.old) (J.synced journal.new) (K.synced new_seal.old) (K.synced new_seal.new) }
    ensures first { SameNames (J.synced journal.old) (J.synced journal.new) ⊎ AllSynced (S.synced seal.new) }
    ensures same { IfErr result (λ f. f ≡ HandFault.TakenBack → SameNames (J.synced journal.old) (J.synced journal.new)) }
    ensures told { (out.new ≡ out.old)
        ⊎ (AllSynced (S.synced seal.new) × AreSynced (J.synced journal.new) (K.synced new_seal.new)) }
{
    let mark = text_of_mark(known, name, whole);
    let texts = seal_texts(older, newer);
    hand_in_order(
        is_taken_back(hand),
        before,
        mark.as_slice(),
        texts.both.as_slice(),
        text,
        texts.alone.as_slice(),
        report,
        seal,
        journal,
        new_seal,
        out,
    )
}

/// The text of the older journal's seal with the mark of this name and this whole text.
#[tactic(auto, using(crate::proofs::Marks::says_carried, crate::proofs::Marks::names, crate::proofs::Marks::names_each))]
pub(crate) fn text_of_mark(known: Sealed, name: &str, whole: &[u8]) -> SealText
    requires known { is_sealed known ≡ true }
    requires fits { is_imprint (mark_of name.now whole.now) ≡ true }
    ensures text { result.items ≡ mark_text known (mark_of name.now whole.now) }
    ensures says { SaysCarried (mark_of name.now whole.now) (mark_text known (mark_of name.now whole.now)) }
    ensures names { Names (mark_text known (mark_of name.now whole.now)) known.journal.imprint }
    ensures each { (begun : List ℕ) → known.journal.state ≡ Open → known.journal.imprint ≡ imprint_of begun
        → NamesEach (mark_text known (mark_of name.now whole.now)) begun }
{
    let entry = marked(known, mark_of(name, whole));
    one_seal_text(&entry)
}

/// Puts back what the older journal's seal had, unless that was a mark.
pub(crate) fn take_back<S: Replaced>(hand: Hand, before: &[u8], seal: &mut S) -> HandFault
    ensures taken { result ≡ HandFault.TakenBack
        → IsPutBack S.failure_count S.named S.may_leave (put_back hand before.now) seal.old seal.new }
    ensures left { result ≡ HandFault.Unfinished
        → HasNoneBack (put_back hand before.now) seal.old seal.new ⊎ HasFailedBack S.failure_count S.named (put_back hand before.now) seal.old seal.new }
    ensures kind { result ≢ HandFault.Unsaid }
    ensures crash { OldOrBack (put_back hand before.now) (S.may_leave seal.old) (S.may_leave seal.new) }
    ensures only { KeepsNoMore (S.kept_may_leave seal.old) (S.kept_may_leave seal.new) }
    ensures unsynced { NoneUnsynced (S.synced seal.old) (S.synced seal.new) }
{
    hand_steps::take_back(is_taken_back(hand), before, seal)
}

/// Whether the mark is taken back where the newer journal fails: not where there was one already.
fn is_taken_back(hand: Hand) -> bool
    ensures { result ≡ is_taken_back hand }
{
    match hand {
        Hand::Mark => true,
        Hand::Finish | Hand::Anew => false,
    }
}
