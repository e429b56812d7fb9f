//! The bookings of several journals handed over to one: the mark in each one's seal, in order, and behind the last one the newer journal.
//! It knows how one is handed over, and nothing of which flights a journal has.
ghost use Rattle.std.specs.Prelude.{◌≡◌, ◌≢◌, ◌⊎◌, ℕ, IfErr, IfOk, IsTrue, List, OnOk, length, true};
ghost use Rattle.seat_disk.specs.Leaving.{Within};
ghost use Rattle.seat_disk.specs.Syncs.{AllSynced, AreSynced, NeitherUnsynced, NoneUnsynced, SameNames};
ghost use Rattle.seat_disk.specs.Keeping.{KeepsNoMore};
ghost use Rattle.seat_seal.specs.Fronts.{front_of};
ghost use Rattle.seat_seal.specs.Imprints.{imprint_of};
ghost use Rattle.seat_seal.specs.Reading.{two_entries};
ghost use Rattle.seat_seal.specs.Rules.{is_imprint, is_seal, is_sealed};
ghost use Rattle.seat_seal.specs.declared.seal.SealEntry.TheVariants.{Sealed as IsSealed};
ghost use Rattle.seat_sealing.specs.Pairs.{Names, NamesEach, NoneDenied};
ghost use Rattle.seat_sealing.specs.Steps.{alone_text, both_text};
ghost use Rattle.hand_steps.specs.Handing.{AreHanded, AreHandedOver};
ghost use Rattle.hand_steps.specs.Stopping.{IsTakenBack, IsUnfinished, IsUnsaid};
ghost use Rattle.seat_handing.specs.Handing.{put_back};
ghost use Rattle.seat_handing.specs.Marking.{NeverBoth, SaysCarried, mark_of, mark_text};
ghost use Rattle.seat_handing.specs.Several.{AreAllHanded, AreBack, AreMarked, AreStaying, AreStopped, AreTakenBack, AreUnfinished, AreUnmarked, AreUntouched, EachKept, EachSynced, EachUnsynced, NeverAny, SayCarried};

use crate::deciding::Hand;
use crate::handing::{hand_over, take_back, text_of_mark};
use airline_base::{Items, Memory, NotedWrite};
use hand_steps::{HandFault, put};
use seat_disk::Replaced;
use seat_seal::{SealEntry, Sealed};
use std::alloc::{AllocError, Global};

/// The mark of one of several older journals, and what is done with it.
#[derive(Drop)]
pub struct OlderMark {
    pub hand: Hand,
    /// What the journal's seal has.
    pub before: Items<u8>,
    /// The seal with the mark.
    pub mark: Items<u8>,
}

/// The mark of the journal of this entry, whose seal has the text `before`, as its bookings are handed over to the newer journal, or the newer journals, of
/// this name and this whole text.
#[tactic(auto, using(crate::proofs::Olders::says_copied))]
pub fn older_mark(
    alloc: Global,
    hand: Hand,
    known: Sealed,
    before: Items<u8>,
    name: &str,
    whole: &[u8],
) -> Result<OlderMark, Memory>
    requires known { is_sealed known ≡ true }
    requires fits { is_imprint (mark_of name.now whole.now) ≡ true }
    ensures hand { IfOk result (λ m. m.hand ≡ hand) }
    ensures before { IfOk result (λ m. m.before ≡ before) }
    ensures mark { IfOk result (λ m. m.mark ≡ mark_text known (mark_of name.now whole.now)) }
    ensures says { IfOk result (λ m. SaysCarried (mark_of name.now whole.now) m.mark) }
    ensures names { Names (mark_text known (mark_of name.now whole.now)) known.journal.imprint }
{
    let mark = text_of_mark(known, name, whole);
    match copied(alloc, mark.as_slice()) {
        Ok(mark) => Ok(OlderMark { hand, before, mark }),
        Err(_) => Err(Memory),
    }
}

fn copied(alloc: Global, text: &[u8]) -> Result<Items<u8>, AllocError>
    ensures { IfOk result (λ items. items ≡ text.now) }
{
    let mut bytes = Vec::new(alloc);
    bytes.extend_from_slice(text)?;
    Ok(Items::from_vec(bytes))
}

/// Hands the bookings of several journals over to one: the seals of all but the last get their `marks`, in order, each on the disk, and behind them the
/// last one's and the newer journal are put as [`hand_over`] puts them, of which all else is said. The last one's mark is of `name` and `whole`, as there, and
/// so are the `marks`. What is put is `text`.
///
/// Where a file fails ahead of the newer journal's name, each mark of a journal that had none is taken back, the last one first; one that can't be, or a
/// journal that had a mark, leaves those ahead of it marked.
/// At no moment does a crash leave the newer journal beside a seal of any of the older ones without the mark, unless it stood there before.
pub fn hand_over_several<S: Replaced, J: Replaced, K: Replaced, W: NotedWrite>(
    marks: &[OlderMark],
    seals: &mut [S],
    hand: Hand,
    known: Sealed,
    before: &[u8],
    older: SealEntry,
    newer: Sealed,
    name: &str,
    whole: &[u8],
    text: &[u8],
    report: &[u8],
    seal: &mut S,
    journal: &mut J,
    new_seal: &mut K,
    out: &mut W,
) -> Result<(), HandFault>
    requires known { is_sealed known ≡ true }
    requires rules { IsTrue (is_seal (two_entries older (IsSealed newer))) }
    requires fits { is_imprint (mark_of name.now whole.now) ≡ true }
    requires imprint { newer.journal.imprint ≡ imprint_of (front_of text.now) }
    requires as_many { length marks.now ≡ length seals.old }
    requires say { SayCarried (mark_of name.now whole.now) marks.now }
    ensures ok { OnOk result (AreAllHanded S.failure_count S.named S.may_leave marks.now seals.old seals.new (AreHandedOver
        (AreHanded S.failure_count S.named S.may_leave (mark_text known (mark_of name.now whole.now)) text.now (alone_text newer)
        seal.old seal.new (J.named journal.old) (J.named journal.new) (K.named new_seal.old) (K.named new_seal.new)
        (J.may_leave journal.new) (K.may_leave new_seal.new))
        report.now (W.contents out.old) (W.contents out.new))) }
    // Whatever a crash leaves: the newer journal and any of the older ones are never sold from both.
    ensures never { NeverBoth (mark_of name.now whole.now) (J.may_leave journal.old) (J.may_leave journal.new) (S.may_leave seal.new) }
    ensures never_any { NeverAny (mark_of name.now whole.now) (J.may_leave journal.old) (J.may_leave journal.new) S.may_leave seals.new }
    ensures sealed { OnOk result (NoneDenied (J.may_leave journal.new) (K.may_leave new_seal.new)) }
    ensures taken { IfErr result (λ f. f ≡ HandFault.TakenBack
        → AreTakenBack S.failure_count S.named S.may_leave marks.now seals.old seals.new
        (AreUntouched seal.old seal.new journal.old journal.new new_seal.old new_seal.new)
        (IsTakenBack S.failure_count S.named S.may_leave J.failure_count J.named J.may_leave K.failure_count K.named K.may_leave
        (mark_text known (mark_of name.now whole.now)) (put_back hand before.now) (both_text older newer)
        seal.old seal.new journal.old journal.new new_seal.old new_seal.new)) }
    ensures unfinished { IfErr result (λ f. f ≡ HandFault.Unfinished
        → AreUnfinished S.failure_count S.named S.may_leave marks.now seals.old seals.new
        (AreUntouched seal.old seal.new journal.old journal.new new_seal.old new_seal.new)
        (IsTakenBack S.failure_count S.named S.may_leave J.failure_count J.named J.may_leave K.failure_count K.named K.may_leave
        (mark_text known (mark_of name.now whole.now)) (put_back hand before.now) (both_text older newer)
        seal.old seal.new journal.old journal.new new_seal.old new_seal.new)
        (IsUnfinished S.failure_count S.named S.may_leave J.failure_count J.named J.may_leave K.failure_count K.named K.may_leave
        (mark_text known (mark_of name.now whole.now)) (put_back hand before.now) (both_text older newer) text.now (alone_text newer)
        seal.old seal.new journal.old journal.new new_seal.old new_seal.new)) }
    ensures unsaid { IfErr result (λ f. f ≡ HandFault.Unsaid → AreAllHanded S.failure_count S.named S.may_leave marks.now seals.old seals.new (IsUnsaid
        (AreHanded S.failure_count S.named S.may_leave (mark_text known (mark_of name.now whole.now)) text.now (alone_text newer)
        seal.old seal.new (J.named journal.old) (J.named journal.new) (K.named new_seal.old) (K.named new_seal.new)
        (J.may_leave journal.new) (K.may_leave new_seal.new))
        W.failure_count W.contents report.now out.old out.new)) }
    ensures silent { IfErr result (λ f. f ≢ HandFault.Unsaid → out.new ≡ out.old) }
    ensures within { IfErr result (λ f. f ≡ HandFault.TakenBack → Within (J.may_leave journal.new) (J.may_leave journal.old)) }
    ensures only { EachKept S.kept_may_leave seals.old seals.new }
    ensures only_last { KeepsNoMore (S.kept_may_leave seal.old) (S.kept_may_leave seal.new) }
    ensures only_new { KeepsNoMore (J.kept_may_leave journal.old) (J.kept_may_leave journal.new)
        × KeepsNoMore (K.kept_may_leave new_seal.old) (K.kept_may_leave new_seal.new) }
    // Over files of which no bytes are known too: the newer journal gets its name behind each mark, and nothing is said ahead of all.
    ensures synced { OnOk result (EachSynced S.synced seals.new) }
    ensures synced_last { OnOk result (AllSynced (S.synced seal.new) × AreSynced (J.synced journal.new) (K.synced new_seal.new)) }
    ensures synced_unsaid { IfErr result (λ f. f ≡ HandFault.Unsaid → EachSynced S.synced seals.new) }
    ensures ahead { EachUnsynced S.synced seals.old seals.new }
    ensures ahead_last { NoneUnsynced (S.synced seal.old) (S.synced seal.new)
        × NeitherUnsynced (J.synced journal.old) (J.synced journal.new) (K.synced new_seal.old) (K.synced new_seal.new) }
    ensures first { SameNames (J.synced journal.old) (J.synced journal.new) ⊎ EachSynced S.synced seals.new }
    ensures first_last { SameNames (J.synced journal.old) (J.synced journal.new) ⊎ AllSynced (S.synced seal.new) }
{
    match mark_all(marks, seals) {
        Ok(()) => {}
        Err(fault) => return Err(fault),
    }
    let outcome = hand_over(
        hand, known, before, older, newer, name, whole, text, report, seal, journal, new_seal, out,
    );
    match outcome {
        Ok(()) => Ok(()),
        Err(fault) => match fault {
            HandFault::TakenBack => Err(take_back_all(marks, seals)),
            HandFault::Unfinished => Err(HandFault::Unfinished),
            HandFault::Unsaid => Err(HandFault::Unsaid),
        },
    }
}

/// Marks these seals in order, each on the disk. Where one fails the marks of journals that had none are taken back, the last one first.
#[tactic(auto, using(crate::proofs::Olders::as_many_later))]
fn mark_all<S: Replaced>(marks: &[OlderMark], seals: &mut [S]) -> Result<(), HandFault>
    requires as_many { length marks.now ≡ length seals.old }
    ensures ok { OnOk result (AreMarked S.failure_count S.named S.may_leave marks.now seals.old seals.new) }
    ensures taken { IfErr result (λ f. f ≡ HandFault.TakenBack
        → AreUnmarked S.failure_count S.named S.may_leave marks.now seals.old seals.new) }
    ensures left { IfErr result (λ f. f ≡ HandFault.Unfinished
        → AreStopped S.failure_count S.named S.may_leave marks.now seals.old seals.new) }
    ensures kind { IfErr result (λ f. f ≢ HandFault.Unsaid) }
    ensures only { EachKept S.kept_may_leave seals.old seals.new }
    ensures synced { OnOk result (EachSynced S.synced seals.new) }
    ensures ahead { EachUnsynced S.synced seals.old seals.new }
{
    let Some((first, later)) = marks.split_first() else {
        return Ok(());
    };
    let Some((next, others)) = seals.split_first_mut() else {
        unreachable!()
    };
    if put(next, first.mark.as_slice()).is_err() {
        return Err(take_back(first.hand, first.before.as_slice(), next));
    }
    match mark_all(later, others) {
        Ok(()) => Ok(()),
        Err(fault) => match fault {
            HandFault::TakenBack => Err(take_back(first.hand, first.before.as_slice(), next)),
            HandFault::Unfinished => Err(HandFault::Unfinished),
            HandFault::Unsaid => Err(HandFault::Unsaid),
        },
    }
}

/// Takes the marks of these seals back, the last one first, until one had another mark or can't be.
#[tactic(auto, using(crate::proofs::Olders::as_many_later))]
fn take_back_all<S: Replaced>(marks: &[OlderMark], seals: &mut [S]) -> HandFault
    requires as_many { length marks.now ≡ length seals.old }
    ensures taken { result ≡ HandFault.TakenBack → AreBack S.failure_count S.named S.may_leave marks.now seals.old seals.new }
    ensures left { result ≡ HandFault.Unfinished → AreStaying S.failure_count S.named S.may_leave marks.now seals.old seals.new }
    ensures kind { result ≢ HandFault.Unsaid }
    ensures only { EachKept S.kept_may_leave seals.old seals.new }
    ensures ahead { EachUnsynced S.synced seals.old seals.new }
{
    let Some((first, later)) = marks.split_first() else {
        return HandFault::TakenBack;
    };
    let Some((next, others)) = seals.split_first_mut() else {
        unreachable!()
    };
    match take_back_all(later, others) {
        HandFault::TakenBack => take_back(first.hand, first.before.as_slice(), next),
        HandFault::Unfinished => HandFault::Unfinished,
        HandFault::Unsaid => unreachable!(),
    }
}
