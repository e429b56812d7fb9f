//! The steps in which a journal is handed over to another, and what is said of it: the mark in the older one's seal, the newer journal and its seal.
//! It knows files that are replaced whole, and their bytes, and nothing of what these say.
ghost use Rattle.std.specs.Prelude.{◌≡◌, ◌≢◌, ◌⊎◌, IfErr, OnOk, Some};
ghost use Rattle.std.specs.Io.KnownBytes.{Appends};
ghost use Rattle.airline_base.specs.Noting.{TookFront, noted};
ghost use Rattle.seat_disk.specs.Keeping.{KeepsNoMore};
ghost use Rattle.seat_disk.specs.Leaving.{OldOr};
ghost use Rattle.seat_disk.specs.Syncs.{AllSynced, AreSynced, NeitherUnsynced, NoneUnsynced, SameNames};
ghost use Rattle.hand_steps.specs.Handing.{AreHanded, AreHandedOver, InHandOrder, OldOrBack, back_where};
ghost use Rattle.hand_steps.specs.Steps.{HasFailed, IsReplaced};
ghost use Rattle.hand_steps.specs.Stopping.{FailedAhead, HasFailedBack, HasNoneBack, IsPutBack, IsTakenBack, IsUnfinished, IsUnsaid, NameFailed};

use crate::putting::{NotPut, put, put_telling};
use airline_base::{NotedWrite, put_all};
use seat_disk::Replaced;

/// Where a journal is not handed over, or it can't be said.
#[derive(Clone, Copy)]
pub enum HandFault {
    /// A file failed ahead of the newer journal's name, and the older journal's seal has again what it had, on the disk.
    TakenBack,
    /// A file failed, and the older journal is marked, or may be: the same is to be handed over once more.
    Unfinished,
    /// All is in its place, and what is said of it failed.
    Unsaid,
}

/// Hands a journal over to another one, each step over its text. First the `mark` goes into the older journal's `seal`, on the disk; then a seal that names
/// `both` what stood under the newer journal's name and that journal, the newer journal, which is `text`, and its seal `alone`; and last what is said of it.
/// Nothing is kept of any file.
///
/// Where a file fails ahead of the newer journal's name, and `takes` says so, the older journal's seal gets again what it had `before`.
pub fn hand_in_order<S: Replaced, J: Replaced, K: Replaced, W: NotedWrite>(
    takes: bool,
    before: &[u8],
    mark: &[u8],
    both: &[u8],
    text: &[u8],
    alone: &[u8],
    report: &[u8],
    seal: &mut S,
    journal: &mut J,
    new_seal: &mut K,
    out: &mut W,
) -> Result<(), HandFault>
    ensures ok { OnOk result (AreHandedOver
        (AreHanded S.failure_count S.named S.may_leave mark.now text.now alone.now
        seal.old seal.new (J.named journal.old) (J.named journal.new) (K.named new_seal.old) (K.named new_seal.new)
        (J.may_leave journal.new) (K.may_leave new_seal.new))
        report.now (W.contents out.old) (W.contents out.new)) }
    ensures order { InHandOrder mark.now (back_where takes before.now) both.now text.now alone.now
        (S.may_leave seal.old) (J.may_leave journal.old) (K.may_leave new_seal.old)
        (S.may_leave seal.new) (J.may_leave journal.new) (K.may_leave new_seal.new) }
    ensures taken { IfErr result (λ f. f ≡ HandFault.TakenBack
        → IsTakenBack S.failure_count S.named S.may_leave J.failure_count J.named J.may_leave K.failure_count K.named K.may_leave
        mark.now (back_where takes before.now) both.now
        seal.old seal.new journal.old journal.new new_seal.old new_seal.new) }
    ensures unfinished { IfErr result (λ f. f ≡ HandFault.Unfinished
        → IsUnfinished S.failure_count S.named S.may_leave J.failure_count J.named J.may_leave K.failure_count K.named K.may_leave
        mark.now (back_where takes before.now) both.now text.now alone.now
        seal.old seal.new journal.old journal.new new_seal.old new_seal.new) }
    ensures unsaid { IfErr result (λ f. f ≡ HandFault.Unsaid → IsUnsaid
        (AreHanded S.failure_count S.named S.may_leave mark.now text.now alone.now
        seal.old seal.new (J.named journal.old) (J.named journal.new) (K.named new_seal.old) (K.named new_seal.new)
        (J.may_leave journal.new) (K.may_leave new_seal.new))
        W.failure_count W.contents report.now out.old out.new) }
    ensures silent { IfErr result (λ f. f ≢ HandFault.Unsaid → out.new ≡ out.old) }
    ensures only { KeepsNoMore (S.kept_may_leave seal.old) (S.kept_may_leave seal.new) }
    ensures only_journal { KeepsNoMore (J.kept_may_leave journal.old) (J.kept_may_leave journal.new) }
    ensures only_seal { KeepsNoMore (K.kept_may_leave new_seal.old) (K.kept_may_leave new_seal.new) }
    ensures synced { OnOk result (AllSynced (S.synced seal.new)) }
    ensures synced_both { OnOk result (AreSynced (J.synced journal.new) (K.synced new_seal.new)) }
    ensures unsynced { NoneUnsynced (S.synced seal.old) (S.synced seal.new) }
    ensures unsynced_both { NeitherUnsynced (J.synced journal.old) (J.synced journal.new) (K.synced new_seal.old) (K.synced new_seal.new) }
    ensures first { SameNames (J.synced journal.old) (J.synced journal.new) ⊎ AllSynced (S.synced seal.new) }
    ensures same { IfErr result (λ f. f ≡ HandFault.TakenBack → SameNames (J.synced journal.old) (J.synced journal.new)) }
    ensures told { (out.new ≡ out.old)
        ⊎ (AllSynced (S.synced seal.new) × AreSynced (J.synced journal.new) (K.synced new_seal.new)) }
{
    match begin(mark, both, text, seal, journal, new_seal) {
        Ok(()) => {}
        Err(failed) => {
            return match failed {
                NotPut::Ahead => Err(take_back(takes, before, seal)),
                NotPut::Behind => Err(HandFault::Unfinished),
            };
        }
    }
    match end(alone, report, new_seal, out) {
        Ok(()) => Ok(()),
        Err(fault) => Err(fault),
    }
}

/// The mark, the seal that names both what stood under the newer journal's name and that journal, and the newer journal, each over its text.
fn begin<S: Replaced, J: Replaced, K: Replaced>(
    mark: &[u8],
    both: &[u8],
    text: &[u8],
    seal: &mut S,
    journal: &mut J,
    new_seal: &mut K,
) -> Result<(), NotPut>
    ensures ok { OnOk result (IsReplaced S.failure_count S.named S.may_leave mark.now seal.old seal.new) }
    ensures put { OnOk result (IsReplaced J.failure_count J.named J.may_leave text.now journal.old journal.new) }
    ensures sealed { OnOk result (IsReplaced K.failure_count K.named K.may_leave both.now new_seal.old new_seal.new) }
    ensures ahead { IfErr result (λ f. f ≡ NotPut.Ahead
        → FailedAhead S.failure_count S.named S.may_leave J.failure_count J.named J.may_leave K.failure_count K.named K.may_leave
        mark.now both.now seal.old seal.new journal.old journal.new new_seal.old new_seal.new) }
    ensures behind { IfErr result (λ f. f ≡ NotPut.Behind
        → NameFailed S.failure_count S.named S.may_leave J.failure_count J.named K.failure_count K.named K.may_leave
        mark.now both.now text.now seal.old seal.new journal.old journal.new new_seal.old new_seal.new) }
    ensures marks { OldOr mark.now (S.may_leave seal.old) (S.may_leave seal.new) }
    ensures seals { OldOr both.now (K.may_leave new_seal.old) (K.may_leave new_seal.new) }
    ensures journals { OldOr text.now (J.may_leave journal.old) (J.may_leave journal.new) }
    ensures only { KeepsNoMore (S.kept_may_leave seal.old) (S.kept_may_leave seal.new) }
    ensures only_journal { KeepsNoMore (J.kept_may_leave journal.old) (J.kept_may_leave journal.new) }
    ensures only_seal { KeepsNoMore (K.kept_may_leave new_seal.old) (K.kept_may_leave new_seal.new) }
    ensures synced { OnOk result (AllSynced (S.synced seal.new)) }
    ensures synced_both { OnOk result (AreSynced (J.synced journal.new) (K.synced new_seal.new)) }
    ensures synced_mark { IfErr result (λ f. f ≡ NotPut.Behind → AllSynced (S.synced seal.new)) }
    ensures same { IfErr result (λ f. f ≡ NotPut.Ahead → SameNames (J.synced journal.old) (J.synced journal.new)) }
    ensures unsynced { NoneUnsynced (S.synced seal.old) (S.synced seal.new) }
    ensures unsynced_both { NeitherUnsynced (J.synced journal.old) (J.synced journal.new) (K.synced new_seal.old) (K.synced new_seal.new) }
{
    if put(seal, mark).is_err() {
        return Err(NotPut::Ahead);
    }
    if put(new_seal, both).is_err() {
        return Err(NotPut::Ahead);
    }
    match put_telling(journal, text) {
        Ok(()) => Ok(()),
        Err(failed) => match failed {
            NotPut::Ahead => Err(NotPut::Ahead),
            NotPut::Behind => Err(NotPut::Behind),
        },
    }
}

/// The seal of the newer journal alone, and what is said.
fn end<K: Replaced, W: NotedWrite>(
    alone: &[u8],
    report: &[u8],
    new_seal: &mut K,
    out: &mut W,
) -> Result<(), HandFault>
    ensures ok { OnOk result (Appends (W.contents out.old) (W.contents out.new) report.now) }
    ensures put { OnOk result (IsReplaced K.failure_count K.named K.may_leave alone.now new_seal.old new_seal.new) }
    ensures failed { IfErr result (λ f. f ≡ HandFault.Unfinished → HasFailed K.failure_count K.named alone.now new_seal.old new_seal.new) }
    ensures silent { IfErr result (λ f. f ≢ HandFault.Unsaid → out.new ≡ out.old) }
    ensures put_unsaid { IfErr result (λ f. f ≡ HandFault.Unsaid → IsReplaced K.failure_count K.named K.may_leave alone.now new_seal.old new_seal.new) }
    ensures unsaid { IfErr result (λ f. f ≡ HandFault.Unsaid → W.failure_count out.new ≡ noted (W.failure_count out.old)) }
    ensures begun { IfErr result (λ f. f ≡ HandFault.Unsaid → TookFront (W.contents out.old) (W.contents out.new) report.now) }
    ensures kind { IfErr result (λ f. f ≢ HandFault.TakenBack) }
    ensures crash { OldOr alone.now (K.may_leave new_seal.old) (K.may_leave new_seal.new) }
    ensures only { KeepsNoMore (K.kept_may_leave new_seal.old) (K.kept_may_leave new_seal.new) }
    ensures synced { OnOk result (AllSynced (K.synced new_seal.new)) }
    ensures unsynced { NoneUnsynced (K.synced new_seal.old) (K.synced new_seal.new) }
    ensures told { (out.new ≡ out.old) ⊎ AllSynced (K.synced new_seal.new) }
{
    if put(new_seal, alone).is_err() {
        return Err(HandFault::Unfinished);
    }
    match put_all(out, report) {
        Ok(()) => Ok(()),
        Err(_) => Err(HandFault::Unsaid),
    }
}

/// Puts back what the older journal's seal had `before`, where `takes` says so.
#[tactic(auto, using(crate::proofs::Ordered::none_back, crate::proofs::Ordered::old_or_back, crate::proofs::Ordered::old_or_none, seat_disk::proofs::Keeping::no_more))]
pub fn take_back<S: Replaced>(takes: bool, before: &[u8], seal: &mut S) -> HandFault
    ensures taken { result ≡ HandFault.TakenBack
        → IsPutBack S.failure_count S.named S.may_leave (back_where takes before.now) seal.old seal.new }
    ensures left { result ≡ HandFault.Unfinished
        → HasNoneBack (back_where takes before.now) seal.old seal.new ⊎ HasFailedBack S.failure_count S.named (back_where takes before.now) seal.old seal.new }
    ensures kind { result ≢ HandFault.Unsaid }
    ensures crash { OldOrBack (back_where takes before.now) (S.may_leave seal.old) (S.may_leave seal.new) }
    ensures only { KeepsNoMore (S.kept_may_leave seal.old) (S.kept_may_leave seal.new) }
    ensures unsynced { NoneUnsynced (S.synced seal.old) (S.synced seal.new) }
{
    if takes {
        put_back(before, seal)
    } else {
        HandFault::Unfinished
    }
}

#[tactic(auto, using(crate::proofs::Ordered::put_back, crate::proofs::Ordered::failed_back))]
fn put_back<S: Replaced>(before: &[u8], seal: &mut S) -> HandFault
    ensures taken { result ≡ HandFault.TakenBack
        → IsPutBack S.failure_count S.named S.may_leave (Some before.now) seal.old seal.new }
    ensures left { result ≡ HandFault.Unfinished → HasFailedBack S.failure_count S.named (Some before.now) seal.old seal.new }
    ensures kind { result ≢ HandFault.Unsaid }
    ensures crash { OldOr before.now (S.may_leave seal.old) (S.may_leave seal.new) }
    ensures only { KeepsNoMore (S.kept_may_leave seal.old) (S.kept_may_leave seal.new) }
    ensures unsynced { NoneUnsynced (S.synced seal.old) (S.synced seal.new) }
{
    match put(seal, before) {
        Ok(()) => HandFault::TakenBack,
        Err(_) => HandFault::Unfinished,
    }
}
