//! A host that serves a desk beside the seal of its journal: behind the talk and the journal's end the closed seal takes the open one's place.
ghost use Rattle.std.specs.Prelude.{◌≡◌, ◌≢◌, IfErr, IfOk, IfSome, IsTrue, false};
ghost use Rattle.airline_base.specs.Noting.{noted};
ghost use Rattle.seat_desk.specs.AuditDesk.{most_lines};
ghost use Rattle.seat_desk.specs.Desk.{HasFailed};
ghost use Rattle.seat_disk.specs.Growing.{KeepsFront};
ghost use Rattle.seat_disk.specs.Keeping.{KeepsNoMore};
ghost use Rattle.seat_recovery.specs.OpenText.{open_text};
ghost use Rattle.seat_rules.specs.Prefixes.{Begins};
ghost use Rattle.seat_sealing.specs.Pairs.{NoneDenied};
ghost use Rattle.seat_restoring.specs.Dating.{AreOfEra};
ghost use Rattle.seat_restoring.specs.Serving.{IsSealedEnd, NamesAll};
ghost use Rattle.desk_answers.specs.Hosts.{IsReady};
ghost use Rattle.desk_talk.specs.Closing.{IfDay, IfSeal, IsTalkUnsealed};
ghost use Rattle.desk_talk.specs.Ending.{is_of_journal, IsEnded, IsLeftOpen, IsTalkedOut, IsTalkTo, IsUntoldIn};
ghost use Rattle.desk_talk.specs.declared.serving.DayFault.TheVariants.{Talk, End};
ghost use Rattle.desk_talk.specs.Talks.{IsBroken};
ghost use Rattle.desk_talk.specs.declared.talk_fault.TalkFault.TheVariants.{Input, Memory as NoMemory, Output};

use crate::serving::{DayFault, serve_desk};
use crate::talk_fault::TalkFault;
use airline_base::{NotedRead, NotedWrite};
use desk_answers::OpenHost;
use seat_desk::DeskFault;
use seat_disk::{Replaced, Tape};
use seat_restoring::seal_closed;
use seat_seal::{Basis, Sealed};
use seat_serving::{Ended, ServeFault};
use std::alloc::Global;
use std::sync::Wait;

/// Why a journal is not ended and sealed.
#[derive(Clone, Copy)]
pub enum ServedFault {
    /// The talk was broken off, or the journal is not ended. Its open seal stands.
    Day(DayFault),
    /// The journal is ended, and its closed seal is not there. Its open seal is of it too.
    Seal(DeskFault),
}

/// Talks with a desk to its end and ends the journal, as [`serve_desk`] does, while the open seal of the lines that the host began with stands in the
/// file `seals`. Then the closed seal of all lines takes its place, of this basis, and with the era and the runs of the one that was `begun` with. Whatever a crash
/// leaves of the two files, the seal has the journal's entry, and is of that era.
#[tactic(auto, using(crate::proofs::Closed::still_named, crate::proofs::Closed::ended_named, crate::proofs::Closed::ended_told, crate::proofs::Closed::few_ended, seat_disk::proofs::Keeping::no_more))]
pub fn serve_sealed<R: Wait, I: NotedRead, W: NotedWrite, D: Tape, K: Replaced>(
    rt: &R,
    alloc: Global,
    host: OpenHost<'_, D>,
    basis: &Basis,
    begun: Sealed,
    input: &mut I,
    out: &mut W,
    seals: &mut K,
) -> Result<(Ended, D), (ServedFault, D)>
    requires ready { IsReady D.seen D.may_leave D.unsynced host.serving }
    requires cap { host.serving.cap ≡ most_lines }
    requires named { NamesAll host.serving.kept (K.may_leave seals.old) }
    requires dated { AreOfEra begun.era (K.may_leave seals.old) }
    ensures talk { IfOk result (λ r. IfSome (I.remaining input.old)
        (IsTalkTo host.entry (W.contents out.old) (W.contents out.new) r.0.journal)) }
    ensures ended { IfOk result (λ r. IsEnded host.entry.serving.grid host.entry.serving.cap r.0 (D.seen r.1)
        (D.may_leave r.1) (D.unsynced r.1)) }
    ensures front { IfOk result (λ r. Begins host.entry.serving.kept r.0.journal) }
    ensures sealed { IfOk result (λ r. IsSealedEnd basis.now begun.runs r.0.journal (K.named seals.old) (K.named seals.new)
        (K.may_leave seals.new)) }
    ensures dated { AreOfEra begun.era (K.may_leave seals.new) }
    ensures accepted { IfOk result (λ r. NoneDenied (D.may_leave r.1) (K.may_leave seals.new)) }
    ensures agrees { IfErr result (λ f. NoneDenied (D.may_leave f.1) (K.may_leave seals.new)) }
    ensures only { KeepsNoMore (K.kept_may_leave seals.old) (K.kept_may_leave seals.new) }
    ensures told { IfErr result (λ f. KeepsFront (open_text host.entry.serving.kept) (D.may_leave f.1)) }
    ensures talked { IfErr result (λ f. IfDay f.0 (λ d. (e : ServeFault) → d ≡ End e → IfSome (I.remaining input.old)
        (IsTalkedOut host.entry (W.contents out.old) (W.contents out.new)))) }
    ensures broken { IfErr result (λ f. IfDay f.0 (λ d. (t : TalkFault) → d ≡ Talk t → IfSome (I.remaining input.old)
        (IsBroken host.entry t (D.may_leave f.1) (W.contents out.old) (W.contents out.new)))) }
    ensures open { IfErr result (λ f. IfDay f.0 (λ d. is_of_journal d ≡ false → IsLeftOpen host.entry.serving.kept (D.seen f.1)
        (D.may_leave f.1) (D.unsynced f.1))) }
    ensures journal { IfErr result (λ f. IfDay f.0 (λ d. IsTrue (is_of_journal d)
        → D.failure_count f.1 ≡ noted (D.failure_count host.entry.serving.tape))) }
    ensures memory { IfErr result (λ f. IfDay f.0 (λ d. d ≡ Talk NoMemory → IsUntoldIn f.1)) }
    ensures input { IfErr result (λ f. IfDay f.0 (λ d. d ≡ Talk Input → I.failure_count input.new ≡ noted (I.failure_count input.old))) }
    ensures output { IfErr result (λ f. IfDay f.0 (λ d. d ≡ Talk Output → W.failure_count out.new ≡ noted (W.failure_count out.old))) }
    ensures unsealed { IfErr result (λ f. IfDay f.0 (λ d. seals.new ≡ seals.old)) }
    ensures over { IfErr result (λ f. IfSeal f.0 (λ e. IsTalkUnsealed host.entry basis.now begun.runs e (I.remaining input.old)
        (W.contents out.old) (W.contents out.new) (D.seen f.1) (D.may_leave f.1) (D.unsynced f.1))) }
    ensures untouched { IfErr result (λ f. IfSeal f.0 (λ e. e ≢ DeskFault.Device → seals.new ≡ seals.old)) }
    ensures device { IfErr result (λ f. IfSeal f.0 (λ e. e ≡ DeskFault.Device → HasFailed K.failure_count seals.old seals.new)) }
{
    let served = match serve_desk(rt, alloc, host, input, out) {
        Ok(served) => served,
        Err(refused) => {
            let (fault, tape) = refused;
            return Err((ServedFault::Day(fault), tape));
        }
    };
    let (ended, tape) = served;
    match seal_closed(alloc, basis, begun, &ended.journal, seals) {
        Ok(()) => Ok((ended, tape)),
        Err(fault) => Err((ServedFault::Seal(fault), tape)),
    }
}
