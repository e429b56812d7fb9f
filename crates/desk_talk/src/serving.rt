//! A host that serves a desk: the talk to its end, and then the end of the journal.
ghost use Rattle.std.specs.Prelude.{◌≡◌, ◌⊎◌, IfErr, IfOk, IfSome, IsTrue, false};
ghost use Rattle.airline_base.specs.Noting.{noted};
ghost use Rattle.seat_disk.specs.Growing.{KeepsFront};
ghost use Rattle.seat_recovery.specs.OpenText.{open_text};
ghost use Rattle.seat_rules.specs.Prefixes.{Begins};
ghost use Rattle.desk_answers.specs.Hosts.{IsReady};
ghost use Rattle.desk_talk.specs.Ending.{is_of_journal, IsEnded, IsLeftOpen, IsTalkedOut, IsTalkTo, IsUntoldIn};
ghost use Rattle.desk_talk.specs.declared.serving.DayFault.TheVariants.{Talk, End};
ghost use Rattle.desk_talk.specs.Talks.{IsBroken};
ghost use Rattle.desk_talk.specs.declared.talk_fault.TalkFault.TheVariants.{Input, Memory as NoMemory, Output};

use crate::talk_fault::TalkFault;
use crate::talks::talk;
use airline_base::{NotedRead, NotedWrite};
use desk_answers::OpenHost;
use seat_disk::Tape;
use seat_serving::{Ended, ServeFault};
use std::alloc::Global;
use std::sync::Wait;

/// Why a journal is not ended.
#[derive(Clone, Copy)]
pub enum DayFault {
    /// The talk was broken off.
    Talk(TalkFault),
    /// The talk was over, and the journal's end failed.
    End(ServeFault),
}

/// Talks with a desk to its end, and then ends the journal. Where the talk is broken off the journal is left open, and a host may go
/// on with it.
#[tactic(auto, using(crate::proofs::Ended::ended_so, crate::proofs::Ended::left_open))]
pub fn serve_desk<R: Wait, I: NotedRead, W: NotedWrite, D: Tape>(
    rt: &R,
    alloc: Global,
    host: OpenHost<'_, D>,
    input: &mut I,
    out: &mut W,
) -> Result<(Ended, D), (DayFault, D)>
    requires ready { IsReady D.seen D.may_leave D.unsynced host.serving }
    ensures talk { IfOk result (λ r. IfSome (I.remaining input.old)
        (IsTalkTo host.entry (W.contents out.old) (W.contents out.new) r.0.journal)) }
    ensures ended { IfOk result (λ r. IsEnded host.entry.serving.grid host.entry.serving.cap r.0 (D.seen r.1)
        (D.may_leave r.1) (D.unsynced r.1)) }
    ensures front { IfOk result (λ r. Begins host.entry.serving.kept r.0.journal) }
    ensures talked { IfErr result (λ f. (e : ServeFault) → f.0 ≡ End e → IfSome (I.remaining input.old)
        (IsTalkedOut host.entry (W.contents out.old) (W.contents out.new))) }
    ensures broken { IfErr result (λ f. (t : TalkFault) → f.0 ≡ Talk t → IfSome (I.remaining input.old)
        (IsBroken host.entry t (D.may_leave f.1) (W.contents out.old) (W.contents out.new))) }
    ensures told { IfErr result (λ f. KeepsFront (open_text host.entry.serving.kept) (D.may_leave f.1)) }
    ensures open { IfErr result (λ f. is_of_journal f.0 ≡ false → IsLeftOpen host.entry.serving.kept (D.seen f.1)
        (D.may_leave f.1) (D.unsynced f.1)) }
    ensures journal { IfErr result (λ f. IsTrue (is_of_journal f.0)
        → D.failure_count f.1 ≡ noted (D.failure_count host.entry.serving.tape)) }
    ensures memory { IfErr result (λ f. f.0 ≡ Talk NoMemory → IsUntoldIn f.1) }
    ensures input { IfErr result (λ f. f.0 ≡ Talk Input → I.failure_count input.new ≡ noted (I.failure_count input.old)) }
    ensures output { IfErr result (λ f. f.0 ≡ Talk Output → W.failure_count out.new ≡ noted (W.failure_count out.old)) }
{
    let mut host = host;
    let talked = talk(rt, alloc, &mut host, input, out);
    let serving = host.into_serving();
    match talked {
        Ok(()) => match serving.end(rt, alloc) {
            Ok(ended) => Ok(ended),
            Err(refused) => {
                let (fault, tape) = refused;
                Err((DayFault::End(fault), tape))
            }
        },
        Err(fault) => Err((DayFault::Talk(fault), serving.close(rt))),
    }
}
