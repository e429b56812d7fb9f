//! A talk, from the line that says where the desk stands to the end of what it writes.
ghost use Rattle.std.specs.Prelude.{◌≡◌, length, None, IfSome, IfErr, IfOk, OnErr, OnOk};
ghost use Rattle.airline_base.specs.Noting.{noted};
ghost use Rattle.seat_disk.specs.Growing.{KeepsFront};
ghost use Rattle.seat_recovery.specs.OpenText.{open_text};
ghost use Rattle.desk_answers.specs.Hosts.{IsReady};
ghost use Rattle.desk_answers.specs.Ready.{IsReadyLine};
ghost use Rattle.seat_rules.specs.Journal.{calls_of};
ghost use Rattle.seat_rules.specs.Prefixes.{Begins};
ghost use Rattle.desk_talk.specs.Talks.{BreaksOff, EndsUntold, IsBroken, IsSameHost, IsTalk, Turns};
ghost use Rattle.desk_talk.specs.declared.talk_fault.TalkFault.TheVariants.{Input, Journal, Memory as NoMemory, Output};

use crate::piece::{HeldLine, hear_piece};
use crate::talk_fault::TalkFault;
use airline_base::{NotedRead, NotedWrite, put_all};
use arrayvec::ArrayVec;
use desk_answers::{OpenHost, ready_line};
use seat_disk::Tape;
use std::alloc::Global;
use std::sync::Wait;

// The most that one read takes.
const PIECE: usize = 4096;

/// Tells a desk where it stands, and answers each of its lines before it hears the next, up to the end of what it writes, or to
/// the line with which it goes. Where the talk is broken off, and not by the journal's file, the host is ready all the same.
#[tactic(auto, using(crate::proofs::Talking::begins_all, crate::proofs::Broken::half_ready))]
pub fn talk<R: Wait, I: NotedRead, W: NotedWrite, D: Tape>(
    rt: &R,
    alloc: Global,
    host: &mut OpenHost<'_, D>,
    input: &mut I,
    out: &mut W,
) -> Result<(), TalkFault>
    requires ready { IsReady D.seen D.may_leave D.unsynced host.old.serving }
    ensures talk { OnOk result (IfSome (I.remaining input.old)
        (IsTalk host.old host.new (W.contents out.old) (W.contents out.new))) }
    ensures ready { OnOk result (IsReady D.seen D.may_leave D.unsynced host.new.serving) }
    ensures same { OnOk result (IsSameHost host.old host.new) }
    ensures counted { OnOk result (D.failure_count host.new.serving.tape ≡ D.failure_count host.old.serving.tape) }
    // What was written is a front of a talk, and of no line that a crash takes.
    ensures broken { IfErr result (λ f. IfSome (I.remaining input.old) (IsBroken host.old f (D.may_leave host.new.serving.tape)
        (W.contents out.old) (W.contents out.new))) }
    ensures front { Begins host.old.serving.kept host.new.serving.kept }
    ensures told { KeepsFront (open_text host.old.serving.kept) (D.may_leave host.new.serving.tape) }
    ensures still { IfErr result (λ f. (f ≡ Journal → ⊥) → IsReady D.seen D.may_leave D.unsynced host.new.serving) }
    ensures input { IfErr result (λ f. f ≡ Input → I.failure_count input.new ≡ noted (I.failure_count input.old)) }
    ensures output { IfErr result (λ f. f ≡ Output → W.failure_count out.new ≡ noted (W.failure_count out.old)) }
    ensures journal { IfErr result (λ f. f ≡ Journal → D.failure_count host.new.serving.tape
        ≡ noted (D.failure_count host.old.serving.tape)) }
    ensures memory { IfErr result (λ f. f ≡ NoMemory → EndsUntold host.new) }
{
    let ready = ready_of(host);
    let Ok(()) = put_all(out, ready.as_slice()) else {
        return Err(TalkFault::Output);
    };
    let mut line = HeldLine::new();
    let mut piece = [0u8; PIECE];
    for _ in rt.forever() {
        if !turn(rt, alloc, host, &mut line, &mut piece, input, out)? {
            return Ok(());
        }
    }
    unreachable!()
}

// Reads once, and hears what came. Whether more may come.
#[tactic(auto, using(crate::proofs::Talking::begins_all))]
fn turn<R: Wait, I: NotedRead, W: NotedWrite, D: Tape>(
    rt: &R,
    alloc: Global,
    host: &mut OpenHost<'_, D>,
    line: &mut HeldLine,
    piece: &mut [u8; PIECE],
    input: &mut I,
    out: &mut W,
) -> Result<bool, TalkFault>
    requires ready { IsReady D.seen D.may_leave D.unsynced host.old.serving }
    ensures turns { IfOk result (λ more. Turns D.seen D.may_leave D.unsynced D.failure_count host.old line.old.items
        host.new line.new.items more (I.remaining input.old) (I.remaining input.new) (W.contents out.old)
        (W.contents out.new) (W.failure_count out.old) (W.failure_count out.new)) }
    ensures counted { OnOk result (I.failure_count input.new ≡ I.failure_count input.old) }
    ensures broken { IfErr result (λ f. IfSome (I.remaining input.old)
        (BreaksOff host.old line.old.items f (D.may_leave host.new.serving.tape) (W.contents out.old) (W.contents out.new))) }
    ensures told { OnErr result (KeepsFront (open_text host.old.serving.kept) (D.may_leave host.new.serving.tape)) }
    ensures front { OnErr result (Begins host.old.serving.kept host.new.serving.kept) }
    ensures still { IfErr result (λ f. (f ≡ Journal → ⊥) → IsReady D.seen D.may_leave D.unsynced host.new.serving) }
    ensures input { IfErr result (λ f. f ≡ Input → I.failure_count input.new ≡ noted (I.failure_count input.old)) }
    ensures output { IfErr result (λ f. f ≡ Output → W.failure_count out.new ≡ noted (W.failure_count out.old)) }
    ensures journal { IfErr result (λ f. f ≡ Journal → D.failure_count host.new.serving.tape
        ≡ noted (D.failure_count host.old.serving.tape)) }
    ensures memory { IfErr result (λ f. f ≡ NoMemory → EndsUntold host.new) }
{
    match input.read_noted(piece) {
        Ok(0) => Ok(false),
        Ok(n) => hear_piece(rt, alloc, host, line, &piece[..n], out),
        Err(_) => Err(TalkFault::Input),
    }
}

// The line that says where the desk stands.
fn ready_of<D: Tape>(host: &OpenHost<'_, D>) -> ArrayVec<u8, 70>
    ensures { IsReadyLine None host.now.session (length host.now.serving.journal)
        (calls_of host.now.serving.journal host.now.session) host.now.desk.today host.now.desk.epoch result.items }
{
    let session = host.session();
    let serving = host.serving();
    let lines = serving.journal().len() as u32;
    ready_line(
        None,
        session,
        lines,
        serving.calls_of(session),
        host.today(),
        host.epoch(),
    )
}
