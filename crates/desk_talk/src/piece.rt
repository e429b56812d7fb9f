//! The bytes of a desk: each is held until its line ends, and the line is then answered.
ghost use Rattle.std.specs.Prelude.{◌≡◌, ◌∷◌, ◌++◌, [], true, IfErr, IfOk, OnErr};
ghost use Rattle.std.specs.Io.KnownBytes.{Appends};
ghost use Rattle.airline_base.specs.Noting.{noted, TookFront};
ghost use Rattle.seat_disk.specs.Growing.{KeepsFront};
ghost use Rattle.seat_recovery.specs.OpenText.{open_text};
ghost use Rattle.seat_rules.specs.Prefixes.{Begins};
ghost use Rattle.desk_answers.specs.FaultLines.{memory_line};
ghost use Rattle.desk_answers.specs.Hosts.{IsReady};
ghost use Rattle.desk_talk.specs.Talks.{held, no_journal_line, BreaksAt, BreaksOff, EndsUntold, IsEnd, IsWritten, TalksOn, TellsOf};
ghost use Rattle.desk_talk.specs.declared.talk_fault.TalkFault.TheVariants.{Input, Journal, Memory as NoMemory, Output};

use crate::talk_fault::TalkFault;
use airline_base::{NotedWrite, put_all};
use arrayvec::ArrayVec;
use desk_answers::{HearFault, OpenHost, memory_line};
use seat_disk::Tape;
use std::alloc::Global;
use std::sync::Wait;

/// What is held of a line: one byte more than it may have.
pub(crate) type HeldLine = ArrayVec<u8, 257>;

/// Hears the bytes of a piece behind those of a line that are held. Whether the desk stays.
#[tactic(auto, using(crate::proofs::Talking::talks_none, crate::proofs::Talking::talks_more, crate::proofs::Talking::talks_all, crate::proofs::Talking::talks_left, crate::proofs::Talking::told_before))]
pub(crate) fn hear_piece<R: Wait, W: NotedWrite, D: Tape>(
    rt: &R,
    alloc: Global,
    host: &mut OpenHost<'_, D>,
    line: &mut HeldLine,
    piece: &[u8],
    out: &mut W,
) -> Result<bool, TalkFault>
    requires ready { IsReady D.seen D.may_leave D.unsynced host.old.serving }
    ensures talks { IfOk result (λ stays. TalksOn D.seen D.may_leave D.unsynced D.failure_count host.old line.old.items
        piece.now host.new line.new.items stays (W.contents out.old) (W.contents out.new) (W.failure_count out.old)
        (W.failure_count out.new)) }
    ensures broken { IfErr result (λ f. BreaksOff host.old line.old.items f (D.may_leave host.new.serving.tape)
        (W.contents out.old) (W.contents out.new) piece.now) }
    ensures output { IfErr result (λ f. f ≡ Output → W.failure_count out.new ≡ noted (W.failure_count out.old)) }
    ensures journal { IfErr result (λ f. f ≡ Journal → D.failure_count host.new.serving.tape
        ≡ noted (D.failure_count host.old.serving.tape)) }
    ensures input { IfErr result (λ f. f ≡ Input → ⊥) }
    ensures memory { IfErr result (λ f. f ≡ NoMemory → EndsUntold host.new) }
    ensures told { OnErr result (KeepsFront (open_text host.old.serving.kept) (D.may_leave host.new.serving.tape)) }
    ensures front { OnErr result (Begins host.old.serving.kept host.new.serving.kept) }
    ensures still { IfErr result (λ f. (f ≡ Journal → ⊥) → IsReady D.seen D.may_leave D.unsynced host.new.serving) }
{
    for byte in piece {
        if !hear_byte(rt, alloc, host, line, *byte, out)? {
            return Ok(false);
        }
    }
    Ok(true)
}

// Holds a byte of a line, and answers the line where it ends it.
#[tactic(auto, using(crate::proofs::Talking::byte_held, crate::proofs::Talking::line_ended, crate::proofs::Broken::breaks_held))]
fn hear_byte<R: Wait, W: NotedWrite, D: Tape>(
    rt: &R,
    alloc: Global,
    host: &mut OpenHost<'_, D>,
    line: &mut HeldLine,
    byte: u8,
    out: &mut W,
) -> Result<bool, TalkFault>
    requires ready { IsReady D.seen D.may_leave D.unsynced host.old.serving }
    ensures talks { IfOk result (λ stays. TalksOn D.seen D.may_leave D.unsynced D.failure_count host.old line.old.items
        (byte ∷ []) host.new line.new.items stays (W.contents out.old) (W.contents out.new) (W.failure_count out.old)
        (W.failure_count out.new)) }
    ensures broken { IfErr result (λ f. IsEnd byte × BreaksAt host.old (held (line.old.items ++ byte ∷ [])) f
        (D.may_leave host.new.serving.tape) (W.contents out.old) (W.contents out.new)) }
    ensures output { IfErr result (λ f. f ≡ Output → W.failure_count out.new ≡ noted (W.failure_count out.old)) }
    ensures journal { IfErr result (λ f. f ≡ Journal → D.failure_count host.new.serving.tape
        ≡ noted (D.failure_count host.old.serving.tape)) }
    ensures input { IfErr result (λ f. f ≡ Input → ⊥) }
    ensures memory { IfErr result (λ f. f ≡ NoMemory → EndsUntold host.new) }
    ensures told { OnErr result (KeepsFront (open_text host.old.serving.kept) (D.may_leave host.new.serving.tape)) }
    ensures front { OnErr result (Begins host.old.serving.kept host.new.serving.kept) }
    ensures still { IfErr result (λ f. (f ≡ Journal → ⊥) → IsReady D.seen D.may_leave D.unsynced host.new.serving) }
{
    hold(line, byte);
    if byte != b'\n' {
        return Ok(true);
    }
    let stays = tell(rt, alloc, host, line.as_slice(), out)?;
    line.clear();
    Ok(stays)
}

// Holds a byte, where there is room.
#[tactic(auto, using(crate::proofs::Holding::held_more, crate::proofs::Holding::held_full))]
fn hold(line: &mut HeldLine, byte: u8)
    ensures { line.new.items ≡ held (line.old.items ++ byte ∷ []) }
{
    if !line.is_full() {
        line.push(byte);
    }
}

// Answers a line. Whether the desk stays.
#[tactic(auto, using(crate::proofs::Talking::ends_untold, crate::proofs::Broken::breaks_silent, crate::proofs::Broken::breaks_journal))]
fn tell<R: Wait, W: NotedWrite, D: Tape>(
    rt: &R,
    alloc: Global,
    host: &mut OpenHost<'_, D>,
    line: &[u8],
    out: &mut W,
) -> Result<bool, TalkFault>
    requires ready { IsReady D.seen D.may_leave D.unsynced host.old.serving }
    ensures said { IfErr result (λ f. f ≡ Journal → IsWritten W.failure_count W.contents no_journal_line out.old out.new) }
    ensures tells { IfOk result (λ stays. TellsOf D.seen D.may_leave D.unsynced D.failure_count host.old line.now host.new
        stays (W.contents out.old) (W.contents out.new) (W.failure_count out.old) (W.failure_count out.new)) }
    ensures broken { IfErr result (λ f. BreaksAt host.old line.now f (D.may_leave host.new.serving.tape)
        (W.contents out.old) (W.contents out.new)) }
    ensures output { IfErr result (λ f. f ≡ Output → W.failure_count out.new ≡ noted (W.failure_count out.old)) }
    ensures journal { IfErr result (λ f. f ≡ Journal → D.failure_count host.new.serving.tape
        ≡ noted (D.failure_count host.old.serving.tape)) }
    ensures input { IfErr result (λ f. f ≡ Input → ⊥) }
    ensures memory { IfErr result (λ f. f ≡ NoMemory → EndsUntold host.new) }
    ensures told { OnErr result (KeepsFront (open_text host.old.serving.kept) (D.may_leave host.new.serving.tape)) }
    ensures front { OnErr result (Begins host.old.serving.kept host.new.serving.kept) }
    ensures still { IfErr result (λ f. (f ≡ Journal → ⊥) → IsReady D.seen D.may_leave D.unsynced host.new.serving) }
{
    let heard = match host.hear(rt, alloc, line) {
        Ok(heard) => heard,
        Err(HearFault::Memory) => return tell_wanting(host, out),
        Err(HearFault::Untold) => return Err(TalkFault::Memory),
        Err(HearFault::Device) => return Err(no_journal(out)),
    };
    match put_all(out, heard.text.as_slice()) {
        Ok(()) => Ok(heard.stays),
        Err(_) => Err(TalkFault::Output),
    }
}

// Says that memory was wanting for the line that was heard last.
fn tell_wanting<W: NotedWrite, D: Tape>(
    host: &OpenHost<'_, D>,
    out: &mut W,
) -> Result<bool, TalkFault>
    ensures ok { IfOk result (λ stays. (stays ≡ true) × Appends (W.contents out.old) (W.contents out.new)
        (memory_line host.now.session host.now.desk.lines) × (W.failure_count out.new ≡ W.failure_count out.old)) }
    ensures output { IfErr result (λ f. (f ≡ Output) × (W.failure_count out.new ≡ noted (W.failure_count out.old))) }
    ensures begun { OnErr result (TookFront (W.contents out.old) (W.contents out.new) (memory_line host.now.session host.now.desk.lines)) }
{
    let line = memory_line(host.session(), host.heard());
    match put_all(out, line.as_slice()) {
        Ok(()) => Ok(true),
        Err(_) => Err(TalkFault::Output),
    }
}

// Says that the journal's file failed. Where that cannot be said either, it is the journal all the same.
#[tactic(auto, using(crate::proofs::Broken::took_all, crate::proofs::Broken::written_whole, crate::proofs::Broken::not_written))]
fn no_journal<W: NotedWrite>(out: &mut W) -> TalkFault
    ensures value { result ≡ Journal }
    ensures says { TookFront (W.contents out.old) (W.contents out.new) no_journal_line }
    ensures said { IsWritten W.failure_count W.contents no_journal_line out.old out.new }
{
    match put_all(out, b"FAULT - DEVICE\n") {
        Ok(()) => TalkFault::Journal,
        Err(_) => TalkFault::Journal,
    }
}
