//! The one function that answers a question about journals of hosts that have different flights.
//! It knows the order in which inputs are read, and no question.
ghost use Rattle.std.specs.Prelude.{◌≡◌, ◌≢◌, ◌≤◌, ◌<◌, ◌⊎◌, length, map, IfErr, IfOk, IfSome, OnOk};
ghost use Rattle.ssim_flights.specs.Right.{IsOfCentury};
ghost use Rattle.seat_limits.specs.Authorised.{authorised_grid};
ghost use Rattle.seat_journal.specs.Text.{IsJournalText};
ghost use Rattle.seat_desk.specs.AuditDesk.{most_journal_bytes, most_lines};
ghost use Rattle.seat_desk.specs.Desk.{InputFailed, IsWritten, OutputFailed};
ghost use Rattle.seat_shards.specs.Auditing.{HasFirstFailed};
ghost use Rattle.seat_shards.specs.Faults.{IsOfShards};
ghost use Rattle.seat_shards.specs.Taking.{known, HasFailedAmong};
ghost use Rattle.shard_questions.specs.Joined.{AreJoined};
ghost use Rattle.shard_questions.specs.Together.{IsAnswered, IsRefusedBehind, IsRefusedOf, IsTogetherOf, IsTooLargeOf, IsTooLong};

use crate::joining::lines_together;
use airline_base::{Counted, Memory, NotedRead, NotedWrite, put_all};
use seat_desk::{DeskFault, Inputs, Loaded, MOST_JOURNAL_BYTES, Question, load};
use seat_journal::{Entry, write_journal};
use seat_shards::ShardFault;
use std::alloc::Global;
use std::thread::Threads;

/// Answers a question about journals over the grid of one data set and limit rows, each of at most 256 MiB, as about one journal of all
/// of them, and writes the answer. Each must be a legal history by itself, no two may have a line of one flight, and together they have at
/// most 999,999 lines: where there are more, the fault names the first line without room (C1) behind its journal's place. Each input is
/// read and checked before the next is read, and nothing is written before all are right.
pub fn answer_shards<R: Threads + Sync, Q: Question, I: NotedRead, W: NotedWrite>(
    rt: &R,
    alloc: Global,
    question: &Q,
    inputs: &mut Inputs<I, I>,
    journals: &mut [I],
    out: &mut W,
) -> Result<(), ShardFault>
    requires first { IsOfCentury inputs.old.first }
    requires days { (1 ≤ inputs.old.days) × (inputs.old.days ≤ 366) }
    ensures ok { OnOk result (IsWritten
        (IsTogetherOf (Q.answers question.now) I.remaining I.remaining inputs.old (map I.remaining journals.old))
        (W.contents out.old) (W.contents out.new)) }
    ensures fault { IfErr result (λ f. IsOfShards f →
        IsRefusedOf (Q.refuses question.now) I.remaining I.remaining inputs.old (map I.remaining journals.old) f) }
    ensures large { IfErr result (λ f. f ≡ ShardFault.Desk DeskFault.TooLarge
        → IsTooLargeOf I.remaining I.remaining inputs.old (map I.remaining journals.old)) }
    ensures device { IfErr result (λ f. f ≡ ShardFault.Desk DeskFault.Device →
        InputFailed (HasFirstFailed I.remaining I.remaining I.failure_count I.failure_count I.remaining I.failure_count inputs.old inputs.new journals.old journals.new)
        out.old out.new
        ⊎ OutputFailed W.failure_count W.contents out.old out.new
        (IsTogetherOf (Q.answers question.now) I.remaining I.remaining inputs.old (map I.remaining journals.old))) }
    ensures untouched { IfErr result (λ f. f ≢ ShardFault.Desk DeskFault.Device → out.new ≡ out.old) }
{
    let text = match answered(rt, alloc, question, inputs, journals) {
        Ok(text) => text,
        Err(fault) => return Err(fault),
    };
    match put_all(out, &text) {
        Ok(()) => Ok(()),
        Err(_) => Err(ShardFault::Desk(DeskFault::Device)),
    }
}

// The text that answers a question about the inputs.
#[tactic(auto, using(crate::proofs::Grounds::answered_over_ground, crate::proofs::Grounds::refused_over_ground, crate::proofs::Grounds::long_over_ground, crate::proofs::Grounds::refused_ground, crate::proofs::Grounds::large_ground, seat_shards::proofs::Grounds::failed_over_ground))]
fn answered<R: Threads + Sync, Q: Question, I: NotedRead>(
    rt: &R,
    alloc: Global,
    question: &Q,
    inputs: &mut Inputs<I, I>,
    journals: &mut [I],
) -> Result<Vec<u8>, ShardFault>
    requires first { IsOfCentury inputs.old.first }
    requires days { (1 ≤ inputs.old.days) × (inputs.old.days ≤ 366) }
    ensures ok { IfOk result (λ text.
        IsTogetherOf (Q.answers question.now) I.remaining I.remaining inputs.old (map I.remaining journals.old) text.items) }
    ensures fault { IfErr result (λ f. IsOfShards f →
        IsRefusedOf (Q.refuses question.now) I.remaining I.remaining inputs.old (map I.remaining journals.old) f) }
    ensures large { IfErr result (λ f. f ≡ ShardFault.Desk DeskFault.TooLarge
        → IsTooLargeOf I.remaining I.remaining inputs.old (map I.remaining journals.old)) }
    ensures device { IfErr result (λ f. f ≡ ShardFault.Desk DeskFault.Device →
        HasFirstFailed I.remaining I.remaining I.failure_count I.failure_count I.remaining I.failure_count inputs.old inputs.new journals.old journals.new) }
{
    let loaded = match load(alloc, inputs) {
        Ok(loaded) => loaded,
        Err(fault) => return Err(ShardFault::Desk(fault)),
    };
    match answered_over(rt, alloc, question, loaded, journals) {
        Ok(text) => Ok(text),
        Err(fault) => Err(fault),
    }
}

// The text that answers a question about the journals over what is loaded.
#[tactic(auto, using(seat_shards::proofs::Grounds::as_many, crate::proofs::Asking::answered, crate::proofs::Asking::refused, crate::proofs::Asking::stopped, crate::proofs::Asking::long))]
fn answered_over<R: Threads + Sync, Q: Question, J: NotedRead>(
    rt: &R,
    alloc: Global,
    question: &Q,
    loaded: Loaded,
    journals: &mut [J],
) -> Result<Vec<u8>, ShardFault>
    requires grid { loaded.grid ≡ authorised_grid loaded.rows loaded.flights }
    ensures ok { IfOk result (λ text. IfSome (known (map J.remaining journals.old))
        (λ texts. IsAnswered (Q.answers question.now) loaded.flights loaded.rows loaded.grid texts text.items)) }
    ensures fault { IfErr result (λ f. IsOfShards f → IfSome (known (map J.remaining journals.old))
        (λ texts. IsRefusedBehind (Q.refuses question.now) loaded.grid texts f)) }
    ensures large { IfErr result (λ f. f ≡ ShardFault.Desk DeskFault.TooLarge
        → IfSome (known (map J.remaining journals.old)) (IsTooLong loaded.grid)) }
    ensures device { IfErr result (λ f. f ≡ ShardFault.Desk DeskFault.Device → HasFailedAmong loaded.grid (map J.remaining journals.old)
        J.failure_count journals.old journals.new) }
{
    let flights = loaded.flights.len() as usize;
    let lines = match lines_together(rt, alloc, &loaded.grid, flights, journals) {
        Ok(lines) => lines,
        Err(fault) => return Err(fault),
    };
    let Ok(bytes) = journal_of(alloc, lines.as_slice()) else {
        return Err(ShardFault::Desk(DeskFault::Memory));
    };
    drop(lines);
    if bytes.len() as u64 > MOST_JOURNAL_BYTES {
        return Err(ShardFault::Desk(DeskFault::TooLarge));
    }
    match question.text(rt, alloc, loaded, bytes) {
        Ok(text) => Ok(text),
        Err(fault) => Err(ShardFault::Desk(fault)),
    }
}

// The text of a journal of these lines.
fn journal_of(alloc: Global, lines: &[Entry]) -> Result<Vec<u8>, Memory>
    ensures { IfOk result (λ text. IsJournalText text.items lines.now) }
{
    let mut text = Counted::new(Vec::new(alloc));
    match write_journal(lines, &mut text) {
        Ok(()) => Ok(text.into_inner()),
        Err(_) => Err(Memory),
    }
}
