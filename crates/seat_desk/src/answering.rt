//! Questions about a journal, each answered in the same way.
ghost use Rattle.std.specs.Prelude.{◌≡◌, ◌≢◌, ◌<◌, ◌≤◌, ◌⊎◌, IfErr, IfOk, OnOk};
ghost use Rattle.ssim_flights.specs.Right.{IsOfCentury};
ghost use Rattle.seat_desk.specs.Answering.{HasFirstFailed, IsAnswerOf, IsFirstTooLargeOf, IsRefusedAnswerOf};
ghost use Rattle.seat_desk.specs.Desk.{InputFailed, IsOfInput, IsWritten, OutputFailed};

use crate::fault::DeskFault;
use crate::inputs::Inputs;
use crate::loading::load_based;
use crate::question::Question;
use crate::replaying::MOST_JOURNAL_BYTES;
use crate::sealing::agreed;
use crate::streams::read_input;
use airline_base::{NotedRead, NotedWrite, put_all};
use seat_seal::Beside;
use std::alloc::Global;
use std::thread::Threads;

/// Answers a question about a data set, limit rows and a journal, and writes the text. Each input is read and checked before
/// the next is read, what stands beside the journal is compared with them ahead of the journal's own faults, and nothing is written
/// before all are right. The first day is in 2000 to 2099, `days` is 1 to 366;
/// a set and a journal have at most 256 MiB, limit rows at most 16 MiB. The journal's text is of either version.
pub fn answer_question<R: Threads + Sync, Q: Question, I: NotedRead, W: NotedWrite>(
    rt: &R,
    alloc: Global,
    question: &Q,
    inputs: &mut Inputs<I, I>,
    journal: &mut I,
    beside: &Beside<'_>,
    out: &mut W,
) -> Result<(), DeskFault>
    requires first { IsOfCentury inputs.old.first }
    requires days { (1 ≤ inputs.old.days) × (inputs.old.days ≤ 366) }
    ensures ok { OnOk result (IsWritten
        (IsAnswerOf (Q.answers question.now) beside.now I.remaining I.remaining inputs.old (I.remaining journal.old)) (W.contents out.old) (W.contents out.new)) }
    ensures fault { IfErr result (λ f. IsOfInput f →
        IsRefusedAnswerOf (Q.refuses question.now) beside.now I.remaining I.remaining inputs.old (I.remaining journal.old) f) }
    ensures large { IfErr result (λ f. f ≡ DeskFault.TooLarge
        → IsFirstTooLargeOf I.remaining I.remaining inputs.old (I.remaining journal.old)) }
    ensures device { IfErr result (λ f. f ≡ DeskFault.Device →
        InputFailed (HasFirstFailed I.remaining I.remaining I.failure_count I.failure_count I.failure_count inputs.old inputs.new journal.old journal.new)
        out.old out.new
        ⊎ OutputFailed W.failure_count W.contents out.old out.new
        (IsAnswerOf (Q.answers question.now) beside.now I.remaining I.remaining inputs.old (I.remaining journal.old))) }
    ensures untouched { IfErr result (λ f. f ≢ DeskFault.Device → out.new ≡ out.old) }
{
    let text = match answered(rt, alloc, question, inputs, journal, beside) {
        Ok(text) => text,
        Err(fault) => return Err(fault),
    };
    match put_all(out, &text) {
        Ok(()) => Ok(()),
        Err(_) => Err(DeskFault::Device),
    }
}

/// The text that answers a question about the inputs.
fn answered<R: Threads + Sync, Q: Question, I: NotedRead>(
    rt: &R,
    alloc: Global,
    question: &Q,
    inputs: &mut Inputs<I, I>,
    journal: &mut I,
    beside: &Beside<'_>,
) -> Result<Vec<u8>, DeskFault>
    requires first { IsOfCentury inputs.old.first }
    requires days { (1 ≤ inputs.old.days) × (inputs.old.days ≤ 366) }
    ensures ok { IfOk result (λ text. IsAnswerOf (Q.answers question.now) beside.now I.remaining I.remaining inputs.old
        (I.remaining journal.old) text.items) }
    ensures fault { IfErr result (λ f. IsOfInput f →
        IsRefusedAnswerOf (Q.refuses question.now) beside.now I.remaining I.remaining inputs.old (I.remaining journal.old) f) }
    ensures large { IfErr result (λ f. f ≡ DeskFault.TooLarge
        → IsFirstTooLargeOf I.remaining I.remaining inputs.old (I.remaining journal.old)) }
    ensures device { IfErr result (λ f. f ≡ DeskFault.Device →
        HasFirstFailed I.remaining I.remaining I.failure_count I.failure_count I.failure_count inputs.old inputs.new journal.old journal.new) }
{
    let based = match load_based(alloc, inputs, beside.text.is_some()) {
        Ok(based) => based,
        Err(fault) => return Err(fault),
    };
    let bytes = match read_input(alloc, journal, MOST_JOURNAL_BYTES) {
        Ok(bytes) => bytes,
        Err(fault) => return Err(fault),
    };
    agreed(beside, &based.basis, &bytes)?;
    match question.text(rt, alloc, based.loaded, bytes) {
        Ok(text) => Ok(text),
        Err(fault) => Err(fault),
    }
}
