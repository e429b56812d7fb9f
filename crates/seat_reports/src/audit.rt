//! `audit`: a journal, replayed over the limits, and one line with its totals.
ghost use Rattle.std.specs.Prelude.{◌≡◌, ◌≢◌, ◌≤◌, ◌⊎◌, IfErr, IfOk, OnOk, length};
ghost use Rattle.ssim_flights.specs.Right.{IsOfCentury};
ghost use Rattle.seat_desk.specs.Answering.{HasFirstFailed, IsAnswerOf, IsFirstTooLargeOf, IsRefusedAnswerOf};
ghost use Rattle.seat_desk.specs.AuditDesk.{most_journal_bytes, IsAudited, IsUnlawful};
ghost use Rattle.seat_desk.specs.Desk.{InputFailed, IsOfInput, IsWritten, OutputFailed};

use airline_base::{NotedRead, NotedWrite, put_all};
use seat_desk::{
    DeskFault, Inputs, Loaded, MOST_JOURNAL_BYTES, Question, agreed, audit_line, load_based,
    read_input, totalled,
};
use seat_nesting::Grid;
use seat_seal::Beside;
use std::alloc::Global;
use std::thread::Threads;

/// Whether a journal is a legal history over the grid of a data set and limit rows, and its totals in one line. Over the loaded
/// grid each history, and so each beginning of the journal, holds no more than the limits that it leaves:
/// [`loaded_replays_keep_limits`](seat_desk::loaded_replays_keep_limits).
pub struct Audit;

impl Question for Audit {
    ghost use Rattle.seat_desk.specs.AuditDesk.{IsAudited, IsUnlawful};

    ghost answers = { λ audit flights rows grid journal line. IsAudited grid journal line };

    ghost refuses = { λ audit grid fault journal. IsUnlawful grid fault journal };

    fn text<R: Threads + Sync>(
        &self,
        rt: &R,
        alloc: Global,
        loaded: Loaded,
        journal: Vec<u8>,
    ) -> Result<Vec<u8>, DeskFault> {
        line_over(rt, alloc, loaded, journal)
    }
}

/// Audits a journal as [`answer_question`](seat_desk::answer_question) does with [`Audit`], a long one on all processors.
pub fn desk_audit<R: Threads + Sync, I: NotedRead, W: NotedWrite>(
    rt: &R,
    alloc: Global,
    inputs: &mut Inputs<I, I>,
    journal: &mut I,
    beside: &Beside<'_>,
    out: &mut W,
) -> Result<(), DeskFault>
    requires first { IsOfCentury inputs.old.first }
    requires days { (1 ≤ inputs.old.days) × (inputs.old.days ≤ 366) }
    ensures ok { OnOk result (IsWritten
        (IsAnswerOf (λ flights rows. IsAudited) beside.now I.remaining I.remaining inputs.old (I.remaining journal.old)) (W.contents out.old) (W.contents out.new)) }
    ensures fault { IfErr result (λ f. IsOfInput f →
        IsRefusedAnswerOf IsUnlawful beside.now I.remaining I.remaining inputs.old (I.remaining journal.old) f) }
    ensures large { IfErr result (λ f. f ≡ DeskFault.TooLarge
        → IsFirstTooLargeOf I.remaining I.remaining inputs.old (I.remaining journal.old)) }
    ensures device { IfErr result (λ f. f ≡ DeskFault.Device →
        InputFailed (HasFirstFailed I.remaining I.remaining I.failure_count I.failure_count I.failure_count inputs.old inputs.new journal.old journal.new)
        out.old out.new
        ⊎ OutputFailed W.failure_count W.contents out.old out.new
        (IsAnswerOf (λ flights rows. IsAudited) beside.now I.remaining I.remaining inputs.old (I.remaining journal.old))) }
    ensures untouched { IfErr result (λ f. f ≢ DeskFault.Device → out.new ≡ out.old) }
{
    let line = match audited(rt, alloc, inputs, journal, beside) {
        Ok(line) => line,
        Err(fault) => return Err(fault),
    };
    match put_all(out, &line) {
        Ok(()) => Ok(()),
        Err(_) => Err(DeskFault::Device),
    }
}

/// The line of a journal that is audited, each input read and checked before the next.
fn audited<R: Threads + Sync, I: NotedRead>(
    rt: &R,
    alloc: Global,
    inputs: &mut Inputs<I, I>,
    journal: &mut I,
    beside: &Beside<'_>,
) -> Result<Vec<u8>, DeskFault>
    requires first { IsOfCentury inputs.old.first }
    requires days { (1 ≤ inputs.old.days) × (inputs.old.days ≤ 366) }
    ensures ok { IfOk result (λ line. IsAnswerOf (λ flights rows. IsAudited) beside.now I.remaining I.remaining inputs.old
        (I.remaining journal.old) line.items) }
    ensures fault { IfErr result (λ f. IsOfInput f →
        IsRefusedAnswerOf IsUnlawful beside.now I.remaining I.remaining inputs.old (I.remaining journal.old) f) }
    ensures large { IfErr result (λ f. f ≡ DeskFault.TooLarge
        → IsFirstTooLargeOf I.remaining I.remaining inputs.old (I.remaining journal.old)) }
    ensures device { IfErr result (λ f. f ≡ DeskFault.Device →
        HasFirstFailed I.remaining I.remaining I.failure_count I.failure_count I.failure_count inputs.old inputs.new journal.old journal.new) }
{
    let based = match load_based(alloc, inputs, beside.text.is_some()) {
        Ok(based) => based,
        Err(fault) => return Err(fault),
    };
    let bytes = match read_input(alloc, journal, MOST_JOURNAL_BYTES) {
        Ok(bytes) => bytes,
        Err(fault) => return Err(fault),
    };
    agreed(beside, &based.basis, &bytes)?;
    match line_over(rt, alloc, based.loaded, bytes) {
        Ok(line) => Ok(line),
        Err(fault) => Err(fault),
    }
}

/// The line of a journal over the loaded grid. The flights and the rows are dropped first.
fn line_over<R: Threads + Sync>(
    rt: &R,
    alloc: Global,
    loaded: Loaded,
    journal: Vec<u8>,
) -> Result<Vec<u8>, DeskFault>
    requires size { length journal.items ≤ most_journal_bytes }
    ensures ok { IfOk result (λ line. IsAudited loaded.grid journal.items line.items) }
    ensures fault { IfErr result (λ f. f ≢ DeskFault.Memory → IsUnlawful loaded.grid f journal.items) }
    ensures kind { IfErr result (λ f. (f ≢ DeskFault.Device) × (f ≢ DeskFault.TooLarge)) }
{
    let Loaded {
        flights,
        rows,
        grid,
    } = loaded;
    drop(flights);
    drop(rows);
    line_of(rt, alloc, grid, journal)
}

fn line_of<R: Threads + Sync>(
    rt: &R,
    alloc: Global,
    grid: Grid,
    journal: Vec<u8>,
) -> Result<Vec<u8>, DeskFault>
    requires size { length journal.items ≤ most_journal_bytes }
    ensures ok { IfOk result (λ line. IsAudited grid journal.items line.items) }
    ensures fault { IfErr result (λ f. f ≢ DeskFault.Memory → IsUnlawful grid f journal.items) }
    ensures kind { IfErr result (λ f. (f ≢ DeskFault.Device) × (f ≢ DeskFault.TooLarge)) }
{
    let totals = totalled(rt, alloc, grid, journal)?;
    match audit_line(alloc, totals) {
        Ok(line) => Ok(line),
        Err(_) => Err(DeskFault::Memory),
    }
}
