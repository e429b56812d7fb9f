//! The commands that only read, each with its streams and dates.
//! It knows which stream is which and which words name a day or a name, and nothing of what the commands do with them.
ghost use Rattle.std.specs.Prelude.{◌≡◌, ◌≤◌, IfOk};
ghost use Rattle.ssim_flights.specs.Right.{IsOfCentury};

use crate::locale::is_utf_8;
use airline_base::Day;
use command_inputs::{days_of, inputs_of, meter_input, meter_inputs, tell_replaced};
use desk_questions::ToldOf;
use progress_meter::{Lines, Meter};
use seat_desk::{DeskFault, Inputs, NO_LINES, Question, answer_question};
use seat_files::{
    Input, Output, Refusal, SealFile, SealOut, files_taken, is_moved, metered_output, opened,
    standard_input, standard_output, taken, taken_or, told,
};
use seat_open::{OpenAudit, OpenQuestion};
use seat_questions::{Bars, Why};
use seat_reports::{desk_audit, desk_check, desk_ladder, desk_seal, desk_season};
use seat_words::{Horizon, ToldJob, WordFault, line_word, session_word};
use std::thread::Threads;

pub fn ladder(rt: &HostRuntime) -> Result<(), Refusal> {
    let mut input = standard_input(rt);
    let mut out = standard_output(rt);
    let outcome = desk_ladder(rt.alloc(), &mut input, &mut out);
    told(outcome, &[&input], &[&out])
}

pub fn check(rt: &HostRuntime, meter: &Meter, set: &str) -> Result<(), Refusal> {
    let mut set = taken(rt, set)?;
    meter_input(rt, meter, &mut set, Lines::Uncounted);
    let mut out = metered_output(rt, meter);
    let outcome = desk_check(rt.alloc(), &mut set, &mut out);
    told(outcome, &[&set], &[&out])
}

/// A season file of a set and its limits, of which the set is read.
pub fn season(rt: &HostRuntime, set: &str, limits: &str) -> Result<(), Refusal> {
    let mut input = opened(rt, set)?;
    let mut out = standard_output(rt);
    let outcome = desk_season(rt.alloc(), &mut input, set, limits, &mut out);
    told(outcome, &[&input], &[&out])
}

/// What a desk is told of a journal, of its first line or a later one on.
pub fn told_of<R: Threads + Sync>(
    rt: &HostRuntime,
    threads: &R,
    meter: &Meter,
    asked: &ToldJob<'_>,
) -> Result<(), Refusal> {
    let over = &asked.over;
    let days = days_of(over.first, over.days)?;
    let Some(desk) = session_word(asked.desk) else {
        return Err(Refusal::unfit(asked.desk, "Is no session of 0 to 8"));
    };
    let from = from_asked(asked.from)?;
    let question = ToldOf { desk, from };
    asked_of(
        rt,
        threads,
        meter,
        over,
        days,
        &question,
        Some(asked.journal),
        asked.is_open,
    )
}

pub fn why<'a, R: Threads + Sync>(
    rt: &HostRuntime,
    threads: &R,
    meter: &Meter,
    over: &Horizon<'a>,
    line: &str,
    is_open: bool,
    journal: &'a str,
) -> Result<(), Refusal> {
    let days = days_of(over.first, over.days)?;
    let Some(line) = line_word(line) else {
        return Err(Refusal::from(WordFault::BadLine));
    };
    asked_of(
        rt,
        threads,
        meter,
        over,
        days,
        &Why { line },
        Some(journal),
        is_open,
    )
}

/// How a journal alone is looked at.
#[derive(Clone, Copy)]
pub struct Looked {
    /// There must be a seal beside it.
    pub is_sealed: bool,
    /// It is still open, and may be written meanwhile.
    pub is_open: bool,
    /// It has an answer, and no answer says that it is too long.
    pub is_page: bool,
}

/// The journal alone, without scripts. A long one takes all processors.
pub fn audit<'a, R: Threads + Sync>(
    rt: &HostRuntime,
    threads: &R,
    meter: &Meter,
    over: &Horizon<'a>,
    days: (Day, u16),
    journal: &'a str,
    looked: Looked,
) -> Result<(), Refusal>
    requires first { IsOfCentury days.0 }
    requires days { (1 ≤ days.1) × (days.1 ≤ 366) }
{
    if looked.is_open {
        return answered(
            rt,
            threads,
            meter,
            over,
            days,
            &OpenAudit,
            Some(journal),
            looked,
        );
    }
    let answer = match audited_once(rt, threads, meter, over, &days, journal, looked) {
        Ok(answer) => answer,
        Err(refusal) => return Err(refusal),
    };
    let Answer { outcome, is_moved } = answer;
    if !is_moved {
        return outcome;
    }
    match audited_once(rt, threads, meter, over, &days, journal, looked) {
        Ok(answer) => answer.outcome,
        Err(refusal) => Err(refusal),
    }
}

fn audited_once<'a, R: Threads + Sync>(
    rt: &HostRuntime,
    threads: &R,
    meter: &Meter,
    over: &Horizon<'a>,
    days: &(Day, u16),
    journal: &'a str,
    looked: Looked,
) -> Result<Answer, Refusal>
    requires first { IsOfCentury days.now.0 }
    requires days { (1 ≤ days.now.1) × (days.now.1 ≤ 366) }
{
    let texts = match texts_opened(rt, over, days, Some(journal), looked.is_sealed) {
        Ok(texts) => texts,
        Err(refusal) => return Err(refusal),
    };
    let Texts {
        mut inputs,
        mut journal,
        seal,
    } = texts;
    meter_inputs(rt, meter, &mut inputs);
    meter_input(rt, meter, &mut journal, Lines::Ended);
    let mut out = metered_output(rt, meter);
    let outcome = desk_audit(
        threads,
        rt.alloc(),
        &mut inputs,
        &mut journal,
        &seal.as_beside(),
        &mut out,
    );
    Ok(answer_of(rt, &inputs, &journal, outcome, &out, looked))
}

/// What a question reads, open: a journal, or one without lines, with what stands beside it.
#[derive(Drop)]
struct Texts {
    inputs: Inputs<Input, Input>,
    journal: Input,
    seal: SealFile,
}

fn texts_opened<'a>(
    rt: &HostRuntime,
    over: &Horizon<'a>,
    days: &(Day, u16),
    journal: Option<&'a str>,
    is_sealed: bool,
) -> Result<Texts, Refusal>
    ensures first { IfOk result (λ texts. texts.inputs.first ≡ days.now.0) }
    ensures days { IfOk result (λ texts. texts.inputs.days ≡ days.now.1) }
{
    let inputs = match inputs_of(rt, over, *days) {
        Ok(inputs) => inputs,
        Err(refusal) => return Err(refusal),
    };
    let journal = taken_or(rt, journal, &NO_LINES)?;
    let seal = SealFile::beside(rt, &journal, is_sealed)?;
    Ok(Texts {
        inputs,
        journal,
        seal,
    })
}

/// What a question came to over these. A seal that denies an open journal, or one that was replaced since it was opened, may be another's.
fn answer_of(
    rt: &HostRuntime,
    inputs: &Inputs<Input, Input>,
    journal: &Input,
    outcome: Result<(), DeskFault>,
    out: &Output,
    looked: Looked,
) -> Answer {
    match told(outcome, &[&inputs.set, &inputs.limits, journal], &[out]) {
        Ok(()) if looked.is_page && !out.is_used() => Answer {
            outcome: Err(Refusal::from(WordFault::LongPage)),
            is_moved: false,
        },
        Ok(()) => Answer {
            outcome: Ok(()),
            is_moved: false,
        },
        Err(refusal) => Answer {
            is_moved: refusal.is_of_seal() && (looked.is_open || is_moved(rt, journal)),
            outcome: Err(refusal.noting_unasked(journal)),
        },
    }
}

/// Writes the seal of a journal that an audit accepts, while the journal is locked. It keeps the runs of a seal that agrees, and tells of a
/// seal of other bytes that it took the place of.
pub fn seal<'a, R: Threads + Sync>(
    rt: &'a HostRuntime,
    threads: &R,
    meter: &Meter,
    over: &Horizon<'a>,
    journal: &'a str,
) -> Result<(), Refusal> {
    let days = days_of(over.first, over.days)?;
    let mut inputs = match inputs_of(rt, over, days) {
        Ok(inputs) => inputs,
        Err(refusal) => return Err(refusal),
    };
    let files = files_taken(rt, &inputs, &[], &[])?;
    let (mut out, mut journal) = SealOut::open(rt, journal, files.as_slice())?;
    let seal = match SealFile::beside(rt, &journal, false) {
        Ok(seal) => seal,
        Err(refusal) => {
            out.leave();
            return Err(refusal);
        }
    };
    meter_inputs(rt, meter, &mut inputs);
    meter_input(rt, meter, &mut journal, Lines::Ended);
    let outcome = desk_seal(
        threads,
        rt.alloc(),
        &mut inputs,
        &mut journal,
        &seal.as_beside(),
        &mut out,
    );
    meter.end(rt);
    out.leave();
    match told(outcome, &[&inputs.set, &inputs.limits, &journal], &[]) {
        Ok(()) => {
            tell_replaced(rt, journal.name(), &seal, &out);
            Ok(())
        }
        Err(refusal) => Err(refusal.noting_seal(&out)),
    }
}

/// The answer to a question about a journal that may be open.
pub fn asked_of<'a, R: Threads + Sync, Q: Question>(
    rt: &HostRuntime,
    threads: &R,
    meter: &Meter,
    over: &Horizon<'a>,
    days: (Day, u16),
    question: &Q,
    journal: Option<&'a str>,
    is_open: bool,
) -> Result<(), Refusal>
    requires first { IsOfCentury days.0 }
    requires days { (1 ≤ days.1) × (days.1 ≤ 366) }
{
    let looked = Looked {
        is_sealed: false,
        is_open,
        is_page: false,
    };
    looked_at(rt, threads, meter, over, days, question, journal, looked)
}

/// The same of a question whose answer is a page, which is refused where it is too long.
pub fn page_of<'a, R: Threads + Sync, Q: Question>(
    rt: &HostRuntime,
    threads: &R,
    meter: &Meter,
    over: &Horizon<'a>,
    days: (Day, u16),
    question: &Q,
    journal: Option<&'a str>,
    is_open: bool,
) -> Result<(), Refusal>
    requires first { IsOfCentury days.0 }
    requires days { (1 ≤ days.1) × (days.1 ≤ 366) }
{
    let looked = Looked {
        is_sealed: false,
        is_open,
        is_page: true,
    };
    looked_at(rt, threads, meter, over, days, question, journal, looked)
}

fn looked_at<'a, R: Threads + Sync, Q: Question>(
    rt: &HostRuntime,
    threads: &R,
    meter: &Meter,
    over: &Horizon<'a>,
    days: (Day, u16),
    question: &Q,
    journal: Option<&'a str>,
    looked: Looked,
) -> Result<(), Refusal>
    requires first { IsOfCentury days.0 }
    requires days { (1 ≤ days.1) × (days.1 ≤ 366) }
{
    if looked.is_open {
        return answered(
            rt,
            threads,
            meter,
            over,
            days,
            &OpenQuestion { question },
            journal,
            looked,
        );
    }
    answered(rt, threads, meter, over, days, question, journal, looked)
}

/// The answer to a question about a journal, or about one without lines, with what stands beside it. A journal that a run has replaced
/// meanwhile is read once more, with its seal, and so is an open one that the seal denies, to which the first line may just have been added: nothing is
/// written of one that is refused.
fn answered<'a, R: Threads + Sync, Q: Question>(
    rt: &HostRuntime,
    threads: &R,
    meter: &Meter,
    over: &Horizon<'a>,
    days: (Day, u16),
    question: &Q,
    journal: Option<&'a str>,
    looked: Looked,
) -> Result<(), Refusal>
    requires first { IsOfCentury days.0 }
    requires days { (1 ≤ days.1) × (days.1 ≤ 366) }
{
    let answer = match answered_once(rt, threads, meter, over, &days, question, journal, looked) {
        Ok(answer) => answer,
        Err(refusal) => return Err(refusal),
    };
    let Answer { outcome, is_moved } = answer;
    if !is_moved {
        return outcome;
    }
    match answered_once(rt, threads, meter, over, &days, question, journal, looked) {
        Ok(answer) => answer.outcome,
        Err(refusal) => Err(refusal),
    }
}

/// What a question came to, and whether its journal was replaced between the reading of the two, so that its seal was another's.
#[derive(Drop)]
struct Answer {
    outcome: Result<(), Refusal>,
    is_moved: bool,
}

fn answered_once<'a, R: Threads + Sync, Q: Question>(
    rt: &HostRuntime,
    threads: &R,
    meter: &Meter,
    over: &Horizon<'a>,
    days: &(Day, u16),
    question: &Q,
    journal: Option<&'a str>,
    looked: Looked,
) -> Result<Answer, Refusal>
    requires first { IsOfCentury days.now.0 }
    requires days { (1 ≤ days.now.1) × (days.now.1 ≤ 366) }
{
    let texts = match texts_opened(rt, over, days, journal, looked.is_sealed) {
        Ok(texts) => texts,
        Err(refusal) => return Err(refusal),
    };
    let Texts {
        mut inputs,
        mut journal,
        seal,
    } = texts;
    meter_inputs(rt, meter, &mut inputs);
    meter_input(rt, meter, &mut journal, lines_of(looked));
    let mut out = metered_output(rt, meter);
    let outcome = answer_question(
        threads,
        rt.alloc(),
        question,
        &mut inputs,
        &mut journal,
        &seal.as_beside(),
        &mut out,
    );
    Ok(answer_of(rt, &inputs, &journal, outcome, &out, looked))
}

/// The line from which on is asked; without one it is the first.
fn from_asked(from: Option<&str>) -> Result<u32, WordFault> {
    match from {
        None => Ok(1),
        Some(word) => match line_word(word) {
            Some(line) => Ok(line),
            None => Err(WordFault::BadLine),
        },
    }
}

/// Bars, where they are asked for: of blocks where the locale is one of UTF-8.
pub fn bars_asked(rt: &HostRuntime, bars: bool) -> Option<Bars> {
    if !bars {
        return None;
    }
    if is_utf_8(rt) {
        Some(Bars::Blocks)
    } else {
        Some(Bars::Plain)
    }
}

/// Which lines of a journal are counted: an open one has no END line.
fn lines_of(looked: Looked) -> Lines {
    if looked.is_open {
        Lines::Open
    } else {
        Lines::Ended
    }
}
