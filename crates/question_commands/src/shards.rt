//! `--shards`: the journals of hosts that have different flights over one set and its limits, audited, or asked as one.
//! It knows which words name them, and nothing of what is in them.
ghost use Rattle.std.specs.Prelude.{◌≡◌, ◌≤◌, IfOk};
ghost use Rattle.ssim_flights.specs.Right.{IsOfCentury};

use airline_base::Day;
use command_inputs::{days_of, inputs_of, meter_each, meter_inputs};
use progress_meter::{Lines, Meter};
use seat_desk::{DeskFault, Inputs, Question};
use seat_files::{Input, Output, Refusal, metered_output, taken};
use seat_shards::{ShardFault, desk_shards};
use seat_words::{AuditJob, Horizon, WordFault};
use shard_questions::answer_shards;
use std::thread::Threads;

/// Audits the journals that are named.
pub fn audit_shards<R: Threads + Sync>(
    rt: &HostRuntime,
    threads: &R,
    meter: &Meter,
    asked: &AuditJob<'_>,
) -> Result<(), Refusal> {
    let over = &asked.over;
    let days = days_of(over.first, over.days)?;
    if !is_plain(asked) {
        return Err(Refusal::from(WordFault::BadShards));
    }
    let shards = match shards_opened(rt, over, days, asked.journal, asked.scripts.as_slice()) {
        Ok(shards) => shards,
        Err(refusal) => return Err(refusal),
    };
    let Shards {
        mut inputs,
        mut journals,
    } = shards;
    let mut out = metered_output(rt, meter);
    let outcome = shards_audited(rt, threads, meter, &mut inputs, &mut journals, &mut out);
    noted(outcome, &inputs, journals.as_slice(), &[&out])
}

/// Answers a question about the journals that are named, as about one of all of them. An answer that is a page is refused where it is
/// too long.
pub fn shards_asked<'a, R: Threads + Sync, Q: Question>(
    rt: &HostRuntime,
    threads: &R,
    meter: &Meter,
    over: &Horizon<'a>,
    days: (Day, u16),
    question: &Q,
    first: &'a str,
    others: &[&'a str],
    is_page: bool,
) -> Result<(), Refusal>
    requires first { IsOfCentury days.0 }
    requires days { (1 ≤ days.1) × (days.1 ≤ 366) }
{
    let shards = match shards_opened(rt, over, days, first, others) {
        Ok(shards) => shards,
        Err(refusal) => return Err(refusal),
    };
    let Shards {
        mut inputs,
        mut journals,
    } = shards;
    let mut out = metered_output(rt, meter);
    let outcome = shards_answered(
        rt,
        threads,
        meter,
        question,
        &mut inputs,
        &mut journals,
        &mut out,
    );
    match noted(outcome, &inputs, journals.as_slice(), &[&out]) {
        Ok(()) if is_page && !out.is_used() => Err(Refusal::from(WordFault::LongPage)),
        Ok(()) => Ok(()),
        Err(refusal) => Err(refusal),
    }
}

fn shards_answered<R: Threads + Sync, Q: Question>(
    rt: &HostRuntime,
    threads: &R,
    meter: &Meter,
    question: &Q,
    inputs: &mut Inputs<Input, Input>,
    journals: &mut Vec<Input>,
    out: &mut Output,
) -> Result<(), ShardFault>
    requires first { IsOfCentury inputs.old.first }
    requires days { (1 ≤ inputs.old.days) × (inputs.old.days ≤ 366) }
{
    meter_inputs(rt, meter, inputs);
    meter_each(rt, meter, journals, Lines::Ended);
    answer_shards(
        threads,
        rt.alloc(),
        question,
        inputs,
        journals.as_mut_slice(),
        out,
    )
}

fn shards_audited<R: Threads + Sync>(
    rt: &HostRuntime,
    threads: &R,
    meter: &Meter,
    inputs: &mut Inputs<Input, Input>,
    journals: &mut Vec<Input>,
    out: &mut Output,
) -> Result<(), ShardFault>
    requires first { IsOfCentury inputs.old.first }
    requires days { (1 ≤ inputs.old.days) × (inputs.old.days ≤ 366) }
{
    meter_inputs(rt, meter, inputs);
    meter_each(rt, meter, journals, Lines::Ended);
    desk_shards(threads, rt.alloc(), inputs, journals.as_mut_slice(), out)
}

/// The inputs and the journals, open.
#[derive(Drop)]
struct Shards {
    inputs: Inputs<Input, Input>,
    journals: Vec<Input>,
}

fn shards_opened<'a>(
    rt: &HostRuntime,
    over: &Horizon<'a>,
    days: (Day, u16),
    first: &'a str,
    others: &[&'a str],
) -> Result<Shards, Refusal>
    ensures first { IfOk result (λ shards. shards.inputs.first ≡ days.0) }
    ensures days { IfOk result (λ shards. shards.inputs.days ≡ days.1) }
{
    let inputs = match inputs_of(rt, over, days) {
        Ok(inputs) => inputs,
        Err(refusal) => return Err(refusal),
    };
    let journals = journals_opened(rt, first, others)?;
    Ok(Shards { inputs, journals })
}

/// What it came to, of the file that it is of.
fn noted(
    outcome: Result<(), ShardFault>,
    inputs: &Inputs<Input, Input>,
    journals: &[Input],
    outs: &[&Output],
) -> Result<(), Refusal> {
    match outcome {
        Ok(()) => Ok(()),
        Err(fault) => Err(
            Refusal::from(fault)
                .noting_all(&[&inputs.set, &inputs.limits])
                .noting_each(journals)
                .noting_outputs(outs),
        ),
    }
}

/// Whether the words ask for the journals as they stand: ended ones, without scripts, older journals and seals.
fn is_plain(asked: &AuditJob<'_>) -> bool {
    asked.after.is_none()
        && asked.behind.is_none()
        && asked.today.is_none()
        && asked.refused.is_none()
        && !asked.sealed
        && !asked.is_open
}

/// The files of all these words, open.
fn journals_opened<'a>(
    rt: &HostRuntime,
    first: &'a str,
    others: &[&'a str],
) -> Result<Vec<Input>, Refusal> {
    let mut files = Vec::new(rt.alloc());
    push(&mut files, taken(rt, first)?)?;
    for word in others {
        push(&mut files, taken(rt, *word)?)?;
    }
    Ok(files)
}

fn push(files: &mut Vec<Input>, file: Input) -> Result<(), Refusal> {
    match files.push(file) {
        Ok(()) => Ok(()),
        Err(_) => Err(Refusal::from(DeskFault::Memory)),
    }
}
