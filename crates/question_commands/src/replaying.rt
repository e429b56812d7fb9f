//! The commands that look at what was sold: `audit` and `replies` with the scripts of a run.
//! It knows which stream is which, and nothing of what the commands do with them.
ghost use Rattle.std.specs.Prelude.{◌≡◌, ◌≤◌, IfOk, IfSome, OnOk, length};
ghost use Rattle.airline_base.specs.Days.{IsCenturyDay};
ghost use Rattle.command_inputs.specs.Sorted.{AreCleaned};
ghost use Rattle.ssim_flights.specs.Right.{IsOfCentury};

use crate::commands;
use crate::commands::Looked;
use airline_base::Day;
use command_inputs::{
    behind, day_of_run, days_of, form_asked, inputs_of, lines_behind, meter_each, meter_input,
    meter_inputs, scripts_opened, seals_of, sort_out_as,
};
use progress_meter::{Lines, Meter};
use reply_tables::desk_reply_table;
use seat_desk::{DeskFault, Inputs, NO_LINES};
use seat_files::{
    Input, Output, Refusal, is_moved, metered_output, opened, opened_or, taken, told,
};
use seat_scripts::{Besides, Wanted, desk_audit_against, desk_replies};
use seat_tables::Form;
use seat_words::{
    AuditJob, Horizon, RepliesJob, WordFault, audit_lacks, line_word, session_word, sessions_of_run,
};
use std::thread::Threads;

/// Without a script the journal is looked at alone. Scripts need the day of the run, and it needs scripts, as older lines do.
pub fn audit<R: Threads + Sync>(
    rt: &HostRuntime,
    threads: &R,
    meter: &Meter,
    asked: &AuditJob<'_>,
) -> Result<(), Refusal> {
    let over = &asked.over;
    let days = days_of(over.first, over.days)?;
    let today = match asked.today {
        Some(today) => Some(day_of_run(today)?),
        None => None,
    };
    let given = lines_behind(asked.after, asked.behind)?;
    let scripts = asked.scripts.as_slice();
    let has_older = asked.after.is_some() || asked.behind.is_some() || asked.refused.is_some();
    if let Some(fault) = audit_lacks(!scripts.is_empty(), has_older, today.is_some()) {
        return Err(Refusal::from(fault));
    }
    if asked.is_open && today.is_some() {
        return Err(Refusal::from(WordFault::BadScripts));
    }
    let Some(today) = today else {
        let looked = Looked {
            is_sealed: asked.sealed,
            is_open: asked.is_open,
            is_page: false,
        };
        return commands::audit(rt, threads, meter, over, days, asked.journal, looked);
    };
    let replayed = Replayed {
        after: asked.after,
        given,
        today,
        journal: asked.journal,
        is_sealed: asked.sealed,
        scripts,
        refused: asked.refused,
    };
    audit_against(rt, threads, meter, over, days, &replayed)
}

/// What is read beside the set and the limits, as it was written: two journals, the day of the run, and the scripts.
#[derive(Clone, Copy)]
struct Replayed<'a, 'b> {
    after: Option<&'a str>,
    given: Option<u32>,
    today: Day,
    journal: &'a str,
    is_sealed: bool,
    scripts: &'b [&'a str],
    /// The list of the lines that the scripts are read without.
    refused: Option<&'a str>,
}

/// What one attempt at two journals came to, and whether one of them was replaced between its opening and the reading of its
/// seal, so that the seal was another's.
#[derive(Drop)]
struct Attempt {
    outcome: Result<(), Refusal>,
    is_moved: bool,
}

/// A journal that a run has replaced meanwhile is read once more, with all else: nothing is written where a seal denies it.
fn audit_against<'a, R: Threads + Sync>(
    rt: &HostRuntime,
    threads: &R,
    meter: &Meter,
    over: &Horizon<'a>,
    days: (Day, u16),
    replayed: &Replayed<'a, '_>,
) -> Result<(), Refusal>
    requires first { IsOfCentury days.0 }
    requires days { (1 ≤ days.1) × (days.1 ≤ 366) }
    requires today { IsCenturyDay replayed.now.today }
{
    let attempt = match audited_once(rt, threads, meter, over, &days, replayed) {
        Ok(attempt) => attempt,
        Err(refusal) => return Err(refusal),
    };
    let Attempt { outcome, is_moved } = attempt;
    if !is_moved {
        return outcome;
    }
    match audited_once(rt, threads, meter, over, &days, replayed) {
        Ok(looked) => looked.outcome,
        Err(refusal) => Err(refusal),
    }
}

fn audited_once<'a, R: Threads + Sync>(
    rt: &HostRuntime,
    threads: &R,
    meter: &Meter,
    over: &Horizon<'a>,
    days: &(Day, u16),
    replayed: &Replayed<'a, '_>,
) -> Result<Attempt, Refusal>
    requires first { IsOfCentury days.now.0 }
    requires days { (1 ≤ days.now.1) × (days.now.1 ≤ 366) }
    requires today { IsCenturyDay replayed.now.today }
{
    let files = match files_opened(rt, meter, over, days, replayed, false) {
        Ok(files) => files,
        Err(refusal) => return Err(refusal),
    };
    let seals = seals_of(rt, &files.after, &files.journal, replayed.is_sealed)?;
    let mut out = metered_output(rt, meter);
    let Files {
        mut inputs,
        mut after,
        mut journal,
        mut scripts,
    } = files;
    meter_inputs(rt, meter, &mut inputs);
    meter_each(rt, meter, &mut scripts, Lines::Uncounted);
    meter_input(rt, meter, &mut after, Lines::Ended);
    meter_input(rt, meter, &mut journal, Lines::Ended);
    let outcome = desk_audit_against(
        threads,
        rt.alloc(),
        &mut inputs,
        &mut after,
        replayed.given,
        &mut journal,
        &seals.as_besides(),
        scripts.as_mut_slice(),
        replayed.today,
        &mut out,
    );
    let files = Files {
        inputs,
        after,
        journal,
        scripts,
    };
    Ok(attempt_of(rt, &files, outcome, &out))
}

/// What is read beside seals, open.
#[derive(Drop)]
struct Files {
    inputs: Inputs<Input, Input>,
    after: Input,
    journal: Input,
    scripts: Vec<Input>,
}

/// Without a script there are none where a run without one had changes alone.
fn files_opened<'a>(
    rt: &HostRuntime,
    meter: &Meter,
    over: &Horizon<'a>,
    days: &(Day, u16),
    replayed: &Replayed<'a, '_>,
    may_be_changes: bool,
) -> Result<Files, Refusal>
    ensures first { IfOk result (λ files. files.inputs.first ≡ days.now.0) }
    ensures days { IfOk result (λ files. files.inputs.days ≡ days.now.1) }
    ensures scripts { IfOk result (λ files.
        (1 ≤ length files.scripts.items) × (length files.scripts.items ≤ 8)) }
    ensures cleaned { IfOk result (λ files. IfSome replayed.now.refused (λ name. AreCleaned files.scripts.items)) }
{
    let Some(sessions) = sessions_of_run(replayed.scripts, may_be_changes) else {
        return Err(Refusal::from(WordFault::BadScripts));
    };
    let inputs = match inputs_of(rt, over, *days) {
        Ok(inputs) => inputs,
        Err(refusal) => return Err(refusal),
    };
    let (after, journal) = journals_opened(rt, replayed)?;
    let mut scripts = scripts_opened(rt, replayed.scripts, sessions)?;
    sort_out_beside(rt, meter, replayed.refused, &mut scripts)?;
    Ok(Files {
        inputs,
        after,
        journal,
        scripts,
    })
}

/// Sorts the scripts out where a list of their wrong lines is named, which must be that.
fn sort_out_beside(
    rt: &HostRuntime,
    meter: &Meter,
    refused: Option<&str>,
    scripts: &mut Vec<Input>,
) -> Result<(), Refusal>
    requires few { length scripts.old.items ≤ 8 }
    ensures each { OnOk result (length scripts.new.items ≡ length scripts.old.items) }
    ensures cleaned { OnOk result (IfSome refused.entry (λ name. AreCleaned scripts.new.items)) }
{
    let Some(name) = refused else {
        return Ok(());
    };
    let mut list = opened(rt, name)?;
    meter_each(rt, meter, scripts, Lines::Uncounted);
    meter_input(rt, meter, &mut list, Lines::Uncounted);
    sort_out_as(rt, scripts, &mut list)
}

fn journals_opened(
    rt: &HostRuntime,
    replayed: &Replayed<'_, '_>,
) -> Result<(Input, Input), Refusal> {
    let after = opened_or(rt, replayed.after, &NO_LINES)?;
    let journal = taken(rt, replayed.journal)?;
    Ok((after, journal))
}

/// What a command over these files came to.
fn attempt_of(
    rt: &HostRuntime,
    files: &Files,
    outcome: Result<(), DeskFault>,
    out: &Output,
) -> Attempt {
    let inputs = &files.inputs;
    let ahead = told(
        outcome,
        &[&inputs.set, &inputs.limits, &files.after, &files.journal],
        &[],
    );
    match behind(ahead, files.scripts.as_slice(), &[], &[out]) {
        Ok(()) => Attempt {
            outcome: Ok(()),
            is_moved: false,
        },
        Err(refusal) => Attempt {
            is_moved: refusal.is_of_seal() && is_one_moved(rt, files),
            outcome: Err(refusal.noting_unasked(&files.journal)),
        },
    }
}

fn is_one_moved(rt: &HostRuntime, files: &Files) -> bool {
    is_moved(rt, &files.after) || is_moved(rt, &files.journal)
}

/// Which replies are wanted: those to one session, and those from a line on.
fn wanted_of(asked: &RepliesJob<'_>) -> Result<Wanted, WordFault> {
    let session = match asked.session {
        Some(word) => Some(session_word(word).ok_or(WordFault::BadSession)?),
        None => None,
    };
    let from = match asked.from {
        Some(word) => line_word(word).ok_or(WordFault::BadLine)?,
        None => 0,
    };
    Ok(Wanted { session, from })
}

/// A run without a script had changes alone.
pub fn replies<R: Threads + Sync>(
    rt: &HostRuntime,
    threads: &R,
    meter: &Meter,
    asked: &RepliesJob<'_>,
) -> Result<(), Refusal> {
    let over = &asked.over;
    let days = days_of(over.first, over.days)?;
    let today = day_of_run(asked.today)?;
    let given = lines_behind(asked.after, asked.behind)?;
    let wanted = wanted_of(asked)?;
    let form = form_asked(asked.shape, false)?;
    let replayed = Replayed {
        after: asked.after,
        given,
        today,
        journal: asked.journal,
        is_sealed: false,
        scripts: asked.scripts.as_slice(),
        refused: asked.refused,
    };
    let attempt = match replied_once(rt, threads, meter, over, &days, &replayed, wanted, form) {
        Ok(attempt) => attempt,
        Err(refusal) => return Err(refusal),
    };
    let Attempt { outcome, is_moved } = attempt;
    if !is_moved {
        return outcome;
    }
    match replied_once(rt, threads, meter, over, &days, &replayed, wanted, form) {
        Ok(looked) => looked.outcome,
        Err(refusal) => Err(refusal),
    }
}

fn replied_once<'a, R: Threads + Sync>(
    rt: &HostRuntime,
    threads: &R,
    meter: &Meter,
    over: &Horizon<'a>,
    days: &(Day, u16),
    replayed: &Replayed<'a, '_>,
    wanted: Wanted,
    form: Option<Form>,
) -> Result<Attempt, Refusal>
    requires first { IsOfCentury days.now.0 }
    requires days { (1 ≤ days.now.1) × (days.now.1 ≤ 366) }
    requires today { IsCenturyDay replayed.now.today }
{
    let files = match files_opened(rt, meter, over, days, replayed, true) {
        Ok(files) => files,
        Err(refusal) => return Err(refusal),
    };
    let seals = seals_of(rt, &files.after, &files.journal, replayed.is_sealed)?;
    let mut out = metered_output(rt, meter);
    let Files {
        mut inputs,
        mut after,
        mut journal,
        mut scripts,
    } = files;
    meter_inputs(rt, meter, &mut inputs);
    meter_each(rt, meter, &mut scripts, Lines::Uncounted);
    meter_input(rt, meter, &mut after, Lines::Ended);
    meter_input(rt, meter, &mut journal, Lines::Ended);
    let outcome = replies_put(
        rt,
        threads,
        form,
        &mut inputs,
        &mut after,
        replayed,
        &mut journal,
        &seals.as_besides(),
        scripts.as_mut_slice(),
        wanted,
        &mut out,
    );
    let files = Files {
        inputs,
        after,
        journal,
        scripts,
    };
    Ok(attempt_of(rt, &files, outcome, &out))
}

/// The replies as text, or in a form.
fn replies_put<R: Threads + Sync>(
    rt: &HostRuntime,
    threads: &R,
    form: Option<Form>,
    inputs: &mut Inputs<Input, Input>,
    after: &mut Input,
    replayed: &Replayed<'_, '_>,
    journal: &mut Input,
    besides: &Besides<'_>,
    scripts: &mut [Input],
    wanted: Wanted,
    out: &mut Output,
) -> Result<(), DeskFault>
    requires first { IsOfCentury inputs.old.first }
    requires days { (1 ≤ inputs.old.days) × (inputs.old.days ≤ 366) }
    requires today { IsCenturyDay replayed.now.today }
    requires scripts { (1 ≤ length scripts.old) × (length scripts.old ≤ 8) }
{
    let given = replayed.given;
    let today = replayed.today;
    match form {
        Some(form) => desk_reply_table(
            threads,
            rt.alloc(),
            form,
            inputs,
            after,
            given,
            journal,
            besides,
            scripts,
            today,
            wanted,
            out,
        ),
        None => desk_replies(
            threads,
            rt.alloc(),
            inputs,
            after,
            given,
            journal,
            besides,
            scripts,
            today,
            wanted,
            out,
        ),
    }
}
