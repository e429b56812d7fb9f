//! `compare`: two seasons, and a journal over the old one.
//! It knows which stream is which, and nothing of what the command does with them.
ghost use Rattle.std.specs.Prelude.{◌≡◌, ◌≤◌, IfOk};
ghost use Rattle.ssim_flights.specs.Right.{IsOfCentury};

use airline_base::Day;
use command_inputs::{days_of, inputs_of, meter_input, meter_inputs};
use progress_meter::{Lines, Meter};
use season_changes::{SeasonFault, desk_compare};
use seat_desk::{Inputs, NO_LINES};
use seat_files::{Input, Output, Refusal, SealFile, is_moved, metered_output, taken_or};
use seat_words::Horizon;
use std::thread::Threads;

/// What a new season makes of the flights of an old one, with the seats of a journal over the old one, if one is named. A journal that a run
/// has replaced meanwhile is read once more, with its seal and both seasons.
pub fn compare<'a, R: Threads + Sync>(
    rt: &HostRuntime,
    threads: &R,
    meter: &Meter,
    from: &Horizon<'a>,
    to: &Horizon<'a>,
    journal: Option<&'a str>,
) -> Result<(), Refusal> {
    let from_days = days_of(from.first, from.days)?;
    let to_days = days_of(to.first, to.days)?;
    let attempt = match compared_once(rt, threads, meter, from, &from_days, to, &to_days, journal) {
        Ok(attempt) => attempt,
        Err(refusal) => return Err(refusal),
    };
    let Attempt { outcome, is_moved } = attempt;
    if !is_moved {
        return outcome;
    }
    match compared_once(rt, threads, meter, from, &from_days, to, &to_days, journal) {
        Ok(attempt) => attempt.outcome,
        Err(refusal) => Err(refusal),
    }
}

/// What a comparison came to, and whether its journal was replaced between its opening and the reading of its seal.
#[derive(Drop)]
struct Attempt {
    outcome: Result<(), Refusal>,
    is_moved: bool,
}

fn compared_once<'a, R: Threads + Sync>(
    rt: &HostRuntime,
    threads: &R,
    meter: &Meter,
    from: &Horizon<'a>,
    from_days: &(Day, u16),
    to: &Horizon<'a>,
    to_days: &(Day, u16),
    journal: Option<&'a str>,
) -> Result<Attempt, Refusal>
    requires from_first { IsOfCentury from_days.now.0 }
    requires from_days { (1 ≤ from_days.now.1) × (from_days.now.1 ≤ 366) }
    requires to_first { IsOfCentury to_days.now.0 }
    requires to_days { (1 ≤ to_days.now.1) × (to_days.now.1 ≤ 366) }
{
    let mut to_inputs = match inputs_of(rt, to, *to_days) {
        Ok(inputs) => inputs,
        Err(refusal) => return Err(refusal),
    };
    let mut from_inputs = match inputs_of(rt, from, *from_days) {
        Ok(inputs) => inputs,
        Err(refusal) => return Err(refusal),
    };
    let has_journal = journal.is_some();
    let mut journal = taken_or(rt, journal, &NO_LINES)?;
    let seal = SealFile::beside(rt, &journal, false)?;
    let mut out = metered_output(rt, meter);
    let outcome = compared(
        rt,
        threads,
        meter,
        &mut from_inputs,
        &mut to_inputs,
        has_journal,
        &mut journal,
        &seal,
        &mut out,
    );
    Ok(attempt_of(rt, outcome, &to_inputs, &from_inputs, &journal, &out))
}

/// The comparison of the two, with what is read counted.
fn compared<R: Threads + Sync>(
    rt: &HostRuntime,
    threads: &R,
    meter: &Meter,
    from: &mut Inputs<Input, Input>,
    to: &mut Inputs<Input, Input>,
    has_journal: bool,
    journal: &mut Input,
    seal: &SealFile,
    out: &mut Output,
) -> Result<(), SeasonFault>
    requires from_first { IsOfCentury from.old.first }
    requires from_days { (1 ≤ from.old.days) × (from.old.days ≤ 366) }
    requires to_first { IsOfCentury to.old.first }
    requires to_days { (1 ≤ to.old.days) × (to.old.days ≤ 366) }
{
    meter_inputs(rt, meter, from);
    meter_inputs(rt, meter, to);
    meter_input(rt, meter, journal, Lines::Ended);
    desk_compare(
        threads,
        rt.alloc(),
        from,
        to,
        has_journal,
        journal,
        &seal.as_beside(),
        out,
    )
}

/// What it came to, of the file that its fault is of: in the order in which they are read.
fn attempt_of(
    rt: &HostRuntime,
    outcome: Result<(), SeasonFault>,
    to: &Inputs<Input, Input>,
    from: &Inputs<Input, Input>,
    journal: &Input,
    out: &Output,
) -> Attempt {
    match outcome {
        Ok(()) => Attempt {
            outcome: Ok(()),
            is_moved: false,
        },
        Err(fault) => {
            let refusal = Refusal::from(fault.shown())
                .noting_all(&[&to.set, &to.limits, &from.set, &from.limits, journal])
                .noting_outputs(&[out]);
            Attempt {
                is_moved: refusal.is_of_seal() && is_moved(rt, journal),
                outcome: Err(refusal),
            }
        }
    }
}
