//! `route`: which shard each row of changes and each segment line of scripts goes to.
//! It knows which word names which file, and nothing of how a shard is found.
ghost use Rattle.std.specs.Prelude.{◌≡◌, ◌≤◌, length};

use command_inputs::{behind, meter_each, meter_input, scripts_opened};
use progress_meter::{Lines, Meter};
use route_reports::desk_route;
use seat_desk::DeskFault;
use seat_files::{Input, Output, Refusal, metered_output, opened_or, told};
use seat_words::{RouteJob, WordFault, sessions_of_run, shards_word};

/// Where the rows of the file of changes go, if one is named, and behind them the lines of each session's script.
pub fn route(rt: &HostRuntime, meter: &Meter, asked: &RouteJob<'_>) -> Result<(), Refusal> {
    let Some(shards) = shards_word(asked.shards) else {
        return Err(Refusal::from(WordFault::BadShards));
    };
    let scripts = asked.scripts.as_slice();
    let Some(sessions) = sessions_of_run(scripts, asked.changes.is_some()) else {
        return Err(Refusal::from(WordFault::BadScripts));
    };
    let mut changes = opened_or(rt, asked.changes, b"")?;
    let mut scripts = scripts_opened(rt, scripts, sessions)?;
    let mut out = metered_output(rt, meter);
    let outcome = routed(rt, meter, shards, &mut changes, &mut scripts, &mut out);
    behind(
        told(outcome, &[&changes], &[]),
        scripts.as_slice(),
        &[],
        &[&out],
    )
}

/// The routes, with what is read counted.
fn routed(
    rt: &HostRuntime,
    meter: &Meter,
    shards: u16,
    changes: &mut Input,
    scripts: &mut Vec<Input>,
    out: &mut Output,
) -> Result<(), DeskFault>
    requires shards { 1 ≤ shards }
    requires few { length scripts.old.items ≤ 8 }
{
    meter_input(rt, meter, changes, Lines::Uncounted);
    meter_each(rt, meter, scripts, Lines::Uncounted);
    desk_route(rt.alloc(), shards, changes, scripts.as_mut_slice(), out)
}
