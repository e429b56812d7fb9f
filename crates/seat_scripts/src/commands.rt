//! What requests ask of the inventory.
ghost use Rattle.std.specs.Prelude.{◌≡◌, ◌-◌, ◌++◌, ◌<◌, IfOk, Ok, OnOk, Some, length, map, slice_get};
ghost use Rattle.seat_replies.specs.Going.{idle, lists_over};
ghost use Rattle.seat_replies.specs.Requests.{commands_of};
ghost use Rattle.seat_scripts.specs.SideBySide.{AreFound};

use crate::past::highest;
use crate::scripts::is_alone;
use airimp_lines::{Request, Requests};
use seat_core::Core;
use seat_journal::CommandList;
use seat_replies::command_of;
use ssim_flights::{Flights, Served};
use std::alloc::{AllocError, Global};
use std::thread::{Threads, map_indices};

/// The commands of each script, in the order of the scripts, and none for each further session as far as one that has a line.
pub fn lists_over<X: Threads + Sync>(
    rt: &X,
    alloc: Global,
    past: &Core,
    flights: &Flights,
    scripts: &[Requests],
) -> Result<Vec<CommandList>, AllocError>
    ensures { IfOk result (λ lists. lists.items
        ≡ lists_over past.now.journal (map (commands_of flights.now) scripts.now)) }
{
    let mut lists = command_lists(rt, alloc, flights, scripts)?;
    add_idle(alloc, &mut lists, highest(past))?;
    Ok(lists)
}

/// Adds lists of nothing, until there are as many lists as this.
#[tactic(auto, using(seat_replies::proofs::Going::idle_end))]
fn add_idle(alloc: Global, lists: &mut Vec<CommandList>, sessions: u8) -> Result<(), AllocError>
    ensures { OnOk result (lists.new.items ≡ lists.old.items ++ idle (sessions - length lists.old.items)) }
{
    while lists.len() < usize::from(sessions) {
        lists.push(CommandList::from_vec(Vec::new(alloc)))?;
    }
    Ok(())
}

/// The commands of each script, in the order of the scripts.
fn command_lists<X: Threads + Sync>(
    rt: &X,
    alloc: Global,
    flights: &Flights,
    scripts: &[Requests],
) -> Result<Vec<CommandList>, AllocError>
    ensures { IfOk result (λ lists. lists.items ≡ map (commands_of flights.now) scripts.now) }
{
    let Ok(served) = Served::new(alloc, flights) else {
        return Err(AllocError);
    };
    lists_beside(rt, alloc, &served, scripts)
}

/// The commands of each script, those of several found on threads of their own, where there are processors for it and these can be had.
fn lists_beside<X: Threads + Sync>(
    rt: &X,
    alloc: Global,
    served: &Served<'_>,
    scripts: &[Requests],
) -> Result<Vec<CommandList>, AllocError>
    ensures { IfOk result (λ lists. lists.items ≡ map (commands_of served.now) scripts.now) }
{
    if scripts.len() < 2 || is_alone(rt) {
        return lists_in_turn(alloc, served, scripts);
    }
    let found = found_beside(rt, alloc, served, scripts)?;
    all_of(alloc, found)
}

/// The commands of each script, one after the other.
fn lists_in_turn(
    alloc: Global,
    served: &Served<'_>,
    scripts: &[Requests],
) -> Result<Vec<CommandList>, AllocError>
    ensures { IfOk result (λ lists. lists.items ≡ map (commands_of served.now) scripts.now) }
{
    let mut lists = Vec::with_capacity(alloc, scripts.len())?;
    for script in scripts {
        lists.push(commands(alloc, served, script.as_slice())?)?;
    }
    Ok(lists)
}

/// What was found of each script, in the order of the scripts.
fn found_beside<X: Threads + Sync>(
    rt: &X,
    alloc: Global,
    served: &Served<'_>,
    scripts: &[Requests],
) -> Result<Vec<Result<CommandList, AllocError>>, AllocError>
    ensures { IfOk result (λ found. AreFound (map (commands_of served.now) scripts.now) found.items) }
{
    let find = |i: usize| -> Result<CommandList, AllocError>
        requires { i < length scripts.now }
        ensures { IfOk result (λ list. slice_get (map (commands_of served.entry.now) scripts.entry.now) i ≡ Some list) }
    { commands(alloc, served, scripts[i].as_slice()) };
    map_indices(rt, alloc, scripts.len(), &find)
}

/// These lists, where all could be made.
fn all_of(
    alloc: Global,
    found: Vec<Result<CommandList, AllocError>>,
) -> Result<Vec<CommandList>, AllocError>
    ensures { IfOk result (λ lists. found.items ≡ map Ok lists.items) }
{
    let mut lists = Vec::with_capacity(alloc, found.len())?;
    for list in found {
        lists.push(list?)?;
    }
    Ok(lists)
}

/// A command for each request, on the first place that serves it.
fn commands(
    alloc: Global,
    served: &Served<'_>,
    requests: &[Request],
) -> Result<CommandList, AllocError>
    ensures { IfOk result (λ commands. commands ≡ commands_of served.now requests.now) }
{
    let mut commands = Vec::with_capacity(alloc, requests.len())?;
    for request in requests {
        commands.push(command_of(served, request))?;
    }
    Ok(CommandList::from_vec(commands))
}
