//! Two sessions side by side, each with a list of its own.
ghost use Rattle.std.specs.Prelude.{◌≡◌, All, IfOk, IsTrue};
ghost use Rattle.seat_rules.specs.Journal.{FitsCommand};

use crate::files::{LEG, grid_of};
use crate::meeting::Meeting;
use airline_base::{Class, Code, Locator, Memory};
use seat_host::{Host, Hosting, Parts, Session, Shows};
use seat_journal::{Command, CommandList};
use seat_nesting::Grid;
use seat_workers::{no_faults, run_sessions};
use std::alloc::Global;
use std::marker::Brand;
use std::sync::Wait;
use std::test::Fail;
use std::thread::Threads;

fn fits(grid: &Grid, command: &Command) -> bool
    ensures { IsTrue result → FitsCommand grid.now command.now }
{
    let seats = command.seats;
    if seats < 1 || seats > 999 {
        return false;
    }
    match command.place {
        Some(place) => grid.fits(place),
        None => true,
    }
}

/// A list of this command alone.
fn list_of(alloc: Global, grid: &Grid, command: &Command) -> Result<CommandList, Memory>
    ensures { IfOk result (λ list. All (λ command. FitsCommand grid.now command) list) }
{
    if !fits(grid, command) {
        return Err(Memory);
    }
    let mut items = Vec::new(alloc);
    items.push(*command)?;
    Ok(CommandList::from_vec(items))
}

/// Two such lists.
fn lists_of(alloc: Global, grid: &Grid, command: &Command) -> Result<Vec<CommandList>, Memory>
    ensures { IfOk result (λ lists. All (λ list. All (λ command. FitsCommand grid.now command) list) lists.items) }
{
    let mut lists = Vec::new(alloc);
    for _ in 0..2u8 {
        let Ok(list) = list_of(alloc, grid, command) else {
            return Err(Memory);
        };
        let Ok(()) = lists.push(list) else {
            return Err(Memory);
        };
    }
    Ok(lists)
}

/// The number of the last line that a session was given; 0 where it has none.
fn number_of<K: Hosting>(session: &Session<K>) -> u32 {
    match session.numbers().last() {
        Some(number) => *number,
        None => 0,
    }
}

/// Opens a host and runs its sessions: the numbers of the last lines of sessions 1 and 2.
fn run<K: Hosting + Send + Sync, R: Threads + Wait + Sync>(
    rt: &R,
    alloc: Global,
    parts: Parts,
    lists: &[CommandList],
    gate: &Meeting,
) -> Option<(u32, u32)>
    requires parts { (parts.grid ≡ K.grid) × (parts.cap ≡ K.cap) × (parts.book ≡ K.book) × (parts.sessions ≡ K.sessions)
        × (parts.names ≡ K.names) }
    requires lists { All (λ list. All (λ command. FitsCommand parts.grid command) list) lists.now }
{
    let Ok((host, mut manager, mut sessions)) = Host::<K>::open(rt, alloc, parts) else {
        return None;
    };
    if sessions.len() != lists.len() || lists.len() > 8 {
        host.end(rt);
        return None;
    }
    let mut faults = no_faults();
    run_sessions(
        rt,
        alloc,
        &host,
        &mut manager,
        &[],
        sessions.as_mut_slice(),
        lists,
        gate,
        &mut faults[..lists.len() + 1],
    );
    host.end(rt);
    if sessions.len() < 2 {
        return None;
    }
    Some((number_of(&sessions[0]), number_of(&sessions[1])))
}

/// Runs two sessions that book this each, and gives the number of session 1's line. None where one was held for too long, or not both were booked.
fn overlap<R: Threads + Wait + Sync>(
    rt: &R,
    alloc: Global,
    command: &Command,
    is_mutual: bool,
) -> Option<u32> {
    let Ok(grid) = grid_of(alloc, 999, 0) else {
        return None;
    };
    let Ok(lists) = lists_of(alloc, &grid, command) else {
        return None;
    };
    let Ok(parts) = Parts::new(rt, alloc, grid, 2, 2, Shows::Rooms) else {
        return None;
    };
    let meeting = Meeting::new(is_mutual);
    let Some((one, two)) = run::<Brand, R>(rt, alloc, parts, lists.as_slice(), &meeting) else {
        return None;
    };
    if one.saturating_add(two) != 3 || !meeting.is_held() {
        return None;
    }
    Some(one)
}

fn overlap_twice<R: Threads + Wait + Sync>(rt: &R, alloc: Global) -> Option<bool> {
    let command = Command {
        locator: Locator::new(b"A00001")?,
        place: Some(LEG),
        class: Class::new(b'Y')?,
        code: Code::new(b"NN")?,
        seats: 1,
    };
    let number = overlap(rt, alloc, &command, false)?;
    let any = overlap(rt, alloc, &command, true)?;
    Some(number == 2 && any <= 2)
}

#[test]
fn sessions_overlap(rt: HostRuntime) -> Result<(), Fail> {
    let is_right = overlap_twice(&rt, rt.alloc()).ok_or(
        "both were booked, and none was held too long",
    )?;
    assert!(rt;
        is_right,
        "session 2 is booked ahead of session 1, which waits for it"
    );
    Ok(())
}
