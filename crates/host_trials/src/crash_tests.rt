//! Groups of requests over a file that fails at each call in turn, and is then crashed at each byte.
//! A call of the file is an append or a sync: two for the head, and two for each group.
use crate::desk::{Desk, File, answer, look};
use crate::files::{Why, end_of, grid_of, kept, part, recovered, requests_of, whole};
use airline_base::Failures;
use seat_disk::Tape;
use seat_serving::Asked;
use std::alloc::Global;
use std::process::Abort;
use std::sync::Wait;
use std::test::Fail;

/// What is left of Y behind each line.
const ROOMS: [u16; 11] = [3, 1, 1, 1, 0, 0, 0, 0, 0, 0, 0];

/// Behind how many calls the file fails, and how many requests are in a group: how many lines are told, those of each group whose sync
/// was passed on, and how many bytes are on the disk, and written.
#[derive(Drop)]
struct Failing {
    calls: u64,
    size: usize,
    told: usize,
    synced: usize,
    written: usize,
}

impl Failing {
    fn of(calls: u64, size: usize) -> Failing {
        let groups = calls.saturating_sub(2) / 2;
        let told = (groups as usize).saturating_mul(size).min(10);
        let synced = if calls < 2 { 0 } else { end_of(told) };
        let written = match calls {
            1 => 14,
            _ if calls % 2 == 0 => synced,
            // Behind an append.
            _ => end_of(told.saturating_add(size).min(10)),
        };
        Failing {
            calls,
            size,
            told,
            synced,
            written,
        }
    }
}

/// Asks for one group after the other until the file fails: how many lines are told.
fn ask_all<R: Wait>(
    rt: &R,
    alloc: Global,
    desk: &mut Desk,
    asked: &[Asked],
    size: usize,
) -> Result<usize, Why> {
    let mut told = 0usize;
    for _ in 0..10u8 {
        let next = told.saturating_add(size).min(asked.len());
        if told >= next {
            break;
        }
        match answer(rt, alloc, &mut desk.serving, &asked[told..next]) {
            Ok(count) => told = told.saturating_add(count),
            Err(Why::Device) => break,
            Err(why) => return Err(why),
        }
    }
    Ok(told)
}

/// Whether a viewer finds so many lines, and what they leave, and the journal is open where these are all.
fn shows(desk: &mut Desk, told: usize) -> bool {
    let Some((room, seen)) = look(&mut desk.viewer) else {
        return false;
    };
    if told >= ROOMS.len() || ROOMS[told] != room {
        return false;
    }
    seen as usize == told && desk.serving.is_open() == (told == 10)
}

/// Asks for all over a file that fails: the file. As many lines are told as are to be, and shown, and no more.
fn fail<R: Wait>(rt: &R, alloc: Global, asked: &[Asked], failing: &Failing) -> Result<File, Why> {
    let Ok(grid) = grid_of(alloc, 3, 2) else {
        return Err(Why::Memory);
    };
    match Desk::open(rt, alloc, grid, 10, failing.calls) {
        Ok(desk) => fail_behind(rt, alloc, desk, asked, failing),
        Err((Why::Device, file)) => Ok(file),
        Err((why, _)) => Err(why),
    }
}

/// The same where the head is written.
fn fail_behind<R: Wait>(
    rt: &R,
    alloc: Global,
    desk: Desk,
    asked: &[Asked],
    failing: &Failing,
) -> Result<File, Why> {
    let mut desk = desk;
    let told = ask_all(rt, alloc, &mut desk, asked, failing.size);
    let is_shown = shows(&mut desk, failing.told);
    let file = desk.close(rt);
    if told? != failing.told {
        return Err(Why::Lines);
    }
    if is_shown { Ok(file) } else { Err(Why::Viewer) }
}

/// Whether one failure is counted, a file that refused a sync is good for nothing more, and it holds what was written.
fn is_given_back(file: &File, failing: &Failing) -> bool {
    let is_whole = failing.told == 10;
    file.failures() == u64::from(!is_whole)
        && file.may_be_used() == (is_whole || failing.calls % 2 == 0)
}

/// Whether a crash that leaves so many bytes leaves all lines that were told, and those that stand whole in them.
fn is_found(alloc: Global, file: File, failing: &Failing, len: usize) -> bool {
    let mut file = file.into_inner();
    let is_written = file.bytes() == part(0, failing.written);
    file.crash(part(failing.synced, len));
    let Ok(grid) = grid_of(alloc, 3, 2) else {
        return false;
    };
    let Ok(found) = recovered(alloc, grid, 10, file.bytes()) else {
        return false;
    };
    let lines = found.core.journal().len();
    is_written && (lines, found.len) == kept(len) && failing.told <= lines
}

/// At each byte of what was on its way.
fn crash_at_each<R: Wait + Abort>(
    rt: &R,
    alloc: Global,
    asked: &[Asked],
    failing: &Failing,
) -> Result<(), Why> {
    for len in failing.synced..failing.written.saturating_add(1) {
        let file = fail(rt, alloc, asked, failing)?;
        let is_right = is_given_back(&file, failing) && is_found(alloc, file, failing, len);
        let Failing { calls, size, .. } = failing;
        assert!(rt;
            is_right,
            "{len} bytes in groups of {size}, behind {calls} calls"
        );
    }
    Ok(())
}

#[test]
fn finds_what_was_told(rt: HostRuntime) -> Result<(), Fail> {
    let asked = requests_of(rt.alloc(), whole())?;
    for size in [1usize, 3, 4, 10] {
        for calls in 0..23u64 {
            crash_at_each(&rt, rt.alloc(), asked.as_slice(), &Failing::of(calls, size))?;
        }
    }
    Ok(())
}
