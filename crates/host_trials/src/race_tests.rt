//! Looks while another thread publishes.
ghost use Rattle.std.specs.Thread.{IsSync};

use crate::desk::{File, answer, look};
use crate::files::{Why, grid_of, requests_of};
use memory_disk::{Fuse, TornTape};
use seat_display::Viewer;
use seat_serving::{Asked, Serving};
use std::alloc::Global;
use std::sync::Wait;
use std::test::Fail;
use std::thread::{Threads, join_mut};

const LINES: u32 = 100_000;

/// A seat is sold, and taken back.
const REQUESTS: &[u8] = b"SEATJOURNAL 1
1 1 1 A00001 0.0.0 Y NN 1 KK 0
2 1 2 A00001 0.0.0 Y XX 1 HX 1
END 2
";

/// Each line is published by itself. False where a growth is refused.
fn publish_all_along<R: Wait>(
    rt: &R,
    alloc: Global,
    serving: &mut Serving<File>,
    asked: &[Asked],
) -> bool {
    if asked.len() < 2 {
        return false;
    }
    for line in 0..LINES {
        let group = if line % 2 == 0 {
            &asked[0..1]
        } else {
            &asked[1..2]
        };
        if !matches!(answer(rt, alloc, serving, group), Ok(1)) {
            return false;
        }
    }
    true
}

/// Looks until the last line is seen. How many looks fell back, or found another room than as many lines leave: of 999
/// seats one is sold after each odd line.
fn look_all_along<R: Wait>(rt: &R, viewer: &mut Viewer) -> u32 {
    let (mut before, mut wrong) = (0, 0u32);
    for _ in rt.forever() {
        if before >= LINES {
            break;
        }
        let found = look(viewer);
        let seen = viewer.seen();
        let room = if seen % 2 == 0 { 999 } else { 998 };
        if seen < before || found != Some((room, seen)) {
            wrong = wrong.saturating_add(1);
        }
        before = seen;
    }
    wrong
}

/// Whether all lines were published, and how many looks were wrong.
fn race<R: Threads + Wait + Sync>(
    rt: &R,
    alloc: Global,
    serving: &mut Serving<File>,
    viewer: &mut Viewer,
    asked: &[Asked],
) -> (bool, u32) {
    let mut publisher = || -> bool
        requires { IsSync R.row }
    { publish_all_along(rt, alloc, serving, asked) };
    let mut looker = || -> u32
        requires { IsSync R.row }
    { look_all_along(rt, viewer) };
    join_mut(rt, &mut publisher, &mut looker)
}

fn open_and_race<R: Threads + Wait + Sync>(rt: &R, alloc: Global) -> Result<(bool, u32), Why> {
    let Ok(asked) = requests_of(alloc, REQUESTS) else {
        return Err(Why::Memory);
    };
    let Ok(grid) = grid_of(alloc, 999, 0) else {
        return Err(Why::Memory);
    };
    let file = Fuse::new(TornTape::over(Vec::new(alloc)), u64::MAX);
    let Ok((mut serving, mut viewers)) = Serving::begin(rt, alloc, grid, LINES, 1, file) else {
        return Err(Why::Memory);
    };
    let raced = match viewers.as_mut_slice().first_mut() {
        Some(viewer) => Ok(race(rt, alloc, &mut serving, viewer, asked.as_slice())),
        None => Err(Why::Viewer),
    };
    let _ = serving.close(rt);
    raced
}

#[test]
fn looks_beside_a_publisher(rt: HostRuntime) -> Result<(), Fail> {
    let (is_published, wrong) = open_and_race(&rt, rt.alloc())?;
    assert!(rt;
        is_published && wrong == 0,
        "{wrong} looks fell back, or show no table"
    );
    Ok(())
}
