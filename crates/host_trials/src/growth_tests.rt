//! Want of memory: a group ends ahead of the request for which a growth was refused, and the rest is answered when it is
//! asked again. The test passes with any one growth refused, and takes no more than one refusal as an answer.
use crate::desk::{Desk, answer, look};
use crate::files::{Why, end_of, grid_of, part, requests_of, whole};
use seat_serving::Asked;
use std::alloc::Global;
use std::sync::Wait;
use std::test::Fail;

/// A journal of no line. Where it is refused, by the file too, the file is empty.
fn open<R: Wait>(rt: &R, alloc: Global) -> Result<Desk, Why> {
    match Desk::open(rt, alloc, grid_of(alloc, 3, 2)?, 10, 99) {
        Ok(desk) => Ok(desk),
        Err((why, file)) => {
            if file.into_inner().bytes().is_empty() {
                Err(why)
            } else {
                Err(Why::Journal)
            }
        }
    }
}

/// How many lines of a group are told: none where it is refused. A viewer has then seen what was told, and no more.
fn told<R: Wait>(
    rt: &R,
    alloc: Global,
    desk: &mut Desk,
    asked: &[Asked],
    before: usize,
) -> Result<usize, Why> {
    let rest = before.min(asked.len());
    let more = match answer(rt, alloc, &mut desk.serving, &asked[rest..]) {
        Ok(count) => count,
        Err(Why::Memory | Why::Device) => 0,
        Err(why) => return Err(why),
    };
    let all = before.saturating_add(more);
    match look(&mut desk.viewer) {
        Some((_, seen)) if seen as usize == all => Ok(all),
        _ => Err(Why::Viewer),
    }
}

/// Asks until all have their lines, or the file failed, at most twice: how many are told at first, and then.
fn told_again<R: Wait>(
    rt: &R,
    alloc: Global,
    desk: &mut Desk,
    asked: &[Asked],
) -> Result<(usize, usize), Why> {
    let first = told(rt, alloc, desk, asked, 0)?;
    if first == 10 || !desk.serving.is_open() {
        return Ok((first, first));
    }
    let all = told(rt, alloc, desk, asked, first)?;
    if all < 10 && desk.serving.is_open() {
        return Err(Why::Lines);
    }
    Ok((first, all))
}

/// Has all answered, and leaves the file: how often a growth was refused. The file has what was told, also one that was refused a growth.
fn answer_and_close<R: Wait>(
    rt: &R,
    alloc: Global,
    desk: Desk,
    asked: &[Asked],
) -> Result<u32, Why> {
    let mut desk = desk;
    let answered = told_again(rt, alloc, &mut desk, asked);
    let file = desk.close(rt).into_inner();
    match answered {
        Ok((first, all)) if file.bytes() == part(0, end_of(all)) => Ok(u32::from(first < 10)),
        Ok(_) => Err(Why::Device),
        Err(why) => Err(why),
    }
}

fn try_all<R: Wait>(rt: &R, alloc: Global) -> Result<u32, Why> {
    let asked = match requests_of(alloc, whole()) {
        Ok(asked) => asked,
        Err(_) => requests_of(alloc, whole())?,
    };
    match open(rt, alloc) {
        Ok(desk) => answer_and_close(rt, alloc, desk, asked.as_slice()),
        Err(Why::Memory | Why::Device) => {
            let desk = open(rt, alloc)?;
            let more = answer_and_close(rt, alloc, desk, asked.as_slice())?;
            Ok(more.saturating_add(1))
        }
        Err(why) => Err(why),
    }
}

#[test]
fn answers_again(rt: HostRuntime) -> Result<(), Fail> {
    let refused = try_all(&rt, rt.alloc())?;
    assert!(rt; refused < 2, "{refused} growths are refused");
    Ok(())
}
