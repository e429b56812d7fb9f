//! An inventory over a file in memory that fails behind so many calls, and a viewer. What a call needs is looked for here.
ghost use Rattle.std.specs.Prelude.{◌+◌, ◌≤◌, IsTrue, OnOk, length};
ghost use Rattle.seat_serving.specs.Answering.{AreRight};

use crate::files::{LEG, Why};
use airline_base::Class;
use memory_disk::{Fuse, TornTape};
use seat_disk::Tape;
use seat_display::Viewer;
use seat_nesting::Grid;
use seat_serving::{Asked, ServeFault, Serving};
use std::alloc::Global;
use std::sync::Wait;

pub type File = Fuse<TornTape>;

/// What a viewer finds of class Y, and how many lines it has then seen.
pub fn look(viewer: &mut Viewer) -> Option<(u16, u32)> {
    let Some(class) = Class::new(b'Y') else {
        return None;
    };
    match viewer.look(move |sight| sight.room(LEG, class)) {
        Some(room) => Some((room, viewer.seen())),
        None => None,
    }
}

fn why(fault: ServeFault) -> Why {
    match fault {
        ServeFault::Device => Why::Device,
        ServeFault::Memory => Why::Memory,
    }
}

/// Has a group answered: how many lines it has.
pub fn answer<R: Wait>(
    rt: &R,
    alloc: Global,
    serving: &mut Serving<File>,
    asked: &[Asked],
) -> Result<usize, Why> {
    let Ok(()) = can_ask(serving, asked) else {
        return Err(Why::Requests);
    };
    match serving.answer(rt, alloc, asked) {
        Ok(answered) => Ok(answered.lines.len()),
        Err(fault) => Err(why(fault)),
    }
}

/// Whether a group may be asked for.
fn can_ask<D: Tape>(serving: &Serving<D>, asked: &[Asked]) -> Result<(), Why>
    ensures open { OnOk result (IsTrue serving.now.is_open) }
    ensures right { OnOk result (AreRight serving.now.grid asked.now) }
    ensures few { OnOk result (length asked.now ≤ 4096) }
    ensures room { OnOk result (length serving.now.journal + length asked.now ≤ serving.now.cap) }
{
    if !serving.is_open() {
        return Err(Why::Requests);
    }
    if asked.len() > 4096 || asked.len() > serving.room() as usize {
        return Err(Why::Requests);
    }
    if !are_right(serving, asked) {
        return Err(Why::Requests);
    }
    Ok(())
}

fn are_right<D: Tape>(serving: &Serving<D>, asked: &[Asked]) -> bool
    ensures { IsTrue result → AreRight serving.now.grid asked.now }
{
    asked.iter().all(|request| serving.is_right(request))
}

pub struct Desk {
    pub serving: Serving<File>,
    pub viewer: Viewer,
}

impl Desk {
    /// An inventory of at most so many lines over an empty file that fails behind so many calls.
    pub fn open<R: Wait>(
        rt: &R,
        alloc: Global,
        grid: Grid,
        cap: u32,
        calls: u64,
    ) -> Result<Desk, (Why, File)>
        requires { cap ≤ 999999 }
    {
        let file = Fuse::new(TornTape::over(Vec::new(alloc)), calls);
        match Serving::begin(rt, alloc, grid, cap, 1, file) {
            Ok((serving, viewers)) => Desk::seated(rt, serving, viewers),
            Err((fault, file)) => Err((why(fault), file)),
        }
    }

    /// A desk over an inventory, with the last of its viewers.
    fn seated<R: Wait>(
        rt: &R,
        serving: Serving<File>,
        viewers: Vec<Viewer>,
    ) -> Result<Desk, (Why, File)> {
        let mut viewers = viewers;
        match viewers.pop() {
            Some(viewer) => Ok(Desk { serving, viewer }),
            None => Err((Why::Viewer, serving.close(rt))),
        }
    }

    /// The file of a journal that stays open.
    pub fn close<R: Wait>(self, rt: &R) -> File {
        let Desk { serving, viewer: _ } = self;
        serving.close(rt)
    }
}
