//! The thread that says what a host has come to, again and again.
use crate::board::Board;
use crate::text::status_text;
use airline_base::Memory;
use std::alloc::Global;
use std::sync::{Arc, Wait};
use std::thread;
use std::thread::Threads;
use std::time::{Clock, Duration};

/// Where a host's status goes.
pub trait Sayer {
    /// A line of it, with its end.
    fn say(&mut self, line: &[u8]);
}

/// Says what the board shows, so often, and once at the host's end, on a thread of its own. Nobody waits for it longer than a second.
pub fn start_status<
    R: Threads + Wait + Clock + Copy + Send + 'static,
    S: Sayer + Send + Drop + 'static,
>(rt: &R, board: &Arc<Board, Global>, every: Duration, sayer: S) -> Result<(), Memory> {
    let own = *rt;
    let theirs = Arc::try_clone(board)?;
    board.begin(rt);
    if thread::spawn(rt, move || say_there(own, theirs, every, sayer)).is_err() {
        board.said(rt);
        return Err(Memory);
    }
    Ok(())
}

fn say_there<R: Wait + Clock + Drop, S: Sayer + Drop>(
    rt: R,
    board: Arc<Board, Global>,
    every: Duration,
    sayer: S,
) {
    let mut sayer = sayer;
    say_each(&rt, &board, every, &mut sayer);
    board.said(&rt);
}

// Says it up to the host's end.
fn say_each<R: Wait + Clock, S: Sayer>(rt: &R, board: &Board, every: Duration, sayer: &mut S) {
    for _ in rt.forever() {
        let (tally, is_over) = board.next(rt, every);
        sayer.say(status_text(&tally).as_slice());
        if is_over {
            return;
        }
    }
    unreachable!()
}
