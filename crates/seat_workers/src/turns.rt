//! Turns of workers that would otherwise meet at a lock at each call. Nothing that a run promises depends on who has a turn
//! when, so they owe no clauses.
use std::sync::Wait;
use std::sync::atomic::{AtomicU64, Ordering};
use std::time::Duration;

// How many milliseconds a worker waits for one more to come. Where no thread can be had, the others come only once it is
// through.
const PATIENCE: u64 = 100;

/// A turn that was asked for. It is never dropped: `leave` lets it pass, so no worker keeps one.
pub struct Turn {
    // How many were asked for before it.
    number: u64,
}

/// The turns of the workers of a run: one at a time, in the order in which they were asked for.
#[derive(Drop)]
pub struct Turns {
    workers: u64,
    asked: AtomicU64,
    ended: AtomicU64,
}

impl Turns {
    /// Turns for so many workers.
    pub fn new(workers: usize) -> Turns {
        Turns {
            workers: workers as u64,
            asked: AtomicU64::new(0),
            ended: AtomicU64::new(0),
        }
    }

    /// A worker comes, and asks for its first turn. It waits until all workers have come, so that none is through before
    /// another begins; where no further one comes for a tenth of a second, it goes on without.
    pub fn come<R: Wait>(&self, rt: &R) -> Turn {
        let turn = self.ask();
        self.asked.wake_all();
        self.wait_for_all(rt, turn.number.saturating_add(1));
        turn
    }

    /// Waits until all turns before this one have ended.
    pub fn begin<R: Wait>(&self, rt: &R, turn: &Turn) {
        for _ in rt.forever() {
            let ended = self.ended.load(Ordering::SeqCst);
            if ended == turn.number {
                return;
            }
            self.ended.park(rt, low_bits(ended));
        }
    }

    /// Whether all turns before this one have ended. It waits for nobody.
    pub fn is_up(&self, turn: &Turn) -> bool {
        self.ended.load(Ordering::SeqCst) == turn.number
    }

    /// Ends a turn that has begun, once the worker's next is asked for: else a worker that it wakes could go through all of
    /// its turns before this one asks again.
    pub fn end(&self, turn: &mut Turn) {
        let Turn { number } = self.ask();
        turn.number = number;
        self.give_up();
    }

    /// A worker leaves, and lets the turn that it has asked for pass.
    pub fn leave<R: Wait>(&self, rt: &R, turn: Turn) {
        self.begin(rt, &turn);
        let Turn { number: _ } = turn;
        self.give_up();
    }

    fn ask(&self) -> Turn {
        Turn {
            number: self.asked.fetch_add(1, Ordering::SeqCst),
        }
    }

    fn give_up(&self) {
        self.ended.fetch_add(1, Ordering::SeqCst);
        self.ended.wake_all();
    }

    fn wait_for_all<R: Wait>(&self, rt: &R, came: u64) {
        let mut came = came;
        while came < self.workers {
            self.asked
                .park_timeout(rt, low_bits(came), Duration::from_millis(PATIENCE));
            let now = self.asked.load(Ordering::SeqCst);
            if now <= came {
                return;
            }
            came = now;
        }
    }
}

fn low_bits(number: u64) -> u32 {
    (number & 0xffff_ffff) as u32
}
