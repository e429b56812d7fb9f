//! Where a host shows what it has come to, under a lock of its own.
ghost use Rattle.std.specs.Prelude.{◌≡◌, length};
ghost use Rattle.desk_status.specs.Tallies.{Counts, IsCountable};

use crate::tally::Tally;
use seat_journal::Entry;
use std::sync::{Condvar, Mutex, Wait};
use std::time::{Clock, Duration};

/// How many seconds the end of a host waits for its last line to be said.
const LAST: u64 = 1;

/// What lies under the lock.
#[derive(Drop)]
struct Shown {
    tally: Tally,
    is_over: bool,
    /// Whether the last line is said, or there is nobody to say it.
    is_said: bool,
}

/// What a host has come to, where whoever says it finds it.
#[derive(Drop)]
pub struct Board {
    desks: u8,
    shown: Mutex<Shown>,
    ends: Condvar,
    said: Condvar,
}

impl Board {
    /// Of a host that is open to these desks, before it begins. Nobody says what it shows.
    pub fn new(desks: u8) -> Board {
        let tally = Tally {
            desks,
            begun: 0,
            lines: 0,
            groups: 0,
            confirmed: 0,
            released: 0,
        };
        Board {
            desks,
            shown: Mutex::new(Shown {
                tally,
                is_over: false,
                is_said: true,
            }),
            ends: Condvar::new(),
            said: Condvar::new(),
        }
    }

    /// What a host has come to that begins with this journal.
    pub fn begun(&self, journal: &[Entry]) -> Tally
        requires countable { IsCountable journal.now }
        ensures counts { Counts result journal.now }
        ensures begun { (result.begun ≡ length journal.now) × (result.groups ≡ 0) }
    {
        Tally::over(self.desks, journal)
    }

    /// The host has come to this.
    pub fn show<R: Wait>(&self, rt: &R, tally: Tally) {
        let mut shown = self.shown.lock(rt);
        shown.tally = tally;
        drop(shown);
    }

    /// Somebody says what it shows, up to the end.
    pub(crate) fn begin<R: Wait>(&self, rt: &R) {
        let mut shown = self.shown.lock(rt);
        shown.is_said = false;
        drop(shown);
    }

    /// Waits so long, or until the host ends. What it has come to, and whether it has ended.
    pub(crate) fn next<R: Wait + Clock>(&self, rt: &R, every: Duration) -> (Tally, bool) {
        let guard = self.shown.lock(rt);
        let (shown, _) = self
            .ends
            .wait_timeout_while(rt, guard, every, |shown| !shown.is_over);
        let found = (shown.tally, shown.is_over);
        drop(shown);
        found
    }

    /// The last line is said.
    pub(crate) fn said<R: Wait>(&self, rt: &R) {
        let mut shown = self.shown.lock(rt);
        shown.is_said = true;
        drop(shown);
        self.said.notify_all();
    }

    /// The host ends. Its last line is said, as far as that takes no longer than a second: it waits for nobody else.
    pub fn end<R: Wait + Clock>(&self, rt: &R) {
        let mut shown = self.shown.lock(rt);
        shown.is_over = true;
        drop(shown);
        self.ends.notify_all();
        let guard = self.shown.lock(rt);
        let (shown, _) = self.said.wait_timeout_while(
            rt,
            guard,
            Duration::from_secs(LAST),
            |shown| !shown.is_said,
        );
        drop(shown);
    }
}
