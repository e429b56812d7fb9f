//! The thread that shows a command's line, and how it is told to end.
use crate::gauge::Gauge;
use crate::stand::Stage;
use crate::text::{cleared_text, meter_text};
use std::alloc::Global;
use std::sync::Arc;
use std::sync::atomic::{AtomicU64, Ordering};
use std::thread;
use std::thread::Threads;
use std::time::{Clock, Duration, Instant};

/// Nothing stands on the screen yet.
const QUIET: u64 = 0;

/// A line stands there.
const SHOWN: u64 = 1;

/// A line stands there, and is to be taken away.
const OVER: u64 = 2;

/// Nothing stands there any more, and nothing will.
const CLEARED: u64 = 3;

/// How many milliseconds pass ahead of the first line,
const FIRST: u64 = 1_000;

/// and how many from one look at whether the work is over to the next, of which each tenth shows the line.
const TURN: u64 = 20;

const TURNS: u64 = 10;

/// How many milliseconds pass between looks at whether the line is taken away, and how often that is looked at: nobody waits longer.
const WAIT: u64 = 2;

const WAITS: u32 = 100;

/// Where the line of a meter stands.
pub trait Screen {
    /// Puts these bytes out. A failure is no fault of anybody's.
    fn show(&mut self, text: &[u8]);
}

/// What the command and the thread share.
#[derive(Drop)]
struct Dial {
    gauge: Gauge,
    state: AtomicU64,
}

impl Dial {
    fn is_in(&self, state: u64) -> bool {
        self.state.load(Ordering::SeqCst) == state
    }

    /// Goes from one state to another. Whether it was in that one.
    fn go(&self, from: u64, to: u64) -> bool {
        self.state
            .compare_exchange(from, to, Ordering::SeqCst, Ordering::SeqCst)
            .is_ok()
    }
}

/// A line about a command that works longer than a second, or none.
#[derive(Drop)]
pub struct Meter {
    dial: Option<Arc<Dial, Global>>,
}

impl Meter {
    /// Nothing is counted or shown.
    pub fn none() -> Meter {
        Meter { dial: None }
    }

    /// A meter of a command that does this work once all is read. After a second a thread of its own begins to show the line on this
    /// screen. Where there is no room or no thread for it, it is none.
    pub fn start<
        T: Threads,
        C: Clock + Copy + Send + Drop + 'static,
        S: Screen + Send + Drop + 'static,
    >(threads: &T, clock: &C, alloc: Global, work: Stage, screen: S) -> Meter {
        let dial = Dial {
            gauge: Gauge::new(work),
            state: AtomicU64::new(QUIET),
        };
        let Ok(dial) = Arc::new(alloc, dial) else {
            return Meter::none();
        };
        let Ok(theirs) = Arc::try_clone(&dial) else {
            return Meter::none();
        };
        let own = *clock;
        if thread::spawn(threads, move || show_there(own, theirs, screen)).is_err() {
            return Meter::none();
        }
        Meter { dial: Some(dial) }
    }

    /// The same meter, for one more that counts on it or ends it. Where it can't be shared it is none.
    pub fn shared(&self) -> Meter {
        match &self.dial {
            Some(dial) => Meter {
                dial: Arc::try_clone(dial).ok(),
            },
            None => Meter::none(),
        }
    }

    /// What is counted.
    pub fn gauge(&self) -> Option<&Gauge> {
        match &self.dial {
            Some(dial) => Some(&dial.gauge),
            None => None,
        }
    }

    /// No line is shown from here on, and one that stands there is taken away. It waits for that a fifth of a second at most: a terminal
    /// that takes nothing holds up nobody. Called again it does nothing.
    pub fn end<C: Clock>(&self, clock: &C) {
        let Some(dial) = &self.dial else {
            return;
        };
        if dial.go(QUIET, CLEARED) || !dial.go(SHOWN, OVER) {
            return;
        }
        for _ in 0..WAITS {
            if dial.is_in(CLEARED) {
                return;
            }
            thread::sleep(clock, Duration::from_millis(WAIT));
        }
    }
}

// Shows the line from the first second on, until the work is over, and takes it away.
fn show_there<C: Clock + Drop, S: Screen + Drop>(clock: C, dial: Arc<Dial, Global>, screen: S) {
    let mut screen = screen;
    let begun = Instant::now(&clock).ok();
    thread::sleep(&clock, Duration::from_millis(FIRST));
    if !dial.go(QUIET, SHOWN) {
        return;
    }
    show_each(&clock, &dial, begun, &mut screen);
    screen.show(cleared_text());
    dial.go(OVER, CLEARED);
}

fn show_each<C: Clock, S: Screen>(clock: &C, dial: &Dial, begun: Option<Instant>, screen: &mut S) {
    for turn in 0..u64::MAX {
        if !dial.is_in(SHOWN) {
            return;
        }
        if turn % TURNS == 0 && dial.gauge.is_used() {
            let stand = dial.gauge.stand(seconds_since(clock, begun));
            screen.show(meter_text(&stand).as_slice());
        }
        thread::sleep(clock, Duration::from_millis(TURN));
    }
}

// Whole seconds: none where the clock can't be read.
fn seconds_since<C: Clock>(clock: &C, begun: Option<Instant>) -> u64 {
    match begun {
        Some(begun) => match begun.elapsed(clock) {
            Ok(time) => time.as_secs(),
            Err(_) => 0,
        },
        None => 0,
    }
}
