//! What the inputs of a command have given. Who reads them adds to it, and who says so looks at it, each without waiting for the other.
ghost use Rattle.std.specs.Prelude.{◌≡◌};
ghost use Rattle.progress_meter.specs.Reading.{size_of, stage_of, stand_of};

use crate::stand::{Stage, Stand};
use std::sync::atomic::{AtomicU64, Ordering};

/// Counts of what was read.
#[derive(Drop)]
pub struct Gauge {
    /// What the command does once all is read.
    work: Stage,
    read: AtomicU64,
    size: AtomicU64,
    /// How many inputs have no size that is known,
    unmeasured: AtomicU64,
    /// and how many are not at their ends.
    unread: AtomicU64,
    lines: AtomicU64,
}

impl Gauge {
    /// Of a command that does this once all is read.
    pub fn new(work: Stage) -> Gauge {
        Gauge {
            work,
            read: AtomicU64::new(0),
            size: AtomicU64::new(0),
            unmeasured: AtomicU64::new(0),
            unread: AtomicU64::new(0),
            lines: AtomicU64::new(0),
        }
    }

    /// An input more is to be read, of so many bytes where that is known.
    pub fn expect(&self, size: Option<u64>) {
        self.unread.fetch_add(1, Ordering::SeqCst);
        let _ = match size {
            Some(size) => self.size.fetch_add(size, Ordering::SeqCst),
            None => self.unmeasured.fetch_add(1, Ordering::SeqCst),
        };
    }

    /// An input gave bytes.
    pub fn add(&self, bytes: u64) {
        self.read.fetch_add(bytes, Ordering::SeqCst);
    }

    /// An input is at its end, and had so many lines that are counted.
    pub fn end(&self, lines: u64) {
        self.lines.fetch_add(lines, Ordering::SeqCst);
        self.unread.fetch_sub(1, Ordering::SeqCst);
    }

    /// Whether there is an input to speak of.
    pub fn is_used(&self) -> bool {
        self.unread.load(Ordering::SeqCst) > 0 || self.read.load(Ordering::SeqCst) > 0
    }

    /// How far the command is, so many seconds after it began.
    pub fn stand(&self, seconds: u64) -> Stand
        ensures { result.seconds ≡ seconds }
    {
        let counts = Counts {
            read: self.read.load(Ordering::SeqCst),
            size: self.size.load(Ordering::SeqCst),
            unmeasured: self.unmeasured.load(Ordering::SeqCst),
            unread: self.unread.load(Ordering::SeqCst),
            lines: self.lines.load(Ordering::SeqCst),
        };
        stand_of(self.work, &counts, seconds)
    }
}

/// What was counted of all inputs.
#[derive(Clone, Copy)]
pub struct Counts {
    /// The bytes that were read.
    pub read: u64,
    /// The sizes that are known, together.
    pub size: u64,
    /// How many inputs have no size that is known.
    pub unmeasured: u64,
    /// How many are not at their ends.
    pub unread: u64,
    /// The lines of those that are.
    pub lines: u64,
}

/// How far a command is that does this work once all is read, by these counts.
pub fn stand_of(work: Stage, counts: &Counts, seconds: u64) -> Stand
    ensures { result ≡ stand_of work counts.now seconds }
{
    Stand {
        stage: stage_of(work, counts.unread),
        read: counts.read,
        size: size_of(counts.unmeasured, counts.read, counts.size),
        lines: counts.lines,
        seconds,
    }
}

/// What a command does while so many inputs are not at their ends, which does this work behind them.
pub fn stage_of(work: Stage, unread: u64) -> Stage
    ensures { result ≡ stage_of work unread }
{
    if unread == 0 { work } else { Stage::Reading }
}

/// All that there is to read, where so many inputs have no size that is known and the others have these bytes.
pub fn size_of(unmeasured: u64, read: u64, size: u64) -> Option<u64>
    ensures { result ≡ size_of unmeasured read size }
{
    if unmeasured == 0 && read <= size {
        Some(size)
    } else {
        None
    }
}
