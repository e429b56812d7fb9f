//! Bytes that are read ahead of whoever hears them, by a thread of its own: so a writer that reads no answer yet may write on for a while.
//! It knows bytes, locks and a thread, and nothing of lines.
use airline_base::Memory;
use arrayvec::ArrayVec;
use std::alloc::Global;
use std::io::Read;
use std::sync::{Arc, Condvar, Mutex, Wait};
use std::thread::Threads;
use std::{io, mem, thread};

/// The most bytes that wait: 4,096 lines of 256.
const MOST_BYTES: usize = 1 << 20;

/// The most that one read takes.
const PIECE: usize = 4096;

/// The most bytes of a first line, its end with it: enough to tell whether it is a day.
const MOST_FIRST: usize = 259;

/// A line that was looked at, or nothing.
pub type FirstLine = ArrayVec<u8, MOST_FIRST>;

/// What lies under the lock.
#[derive(Drop)]
struct Waiting {
    bytes: Vec<u8>,
    is_over: bool,
    has_failed: bool,
}

/// Bytes wait in it under a lock.
#[derive(Drop)]
struct Basin {
    waiting: Mutex<Waiting>,
    came: Condvar,
    taken: Condvar,
}

impl Basin {
    fn new(alloc: Global) -> Result<Basin, Memory> {
        Ok(Basin {
            waiting: Mutex::new(Waiting {
                bytes: Vec::with_capacity(alloc, MOST_BYTES)?,
                is_over: false,
                has_failed: false,
            }),
            came: Condvar::new(),
            taken: Condvar::new(),
        })
    }

    /// Lets the bytes of a piece wait, once there is room for them. Whether there was.
    fn add<R: Wait>(&self, rt: &R, piece: &[u8]) -> bool {
        let guard = self.waiting.lock(rt);
        let mut waiting = self.taken.wait_while(
            rt,
            guard,
            |waiting| waiting.bytes.len() > MOST_BYTES - PIECE,
        );
        let has_room = waiting.bytes.extend_from_slice(piece).is_ok();
        drop(waiting);
        self.came.notify_one();
        has_room
    }

    /// Nothing more comes; what was read from failed, or is at its end.
    fn end<R: Wait>(&self, rt: &R, has_failed: bool) {
        let mut waiting = self.waiting.lock(rt);
        waiting.is_over = true;
        waiting.has_failed = has_failed;
        drop(waiting);
        self.came.notify_one();
    }

    /// Waits until a line came, or as many bytes as it may have, or all there is. The line with its end; nothing where it has none. It stays.
    fn first_line<R: Wait>(&self, rt: &R) -> FirstLine {
        let guard = self.waiting.lock(rt);
        let waiting = self.came.wait_while(
            rt,
            guard,
            |waiting| !waiting.is_over
                && first_of(&waiting.bytes).is_none()
                && waiting.bytes.len() < MOST_FIRST,
        );
        let mut line = FirstLine::new();
        if let Some(bytes) = first_of(&waiting.bytes) {
            for byte in bytes {
                if line.is_full() {
                    break;
                }
                line.push(*byte);
            }
        }
        drop(waiting);
        line
    }

    /// Waits until something came, and takes all of it. What `bytes` had is given up. Whether what was read from has failed.
    fn take<R: Wait>(&self, rt: &R, bytes: &mut Vec<u8>) -> bool {
        bytes.clear();
        let guard = self.waiting.lock(rt);
        let mut waiting = self.came.wait_while(
            rt,
            guard,
            |waiting| waiting.bytes.is_empty() && !waiting.is_over,
        );
        mem::swap(&mut waiting.bytes, bytes);
        let has_failed = bytes.is_empty() && waiting.has_failed;
        drop(waiting);
        self.taken.notify_one();
        has_failed
    }
}

/// A reader of what another thread reads ahead of it.
#[derive(Drop)]
pub struct AheadReader<R> {
    rt: R,
    basin: Arc<Basin, Global>,
    bytes: Vec<u8>,
    /// How many of the bytes were read from it.
    read: usize,
}

impl<R: Wait> Read for AheadReader<R> {
    fn read(&mut self, buf: &mut [u8]) -> io::Result<usize> {
        if self.read >= self.bytes.len() {
            self.read = 0;
            if self.basin.take(&self.rt, &mut self.bytes) {
                return Err(io::ErrorKind::Other.into());
            }
        }
        let mut rest = &self.bytes[self.read..];
        match rest.read(buf) {
            Ok(n) => {
                self.read = self.read.saturating_add(n);
                Ok(n)
            }
            Err(fault) => Err(fault),
        }
    }
}

/// The line at the front with its end, where it has one.
fn first_of(bytes: &[u8]) -> Option<&[u8]> {
    let end = bytes.iter().position(|byte| *byte == b'\n')?;
    bytes.get(..end.saturating_add(1))
}

/// The first line with its end, ahead of any read, once it came, where it is needed. It is read all the same. Nothing where it has no end.
pub fn first_line<R: Wait>(reader: &AheadReader<R>, is_needed: bool) -> FirstLine {
    if is_needed {
        return reader.basin.first_line(&reader.rt);
    }
    FirstLine::new()
}

/// Starts the thread that reads ahead, up to 1 MiB of what nobody has taken. It ends with what it reads from, and nobody waits for it.
pub fn read_ahead<R: Threads + Wait + Copy + Send + 'static, I: Read + Send + Drop + 'static>(
    rt: &R,
    alloc: Global,
    input: I,
) -> Result<AheadReader<R>, Memory> {
    let basin = Arc::new(alloc, Basin::new(alloc)?)?;
    let own = *rt;
    let theirs = Arc::try_clone(&basin)?;
    let bytes = Vec::with_capacity(alloc, MOST_BYTES)?;
    if thread::spawn(rt, move || read_there(own, theirs, input)).is_err() {
        return Err(Memory);
    }
    Ok(AheadReader {
        rt: *rt,
        basin,
        bytes,
        read: 0,
    })
}

fn read_there<R: Wait + Drop, I: Read + Drop>(rt: R, basin: Arc<Basin, Global>, input: I) {
    let mut input = input;
    let has_failed = fill(&rt, &basin, &mut input);
    basin.end(&rt, has_failed);
}

// Reads to the end of what there is. Whether what it is read from failed.
fn fill<R: Wait, I: Read>(rt: &R, basin: &Basin, input: &mut I) -> bool {
    let mut piece = [0u8; PIECE];
    for _ in rt.forever() {
        let Ok(n) = input.read(&mut piece) else {
            return true;
        };
        if n == 0 {
            return false;
        }
        if !basin.add(rt, &piece[..n]) {
            return true;
        }
    }
    unreachable!()
}
