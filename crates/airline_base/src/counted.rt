//! A reader or a writer that counts its failures.
ghost use Rattle.std.specs.Prelude.{◌≡◌, ℕ, MatchResult};
ghost use Rattle.std.specs.Io.{ReadsAtMost, WritesAtMost};
ghost use Rattle.std.specs.Io.KnownBytes.{Keeps, ReadConsumes, WriteAppends};
ghost use Rattle.airline_base.specs.Counting.{counted_inner, counted_failures};
ghost use Rattle.airline_base.specs.Noting.{noted, NotesRead, NotesWrite};

use std::io;
use std::io::{Read, Write};

/// A device that counts its failures. The count stops at `u64::MAX`.
pub trait Failures {
    ghost failure_count: { Self → ℕ };

    fn failures(&self) -> u64
        ensures { result ≡ failure_count self.now };
}

/// A reader whose reads keep the count: the law that `Failures` beside `Read` cannot state.
pub trait NotedRead: Read + Failures {
    fn read_noted(&mut self, buf: &mut [u8]) -> io::Result<usize>
        ensures bound { ReadsAtMost result buf.new }
        ensures bytes { ReadConsumes (Self.remaining self.old) (Self.remaining self.new) result buf.new }
        ensures notes { NotesRead (Self.failure_count self.old) (Self.failure_count self.new) result };
}

pub trait NotedWrite: Write + Failures {
    fn write_noted(&mut self, buf: &[u8]) -> io::Result<usize>
        ensures bound { WritesAtMost result buf.now }
        ensures bytes { WriteAppends (Self.contents self.old) (Self.contents self.new) result buf.now }
        ensures notes { NotesWrite (Self.failure_count self.old) (Self.failure_count self.new) result buf.now };
}

#[derive(Drop)]
pub struct Counted<T> {
    inner: T,
    count: u64,
}

impl<T> Counted<T> {
    pub fn new(inner: T) -> Counted<T>
        ensures inner { counted_inner result ≡ inner }
        ensures count { counted_failures result ≡ 0 }
    {
        Counted { inner, count: 0 }
    }

    pub fn into_inner(self) -> T
        ensures { result ≡ counted_inner self }
    {
        self.inner
    }
}

impl<T> Failures for Counted<T> {
    ghost failure_count = { counted_failures };

    fn failures(&self) -> u64 {
        self.count
    }
}

impl<T: Read> Read for Counted<T> {
    ghost remaining = { λ s. T.remaining (counted_inner s) };

    fn read(&mut self, buf: &mut [u8]) -> io::Result<usize>
        ensures bound { ReadsAtMost result buf.new }
        ensures bytes { ReadConsumes (T.remaining (counted_inner self.old)) (T.remaining (counted_inner self.new))
            result buf.new }
        ensures notes { NotesRead (counted_failures self.old) (counted_failures self.new) result }
    {
        match self.inner.read(buf) {
            Ok(n) => Ok(n),
            Err(e) => {
                self.count = self.count.saturating_add(1);
                Err(e)
            }
        }
    }
}

impl<T: Write> Write for Counted<T> {
    ghost contents = { λ s. T.contents (counted_inner s) };

    fn write(&mut self, buf: &[u8]) -> io::Result<usize>
        ensures bound { WritesAtMost result buf.now }
        ensures bytes { WriteAppends (T.contents (counted_inner self.old)) (T.contents (counted_inner self.new)) result
            buf.now }
        ensures notes { NotesWrite (counted_failures self.old) (counted_failures self.new) result buf.now }
    {
        match self.inner.write(buf) {
            Ok(n) => {
                if n == 0 && !buf.is_empty() {
                    self.count = self.count.saturating_add(1);
                }
                Ok(n)
            }
            Err(e) => {
                self.count = self.count.saturating_add(1);
                Err(e)
            }
        }
    }

    fn flush(&mut self) -> io::Result<()>
        ensures bytes { Keeps (T.contents (counted_inner self.old)) (T.contents (counted_inner self.new)) }
        ensures notes { MatchResult result (λ _. counted_failures self.new ≡ counted_failures self.old)
            (λ _. counted_failures self.new ≡ noted (counted_failures self.old)) }
    {
        match self.inner.flush() {
            Ok(()) => Ok(()),
            Err(e) => {
                self.count = self.count.saturating_add(1);
                Err(e)
            }
        }
    }
}

impl<T: Read> NotedRead for Counted<T> {
    fn read_noted(&mut self, buf: &mut [u8]) -> io::Result<usize> {
        self.read(buf)
    }
}

impl<T: Write> NotedWrite for Counted<T> {
    fn write_noted(&mut self, buf: &[u8]) -> io::Result<usize> {
        self.write(buf)
    }
}
