//! How a device in memory fails: an error, and one more in the count; and how a crash tears its bytes.
ghost use Rattle.std.specs.Prelude.{◌≡◌, ◌++◌, ◌-◌, IsErr, length, take};
ghost use Rattle.airline_base.specs.Noting.{noted};
ghost use Rattle.seat_disk.specs.Counts.{NotesCall};
ghost use Rattle.seat_disk.specs.Growing.{Grown};

use std::io;

pub(crate) fn failed(count: &mut u64) -> io::Result<()>
    ensures fails { IsErr result }
    ensures noted { count.new ≡ noted count.old }
{
    *count = count.saturating_add(1);
    Err(io::Error::other("the call failed"))
}

pub(crate) fn count_failure(count: &mut u64, answer: io::Result<()>) -> io::Result<()>
    ensures same { result ≡ answer }
    ensures notes { NotesCall count.old count.new result }
{
    if answer.is_err() {
        *count = count.saturating_add(1);
    }
    answer
}

/// Of the bytes behind the first `kept` as many of `torn` are left, at most.
pub(crate) fn tear(bytes: &mut Vec<u8>, kept: usize, torn: &[u8])
    ensures value { bytes.new.items ≡ take kept bytes.old.items ++ take (length bytes.old.items - kept) torn.now }
    ensures left { Grown (length bytes.old.items - kept) (take kept bytes.old.items) bytes.new.items }
{
    let kept = kept.min(bytes.len());
    let n = torn.len().min(bytes.len() - kept);
    bytes.truncate(kept + n);
    bytes[kept..].copy_from_slice(&torn[..n]);
}
