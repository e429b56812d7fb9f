//! Reading all bytes of a reader, up to a bound.
ghost use Rattle.std.specs.Prelude.{◌≡◌, ◌≢◌, ◌<◌, ◌≤◌, length, IfOk, IfErr, OnOk, IfSome, true, false};
ghost use Rattle.std.specs.Io.KnownBytes.{Consumes, IsAtEnd};
ghost use Rattle.airline_base.specs.Noting.{noted, GaveMore, Turned, WantsRoom};

use super::counted::NotedRead;
use std::alloc::Global;
use std::fmt;

// The most that one read takes. It lies on the stack, once for a reader.
const PIECE: usize = 64 * 1024;

/// Why a reader was not read to its end.
#[derive(Clone, Copy, PartialEq, Eq)]
pub enum ReadFault {
    /// The reader failed. An interrupted read is a failure too.
    Device,
    /// It gave more bytes than it may give.
    TooLarge,
    /// A growth was refused.
    Memory,
}

impl fmt::Display for ReadFault {
    ghost use Rattle.std.specs.Prelude.{Some};
    ghost use Rattle.airline_base.specs.FaultText.{read_code_of};

    ghost output = { λ fault. Some (read_code_of fault) };

    /// The code, R1 to R3.
    fn fmt<W: fmt::Write>(&self, f: &mut fmt::Formatter<W>) -> fmt::Result {
        match self {
            ReadFault::Device => f.write_str("R1"),
            ReadFault::TooLarge => f.write_str("R2"),
            ReadFault::Memory => f.write_str("R3"),
        }
    }
}

/// All the bytes that `reader` gives until its end, at most `max`.
pub fn read_all<R: NotedRead>(alloc: Global, reader: &mut R, max: u64) -> Result<Vec<u8>, ReadFault>
    ensures bound { IfOk result (λ v. length v.items ≤ max) }
    ensures bytes { IfOk result (λ v. Consumes (R.remaining reader.old) (R.remaining reader.new) v.items) }
    ensures end { OnOk result (IsAtEnd (R.remaining reader.new)) }
    ensures whole { IfOk result (λ v. IfSome (R.remaining reader.old) (λ xs. v.items ≡ xs)) }
    ensures device { IfErr result (λ f. f ≡ ReadFault.Device → R.failure_count reader.new
        ≡ noted (R.failure_count reader.old)) }
    ensures large { IfErr result (λ f. f ≡ ReadFault.TooLarge
        → IfSome (R.remaining reader.old) (λ xs. max < length xs)) }
    // Want of memory is met at bytes that make no more than `max` with those ahead of them.
    ensures memory { IfErr result (λ f. f ≡ ReadFault.Memory
        → WantsRoom max 0 (R.remaining reader.old) (R.remaining reader.new)) }
    ensures counted { OnOk result (R.failure_count reader.new ≡ R.failure_count reader.old) }
    ensures uncounted { IfErr result
        (λ f. f ≢ ReadFault.Device → R.failure_count reader.new ≡ R.failure_count reader.old) }
{
    let mut bytes = Vec::new(alloc);
    let mut piece = [0u8; PIECE];
    while take_turn(reader, &mut bytes, &mut piece, max)? {}
    Ok(bytes)
}

// One read, at most the length of `piece`. The answer says whether it gave a byte.
fn take_turn<R: NotedRead>(
    reader: &mut R,
    bytes: &mut Vec<u8>,
    piece: &mut [u8; PIECE],
    max: u64,
) -> Result<bool, ReadFault>
    requires room { length bytes.old.items ≤ max }
    ensures turned { IfOk result (Turned max (R.remaining reader.old) (R.remaining reader.new) bytes.old.items
        bytes.new.items) }
    ensures counted { OnOk result (R.failure_count reader.new ≡ R.failure_count reader.old) }
    ensures device { IfErr result (λ f. f ≡ ReadFault.Device → R.failure_count reader.new
        ≡ noted (R.failure_count reader.old)) }
    ensures uncounted { IfErr result
        (λ f. f ≢ ReadFault.Device → R.failure_count reader.new ≡ R.failure_count reader.old) }
    ensures large { IfErr result (λ f. f ≡ ReadFault.TooLarge
        → GaveMore max (length bytes.old.items) (R.remaining reader.old)) }
    ensures memory { IfErr result (λ f. f ≡ ReadFault.Memory
        → WantsRoom max (length bytes.old.items) (R.remaining reader.old) (R.remaining reader.new)) }
{
    match reader.read_noted(piece) {
        Ok(0) => Ok(false),
        Ok(n) => {
            if max - (bytes.len() as u64) < n as u64 {
                return Err(ReadFault::TooLarge);
            }
            match bytes.extend_from_slice(&piece[..n]) {
                Ok(()) => Ok(true),
                Err(_) => Err(ReadFault::Memory),
            }
        }
        Err(_) => Err(ReadFault::Device),
    }
}
