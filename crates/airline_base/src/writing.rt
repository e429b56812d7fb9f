//! Writing a text whole.
ghost use Rattle.std.specs.Prelude.{◌≡◌, ◌<◌, ◌≤◌, length, take, [], IfOk, OnOk, OnErr};
ghost use Rattle.std.specs.Io.KnownBytes.{Appends};
ghost use Rattle.airline_base.specs.Noting.{noted, TookFront};

use super::counted::NotedWrite;
use std::fmt;

/// Why a writer did not take all bytes.
#[derive(Clone, Copy)]
pub enum WriteFault {
    /// The writer failed, or took none of the bytes that were left.
    Device,
}

impl fmt::Display for WriteFault {
    ghost use Rattle.std.specs.Prelude.{Some, codes};

    ghost output = { λ _. Some (codes "V1") };

    /// The code, V1.
    fn fmt<W: fmt::Write>(&self, f: &mut fmt::Formatter<W>) -> fmt::Result {
        f.write_str("V1")
    }
}

/// Writes all of `bytes` behind what the writer holds.
pub fn put_all<W: NotedWrite>(out: &mut W, bytes: &[u8]) -> Result<(), WriteFault>
    ensures ok { OnOk result (Appends (W.contents out.old) (W.contents out.new) bytes.now) }
    ensures counted { OnOk result (W.failure_count out.new ≡ W.failure_count out.old) }
    ensures device { OnErr result (W.failure_count out.new ≡ noted (W.failure_count out.old)) }
    ensures front { OnErr result (TookFront (W.contents out.old) (W.contents out.new) bytes.now) }
{
    let mut rest = bytes;
    while !rest.is_empty() {
        let n = put_some(out, rest)?;
        rest = &rest[n..];
    }
    Ok(())
}

// One write, which takes a byte or more.
fn put_some<W: NotedWrite>(out: &mut W, piece: &[u8]) -> Result<usize, WriteFault>
    requires some { 0 < length piece.now }
    ensures some { IfOk result (λ n. 0 < n) }
    ensures bound { IfOk result (λ n. n ≤ length piece.now) }
    ensures bytes { IfOk result (λ n. Appends (W.contents out.old) (W.contents out.new) (take n piece.now)) }
    ensures counted { OnOk result (W.failure_count out.new ≡ W.failure_count out.old) }
    ensures device { OnErr result (W.failure_count out.new ≡ noted (W.failure_count out.old)) }
    ensures kept { OnErr result (Appends (W.contents out.old) (W.contents out.new) []) }
{
    match out.write_noted(piece) {
        Ok(0) => Err(WriteFault::Device),
        Ok(n) => Ok(n),
        Err(_) => Err(WriteFault::Device),
    }
}
