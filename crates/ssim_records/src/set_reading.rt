//! Reading a data set whole (SSIM chapter 7).
ghost use Rattle.std.specs.Prelude.{◌≡◌, ◌≢◌, ◌≤◌, ◌^◌, length, IfOk, IfErr};
ghost use Rattle.std.specs.Result.{MatchResult};
ghost use Rattle.ssim_records.specs.declared.set.DataSet.{DataSet as Said};
ghost use Rattle.ssim_records.specs.RightSet.{IsRightSet};
ghost use Rattle.ssim_records.specs.SetFaults.{IsFirstFault, WantsRoom, IsRefusal, ReadsAs};
ghost use Rattle.ssim_records.specs.SetText.{IsDataSet};

use crate::cut::cut;
use crate::set::{DataSet, Legs};
use crate::set_fault::{SetFault, SetKind};
use crate::state::{Phase, Reader};
use crate::steps::take;
use std::alloc::Global;

/// Reads these bytes as a data set of at most `most` records, fillers not counted.
pub fn read_set(alloc: Global, bytes: &[u8], most: u32) -> Result<DataSet, SetFault>
    requires most { most ≤ 999999 }
    requires size { length bytes.now ≤ 2 ^ 28 }
    // What is read is spelled by these bytes.
    ensures found { IfOk result (IsDataSet most bytes.now) }
    // What is so spelled is read, or refused for want of memory alone.
    ensures only { (set : Said) → IsDataSet most bytes.now set
        → MatchResult result (λ r. r ≡ set) (λ f. f.kind ≡ SetKind.Memory) }
    // Each field of it has a value that the standard takes as right.
    ensures right { IfOk result IsRightSet }
    // Which fault it is: the first of the first record that has one.
    ensures fault { IfErr result (λ f. f.kind ≢ SetKind.Memory → IsFirstFault most bytes.now f.nth f.kind) }
    // Want of memory is met at a leg, where no record up to it has a fault.
    ensures memory { IfErr result (λ f. f.kind ≡ SetKind.Memory → WantsRoom most bytes.now f.nth) }
{
    read_records(alloc, bytes, most)
}

#[tactic(auto, unfolding(crate::specs::SetSteps::next))]
fn read_records(alloc: Global, bytes: &[u8], most: u32) -> Result<DataSet, SetFault>
    requires most { most ≤ 999999 }
    requires size { length bytes.now ≤ 2 ^ 28 }
    ensures found { IfOk result (ReadsAs most bytes.now) }
    ensures refused { IfErr result (λ f. IsRefusal most bytes.now f.nth f.kind) }
{
    let mut reader = Reader {
        phase: Phase::Start,
        count: 0,
        legs: Legs::new(alloc),
        segments: 0,
    };
    let mut rest = bytes;
    let mut nth = 1;
    while !rest.is_empty() {
        let (text, after) = match cut(rest) {
            Ok(parts) => parts,
            Err(kind) => return Err(SetFault { nth, kind }),
        };
        if let Err(kind) = take(&mut reader, text, most) {
            return Err(SetFault { nth, kind });
        }
        rest = after;
        nth += 1;
    }
    let Reader {
        phase,
        legs,
        segments,
        ..
    } = reader;
    match phase {
        Phase::Done(carrier) => Ok(DataSet {
            carrier,
            legs,
            segments,
        }),
        Phase::Start => Err(SetFault {
            nth,
            kind: SetKind::NoHeader,
        }),
        _ => Err(SetFault {
            nth,
            kind: SetKind::NoTrailer,
        }),
    }
}
