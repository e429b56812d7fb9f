//! Inputs of commands.
ghost use Rattle.std.specs.Prelude.{◌≡◌, ◌⊎◌, ◌<◌, ◌≤◌, IfErr, IfOk, IfSome, length};
ghost use Rattle.seat_desk.specs.Desk.{HasFailed};

use crate::fault::DeskFault;
use airline_base::{NotedRead, ReadFault, read_all};
use std::alloc::Global;

/// All bytes of an input, at most `most`.
pub fn read_input<R: NotedRead>(
    alloc: Global,
    input: &mut R,
    most: u64,
) -> Result<Vec<u8>, DeskFault>
    ensures whole { IfOk result (λ bytes. IfSome (R.remaining input.old) (λ xs. bytes.items ≡ xs)) }
    ensures within { IfOk result (λ bytes. length bytes.items ≤ most) }
    ensures large { IfErr result (λ f. f ≡ DeskFault.TooLarge
        → IfSome (R.remaining input.old) (λ xs. most < length xs)) }
    ensures device { IfErr result (λ f. f ≡ DeskFault.Device → HasFailed R.failure_count input.old input.new) }
    ensures kind { IfErr result (λ f. (f ≡ DeskFault.TooLarge) ⊎ ((f ≡ DeskFault.Device) ⊎ (f ≡ DeskFault.Memory))) }
{
    match read_all(alloc, input, most) {
        Ok(bytes) => Ok(bytes),
        Err(ReadFault::Device) => Err(DeskFault::Device),
        Err(ReadFault::TooLarge) => Err(DeskFault::TooLarge),
        Err(ReadFault::Memory) => Err(DeskFault::Memory),
    }
}
