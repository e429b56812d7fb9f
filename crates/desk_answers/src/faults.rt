//! The lines that say why a desk's line is refused.
ghost use Rattle.std.specs.Prelude.{◌≡◌, IfOk};
ghost use Rattle.desk_answers.specs.FaultLines.{full_line, memory_line, wrong_call_line, wrong_line};

use airline_base::Memory;
use airline_base::spelling::{put, put_number};
use arrayvec::ArrayVec;
use desk_lines::Wrong;
use seat_desk::DeskFault;
use std::alloc::Global;

/// A wrong line, by its number.
pub(crate) fn wrong_line(
    alloc: Global,
    wrong: Wrong,
    session: u8,
    number: u32,
) -> Result<Vec<u8>, Memory>
    ensures { IfOk result (λ text. text.items ≡ wrong_line wrong session number) }
{
    let line = format!(in alloc; "FAULT {wrong} {session} {number}\n")?;
    Ok(line.into_bytes())
}

/// A wrong line that has the number of a call.
pub fn wrong_call_line(
    alloc: Global,
    wrong: Wrong,
    session: u8,
    call: u32,
) -> Result<Vec<u8>, Memory>
    ensures { IfOk result (λ text. text.items ≡ wrong_call_line wrong session call) }
{
    let line = format!(in alloc; "FAULT {wrong} {session} @{call}\n")?;
    Ok(line.into_bytes())
}

/// The journal has no room for this call.
pub fn full_line(alloc: Global, session: u8, call: u32) -> Result<Vec<u8>, Memory>
    ensures { IfOk result (λ text. text.items ≡ full_line session call) }
{
    let fault = DeskFault::Book { session, call };
    let line = format!(in alloc; "FAULT {fault}\n")?;
    Ok(line.into_bytes())
}

/// Memory was wanting for a line. It takes none.
pub fn memory_line(session: u8, number: u32) -> ArrayVec<u8, 40>
    ensures { result.items ≡ memory_line session number }
{
    let mut text = ArrayVec::new();
    put(&mut text, b"FAULT MEMORY ");
    put_number(&mut text, u32::from(session));
    put(&mut text, b" ");
    put_number(&mut text, number);
    put(&mut text, b"\n");
    text
}
