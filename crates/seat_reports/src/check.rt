//! `check`: a data set, and one line that sums it up.
ghost use Rattle.std.specs.Prelude.{◌≡◌, ◌≢◌, ◌++◌, ◌<◌, ◌≤◌, ◌⊎◌, IfErr, IfOk, IfSome, OnOk, length};
ghost use Rattle.seat_desk.specs.CheckDesk.{IsRefusedSet, most_set_bytes};
ghost use Rattle.seat_desk.specs.Desk.{HasFailed, InputFailed, IsOfInput, IsWritten, OfInput, OutputFailed};
ghost use Rattle.seat_reports.specs.CheckLine.{IsCheckLine, IsEndText, Sums, counts_text, mode_text};

use airline_base::{Day, NotedRead, NotedWrite, put_all};
use seat_desk::{DeskFault, MOST_SET_BYTES, data_set, put, put_number, read_input};
use ssim_records::DataSet;
use std::alloc::{AllocError, Global};

/// Reads a data set and writes one line that sums it up. An input has at most 256 MiB.
pub fn desk_check<R: NotedRead, W: NotedWrite>(
    alloc: Global,
    input: &mut R,
    out: &mut W,
) -> Result<(), DeskFault>
    ensures ok { OnOk result (IsWritten (OfInput Sums (R.remaining input.old)) (W.contents out.old)
        (W.contents out.new)) }
    ensures fault { IfErr result (λ f. IsOfInput f → IfSome (R.remaining input.old) (IsRefusedSet f)) }
    ensures large { IfErr result (λ f. f ≡ DeskFault.TooLarge
        → IfSome (R.remaining input.old) (λ xs. most_set_bytes < length xs)) }
    ensures device { IfErr result (λ f. f ≡ DeskFault.Device →
        InputFailed (HasFailed R.failure_count input.old input.new) out.old out.new
        ⊎ OutputFailed W.failure_count W.contents out.old out.new (OfInput Sums (R.remaining input.old))) }
    ensures untouched { IfErr result (λ f. f ≢ DeskFault.Device → out.new ≡ out.old) }
{
    let bytes = read_input(alloc, input, MOST_SET_BYTES)?;
    let text = summary(alloc, &bytes)?;
    match put_all(out, &text) {
        Ok(()) => Ok(()),
        Err(_) => Err(DeskFault::Device),
    }
}

/// Reads these bytes as a data set, and words the line that sums it up.
fn summary(alloc: Global, bytes: &[u8]) -> Result<Vec<u8>, DeskFault>
    requires { length bytes.now ≤ most_set_bytes }
    ensures ok { IfOk result (λ text. Sums bytes.now text.items) }
    ensures fault { IfErr result (λ f. f ≢ DeskFault.Memory → IsRefusedSet f bytes.now) }
    ensures kind { IfErr result (λ f. (f ≢ DeskFault.Device) × (f ≢ DeskFault.TooLarge)) }
{
    let set = data_set(alloc, bytes)?;
    match line_of(alloc, &set) {
        Ok(line) => Ok(line),
        Err(_) => Err(DeskFault::Memory),
    }
}

fn line_of(alloc: Global, set: &DataSet) -> Result<Vec<u8>, AllocError>
    ensures { IfOk result (λ line. IsCheckLine set.now line.items) }
{
    let mut line = Vec::new(alloc);
    put(&mut line, &set.carrier.airline.characters())?;
    put(&mut line, mode(set.carrier.local))?;
    put(&mut line, &set.carrier.from.bytes())?;
    put(&mut line, b" ")?;
    put(&mut line, &end_of(set.carrier.to))?;
    put_counts(&mut line, set.legs.len() as u64, u64::from(set.segments))?;
    Ok(line)
}

/// Adds how many legs and segments there are, and ends the line.
fn put_counts(line: &mut Vec<u8>, legs: u64, segments: u64) -> Result<(), AllocError>
    ensures { OnOk result (line.new.items ≡ line.old.items ++ counts_text legs segments) }
{
    put(line, b" legs ")?;
    put_number(line, legs)?;
    put(line, b" segments ")?;
    put_number(line, segments)?;
    put(line, b"\n")
}

fn mode(local: bool) -> &'static [u8]
    ensures { result.now ≡ mode_text local }
{
    if local { b" L " } else { b" U " }
}

fn end_of(to: Option<Day>) -> [u8; 7]
    ensures { IsEndText to result }
{
    match to {
        Some(day) => day.bytes(),
        None => *b"00XXX00",
    }
}
