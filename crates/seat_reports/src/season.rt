//! `season`: a data set, and the season file that begins with its days.
ghost use Rattle.std.specs.Prelude.{◌≡◌, ◌≢◌, ◌<◌, ◌≤◌, ◌⊎◌, IfErr, IfOk, IfSome, OnOk, length};
ghost use Rattle.seat_desk.specs.CheckDesk.{IsRefusedSet, most_set_bytes};
ghost use Rattle.seat_desk.specs.Desk.{HasFailed, InputFailed, IsOfInput, IsWritten, OfInput, OutputFailed};
ghost use Rattle.seat_reports.specs.SeasonFile.{Begins};

use crate::season_file::season_text;
use airline_base::{NotedRead, NotedWrite, put_all};
use seat_desk::{DeskFault, MOST_SET_BYTES, data_set, read_input};
use std::alloc::Global;

/// Reads a data set and writes a season file of it and these limits: from its earliest day on, until its last one, and for at most 366
/// days. An input has at most 256 MiB.
pub fn desk_season<R: NotedRead, W: NotedWrite>(
    alloc: Global,
    input: &mut R,
    set: &str,
    limits: &str,
    out: &mut W,
) -> Result<(), DeskFault>
    ensures ok { OnOk result (IsWritten (OfInput (Begins set.now limits.now) (R.remaining input.old)) (W.contents out.old)
        (W.contents out.new)) }
    ensures fault { IfErr result (λ f. IsOfInput f → IfSome (R.remaining input.old) (IsRefusedSet f)) }
    ensures large { IfErr result (λ f. f ≡ DeskFault.TooLarge
        → IfSome (R.remaining input.old) (λ xs. most_set_bytes < length xs)) }
    ensures device { IfErr result (λ f. f ≡ DeskFault.Device →
        InputFailed (HasFailed R.failure_count input.old input.new) out.old out.new
        ⊎ OutputFailed W.failure_count W.contents out.old out.new (OfInput (Begins set.now limits.now) (R.remaining input.old))) }
    ensures untouched { IfErr result (λ f. f ≢ DeskFault.Device → out.new ≡ out.old) }
{
    let bytes = read_input(alloc, input, MOST_SET_BYTES)?;
    let text = beginning(alloc, &bytes, set, limits)?;
    match put_all(out, &text) {
        Ok(()) => Ok(()),
        Err(_) => Err(DeskFault::Device),
    }
}

/// Reads these bytes as a data set, and words the season file of it.
fn beginning(alloc: Global, bytes: &[u8], set: &str, limits: &str) -> Result<Vec<u8>, DeskFault>
    requires { length bytes.now ≤ most_set_bytes }
    ensures ok { IfOk result (λ text. Begins set.now limits.now bytes.now text.items) }
    ensures fault { IfErr result (λ f. f ≢ DeskFault.Memory → IsRefusedSet f bytes.now) }
    ensures kind { IfErr result (λ f. (f ≢ DeskFault.Device) × (f ≢ DeskFault.TooLarge)) }
{
    let schedule = data_set(alloc, bytes)?;
    match season_text(alloc, set, limits, &schedule) {
        Ok(text) => Ok(text),
        Err(_) => Err(DeskFault::Memory),
    }
}
