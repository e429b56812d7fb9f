//! `flights`: a data set on the dates of a horizon, and one line for each flight.
ghost use Rattle.std.specs.Prelude.{◌≡◌, ◌≢◌, ◌<◌, ◌≤◌, ◌⊎◌, IfErr, IfOk, IfSome, OnOk, length};
ghost use Rattle.ssim_flights.specs.Right.{IsOfCentury};
ghost use Rattle.seat_desk.specs.CheckDesk.{most_set_bytes};
ghost use Rattle.seat_desk.specs.Desk.{HasFailed, InputFailed, IsOfInput, IsWritten, OfInput, OutputFailed};
ghost use Rattle.seat_desk.specs.FlightsDesk.{IsLegText, IsPut, IsUnscheduled};
ghost use Rattle.seat_reports.specs.FlightLines.{IsFlightsText, IsLinePut, IsListing};

use airline_base::{Day, NotedRead, NotedWrite, put_all};
use seat_desk::{DeskFault, MOST_SET_BYTES, put, put_head, put_way, read_input, scheduled};
use ssim_flights::{DatedLeg, Flight, Flights};
use std::alloc::{AllocError, Global};

/// Reads a data set and writes one line for each dated flight of the `days` days from the first one on.
/// The first day is in 2000 to 2099, `days` is 1 to 366, an input has at most 256 MiB.
pub fn desk_flights<R: NotedRead, W: NotedWrite>(
    alloc: Global,
    input: &mut R,
    first: Day,
    days: u16,
    out: &mut W,
) -> Result<(), DeskFault>
    requires first { IsOfCentury first }
    requires days { (1 ≤ days) × (days ≤ 366) }
    ensures ok { OnOk result (IsWritten (OfInput (IsListing first days) (R.remaining input.old)) (W.contents out.old)
        (W.contents out.new)) }
    ensures fault { IfErr result (λ f. IsOfInput f → IfSome (R.remaining input.old) (IsUnscheduled first days f)) }
    ensures large { IfErr result (λ f. f ≡ DeskFault.TooLarge
        → IfSome (R.remaining input.old) (λ xs. most_set_bytes < length xs)) }
    ensures device { IfErr result (λ f. f ≡ DeskFault.Device →
        InputFailed (HasFailed R.failure_count input.old input.new) out.old out.new
        ⊎ OutputFailed W.failure_count W.contents out.old out.new (OfInput (IsListing first days) (R.remaining input.old))) }
    ensures untouched { IfErr result (λ f. f ≢ DeskFault.Device → out.new ≡ out.old) }
{
    let bytes = read_input(alloc, input, MOST_SET_BYTES)?;
    let text = listing(alloc, &bytes, first, days)?;
    match put_all(out, &text) {
        Ok(()) => Ok(()),
        Err(_) => Err(DeskFault::Device),
    }
}

/// Reads these bytes as a data set, and words a line for each of its flights.
fn listing(alloc: Global, bytes: &[u8], first: Day, days: u16) -> Result<Vec<u8>, DeskFault>
    requires size { length bytes.now ≤ most_set_bytes }
    requires first { IsOfCentury first }
    requires days { (1 ≤ days) × (days ≤ 366) }
    ensures ok { IfOk result (λ text. IsListing first days bytes.now text.items) }
    ensures fault { IfErr result (λ f. f ≢ DeskFault.Memory → IsUnscheduled first days f bytes.now) }
    ensures kind { IfErr result (λ f. (f ≢ DeskFault.Device) × (f ≢ DeskFault.TooLarge)) }
{
    let flights = scheduled(alloc, bytes, first, days)?;
    match text_of(alloc, &flights) {
        Ok(text) => Ok(text),
        Err(_) => Err(DeskFault::Memory),
    }
}

/// A line for each flight.
fn text_of(alloc: Global, flights: &Flights) -> Result<Vec<u8>, AllocError>
    ensures { IfOk result (λ text. IsFlightsText flights.now text.items) }
{
    let mut text = Vec::new(alloc);
    for index in 0..flights.len() {
        put_flight(&mut text, index, &flights.flight(index))?;
    }
    Ok(text)
}

#[tactic(auto, using(crate::proofs::FlightLines::flight_line))]
fn put_flight(text: &mut Vec<u8>, index: u32, flight: &Flight) -> Result<(), AllocError>
    ensures { OnOk result (IsLinePut index flight.now text.old.items text.new.items) }
{
    put_head(text, index, flight)?;
    put_legs(text, flight.legs.as_slice())?;
    put(text, b"\n")?;
    Ok(())
}

fn put_legs(text: &mut Vec<u8>, legs: &[DatedLeg]) -> Result<(), AllocError>
    ensures { OnOk result (IsPut IsLegText 0 legs.now text.old.items text.new.items) }
{
    for leg in legs {
        put_way(text, leg)?;
    }
    Ok(())
}
