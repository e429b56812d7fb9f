//! `flights` as a table: a data set on the dates of a horizon, and a row for each leg of each flight.
//! It knows no other report.
ghost use Rattle.std.specs.Prelude.{◌≡◌, ◌≢◌, ◌<◌, ◌≤◌, ◌⊎◌, ◌∷◌, [], IfErr, IfOk, IfSome, OnOk, length, map};
ghost use Rattle.ssim_flights.specs.Right.{IsOfCentury};
ghost use Rattle.seat_desk.specs.CheckDesk.{most_set_bytes};
ghost use Rattle.seat_desk.specs.Desk.{HasFailed, InputFailed, IsOfInput, IsWritten, OfInput, OutputFailed};
ghost use Rattle.seat_desk.specs.FlightsDesk.{IsUnscheduled};
ghost use Rattle.seat_tables.specs.Rows.{IsTable, rows_from};
ghost use Rattle.seat_tables.specs.Sheets.{ArePut, IsReady};
ghost use Rattle.table_questions.specs.FlightTable.{IsFlightTable, flight_names, leg_row, rows_of_flight, rows_of_leg};

use airline_base::{Day, NotedRead, NotedWrite, put_all};
use seat_desk::{DeskFault, MOST_SET_BYTES, read_input, scheduled};
use seat_tables::{Cell, Form, Sheet, put_row};
use ssim_flights::{DatedLeg, Flight, Flights};
use std::alloc::{AllocError, Global};

/// Reads a data set and writes a row for each leg of each dated flight of the `days` days from the first one on, in a form.
/// The first day is in 2000 to 2099, `days` is 1 to 366, an input has at most 256 MiB.
pub fn desk_flight_table<R: NotedRead, W: NotedWrite>(
    alloc: Global,
    form: Form,
    input: &mut R,
    first: Day,
    days: u16,
    out: &mut W,
) -> Result<(), DeskFault>
    requires first { IsOfCentury first }
    requires days { (1 ≤ days) × (days ≤ 366) }
    ensures ok { OnOk result (IsWritten (OfInput (IsFlightTable form first days) (R.remaining input.old)) (W.contents out.old)
        (W.contents out.new)) }
    ensures fault { IfErr result (λ f. IsOfInput f → IfSome (R.remaining input.old) (IsUnscheduled first days f)) }
    ensures large { IfErr result (λ f. f ≡ DeskFault.TooLarge
        → IfSome (R.remaining input.old) (λ xs. most_set_bytes < length xs)) }
    ensures device { IfErr result (λ f. f ≡ DeskFault.Device →
        InputFailed (HasFailed R.failure_count input.old input.new) out.old out.new
        ⊎ OutputFailed W.failure_count W.contents out.old out.new (OfInput (IsFlightTable form first days) (R.remaining input.old))) }
    ensures untouched { IfErr result (λ f. f ≢ DeskFault.Device → out.new ≡ out.old) }
{
    let bytes = read_input(alloc, input, MOST_SET_BYTES)?;
    let text = listing(alloc, form, &bytes, first, days)?;
    match put_all(out, &text) {
        Ok(()) => Ok(()),
        Err(_) => Err(DeskFault::Device),
    }
}

/// Reads these bytes as a data set, and gives the table of its flights.
fn listing(
    alloc: Global,
    form: Form,
    bytes: &[u8],
    first: Day,
    days: u16,
) -> Result<Vec<u8>, DeskFault>
    requires size { length bytes.now ≤ most_set_bytes }
    requires first { IsOfCentury first }
    requires days { (1 ≤ days) × (days ≤ 366) }
    ensures ok { IfOk result (λ text. IsFlightTable form first days bytes.now text.items) }
    ensures fault { IfErr result (λ f. f ≢ DeskFault.Memory → IsUnscheduled first days f bytes.now) }
    ensures kind { IfErr result (λ f. (f ≢ DeskFault.Device) × (f ≢ DeskFault.TooLarge)) }
{
    let flights = scheduled(alloc, bytes, first, days)?;
    match table_of(alloc, form, &flights) {
        Ok(text) => Ok(text),
        Err(_) => Err(DeskFault::Memory),
    }
}

#[tactic(auto, using(seat_tables::proofs::Putting::table_of))]
fn table_of(alloc: Global, form: Form, flights: &Flights) -> Result<Vec<u8>, AllocError>
    ensures { IfOk result (λ text. IsTable form flight_names (rows_from rows_of_flight 0 flights.now) text.items) }
{
    let mut sheet = Sheet::new(alloc, form, &names())?;
    put_flights(alloc, &mut sheet, flights)?;
    sheet.into_text()
}

/// The names of the columns.
fn names() -> [&'static str; 6]
    ensures { map (λ n. n.now) result ≡ flight_names }
{
    ["flight", "designator", "leg", "day", "board", "off"]
}

/// Adds the rows of all flights.
fn put_flights(alloc: Global, sheet: &mut Sheet, flights: &Flights) -> Result<(), AllocError>
    requires ready { IsReady sheet.old }
    ensures { OnOk result (ArePut flight_names (rows_from rows_of_flight 0 flights.now) sheet.old sheet.new) }
{
    for index in 0..flights.len() {
        put_legs(alloc, sheet, index, &flights.flight(index))?;
    }
    Ok(())
}

/// Adds the rows of the legs of a flight.
fn put_legs(alloc: Global, sheet: &mut Sheet, index: u32, flight: &Flight) -> Result<(), AllocError>
    requires ready { IsReady sheet.old }
    ensures { OnOk result (ArePut flight_names (rows_of_flight index flight.now) sheet.old sheet.new) }
{
    let legs = flight.legs.as_slice();
    for j in 0..legs.len() {
        put_leg(alloc, sheet, index, flight, j as u64, &legs[j])?;
    }
    Ok(())
}

/// Adds the row of a leg.
#[tactic(auto, using(crate::proofs::Tables::row_put))]
fn put_leg(
    alloc: Global,
    sheet: &mut Sheet,
    index: u32,
    flight: &Flight,
    leg: u64,
    dated: &DatedLeg,
) -> Result<(), AllocError>
    requires ready { IsReady sheet.old }
    ensures { OnOk result (ArePut flight_names (rows_of_leg index flight.now leg dated.now) sheet.old sheet.new) }
{
    let row = leg_row(index, flight, leg, dated);
    put_row(alloc, sheet, &names(), &row)?;
    Ok(())
}

/// The row of a leg.
fn leg_row(index: u32, flight: &Flight, leg: u64, dated: &DatedLeg) -> [Cell; 6]
    ensures { result ≡ leg_row index flight.now leg dated.now }
{
    [
        Cell::Number(u64::from(index)),
        Cell::Flight(flight.airline, flight.number, flight.suffix),
        Cell::Number(leg),
        Cell::Date(dated.day),
        Cell::Stop(dated.board),
        Cell::Stop(dated.off),
    ]
}
