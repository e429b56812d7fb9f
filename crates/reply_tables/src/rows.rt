//! The rows of the reply to a line: what was asked and what that came to, and each advice.
//! It knows one line, and not which are wanted.
ghost use Rattle.std.specs.Prelude.{◌≡◌, ◌++◌, OnOk, map, slice_get};
ghost use Rattle.seat_tables.specs.Rows.{rows_from};
ghost use Rattle.seat_tables.specs.Sheets.{ArePut, IsReady};
ghost use Rattle.reply_tables.specs.ReplyRows.{advice_row, advice_rows, answer_rows, asked_row, asked_segment, change_row, confirmed_by, reply_names, request_row, row_on, rows_in, sale_code, sale_row, scope_cell, segment_row};

use airimp_lines::{Request, Segment};
use airline_base::{Class, Code, Locator};
use desk_telling::{line_numbered, segment_of};
use seat_journal::{Advice, Change, Command, Entry, SaleChange, Work};
use seat_tables::{Cell, Sheet, put_row};
use ssim_flights::Flights;
use std::alloc::{AllocError, Global};

/// The names of the columns.
pub fn names() -> [&'static str; 15]
    ensures { map (λ n. n.now) result ≡ reply_names }
{
    [
        "number",
        "session",
        "locator",
        "designator",
        "class",
        "day",
        "board",
        "off",
        "code",
        "seats",
        "reply",
        "flight",
        "leg",
        "limit",
        "may_wait",
    ]
}

/// Adds the row of what a line asks for, which is the request at this place where it asks for seats, and those of its advices.
#[tactic(auto, using(seat_tables::proofs::Putting::put_both))]
pub fn put_answer(
    alloc: Global,
    sheet: &mut Sheet,
    flights: &Flights,
    requests: &[Request],
    journal: &[Entry],
    place: usize,
    entry: &Entry,
) -> Result<(), AllocError>
    requires ready { IsReady sheet.old }
    ensures { OnOk result (ArePut reply_names (answer_rows flights.now requests.now journal.now place entry.now) sheet.old sheet.new) }
{
    let row = asked_row(flights, requests, place, entry, entry.work);
    put_found(alloc, sheet, &row)?;
    put_advices(alloc, sheet, flights, journal, entry)?;
    Ok(())
}

/// Adds a row, if it is there.
#[tactic(auto, using(crate::proofs::Writing::none_put, crate::proofs::Writing::found_put))]
fn put_found(alloc: Global, sheet: &mut Sheet, row: &Option<[Cell; 15]>) -> Result<(), AllocError>
    requires ready { IsReady sheet.old }
    ensures { OnOk result (ArePut reply_names (rows_in row.now) sheet.old sheet.new) }
{
    match row {
        Some(row) => put_row(alloc, sheet, &names(), row),
        None => Ok(()),
    }
}

/// The row of what a line asks for.
fn asked_row(
    flights: &Flights,
    requests: &[Request],
    place: usize,
    entry: &Entry,
    work: Work,
) -> Option<[Cell; 15]>
    ensures { result ≡ asked_row flights.now requests.now place entry.now work }
{
    match work {
        Work::Seats(command) => request_row(flights, requests, place, entry, &command),
        Work::Limit(change) => Some(change_row(entry, &change)),
        Work::Sale(change) => Some(sale_row(entry, &change)),
    }
}

/// The row of a command, beside the request at this place.
fn request_row(
    flights: &Flights,
    requests: &[Request],
    place: usize,
    entry: &Entry,
    command: &Command,
) -> Option<[Cell; 15]>
    ensures { result ≡ request_row flights.now (slice_get requests.now place) entry.now command.now }
{
    let flown = segment_of(flights, command);
    let segment = asked_segment(&flown, requests, place);
    row_on(
        entry,
        command.locator,
        &segment,
        command.code,
        command.seats,
        Cell::Word(entry.reply),
    )
}

/// The segment on the flight of a place, or else that of the request.
fn asked_segment(flown: &Option<Segment>, requests: &[Request], place: usize) -> Option<Segment>
    ensures { result ≡ asked_segment flown.now (slice_get requests.now place) }
{
    match flown {
        Some(segment) => Some(*segment),
        None => match requests.get(place) {
            Some(request) => Some(request.segment),
            None => None,
        },
    }
}

/// The row of a segment, if it is there.
fn row_on(
    entry: &Entry,
    locator: Locator,
    segment: &Option<Segment>,
    code: Code,
    seats: u16,
    reply: Cell,
) -> Option<[Cell; 15]>
    ensures { result ≡ row_on entry.now locator segment.now code seats reply }
{
    match segment {
        Some(segment) => Some(segment_row(entry, locator, segment, code, seats, reply)),
        None => None,
    }
}

/// The row of a segment with this code and these seats.
fn segment_row(
    entry: &Entry,
    locator: Locator,
    segment: &Segment,
    code: Code,
    seats: u16,
    reply: Cell,
) -> [Cell; 15]
    ensures { result ≡ segment_row entry.now locator segment.now code seats reply }
{
    [
        Cell::Number(u64::from(entry.number)),
        Cell::Number(u64::from(entry.session)),
        Cell::Name(locator),
        Cell::Flight(segment.airline, segment.number, segment.suffix),
        Cell::Letter(segment.class),
        Cell::Date(segment.day),
        Cell::Stop(segment.board),
        Cell::Stop(segment.off),
        Cell::Word(code),
        Cell::Number(u64::from(seats)),
        reply,
        Cell::Nothing,
        Cell::Nothing,
        Cell::Nothing,
        Cell::Nothing,
    ]
}

/// The row of a change.
fn change_row(entry: &Entry, change: &Change) -> [Cell; 15]
    ensures { result ≡ change_row entry.now change.now }
{
    [
        Cell::Number(u64::from(entry.number)),
        Cell::Number(u64::from(entry.session)),
        Cell::Nothing,
        Cell::Nothing,
        Cell::Letter(change.class),
        Cell::Nothing,
        Cell::Nothing,
        Cell::Nothing,
        Cell::Nothing,
        Cell::Nothing,
        Cell::Word(entry.reply),
        Cell::Number(u64::from(change.flight)),
        Cell::Number(u64::from(change.leg)),
        Cell::Number(u64::from(change.limit)),
        Cell::Number(u64::from(change.wait)),
    ]
}

/// The row of a class that is closed or opened.
fn sale_row(entry: &Entry, change: &SaleChange) -> [Cell; 15]
    ensures { result ≡ sale_row entry.now change.now }
{
    [
        Cell::Number(u64::from(entry.number)),
        Cell::Number(u64::from(entry.session)),
        Cell::Nothing,
        Cell::Nothing,
        scope_cell(change.class),
        Cell::Nothing,
        Cell::Nothing,
        Cell::Nothing,
        Cell::Word(sale_code(change.closed)),
        Cell::Nothing,
        Cell::Word(entry.reply),
        Cell::Number(u64::from(change.flight)),
        Cell::Number(u64::from(change.leg)),
        Cell::Nothing,
        Cell::Nothing,
    ]
}

/// The class, or nothing where it is each.
fn scope_cell(class: Option<Class>) -> Cell
    ensures { result ≡ scope_cell class }
{
    match class {
        Some(class) => Cell::Letter(class),
        None => Cell::Nothing,
    }
}

/// What is done to a class.
fn sale_code(closed: bool) -> Code
    ensures { result ≡ sale_code closed }
{
    if closed {
        Code::of(*b"CL")
    } else {
        Code::of(*b"OP")
    }
}

/// Adds the rows of a line's advices.
fn put_advices(
    alloc: Global,
    sheet: &mut Sheet,
    flights: &Flights,
    journal: &[Entry],
    entry: &Entry,
) -> Result<(), AllocError>
    requires ready { IsReady sheet.old }
    ensures { OnOk result (ArePut reply_names (rows_from (advice_rows flights.now journal.now entry.now) 0 entry.now.advices)
        sheet.old sheet.new) }
{
    let advices = entry.advices.as_slice();
    for i in 0..advices.len() {
        put_advice(alloc, sheet, flights, journal, entry, &advices[i])?;
    }
    Ok(())
}

/// Adds the row of an advice.
fn put_advice(
    alloc: Global,
    sheet: &mut Sheet,
    flights: &Flights,
    journal: &[Entry],
    entry: &Entry,
    advice: &Advice,
) -> Result<(), AllocError>
    requires ready { IsReady sheet.old }
    ensures { OnOk result (ArePut reply_names (advice_rows flights.now journal.now entry.now 0 advice.now) sheet.old sheet.new) }
{
    let row = advice_row(flights, journal, entry, advice);
    put_found(alloc, sheet, &row)
}

/// The row of an advice: the segment that its booking has on the flight of its place.
fn advice_row(
    flights: &Flights,
    journal: &[Entry],
    entry: &Entry,
    advice: &Advice,
) -> Option<[Cell; 15]>
    ensures { result ≡ advice_row flights.now journal.now entry.now advice.now }
{
    match line_numbered(journal, advice.number) {
        Some(made) => confirmed_by(flights, entry, advice, made.work),
        None => None,
    }
}

/// By what the line that made the booking asked for.
fn confirmed_by(flights: &Flights, entry: &Entry, advice: &Advice, work: Work) -> Option<[Cell; 15]>
    ensures { result ≡ confirmed_by flights.now entry.now advice.now work }
{
    match work {
        Work::Seats(command) => {
            let segment = segment_of(flights, &command);
            let code = Code::of(*b"KL");
            row_on(
                entry,
                command.locator,
                &segment,
                code,
                advice.seats,
                Cell::Nothing,
            )
        }
        Work::Limit(_) => None,
        Work::Sale(_) => None,
    }
}
