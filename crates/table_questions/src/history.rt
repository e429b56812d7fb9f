//! The table of a history: what the lines of a journal did for a locator, or on a flight, row by row.
//! It knows no other table.
ghost use Rattle.std.specs.Prelude.{◌≡◌, OnOk, map};
ghost use Rattle.seat_tables.specs.Rows.{rows_from};
ghost use Rattle.seat_tables.specs.Sheets.{ArePut, IsReady};
ghost use Rattle.desk_questions.specs.History.{is_wanted, under};
ghost use Rattle.table_questions.specs.HistoryRows.{advice_row, advice_rows, asked_row, asked_rows, board_in, cancelled_by, day_in, designator_in, held_by, history_names, line_rows, listed_by, off_in};

use crate::table::Table;
use airimp_lines::Segment;
use airline_base::Code;
use desk_questions::{made_under, under};
use desk_telling::segment_of;
use seat_core::Core;
use seat_journal::{Advice, Command, Entry};
use seat_lists::Wanted;
use seat_rules::{Effect, effect_of};
use seat_tables::{Cell, Form, Sheet, put_row};
use ssim_flights::Flights;
use std::alloc::{AllocError, Global};

/// What the lines of a journal did for a locator, on a flight or on a day.
#[derive(Clone, Copy)]
pub struct HistoryTable<'a> {
    pub wanted: Wanted<'a>,
}

impl<'a> Table for HistoryTable<'a> {
    ghost use Rattle.table_questions.specs.HistoryRows.{history_names, history_rows};

    ghost names = { history_names };

    ghost rows = { λ asked flights grid journal. history_rows asked.wanted flights grid journal };

    fn begun(&self, alloc: Global, form: Form) -> Result<Sheet, AllocError> {
        Sheet::new(alloc, form, &names())
    }

    fn put_rows(
        &self,
        alloc: Global,
        sheet: &mut Sheet,
        flights: &Flights,
        core: &Core,
    ) -> Result<(), AllocError> {
        put_lines(alloc, sheet, flights, core.journal(), &self.wanted)
    }
}

/// The names of the columns.
fn names() -> [&'static str; 14]
    ensures { map (λ n. n.now) result ≡ history_names }
{
    [
        "number",
        "session",
        "locator",
        "designator",
        "class",
        "day",
        "board",
        "off",
        "code",
        "seats",
        "reply",
        "holds",
        "waits",
        "cancels",
    ]
}

/// Adds the rows of what each line did.
fn put_lines(
    alloc: Global,
    sheet: &mut Sheet,
    flights: &Flights,
    journal: &[Entry],
    wanted: &Wanted<'_>,
) -> Result<(), AllocError>
    requires ready { IsReady sheet.old }
    ensures { OnOk result (ArePut history_names (rows_from (line_rows flights.now journal.now (is_wanted flights.now wanted.now)) 0 journal.now)
        sheet.old sheet.new) }
{
    for i in 0..journal.len() {
        put_line(alloc, sheet, flights, journal, wanted, &journal[i])?;
    }
    Ok(())
}

/// Adds the rows of what a line did: what it asked, and its advices.
#[tactic(auto, using(seat_tables::proofs::Putting::put_both))]
fn put_line(
    alloc: Global,
    sheet: &mut Sheet,
    flights: &Flights,
    journal: &[Entry],
    wanted: &Wanted<'_>,
    line: &Entry,
) -> Result<(), AllocError>
    requires ready { IsReady sheet.old }
    ensures { OnOk result (ArePut history_names (line_rows flights.now journal.now (is_wanted flights.now wanted.now) 0 line.now)
        sheet.old sheet.new) }
{
    put_asked(alloc, sheet, flights, wanted, line)?;
    put_advices(alloc, sheet, flights, journal, wanted, line)?;
    Ok(())
}

/// Adds the row of what a line asked, if it did so of what is wanted.
#[tactic(auto, using(crate::proofs::Tables::row_put, crate::proofs::Events::nothing_asked, crate::proofs::Events::asked_put))]
fn put_asked(
    alloc: Global,
    sheet: &mut Sheet,
    flights: &Flights,
    wanted: &Wanted<'_>,
    line: &Entry,
) -> Result<(), AllocError>
    requires ready { IsReady sheet.old }
    ensures { OnOk result (ArePut history_names (asked_rows flights.now line.now (under (is_wanted flights.now wanted.now) line.now.work))
        sheet.old sheet.new) }
{
    match under(flights, &line.work, wanted) {
        Some(command) => {
            let row = asked_row(flights, line, &command);
            put_row(alloc, sheet, &names(), &row)
        }
        None => Ok(()),
    }
}

/// The row of a request.
fn asked_row(flights: &Flights, line: &Entry, command: &Command) -> [Cell; 14]
    ensures { result ≡ asked_row flights.now line.now command.now }
{
    let segment = segment_of(flights, command);
    let effect = effect_of(line.reply);
    [
        Cell::Number(u64::from(line.number)),
        Cell::Number(u64::from(line.session)),
        Cell::Name(command.locator),
        designator_in(&segment),
        Cell::Letter(command.class),
        day_in(&segment),
        board_in(&segment),
        off_in(&segment),
        Cell::Word(command.code),
        Cell::Number(u64::from(command.seats)),
        Cell::Word(line.reply),
        Cell::Number(u64::from(held_by(effect, command.seats))),
        Cell::Number(u64::from(listed_by(effect, command.seats))),
        Cell::Number(u64::from(cancelled_by(effect, command.seats))),
    ]
}

fn designator_in(segment: &Option<Segment>) -> Cell
    ensures { result ≡ designator_in segment.now }
{
    match segment {
        Some(segment) => Cell::Flight(segment.airline, segment.number, segment.suffix),
        None => Cell::Nothing,
    }
}

fn day_in(segment: &Option<Segment>) -> Cell
    ensures { result ≡ day_in segment.now }
{
    match segment {
        Some(segment) => Cell::Date(segment.day),
        None => Cell::Nothing,
    }
}

fn board_in(segment: &Option<Segment>) -> Cell
    ensures { result ≡ board_in segment.now }
{
    match segment {
        Some(segment) => Cell::Stop(segment.board),
        None => Cell::Nothing,
    }
}

fn off_in(segment: &Option<Segment>) -> Cell
    ensures { result ≡ off_in segment.now }
{
    match segment {
        Some(segment) => Cell::Stop(segment.off),
        None => Cell::Nothing,
    }
}

fn held_by(effect: Effect, seats: u16) -> u16
    ensures { result ≡ held_by effect seats }
{
    match effect {
        Effect::Holds => seats,
        _ => 0,
    }
}

fn listed_by(effect: Effect, seats: u16) -> u16
    ensures { result ≡ listed_by effect seats }
{
    match effect {
        Effect::Waits => seats,
        _ => 0,
    }
}

fn cancelled_by(effect: Effect, seats: u16) -> u16
    ensures { result ≡ cancelled_by effect seats }
{
    match effect {
        Effect::Reduces => seats,
        _ => 0,
    }
}

/// Adds the rows of the advices of a line that are to bookings of what is wanted.
fn put_advices(
    alloc: Global,
    sheet: &mut Sheet,
    flights: &Flights,
    journal: &[Entry],
    wanted: &Wanted<'_>,
    line: &Entry,
) -> Result<(), AllocError>
    requires ready { IsReady sheet.old }
    ensures { OnOk result (ArePut history_names
        (rows_from (advice_rows flights.now journal.now (is_wanted flights.now wanted.now) line.now) 0 line.now.advices) sheet.old sheet.new) }
{
    let advices = line.advices.as_slice();
    for i in 0..advices.len() {
        put_advice(alloc, sheet, flights, journal, wanted, line, &advices[i])?;
    }
    Ok(())
}

/// Adds the row of an advice, if it is to a booking of what is wanted.
#[tactic(auto, using(crate::proofs::Tables::row_put, crate::proofs::Events::no_advice, crate::proofs::Events::advice_put))]
fn put_advice(
    alloc: Global,
    sheet: &mut Sheet,
    flights: &Flights,
    journal: &[Entry],
    wanted: &Wanted<'_>,
    line: &Entry,
    advice: &Advice,
) -> Result<(), AllocError>
    requires ready { IsReady sheet.old }
    ensures { OnOk result (ArePut history_names (advice_rows flights.now journal.now (is_wanted flights.now wanted.now) line.now 0 advice.now)
        sheet.old sheet.new) }
{
    match made_under(flights, journal, wanted, advice.number) {
        Some(command) => {
            let row = advice_row(flights, line, advice, &command);
            put_row(alloc, sheet, &names(), &row)
        }
        None => Ok(()),
    }
}

/// The row of an advice.
fn advice_row(flights: &Flights, line: &Entry, advice: &Advice, command: &Command) -> [Cell; 14]
    ensures { result ≡ advice_row flights.now line.now advice.now command.now }
{
    let segment = segment_of(flights, command);
    [
        Cell::Number(u64::from(line.number)),
        Cell::Number(u64::from(line.session)),
        Cell::Name(command.locator),
        designator_in(&segment),
        Cell::Letter(command.class),
        day_in(&segment),
        board_in(&segment),
        off_in(&segment),
        Cell::Word(Code::of(*b"KL")),
        Cell::Number(u64::from(advice.seats)),
        Cell::Nothing,
        Cell::Number(u64::from(advice.seats)),
        Cell::Number(0),
        Cell::Number(0),
    ]
}
