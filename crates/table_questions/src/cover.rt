//! The table of `cover`. It asks nothing of a journal.
ghost use Rattle.std.specs.Prelude.{◌≡◌, ◌++◌, ◌+◌, ◌<◌, IfErr, IfOk, OnOk, Some, false, length, map, slice_get, slice_index_or};
ghost use Rattle.seat_questions.specs.Cover.{effect_among, has_row, legs_for};
ghost use Rattle.seat_questions.specs.Coverage.{IsCoverage, IsSearchable};
ghost use Rattle.seat_questions.specs.Winning.{AreWinners};
ghost use Rattle.seat_tables.specs.Rows.{IsTable, rows_from};
ghost use Rattle.seat_tables.specs.Sheets.{ArePut, IsReady};
ghost use Rattle.table_questions.specs.CoverRows.{bare_row, cover_names, cover_rows, idle_row, rows_of_flight, rows_of_leg, rows_of_row};

use airline_base::Memory;
use seat_desk::{DeskFault, Loaded, Question};
use seat_limits::LimitRow;
use seat_questions::{Coverage, winners};
use seat_tables::{Cell, Form, Sheet, put_row};
use ssim_flights::{DatedLeg, Flight, Flights};
use std::alloc::{AllocError, Global};
use std::thread::Threads;

/// A row for each limit row that gives no leg its ladder, with how many legs it is for, and one for each dated leg without a row. It asks
/// nothing of the journal.
#[derive(Clone, Copy)]
pub struct CoverTable {
    pub form: Form,
}

impl Question for CoverTable {
    ghost use Rattle.seat_tables.specs.Rows.{IsTable};
    ghost use Rattle.table_questions.specs.CoverRows.{cover_names, cover_rows};

    ghost answers = { λ asked flights rows grid journal text. IsTable asked.form cover_names (cover_rows rows flights) text };

    ghost refuses = { λ asked grid fault journal. ⊥ };

    #[tactic(auto, using(crate::proofs::Placing::of_rows))]
    fn text<R: Threads + Sync>(
        &self,
        rt: &R,
        alloc: Global,
        loaded: Loaded,
        journal: Vec<u8>,
    ) -> Result<Vec<u8>, DeskFault> {
        let Loaded {
            flights,
            rows,
            grid,
        } = loaded;
        drop(grid);
        drop(journal);
        covered(alloc, self.form, &flights, rows.as_slice())
    }
}

/// The table of these rows and legs.
fn covered(
    alloc: Global,
    form: Form,
    flights: &Flights,
    rows: &[LimitRow],
) -> Result<Vec<u8>, DeskFault>
    ensures ok { IfOk result (λ text. IsTable form cover_names (cover_rows rows.now flights.now) text.items) }
    ensures memory { IfErr result (λ f. f ≡ DeskFault.Memory) }
{
    match cover_table(alloc, form, flights, rows) {
        Ok(text) => Ok(text),
        Err(_) => Err(DeskFault::Memory),
    }
}

fn cover_table(
    alloc: Global,
    form: Form,
    flights: &Flights,
    rows: &[LimitRow],
) -> Result<Vec<u8>, Memory>
    ensures { IfOk result (λ text. IsTable form cover_names (cover_rows rows.now flights.now) text.items) }
{
    let coverage = Coverage::new(alloc, flights, rows)?;
    let marks = winners(alloc, flights, rows)?;
    let text = table_of(alloc, form, flights, rows, &coverage, marks.as_slice())?;
    Ok(text)
}

#[tactic(auto, using(seat_tables::proofs::Putting::table_of))]
fn table_of(
    alloc: Global,
    form: Form,
    flights: &Flights,
    rows: &[LimitRow],
    coverage: &Coverage,
    marks: &[bool],
) -> Result<Vec<u8>, AllocError>
    requires right { IsCoverage coverage.now flights.now rows.now }
    requires searchable { IsSearchable coverage.now }
    requires marks { AreWinners rows.now flights.now marks.now }
    ensures { IfOk result (λ text. IsTable form cover_names (cover_rows rows.now flights.now) text.items) }
{
    let mut sheet = Sheet::new(alloc, form, &names())?;
    put_both(alloc, &mut sheet, flights, rows, coverage, marks)?;
    sheet.into_text()
}

/// The names of the columns.
fn names() -> [&'static str; 8]
    ensures { map (λ n. n.now) result ≡ cover_names }
{
    [
        "row",
        "legs",
        "flight",
        "designator",
        "leg",
        "day",
        "board",
        "off",
    ]
}

/// Adds the limit rows, and then the legs.
#[tactic(auto, using(seat_tables::proofs::Putting::put_both))]
fn put_both(
    alloc: Global,
    sheet: &mut Sheet,
    flights: &Flights,
    rows: &[LimitRow],
    coverage: &Coverage,
    marks: &[bool],
) -> Result<(), AllocError>
    requires ready { IsReady sheet.old }
    requires right { IsCoverage coverage.now flights.now rows.now }
    requires searchable { IsSearchable coverage.now }
    requires marks { AreWinners rows.now flights.now marks.now }
    ensures { OnOk result (ArePut cover_names (cover_rows rows.now flights.now) sheet.old sheet.new) }
{
    put_idle_rows(alloc, sheet, flights, rows, coverage, marks)?;
    put_flights(alloc, sheet, flights, rows, coverage)?;
    Ok(())
}

/// Adds each limit row that gives no leg its ladder.
fn put_idle_rows(
    alloc: Global,
    sheet: &mut Sheet,
    flights: &Flights,
    rows: &[LimitRow],
    coverage: &Coverage,
    marks: &[bool],
) -> Result<(), AllocError>
    requires ready { IsReady sheet.old }
    requires right { IsCoverage coverage.now flights.now rows.now }
    requires searchable { IsSearchable coverage.now }
    requires marks { AreWinners rows.now flights.now marks.now }
    ensures { OnOk result (ArePut cover_names (rows_from (rows_of_row rows.now flights.now) 1 rows.now) sheet.old sheet.new) }
{
    for i in 0..rows.len() {
        put_idle(alloc, sheet, flights, rows, coverage, marks, i, &rows[i])?;
    }
    Ok(())
}

/// Adds a limit row, counted from 0, if it gives no leg its ladder.
#[tactic(auto, using(crate::proofs::Placing::row_put, crate::proofs::Placing::rows_left, crate::proofs::Placing::rows_kept))]
fn put_idle(
    alloc: Global,
    sheet: &mut Sheet,
    flights: &Flights,
    rows: &[LimitRow],
    coverage: &Coverage,
    marks: &[bool],
    i: usize,
    row: &LimitRow,
) -> Result<(), AllocError>
    requires ready { IsReady sheet.old }
    requires right { IsCoverage coverage.now flights.now rows.now }
    requires searchable { IsSearchable coverage.now }
    requires marks { AreWinners rows.now flights.now marks.now }
    requires inside { i < length rows.now }
    requires here { slice_get rows.now i ≡ Some row.now }
    ensures { OnOk result (ArePut cover_names (rows_of_row rows.now flights.now (1 + i) row.now) sheet.old sheet.new) }
{
    if has_effect(flights, rows, marks, i, row) {
        return Ok(());
    }
    let cells = idle_cells(flights, rows, coverage, i, row);
    put_row(alloc, sheet, &names(), &cells)?;
    Ok(())
}

/// Whether a limit row gives some leg its ladder.
#[tactic(auto, using(crate::proofs::Placing::inside))]
fn has_effect(
    _flights: &Flights,
    _rows: &[LimitRow],
    marks: &[bool],
    i: usize,
    _row: &LimitRow,
) -> bool
    requires marks { AreWinners _rows.now _flights.now marks.now }
    requires here { slice_get _rows.now i ≡ Some _row.now }
    ensures { result ≡ effect_among _rows.now _flights.now (1 + i) _row.now }
{
    is_marked(marks, i)
}

/// Whether the row with this number, counted from 0, is marked.
fn is_marked(marks: &[bool], i: usize) -> bool
    requires { i < length marks.now }
    ensures { result ≡ slice_index_or marks.now i false }
{
    marks[i]
}

/// The row of a limit row, counted from 0, with how many legs it is for.
fn idle_cells(
    flights: &Flights,
    rows: &[LimitRow],
    coverage: &Coverage,
    i: usize,
    row: &LimitRow,
) -> [Cell; 8]
    requires right { IsCoverage coverage.now flights.now rows.now }
    requires searchable { IsSearchable coverage.now }
    requires inside { i < length rows.now }
    requires here { slice_get rows.now i ≡ Some row.now }
    ensures { result ≡ idle_row (1 + i) (legs_for flights.now row.now) }
{
    let legs = legs_of(flights, rows, coverage, i, row);
    idle_row(1 + i as u64, legs)
}

/// How many legs a limit row is for.
fn legs_of(
    _flights: &Flights,
    _rows: &[LimitRow],
    coverage: &Coverage,
    _i: usize,
    row: &LimitRow,
) -> u64
    requires right { IsCoverage coverage.now _flights.now _rows.now }
    requires searchable { IsSearchable coverage.now }
    requires here { slice_get _rows.now _i ≡ Some row.now }
    ensures { result ≡ legs_for _flights.now row.now }
{
    coverage.legs_of(row) as u64
}

fn idle_row(number: u64, legs: u64) -> [Cell; 8]
    ensures { result ≡ idle_row number legs }
{
    [
        Cell::Number(number),
        Cell::Number(legs),
        Cell::Nothing,
        Cell::Nothing,
        Cell::Nothing,
        Cell::Nothing,
        Cell::Nothing,
        Cell::Nothing,
    ]
}

/// Adds the legs without a row of all flights.
fn put_flights(
    alloc: Global,
    sheet: &mut Sheet,
    flights: &Flights,
    rows: &[LimitRow],
    coverage: &Coverage,
) -> Result<(), AllocError>
    requires ready { IsReady sheet.old }
    requires right { IsCoverage coverage.now flights.now rows.now }
    requires searchable { IsSearchable coverage.now }
    ensures { OnOk result (ArePut cover_names (rows_from (rows_of_flight rows.now) 0 flights.now) sheet.old sheet.new) }
{
    for index in 0..flights.len() {
        put_legs(
            alloc,
            sheet,
            flights,
            rows,
            coverage,
            index,
            &flights.flight(index),
        )?;
    }
    Ok(())
}

/// Adds those of a flight.
fn put_legs(
    alloc: Global,
    sheet: &mut Sheet,
    flights: &Flights,
    rows: &[LimitRow],
    coverage: &Coverage,
    index: u32,
    flight: &Flight,
) -> Result<(), AllocError>
    requires ready { IsReady sheet.old }
    requires right { IsCoverage coverage.now flights.now rows.now }
    requires searchable { IsSearchable coverage.now }
    ensures { OnOk result (ArePut cover_names (rows_of_flight rows.now index flight.now) sheet.old sheet.new) }
{
    let legs = flight.legs.as_slice();
    for j in 0..legs.len() {
        put_leg(
            alloc, sheet, flights, rows, coverage, index, flight, j as u64, &legs[j],
        )?;
    }
    Ok(())
}

/// Adds the row of a leg, if no limit row is for it.
#[tactic(auto, using(crate::proofs::Placing::row_put, crate::proofs::Placing::rows_left, crate::proofs::Placing::rows_kept))]
fn put_leg(
    alloc: Global,
    sheet: &mut Sheet,
    flights: &Flights,
    rows: &[LimitRow],
    coverage: &Coverage,
    index: u32,
    flight: &Flight,
    j: u64,
    leg: &DatedLeg,
) -> Result<(), AllocError>
    requires ready { IsReady sheet.old }
    requires right { IsCoverage coverage.now flights.now rows.now }
    requires searchable { IsSearchable coverage.now }
    ensures { OnOk result (ArePut cover_names (rows_of_leg rows.now index flight.now j leg.now) sheet.old sheet.new) }
{
    if has_row(flights, rows, coverage, flight, leg) {
        return Ok(());
    }
    let cells = bare_row(index, flight, j, leg);
    put_row(alloc, sheet, &names(), &cells)?;
    Ok(())
}

/// Whether some limit row is for a leg.
fn has_row(
    _flights: &Flights,
    _rows: &[LimitRow],
    coverage: &Coverage,
    flight: &Flight,
    leg: &DatedLeg,
) -> bool
    requires right { IsCoverage coverage.now _flights.now _rows.now }
    requires searchable { IsSearchable coverage.now }
    ensures { result ≡ has_row _rows.now flight.now leg.now }
{
    coverage.has_row(flight, leg)
}

/// The row of a leg.
fn bare_row(index: u32, flight: &Flight, j: u64, leg: &DatedLeg) -> [Cell; 8]
    ensures { result ≡ bare_row index flight.now j leg.now }
{
    [
        Cell::Nothing,
        Cell::Nothing,
        Cell::Number(u64::from(index)),
        Cell::Flight(flight.airline, flight.number, flight.suffix),
        Cell::Number(j),
        Cell::Date(leg.day),
        Cell::Stop(leg.board),
        Cell::Stop(leg.off),
    ]
}
