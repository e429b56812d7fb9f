//! The rows of live bookings: what each was, what it is, and the code for what became of it.
//! It knows no sums.
ghost use Rattle.std.specs.Prelude.{◌≡◌, OnOk, map};
ghost use Rattle.seat_tables.specs.Rows.{rows_from};
ghost use Rattle.seat_tables.specs.Sheets.{ArePut, IsReady};
ghost use Rattle.seat_lists.specs.Named.{status_code};
ghost use Rattle.seat_moving.specs.Moving.{name_of};
ghost use Rattle.seat_tables.specs.declared.cell.Cell.TheVariants.{Word};
ghost use Rattle.carry_tables.specs.FateRows.{all_names, carry_names, code_cell, fate_rows, new_side, outcome_cell, row_of, shown, whole_row};
ghost use Rattle.carry_tables.specs.Sides.{side_of};

use crate::sides::{Side, no_side, side_of};
use airline_base::{Code, Locator};
use carry_reports::{Fate, Fated, Outcome, code_of, own_number};
use seat_lists::status_code;
use seat_moving::name_of;
use seat_rules::Booking;
use seat_tables::{Cell, Sheet, put_row};
use ssim_flights::Flights;
use std::alloc::{AllocError, Global};

/// The names of the columns.
pub(crate) fn names() -> [&'static str; 19]
    ensures { map (λ n. n.now) result ≡ all_names }
{
    [
        "journal",
        "number",
        "locator",
        "designator",
        "class",
        "day",
        "board",
        "off",
        "status",
        "seats",
        "new_number",
        "new_designator",
        "new_class",
        "new_day",
        "new_board",
        "new_off",
        "new_status",
        "new_seats",
        "code",
    ]
}

/// Those of a row's columns that a report on bookings of journals with so many lines has.
pub(crate) fn shown<'a, T>(counts: &[u32], all: &'a [T]) -> &'a [T]
    ensures { result.now ≡ shown counts.now all.now }
{
    if !counts.is_empty() {
        return all;
    }
    match all {
        [] => all,
        [_, rest @ ..] => rest,
    }
}

/// Adds a row for each of these live bookings, which were on the flights of the old season, in journals with so many lines.
pub(crate) fn put_fates(
    alloc: Global,
    sheet: &mut Sheet,
    counts: &[u32],
    olds: &Flights,
    news: &Flights,
    all: &[Fated],
) -> Result<(), AllocError>
    requires ready { IsReady sheet.old }
    ensures { OnOk result (ArePut (carry_names counts.now) (rows_from (fate_rows counts.now olds.now news.now) 0 all.now) sheet.old sheet.new) }
{
    for i in 0..all.len() {
        put_fate(alloc, sheet, counts, olds, news, &all[i])?;
    }
    Ok(())
}

/// Adds the row of a live booking.
fn put_fate(
    alloc: Global,
    sheet: &mut Sheet,
    counts: &[u32],
    olds: &Flights,
    news: &Flights,
    fated: &Fated,
) -> Result<(), AllocError>
    requires ready { IsReady sheet.old }
    ensures { OnOk result (ArePut (carry_names counts.now) (fate_rows counts.now olds.now news.now 0 fated.now) sheet.old sheet.new) }
{
    let columns = names();
    let row = whole_row(counts, olds, news, fated);
    put_row(alloc, sheet, shown(counts, &columns), shown(counts, &row))?;
    Ok(())
}

fn whole_row(counts: &[u32], olds: &Flights, news: &Flights, fated: &Fated) -> [Cell; 19]
    ensures { result ≡ whole_row counts.now olds.now news.now fated.now }
{
    let own = own_number(counts, fated.booking.number);
    let old = old_side(own.number, olds, &fated.booking);
    let new = new_side(news, &fated.booking, &fated.fate);
    row_of(
        Cell::Number(own.journal),
        fated.booking.locator,
        &old,
        &new,
        code_cell(code_of(fated)),
    )
}

/// What it was, under this number: HK where it held, HL where it waited.
fn old_side(number: u32, olds: &Flights, booking: &Booking) -> Side
    ensures { result ≡ side_of number (name_of olds.now booking.now.place) booking.now.class (Word (status_code booking.now.status)) booking.now.seats }
{
    side_of(
        number,
        name_of(olds, booking.place),
        booking.class,
        Cell::Word(status_code(booking.status)),
        booking.seats,
    )
}

/// What it is, where it was asked for.
fn new_side(news: &Flights, booking: &Booking, fate: &Fate) -> Side
    ensures { result ≡ new_side news.now booking.now fate.now }
{
    match fate {
        Fate::Asked(asked) => side_of(
            asked.line,
            name_of(news, asked.place),
            asked.class,
            outcome_cell(asked.outcome),
            booking.seats,
        ),
        Fate::Departed | Fate::Unserved | Fate::Unsold => no_side(),
    }
}

/// HK where it holds now, HL where it waits, and nothing where it does neither.
fn outcome_cell(outcome: Outcome) -> Cell
    ensures { result ≡ outcome_cell outcome }
{
    match outcome {
        Outcome::Held => Cell::Word(Code::of(*b"HK")),
        Outcome::Waiting => Cell::Word(Code::of(*b"HL")),
        Outcome::Refused => Cell::Nothing,
    }
}

/// The code, or nothing where there is none.
fn code_cell(code: Option<Code>) -> Cell
    ensures { result ≡ code_cell code }
{
    match code {
        Some(code) => Cell::Word(code),
        None => Cell::Nothing,
    }
}

fn row_of(journal: Cell, locator: Locator, old: &Side, new: &Side, code: Cell) -> [Cell; 19]
    ensures { result ≡ row_of journal locator old.now new.now code }
{
    [
        journal,
        old.number,
        Cell::Name(locator),
        old.designator,
        old.class,
        old.day,
        old.board,
        old.off,
        old.status,
        old.seats,
        new.number,
        new.designator,
        new.class,
        new.day,
        new.board,
        new.off,
        new.status,
        new.seats,
        code,
    ]
}
