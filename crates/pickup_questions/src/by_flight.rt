//! The table of pickup by flight: what the rows of each flight come to.
//! It knows no other table.
ghost use Rattle.std.specs.Prelude.{◌≡◌, ◌≤◌, ◌<◌, ◌∷◌, [], IfOk, OnOk, length, map};
ghost use Rattle.seat_tables.specs.Rows.{IsTable};
ghost use Rattle.seat_tables.specs.Sheets.{ArePut, IsReady};
ghost use Rattle.pickup_questions.specs.Groups.{AreSums};
ghost use Rattle.pickup_questions.specs.GroupRows.{flight_cells, flight_names, flight_rows, rows_of_flight, start_cell};
ghost use Rattle.pickup_questions.specs.declared.groups.Groups.TheVariants as groups;

use crate::groups::Groups;
use crate::moved::{Moved, moved_by, sums_at};
use airline_base::Memory;
use seat_pickup::{MoveSums, Pickup, has_any};
use seat_tables::{Cell, Form, Sheet, put_row};
use ssim_flights::{DatedLeg, Flight, Flights};
use std::alloc::Global;

/// The sums of rows by flight.
#[tactic(auto, using(seat_tables::proofs::Putting::table_of))]
pub fn flight_table(
    alloc: Global,
    form: Form,
    flights: &Flights,
    all: &[Pickup],
) -> Result<Vec<u8>, Memory>
    ensures { IfOk result (λ text. IsTable form flight_names (flight_rows flights.now all.now) text.items) }
{
    let moved = moved_by(alloc, Groups::Flights, flights.len() as usize, all)?;
    let mut sheet = Sheet::new(alloc, form, &names())?;
    put_flights(alloc, &mut sheet, flights, &moved)?;
    Ok(sheet.into_text()?)
}

/// The names of the columns.
fn names() -> [&'static str; 8]
    ensures { map (λ n. n.now) result ≡ flight_names }
{
    [
        "flight",
        "designator",
        "day",
        "before",
        "sold",
        "cancelled",
        "confirmed",
        "held",
    ]
}

/// Adds the rows of the flights.
#[tactic(auto, using(table_questions::proofs::Tables::all_put))]
fn put_flights(
    alloc: Global,
    sheet: &mut Sheet,
    flights: &Flights,
    moved: &Moved<'_>,
) -> Result<(), Memory>
    requires ready { IsReady sheet.old }
    requires sums { AreSums moved.now }
    requires flights { moved.now.groups ≡ groups.Flights }
    requires count { moved.now.count ≡ length flights.now }
    ensures { OnOk result (ArePut flight_names (flight_rows flights.now moved.now.all.now) sheet.old sheet.new) }
{
    for index in 0..flights.len() {
        put_flight(alloc, sheet, moved, index, &flights.flight(index))?;
    }
    Ok(())
}

/// Adds the row of a flight, if anything was held on it or came.
#[tactic(auto, using(crate::proofs::Grouping::flight_left, crate::proofs::Grouping::flight_kept))]
fn put_flight(
    alloc: Global,
    sheet: &mut Sheet,
    moved: &Moved<'_>,
    index: u32,
    flight: &Flight,
) -> Result<(), Memory>
    requires ready { IsReady sheet.old }
    requires sums { AreSums moved.now }
    requires flights { moved.now.groups ≡ groups.Flights }
    requires there { index < moved.now.count }
    ensures { OnOk result (ArePut flight_names (rows_of_flight moved.now.all.now index flight.now) sheet.old sheet.new) }
{
    let sums = sums_at(moved, index as usize);
    if !has_any(&sums) {
        return Ok(());
    }
    put_cells(alloc, sheet, index, flight, &sums)?;
    Ok(())
}

/// Adds the row of a flight of these sums.
#[tactic(auto, using(table_questions::proofs::Tables::row_put))]
fn put_cells(
    alloc: Global,
    sheet: &mut Sheet,
    index: u32,
    flight: &Flight,
    sums: &MoveSums,
) -> Result<(), Memory>
    requires ready { IsReady sheet.old }
    ensures { OnOk result (ArePut flight_names (flight_cells index flight.now sums.now ∷ []) sheet.old sheet.new) }
{
    let row = flight_cells(index, flight, sums);
    put_row(alloc, sheet, &names(), &row)?;
    Ok(())
}

/// The row of a flight of these sums.
fn flight_cells(index: u32, flight: &Flight, sums: &MoveSums) -> [Cell; 8]
    ensures { result ≡ flight_cells index flight.now sums.now }
{
    [
        Cell::Number(u64::from(index)),
        Cell::Flight(flight.airline, flight.number, flight.suffix),
        start_cell(flight.legs.as_slice()),
        Cell::Number(sums.before),
        Cell::Number(sums.sold),
        Cell::Number(sums.cancelled),
        Cell::Number(sums.confirmed),
        Cell::Number(sums.held),
    ]
}

/// The day on which the first leg departs.
#[tactic(auto, using(crate::proofs::Grouping::no_start, crate::proofs::Grouping::start))]
fn start_cell(legs: &[DatedLeg]) -> Cell
    ensures { result ≡ start_cell legs.now }
{
    match legs.get(0) {
        Some(leg) => Cell::Date(leg.day),
        None => Cell::Nothing,
    }
}
