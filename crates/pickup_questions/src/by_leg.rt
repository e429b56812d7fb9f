//! The table of pickup by leg: what became of the seats on each leg of the flights that are kept.
//! It knows no other table.
ghost use Rattle.std.specs.Prelude.{◌≡◌, ◌≤◌, ◌<◌, ◌∷◌, [], IfOk, OnOk, drop, length, map};
ghost use Rattle.seat_desk.specs.AuditDesk.{most_lines};
ghost use Rattle.seat_pickup.specs.Moves.{is_at};
ghost use Rattle.seat_pickup.specs.Pickups.{AreMoves, moved_behind};
ghost use Rattle.seat_pickup.specs.declared.split.Split.TheVariants.{Legs};
ghost use Rattle.seat_tables.specs.Rows.{IsTable, rows_from};
ghost use Rattle.seat_tables.specs.Sheets.{ArePut, IsReady};
ghost use Rattle.pickup_questions.specs.LegRows.{leg_cells, leg_names, leg_rows, rows_of_leg, rows_of_legs};

use airline_base::Memory;
use seat_core::Core;
use seat_lists::{Designator, keeps_flight};
use seat_pickup::{MoveSums, Moves, Split, has_any, moved_at, moves_behind};
use seat_tables::{Cell, Form, Sheet, put_row};
use ssim_flights::{DatedLeg, Flight, Flights};
use std::alloc::Global;

/// What the lines behind the first ones made of the seats on each leg of the flights that are asked for.
#[tactic(auto, using(seat_tables::proofs::Putting::table_of))]
pub fn leg_table(
    alloc: Global,
    form: Form,
    flights: &Flights,
    core: &Core,
    lines: usize,
    asked: &Option<Designator>,
) -> Result<Vec<u8>, Memory>
    requires capped { core.now.cap ≤ most_lines }
    requires within { lines ≤ length core.now.journal }
    ensures { IfOk result (λ text. IsTable form leg_names
        (leg_rows asked.now (moved_behind core.now.grid core.now.journal lines (is_at Legs)) flights.now) text.items) }
{
    let mut sheet = Sheet::new(alloc, form, &names())?;
    put_moved(alloc, &mut sheet, flights, core, lines, asked)?;
    Ok(sheet.into_text()?)
}

/// The names of the columns.
fn names() -> [&'static str; 10]
    ensures { map (λ n. n.now) result ≡ leg_names }
{
    [
        "flight",
        "designator",
        "day",
        "board",
        "off",
        "before",
        "sold",
        "cancelled",
        "confirmed",
        "held",
    ]
}

/// Adds the rows of what moved by leg.
fn put_moved(
    alloc: Global,
    sheet: &mut Sheet,
    flights: &Flights,
    core: &Core,
    lines: usize,
    asked: &Option<Designator>,
) -> Result<(), Memory>
    requires ready { IsReady sheet.old }
    requires capped { core.now.cap ≤ most_lines }
    requires within { lines ≤ length core.now.journal }
    ensures { OnOk result (ArePut leg_names
        (leg_rows asked.now (moved_behind core.now.grid core.now.journal lines (is_at Legs)) flights.now) sheet.old sheet.new) }
{
    let moves = moves_behind(alloc, Split::Legs, flights.len(), core, lines)?;
    put_flights(alloc, sheet, flights, core, &moves, lines, asked)
}

/// Adds the rows of all flights that are kept.
fn put_flights(
    alloc: Global,
    sheet: &mut Sheet,
    flights: &Flights,
    core: &Core,
    moves: &Moves,
    lines: usize,
    asked: &Option<Designator>,
) -> Result<(), Memory>
    requires ready { IsReady sheet.old }
    requires capped { core.now.cap ≤ most_lines }
    requires within { lines ≤ length core.now.journal }
    requires count { moves.now.flights ≡ length flights.now }
    requires moved { AreMoves (drop lines core.now.journal) moves.now }
    ensures { OnOk result (ArePut leg_names
        (leg_rows asked.now (moved_behind core.now.grid core.now.journal lines (is_at moves.now.split)) flights.now)
        sheet.old sheet.new) }
{
    for index in 0..flights.len() {
        put_flight(
            alloc,
            sheet,
            core,
            moves,
            lines,
            asked,
            index,
            &flights.flight(index),
        )?;
    }
    Ok(())
}

/// Adds the rows of a flight, if it is kept.
#[tactic(auto, using(table_questions::proofs::Tables::rows_left, table_questions::proofs::Tables::rows_kept))]
fn put_flight(
    alloc: Global,
    sheet: &mut Sheet,
    core: &Core,
    moves: &Moves,
    lines: usize,
    asked: &Option<Designator>,
    index: u32,
    flight: &Flight,
) -> Result<(), Memory>
    requires ready { IsReady sheet.old }
    requires capped { core.now.cap ≤ most_lines }
    requires within { lines ≤ length core.now.journal }
    requires inside { index < moves.now.flights }
    requires moved { AreMoves (drop lines core.now.journal) moves.now }
    requires few { length flight.now.legs ≤ 8 }
    ensures { OnOk result (ArePut leg_names
        (rows_of_legs asked.now (moved_behind core.now.grid core.now.journal lines (is_at moves.now.split)) index flight.now)
        sheet.old sheet.new) }
{
    if !keeps_flight(*asked, flight) {
        return Ok(());
    }
    put_legs(alloc, sheet, core, moves, lines, index, flight)
}

/// Adds the rows of the legs of a flight.
fn put_legs(
    alloc: Global,
    sheet: &mut Sheet,
    core: &Core,
    moves: &Moves,
    lines: usize,
    index: u32,
    flight: &Flight,
) -> Result<(), Memory>
    requires ready { IsReady sheet.old }
    requires capped { core.now.cap ≤ most_lines }
    requires within { lines ≤ length core.now.journal }
    requires inside { index < moves.now.flights }
    requires moved { AreMoves (drop lines core.now.journal) moves.now }
    requires few { length flight.now.legs ≤ 8 }
    ensures { OnOk result (ArePut leg_names
        (rows_from (rows_of_leg (moved_behind core.now.grid core.now.journal lines (is_at moves.now.split)) index flight.now) 0 flight.now.legs)
        sheet.old sheet.new) }
{
    let legs = flight.legs.as_slice();
    for j in 0..legs.len() {
        put_leg(
            alloc, sheet, core, moves, lines, index, flight, j as u8, &legs[j],
        )?;
    }
    Ok(())
}

/// Adds the row of a leg, if anything was held on it or came.
#[tactic(auto, using(crate::proofs::Grouping::leg_left, crate::proofs::Grouping::leg_kept))]
fn put_leg(
    alloc: Global,
    sheet: &mut Sheet,
    core: &Core,
    moves: &Moves,
    lines: usize,
    index: u32,
    flight: &Flight,
    leg: u8,
    dated: &DatedLeg,
) -> Result<(), Memory>
    requires ready { IsReady sheet.old }
    requires capped { core.now.cap ≤ most_lines }
    requires within { lines ≤ length core.now.journal }
    requires inside { index < moves.now.flights }
    requires moved { AreMoves (drop lines core.now.journal) moves.now }
    requires few { leg < 8 }
    ensures { OnOk result (ArePut leg_names
        (rows_of_leg (moved_behind core.now.grid core.now.journal lines (is_at moves.now.split)) index flight.now leg dated.now)
        sheet.old sheet.new) }
{
    let sums = moved_at(core, moves, lines, index, b'A' + leg)?;
    if !has_any(&sums) {
        return Ok(());
    }
    put_cells(alloc, sheet, index, flight, dated, &sums)?;
    Ok(())
}

/// Adds the row of a leg of these sums.
#[tactic(auto, using(table_questions::proofs::Tables::row_put))]
fn put_cells(
    alloc: Global,
    sheet: &mut Sheet,
    index: u32,
    flight: &Flight,
    dated: &DatedLeg,
    sums: &MoveSums,
) -> Result<(), Memory>
    requires ready { IsReady sheet.old }
    ensures { OnOk result (ArePut leg_names (leg_cells index flight.now dated.now sums.now ∷ []) sheet.old sheet.new) }
{
    let row = leg_cells(index, flight, dated, sums);
    put_row(alloc, sheet, &names(), &row)?;
    Ok(())
}

/// The row of a leg of these sums.
fn leg_cells(index: u32, flight: &Flight, dated: &DatedLeg, sums: &MoveSums) -> [Cell; 10]
    ensures { result ≡ leg_cells index flight.now dated.now sums.now }
{
    [
        Cell::Number(u64::from(index)),
        Cell::Flight(flight.airline, flight.number, flight.suffix),
        Cell::Date(dated.day),
        Cell::Stop(dated.board),
        Cell::Stop(dated.off),
        Cell::Number(sums.before),
        Cell::Number(sums.sold),
        Cell::Number(sums.cancelled),
        Cell::Number(sums.confirmed),
        Cell::Number(sums.held),
    ]
}
