//! The table of pickup by pair: what became of the seats between each two stations on the flights that are kept.
//! It knows no other table.
ghost use Rattle.std.specs.Prelude.{◌≡◌, ◌≤◌, ◌<◌, ◌∷◌, [], IfOk, OnOk, length, map};
ghost use Rattle.seat_pickup.specs.Pairs.{ArePairMoves, pairs_at};
ghost use Rattle.seat_pickup.specs.Pickups.{moved_behind};
ghost use Rattle.seat_tables.specs.Rows.{IsTable, rows_from};
ghost use Rattle.seat_tables.specs.Sheets.{ArePut, IsReady};
ghost use Rattle.pickup_questions.specs.PairRows.{pair_cells, pair_names, pair_rows, rows_of_pair};

use crate::pairs::pairs_of;
use airline_base::Memory;
use seat_core::Core;
use seat_lists::Designator;
use seat_pickup::{MoveSums, PairMoves, Pairing, has_any, pair_moves, paired_at};
use seat_questions::CityPair;
use seat_tables::{Cell, Form, Sheet, put_row};
use ssim_flights::Flights;
use std::alloc::Global;

/// What the lines behind the first ones made of the seats between each two stations, on the flights that are asked for.
#[tactic(auto, using(seat_tables::proofs::Putting::table_of))]
pub fn pair_table(
    alloc: Global,
    form: Form,
    flights: &Flights,
    core: &Core,
    lines: usize,
    asked: &Option<Designator>,
) -> Result<Vec<u8>, Memory>
    requires within { lines ≤ length core.now.journal }
    ensures { IfOk result (λ text. IsTable form pair_names
        (pair_rows asked.now flights.now (moved_behind core.now.grid core.now.journal lines)) text.items) }
{
    let mut sheet = Sheet::new(alloc, form, &names())?;
    put_moved(alloc, &mut sheet, flights, core, lines, asked)?;
    Ok(sheet.into_text()?)
}

/// The names of the columns.
fn names() -> [&'static str; 7]
    ensures { map (λ n. n.now) result ≡ pair_names }
{
    [
        "board",
        "off",
        "before",
        "sold",
        "cancelled",
        "confirmed",
        "held",
    ]
}

/// Adds the rows of what moved by pair.
fn put_moved(
    alloc: Global,
    sheet: &mut Sheet,
    flights: &Flights,
    core: &Core,
    lines: usize,
    asked: &Option<Designator>,
) -> Result<(), Memory>
    requires ready { IsReady sheet.old }
    requires within { lines ≤ length core.now.journal }
    ensures { OnOk result (ArePut pair_names
        (pair_rows asked.now flights.now (moved_behind core.now.grid core.now.journal lines)) sheet.old sheet.new) }
{
    let pairs = pairs_of(alloc, flights)?;
    let pairing = Pairing {
        flights,
        asked: *asked,
        pairs: &pairs,
    };
    let moves = pair_moves(alloc, &pairing, core, lines)?;
    put_pairs(alloc, sheet, core, &moves, lines, &pairs)
}

/// Adds the rows of these pairs.
fn put_pairs(
    alloc: Global,
    sheet: &mut Sheet,
    core: &Core,
    moves: &PairMoves<'_>,
    lines: usize,
    pairs: &[CityPair],
) -> Result<(), Memory>
    requires ready { IsReady sheet.old }
    requires within { lines ≤ length core.now.journal }
    requires count { moves.now.count ≡ length pairs.now }
    requires moved { ArePairMoves core.now.journal lines moves.now }
    ensures { OnOk result (ArePut pair_names
        (rows_from (rows_of_pair (moved_behind core.now.grid core.now.journal lines (pairs_at moves.now.pairing))) 0 pairs.now)
        sheet.old sheet.new) }
{
    for number in 0..moves.count {
        let place = number as usize;
        put_pair(alloc, sheet, core, moves, lines, number, &pairs[place])?;
    }
    Ok(())
}

/// Adds the row of a pair, if anything was held between its stations or came.
#[tactic(auto, using(crate::proofs::Pairing::pair_left, crate::proofs::Pairing::pair_kept))]
fn put_pair(
    alloc: Global,
    sheet: &mut Sheet,
    core: &Core,
    moves: &PairMoves<'_>,
    lines: usize,
    number: u32,
    pair: &CityPair,
) -> Result<(), Memory>
    requires ready { IsReady sheet.old }
    requires within { lines ≤ length core.now.journal }
    requires inside { number < moves.now.count }
    requires moved { ArePairMoves core.now.journal lines moves.now }
    ensures { OnOk result (ArePut pair_names
        (rows_of_pair (moved_behind core.now.grid core.now.journal lines (pairs_at moves.now.pairing)) number pair.now)
        sheet.old sheet.new) }
{
    let sums = paired_at(core, moves, lines, number)?;
    if !has_any(&sums) {
        return Ok(());
    }
    put_cells(alloc, sheet, pair, &sums)?;
    Ok(())
}

/// Adds the row of a pair of these sums.
#[tactic(auto, using(table_questions::proofs::Tables::row_put))]
fn put_cells(
    alloc: Global,
    sheet: &mut Sheet,
    pair: &CityPair,
    sums: &MoveSums,
) -> Result<(), Memory>
    requires ready { IsReady sheet.old }
    ensures { OnOk result (ArePut pair_names (pair_cells pair.now sums.now ∷ []) sheet.old sheet.new) }
{
    let row = pair_cells(pair, sums);
    put_row(alloc, sheet, &names(), &row)?;
    Ok(())
}

/// The row of a pair of these sums.
fn pair_cells(pair: &CityPair, sums: &MoveSums) -> [Cell; 7]
    ensures { result ≡ pair_cells pair.now sums.now }
{
    [
        Cell::Stop(pair.board),
        Cell::Stop(pair.off),
        Cell::Number(sums.before),
        Cell::Number(sums.sold),
        Cell::Number(sums.cancelled),
        Cell::Number(sums.confirmed),
        Cell::Number(sums.held),
    ]
}
