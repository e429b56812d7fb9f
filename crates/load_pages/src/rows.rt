//! The rows of a table: a row for each flight and pair of stations, and in it a cell for each leg under its day.
//! It knows no class.
ghost use Rattle.std.specs.Prelude.{◌≡◌, ◌++◌, OnOk, None};
ghost use Rattle.load_pages.specs.Rows.{behind_text, cell_text, designator_text, gap_text, load_text, name_text, next_text, opening_text, rows_text};

use crate::load::{LegLoad, goes_on, tenths};
use crate::marks::{Mark, put_mark};
use crate::pieces::{put, put_number, put_suffix};
use airline_base::Day;
use std::alloc::AllocError;

/// Adds the rows of legs in their order, under days from the first on.
#[tactic(auto, using(crate::proofs::Rowing::cell_more, crate::proofs::Rowing::rows_whole))]
pub fn put_rows(text: &mut Vec<u8>, first: Day, loads: &[LegLoad]) -> Result<(), AllocError>
    ensures { OnOk result (text.new.items ≡ text.old.items ++ rows_text first None loads.now) }
{
    let mut last: Option<LegLoad> = None;
    for i in 0..loads.len() {
        let load = &loads[i];
        put_cell(text, first, last, load)?;
        last = Some(*load);
    }
    Ok(())
}

/// Adds the cell of a leg, behind the one ahead of it.
fn put_cell(
    text: &mut Vec<u8>,
    first: Day,
    last: Option<LegLoad>,
    load: &LegLoad,
) -> Result<(), AllocError>
    ensures { OnOk result (text.new.items ≡ text.old.items ++ cell_text first last load.now) }
{
    match last {
        Some(last) => put_behind(text, first, &last, load),
        None => put_first(text, first, load),
    }
}

/// Adds it to the row of the one ahead of it, or to a row of its own.
#[tactic(auto, using(crate::proofs::Rowing::same_row, crate::proofs::Rowing::own_row))]
fn put_behind(
    text: &mut Vec<u8>,
    first: Day,
    last: &LegLoad,
    load: &LegLoad,
) -> Result<(), AllocError>
    ensures { OnOk result (text.new.items ≡ text.old.items ++ behind_text first last.now load.now) }
{
    if goes_on(last, load) {
        return put_next(text, last, load);
    }
    put_first(text, first, load)
}

/// Adds it to the row of the one ahead of it.
fn put_next(text: &mut Vec<u8>, last: &LegLoad, load: &LegLoad) -> Result<(), AllocError>
    ensures { OnOk result (text.new.items ≡ text.old.items ++ next_text last.now load.now) }
{
    put_gap(
        text,
        load.day.number().saturating_sub(last.day.number() + 1),
    )?;
    put_load(text, load)?;
    Ok(())
}

/// Adds it as the first of a row.
fn put_first(text: &mut Vec<u8>, first: Day, load: &LegLoad) -> Result<(), AllocError>
    ensures { OnOk result (text.new.items ≡ text.old.items ++ opening_text first load.now) }
{
    put_mark(text, Mark::Row)?;
    put_name(text, load)?;
    put_gap(text, load.day.number().saturating_sub(first.number()))?;
    put_load(text, load)?;
    Ok(())
}

/// Adds the airline, the number without leading zeros, and the suffix.
fn put_designator(text: &mut Vec<u8>, load: &LegLoad) -> Result<(), AllocError>
    ensures { OnOk result (text.new.items ≡ text.old.items ++ designator_text load.now) }
{
    put(text, &load.airline.characters())?;
    put_number(text, u32::from(load.number))?;
    put_suffix(text, load.suffix)
}

/// Adds DESIGNATOR BOARD OFF.
#[tactic(auto, using(crate::proofs::Rowing::name_put))]
fn put_name(text: &mut Vec<u8>, load: &LegLoad) -> Result<(), AllocError>
    ensures { OnOk result (text.new.items ≡ text.old.items ++ name_text load.now) }
{
    put_designator(text, load)?;
    put(text, b" ")?;
    put(text, &load.board.letters())?;
    put(text, b" ")?;
    put(text, &load.off.letters())
}

/// Adds an empty cell for days without such a leg.
#[tactic(auto, using(crate::proofs::Rowing::no_gap, crate::proofs::Rowing::gap_put))]
fn put_gap(text: &mut Vec<u8>, days: u32) -> Result<(), AllocError>
    ensures { OnOk result (text.new.items ≡ text.old.items ++ gap_text days) }
{
    if days == 0 {
        return Ok(());
    }
    put_mark(text, Mark::Gap)?;
    put_number(text, days)?;
    put_mark(text, Mark::Close)
}

/// Adds the cell itself: its colour, and HELD of LIMIT.
fn put_load(text: &mut Vec<u8>, load: &LegLoad) -> Result<(), AllocError>
    ensures { OnOk result (text.new.items ≡ text.old.items ++ load_text load.now) }
{
    put(text, b"<td class=s")?;
    put_number(text, tenths(load.held, load.limit))?;
    put(text, b">")?;
    put_number(text, u32::from(load.held))?;
    put(text, b" of ")?;
    put_number(text, u32::from(load.limit))
}
