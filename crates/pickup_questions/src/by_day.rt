//! The table of pickup by day: what the rows of the flights come to whose first leg departs on each day.
//! It knows no other table.
ghost use Rattle.std.specs.Prelude.{◌≡◌, ◌≤◌, ◌<◌, ◌+◌, ◌-◌, ◌∷◌, [], IfOk, OnOk, length, map};
ghost use Rattle.airline_base.specs.Days.{IsDay};
ghost use Rattle.seat_tables.specs.Rows.{IsTable};
ghost use Rattle.seat_tables.specs.Sheets.{ArePut, IsReady};
ghost use Rattle.table_questions.specs.SumRows.{day_count, days_from, rows_of_each};
ghost use Rattle.pickup_questions.specs.Groups.{AreSums, group_of, start_group, start_groups};
ghost use Rattle.pickup_questions.specs.GroupRows.{day_cells, day_names, day_rows, rows_of_day, rows_on_day};
ghost use Rattle.pickup_questions.specs.declared.groups.Groups.TheVariants.{Given};

use crate::groups::Groups;
use crate::moved::{Moved, moved_by, sums_at};
use airline_base::{Day, Memory};
use seat_pickup::{MoveSums, Pickup, has_any};
use seat_tables::{Cell, Form, Sheet, put_row};
use ssim_flights::{DatedLeg, Flights};
use std::alloc::Global;
use table_questions::{days_from, latest_of};

/// The sums of rows by the day of their flight.
#[tactic(auto, using(seat_tables::proofs::Putting::table_of))]
pub fn day_table(
    alloc: Global,
    form: Form,
    flights: &Flights,
    all: &[Pickup],
) -> Result<Vec<u8>, Memory>
    ensures { IfOk result (λ text. IsTable form day_names (day_rows flights.now all.now) text.items) }
{
    let mut sheet = Sheet::new(alloc, form, &names())?;
    put_summed(alloc, &mut sheet, flights, all)?;
    Ok(sheet.into_text()?)
}

/// Adds the sums of these rows by day.
fn put_summed(
    alloc: Global,
    sheet: &mut Sheet,
    flights: &Flights,
    all: &[Pickup],
) -> Result<(), Memory>
    requires ready { IsReady sheet.old }
    ensures { OnOk result (ArePut day_names (day_rows flights.now all.now) sheet.old sheet.new) }
{
    let first = days_from(flights);
    let count = (latest_of(flights) + 1).saturating_sub(first);
    let starts = start_groups(alloc, first, flights)?;
    let moved = moved_by(alloc, Groups::Given(&starts), count as usize, all)?;
    put_days(alloc, sheet, first, count, &moved)?;
    Ok(())
}

/// The names of the columns.
fn names() -> [&'static str; 6]
    ensures { map (λ n. n.now) result ≡ day_names }
{
    ["day", "before", "sold", "cancelled", "confirmed", "held"]
}

/// The day on which each flight's first leg departs, counted from the first one.
#[tactic(auto, using(crate::proofs::Starting::start_more, crate::proofs::Starting::starts_whole))]
fn start_groups(alloc: Global, first: u32, flights: &Flights) -> Result<Vec<u32>, Memory>
    ensures { IfOk result (λ starts. starts.items ≡ start_groups first flights.now) }
{
    let mut starts = Vec::new(alloc);
    for index in 0..flights.len() {
        let flight = flights.flight(index);
        starts.push(start_group(first, flight.legs.as_slice()))?;
    }
    Ok(starts)
}

#[tactic(auto, using(crate::proofs::Grouping::no_start_group, crate::proofs::Grouping::start_group_is))]
fn start_group(first: u32, legs: &[DatedLeg]) -> u32
    ensures { result ≡ start_group first legs.now }
{
    match legs.get(0) {
        Some(leg) => leg.day.number().saturating_sub(first),
        None => 0,
    }
}

/// Adds the rows of so many days from the first on.
fn put_days(
    alloc: Global,
    sheet: &mut Sheet,
    first: u32,
    count: u32,
    moved: &Moved<'_>,
) -> Result<(), Memory>
    requires ready { IsReady sheet.old }
    requires sums { AreSums moved.now }
    requires count { moved.now.count ≡ count }
    requires days { first + count ≤ 84006 }
    requires bound { IsDay first }
    ensures { OnOk result (ArePut day_names (rows_of_each (rows_of_day (group_of moved.now.groups) first moved.now.all.now) count 0) sheet.old sheet.new) }
{
    for i in 0..count {
        put_day(alloc, sheet, moved, i, Day::numbered(first + i))?;
    }
    Ok(())
}

/// Adds the row of a day, if anything was held on its flights or came.
#[tactic(auto, using(crate::proofs::Grouping::day_left, crate::proofs::Grouping::day_kept))]
fn put_day(
    alloc: Global,
    sheet: &mut Sheet,
    moved: &Moved<'_>,
    i: u32,
    day: Day,
) -> Result<(), Memory>
    requires ready { IsReady sheet.old }
    requires sums { AreSums moved.now }
    requires there { i < moved.now.count }
    ensures { OnOk result (ArePut day_names (rows_on_day (group_of moved.now.groups) moved.now.all.now i day) sheet.old sheet.new) }
{
    let sums = sums_at(moved, i as usize);
    if !has_any(&sums) {
        return Ok(());
    }
    put_cells(alloc, sheet, day, &sums)?;
    Ok(())
}

/// Adds the row of a day of these sums.
#[tactic(auto, using(table_questions::proofs::Tables::row_put))]
fn put_cells(alloc: Global, sheet: &mut Sheet, day: Day, sums: &MoveSums) -> Result<(), Memory>
    requires ready { IsReady sheet.old }
    ensures { OnOk result (ArePut day_names (day_cells day sums.now ∷ []) sheet.old sheet.new) }
{
    let row = day_cells(day, sums);
    put_row(alloc, sheet, &names(), &row)?;
    Ok(())
}

/// The row of a day of these sums.
fn day_cells(day: Day, sums: &MoveSums) -> [Cell; 6]
    ensures { result ≡ day_cells day sums.now }
{
    [
        Cell::Date(day),
        Cell::Number(sums.before),
        Cell::Number(sums.sold),
        Cell::Number(sums.cancelled),
        Cell::Number(sums.confirmed),
        Cell::Number(sums.held),
    ]
}
