//! The table of loads: a row for each class of each leg that is kept.
//! It knows no other table, and nothing of sums.
ghost use Rattle.std.specs.Prelude.{◌≡◌, ◌≤◌, ◌<◌, OnOk, length, map};
ghost use Rattle.seat_nesting.specs.Nesting.{ladder_at, legs_of};
ghost use Rattle.seat_rules.specs.Inventory.{state_now};
ghost use Rattle.seat_desk.specs.AuditDesk.{most_lines};
ghost use Rattle.seat_questions.specs.Why.{one_leg};
ghost use Rattle.seat_tables.specs.Rows.{rows_from};
ghost use Rattle.seat_tables.specs.Sheets.{ArePut, IsReady};
ghost use Rattle.table_questions.specs.LoadRows.{class_rows, flight_rows, leg_rows, load_names, load_row, load_rows};

use crate::table::Table;
use airline_base::Place;
use seat_core::Core;
use seat_lists::keeps_flight;
use seat_loads::{LoadsOf, is_kept, share};
use seat_nesting::Step;
use seat_questions::waiting;
use seat_tables::{Cell, Form, Sheet, put_row};
use ssim_flights::{DatedLeg, Flight, Flights};
use std::alloc::{AllocError, Global};

/// The loads of the legs that are asked for, class by class. Bars are passed over.
#[derive(Clone, Copy)]
pub struct LoadTable {
    pub loads: LoadsOf,
}

impl Table for LoadTable {
    ghost use Rattle.table_questions.specs.LoadRows.{load_names, load_rows};

    ghost names = { load_names };

    ghost rows = { λ asked flights grid journal. load_rows asked.loads flights grid journal };

    fn begun(&self, alloc: Global, form: Form) -> Result<Sheet, AllocError> {
        Sheet::new(alloc, form, &names())
    }

    #[tactic(auto, using(seat_questions::proofs::RoomTexts::legs_alike))]
    fn put_rows(
        &self,
        alloc: Global,
        sheet: &mut Sheet,
        flights: &Flights,
        core: &Core,
    ) -> Result<(), AllocError> {
        for index in 0..flights.len() {
            put_flight(
                alloc,
                sheet,
                core,
                &self.loads,
                index,
                &flights.flight(index),
            )?;
        }
        Ok(())
    }
}

/// The names of the columns.
fn names() -> [&'static str; 13]
    ensures { map (λ n. n.now) result ≡ load_names }
{
    [
        "flight",
        "designator",
        "day",
        "board",
        "off",
        "rank",
        "class",
        "limit",
        "held",
        "share",
        "room",
        "waiting",
        "may_wait",
    ]
}

/// Adds the rows of a flight, if it is kept.
#[tactic(auto, using(crate::proofs::Tables::rows_left, crate::proofs::Tables::rows_kept))]
fn put_flight(
    alloc: Global,
    sheet: &mut Sheet,
    core: &Core,
    asked: &LoadsOf,
    index: u32,
    flight: &Flight,
) -> Result<(), AllocError>
    requires ready { IsReady sheet.old }
    requires capped { core.now.cap ≤ most_lines }
    requires few { length flight.now.legs ≤ 8 }
    requires legs { length (legs_of core.now.grid index) ≡ length flight.now.legs }
    ensures { OnOk result (ArePut load_names (flight_rows asked.now (state_now core.now) index flight.now)
        sheet.old sheet.new) }
{
    if !keeps_flight(asked.flight, flight) {
        return Ok(());
    }
    put_legs(alloc, sheet, core, asked, index, flight)
}

/// Adds the rows of the legs of a flight that are kept.
fn put_legs(
    alloc: Global,
    sheet: &mut Sheet,
    core: &Core,
    asked: &LoadsOf,
    index: u32,
    flight: &Flight,
) -> Result<(), AllocError>
    requires ready { IsReady sheet.old }
    requires capped { core.now.cap ≤ most_lines }
    requires few { length flight.now.legs ≤ 8 }
    requires legs { length (legs_of core.now.grid index) ≡ length flight.now.legs }
    ensures { OnOk result (ArePut load_names
        (rows_from (leg_rows asked.now (state_now core.now) index flight.now) 0 flight.now.legs) sheet.old sheet.new) }
{
    let legs = flight.legs.as_slice();
    for j in 0..legs.len() {
        put_leg(alloc, sheet, core, asked, index, flight, j as u8, &legs[j])?;
    }
    Ok(())
}

/// Adds the rows of a leg, if it is kept.
#[tactic(auto, using(crate::proofs::Tables::rows_left, crate::proofs::Tables::rows_kept))]
fn put_leg(
    alloc: Global,
    sheet: &mut Sheet,
    core: &Core,
    asked: &LoadsOf,
    index: u32,
    flight: &Flight,
    leg: u8,
    dated: &DatedLeg,
) -> Result<(), AllocError>
    requires ready { IsReady sheet.old }
    requires capped { core.now.cap ≤ most_lines }
    requires there { leg < length (legs_of core.now.grid index) }
    ensures { OnOk result (ArePut load_names (leg_rows asked.now (state_now core.now) index flight.now leg dated.now)
        sheet.old sheet.new) }
{
    if !is_kept(asked, dated) {
        return Ok(());
    }
    put_classes(alloc, sheet, core, index, flight, leg, dated)
}

/// Adds the rows of the classes of a leg.
fn put_classes(
    alloc: Global,
    sheet: &mut Sheet,
    core: &Core,
    index: u32,
    flight: &Flight,
    leg: u8,
    dated: &DatedLeg,
) -> Result<(), AllocError>
    requires ready { IsReady sheet.old }
    requires capped { core.now.cap ≤ most_lines }
    requires there { leg < length (legs_of core.now.grid index) }
    ensures { OnOk result (ArePut load_names
        (rows_from (class_rows (state_now core.now) index flight.now leg dated.now) 0
        (ladder_at (state_now core.now).grid index leg)) sheet.old sheet.new) }
{
    let steps = core.steps(index, leg);
    for k in 0..steps.len() {
        put_class(alloc, sheet, core, index, flight, leg, dated, k, &steps[k])?;
    }
    Ok(())
}

/// Adds the row of the class behind so many higher ones.
#[tactic(auto, using(crate::proofs::Tables::row_put))]
fn put_class(
    alloc: Global,
    sheet: &mut Sheet,
    core: &Core,
    index: u32,
    flight: &Flight,
    leg: u8,
    dated: &DatedLeg,
    k: usize,
    step: &Step,
) -> Result<(), AllocError>
    requires ready { IsReady sheet.old }
    requires capped { core.now.cap ≤ most_lines }
    requires there { leg < length (legs_of core.now.grid index) }
    requires few { k < 26 }
    ensures { OnOk result (ArePut load_names (class_rows (state_now core.now) index flight.now leg dated.now k step.now)
        sheet.old sheet.new) }
{
    let held = core.held_from(index, leg, k);
    let row = load_row(core, index, flight, leg, dated, k as u64 + 1, held, step);
    put_row(alloc, sheet, &names(), &row)?;
    Ok(())
}

/// The row of a class.
#[tactic(auto, using(seat_loads::proofs::LoadTexts::leg_fits))]
fn load_row(
    core: &Core,
    index: u32,
    flight: &Flight,
    leg: u8,
    dated: &DatedLeg,
    rank: u64,
    held: u16,
    step: &Step,
) -> [Cell; 13]
    requires capped { core.now.cap ≤ most_lines }
    requires there { leg < length (legs_of core.now.grid index) }
    ensures { result ≡ load_row (state_now core.now) index flight.now leg dated.now rank held step.now }
{
    let held = u64::from(held);
    let limit = u64::from(step.limit);
    [
        Cell::Number(u64::from(index)),
        Cell::Flight(flight.airline, flight.number, flight.suffix),
        Cell::Date(dated.day),
        Cell::Stop(dated.board),
        Cell::Stop(dated.off),
        Cell::Number(rank),
        Cell::Letter(step.class),
        Cell::Number(limit),
        Cell::Number(held),
        Cell::Number(share(held, limit)),
        Cell::Number(u64::from(core.room(one_leg(index, leg), step.class))),
        Cell::Number(waiting(core, index, leg, step.class)),
        Cell::Number(u64::from(step.wait)),
    ]
}

/// The place that is one leg.
fn one_leg(flight: u32, leg: u8) -> Place
    ensures { result ≡ one_leg flight leg }
{
    Place {
        flight,
        from: leg,
        to: leg,
    }
}
