//! The table of loads by flight: what the kept legs of each flight come to.
//! It knows no other table.
ghost use Rattle.std.specs.Prelude.{◌≡◌, ◌≤◌, OnOk, length, map, nat_lt};
ghost use Rattle.seat_rules.specs.Inventory.{state_now};
ghost use Rattle.seat_desk.specs.AuditDesk.{most_lines};
ghost use Rattle.seat_tables.specs.Sheets.{ArePut, IsReady};
ghost use Rattle.table_questions.specs.SumRows.{cells_of, flight_names, flight_sums, sums_of_flight};

use crate::table::Table;
use seat_core::Core;
use seat_loads::{LegSums, LoadsOf, Riders, flight_riders, kept_legs, share};
use seat_tables::{Cell, Form, Sheet, put_row};
use ssim_flights::{Flight, Flights};
use std::alloc::{AllocError, Global};

/// What the legs that are asked for come to, flight by flight.
#[derive(Clone, Copy)]
pub struct FlightSums {
    pub loads: LoadsOf,
}

impl Table for FlightSums {
    ghost use Rattle.table_questions.specs.SumRows.{flight_names, flight_sums};

    ghost names = { flight_names };

    ghost rows = { λ asked flights grid journal. flight_sums asked.loads flights grid journal };

    fn begun(&self, alloc: Global, form: Form) -> Result<Sheet, AllocError> {
        Sheet::new(alloc, form, &names())
    }

    fn put_rows(
        &self,
        alloc: Global,
        sheet: &mut Sheet,
        flights: &Flights,
        core: &Core,
    ) -> Result<(), AllocError> {
        for index in 0..flights.len() {
            put_flight(
                alloc,
                sheet,
                core,
                &self.loads,
                index,
                &flights.flight(index),
            )?;
        }
        Ok(())
    }
}

/// The names of the columns.
fn names() -> [&'static str; 8]
    ensures { map (λ n. n.now) result ≡ flight_names }
{
    [
        "flight",
        "designator",
        "legs",
        "limit",
        "held",
        "share",
        "passengers",
        "waiting",
    ]
}

/// Adds the row of a flight, if any leg of it is kept.
#[tactic(auto, using(crate::proofs::Tables::rows_left, crate::proofs::Tables::rows_kept, crate::proofs::Tables::row_put, crate::proofs::Summing::sums_kept))]
fn put_flight(
    alloc: Global,
    sheet: &mut Sheet,
    core: &Core,
    asked: &LoadsOf,
    index: u32,
    flight: &Flight,
) -> Result<(), AllocError>
    requires ready { IsReady sheet.old }
    requires capped { core.now.cap ≤ most_lines }
    requires few { length flight.now.legs ≤ 8 }
    ensures { OnOk result (ArePut flight_names (sums_of_flight asked.now (state_now core.now) index flight.now)
        sheet.old sheet.new) }
{
    let legs = kept_legs(core, asked, index, flight);
    if !is_any(legs.legs) {
        return Ok(());
    }
    let riders = flight_riders(core, asked, index, flight);
    let row = cells_of(index, flight, &legs, &riders);
    put_row(alloc, sheet, &names(), &row)?;
    Ok(())
}

fn is_any(count: u64) -> bool
    ensures { result ≡ nat_lt 0 count }
{
    0 < count
}

/// The row of a flight of these sums.
fn cells_of(index: u32, flight: &Flight, legs: &LegSums, riders: &Riders) -> [Cell; 8]
    requires few { legs.now.seats ≤ 524_280 }
    ensures { result ≡ cells_of index flight.now legs.now riders.now }
{
    [
        Cell::Number(u64::from(index)),
        Cell::Flight(flight.airline, flight.number, flight.suffix),
        Cell::Number(legs.legs),
        Cell::Number(legs.limits),
        Cell::Number(legs.seats),
        Cell::Number(share(legs.seats, legs.limits)),
        Cell::Number(riders.held),
        Cell::Number(riders.waiting),
    ]
}
