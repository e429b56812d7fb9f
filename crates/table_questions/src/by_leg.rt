//! The table of loads by leg: how full each leg is that is kept, in one row.
//! It knows no other table.
ghost use Rattle.std.specs.Prelude.{◌≡◌, ◌≤◌, ◌∷◌, [], OnOk, length, map};
ghost use Rattle.std.specs.List.{sum_by};
ghost use Rattle.seat_rules.specs.Inventory.{state_now};
ghost use Rattle.seat_desk.specs.AuditDesk.{most_lines};
ghost use Rattle.seat_tables.specs.Rows.{rows_from};
ghost use Rattle.seat_tables.specs.Sheets.{ArePut, IsReady};
ghost use Rattle.table_questions.specs.SumRows.{leg_names, leg_row, leg_sums, legs_of_flight, sums_of_leg, waiting_on, waits_for};

use crate::table::Table;
use seat_core::Core;
use seat_lists::keeps_flight;
use seat_loads::{LoadsOf, held_on, is_kept, share, top_limit};
use seat_questions::has_leg;
use seat_rules::Booking;
use seat_tables::{Cell, Form, Sheet, put_row};
use ssim_flights::{DatedLeg, Flight, Flights};
use std::alloc::{AllocError, Global};

/// How full the legs are that are asked for, leg by leg.
#[derive(Clone, Copy)]
pub struct LegSums {
    pub loads: LoadsOf,
}

impl Table for LegSums {
    ghost use Rattle.table_questions.specs.SumRows.{leg_names, leg_sums};

    ghost names = { leg_names };

    ghost rows = { λ asked flights grid journal. leg_sums asked.loads flights grid journal };

    fn begun(&self, alloc: Global, form: Form) -> Result<Sheet, AllocError> {
        Sheet::new(alloc, form, &names())
    }

    fn put_rows(
        &self,
        alloc: Global,
        sheet: &mut Sheet,
        flights: &Flights,
        core: &Core,
    ) -> Result<(), AllocError> {
        for index in 0..flights.len() {
            put_flight(
                alloc,
                sheet,
                core,
                &self.loads,
                index,
                &flights.flight(index),
            )?;
        }
        Ok(())
    }
}

/// The names of the columns.
fn names() -> [&'static str; 9]
    ensures { map (λ n. n.now) result ≡ leg_names }
{
    [
        "flight",
        "designator",
        "day",
        "board",
        "off",
        "limit",
        "held",
        "share",
        "waiting",
    ]
}

/// Adds the rows of a flight, if it is kept.
#[tactic(auto, using(crate::proofs::Tables::rows_left, crate::proofs::Tables::rows_kept))]
fn put_flight(
    alloc: Global,
    sheet: &mut Sheet,
    core: &Core,
    asked: &LoadsOf,
    index: u32,
    flight: &Flight,
) -> Result<(), AllocError>
    requires ready { IsReady sheet.old }
    requires capped { core.now.cap ≤ most_lines }
    requires few { length flight.now.legs ≤ 8 }
    ensures { OnOk result (ArePut leg_names (legs_of_flight asked.now (state_now core.now) index flight.now)
        sheet.old sheet.new) }
{
    if !keeps_flight(asked.flight, flight) {
        return Ok(());
    }
    put_legs(alloc, sheet, core, asked, index, flight)
}

/// Adds the rows of the legs of a flight that are kept.
fn put_legs(
    alloc: Global,
    sheet: &mut Sheet,
    core: &Core,
    asked: &LoadsOf,
    index: u32,
    flight: &Flight,
) -> Result<(), AllocError>
    requires ready { IsReady sheet.old }
    requires capped { core.now.cap ≤ most_lines }
    requires few { length flight.now.legs ≤ 8 }
    ensures { OnOk result (ArePut leg_names
        (rows_from (sums_of_leg asked.now (state_now core.now) index flight.now) 0 flight.now.legs) sheet.old sheet.new) }
{
    let legs = flight.legs.as_slice();
    for j in 0..legs.len() {
        put_leg(alloc, sheet, core, asked, index, flight, j as u8, &legs[j])?;
    }
    Ok(())
}

/// Adds the row of a leg, if it is kept.
#[tactic(auto, using(crate::proofs::Tables::rows_left, crate::proofs::Tables::rows_kept))]
fn put_leg(
    alloc: Global,
    sheet: &mut Sheet,
    core: &Core,
    asked: &LoadsOf,
    index: u32,
    flight: &Flight,
    leg: u8,
    dated: &DatedLeg,
) -> Result<(), AllocError>
    requires ready { IsReady sheet.old }
    requires capped { core.now.cap ≤ most_lines }
    ensures { OnOk result (ArePut leg_names (sums_of_leg asked.now (state_now core.now) index flight.now leg dated.now)
        sheet.old sheet.new) }
{
    if !is_kept(asked, dated) {
        return Ok(());
    }
    put_own(alloc, sheet, core, index, flight, leg, dated)
}

/// Adds the row of a leg.
#[tactic(auto, using(crate::proofs::Tables::row_put))]
fn put_own(
    alloc: Global,
    sheet: &mut Sheet,
    core: &Core,
    index: u32,
    flight: &Flight,
    leg: u8,
    dated: &DatedLeg,
) -> Result<(), AllocError>
    requires ready { IsReady sheet.old }
    requires capped { core.now.cap ≤ most_lines }
    ensures { OnOk result (ArePut leg_names (leg_row (state_now core.now) index flight.now leg dated.now ∷ [])
        sheet.old sheet.new) }
{
    let row = leg_row(core, index, flight, leg, dated);
    put_row(alloc, sheet, &names(), &row)?;
    Ok(())
}

/// The row of a leg.
fn leg_row(core: &Core, index: u32, flight: &Flight, leg: u8, dated: &DatedLeg) -> [Cell; 9]
    requires capped { core.now.cap ≤ most_lines }
    ensures { result ≡ leg_row (state_now core.now) index flight.now leg dated.now }
{
    let limit = u64::from(top_limit(core.steps(index, leg)));
    let held = held_on(core, index, leg);
    [
        Cell::Number(u64::from(index)),
        Cell::Flight(flight.airline, flight.number, flight.suffix),
        Cell::Date(dated.day),
        Cell::Stop(dated.board),
        Cell::Stop(dated.off),
        Cell::Number(limit),
        Cell::Number(held),
        Cell::Number(share(held, limit)),
        Cell::Number(waiting_on(core, index, leg)),
    ]
}

/// The seats that wait for a leg.
#[tactic(auto, using(seat_questions::proofs::Standings::few_bookings))]
fn waiting_on(core: &Core, index: u32, leg: u8) -> u64
    requires capped { core.now.cap ≤ most_lines }
    ensures { result ≡ waiting_on (state_now core.now) index leg }
{
    // For the prover alone: a journal of so few lines leaves no more bookings, so that their sum fits.
    let _ = core.journal();
    waiting_among(core.bookings_on(index), leg)
}

fn waiting_among(bookings: &[Booking], leg: u8) -> u64
    requires few { length bookings.now ≤ 999999 }
    ensures { result ≡ sum_by (waits_for leg) bookings.now }
{
    let mut seats = 0u64;
    for booking in bookings {
        seats += u64::from(waits_for(booking, leg));
    }
    seats
}

/// The seats of a booking that waits for the leg.
fn waits_for(booking: &Booking, leg: u8) -> u16
    ensures { result ≡ waits_for leg booking.now }
{
    if booking.is_waiting() && has_leg(booking.place, leg) {
        booking.seats
    } else {
        0
    }
}
