//! The table of who waits: a row for each booking that does, in the order in which they would be confirmed.
//! It knows neither which are asked for nor their order.
ghost use Rattle.std.specs.Prelude.{◌≡◌, OnOk, map, true};
ghost use Rattle.std.specs.List.{AllByRecursion};
ghost use Rattle.seat_nesting.specs.Nesting.{Fits};
ghost use Rattle.seat_rules.specs.Inventory.{state_now};
ghost use Rattle.seat_lists.specs.Picking.{IsThere};
ghost use Rattle.seat_tables.specs.Rows.{rows_from};
ghost use Rattle.seat_tables.specs.Sheets.{ArePut, IsReady};
ghost use Rattle.table_questions.specs.BookingRows.{waiting_names, waiting_row, waiting_rows, rows_of_waiter};

use crate::table::Table;
use seat_core::Core;
use seat_lists::{Wanted, lacked, picked, status_code};
use seat_rules::Booking;
use seat_tables::{Cell, Form, Sheet, put_row};
use ssim_flights::{DatedLeg, Flight, Flights};
use std::alloc::{AllocError, Global};

/// The bookings that wait and that are asked for.
#[derive(Clone, Copy)]
pub struct WaitingTable<'a> {
    pub wanted: Wanted<'a>,
}

impl<'a> Table for WaitingTable<'a> {
    ghost use Rattle.table_questions.specs.BookingRows.{waiting_names, waiting_rows};

    ghost names = { waiting_names };

    ghost rows = { λ asked flights grid journal. waiting_rows asked.wanted flights grid journal };

    fn begun(&self, alloc: Global, form: Form) -> Result<Sheet, AllocError> {
        Sheet::new(alloc, form, &names())
    }

    fn put_rows(
        &self,
        alloc: Global,
        sheet: &mut Sheet,
        flights: &Flights,
        core: &Core,
    ) -> Result<(), AllocError> {
        let all = picked(alloc, flights, core, &self.wanted, true)?;
        put_waiters(alloc, sheet, flights, core, all.as_slice())?;
        Ok(())
    }
}

/// The names of the columns.
fn names() -> [&'static str; 11]
    ensures { map (λ n. n.now) result ≡ waiting_names }
{
    [
        "number",
        "locator",
        "flight",
        "designator",
        "class",
        "day",
        "board",
        "off",
        "status",
        "seats",
        "lacks",
    ]
}

/// Adds a row for each of these bookings.
fn put_waiters(
    alloc: Global,
    sheet: &mut Sheet,
    flights: &Flights,
    core: &Core,
    bookings: &[Booking],
) -> Result<(), AllocError>
    requires ready { IsReady sheet.old }
    requires there { AllByRecursion (IsThere flights.now core.now.grid) bookings.now }
    ensures { OnOk result (ArePut waiting_names (rows_from (rows_of_waiter flights.now (state_now core.now)) 0 bookings.now)
        sheet.old sheet.new) }
{
    for i in 0..bookings.len() {
        put_waiter(alloc, sheet, flights, core, &bookings[i])?;
    }
    Ok(())
}

/// Adds the row of a booking that waits.
fn put_waiter(
    alloc: Global,
    sheet: &mut Sheet,
    flights: &Flights,
    core: &Core,
    booking: &Booking,
) -> Result<(), AllocError>
    requires ready { IsReady sheet.old }
    requires there { IsThere flights.now core.now.grid booking.now }
    ensures { OnOk result (ArePut waiting_names (rows_of_waiter flights.now (state_now core.now) 0 booking.now) sheet.old sheet.new) }
{
    let place = booking.place;
    let flight = flights.flight(place.flight);
    let legs = flight.legs.as_slice();
    let first = &legs[place.from as usize];
    let last = &legs[place.to as usize];
    let row = waiting_row(core, booking, &flight, first, last);
    put_row(alloc, sheet, &names(), &row)?;
    Ok(())
}

/// The row of such a booking, which leaves with one leg of its flight and arrives with another.
fn waiting_row(
    core: &Core,
    booking: &Booking,
    flight: &Flight,
    first: &DatedLeg,
    last: &DatedLeg,
) -> [Cell; 11]
    requires { Fits core.now.grid booking.now.place }
    ensures { result ≡ waiting_row (state_now core.now) booking.now flight.now first.now last.now }
{
    [
        Cell::Number(u64::from(booking.number)),
        Cell::Name(booking.locator),
        Cell::Number(u64::from(booking.place.flight)),
        Cell::Flight(flight.airline, flight.number, flight.suffix),
        Cell::Letter(booking.class),
        Cell::Date(first.day),
        Cell::Stop(first.board),
        Cell::Stop(last.off),
        Cell::Word(status_code(booking.status)),
        Cell::Number(u64::from(booking.seats)),
        Cell::Number(u64::from(lacked(core, booking))),
    ]
}
