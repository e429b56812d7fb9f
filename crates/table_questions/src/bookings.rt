//! The table of bookings: a row for each that is asked for.
//! It knows neither which are asked for nor their order.
ghost use Rattle.std.specs.Prelude.{◌≡◌, OnOk, false, map};
ghost use Rattle.std.specs.List.{AllByRecursion};
ghost use Rattle.seat_lists.specs.Picking.{HasPlace};
ghost use Rattle.seat_tables.specs.Rows.{rows_from};
ghost use Rattle.seat_tables.specs.Sheets.{ArePut, IsReady};
ghost use Rattle.table_questions.specs.BookingRows.{booking_names, booking_row, booking_rows, rows_of_booking};

use crate::table::Table;
use seat_core::Core;
use seat_lists::{Wanted, listed, picked, status_code};
use seat_rules::Booking;
use seat_tables::{Cell, Form, Sheet, put_row};
use ssim_flights::{DatedLeg, Flight, Flights};
use std::alloc::{AllocError, Global};

/// The live bookings that are asked for.
#[derive(Clone, Copy)]
pub struct BookingTable<'a> {
    pub wanted: Wanted<'a>,
}

impl<'a> Table for BookingTable<'a> {
    ghost use Rattle.table_questions.specs.BookingRows.{booking_names, booking_rows};

    ghost names = { booking_names };

    ghost rows = { λ asked flights grid journal. booking_rows asked.wanted flights grid journal };

    fn begun(&self, alloc: Global, form: Form) -> Result<Sheet, AllocError> {
        Sheet::new(alloc, form, &names())
    }

    fn put_rows(
        &self,
        alloc: Global,
        sheet: &mut Sheet,
        flights: &Flights,
        core: &Core,
    ) -> Result<(), AllocError> {
        let all = picked(alloc, flights, core, &self.wanted, false)?;
        let shown = listed(alloc, self.wanted.flight, all)?;
        put_bookings(alloc, sheet, flights, shown.as_slice())?;
        Ok(())
    }
}

/// The names of the columns.
fn names() -> [&'static str; 10]
    ensures { map (λ n. n.now) result ≡ booking_names }
{
    [
        "number",
        "locator",
        "flight",
        "designator",
        "class",
        "day",
        "board",
        "off",
        "status",
        "seats",
    ]
}

/// Adds a row for each of these bookings.
fn put_bookings(
    alloc: Global,
    sheet: &mut Sheet,
    flights: &Flights,
    bookings: &[Booking],
) -> Result<(), AllocError>
    requires ready { IsReady sheet.old }
    requires there { AllByRecursion (λ b. HasPlace flights.now b.place) bookings.now }
    ensures { OnOk result (ArePut booking_names (rows_from (rows_of_booking flights.now) 0 bookings.now)
        sheet.old sheet.new) }
{
    for i in 0..bookings.len() {
        put_booking(alloc, sheet, flights, &bookings[i])?;
    }
    Ok(())
}

/// Adds the row of a booking.
fn put_booking(
    alloc: Global,
    sheet: &mut Sheet,
    flights: &Flights,
    booking: &Booking,
) -> Result<(), AllocError>
    requires ready { IsReady sheet.old }
    requires there { HasPlace flights.now booking.now.place }
    ensures { OnOk result (ArePut booking_names (rows_of_booking flights.now 0 booking.now) sheet.old sheet.new) }
{
    let place = booking.place;
    let flight = flights.flight(place.flight);
    let legs = flight.legs.as_slice();
    let first = &legs[place.from as usize];
    let last = &legs[place.to as usize];
    let row = booking_row(booking, &flight, first, last);
    put_row(alloc, sheet, &names(), &row)?;
    Ok(())
}

/// The row of a booking that leaves with one leg of its flight and arrives with another.
fn booking_row(booking: &Booking, flight: &Flight, first: &DatedLeg, last: &DatedLeg) -> [Cell; 10]
    ensures { result ≡ booking_row booking.now flight.now first.now last.now }
{
    [
        Cell::Number(u64::from(booking.number)),
        Cell::Name(booking.locator),
        Cell::Number(u64::from(booking.place.flight)),
        Cell::Flight(flight.airline, flight.number, flight.suffix),
        Cell::Letter(booking.class),
        Cell::Date(first.day),
        Cell::Stop(first.board),
        Cell::Stop(last.off),
        Cell::Word(status_code(booking.status)),
        Cell::Number(u64::from(booking.seats)),
    ]
}
