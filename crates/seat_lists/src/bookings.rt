//! `bookings`: live bookings, a line each.
//! It knows neither which are asked for, nor their order, nor how a booking is named.
ghost use Rattle.std.specs.Prelude.{◌∷◌, [], OnOk};
ghost use Rattle.std.specs.List.{AllByRecursion};
ghost use Rattle.seat_desk.specs.FlightsDesk.{IsPut};
ghost use Rattle.seat_lists.specs.LiveBookings.{IsBookingLine};
ghost use Rattle.seat_lists.specs.Picking.{HasPlace};

use crate::listing::listed;
use crate::named::put_named;
use crate::picking::{Wanted, picked};
use seat_core::Core;
use seat_desk::{Standing, put};
use seat_rules::Booking;
use ssim_flights::Flights;
use std::alloc::{AllocError, Global};

/// The live bookings that are asked for, class by class where a flight is, and in order of number, a line each: its number, its locator unless the question names one alone,
/// and its segment as a reply has it, with the day of its first leg, the code HK where the seats are held or HL where they wait, and the
/// seats. Where there is none there is no line.
#[derive(Clone, Copy)]
pub struct BookingsOf<'a> {
    pub wanted: Wanted<'a>,
}

impl<'a> Standing for BookingsOf<'a> {
    ghost use Rattle.std.specs.Prelude.{false};
    ghost use Rattle.seat_rules.specs.Journal.{replay};
    ghost use Rattle.seat_lists.specs.Listing.{listed};
    ghost use Rattle.seat_lists.specs.LiveBookings.{IsBookingsText, names_one};
    ghost use Rattle.seat_lists.specs.Picking.{picked};

    ghost tells = { λ asked flights grid entries text. IsBookingsText flights (names_one asked.wanted)
        (listed asked.wanted.flight (picked flights asked.wanted false (replay grid entries).bookings)) text };

    fn standing(
        &self,
        alloc: Global,
        flights: &Flights,
        core: &Core,
    ) -> Result<Vec<u8>, AllocError> {
        let all = picked(alloc, flights, core, &self.wanted, false)?;
        let shown = listed(alloc, self.wanted.flight, all)?;
        let mut text = Vec::new(alloc);
        let alone = self.wanted.locators.len() == 1;
        put_bookings(&mut text, flights, alone, shown.as_slice())?;
        Ok(text)
    }
}

/// Adds a line for each of these bookings.
fn put_bookings(
    text: &mut Vec<u8>,
    flights: &Flights,
    alone: bool,
    bookings: &[Booking],
) -> Result<(), AllocError>
    requires there { AllByRecursion (λ b. HasPlace flights.now b.place) bookings.now }
    ensures { OnOk result (IsPut (λ n. IsBookingLine flights.now alone) 0 bookings.now text.old.items text.new.items) }
{
    for i in 0..bookings.len() {
        put_booking(text, flights, alone, &bookings[i])?;
    }
    Ok(())
}

/// Adds the line of a booking.
fn put_booking(
    text: &mut Vec<u8>,
    flights: &Flights,
    alone: bool,
    booking: &Booking,
) -> Result<(), AllocError>
    requires { HasPlace flights.now booking.now.place }
    ensures { OnOk result (IsPut (λ n. IsBookingLine flights.now alone) 0 (booking.now ∷ []) text.old.items
        text.new.items) }
{
    put_named(text, flights, alone, booking)?;
    put(text, b"\n")?;
    Ok(())
}
