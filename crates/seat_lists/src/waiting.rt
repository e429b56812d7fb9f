//! `waiting`: who waits for seats, and how many are lacking.
//! It knows neither which are asked for nor how one came to wait.
ghost use Rattle.std.specs.Prelude.{◌≡◌, ◌∷◌, [], OnOk};
ghost use Rattle.std.specs.List.{AllByRecursion};
ghost use Rattle.seat_nesting.specs.Nesting.{Fits};
ghost use Rattle.seat_rules.specs.Inventory.{state_now};
ghost use Rattle.seat_desk.specs.FlightsDesk.{IsPut};
ghost use Rattle.seat_lists.specs.Picking.{IsThere};
ghost use Rattle.seat_lists.specs.Waiting.{IsWaitingLine, lacked};

use crate::named::put_named;
use crate::picking::{Wanted, picked};
use seat_core::Core;
use seat_desk::{Standing, put, put_number};
use seat_rules::Booking;
use ssim_flights::Flights;
use std::alloc::{AllocError, Global};

/// Who waits among those who are asked for: a line for each booking, in the order in which a pass would confirm them, with the seats that
/// are lacking.
#[derive(Clone, Copy)]
pub struct WaitingOf<'a> {
    pub wanted: Wanted<'a>,
}

impl<'a> Standing for WaitingOf<'a> {
    ghost use Rattle.std.specs.Prelude.{true};
    ghost use Rattle.seat_rules.specs.Journal.{replay};
    ghost use Rattle.seat_lists.specs.Picking.{picked};
    ghost use Rattle.seat_lists.specs.Waiting.{IsWaitingText};

    ghost tells = { λ asked flights grid entries text. IsWaitingText flights (replay grid entries)
        (picked flights asked.wanted true (replay grid entries).bookings) text };

    #[tactic(auto, using(crate::proofs::LiveTexts::all_sliced))]
    fn standing(
        &self,
        alloc: Global,
        flights: &Flights,
        core: &Core,
    ) -> Result<Vec<u8>, AllocError> {
        let bookings = picked(alloc, flights, core, &self.wanted, true)?;
        let mut text = Vec::new(alloc);
        put_waiters(&mut text, flights, core, bookings.as_slice())?;
        Ok(text)
    }
}

/// Adds a line for each of these bookings.
fn put_waiters(
    text: &mut Vec<u8>,
    flights: &Flights,
    core: &Core,
    bookings: &[Booking],
) -> Result<(), AllocError>
    requires there { AllByRecursion (IsThere flights.now core.now.grid) bookings.now }
    ensures { OnOk result (IsPut (λ n. IsWaitingLine flights.now (state_now core.now)) 0 bookings.now text.old.items
        text.new.items) }
{
    for i in 0..bookings.len() {
        put_waiter(text, flights, core, &bookings[i])?;
    }
    Ok(())
}

/// Adds the line of a booking that waits.
fn put_waiter(
    text: &mut Vec<u8>,
    flights: &Flights,
    core: &Core,
    booking: &Booking,
) -> Result<(), AllocError>
    requires { IsThere flights.now core.now.grid booking.now }
    ensures { OnOk result (IsPut (λ n. IsWaitingLine flights.now (state_now core.now)) 0 (booking.now ∷ []) text.old.items
        text.new.items) }
{
    put_named(text, flights, false, booking)?;
    put(text, b" LACKS ")?;
    put_number(text, u64::from(lacked(core, booking)))?;
    put(text, b"\n")?;
    Ok(())
}

/// The seats of a booking beyond those that are left.
pub fn lacked(core: &Core, booking: &Booking) -> u16
    requires { Fits core.now.grid booking.now.place }
    ensures { result ≡ lacked (state_now core.now) booking.now }
{
    booking
        .seats
        .saturating_sub(core.room(booking.place, booking.class))
}
