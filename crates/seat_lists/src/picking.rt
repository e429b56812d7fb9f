//! The live bookings that are asked for.
//! It knows nothing of their lines.
ghost use Rattle.std.specs.Prelude.{◌≡◌, ◌++◌, ◌∷◌, [], IfNone, IfOk, IfSome, OnOk, Some, if◌then◌else◌, slice_get};
ghost use Rattle.std.specs.List.{AllByRecursion};
ghost use Rattle.seat_rules.specs.Applying.{IsOrdered};
ghost use Rattle.seat_rules.specs.Inventory.{state_now};
ghost use Rattle.seat_rules.specs.Journal.{IsLegal};
ghost use Rattle.seat_desk.specs.Loading.{IsGridOf};
ghost use Rattle.seat_lists.specs.Picking.{IsLine, IsThere, chosen_at, departs_on, has_locator, is_asked, keeps_departure, keeps_flight, keeps_on, keeps_place, keeps_status, numbered, picked, place_asked};

use airline_base::{Airline, Day, Locator, Place};
use seat_core::Core;
use seat_journal::{Entry, Work};
use seat_rules::Booking;
use ssim_flights::{Flight, Flights};
use std::alloc::{AllocError, Global};

/// What names a flight on all its days: airline, number, and the operational suffix if there is one.
#[derive(Clone, Copy)]
pub struct Designator {
    pub airline: Airline,
    pub number: u16,
    pub suffix: Option<u8>,
}

/// Which bookings are asked for.
#[derive(Clone, Copy)]
pub struct Wanted<'a> {
    /// Those of any of these locators; where there are none, of each.
    pub locators: &'a [Locator],
    /// Those on flights of this name; else on any.
    pub flight: Option<Designator>,
    /// Those on places whose first leg departs on this local day; else on each.
    pub day: Option<Day>,
}

/// The live bookings that are asked for, or those of them that wait, in order of number: each was made by the line of its number.
pub fn picked(
    alloc: Global,
    flights: &Flights,
    core: &Core,
    wanted: &Wanted<'_>,
    waiting: bool,
) -> Result<Vec<Booking>, AllocError>
    requires grid { IsGridOf flights.now core.now.grid }
    ensures picked { IfOk result (λ all. all.items
        ≡ picked flights.now wanted.now waiting (state_now core.now).bookings) }
    ensures there { IfOk result (λ all. AllByRecursion (IsThere flights.now core.now.grid) all.items) }
{
    let mut all = Vec::new(alloc);
    let lines = core.journal();
    for i in 0..lines.len() {
        pick_made(&mut all, flights, core, wanted, waiting, &lines[i])?;
    }
    Ok(all)
}

/// Adds the booking that a line of the journal made, if it is live and asked for.
#[tactic(auto, using(crate::proofs::Picks::none_picked))]
fn pick_made(
    all: &mut Vec<Booking>,
    flights: &Flights,
    core: &Core,
    wanted: &Wanted<'_>,
    waiting: bool,
    line: &Entry,
) -> Result<(), AllocError>
    requires legal { IsLegal core.now.grid core.now.journal }
    requires line { IsLine core.now.journal line.now }
    ensures { OnOk result (all.new.items ≡ all.old.items
        ++ chosen_at (is_asked flights.now wanted.now waiting) line.now.number (state_now core.now).bookings) }
{
    match made_by(core, line) {
        Some(booking) => pick(all, flights, wanted, waiting, booking),
        None => Ok(()),
    }
}

/// Adds a booking, if it is asked for.
#[tactic(auto, using(crate::proofs::Picks::kept_one, crate::proofs::Picks::left_one))]
fn pick(
    all: &mut Vec<Booking>,
    flights: &Flights,
    wanted: &Wanted<'_>,
    waiting: bool,
    booking: &Booking,
) -> Result<(), AllocError>
    ensures { OnOk result (all.new.items ≡ all.old.items
        ++ (if is_asked flights.now wanted.now waiting booking.now then booking.now ∷ [] else [])) }
{
    if !is_asked(flights, wanted, waiting, booking) {
        return Ok(());
    }
    all.push(*booking)?;
    Ok(())
}

/// The live booking that a line of the journal made.
fn made_by<'a>(core: &'a Core, line: &Entry) -> Option<&'a Booking>
    requires legal { IsLegal core.now.grid core.now.journal }
    requires line { IsLine core.now.journal line.now }
    ensures found { IfSome result (λ b. numbered line.now.number (state_now core.now).bookings ≡ b.now ∷ []) }
    ensures none { IfNone result (numbered line.now.number (state_now core.now).bookings ≡ []) }
{
    match place_asked(&line.work) {
        Some(place) => with_number(core.bookings_on(place.flight), line.number),
        None => None,
    }
}

/// The place that a line asks for.
fn place_asked(work: &Work) -> Option<Place>
    ensures { result ≡ place_asked work.now }
{
    match work {
        Work::Seats(command) => command.place,
        Work::Limit(_) => None,
        Work::Sale(_) => None,
    }
}

/// The booking of a number, among bookings in order of number.
fn with_number(bookings: &[Booking], number: u32) -> Option<&Booking>
    requires { IsOrdered bookings.now }
    ensures found { IfSome result (λ b. numbered number bookings.now ≡ b.now ∷ []) }
    ensures none { IfNone result (numbered number bookings.now ≡ []) }
{
    match bookings.binary_search_by_key(&number, |b| b.number) {
        Ok(at) => Some(&bookings[at]),
        Err(_) => None,
    }
}

/// Whether a booking is asked for, among all or among those that wait.
fn is_asked(flights: &Flights, wanted: &Wanted<'_>, waiting: bool, booking: &Booking) -> bool
    ensures { result ≡ is_asked flights.now wanted.now waiting booking.now }
{
    keeps_status(waiting, booking)
        && has_locator(wanted.locators, booking)
        && keeps_place(flights, wanted, booking.place)
}

fn keeps_status(waiting: bool, booking: &Booking) -> bool
    ensures { result ≡ keeps_status waiting booking.now.status }
{
    if waiting { booking.is_waiting() } else { true }
}

fn has_locator(locators: &[Locator], booking: &Booking) -> bool
    ensures { result ≡ has_locator locators.now booking.now }
{
    locators.is_empty() || locators.contains(&booking.locator)
}

/// Whether a place is asked for.
pub fn keeps_place(flights: &Flights, wanted: &Wanted<'_>, place: Place) -> bool
    ensures { result ≡ keeps_place flights.now wanted.now place }
{
    if place.flight >= flights.len() {
        return false;
    }
    keeps_on(wanted, place, &flights.flight(place.flight))
}

fn keeps_on(wanted: &Wanted<'_>, place: Place, flight: &Flight) -> bool
    ensures { result ≡ keeps_on wanted.now place (Some flight.now) }
{
    keeps_flight(wanted.flight, flight) && keeps_departure(wanted.day, flight, place.from)
}

/// Whether a flight is asked for.
pub fn keeps_flight(asked: Option<Designator>, flight: &Flight) -> bool
    ensures { result ≡ keeps_flight asked flight.now }
{
    match asked {
        Some(asked) => {
            flight.airline == asked.airline
                && flight.number == asked.number
                && flight.suffix == asked.suffix
        }
        None => true,
    }
}

fn keeps_departure(asked: Option<Day>, flight: &Flight, leg: u8) -> bool
    ensures { result ≡ keeps_departure asked (slice_get flight.now.legs leg) }
{
    match asked {
        Some(day) => departs_on(day, flight, leg),
        None => true,
    }
}

fn departs_on(day: Day, flight: &Flight, leg: u8) -> bool
    ensures { result ≡ departs_on day (slice_get flight.now.legs leg) }
{
    match flight.legs.as_slice().get(usize::from(leg)) {
        Some(leg) => leg.day == day,
        None => false,
    }
}
