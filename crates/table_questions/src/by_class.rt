//! The table of loads by class: the seats of each class on the kept legs.
//! It knows no other table.
ghost use Rattle.std.specs.Prelude.{◌≡◌, ◌≤◌, ◌∷◌, [], OnOk, if◌then◌else◌, length, map, nat_lt};
ghost use Rattle.std.specs.List.{sum_by};
ghost use Rattle.seat_nesting.specs.Nesting.{has_class};
ghost use Rattle.seat_rules.specs.Bookings.{is_held, is_waiting};
ghost use Rattle.seat_rules.specs.Inventory.{state_now};
ghost use Rattle.seat_desk.specs.AuditDesk.{most_lines};
ghost use Rattle.seat_loads.specs.Sums.{most_riders, on_flight, on_leg, on_legs, over_legs};
ghost use Rattle.seat_tables.specs.Sheets.{ArePut, IsReady};
ghost use Rattle.table_questions.specs.SumRows.{class_count, class_names, class_row, class_sums, counted, seats_in, sums_of_class};

use crate::table::Table;
use airline_base::Class;
use seat_core::Core;
use seat_lists::keeps_flight;
use seat_loads::{LoadsOf, is_kept};
use seat_nesting::Step;
use seat_questions::has_leg;
use seat_rules::Booking;
use seat_tables::{Cell, Form, Sheet, put_row};
use ssim_flights::{DatedLeg, Flight, Flights};
use std::alloc::{AllocError, Global};

/// What the legs that are asked for have of each class. Limits are nested, so they are not summed.
#[derive(Clone, Copy)]
pub struct ClassSums {
    pub loads: LoadsOf,
}

/// What is counted of a class on a leg.
#[derive(Clone, Copy)]
pub enum Count {
    /// The leg, where it has the class.
    Legs,
    /// The seats that are held in it.
    Held,
    /// The seats that wait in it.
    Waits,
}

impl Table for ClassSums {
    ghost use Rattle.table_questions.specs.SumRows.{class_names, class_sums};

    ghost names = { class_names };

    ghost rows = { λ asked flights grid journal. class_sums asked.loads flights grid journal };

    fn begun(&self, alloc: Global, form: Form) -> Result<Sheet, AllocError> {
        Sheet::new(alloc, form, &names())
    }

    fn put_rows(
        &self,
        alloc: Global,
        sheet: &mut Sheet,
        flights: &Flights,
        core: &Core,
    ) -> Result<(), AllocError> {
        for i in 0..26u8 {
            put_letter(alloc, sheet, flights, core, &self.loads, b'A' + i)?;
        }
        Ok(())
    }
}

/// The names of the columns.
fn names() -> [&'static str; 4]
    ensures { map (λ n. n.now) result ≡ class_names }
{
    ["class", "legs", "held", "waiting"]
}

/// Adds the row of the class of a letter.
#[tactic(auto, using(crate::proofs::Classes::is_letter))]
fn put_letter(
    alloc: Global,
    sheet: &mut Sheet,
    flights: &Flights,
    core: &Core,
    asked: &LoadsOf,
    letter: u8,
) -> Result<(), AllocError>
    requires ready { IsReady sheet.old }
    requires capped { core.now.cap ≤ most_lines }
    requires from { 65 ≤ letter }
    requires to { letter ≤ 90 }
    ensures { OnOk result (ArePut class_names (sums_of_class asked.now (state_now core.now) flights.now letter)
        sheet.old sheet.new) }
{
    match Class::new(letter) {
        Some(class) => put_class(alloc, sheet, flights, core, asked, class),
        None => Ok(()),
    }
}

/// Adds the row of a class, if a kept leg has it.
#[tactic(auto, using(crate::proofs::Tables::rows_left, crate::proofs::Tables::rows_kept))]
fn put_class(
    alloc: Global,
    sheet: &mut Sheet,
    flights: &Flights,
    core: &Core,
    asked: &LoadsOf,
    class: Class,
) -> Result<(), AllocError>
    requires ready { IsReady sheet.old }
    requires capped { core.now.cap ≤ most_lines }
    ensures { OnOk result (ArePut class_names (sums_of_class asked.now (state_now core.now) flights.now class)
        sheet.old sheet.new) }
{
    if !has_any(flights, core, asked, class) {
        return Ok(());
    }
    put_own(alloc, sheet, flights, core, asked, class)
}

/// Whether any kept leg has a class.
fn has_any(flights: &Flights, core: &Core, asked: &LoadsOf, class: Class) -> bool
    requires capped { core.now.cap ≤ most_lines }
    ensures { result ≡ nat_lt 0 (over_legs asked.now (class_count Count.Legs (state_now core.now) class) flights.now) }
{
    0 < over_legs(flights, core, asked, Count::Legs, class)
}

/// Adds the row of a class.
#[tactic(auto, using(crate::proofs::Tables::row_put))]
fn put_own(
    alloc: Global,
    sheet: &mut Sheet,
    flights: &Flights,
    core: &Core,
    asked: &LoadsOf,
    class: Class,
) -> Result<(), AllocError>
    requires ready { IsReady sheet.old }
    requires capped { core.now.cap ≤ most_lines }
    ensures { OnOk result (ArePut class_names (class_row asked.now (state_now core.now) flights.now class ∷ [])
        sheet.old sheet.new) }
{
    let row = class_row(flights, core, asked, class);
    put_row(alloc, sheet, &names(), &row)?;
    Ok(())
}

/// The row of a class.
fn class_row(flights: &Flights, core: &Core, asked: &LoadsOf, class: Class) -> [Cell; 4]
    requires capped { core.now.cap ≤ most_lines }
    ensures { result ≡ class_row asked.now (state_now core.now) flights.now class }
{
    [
        Cell::Letter(class),
        Cell::Number(over_legs(flights, core, asked, Count::Legs, class)),
        Cell::Number(over_legs(flights, core, asked, Count::Held, class)),
        Cell::Number(over_legs(flights, core, asked, Count::Waits, class)),
    ]
}

/// A number of a class, over the legs that are kept.
fn over_legs(flights: &Flights, core: &Core, asked: &LoadsOf, count: Count, class: Class) -> u64
    requires capped { core.now.cap ≤ most_lines }
    ensures { result ≡ over_legs asked.now (class_count count (state_now core.now) class) flights.now }
{
    let mut total = 0u64;
    for index in 0..flights.len() {
        total += flight_count(core, asked, count, class, index, &flights.flight(index));
    }
    total
}

/// Over those of a flight: 0 where it is not kept.
#[tactic(auto, using(crate::proofs::Classes::flight_left, crate::proofs::Classes::flight_kept))]
fn flight_count(
    core: &Core,
    asked: &LoadsOf,
    count: Count,
    class: Class,
    index: u32,
    flight: &Flight,
) -> u64
    requires capped { core.now.cap ≤ most_lines }
    requires legs { length flight.now.legs ≤ 8 }
    ensures value { result ≡ on_flight asked.now (class_count count (state_now core.now) class) index flight.now }
    ensures few { result ≤ 524_279_475_720 }
{
    if !keeps_flight(asked.flight, flight) {
        return 0;
    }
    legs_count(core, asked, count, class, index, flight)
}

fn legs_count(
    core: &Core,
    asked: &LoadsOf,
    count: Count,
    class: Class,
    index: u32,
    flight: &Flight,
) -> u64
    requires capped { core.now.cap ≤ most_lines }
    requires legs { length flight.now.legs ≤ 8 }
    ensures value { result ≡ on_legs asked.now (class_count count (state_now core.now) class) index flight.now }
    ensures few { result ≤ 524_279_475_720 }
{
    let legs = flight.legs.as_slice();
    let mut total = 0u64;
    for j in 0..legs.len() {
        total += leg_count(core, asked, count, class, index, j as u8, &legs[j]);
    }
    total
}

/// On a leg: 0 where it is not kept.
#[tactic(auto, using(crate::proofs::Classes::leg_left, crate::proofs::Classes::leg_kept))]
fn leg_count(
    core: &Core,
    asked: &LoadsOf,
    count: Count,
    class: Class,
    index: u32,
    leg: u8,
    dated: &DatedLeg,
) -> u64
    requires capped { core.now.cap ≤ most_lines }
    ensures value { result ≡ on_leg asked.now (class_count count (state_now core.now) class) index leg dated.now }
    ensures few { result ≤ most_riders }
{
    if !is_kept(asked, dated) {
        return 0;
    }
    class_count(core, count, class, index, leg)
}

#[tactic(auto, using(seat_questions::proofs::Standings::few_bookings))]
fn class_count(core: &Core, count: Count, class: Class, index: u32, leg: u8) -> u64
    requires capped { core.now.cap ≤ most_lines }
    ensures value { result ≡ class_count count (state_now core.now) class index leg }
    ensures few { result ≤ most_riders }
{
    // For the prover alone: a journal of so few lines leaves no more bookings, so that their sum fits.
    let _ = core.journal();
    let bookings = core.bookings_on(index);
    match count {
        Count::Legs => one_if_has(core.steps(index, leg), class),
        Count::Held => held_in(bookings, leg, class),
        Count::Waits => waiting_in(bookings, leg, class),
    }
}

/// 1 where the class is one of these.
fn one_if_has(steps: &[Step], class: Class) -> u64
    ensures value { result ≡ (if has_class steps.now class then 1 else 0) }
    ensures few { result ≤ most_riders }
{
    if has_class(steps, class) { 1 } else { 0 }
}

fn has_class(steps: &[Step], class: Class) -> bool
    ensures { result ≡ has_class steps.now class }
{
    steps.iter().any(|step| class == step.class)
}

/// The seats that are held in a class on a leg.
fn held_in(bookings: &[Booking], leg: u8, class: Class) -> u64
    requires few { length bookings.now ≤ 999999 }
    ensures value { result ≡ sum_by (seats_in is_held leg class) bookings.now }
    ensures few { result ≤ most_riders }
{
    let mut seats = 0u64;
    for booking in bookings {
        seats += u64::from(seats_in(booking, !booking.is_waiting(), leg, class));
    }
    seats
}

/// The seats that wait in it.
fn waiting_in(bookings: &[Booking], leg: u8, class: Class) -> u64
    requires few { length bookings.now ≤ 999999 }
    ensures value { result ≡ sum_by (seats_in is_waiting leg class) bookings.now }
    ensures few { result ≤ most_riders }
{
    let mut seats = 0u64;
    for booking in bookings {
        seats += u64::from(seats_in(booking, booking.is_waiting(), leg, class));
    }
    seats
}

/// The seats of a booking that counts, on the leg and in the class; else none.
fn seats_in(booking: &Booking, counts: bool, leg: u8, class: Class) -> u16
    ensures { result ≡ counted counts leg class booking.now }
{
    if counts && has_leg(booking.place, leg) && booking.class == class {
        booking.seats
    } else {
        0
    }
}
