//! The table of rooms: a row for each class of each place that a request finds.
//! It knows no other table.
ghost use Rattle.std.specs.Prelude.{◌≡◌, ◌≤◌, ◌<◌, OnOk, length, map};
ghost use Rattle.seat_nesting.specs.Nesting.{Fits, ladder_at, legs_of};
ghost use Rattle.seat_rules.specs.Inventory.{state_now};
ghost use Rattle.seat_desk.specs.Loading.{IsGridOf};
ghost use Rattle.seat_tables.specs.Rows.{rows_from};
ghost use Rattle.seat_tables.specs.Sheets.{ArePut, IsReady};
ghost use Rattle.table_questions.specs.RoomRows.{class_rooms, first_rooms, flight_rooms, place_rooms, room_names, room_row, room_rows};

use crate::table::Table;
use airline_base::Place;
use seat_core::Core;
use seat_nesting::Step;
use seat_questions::{RoomsOf, is_shown, run_of};
use seat_tables::{Cell, Form, Sheet, put_row};
use ssim_flights::{DatedLeg, Flight, Flights, Served};
use std::alloc::{AllocError, Global};

/// The rooms of the places that are asked for, class by class. Bars are passed over.
#[derive(Clone, Copy)]
pub struct RoomTable {
    pub rooms: RoomsOf,
}

impl Table for RoomTable {
    ghost use Rattle.table_questions.specs.RoomRows.{room_names, room_rows};

    ghost names = { room_names };

    ghost rows = { λ asked flights grid journal. room_rows asked.rooms flights grid journal };

    fn begun(&self, alloc: Global, form: Form) -> Result<Sheet, AllocError> {
        Sheet::new(alloc, form, &names())
    }

    fn put_rows(
        &self,
        alloc: Global,
        sheet: &mut Sheet,
        flights: &Flights,
        core: &Core,
    ) -> Result<(), AllocError> {
        match Served::new(alloc, flights) {
            Ok(served) => put_flights(alloc, sheet, flights, &served, core, &self.rooms),
            Err(_) => Err(AllocError),
        }
    }
}

/// The names of the columns.
fn names() -> [&'static str; 7]
    ensures { map (λ n. n.now) result ≡ room_names }
{
    [
        "flight",
        "designator",
        "day",
        "board",
        "off",
        "class",
        "room",
    ]
}

/// Adds the rows of all flights.
#[tactic(auto, using(seat_questions::proofs::RoomTexts::legs_alike))]
fn put_flights(
    alloc: Global,
    sheet: &mut Sheet,
    flights: &Flights,
    served: &Served<'_>,
    core: &Core,
    asked: &RoomsOf,
) -> Result<(), AllocError>
    requires ready { IsReady sheet.old }
    requires grid { IsGridOf flights.now core.now.grid }
    ensures { OnOk result (ArePut room_names
        (rows_from (flight_rooms served.now asked.now (state_now core.now)) 0 flights.now) sheet.old sheet.new) }
{
    for index in 0..flights.len() {
        put_flight(
            alloc,
            sheet,
            served,
            core,
            asked,
            index,
            &flights.flight(index),
        )?;
    }
    Ok(())
}

/// Adds the rows of the places of a flight.
fn put_flight(
    alloc: Global,
    sheet: &mut Sheet,
    served: &Served<'_>,
    core: &Core,
    asked: &RoomsOf,
    index: u32,
    flight: &Flight,
) -> Result<(), AllocError>
    requires ready { IsReady sheet.old }
    requires few { length flight.now.legs ≤ 8 }
    requires legs { length (legs_of core.now.grid index) ≡ length flight.now.legs }
    ensures { OnOk result (ArePut room_names (flight_rooms served.now asked.now (state_now core.now) index flight.now)
        sheet.old sheet.new) }
{
    let legs = flight.legs.as_slice();
    for from in 0..legs.len() {
        let start = from as u8;
        let place = Place {
            flight: index,
            from: start,
            to: start,
        };
        put_runs(
            alloc,
            sheet,
            served,
            core,
            asked,
            flight,
            place,
            &legs[from],
        )?;
    }
    Ok(())
}

/// Adds the rows of the places that begin with a leg.
fn put_runs(
    alloc: Global,
    sheet: &mut Sheet,
    served: &Served<'_>,
    core: &Core,
    asked: &RoomsOf,
    flight: &Flight,
    start: Place,
    first: &DatedLeg,
) -> Result<(), AllocError>
    requires ready { IsReady sheet.old }
    requires few { length flight.now.legs ≤ 8 }
    requires legs { length (legs_of core.now.grid start.flight) ≡ length flight.now.legs }
    requires start { start.from < length flight.now.legs }
    ensures { OnOk result (ArePut room_names
        (first_rooms served.now asked.now (state_now core.now) start.flight flight.now start.from first.now)
        sheet.old sheet.new) }
{
    let legs = flight.legs.as_slice();
    let rest = &legs[usize::from(start.from)..];
    for k in 0..rest.len() {
        let place = Place {
            flight: start.flight,
            from: start.from,
            to: start.from + k as u8,
        };
        let run = run_of(first, &rest[k]);
        put_run(alloc, sheet, served, core, asked, flight, place, &run)?;
    }
    Ok(())
}

/// Adds the rows of a place, if it is shown.
#[tactic(auto, using(crate::proofs::Tables::rows_left, crate::proofs::Tables::rows_kept))]
fn put_run(
    alloc: Global,
    sheet: &mut Sheet,
    served: &Served<'_>,
    core: &Core,
    asked: &RoomsOf,
    flight: &Flight,
    place: Place,
    run: &DatedLeg,
) -> Result<(), AllocError>
    requires ready { IsReady sheet.old }
    requires fits { Fits core.now.grid place }
    ensures { OnOk result (ArePut room_names
        (place_rooms served.now asked.now (state_now core.now) flight.now place run.now) sheet.old sheet.new) }
{
    if !is_shown(served, asked, flight, place, run) {
        return Ok(());
    }
    put_classes(alloc, sheet, core, flight, place, run)
}

/// Adds the rows of the classes of a place.
fn put_classes(
    alloc: Global,
    sheet: &mut Sheet,
    core: &Core,
    flight: &Flight,
    place: Place,
    run: &DatedLeg,
) -> Result<(), AllocError>
    requires ready { IsReady sheet.old }
    requires fits { Fits core.now.grid place }
    ensures { OnOk result (ArePut room_names
        (rows_from (class_rooms (state_now core.now) flight.now place run.now) 0
        (ladder_at (state_now core.now).grid place.flight place.from)) sheet.old sheet.new) }
{
    let steps = core.steps(place.flight, place.from);
    for k in 0..steps.len() {
        put_class(alloc, sheet, core, flight, place, run, &steps[k])?;
    }
    Ok(())
}

/// Adds the row of a class.
#[tactic(auto, using(crate::proofs::Tables::row_put))]
fn put_class(
    alloc: Global,
    sheet: &mut Sheet,
    core: &Core,
    flight: &Flight,
    place: Place,
    run: &DatedLeg,
    step: &Step,
) -> Result<(), AllocError>
    requires ready { IsReady sheet.old }
    requires fits { Fits core.now.grid place }
    ensures { OnOk result (ArePut room_names (class_rooms (state_now core.now) flight.now place run.now 0 step.now)
        sheet.old sheet.new) }
{
    let row = room_row(core, flight, place, run, step);
    put_row(alloc, sheet, &names(), &row)?;
    Ok(())
}

/// The row of a class.
fn room_row(core: &Core, flight: &Flight, place: Place, run: &DatedLeg, step: &Step) -> [Cell; 7]
    requires { Fits core.now.grid place }
    ensures { result ≡ room_row (state_now core.now) flight.now place run.now step.now }
{
    [
        Cell::Number(u64::from(place.flight)),
        Cell::Flight(flight.airline, flight.number, flight.suffix),
        Cell::Date(run.day),
        Cell::Stop(run.board),
        Cell::Stop(run.off),
        Cell::Letter(step.class),
        Cell::Number(u64::from(core.room(place, step.class))),
    ]
}
