//! The table of loads by day: what the kept legs come to that depart on each day.
//! It knows no other table.
ghost use Rattle.std.specs.Prelude.{◌≡◌, ◌≤◌, ◌&&◌, ◌∷◌, [], OnOk, map, nat_lt};
ghost use Rattle.airline_base.specs.Days.{IsDay};
ghost use Rattle.seat_rules.specs.Inventory.{state_now};
ghost use Rattle.seat_desk.specs.AuditDesk.{most_lines};
ghost use Rattle.seat_loads.specs.Sums.{AreFewLegs};
ghost use Rattle.seat_questions.specs.Rooms.{keeps_day};
ghost use Rattle.seat_tables.specs.Sheets.{ArePut, IsReady};
ghost use Rattle.table_questions.specs.SumRows.{day_cells, day_names, day_sums, days_from, earliest, latest, latest_of, on_day, sums_of_day};

use crate::table::Table;
use airline_base::Day;
use seat_core::Core;
use seat_loads::{LoadsOf, Sums, share, sums_of};
use seat_questions::keeps_day;
use seat_tables::{Cell, Form, Sheet, put_row};
use ssim_flights::{DatedLeg, Flights};
use std::alloc::{AllocError, Global};

/// What the legs that are asked for come to, day by day.
#[derive(Clone, Copy)]
pub struct DaySums {
    pub loads: LoadsOf,
}

impl Table for DaySums {
    ghost use Rattle.table_questions.specs.SumRows.{day_names, day_sums};

    ghost names = { day_names };

    ghost rows = { λ asked flights grid journal. day_sums asked.loads flights grid journal };

    fn begun(&self, alloc: Global, form: Form) -> Result<Sheet, AllocError> {
        Sheet::new(alloc, form, &names())
    }

    fn put_rows(
        &self,
        alloc: Global,
        sheet: &mut Sheet,
        flights: &Flights,
        core: &Core,
    ) -> Result<(), AllocError> {
        let first = days_from(flights);
        let count = (latest_of(flights) + 1).saturating_sub(first);
        for i in 0..count {
            put_day(
                alloc,
                sheet,
                flights,
                core,
                &self.loads,
                Day::numbered(first + i),
            )?;
        }
        Ok(())
    }
}

/// The names of the columns.
fn names() -> [&'static str; 7]
    ensures { map (λ n. n.now) result ≡ day_names }
{
    [
        "day",
        "legs",
        "limit",
        "held",
        "share",
        "passengers",
        "waiting",
    ]
}

/// Adds the row of a day, if it is kept and a kept leg departs on it.
#[tactic(auto, using(crate::proofs::Days::day_left, crate::proofs::Days::day_kept))]
fn put_day(
    alloc: Global,
    sheet: &mut Sheet,
    flights: &Flights,
    core: &Core,
    asked: &LoadsOf,
    day: Day,
) -> Result<(), AllocError>
    requires ready { IsReady sheet.old }
    requires capped { core.now.cap ≤ most_lines }
    ensures { OnOk result (ArePut day_names (sums_of_day asked.now (state_now core.now) flights.now day)
        sheet.old sheet.new) }
{
    let sums = sums_of(flights, core, &on_day(asked, day));
    if !is_kept(asked, day, sums.legs.legs) {
        return Ok(());
    }
    put_cells(alloc, sheet, day, &sums)?;
    Ok(())
}

/// Adds the row of a day of these sums.
#[tactic(auto, using(crate::proofs::Tables::row_put))]
fn put_cells(alloc: Global, sheet: &mut Sheet, day: Day, sums: &Sums) -> Result<(), AllocError>
    requires ready { IsReady sheet.old }
    requires few { AreFewLegs sums.now.legs }
    ensures { OnOk result (ArePut day_names (day_cells day sums.now ∷ []) sheet.old sheet.new) }
{
    let row = day_cells(day, sums);
    put_row(alloc, sheet, &names(), &row)?;
    Ok(())
}

/// The same question of one day alone.
fn on_day(asked: &LoadsOf, day: Day) -> LoadsOf
    ensures { result ≡ on_day asked.now day }
{
    LoadsOf {
        flight: asked.flight,
        day: Some(day),
        pair: asked.pair,
        bars: asked.bars,
    }
}

/// Whether a day of so many legs is asked for, and has any.
fn is_kept(asked: &LoadsOf, day: Day, legs: u64) -> bool
    ensures { result ≡ (keeps_day asked.now.day day && nat_lt 0 legs) }
{
    keeps_day(asked.day, day) && 0 < legs
}

/// The row of a day of these sums.
fn day_cells(day: Day, sums: &Sums) -> [Cell; 7]
    requires few { AreFewLegs sums.now.legs }
    ensures { result ≡ day_cells day sums.now }
{
    [
        Cell::Date(day),
        Cell::Number(sums.legs.legs),
        Cell::Number(sums.legs.limits),
        Cell::Number(sums.legs.seats),
        Cell::Number(share(sums.legs.seats, sums.legs.limits)),
        Cell::Number(sums.riders.held),
        Cell::Number(sums.riders.waiting),
    ]
}

/// The number of the earliest day on which a leg departs; the last there is where there is none.
#[tactic(auto, using(crate::proofs::Days::earlier_flight, crate::proofs::Days::no_flight_earlier))]
pub fn days_from(flights: &Flights) -> u32
    ensures value { result ≡ days_from flights.now }
    ensures bound { IsDay result }
{
    let mut day = 84_005;
    for index in 0..flights.len() {
        let flight = flights.flight(index);
        day = earliest(day, flight.legs.as_slice());
    }
    day
}

/// The earliest day of legs, or this one.
#[tactic(auto, using(crate::proofs::Days::earlier_leg, crate::proofs::Days::no_leg_earlier))]
fn earliest(day: u32, legs: &[DatedLeg]) -> u32
    requires bound { IsDay day }
    ensures value { result ≡ earliest day legs.now }
    ensures bound { IsDay result }
{
    let mut day = day;
    for leg in legs {
        day = day.min(leg.day.number());
    }
    day
}

/// The number of the latest day on which a leg departs, or 0.
#[tactic(auto, using(crate::proofs::Days::later_flight, crate::proofs::Days::no_flight_later))]
pub fn latest_of(flights: &Flights) -> u32
    ensures value { result ≡ latest_of 0 flights.now }
    ensures bound { result ≤ 84005 }
{
    let mut day = 0;
    for index in 0..flights.len() {
        let flight = flights.flight(index);
        day = latest(day, flight.legs.as_slice());
    }
    day
}

/// The latest day of legs, or this one.
#[tactic(auto, using(crate::proofs::Days::later_leg, crate::proofs::Days::no_leg_later))]
fn latest(day: u32, legs: &[DatedLeg]) -> u32
    requires bound { day ≤ 84005 }
    ensures value { result ≡ latest day legs.now }
    ensures bound { result ≤ 84005 }
{
    let mut day = day;
    for leg in legs {
        day = day.max(leg.day.number());
    }
    day
}
