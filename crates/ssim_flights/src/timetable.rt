//! Flights by the legs of their itineraries and the rows at which those operate.
//! A flight is worked out where it is asked for, so it takes few bytes however many legs it has.
ghost use Rattle.std.specs.Prelude.{◌≡◌, ◌+◌, ◌<◌, ◌≤◌, ◌++◌, [], All, OnOk, length, map, slice_get};
ghost use Rattle.ssim_flights.specs.Schedules.{flight_on, Reaches};
ghost use Rattle.ssim_flights.specs.Slots.{has_name, is_wanted};
ghost use Rattle.ssim_flights.specs.Timetables.{at_row, flights_in, legs_at, planned_on, ArePlanned, IsFit, IsPlanned, IsTable};

use crate::flight::{DatedLeg, DatedLegs, Flight, Wanted};
use crate::local_days::{InRound, LocalDays};
use crate::plan::Plan;
use crate::rows::RowRange;
use crate::schedule::Scheduled;
use airline_base::{Airline, Memory, Station};
use ssim_records::Leg;
use std::alloc::Global;

/// A leg of an itinerary: all that its dated legs are worked out from.
#[derive(Clone, Copy)]
pub(crate) struct PlannedLeg {
    pub days: LocalDays,
    /// The local time of departure, in minutes of the day, 0 to 1440.
    pub time: u16,
    pub board: Station,
    pub off: Station,
}

/// A flight, by the row at which its legs operate.
#[derive(Clone, Copy)]
pub(crate) struct FlightRow {
    /// Its first leg.
    pub start: u32,
    pub row: u16,
    pub number: u16,
    pub suffix: Option<u8>,
    pub airline: Airline,
    /// How many legs it has, 1 to 8.
    pub count: u8,
}

/// The legs of the itineraries that fly, and their flights.
#[derive(Drop)]
pub(crate) struct Timetable {
    pub legs: Vec<PlannedLeg>,
    pub rows: Vec<FlightRow>,
}

impl Timetable {
    /// No flights.
    #[tactic(auto, unfolding(crate::specs::Timetables::flights_in))]
    pub(crate) fn new(alloc: Global) -> Self
        ensures none { flights_in result ≡ [] }
        ensures table { IsTable result }
    {
        Timetable {
            legs: Vec::new(alloc),
            rows: Vec::new(alloc),
        }
    }

    /// How many flights there are.
    #[tactic(auto, unfolding(crate::specs::Timetables::flights_in))]
    pub(crate) fn len(&self) -> usize
        ensures { result ≡ length (flights_in self.now) }
    {
        self.rows.len()
    }

    /// Flight `i`, counted from 0.
    pub(crate) fn flight(&self, i: usize) -> Flight
        requires table { IsTable self.now }
        requires inside { i < length (flights_in self.now) }
        ensures { slice_get (flights_in self.now) i ≡ Some result }
    {
        let row = &self.rows[i];
        Flight {
            airline: row.airline,
            number: row.number,
            suffix: row.suffix,
            legs: dated_legs(legs_at(&self.legs, row), row.row),
        }
    }

    /// Whether flight `i` has the number and the suffix that are wanted.
    pub(crate) fn is_named(&self, i: usize, wanted: &Wanted) -> bool
        ensures { result ≡ has_name wanted.now (slice_get (flights_in self.now) i) }
    {
        match self.rows.get(i) {
            Some(row) => is_wanted(row, wanted),
            None => false,
        }
    }

    /// Adds the flights of an itinerary, one for each row.
    pub(crate) fn add(
        &mut self,
        plan: &Plan,
        first: &Leg,
        legs: &[Scheduled],
        rows: &RowRange,
    ) -> Result<(), Memory>
        requires table { IsTable self.old }
        requires few { length (flights_in self.old) ≤ 100000 }
        requires reach { All (Reaches legs.now) rows.now }
        requires short { length legs.now ≤ 8 }
        requires small { All (λ i. i < 65536) rows.now }
        ensures flights { OnOk result (flights_in self.new
            ≡ flights_in self.old ++ map (flight_on plan.now first.now legs.now) rows.now) }
        ensures table { OnOk result (IsTable self.new) }
    {
        if rows.len() == 0 {
            return Ok(());
        }
        let first_row = FlightRow {
            start: self.legs.len() as u32,
            row: 0,
            number: first.number,
            suffix: first.suffix,
            airline: plan.airline,
            count: legs.len() as u8,
        };
        let Ok(()) = plan_legs(&mut self.legs, legs) else {
            return Err(Memory);
        };
        add_rows(&mut self.rows, &first_row, rows)
    }
}

fn is_wanted(row: &FlightRow, wanted: &Wanted) -> bool
    ensures { result ≡ is_wanted wanted.now row.now.number row.now.suffix }
{
    row.number == wanted.number && row.suffix == wanted.suffix
}

/// The legs of a flight.
fn legs_at<'a>(legs: &'a [PlannedLeg], row: &FlightRow) -> &'a [PlannedLeg]
    requires { row.now.start + row.now.count ≤ length legs.now }
    ensures { result.now ≡ legs_at legs.now row.now }
{
    let start = row.start as usize;
    &legs[start..start + usize::from(row.count)]
}

/// The legs of one row on their days.
fn dated_legs(legs: &[PlannedLeg], row: u16) -> DatedLegs
    requires few { length legs.now ≤ 8 }
    requires fit { All (λ leg. IsFit row leg.days) legs.now }
    ensures { result ≡ map (planned_on row) legs.now }
{
    let mut dated = DatedLegs::new();
    let mut at = InRound::of(row, 7);
    for planned in legs {
        at = at.among(planned.days.many);
        dated.push(DatedLeg {
            day: planned.days.day(&at),
            time: planned.time,
            board: planned.board,
            off: planned.off,
        });
    }
    dated
}

/// Adds what the dated legs of these are worked out from.
fn plan_legs(planned_legs: &mut Vec<PlannedLeg>, legs: &[Scheduled]) -> Result<(), Memory>
    ensures { OnOk result (ArePlanned planned_legs.old.items planned_legs.new.items legs.now) }
{
    for leg in legs {
        let Ok(()) = planned_legs.push(planned(leg)) else {
            return Err(Memory);
        };
    }
    Ok(())
}

fn planned(leg: &Scheduled) -> PlannedLeg
    ensures { IsPlanned leg.now result }
{
    PlannedLeg {
        days: leg.operations.locals(),
        time: leg.time,
        board: leg.leg.board,
        off: leg.leg.off,
    }
}

/// Adds a flight for each row.
fn add_rows(
    flight_rows: &mut Vec<FlightRow>,
    first_row: &FlightRow,
    rows: &RowRange,
) -> Result<(), Memory>
    requires { All (λ i. i < 65536) rows.now }
    ensures { OnOk result (flight_rows.new.items ≡ flight_rows.old.items ++ map (at_row first_row.now) rows.now) }
{
    for k in 0..rows.len() {
        let flight_row = at_row(first_row, rows.at(k) as u16);
        let Ok(()) = flight_rows.push(flight_row) else {
            return Err(Memory);
        };
    }
    Ok(())
}

/// The flight of another row.
fn at_row(flight_row: &FlightRow, row: u16) -> FlightRow
    ensures { result ≡ at_row flight_row.now row }
{
    FlightRow { row, ..*flight_row }
}
