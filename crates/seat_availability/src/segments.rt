//! The segments of a horizon, and the message of each.
//! It knows no text, and nothing of what a partner was told before.
ghost use Rattle.std.specs.Prelude.{◌≡◌, ◌++◌, ◌∷◌, ◌≤◌, ◌<◌, [], IfOk, OnOk, drop, length, map};
ghost use Rattle.seat_nesting.specs.Nesting.{Fits, legs_of};
ghost use Rattle.seat_rules.specs.Inventory.{state_now};
ghost use Rattle.seat_desk.specs.AuditDesk.{most_lines};
ghost use Rattle.seat_desk.specs.Loading.{IsGridOf};
ghost use Rattle.seat_availability.specs.Messages.{message_of, messages, rooms_asked, seats_told, segment_in, segment_of, segments_from, segments_of_flight, segments_of_legs, segments_of_run};

use crate::partner::{Threshold, threshold_of};
use crate::statuses::{Status, status_at};
use airline_base::{Class, Day, Place};
use seat_core::Core;
use seat_lists::{Designator, keeps_flight};
use seat_nesting::Step;
use seat_questions::{RoomsOf, is_shown, run_of};
use ssim_flights::{DatedLeg, Flight, Flights, Served};
use std::alloc::{AllocError, Global};

/// A class on a city pair of a flight, on the local day on which it leaves the board point.
#[derive(Clone, Copy)]
pub struct Segment {
    /// The flight's index and legs.
    pub place: Place,
    pub name: Designator,
    /// The board point and the day of the first leg, and the off point of the last.
    pub run: DatedLeg,
    pub class: Class,
}

/// What a partner is told of a segment.
#[derive(Clone, Copy)]
pub struct Message {
    pub segment: Segment,
    pub status: Status,
    /// How many seats are for sale: 1 to 8, and 9 for nine or more; 0 where none are told.
    pub seats: u16,
}

/// Which segments are asked for, and how they are told.
#[derive(Clone, Copy)]
pub struct Asked<'a> {
    /// Those of flights of this name; else of any.
    pub flight: Option<Designator>,
    /// Those that depart on this local day of their first leg; else on each.
    pub day: Option<Day>,
    /// The rooms that this partner counts as none.
    pub partner: &'a [Threshold],
    /// How many seats are for sale is told, too.
    pub numeric: bool,
}

/// A message for each segment that a request finds and that is asked for: by flight, first leg, last leg and class, the classes as the first leg's
/// limits have them.
#[tactic(auto, using(seat_questions::proofs::RoomTexts::legs_alike))]
pub fn messages(
    alloc: Global,
    flights: &Flights,
    served: &Served<'_>,
    core: &Core,
    asked: &Asked<'_>,
) -> Result<Vec<Message>, AllocError>
    requires grid { IsGridOf flights.now core.now.grid }
    requires served { served.now ≡ flights.now }
    requires capped { core.now.cap ≤ most_lines }
    ensures { IfOk result (λ all. all.items ≡ messages asked.now flights.now core.now.grid (state_now core.now)) }
{
    let mut all = Vec::new(alloc);
    for index in 0..flights.len() {
        add_flight(&mut all, served, core, asked, index, &flights.flight(index))?;
    }
    Ok(all)
}

/// Adds those of a flight, if it is asked for.
#[tactic(auto, using(crate::proofs::Adding::flight_left, crate::proofs::Adding::flight_kept))]
fn add_flight(
    all: &mut Vec<Message>,
    served: &Served<'_>,
    core: &Core,
    asked: &Asked<'_>,
    index: u32,
    flight: &Flight,
) -> Result<(), AllocError>
    requires capped { core.now.cap ≤ most_lines }
    requires few { length flight.now.legs ≤ 8 }
    requires legs { length (legs_of core.now.grid index) ≡ length flight.now.legs }
    ensures { OnOk result (all.new.items ≡ all.old.items ++ map (message_of asked.now (state_now core.now))
        (segments_of_flight served.now asked.now core.now.grid index flight.now)) }
{
    if !keeps_flight(asked.flight, flight) {
        return Ok(());
    }
    add_legs(all, served, core, asked, index, flight)
}

/// Adds those that begin with any leg of a flight.
fn add_legs(
    all: &mut Vec<Message>,
    served: &Served<'_>,
    core: &Core,
    asked: &Asked<'_>,
    index: u32,
    flight: &Flight,
) -> Result<(), AllocError>
    requires capped { core.now.cap ≤ most_lines }
    requires few { length flight.now.legs ≤ 8 }
    requires legs { length (legs_of core.now.grid index) ≡ length flight.now.legs }
    ensures { OnOk result (all.new.items ≡ all.old.items ++ map (message_of asked.now (state_now core.now))
        (segments_of_legs served.now asked.now core.now.grid index flight.now)) }
{
    let legs = flight.legs.as_slice();
    for from in 0..legs.len() {
        let start = from as u8;
        let place = Place {
            flight: index,
            from: start,
            to: start,
        };
        add_runs(all, served, core, asked, flight, place, &legs[from])?;
    }
    Ok(())
}

/// Adds those that begin with a leg.
fn add_runs(
    all: &mut Vec<Message>,
    served: &Served<'_>,
    core: &Core,
    asked: &Asked<'_>,
    flight: &Flight,
    start: Place,
    first: &DatedLeg,
) -> Result<(), AllocError>
    requires capped { core.now.cap ≤ most_lines }
    requires few { length flight.now.legs ≤ 8 }
    requires legs { length (legs_of core.now.grid start.flight) ≡ length flight.now.legs }
    requires start { start.from < length flight.now.legs }
    ensures { OnOk result (all.new.items ≡ all.old.items ++ map (message_of asked.now (state_now core.now))
        (segments_from served.now asked.now core.now.grid start.flight flight.now start.from first.now)) }
{
    let legs = flight.legs.as_slice();
    let rest = &legs[usize::from(start.from)..];
    for k in 0..rest.len() {
        let place = Place {
            flight: start.flight,
            from: start.from,
            to: start.from + k as u8,
        };
        let run = run_of(first, &rest[k]);
        add_run(all, served, core, asked, flight, place, &run)?;
    }
    Ok(())
}

/// Adds those of a place, if it is asked for and a request finds it.
#[tactic(auto, using(crate::proofs::Adding::run_left, crate::proofs::Adding::run_kept))]
fn add_run(
    all: &mut Vec<Message>,
    served: &Served<'_>,
    core: &Core,
    asked: &Asked<'_>,
    flight: &Flight,
    place: Place,
    run: &DatedLeg,
) -> Result<(), AllocError>
    requires capped { core.now.cap ≤ most_lines }
    requires fits { Fits core.now.grid place }
    ensures { OnOk result (all.new.items ≡ all.old.items ++ map (message_of asked.now (state_now core.now))
        (segments_of_run served.now asked.now core.now.grid flight.now place run.now)) }
{
    if !is_shown(served, &rooms_asked(asked), flight, place, run) {
        return Ok(());
    }
    let steps = core.grid().steps(place.flight, place.from);
    add_classes(all, core, asked, flight, place, run, steps)
}

/// Which places are asked for.
fn rooms_asked(asked: &Asked<'_>) -> RoomsOf
    ensures { result ≡ rooms_asked asked.now }
{
    RoomsOf {
        day: asked.day,
        pair: None,
        bars: None,
    }
}

/// Adds that of each class of a place.
#[tactic(auto, using(crate::proofs::Adding::one_more, crate::proofs::Adding::each_whole))]
fn add_classes(
    all: &mut Vec<Message>,
    core: &Core,
    asked: &Asked<'_>,
    flight: &Flight,
    place: Place,
    run: &DatedLeg,
    steps: &[Step],
) -> Result<(), AllocError>
    requires capped { core.now.cap ≤ most_lines }
    requires fits { Fits core.now.grid place }
    ensures { OnOk result (all.new.items ≡ all.old.items ++ map (message_of asked.now (state_now core.now))
        (map (segment_of flight.now place run.now) steps.now)) }
{
    for i in 0..steps.len() {
        let segment = segment_of(flight, place, run, steps[i].class);
        add_message(all, message_of(core, asked, segment))?;
    }
    Ok(())
}

fn add_message(all: &mut Vec<Message>, message: Message) -> Result<(), AllocError>
    ensures { OnOk result (all.new.items ≡ all.old.items ++ message ∷ []) }
{
    let _place: Option<Place> = None;
    let _name: Option<Designator> = None;
    let _run: Option<DatedLeg> = None;
    let _class: Option<Class> = None;
    all.push(message)?;
    Ok(())
}

/// A class of a place.
fn segment_of(flight: &Flight, place: Place, run: &DatedLeg, class: Class) -> Segment
    ensures { result ≡ segment_in flight.now place run.now class }
{
    Segment {
        place,
        name: Designator {
            airline: flight.airline,
            number: flight.number,
            suffix: flight.suffix,
        },
        run: *run,
        class,
    }
}

/// What is told of a segment.
fn message_of(core: &Core, asked: &Asked<'_>, segment: Segment) -> Message
    requires capped { core.now.cap ≤ most_lines }
    requires fits { Fits core.now.grid segment.place }
    ensures { result ≡ message_of asked.now (state_now core.now) segment }
{
    let (place, class) = (segment.place, segment.class);
    let room = core.room(place, class);
    let status = status_at(core, place, class, threshold_of(asked.partner, class), room);
    Message {
        segment,
        status,
        seats: seats_told(asked.numeric, status, room),
    }
}

/// How many seats are told of so much room.
fn seats_told(numeric: bool, status: Status, room: u16) -> u16
    ensures { result ≡ seats_told numeric status room }
{
    match status {
        Status::Open => { if numeric { room.min(9) } else { 0 } }
        Status::ListOpen | Status::Closed | Status::NotOperated => 0,
    }
}
