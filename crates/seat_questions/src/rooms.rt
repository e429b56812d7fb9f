//! `rooms`: the seats that are left on each place of a flight after a journal.
ghost use Rattle.std.specs.Prelude.{◌≡◌, ◌++◌, ◌-◌, ◌<◌, ◌≤◌, [], IfOk, OnOk, drop, length};
ghost use Rattle.seat_nesting.specs.Nesting.{Fits, legs_of};
ghost use Rattle.seat_rules.specs.Inventory.{state_now};
ghost use Rattle.seat_desk.specs.FlightsDesk.{IsPut};
ghost use Rattle.seat_desk.specs.Loading.{IsGridOf};
ghost use Rattle.seat_questions.specs.Rooms.{IsAdded, IsFirstPart, IsLastPart, IsPlaceText, IsRoomsText, IsRunText, bar, bar_line, bar_share, bars_text, block_bar, closed_mark, filled, has_half, is_found, is_place, is_shown, is_unclosed, keeps, keeps_day, keeps_pair, leg_bars, none_closed, place_bars, plain_bar, room_text, rooms_part, rooms_text, run_of, times, wanted_of};

use airline_base::{Class, Day, Place, Station};
use seat_core::Core;
use seat_desk::{Standing, put, put_head, put_number, put_way};
use seat_nesting::Step;
use ssim_flights::{DatedLeg, Flight, Flights, Served, Wanted};
use std::alloc::{AllocError, Global};

/// Two stations: a board point and an off point.
#[derive(Clone, Copy)]
pub struct CityPair {
    pub board: Station,
    pub off: Station,
}

/// In which characters a bar is written.
#[derive(Clone, Copy)]
pub enum Bars {
    /// `#` for a full one and `.` for an empty one.
    Plain,
    /// U+2588 for a full one and U+00B7 for an empty one, in UTF-8.
    Blocks,
}

/// Which places are asked for, and in which form.
#[derive(Clone, Copy)]
pub struct RoomsOf {
    /// Those that depart on this local day of their first leg; else on each.
    pub day: Option<Day>,
    /// Those that run between these stations; else between any.
    pub pair: Option<CityPair>,
    /// Below each line of a place that is one leg, a bar for each class; else none.
    pub bars: Option<Bars>,
}

/// A line for each place that a request finds, by flight, first leg and last leg, with the seats that are left on it after the
/// journal in each class of its first leg.
impl Standing for RoomsOf {
    ghost use Rattle.seat_rules.specs.Journal.{replay};
    ghost use Rattle.seat_questions.specs.Rooms.{IsRoomsText};

    ghost tells = { λ asked flights grid entries text. IsRoomsText asked (replay grid entries) flights text };

    fn standing(
        &self,
        alloc: Global,
        flights: &Flights,
        core: &Core,
    ) -> Result<Vec<u8>, AllocError> {
        match Served::new(alloc, flights) {
            Ok(served) => text_over(alloc, flights, &served, core, self),
            Err(_) => Err(AllocError),
        }
    }
}

/// The text by the index of the flights' places.
#[tactic(auto, using(crate::proofs::RoomTexts::legs_alike))]
fn text_over(
    alloc: Global,
    flights: &Flights,
    served: &Served<'_>,
    core: &Core,
    asked: &RoomsOf,
) -> Result<Vec<u8>, AllocError>
    requires grid { IsGridOf flights.now core.now.grid }
    requires served { served.now ≡ flights.now }
    ensures { IfOk result (λ text. IsRoomsText asked.now (state_now core.now) flights.now text.items) }
{
    let mut text = Vec::new(alloc);
    for index in 0..flights.len() {
        put_flight(
            &mut text,
            served,
            core,
            asked,
            index,
            &flights.flight(index),
        )?;
    }
    Ok(text)
}

/// Adds the lines of the places of a flight.
fn put_flight(
    text: &mut Vec<u8>,
    served: &Served<'_>,
    core: &Core,
    asked: &RoomsOf,
    index: u32,
    flight: &Flight,
) -> Result<(), AllocError>
    requires few { length flight.now.legs ≤ 8 }
    requires legs { length (legs_of core.now.grid index) ≡ length flight.now.legs }
    ensures { OnOk result (IsPut (IsFirstPart served.now asked.now (state_now core.now) index flight.now) 0 flight.now.legs
        text.old.items text.new.items) }
{
    let legs = flight.legs.as_slice();
    for from in 0..legs.len() {
        let start = from as u8;
        let place = Place {
            flight: index,
            from: start,
            to: start,
        };
        put_runs(text, served, core, asked, flight, place, &legs[from])?;
    }
    Ok(())
}

/// Adds the lines of the places that begin with a leg.
fn put_runs(
    text: &mut Vec<u8>,
    served: &Served<'_>,
    core: &Core,
    asked: &RoomsOf,
    flight: &Flight,
    start: Place,
    first: &DatedLeg,
) -> Result<(), AllocError>
    requires few { length flight.now.legs ≤ 8 }
    requires legs { length (legs_of core.now.grid start.flight) ≡ length flight.now.legs }
    requires start { start.from < length flight.now.legs }
    ensures { OnOk result (IsPut
        (IsLastPart served.now asked.now (state_now core.now) start.flight flight.now start.from first.now)
        start.from (drop start.from flight.now.legs) text.old.items text.new.items) }
{
    let legs = flight.legs.as_slice();
    let rest = &legs[usize::from(start.from)..];
    for k in 0..rest.len() {
        let place = Place {
            flight: start.flight,
            from: start.from,
            to: start.from + k as u8,
        };
        let run = run_of(first, &rest[k]);
        put_run(text, served, core, asked, flight, place, &run)?;
    }
    Ok(())
}

/// A run of legs as one leg.
pub fn run_of(first: &DatedLeg, last: &DatedLeg) -> DatedLeg
    ensures { result ≡ run_of first.now last.now }
{
    DatedLeg {
        board: first.board,
        off: last.off,
        day: first.day,
        time: first.time,
    }
}

/// Adds the lines of a place, if it is shown.
#[tactic(auto, using(crate::proofs::RoomTexts::run_left, crate::proofs::RoomTexts::run_shown))]
fn put_run(
    text: &mut Vec<u8>,
    served: &Served<'_>,
    core: &Core,
    asked: &RoomsOf,
    flight: &Flight,
    place: Place,
    run: &DatedLeg,
) -> Result<(), AllocError>
    requires { Fits core.now.grid place }
    ensures { OnOk result (IsAdded (IsRunText served.now asked.now (state_now core.now) flight.now place run.now)
        text.old.items text.new.items) }
{
    if !is_shown(served, asked, flight, place, run) {
        return Ok(());
    }
    put_place(text, core, asked.bars, flight, place, run)
}

/// Whether a place is kept, and a request finds it.
pub fn is_shown(
    served: &Served<'_>,
    asked: &RoomsOf,
    flight: &Flight,
    place: Place,
    run: &DatedLeg,
) -> bool
    ensures { result ≡ is_shown served.now asked.now flight.now place run.now }
{
    keeps(asked, run) && is_found(served, flight, place, run)
}

/// Whether a request for a place's own designator, day and stations is answered from this very place.
pub fn is_found(served: &Served<'_>, flight: &Flight, place: Place, run: &DatedLeg) -> bool
    ensures { result ≡ is_found served.now flight.now place run.now }
{
    is_place(place, served.find(&wanted_of(flight, run)))
}

/// What a request for a run of legs names.
fn wanted_of(flight: &Flight, run: &DatedLeg) -> Wanted
    ensures { result ≡ wanted_of flight.now run.now }
{
    Wanted {
        airline: flight.airline,
        number: flight.number,
        suffix: flight.suffix,
        day: run.day,
        board: run.board,
        off: run.off,
    }
}

fn is_place(place: Place, found: Option<Place>) -> bool
    ensures { result ≡ is_place place found }
{
    match found {
        Some(other) => {
            other.flight == place.flight && other.from == place.from && other.to == place.to
        }
        None => false,
    }
}

/// Whether a run of legs is asked for.
fn keeps(asked: &RoomsOf, run: &DatedLeg) -> bool
    ensures { result ≡ keeps asked.now run.now }
{
    keeps_day(asked.day, run.day) && keeps_pair(asked.pair, run)
}

/// Whether a day is asked for.
pub fn keeps_day(asked: Option<Day>, day: Day) -> bool
    ensures { result ≡ keeps_day asked day }
{
    match asked {
        Some(asked) => day == asked,
        None => true,
    }
}

/// Whether the stations of a run are asked for.
pub fn keeps_pair(asked: Option<CityPair>, run: &DatedLeg) -> bool
    ensures { result ≡ keeps_pair asked run.now }
{
    match asked {
        Some(pair) => run.board == pair.board && run.off == pair.off,
        None => true,
    }
}

/// Adds the line of a place, and the bars below it.
#[tactic(auto, using(crate::proofs::RoomTexts::place_added))]
fn put_place(
    text: &mut Vec<u8>,
    core: &Core,
    bars: Option<Bars>,
    flight: &Flight,
    place: Place,
    run: &DatedLeg,
) -> Result<(), AllocError>
    requires { Fits core.now.grid place }
    ensures { OnOk result (IsAdded (IsPlaceText bars (state_now core.now) flight.now place run.now) text.old.items
        text.new.items) }
{
    put_head(text, place.flight, flight)?;
    put_way(text, run)?;
    put_room_list(text, core, place)?;
    put(text, b"\n")?;
    put_bars(text, core, bars, place)
}

/// Adds ROOM and the rooms.
fn put_room_list(text: &mut Vec<u8>, core: &Core, place: Place) -> Result<(), AllocError>
    requires { Fits core.now.grid place }
    ensures { OnOk result (text.new.items ≡ text.old.items ++ rooms_part (state_now core.now) place) }
{
    put(text, b" ROOM")?;
    put_rooms(text, core, place)
}

/// Adds the room of each class of the place's first leg.
fn put_rooms(text: &mut Vec<u8>, core: &Core, place: Place) -> Result<(), AllocError>
    requires { Fits core.now.grid place }
    ensures { OnOk result (text.new.items ≡ text.old.items ++ rooms_text (state_now core.now) place) }
{
    let steps = core.steps(place.flight, place.from);
    for step in steps {
        put_room(text, core, place, step)?;
    }
    Ok(())
}

fn put_room(text: &mut Vec<u8>, core: &Core, place: Place, step: &Step) -> Result<(), AllocError>
    requires { Fits core.now.grid place }
    ensures { OnOk result (text.new.items ≡ text.old.items ++ room_text (state_now core.now) place step.now) }
{
    put(text, b" ")?;
    put(text, &[step.class.letter()])?;
    put_number(text, u64::from(core.room(place, step.class)))?;
    put(text, closed_mark(none_closed(core, place, step.class)))
}

/// The mark behind the room of a class, where the class is closed.
fn closed_mark(unclosed: bool) -> &'static [u8]
    ensures { result.now ≡ closed_mark unclosed }
{
    if unclosed { b"" } else { b"C" }
}

/// Whether a class is closed on no leg of a place.
fn none_closed(core: &Core, place: Place, class: Class) -> bool
    requires { place.from ≤ place.to }
    ensures { result ≡ none_closed (state_now core.now).grid place class }
{
    let flight = place.flight;
    let mut all = is_unclosed(core.steps(flight, place.from), class);
    for leg in place.from..place.to {
        let here = is_unclosed(core.steps(flight, leg + 1), class);
        all = all && here;
    }
    all
}

/// Whether a class is not closed on a leg with these steps; it may be missing there.
fn is_unclosed(steps: &[Step], class: Class) -> bool
    ensures { result ≡ is_unclosed steps.now class }
{
    for step in steps {
        if step.class == class {
            return !step.closed;
        }
    }
    true
}

/// Adds the bars of a place, where it is one leg and they are asked for.
pub fn put_bars(
    text: &mut Vec<u8>,
    core: &Core,
    bars: Option<Bars>,
    place: Place,
) -> Result<(), AllocError>
    ensures { OnOk result (text.new.items ≡ text.old.items ++ bars_text bars (state_now core.now) place) }
{
    match bars {
        Some(bars) => put_bars_at(text, core, bars, place),
        None => put(text, &[]),
    }
}

fn put_bars_at(text: &mut Vec<u8>, core: &Core, bars: Bars, place: Place) -> Result<(), AllocError>
    ensures { OnOk result (text.new.items ≡ text.old.items ++ place_bars bars (state_now core.now) place) }
{
    if place.from == place.to {
        put_leg_bars(text, core, bars, place.flight, place.from)
    } else {
        put(text, &[])
    }
}

/// Adds the bar of each rank of a leg, from the highest down.
#[tactic(auto, using(crate::proofs::RoomTexts::rank_put))]
fn put_leg_bars(
    text: &mut Vec<u8>,
    core: &Core,
    bars: Bars,
    flight: u32,
    leg: u8,
) -> Result<(), AllocError>
    ensures { OnOk result (text.new.items ≡ text.old.items ++ leg_bars bars (state_now core.now) flight leg) }
{
    let steps = core.steps(flight, leg);
    for i in 0..steps.len() {
        let seats = core.held_from(flight, leg, i);
        put_bar(text, bars, steps[i].class, seats, steps[i].limit)?;
    }
    Ok(())
}

/// Adds the bar of a class, and its seats that are held of its limit.
fn put_bar(
    text: &mut Vec<u8>,
    bars: Bars,
    class: Class,
    held: u16,
    limit: u16,
) -> Result<(), AllocError>
    ensures { OnOk result (text.new.items ≡ text.old.items ++ bar_line bars class held limit) }
{
    put(text, &[class.letter()])?;
    put(text, b" ")?;
    put_marks(text, bars, filled(held, limit), has_half(held, limit))?;
    put_share(text, held, limit)
}

fn put_share(text: &mut Vec<u8>, held: u16, limit: u16) -> Result<(), AllocError>
    ensures { OnOk result (text.new.items ≡ text.old.items ++ bar_share held limit) }
{
    put(text, b" ")?;
    put_number(text, u64::from(held))?;
    put(text, b"/")?;
    put_number(text, u64::from(limit))?;
    put(text, b"\n")
}

/// How many of the 20 characters of a bar stand for seats that are held.
fn filled(held: u16, limit: u16) -> u32
    ensures { result ≡ filled held limit }
{
    if limit == 0 {
        return 0;
    }
    u32::from(held) * 20 / u32::from(limit)
}

/// Whether at least half of a character's worth is left over behind those.
fn has_half(held: u16, limit: u16) -> bool
    ensures { result ≡ has_half held limit }
{
    if limit == 0 {
        return false;
    }
    u32::from(limit) <= u32::from(held) * 20 % u32::from(limit) * 2
}

/// Adds a bar of which so many characters are full, and one half full where that can be shown.
fn put_marks(text: &mut Vec<u8>, bars: Bars, full: u32, half: bool) -> Result<(), AllocError>
    ensures { OnOk result (text.new.items ≡ text.old.items ++ bar bars full half) }
{
    match bars {
        Bars::Plain => put_plain(text, full),
        Bars::Blocks => put_blocks(text, full, half),
    }
}

fn put_plain(text: &mut Vec<u8>, full: u32) -> Result<(), AllocError>
    ensures { OnOk result (text.new.items ≡ text.old.items ++ plain_bar full) }
{
    put_times(text, full, b"#")?;
    put_times(text, left(20, full), b".")
}

#[tactic(auto, using(crate::proofs::RoomTexts::half_put, crate::proofs::RoomTexts::whole_put))]
fn put_blocks(text: &mut Vec<u8>, full: u32, half: bool) -> Result<(), AllocError>
    ensures { OnOk result (text.new.items ≡ text.old.items ++ block_bar full half) }
{
    put_times(text, full, b"\xE2\x96\x88")?;
    if half {
        put(text, b"\xE2\x96\x8C")?;
        put_times(text, left(19, full), b"\xC2\xB7")?;
    } else {
        put_times(text, left(20, full), b"\xC2\xB7")?;
    }
    Ok(())
}

/// How many of so many characters are left.
fn left(most: u32, count: u32) -> u32
    ensures { result ≡ most - count }
{
    if count < most { most - count } else { 0 }
}

#[tactic(auto, using(crate::proofs::RoomTexts::times_more))]
fn put_times(text: &mut Vec<u8>, count: u32, bytes: &[u8]) -> Result<(), AllocError>
    ensures { OnOk result (text.new.items ≡ text.old.items ++ times count bytes.now) }
{
    for i in 0..count {
        let _ = i;
        put(text, bytes)?;
    }
    Ok(())
}
