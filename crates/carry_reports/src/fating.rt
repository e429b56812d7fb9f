//! What became of live bookings.
//! It knows no text.
ghost use Rattle.std.specs.Prelude.{◌≡◌, ◌+◌, ◌++◌, ◌∷◌, [], IfOk, OnOk, slice_get};
ghost use Rattle.seat_rules.specs.Flights.{bookings_on};
ghost use Rattle.seat_rules.specs.Inventory.{state_now};
ghost use Rattle.season_changes.specs.Differing.{same_legs, times_differ};
ghost use Rattle.carry_reports.specs.Fates.{asked_fate, fate_by, fates, has_changed, is_elsewhere, is_other_name, legs_between, legs_by, next_of, outcome_in, outcome_of, unasked_fate};

use airline_base::{Class, Day, Memory, Place};
use carry_order::Numbered;
use season_changes::{same_legs, times_differ};
use seat_core::Core;
use seat_moving::{Target, name_of, target_of};
use seat_rules::{Booking, Status};
use ssim_flights::{DatedLeg, Flight, Flights, Served, Wanted};
use std::alloc::Global;

/// What live bookings were carried from and to.
#[derive(Clone, Copy)]
pub struct Carried<'a> {
    /// The flights of the old season, which `old` serves.
    pub olds: &'a Flights,
    pub old: &'a Served<'a>,
    /// Those of the new season, which `new` serves.
    pub news: &'a Flights,
    pub new: &'a Served<'a>,
    /// Who departed before this day was not asked for.
    pub today: Day,
    /// The live bookings that were asked for, on their new places, in order of their old numbers.
    pub asked: &'a [Numbered],
    /// The new inventory.
    pub after: &'a Core,
}

/// What a live booking is in the new inventory.
#[derive(Clone, Copy)]
pub enum Outcome {
    Held,
    Waiting,
    /// It is there no more: it found no room, and none to wait.
    Refused,
}

/// A live booking that was asked for.
#[derive(Clone, Copy)]
pub struct Asked {
    /// The line of the new journal that asked for it: its new number.
    pub line: u32,
    /// Its place on the new flights.
    pub place: Place,
    /// Its class there.
    pub class: Class,
    /// Whether passengers call that place otherwise than its old one: it went there by a row, from a flight or a day to another.
    pub elsewhere: bool,
    /// Whether that is so, or its class is another, or the legs of that place are others than those of its old one: their stations, their order, their
    /// local days or the local times at which they depart.
    pub changed: bool,
    pub outcome: Outcome,
}

/// What became of a live booking.
#[derive(Clone, Copy)]
pub enum Fate {
    /// Its first leg departed before today.
    Departed,
    /// No new flight serves what it serves.
    Unserved,
    /// The new flight doesn't sell its class.
    Unsold,
    Asked(Asked),
}

/// A live booking, and what became of it.
#[derive(Clone, Copy)]
pub struct Fated {
    pub booking: Booking,
    pub fate: Fate,
}

/// What became of each of these live bookings, which are in order of number.
#[tactic(auto, using(crate::proofs::FateTurns::first_so_far, crate::proofs::FateTurns::all_of_them))]
pub fn fates(alloc: Global, carried: &Carried<'_>, live: &[Booking]) -> Result<Vec<Fated>, Memory>
    requires old { carried.now.old.now ≡ carried.now.olds.now }
    ensures { IfOk result (λ all. all.items ≡ fates carried.now live.now) }
{
    let mut all = Vec::new(alloc);
    let mut rest = carried.asked;
    for booking in live {
        let (next, behind) = next_of(rest, booking);
        let fate = fate_by(carried, next, booking);
        rest = behind;
        push(
            &mut all,
            Fated {
                booking: *booking,
                fate,
            },
        )?;
    }
    Ok(all)
}

fn push(all: &mut Vec<Fated>, fated: Fated) -> Result<(), Memory>
    ensures { OnOk result (all.new.items ≡ all.old.items ++ fated ∷ []) }
{
    let _booking: Booking = fated.booking;
    let _fate: Fate = fated.fate;
    let _asked: Option<Asked> = None;
    let _class: Option<Class> = None;
    match all.push(fated) {
        Ok(()) => Ok(()),
        Err(_) => Err(Memory),
    }
}

/// What became of the next of those that were asked for where it is this booking, or of one that was not asked for.
fn fate_by(carried: &Carried<'_>, next: Option<Numbered>, booking: &Booking) -> Fate
    requires old { carried.now.old.now ≡ carried.now.olds.now }
    ensures { result ≡ fate_by carried.now booking.now next }
{
    match next {
        Some(numbered) => asked_fate(carried, &numbered, booking),
        None => unasked_fate(carried, booking),
    }
}

/// The next of those that were asked for, where it is this booking, and those behind it.
fn next_of<'a>(rest: &'a [Numbered], booking: &Booking) -> (Option<Numbered>, &'a [Numbered])
    ensures next { result.0 ≡ (next_of booking.now rest.now).0 }
    ensures behind { result.1.now ≡ (next_of booking.now rest.now).1 }
{
    let _booking: Option<Booking> = None;
    match rest {
        [] => (None, rest),
        [numbered, behind @ ..] => {
            if numbered.owned.booking.number == booking.number {
                (Some(*numbered), behind)
            } else {
                (None, rest)
            }
        }
    }
}

fn asked_fate(carried: &Carried<'_>, numbered: &Numbered, booking: &Booking) -> Fate
    ensures { result ≡ asked_fate carried.now booking.now numbered.now }
{
    let line = numbered.line;
    let place = numbered.owned.booking.place;
    let class = numbered.owned.booking.class;
    let elsewhere = is_elsewhere(carried, booking.place, place);
    Fate::Asked(Asked {
        line,
        place,
        class,
        elsewhere,
        changed: elsewhere || class != booking.class || has_changed(carried, booking.place, place),
        outcome: outcome_in(line, carried.after.bookings_on(place.flight)),
    })
}

fn unasked_fate(carried: &Carried<'_>, booking: &Booking) -> Fate
    requires old { carried.now.old.now ≡ carried.now.olds.now }
    ensures { result ≡ unasked_fate carried.now booking.now }
{
    match target_of(
        carried.olds,
        carried.old,
        carried.new,
        carried.today,
        booking.place,
    ) {
        Target::Departed => Fate::Departed,
        Target::Lost => Fate::Unserved,
        Target::Onto(_) => Fate::Unsold,
    }
}

/// What the booking of this number is among these.
fn outcome_in(number: u32, bookings: &[Booking]) -> Outcome
    ensures { result ≡ outcome_in number bookings.now }
{
    for booking in bookings {
        if booking.number == number {
            return outcome_of(booking.status);
        }
    }
    Outcome::Refused
}

fn outcome_of(status: Status) -> Outcome
    ensures { result ≡ outcome_of status }
{
    match status {
        Status::Held => Outcome::Held,
        Status::Waiting => Outcome::Waiting,
    }
}

/// Whether passengers call a place of the new flights otherwise than one of the old ones.
fn is_elsewhere(carried: &Carried<'_>, old: Place, new: Place) -> bool
    ensures { result ≡ is_elsewhere carried.now old new }
{
    is_other_name(name_of(carried.olds, old), name_of(carried.news, new))
}

fn is_other_name(old: Option<Wanted>, new: Option<Wanted>) -> bool
    ensures { result ≡ is_other_name old new }
{
    match old {
        None => true,
        Some(old) => match new {
            None => true,
            Some(new) => old != new,
        },
    }
}

/// Whether a place of the new flights has other legs than one of the old ones, or one of its legs departs at another time.
fn has_changed(carried: &Carried<'_>, old: Place, new: Place) -> bool
    ensures { result ≡ has_changed carried.now old new }
{
    let (was, is) = (
        flight_at(carried.olds, old.flight),
        flight_at(carried.news, new.flight),
    );
    let (legs, others) = (legs_on(&was, old), legs_on(&is, new));
    !same_legs(legs, others) || times_differ(legs, others)
}

/// The flight of this number; none where it is not there.
fn flight_at(flights: &Flights, number: u32) -> Option<Flight>
    ensures { result ≡ slice_get flights.now number }
{
    if number < flights.len() {
        Some(flights.flight(number))
    } else {
        None
    }
}

/// The legs of a place on its flight; none where the flight has no such place.
fn legs_on(flight: &Option<Flight>, place: Place) -> &[DatedLeg]
    ensures { result.now ≡ legs_between place.from (place.to + 1) (legs_by flight.now) }
{
    let Some(flight) = flight else {
        return &[];
    };
    let legs = flight.legs.as_slice();
    let (from, end) = (usize::from(place.from), usize::from(place.to) + 1);
    if end <= from || legs.len() < end {
        return &[];
    }
    &legs[from..end]
}
