//! Live bookings on their new places, of which rows say where some go.
//! It knows who owns a booking; no limit.
ghost use Rattle.std.specs.Prelude.{◌≡◌, ◌++◌, IfOk, OnOk, option_to_list};
ghost use Rattle.seat_moving.specs.Moving.{session_of};
ghost use Rattle.carry_protections.specs.Going.{class_onto, goes, goes_by, moved_under, protected};

use crate::by_place::Courses;
use crate::course::Course;
use crate::row::ClassPair;
use airline_base::{Class, Day, Memory, Place};
use seat_carrying::Owned;
use seat_journal::Entry;
use seat_moving::{Target, target_of};
use seat_rules::Booking;
use ssim_flights::{Flights, Served};
use std::alloc::Global;

/// Live bookings that a journal made on flights, each with the session that made it, in their order: those of a place that has a course where it goes, and
/// each other on its place of the new flights. Those that departed before today are left out, and others that no new flight serves.
pub fn moved_under(
    alloc: Global,
    courses: &Courses,
    journal: &[Entry],
    flights: &Flights,
    old: &Served<'_>,
    new: &Served<'_>,
    today: Day,
    live: &[Booking],
) -> Result<Vec<Owned>, Memory>
    requires served { old.now ≡ flights.now }
    ensures { IfOk result (λ owned. owned.items ≡ moved_under courses.now journal.now flights.now new.now today live.now) }
{
    let mut all = Vec::new(alloc);
    for booking in live {
        add(
            &mut all,
            goes(courses, journal, flights, old, new, today, booking),
        )?;
    }
    Ok(all)
}

fn add(all: &mut Vec<Owned>, gone: Option<Owned>) -> Result<(), Memory>
    ensures { OnOk result (all.new.items ≡ all.old.items ++ option_to_list gone) }
{
    let Some(owned) = gone else {
        return Ok(());
    };
    let _booking: Booking = owned.booking;
    match all.push(owned) {
        Ok(()) => Ok(()),
        Err(_) => Err(Memory),
    }
}

/// A booking where it goes, if it goes anywhere.
pub(crate) fn goes(
    courses: &Courses,
    journal: &[Entry],
    flights: &Flights,
    old: &Served<'_>,
    new: &Served<'_>,
    today: Day,
    booking: &Booking,
) -> Option<Owned>
    requires served { old.now ≡ flights.now }
    ensures { result ≡ goes courses.now journal.now flights.now new.now today booking.now }
{
    let target = target_of(flights, old, new, today, booking.place);
    let session = session_of(journal, booking);
    match courses.course(booking.place) {
        Some(course) => goes_by(session, booking, course, target),
        None => match target {
            Target::Onto(place) => Some(Owned {
                session,
                booking: Booking { place, ..*booking },
            }),
            Target::Departed | Target::Lost => None,
        },
    }
}

/// A booking of a place that has a course.
fn goes_by(session: u8, booking: &Booking, course: &Course, target: Target) -> Option<Owned>
    ensures { result ≡ goes_by session booking.now course.now target }
{
    match target {
        Target::Departed => None,
        Target::Lost | Target::Onto(_) => Some(Owned {
            session,
            booking: protected(course, booking),
        }),
    }
}

/// A booking on the place of a course, in the class onto which its own goes.
fn protected(course: &Course, booking: &Booking) -> Booking
    ensures { result ≡ protected course.now booking.now }
{
    Booking {
        place: course.to,
        class: class_onto(course.classes.as_slice(), booking.class),
        ..*booking
    }
}

/// The class onto which one goes: another where a pair says so, and else itself.
fn class_onto(pairs: &[ClassPair], class: Class) -> Class
    ensures { result ≡ class_onto pairs.now class }
{
    for pair in pairs {
        if pair.old == class {
            return pair.new;
        }
    }
    class
}

/// The session of the line that made a booking; 0 where there is no such line.
fn session_of(journal: &[Entry], booking: &Booking) -> u8
    ensures { result ≡ session_of journal.now booking.now }
{
    match journal.get(booking.number.saturating_sub(1) as usize) {
        Some(line) => line.session,
        None => 0,
    }
}
