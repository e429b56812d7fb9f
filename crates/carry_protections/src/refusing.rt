//! Which rows can't be followed: where a class is not sold, and where a locator has a booking already.
//! It knows where bookings go, and no row's text.
ghost use Rattle.std.specs.Prelude.{◌≡◌, if◌then◌else◌};
ghost use Rattle.carry_protections.specs.Refusing.{has_for, has_twice, is_twice, lacking, lacks, lacks_at};

use crate::by_place::Courses;
use crate::going::goes;
use airline_base::{Day, Place};
use carry_lines::is_carriable;
use seat_carrying::Owned;
use seat_journal::Entry;
use seat_nesting::Grid;
use seat_rules::Booking;
use ssim_flights::{Flights, Served};

/// The line of the row by which the first of these live bookings goes where its class is not sold, if there is one.
pub fn lacking(
    courses: &Courses,
    journal: &[Entry],
    flights: &Flights,
    old: &Served<'_>,
    new: &Served<'_>,
    today: Day,
    file: &Grid,
    live: &[Booking],
) -> Option<u32>
    requires served { old.now ≡ flights.now }
    ensures { result ≡ lacking courses.now journal.now flights.now new.now today file.now live.now }
{
    for booking in live {
        let here = lacks(courses, journal, flights, old, new, today, file, booking);
        if here.is_some() {
            return here;
        }
    }
    None
}

fn lacks(
    courses: &Courses,
    journal: &[Entry],
    flights: &Flights,
    old: &Served<'_>,
    new: &Served<'_>,
    today: Day,
    file: &Grid,
    booking: &Booking,
) -> Option<u32>
    requires served { old.now ≡ flights.now }
    ensures { result ≡ lacks courses.now journal.now flights.now new.now today file.now booking.now }
{
    match courses.course(booking.place) {
        Some(course) => {
            let gone = goes(courses, journal, flights, old, new, today, booking);
            lacks_at(course.line, file, gone)
        }
        None => None,
    }
}

fn lacks_at(line: u32, file: &Grid, gone: Option<Owned>) -> Option<u32>
    ensures { result ≡ lacks_at line file.now gone }
{
    match gone {
        Some(owned) => {
            if is_carriable(file, &owned) {
                None
            } else {
                Some(line)
            }
        }
        None => None,
    }
}

/// Whether two of these bookings are on a place, of one locator and in one class.
pub fn has_twice(place: Place, bookings: &[Booking]) -> bool
    ensures { result ≡ has_twice place bookings.now }
{
    let mut rest = bookings;
    while let [booking, behind @ ..] = rest {
        if is_twice(place, booking, behind) {
            return true;
        }
        rest = behind;
    }
    false
}

fn is_twice(place: Place, booking: &Booking, behind: &[Booking]) -> bool
    ensures { result ≡ is_twice place booking.now behind.now }
{
    booking.place == place && has_for(booking, behind)
}

fn has_for(booking: &Booking, behind: &[Booking]) -> bool
    ensures { result ≡ has_for booking.now behind.now }
{
    for other in behind {
        if other.is_for(booking.locator, booking.place, booking.class) {
            return true;
        }
    }
    false
}
