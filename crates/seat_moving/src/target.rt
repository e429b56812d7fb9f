//! Where the bookings of a place go.
ghost use Rattle.std.specs.Prelude.{◌≡◌, Some};
ghost use Rattle.seat_moving.specs.Moving.{is_very, name_of, name_on, onto, target, target_by};

use airline_base::{Day, Place};
use ssim_flights::{Flight, Flights, Served, Wanted};

/// Where the bookings of a place go.
#[derive(Clone, Copy)]
pub enum Target {
    /// Nowhere: its first leg departed before today, by the local day there.
    Departed,
    /// Nowhere: no new flight serves what it serves, or its own flights serve that elsewhere.
    Lost,
    /// Onto this place of the new flights.
    Onto(Place),
}

/// What passengers call a place: its flight, the local day and the station of its first leg, and the station where its last one arrives. None where
/// the flights have no such place.
pub fn name_of(flights: &Flights, place: Place) -> Option<Wanted>
    ensures { result ≡ name_of flights.now place }
{
    if place.flight >= flights.len() {
        return None;
    }
    name_on(&flights.flight(place.flight), place)
}

fn name_on(flight: &Flight, place: Place) -> Option<Wanted>
    ensures { result ≡ name_on (Some flight.now) place }
{
    let first = flight.legs.as_slice().get(usize::from(place.from))?;
    let last = flight.legs.as_slice().get(usize::from(place.to))?;
    Some(Wanted {
        airline: flight.airline,
        number: flight.number,
        suffix: flight.suffix,
        day: first.day,
        board: first.board,
        off: last.off,
    })
}

/// Where the bookings of a place go, from flights of which each place is found by its name to others.
pub fn target_of(
    flights: &Flights,
    old: &Served<'_>,
    new: &Served<'_>,
    today: Day,
    place: Place,
) -> Target
    requires served { old.now ≡ flights.now }
    ensures { result ≡ target flights.now new.now today place }
{
    match name_of(flights, place) {
        Some(name) => target_by(old, new, today, place, &name),
        None => Target::Lost,
    }
}

fn target_by(old: &Served<'_>, new: &Served<'_>, today: Day, place: Place, name: &Wanted) -> Target
    ensures { result ≡ target_by old.now new.now today place (Some name.now) }
{
    if name.day.number() < today.number() {
        return Target::Departed;
    }
    if is_very(place, old.find(name)) {
        onto(new.find(name))
    } else {
        Target::Lost
    }
}

fn is_very(place: Place, found: Option<Place>) -> bool
    ensures { result ≡ is_very place found }
{
    match found {
        Some(found) => found == place,
        None => false,
    }
}

fn onto(found: Option<Place>) -> Target
    ensures { result ≡ onto found }
{
    match found {
        Some(place) => Target::Onto(place),
        None => Target::Lost,
    }
}
