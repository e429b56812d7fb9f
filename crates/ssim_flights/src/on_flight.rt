//! The first place on a flight by what is asked for.
ghost use Rattle.std.specs.Prelude.{◌≡◌, ◌+◌, ◌≤◌, length};
ghost use Rattle.std.specs.Map.{lookup};
ghost use Rattle.ssim_flights.specs.Places.{ends_from, places_from, same_wanted};
ghost use Rattle.ssim_flights.specs.Slots.{departs, place_on};

use crate::flight::{DatedLeg, Flight, Wanted};
use crate::flights::Flights;
use airline_base::Place;

/// The first place on a flight that serves what is wanted.
#[tactic(auto, using(crate::proofs::FirstPlaces::named_inside, crate::proofs::FirstPlaces::other_name, crate::proofs::FirstPlaces::known_place))]
pub(crate) fn place_on(flights: &Flights, n: u32, wanted: &Wanted) -> Option<Place>
    ensures { result ≡ place_on flights.now n wanted.now }
{
    if !flights.is_named(n, wanted) {
        return None;
    }
    let flight = flights.flight(n);
    place_from(&flight, n, 0, flight.legs.as_slice(), wanted)
}

/// The first place that begins with one of the last legs of a flight.
fn place_from(
    flight: &Flight,
    n: u32,
    from: u8,
    legs: &[DatedLeg],
    wanted: &Wanted,
) -> Option<Place>
    requires { from + length legs.now ≤ 8 }
    ensures { result
        ≡ lookup (λ w. same_wanted w wanted.now) (places_from flight.now n from legs.now) }
{
    let (first, rest) = legs.split_first()?;
    let place = Place {
        flight: n,
        from,
        to: from,
    };
    match place_beginning(flight, place, first, legs, wanted) {
        Some(place) => Some(place),
        None => place_from(flight, n, from + 1, rest, wanted),
    }
}

/// The first place that begins with a leg and ends with one of the last legs of a flight.
/// Most legs depart elsewhere or on another day, and none of their places is looked at.
fn place_beginning(
    flight: &Flight,
    place: Place,
    first: &DatedLeg,
    legs: &[DatedLeg],
    wanted: &Wanted,
) -> Option<Place>
    requires { place.to + length legs.now ≤ 8 }
    ensures { result ≡ lookup (λ w. same_wanted w wanted.now)
        (ends_from flight.now place.flight place.from first.now place.to legs.now) }
{
    if departs(first, wanted) {
        place_to(flight, place, first, legs, wanted)
    } else {
        None
    }
}

/// Whether a leg departs where and when it is wanted.
fn departs(first: &DatedLeg, wanted: &Wanted) -> bool
    ensures { result ≡ departs first.now wanted.now }
{
    first.day == wanted.day && first.board == wanted.board
}

/// The first place with one of the last legs of a flight at its end.
fn place_to(
    flight: &Flight,
    place: Place,
    first: &DatedLeg,
    legs: &[DatedLeg],
    wanted: &Wanted,
) -> Option<Place>
    requires { place.to + length legs.now ≤ 8 }
    ensures { result ≡ lookup (λ w. same_wanted w wanted.now)
        (ends_from flight.now place.flight place.from first.now place.to legs.now) }
{
    let Some((last, rest)) = legs.split_first() else {
        return None;
    };
    let served = Wanted {
        airline: flight.airline,
        number: flight.number,
        suffix: flight.suffix,
        day: first.day,
        board: first.board,
        off: last.off,
    };
    if served == *wanted {
        return Some(place);
    }
    let next = Place {
        to: place.to + 1,
        ..place
    };
    place_to(flight, next, first, rest, wanted)
}
