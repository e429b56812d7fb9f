//! The pair of stations between which a place runs, and its number in a list of pairs.
//! It knows no seats.
ghost use Rattle.std.specs.Prelude.{◌≡◌, Some, position, slice_get};
ghost use Rattle.seat_questions.specs.Rooms.{keeps_pair};
ghost use Rattle.seat_pickup.specs.Pairs.{number_at, number_in, run_at, run_on};

use airline_base::{Place, Station};
use seat_lists::{Designator, keeps_flight};
use seat_questions::{CityPair, keeps_pair, run_of};
use ssim_flights::{DatedLeg, Flight, Flights};

/// Pairs of stations by which places are counted. A place's pair is the board point of its first leg and the off point of its last one, whatever its
/// flight.
#[derive(Clone, Copy)]
pub struct Pairing<'a> {
    pub flights: &'a Flights,
    /// Flights of this name; else all.
    pub asked: Option<Designator>,
    /// The pairs, which are numbered from 0.
    pub pairs: &'a [CityPair],
}

/// The number of the pair of a place; none where its flight is not kept, or the list has no such pair.
pub fn number_of(pairing: &Pairing<'_>, place: Place) -> Option<usize>
    ensures { result ≡ number_at pairing.now.asked pairing.now.flights.now pairing.now.pairs.now place }
{
    number_in(
        pairing.pairs,
        run_at(pairing.flights, &pairing.asked, place),
    )
}

/// The number of the pair of a run of legs.
fn number_in(pairs: &[CityPair], run: Option<DatedLeg>) -> Option<usize>
    ensures { result ≡ number_in pairs.now run }
{
    match run {
        Some(run) => place_of(pairs, &run),
        None => None,
    }
}

/// The place of its pair in a list.
fn place_of(pairs: &[CityPair], run: &DatedLeg) -> Option<usize>
    ensures { result ≡ position (λ p. keeps_pair (Some p) run.now) pairs.now }
{
    pairs.iter().position(|pair| keeps_pair(Some(*pair), run))
}

/// The legs of a place as one, if its flight is kept.
fn run_at(flights: &Flights, asked: &Option<Designator>, place: Place) -> Option<DatedLeg>
    ensures { result ≡ run_at asked.now place (slice_get flights.now place.flight) }
{
    if place.flight >= flights.len() {
        return None;
    }
    run_in(&flights.flight(place.flight), asked, place)
}

fn run_in(flight: &Flight, asked: &Option<Designator>, place: Place) -> Option<DatedLeg>
    ensures { result ≡ run_at asked.now place (Some flight.now) }
{
    if !keeps_flight(*asked, flight) {
        return None;
    }
    run_on(flight.legs.as_slice(), place)
}

/// The first leg of a place and its last one as one, if there are both.
fn run_on(legs: &[DatedLeg], place: Place) -> Option<DatedLeg>
    ensures { result ≡ run_on (slice_get legs.now place.from) (slice_get legs.now place.to) }
{
    let _from: Option<Station> = None;
    match legs.get(usize::from(place.from)) {
        Some(first) => run_from(first, legs, place.to),
        None => None,
    }
}

fn run_from(first: &DatedLeg, legs: &[DatedLeg], to: u8) -> Option<DatedLeg>
    ensures { result ≡ run_on (Some first.now) (slice_get legs.now to) }
{
    match legs.get(usize::from(to)) {
        Some(last) => Some(run_of(first, last)),
        None => None,
    }
}
