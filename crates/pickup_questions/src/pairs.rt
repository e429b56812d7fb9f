//! The pairs of stations between which the places of flights run.
//! It knows no seats.
ghost use Rattle.std.specs.Prelude.{◌≡◌, IfOk, OnOk, Some};
ghost use Rattle.std.specs.List.{list_any};
ghost use Rattle.seat_questions.specs.Rooms.{keeps_pair};
ghost use Rattle.table_questions.specs.SumRows.{pair_of, with_pair};
ghost use Rattle.pickup_questions.specs.PairRows.{pairs_of, with_flights, with_lasts, with_places};

use airline_base::{Memory, Station};
use seat_questions::{CityPair, keeps_pair, run_of};
use ssim_flights::{DatedLeg, Flights};
use std::alloc::Global;

/// The pairs of all places of flights, each once, in the order of its first place: by flight, first leg and last leg.
#[tactic(auto, using(crate::proofs::Pairing::flight_more, crate::proofs::Pairing::flights_whole))]
pub fn pairs_of(alloc: Global, flights: &Flights) -> Result<Vec<CityPair>, Memory>
    ensures { IfOk result (λ pairs. pairs.items ≡ pairs_of flights.now) }
{
    let mut pairs = Vec::new(alloc);
    for index in 0..flights.len() {
        let flight = flights.flight(index);
        add_places(&mut pairs, flight.legs.as_slice())?;
    }
    Ok(pairs)
}

/// Adds the pairs of the places of a flight that are not there yet, by first leg.
#[tactic(auto, using(crate::proofs::Pairing::place_more, crate::proofs::Pairing::places_whole))]
fn add_places(pairs: &mut Vec<CityPair>, legs: &[DatedLeg]) -> Result<(), Memory>
    ensures { OnOk result (pairs.new.items ≡ with_places pairs.old.items legs.now) }
{
    for from in 0..legs.len() {
        add_lasts(pairs, &legs[from], &legs[from..])?;
    }
    Ok(())
}

/// Adds those of the places from one leg to each of these.
#[tactic(auto, using(crate::proofs::Pairing::last_more, crate::proofs::Pairing::lasts_whole))]
fn add_lasts(pairs: &mut Vec<CityPair>, first: &DatedLeg, lasts: &[DatedLeg]) -> Result<(), Memory>
    ensures { OnOk result (pairs.new.items ≡ with_lasts pairs.old.items first.now lasts.now) }
{
    for to in 0..lasts.len() {
        add_pair(pairs, &run_of(first, &lasts[to]))?;
    }
    Ok(())
}

/// Adds the pair of a run of legs, if it is not there yet.
fn add_pair(pairs: &mut Vec<CityPair>, run: &DatedLeg) -> Result<(), Memory>
    ensures { OnOk result (pairs.new.items ≡ with_pair pairs.old.items run.now) }
{
    if has_pair(pairs.as_slice(), run) {
        return Ok(());
    }
    let pair = pair_of(run);
    pairs.push(pair)?;
    Ok(())
}

fn pair_of(run: &DatedLeg) -> CityPair
    ensures { result ≡ pair_of run.now }
{
    let _from: Station = run.board;
    CityPair {
        board: run.board,
        off: run.off,
    }
}

/// Whether one of the pairs is that of a run of legs.
fn has_pair(pairs: &[CityPair], run: &DatedLeg) -> bool
    ensures { result ≡ list_any (λ p. keeps_pair (Some p) run.now) pairs.now }
{
    pairs.iter().any(|pair| keeps_pair(Some(*pair), run))
}
