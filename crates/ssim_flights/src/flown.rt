//! The departures of the flights so far.
ghost use Rattle.std.specs.Prelude.{◌≡◌, ◌<◌, ◌∷◌, [], All, OnOk, length, map};
ghost use Rattle.std.specs.List.{list_any};
ghost use Rattle.std.specs.Hash as fed;
ghost use Rattle.std.specs.Cmp.Rules.{hashing};
ghost use Rattle.std.proofs.Common.{rules};
ghost use Rattle.ssim_flights.specs.Flown.{departure};
ghost use Rattle.ssim_flights.specs.Hashing.{departure_number};
ghost use Rattle.ssim_flights.specs.Taken.{has_departure, Takes};

use crate::hashing::suffix_number;
use crate::rows::RowRange;
use crate::schedule::Scheduled;
use airline_base::{Day, Memory};
use std::collections::HashSet;
use std::hash::{Hash, Hasher};

/// What tells the flights of a carrier apart: flight number, suffix and first operating day.
#[derive(Clone, Copy, PartialEq, Eq)]
pub(crate) struct Departure {
    pub number: u16,
    pub suffix: Option<u8>,
    pub day: Day,
}

impl Departure {
    fn as_number(&self) -> u64
        ensures { result ≡ departure_number self.now }
    {
        u64::from(self.number)
            + 65_536 * suffix_number(self.suffix)
            + 4_294_967_296 * u64::from(self.day.number())
    }
}

/// The fields are hashed as one number, since each write to a hasher costs.
impl Hash for Departure {
    ghost hash_input = { λ d. fed.u64 (departure_number d) };

    ghost respects_eq = { Prim.search (hashing, rules) };

    fn hash<H: Hasher>(&self, state: &mut H) {
        state.write_u64(self.as_number());
    }
}

fn departure_on(leg: &Scheduled, i: usize) -> Departure
    requires { i < length leg.now.operations }
    ensures { result ≡ departure leg.now i }
{
    Departure {
        number: leg.leg.number,
        suffix: leg.leg.suffix,
        day: leg.day(i),
    }
}

/// Whether one of the rows departs as an earlier flight does.
pub(crate) fn is_taken(taken: &HashSet<Departure>, first: &Scheduled, rows: &RowRange) -> bool
    requires { All (λ i. i < length first.now.operations) rows.now }
    ensures { result ≡ list_any (has_departure taken.now) (map (departure first.now) rows.now) }
{
    for k in 0..rows.len() {
        if taken.contains(&departure_on(first, rows.at(k))) {
            return true;
        }
    }
    false
}

/// Adds the departures of the rows.
pub(crate) fn take_all(
    taken: &mut HashSet<Departure>,
    first: &Scheduled,
    rows: &RowRange,
) -> Result<(), Memory>
    requires { All (λ i. i < length first.now.operations) rows.now }
    ensures { OnOk result (Takes taken.old taken.new (map (departure first.now) rows.now)) }
{
    for k in 0..rows.len() {
        let Ok(()) = take(taken, departure_on(first, rows.at(k))) else {
            return Err(Memory);
        };
    }
    Ok(())
}

fn take(taken: &mut HashSet<Departure>, departure: Departure) -> Result<(), Memory>
    ensures { OnOk result (Takes taken.old taken.new (departure ∷ [])) }
{
    let Ok(_) = taken.insert(departure) else {
        return Err(Memory);
    };
    Ok(())
}
