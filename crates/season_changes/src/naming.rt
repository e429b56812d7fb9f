//! How a flight is named, and the number of the first flight of each name.
//! It knows nothing of what becomes of a flight.
ghost use Rattle.std.specs.Prelude.{◌≡◌, IfOk, OnOk};
ghost use Rattle.std.specs.HashMap.{get};
ghost use Rattle.season_changes.specs.Naming.{name_on, same_name, AreNumbersOf, PutsFlight, PutsNumber};

use airline_base::{Airline, Day, Memory};
use ssim_flights::{DatedLeg, Flight, Flights};
use std::alloc::Global;
use std::collections::HashMap;

/// What two seasons name a flight by.
#[derive(Clone, Copy, PartialEq, Eq, Hash)]
pub struct Name {
    pub airline: Airline,
    /// 1 to 9999.
    pub number: u16,
    /// The operational suffix, A to Z.
    pub suffix: Option<u8>,
    /// The local day on which its first leg departs.
    pub day: Day,
}

/// The name of a flight that begins with a leg.
pub(crate) fn name_on(flight: &Flight, leg: &DatedLeg) -> Name
    ensures { result ≡ name_on flight.now leg.now }
{
    Name {
        airline: flight.airline,
        number: flight.number,
        suffix: flight.suffix,
        day: leg.day,
    }
}

/// The numbers of these flights by their names: of several of one name that of the first.
#[tactic(auto, using(crate::proofs::Numbering::numbers_none, crate::proofs::Numbering::numbers_more))]
pub(crate) fn numbers_of(alloc: Global, flights: &Flights) -> Result<HashMap<Name, u32>, Memory>
    ensures { IfOk result (λ numbers. AreNumbersOf numbers 0 flights.now) }
{
    let mut numbers = HashMap::new(alloc);
    let mut n = flights.len();
    while n > 0 {
        n -= 1;
        put_flight(&mut numbers, &flights.flight(n), n)?;
    }
    Ok(numbers)
}

/// Gives the name of a flight this number. A flight without a leg has none.
#[tactic(auto, using(crate::proofs::Numbering::put_none, crate::proofs::Numbering::put_one))]
fn put_flight(numbers: &mut HashMap<Name, u32>, flight: &Flight, n: u32) -> Result<(), Memory>
    ensures { OnOk result (PutsFlight numbers.old numbers.new flight.now n) }
{
    match flight.legs.as_slice() {
        [leg, ..] => put(numbers, name_on(flight, leg), n),
        [] => Ok(()),
    }
}

fn put(numbers: &mut HashMap<Name, u32>, name: Name, n: u32) -> Result<(), Memory>
    ensures { OnOk result (PutsNumber numbers.old numbers.new name n) }
{
    let _ = numbers.insert(name, n)?;
    Ok(())
}

/// The number of a name.
pub(crate) fn number_of(numbers: &HashMap<Name, u32>, name: &Name) -> Option<u32>
    ensures { result ≡ get same_name numbers.now name.now }
{
    numbers.get(name).copied()
}
