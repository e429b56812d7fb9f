//! How the legs of a grid are laid out in one run of numbers, and which of their ladders are shared.
//! It knows nothing of seats: no number of the run is there yet.
ghost use Rattle.std.specs.Prelude.{◌≡◌, ◌<◌, ◌≤◌, ◌+◌, ◌++◌, ◌∷◌, [], length, IfOk, OnOk, OnErr, IfSome};
ghost use Rattle.std.specs.Bool.{OnTrue};
ghost use Rattle.seat_nesting.specs.Nesting.{steps_at};
ghost use Rattle.seat_nesting.specs.FlatCounts.{AddsLegs, Grows, HasSameLegs};
ghost use Rattle.seat_nesting.specs.Planning.{IsPlanned, no_plan, steps_in};

use crate::counted_flights::{FlightPart, LegPart};
use crate::ladder::{Ladder, Step};
use crate::limits::Limits;
use airline_base::Memory;
use std::alloc::Global;

/// The legs that are laid out so far, the ladders that they share, and how many numbers they have.
#[derive(Drop)]
pub struct Layout {
    pub shared: Vec<Ladder>,
    pub legs: Vec<LegPart>,
    pub flights: Vec<FlightPart>,
    pub numbers: u32,
}

/// The layout of no flight, with memory for so many of one leg each.
pub fn no_layout(alloc: Global, count: usize) -> Result<Layout, Memory>
    ensures { IfOk result (λ layout. IsPlanned layout 0 no_plan) }
{
    let Ok(legs) = Vec::with_capacity(alloc, count) else {
        return Err(Memory);
    };
    let Ok(flights) = Vec::with_capacity(alloc, count) else {
        return Err(Memory);
    };
    Ok(Layout {
        shared: Vec::new(alloc),
        legs,
        flights,
        numbers: 0,
    })
}

/// A number that is kept in 32 bits.
pub fn number(n: usize) -> Result<u32, Memory>
    ensures value { IfOk result (λ m. (m ≡ n) × (m ≤ 4294967295)) }
    ensures large { OnErr result (4294967295 < n) }
{
    match u32::try_from(n) {
        Ok(number) => Ok(number),
        Err(_) => Err(Memory),
    }
}

/// Adds a flight that has these legs.
pub fn push_flight(layout: &mut Layout, first: u32, legs: u32) -> Result<(), Memory>
    ensures flights { OnOk result (layout.new.flights.items
        ≡ layout.old.flights.items ++ (record { first = first; legs = legs }) ∷ []) }
    ensures kept { OnErr result (layout.new.flights.items ≡ layout.old.flights.items) }
    ensures shared { layout.new.shared.items ≡ layout.old.shared.items }
    ensures legs { HasSameLegs layout.old layout.new }
{
    let Ok(()) = layout.flights.push(FlightPart { first, legs }) else {
        return Err(Memory);
    };
    Ok(())
}

/// Adds a leg with the shared ladder of this number, or without limits.
pub fn add_leg(layout: &mut Layout, ladder: Option<u32>) -> Result<(), Memory>
    requires { IfSome ladder (λ i. i < length layout.old.shared.items) }
    ensures legs { OnOk result (AddsLegs layout.old layout.new (steps_in layout.old.shared.items ladder ∷ [])) }
    ensures kept { OnErr result (HasSameLegs layout.old layout.new) }
    ensures shared { layout.new.shared.items ≡ layout.old.shared.items }
    ensures flights { layout.new.flights.items ≡ layout.old.flights.items }
{
    let Some(i) = ladder else {
        return push_leg(layout, Limits::Absent, 0);
    };
    let ranks = layout.shared[i as usize].steps().len() as u8;
    push_leg(layout, Limits::Shared(i), ranks)
}

/// Adds a leg behind the others.
fn push_leg(layout: &mut Layout, limits: Limits, ranks: u8) -> Result<(), Memory>
    ensures legs { OnOk result (layout.new.legs.items ≡ layout.old.legs.items
        ++ (record { start = layout.old.numbers; limits = limits; ranks = ranks }) ∷ []) }
    ensures numbers { OnOk result (layout.new.numbers ≡ layout.old.numbers + ranks) }
    ensures kept { OnErr result (HasSameLegs layout.old layout.new) }
    ensures shared { layout.new.shared.items ≡ layout.old.shared.items }
    ensures flights { layout.new.flights.items ≡ layout.old.flights.items }
{
    let start = layout.numbers;
    let Some(numbers) = start.checked_add(u32::from(ranks)) else {
        return Err(Memory);
    };
    let Ok(()) = layout.legs.push(LegPart {
        start,
        limits,
        ranks,
    })
    else {
        return Err(Memory);
    };
    layout.numbers = numbers;
    Ok(())
}

/// Puts a ladder behind the shared ones, and says its number.
pub fn put(shared: &mut Vec<Ladder>, ladder: Ladder) -> Result<u32, Memory>
    ensures grows { OnOk result (shared.new.items ≡ shared.old.items ++ ladder ∷ []) }
    ensures kept { OnErr result (shared.new.items ≡ shared.old.items) }
    ensures number { IfOk result (λ i. i ≡ length shared.old.items) }
{
    let Ok(i) = number(shared.len()) else {
        return Err(Memory);
    };
    let Ok(()) = shared.push(ladder) else {
        return Err(Memory);
    };
    Ok(i)
}

/// The number of a ladder among the shared ones: of an equal one of the last, or of a copy behind them.
pub fn share(shared: &mut Vec<Ladder>, ladder: &Ladder) -> Result<u32, Memory>
    ensures grows { Grows shared.old.items shared.new.items }
    ensures there { IfOk result (λ i. (i < length shared.new.items) × (steps_at shared.new.items i ≡ ladder.now)) }
{
    if let Some(i) = find_last(shared, ladder) {
        return number(i);
    }
    put(shared, ladder.copy())
}

/// The number of an equal ladder among the last eight.
#[tactic(auto, using(crate::proofs::Layouts::found_at))]
fn find_last(shared: &[Ladder], ladder: &Ladder) -> Option<usize>
    ensures { IfSome result (λ i. (i < length shared.now) × (steps_at shared.now i ≡ ladder.now)) }
{
    let steps = ladder.steps();
    let mut i = shared.len();
    let end = i.saturating_sub(8);
    while i > end {
        i -= 1;
        if are_same(shared[i].steps(), steps) {
            return Some(i);
        }
    }
    None
}

/// Whether the steps are the same.
fn are_same(left: &[Step], right: &[Step]) -> bool
    ensures { OnTrue result (left.now ≡ right.now) }
{
    left == right
}
