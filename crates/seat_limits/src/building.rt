//! The grid that limit rows give to dated flights.
ghost use Rattle.std.specs.Prelude.{◌≡◌, ◌<◌, ◌++◌, ◌∷◌, [], length, Some, IfOk, OnOk, IfSome};
ghost use Rattle.seat_nesting.specs.Nesting.{steps_at};
ghost use Rattle.seat_nesting.specs.Planning.{steps_in};
ghost use Rattle.seat_limits.specs.Authorised.{authorised, authorised_grid, authorised_legs, row_steps, AreNumbers, IsNumberOf};
ghost use Rattle.seat_limits.specs.RowStretches.{AllKnow, IsRowIndex};

use crate::limit_row::{LimitRow, RowLadder};
use crate::row_index::{Near, Pair, RowIndex, leg_pair_of};
use airline_base::{Day, Memory};
use seat_nesting::{Grid, GridPlan};
use ssim_flights::{Flight, Flights};
use std::alloc::Global;

/// The ladders that limit rows give to the legs of flights: each leg has that of the last row
/// with its airline, number, suffix and city pair whose period holds its local day.
pub fn build_grid(alloc: Global, flights: &Flights, rows: &[LimitRow]) -> Result<Grid, Memory>
    ensures { IfOk result (λ grid. grid ≡ authorised_grid rows.now flights.now) }
{
    let Ok(index) = RowIndex::new(alloc, rows) else {
        return Err(Memory);
    };
    let Ok(plan) = plan_of(alloc, flights, rows, &index) else {
        return Err(Memory);
    };
    Grid::of(alloc, plan)
}

/// The numbers of the rows' ladders.
#[derive(Drop)]
struct LadderNumbers {
    /// Beside each row that of its ladder, once a leg has had the row.
    beside: Vec<Option<u32>>,
    /// The rows whose ladders were put last, each where the number of its ladder leaves it.
    latest: [u32; 8],
}

/// The ladders of each flight's legs.
fn plan_of(
    alloc: Global,
    flights: &Flights,
    rows: &[LimitRow],
    index: &RowIndex,
) -> Result<GridPlan, Memory>
    requires { IsRowIndex index.now.last index.now.edges.items index.now.found.items rows.now }
    ensures flights { IfOk result (λ plan. plan.flights ≡ authorised_grid rows.now flights.now) }
    ensures closed { IfOk result (λ plan. plan.legs ≡ []) }
{
    let Ok(mut numbers) = no_numbers(alloc, rows) else {
        return Err(Memory);
    };
    let Ok(mut plan) = GridPlan::new(alloc, flights.len() as usize) else {
        return Err(Memory);
    };
    let mut nears = [Near::nothing(); 8];
    for i in 0..flights.len() {
        let flight = flights.flight(i);
        let Ok(()) = add_flight(&mut plan, &flight, rows, index, &mut nears, &mut numbers) else {
            return Err(Memory);
        };
    }
    Ok(plan)
}

/// Adds a flight with the ladders of its legs.
fn add_flight(
    plan: &mut GridPlan,
    flight: &Flight,
    rows: &[LimitRow],
    index: &RowIndex,
    nears: &mut [Near],
    numbers: &mut LadderNumbers,
) -> Result<(), Memory>
    requires closed { plan.old.legs ≡ [] }
    requires nears { AllKnow index.now.last nears.old }
    requires index { IsRowIndex index.now.last index.now.edges.items index.now.found.items rows.now }
    requires numbers { AreNumbers numbers.old.beside.items rows.now plan.old.ladders }
    ensures flights { OnOk result (plan.new.flights ≡ plan.old.flights ++ authorised_legs rows.now flight.now ∷ []) }
    ensures closed { OnOk result (plan.new.legs ≡ []) }
    ensures numbers { OnOk result (AreNumbers numbers.new.beside.items rows.now plan.new.ladders) }
    ensures nears { AllKnow index.now.last nears.new }
{
    let legs = flight.legs.as_slice();
    for j in 0..legs.len() {
        let leg = &legs[j];
        let row = row_of(index, rows, nears, j, leg_pair_of(flight, leg), leg.day);
        let Ok(number) = number_of(plan, rows, numbers, row) else {
            return Err(Memory);
        };
        let Ok(()) = plan.add_leg(number) else {
            return Err(Memory);
        };
    }
    plan.close_flight()
}

/// The row of a leg, looked for where that of the leg at the same place of the flight ahead was found: most often that flight is the
/// same one a day earlier.
fn row_of(
    index: &RowIndex,
    rows: &[LimitRow],
    nears: &mut [Near],
    place: usize,
    pair: Pair,
    day: Day,
) -> Option<u32>
    requires index { IsRowIndex index.now.last index.now.edges.items index.now.found.items rows.now }
    requires nears { AllKnow index.now.last nears.old }
    ensures ladder { row_steps rows.now result ≡ authorised rows.now pair day }
    ensures inside { IfSome result (λ i. i < length rows.now) }
    ensures nears { AllKnow index.now.last nears.new }
{
    if place >= nears.len() {
        return index.row(rows, &mut Near::nothing(), pair, day);
    }
    index.row(rows, &mut nears[place], pair, day)
}

/// Room for the number of each row's ladder.
#[tactic(auto, using(crate::proofs::Sharing::no_numbers))]
fn no_numbers(alloc: Global, rows: &[LimitRow]) -> Result<LadderNumbers, Memory>
    ensures { IfOk result (λ numbers. AreNumbers numbers.beside.items rows.now []) }
{
    let Ok(beside) = vec![in alloc; None; rows.len()] else {
        return Err(Memory);
    };
    Ok(LadderNumbers {
        beside,
        latest: [0; 8],
    })
}

/// The number of the ladder of a row, if there is a row.
fn number_of(
    plan: &mut GridPlan,
    rows: &[LimitRow],
    numbers: &mut LadderNumbers,
    row: Option<u32>,
) -> Result<Option<u32>, Memory>
    requires inside { IfSome row (λ i. i < length rows.now) }
    requires numbers { AreNumbers numbers.old.beside.items rows.now plan.old.ladders }
    ensures there { IfOk result (λ number. IfSome number (λ k. k < length plan.new.ladders)) }
    ensures steps { IfOk result (λ number. steps_in plan.new.ladders number ≡ row_steps rows.now row) }
    ensures numbers { OnOk result (AreNumbers numbers.new.beside.items rows.now plan.new.ladders) }
    ensures flights { OnOk result (plan.new.flights ≡ plan.old.flights) }
    ensures legs { OnOk result (plan.new.legs ≡ plan.old.legs) }
{
    let Some(row) = row else {
        return Ok(None);
    };
    let i = row as usize;
    if let Some(number) = numbers.beside[i] {
        return Ok(Some(number));
    }
    let Ok(number) = number_for(plan, rows, numbers, row) else {
        return Err(Memory);
    };
    numbers.beside[i] = Some(number);
    Ok(Some(number))
}

/// The number for the ladder of a row: that of an equal one among the last that were put, or else its own, and it is put.
fn number_for(
    plan: &mut GridPlan,
    rows: &[LimitRow],
    numbers: &mut LadderNumbers,
    row: u32,
) -> Result<u32, Memory>
    requires inside { row < length rows.now }
    requires numbers { AreNumbers numbers.old.beside.items rows.now plan.old.ladders }
    ensures there { IfOk result (λ k. k < length plan.new.ladders) }
    ensures steps { IfOk result (λ k. steps_at plan.new.ladders k ≡ row_steps rows.now (Some row)) }
    ensures numbers { OnOk result (AreNumbers numbers.new.beside.items rows.now plan.new.ladders) }
    ensures flights { OnOk result (plan.new.flights ≡ plan.old.flights) }
    ensures legs { OnOk result (plan.new.legs ≡ plan.old.legs) }
{
    let ladder = &rows[row as usize].ladder;
    if let Some(number) = number_of_equal(rows, numbers, ladder) {
        return Ok(number);
    }
    let Ok(number) = plan.put(ladder.ladder()) else {
        return Err(Memory);
    };
    numbers.latest[number as usize % 8] = row;
    Ok(number)
}

/// The number of an equal ladder among those that were put last.
fn number_of_equal(rows: &[LimitRow], numbers: &LadderNumbers, ladder: &RowLadder) -> Option<u32>
    requires { length numbers.now.beside.items ≡ length rows.now }
    ensures { IfSome result (IsNumberOf numbers.now.beside.items rows.now ladder.now) }
{
    for row in &numbers.latest {
        let i = *row as usize;
        if i < rows.len() && rows[i].ladder.is_same(ladder) {
            if let Some(number) = numbers.beside[i] {
                return Some(number);
            }
        }
    }
    None
}
