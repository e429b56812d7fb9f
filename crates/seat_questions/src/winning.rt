//! The limit rows that give legs their ladders: of each leg the last one that is for it.
//! It knows the index of the rows, and nothing of what is written.
ghost use Rattle.std.specs.Prelude.{◌≡◌, ◌<◌, ◌^◌, IfOk, IfSome, length, false, replicate};
ghost use Rattle.std.specs.List.Sorted.{IsNonDecreasing};
ghost use Rattle.seat_limits.specs.Authorised.{is_for};
ghost use Rattle.seat_limits.specs.RowStretches.{IsFirst, IsRowIndex, last_where, slot};
ghost use Rattle.seat_questions.specs.Winning.{AreWinners, Marks, is_that, last_row, wins_on};

use airline_base::{Day, Memory};
use seat_limits::{LimitRow, Pair, RowIndex, leg_pair_of};
use ssim_flights::{DatedLeg, Flight, Flights};
use std::alloc::Global;

/// Beside each row whether it is the last one that is for some leg.
#[tactic(auto, using(crate::proofs::Marking::none_marked))]
pub fn winners(alloc: Global, flights: &Flights, rows: &[LimitRow]) -> Result<Vec<bool>, Memory>
    ensures { IfOk result (λ marks. AreWinners rows.now flights.now marks.items) }
{
    let index = RowIndex::new(alloc, rows)?;
    let mut marks = vec![in alloc; false; rows.len()]?;
    for i in 0..flights.len() {
        mark_legs(&mut marks, &index, rows, &flights.flight(i));
    }
    Ok(marks)
}

/// Marks the rows of the legs of a flight.
#[tactic(auto, using(crate::proofs::Marking::same_marks, crate::proofs::Marking::leg_marked, crate::proofs::Marking::legs_marked))]
fn mark_legs(marks: &mut Vec<bool>, index: &RowIndex, rows: &[LimitRow], flight: &Flight)
    requires index { IsRowIndex index.now.last index.now.edges.items index.now.found.items rows.now }
    requires counted { length marks.old.items ≡ length rows.now }
    ensures { Marks (λ i. wins_on rows.now i flight.now) marks.old.items marks.new.items }
{
    let legs = flight.legs.as_slice();
    for leg in legs {
        mark(marks, last_row(index, rows, flight, leg));
    }
}

/// Marks a row, if there is one.
#[tactic(auto, using(crate::proofs::Marking::row_marked, crate::proofs::Marking::none_more))]
fn mark(marks: &mut Vec<bool>, row: Option<u32>)
    requires { IfSome row (λ i. i < length marks.old.items) }
    ensures { Marks (λ i. is_that i row) marks.old.items marks.new.items }
{
    if let Some(i) = row {
        marks[i as usize] = true;
    }
}

/// The last row that is for a leg.
fn last_row(index: &RowIndex, rows: &[LimitRow], flight: &Flight, leg: &DatedLeg) -> Option<u32>
    requires { IsRowIndex index.now.last index.now.edges.items index.now.found.items rows.now }
    ensures last { result ≡ last_row rows.now flight.now leg.now }
    ensures inside { IfSome result (λ i. i < length rows.now) }
{
    row_on(index, rows, leg_pair_of(flight, leg), leg.day)
}

/// The last row that is for a pair on a day, by the stretch that holds the day.
fn row_on(index: &RowIndex, _rows: &[LimitRow], pair: Pair, day: Day) -> Option<u32>
    requires { IsRowIndex index.now.last index.now.edges.items index.now.found.items _rows.now }
    ensures last { result ≡ last_where (is_for pair day) _rows.now (length _rows.now) }
    ensures inside { IfSome result (λ i. i < length _rows.now) }
{
    let number = *index.last.get(&pair)?;
    let place = first_at(&index.edges, slot(number, day) + 1);
    if place == 0 {
        return None;
    }
    index.found[place - 1]
}

/// The first edge that is not below a slot, or the number of edges.
fn first_at(edges: &[u64], at: u64) -> usize
    requires { IsNonDecreasing edges.now }
    ensures { IsFirst edges.now at result }
{
    edges.partition_point(|edge| *edge < at)
}

fn slot(number: u32, day: Day) -> u64
    ensures value { result ≡ slot number day }
    ensures day { day < 131072 }
    ensures small { result < 2 ^ 63 }
{
    u64::from(number) * 131_072 + u64::from(day.number())
}
