//! Limit rows by flight and city pair, so that a leg finds its row by bisection.
ghost use Rattle.std.specs.Prelude.{◌≡◌, ◌<◌, ◌≤◌, ◌+◌, ◌^◌, None, Some, length, IfOk, IfSome, IsTrue, OnOk};
ghost use Rattle.std.specs.HashMap.{get};
ghost use Rattle.std.specs.Hash as fed;
ghost use Rattle.std.specs.Cmp.Rules.{hashing};
ghost use Rattle.std.proofs.Common.{rules};
ghost use Rattle.std.specs.List.Sorted.{IsNonDecreasing};
ghost use Rattle.seat_limits.specs.Authorised.{row_pair, same_pair, leg_pair, authorised, row_steps, PutsRow, HasLastRows, IsRun};
ghost use Rattle.seat_limits.specs.Hashing.{pair_number};
ghost use Rattle.seat_limits.specs.RowStretches.{slot, number_noted, number_of, AreEdges, IsAhead, IsBehind, IsFirst, Knows, ShowRows, IsRowIndex};

use crate::hashing::pair_number;
use crate::limit_row::LimitRow;
use airline_base::{Airline, Day, Memory, Station};
use row_stretches::Stretches;
use ssim_flights::{DatedLeg, Flight};
use std::alloc::Global;
use std::collections::HashMap;
use std::hash::{Hash, Hasher};

/// What a row and a leg have in common: the flight's name and the city pair.
#[derive(Clone, Copy, PartialEq, Eq)]
pub struct Pair {
    pub airline: Airline,
    pub number: u16,
    pub suffix: Option<u8>,
    pub board: Station,
    pub off: Station,
}

/// The fields are hashed as one number, since each write to a hasher costs.
impl Hash for Pair {
    ghost hash_input = { λ p. fed.u128 (pair_number p) };

    ghost respects_eq = { Prim.search (hashing, rules) };

    fn hash<H: Hasher>(&self, state: &mut H) {
        state.write_u128(pair_number(self));
    }
}

/// A pair and its number.
#[derive(Clone, Copy)]
pub struct Numbered {
    pub pair: Pair,
    pub number: u32,
}

/// What was found last: a pair, and the place of its day among the edges, of which nothing is known.
#[derive(Clone, Copy)]
pub struct Near {
    pub known: Option<Numbered>,
    pub place: usize,
}

impl Near {
    pub fn nothing() -> Near
        ensures { result.known ≡ None }
    {
        Near {
            known: None,
            place: 0,
        }
    }
}

/// The pairs' days in one order, cut where rows begin and end, and the row that counts on each stretch.
#[derive(Drop)]
pub struct RowIndex {
    /// The last row of each pair, whose number is the pair's.
    pub last: HashMap<Pair, u32>,
    pub edges: Vec<u64>,
    pub found: Vec<Option<u32>>,
}

impl RowIndex {
    pub fn new(alloc: Global, rows: &[LimitRow]) -> Result<RowIndex, Memory>
        ensures { IfOk result (λ x. IsRowIndex x.last x.edges.items x.found.items rows.now) }
    {
        let Ok(last) = last_rows(alloc, rows) else {
            return Err(Memory);
        };
        let Ok(edges) = edges_of(alloc, rows, &last) else {
            return Err(Memory);
        };
        let Ok(found) = rows_found(alloc, rows, &last, &edges) else {
            return Err(Memory);
        };
        Ok(RowIndex { last, edges, found })
    }

    /// The last row that is for a pair on a day, looked for where one was found last.
    pub(crate) fn row(
        &self,
        _rows: &[LimitRow],
        near: &mut Near,
        pair: Pair,
        day: Day,
    ) -> Option<u32>
        requires index { IsRowIndex self.now.last self.now.edges.items self.now.found.items _rows.now }
        requires known { Knows self.now.last near.old.known }
        ensures ladder { row_steps _rows.now result ≡ authorised _rows.now pair day }
        ensures inside { IfSome result (λ i. i < length _rows.now) }
        ensures known { Knows self.now.last near.new.known }
    {
        let Some(number) = number_known(&self.last, &mut near.known, &pair) else {
            return None;
        };
        let place = first_near(&self.edges, slot(number, day) + 1, near.place);
        near.place = place;
        if place == 0 {
            return None;
        }
        self.found[place - 1]
    }
}

/// The last row of each pair.
fn last_rows(alloc: Global, rows: &[LimitRow]) -> Result<HashMap<Pair, u32>, Memory>
    ensures { IfOk result (λ last. HasLastRows last rows.now (length rows.now)) }
{
    let Ok(count) = count_of(rows) else {
        return Err(Memory);
    };
    let mut last = HashMap::new(alloc);
    let mut i = 0;
    while i < count {
        let first = &rows[i as usize];
        let end = run_end(rows, first, i, count);
        let Ok(()) = put(&mut last, pair_of(first), end - 1) else {
            return Err(Memory);
        };
        i = end;
    }
    Ok(last)
}

/// Where the rows end that follow a row and are of its pair too.
fn run_end(rows: &[LimitRow], first: &LimitRow, from: u32, count: u32) -> u32
    requires count { count ≡ length rows.now }
    requires inside { from < count }
    requires here { IsRun rows.now (row_pair first.now) from (from + 1) }
    ensures further { from < result }
    ensures inside { result ≤ count }
    ensures run { IsRun rows.now (row_pair first.now) from result }
{
    let mut end = from + 1;
    while end < count {
        if !is_same_pair(&rows[end as usize], first) {
            return end;
        }
        end += 1;
    }
    end
}

fn is_same_pair(row: &LimitRow, other: &LimitRow) -> bool
    ensures { result ≡ same_pair (row_pair row.now) (row_pair other.now) }
{
    pair_of(row) == pair_of(other)
}

/// How many rows there are. No memory has room for 2³² of them.
fn count_of(rows: &[LimitRow]) -> Result<u32, Memory>
    ensures { IfOk result (λ count. count ≡ length rows.now) }
{
    match u32::try_from(rows.len()) {
        Ok(count) => Ok(count),
        Err(_) => Err(Memory),
    }
}

/// Makes the row of this number the last one of its pair.
fn put(last: &mut HashMap<Pair, u32>, pair: Pair, i: u32) -> Result<(), Memory>
    ensures { OnOk result (PutsRow last.old last.new pair i) }
{
    match last.insert(pair, i) {
        Ok(_) => Ok(()),
        Err(_) => Err(Memory),
    }
}

/// The slots on which rows begin or have ended, each once.
fn edges_of(alloc: Global, rows: &[LimitRow], last: &HashMap<Pair, u32>) -> Result<Vec<u64>, Memory>
    ensures { IfOk result (λ edges. AreEdges last.now rows.now edges.items) }
{
    let mut edges = Vec::new(alloc);
    let mut known = None;
    for row in rows {
        let number = number_of(last, &mut known, row);
        let Ok(()) = edges.push(start_of(number, row)) else {
            return Err(Memory);
        };
        let Ok(()) = edges.push(end_of(number, row)) else {
            return Err(Memory);
        };
    }
    edges.sort_unstable();
    edges.dedup();
    Ok(edges)
}

/// For each edge the last row that holds it.
fn rows_found(
    alloc: Global,
    rows: &[LimitRow],
    last: &HashMap<Pair, u32>,
    edges: &[u64],
) -> Result<Vec<Option<u32>>, Memory>
    requires { IsNonDecreasing edges.now }
    ensures { IfOk result (λ found. ShowRows last.now rows.now edges.now found.items) }
{
    let Ok(mut stretches) = Stretches::new(alloc, edges.len()) else {
        return Err(Memory);
    };
    let mut known = None;
    let Ok(count) = count_of(rows) else {
        return Err(Memory);
    };
    let mut i = count;
    while i > 0 {
        i -= 1;
        let row = &rows[i as usize];
        let number = number_of(last, &mut known, row);
        let from = first_at(edges, start_of(number, row));
        let to = first_at(edges, end_of(number, row));
        stretches.paint(from, to, i);
    }
    Ok(stretches.rows)
}

/// The first edge that is not below a slot, or the number of edges.
fn first_at(edges: &[u64], at: u64) -> usize
    requires { IsNonDecreasing edges.now }
    ensures { IsFirst edges.now at result }
{
    edges.partition_point(|edge| *edge < at)
}

/// The same, looked for at a place first.
fn first_near(edges: &[u64], at: u64, place: usize) -> usize
    requires { IsNonDecreasing edges.now }
    ensures { IsFirst edges.now at result }
{
    if is_first(edges, at, place) {
        return place;
    }
    first_at(edges, at)
}

/// Whether this is the place of the first edge that is not below a slot, or the number of edges.
fn is_first(edges: &[u64], at: u64, place: usize) -> bool
    requires { IsNonDecreasing edges.now }
    ensures { IsTrue result → IsFirst edges.now at place }
{
    is_behind(edges, at, place) && is_ahead(edges, at, place)
}

/// Whether the edge ahead of a place is below a slot, where there is one.
fn is_behind(edges: &[u64], at: u64, place: usize) -> bool
    ensures { IsTrue result → IsBehind edges.now at place }
{
    match place.checked_sub(1) {
        Some(before) => before < edges.len() && edges[before] < at,
        None => true,
    }
}

/// Whether the edge at a place is not below a slot, where there is one.
fn is_ahead(edges: &[u64], at: u64, place: usize) -> bool
    ensures { IsTrue result → IsAhead edges.now at place }
{
    match edges.get(place) {
        Some(edge) => at <= *edge,
        None => true,
    }
}

fn slot(number: u32, day: Day) -> u64
    ensures value { result ≡ slot number day }
    ensures day { day < 131072 }
    ensures small { result < 2 ^ 63 }
{
    u64::from(number) * 131_072 + u64::from(day.number())
}

/// The number of a row's pair.
fn number_of(last: &HashMap<Pair, u32>, known: &mut Option<Numbered>, row: &LimitRow) -> u32
    requires { Knows last.now known.old }
    ensures number { result ≡ number_of last.now (row_pair row.now) }
    ensures knows { Knows last.now known.new }
{
    match number_known(last, known, &pair_of(row)) {
        Some(number) => number,
        None => 0,
    }
}

/// The number of a pair that has a row, which is looked up where it is another than the one that is noted.
fn number_known(last: &HashMap<Pair, u32>, known: &mut Option<Numbered>, pair: &Pair) -> Option<u32>
    requires { Knows last.now known.old }
    ensures number { result ≡ get same_pair last.now pair.now }
    ensures knows { Knows last.now known.new }
{
    if let Some(number) = number_noted(known, pair) {
        return Some(number);
    }
    let Some(number) = last.get(pair) else {
        return None;
    };
    let number = *number;
    *known = Some(Numbered {
        pair: *pair,
        number,
    });
    Some(number)
}

/// The number that is noted, where it is that of this pair.
fn number_noted(known: &Option<Numbered>, pair: &Pair) -> Option<u32>
    ensures { result ≡ number_noted known.now pair.now }
{
    match known {
        Some(known) if known.pair == *pair => Some(known.number),
        _ => None,
    }
}

/// The slot on which a row begins whose pair has this number.
fn start_of(number: u32, row: &LimitRow) -> u64
    ensures { result ≡ slot number row.now.from }
{
    slot(number, row.from)
}

/// The slot on which it has ended.
fn end_of(number: u32, row: &LimitRow) -> u64
    ensures value { result ≡ slot number row.now.to + 1 }
    ensures day { row.now.to < 131072 }
{
    slot(number, row.to) + 1
}

fn pair_of(row: &LimitRow) -> Pair
    ensures { result ≡ row_pair row.now }
{
    Pair {
        airline: row.airline,
        number: row.number,
        suffix: row.suffix,
        board: row.board,
        off: row.off,
    }
}

/// The pair of a leg.
pub fn leg_pair_of(flight: &Flight, leg: &DatedLeg) -> Pair
    ensures { result ≡ leg_pair flight.now leg.now }
{
    Pair {
        airline: flight.airline,
        number: flight.number,
        suffix: flight.suffix,
        board: leg.board,
        off: leg.off,
    }
}
