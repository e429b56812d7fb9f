//! Limit rows and legs on one line of numbers, where each finds those of its pair on its days by a search.
ghost use Rattle.std.specs.Prelude.{◌≡◌, ◌<◌, ◌++◌, IfOk, OnOk};
ghost use Rattle.std.specs.List.{flat_map};
ghost use Rattle.std.specs.List.Sorted.{IsNonDecreasing};
ghost use Rattle.airline_base.specs.Days.{IsDay};
ghost use Rattle.seat_questions.specs.Coverage.{AreSpans, IsCoverage, IsRanking, IsSearchable, begin_at, below, day_of, days_of, end_at, finds_leg, finds_row, found_legs, point};

use crate::pair_numbers::{PairNumbers, pair_of};
use airline_base::{Day, Memory};
use seat_limits::{LimitRow, leg_pair_of};
use ssim_flights::{DatedLeg, Flight, Flights};
use std::alloc::Global;

/// Where limit rows begin and end, and where legs are.
#[derive(Drop)]
pub struct Coverage {
    pub numbers: PairNumbers,
    pub spans: Spans,
    pub days: Vec<u128>,
}

/// Where rows begin, and where they end, each in ascending order.
#[derive(Drop)]
pub struct Spans {
    pub begins: Vec<u128>,
    pub ends: Vec<u128>,
}

impl Coverage {
    /// Both in one order, where each is found by a search.
    pub fn new(alloc: Global, flights: &Flights, rows: &[LimitRow]) -> Result<Coverage, Memory>
        ensures right { IfOk result (λ c. IsCoverage c flights.now rows.now) }
        ensures searchable { IfOk result IsSearchable }
    {
        let numbers = PairNumbers::new(alloc, rows)?;
        let spans = spans_of(alloc, &numbers, rows)?;
        let days = days_among(alloc, &numbers, flights)?;
        Ok(Coverage {
            numbers,
            spans,
            days,
        })
    }

    /// Whether a row is for some leg: more legs are before its end than before its beginning.
    pub fn has_leg(&self, row: &LimitRow) -> bool
        requires { IsSearchable self.now }
        ensures { result ≡ finds_leg self.now row.now }
    {
        let number = self.numbers.of(pair_of(row));
        self.legs_before(begin(number, row)) < self.legs_before(end(number, row))
    }

    /// How many legs a row is for: so many more are before its end than before its beginning.
    pub fn legs_of(&self, row: &LimitRow) -> usize
        requires { IsSearchable self.now }
        ensures { result ≡ found_legs self.now row.now }
    {
        let number = self.numbers.of(pair_of(row));
        let before = self.legs_before(begin(number, row));
        self.legs_before(end(number, row)).saturating_sub(before)
    }

    fn legs_before(&self, point: u128) -> usize
        requires { IsSearchable self.now }
        ensures { result ≡ below point self.now.days.items }
    {
        below(&self.days, point)
    }

    /// Whether some row is for a leg: more rows begin up to it than end.
    pub fn has_row(&self, flight: &Flight, leg: &DatedLeg) -> bool
        requires { IsSearchable self.now }
        ensures { result ≡ finds_row self.now flight.now leg.now }
    {
        let after = day_of(&self.numbers, flight, leg) + 1;
        below(&self.spans.ends, after) < below(&self.spans.begins, after)
    }
}

/// Where the rows begin and end.
fn spans_of(alloc: Global, numbers: &PairNumbers, rows: &[LimitRow]) -> Result<Spans, Memory>
    ensures { IfOk result (λ s. AreSpans numbers.now rows.now s.begins.items s.ends.items) }
{
    let mut begins = Vec::with_capacity(alloc, rows.len())?;
    let mut ends = Vec::with_capacity(alloc, rows.len())?;
    for row in rows {
        let number = numbers.of(pair_of(row));
        begins.push(begin(number, row))?;
        ends.push(end(number, row))?;
    }
    begins.sort()?;
    ends.sort()?;
    Ok(Spans { begins, ends })
}

/// Where the legs are.
fn days_among(alloc: Global, numbers: &PairNumbers, flights: &Flights) -> Result<Vec<u128>, Memory>
    ensures { IfOk result (λ days. IsRanking (flat_map (days_of numbers.now) flights.now) days.items) }
{
    let mut days = Vec::new(alloc);
    for i in 0..flights.len() {
        put_days(&mut days, numbers, &flights.flight(i))?;
    }
    days.sort()?;
    Ok(days)
}

/// Adds where the legs of a flight are.
fn put_days(days: &mut Vec<u128>, numbers: &PairNumbers, flight: &Flight) -> Result<(), Memory>
    ensures { OnOk result (days.new.items ≡ days.old.items ++ days_of numbers.now flight.now) }
{
    let legs = flight.legs.as_slice();
    for leg in legs {
        days.push(day_of(numbers, flight, leg))?;
    }
    Ok(())
}

/// Where a leg is.
fn day_of(numbers: &PairNumbers, flight: &Flight, leg: &DatedLeg) -> u128
    ensures value { result ≡ day_of numbers.now flight.now leg.now }
    ensures small { result < 79228162514264337593543950336 }
{
    point(numbers.of(leg_pair_of(flight, leg)), leg.day)
}

/// Where a row begins, whose pair has this number.
fn begin(number: usize, row: &LimitRow) -> u128
    ensures value { result ≡ begin_at number row.now }
    ensures day { IsDay row.now.from }
{
    point(number, row.from)
}

/// Where it ends: behind its last day, and no earlier than it begins.
fn end(number: usize, row: &LimitRow) -> u128
    ensures value { result ≡ end_at number row.now }
    ensures day { IsDay row.now.to }
{
    let end = point(number, row.to) + 1;
    let begin = begin(number, row);
    if end < begin { begin } else { end }
}

/// A day of the pair with a number. The points of a pair ascend by day, and none of another pair lies between them.
fn point(number: usize, day: Day) -> u128
    ensures value { result ≡ point number day }
    ensures day { IsDay day }
    ensures small { result < 79228162514264337593543950336 }
{
    number as u128 * 4_294_967_296 + u128::from(day.number())
}

/// How many of some numbers in ascending order are below one.
fn below(ascending: &[u128], number: u128) -> usize
    requires { IsNonDecreasing ascending.now }
    ensures { result ≡ below number ascending.now }
{
    ascending.partition_point(|n| *n < number)
}
