//! `cover`: the limit rows that are for no leg or hidden by later ones, and the legs that have no row.
ghost use Rattle.std.specs.Prelude.{if◌then◌else◌, ◌≡◌, ◌++◌, ◌+◌, ◌<◌, ◌≤◌, IfErr, IfOk, OnOk, codes, count_by, decimal, false, length, slice_index_or};
ghost use Rattle.std.specs.List.{sum_by};
ghost use Rattle.seat_desk.specs.FlightsDesk.{IsPut};
ghost use Rattle.seat_questions.specs.Cover.{IsBarePut, IsCoverText, IsFlightPartBy, IsLegPartBy, IsLegPut, IsRowPartBy, bare_head, covered_by, leg_count, row_text, share_text, sums_text};
ghost use Rattle.seat_questions.specs.Coverage.{IsSearchable, finds_leg, finds_row};
ghost use Rattle.seat_questions.specs.Winning.{is_marked};

use crate::coverage::Coverage;
use crate::winning::winners;
use airline_base::Memory;
use seat_desk::{DeskFault, Loaded, Question, put, put_designator, put_number, put_way};
use seat_limits::LimitRow;
use ssim_flights::{DatedLeg, Flight, Flights};
use std::alloc::{AllocError, Global};
use std::thread::Threads;

/// A line for each limit row that is for no leg or that later ones hide, one for each dated leg without a row, and last how many legs have a row and
/// how many rows a leg. It asks nothing of the journal.
pub struct Cover;

impl Question for Cover {
    ghost use Rattle.seat_questions.specs.Cover.{IsCoverText};

    ghost answers = { λ cover flights rows grid journal text. IsCoverText rows flights text };

    ghost refuses = { λ cover grid fault journal. ⊥ };

    fn text<R: Threads + Sync>(
        &self,
        rt: &R,
        alloc: Global,
        loaded: Loaded,
        journal: Vec<u8>,
    ) -> Result<Vec<u8>, DeskFault> {
        let Loaded {
            flights,
            rows,
            grid,
        } = loaded;
        drop(grid);
        drop(journal);
        covered(alloc, &flights, rows.as_slice())
    }
}

/// What rows and legs miss of each other.
fn covered(alloc: Global, flights: &Flights, rows: &[LimitRow]) -> Result<Vec<u8>, DeskFault>
    ensures ok { IfOk result (λ text. IsCoverText rows.now flights.now text.items) }
    ensures memory { IfErr result (λ f. f ≡ DeskFault.Memory) }
{
    match text_of(alloc, flights, rows) {
        Ok(text) => Ok(text),
        Err(_) => Err(DeskFault::Memory),
    }
}

fn text_of(alloc: Global, flights: &Flights, rows: &[LimitRow]) -> Result<Vec<u8>, Memory>
    ensures { IfOk result (λ text. IsCoverText rows.now flights.now text.items) }
{
    let coverage = Coverage::new(alloc, flights, rows)?;
    let mut text = Vec::new(alloc);
    let marks = winners(alloc, flights, rows)?;
    let found = put_rows(&mut text, &coverage, marks.as_slice(), rows)?;
    let covered = put_flights(&mut text, flights, &coverage)?;
    put_sums(
        &mut text,
        covered,
        legs_of(flights),
        found,
        rows.len() as u64,
    )?;
    Ok(text)
}

/// Adds the last line.
fn put_sums(text: &mut Vec<u8>, a: u64, b: u64, c: u64, d: u64) -> Result<(), AllocError>
    ensures { OnOk result (text.new.items ≡ text.old.items ++ sums_text a b c d) }
{
    put(text, b"COVERED legs ")?;
    put_share(text, a, b)?;
    put(text, b" rows ")?;
    put_share(text, c, d)?;
    put(text, b"\n")?;
    Ok(())
}

fn put_share(text: &mut Vec<u8>, a: u64, b: u64) -> Result<(), AllocError>
    ensures { OnOk result (text.new.items ≡ text.old.items ++ share_text a b) }
{
    put_number(text, a)?;
    put(text, b" of ")?;
    put_number(text, b)
}

/// Adds a line for each row that is for no leg or gives none its ladder, and answers how many are for one.
fn put_rows(
    text: &mut Vec<u8>,
    coverage: &Coverage,
    marks: &[bool],
    rows: &[LimitRow],
) -> Result<u64, AllocError>
    requires searchable { IsSearchable coverage.now }
    requires marks { length marks.now ≡ length rows.now }
    ensures put { OnOk result (IsPut (IsRowPartBy (finds_leg coverage.now) (is_marked marks.now)) 1 rows.now
        text.old.items text.new.items) }
    ensures count { IfOk result (λ n. n ≡ count_by (finds_leg coverage.now) rows.now) }
{
    let mut count = 0u64;
    for i in 0..rows.len() {
        let has_leg = coverage.has_leg(&rows[i]);
        count += put_row(text, i as u64 + 1, has_leg, is_marked(marks, i))?;
    }
    Ok(count)
}

/// Whether the row with this number, counted from 0, is marked.
fn is_marked(marks: &[bool], i: usize) -> bool
    requires { i < length marks.now }
    ensures { result ≡ slice_index_or marks.now i false }
{
    marks[i]
}

/// Adds the line of a row, if it is for no leg or of no effect. It counts 1 where it is for one.
fn put_row(text: &mut Vec<u8>, n: u64, has_leg: bool, effect: bool) -> Result<u64, AllocError>
    ensures put { OnOk result (text.new.items ≡ text.old.items ++ row_text n has_leg effect) }
    ensures count { IfOk result (λ c. c ≡ (if has_leg then 1 else 0)) }
{
    if !has_leg {
        put_told(text, n, b" NO LEG\n")?;
        return Ok(0);
    }
    if !effect {
        put_told(text, n, b" HIDDEN\n")?;
    }
    Ok(1)
}

/// Adds ROW, a number and these words.
fn put_told(text: &mut Vec<u8>, n: u64, words: &[u8]) -> Result<(), AllocError>
    ensures { OnOk result (text.new.items ≡ text.old.items ++ codes "ROW " ++ decimal n ++ words.now) }
{
    put(text, b"ROW ")?;
    put_number(text, n)?;
    put(text, words)
}

/// How many legs there are.
fn legs_of(flights: &Flights) -> u64
    ensures { result ≡ sum_by leg_count flights.now }
{
    let mut count = 0u64;
    for i in 0..flights.len() {
        let flight = flights.flight(i);
        count += flight.legs.len() as u64;
    }
    count
}

/// Adds a line for each leg without a row, and answers how many have one.
fn put_flights(
    text: &mut Vec<u8>,
    flights: &Flights,
    coverage: &Coverage,
) -> Result<u64, AllocError>
    requires { IsSearchable coverage.now }
    ensures put { OnOk result (IsPut (IsFlightPartBy (finds_row coverage.now)) 0 flights.now text.old.items
        text.new.items) }
    ensures count { IfOk result (λ n. n ≡ sum_by (covered_by (finds_row coverage.now)) flights.now) }
{
    let mut count = 0u64;
    for i in 0..flights.len() {
        count += put_legs(text, i, &flights.flight(i), coverage)?;
    }
    Ok(count)
}

/// The same for one flight.
fn put_legs(
    text: &mut Vec<u8>,
    index: u32,
    flight: &Flight,
    coverage: &Coverage,
) -> Result<u64, AllocError>
    requires searchable { IsSearchable coverage.now }
    requires few { length flight.now.legs ≤ 8 }
    ensures put { OnOk result (IsPut (IsLegPartBy (finds_row coverage.now) index flight.now) 0 flight.now.legs
        text.old.items text.new.items) }
    ensures count { IfOk result (λ n. n ≡ covered_by (finds_row coverage.now) flight.now) }
    ensures few { IfOk result (λ n. n ≤ 8) }
{
    let legs = flight.legs.as_slice();
    let mut count = 0u64;
    for j in 0..legs.len() {
        count += put_leg(text, index, j as u64, flight, &legs[j], coverage)?;
    }
    Ok(count)
}

/// Adds the line of a leg, if it has no row. Else it counts 1.
#[tactic(auto, using(crate::proofs::Covers::leg_covered, crate::proofs::Covers::leg_bare))]
fn put_leg(
    text: &mut Vec<u8>,
    index: u32,
    j: u64,
    flight: &Flight,
    leg: &DatedLeg,
    coverage: &Coverage,
) -> Result<u64, AllocError>
    requires { IsSearchable coverage.now }
    ensures put { OnOk result (IsLegPut (finds_row coverage.now) index flight.now j leg.now text.old.items
        text.new.items) }
    ensures count { IfOk result (λ n. n ≡ (if finds_row coverage.now flight.now leg.now then 1 else 0)) }
{
    if coverage.has_row(flight, leg) {
        return Ok(1);
    }
    put_bare(text, index, j, flight, leg)?;
    Ok(0)
}

/// Adds the line of a leg without a row.
#[tactic(auto, using(crate::proofs::Covers::leg_line))]
fn put_bare(
    text: &mut Vec<u8>,
    index: u32,
    j: u64,
    flight: &Flight,
    leg: &DatedLeg,
) -> Result<(), AllocError>
    ensures { OnOk result (IsBarePut index flight.now j leg.now text.old.items text.new.items) }
{
    put_head(text, index, j, flight)?;
    put_way(text, leg)?;
    put(text, b" NO ROW\n")?;
    Ok(())
}

fn put_head(text: &mut Vec<u8>, index: u32, j: u64, flight: &Flight) -> Result<(), AllocError>
    ensures { OnOk result (text.new.items ≡ text.old.items ++ bare_head index flight.now j) }
{
    put(text, b"LEG ")?;
    put_number(text, u64::from(index))?;
    put(text, b".")?;
    put_number(text, j)?;
    put(text, b" ")?;
    put_designator(text, flight)
}
