//! The table of loads by pair: what the kept legs come to that run between each two stations.
//! It knows no other table.
ghost use Rattle.std.specs.Prelude.{◌≡◌, ◌≤◌, ◌∷◌, [], IfOk, OnOk, Some, if◌then◌else◌, map, nat_lt};
ghost use Rattle.std.specs.List.{list_any};
ghost use Rattle.seat_rules.specs.Inventory.{state_now};
ghost use Rattle.seat_desk.specs.AuditDesk.{most_lines};
ghost use Rattle.seat_loads.specs.Legs.{is_kept};
ghost use Rattle.seat_loads.specs.Sums.{AreFewLegs};
ghost use Rattle.seat_questions.specs.Rooms.{keeps_pair};
ghost use Rattle.seat_tables.specs.Rows.{rows_from};
ghost use Rattle.seat_tables.specs.Sheets.{ArePut, IsReady};
ghost use Rattle.table_questions.specs.SumRows.{on_pair, pair_cells, pair_names, pair_of, pair_sums, sums_of_pair, with_flights, with_legs, with_pair};

use crate::table::Table;
use airline_base::Station;
use seat_core::Core;
use seat_loads::{LoadsOf, Sums, is_kept, share, sums_of};
use seat_questions::{CityPair, keeps_pair};
use seat_tables::{Cell, Form, Sheet, put_row};
use ssim_flights::{DatedLeg, Flights};
use std::alloc::{AllocError, Global};

/// What the legs that are asked for come to, pair by pair.
#[derive(Clone, Copy)]
pub struct PairSums {
    pub loads: LoadsOf,
}

impl Table for PairSums {
    ghost use Rattle.table_questions.specs.SumRows.{pair_names, pair_sums};

    ghost names = { pair_names };

    ghost rows = { λ asked flights grid journal. pair_sums asked.loads flights grid journal };

    fn begun(&self, alloc: Global, form: Form) -> Result<Sheet, AllocError> {
        Sheet::new(alloc, form, &names())
    }

    fn put_rows(
        &self,
        alloc: Global,
        sheet: &mut Sheet,
        flights: &Flights,
        core: &Core,
    ) -> Result<(), AllocError> {
        let pairs = kept_pairs(alloc, flights, &self.loads)?;
        put_pairs(alloc, sheet, flights, core, &self.loads, pairs.as_slice())
    }
}

/// The names of the columns.
fn names() -> [&'static str; 8]
    ensures { map (λ n. n.now) result ≡ pair_names }
{
    [
        "board",
        "off",
        "legs",
        "limit",
        "held",
        "share",
        "passengers",
        "waiting",
    ]
}

/// Adds the rows of these pairs.
fn put_pairs(
    alloc: Global,
    sheet: &mut Sheet,
    flights: &Flights,
    core: &Core,
    asked: &LoadsOf,
    pairs: &[CityPair],
) -> Result<(), AllocError>
    requires ready { IsReady sheet.old }
    requires capped { core.now.cap ≤ most_lines }
    ensures { OnOk result (ArePut pair_names
        (rows_from (sums_of_pair asked.now (state_now core.now) flights.now) 0 pairs.now) sheet.old sheet.new) }
{
    for i in 0..pairs.len() {
        put_pair(alloc, sheet, flights, core, asked, &pairs[i])?;
    }
    Ok(())
}

/// Adds the row of a pair, if a kept leg runs between its stations.
#[tactic(auto, using(crate::proofs::Pairs::pair_left, crate::proofs::Pairs::pair_kept))]
fn put_pair(
    alloc: Global,
    sheet: &mut Sheet,
    flights: &Flights,
    core: &Core,
    asked: &LoadsOf,
    pair: &CityPair,
) -> Result<(), AllocError>
    requires ready { IsReady sheet.old }
    requires capped { core.now.cap ≤ most_lines }
    ensures { OnOk result (ArePut pair_names (sums_of_pair asked.now (state_now core.now) flights.now 0 pair.now)
        sheet.old sheet.new) }
{
    let sums = sums_of(flights, core, &on_pair(asked, *pair));
    if !is_any(sums.legs.legs) {
        return Ok(());
    }
    put_cells(alloc, sheet, pair, &sums)?;
    Ok(())
}

/// Adds the row of a pair of these sums.
#[tactic(auto, using(crate::proofs::Tables::row_put))]
fn put_cells(
    alloc: Global,
    sheet: &mut Sheet,
    pair: &CityPair,
    sums: &Sums,
) -> Result<(), AllocError>
    requires ready { IsReady sheet.old }
    requires few { AreFewLegs sums.now.legs }
    ensures { OnOk result (ArePut pair_names (pair_cells pair.now sums.now ∷ []) sheet.old sheet.new) }
{
    let row = pair_cells(pair, sums);
    put_row(alloc, sheet, &names(), &row)?;
    Ok(())
}

/// The same question of one pair alone.
fn on_pair(asked: &LoadsOf, pair: CityPair) -> LoadsOf
    ensures { result ≡ on_pair asked.now pair }
{
    LoadsOf {
        flight: asked.flight,
        day: asked.day,
        pair: Some(pair),
        bars: asked.bars,
    }
}

fn is_any(count: u64) -> bool
    ensures { result ≡ nat_lt 0 count }
{
    0 < count
}

/// The row of a pair of these sums.
fn pair_cells(pair: &CityPair, sums: &Sums) -> [Cell; 8]
    requires few { AreFewLegs sums.now.legs }
    ensures { result ≡ pair_cells pair.now sums.now }
{
    [
        Cell::Stop(pair.board),
        Cell::Stop(pair.off),
        Cell::Number(sums.legs.legs),
        Cell::Number(sums.legs.limits),
        Cell::Number(sums.legs.seats),
        Cell::Number(share(sums.legs.seats, sums.legs.limits)),
        Cell::Number(sums.riders.held),
        Cell::Number(sums.riders.waiting),
    ]
}

/// The pairs of the legs that are kept, each once, in the order in which the first leg of each stands.
#[tactic(auto, using(crate::proofs::Pairs::flight_more, crate::proofs::Pairs::no_flight_more))]
fn kept_pairs(
    alloc: Global,
    flights: &Flights,
    asked: &LoadsOf,
) -> Result<Vec<CityPair>, AllocError>
    ensures { IfOk result (λ pairs. pairs.items ≡ with_flights asked.now [] flights.now) }
{
    let mut pairs = Vec::new(alloc);
    for index in 0..flights.len() {
        let flight = flights.flight(index);
        add_legs(&mut pairs, asked, flight.legs.as_slice())?;
    }
    Ok(pairs)
}

/// Adds the pairs of the legs that are kept, and not there yet.
#[tactic(auto, using(crate::proofs::Pairs::leg_more, crate::proofs::Pairs::no_leg_more))]
fn add_legs(pairs: &mut Vec<CityPair>, asked: &LoadsOf, legs: &[DatedLeg]) -> Result<(), AllocError>
    ensures { OnOk result (pairs.new.items ≡ with_legs (is_kept asked.now) pairs.old.items legs.now) }
{
    for j in 0..legs.len() {
        add_kept(pairs, asked, &legs[j])?;
    }
    Ok(())
}

/// Adds the pair of a leg, if the leg is kept and the pair not there yet.
fn add_kept(pairs: &mut Vec<CityPair>, asked: &LoadsOf, leg: &DatedLeg) -> Result<(), AllocError>
    ensures { OnOk result (pairs.new.items ≡ (if is_kept asked.now leg.now then with_pair pairs.old.items leg.now
        else pairs.old.items)) }
{
    if !is_kept(asked, leg) {
        return Ok(());
    }
    add_pair(pairs, leg)
}

/// Adds the pair of a leg, if it is not there yet.
fn add_pair(pairs: &mut Vec<CityPair>, leg: &DatedLeg) -> Result<(), AllocError>
    ensures { OnOk result (pairs.new.items ≡ with_pair pairs.old.items leg.now) }
{
    if has_pair(pairs.as_slice(), leg) {
        return Ok(());
    }
    let pair = pair_of(leg);
    pairs.push(pair)?;
    Ok(())
}

fn pair_of(leg: &DatedLeg) -> CityPair
    ensures { result ≡ pair_of leg.now }
{
    let _from: Station = leg.board;
    CityPair {
        board: leg.board,
        off: leg.off,
    }
}

/// Whether one of the pairs is that of a leg.
fn has_pair(pairs: &[CityPair], leg: &DatedLeg) -> bool
    ensures { result ≡ list_any (λ p. keeps_pair (Some p) leg.now) pairs.now }
{
    pairs.iter().any(|pair| keeps_pair(Some(*pair), leg))
}
