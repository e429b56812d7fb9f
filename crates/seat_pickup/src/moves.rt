//! The seats that lines sell, cancel and confirm, by flight and class or leg, or by pair of stations.
//! It knows no booking.
ghost use Rattle.std.specs.Prelude.{◌≡◌, IfOk, OnOk};
ghost use Rattle.seat_rules.specs.Totals.{seats_asked};
ghost use Rattle.seat_pickup.specs.Counting.{Adds, AreCounts};
ghost use Rattle.seat_pickup.specs.Moves.{advised, asked, cancelled_by, confirmed_by, placed, sold_by, sum_of};
ghost use Rattle.seat_pickup.specs.Pairs.{tally_at};

use crate::counting::{add, no_counts};
use crate::split::Tally;
use airline_base::{Class, Memory, Place};
use seat_journal::{Advice, Entry, Work};
use seat_rules::is_confirmation;
use std::alloc::Global;

/// What lines sold.
#[tactic(auto, using(crate::proofs::Counted::counts_of))]
pub fn sold_in(
    alloc: Global,
    tally: &Tally<'_>,
    flights: u32,
    lines: &[Entry],
) -> Result<Vec<u64>, Memory>
    ensures { IfOk result (λ row. AreCounts flights (sum_of (sold_by (tally_at tally.now)) lines.now) row.items) }
{
    let mut row = no_counts(alloc, flights)?;
    add_sold(&mut row, tally, lines)?;
    Ok(row)
}

/// What they cancelled.
#[tactic(auto, using(crate::proofs::Counted::counts_of))]
pub fn cancelled_in(
    alloc: Global,
    tally: &Tally<'_>,
    flights: u32,
    lines: &[Entry],
) -> Result<Vec<u64>, Memory>
    ensures { IfOk result (λ row. AreCounts flights (sum_of (cancelled_by (tally_at tally.now)) lines.now) row.items) }
{
    let mut row = no_counts(alloc, flights)?;
    add_cancelled(&mut row, tally, lines)?;
    Ok(row)
}

/// What they confirmed from the list.
#[tactic(auto, using(crate::proofs::Counted::counts_of))]
pub fn confirmed_in(
    alloc: Global,
    tally: &Tally<'_>,
    flights: u32,
    lines: &[Entry],
) -> Result<Vec<u64>, Memory>
    ensures { IfOk result (λ row. AreCounts flights (sum_of (confirmed_by (tally_at tally.now)) lines.now) row.items) }
{
    let mut row = no_counts(alloc, flights)?;
    add_confirmed(&mut row, tally, lines)?;
    Ok(row)
}

#[tactic(auto, using(crate::proofs::Counted::adds_none, crate::proofs::Counted::adds_more, crate::proofs::Counted::adds_all))]
fn add_sold(row: &mut Vec<u64>, tally: &Tally<'_>, lines: &[Entry]) -> Result<(), Memory>
    ensures { OnOk result (Adds (sum_of (sold_by (tally_at tally.now)) lines.now) row.old.items row.new.items) }
{
    for line in lines {
        add_sold_by(row, tally, line)?;
    }
    Ok(())
}

#[tactic(auto, using(crate::proofs::Counted::adds_none, crate::proofs::Counted::adds_more, crate::proofs::Counted::adds_all))]
fn add_cancelled(row: &mut Vec<u64>, tally: &Tally<'_>, lines: &[Entry]) -> Result<(), Memory>
    ensures { OnOk result (Adds (sum_of (cancelled_by (tally_at tally.now)) lines.now) row.old.items row.new.items) }
{
    for line in lines {
        add_cancelled_by(row, tally, line)?;
    }
    Ok(())
}

#[tactic(auto, using(crate::proofs::Counted::adds_none, crate::proofs::Counted::adds_more, crate::proofs::Counted::adds_all))]
fn add_confirmed(row: &mut Vec<u64>, tally: &Tally<'_>, lines: &[Entry]) -> Result<(), Memory>
    ensures { OnOk result (Adds (sum_of (confirmed_by (tally_at tally.now)) lines.now) row.old.items row.new.items) }
{
    for line in lines {
        add_confirmed_by(row, tally, line)?;
    }
    Ok(())
}

/// Adds what a line sells.
#[tactic(auto, using(crate::proofs::Counted::not_sold, crate::proofs::Counted::is_sold))]
fn add_sold_by(row: &mut Vec<u64>, tally: &Tally<'_>, line: &Entry) -> Result<(), Memory>
    ensures { OnOk result (Adds (sold_by (tally_at tally.now) line.now) row.old.items row.new.items) }
{
    if !is_confirmation(line.reply) {
        return Ok(());
    }
    add_asked(row, tally, &line.work, seats_asked(&line.work))
}

/// The seats that a line asks for; what the manager sets asks for none.
fn seats_asked(work: &Work) -> u16
    ensures { result ≡ seats_asked work.now }
{
    match work {
        Work::Seats(command) => command.seats,
        Work::Limit(_) => 0,
        Work::Sale(_) => 0,
    }
}

/// Adds what a line cancels.
#[tactic(auto, using(crate::proofs::Counted::is_cancelled))]
fn add_cancelled_by(row: &mut Vec<u64>, tally: &Tally<'_>, line: &Entry) -> Result<(), Memory>
    ensures { OnOk result (Adds (cancelled_by (tally_at tally.now) line.now) row.old.items row.new.items) }
{
    add_asked(row, tally, &line.work, line.released)
}

/// Adds seats where a line asks for some.
#[tactic(auto, using(crate::proofs::Counted::no_work, crate::proofs::Counted::no_sale, crate::proofs::Counted::work_there))]
fn add_asked(row: &mut Vec<u64>, tally: &Tally<'_>, work: &Work, seats: u16) -> Result<(), Memory>
    ensures { OnOk result (Adds (asked (tally_at tally.now) work.now seats) row.old.items row.new.items) }
{
    match work {
        Work::Seats(command) => add_placed(row, tally, command.place, command.class, seats),
        Work::Limit(_) => Ok(()),
        Work::Sale(_) => Ok(()),
    }
}

#[tactic(auto, using(crate::proofs::Counted::no_place, crate::proofs::Counted::place_there))]
fn add_placed(
    row: &mut Vec<u64>,
    tally: &Tally<'_>,
    place: Option<Place>,
    class: Class,
    seats: u16,
) -> Result<(), Memory>
    ensures { OnOk result (Adds (placed (tally_at tally.now) place class seats) row.old.items row.new.items) }
{
    match place {
        Some(place) => add(row, tally, place, class, seats),
        None => Ok(()),
    }
}

/// Adds what a line confirms from the list.
#[tactic(auto, using(crate::proofs::Counted::by_advices))]
fn add_confirmed_by(row: &mut Vec<u64>, tally: &Tally<'_>, line: &Entry) -> Result<(), Memory>
    ensures { OnOk result (Adds (confirmed_by (tally_at tally.now) line.now) row.old.items row.new.items) }
{
    add_advised(row, tally, line.advices.as_slice())
}

#[tactic(auto, using(crate::proofs::Counted::adds_none, crate::proofs::Counted::adds_more, crate::proofs::Counted::adds_all))]
fn add_advised(row: &mut Vec<u64>, tally: &Tally<'_>, advices: &[Advice]) -> Result<(), Memory>
    ensures { OnOk result (Adds (sum_of (advised (tally_at tally.now)) advices.now) row.old.items row.new.items) }
{
    for advice in advices {
        add_by_advice(row, tally, advice)?;
    }
    Ok(())
}

#[tactic(auto, using(crate::proofs::Counted::is_advised))]
fn add_by_advice(row: &mut Vec<u64>, tally: &Tally<'_>, advice: &Advice) -> Result<(), Memory>
    ensures { OnOk result (Adds (advised (tally_at tally.now) advice.now) row.old.items row.new.items) }
{
    add(row, tally, advice.place, advice.class, advice.seats)
}
