//! Rows of pickup in groups: which group a row is of, and what the rows of each group come to.
//! It knows no table.
ghost use Rattle.std.specs.Prelude.{◌≡◌, IfOk};
ghost use Rattle.pickup_questions.specs.Groups.{AreMoved, given_to, group_of, move_of};

use airline_base::Memory;
use seat_pickup::{Pickup, add_at};
use std::alloc::Global;

/// What is summed.
#[derive(Clone, Copy)]
pub enum Move {
    Before,
    Sold,
    Cancelled,
    Confirmed,
    Held,
}

/// What rows are grouped by. Groups count from 0.
#[derive(Clone, Copy)]
pub enum Groups<'a> {
    /// The flight.
    Flights,
    /// The class, from A.
    Classes,
    /// What each flight is given here.
    Given(&'a [u32]),
}

/// The group of a row. One whose flight is given none is of none.
pub fn group_of(groups: &Groups<'_>, pickup: &Pickup) -> usize
    ensures { result ≡ group_of groups.now pickup.now }
{
    match groups {
        Groups::Flights => pickup.flight as usize,
        Groups::Classes => usize::from(pickup.class.letter().saturating_sub(b'A')),
        Groups::Given(given) => given_to(given, pickup.flight),
    }
}

fn given_to(given: &[u32], flight: u32) -> usize
    ensures { result ≡ given_to given.now flight }
{
    match given.get(flight as usize) {
        Some(group) => *group as usize,
        None => u32::MAX as usize,
    }
}

/// What the rows of each of so many groups come to. A sum that 64 bits don't hold is want of memory.
#[tactic(auto, using(crate::proofs::Moving::moved_none, crate::proofs::Moving::moved_more, crate::proofs::Moving::moved_all))]
pub fn summed(
    alloc: Global,
    groups: &Groups<'_>,
    count: usize,
    all: &[Pickup],
    of: Move,
) -> Result<Vec<u64>, Memory>
    ensures { IfOk result (λ row. AreMoved (group_of groups.now) count of all.now row.items) }
{
    let mut row = vec![in alloc; 0u64; count]?;
    for pickup in all {
        add_at(&mut row, group_of(groups, pickup), move_of(pickup, of))?;
    }
    Ok(row)
}

pub fn move_of(pickup: &Pickup, of: Move) -> u64
    ensures { result ≡ move_of of pickup.now }
{
    match of {
        Move::Before => pickup.before,
        Move::Sold => pickup.sold,
        Move::Cancelled => pickup.cancelled,
        Move::Confirmed => pickup.confirmed,
        Move::Held => pickup.held,
    }
}
