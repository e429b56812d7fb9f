//! All that rows of pickup come to, group by group.
//! It knows no table.
ghost use Rattle.std.specs.Prelude.{◌≡◌, ◌<◌, IfOk};
ghost use Rattle.pickup_questions.specs.Groups.{AreSums, group_of, sums_in};

use crate::groups::{Groups, Move, summed};
use airline_base::Memory;
use seat_pickup::{MoveSums, Pickup};
use std::alloc::Global;

/// The sums of rows by group.
#[derive(Drop)]
pub struct Moved<'a> {
    pub groups: Groups<'a>,
    /// How many groups there are.
    pub count: usize,
    /// The rows that are summed.
    pub all: &'a [Pickup],
    pub before: Vec<u64>,
    pub sold: Vec<u64>,
    pub cancelled: Vec<u64>,
    pub confirmed: Vec<u64>,
    pub held: Vec<u64>,
}

/// The sums of these rows by so many groups.
pub fn moved_by<'a>(
    alloc: Global,
    groups: Groups<'a>,
    count: usize,
    all: &'a [Pickup],
) -> Result<Moved<'a>, Memory>
    ensures groups { IfOk result (λ moved. moved.groups ≡ groups.entry) }
    ensures count { IfOk result (λ moved. moved.count ≡ count) }
    ensures all { IfOk result (λ moved. moved.all.now ≡ all.now) }
    ensures sums { IfOk result AreSums }
{
    let before = summed(alloc, &groups, count, all, Move::Before)?;
    let sold = summed(alloc, &groups, count, all, Move::Sold)?;
    let cancelled = summed(alloc, &groups, count, all, Move::Cancelled)?;
    let confirmed = summed(alloc, &groups, count, all, Move::Confirmed)?;
    let held = summed(alloc, &groups, count, all, Move::Held)?;
    Ok(Moved {
        groups,
        count,
        all,
        before,
        sold,
        cancelled,
        confirmed,
        held,
    })
}

/// Those of a group.
#[tactic(auto, using(crate::proofs::Moving::within, crate::proofs::Moving::are_sums))]
pub fn sums_at(moved: &Moved<'_>, group: usize) -> MoveSums
    requires sums { AreSums moved.now }
    requires there { group < moved.now.count }
    ensures { result ≡ sums_in (group_of moved.now.groups) group moved.now.all.now }
{
    MoveSums {
        before: moved.before[group],
        sold: moved.sold[group],
        cancelled: moved.cancelled[group],
        confirmed: moved.confirmed[group],
        held: moved.held[group],
    }
}
