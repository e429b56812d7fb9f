//! The rows of one chain of legs, and what can be wrong with its days.
ghost use Rattle.std.specs.Prelude.{◌≡◌, ◌<◌, All, get_or, is_none, length, take, IfSome};
ghost use Rattle.std.specs.List.{list_any};
ghost use Rattle.ssim_flights.specs.Schedules.{differing, falling_after, falling_at, rows, AreNext, Reaches, RepeatTogether};

use crate::plan::Plan;
use crate::schedule::{Scheduled, shortest};
use std::marker::Model;

// A round has no more operations.
const LONGEST_ROUND: usize = 14;

/// Indices that follow one another. Contracts see them as their list.
#[derive(Drop)]
pub(crate) struct RowRange {
    begin: usize,
    end: usize,
}

impl Model for RowRange {
    ghost use Rattle.std.specs.Prelude.{List, ℕ, ◌-◌, ◌^◌, ◌<◌, ◌≤◌};
    ghost use Rattle.std.specs.List.{range_with_len};

    ghost Value = { List ℕ };

    ghost view = { λ r. range_with_len r.begin (r.end - r.begin) };

    ghost invariant = { λ r. (r.begin ≤ r.end) × (r.end < 2 ^ 64) };
}

impl RowRange {
    pub(crate) fn len(&self) -> usize
        ensures { result ≡ length self.now }
    {
        self.end - self.begin
    }

    /// The first so many of them.
    fn first(&self, count: usize) -> RowRange
        ensures first { result ≡ take count self.now }
        ensures next { AreNext self.now }
    {
        RowRange {
            begin: self.begin,
            end: self.begin + count.min(self.len()),
        }
    }

    /// Index `k` of them, counted from 0.
    pub(crate) fn at(&self, k: usize) -> usize
        requires { k < length self.now }
        ensures { result ≡ get_or self.now k 0 }
    {
        self.begin + k
    }
}

/// The indices at which all legs operate, and leg 1 within the horizon.
#[tactic(auto, unfolding(crate::specs::Schedules::rows))]
pub(crate) fn rows(plan: &Plan, legs: &[Scheduled]) -> RowRange
    ensures { result ≡ rows plan.now legs.now }
{
    let Some((first, rest)) = legs.split_first() else {
        return RowRange { begin: 0, end: 0 };
    };
    let count = shortest(first.operations.len(), rest);
    let ahead = first.before(plan.first.number());
    let within = first.before(plan.last.number() + 1);
    let begin = ahead.min(count);
    let end = within.min(count).max(begin);
    RowRange { begin, end }
}

/// The serial of the first leg whose count of operating days differs from leg 1's, where no leg has an open end.
#[tactic(auto, unfolding(crate::specs::Schedules::differing))]
pub(crate) fn differing(legs: &[Scheduled]) -> Option<u32>
    ensures { result ≡ differing legs.now }
{
    let Some((first, rest)) = legs.split_first() else {
        return None;
    };
    if has_open_end(legs) {
        return None;
    }
    let count = first.operations.len();
    for leg in rest {
        if leg.operations.len() != count {
            return Some(leg.leg.serial);
        }
    }
    None
}

fn has_open_end(legs: &[Scheduled]) -> bool
    ensures { result ≡ list_any (λ each. is_none each.leg.to) legs.now }
{
    legs.iter().any(|each| each.leg.to.is_none())
}

/// The serial of the first leg, by row and then by leg, that departs more than one local day before the leg ahead of it.
#[tactic(auto, using(crate::proofs::Chaining::none_falls))]
pub(crate) fn falling_back(legs: &[Scheduled], rows: &RowRange) -> Option<u32>
    requires { All (Reaches legs.now) rows.now }
    ensures { result ≡ falling_at legs.now rows.now }
{
    if legs.len() < 2 {
        return None;
    }
    falling_among(legs, &telling_rows(legs, rows))
}

/// The same of these rows, each of which is looked at.
fn falling_among(legs: &[Scheduled], rows: &RowRange) -> Option<u32>
    requires { All (Reaches legs.now) rows.now }
    ensures { result ≡ falling_at legs.now rows.now }
{
    for k in 0..rows.len() {
        if let Some(serial) = falling_on(legs, rows.at(k)) {
            return Some(serial);
        }
    }
    None
}

/// The first rows, which tell of all where a leg falls back: those of one round, where all legs have rounds alike.
fn telling_rows(legs: &[Scheduled], rows: &RowRange) -> RowRange
    requires { All (Reaches legs.now) rows.now }
    ensures reach { All (Reaches legs.now) result }
    ensures same { falling_at legs.now rows.now ≡ falling_at legs.now result }
{
    let all = rows.len();
    if all <= LONGEST_ROUND {
        return rows.first(all);
    }
    match round_of(legs) {
        Some(round) => rows.first(round),
        None => rows.first(all),
    }
}

/// After how many operations the local days of all legs come again together, where they do.
fn round_of(legs: &[Scheduled]) -> Option<usize>
    ensures { IfSome result (λ n. RepeatTogether n legs.now) }
{
    let Some((first, rest)) = legs.split_first() else {
        return None;
    };
    let days = first.operations.locals();
    if days.many == 0 {
        return None;
    }
    for leg in rest {
        let others = leg.operations.locals();
        if others.many != days.many || others.round != days.round {
            return None;
        }
    }
    Some(usize::from(days.many))
}

fn falling_on(legs: &[Scheduled], i: usize) -> Option<u32>
    requires { Reaches legs.now i }
    ensures { result ≡ falling_after i 0 legs.now }
{
    let mut before = 0u32;
    for leg in legs {
        let local = leg.local(i).number();
        if local + 1 < before {
            return Some(leg.leg.serial);
        }
        before = local;
    }
    None
}
