//! What the limits and the held seats of one leg say.
ghost use Rattle.std.specs.Prelude.{◌≡◌, ◌<◌, ◌+◌, ◌&&◌, nat_le, false, if◌then◌else◌, [], length, drop, IfSome, IfNone};
ghost use Rattle.seat_nesting.specs.Nesting.{room_on, held_from, has_class};
ghost use Rattle.seat_nesting.specs.Counting.{KeepsLimits, IsRank, leg_holds, leg_of, held_on};
ghost use Rattle.seat_nesting.specs.Changing.{has_named, limit_above, may_have, step_of, top_of};

use crate::ladder::{Step, has_named, rank_of};
use airline_base::Class;
use std::marker::Model;

/// The limits of a leg as they stand, and how many seats are held in each of its ranks.
#[derive(Drop)]
pub struct LegCounts<'a> {
    steps: &'a [Step],
    held: &'a [u16],
}

impl<'a> Model for LegCounts<'a> {
    ghost use Rattle.seat_nesting.specs.Counting.{LegSeats, KeepsLimits};

    ghost Value = { LegSeats };

    ghost view = { λ l. record { steps = l.steps.now; held = l.held.now } };

    ghost invariant = { λ l. KeepsLimits (record { steps = l.steps.now; held = l.held.now }) };
}

impl<'a> LegCounts<'a> {
    /// The leg with these steps and these held seats, which keep within their limits.
    pub fn of(steps: &'a [Step], held: &'a [u16]) -> LegCounts<'a>
        requires { KeepsLimits (leg_of steps.now held.now) }
        ensures { result ≡ leg_of steps.now held.now }
    {
        LegCounts { steps, held }
    }

    /// The seats that are left in a class; 0 where it is closed, or the leg lacks it.
    pub fn room(&self, class: Class) -> u16
        ensures { result ≡ room_on self.now.steps (held_on self.now) class }
    {
        let steps = self.steps;
        let mut held = 0u16;
        let mut room = 0u16;
        let mut rank = steps.len();
        while rank > 0 {
            rank -= 1;
            let step = &steps[rank];
            held += self.held[rank];
            let here = step.limit - held;
            room = if step.class == class {
                room_at(step, here)
            } else {
                here.min(room)
            };
        }
        room
    }

    /// Whether the leg has the class and at least so many seats are held in it.
    pub fn holds(&self, class: Class, seats: u16) -> bool
        ensures { result ≡ leg_holds self.now.steps (held_on self.now) class seats }
    {
        match self.rank_of(class) {
            Some(rank) => seats <= self.held[rank],
            None => false,
        }
    }

    /// The limit and the wait of a class, where the leg has it.
    pub fn step(&self, class: Class) -> Option<Step>
        ensures { result ≡ step_of self.now.steps class }
    {
        let rank = self.rank_of(class)?;
        Some(self.steps[rank])
    }

    /// Whether the leg has the class, and its limit may be this one: in order among the ranks, and
    /// not below the seats that are held.
    pub fn may_have(&self, class: Class, limit: u16) -> bool
        ensures { result ≡ may_have self.now.steps (held_on self.now) class limit }
    {
        match self.rank_of(class) {
            Some(rank) => is_between(self.steps, rank, limit) && self.held_from(rank) <= limit,
            None => false,
        }
    }

    /// Whether the leg has the class, or any where none is named.
    pub fn has_named(&self, class: Option<Class>) -> bool
        ensures { result ≡ has_named self.now.steps class }
    {
        has_named(self.steps, class)
    }

    /// The seats that are held in a rank and below; 0 where the leg has no such rank.
    #[tactic(auto, using(crate::proofs::LegCounting::held_past))]
    pub fn held_from(&self, rank: usize) -> u16
        ensures { result ≡ held_from (held_on self.now) (drop rank self.now.steps) }
    {
        let steps = self.steps;
        if rank >= steps.len() {
            return 0;
        }
        let mut held = 0u16;
        let mut at = steps.len();
        while at > rank {
            at -= 1;
            held += self.held[at];
        }
        held
    }

    /// The rank of a class, counted from 0.
    pub fn rank_of(&self, class: Class) -> Option<usize>
        ensures found { IfSome result (IsRank self.now.steps class) }
        ensures none { IfNone result (has_class self.now.steps class ≡ false) }
        ensures kept { KeepsLimits self.now }
    {
        rank_of(self.steps, class)
    }
}

/// The seats that are left in a class whose rank leaves these: none where it is closed.
fn room_at(step: &Step, here: u16) -> u16
    ensures { result ≡ (if step.now.closed then 0 else here) }
{
    if step.closed { 0 } else { here }
}

/// Whether a limit at this rank is in order: no higher than that of the next higher rank, and no
/// lower than that of the next lower one.
fn is_between(steps: &[Step], rank: usize, limit: u16) -> bool
    requires { rank < length steps.now }
    ensures { result ≡ (nat_le limit (limit_above 999 steps.now rank)
        && nat_le (top_of (drop (rank + 1) steps.now)) limit) }
{
    limit <= limit_above(steps, rank) && top_of(&steps[rank + 1..]) <= limit
}

/// The limit of the next higher rank; 999 for the highest.
fn limit_above(steps: &[Step], rank: usize) -> u16
    requires { rank < length steps.now }
    ensures { result ≡ limit_above 999 steps.now rank }
{
    if rank == 0 {
        return 999;
    }
    steps[rank - 1].limit
}

/// The highest limit of these steps; 0 where there is none.
fn top_of(steps: &[Step]) -> u16
    ensures { result ≡ top_of steps.now }
{
    match steps {
        [step, ..] => step.limit,
        [] => 0,
    }
}
