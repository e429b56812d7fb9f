//! Where the limits of a leg stand.
ghost use Rattle.std.specs.Prelude.{◌≡◌, ◌≤◌, ◌<◌, ◌+◌, ℕ, [], length, vec_len, vec_capacity, IfSome, IfNone};
ghost use Rattle.seat_nesting.specs.Nesting.{IsLadder, IsLegLadder};
ghost use Rattle.seat_nesting.specs.Changing.{with_setting};
ghost use Rattle.seat_nesting.specs.OwnLadders.{pool_of, steps_by, own_after, limits_after, may_come};
ghost use Rattle.seat_nesting.specs.declared.limits.Limits.TheVariants.{Own};

use crate::ladder::{Ladder, Step};
use crate::setting::Setting;

/// Where the limits of a leg stand.
#[derive(Clone, Copy)]
pub enum Limits {
    /// It has none.
    Absent,
    /// In the shared ladder of this number, which other legs may have too.
    Shared(u32),
    /// In the own ladder of this number, which is no other leg's: its limits were changed.
    Own(u32),
}

impl Limits {
    /// The ladder, where there is one.
    pub fn ladder<'a>(self, shared: &'a [Ladder], own: &'a [Ladder]) -> Option<&'a Ladder>
        ensures found { IfSome result (λ l. l.now ≡ steps_by (pool_of shared.now own.now) self) }
        ensures none { IfNone result (steps_by (pool_of shared.now own.now) self ≡ []) }
    {
        match self {
            Limits::Absent => None,
            Limits::Shared(i) => shared.get(i as usize),
            Limits::Own(i) => own.get(i as usize),
        }
    }

    /// The steps from the highest rank to the lowest; none where there are no limits.
    pub fn steps<'a>(self, shared: &'a [Ladder], own: &'a [Ladder]) -> &'a [Step]
        ensures value { result.now ≡ steps_by (pool_of shared.now own.now) self }
        ensures ladder { IsLegLadder result.now }
    {
        match self.ladder(shared, own) {
            Some(ladder) => ladder.steps(),
            None => &[],
        }
    }

    /// Sets what a setting says, for this leg alone, and says where its limits stand
    /// from then on. A shared ladder stays: a changed copy joins the own ones, for which there is memory.
    pub fn set(self, shared: &[Ladder], own: &mut Vec<Ladder>, setting: &Setting) -> Limits
        requires ladder { IsLadder (with_setting (steps_by (pool_of shared.now own.old.items) self) setting.now) }
        requires there { (i : ℕ) → self ≡ Own i → i < length own.old.items }
        requires reserved { vec_len own.old + may_come self ≤ vec_capacity own.old }
        requires numbered { vec_len own.old + may_come self ≤ 4294967295 }
        ensures own { own.new.items ≡ own_after (pool_of shared.now own.old.items) self setting.now }
        ensures limits { result ≡ limits_after (pool_of shared.now own.old.items) self }
        ensures places { vec_capacity own.new ≡ vec_capacity own.old }
    {
        match self {
            Limits::Absent => Limits::Absent,
            Limits::Own(i) => {
                let ladder = &mut own[i as usize];
                ladder.set(setting);
                Limits::Own(i)
            }
            Limits::Shared(i) => {
                let mut ladder = shared[i as usize].copy();
                ladder.set(setting);
                let number = own.len() as u32;
                own.push_reserved(ladder);
                Limits::Own(number)
            }
        }
    }
}
