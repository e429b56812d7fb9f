//! What a host has come to, counted behind each group that is answered.
ghost use Rattle.std.specs.Prelude.{◌≡◌, IfErr, IfOk, OnOk};
ghost use Rattle.desk_answers.specs.Hosts.{IsReady};
ghost use Rattle.desk_serving.specs.Daily.{CountsSeal, FailsBy, IsOnDay, IsSealedOn, StaysNamed};
ghost use Rattle.desk_serving.specs.Going.{GoesOn};
ghost use Rattle.desk_serving.specs.Groups.{IsGroup};
ghost use Rattle.desk_status.specs.Tallies.{added, groups_behind, Counts, CountsFront};

use crate::day::GroupFault;
use crate::group::answer_group;
use desk_hall::Hall;
use desk_pipes::{Post, Taken};
use desk_status::{Board, Tally};
use seat_disk::{Replaced, Tape};
use seat_seal::Sealed;
use std::alloc::Global;
use std::sync::Wait;

/// What a host has come to that has answered nothing yet.
#[tactic(auto, using(crate::proofs::Tallied::countable, crate::proofs::Tallied::counts_as))]
pub(crate) fn begun<D: Tape>(hall: &Hall<'_, D>, board: &Board) -> Tally
    ensures { Counts result hall.now.serving.journal }
{
    board.begun(hall.serving().journal())
}

/// Answers the lines that were taken, and shows what the host has come to then. Whether the host goes on.
#[tactic(auto, using(crate::proofs::Tallied::counts_front))]
pub(crate) fn answer_counted<R: Wait, D: Tape, K: Replaced>(
    rt: &R,
    alloc: Global,
    hall: &mut Hall<'_, D>,
    post: &Post,
    closes: bool,
    taken: &Taken,
    entry: &mut Sealed,
    seals: &mut K,
    board: &Board,
    tally: &mut Tally,
) -> Result<bool, GroupFault>
    requires ready { IsReady D.seen D.may_leave D.unsynced hall.old.serving }
    requires dated { IsOnDay hall.old.today entry.old (K.may_leave seals.old) }
    requires counts { Counts tally.old hall.old.serving.journal }
    ensures group { IfOk result (IsGroup closes hall.old taken.now hall.new) }
    ensures goes { OnOk result (GoesOn D.seen D.may_leave D.unsynced D.failure_count hall.old.serving hall.new.serving) }
    ensures fails { IfErr result (FailsBy D.seen D.may_leave D.unsynced D.failure_count hall.old.serving hall.new.serving) }
    ensures sealed { OnOk result (IsSealedOn K.named K.may_leave K.kept_may_leave K.failure_count hall.new.today entry.old entry.new seals.old seals.new) }
    ensures stays { StaysNamed K.may_leave K.kept_may_leave entry.old seals.old seals.new }
    ensures unsealed { IfErr result (CountsSeal K.failure_count seals.old seals.new) }
    ensures counts { OnOk result (Counts tally.new hall.new.serving.journal) }
    ensures groups { OnOk result (tally.new.groups ≡ groups_behind tally.old.groups (added tally.old hall.new.serving.journal)) }
{
    match answer_group(
        rt,
        alloc,
        hall,
        post,
        closes,
        taken.as_slice(),
        entry,
        seals,
    ) {
        Ok(goes_on) => {
            count(hall, tally);
            board.show(rt, *tally);
            Ok(goes_on)
        }
        Err(fault) => Err(fault),
    }
}

// The lines that were added are counted.
#[tactic(auto, using(crate::proofs::Tallied::countable, crate::proofs::Tallied::front_as, crate::proofs::Tallied::counts_as, crate::proofs::Tallied::groups_as))]
fn count<D: Tape>(hall: &Hall<'_, D>, tally: &mut Tally)
    requires front { CountsFront tally.old hall.now.serving.journal }
    ensures counts { Counts tally.new hall.now.serving.journal }
    ensures groups { tally.new.groups ≡ groups_behind tally.old.groups (added tally.old hall.now.serving.journal) }
{
    tally.grow(hall.serving().journal());
}
