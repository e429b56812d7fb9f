//! What a feed's host has come to, counted behind each piece that is answered.
ghost use Rattle.std.specs.Prelude.{◌≡◌};
ghost use Rattle.desk_status.specs.Tallies.{added, groups_behind, Counts, CountsFront};

use desk_status::{Board, Tally};
use desk_stream::Feed;
use seat_disk::Tape;
use std::sync::Wait;

/// What a host has come to whose feed has asked for nothing yet.
#[tactic(auto, using(crate::proofs::Tallied::countable, crate::proofs::Tallied::counts_as))]
pub(crate) fn begun<D: Tape>(feed: &Feed<'_, D>, board: &Board) -> Tally
    ensures { Counts result feed.now.serving.journal }
{
    board.begun(feed.serving().journal())
}

/// The lines that were added are counted, and what the host has come to is shown.
#[tactic(auto, using(crate::proofs::Tallied::countable, crate::proofs::Tallied::front_as, crate::proofs::Tallied::counts_as, crate::proofs::Tallied::groups_as))]
pub(crate) fn count<R: Wait, D: Tape>(rt: &R, feed: &Feed<'_, D>, board: &Board, tally: &mut Tally)
    requires front { CountsFront tally.old feed.now.serving.journal }
    ensures counts { Counts tally.new feed.now.serving.journal }
    ensures groups { tally.new.groups ≡ groups_behind tally.old.groups (added tally.old feed.now.serving.journal) }
{
    tally.grow(feed.serving().journal());
    board.show(rt, *tally);
}
