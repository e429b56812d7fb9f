//! The laws of availability messages, each the contract of a function that does nothing.
//! It knows the definitions alone.
ghost use Rattle.seat_availability.specs.Changes.{ChangesSuffice};
ghost use Rattle.seat_availability.specs.Messages.{ClosedIsTold, SegmentsStandOnce};

/// What a partner was told after an older journal, with the changes since put in place of what it was told of their segments, is what it is told after the
/// newer one.
pub fn changes_suffice()
    ensures { ChangesSuffice }
{}

/// A class that is closed on a leg of a segment is told as closed, and its list with it.
#[tactic(auto, using(crate::proofs::Closings::closed_is_told))]
pub fn closed_is_told()
    ensures { ClosedIsTold }
{}

/// No segment has two messages.
#[tactic(auto, using(crate::proofs::Apart::segments_stand_once))]
pub fn segments_stand_once()
    ensures { SegmentsStandOnce }
{}
