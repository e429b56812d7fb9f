//! The laws of the changes, each the contract of a function that does nothing.
//! It knows the definitions alone.
ghost use Rattle.limit_changes.specs.Laws.{EachIsAccepted, EachIsReached, NoneShortIsWanted, NothingIsLeft, RoomIsReached, ShortIsHeld};

/// Behind any journal each change is answered OK, where those ahead of it are made and those who wait are confirmed as they then fit.
#[tactic(auto, using(crate::proofs::Lawful::each_is_accepted))]
pub fn changes_are_accepted()
    ensures { EachIsAccepted }
{}

/// Behind the changes each leg that is asked for has the limits to which it comes; where no class of it falls short these are the wanted ones, in each class
/// that its ladder and the wanted one have.
#[tactic(auto, using(crate::proofs::Falling::none_short_is_wanted))]
pub fn wanted_limits_are_reached()
    ensures reached { EachIsReached }
    ensures wanted { NoneShortIsWanted }
{}

/// Of limits that are there already no change is left.
#[tactic(auto, using(crate::proofs::Falling::nothing_is_left))]
pub fn nothing_is_left()
    ensures { NothingIsLeft }
{}

/// Where the wanted ladder names the classes of a leg in their order, those fall short of which more is held than is wanted, and each comes to what is held.
#[tactic(auto, using(crate::proofs::Held::short_is_held))]
pub fn what_is_held_falls_short()
    ensures { ShortIsHeld }
{}

/// A leg comes to the very limits that are wanted, where these name its classes in their order, with their marks, and have room for what is held.
#[tactic(auto, using(crate::proofs::Held::room_is_reached))]
pub fn room_is_reached()
    ensures { RoomIsReached }
{}
