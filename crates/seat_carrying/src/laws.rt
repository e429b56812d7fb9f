//! The laws of carrying, each the contract of a function that does nothing.
ghost use Rattle.seat_carrying.specs.Laws.{CarryIsIdentity, LiftedHasRoom, NobodyLoses, WhoLosesFoundNoRoom};

/// Where there is room for what is held and for what waits, each held booking is held, each waiting one waits or is held, with its
/// seats, and those that wait keep their order.
#[tactic(auto, using(crate::proofs::Carried::nobody_loses))]
pub fn nobody_loses()
    ensures { NobodyLoses }
{}

/// Over the limits that they have, live bookings are carried as they are: the same bookings held, the same waiting, in the same order.
#[tactic(auto, using(crate::proofs::Identity::carry_is_identity))]
pub fn carry_is_identity()
    ensures { CarryIsIdentity }
{}

/// Limits that nest have room, lifted to what is held and to what waits, for all of it, where the leg has that many seats.
pub fn lifted_has_room()
    ensures { LiftedHasRoom }
{}

/// Where a held booking isn't held again, there was no room for it behind those that were asked ahead.
#[tactic(auto, using(crate::proofs::Lifted::who_loses_found_no_room))]
pub fn who_loses_found_no_room()
    ensures { WhoLosesFoundNoRoom }
{}
