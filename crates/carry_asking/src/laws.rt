//! The laws of bookings that move to another season, each the contract of a function that does nothing.
ghost use Rattle.carry_asking.specs.Laws.{MovedAreOwned, MovedStayApart};

/// Where no two live bookings have the same locator, place and class, no two have on their new places.
#[tactic(auto, using(crate::proofs::Apart::moved_stay_apart))]
pub fn moved_stay_apart()
    ensures { MovedStayApart }
{}

/// A live booking of a legal history can be asked for on its new place just where each leg has the class, and it is open.
#[tactic(auto, using(crate::proofs::Owned::moved_are_owned))]
pub fn moved_are_owned()
    ensures { MovedAreOwned }
{}
