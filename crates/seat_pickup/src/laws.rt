//! The law of what is picked up.
ghost use Rattle.seat_pickup.specs.Pickups.{MovesBalance};

/// What was held on a flight in a class, or on a leg, with what was sold and confirmed and without what was cancelled, is what is held.
#[tactic(auto, using(crate::proofs::Balancing::moves_balance))]
pub fn moves_balance()
    ensures { MovesBalance }
{}
