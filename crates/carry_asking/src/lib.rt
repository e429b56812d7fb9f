//! The laws of bookings that move to another season: no two come to be for the same, and each live booking can be asked for on its new place wherever its
//! class is sold there.
//! It knows the definitions alone.
#![tactic(auto)]

mod laws;

pub use laws::{moved_are_owned, moved_stay_apart};
