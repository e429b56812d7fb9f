//! What the lines behind the first ones of a journal made of the seats of each class on each flight, of those on each leg, or of those between two
//! stations.
//! It knows how lines move seats, and nothing of texts, sessions, readers and writers.
#![tactic(auto)]

mod classes;
mod counting;
mod laws;
mod moved;
mod moves;
mod paired;
mod pairing;
mod past;
mod split;

pub use classes::{Pickup, pickups};
pub use counting::add_at;
pub use laws::moves_balance;
pub use moved::{MoveSums, Moves, has_any, moved_at, moves_behind};
pub use paired::{PairMoves, pair_moves, paired_at};
pub use pairing::Pairing;
pub use past::{Past, past_of};
pub use split::{Split, Tally};
