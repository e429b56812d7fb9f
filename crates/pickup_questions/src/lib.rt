//! What the lines of a journal behind older ones made of the seats, as tables: class by class, leg by leg or pair by pair, or the sums by flight, by
//! class or by day; and, as a law, that the sums by group are together the line of sums.
//! It knows what a row says, and leaves how one is spelled, and every number, to the crates below.
#![tactic(auto)]

mod by_class;
mod by_day;
mod by_flight;
mod by_leg;
mod by_pair;
mod groups;
mod laws;
mod moved;
mod older;
mod pairs;
mod pickup;

pub use groups::{Groups, Move};
pub use laws::groups_come_to_sums;
pub use moved::Moved;
pub use older::read_older;
pub use pickup::{By, PickupOf};
