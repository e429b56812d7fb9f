//! `loads`: how full each dated leg is after a journal, class by class, and what all of them come to.
//! It knows the texts of the answers, and leaves what is read to the crates below and every number to those below that.
#![tactic(auto)]

mod leg;
mod loads;
mod passengers;
mod sums;

pub use leg::{held_on, share, top_limit};
pub use loads::{LoadsOf, is_kept};
pub use passengers::{Riders, flight_riders};
pub use sums::{LegSums, Sums, kept_legs, sums_of};
