//! What a new season makes of the flights of an old one, and how many seats are held and wait on each flight that it touches.
//! It knows flights, their ladders and what a journal holds, and nothing of how a season is written or where its files lie.
#![tactic(auto)]

mod changes;
mod comparing;
mod differing;
mod fault;
mod line;
mod naming;
mod seasons;
mod seats;
mod sums;

pub use changes::{Change, fates};
pub use comparing::Comparison;
pub use differing::{What, same_legs, times_differ};
pub use fault::SeasonFault;
pub use naming::Name;
pub use seasons::desk_compare;
