//! The booking limits over which live bookings are carried into a new season: who holds a seat is not put out by a limit, which is a decision of sale;
//! and the law that a carry onto the same season leaves bookings, lists and limits as they are.
//! Its functions know which limits are wanted of each new leg and what is held and waits there, and nothing of how a line is answered, of files or of
//! reports.
#![tactic(auto)]

mod changing;
mod counting;
mod fitting;
mod laws;
mod lifting;
mod parting;
mod telling;
mod wanting;

pub use changing::changes_for;
pub use counting::{Over, overs};
pub use laws::{carry_is_same, flights_own_bookings_suffice, lifted_limits_have_room};
pub use lifting::lifted_limits;
pub use parting::{ByFlight, by_flight};
pub use telling::put_overs;
pub use wanting::Seasons;
