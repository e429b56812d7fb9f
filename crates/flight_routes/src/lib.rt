//! Which of several hosts a line goes to: each host has the flights of some designators, so all lines of a flight go to one.
//! It knows lines and the names of flights that stand in them, and nothing of schedules, limits or bookings, or of who sends a line.
#![tactic(auto)]

mod designators;
pub mod laws;
mod row_routes;
mod script_routes;

pub use designators::Designator;
pub use row_routes::route_changes;
pub use script_routes::{Opening, route_script};
