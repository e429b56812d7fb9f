//! Live bookings carried into another inventory: each asked for anew by the inventory's own steps, those that hold first.
//! It knows in which order they are asked, and what is left of them; nothing of schedules, files or reports.
#![tactic(auto)]

mod carrying;
pub mod laws;
mod lifting;
mod owned;
mod wanting;

pub use carrying::carry;
pub use lifting::lifted_for;
pub use owned::Owned;
pub use wanting::wanted_for;
