//! Where live bookings go when a schedule changes: onto the place of the new flights that has the name of their own.
//! It knows names of places, today and who owns a booking; nothing of limits, of how a booking is asked for, or of files.
#![tactic(auto)]

mod moving;
mod target;

pub use moving::moved;
pub use target::{Target, name_of, target_of};
