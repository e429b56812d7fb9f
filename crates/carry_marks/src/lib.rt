//! Which classes are closed again in another season: those that an inventory has closed, on the new leg of the same name.
//! It knows legs by their names and which classes are closed there; nothing of bookings, or of how a class is closed.
#![tactic(auto)]

mod choosing;

pub use choosing::marks_of;
