//! The part of a carry that one of several hosts has: what is on its own flights, and of which live bookings it tells what became.
//! It knows which host has a flight, by its designator; nothing of limits, of how a booking is asked for, or of texts.
#![tactic(auto)]

mod keeping;
mod part;
mod telling;

pub use keeping::{own_changes, own_marks, own_owned};
pub use part::{Part, has_flight};
pub use telling::told;
