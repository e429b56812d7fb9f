//! What each line of a desk means that talks with an open host: a line of a message, a look at the seats that are left, or its leave.
//! It knows the text of lines, and nothing of schedules, limits, bookings or answers.
#![tactic(auto)]

mod calls;
mod desk;
mod epoch;
mod words;

pub use desk::{Desk, Meaning, Standing, Wrong};
pub use epoch::by_epoch;
