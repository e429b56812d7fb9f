//! How far a command is: what its inputs have given, counted where they are read, and one line that says so on a terminal while the
//! command works.
//! It knows counts, a clock and one thread, and nothing of what is read, of what a command does with it, or of terminals.
#![tactic(auto)]

mod course;
mod gauge;
pub mod laws;
mod meter;
mod stand;
mod tally;
mod text;

pub use course::Lines;
pub use gauge::Gauge;
pub use meter::{Meter, Screen};
pub use stand::{Stage, Stand};
pub use tally::Tally;
pub use text::{MOST_LINE, MeterText, cleared_text, meter_text};
