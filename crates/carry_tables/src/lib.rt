//! The report of a carry as a table: a row for each live booking of the older journal.
//! It knows what a row says, and leaves what became of a booking, and how a row is spelled, to the crates below.
#![tactic(auto)]

mod laws;
mod reporting;
mod rows;
mod sides;

pub use laws::each_has_a_row;
pub use reporting::report_as;
