//! Stretches of a line, each with the number of the row that counts on it: rows are given from the last to the first, and the first to come stays.
//! It knows no row and no day.
#![tactic(auto)]

mod stretches;

pub use stretches::Stretches;
