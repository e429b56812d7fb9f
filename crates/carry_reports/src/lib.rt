//! The report of a carry: what became of each live booking of the older journal, a line each, and a line of sums.
//! It knows where a booking goes, which ones were asked for and what is left of them; nothing of how limits come about, of files or of seals.
#![tactic(auto)]

mod codes;
mod counting;
mod fating;
mod line;
mod numbers;
mod reporting;
mod sums;

pub use codes::code_of;
pub use fating::{Asked, Carried, Fate, Fated, Outcome, fates};
pub use numbers::{OwnNumber, own_number};
pub use reporting::report;
