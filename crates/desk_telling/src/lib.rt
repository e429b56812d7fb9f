//! What a desk is told of the lines of a journal: the replies to its own, and the advices to bookings of its own.
//! It knows lines, flights and how a reply is spelled, and nothing of who answers, of files or of who reads.
#![tactic(auto)]

pub mod laws;
mod lines;
mod segment;
mod telling;

pub use lines::segment_text;
pub use segment::segment_of;
pub use telling::{line_numbered, put_told, put_told_behind};
