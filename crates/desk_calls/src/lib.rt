//! The numbered calls of a session: where the line of each stands in a journal that grows, and what the journal is behind a list of
//! them that is sent more often than once.
//! It knows whose a line of a journal is, and nothing of desks, of texts or of what a line is answered.
#![tactic(auto)]

mod call_index;
pub mod laws;

pub use call_index::CallIndex;
