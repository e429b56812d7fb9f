//! A feed, one stream of the numbered requests of all sessions: how far it has come in a journal, and what the journal is behind it, however often it is sent again.
//! It knows whose a line of a journal is, and nothing of texts, of desks or of how a line is answered.
#![tactic(auto)]

pub mod laws;
mod progress;

pub use progress::{CallKind, Progress};
