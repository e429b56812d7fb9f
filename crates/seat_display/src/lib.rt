//! The published table: viewers look at it without a lock, and one publisher changes it.
//! It knows what entries leave, and nothing of sessions, of locks or of how entries come about.
#![tactic(auto)]

mod book;
mod opening;
mod publisher;
mod rule;
mod table;
mod viewer;

pub use opening::{Shows, open};
pub use publisher::{Publisher, Told};
pub use viewer::{Sight, Viewer};
