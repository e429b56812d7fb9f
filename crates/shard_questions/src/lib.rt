//! Questions about journals of hosts that have different flights over one set and its limits, read as one journal of all of them.
//! It knows how they become one, and neither how a journal is read nor what a question asks.
#![tactic(auto)]

mod answering;
mod joining;
pub mod laws;

pub use answering::answer_shards;
pub use joining::{JoinedCore, inventory_together};
