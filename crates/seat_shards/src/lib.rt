//! Journals of hosts that have different flights over the same set and limits, read and audited one behind the other.
//! It knows on which flights a journal has lines, and nothing of how a line is answered.
#![tactic(auto)]

mod auditing;
mod fault;
pub mod laws;
mod taking;

pub use auditing::desk_shards;
pub use fault::ShardFault;
pub use taken_journals::Taken;
pub use taking::take_one;
