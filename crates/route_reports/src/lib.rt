//! `route`: which shard each row of changes and each segment line of scripts goes to, over readers and a writer.
//! It knows the texts that come and the one that goes, and nothing of how a shard is found, or of who sends a line there.
#![tactic(auto)]

mod report;

pub use report::desk_route;
