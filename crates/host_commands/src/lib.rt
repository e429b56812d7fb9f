//! `serve` and `recover` over the program's real files, pipes and streams.
//! It knows which file, pipe and stream is which, and nothing of what stands in a journal or what a desk's line means.
#![tactic(auto)]

mod clients;
mod feeding;
mod piping;
mod restoring;
mod serving;
mod stating;
mod unserved;

pub use restoring::recover;
pub use serving::serve;
