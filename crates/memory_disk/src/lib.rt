//! Files in memory that a crash tears, and a device that fails behind so many calls: what the tests of files stand on.
//! It knows what `seat_disk` says of a file, and nothing of real ones.
#![tactic(auto)]

mod failing;
mod folder;
mod fuse;
mod torn_tape;

pub use folder::Folder;
pub use fuse::Fuse;
pub use torn_tape::TornTape;
