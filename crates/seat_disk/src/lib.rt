//! Files as a crash may leave them: one that is replaced whole, one that is appended to, and how much is appended at once.
//! It knows bytes and where lines end, and nothing of journals or seats.
#![tactic(auto)]

mod group;
mod replaced;
mod synced;
mod tape;

pub use group::{MOST_CUT_BYTES, MOST_CUT_LINES, is_of_a_group, whole_lines};
pub use replaced::{Replaced, replace_whole};
pub use synced::Synced;
pub use tape::{Tape, keep, keep_behind};
