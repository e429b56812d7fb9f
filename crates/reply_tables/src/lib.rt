//! The replies to the lines of a journal as a table, beside the scripts that asked for them.
//! It knows what a row says, and leaves how one is spelled, and how the texts are read, to the crates below.
#![tactic(auto)]

mod laws;
mod rows;
mod sessions;
mod table;

pub use laws::lines_have_rows;
pub use table::desk_reply_table;
