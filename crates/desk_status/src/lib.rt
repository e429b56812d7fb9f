//! What an open host says of itself while it runs: the lines of its journal, the groups in which they came, its desks, and the seats
//! that are sold.
//! It knows the lines of a journal, locks, threads and a clock, and nothing of what desks say, of how they are answered, or of files.
#![tactic(auto)]

mod board;
mod saying;
mod tally;
mod text;

pub use board::Board;
pub use saying::{Sayer, start_status};
pub use tally::Tally;
pub use text::{MOST_STATUS, StatusText, is_status, status_text};
