//! Scripts with wrong lines: which these are, the script without them, and the list that is made of them.
//! It knows the lines of booking messages, and nothing of days, journals or files.
#![tactic(auto)]

mod cleaning;
pub mod laws;
mod listing;
mod sorting;

pub use cleaning::{Cleaned, Passage, without_wrong_lines};
pub use listing::{is_list, other_row, put_refusals, row_number, rows_behind, stray_row};
pub use sorting::{Sorted, list_of, sort_out};
