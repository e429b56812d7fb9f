//! Tables: rows of values under named columns, written as CSV or as JSON.
//! It knows how a value, a row and a table are spelled, and not what any row says.
#![tactic(auto)]

mod cell;
mod json_rows;
mod laws;
mod plain_rows;
mod sheet;

pub use cell::Cell;
pub use laws::csv_reads_back;
pub use sheet::{Form, Sheet, put_row};
