//! What the requests of scripts and the rows of changes ask of an inventory, when a line of a journal is the very request, and the text of the
//! replies to a line.
//! It knows no file, no seal and no order in which texts are read.
#![tactic(auto)]

mod commands;
mod laws;
mod past;
mod replies;
mod row_changes;
mod very_request;

pub use commands::command_of;
pub use laws::{commands_are_very_requests, requests_are_flown};
pub use past::Past;
pub use replies::{Answered, put_answer};
pub use row_changes::{changes_between, changes_on_day};
pub use very_request::{is_asked, is_very_request};
