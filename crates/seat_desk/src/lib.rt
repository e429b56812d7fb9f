//! What the commands of `seatdesk` stand on: the inputs that they read and check, their refusals, pieces of what they write,
//! and the one function that answers a question about a journal. It knows the order in which inputs are checked, and no question.
#![tactic(auto)]

mod answering;
mod fault;
mod inputs;
mod laws;
mod loading;
mod question;
mod replaying;
mod schedule;
mod sealing;
mod standing;
mod streams;
mod text;

pub use answering::answer_question;
pub use fault::DeskFault;
pub use inputs::Inputs;
pub use laws::{loaded_ladders_differ, loaded_replays_keep_limits};
pub use loading::{Based, Loaded, MOST_LIMIT_BYTES, limit_rows, load, load_based};
pub use question::Question;
pub use replaying::{
    MOST_JOURNAL_BYTES, MOST_LINES, NO_LINES, audit_line, no_lines, replayed, replayed_in_parts,
    totalled,
};
pub use schedule::{MOST_SET_BYTES, data_set, scheduled};
pub use sealing::agreed;
pub use standing::Standing;
pub use streams::read_input;
pub use text::{put, put_designator, put_head, put_number, put_way};
