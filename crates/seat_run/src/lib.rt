//! `run`: the requests of scripts, booked by a session on a thread for each, and changes of limits beside them, with the journal
//! of all and the replies. It knows the order in which texts are read, booked and written, and leaves texts to the crate below
//! and every answer to the host.
#![tactic(auto)]

mod front_text;
mod replies;
mod resume;
mod run;
mod sealing;
mod wording;

pub use resume::desk_resume;
pub use run::desk_run;
