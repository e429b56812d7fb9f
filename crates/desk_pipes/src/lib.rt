//! The pipes of several desks: which files they are, lines that wait for the host, in the order in which they came, and texts that wait for each desk to be read.
//! It knows files, bytes, lines, locks and threads, and nothing of what a line means or of how it is answered.
#![tactic(auto)]

mod cutting;
mod holding;
mod inbox;
pub mod laws;
mod letter;
mod mark;
mod outbox;
mod outboxes;
mod outlook;
mod pipe_file;
mod post;
mod text;
mod threads;
mod watch;

pub use cutting::HeldLine;
pub use inbox::{Inbox, Said, Taken};
pub use letter::{Answer, Letter};
pub use mark::Mark;
pub use outbox::Outbox;
pub use outlook::{LooksGoBy, Outlook};
pub use pipe_file::{
    PipeFault, PipeId, Role, Unopened, are_swapped, fault_of, open_pipe, pass_pair,
};
pub use post::{LastTold, Post};
pub use text::{Begun, Delivered, DeliveredEach, Room};
pub use threads::{Reading, mark_pipe, read_desk, start_writer, write_desk};
pub use watch::{Outcome, Watch, Watched};
