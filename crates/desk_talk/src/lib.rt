//! The talk of a desk with an open host: the host goes on with the journal of its file beside its seal, the desk is told where it stands, each of
//! its lines is answered before the next is heard, what has no line feed is never heard, and with the desk the journal ends and is sealed.
//! It knows a reader, a writer and a file that is added to, and nothing of the command line or of what a line means.
#![tactic(auto)]

mod closing;
mod opening;
mod piece;
mod serving;
mod talk_fault;
mod talks;

pub use closing::{ServedFault, serve_sealed};
pub use opening::open_host;
pub use serving::{DayFault, serve_desk};
pub use talk_fault::TalkFault;
pub use talks::talk;
