//! What the commands of `seatdesk` say of a journal that is still open: `audit --open`, the other questions with `--open`, and the
//! line of `recover`.
//! It knows the bytes of a journal, and nothing of who writes it, of files or of locks.
#![tactic(auto)]

mod ending;
pub mod laws;
mod open_audit;
mod open_question;
mod recovered;

pub use open_audit::{OpenAudit, damage_fault};
pub use open_question::OpenQuestion;
pub use recovered::recovered_line;
