//! The real files and standard streams of the program: what a command reads and writes, where a journal and its seal are put, kept and
//! locked, and the refusal that names the file which a fault is of.
//! It knows the system and the faults, and nothing of what a command does with its files.
#![tactic(auto)]

mod booked_file;
mod fault;
mod file_fault;
mod guard;
mod journal_file;
mod kept_file;
mod list_file;
mod once;
mod refusal;
mod seal_file;
mod seal_out;
mod status_file;
mod streams;
mod telling;

pub use fault::{CarryKind, Fault, ListKind};
pub use file_fault::{NOT_EMPTY, TOO_LONG};
pub use guard::{Guard, files_taken};
pub use journal_file::{JournalFile, is_one_file, is_same, lines_in, of};
pub use kept_file::{Content, KEPT_BEFORE, Kept, kept_number};
pub use list_file::ListFile;
pub use once::pass_once;
pub use refusal::{Behind, Refusal, Shown, told};
pub use seal_file::{SEAL, SealFile, is_moved};
pub use seal_out::SealOut;
pub use status_file::StatusFile;
pub use streams::{
    Input, Output, metered_output, opened, opened_or, standard_input, standard_output, taken,
    taken_or,
};
