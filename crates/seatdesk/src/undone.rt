//! Why a command was not done: a refusal, or a word of its line that only the command could tell to be wrong.
use seat_desk::DeskFault;
use seat_files::Refusal;
use std::alloc::AllocError;

/// Why a command was not done.
#[derive(Drop)]
pub enum Undone {
    /// One of its words is not what it may be, which only the command could tell.
    Word(clap::Error),
    Refused(Refusal),
}

impl From<Refusal> for Undone {
    fn from(refusal: Refusal) -> Undone {
        Undone::Refused(refusal)
    }
}

impl From<AllocError> for Undone {
    fn from(_error: AllocError) -> Undone {
        Undone::Refused(Refusal::from(DeskFault::Memory))
    }
}
