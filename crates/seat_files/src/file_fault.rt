//! Why a file of a command is refused, ahead of its name being put to that.
ghost use Rattle.std.specs.Prelude.{◌≡◌, IsTrue};
ghost use Rattle.seat_files.specs.Refusals.{failure_fault, file_fault, is_failure, is_of_file};

use crate::journal_file::UNFINISHED;
use crate::refusal::Refusal;
use crate::seal_file::SEAL;
use seat_desk::DeskFault;
use std::alloc::AllocError;
use std::io;

/// What the name of a journal's new seal ends with, until it takes that of the old one.
pub const SEAL_UNFINISHED: &str = ".seal.unfinished";

/// Why a file is refused that no seal may name.
pub const TOO_LONG: &str = "Has more bytes than a seal says";

/// Why --no-clobber refuses a file.
pub const NOT_EMPTY: &str = "Is there and not empty";

/// Which file of a name failed: it, or one that stands beside it.
#[derive(Clone, Copy)]
pub enum Part {
    Named,
    Unfinished,
    Seal,
    SealUnfinished,
}

impl Part {
    /// What its name ends with behind the other.
    pub(crate) fn ending(self) -> &'static str {
        match self {
            Part::Named => "",
            Part::Unfinished => UNFINISHED,
            Part::Seal => SEAL,
            Part::SealUnfinished => SEAL_UNFINISHED,
        }
    }
}

/// What failed while a file was opened, read or made.
#[derive(Clone, Copy)]
pub enum Failure {
    /// A growth was refused.
    Memory,
    /// The file, or one beside it, with the system's number for that.
    Device { part: Part, reason: Option<i32> },
    /// Standard output is closed from the start.
    OutputClosed,
}

impl Failure {
    /// That of a file of this name, or of one beside it.
    pub fn of(part: Part, error: &io::Error) -> Failure {
        if error.kind() == io::ErrorKind::OutOfMemory {
            return Failure::Memory;
        }
        Failure::Device {
            part,
            reason: error.raw_os_error(),
        }
    }
}

impl From<io::Error> for Failure {
    fn from(error: io::Error) -> Failure {
        Failure::of(Part::Named, &error)
    }
}

/// Why a file may not be the journal's, or stand beside it.
#[derive(Clone, Copy)]
pub enum Bar {
    /// It is standard input, or no name of a file.
    NoFile,
    NoName,
    Reserved,
    NotRegular,
    SealNotRegular,
    Replaced,
    Held,
    TooLong,
    NotEmpty,
    Another,
    UnfinishedTaken,
    SealTaken,
    Output,
    /// Nobody is told of it: that would be written to this very file.
    Error,
}

impl Bar {
    fn why(self) -> &'static str {
        match self {
            Bar::NoFile => "Is no file",
            Bar::NoName => "Names no file",
            Bar::Reserved => "Ends as a file beside a journal",
            Bar::NotRegular => "Is no regular file",
            Bar::SealNotRegular => "Its .seal is no regular file",
            Bar::Replaced => "Is replaced again and again",
            Bar::Held => "Another run, seal or host has it",
            Bar::TooLong => TOO_LONG,
            Bar::NotEmpty => NOT_EMPTY,
            Bar::Another => "Is another file of the command",
            Bar::UnfinishedTaken => "Its .unfinished is a file of the command",
            Bar::SealTaken => "Its .seal is a file of the command",
            Bar::Output => "Is where standard output goes",
            Bar::Error => "Is where standard error goes",
        }
    }
}

/// A file fails, or may not be the journal's.
#[derive(Clone, Copy)]
pub enum FileFault {
    Failed(Failure),
    Barred(Bar),
}

impl From<io::Error> for FileFault {
    fn from(error: io::Error) -> FileFault
        ensures { IsTrue (is_failure (file_fault result)) }
    {
        FileFault::Failed(Failure::of(Part::Named, &error))
    }
}

impl From<Failure> for FileFault {
    fn from(failure: Failure) -> FileFault
        ensures { result ≡ FileFault.Failed failure }
    {
        FileFault::Failed(failure)
    }
}

impl From<AllocError> for FileFault {
    fn from(_: AllocError) -> FileFault
        ensures { result ≡ FileFault.Failed Failure.Memory }
    {
        FileFault::Failed(Failure::Memory)
    }
}

impl Refusal {
    /// The same of the file of this name.
    pub(crate) fn failed(name: &str, failure: Failure) -> Refusal
        ensures value { result.fault ≡ failure_fault failure }
        ensures failure { IsTrue (is_failure result.fault) }
    {
        match failure {
            Failure::Memory => Refusal::from(DeskFault::Memory),
            Failure::Device { part, reason } => Refusal::from(DeskFault::Device)
                .at(name, reason)
                .beside(part.ending()),
            Failure::OutputClosed => Refusal::of_closed_output(),
        }
    }

    /// The file of this name fails, or may not be the journal's.
    #[tactic(auto, using(crate::proofs::Refused::of_failure))]
    pub(crate) fn of_file(name: &str, fault: FileFault) -> Refusal
        ensures value { result.fault ≡ file_fault fault }
        ensures file { IsTrue (is_of_file result.fault) }
    {
        match fault {
            FileFault::Failed(failure) => Refusal::failed(name, failure),
            FileFault::Barred(Bar::Error) => Refusal::barred(name, Bar::Error.why()).silenced(),
            FileFault::Barred(bar) => Refusal::barred(name, bar.why()),
        }
    }
}
