//! The files of pipes: which may be one of a desk, and that each has one host, and one role in it.
//! It knows what the system says of a file, and nothing of what goes over it.
ghost use Rattle.std.specs.Prelude.{◌≡◌, false, IfOk, OnErr, OnOk};
ghost use Rattle.desk_pipes.specs.Files.{are_swapped, fault_of, fault_of_others, is_among, is_one, is_pipe, IsOneMore};

use std::fs::{File, OpenOptions, TryLockError};
use std::os::unix::fs::MetadataExt;
use std::{fs, io};

/// The bits of a mode that say what kind of file it is, and those of a pipe.
const KIND: u32 = 0o170_000;

const PIPE: u32 = 0o010_000;

/// The bits by which others may write and read.
const OTHERS_WRITE: u32 = 0o002;

const OTHERS_READ: u32 = 0o004;

/// The bits of the group, that by which it may read, and that by which it may write.
const GROUP: u32 = 0o060;

const GROUP_READS: u32 = 0o040;

const GROUP_WRITES: u32 = 0o020;

/// What a pipe is to its desk.
#[derive(Clone, Copy)]
pub enum Role {
    /// The desk's lines are read from it.
    Input,
    /// The desk is told by it.
    Output,
}

/// Why a file is not one of a desk's pipes.
#[derive(Clone, Copy)]
pub enum PipeFault {
    /// There is none.
    Missing,
    /// It is another kind of file.
    NoPipe,
    /// Others may write a desk's lines to it.
    OthersWrite,
    /// Others may read what a desk is told.
    OthersRead,
    /// It has another role in the same host.
    Twice,
    /// Another host has it.
    Taken,
    /// It is what the desk is told by, and the other is what the desk writes to.
    Swapped,
}

impl PipeFault {
    /// The same in words.
    pub fn why(self) -> &'static str {
        match self {
            PipeFault::Missing => "Is not there",
            PipeFault::NoPipe => "Is no named pipe",
            PipeFault::OthersWrite => "Others may write to it",
            PipeFault::OthersRead => "Others may read it",
            PipeFault::Twice => "Is named twice",
            PipeFault::Taken => "Another host has it",
            PipeFault::Swapped => "Is swapped with the pipe behind it",
        }
    }
}

/// Why a pipe is not opened.
#[derive(Drop)]
pub enum Unopened {
    /// The file is not one of a desk's pipes.
    Unfit(PipeFault),
    /// The system refuses it.
    Failed(io::Error),
}

/// Which file a pipe is: its device, and its number there.
#[derive(Clone, Copy)]
pub struct PipeId {
    pub device: u64,
    pub number: u64,
}

/// Opens a pipe for reading and for writing, so that nobody waits for another to open it, and locks it. It stands behind those that the
/// host has already, and is none of them.
pub fn open_pipe(
    rt: &HostRuntime,
    path: &str,
    role: Role,
    taken: &mut Vec<PipeId>,
) -> Result<File, Unopened>
    ensures once { OnOk result (IsOneMore taken.old.items taken.new.items) }
    ensures same { OnErr result (taken.new.items ≡ taken.old.items) }
{
    pass_kind(rt, path)?;
    let file = opened(rt, path)?;
    let pipe = passed(role, &file, taken.as_slice())?;
    lock(&file)?;
    match taken.push(pipe) {
        Ok(()) => Ok(file),
        Err(_) => Err(Unopened::Failed(io::ErrorKind::OutOfMemory.into())),
    }
}

/// Refuses two pipes of a desk, the one that is read and the one that is written, whose modes tell that they are swapped.
pub fn pass_pair(input: &File, out: &File) -> Result<(), Unopened> {
    if are_swapped(mode_of(input)?, mode_of(out)?) {
        return Err(Unopened::Unfit(PipeFault::Swapped));
    }
    Ok(())
}

fn mode_of(file: &File) -> Result<u32, Unopened> {
    match file.metadata() {
        Ok(there) => Ok(there.mode()),
        Err(error) => Err(Unopened::Failed(error)),
    }
}

/// Whether these modes tell that a desk's two pipes are swapped: its group may read the one that the host reads, and not write to it, and
/// may write to the other and not read it.
pub fn are_swapped(input: u32, out: u32) -> bool
    ensures { result ≡ are_swapped input out }
{
    input & GROUP == GROUP_READS && out & GROUP == GROUP_WRITES
}

// What is no pipe is not opened.
fn pass_kind(rt: &HostRuntime, path: &str) -> Result<(), Unopened> {
    match fs::metadata(rt, path) {
        Ok(there) if is_pipe(there.mode()) => Ok(()),
        Ok(_) => Err(Unopened::Unfit(PipeFault::NoPipe)),
        Err(error) => Err(unnamed(error)),
    }
}

// What the system finds nowhere is no pipe.
fn unnamed(error: io::Error) -> Unopened {
    match error.kind() {
        io::ErrorKind::NotFound => Unopened::Unfit(PipeFault::Missing),
        io::ErrorKind::OutOfMemory => Unopened::Failed(error),
        _ => Unopened::Unfit(PipeFault::NoPipe),
    }
}

fn opened(rt: &HostRuntime, path: &str) -> Result<File, Unopened> {
    let mut how = OpenOptions::new();
    how.read(true);
    how.write(true);
    match how.open(rt, path) {
        Ok(file) => Ok(file),
        Err(error) => Err(Unopened::Failed(error)),
    }
}

// Which pipe it is, where it may be one of the desk's beside those that are taken.
fn passed(role: Role, file: &File, taken: &[PipeId]) -> Result<PipeId, Unopened>
    ensures other { IfOk result (λ pipe. is_among pipe taken.now ≡ false) }
{
    let there = match file.metadata() {
        Ok(there) => there,
        Err(error) => return Err(Unopened::Failed(error)),
    };
    let pipe = PipeId {
        device: there.dev(),
        number: there.ino(),
    };
    match fault_of(role, there.mode(), pipe, taken) {
        Some(fault) => Err(Unopened::Unfit(fault)),
        None => Ok(pipe),
    }
}

// Another host that has the pipe has locked it.
fn lock(file: &File) -> Result<(), Unopened> {
    match file.try_lock() {
        Ok(()) => Ok(()),
        Err(TryLockError::WouldBlock) => Err(Unopened::Unfit(PipeFault::Taken)),
        Err(TryLockError::Error(error)) => Err(Unopened::Failed(error)),
    }
}

/// Why a file of this mode is not one of a desk's pipes, in a host that has these already.
pub fn fault_of(role: Role, mode: u32, pipe: PipeId, taken: &[PipeId]) -> Option<PipeFault>
    ensures { result ≡ fault_of role mode pipe taken.now }
{
    if !is_pipe(mode) {
        return Some(PipeFault::NoPipe);
    }
    if let Some(fault) = fault_of_others(role, mode) {
        return Some(fault);
    }
    if is_among(pipe, taken) {
        return Some(PipeFault::Twice);
    }
    None
}

fn is_pipe(mode: u32) -> bool
    ensures { result ≡ is_pipe mode }
{
    mode & KIND == PIPE
}

fn fault_of_others(role: Role, mode: u32) -> Option<PipeFault>
    ensures { result ≡ fault_of_others role mode }
{
    match role {
        Role::Input if mode & OTHERS_WRITE != 0 => Some(PipeFault::OthersWrite),
        Role::Output if mode & OTHERS_READ != 0 => Some(PipeFault::OthersRead),
        _ => None,
    }
}

fn is_among(pipe: PipeId, taken: &[PipeId]) -> bool
    ensures { result ≡ is_among pipe taken.now }
{
    let [other, more @ ..] = taken else {
        return false;
    };
    is_one(pipe, *other) || is_among(pipe, more)
}

fn is_one(pipe: PipeId, other: PipeId) -> bool
    ensures { result ≡ is_one pipe other }
{
    pipe.device == other.device && pipe.number == other.number
}
