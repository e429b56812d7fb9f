//! The file of a host's status: each line of it takes the place of the one before.
//! It knows files, and nothing of what a line says.
use crate::guard::Guard;
use crate::journal_file::{UNFINISHED, new_at};
use crate::refusal::Refusal;
use crate::streams::{Input, opened};
use seat_desk::{DeskFault, Inputs};
use std::io::Write;
use std::{fs, io};

/// A file that has one line, which is replaced whole.
#[derive(Drop)]
pub struct StatusFile {
    path: String,
    beside_path: String,
}

impl StatusFile {
    /// The file of this name. It is none of the inputs, nor the journal, which is there, nor where standard output or standard error goes. It is a
    /// regular file, or is not there; where it can't be looked at it is taken all the same.
    pub fn of(
        rt: &HostRuntime,
        path: &str,
        inputs: &Inputs<Input, Input>,
        journal: &str,
    ) -> Result<StatusFile, Refusal> {
        match pass(rt, path, inputs, journal) {
            Err(refusal) if refusal.is_barred() => return Err(refusal.as_unsaid()),
            _ => {}
        }
        match StatusFile::at(rt, path) {
            Some(file) => Ok(file),
            None => Err(Refusal::from(DeskFault::Memory)),
        }
    }

    fn at(rt: &HostRuntime, path: &str) -> Option<StatusFile> {
        let (Ok(path), Ok(beside_path)) = (
            format!(in rt.alloc(); "{path}"),
            format!(in rt.alloc(); "{path}{UNFINISHED}"),
        ) else {
            return None;
        };
        Some(StatusFile { path, beside_path })
    }

    pub fn path(&self) -> &str {
        self.path.as_str()
    }

    /// Puts a line in the place of what the file has: a reader finds the one or the other, whole.
    pub fn put(&self, rt: &HostRuntime, line: &[u8]) -> io::Result<()> {
        let mut beside = new_at(rt, self.beside_path.as_str())?;
        beside.write_all(line)?;
        fs::rename(rt, self.beside_path.as_str(), self.path.as_str())
    }
}

fn pass(
    rt: &HostRuntime,
    path: &str,
    inputs: &Inputs<Input, Input>,
    journal: &str,
) -> Result<(), Refusal> {
    let guard = match Guard::new(rt, path) {
        Ok(guard) => guard,
        Err(refusal) => return Err(refusal),
    };
    if let Err(refusal) = pass_inputs(rt, &guard, inputs, journal) {
        return Err(refusal);
    }
    if let Err(refusal) = guard.pass_output(rt) {
        return Err(refusal);
    }
    is_regular(rt, path)
}

fn pass_inputs(
    rt: &HostRuntime,
    guard: &Guard,
    inputs: &Inputs<Input, Input>,
    journal: &str,
) -> Result<(), Refusal> {
    match opened(rt, journal) {
        Ok(lines) => guard.pass(inputs, &[], &[&lines]),
        Err(refusal) => Err(refusal),
    }
}

// What stands there, if anything does, is a regular file.
fn is_regular(rt: &HostRuntime, path: &str) -> Result<(), Refusal> {
    match fs::metadata(rt, path) {
        Ok(there) if !there.is_file() => Err(Refusal::unsaid(path, "Is no regular file")),
        _ => Ok(()),
    }
}
