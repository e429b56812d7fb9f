//! What the file of a journal may not be: one of the inputs, or a file that the replies or what is said of faults go to.
ghost use Rattle.std.specs.Prelude.{◌≡◌, IfErr, IsTrue};
ghost use Rattle.seat_files.specs.Refusals.{file_fault, is_failure, is_of_file};

use crate::file_fault::{Bar, Failure, FileFault};
use crate::journal_file::{UNFINISHED, is_same};
use crate::kept_file::KEPT_BEFORE;
use crate::refusal::Refusal;
use crate::seal_file::SEAL;
use crate::streams::{Input, STANDARD, STANDARD_ERROR, STANDARD_OUTPUT};
use seat_desk::{DeskFault, Inputs};
use std::fs::Metadata;
use std::{fs, io};

/// The file that a journal is to be written to, as it is before that.
#[derive(Drop)]
pub struct Guard {
    path: String,
    there: Option<Metadata>,
}

impl Guard {
    /// Looks at the file. Only a regular one is looked at: a pipe or a device may be written to at any time. A name that a journal may
    /// not have is refused.
    pub fn new(rt: &HostRuntime, path: &str) -> Result<Guard, Refusal>
        ensures refused { IfErr result (λ refusal. IsTrue (is_of_file refusal.fault)) }
    {
        let there = match there_at(rt, path) {
            Ok(there) => there,
            Err(fault) => return Err(Refusal::of_file(path, fault)),
        };
        match String::from_str(rt.alloc(), path) {
            Ok(path) => Ok(Guard { path, there }),
            Err(_) => Err(Refusal::of_file(path, FileFault::Failed(Failure::Memory))),
        }
    }

    /// Refuses a file that is one of the inputs, by its name or by its device and its number there, so by a link too.
    pub fn pass(
        &self,
        inputs: &Inputs<Input, Input>,
        scripts: &[Input],
        more: &[&Input],
    ) -> Result<(), Refusal>
        ensures refused { IfErr result (λ refusal. IsTrue (is_of_file refusal.fault)) }
    {
        if let Err(fault) = self.pass_one(&inputs.set) {
            return Err(self.refused(&inputs.set, fault));
        }
        if let Err(fault) = self.pass_one(&inputs.limits) {
            return Err(self.refused(&inputs.limits, fault));
        }
        for script in scripts {
            if let Err(fault) = self.pass_one(script) {
                return Err(self.refused(script, fault));
            }
        }
        for input in more {
            if let Err(fault) = self.pass_one(input) {
                return Err(self.refused(input, fault));
            }
        }
        Ok(())
    }

    /// Refuses the file that standard output goes to, since the replies would be written over the journal, and that of standard error, whose
    /// notes would stand among its lines. Where the first can't be looked at, it may be this file.
    pub fn pass_output(&self, rt: &HostRuntime) -> Result<(), Refusal>
        ensures refused { IfErr result (λ refusal. IsTrue (is_of_file refusal.fault)) }
    {
        match self.pass_standard(rt) {
            Ok(()) => Ok(()),
            Err(fault) => Err(Refusal::of_file(self.path.as_str(), fault)),
        }
    }

    pub(crate) fn pass_standard(&self, rt: &HostRuntime) -> Result<(), FileFault> {
        let Some(there) = &self.there else {
            return Ok(());
        };
        match fs::metadata(rt, STANDARD_OUTPUT) {
            Ok(file) if !is_same(&file, there) => pass_error(rt, there),
            _ => Err(FileFault::Barred(Bar::Output)),
        }
    }

    /// Refuses a file that is there and not empty.
    pub fn keep(&self) -> Result<(), Refusal>
        ensures refused { IfErr result (λ refusal. IsTrue (is_of_file refusal.fault)) }
    {
        match &self.there {
            Some(file) if file.len() > 0 => {
                let fault = FileFault::Barred(Bar::NotEmpty);
                Err(Refusal::of_file(self.path.as_str(), fault))
            }
            _ => Ok(()),
        }
    }

    fn pass_one(&self, input: &Input) -> Result<(), FileFault> {
        if !self.path.is_empty() && input.name() == self.path.as_str() {
            return Err(FileFault::Barred(Bar::Another));
        }
        let Some(there) = &self.there else {
            return Ok(());
        };
        match input.looked()? {
            Some(file) if is_same(&file, there) => Err(FileFault::Barred(Bar::Another)),
            _ => Ok(()),
        }
    }

    /// An input that fails is refused under its own name.
    #[tactic(auto, using(crate::proofs::Refused::of_failure))]
    fn refused(&self, input: &Input, fault: FileFault) -> Refusal
        ensures value { result.fault ≡ file_fault fault }
        ensures file { IsTrue (is_of_file result.fault) }
    {
        match fault {
            FileFault::Failed(failure) => Refusal::failed(input.name(), failure),
            FileFault::Barred(_) => Refusal::of_file(self.path.as_str(), fault),
        }
    }
}

/// What is there under a name that a journal may have, where it is a regular file.
fn there_at(rt: &HostRuntime, path: &str) -> Result<Option<Metadata>, FileFault> {
    if path == STANDARD {
        return Err(FileFault::Barred(Bar::NoFile));
    }
    if is_reserved(path) {
        return Err(FileFault::Barred(Bar::Reserved));
    }
    match fs::metadata(rt, path) {
        Ok(file) => Ok(Some(file).filter(|file| file.is_file())),
        Err(error) if error.kind() == io::ErrorKind::NotFound => Ok(None),
        Err(error) => Err(FileFault::from(error)),
    }
}

/// Refuses the file that standard error goes to, and says nothing of it there, since that would be written to this very file. Where nothing
/// is open on it nothing goes there.
pub fn pass_error(rt: &HostRuntime, there: &Metadata) -> Result<(), FileFault> {
    match fs::metadata(rt, STANDARD_ERROR) {
        Ok(file) if is_same(&file, there) => Err(FileFault::Barred(Bar::Error)),
        _ => Ok(()),
    }
}

/// The files of all inputs and of standard output, as far as they have one.
pub fn files_taken(
    rt: &HostRuntime,
    inputs: &Inputs<Input, Input>,
    scripts: &[Input],
    more: &[&Input],
) -> Result<Vec<Metadata>, Refusal>
    ensures refused { IfErr result (λ refusal. IsTrue (is_failure refusal.fault)) }
{
    let mut files = Vec::new(rt.alloc());
    if let Err(failure) = add_looked(&mut files, &inputs.set) {
        return Err(Refusal::failed(inputs.set.name(), failure));
    }
    if let Err(failure) = add_looked(&mut files, &inputs.limits) {
        return Err(Refusal::failed(inputs.limits.name(), failure));
    }
    for script in scripts {
        if let Err(failure) = add_looked(&mut files, script) {
            return Err(Refusal::failed(script.name(), failure));
        }
    }
    for input in more {
        if let Err(failure) = add_looked(&mut files, input) {
            return Err(Refusal::failed(input.name(), failure));
        }
    }
    match add_file(&mut files, fs::metadata(rt, STANDARD_OUTPUT).ok()) {
        Ok(()) => Ok(files),
        Err(_) => Err(Refusal::from(DeskFault::Memory)),
    }
}

fn add_looked(files: &mut Vec<Metadata>, input: &Input) -> Result<(), Failure> {
    let file = input.looked()?;
    add_file(files, file)
}

fn add_file(files: &mut Vec<Metadata>, file: Option<Metadata>) -> Result<(), Failure> {
    let Some(file) = file else {
        return Ok(());
    };
    match files.push(file) {
        Ok(()) => Ok(()),
        Err(_) => Err(Failure::Memory),
    }
}

/// Whether a name may not be that of a journal: it ends as the name of a file does that stands beside a journal.
fn is_reserved(path: &str) -> bool {
    path.ends_with(SEAL) || path.ends_with(UNFINISHED) || is_kept(path)
}

fn is_kept(path: &str) -> bool {
    match path.rfind(KEPT_BEFORE) {
        Some(place) => path[place + KEPT_BEFORE.len()..]
            .bytes()
            .all(|byte| byte.is_ascii_digit()),
        None => false,
    }
}
