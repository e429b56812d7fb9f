//! The seal beside a journal: a file of its own in the folder of the file that the journal's name leads to.
//! It knows names and bytes, and nothing of what a seal says.
ghost use Rattle.std.specs.Prelude.{◌≡◌, IfErr, IfOk, IsTrue, None, is_some};
ghost use Rattle.std.specs.Option.{option_map};
ghost use Rattle.seat_files.specs.Refusals.{is_failure};
ghost use Rattle.seat_files.specs.Seals.{seal_bytes, seal_wanted};

use crate::file_fault::{Failure, Part};
use crate::journal_file::is_same;
use crate::refusal::Refusal;
use crate::streams::{Input, bytes_of};
use seat_seal::Beside;
use std::{fs, io};

/// What the name of a journal's seal ends with.
pub const SEAL: &str = ".seal";

/// The most bytes that are read of a seal, which has fewer: a longer file is no seal.
const MOST_SEAL_BYTES: u64 = 262_144;

/// What stands beside a journal, as it was read.
#[derive(Drop)]
pub struct SealFile {
    text: Option<Vec<u8>>,
    is_wanted: bool,
}

impl SealFile {
    /// Nothing, of a journal that is no regular file.
    pub fn nothing(is_wanted: bool) -> SealFile
        ensures text { seal_bytes result ≡ None }
        ensures wanted { seal_wanted result ≡ is_wanted }
    {
        SealFile {
            text: None,
            is_wanted,
        }
    }

    /// What stands beside a journal that is open, where it is a regular file.
    pub fn beside(rt: &HostRuntime, journal: &Input, is_wanted: bool) -> Result<SealFile, Refusal>
        ensures wanted { IfOk result (λ seal. seal_wanted seal ≡ is_wanted) }
        ensures refused { IfErr result (λ refusal. IsTrue (is_failure refusal.fault)) }
    {
        match text_beside(rt, journal) {
            Ok(text) => Ok(SealFile { text, is_wanted }),
            Err(failure) => Err(Refusal::failed(journal.name(), failure)),
        }
    }

    /// Whether something stands beside the journal.
    pub fn is_there(&self) -> bool
        ensures { result ≡ is_some (seal_bytes self.now) }
    {
        self.text.is_some()
    }

    pub fn as_beside(&self) -> Beside<'_>
        ensures text { option_map (λ text. text.now) result.text ≡ seal_bytes self.now }
        ensures wanted { result.is_wanted ≡ seal_wanted self.now }
    {
        let text = match &self.text {
            Some(text) => Some(text.as_slice()),
            None => None,
        };
        Beside {
            text,
            is_wanted: self.is_wanted,
        }
    }
}

/// The name of the seal of the file that a name leads to, if it leads to one.
fn seal_path(rt: &HostRuntime, name: &str) -> Result<Option<String>, Failure> {
    let path = match fs::canonicalize(rt, name) {
        Ok(path) => path.into_string(),
        Err(error) if error.kind() == io::ErrorKind::NotFound => return Ok(None),
        Err(error) => return Err(Failure::from(error)),
    };
    match format!(in rt.alloc(); "{path}{SEAL}") {
        Ok(path) => Ok(Some(path)),
        Err(_) => Err(Failure::Memory),
    }
}

/// The bytes of the seal of a journal that is open, where it is a regular file and has one.
fn text_beside(rt: &HostRuntime, journal: &Input) -> Result<Option<Vec<u8>>, Failure> {
    match journal.looked()? {
        Some(file) if file.is_file() => {}
        _ => return Ok(None),
    }
    match seal_path(rt, journal.name())? {
        Some(path) => text_at(rt, path.as_str()),
        None => Ok(None),
    }
}

/// The bytes of the seal at this path, if there is one. What is no regular file, as a pipe is none, and what is longer than any seal, has
/// none of a seal's.
pub fn text_at(rt: &HostRuntime, path: &str) -> Result<Option<Vec<u8>>, Failure> {
    match fs::metadata(rt, path) {
        Ok(there) if !there.is_file() => return Ok(Some(Vec::new(rt.alloc()))),
        _ => {}
    }
    let file = match fs::open(rt, path) {
        Ok(file) => file,
        Err(error) if error.kind() == io::ErrorKind::NotFound => return Ok(None),
        Err(error) => return Err(Failure::of(Part::Seal, &error)),
    };
    match bytes_of(rt, file, MOST_SEAL_BYTES, Part::Seal)? {
        Some(text) => Ok(Some(text)),
        None => Ok(Some(Vec::new(rt.alloc()))),
    }
}

/// Whether a journal's name leads to another file than the one that is open, as where a run replaced it meanwhile.
pub fn is_moved(rt: &HostRuntime, journal: &Input) -> bool {
    let Ok(Some(own)) = journal.looked() else {
        return false;
    };
    match fs::metadata(rt, journal.name()) {
        Ok(there) => own.is_file() && !is_same(&own, &there),
        Err(_) => false,
    }
}
