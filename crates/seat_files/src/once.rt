//! That no file is two scripts of a run, or a script and the changes: what it asks would be booked twice.
//! It knows which files are one, and nothing of what is in them.
ghost use Rattle.std.specs.Prelude.{◌≡◌, ◌<◌, IfErr, IfSome, IsTrue, length};
ghost use Rattle.seat_files.specs.Once.{is_one, named_again, place_among};
ghost use Rattle.seat_files.specs.Refusals.{is_of_scripts};

use crate::file_fault::Failure;
use crate::refusal::Refusal;
use crate::streams::Input;
use std::os::unix::fs::MetadataExt;

/// Why such a file is refused.
const TWICE: &str = "Is named twice, and would be booked twice";

/// Which file it is: its device, and its number there.
#[derive(Clone, Copy)]
pub(crate) struct FileId {
    pub device: u64,
    pub number: u64,
}

/// Refuses a regular file that has bytes and is two of the scripts, or a script and the changes, by whatever names.
#[tactic(auto, using(crate::proofs::Refused::scripts_of_failure))]
pub fn pass_once(rt: &HostRuntime, scripts: &[Input], changes: &Input) -> Result<(), Refusal>
    ensures refused { IfErr result (λ refusal. IsTrue (is_of_scripts refusal.fault)) }
{
    let mut files = Vec::new(rt.alloc());
    for script in scripts {
        if let Err(failure) = add_id(&mut files, script) {
            return Err(Refusal::failed(script.name(), failure));
        }
    }
    if let Err(failure) = add_id(&mut files, changes) {
        return Err(Refusal::failed(changes.name(), failure));
    }
    match named_again(files.as_slice()) {
        Some(place) => Err(Refusal::doubled(name_at(scripts, place, changes), TWICE)),
        None => Ok(()),
    }
}

fn add_id(files: &mut Vec<Option<FileId>>, input: &Input) -> Result<(), Failure> {
    let id = match input.looked()? {
        Some(file) if file.is_file() && file.len() > 0 => Some(FileId {
            device: file.dev(),
            number: file.ino(),
        }),
        _ => None,
    };
    match files.push(id) {
        Ok(()) => Ok(()),
        Err(_) => Err(Failure::Memory),
    }
}

/// The name of the script at this place, and behind all scripts that of the changes.
fn name_at<'a>(scripts: &'a [Input], place: usize, changes: &'a Input) -> &'a str {
    match scripts.get(place) {
        Some(script) => script.name(),
        None => changes.name(),
    }
}

/// The second place of the first file that is named again.
fn named_again(files: &[Option<FileId>]) -> Option<usize>
    ensures value { result ≡ named_again files.now }
    ensures within { IfSome result (λ place. place < length files.now) }
{
    let [file, more @ ..] = files else {
        return None;
    };
    match place_among(file, more).or(named_again(more)) {
        Some(place) => Some(place + 1),
        None => None,
    }
}

/// The first place of the file among others.
fn place_among(file: &Option<FileId>, others: &[Option<FileId>]) -> Option<usize>
    ensures value { result ≡ place_among file.now others.now }
    ensures within { IfSome result (λ place. place < length others.now) }
{
    let [other, more @ ..] = others else {
        return None;
    };
    if is_one(file, other) {
        return Some(0);
    }
    match place_among(file, more) {
        Some(place) => Some(place + 1),
        None => None,
    }
}

fn is_one(file: &Option<FileId>, other: &Option<FileId>) -> bool
    ensures { result ≡ is_one file.now other.now }
{
    match file {
        Some(file) => match other {
            Some(other) => file.device == other.device && file.number == other.number,
            None => false,
        },
        None => false,
    }
}
