//! Which of a run's files stands in a journal already, by what the journal's seal says that its runs booked.
//! It knows files and seals, and nothing of what a script asks.
ghost use Rattle.std.specs.Prelude.{◌≡◌};

use crate::fault::Fault;
use crate::file_fault::Part;
use crate::refusal::Refusal;
use crate::seal_file::SealFile;
use crate::streams::{Input, bytes_of, opened_file};
use booked_texts::imprint_beside;
use seat_desk::DeskFault;
use seat_seal::{Seal, SealEntry, SealFault, changes_booked, read_seal, scripts_booked};

/// The most bytes of a script or of changes that are read once more.
const MOST_BYTES: u64 = 16_777_216;

impl Refusal {
    /// Names the script that begins with what a run has booked, or the changes, where it is a regular file. The run is one of the seal that began
    /// ahead of so many lines.
    pub fn noting_booked(
        self,
        rt: &HostRuntime,
        seal: &SealFile,
        lines: u64,
        scripts: &[Input],
        changes: &Input,
    ) -> Refusal
        ensures { result.fault ≡ self.fault }
    {
        match self.fault {
            Fault::Desk(DeskFault::Seal(SealFault::Again)) => {}
            _ => return self,
        }
        match booked_name(rt, seal, lines, scripts, changes) {
            Some(name) => self.at(name, None),
            None => self,
        }
    }
}

fn booked_name<'a>(
    rt: &HostRuntime,
    seal: &SealFile,
    lines: u64,
    scripts: &'a [Input],
    changes: &'a Input,
) -> Option<&'a str> {
    let seal = read_seal(seal.as_beside().text?)?;
    for script in scripts {
        if begins_with_one(rt, script, &seal, lines, Booked::Script) {
            return Some(script.name());
        }
    }
    if begins_with_one(rt, changes, &seal, lines, Booked::Changes) {
        return Some(changes.name());
    }
    None
}

/// What a run may have booked.
#[derive(Clone, Copy)]
enum Booked {
    Script,
    Changes,
}

/// Whether an input begins with what a run booked that the seal has, of either entry.
fn begins_with_one(rt: &HostRuntime, input: &Input, seal: &Seal, lines: u64, what: Booked) -> bool {
    if let Some(text) = input.held() {
        return is_of_one(rt, text, seal, lines, what);
    }
    match bytes_again(rt, input) {
        Some(bytes) => is_of_one(rt, &bytes, seal, lines, what),
        None => false,
    }
}

fn is_of_one(rt: &HostRuntime, bytes: &[u8], seal: &Seal, lines: u64, what: Booked) -> bool {
    if is_of_entry(rt, bytes, &seal.first, lines, what) {
        return true;
    }
    match &seal.second {
        Some(second) => is_of_entry(rt, bytes, second, lines, what),
        None => false,
    }
}

fn is_of_entry(
    rt: &HostRuntime,
    bytes: &[u8],
    entry: &SealEntry,
    lines: u64,
    what: Booked,
) -> bool {
    let SealEntry::Sealed(sealed) = entry else {
        return false;
    };
    let runs = sealed.runs.as_slice();
    let booked = match what {
        Booked::Script => scripts_booked(rt.alloc(), Some(lines), runs),
        Booked::Changes => changes_booked(rt.alloc(), Some(lines), runs),
    };
    match booked {
        Ok(booked) => imprint_beside(bytes, booked.as_slice()).1,
        Err(_) => false,
    }
}

/// The bytes of an input that is a regular file, read once more from its name.
fn bytes_again(rt: &HostRuntime, input: &Input) -> Option<Vec<u8>> {
    match input.looked() {
        Ok(Some(file)) if file.is_file() => {}
        _ => return None,
    }
    let again = opened_file(rt, input.name()).ok()?;
    bytes_of(rt, again, MOST_BYTES, Part::Named).ok()?
}
