//! The two journals of a carry and their seals, each under its lock.
//! It knows which of them is locked first, and what goes where nothing is carried.
use crate::inputs::Seasons;
use crate::parting::mark_name;
use carry_parts::Part;
use seat_desk::DeskFault;
use seat_files::{Guard, Input, JournalFile, Refusal, SealOut, files_taken};
use seat_words::CarryJob;
use std::fs;
use std::fs::Metadata;

/// Why a new journal that is a pipe or a device is refused: it can't be written once more where a carry did not end.
const NO_FILE: &str = "Is no regular file";

/// Why one is refused that a link leads to under a name that does not end with the number of its shard.
const NO_SHARD: &str = "Leads to a name without the shard's number";

/// The journal whose bookings are carried, under its lock: its seal, and what it has.
pub(crate) struct Older {
    pub seal: SealOut,
    pub journal: Input,
}

impl Drop for Older {
    fn drop(self) {
        let Older {
            seal: _seal,
            journal: _journal,
        } = self;
    }
}

/// Locks the journal whose bookings are carried, and reads its seal. It must be a regular file, and no run's or host's.
pub(crate) fn older_locked(
    rt: &HostRuntime,
    asked: &CarryJob<'_>,
    seasons: &Seasons,
) -> Result<(Older, Option<Vec<u8>>), Refusal> {
    let files = files_taken(
        rt,
        &seasons.from,
        &[],
        &[&seasons.to.set, &seasons.to.limits],
    )?;
    let (seal, journal) = SealOut::open(rt, asked.journal, files.as_slice())?;
    match seal.text() {
        Ok(text) => Ok((Older { seal, journal }, text)),
        Err(refusal) => {
            seal.leave();
            Err(refusal)
        }
    }
}

/// Refuses a name that a new journal may not have, and what stands there and is no regular file: the opening of a pipe would wait for who
/// reads it.
pub(crate) fn newer_named(rt: &HostRuntime, new: &str) -> Result<(), Refusal> {
    let _guard = Guard::new(rt, new)?;
    match fs::metadata(rt, new) {
        Ok(there) if !there.is_file() => Err(Refusal::barred(new, NO_FILE)),
        _ => Ok(()),
    }
}

/// The new journal under its lock, and its seal.
pub(crate) struct Newer {
    pub journal: JournalFile,
    pub seal: SealOut,
    /// By what a mark names it: where its name leads from the root, through links, so that it is the same journal by whatever name and from
    /// whatever folder; and where it is of one of several hosts, what names the journals of all of them.
    pub name: String,
}

impl Drop for Newer {
    fn drop(self) {
        let Newer {
            journal: _journal,
            seal: _seal,
            name: _name,
        } = self;
    }
}

impl Newer {
    /// Takes away what was made and is not to stay. A seal that was put ahead of its journal goes first, while the journal is locked.
    pub fn leave(&self) {
        if self.journal.is_to_go() {
            self.seal.take_away();
        }
        self.seal.leave();
        self.journal.leave();
    }
}

/// Locks the new journal, and makes it where it is not there. It is none of the inputs, nor the older journal, nor the file of the report.
pub(crate) fn newer_locked(
    rt: &HostRuntime,
    asked: &CarryJob<'_>,
    part: Option<Part>,
    seasons: &Seasons,
    older: &Older,
) -> Result<Newer, Refusal> {
    let more = [&seasons.to.set, &seasons.to.limits, &older.journal];
    newer_beside(rt, asked, part, seasons, &[], &more)
}

/// The same beside several older journals.
pub(crate) fn newer_among(
    rt: &HostRuntime,
    asked: &CarryJob<'_>,
    part: Option<Part>,
    seasons: &Seasons,
    olders: &[Input],
) -> Result<Newer, Refusal> {
    let more = [&seasons.to.set, &seasons.to.limits];
    newer_beside(rt, asked, part, seasons, olders, &more)
}

fn newer_beside(
    rt: &HostRuntime,
    asked: &CarryJob<'_>,
    part: Option<Part>,
    seasons: &Seasons,
    olders: &[Input],
    more: &[&Input],
) -> Result<Newer, Refusal> {
    pass_newer(rt, asked.new, seasons, olders, more)?;
    let files = files_taken(rt, &seasons.from, olders, more)?;
    let journal = JournalFile::open(rt, asked.new, files.as_slice())?;
    newer_with_seal(rt, journal, part, files.as_slice())
}

/// Refuses a new journal that is one of the inputs, or the file of the report.
fn pass_newer(
    rt: &HostRuntime,
    new: &str,
    seasons: &Seasons,
    olders: &[Input],
    more: &[&Input],
) -> Result<(), Refusal> {
    let guard = Guard::new(rt, new)?;
    guard.pass(&seasons.from, olders, more)?;
    guard.pass_output(rt)
}

/// The same with the journal under its lock.
fn newer_with_seal(
    rt: &HostRuntime,
    journal: JournalFile,
    part: Option<Part>,
    taken: &[Metadata],
) -> Result<Newer, Refusal> {
    let name = match name_of(rt, &journal, part) {
        Ok(name) => name,
        Err(refusal) => {
            journal.leave();
            return Err(refusal);
        }
    };
    match SealOut::beside(rt, &journal, taken) {
        Ok(seal) => Ok(Newer {
            journal,
            seal,
            name,
        }),
        Err(refusal) => {
            journal.leave();
            Err(refusal)
        }
    }
}

/// By what a mark names the new journal.
fn name_of(rt: &HostRuntime, journal: &JournalFile, part: Option<Part>) -> Result<String, Refusal> {
    let Some(path) = journal.path() else {
        return Err(Refusal::barred(journal.name(), NO_FILE));
    };
    match mark_name(rt.alloc(), path, part) {
        Ok(Some(name)) => Ok(name),
        Ok(None) => Err(Refusal::barred(journal.name(), NO_SHARD)),
        Err(_) => Err(Refusal::from(DeskFault::Memory)),
    }
}

/// The bytes that stand under the new journal's name, and what stands beside it.
pub(crate) fn standing(newer: &Newer) -> Result<(Vec<u8>, Option<Vec<u8>>), Refusal> {
    let bytes = newer.journal.bytes()?;
    let text = newer.seal.text()?;
    Ok((bytes, text))
}

/// Whose failure it was.
pub(crate) fn failed(older: &Older, newer: &Newer) -> Refusal {
    Refusal::from(DeskFault::Device)
        .noting_journal(&newer.journal)
        .noting_seal(&newer.seal)
        .noting_seal(&older.seal)
}
