//! What a seal says.
use crate::date::Date;
use crate::digest::Digest;
use crate::era::Era;
use crate::imprint::Imprint;
use crate::run::Runs;

/// Whether more lines may come.
#[derive(Clone, Copy)]
pub enum JournalState {
    Open,
    Closed,
}

/// A journal: the imprint of its head line and its entries, without its END line, and the count of its entries.
#[derive(Clone, Copy)]
pub struct SealedJournal {
    pub imprint: Imprint,
    pub lines: u32,
    pub state: JournalState,
}

/// What a journal belongs to.
#[derive(Drop)]
pub struct Sealed {
    /// Of the data set's bytes.
    pub set: Digest,
    /// Of the limit rows' bytes.
    pub limits: Digest,
    /// The first day of the flights, and the count of their days.
    pub first: Date,
    pub days: u16,
    /// Its epoch, and the day of its host.
    pub era: Era,
    pub journal: SealedJournal,
    /// The last runs that wrote it, the last one last.
    pub runs: Runs,
}

/// A journal and what is known of it.
#[derive(Drop)]
pub enum SealEntry {
    Sealed(Sealed),
    /// Nothing: the imprint of all its bytes.
    Other(Imprint),
}

/// One entry, or two while the second's journal replaces the first's.
#[derive(Drop)]
pub struct Seal {
    pub first: SealEntry,
    pub second: Option<SealEntry>,
}
