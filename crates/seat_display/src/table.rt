//! What is shown, and what each side knows of it.
use crate::book::Trace;
use seat_journal::Entry;
use seat_nesting::{Counts, Grid};

/// The opening limits; the counters, where rooms are shown, with the limits at that point; the number of lines that are
/// shown; and those lines themselves, which have no bytes.
#[derive(Drop)]
pub struct Table {
    pub opening: Grid,
    pub counts: Option<Counts>,
    pub lines: u32,
    pub seen: Trace,
}

/// An entry, or the history so far.
#[derive(Drop)]
pub enum Op {
    Line(Entry),
    Mark(Trace),
}

/// What a seat at the table knows: the opening grid, and a beginning of the history. No value of it is made.
pub struct View {
    pub knows: bool,
    pub grid: Grid,
    pub seen: Trace,
}
