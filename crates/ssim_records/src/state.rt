//! How far the reading of a data set has come.
use crate::carrier::Carrier;
use crate::set::Legs;

/// What may come next: the header, the carrier's record, a record of the body, or fillers alone.
#[derive(Clone, Copy)]
pub enum Phase {
    Start,
    Open,
    Body(Carrier),
    Done(Carrier),
}

/// What has been read so far.
#[derive(Drop)]
pub struct Reader {
    pub phase: Phase,
    /// The number of records that are no fillers.
    pub count: u32,
    pub legs: Legs,
    pub segments: u32,
}
