//! What comes of a desk's line.

/// A line was heard: what is written to the desk, and whether the desk stays.
#[derive(Drop)]
pub struct Heard {
    pub text: Vec<u8>,
    pub stays: bool,
}

/// Why a line is not answered. It counts all the same.
#[derive(Clone, Copy)]
pub enum HearFault {
    /// A growth was refused. Nothing was booked, and the host goes on.
    Memory,
    /// A growth was refused behind the booking: it is in the journal, and its reply is not told.
    Untold,
    /// The journal's file failed. Nothing more is booked.
    Device,
}
