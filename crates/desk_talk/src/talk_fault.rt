//! Why a talk ends ahead of its input.

#[derive(Clone, Copy)]
pub enum TalkFault {
    /// The desk's reader failed.
    Input,
    /// The desk's writer failed.
    Output,
    /// The journal's file failed.
    Journal,
    /// A growth was refused behind a booking: it is in the journal, and its reply is not told.
    Memory,
}
