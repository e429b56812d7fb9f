//! What the line of a meter says.

/// What a command does.
#[derive(Clone, Copy)]
pub enum Stage {
    /// It reads its inputs.
    Reading,
    /// All is read. It carries out again what the journals say, where there are any.
    Replaying,
    /// All is read. It books what the scripts ask, behind what the journals say.
    Booking,
}

/// How far a command is.
#[derive(Clone, Copy)]
pub struct Stand {
    pub stage: Stage,
    /// The bytes that were read,
    pub read: u64,
    /// and all that there are to read, where that is known.
    pub size: Option<u64>,
    /// The lines of the journals that were read to their ends, heads and END lines apart.
    pub lines: u64,
    /// The whole seconds since the command began.
    pub seconds: u64,
}
