//! Why a feed ends ahead of its input, and why its journal is not ended.
use seat_desk::DeskFault;
use seat_serving::ServeFault;

/// Why a feed is broken off.
#[derive(Clone, Copy)]
pub enum StreamFault {
    /// What its lines are read from failed.
    Input,
    /// What is told of them could not be written.
    Output,
    /// A growth was refused.
    Memory,
    /// The feed's line of this number asks for something else than the journal's next line, of this number: it is no feed of this journal.
    Strange(u32, u32),
    /// The journal's file failed.
    Journal,
    /// The seal of a later day is not put in place, and nothing was told under it.
    Dating(DeskFault),
}

/// Why a journal is not ended and sealed.
#[derive(Clone, Copy)]
pub enum FedFault {
    /// It has fewer lines than the feed is said to stand behind.
    Behind,
    /// The feed was broken off. The journal is open, and so is its seal.
    Broken(StreamFault),
    /// The feed was over, and the journal's end failed.
    End(ServeFault),
    /// The journal is ended, and its closed seal is not there. Its open seal is of it too.
    Seal(DeskFault),
}
