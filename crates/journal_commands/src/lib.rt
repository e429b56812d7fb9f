//! The commands that write journals, over the program's real files and streams: `run`, with the texts that it reads and the journal that it locks, and
//! `carry`, with two seasons, the journal of the old one, which it locks, and the new journal with its seal.
//! It knows which file and stream is which and in which order files are locked, and nothing of how seats are sold, of where bookings go or of how a journal is
//! handed over.
#![tactic(auto)]

mod carrying;
mod heard;
mod inputs;
mod lists;
mod marking;
mod naming;
mod parting;
mod placing;
mod selling;
mod several;

pub use carrying::carry;
pub use selling::run;
