//! What an open host answers to each line of a desk: the reply and the advices of a request once its line is on the disk, the
//! seats that are left, or a fault.
//! It knows the inventory with its file and the texts of replies, and nothing of who reads a desk's lines or writes the answers.
#![tactic(auto)]

mod asking;
mod calling;
mod faults;
mod heard;
mod hearing;
pub mod laws;
mod look_parts;
mod looking;
mod open_host;
mod ready;
mod seats;

pub use asking::asked_by;
pub use faults::{full_line, memory_line, wrong_call_line};
pub use heard::{HearFault, Heard};
pub use hearing::quiet_answer;
pub use looking::seen;
pub use open_host::OpenHost;
pub use ready::ready_line;
pub use seats::Seats;
