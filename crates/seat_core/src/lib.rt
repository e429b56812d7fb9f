//! The sequential inventory: one journal, the bookings that it leaves, and what each next line is answered.
//! It knows bookings, waiting lists and legal histories, and nothing of threads, of texts or of where commands come from.
#![tactic(auto)]

mod balance;
mod carrying;
mod changes;
mod inventory;
mod pass;
mod replaying;
mod reply;
mod sales;

pub use balance::Balance;
pub use carrying::carry_out;
pub use inventory::{Core, Prepared};
pub use replaying::{are_same_advices, replay};
