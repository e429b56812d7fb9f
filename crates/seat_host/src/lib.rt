//! Sessions on threads over one locked inventory: booking, looking without the lock, and gathering what was done.
//! It knows receipts, fronts and ledgers, and nothing of scripts, of texts or of where commands come from.
#![tactic(auto)]

mod host;
mod ledgers;
mod manager;
mod parts;
mod party;
mod seating;
mod session;
mod settled;
mod settling;
mod under_lock;

pub use host::Host;
pub use ledgers::Hosting;
pub use line_booking::{BookFault, Receipt};
pub use manager::Manager;
pub use parts::{HostFault, Parts, showing};
pub use party::Party;
pub use seat_display::Shows;
pub use session::Session;
pub use settled::{AllReceipts, LineNumbers, Receipts, Settled};
pub use settling::{GatherFault, Unsettled, gather};
pub use under_lock::Refusal;
