//! One line more: in the inventory, in the published table, and as the receipt of the session that asked for it, all or nothing.
//! It knows one inventory and one table, and nothing of locks, of how many sessions there are or of what they have seen.
#![tactic(auto)]

mod booking;
mod receipt;
mod receipts;

pub use booking::{BookFault, add_line};
pub use receipt::Receipt;
pub use receipts::Receipts;
