//! Live bookings in the order in which they keep their seats: those of locators that come first, and then all others as they stood; and by which lines
//! they are asked for in an order.
//! It knows who holds under which locator, and a list of locators; nothing of limits, or of how a booking is asked for.
#![tactic(auto)]

mod numbering;
mod ranking;
mod reading;

pub use numbering::{Numbered, by_number};
pub use ranking::ordered;
pub use reading::{OrderFault, read_order};
