//! Lists of live bookings that a desk asks for: `bookings` and `waiting`.
//! It knows which are asked for and how a line reads, and leaves what is read to the crates below, and every booking to those below that.
#![tactic(auto)]

mod bookings;
mod laws;
mod listing;
mod named;
mod picking;
mod waiting;

pub use bookings::BookingsOf;
pub use laws::{passes_go_in_order, waiters_lack_seats};
pub use listing::listed;
pub use named::status_code;
pub use picking::{Designator, Wanted, keeps_flight, keeps_place, picked};
pub use waiting::{WaitingOf, lacked};
