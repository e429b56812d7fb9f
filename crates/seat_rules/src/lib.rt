//! The rules of the inventory: bookings, the sequential step, journals that are legal histories, and their laws.
//! It knows what each line is answered and what it leaves, and nothing of how an answer is found, of texts or of threads.
#![tactic(auto)]

mod action;
mod asking;
mod booking;
mod effect;
mod fault;
pub mod laws;
pub mod one_flight;
mod showing;
mod totals;

pub use action::{Action, Wish, action_of};
pub use asking::{asker, may_ask};
pub use booking::{Booking, Status};
pub use effect::{Effect, effect_of};
pub use fault::{CoreFault, ReplayFault, ReplayKind};
pub use showing::{give_back, show};
pub use totals::{Totals, confirmed_seats, is_confirmation, released_seats};
