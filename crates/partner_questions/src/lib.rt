//! What a partner's or a desk's own list of bookings and the live bookings of a journal do not have in common: `reconcile`.
//! It knows which bookings are compared and how a difference reads, and leaves how a list is read, and every booking, to the crates below.
#![tactic(auto)]

mod comparing;
mod difference;
mod here;
mod laws;
mod reconcile;
mod text;
mod touching;

pub use difference::{Difference, Standing};
pub use laws::counts_are_whole;
pub use reconcile::ReconcileOf;
