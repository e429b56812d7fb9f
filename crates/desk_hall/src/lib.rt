//! A host of several desks: what their lines ask for is gathered and booked in groups, and each desk is told what concerns it, in the
//! order of the lines.
//! It knows the inventory with its file and the texts of answers, and nothing of threads, of pipes or of who reads a desk's lines.
#![tactic(auto)]

mod backlog;
mod booking;
mod departed;
mod hall;
pub mod laws;
mod one_leg;
mod ordering;
mod orders;
mod planning;
mod telling;
mod turn;

pub use booking::book;
pub use hall::Hall;
pub use orders::{Order, RowFault, count_of, day_named, order_of};
pub use telling::{line_at, sets, turn_text};
pub use turn::Turn;
