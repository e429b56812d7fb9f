//! A flight's bookings: those that are live, by an index, and the waiting list, in order of number.
//! It knows what a line does to them, and nothing of how a line is answered.
#![tactic(auto)]

mod applying;
mod bookings;
mod books;
mod demands;
mod fitting;
mod live_bookings;
mod rooms;
mod row;
mod waiting_list;

pub use applying::confirm_all;
pub use books::{FlightBook, book_at, enter, find_in, queue_at, reserve_place};
pub use rooms::{is_listed_at, may_wait_at, steps_at};
pub use waiting_list::WaitingList;
