//! One stream of lines for the manager and all sessions over an inventory with its file: what each line means, what is booked by it, and what each desk is told.
//! It knows the texts of lines and of answers, and nothing of who reads the stream or writes the answers.
#![tactic(auto)]

mod feed;
mod hearing;
pub mod laws;
mod lead;
mod meant;
mod planning;
mod reading;
mod telling;
mod wanted;

pub use feed::Feed;
pub use hearing::FeedFault;
pub use lead::first_day;
pub use telling::FeedTurn;
