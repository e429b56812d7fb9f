//! The plain types that every layer of the inventory shares, and reading and writing whole texts.
//! It knows names and days of the airline standards, and nothing of records, flights, seats or sessions.
#![tactic(auto)]

mod counted;
mod days;
pub mod fields;
mod items;
pub mod laws;
pub mod lines;
mod memory;
mod names;
mod place;
mod reading;
pub mod spelling;
mod writing;

pub use counted::{Counted, Failures, NotedRead, NotedWrite};
pub use days::Day;
pub use items::Items;
pub use memory::Memory;
pub use names::{Airline, Class, Code, Locator, Station};
pub use place::Place;
pub use reading::{ReadFault, read_all};
pub use writing::{WriteFault, put_all};
