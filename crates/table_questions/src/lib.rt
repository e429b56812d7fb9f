//! The answers of questions as tables: the loads, the rooms, the bookings and who waits, row by row; the limit rows that give no leg its ladder, and the
//! legs without a row; and the flights of a data set, leg by leg.
//! It knows what a row says, and leaves how one is spelled, and every number, to the crates below.
#![tactic(auto)]

mod bookings;
mod by_class;
mod by_day;
mod by_flight;
mod by_leg;
mod by_pair;
mod cover;
mod flights;
mod history;
mod loads;
mod rooms;
mod table;
mod waiting;

pub use bookings::BookingTable;
pub use by_class::ClassSums;
pub use by_day::{DaySums, days_from, latest_of};
pub use by_flight::FlightSums;
pub use by_leg::LegSums;
pub use by_pair::PairSums;
pub use cover::CoverTable;
pub use flights::desk_flight_table;
pub use history::HistoryTable;
pub use loads::LoadTable;
pub use rooms::RoomTable;
pub use table::{Table, TableOf};
pub use waiting::WaitingTable;
