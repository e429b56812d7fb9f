//! Ladders of nested booking limits, the grid that has the ladder of each leg of each dated flight, and counters.
//! It knows how many seats a table of held seats leaves, and nothing of limit rows, of bookings or of who holds them.
#![tactic(auto)]

mod counted_flights;
mod counts;
mod grid;
mod grid_plan;
mod ladder;
mod laid_out;
mod leg_counts;
mod limits;
mod setting;
mod shared;

pub use counts::Counts;
pub use grid::Grid;
pub use grid_plan::GridPlan;
pub use ladder::{Ladder, LadderFault, Step};
