//! Limit rows and change rows, and the grid that limit rows give to dated flights.
//! It knows authorised seats by flight, city pair and period, and nothing of bookings or of who holds seats.
#![tactic(auto)]

mod building;
mod change_reading;
mod change_row;
mod hashing;
mod ladder_text;
mod limit_fault;
mod limit_reading;
mod limit_row;
mod row_fields;
mod row_index;
mod row_reading;

pub use building::build_grid;
pub use change_reading::read_changes;
pub use change_row::{ChangeRow, ChangeRows, Cities, RowSetting};
pub use ladder_text::read_ladder;
pub use limit_fault::{LimitFault, LimitKind};
pub use limit_reading::read_limits;
pub use limit_row::{LimitRow, LimitRows, RowLadder};
pub use row_index::{Pair, RowIndex, leg_pair_of};
