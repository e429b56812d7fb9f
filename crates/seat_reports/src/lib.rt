//! What the commands of `seatdesk` that look at one text report of it: `ladder`, `check`, `flights`, `audit` and `seal`; and `season`, which begins the
//! season file of a data set; over readers and writers. It knows the texts that come and go, and leaves every answer to the crates below.
#![tactic(auto)]

mod audit;
mod check;
mod flights;
mod ladder;
mod laws;
mod lines;
mod orders;
mod seal;
mod season;
mod season_file;
mod span;
mod text;

pub use audit::{Audit, desk_audit};
pub use check::desk_check;
pub use flights::desk_flights;
pub use ladder::desk_ladder;
pub use laws::audits_are_answered;
pub use seal::desk_seal;
pub use season::desk_season;
