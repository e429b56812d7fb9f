//! The commands that only read, over the program's real files and streams: reports, questions, audits, replies; and `seal`.
//! It knows which stream is which and which words name a day, a name or a form, and nothing of what the commands do with them.
#![tactic(auto)]

mod availing;
mod changing;
mod commands;
mod comparing;
mod listing;
mod locale;
mod reconciling;
mod replaying;
mod routing;
mod shards;

pub use availing::avs;
pub use changing::changes;
pub use commands::{check, ladder, seal, season, told_of, why};
pub use comparing::compare;
pub use listing::{bookings, cover, flights, history, loads, pickup, rooms, waiting};
pub use reconciling::reconcile;
pub use replaying::{audit, replies};
pub use routing::route;
pub use shards::audit_shards;
