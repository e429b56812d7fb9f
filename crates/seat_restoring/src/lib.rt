//! `recover`: a journal that a crash left open is cut back to its lines, and ended.
//! It knows the file of a journal by what it is asked of it, and nothing of names, of locks or of who writes lines.
#![tactic(auto)]

mod comparing;
mod dating;
mod ending;
mod recover;
mod sealing;
mod served;

pub use dating::{NoDay, era_on, host_day};
pub use recover::desk_recover;
pub use served::{find_sealed, go_on_sealed, seal_closed, seal_on};
