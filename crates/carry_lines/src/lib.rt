//! The lines that carry live bookings into another inventory: limits changed by the manager, each booking asked for anew, and classes closed again.
//! It knows an inventory and what is asked of it, in which order, and what each is left with; nothing of schedules, files or reports.
#![tactic(auto)]

mod carrying;
mod choosing;
mod managing;
mod mark;

pub use carrying::carried;
pub use choosing::{carriable, is_carriable};
pub use managing::{changed, closed_again};
pub use mark::Mark;
