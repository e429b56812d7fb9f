//! The steps in which a journal is handed over to another: the mark of the older one, the newer journal and its seal, and what is said of it, each over its
//! bytes. It knows files that are replaced whole, and nothing of seals, of journals or of real files.
#![tactic(auto)]

mod putting;
mod steps;

pub use putting::put;
pub use steps::{HandFault, hand_in_order, take_back};
