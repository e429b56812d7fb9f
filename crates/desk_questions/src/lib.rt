//! Questions that a sales desk asks of a journal: `told` and `history`.
//! It knows the texts of the answers, and leaves what is read to the crates below, and every answer and each line of a telling to those below these.
#![tactic(auto)]

mod history;
mod told;

pub use history::{HistoryOf, made_under, under};
pub use told::ToldOf;
