//! Whether a script begins with what a run has booked already: the imprint of a text, taken by one look at its bytes beside those that were booked.
//! It knows imprints, and nothing of seals, of sessions or of what a text says.
#![tactic(auto)]

mod beginning;

pub use beginning::imprint_beside;
