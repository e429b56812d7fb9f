//! Workers: one for the manager and one for each session of a host, each with a list of its own, on threads.
//! It knows lists and turns, and nothing of what stands behind the lock, of scripts or of texts.
#![tactic(auto)]

mod asking;
mod gate;
mod turns;
mod workers;

pub use gate::{Gate, NoGate};
pub use turns::{Turn, Turns};
pub use workers::{RunFault, first_fault, no_faults, run_sessions};
