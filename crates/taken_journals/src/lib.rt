//! Which journals were taken so far, of hosts that have different flights: the one that has the lines of each flight, how many they are, and what they come to.
//! It knows which flight a line is on and what a journal comes to, and nothing of how a journal is read, audited or answered.
#![tactic(auto)]

mod owners;
mod taken;

pub use taken::{NotTaken, Taken};
