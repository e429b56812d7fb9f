//! SSIM chapter 7 data sets: the schedule of one carrier, in records of 200 bytes.
//! It knows records and their fields, and nothing of the flights that they come to.
#![tactic(auto)]

mod carrier;
mod cut;
pub mod laws;
mod operating;
mod record_fields;
mod records;
mod set;
mod set_fault;
mod set_reading;
mod state;
mod steps;

pub use carrier::{Carrier, Leg};
pub use set::{DataSet, Legs};
pub use set_fault::{SetFault, SetKind};
pub use set_reading::read_set;
