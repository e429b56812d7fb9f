//! What a carry makes of two seasons and a journal over the old one, or several journals of hosts that have different flights: the new journal, what its
//! seal says, and the report.
//! It knows which part is made of which, in which order inputs are read, and which of them is at fault; nothing of how each part comes about, of how journals
//! become one, of files, or of a mark in a seal.
#![tactic(auto)]

mod asked;
mod belongings;
mod carriage;
mod choosing;
mod fault;
mod join_fault;
mod joined_carriage;
mod joining;
mod journals;
mod making;
mod parting;
mod planning;
mod protecting;
mod reading;
mod together;

pub use asked::CarryAsked;
pub use belongings::Belongings;
pub use carriage::{Carriage, text_for};
pub use fault::CarryFault;
pub use join_fault::JoinFault;
pub use joined_carriage::JoinedCarriage;
pub use joining::desk_carry_joined;
pub use making::made_from;
pub use reading::desk_carry;
