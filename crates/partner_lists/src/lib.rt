//! What a partner's or a desk's own list of bookings says: the grammar of its lines, and what names a booking there.
//! It knows locators, segments and their codes, and nothing of flights, journals or seats that are held.
#![tactic(auto)]

mod fault;
mod line;
mod name;
mod reading;

pub use fault::{PartnerFault, PartnerKind};
pub use name::{Name, Names, name_of, put};
pub use reading::read_list;
