//! Pages of loads: HTML in itself, a section for each class, with flights down, days across and a coloured cell for each leg.
//! It knows how a page is spelled, and nothing of bookings, of journals or of which legs are asked for.
#![tactic(auto)]

mod load;
mod marks;
mod page;
mod pieces;
mod rows;
mod sections;

pub use load::LegLoad;
pub use page::{MOST_PAGE_BYTES, put_closing, put_opening};
pub use sections::{day_heads, put_section};
