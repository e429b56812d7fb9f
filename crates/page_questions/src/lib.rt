//! The answer of `loads` as a page: which legs it shows, and how full the classes of each are.
//! It knows what stands in a cell, and leaves how a page is spelled, and every number, to the crates below.
#![tactic(auto)]

mod page;
mod shown;

pub use page::LoadPage;
