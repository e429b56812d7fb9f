//! A data set, and the list of its legs.
use crate::carrier::{Carrier, Leg};
use airline_base::Items;

/// A data set of one airline (SSIM chapter 7).
#[derive(Drop)]
pub struct DataSet {
    pub carrier: Carrier,
    /// In the order of their records.
    pub legs: Legs,
    /// The number of segment data records.
    pub segments: u32,
}

/// A list of legs.
pub type Legs = Items<Leg>;
