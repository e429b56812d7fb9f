//! What a carry of several journals makes.
use crate::belongings::Belongings;
use crate::carriage::Carriage;

/// A new journal and what is said of it, and what the seals of the older ones know.
#[derive(Drop)]
pub struct JoinedCarriage {
    /// The new journal, its seal's entry and the report; and what the seal of the last of the older journals knows.
    pub carriage: Carriage,
    /// What the seals of those before the last one know, in order.
    pub others: Belongings,
}
