//! What guides the expansion of a carrier's legs.
use airline_base::{Airline, Day};

/// The carrier's airline and time mode, and the horizon.
#[derive(Clone, Copy)]
pub(crate) struct Plan {
    pub airline: Airline,
    pub local: bool,
    pub first: Day,
    pub last: Day,
    /// The day that stands for an open end of a leg's period.
    pub end: Day,
    /// How many flights there may be.
    pub most: u32,
}
