//! What every command over an inventory reads first.
use airline_base::Day;

/// A data set and limit rows, to be read, and the dates on which the flights are wanted.
#[derive(Drop)]
pub struct Inputs<S, L> {
    /// The data set: at most 256 MiB.
    pub set: S,
    /// The limit rows: at most 16 MiB.
    pub limits: L,
    /// The first day, in 2000 to 2099.
    pub first: Day,
    /// How many days from the first one on, 1 to 366.
    pub days: u16,
}
