//! What is set on a leg.
use crate::ladder::Ladder;
use airline_base::Class;

/// What is set on a leg.
#[derive(Drop)]
pub enum Setting {
    /// The limit and the wait of a class.
    ToLimit(Class, u16, u16),
    /// Whether a class, or each where none is named, is closed.
    ToSale(Option<Class>, bool),
    /// At each rank, whether the class is closed, as in a ladder.
    ToMarks(Ladder),
}
