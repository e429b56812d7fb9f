//! What comes of closing what departed.
use crate::notice::Want;
use desk_pipes::Delivered;

#[derive(Drop)]
pub enum Closing {
    /// All of it is set to be closed.
    Whole,
    /// Memory was wanting for some of it, and the manager is told so.
    Wanting(Delivered<Want>),
}
