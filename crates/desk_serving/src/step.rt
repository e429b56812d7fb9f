//! What a session's turn comes to where those that are behind are told their pieces.
use crate::notice::Notice;
use desk_pipes::{Delivered, Room};

#[derive(Drop)]
pub enum Step {
    /// It is not behind.
    NotBehind,
    /// It has no room.
    Full(Room),
    /// It has room, and its piece waits for it.
    Told(Room, Delivered<Notice>),
}
