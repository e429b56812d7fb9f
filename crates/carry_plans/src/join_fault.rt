//! Why the bookings of several journals are not carried.
use crate::fault::CarryFault;
use seat_desk::DeskFault;
use seat_shards::ShardFault;

/// Why the live bookings of several journals are not carried to a new season. The place of a journal among them is counted from 1.
#[derive(Drop)]
pub enum JoinFault {
    /// A season is at fault; or all journals are right, and their bookings can't be carried.
    Carry(CarryFault),
    /// The journal at this place is too large, or does not agree with what stands beside it.
    Beside { place: u32, fault: DeskFault },
    /// What stands beside the journal at this place is no seal, or knows no more of it than its bytes.
    Unsealed { place: u32 },
    /// A journal was not read: a device failed.
    Device,
    /// Each agrees with what stands beside it, and the first that is no legal history, or has a line of a flight of those before it, or has no room behind
    /// them, is refused.
    Journals(ShardFault),
}
