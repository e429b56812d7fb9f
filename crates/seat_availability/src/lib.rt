//! Availability messages: what a partner is told of each class of each segment, and what changed since it was told.
//! It knows what is told and in which words, and leaves what is read to the crates below, and every room to those below that.
#![tactic(auto)]

mod availability;
mod changes;
mod laws;
mod lines;
mod partner;
mod partner_fault;
mod segments;
mod statuses;

pub use availability::AvailabilityOf;
pub use changes::changed;
pub use laws::{changes_suffice, closed_is_told, segments_stand_once};
pub use partner::{Threshold, Thresholds, read_thresholds};
pub use partner_fault::{PartnerFault, PartnerKind};
pub use segments::{Asked, Message, Segment, messages};
pub use statuses::Status;
