//! A journal whose bookings are carried to another: the mark in the older one's seal, on the disk, and only behind it the newer journal and its seal.
//! It knows seals, files that are replaced whole, and a text, and nothing of how that text comes about, of bookings or of real files.
#![tactic(auto)]

mod deciding;
mod handing;
mod judging;
mod laws;
mod marking;
mod several;

pub use deciding::{Hand, HandRefusal, may_hand};
pub use hand_steps::HandFault;
pub use handing::hand_over;
pub use judging::{HandsRefusal, Judgement, may_hand_each};
pub use laws::what_is_marked_is_known;
pub use marking::may_be_marked;
pub use several::{OlderMark, hand_over_several, older_mark};
