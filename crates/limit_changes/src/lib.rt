//! The changes that bring the limits after a journal to those that are wanted: `changes`.
//! It knows which changes are made and in which order, and leaves what is read, and when a change is accepted, to the crates below.
#![tactic(auto)]

mod changes;
mod laws;
mod legs;
mod lines;
mod reaching;
mod rows;
mod shorts;

pub use changes::ChangesOf;
pub use laws::{
    changes_are_accepted, nothing_is_left, room_is_reached, wanted_limits_are_reached,
    what_is_held_falls_short,
};
pub use legs::{LegsAsked, NamedLeg, every_leg, legs_by, named_leg};
pub use lines::put_name;
pub use rows::{Row, changes_of};
pub use shorts::{Short, shorts_of, unnamed_of};
