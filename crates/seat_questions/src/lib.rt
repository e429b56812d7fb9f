//! Questions that a desk and an auditor ask of limits and a journal: `rooms`, `why` and `cover`.
//! It knows the texts of the answers, and leaves what is read to the crate below and every answer to those below that.
#![tactic(auto)]

mod cover;
mod coverage;
mod laws;
mod legs;
mod line;
mod pair_numbers;
mod rooms;
mod why;
mod winning;

pub use cover::Cover;
pub use coverage::Coverage;
pub use laws::{
    closed_has_no_room, found_places_are_written, opening_rooms_are_of_no_lines,
    rows_without_effect_give_nothing, written_places_are_found,
};
pub use legs::{has_leg, one_leg, put_class, put_each_room, put_each_wait, waiting};
pub use rooms::{
    Bars, CityPair, RoomsOf, is_found, is_shown, keeps_day, keeps_pair, put_bars, run_of,
};
pub use why::Why;
pub use winning::winners;
