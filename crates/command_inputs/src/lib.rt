//! What several commands of the program open and read of their words: the set and the limits with their days, the scripts, what stands beside
//! journals; what the words of a question ask for: a flight, a pair of stations, a day, locators, what sums are of, and the form of the answer; and what
//! such a command says on standard error where nothing is wrong.
//! It knows which words name what, and nothing of what a command does with them.
#![tactic(auto)]

mod days;
mod forms;
mod horizon;
mod locators;
mod metering;
mod names;
mod noting;
mod refused;
mod replaced;
mod seals;
mod sessions;
mod sums;

pub use days::day_asked;
pub use forms::{form_asked, page_asked, sums_form};
pub use horizon::{day_of_run, days_of, inputs_of};
pub use locators::{LocatorsFault, locators_asked};
pub use metering::{meter_each, meter_input, meter_inputs, meter_of};
pub use names::{flight_asked, pair_asked};
pub use noting::{
    last_entry, may_have_lines, tell_copies, tell_found_unsealed, tell_kept, tell_unsealed,
};
pub use refused::{sort_out_as, sort_out_into, tell_refused};
pub use replaced::tell_replaced;
pub use seals::{Seals, lines_behind, seals_of};
pub use sessions::{behind, scripts_opened};
pub use sums::{By, by_asked};
