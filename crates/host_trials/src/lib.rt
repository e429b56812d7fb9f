//! Hosts on trial, and journals whose lines are on the disk before anyone is told: what viewers find, threads side by side, files that are
//! failed at each call and crashed at each byte and what is found in them, and where memory is refused.
//! It is tests alone, of what no contract says, and knows of what it tests what its callers know.
#![tactic(auto)]

#[cfg(test)]
mod crash_tests;
#[cfg(test)]
mod desk;
#[cfg(test)]
mod files;
#[cfg(test)]
mod growth_tests;
#[cfg(test)]
mod lot_tests;
#[cfg(test)]
mod lots;
#[cfg(test)]
mod meeting;
#[cfg(test)]
mod race_tests;
#[cfg(test)]
mod shown_tests;
#[cfg(test)]
mod working_tests;
