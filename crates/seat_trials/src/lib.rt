//! Files in memory and journals on trial: crashes at each call, and each way to replay a journal beside the others.
//! It is tests alone, of what no contract says, and knows of what it tests what its callers know.
#![tactic(auto)]

#[cfg(test)]
mod limits;
#[cfg(test)]
mod lots;
#[cfg(test)]
mod part_tests;
#[cfg(test)]
mod replaced_tests;
#[cfg(test)]
mod sealed_tests;
#[cfg(test)]
mod tape_tests;
