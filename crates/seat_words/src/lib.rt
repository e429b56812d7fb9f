//! The words of the command line: which command they name, with the values of its options.
//! It knows clap, dates and names, and nothing of what the commands do.
#![tactic(auto)]

mod commands;
mod days;
mod examples;
mod fault;
mod job;
mod names;
mod naming;
mod pipes;
mod sessions;
mod several;
mod work;

pub use days::{date_word, days_word, every_word};
pub use examples::examples_are_read;
pub use fault::WordFault;
pub use job::{CommandLine, Job, read_words, words_in_conflict, wrong_value};
pub use names::{
    ShardWord, behind_word, flight_word, line_word, locator_word, pair_word, session_word,
    shard_word, shards_word,
};
pub use pipes::pipes_of;
pub use sessions::{audit_lacks, has_number, session_file, sessions_of, sessions_of_run};
pub use several::Several;
pub use work::{
    AuditJob, AvsJob, BookingsJob, CarryJob, ChangesJob, CompareJob, CoverJob, HistoryJob, Horizon,
    LoadsJob, PickupJob, ReconcileJob, RepliesJob, RoomsJob, RouteJob, RunJob, ServeJob, Shape,
    ToldJob, WaitingJob,
};
