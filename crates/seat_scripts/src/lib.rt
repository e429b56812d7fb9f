//! The texts of a run: the requests of scripts, changes of limits, an older journal; and `audit` with scripts, which compares a journal with what they ask, and `replies`, which
//! words the replies to it once more. It knows texts and the order in
//! which they are read and written, and nothing of sessions, locks or threads.
#![tactic(auto)]

mod added;
mod against;
mod asked;
mod begun;
mod besides;
mod by_session;
mod changes;
mod commands;
mod imprints;
mod journals;
mod laws;
mod making;
mod past;
mod readable;
mod repeated;
mod replying;
mod resumed;
mod resuming;
mod scripts;
mod sealed_run;
mod starting;
mod taken;

pub use added::{Added, read_added};
pub use against::desk_audit_against;
pub use asked::{Asked, read_asked};
pub use besides::Besides;
pub use by_session::{Wanted, session_replies};
pub use commands::lists_over;
pub use imprints::TextImprints;
pub use laws::{
    audits_behind_no_lines, changes_are_known, nothing_is_left, one_number_is_taken,
    replies_are_those_of_the_run, resumed_again_is_the_same, resumed_is_of_the_whole,
    resumed_run_is_the_same, runs_are_audited, runs_are_audited_against, runs_from_no_lines,
    scripts_are_known, unasked_is_not_audited,
};
pub use past::past_of;
pub use readable::prove_entries;
pub use replying::desk_replies;
pub use resumed::read_resumed;
pub use resuming::what_is_left;
pub use scripts::Scripts;
pub use sealed_run::{RunBasis, entry_of_run};
