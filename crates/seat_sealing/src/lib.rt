//! A journal and the seal beside it, replaced in three steps, so that no crash leaves the one beside a seal that denies it.
//! It knows seals, files that are replaced whole, and a journal's text, and nothing of how its lines come about, of sessions or of
//! real files.
#![tactic(auto)]

mod alone;
mod laws;
mod older;
mod replacing;
mod text;
mod writing;

pub use alone::put_alone;
pub use laws::{ends_are_last, no_crash_denies};
pub use older::{entry_beside, older_entry};
pub use replacing::{SealTexts, may_be_sealed, replace_sealed, seal_texts};
pub use text::journal_bytes;
pub use writing::write_sealed;
