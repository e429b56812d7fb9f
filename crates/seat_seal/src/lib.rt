//! Seals: the text beside a journal that says what the journal belongs to, and the digests that it names.
//! It knows digests, days and counts, and nothing of a journal's lines, of sessions or of files.
#![tactic(auto)]

mod beside;
mod booked;
mod closing;
mod comparing;
mod date;
mod digest;
mod era;
mod fields;
mod front;
mod imprint;
mod known;
mod laws;
mod reading;
mod rules;
mod run;
mod scripts;
mod seal;
mod spelling;

pub use beside::{Basis, Beside, fault_beside};
pub use booked::{Booked, changes_booked, scripts_booked};
pub use closing::{closed_entry, open_entry};
pub use comparing::{
    Given, SealFault, begins_sealed, compared, entry_for, is_its_journal, same_imprint,
};
pub use date::Date;
pub use digest::{Digest, digest_of};
pub use era::{Era, era_known};
pub use front::{ahead_of_last, front_of};
pub use imprint::{Imprint, Tally, imprint_of};
pub use known::{Carried, carried_by, known_of, runs_in, runs_known};
pub use laws::{grown_texts_are_known, one_is_known, seals_are_unique};
pub use reading::read_seal;
pub use rules::{is_entry, is_seal, is_sealed};
pub use run::{Run, Runs, lines_behind};
pub use scripts::{Script, Scripts};
pub use seal::{JournalState, Seal, SealEntry, Sealed, SealedJournal};
pub use spelling::{SealText, one_seal_text, seal_text};
