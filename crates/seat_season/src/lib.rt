//! Season files: what the TOML text of one says of a schedule, its limits, its days, its journal and its desks, and the words of a command
//! line with that in them. It knows how such a file and such words are written, and nothing of what the commands do, or of files.
#![tactic(auto)]

mod awaits;
mod desks;
mod fault;
mod folder;
mod key;
mod line;
mod options;
mod paths;
mod season;
mod text;
mod values;
mod words;

pub use fault::{SeasonFault, SeasonKind, TextFault};
pub use folder::folder_of;
pub use key::Key;
pub use line::{beside_season, lacks_horizon, season_named};
pub use paths::path_of;
pub use season::{Season, season_of};
pub use text::{MOST_SEASON_BYTES, season_table};
pub use words::{Around, Words, seasoned_words};
