//! What the numbers behind a code count: none, one or two things, by their names with a comma between them.
use crate::explanations::{ahead_of, behind};

/// Of a row of changes that a host was sent.
pub(crate) const DESK: &str = "desk,line";

/// What is counted by its name, and not by a number: a key that a season has.
pub(crate) const NAMED_KEY: &str = "key";

/// A key that no season has, which may be any text.
pub(crate) const OTHER_KEY: &str = "other key";

/// The keys that a season may have.
pub(crate) const KEYS: &[&str] = &["set", "limits", "first", "days", "journal", "desks"];

/// The name of what the number at this place counts, or the empty text for nothing.
pub(crate) fn name_at(counted: &str, at: usize) -> &str {
    match at {
        0 => ahead_of(counted, ','),
        1 => behind(counted, ','),
        _ => "",
    }
}
