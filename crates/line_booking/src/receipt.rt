//! The receipt of a call.
ghost use Rattle.std.specs.Prelude.{◌≡◌};

use seat_journal::Entry;
use std::marker::Model;

/// The line that a call was given.
#[derive(Drop)]
pub struct Receipt {
    entry: Entry,
}

impl Model for Receipt {
    ghost use Rattle.seat_journal.specs.declared.entry.Entry.{Entry};

    ghost Value = { Entry };

    ghost view = { λ r. r.entry };
}

impl Receipt {
    /// The line.
    pub fn entry(&self) -> &Entry
        ensures { result.now ≡ self.now }
    {
        &self.entry
    }

    /// The receipt of a line.
    pub fn of(entry: Entry) -> Receipt
        ensures { result ≡ entry }
    {
        Receipt { entry }
    }
}
