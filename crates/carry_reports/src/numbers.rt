//! The number of a booking in its own journal.
//! It knows how many lines each journal has, and no booking.
ghost use Rattle.std.specs.Prelude.{◌≡◌, ◌++◌, ◌≤◌, ◌<◌, ◌^◌, length, OnOk};
ghost use Rattle.carry_reports.specs.Numbers.{journal_of, number_in, number_text};

use seat_desk::{put, put_number};
use std::alloc::AllocError;

/// The line of a number among the lines of several journals, one behind the other.
#[derive(Clone, Copy)]
pub struct OwnNumber {
    /// The place of its journal, counted from 1.
    pub journal: u64,
    /// Its number there.
    pub number: u32,
}

/// Which of journals that have so many lines has the line of this number, and its number there.
pub fn own_number(counts: &[u32], number: u32) -> OwnNumber
    ensures journal { result.journal ≡ journal_of counts.now number }
    ensures number { result.number ≡ number_in counts.now number }
{
    let Some((count, later)) = counts.split_first() else {
        return OwnNumber { journal: 1, number };
    };
    if number <= *count {
        return OwnNumber { journal: 1, number };
    }
    let behind = own_number(later, number - *count);
    OwnNumber {
        journal: behind.journal + 1,
        number: behind.number,
    }
}

/// Adds the number of a line, behind the place of its journal where there are several.
pub(crate) fn put_own(text: &mut Vec<u8>, counts: &[u32], number: u32) -> Result<(), AllocError>
    ensures { OnOk result (text.new.items ≡ text.old.items ++ number_text counts.now number) }
{
    if counts.is_empty() {
        return put_number(text, u64::from(number));
    }
    let own = own_number(counts, number);
    put_number(text, own.journal)?;
    put(text, b":")?;
    put_number(text, u64::from(own.number))
}
