//! A session's script sorted out: what is read in its place, and its rows in the list of refused lines.
ghost use Rattle.std.specs.Prelude.{◌≡◌, ◌<◌, ◌^◌, IfOk, length, map};
ghost use Rattle.std.specs.List.{concat};
ghost use Rattle.script_refusals.specs.Cleaning.{cleaned_text};
ghost use Rattle.script_refusals.specs.Sorting.{rows_of};

use crate::cleaning::without_wrong_lines;
use crate::listing::put_refusals;
use airline_base::Memory;
use std::alloc::Global;

/// A script without its wrong lines, and a row for each line that is refused.
#[derive(Drop)]
pub struct Sorted {
    pub text: Vec<u8>,
    pub rows: Vec<u8>,
}

/// Sorts out the script of a session, of less than 4 GiB. An error is want of memory.
pub fn sort_out(alloc: Global, bytes: &[u8], session: u8) -> Result<Sorted, Memory>
    requires size { length bytes.now < 2 ^ 32 }
    ensures text { IfOk result (λ sorted. sorted.text.items ≡ cleaned_text bytes.now) }
    ensures rows { IfOk result (λ sorted. sorted.rows.items ≡ rows_of session bytes.now) }
{
    let cleaned = without_wrong_lines(alloc, bytes)?;
    let mut rows = Vec::new(alloc);
    put_refusals(alloc, &mut rows, session, cleaned.refusals.as_slice())?;
    Ok(Sorted {
        text: cleaned.text,
        rows,
    })
}

/// The rows of all sessions, one session after the other. An error is want of memory.
pub fn list_of(alloc: Global, sessions: &[Vec<u8>]) -> Result<Vec<u8>, Memory>
    ensures { IfOk result (λ list. list.items ≡ concat (map (λ rows. rows.items) sessions.now)) }
{
    let mut list = Vec::new(alloc);
    let mut rest = sessions;
    while let [rows, more @ ..] = rest {
        list.extend_from_slice(rows.as_slice())?;
        rest = more;
    }
    Ok(list)
}
