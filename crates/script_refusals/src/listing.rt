//! The list of refused lines.
ghost use Rattle.std.specs.Prelude.{◌≡◌, ◌<◌, ◌≤◌, ◌^◌, ◌++◌, IfOk, IsTrue, None, OnOk, length, map};
ghost use Rattle.std.specs.List.{count_by};
ghost use Rattle.airline_base.specs.Lines.{is_line_feed};
ghost use Rattle.script_refusals.specs.Listing.{IsBehind, begin_alike, is_coded_place, is_list, is_number, is_place, is_row, other_row, row_number, row_on, row_text, rows_behind, rows_text, stray_row};

use airimp_lines::ScriptFault;
use airline_base::Memory;
use airline_base::fields::are_digits;
use airline_base::lines::cut_line;
use std::alloc::Global;

/// Adds a row for each refused line of a session's script: what a run without a list is refused with, as `Q2 A5 1 2`, which is the code, the
/// session and the line.
pub fn put_refusals(
    alloc: Global,
    text: &mut Vec<u8>,
    session: u8,
    refusals: &[ScriptFault],
) -> Result<(), Memory>
    ensures { OnOk result (text.new.items ≡ text.old.items ++ rows_text session refusals.now) }
{
    let mut rest = refusals;
    while let [refusal, more @ ..] = rest {
        let row = row_of(alloc, session, refusal)?;
        text.extend_from_slice(row.as_slice())?;
        rest = more;
    }
    Ok(())
}

fn row_of(alloc: Global, session: u8, refusal: &ScriptFault) -> Result<Vec<u8>, Memory>
    ensures { IfOk result (λ row. row.items ≡ row_text session refusal.now) }
{
    let kind = refusal.kind;
    let line = refusal.line;
    let row = format!(in alloc; "{kind} {session} {line}\n")?;
    Ok(row.into_bytes())
}

/// What is left of a list behind the whole rows that it has in common with these, from its beginning on.
#[tactic(auto, using(crate::proofs::Shared::is_behind, crate::proofs::Shared::byte_further, crate::proofs::Shared::at_other))]
pub fn rows_behind<'a>(listed: &'a [u8], rows: &[u8]) -> &'a [u8]
    ensures value { result.now ≡ rows_behind listed.now rows.now }
    ensures front { IsBehind listed.now rows.now result.now }
{
    let mut row = listed;
    let mut rest = listed;
    let mut others = rows;
    while begin_alike(rest, others) {
        row = row_on(row, rest);
        rest = &rest[1..];
        others = &others[1..];
    }
    row
}

/// Whether both begin with one byte.
fn begin_alike(listed: &[u8], rows: &[u8]) -> bool
    ensures value { result ≡ begin_alike listed.now rows.now }
    ensures some { IsTrue result → (1 ≤ length listed.now) × (1 ≤ length rows.now) }
{
    match listed {
        [a, ..] => match rows {
            [b, ..] => *a == *b,
            [] => false,
        },
        [] => false,
    }
}

/// The row in which the byte stands that follows the first one.
fn row_on<'a>(row: &'a [u8], listed: &'a [u8]) -> &'a [u8]
    ensures { result.now ≡ row_on row.now listed.now }
{
    match listed {
        [a, rest @ ..] => if *a == b'\n' { rest } else { row },
        [] => row,
    }
}

/// The number of the row of a list behind which this much is left of it. Rows count from 1.
pub fn row_number(listed: &[u8], rest: &[u8]) -> u32
    requires size { length listed.now < 2 ^ 31 }
    ensures { result ≡ row_number listed.now rest.now }
{
    let front = listed.len().saturating_sub(rest.len());
    1 + line_feeds(&listed[..front])
}

/// The number of the first row in which a list is not these rows, if it is not.
pub fn other_row(listed: &[u8], rows: &[u8]) -> Option<u32>
    requires size { length listed.now < 2 ^ 31 }
    ensures value { result ≡ other_row listed.now rows.now }
    ensures same { result ≡ None → listed.now ≡ rows.now }
{
    if listed == rows {
        return None;
    }
    Some(row_number(listed, rows_behind(listed, rows)))
}

/// The number of the first row of a list that is none of those with which the rows of each session begin, one session after the other, if
/// there is one.
pub fn stray_row(listed: &[u8], sessions: &[Vec<u8>]) -> Option<u32>
    requires size { length listed.now < 2 ^ 31 }
    ensures { result ≡ stray_row listed.now (map (λ rows. rows.items) sessions.now) }
{
    let mut left = listed;
    let mut rest = sessions;
    while let [rows, more @ ..] = rest {
        left = rows_behind(left, rows.as_slice());
        rest = more;
    }
    if left.is_empty() {
        return None;
    }
    Some(row_number(listed, left))
}

#[tactic(auto, using(crate::proofs::Shared::feeds_within))]
fn line_feeds(bytes: &[u8]) -> u32
    requires size { length bytes.now < 2 ^ 31 }
    ensures value { result ≡ count_by is_line_feed bytes.now }
    ensures most { result < 2 ^ 31 }
{
    bytes.iter().filter(|byte| **byte == b'\n').count() as u32
}

/// Whether each line of a text has the form of a row of a list.
pub fn is_list(bytes: &[u8]) -> bool
    ensures { result ≡ is_list bytes.now }
{
    let mut rest = bytes;
    while !rest.is_empty() {
        let (text, after) = cut_line(rest);
        if !is_row(text) {
            return false;
        }
        rest = after;
    }
    true
}

fn is_row(text: &[u8]) -> bool
    ensures { result ≡ is_row text.now }
{
    match text {
        [letter, digit, blank, rest @ ..] => {
            *letter == b'Q'
                && *blank == b' '
                && (*digit == b'1' && is_place(rest) || *digit == b'2' && is_coded_place(rest))
        }
        _ => false,
    }
}

/// Whether the text is the code of a segment line, and a session and a line.
fn is_coded_place(text: &[u8]) -> bool
    ensures { result ≡ is_coded_place text.now }
{
    match text {
        [letter, digit, blank, place @ ..] => {
            *letter == b'A' && digit.is_ascii_digit() && *blank == b' ' && is_place(place)
        }
        _ => false,
    }
}

/// Whether the text is a session and a line.
fn is_place(text: &[u8]) -> bool
    ensures { result ≡ is_place text.now }
{
    match text {
        [session, blank, line @ ..] => {
            session.is_ascii_digit() && *blank == b' ' && is_number(line)
        }
        _ => false,
    }
}

fn is_number(text: &[u8]) -> bool
    ensures { result ≡ is_number text.now }
{
    match text {
        [digit, digits @ ..] => digit.is_ascii_digit() && are_digits(digits),
        [] => false,
    }
}
