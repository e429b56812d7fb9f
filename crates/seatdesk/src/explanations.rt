//! The rows of the tables of texts, and the search for one.
//! It knows how a table is written, and nothing of the faults behind its codes. No row is the empty text, which stands for none.
ghost use Rattle.std.specs.Prelude.{◌≡◌, ◌<◌, ◌==◌, IsTrue, codes};
ghost use Rattle.std.specs.List.{after_first, before_first};
ghost use Rattle.seatdesk.specs.Rows.{IsNoteOrNone, IsRowOrNone, first_of, is_of, row_code, row_says};

use crate::answers::ANSWERS;
use crate::asked::ASKED;
use crate::behind::BEHIND;
use crate::faults::FAULTS;
use crate::notes::{KEPT, NOTES, REASONS};
use crate::replies::REPLIES;

/// The row of a code that stands behind another. Small letters stand for capitals.
#[tactic(auto, using(crate::proofs::Rows::either))]
pub fn row_behind(behind: &str, code: &str) -> &'static str
    ensures { IsRowOrNone code.now result.now }
{
    let behind = &[ahead_of_segments(behind)];
    first_of(
        first_among(faults(), behind, code),
        first_among(words_behind(), behind, code),
    )
}

/// The code ahead of what is wrong in a segment line: of a partner's list it is T2, and the rows are those of a script, behind Q2.
fn ahead_of_segments(behind: &str) -> &str {
    if is_listed(behind) { "Q2" } else { behind }
}

/// Whether the code is that of a line of a partner's list whose segment is none.
pub fn is_listed(code: &str) -> bool {
    code.eq_ignore_ascii_case("T2")
}

/// The row of a code, wherever it stands: a letter with its number, or a word that stands first.
pub fn row_of(code: &str) -> &'static str
    ensures { IsRowOrNone code.now result.now }
{
    first_named(faults(), code)
}

/// The row of a word of an answer, in small letters or capitals.
pub fn answer_row(word: &str) -> &'static str
    ensures { IsRowOrNone word.now result.now }
{
    first_named(ANSWERS, word)
}

/// The row of a word to a host, without the ? ahead of it, or of the room of a closed class, without the class.
pub fn asked_row(word: &str) -> &'static str
    ensures { IsRowOrNone word.now result.now }
{
    first_named(ASKED, word)
}

/// The row of a reply's code.
pub fn reply_row(code: &str) -> &'static str
    ensures { IsRowOrNone code.now result.now }
{
    first_named(REPLIES, code)
}

/// The row of a line that is no fault, which says what was kept, or is a note: by a word that the note has.
#[tactic(auto, using(crate::proofs::Rows::either, crate::proofs::Rows::noted, crate::proofs::Rows::note))]
pub fn row_of_note(code: &str, words: &[&str]) -> &'static str
    ensures { IsNoteOrNone code.now result.now }
{
    let code = match code {
        "note:" => "note",
        _ => code,
    };
    first_of(first_among(NOTES, words, code), first_named(KEPT, code))
}

/// The row of why a file may not be what it is named for: by a word of that.
pub fn row_of_reason(words: &[&str]) -> &'static str
    ensures { IsRowOrNone (codes "note") result.now }
{
    first_among(REASONS, words, "note")
}

/// The first of two rows that is no empty text.
pub fn first_of(row: &'static str, other: &'static str) -> &'static str
    ensures { result.now ≡ first_of row.now other.now }
{
    if row.is_empty() { other } else { row }
}

/// Whether a word is among others, in small letters or capitals.
pub fn has_word(words: &[&str], wanted: &str) -> bool {
    words.iter().any(|word| word.eq_ignore_ascii_case(wanted))
}

/// The first row of a table that is of this code, wherever it stands.
fn first_named(table: &'static str, code: &str) -> &'static str
    ensures { IsRowOrNone code.now result.now }
{
    first_in(table, None, code)
}

/// The first row of a table that is of this code and stands behind one of these words.
fn first_among(table: &'static str, words: &[&str], code: &str) -> &'static str
    ensures { IsRowOrNone code.now result.now }
{
    first_in(table, Some(words), code)
}

#[tactic(auto, using(crate::proofs::Rows::no_row, crate::proofs::Rows::some_row))]
fn first_in(table: &'static str, ahead: Option<&[&str]>, code: &str) -> &'static str
    ensures { IsRowOrNone code.now result.now }
{
    for row in table.split('#') {
        if is_row(row, ahead, code) {
            return row;
        }
    }
    ""
}

/// Whether a row is of this code and stands behind one of these words, or anywhere where there are none.
fn is_row(row: &str, ahead: Option<&[&str]>, code: &str) -> bool
    ensures { IsTrue result → IsTrue (is_of code.now row.now) }
{
    let of = code_of(row);
    !of.is_empty() && of.eq_ignore_ascii_case(code) && stands_behind(ahead_of(row, '|'), ahead)
}

fn stands_behind(word: &str, ahead: Option<&[&str]>) -> bool {
    match ahead {
        Some(words) => has_word(words, word),
        None => true,
    }
}

fn faults() -> &'static str {
    FAULTS
}

fn words_behind() -> &'static str {
    BEHIND
}

/// The code of a row, which begins with a line of what stands ahead of the code, or of a word that a note has, the code, and what its numbers count,
/// divided by |.
pub fn code_of(row: &str) -> &str
    ensures { result.now ≡ row_code row.now }
{
    ahead_of(behind(row, '|'), '|')
}

/// What the numbers behind the code of a row count, in order, with the codes behind it passed over: up to two names, which a comma divides.
pub fn numbers_of(row: &str) -> &str {
    ahead_of(behind(behind(row, '|'), '|'), '\n')
}

/// What is wrong, and what helps: the lines of a row behind its first one, without the last one's end.
pub fn said_in(row: &str) -> &str
    ensures { result.now ≡ row_says row.now }
{
    behind(row, '\n').trim_end()
}

/// What stands ahead of the first such character, or all.
#[tactic(auto, using(std::proofs::lemmas::Str::Pattern::split_once_first))]
pub fn ahead_of(text: &str, divider: char) -> &str
    requires { divider < 128 }
    ensures { result.now ≡ before_first (λ b. b == divider) text.now }
{
    match text.split_once(divider) {
        Some((ahead, _)) => ahead,
        None => text,
    }
}

/// What stands behind the first such character, or nothing.
#[tactic(auto, using(std::proofs::lemmas::Str::Pattern::split_once_first))]
pub fn behind(text: &str, divider: char) -> &str
    requires { divider < 128 }
    ensures { result.now ≡ after_first (λ b. b == divider) text.now }
{
    match text.split_once(divider) {
        Some((_, behind)) => behind,
        None => "",
    }
}
