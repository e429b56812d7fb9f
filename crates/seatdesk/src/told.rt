//! Which rows tell what a line means, and what the numbers in it count.
//! It knows how the words of a line stand behind one another, and nothing of what its codes say.
ghost use Rattle.std.specs.Prelude.{◌≡◌, IfOk, IfSome, IsTrue, codes, length, map, take};
ghost use Rattle.seatdesk.specs.Meanings.{IsRowForOrNone, IsTold, IsToldOf};
ghost use Rattle.seatdesk.specs.Rows.{IsRowOrNone};
ghost use Rattle.seatdesk.specs.Words.{first_word, IsPlainOf, IsRoomBehind};

use crate::counted::{DESK, KEYS, NAMED_KEY, OTHER_KEY, name_at};
use crate::explanations::{
    answer_row, asked_row, first_of, has_word, is_listed, numbers_of, reply_row, row_behind,
    row_of, row_of_note, row_of_reason,
};
use crate::written::text_of;
use std::alloc::{AllocError, Global};

/// What stands ahead of a fault that is of no line, behind FAULT.
pub const DASH: &str = "-";

/// What stands ahead of a fault that a host tells a desk.
const FAULT: &str = "FAULT";

/// The session of a host's manager.
const MANAGER: &str = "0";

/// The codes of rows of limits and of changes.
const ROWS: &[&str] = &["M1", "M2", "M3", "M4", "M5", "M6", "M7", "U1"];

/// What is told of a line, or how many of its words stand from the first one on that is no code or number of it.
pub enum Told {
    Text(String),
    Left(usize),
}

/// What is told of a line: of its first word, and behind FAULT of the fault that a host tells.
pub fn told_of(alloc: Global, line: &[&str], ahead: &'static str) -> Result<Told, AllocError>
    ensures { IfOk result (λ told. IsToldOf (first_word (map (λ word. word.now) line.now)) told) }
{
    let [code, behind @ ..] = line else {
        return Ok(Told::Left(0));
    };
    let answer = answer_row(code);
    if !answer.is_empty() {
        return told_of_answer(alloc, answer, code, behind, ahead);
    }
    let row = row_for(code);
    if !row.is_empty() {
        return details(alloc, row, "", code, behind);
    }
    let other = other_row(code, behind);
    if !other.is_empty() {
        return alone(alloc, other);
    }
    Ok(Told::Left(line.len()))
}

fn alone(alloc: Global, row: &'static str) -> Result<Told, AllocError>
    ensures { IfOk result (λ told. IsTold row.now told) }
{
    Ok(Told::Text(text_of(alloc, row, "", "", "", &[])?))
}

/// What is told of a word of an answer: its row alone, or of FAULT what the fault behind it says too, of which a host told a desk or a feed.
fn told_of_answer(
    alloc: Global,
    answer: &'static str,
    word: &str,
    fault: &[&str],
    ahead: &'static str,
) -> Result<Told, AllocError>
    ensures { IfOk result (λ told. IsTold answer.now told) }
{
    if !word.eq_ignore_ascii_case(FAULT) {
        return alone(alloc, answer);
    }
    let [code, behind @ ..] = fault else {
        return alone(alloc, answer);
    };
    let row = row_for(code);
    if row.is_empty() {
        return Ok(Told::Left(fault.len()));
    }
    let code = if *code == DASH { ahead } else { *code };
    details(alloc, answer, row, code, behind)
}

/// What is told of a row, and of a fault behind it where there is one, with the words behind the code.
fn details(
    alloc: Global,
    first: &'static str,
    fault: &'static str,
    code: &str,
    behind: &[&str],
) -> Result<Told, AllocError>
    ensures { IfOk result (λ told. IsTold first.now told) }
{
    let second = second_of(code, behind);
    let numbers = if second.is_empty() {
        behind
    } else {
        behind_first(behind)
    };
    let counted = counted(first_of(fault, first), second, code, numbers);
    match wrong_number(counted, numbers) {
        Some(left) => Ok(Told::Left(left)),
        None => Ok(Told::Text(text_of(alloc, first, fault, second, counted, numbers)?)),
    }
}

/// The row of the word behind a code, where it is a code too.
fn second_of(code: &str, behind: &[&str]) -> &'static str {
    match behind {
        [word, ..] => row_behind(code, word),
        [] => "",
    }
}

fn behind_first<'a, 'b>(words: &'b [&'a str]) -> &'b [&'a str] {
    match words {
        [_, behind @ ..] => behind,
        [] => words,
    }
}

/// What the numbers behind a code count. Of a row of changes that a host was sent they are the manager's session, 0, and the line.
fn counted(row: &'static str, second: &'static str, code: &str, numbers: &[&str]) -> &'static str {
    match numbers {
        [session, _] if *session == MANAGER && has_word(ROWS, code) => DESK,
        _ => counted_of(row, second, code),
    }
}

/// What the code behind the first one says of the numbers, where it does and is no list's, or else the first one.
fn counted_of(row: &'static str, second: &'static str, code: &str) -> &'static str {
    let numbers = numbers_of(second);
    if !numbers.is_empty() && !is_listed(code) {
        numbers
    } else {
        numbers_of(row)
    }
}

/// How many words stand from the first one on that is no number and no key, or one more than are counted.
fn wrong_number(counted: &'static str, numbers: &[&str]) -> Option<usize> {
    if counted == OTHER_KEY {
        return None;
    }
    for at in 0..numbers.len() {
        if !is_right(name_at(counted, at), numbers[at]) {
            return Some(numbers.len() - at);
        }
    }
    None
}

/// Whether a word may stand for what is counted so: a number, or the name of a key of a season.
fn is_right(what: &str, word: &str) -> bool {
    if what == NAMED_KEY {
        has_word(KEYS, word)
    } else {
        !what.is_empty() && is_number(word)
    }
}

/// Whether a word is a number, as it is printed of a line or, behind @, of a call.
pub fn is_number(word: &str) -> bool {
    let digits = word.strip_prefix('@').unwrap_or(word);
    !digits.is_empty() && without_digits(digits).is_empty()
}

/// The row of a fault's code or a reply's.
#[tactic(auto, using(crate::proofs::Rows::either))]
fn row_for(code: &str) -> &'static str
    ensures { IsRowOrNone code.now result.now }
{
    first_of(row_of(code), reply_row(code))
}

/// The row of a word that is no code: a note, why a file is refused, a word to a host, or a reply's code with its seats.
#[tactic(auto, using(crate::proofs::Rows::row_or_note, crate::proofs::Rows::row_of_note, crate::proofs::Rows::row_plainly))]
fn other_row(word: &str, behind: &[&str]) -> &'static str
    ensures { IsRowForOrNone word.now result.now }
{
    let note = row_of_note(word, behind);
    if !note.is_empty() {
        return note;
    }
    let reason = reason_for(word, behind);
    if !reason.is_empty() {
        return reason;
    }
    plain_row(plain_of(word))
}

/// The row of what -v says of a file, behind its name and a colon.
#[tactic(auto, using(crate::proofs::Rows::no_row))]
fn reason_for(name: &str, behind: &[&str]) -> &'static str
    ensures { IsRowOrNone (codes "note") result.now }
{
    if !name.ends_with(':') {
        return "";
    }
    row_of_reason(behind)
}

/// The row of a word to a host, of a reply's code, or of the room of a closed class.
#[tactic(auto, using(crate::proofs::Rows::either))]
fn plain_row(plain: &str) -> &'static str
    ensures { IsRowOrNone plain.now result.now }
{
    first_of(asked_row(plain), reply_row(plain))
}

/// A word without the ? ahead of it, the room of a closed class without the class ahead of it, or a word without the digits at its end.
fn plain_of(word: &str) -> &str
    ensures { IsPlainOf word.now result.now }
{
    if let Some(plain) = word.strip_prefix('?') {
        return plain;
    }
    match room_of_closed(word) {
        Some(room) => room,
        None => without_digits(word),
    }
}

/// A word without the digits at its end.
fn without_digits(word: &str) -> &str
    ensures { result.now ≡ take (length result.now) word.now }
{
    word.trim_end_matches(|c: char| c.is_ascii_digit())
}

/// What stands behind the class in the room of a class that is closed, as in Q0C.
#[tactic(auto, using(crate::proofs::Rows::is_room))]
fn room_of_closed(word: &str) -> Option<&'static str>
    ensures { IfSome result (λ room. IsRoomBehind word.now room.now) }
{
    match word.as_bytes() {
        [class, room @ ..] if class.is_ascii_alphabetic() && room.eq_ignore_ascii_case(b"0C") => {
            Some("0C")
        }
        _ => None,
    }
}
