//! What a line means that the program printed: a fault, a reply, a note or an answer.
//! It knows how such a line is led and divided, and nothing of what its codes say.
ghost use Rattle.std.specs.Prelude.{◌≡◌, ◌==◌, [], ◌∷◌, ◌++◌, IfOk, IsTrue, OnOk, codes, map};
ghost use Rattle.std.specs.List.{slice_split};
ghost use Rattle.seatdesk.specs.Meanings.{IsMeaning, IsMeaningOf};
ghost use Rattle.seatdesk.specs.Words.{filled, first_word, line_of, unnamed, words_of, IsLead, IsPlace, IsUnplaced};

use crate::told::{DASH, Told, is_number, told_of};
use std::alloc::{AllocError, Global};

/// What stands ahead of a fault in its line.
const NAME: &str = "seatdesk:";

/// What stands ahead of a fault that is of no line, behind FAULT, where a feed is told it: its host has other files.
const FED: &str = "- FAULT -";

/// What a line means, or its first word that is no code or number of it.
pub enum Meaning<'a> {
    Found(String),
    Unknown(&'a str),
}

/// What a fault line means: its code, the code or word behind that, and what each number counts; or what a reply, a note or the word that an
/// answer begins with says.
/// Of a fault that a host told a desk it is what FAULT says, and then what the fault says.
/// The line may be one word or several, as it was printed, without the program's name, the place of a journal or the session that a feed's line
/// is led by, and in small letters. A reply's code may have its seats behind it, a word to a host its ? ahead of it, and the room of a closed class the class.
#[tactic(auto, using(crate::proofs::Rows::meaning_of_rest))]
pub fn meaning_of<'a>(
    alloc: Global,
    code: &'a str,
    behind: &[&'a str],
) -> Result<Meaning<'a>, AllocError>
    ensures found { IfOk result (IsMeaningOf (unnamed (line_of (code.now ∷ map (λ word. word.now) behind.now)))) }
{
    let line = words_in(alloc, code, behind)?;
    let line = line.as_slice();
    explained(
        alloc,
        without_place(without_name(line)),
        ahead_of_no_line(line),
    )
}

fn explained<'a>(
    alloc: Global,
    line: &[&'a str],
    ahead: &'static str,
) -> Result<Meaning<'a>, AllocError>
    ensures found { IfOk result (λ meaning. IsMeaning (first_word (map (λ word. word.now) line.now)) meaning) }
{
    match told_of(alloc, line, ahead)? {
        Told::Text(text) => Ok(Meaning::Found(text)),
        Told::Left(left) => Ok(Meaning::Unknown(word_of(line, left))),
    }
}

/// The word of a line from which on so many are left.
fn word_of<'a>(line: &[&'a str], left: usize) -> &'a str {
    if left == 0 || line.len() < left {
        return "";
    }
    line[line.len() - left]
}

/// The words of all pieces of a line, which blanks divide.
fn words_in<'a>(
    alloc: Global,
    code: &'a str,
    behind: &[&'a str],
) -> Result<Vec<&'a str>, AllocError>
    ensures { IfOk result (λ words. map (λ word. word.now) words.items ≡ line_of (code.now ∷ map (λ word. word.now) behind.now)) }
{
    let mut words = Vec::new(alloc);
    put_words(alloc, &mut words, code)?;
    for piece in behind {
        put_words(alloc, &mut words, piece)?;
    }
    Ok(words)
}

/// Adds the words of a text, which blanks divide.
fn put_words<'a>(alloc: Global, words: &mut Vec<&'a str>, text: &'a str) -> Result<(), AllocError>
    ensures { OnOk result
        (map (λ word. word.now) words.new.items ≡ map (λ word. word.now) words.old.items ++ words_of text.now) }
{
    let parts = parts_of(alloc, text)?;
    for part in &parts {
        put_part(words, *part)?;
    }
    Ok(())
}

fn put_part<'a>(words: &mut Vec<&'a str>, part: &'a str) -> Result<(), AllocError>
    ensures { OnOk result
        (map (λ word. word.now) words.new.items ≡ map (λ word. word.now) words.old.items ++ filled (part.now ∷ [])) }
{
    if !part.is_empty() {
        words.push(part)?;
    }
    Ok(())
}

fn parts_of(alloc: Global, text: &str) -> Result<Vec<&str>, AllocError>
    ensures { IfOk result (λ parts. map (λ part. part.now) parts.items ≡ slice_split (λ b. b == 32) text.now) }
{
    text.split(' ').collect(alloc)
}

/// What stands ahead of a fault of no line by whom it is told: a feed, whose line begins with a dash, or a desk.
fn ahead_of_no_line(line: &[&str]) -> &'static str {
    match line {
        [first, ..] if *first == DASH => FED,
        _ => DASH,
    }
}

fn without_name<'a, 'b>(line: &'b [&'a str]) -> &'b [&'a str]
    ensures { map (λ word. word.now) result.now ≡ unnamed (map (λ word. word.now) line.now) }
{
    match line {
        [first, rest @ ..] if *first == NAME || *first == DASH => rest,
        _ => line,
    }
}

/// The line without the place of one of several journals or of two seasons, or the session that a feed's line is for, which stand ahead of the fault.
fn without_place<'a, 'b>(line: &'b [&'a str]) -> &'b [&'a str]
    ensures { IsUnplaced (map (λ word. word.now) line.now) (map (λ word. word.now) result.now) }
{
    match line {
        [first, rest @ ..] if is_place(first) => rest,
        [first, rest @ ..] if is_lead(first) && !rest.is_empty() => rest,
        _ => line,
    }
}

/// Whether a word is a number and a colon.
#[tactic(auto, using(crate::proofs::Rows::is_place))]
fn is_place(word: &str) -> bool
    ensures { IsTrue result → IsPlace word.now }
{
    match word.strip_suffix(':') {
        Some(digits) => is_number(digits),
        None => false,
    }
}

/// Whether a word is the number of the manager, 0, or of a session, 1 to 8.
#[tactic(auto, using(crate::proofs::Rows::is_lead))]
fn is_lead(word: &str) -> bool
    ensures { IsTrue result → IsLead word.now }
{
    match word.as_bytes() {
        [digit] => b'0' <= *digit && *digit <= b'8',
        _ => false,
    }
}
