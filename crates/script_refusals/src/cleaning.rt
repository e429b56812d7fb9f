//! A script without its wrong lines.
ghost use Rattle.std.specs.Prelude.{◌≡◌, ◌<◌, ◌^◌, ◌++◌, [], ◌∷◌, IfOk, OnOk, length};
ghost use Rattle.std.specs.List.{list_all};
ghost use Rattle.airline_base.specs.Lines.{is_line_feed};
ghost use Rattle.script_refusals.specs.Cleaning.{cleaned_text, empty_line, fault_in, kept, left_of, line_refused, lines_left, own_refusal, passage_behind, passage_refused, refusals_of, text_of, whole_lines};

use airimp_lines::{ScriptFault, ScriptKind, read_line};
use airline_base::lines::{cut_line, line_end};
use airline_base::{Day, Items, Locator, Memory};
use std::alloc::Global;

/// 1 January 2000. What is wrong with a line is wrong on each day.
const ANY_DAY: u32 = 10_957;

/// Where in a script a line stands.
#[derive(Clone, Copy)]
pub enum Passage {
    /// In the message of this locator, or behind none that is open.
    Right(Option<Locator>),
    /// Among the lines that are refused with one above, up to the next empty line.
    Refused,
}

/// A script without its wrong lines.
#[derive(Drop)]
pub struct Cleaned {
    /// The script, with a line that asks for nothing in the place of each that is refused, by itself or with its message. Where lines are refused and nothing is
    /// left but empty lines, it has no byte.
    pub text: Vec<u8>,
    /// The lines that are refused, in order: of those that are refused together the first alone.
    pub refusals: Items<ScriptFault>,
}

/// Refuses each wrong line of a script of booking messages (AIRIMP), of less than 4 GiB, and keeps the rest. A wrong segment line is
/// refused alone; a wrong first line refuses its message, up to the next empty line, since a name line can look like the first line of a
/// message. So does a first line in a message, from it on: an empty line is wanting ahead of it, and it can't be told to which of the two
/// what follows belongs. An error is want of memory.
pub fn without_wrong_lines(alloc: Global, bytes: &[u8]) -> Result<Cleaned, Memory>
    requires size { length bytes.now < 2 ^ 32 }
    ensures text { IfOk result (λ cleaned. cleaned.text.items ≡ cleaned_text bytes.now) }
    ensures refusals { IfOk result (λ cleaned. cleaned.refusals ≡ refusals_of bytes.now) }
{
    let Cleaned { text, refusals } = take_lines(alloc, bytes)?;
    let text = left_of(text, refusals.as_slice());
    Ok(Cleaned { text, refusals })
}

/// Nothing, where lines are refused and nothing is left but empty lines: two such scripts would be taken for one.
#[tactic(auto, using(crate::proofs::Taking::nothing_left, crate::proofs::Taking::all_left))]
fn left_of(text: Vec<u8>, refusals: &[ScriptFault]) -> Vec<u8>
    ensures { result.items ≡ left_of refusals.now text.items }
{
    let mut left = text;
    if !refusals.is_empty() && are_line_feeds(&left) {
        left.clear();
    }
    left
}

fn are_line_feeds(text: &[u8]) -> bool
    ensures { result ≡ list_all is_line_feed text.now }
{
    text.iter().all(|byte| *byte == b'\n')
}

/// Takes all lines one by one.
fn take_lines(alloc: Global, bytes: &[u8]) -> Result<Cleaned, Memory>
    requires size { length bytes.now < 2 ^ 32 }
    ensures text { IfOk result (λ cleaned. cleaned.text.items ≡ lines_left bytes.now) }
    ensures refusals { IfOk result (λ cleaned. cleaned.refusals ≡ refusals_of bytes.now) }
{
    let mut text = Vec::new(alloc);
    let mut refusals = Items::new(alloc);
    let mut passage = Passage::Right(None);
    let mut rest = bytes;
    let mut line = 0u32;
    while !rest.is_empty() {
        let (whole, after) = cut_whole(rest);
        line += 1;
        passage = take_line(&mut text, &mut refusals, passage, whole, line)?;
        rest = after;
    }
    Ok(Cleaned { text, refusals })
}

/// The first line with its end, and what stands behind it.
#[tactic(auto, using(crate::proofs::Taking::cut_found, crate::proofs::Taking::cut_all, crate::proofs::Taking::cut_shorter))]
fn cut_whole(bytes: &[u8]) -> (&[u8], &[u8])
    ensures lines { 0 < length bytes.now → whole_lines bytes.now ≡ result.0.now ∷ whole_lines result.1.now }
    ensures shorter { 0 < length bytes.now → length result.1.now < length bytes.now }
{
    match line_end(bytes) {
        Some(end) => bytes.split_at(end + 1),
        None => (bytes, &[]),
    }
}

/// Takes a line with its end, and answers where the next one stands.
fn take_line(
    text: &mut Vec<u8>,
    refusals: &mut Items<ScriptFault>,
    passage: Passage,
    whole: &[u8],
    line: u32,
) -> Result<Passage, Memory>
    ensures passage { IfOk result (λ next. next ≡ passage_behind passage (text_of whole.now)) }
    ensures text { OnOk result (text.new.items ≡ text.old.items ++ kept passage whole.now) }
    ensures refusals { OnOk result (refusals.new
        ≡ refusals.old ++ own_refusal line (fault_in passage (text_of whole.now))) }
{
    match passage {
        Passage::Right(message) => take_right(text, refusals, message, whole, line),
        Passage::Refused => take_refused(text, whole),
    }
}

/// The same of a line where no message is refused.
#[tactic(auto, using(crate::proofs::Taking::right_passage, crate::proofs::Taking::right_kept, crate::proofs::Taking::right_none, crate::proofs::Taking::wrong_passage, crate::proofs::Taking::wrong_kept, crate::proofs::Taking::wrong_own))]
fn take_right(
    text: &mut Vec<u8>,
    refusals: &mut Items<ScriptFault>,
    message: Option<Locator>,
    whole: &[u8],
    line: u32,
) -> Result<Passage, Memory>
    ensures passage { IfOk result (λ next. next ≡ passage_behind (Passage.Right message) (text_of whole.now)) }
    ensures text { OnOk result (text.new.items ≡ text.old.items ++ kept (Passage.Right message) whole.now) }
    ensures refusals { OnOk result (refusals.new
        ≡ refusals.old ++ own_refusal line (fault_in (Passage.Right message) (text_of whole.now))) }
{
    let words = words_of(whole);
    match read_line(message, words, line, Day::numbered(ANY_DAY)) {
        Ok(read) => {
            text.extend_from_slice(whole)?;
            Ok(Passage::Right(read.message))
        }
        Err(kind) => {
            list(refusals, line, kind)?;
            refuse(text, &message, words)
        }
    }
}

/// Adds a refusal.
fn list(refusals: &mut Items<ScriptFault>, line: u32, kind: ScriptKind) -> Result<(), Memory>
    ensures { OnOk result (refusals.new ≡ refusals.old ++ record { line = line; kind = kind } ∷ []) }
{
    refusals.push(ScriptFault { line, kind })?;
    Ok(())
}

/// A line in the place of a wrong one that asks for nothing.
fn refuse(text: &mut Vec<u8>, message: &Option<Locator>, words: &[u8]) -> Result<Passage, Memory>
    ensures passage { IfOk result (λ next. next ≡ passage_refused message.now words.now) }
    ensures text { OnOk result (text.new.items ≡ text.old.items ++ line_refused (passage_refused message.now words.now)) }
{
    let next = passage_refused(message, words);
    put_refused(text, &next)?;
    Ok(next)
}

/// Where the line behind a wrong one stands.
#[tactic(auto, using(crate::proofs::Taking::begins_another, crate::proofs::Taking::begins_none))]
fn passage_refused(message: &Option<Locator>, words: &[u8]) -> Passage
    ensures { result ≡ passage_refused message.now words.now }
{
    match message {
        Some(_) => match read_line(None, words, 1, Day::numbered(ANY_DAY)) {
            Ok(_) => Passage::Refused,
            Err(_) => Passage::Right(*message),
        },
        None => Passage::Refused,
    }
}

/// A name where the message goes on, and an empty line where what follows is refused too.
fn put_refused(text: &mut Vec<u8>, next: &Passage) -> Result<(), Memory>
    ensures { OnOk result (text.new.items ≡ text.old.items ++ line_refused next.now) }
{
    match next {
        Passage::Right(_) => text.extend_from_slice(b"1\n")?,
        Passage::Refused => text.extend_from_slice(b"\n")?,
    }
    Ok(())
}

/// A line that is refused with one above.
#[tactic(auto, using(crate::proofs::Taking::over_passage, crate::proofs::Taking::on_passage))]
fn take_refused(text: &mut Vec<u8>, whole: &[u8]) -> Result<Passage, Memory>
    ensures passage { IfOk result (λ next. next ≡ passage_behind Passage.Refused (text_of whole.now)) }
    ensures text { OnOk result (text.new.items ≡ text.old.items ++ empty_line) }
{
    text.extend_from_slice(b"\n")?;
    if words_of(whole).is_empty() {
        Ok(Passage::Right(None))
    } else {
        Ok(Passage::Refused)
    }
}

/// A line without its end.
#[tactic(auto, using(crate::proofs::Taking::cut_text))]
fn words_of(whole: &[u8]) -> &[u8]
    ensures { result.now ≡ text_of whole.now }
{
    let (words, _) = cut_line(whole);
    words
}
