//! What is written of the rows that tell what a line means, and of the numbers in it.
//! It knows nothing of how a row is found.
ghost use Rattle.std.specs.Prelude.{◌≡◌, ◌++◌, IfOk, OnOk, codes};
ghost use Rattle.std.specs.String.{string_bytes};
ghost use Rattle.seatdesk.specs.Rows.{Begins, row_text};

use crate::counted::{NAMED_KEY, OTHER_KEY, name_at};
use crate::explanations::{code_of, said_in};
use std::alloc::{AllocError, Global};

/// What a number with @ ahead of it counts, whatever the code's own numbers are.
const CALL: &str = "call of that session";

/// The text of the first row, of a fault behind FAULT, of the code behind the one or the other, and of each number, or of the words of a key that no season has.
pub fn text_of(
    alloc: Global,
    first: &str,
    fault: &str,
    second: &str,
    counted: &str,
    numbers: &[&str],
) -> Result<String, AllocError>
    ensures { IfOk result (λ text. Begins (row_text first.now) (string_bytes text)) }
{
    let mut text = String::new(alloc);
    put_row(&mut text, first)?;
    put_further(&mut text, fault)?;
    put_further(&mut text, second)?;
    put_numbers(alloc, &mut text, counted, numbers)?;
    Ok(text)
}

#[tactic(auto, using(crate::proofs::Rows::itself, crate::proofs::Rows::longer))]
fn put_further(text: &mut String, row: &str) -> Result<(), AllocError>
    ensures { OnOk result (Begins (string_bytes text.old) (string_bytes text.new)) }
{
    if row.is_empty() {
        return Ok(());
    }
    put_row(text, row)
}

fn put_row(text: &mut String, row: &str) -> Result<(), AllocError>
    ensures { OnOk result (string_bytes text.new ≡ string_bytes text.old ++ row_text row.now) }
{
    put_line(text, code_of(row), said_in(row))
}

/// Adds what each number counts.
#[tactic(auto, using(crate::proofs::Rows::itself, crate::proofs::Rows::further))]
fn put_numbers(
    alloc: Global,
    text: &mut String,
    counted: &str,
    numbers: &[&str],
) -> Result<(), AllocError>
    ensures { OnOk result (Begins (string_bytes text.old) (string_bytes text.new)) }
{
    if counted == OTHER_KEY {
        return put_key(alloc, text, numbers);
    }
    for at in 0..numbers.len() {
        put_number(text, name_at(counted, at), numbers[at])?;
    }
    Ok(())
}

#[tactic(auto, using(crate::proofs::Rows::longer))]
fn put_number(text: &mut String, what: &str, number: &str) -> Result<(), AllocError>
    ensures { OnOk result (Begins (string_bytes text.old) (string_bytes text.new)) }
{
    match number.strip_prefix('@') {
        Some(call) => put_line(text, CALL, call),
        None => put_line(text, what, number),
    }
}

/// Adds a key that no season has, which may be of several words.
#[tactic(auto, using(crate::proofs::Rows::itself, crate::proofs::Rows::longer))]
fn put_key(alloc: Global, text: &mut String, words: &[&str]) -> Result<(), AllocError>
    ensures { OnOk result (Begins (string_bytes text.old) (string_bytes text.new)) }
{
    if words.is_empty() {
        return Ok(());
    }
    let key = words.join(alloc, " ")?;
    put_line(text, NAMED_KEY, &key)
}

/// Adds what something is, and what is said of it.
fn put_line(text: &mut String, what: &str, said: &str) -> Result<(), AllocError>
    ensures { OnOk result
        (string_bytes text.new ≡ string_bytes text.old ++ (what.now ++ (codes ": " ++ (said.now ++ codes "\n")))) }
{
    text.push_str(what)?;
    text.push_str(": ")?;
    text.push_str(said)?;
    text.push_str("\n")
}
