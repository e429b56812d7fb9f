//! The line of a flight of which something becomes.
//! It knows no flight.
ghost use Rattle.std.specs.Prelude.{◌≡◌, ◌++◌, ℕ, List, OnOk};
ghost use Rattle.airline_base.specs.Days.{IsDateText};
ghost use Rattle.airline_base.specs.Fields.{suffix_text};
ghost use Rattle.seat_desk.specs.FlightsDesk.{IsPut};
ghost use Rattle.season_changes.specs.Lines.{IsChangeLine, IsChangePart, IsPutBehind, changed_text, designator_text, is_added, is_outside, seats_text, what_text, word_if};

use crate::changes::Change;
use crate::differing::What;
use crate::naming::Name;
use seat_desk::{put, put_number};
use std::alloc::AllocError;

/// Adds a line for each of these changes. A flight that is not compared has none.
pub(crate) fn put_changes(
    text: &mut Vec<u8>,
    has_journal: bool,
    all: &[Change],
) -> Result<(), AllocError>
    ensures { OnOk result (IsPut (λ n. IsChangePart has_journal) 0 all.now text.old.items text.new.items) }
{
    for i in 0..all.len() {
        put_change(text, has_journal, &all[i])?;
    }
    Ok(())
}

#[tactic(auto, using(crate::proofs::Lines::no_line, crate::proofs::Lines::line_of))]
fn put_change(text: &mut Vec<u8>, has_journal: bool, change: &Change) -> Result<(), AllocError>
    ensures { OnOk result (IsPutBehind (IsChangePart has_journal change.now) text.old.items text.new.items) }
{
    if is_outside(change.what) {
        return Ok(());
    }
    put_line(text, has_journal, change)
}

fn is_outside(what: What) -> bool
    ensures { result ≡ is_outside what }
{
    match what {
        What::Outside => true,
        What::Gone | What::Added | What::Changed { .. } => false,
    }
}

/// Adds the line of a change: what becomes of the flight, its designator and its day, and the seats of a journal.
fn put_line(text: &mut Vec<u8>, has_journal: bool, change: &Change) -> Result<(), AllocError>
    ensures { OnOk result (IsPutBehind (IsChangeLine has_journal change.now) text.old.items text.new.items) }
{
    put_what(text, change.what)?;
    put_designator(text, &change.name)?;
    put(text, b" ")?;
    put(text, &change.name.day.bytes())?;
    put_seats(text, has_journal, change)?;
    put(text, b"\n")?;
    Ok(())
}

/// Adds the words for what becomes of a flight, each with a blank behind it.
fn put_what(text: &mut Vec<u8>, what: What) -> Result<(), AllocError>
    ensures { OnOk result (text.new.items ≡ text.old.items ++ what_text what) }
{
    match what {
        What::Gone => put(text, b"GONE "),
        What::Added => put(text, b"ADDED "),
        What::Outside => Ok(()),
        What::Changed {
            legs,
            times,
            limits,
        } => put_changed(text, legs, times, limits),
    }
}

/// Adds the words for what differs, each with a blank behind it.
#[tactic(auto, using(crate::proofs::Lines::changed_put))]
fn put_changed(text: &mut Vec<u8>, legs: bool, times: bool, limits: bool) -> Result<(), AllocError>
    ensures { OnOk result (text.new.items ≡ text.old.items ++ changed_text legs times limits) }
{
    put_if(text, legs, b"LEGS ")?;
    put_if(text, times, b"TIMES ")?;
    put_if(text, limits, b"LIMITS ")?;
    Ok(())
}

fn put_if(text: &mut Vec<u8>, holds: bool, word: &[u8]) -> Result<(), AllocError>
    ensures { OnOk result (text.new.items ≡ text.old.items ++ word_if holds word.now) }
{
    if holds { put(text, word) } else { Ok(()) }
}

fn put_designator(text: &mut Vec<u8>, name: &Name) -> Result<(), AllocError>
    ensures { OnOk result (text.new.items ≡ text.old.items ++ designator_text name.now) }
{
    put(text, &name.airline.characters())?;
    put_number(text, u64::from(name.number))?;
    put_suffix(text, name.suffix)
}

fn put_suffix(text: &mut Vec<u8>, suffix: Option<u8>) -> Result<(), AllocError>
    ensures { OnOk result (text.new.items ≡ text.old.items ++ suffix_text suffix) }
{
    match suffix {
        Some(letter) => put(text, &[letter]),
        None => Ok(()),
    }
}

/// Adds the seats on a flight of the old season, where there is a journal.
#[tactic(auto, unfolding(crate::specs::Lines::seats_text))]
fn put_seats(text: &mut Vec<u8>, has_journal: bool, change: &Change) -> Result<(), AllocError>
    ensures { OnOk result (text.new.items ≡ text.old.items ++ seats_text has_journal change.now) }
{
    if !has_journal {
        return Ok(());
    }
    if is_added(change.what) {
        return Ok(());
    }
    put(text, b" held ")?;
    put_number(text, change.held)?;
    put(text, b" waiting ")?;
    put_number(text, change.waiting)?;
    Ok(())
}

fn is_added(what: What) -> bool
    ensures { result ≡ is_added what }
{
    match what {
        What::Added => true,
        What::Gone | What::Outside | What::Changed { .. } => false,
    }
}
