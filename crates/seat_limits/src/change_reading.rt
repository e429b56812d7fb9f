//! Reading change rows, line by line: `AU XX123 15JUN24 LHRJFK M007/004`, `CLOSE XX123 15JUN24 LHRJFK M`, `OPEN XX123 15JUN24`.
ghost use Rattle.std.specs.Prelude.{◌≡◌, ◌≢◌, ◌<◌, ◌^◌, List, length, option_map, IfOk, IfErr, Err};
ghost use Rattle.std.specs.Result.{MatchResult};
ghost use Rattle.std.specs.Str.Lines.{lines};
ghost use Rattle.seat_limits.specs.RowTexts.{TakesLine, IsStop};
ghost use Rattle.seat_limits.specs.ChangeRows.{IsChangeText, WantsChangeRoom, alone, behind_blank, between, change_at, changes_in, class_in, limit_tail, sale_tail, tail_at, verb_at};
ghost use Rattle.seat_limits.specs.LadderText.{entry_at};
ghost use Rattle.seat_limits.specs.declared.change_row.ChangeRow.{ChangeRow as Row};
ghost use Rattle.seat_limits.specs.declared.limit_fault.LimitKind.TheVariants.{Memory};

use crate::change_row::{ChangeRow, ChangeRows, Cities, RowSetting};
use crate::ladder_text::entry_of;
use crate::limit_fault::{LimitFault, LimitKind};
use crate::row_fields::{date_of, suffix_of};
use airline_base::Class;
use airline_base::fields::{airline_of, byte_of, numeral_of, station_of, word_of};
use airline_base::lines::cut_line;
use seat_nesting::Step;
use std::alloc::Global;

/// The word with which a row begins.
#[derive(Clone, Copy)]
pub enum Verb {
    /// `AU`: another limit and wait.
    Change,
    /// `CLOSE`
    Close,
    /// `OPEN`
    Open,
}

/// The change rows of a text. Lines end with LF, with CR LF or where the bytes end; empty ones are passed over.
pub fn read_changes(alloc: Global, bytes: &[u8]) -> Result<ChangeRows, LimitFault>
    requires { length bytes.now < 2 ^ 32 }
    // What is read is spelled so.
    ensures found { IfOk result (IsChangeText bytes.now) }
    // The rows that are spelled so are read, unless memory is wanting.
    ensures only { (rows : List Row) → IsChangeText bytes.now rows
        → MatchResult result (λ r. r ≡ rows) (λ f. f.kind ≡ Memory) }
    // Which line is refused: the first with a fault, and its first fault.
    ensures fault { IfErr result (λ f. f.kind ≢ Memory → changes_in 1 (lines bytes.now) ≡ Err f) }
    // Want of memory is met at a row, counted from line 1, where no line up to it has a fault.
    ensures memory { IfErr result (λ f. f.kind ≡ Memory → WantsChangeRoom bytes.now f.line) }
{
    let mut rows = ChangeRows::new(alloc);
    let mut rest = bytes;
    let mut line = 0;
    while !rest.is_empty() {
        let (text, after) = cut_line(rest);
        line += 1;
        if let Err(kind) = take_change(&mut rows, line, text) {
            return Err(LimitFault { line, kind });
        }
        rest = after;
    }
    Ok(rows)
}

/// Adds the row of a line, if it is not empty.
fn take_change(rows: &mut ChangeRows, line: u32, text: &[u8]) -> Result<(), LimitKind>
    ensures taken { IfOk result (λ _. TakesLine (change_at line) text.now rows.old rows.new) }
    ensures fault { IfErr result (IsStop (change_at line) text.now) }
{
    if text.is_empty() {
        return Ok(());
    }
    let row = match change_of(line, text) {
        Ok(row) => row,
        Err(kind) => return Err(kind),
    };
    let _cities: Option<Cities> = row.cities;
    let _setting: RowSetting = row.setting;
    let _class: Option<Class> = None;
    match rows.push(row) {
        Ok(()) => Ok(()),
        Err(_) => Err(LimitKind::Memory),
    }
}

/// The row that a line spells, or its first fault from left to right.
#[tactic(auto, unfolding(crate::specs::ChangeRows::change_at))]
fn change_of(line: u32, text: &[u8]) -> Result<ChangeRow, LimitKind>
    ensures { result ≡ change_at line text.now }
{
    let Some((verb, rest)) = verb_of(text) else {
        return Err(LimitKind::Head);
    };
    let Some((airline, rest)) = airline_of(rest) else {
        return Err(LimitKind::Flight);
    };
    let Some((number, rest)) = numeral_of(rest, 4) else {
        return Err(LimitKind::Flight);
    };
    let (suffix, rest) = suffix_of(rest);
    let Some(rest) = byte_of(b' ', rest) else {
        return Err(LimitKind::Flight);
    };
    let Some((day, rest)) = date_of(rest) else {
        return Err(LimitKind::Period);
    };
    let (cities, setting) = match tail_of(verb, rest) {
        Ok(tail) => tail,
        Err(kind) => return Err(kind),
    };
    Ok(ChangeRow {
        line,
        airline,
        number,
        suffix,
        day,
        cities,
        setting,
    })
}

/// The word at the front.
#[tactic(auto, unfolding(crate::specs::ChangeRows::verb_at))]
fn verb_of(text: &[u8]) -> Option<(Verb, &[u8])>
    ensures { option_map (λ x. (x.0, x.1.now)) result ≡ verb_at text.now }
{
    if let Some(rest) = word_of(b"AU ", text) {
        return Some((Verb::Change, rest));
    }
    if let Some(rest) = word_of(b"CLOSE ", text) {
        return Some((Verb::Close, rest));
    }
    match word_of(b"OPEN ", text) {
        Some(rest) => Some((Verb::Open, rest)),
        None => None,
    }
}

/// What stands behind the day.
fn tail_of(verb: Verb, bytes: &[u8]) -> Result<(Option<Cities>, RowSetting), LimitKind>
    ensures { result ≡ tail_at verb bytes.now }
{
    match verb {
        Verb::Change => limit_tail(bytes),
        Verb::Close => sale_tail(true, bytes),
        Verb::Open => sale_tail(false, bytes),
    }
}

/// Two cities and an entry.
#[tactic(auto, unfolding(crate::specs::ChangeRows::limit_tail))]
fn limit_tail(bytes: &[u8]) -> Result<(Option<Cities>, RowSetting), LimitKind>
    ensures { result ≡ limit_tail bytes.now }
{
    let Some(rest) = byte_of(b' ', bytes) else {
        return Err(LimitKind::Period);
    };
    let Some((board, rest)) = station_of(rest) else {
        return Err(LimitKind::Pair);
    };
    let Some((off, rest)) = station_of(rest) else {
        return Err(LimitKind::Pair);
    };
    let Some(entry) = byte_of(b' ', rest) else {
        return Err(LimitKind::Entry);
    };
    let Some(step) = only_entry_of(entry) else {
        return Err(LimitKind::Entry);
    };
    let cities = Cities { board, off };
    Ok((
        Some(cities),
        RowSetting::SetLimit(step.class, step.limit, step.wait),
    ))
}

/// Two cities or none, and a class or none.
#[tactic(auto, unfolding(crate::specs::ChangeRows::sale_tail))]
fn sale_tail(closed: bool, bytes: &[u8]) -> Result<(Option<Cities>, RowSetting), LimitKind>
    ensures { result ≡ sale_tail closed bytes.now }
{
    match bytes {
        [] => Ok((None, RowSetting::SetSale(None, closed))),
        [first, rest @ ..] => {
            if *first != b' ' {
                return Err(LimitKind::Period);
            }
            behind_blank(closed, rest)
        }
    }
}

fn behind_blank(closed: bool, bytes: &[u8]) -> Result<(Option<Cities>, RowSetting), LimitKind>
    ensures { result ≡ behind_blank closed bytes.now }
{
    match bytes {
        [] => Err(LimitKind::Pair),
        [letter] => match Class::new(*letter) {
            Some(class) => Ok((None, RowSetting::SetSale(Some(class), closed))),
            None => Err(LimitKind::Pair),
        },
        [_, _, ..] => between(closed, bytes),
    }
}

/// Two cities, and a class or none.
#[tactic(auto, unfolding(crate::specs::ChangeRows::between))]
fn between(closed: bool, bytes: &[u8]) -> Result<(Option<Cities>, RowSetting), LimitKind>
    ensures { result ≡ between closed bytes.now }
{
    let Some((board, rest)) = station_of(bytes) else {
        return Err(LimitKind::Pair);
    };
    let Some((off, rest)) = station_of(rest) else {
        return Err(LimitKind::Pair);
    };
    let Some(class) = class_in(rest) else {
        return Err(LimitKind::Entry);
    };
    let cities = Cities { board, off };
    Ok((Some(cities), RowSetting::SetSale(class, closed)))
}

/// A class behind a blank, or nothing.
fn class_in(bytes: &[u8]) -> Option<Option<Class>>
    ensures { result ≡ class_in bytes.now }
{
    match bytes {
        [] => Some(None),
        [_] => None,
        [first, letter] => {
            if *first != b' ' {
                return None;
            }
            match Class::new(*letter) {
                Some(class) => Some(Some(class)),
                None => None,
            }
        }
        [_, _, _, ..] => None,
    }
}

/// The step of a text of one entry, which has no mark.
fn only_entry_of(text: &[u8]) -> Option<Step>
    ensures { result ≡ alone (entry_at text.now) }
{
    match entry_of(text) {
        Some((step, [])) if !step.listed => Some(step),
        _ => None,
    }
}
