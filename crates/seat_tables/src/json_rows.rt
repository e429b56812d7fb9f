//! Rows as JSON.
//! It knows the kit's writer, and no other form.
ghost use Rattle.std.specs.Prelude.{◌≡◌, ◌++◌, ◌∷◌, [], IfOk, OnOk, length, map};
ghost use Rattle.json.specs.Token.{begin_object};
ghost use Rattle.seat_tables.specs.Rows.{count_of};
ghost use Rattle.seat_tables.specs.Sheets.{IsJsonRowPut, IsJsonTextPut, IsMemberPut, IsReady, IsSpelledPut, IsStringPut, IsValuePut, AreMembersPut};

use crate::cell::{Cell, spell};
use crate::sheet::Sheet;
use core::mem::replace;
use json::Writer;
use std::alloc::{AllocError, Global};
use std::str::from_utf8;

/// Adds the line of a row.
pub fn put_json_row(
    alloc: Global,
    sheet: &mut Sheet,
    names: &[&str],
    row: &[Cell],
) -> Result<(), AllocError>
    requires ready { IsReady sheet.old }
    requires whole { length names.now ≡ length row.now }
    ensures { OnOk result (IsJsonRowPut (map (λ n. n.now) names.now) row.now sheet.old sheet.new) }
{
    put_object(alloc, &mut sheet.json, &mut sheet.scratch, names, row)?;
    Ok(())
}

/// Adds the object of a row, and LF.
fn put_object(
    alloc: Global,
    text: &mut Vec<u8>,
    scratch: &mut Vec<u8>,
    names: &[&str],
    row: &[Cell],
) -> Result<(), AllocError>
    requires whole { length names.now ≡ length row.now }
    ensures { OnOk result (IsJsonTextPut (map (λ n. n.now) names.now) row.now text.old.items text.new.items) }
{
    let before = replace(text, Vec::new(alloc));
    *text = with_object(before, scratch, names, row)?;
    Ok(())
}

/// A text with the object of a row behind it, and LF.
#[tactic(auto, using(crate::proofs::Members::object_put))]
fn with_object(
    text: Vec<u8>,
    scratch: &mut Vec<u8>,
    names: &[&str],
    row: &[Cell],
) -> Result<Vec<u8>, AllocError>
    requires whole { length names.now ≡ length row.now }
    ensures { IfOk result (λ new. IsJsonTextPut (map (λ n. n.now) names.now) row.now text.items new.items) }
{
    let mut writer = Writer::new(text);
    writer.begin_object()?;
    put_members(&mut writer, scratch, names, row)?;
    writer.end_object()?;
    let mut text = writer.into_inner();
    text.push(b'\n')?;
    Ok(text)
}

/// Adds the name of each column and the value under it.
#[tactic(auto, using(crate::proofs::Members::none_put, crate::proofs::Members::member_more, crate::proofs::Members::members_whole))]
fn put_members(
    writer: &mut Writer,
    scratch: &mut Vec<u8>,
    names: &[&str],
    row: &[Cell],
) -> Result<(), AllocError>
    requires whole { length names.now ≡ length row.now }
    ensures { OnOk result (AreMembersPut (map (λ n. n.now) names.now) row.now writer.old writer.new) }
{
    for i in 0..row.len() {
        put_member(writer, scratch, names[i], &row[i])?;
    }
    Ok(())
}

fn put_member(
    writer: &mut Writer,
    scratch: &mut Vec<u8>,
    name: &str,
    cell: &Cell,
) -> Result<(), AllocError>
    ensures { OnOk result (IsMemberPut name.now cell.now writer.old writer.new) }
{
    writer.key(name)?;
    put_value(writer, scratch, cell)?;
    Ok(())
}

/// Adds a count as a number, and any other value as a string.
#[tactic(auto, using(crate::proofs::Members::number_put, crate::proofs::Members::other_put))]
fn put_value(writer: &mut Writer, scratch: &mut Vec<u8>, cell: &Cell) -> Result<(), AllocError>
    ensures { OnOk result (IsValuePut cell.now writer.old writer.new) }
{
    match count_of(cell) {
        Some(number) => writer.u64(number),
        None => put_spelled(writer, scratch, cell),
    }
}

fn count_of(cell: &Cell) -> Option<u64>
    ensures { result ≡ count_of cell.now }
{
    match cell {
        Cell::Number(number) => Some(*number),
        _ => None,
    }
}

/// Adds the text of a value as a string.
fn put_spelled(writer: &mut Writer, scratch: &mut Vec<u8>, cell: &Cell) -> Result<(), AllocError>
    ensures { OnOk result (IsSpelledPut cell.now writer.old writer.new) }
{
    spell(scratch, cell)?;
    put_string(writer, scratch.as_slice())?;
    Ok(())
}

/// Adds a text as a string; one that is no UTF-8 has none.
fn put_string(writer: &mut Writer, text: &[u8]) -> Result<(), AllocError>
    ensures { OnOk result (IsStringPut text.now writer.old writer.new) }
{
    match from_utf8(text) {
        Ok(text) => writer.string(text),
        Err(_) => writer.null(),
    }
}
