//! Rows as plain text and as CSV.
//! It knows the kit's writer, and no other form.
ghost use Rattle.std.specs.Prelude.{◌≡◌, ◌++◌, [], IfOk, OnOk, map};
ghost use Rattle.csv.specs.Records.{fields_of, partial_of};
ghost use Rattle.csv.specs.Writing.{default_writer, row_text};
ghost use Rattle.seat_tables.specs.Rows.{AreTexts};
ghost use Rattle.seat_tables.specs.Sheets.{IsPlainRowPut, IsReady, IsRecordPut};

use crate::cell::{Cell, spell};
use crate::sheet::Sheet;
use csv::ByteRecord;
use std::alloc::AllocError;

/// Adds the line of a row.
pub fn put_plain_row(sheet: &mut Sheet, row: &[Cell]) -> Result<(), AllocError>
    requires ready { IsReady sheet.old }
    ensures { OnOk result (IsPlainRowPut row.now sheet.old sheet.new) }
{
    row_of_cells(&mut sheet.fields, &mut sheet.scratch, row)?;
    put_record(sheet)?;
    Ok(())
}

/// Adds the fields as a line.
#[tactic(auto, using(crate::proofs::Fields::style_is))]
pub fn put_record(sheet: &mut Sheet) -> Result<(), AllocError>
    requires ready { IsReady sheet.old }
    ensures { OnOk result (IsRecordPut sheet.old sheet.new) }
{
    match sheet.writer.write_byte_record(&sheet.fields) {
        Ok(()) => Ok(()),
        Err(_) => Err(AllocError),
    }
}

/// Makes the fields those of the values.
#[tactic(auto, using(crate::proofs::Fields::no_texts, crate::proofs::Fields::text_more, crate::proofs::Fields::texts_whole))]
fn row_of_cells(
    fields: &mut ByteRecord,
    scratch: &mut Vec<u8>,
    row: &[Cell],
) -> Result<(), AllocError>
    ensures { OnOk result (AreTexts row.now (fields_of fields.new)) }
{
    fields.clear();
    for cell in row {
        spell(scratch, cell)?;
        fields.push_field(scratch.as_slice())?;
    }
    Ok(())
}

/// Makes the fields those of the names.
#[tactic(auto, using(crate::proofs::Fields::no_names, crate::proofs::Fields::name_more, crate::proofs::Fields::names_whole))]
pub fn row_of_names(fields: &mut ByteRecord, names: &[&str]) -> Result<(), AllocError>
    ensures { OnOk result (fields_of fields.new ≡ map (λ n. n.now) names.now) }
{
    fields.clear();
    for name in names {
        fields.push_field(name.as_bytes())?;
    }
    Ok(())
}
