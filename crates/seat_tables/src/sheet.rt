//! A table as it is written, row by row.
//! It knows the forms, and not how a row is spelled in one.
ghost use Rattle.std.specs.Prelude.{◌≡◌, ◌∷◌, [], IfOk, OnOk, false, length, map};
ghost use Rattle.csv.specs.Records.{fields_of};
ghost use Rattle.csv.specs.Writing.{fields_written, has_written, writer_pending, writer_setup, writer_under};
ghost use Rattle.seat_tables.specs.Rows.{writer_of};
ghost use Rattle.seat_tables.specs.Sheets.{AreNamesPut, ArePut, IsBegun, IsReady, text_by};

use crate::cell::Cell;
use crate::json_rows::put_json_row;
use crate::plain_rows::{put_plain_row, put_record, row_of_names};
use csv::{ByteRecord, Writer, WriterBuilder};
use std::alloc::{AllocError, Global};

/// How a table is written.
#[derive(Clone, Copy)]
pub enum Form {
    /// A line of the columns' names and one for each row, with blanks between the values.
    Text,
    /// RFC 4180, a line of the columns' names and one for each row, each ended by LF.
    Csv,
    /// RFC 8259, a line for each row, which is an object.
    Json,
}

/// A table as it is written.
#[derive(Drop)]
pub struct Sheet {
    pub form: Form,
    pub writer: Writer<Vec<u8>>,
    pub fields: ByteRecord,
    pub json: Vec<u8>,
    /// For the text of a value.
    pub scratch: Vec<u8>,
}

impl Sheet {
    /// A table with these columns and no row.
    pub fn new(alloc: Global, form: Form, names: &[&str]) -> Result<Self, AllocError>
        ensures { IfOk result (IsBegun form (map (λ n. n.now) names.now)) }
    {
        let mut sheet = empty(alloc, form);
        put_head(&mut sheet, names)?;
        Ok(sheet)
    }

    /// The text of the table.
    pub fn into_text(self) -> Result<Vec<u8>, AllocError>
        ensures { IfOk result (λ text. text.items ≡ text_by self.form self) }
    {
        let Sheet {
            form,
            writer,
            json,
            ..
        } = self;
        match form {
            Form::Text | Form::Csv => match writer.into_inner() {
                Ok(text) => Ok(text),
                Err(_) => Err(AllocError),
            },
            Form::Json => Ok(json),
        }
    }
}

fn empty(alloc: Global, form: Form) -> Sheet
    ensures ready { IsReady result }
    ensures form { result.form ≡ form }
    ensures text { text_by form result ≡ [] }
{
    Sheet {
        form,
        writer: writer_of(alloc, form),
        fields: ByteRecord::new(alloc),
        json: Vec::new(alloc),
        scratch: Vec::new(alloc),
    }
}

fn writer_of(alloc: Global, form: Form) -> Writer<Vec<u8>>
    ensures setup { writer_setup result ≡ writer_of form }
    ensures fields { fields_written result ≡ 0 }
    ensures clean { has_written result ≡ false }
    ensures under { (writer_under result).items ≡ [] }
    ensures pending { writer_pending result ≡ [] }
{
    let mut builder = WriterBuilder::new();
    match form {
        Form::Text => builder.delimiter(b' ').from_writer(Vec::new(alloc)),
        Form::Csv | Form::Json => builder.from_writer(Vec::new(alloc)),
    }
}

/// Adds the line of the columns' names, where the form has one.
#[tactic(auto, using(crate::proofs::Putting::text_begun, crate::proofs::Putting::csv_begun))]
fn put_head(sheet: &mut Sheet, names: &[&str]) -> Result<(), AllocError>
    requires ready { IsReady sheet.old }
    requires empty { text_by sheet.old.form sheet.old ≡ [] }
    ensures { OnOk result (IsBegun sheet.old.form (map (λ n. n.now) names.now) sheet.new) }
{
    match sheet.form {
        Form::Text => put_names(sheet, names),
        Form::Csv => put_names(sheet, names),
        Form::Json => Ok(()),
    }
}

/// Adds the names as a line.
fn put_names(sheet: &mut Sheet, names: &[&str]) -> Result<(), AllocError>
    requires ready { IsReady sheet.old }
    ensures { OnOk result (AreNamesPut (map (λ n. n.now) names.now) sheet.old sheet.new) }
{
    row_of_names(&mut sheet.fields, names)?;
    put_record(sheet)?;
    Ok(())
}

/// Adds the line of a row.
#[tactic(auto, using(crate::proofs::Putting::text_put, crate::proofs::Putting::csv_put, crate::proofs::Putting::json_put))]
pub fn put_row(
    alloc: Global,
    sheet: &mut Sheet,
    names: &[&str],
    row: &[Cell],
) -> Result<(), AllocError>
    requires ready { IsReady sheet.old }
    requires whole { length names.now ≡ length row.now }
    ensures { OnOk result (ArePut (map (λ n. n.now) names.now) (row.now ∷ []) sheet.old sheet.new) }
{
    match sheet.form {
        Form::Text => put_plain_row(sheet, row),
        Form::Csv => put_plain_row(sheet, row),
        Form::Json => put_json_row(alloc, sheet, names, row),
    }
}
