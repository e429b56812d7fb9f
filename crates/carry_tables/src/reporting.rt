//! The report in the form that is asked for.
//! It knows neither what a line says nor what a row does.
ghost use Rattle.std.specs.Prelude.{◌≡◌, IfOk};
ghost use Rattle.seat_tables.specs.Rows.{IsTable, rows_from};
ghost use Rattle.carry_tables.specs.FateRows.{IsReportAs, carry_names, fate_rows};

use crate::rows::{names, put_fates, shown};
use airline_base::Memory;
use carry_reports::{Fated, report};
use seat_tables::{Form, Sheet};
use ssim_flights::Flights;
use std::alloc::{AllocError, Global};

/// What became of these live bookings, which were on the flights of the old season: a row for each in this form, or else the lines and their sums. Where
/// they are of several journals, whose lines stand one behind the other, `counts` has how many lines each of these has; else it has none.
#[tactic(auto, using(crate::proofs::Rowing::lines_as, crate::proofs::Rowing::table_as))]
pub fn report_as(
    alloc: Global,
    form: Option<Form>,
    counts: &[u32],
    olds: &Flights,
    news: &Flights,
    all: &[Fated],
) -> Result<Vec<u8>, Memory>
    ensures { IfOk result (λ text. IsReportAs form counts.now olds.now news.now all.now text.items) }
{
    match form {
        Some(form) => tabled(alloc, form, counts, olds, news, all),
        None => report(alloc, counts, olds, news, all),
    }
}

fn tabled(
    alloc: Global,
    form: Form,
    counts: &[u32],
    olds: &Flights,
    news: &Flights,
    all: &[Fated],
) -> Result<Vec<u8>, Memory>
    ensures { IfOk result (λ text. IsTable form (carry_names counts.now) (rows_from (fate_rows counts.now olds.now news.now) 0 all.now) text.items) }
{
    match table_of(alloc, form, counts, olds, news, all) {
        Ok(text) => Ok(text),
        Err(_) => Err(Memory),
    }
}

#[tactic(auto, using(seat_tables::proofs::Putting::table_of, crate::proofs::Rowing::names_shown))]
fn table_of(
    alloc: Global,
    form: Form,
    counts: &[u32],
    olds: &Flights,
    news: &Flights,
    all: &[Fated],
) -> Result<Vec<u8>, AllocError>
    ensures { IfOk result (λ text. IsTable form (carry_names counts.now) (rows_from (fate_rows counts.now olds.now news.now) 0 all.now) text.items) }
{
    let columns = names();
    let mut sheet = Sheet::new(alloc, form, shown(counts, &columns))?;
    put_fates(alloc, &mut sheet, counts, olds, news, all)?;
    sheet.into_text()
}
