//! The whole report.
//! It knows neither what became of a booking nor how a line reads.
ghost use Rattle.std.specs.Prelude.{◌≡◌, IfOk};
ghost use Rattle.carry_reports.specs.Reports.{IsReport};

use crate::fating::Fated;
use crate::line::put_lines;
use crate::sums::put_sums;
use airline_base::Memory;
use ssim_flights::Flights;
use std::alloc::{AllocError, Global};

/// A line for each of these live bookings, which were on the flights of the old season, and one of sums. Where they are of several journals, whose lines
/// stand one behind the other, `counts` has how many lines each of these has, and a booking the place of its journal ahead of its number there.
pub fn report(
    alloc: Global,
    counts: &[u32],
    olds: &Flights,
    news: &Flights,
    all: &[Fated],
) -> Result<Vec<u8>, Memory>
    ensures { IfOk result (λ text. IsReport counts.now olds.now news.now all.now text.items) }
{
    match text_of(alloc, counts, olds, news, all) {
        Ok(text) => Ok(text),
        Err(_) => Err(Memory),
    }
}

fn text_of(
    alloc: Global,
    counts: &[u32],
    olds: &Flights,
    news: &Flights,
    all: &[Fated],
) -> Result<Vec<u8>, AllocError>
    ensures { IfOk result (λ text. IsReport counts.now olds.now news.now all.now text.items) }
{
    let mut text = Vec::new(alloc);
    put_lines(&mut text, counts, olds, news, all)?;
    put_sums(&mut text, all)?;
    Ok(text)
}
