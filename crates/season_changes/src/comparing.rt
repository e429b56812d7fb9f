//! The question what a new season makes of the flights of the season that is asked about.
//! It knows neither which flights differ nor how a line reads.
ghost use Rattle.std.specs.Prelude.{IfOk};
ghost use Rattle.season_changes.specs.Comparing.{AreChangesText};

use crate::changes::{Change, fates};
use crate::line::put_changes;
use crate::sums::put_sums;
use airline_base::Day;
use seat_core::Core;
use seat_desk::Standing;
use seat_nesting::Grid;
use ssim_flights::Flights;
use std::alloc::{AllocError, Global};

/// A new season, with which the one that is asked about is compared.
#[derive(Clone, Copy)]
pub struct Comparison<'a> {
    /// The flights of the new season.
    pub flights: &'a Flights,
    /// The ladders of their legs.
    pub grid: &'a Grid,
    /// The first of the days that both seasons have.
    pub first: Day,
    /// The last of them; before the first one where they have none.
    pub last: Day,
    /// Whether the seats of a journal are written too.
    pub has_journal: bool,
}

/// A line for each flight of the old season that is gone or differs, in its order, then one for each that is added, in the order of the new
/// season, and last one of sums.
impl<'a> Standing for Comparison<'a> {
    ghost use Rattle.seat_rules.specs.Journal.{replay};
    ghost use Rattle.season_changes.specs.Comparing.{IsComparisonText};

    ghost tells = { λ asked flights grid entries text.
        IsComparisonText asked flights grid (replay grid entries).bookings text };

    #[tactic(auto, using(crate::proofs::Comparisons::of_changes))]
    fn standing(
        &self,
        alloc: Global,
        flights: &Flights,
        core: &Core,
    ) -> Result<Vec<u8>, AllocError> {
        let Ok(all) = fates(alloc, self, flights, core) else {
            return Err(AllocError);
        };
        written(alloc, self.has_journal, all.as_slice())
    }
}

/// The lines of these changes, and the sums.
fn written(alloc: Global, has_journal: bool, all: &[Change]) -> Result<Vec<u8>, AllocError>
    ensures { IfOk result (λ text. AreChangesText has_journal all.now text.items) }
{
    let mut text = Vec::new(alloc);
    put_changes(&mut text, has_journal, all)?;
    put_sums(&mut text, has_journal, all)?;
    Ok(text)
}
