//! What a cell of a page is of.
//! It knows no other cell.
ghost use Rattle.std.specs.Prelude.{◌≡◌};
ghost use Rattle.load_pages.specs.Rows.{goes_on, tenths};

use airline_base::{Airline, Day, Station};

/// How full a class of a dated leg is.
#[derive(Clone, Copy)]
pub struct LegLoad {
    pub airline: Airline,
    pub number: u16,
    pub suffix: Option<u8>,
    pub board: Station,
    pub off: Station,
    /// The local day on which the leg departs.
    pub day: Day,
    /// The seats that are held in the class and those below it.
    pub held: u16,
    /// The limit of the class, in seats.
    pub limit: u16,
}

/// Whether a leg stands in the row of another: the same flight and stations, on a later day.
pub fn goes_on(last: &LegLoad, load: &LegLoad) -> bool
    ensures { result ≡ goes_on last.now load.now }
{
    last.airline == load.airline
        && last.number == load.number
        && last.suffix == load.suffix
        && last.board == load.board
        && last.off == load.off
        && last.day.number() < load.day.number()
}

/// The tenths of the limit that are held, rounded down and at most 10; 0 of none.
pub fn tenths(held: u16, limit: u16) -> u32
    ensures { result ≡ tenths held limit }
{
    if limit == 0 {
        return 0;
    }
    (u32::from(held) * 10 / u32::from(limit)).min(10)
}
