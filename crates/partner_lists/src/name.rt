//! What names a booking in the lists of two partners.
//! It knows no code and no seats.
ghost use Rattle.std.specs.Prelude.{◌≡◌, OnOk};
ghost use Rattle.partner_lists.specs.Names.{Puts, name_of};

use airimp_lines::Segment;
use airline_base::{Airline, Day, Locator, Memory, Station};
use std::collections::HashMap;

/// What two lines of one booking have in common: the locator, and the segment without its code and its seats.
#[derive(Clone, Copy, PartialEq, Eq, Hash)]
pub struct Name {
    pub locator: [u8; 6],
    pub airline: Airline,
    /// The flight number, 1 to 9999.
    pub number: u16,
    /// The operational suffix, a letter A to Z.
    pub suffix: Option<u8>,
    /// A letter A to Z.
    pub class: u8,
    /// The day on which the flight leaves `board`, local there.
    pub day: Day,
    pub board: Station,
    pub off: Station,
}

/// The number of a line by a name.
pub type Names = HashMap<Name, u32>;

/// The name of a booking of this locator and segment.
pub fn name_of(locator: Locator, segment: &Segment) -> Name
    ensures { result ≡ name_of locator segment.now }
{
    Name {
        locator: locator.characters(),
        airline: segment.airline,
        number: segment.number,
        suffix: segment.suffix,
        class: segment.class.letter(),
        day: segment.day,
        board: segment.board,
        off: segment.off,
    }
}

/// Gives a name the number of a line, in place of that which it has.
pub fn put(names: &mut Names, name: Name, line: u32) -> Result<(), Memory>
    ensures { OnOk result (Puts names.old names.new name line) }
{
    let _ = names.insert(name, line)?;
    Ok(())
}
