//! The values that stand in a table.
//! It knows how one is spelled, and not where it stands.
ghost use Rattle.std.specs.Prelude.{◌≡◌, ◌++◌, [], OnOk, decimal};
ghost use Rattle.seat_tables.specs.Cells.{IsCellText, IsDateText, flight_text};

use airline_base::{Airline, Class, Code, Day, Locator, Station};
use itoa::Buffer;
use std::alloc::AllocError;

/// A value of a row.
#[derive(Clone, Copy)]
pub enum Cell {
    /// A count, without leading zeros.
    Number(u64),
    /// A day, as YYYY-MM-DD.
    Date(Day),
    /// A station.
    Stop(Station),
    /// A class.
    Letter(Class),
    /// A locator.
    Name(Locator),
    /// A code of two letters.
    Word(Code),
    /// What names a flight on all its days: airline, number without leading zeros, and suffix.
    Flight(Airline, u16, Option<u8>),
    /// What is not there.
    Nothing,
}

/// Makes a text that of a value.
pub fn spell(text: &mut Vec<u8>, cell: &Cell) -> Result<(), AllocError>
    ensures { OnOk result (IsCellText cell.now text.new.items) }
{
    text.clear();
    put_cell(text, cell)
}

/// Adds the text of a value to none.
#[tactic(auto, using(crate::proofs::Spelling::begun))]
fn put_cell(text: &mut Vec<u8>, cell: &Cell) -> Result<(), AllocError>
    requires { text.old.items ≡ [] }
    ensures { OnOk result (IsCellText cell.now text.new.items) }
{
    match cell {
        Cell::Number(number) => put_number(text, *number),
        Cell::Date(day) => text.extend_from_slice(&date_text(*day)),
        Cell::Stop(station) => text.extend_from_slice(&station.letters()),
        Cell::Letter(class) => text.extend_from_slice(&[class.letter()]),
        Cell::Name(locator) => text.extend_from_slice(&locator.characters()),
        Cell::Word(code) => text.extend_from_slice(&code.letters()),
        Cell::Flight(airline, number, suffix) => put_flight(text, *airline, *number, *suffix),
        Cell::Nothing => Ok(()),
    }
}

fn put_number(text: &mut Vec<u8>, number: u64) -> Result<(), AllocError>
    ensures { OnOk result (text.new.items ≡ text.old.items ++ decimal number) }
{
    let mut buffer = Buffer::new();
    text.extend_from_slice(buffer.format(number).as_bytes())
}

fn put_flight(
    text: &mut Vec<u8>,
    airline: Airline,
    number: u16,
    suffix: Option<u8>,
) -> Result<(), AllocError>
    ensures { OnOk result (text.new.items ≡ text.old.items ++ flight_text airline number suffix) }
{
    text.extend_from_slice(&airline.characters())?;
    put_number(text, u64::from(number))?;
    match suffix {
        Some(letter) => text.extend_from_slice(&[letter]),
        None => text.extend_from_slice(&[]),
    }
}

/// A day as YYYY-MM-DD.
fn date_text(day: Day) -> [u8; 10]
    ensures { IsDateText day result }
{
    let (year, month, day) = day.parts();
    let century = (year / 100) as u8;
    let year = (year % 100) as u8;
    [
        b'0' + century / 10,
        b'0' + century % 10,
        b'0' + year / 10,
        b'0' + year % 10,
        b'-',
        b'0' + month / 10,
        b'0' + month % 10,
        b'-',
        b'0' + day / 10,
        b'0' + day % 10,
    ]
}
