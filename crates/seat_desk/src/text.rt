//! Pieces of the texts that commands write.
ghost use Rattle.std.specs.Prelude.{◌≡◌, ◌++◌, ℕ, List, decimal, OnOk};
ghost use Rattle.airline_base.specs.Fields.{suffix_text};
ghost use Rattle.seat_desk.specs.FlightsDesk.{IsLegText, designator_text, head_text};

use itoa::Buffer;
use ssim_flights::{DatedLeg, Flight};
use std::alloc::AllocError;

/// Adds bytes as they are.
pub fn put(text: &mut Vec<u8>, bytes: &[u8]) -> Result<(), AllocError>
    ensures { OnOk result (text.new.items ≡ text.old.items ++ bytes.now) }
{
    text.extend_from_slice(bytes)
}

/// Adds a number, without leading zeros.
pub fn put_number(text: &mut Vec<u8>, number: u64) -> Result<(), AllocError>
    ensures { OnOk result (text.new.items ≡ text.old.items ++ decimal number) }
{
    let mut buffer = Buffer::new();
    put(text, buffer.format(number).as_bytes())
}

/// Adds INDEX DESIGNATOR.
pub fn put_head(text: &mut Vec<u8>, index: u32, flight: &Flight) -> Result<(), AllocError>
    ensures { OnOk result (text.new.items ≡ text.old.items ++ head_text index flight.now) }
{
    put_number(text, u64::from(index))?;
    put(text, b" ")?;
    put_designator(text, flight)
}

/// Adds the airline, the number without leading zeros, and the suffix of a flight.
pub fn put_designator(text: &mut Vec<u8>, flight: &Flight) -> Result<(), AllocError>
    ensures { OnOk result (text.new.items ≡ text.old.items ++ designator_text flight.now) }
{
    put(text, &flight.airline.characters())?;
    put_number(text, u64::from(flight.number))?;
    put_suffix(text, flight.suffix)
}

fn put_suffix(text: &mut Vec<u8>, suffix: Option<u8>) -> Result<(), AllocError>
    ensures { OnOk result (text.new.items ≡ text.old.items ++ suffix_text suffix) }
{
    match suffix {
        Some(letter) => put(text, &[letter]),
        None => Ok(()),
    }
}

/// Adds BOARD/DAY/OFF behind a blank.
pub fn put_way(text: &mut Vec<u8>, leg: &DatedLeg) -> Result<(), AllocError>
    ensures { OnOk result ((part : List ℕ) × IsLegText 0 leg.now part × (text.new.items ≡ text.old.items ++ part)) }
{
    put(text, b" ")?;
    put(text, &leg.board.letters())?;
    put(text, b"/")?;
    put(text, &leg.day.bytes())?;
    put(text, b"/")?;
    put(text, &leg.off.letters())
}
