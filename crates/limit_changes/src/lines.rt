//! How a change reads, and a class whose limit does not come to what is wanted.
//! It knows no other change.
ghost use Rattle.std.specs.Prelude.{◌≡◌, ◌++◌, ◌∷◌, [], OnOk};
ghost use Rattle.airline_base.specs.Fields.{suffix_text};
ghost use Rattle.seat_desk.specs.FlightsDesk.{IsPut};
ghost use Rattle.limit_changes.specs.Lines.{IsDayPut, IsNamePut, IsRowLine, IsShortLine, IsUnnamedLine, entry_text, front_text, pair_text, reason_text, short_text, three_digits, unnamed_text};

use crate::legs::NamedLeg;
use crate::rows::Row;
use crate::shorts::Short;
use airline_base::Day;
use seat_desk::{put, put_number};
use std::alloc::AllocError;

/// Adds a line for each change.
pub fn put_rows(text: &mut Vec<u8>, rows: &[Row]) -> Result<(), AllocError>
    ensures { OnOk result (IsPut (λ n. IsRowLine) 0 rows.now text.old.items text.new.items) }
{
    for i in 0..rows.len() {
        put_line(text, &rows[i])?;
    }
    Ok(())
}

/// Adds a line for each class whose limit does not come to what is wanted.
pub fn put_shorts(text: &mut Vec<u8>, shorts: &[Short]) -> Result<(), AllocError>
    ensures { OnOk result (IsPut (λ n. IsShortLine) 0 shorts.now text.old.items text.new.items) }
{
    for i in 0..shorts.len() {
        put_short(text, &shorts[i])?;
    }
    Ok(())
}

/// Adds a line for each class of which no row can ask.
pub fn put_unnamed(text: &mut Vec<u8>, shorts: &[Short]) -> Result<(), AllocError>
    ensures { OnOk result (IsPut (λ n. IsUnnamedLine) 0 shorts.now text.old.items text.new.items) }
{
    for i in 0..shorts.len() {
        put_unnamed_one(text, &shorts[i])?;
    }
    Ok(())
}

/// Adds `AU FLIGHT DDMMMYY PAIR CLIMIT/WAIT`.
#[tactic(auto, using(crate::proofs::Written::row_put))]
fn put_line(text: &mut Vec<u8>, row: &Row) -> Result<(), AllocError>
    ensures { OnOk result (IsPut (λ n. IsRowLine) 0 (row.now ∷ []) text.old.items text.new.items) }
{
    put(text, b"AU ")?;
    put_name(text, &row.leg)?;
    put_entry(text, row)
}

/// Adds `SHORT FLIGHT DDMMMYY PAIR C WANTED LIMIT` and the reason.
#[tactic(auto, using(crate::proofs::Written::short_put))]
fn put_short(text: &mut Vec<u8>, short: &Short) -> Result<(), AllocError>
    ensures { OnOk result (IsPut (λ n. IsShortLine) 0 (short.now ∷ []) text.old.items text.new.items) }
{
    put(text, b"SHORT ")?;
    put_name(text, &short.leg)?;
    put_rest(text, short)
}

/// Adds `SHORT FLIGHT DDMMMYY PAIR C WANTED LIMIT UNNAMED`.
#[tactic(auto, using(crate::proofs::Written::unnamed_put))]
fn put_unnamed_one(text: &mut Vec<u8>, short: &Short) -> Result<(), AllocError>
    ensures { OnOk result (IsPut (λ n. IsUnnamedLine) 0 (short.now ∷ []) text.old.items text.new.items) }
{
    put(text, b"SHORT ")?;
    put_name(text, &short.leg)?;
    put_unnamed_rest(text, short)
}

/// Adds the flight, the day as DDMMMYY and the city pair of a leg.
#[tactic(auto, using(crate::proofs::Written::name_put))]
pub fn put_name(text: &mut Vec<u8>, leg: &NamedLeg) -> Result<(), AllocError>
    ensures { OnOk result (IsNamePut leg.now text.old.items text.new.items) }
{
    put_front(text, leg)?;
    put_day(text, leg.run.day)?;
    put_pair(text, leg)
}

/// Adds airline, number and suffix, and a blank.
fn put_front(text: &mut Vec<u8>, leg: &NamedLeg) -> Result<(), AllocError>
    ensures { OnOk result (text.new.items ≡ text.old.items ++ front_text leg.now) }
{
    put(text, &leg.name.airline.characters())?;
    put_number(text, u64::from(leg.name.number))?;
    put_suffix(text, leg.name.suffix)?;
    put(text, b" ")
}

fn put_suffix(text: &mut Vec<u8>, suffix: Option<u8>) -> Result<(), AllocError>
    ensures { OnOk result (text.new.items ≡ text.old.items ++ suffix_text suffix) }
{
    match suffix {
        Some(letter) => put(text, &[letter]),
        None => put(text, &[]),
    }
}

/// Adds the day, the month and the year.
#[tactic(auto, using(crate::proofs::Written::day_put))]
fn put_day(text: &mut Vec<u8>, day: Day) -> Result<(), AllocError>
    ensures { OnOk result (IsDayPut day text.old.items text.new.items) }
{
    put(text, &day.bytes())
}

/// Adds the two stations behind a blank.
fn put_pair(text: &mut Vec<u8>, leg: &NamedLeg) -> Result<(), AllocError>
    ensures { OnOk result (text.new.items ≡ text.old.items ++ pair_text leg.now) }
{
    put(text, b" ")?;
    put(text, &leg.run.board.letters())?;
    put(text, &leg.run.off.letters())
}

/// Adds the class with its limit and its wait.
fn put_entry(text: &mut Vec<u8>, row: &Row) -> Result<(), AllocError>
    ensures { OnOk result (text.new.items ≡ text.old.items ++ entry_text row.now) }
{
    put(text, b" ")?;
    put(text, &[row.class.letter()])?;
    put(text, &three_digits(row.limit))?;
    put(text, b"/")?;
    put(text, &three_digits(row.wait))?;
    put(text, b"\n")
}

/// A number of seats below 1000 in three digits.
fn three_digits(seats: u16) -> [u8; 3]
    ensures { result ≡ three_digits seats }
{
    [
        b'0' + (seats / 100 % 10) as u8,
        b'0' + (seats / 10 % 10) as u8,
        b'0' + (seats % 10) as u8,
    ]
}

/// Adds the class, what is wanted and why its limit does not come to that.
fn put_rest(text: &mut Vec<u8>, short: &Short) -> Result<(), AllocError>
    ensures { OnOk result (text.new.items ≡ text.old.items ++ short_text short.now) }
{
    put(text, b" ")?;
    put(text, &[short.class.letter()])?;
    put(text, b" WANTED ")?;
    put_number(text, u64::from(short.wanted))?;
    put_reason(text, short)?;
    put(text, b"\n")
}

/// Adds the class and what is wanted, and that no row can ask for it.
fn put_unnamed_rest(text: &mut Vec<u8>, short: &Short) -> Result<(), AllocError>
    ensures { OnOk result (text.new.items ≡ text.old.items ++ unnamed_text short.now) }
{
    put(text, b" ")?;
    put(text, &[short.class.letter()])?;
    put(text, b" WANTED ")?;
    put_number(text, u64::from(short.wanted))?;
    put(text, b" UNNAMED\n")
}

fn put_reason(text: &mut Vec<u8>, short: &Short) -> Result<(), AllocError>
    ensures { OnOk result (text.new.items ≡ text.old.items ++ reason_text short.now) }
{
    if short.wanted < short.held {
        put(text, b" HELD ")?;
        put_number(text, u64::from(short.held))
    } else {
        put(text, b" NESTED ")?;
        put_number(text, u64::from(short.limit))
    }
}
