//! The text of a season file that is begun.
ghost use Rattle.std.specs.Prelude.{◌≡◌, ◌≤◌, ◌++◌, ◌∷◌, [], IfOk, OnOk};
ghost use Rattle.airline_base.specs.Days.{two_digits};
ghost use Rattle.seat_reports.specs.SeasonFile.{IsSeasonFile, escaped, letter, hex_digit, quoted, names_text, first_text, days_text};

use crate::span::{days_of, first_of};
use seat_desk::{put, put_number};
use ssim_records::DataSet;
use std::alloc::{AllocError, Global};

/// The season file of a set and its limits, by their names.
pub(crate) fn season_text(
    alloc: Global,
    set: &str,
    limits: &str,
    schedule: &DataSet,
) -> Result<Vec<u8>, AllocError>
    ensures { IfOk result (λ text. IsSeasonFile set.now limits.now schedule.now text.items) }
{
    let (year, month, day) = first_of(schedule).parts();
    let mut text = Vec::new(alloc);
    put_names(&mut text, set.as_bytes(), limits.as_bytes())?;
    put_date(&mut text, year, month, day)?;
    put_days(&mut text, days_of(schedule))?;
    Ok(text)
}

/// Adds the lines of the set and the limits, the last one without its end.
fn put_names(text: &mut Vec<u8>, set: &[u8], limits: &[u8]) -> Result<(), AllocError>
    ensures { OnOk result (text.new.items ≡ text.old.items ++ names_text set.now limits.now) }
{
    put(text, b"set = ")?;
    put_quoted(text, set)?;
    put(text, b"\nlimits = ")?;
    put_quoted(text, limits)
}

/// Adds the line of the first day, without its end.
fn put_date(text: &mut Vec<u8>, year: u16, month: u8, day: u8) -> Result<(), AllocError>
    requires { (year ≤ 9999) × (month ≤ 99) × (day ≤ 99) }
    ensures { OnOk result (text.new.items ≡ text.old.items ++ first_text year month day) }
{
    put(text, b"\nfirst = ")?;
    put_two(text, (year / 100) as u8)?;
    put_two(text, (year % 100) as u8)?;
    put(text, b"-")?;
    put_two(text, month)?;
    put(text, b"-")?;
    put_two(text, day)?;
    Ok(())
}

/// Adds the line of the count of days.
fn put_days(text: &mut Vec<u8>, days: u32) -> Result<(), AllocError>
    ensures { OnOk result (text.new.items ≡ text.old.items ++ days_text days) }
{
    put(text, b"\ndays = ")?;
    put_number(text, u64::from(days))?;
    put(text, b"\n")
}

/// Adds a number below 100 in two digits.
fn put_two(text: &mut Vec<u8>, number: u8) -> Result<(), AllocError>
    requires { number ≤ 99 }
    ensures { OnOk result (text.new.items ≡ text.old.items ++ two_digits number) }
{
    put(text, &[b'0' + number / 10, b'0' + number % 10])
}

/// Adds a name as TOML quotes it: a basic string.
fn put_quoted(text: &mut Vec<u8>, name: &[u8]) -> Result<(), AllocError>
    ensures { OnOk result (text.new.items ≡ text.old.items ++ quoted name.now) }
{
    put(text, b"\"")?;
    put_escaped(text, name)?;
    put(text, b"\"")
}

fn put_escaped(text: &mut Vec<u8>, name: &[u8]) -> Result<(), AllocError>
    ensures { OnOk result (text.new.items ≡ text.old.items ++ escaped name.now) }
{
    let mut rest = name;
    while let [byte, more @ ..] = rest {
        put_letter(text, *byte)?;
        rest = more;
    }
    Ok(())
}

fn put_letter(text: &mut Vec<u8>, byte: u8) -> Result<(), AllocError>
    ensures { OnOk result (text.new.items ≡ text.old.items ++ letter byte) }
{
    if byte == b'"' || byte == b'\\' {
        return put(text, &[b'\\', byte]);
    }
    if byte < 32 || byte == 127 {
        put(text, b"\\u00")?;
        return put(text, &[hex_digit(byte / 16), hex_digit(byte % 16)]);
    }
    put(text, &[byte])
}

fn hex_digit(number: u8) -> u8
    requires { number ≤ 15 }
    ensures { result ≡ hex_digit number }
{
    if number < 10 {
        b'0' + number
    } else {
        b'A' + (number - 10)
    }
}
