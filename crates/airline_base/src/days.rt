//! Days of the calendar, and the form DDMMMYY in which the standards write them.
ghost use Rattle.std.specs.Prelude.{◌≡◌, ℕ, pos, IsSome, IfSome, ◌↔◌, ◌≤◌, ◌+◌};
ghost use Rattle.jiff_core.specs.Calendar.{IsCivilDate};
ghost use Rattle.airline_base.specs.Days.{IsDay, IsDate, IsDateText, month_name, civil_in, date_in};

use crate::fields::{month_of, two_are, two_value};
use jiff::civil::Date;
use jiff_core::civil;
use std::marker::Model;

/// The days from the first date of the calendar to 1 January 1970.
const DAYS_BEFORE_1970: u32 = 4_371_587;

/// A day of the years 1999 to 2199, by its number from 1 January 1970.
#[derive(Clone, Copy, PartialEq, Eq, Hash)]
pub struct Day {
    number: u32,
}

impl Model for Day {
    ghost Value = { ℕ };

    ghost view = { λ d. d.number };

    ghost invariant = { λ d. IsDay d.number };

    ghost inverse = { λ n. record { number = n } };
}

impl Day {
    /// The day of the calendar with this year, month and day.
    pub fn of(year: u16, month: u8, day: u8) -> Option<Self>
        ensures valid { IsSome result ↔ ((1999 ≤ year) × (year ≤ 2199) × IsCivilDate (pos year) month day) }
        ensures value { IfSome result (λ n. IsDate year month day n) }
    {
        if year < 1999 || year > 2199 || month > 12 || day > 31 {
            return None;
        }
        let Ok(date) = Date::new(year as i16, month as i8, day as i8) else {
            return None;
        };
        Some(Day {
            number: date.to_plain().days_since_min() - DAYS_BEFORE_1970,
        })
    }

    /// The day that DDMMMYY names, in the years 2000 to 2099 (SSIM chapter 7, dates in capitals).
    #[tactic(auto, unfolding(crate::specs::Days::date_in))]
    pub fn read(text: &[u8]) -> Option<Self>
        ensures { result ≡ date_in text.now }
    {
        match text {
            [t, u, a, b, c, y, z] if two_are(*t, *u) && two_are(*y, *z) => {
                let month = month_of(*a, *b, *c)?;
                of_century(two_value(*y, *z), month, two_value(*t, *u))
            }
            _ => None,
        }
    }

    /// The day with this number, counted from 1 January 1970.
    pub fn numbered(number: u32) -> Self
        requires { IsDay number }
        ensures { result ≡ number }
    {
        Day { number }
    }

    /// Its number, counted from 1 January 1970.
    pub fn number(self) -> u32
        ensures value { result ≡ self }
        ensures day { IsDay self }
    {
        self.number
    }

    /// The year, the month and the day of the month.
    pub fn parts(self) -> (u16, u8, u8)
        ensures date { IsDate result.0 result.1 result.2 self }
        ensures years { (1999 ≤ result.0) × (result.0 ≤ 2199) }
    {
        let Day { number } = self;
        let date = civil::Date::from_days_since_min(number + DAYS_BEFORE_1970);
        (date.year as u16, date.month, date.day)
    }

    /// The form DDMMMYY, with the year's last two digits.
    pub fn bytes(&self) -> [u8; 7]
        ensures { IsDateText self.now result }
    {
        let (year, month, day) = self.parts();
        let [a, b, c] = month_letters(month);
        let year = (year % 100) as u8;
        [
            b'0' + day / 10,
            b'0' + day % 10,
            a,
            b,
            c,
            b'0' + year / 10,
            b'0' + year % 10,
        ]
    }
}

fn of_century(year: u8, month: u8, day: u8) -> Option<Day>
    requires { year ≤ 99 }
    ensures { result ≡ civil_in (2000 + year) month day }
{
    Day::of(2000 + year as u16, month, day)
}

fn month_letters(month: u8) -> [u8; 3]
    requires { (1 ≤ month) × (month ≤ 12) }
    ensures { result ≡ month_name month }
{
    match month {
        1 => *b"JAN",
        2 => *b"FEB",
        3 => *b"MAR",
        4 => *b"APR",
        5 => *b"MAY",
        6 => *b"JUN",
        7 => *b"JUL",
        8 => *b"AUG",
        9 => *b"SEP",
        10 => *b"OCT",
        11 => *b"NOV",
        _ => *b"DEC",
    }
}
