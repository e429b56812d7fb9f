//! What the values of a season's keys may be.
//! It knows the kit's values of TOML, and no key.
ghost use Rattle.std.specs.Prelude.{◌≡◌, option_map};
ghost use Rattle.seat_season.specs.Season.{days_in, days_number, desks_in, first_in, name_in, of_century, plain_date};
ghost use Rattle.toml.specs.View.{items_view, view};

use crate::desks::are_desks;
use toml::Value;
use toml_datetime::{Date, Datetime};

/// The name of a file: a text that is not empty.
pub(crate) fn name_of(value: &Value) -> Option<&str>
    ensures { option_map (λ name. name.now) result ≡ name_in (view value.now) }
{
    let Some(name) = value.as_str() else {
        return None;
    };
    if name.is_empty() { None } else { Some(name) }
}

/// A day of the years 2000 to 2099, without a time of day.
pub(crate) fn first_of(value: &Value) -> Option<Date>
    ensures { result ≡ first_in (view value.now) }
{
    let Some(date) = value.as_datetime() else {
        return None;
    };
    let Some(date) = plain_date(date) else {
        return None;
    };
    of_century(date)
}

fn plain_date(date: &Datetime) -> Option<Date>
    ensures { result ≡ plain_date date.now }
{
    if date.time.is_some() || date.offset.is_some() {
        return None;
    }
    date.date
}

fn of_century(date: Date) -> Option<Date>
    ensures { result ≡ of_century date }
{
    if 2000 <= date.year && date.year <= 2099 {
        Some(date)
    } else {
        None
    }
}

/// A number of 1 to 366.
pub(crate) fn days_of(value: &Value) -> Option<u16>
    ensures { result ≡ days_in (view value.now) }
{
    days_number(value.as_integer()?)
}

fn days_number(number: i64) -> Option<u16>
    ensures { result ≡ days_number number }
{
    if 1 <= number && number <= 366 {
        Some(number as u16)
    } else {
        None
    }
}

/// The names of desks.
pub(crate) fn desks_of(value: &Value) -> Option<&[Value]>
    ensures { option_map (λ names. items_view names.now) result ≡ desks_in (view value.now) }
{
    let Some(names) = value.as_array() else {
        return None;
    };
    let names = names.as_slice();
    if are_desks(names) { Some(names) } else { None }
}
