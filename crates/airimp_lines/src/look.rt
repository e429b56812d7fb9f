//! A look at the seats that are left, as a desk writes it.
ghost use Rattle.std.specs.Prelude.{◌≡◌, IfNone, IfSome, None, Some};
ghost use Rattle.airline_base.specs.Days.{IsCenturyDay};
ghost use Rattle.airimp_lines.specs.Looks.{class_look_at, first_of, look_at, pair_look_at, IsSomeDay, NamesLook};

use crate::date::next_date;
use crate::fields::{day_of, letters_of};
use airline_base::fields::{airline_of, byte_of, numeral_of, station_of};
use airline_base::{Airline, Class, Day, Station};

/// A class of a flight.
#[derive(Clone, Copy)]
pub struct FlightClass {
    pub airline: Airline,
    /// The flight number, 1 to 9999.
    pub number: u16,
    /// The operational suffix, a letter A to Z.
    pub suffix: Option<u8>,
    pub class: Class,
}

/// What is looked at.
#[derive(Clone, Copy)]
pub struct Look {
    /// One class of one flight, or else each class of each flight.
    pub flight: Option<FlightClass>,
    /// The day on which the flight leaves `board`, local there.
    pub day: Day,
    pub board: Station,
    pub off: Station,
}

/// The same as it is written: its day has no year.
#[derive(Clone, Copy)]
pub struct UndatedLook {
    pub flight: Option<FlightClass>,
    pub day: u8,
    pub month: u8,
    pub board: Station,
    pub off: Station,
}

/// What a text names that is looked at: `LZ601Q27JUL LHRKEF` one class of a flight, `27JUL LHRKEF` each flight of that day
/// between these stations. The day is the earliest such date on or after `today`, a day of the years 2000 to 2099.
pub fn read_look(text: &[u8], today: Day) -> Option<Look>
    requires { IsCenturyDay today }
    ensures found { IfSome result (NamesLook today text.now) }
    ensures none { IfNone result (look_at text.now ≡ None) }
{
    let Some(look) = undated_look(text) else {
        return None;
    };
    Some(Look {
        flight: look.flight,
        day: next_date(today, look.day, look.month),
        board: look.board,
        off: look.off,
    })
}

fn undated_look(text: &[u8]) -> Option<UndatedLook>
    ensures value { result ≡ look_at text.now }
    ensures day { IfSome result (λ look. IsSomeDay look.day look.month) }
{
    match pair_look(text) {
        Some(look) => Some(look),
        None => class_look(text),
    }
}

#[tactic(auto, unfolding(crate::specs::Looks::pair_look_at))]
fn pair_look(bytes: &[u8]) -> Option<UndatedLook>
    ensures value { result ≡ pair_look_at bytes.now }
    ensures day { IfSome result (λ look. IsSomeDay look.day look.month) }
{
    let Some((date, rest)) = day_of(bytes) else {
        return None;
    };
    let Some(rest) = byte_of(b' ', rest) else {
        return None;
    };
    let Some((board, rest)) = station_of(rest) else {
        return None;
    };
    let Some((off, rest)) = station_of(rest) else {
        return None;
    };
    if !rest.is_empty() {
        return None;
    }
    Some(UndatedLook {
        flight: None,
        day: date.0,
        month: date.1,
        board,
        off,
    })
}

#[tactic(auto, unfolding(crate::specs::Looks::class_look_at))]
fn class_look(bytes: &[u8]) -> Option<UndatedLook>
    ensures value { result ≡ class_look_at bytes.now }
    ensures day { IfSome result (λ look. IsSomeDay look.day look.month) }
{
    let Some((airline, rest)) = airline_of(bytes) else {
        return None;
    };
    let Some((number, rest)) = numeral_of(rest, 4) else {
        return None;
    };
    let Some((letters, rest)) = letters_of(rest) else {
        return None;
    };
    let Some(pair) = pair_look(rest) else {
        return None;
    };
    Some(UndatedLook {
        flight: Some(FlightClass {
            airline,
            number,
            suffix: letters.0,
            class: letters.1,
        }),
        day: pair.day,
        month: pair.month,
        board: pair.board,
        off: pair.off,
    })
}
