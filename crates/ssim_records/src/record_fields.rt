//! The fields of a record (SSIM chapter 7): a value, where the bytes are right.
ghost use Rattle.std.specs.Prelude.{◌≡◌, ◌≤◌, ◌<◌, ◌^◌, IfSome, ◌==◌, length, drop};
ghost use Rattle.std.specs.List.{prefix_len};
ghost use Rattle.ssim_records.specs.RecordFields.{padded_in, positive_in, six_in, mode_in, designator_in, station_in, suffix_in, byte_in, until_in, day_in, days_in, rate_in, time_in, signed_in, offset_in, shift_in, continued_in};

use airline_base::fields::{are_digits, two_are, two_value, value_of};
use airline_base::{Airline, Day, Station};

/// Whether the times are local: `L`, and not `U`.
#[tactic(auto, unfolding(crate::specs::RecordFields::mode_in))]
pub fn mode_of(text: &[u8]) -> Option<bool>
    ensures { result ≡ mode_in text.now }
{
    match text {
        [b'U'] => Some(false),
        [b'L'] => Some(true),
        _ => None,
    }
}

/// An airline and a blank.
#[tactic(auto, unfolding(crate::specs::RecordFields::designator_in))]
pub fn designator_of(text: &[u8]) -> Option<Airline>
    ensures { result ≡ designator_in text.now }
{
    match text {
        [a, b, b' '] => Airline::new(&[*a, *b]),
        _ => None,
    }
}

/// Three letters.
#[tactic(auto, unfolding(crate::specs::RecordFields::station_in))]
pub fn station_of(text: &[u8]) -> Option<Station>
    ensures { result ≡ station_in text.now }
{
    Station::new(text)
}

/// A letter, or a blank for none.
#[tactic(auto, unfolding(crate::specs::RecordFields::suffix_in))]
pub fn suffix_of(text: &[u8]) -> Option<Option<u8>>
    ensures { result ≡ suffix_in text.now }
{
    let [letter] = text else {
        return None;
    };
    if *letter == b' ' {
        Some(None)
    } else if letter.is_ascii_uppercase() {
        Some(Some(*letter))
    } else {
        None
    }
}

/// Any byte.
#[tactic(auto, unfolding(crate::specs::RecordFields::byte_in))]
pub fn byte_of(text: &[u8]) -> Option<u8>
    ensures { result ≡ byte_in text.now }
{
    match text {
        [byte] => Some(*byte),
        _ => None,
    }
}

/// A number of two places.
pub fn small_of(text: &[u8]) -> Option<u8>
    requires { length text.now ≡ 2 }
    ensures { result ≡ padded_in text.now }
{
    match padded_of(text) {
        Some(number) => Some(number as u8),
        None => None,
    }
}

/// A number of two places, not 0.
#[tactic(auto, unfolding(crate::specs::RecordFields::positive_in))]
pub fn sequence_of(text: &[u8]) -> Option<u8>
    requires { length text.now ≡ 2 }
    ensures { result ≡ positive_in text.now }
{
    match padded_of(text) {
        Some(number) if number >= 1 => Some(number as u8),
        _ => None,
    }
}

/// A number of four places, not 0.
#[tactic(auto, unfolding(crate::specs::RecordFields::positive_in))]
pub fn number_of(text: &[u8]) -> Option<u16>
    requires { length text.now ≡ 4 }
    ensures { result ≡ positive_in text.now }
{
    match padded_of(text) {
        Some(number) if number >= 1 => Some(number as u16),
        _ => None,
    }
}

/// Six digits.
#[tactic(auto, unfolding(crate::specs::RecordFields::six_in))]
pub fn six_of(text: &[u8]) -> Option<u32>
    ensures { result ≡ six_in text.now }
{
    if text.len() != 6 || !are_digits(text) {
        return None;
    }
    Some(value_of(text))
}

/// The end of a period, which may be open.
#[tactic(auto, unfolding(crate::specs::RecordFields::until_in))]
pub fn until_of(from: Day, text: &[u8]) -> Option<Option<Day>>
    ensures { result ≡ until_in from text.now }
{
    if text == b"00XXX00".as_slice() {
        return Some(None);
    }
    let Some(to) = Day::read(text) else {
        return None;
    };
    if from.number() > to.number() {
        return None;
    }
    Some(Some(to))
}

/// Monday to Sunday.
#[tactic(auto, unfolding(crate::specs::RecordFields::days_in))]
pub fn days_of(text: &[u8]) -> Option<[bool; 7]>
    ensures { result ≡ days_in text.now }
{
    if text.len() != 7 {
        return None;
    }
    let mut days = [false; 7];
    for index in 0..7 {
        let Some(day) = day_of(index as u8 + 1, text[index]) else {
            return None;
        };
        days[index] = day;
    }
    Some(days)
}

/// Whether it is every second week: `2`, and not a blank or `1`.
#[tactic(auto, unfolding(crate::specs::RecordFields::rate_in))]
pub fn rate_of(text: &[u8]) -> Option<bool>
    ensures { result ≡ rate_in text.now }
{
    match text {
        [b' ' | b'1'] => Some(false),
        [b'2'] => Some(true),
        _ => None,
    }
}

/// A time of the day in minutes, 0 to 1440.
#[tactic(auto, unfolding(crate::specs::RecordFields::time_in))]
pub fn time_of(text: &[u8]) -> Option<u16>
    ensures { result ≡ time_in text.now }
{
    match text {
        [a, b, c, d] if two_are(*a, *b) && two_are(*c, *d) => {
            let minutes = two_value(*c, *d) as u16;
            let total = 60 * two_value(*a, *b) as u16 + minutes;
            if minutes < 60 && total <= 1440 {
                Some(total)
            } else {
                None
            }
        }
        _ => None,
    }
}

/// A sign, hours and minutes, in minutes from -1439 to 1439.
#[tactic(auto, unfolding(crate::specs::RecordFields::offset_in))]
pub fn offset_of(text: &[u8]) -> Option<i16>
    ensures { result ≡ offset_in text.now }
{
    match text {
        [sign, a, b, c, d] if two_are(*a, *b) && two_are(*c, *d) => {
            let hours = two_value(*a, *b) as u16;
            let minutes = two_value(*c, *d) as u16;
            if hours < 24 && minutes < 60 {
                signed(*sign, 60 * hours + minutes)
            } else {
                None
            }
        }
        _ => None,
    }
}

/// Days later, -1 to 7.
#[tactic(auto, unfolding(crate::specs::RecordFields::shift_in))]
pub fn shift_of(text: &[u8]) -> Option<i8>
    ensures { result ≡ shift_in text.now }
{
    match text {
        [b' '] => Some(0),
        [digit] if b'0' <= *digit && *digit <= b'7' => Some((*digit - b'0') as i8),
        [b'A' | b'J'] => Some(-1),
        _ => None,
    }
}

/// Whether the data set goes on elsewhere: `C`, and not `E`.
#[tactic(auto, unfolding(crate::specs::RecordFields::continued_in))]
pub fn continued_of(text: &[u8]) -> Option<bool>
    ensures { result ≡ continued_in text.now }
{
    match text {
        [b'E'] => Some(false),
        [b'C'] => Some(true),
        _ => None,
    }
}

fn unpadded(text: &[u8]) -> &[u8]
    ensures value { result.now ≡ drop (prefix_len (λ c. c == 32) text.now) text.now }
{
    let mut rest = text;
    while let [b' ', after @ ..] = rest {
        rest = after;
    }
    rest
}

#[tactic(auto, unfolding(crate::specs::RecordFields::padded_in))]
fn padded_of(text: &[u8]) -> Option<u32>
    requires { length text.now ≤ 6 }
    ensures value { result ≡ padded_in text.now }
    ensures small { IfSome result (λ n. n < 10 ^ length text.now) }
{
    let digits = unpadded(text);
    if digits.is_empty() || !are_digits(digits) {
        return None;
    }
    Some(value_of(digits))
}

#[tactic(auto, unfolding(crate::specs::RecordFields::day_in))]
fn day_of(weekday: u8, byte: u8) -> Option<bool>
    requires { weekday ≤ 7 }
    ensures { result ≡ day_in weekday byte }
{
    if byte == b'0' + weekday {
        Some(true)
    } else if byte == b' ' {
        Some(false)
    } else {
        None
    }
}

#[tactic(auto, unfolding(crate::specs::RecordFields::signed_in))]
fn signed(sign: u8, total: u16) -> Option<i16>
    requires { total ≤ 1439 }
    ensures { result ≡ signed_in sign total }
{
    match sign {
        b'+' => Some(total as i16),
        b'-' => Some(0 - total as i16),
        _ => None,
    }
}
