//! Words that name a day, a number of days, or one of seconds.
ghost use Rattle.std.specs.Prelude.{◌≡◌, ◌+◌, ◌≤◌, ℕ, IfSome, Some};
ghost use Rattle.airline_base.specs.Days.{civil_in};
ghost use Rattle.seat_words.specs.DayWords.{IsDateWord, IsDaysWord, IsEveryWord, date_word_in};

use airline_base::Day;
use airline_base::fields::{are_digits, two_are, two_value, value_of};

/// The day that the word names: YYYY-MM-DD of the years 2000 to 2099 (ISO 8601).
#[tactic(auto, using(crate::proofs::DayLaws::date_takes, crate::proofs::DayLaws::date_again))]
pub fn date_word(word: &str) -> Option<Day>
    ensures value { IfSome result (IsDateWord word.now) }
    ensures only { (n : ℕ) → IsDateWord word.now n → result ≡ Some n }
{
    read_date(word.as_bytes())
}

/// The number of days that the word names: one to three digits, of value 1 to 366.
pub fn days_word(word: &str) -> Option<u16>
    ensures value { IfSome result (IsDaysWord word.now) }
    ensures only { (n : ℕ) → IsDaysWord word.now n → result ≡ Some n }
{
    let digits = word.as_bytes();
    if digits.len() > 3 || !are_digits(digits) {
        return None;
    }
    let days = value_of(digits);
    if days < 1 || days > 366 {
        return None;
    }
    Some(days as u16)
}

/// The number of seconds that the word names: one to four digits, of value 1 to 3600.
pub fn every_word(word: &str) -> Option<u16>
    ensures value { IfSome result (IsEveryWord word.now) }
    ensures only { (n : ℕ) → IsEveryWord word.now n → result ≡ Some n }
{
    let digits = word.as_bytes();
    if digits.len() > 4 || !are_digits(digits) {
        return None;
    }
    let seconds = value_of(digits);
    if seconds < 1 || seconds > 3600 {
        return None;
    }
    Some(seconds as u16)
}

#[tactic(auto, unfolding(crate::specs::DayWords::date_word_in))]
fn read_date(word: &[u8]) -> Option<Day>
    ensures { result ≡ date_word_in word.now }
{
    match word {
        [b'2', b'0', y, z, b'-', m, n, b'-', t, u]
            if two_are(*y, *z) && two_are(*m, *n) && two_are(*t, *u) => {
            of_century(two_value(*y, *z), two_value(*m, *n), two_value(*t, *u))
        }
        _ => None,
    }
}

fn of_century(year: u8, month: u8, day: u8) -> Option<Day>
    requires { year ≤ 99 }
    ensures { result ≡ civil_in (2000 + year) month day }
{
    Day::of(2000 + year as u16, month, day)
}
