//! The day that a question is about.
ghost use Rattle.std.specs.Prelude.{◌≡◌, IfNone, IfSome, None, Ok};
ghost use Rattle.command_inputs.specs.Asked.{IsDayAsked};

use airline_base::Day;
use seat_words::{WordFault, date_word};

/// The local day of `--day`: none where the option is not there.
pub fn day_asked(day: Option<&str>) -> Result<Option<Day>, WordFault>
    ensures any { IfNone day.entry (result ≡ Ok None) }
    ensures named { IfSome day.entry (λ word. IsDayAsked word.now result) }
{
    match day {
        None => Ok(None),
        Some(word) => dated(word),
    }
}

/// The day that the word names. Any other word is `E2 day`.
fn dated(word: &str) -> Result<Option<Day>, WordFault>
    ensures { IsDayAsked word.now result }
{
    match date_word(word) {
        Some(day) => Ok(Some(day)),
        None => Err(WordFault::BadDay),
    }
}
