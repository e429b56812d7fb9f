//! The flight and the pair of stations that a question is about.
ghost use Rattle.std.specs.Prelude.{◌≡◌, IfNone, IfSome, None, Ok};
ghost use Rattle.command_inputs.specs.Asked.{designator_asked, flight_of, stations_asked};

use airline_base::{Airline, Station};
use seat_lists::Designator;
use seat_questions::CityPair;
use seat_words::{WordFault, flight_word, pair_word};

/// The flight of `--flight`: none where the option is not there.
pub fn flight_asked(flight: Option<&str>) -> Result<Option<Designator>, WordFault>
    ensures any { IfNone flight.entry (result ≡ Ok None) }
    ensures named { IfSome flight.entry (λ word. result ≡ designator_asked word.now) }
{
    match flight {
        None => Ok(None),
        Some(word) => designator_asked(word),
    }
}

/// The flight that the word names. Any other word is `E2 flight`.
fn designator_asked(word: &str) -> Result<Option<Designator>, WordFault>
    ensures { result ≡ designator_asked word.now }
{
    match flight_word(word) {
        Some(name) => Ok(Some(flight_of(name))),
        None => Err(WordFault::BadFlight),
    }
}

fn flight_of(name: (Airline, u16, Option<u8>)) -> Designator
    ensures { result ≡ flight_of name }
{
    let (airline, number, suffix) = name;
    Designator {
        airline,
        number,
        suffix,
    }
}

/// The pair of `--pair`: none where the option is not there.
pub fn pair_asked(pair: Option<&str>) -> Result<Option<CityPair>, WordFault>
    ensures any { IfNone pair.entry (result ≡ Ok None) }
    ensures named { IfSome pair.entry (λ word. result ≡ stations_asked word.now) }
{
    match pair {
        None => Ok(None),
        Some(word) => stations_asked(word),
    }
}

/// The two stations that the word names. Any other word is `E2 pair`.
fn stations_asked(word: &str) -> Result<Option<CityPair>, WordFault>
    ensures { result ≡ stations_asked word.now }
{
    match pair_word(word) {
        Some((board, off)) => Ok(Some(CityPair { board, off })),
        None => Err(WordFault::BadPair),
    }
}
