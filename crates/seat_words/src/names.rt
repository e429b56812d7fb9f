//! Words that name a pair of stations, a flight, a locator, a line of a journal, how many lines it began with, a number of shards, a shard of them, or a session.
ghost use Rattle.std.specs.Prelude.{◌≡◌, ℕ, IfSome, Some, None, if◌then◌else◌};
ghost use Rattle.airline_base.specs.Names.{is_locator};
ghost use Rattle.seat_words.specs.NameWords.{IsBehindWord, IsLineWord, IsShardsWord, flight_in, pair_word_in, session_in, shard_among, shard_in, suffix_in};

use airline_base::fields::{airline_of, are_digits, byte_of, numeral_of, value_of};
use airline_base::{Airline, Locator, Station};

/// The board and the off point that the word names: two stations of three letters A to Z, as `LHRJFK`.
pub fn pair_word(word: &str) -> Option<(Station, Station)>
    ensures { result ≡ pair_word_in word.now }
{
    let Some((board, off)) = word.as_bytes().split_at_checked(3) else {
        return None;
    };
    let Some(board) = Station::new(board) else {
        return None;
    };
    let Some(off) = Station::new(off) else {
        return None;
    };
    Some((board, off))
}

/// The airline, the number of 1 to 9999 and the operational suffix of the flight that the word names, as `LZ601` or `LZ205A`.
#[tactic(auto, unfolding(crate::specs::NameWords::flight_in))]
pub fn flight_word(word: &str) -> Option<(Airline, u16, Option<u8>)>
    ensures { result ≡ flight_in word.now }
{
    let Some((airline, rest)) = airline_of(word.as_bytes()) else {
        return None;
    };
    let Some((number, rest)) = numeral_of(rest, 4) else {
        return None;
    };
    let Some(suffix) = suffix_of(rest) else {
        return None;
    };
    Some((airline, number, suffix))
}

/// The operational suffix that stands last, if there is one.
fn suffix_of(rest: &[u8]) -> Option<Option<u8>>
    ensures { result ≡ suffix_in rest.now }
{
    match rest {
        [] => Some(None),
        [letter] if letter.is_ascii_uppercase() => Some(Some(*letter)),
        _ => None,
    }
}

/// The locator that the word names: six of A to Z and 0 to 9.
pub fn locator_word(word: &str) -> Option<Locator>
    ensures { result ≡ (if is_locator word.now then Some word.now else None) }
{
    Locator::new(word.as_bytes())
}

/// The line that the word names: one to six digits, of value 1 to 999,999.
pub fn line_word(word: &str) -> Option<u32>
    ensures value { IfSome result (IsLineWord word.now) }
    ensures only { (n : ℕ) → IsLineWord word.now n → result ≡ Some n }
{
    let digits = word.as_bytes();
    if digits.len() > 6 || !are_digits(digits) {
        return None;
    }
    let line = value_of(digits);
    if line == 0 {
        return None;
    }
    Some(line)
}

/// How many lines the word names: one to six digits, of value 0 to 999,999.
pub fn behind_word(word: &str) -> Option<u32>
    ensures value { IfSome result (IsBehindWord word.now) }
    ensures only { (n : ℕ) → IsBehindWord word.now n → result ≡ Some n }
{
    let digits = word.as_bytes();
    if digits.is_empty() || 6 < digits.len() || !are_digits(digits) {
        return None;
    }
    Some(value_of(digits))
}

/// The number of shards that the word names: one to three digits, of value 1 to 999.
pub fn shards_word(word: &str) -> Option<u16>
    ensures value { IfSome result (IsShardsWord word.now) }
    ensures only { (n : ℕ) → IsShardsWord word.now n → result ≡ Some n }
{
    let digits = word.as_bytes();
    if digits.len() > 3 || !are_digits(digits) {
        return None;
    }
    let shards = value_of(digits);
    if shards == 0 {
        return None;
    }
    Some(shards as u16)
}

/// One of several hosts that have different flights.
#[derive(Clone, Copy)]
pub struct ShardWord {
    /// Which of them, counted from 1.
    pub shard: u16,
    /// How many there are, at most 999.
    pub shards: u16,
}

/// The shard that the word names and how many there are, as `2/4`: each in one to three digits, from 1 on, and the first not above
/// the second.
#[tactic(auto, unfolding(crate::specs::NameWords::shard_in))]
pub fn shard_word(word: &str) -> Option<ShardWord>
    ensures { result ≡ shard_in word.now }
{
    let Some((shard, rest)) = numeral_of(word.as_bytes(), 3) else {
        return None;
    };
    let Some(rest) = byte_of(b'/', rest) else {
        return None;
    };
    let Some((shards, rest)) = numeral_of(rest, 3) else {
        return None;
    };
    shard_among(shard, shards, rest)
}

/// These two, where nothing stands behind them and the first is not above the second.
fn shard_among(shard: u16, shards: u16, rest: &[u8]) -> Option<ShardWord>
    ensures { result ≡ shard_among shard shards rest.now }
{
    match rest {
        [] if shard <= shards => Some(ShardWord { shard, shards }),
        _ => None,
    }
}

/// The session that the word names: one digit, 0 for the manager to 8.
pub fn session_word(word: &str) -> Option<u8>
    ensures { result ≡ session_in word.now }
{
    match word.as_bytes() {
        [digit @ b'0'..=b'8'] => Some(*digit - b'0'),
        _ => None,
    }
}
