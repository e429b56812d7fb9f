//! A flight and city pair as one number, by which it is hashed.
ghost use Rattle.std.specs.Prelude.{◌≡◌, ◌≤◌};
ghost use Rattle.seat_limits.specs.Hashing.{cities_number, flight_number, pair_number, station_number, suffix_number};

use crate::row_index::Pair;
use airline_base::Station;

/// All fields of a pair side by side: each pair has a number of its own.
pub(crate) fn pair_number(pair: &Pair) -> u128
    ensures { result ≡ pair_number pair.now }
{
    u128::from(flight_number(pair)) + 18_446_744_073_709_551_616 * u128::from(cities_number(pair))
}

fn flight_number(pair: &Pair) -> u64
    ensures { result ≡ flight_number pair.now }
{
    u64::from(u16::from_le_bytes(pair.airline.characters()))
        + 65_536 * u64::from(pair.number)
        + 4_294_967_296 * suffix_number(pair.suffix)
}

fn cities_number(pair: &Pair) -> u64
    ensures { result ≡ cities_number pair.now }
{
    u64::from(station_number(pair.board)) + 4_294_967_296 * u64::from(station_number(pair.off))
}

/// 0 for none: each suffix has a number of its own, of two bytes.
fn suffix_number(suffix: Option<u8>) -> u64
    ensures value { result ≡ suffix_number suffix }
    ensures short { result ≤ 256 }
{
    match suffix {
        Some(letter) => u64::from(letter) + 1,
        None => 0,
    }
}

fn station_number(station: Station) -> u32
    ensures { result ≡ station_number station }
{
    let letters = station.letters();
    u32::from_le_bytes([letters[0], letters[1], letters[2], 0])
}
