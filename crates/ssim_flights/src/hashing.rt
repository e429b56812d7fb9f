//! The suffix of a flight as a number, for keys that are hashed as one.
ghost use Rattle.std.specs.Prelude.{◌≡◌, ◌≤◌};
ghost use Rattle.ssim_flights.specs.Hashing.{suffix_number};

/// 0 for none: each suffix has a number of its own, of two bytes.
pub(crate) fn suffix_number(suffix: Option<u8>) -> u64
    ensures value { result ≡ suffix_number suffix }
    ensures short { result ≤ 256 }
{
    match suffix {
        Some(letter) => u64::from(letter) + 1,
        None => 0,
    }
}
