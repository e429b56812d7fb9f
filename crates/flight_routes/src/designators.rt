//! The name of a flight, and the shard that goes by it.
ghost use Rattle.std.specs.Prelude.{◌≡◌, ◌≤◌, ◌+◌, ◌++◌, length};
ghost use Rattle.airline_base.specs.Fields.{suffix_text};
ghost use Rattle.flight_routes.specs.Shards.{fnv_of, fnv_step, name_text, own_name, shard_of};

use airimp_lines::Segment;
use airline_base::Airline;
use airline_base::spelling::{put, put_number};
use arrayvec::ArrayVec;
use seat_limits::ChangeRow;

/// The hash of no bytes, and what the hash is multiplied by behind each: FNV-1a with 32 bits (Fowler, Noll and Vo).
const FNV_BASIS: u32 = 2_166_136_261;

const FNV_PRIME: u32 = 16_777_619;

/// The name of a flight on all its days (SSIM: flight designator).
#[derive(Clone, Copy)]
pub struct Designator {
    pub airline: Airline,
    /// 1 to 9999.
    pub number: u16,
    /// The operational suffix, A to Z.
    pub suffix: Option<u8>,
}

impl Designator {
    /// The flight of a segment line.
    pub fn of_segment(segment: &Segment) -> Designator
        ensures airline { result.airline ≡ segment.now.airline }
        ensures number { result.number ≡ segment.now.number }
        ensures suffix { result.suffix ≡ segment.now.suffix }
    {
        Designator {
            airline: segment.airline,
            number: segment.number,
            suffix: segment.suffix,
        }
    }

    /// The flight of a row of changes.
    pub fn of_change(row: &ChangeRow) -> Designator
        ensures airline { result.airline ≡ row.now.airline }
        ensures number { result.number ≡ row.now.number }
        ensures suffix { result.suffix ≡ row.now.suffix }
    {
        Designator {
            airline: row.airline,
            number: row.number,
            suffix: row.suffix,
        }
    }

    /// The shard that has the flight, of so many, counted from 1: the FNV-1a hash with 32 bits of the airline, the number without leading zeros and the
    /// suffix, as `LZ601A`, divided by the number of shards; what is left, and 1.
    pub fn shard(&self, shards: u16) -> u16
        requires { 1 ≤ shards }
        ensures value { result ≡ shard_of shards (own_name self.now) }
        ensures within { (1 ≤ result) × (result ≤ shards) }
    {
        let hash = fnv_of(self.text().as_slice());
        (hash % u32::from(shards)) as u16 + 1
    }

    fn text(&self) -> ArrayVec<u8, 16>
        ensures { result.items ≡ own_name self.now }
    {
        let mut text = ArrayVec::new();
        put(&mut text, &self.airline.characters());
        put_number(&mut text, u32::from(self.number));
        put_suffix(&mut text, self.suffix);
        text
    }
}

fn put_suffix(text: &mut ArrayVec<u8, 16>, suffix: Option<u8>)
    requires room { length text.old.items + 1 ≤ 16 }
    ensures text { text.new.items ≡ text.old.items ++ suffix_text suffix }
{
    if let Some(suffix) = suffix {
        put(text, &[suffix]);
    }
}

#[tactic(auto, unfolding(crate::specs::Shards::fnv_of))]
fn fnv_of(bytes: &[u8]) -> u32
    ensures { result ≡ fnv_of bytes.now }
{
    let mut hash = FNV_BASIS;
    let mut rest = bytes;
    while let [byte, more @ ..] = rest {
        hash = fnv_step(hash, *byte);
        rest = more;
    }
    hash
}

#[tactic(auto, unfolding(crate::specs::Shards::fnv_step))]
fn fnv_step(hash: u32, byte: u8) -> u32
    ensures { result ≡ fnv_step hash byte }
{
    (hash ^ u32::from(byte)).wrapping_mul(FNV_PRIME)
}
