//! Bytes and numbers, put behind what an array holds. It takes no memory: who calls knows that there is room.
ghost use Rattle.std.specs.Prelude.{◌≡◌, ◌+◌, ◌≤◌, ◌++◌, length, decimal};

use arrayvec::ArrayVec;
use itoa::Buffer;

/// Adds bytes as they are.
pub fn put<const N: usize>(text: &mut ArrayVec<u8, N>, bytes: &[u8])
    requires room { length text.old.items + length bytes.now ≤ N }
    ensures text { text.new.items ≡ text.old.items ++ bytes.now }
    ensures len { length text.new.items ≡ length text.old.items + length bytes.now }
{
    let put = text.try_extend_from_slice(bytes);
    prove!(put.is_ok());
    let _ = put;
}

/// Adds a number, without leading zeros: at most ten digits.
pub fn put_number<const N: usize>(text: &mut ArrayVec<u8, N>, number: u32)
    requires room { length text.old.items + 10 ≤ N }
    ensures text { text.new.items ≡ text.old.items ++ decimal number }
    ensures len { length text.new.items ≤ length text.old.items + 10 }
{
    let mut buffer = Buffer::new();
    put(text, buffer.format(number).as_bytes());
}
