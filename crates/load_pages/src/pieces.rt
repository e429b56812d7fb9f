//! Pieces of a page.
ghost use Rattle.std.specs.Prelude.{◌≡◌, ◌++◌, OnOk, decimal};
ghost use Rattle.airline_base.specs.Fields.{suffix_text};

use itoa::Buffer;
use std::alloc::AllocError;

/// Adds bytes as they are.
pub fn put(text: &mut Vec<u8>, bytes: &[u8]) -> Result<(), AllocError>
    ensures { OnOk result (text.new.items ≡ text.old.items ++ bytes.now) }
{
    text.extend_from_slice(bytes)
}

/// Adds a number, without leading zeros.
pub fn put_number(text: &mut Vec<u8>, number: u32) -> Result<(), AllocError>
    ensures { OnOk result (text.new.items ≡ text.old.items ++ decimal number) }
{
    let mut buffer = Buffer::new();
    put(text, buffer.format(number).as_bytes())
}

/// Adds the letter behind a flight's number, if it has one.
pub fn put_suffix(text: &mut Vec<u8>, suffix: Option<u8>) -> Result<(), AllocError>
    ensures { OnOk result (text.new.items ≡ text.old.items ++ suffix_text suffix) }
{
    match suffix {
        Some(letter) => put(text, &[letter]),
        None => Ok(()),
    }
}
