//! Texts in the columns of a row: a byte of printable ASCII is itself, `\\` is a backslash, and `\xHH` any other byte.

ghost use Rattle.std.specs.Prelude.{◌≤◌, length, IfSome};

use crate::fault::Fault;
use std::alloc::Global;
use std::str;

/// Returns the bytes that an escaped text stands for.
pub fn unescaped(alloc: Global, text: &str) -> Result<Vec<u8>, Fault> {
    let mut bytes = Vec::new(alloc);
    let mut rest = text.as_bytes();
    while let Some((first, behind)) = rest.split_first() {
        let Some((byte, behind)) = unescaped_byte(*first, behind) else {
            return Err(Fault::NoRow);
        };
        if bytes.push(byte).is_err() {
            return Err(Fault::Memory);
        }
        rest = behind;
    }
    Ok(bytes)
}

// Returns the first byte that an escaped text stands for, and the rest of the text. `first` and `behind` are the text.
fn unescaped_byte(first: u8, behind: &[u8]) -> Option<(u8, &[u8])>
    ensures { IfSome result (λ read. length read.1.now ≤ length behind.now) }
{
    if first != b'\\' {
        return Some((first, behind));
    }
    match behind {
        [b'\\', rest @ ..] => Some((b'\\', rest)),
        [b'x', rest @ ..] => {
            let (digits, rest) = rest.split_at_checked(2)?;
            Some((byte_of(digits)?, rest))
        }
        _ => None,
    }
}

// Returns the byte that two hexadecimal digits stand for.
fn byte_of(digits: &[u8]) -> Option<u8> {
    let digits = str::from_utf8(digits).ok()?;
    u8::from_str_radix(digits, 16).ok()
}
