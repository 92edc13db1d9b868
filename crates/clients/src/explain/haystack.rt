//! The haystack, which is read from standard input.

ghost use Rattle.std.specs.Prelude.{◌≡◌, length, IfOk};
ghost use Rattle.clients.specs.Haystack.{character_of, ArePieces};

use bites_filter::fault::Fault;
use bites_text::utf8::decode;
use std::alloc::{AllocError, Global};
use std::io::{self, ErrorKind, Read};

/// The greatest number of bytes of a haystack.
const GREATEST: usize = 65536;

/// Reads a haystack to its end. The fault is out of memory, or that the input can't be read or has more than 65536
/// bytes.
pub(crate) fn read_haystack<R: Read>(alloc: Global, input: &mut R) -> Result<Vec<u8>, Fault> {
    let mut bytes = Vec::new(alloc);
    // One byte more shows that the input is too long.
    match input.take(GREATEST as u64 + 1).read_to_end(&mut bytes) {
        Ok(_) if bytes.len() > GREATEST => Err(too_long()),
        Ok(_) => Ok(bytes),
        Err(error) => Err(Fault::of_reading(error)),
    }
}

fn too_long() -> Fault {
    Fault::Read(io::Error::new(ErrorKind::FileTooLarge, "it has more than 65536 bytes"))
}

/// A piece of the haystack: a character, or bytes that are none.
#[derive(Clone, Copy, Drop)]
pub(crate) struct Piece<'h> {
    /// Its offset, in bytes.
    pub(crate) start: usize,
    pub(crate) bytes: &'h [u8],
    pub(crate) decoded: Option<char>,
}

impl<'h> Piece<'h> {
    ghost use Rattle.clients.specs.Haystack.{character_of};

    /// Returns the character that a search sees, which is U+FFFD where the bytes are none.
    pub(crate) fn character(&self) -> char
        ensures { result ≡ character_of self.now }
    {
        self.decoded.unwrap_or(char::REPLACEMENT_CHARACTER)
    }

    /// Returns the offset of its end, in bytes.
    pub(crate) fn end(&self) -> usize {
        self.start.saturating_add(self.bytes.len())
    }
}

/// Returns the pieces of the haystack, in order. The error is out of memory.
pub(crate) fn pieces_of(alloc: Global, haystack: &[u8]) -> Result<Vec<Piece<'_>>, AllocError>
    ensures { IfOk result (λ pieces. ArePieces haystack.now 0 pieces.items (length haystack.now)) }
{
    let mut pieces = Vec::new(alloc);
    let mut start = 0;
    while start < haystack.len() {
        let rest = &haystack[start..];
        let (decoded, len) = decode(rest);
        pieces.push(Piece {
            start,
            bytes: &rest[..len],
            decoded,
        })?;
        start += len;
    }
    Ok(pieces)
}
