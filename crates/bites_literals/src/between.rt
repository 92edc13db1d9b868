//! The bytes that may stand between the beginning of a match and an offset.

ghost use Rattle.std.specs.Prelude.{◌≡◌, ◌≤◌, ◌<◌, ℕ, true, false, length, slice_index_or};
ghost use Rattle.bites_literals.specs.Ascii.{Has};
ghost use Rattle.bites_literals.specs.Between.{IsFlagged, IsBackOver};

use crate::ascii::AsciiSet;
use bites_scan::byte_set::ByteSet;

/// Some bytes of ASCII, and all that are not ASCII.
#[derive(Drop)]
pub(crate) struct Between {
    bytes: ByteSet,
    ghost others: { (byte : ℕ) → 128 ≤ byte → byte < 256 → slice_index_or bytes byte false ≡ true },
}

impl Between {
    /// Returns the bytes of the set, and all that are not ASCII.
    pub(crate) fn of(ascii: AsciiSet) -> Between
        ensures { (byte : ℕ) → byte < 128 → Has ascii byte → IsFlagged result.bytes byte }
    {
        Between {
            bytes: ByteSet::new(&ascii.flags(true)),
        }
    }

    /// Goes back over these bytes, to the start or to another byte before.
    pub(crate) fn back(&self, haystack: &[u8], start: usize, at: usize) -> usize
        requires ordered { start ≤ at }
        requires within { at ≤ length haystack.now }
        ensures { IsBackOver self.now.bytes haystack.now start at result }
    {
        self.bytes.skip_back(haystack, start, at)
    }
}
