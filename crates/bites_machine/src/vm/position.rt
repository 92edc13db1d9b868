//! A place of a haystack, with the character that stands there.

ghost use Rattle.std.specs.Prelude.{◌≡◌, ◌+◌, ◌<◌, ◌≤◌, ◌==◌, length};
ghost use Rattle.bites_spec.specs.Program.{AreRanges};
ghost use Rattle.bites_spec.specs.Range.{in_ranges};
ghost use Rattle.bites_spec.specs.Utf8.{piece};
ghost use Rattle.bites_machine.specs.Ends.{code_of, next_character, takes_by};

use crate::ranges::Ranges;

// The code at the end of a haystack. No character has it.
const NO_CHARACTER: u32 = 1114112;

/// A place of the haystack, with the character decoded there, the number of its bytes, and whether the longest match is
/// asked for. At the end there is no character, and the number is 0.
#[derive(Clone, Copy, Drop)]
pub struct Position<'h> {
    pub haystack: &'h [u8],
    pub place: usize,
    pub ch: Option<char>,
    /// The code of the character, so that one comparison tests it.
    pub code: u32,
    pub ch_len: usize,
    pub longest: bool,
    ghost code_is: { code ≡ code_of ch },
    pub ghost ch_is: { ch ≡ next_character haystack.now place },
    pub ghost len_is: { ch_len ≡ (piece haystack.now place).len },
    pub ghost within: { place + ch_len ≤ length haystack.now },
}

impl Position<'_> {
    /// Returns whether this character stands here.
    #[inline(always)]
    pub(super) fn is_char(&self, ch: char) -> bool
        ensures { result ≡ takes_by (λ d. d == ch) self.now.ch }
    {
        self.code == ch as u32
    }

    /// Returns whether a character of these ranges stands here.
    #[inline(always)]
    pub(super) fn is_in(&self, ranges: &Ranges) -> bool
        requires { AreRanges ranges.now }
        ensures { result ≡ takes_by (in_ranges ranges.now) self.now.ch }
    {
        if self.code < 128 {
            return ranges.takes_ascii(self.code);
        }
        match self.ch {
            None => false,
            Some(ch) => ranges.takes(ch),
        }
    }
}

/// Returns the code of a character, or the one at the end of a haystack.
#[inline(always)]
pub(super) fn code(ch: Option<char>) -> u32
    ensures { result ≡ code_of ch }
{
    match ch {
        None => NO_CHARACTER,
        Some(ch) => ch as u32,
    }
}
