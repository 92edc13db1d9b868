//! A match in a haystack.

ghost use Rattle.std.specs.Prelude.{◌≡◌, ◌-◌, ◌≤◌, ◌==◌, length, option_map, is_some, IfSome};

use std::fmt;
use std::ops::Range;

/// A match: a part of the haystack.
///
/// Two matches are equal if they have the same offsets and their haystacks have equal bytes.
#[derive(Clone, Copy, PartialEq, Eq)]
pub struct Match<'h> {
    haystack: &'h [u8],
    start: usize,
    end: usize,
    pub ghost ordered: { start ≤ end },
    pub ghost within: { end ≤ length haystack.now },
}

impl<'h> Match<'h> {
    ghost use Rattle.bites_spec.specs.Match.{span};
    ghost use Rattle.bites_spec.specs.Captured.{excerpt, text_of};
    ghost use Rattle.bites_bytes.specs.Matched.{excerpt_of};

    // Returns the match between two offsets, if they are given.
    pub(super) fn at(haystack: &'h [u8], ends: Option<(usize, usize)>) -> Option<Match<'h>>
        requires { IfSome ends (λ s. (s.0 ≤ s.1) × (s.1 ≤ length haystack.now)) }
        ensures found { option_map excerpt_of result
            ≡ option_map (excerpt haystack.now) (option_map (λ s. span s.0 s.1) ends) }
        ensures some { is_some result ≡ is_some ends }
    {
        match ends {
            Some((start, end)) => Some(Match {
                haystack,
                start,
                end,
            }),
            None => None,
        }
    }

    /// Returns the offset in bytes where the match begins.
    pub fn start(&self) -> usize
        ensures { result ≡ (excerpt_of self.now).span.start }
    {
        self.start
    }

    /// Returns the offset in bytes after the end of the match.
    pub fn end(&self) -> usize
        ensures { result ≡ (excerpt_of self.now).span.end }
    {
        self.end
    }

    /// Returns the length of the match in bytes.
    pub fn len(&self) -> usize
        ensures { result ≡ (excerpt_of self.now).span.end - (excerpt_of self.now).span.start }
    {
        self.end - self.start
    }

    /// Returns whether the match is empty.
    pub fn is_empty(&self) -> bool
        ensures { result ≡ ((excerpt_of self.now).span.start == (excerpt_of self.now).span.end) }
    {
        self.start == self.end
    }

    /// Returns the offsets in bytes where the match begins and ends.
    pub fn range(&self) -> Range<usize>
        ensures { span result.start result.end ≡ (excerpt_of self.now).span }
    {
        self.start..self.end
    }

    /// Returns the bytes that matched.
    pub fn as_bytes(&self) -> &'h [u8]
        ensures { result.now ≡ text_of (excerpt_of self.now) }
    {
        &self.haystack[self.start..self.end]
    }
}

impl<'h> From<Match<'h>> for Range<usize> {
    ghost use Rattle.bites_spec.specs.Match.{span};
    ghost use Rattle.bites_bytes.specs.Matched.{excerpt_of};

    ghost from_gives = { λ found range. span range.start range.end ≡ (excerpt_of found).span };

    fn from(found: Match<'h>) -> Range<usize> {
        found.range()
    }
}

impl<'h> From<Match<'h>> for &'h [u8] {
    ghost use Rattle.bites_spec.specs.Captured.{text_of};
    ghost use Rattle.bites_bytes.specs.Matched.{excerpt_of};

    ghost from_gives = { λ found bytes. bytes.now ≡ text_of (excerpt_of found) };

    fn from(found: Match<'h>) -> &'h [u8] {
        found.as_bytes()
    }
}

impl<'h> fmt::Debug for Match<'h> {
    fn fmt<W: fmt::Write>(&self, f: &mut fmt::Formatter<W>) -> fmt::Result {
        f.debug_struct("Match")
            .field("start", &self.start)
            .field("end", &self.end)
            .field("bytes", &self.as_bytes())
            .finish()
    }
}
