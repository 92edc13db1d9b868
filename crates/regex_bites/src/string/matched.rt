//! A match in a text.

ghost use Rattle.std.specs.Prelude.{◌≡◌, ◌-◌, ◌≤◌, ◌==◌, option_map, IsCharBoundary};
ghost use Rattle.std.specs.Option.{ForSome};

use bites_bytes::bytes;
use std::fmt;
use std::ops::Range;

/// A match: a part of the haystack. It begins and ends at a character boundary.
///
/// Two matches are equal if they have the same offsets and their haystacks have equal text.
#[derive(Clone, Copy, PartialEq, Eq)]
pub struct Match<'h> {
    haystack: &'h str,
    start: usize,
    end: usize,
    pub ghost ordered: { start ≤ end },
    pub ghost starts_at_border: { IsCharBoundary haystack.now start },
    pub ghost ends_at_border: { IsCharBoundary haystack.now end },
}

impl<'h> Match<'h> {
    ghost use Rattle.bites_spec.specs.Match.{span};
    ghost use Rattle.bites_spec.specs.Captured.{text_of};
    ghost use Rattle.bites_bytes.specs.Matched as over_bytes;
    ghost use Rattle.regex_bites.specs.Matched.{excerpt_of};
    ghost use Rattle.regex_bites.specs.Borders.{IsPart};

    // Returns the part of the text at the offsets of a match in its bytes.
    pub(super) fn of(haystack: &'h str, found: bytes::Match<'_>) -> Match<'h>
        requires { IsPart haystack.now (over_bytes.excerpt_of found) }
        ensures { excerpt_of result ≡ over_bytes.excerpt_of found.entry }
    {
        Match {
            haystack,
            start: found.start(),
            end: found.end(),
        }
    }

    // Like [`Match::of`], but for a match that may be missing.
    pub(super) fn of_found(haystack: &'h str, found: Option<bytes::Match<'_>>) -> Option<Match<'h>>
        requires { ForSome found (λ m. IsPart haystack.now (over_bytes.excerpt_of m)) }
        ensures { option_map excerpt_of result ≡ option_map over_bytes.excerpt_of found.entry }
    {
        match found {
            Some(found) => Some(Match::of(haystack, found)),
            None => None,
        }
    }

    /// Returns the offset in bytes where the match begins.
    pub fn start(&self) -> usize
        ensures { result ≡ (excerpt_of self.now).span.start }
    {
        self.start
    }

    /// Returns the offset in bytes after the end of the match.
    pub fn end(&self) -> usize
        ensures { result ≡ (excerpt_of self.now).span.end }
    {
        self.end
    }

    /// Returns the length of the match in bytes.
    pub fn len(&self) -> usize
        ensures { result ≡ (excerpt_of self.now).span.end - (excerpt_of self.now).span.start }
    {
        self.end - self.start
    }

    /// Returns whether the match is empty.
    pub fn is_empty(&self) -> bool
        ensures { result ≡ ((excerpt_of self.now).span.start == (excerpt_of self.now).span.end) }
    {
        self.start == self.end
    }

    /// Returns the offsets in bytes where the match begins and ends.
    pub fn range(&self) -> Range<usize>
        ensures { span result.start result.end ≡ (excerpt_of self.now).span }
    {
        self.start..self.end
    }

    /// Returns the text that matched.
    pub fn as_str(&self) -> &'h str
        ensures { result.now ≡ text_of (excerpt_of self.now) }
    {
        &self.haystack[self.start..self.end]
    }
}

impl<'h> From<Match<'h>> for Range<usize> {
    ghost use Rattle.bites_spec.specs.Match.{span};
    ghost use Rattle.regex_bites.specs.Matched.{excerpt_of};

    ghost from_gives = { λ found range. span range.start range.end ≡ (excerpt_of found).span };

    fn from(found: Match<'h>) -> Range<usize> {
        found.range()
    }
}

impl<'h> From<Match<'h>> for &'h str {
    ghost use Rattle.bites_spec.specs.Captured.{text_of};
    ghost use Rattle.regex_bites.specs.Matched.{excerpt_of};

    ghost from_gives = { λ found text. text.now ≡ text_of (excerpt_of found) };

    fn from(found: Match<'h>) -> &'h str {
        found.as_str()
    }
}

impl<'h> fmt::Debug for Match<'h> {
    fn fmt<W: fmt::Write>(&self, f: &mut fmt::Formatter<W>) -> fmt::Result {
        f.debug_struct("Match")
            .field("start", &self.start)
            .field("end", &self.end)
            .field("string", &self.as_str())
            .finish()
    }
}
