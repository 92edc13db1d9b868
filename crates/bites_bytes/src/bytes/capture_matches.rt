//! The groups of the successive matches in a haystack.

ghost use Rattle.std.specs.Prelude.{◌≡◌, IfOk, length, None};
ghost use Rattle.bites_spec.specs.Iteration.{captures_in};
ghost use Rattle.bites_bytes.specs.Matches.{regex_of_matches};

use crate::bytes::{CaptureLocations, Captures, Matches, Regex};
use std::alloc::AllocError;
use std::fmt;
use std::iter::FusedIterator;

/// An iterator over the groups of the successive matches, from left to right.
///
/// An item is an error if memory runs out for its groups. No item comes after an error.
pub struct CaptureMatches<'r, 'h> {
    matches: Matches<'r, 'h>,
    locations: CaptureLocations,
    // Whether memory ran out.
    refused: bool,
    pub ghost fits: { length locations ≡ (regex_of_matches matches).program.slots },
}

// A caller that drops one relies on this function, and on no type below it.
impl<'r, 'h> Drop for CaptureMatches<'r, 'h> {
    fn drop(self) {
        let CaptureMatches {
            matches: _,
            locations: _,
            refused: _,
        } = self;
    }
}

impl<'r, 'h> CaptureMatches<'r, 'h> {
    ghost use Rattle.bites_spec.specs.Refused.{YieldsUntilRefused};
    ghost use Rattle.bites_bytes.specs.CapturesLeft.{NextCaptures, captures_left};

    // Goes on to the next match, and returns whether there is one. The locations have its slots then.
    fn advance(&mut self) -> bool
        ensures steps { NextCaptures self.old result self.new }
        ensures refused { self.new.refused ≡ self.old.refused }
    {
        self.matches.step_with(&mut self.locations).is_some()
    }

    // Returns the groups of the next match, or that memory ran out.
    fn step(&mut self) -> Option<Result<Captures<'h>, AllocError>>
        ensures { YieldsUntilRefused (λ c. c) captures_left self.old result self.new }
    {
        if self.refused || !self.advance() {
            return None;
        }
        let cursor = &self.matches.cursor;
        match Captures::of(cursor.regex, cursor.haystack, &self.locations) {
            Ok(captures) => Some(Ok(captures)),
            Err(refusal) => {
                self.refused = true;
                Some(Err(refusal))
            }
        }
    }

    /// Returns the number of matches that are left, or 0 after an error. It searches for each of them, and allocates
    /// nothing.
    pub fn count(self) -> usize
        ensures { result ≡ length (captures_left self.entry) }
    {
        let CaptureMatches {
            matches,
            locations: _,
            refused,
        } = self;
        if refused {
            return 0;
        }
        matches.count()
    }
}

impl<'r, 'h> Iterator for CaptureMatches<'r, 'h> {
    ghost use Rattle.std.specs.Iterator.{item_count};
    ghost use Rattle.bites_bytes.specs.Hints.{IsHint};
    ghost use Rattle.bites_spec.specs.Refused.{YieldsUntilRefused};
    ghost use Rattle.bites_bytes.specs.CapturesLeft.{captures_left};

    type Item = Result<Captures<'h>, AllocError>;

    ghost next_gives = { YieldsUntilRefused (λ c. c) captures_left };

    ghost remaining = { item_count captures_left };

    fn next(&mut self) -> Option<Result<Captures<'h>, AllocError>> {
        self.step()
    }

    fn size_hint(&self) -> (usize, Option<usize>)
        ensures { IsHint captures_left self.now result (0, None) }
    {
        (0, None)
    }
}

impl<'r, 'h> FusedIterator for CaptureMatches<'r, 'h> {}

impl Regex {
    ghost use Rattle.bites_bytes.specs.CapturesLeft.{captures_left};

    /// Returns an iterator over the groups of the successive matches, which are those of [`Regex::find_iter`]. The
    /// error is out of memory for the cache of the iterator.
    ///
    /// ```rust
    /// let regex = Regex::new(rt.alloc(), "a(b)?")?;
    /// let mut participates = Vec::new(rt.alloc());
    /// for captures in regex.captures_iter(b"ab a")? {
    ///     participates.push(captures?.get(1).is_some())?;
    /// }
    /// assert_eq!(rt; participates.as_slice(), [true, false].as_slice());
    /// ```
    pub fn captures_iter<'r, 'h>(
        &'r self,
        haystack: &'h [u8],
    ) -> Result<CaptureMatches<'r, 'h>, AllocError>
        ensures { IfOk result (λ m. captures_left m ≡ captures_in self.now haystack.now) }
    {
        let slots = self.program().slots();
        Ok(CaptureMatches {
            matches: Matches::new(self, haystack)?,
            locations: CaptureLocations::new(self.alloc(), slots)?,
            refused: false,
        })
    }
}

impl<'r, 'h> fmt::Debug for CaptureMatches<'r, 'h> {
    fn fmt<W: fmt::Write>(&self, f: &mut fmt::Formatter<W>) -> fmt::Result {
        f.debug_struct("CaptureMatches")
            .field("matches", &self.matches)
            .field("refused", &self.refused)
            .finish_non_exhaustive()
    }
}
