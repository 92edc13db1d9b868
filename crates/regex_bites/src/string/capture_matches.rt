//! The groups of the successive matches in a text.

ghost use Rattle.std.specs.Prelude.{◌≡◌, IfOk, length, None, map};
ghost use Rattle.bites_spec.specs.Iteration.{captures_in};
ghost use Rattle.bites_bytes.specs.CapturesLeft as over_bytes;
ghost use Rattle.std.specs.List.{AllByRecursion};
ghost use Rattle.std.proofs.Props.{props};
ghost use Rattle.bites_spec.specs.Replaced.{span_in};
ghost use Rattle.regex_bites.specs.Borders.{AreGroupsOf};
ghost use Rattle.regex_bites.specs.Order.{BeginFrom};

use crate::string::{Captures, Regex};
use bites_bytes::bytes;
use std::alloc::AllocError;
use std::fmt;
use std::iter::FusedIterator;

/// An iterator over the groups of the successive matches, from left to right.
///
/// An item is an error if memory runs out for its groups. No item comes after an error.
pub struct CaptureMatches<'r, 'h> {
    matches: bytes::CaptureMatches<'r, 'h>,
    haystack: &'h str,
    pub ghost groups: { AllByRecursion (AreGroupsOf haystack.now) (over_bytes.captures_left matches) } by { Prim.hlevel props },
}

// A caller that drops one relies on this function, and on no type below it.
impl<'r, 'h> Drop for CaptureMatches<'r, 'h> {
    fn drop(self) {
        let CaptureMatches {
            matches: _,
            haystack: _,
        } = self;
    }
}

impl<'r, 'h> CaptureMatches<'r, 'h> {
    ghost use Rattle.bites_spec.specs.Refused.{YieldsUntilRefused};
    ghost use Rattle.regex_bites.specs.CapturesLeft.{captures_left, haystack_of_captures};

    pub(super) fn new(
        regex: &'r Regex,
        haystack: &'h str,
    ) -> Result<CaptureMatches<'r, 'h>, AllocError>
        ensures left { IfOk result (λ m. captures_left m ≡ captures_in regex.now haystack.now) }
        ensures haystack { IfOk result (λ m. haystack_of_captures m ≡ haystack.now) }
        ensures in_order { IfOk result (λ m. BeginFrom 0 (map span_in (captures_left m))) }
    {
        let regex = regex.over_bytes();
        let matches = regex.captures_iter(haystack.as_bytes())?;
        Ok(CaptureMatches { matches, haystack })
    }

    // Returns the groups of the next match, or that memory ran out.
    fn step(&mut self) -> Option<Result<Captures<'h>, AllocError>>
        ensures steps { YieldsUntilRefused (λ c. c) captures_left self.old result self.new }
        ensures same { haystack_of_captures self.new ≡ haystack_of_captures self.old }
    {
        match self.matches.next() {
            Some(Ok(captures)) => Some(Ok(Captures::of(self.haystack, captures))),
            Some(Err(refusal)) => Some(Err(refusal)),
            None => None,
        }
    }

    /// Returns the number of matches that are left, or 0 after an error. It searches for each of them, and allocates
    /// nothing.
    pub fn count(self) -> usize
        ensures { result ≡ length (captures_left self.entry) }
    {
        let CaptureMatches {
            matches,
            haystack: _,
        } = self;
        matches.count()
    }
}

impl<'r, 'h> Iterator for CaptureMatches<'r, 'h> {
    ghost use Rattle.std.specs.Iterator.{item_count};
    ghost use Rattle.bites_bytes.specs.Hints.{IsHint};
    ghost use Rattle.bites_spec.specs.Refused.{YieldsUntilRefused};
    ghost use Rattle.regex_bites.specs.CapturesLeft.{captures_left};

    type Item = Result<Captures<'h>, AllocError>;

    ghost next_gives = { YieldsUntilRefused (λ c. c) captures_left };

    ghost remaining = { item_count captures_left };

    fn next(&mut self) -> Option<Result<Captures<'h>, AllocError>> {
        self.step()
    }

    fn size_hint(&self) -> (usize, Option<usize>)
        ensures { IsHint captures_left self.now result (0, None) }
    {
        (0, None)
    }
}

impl<'r, 'h> FusedIterator for CaptureMatches<'r, 'h> {}

impl Regex {
    ghost use Rattle.regex_bites.specs.CapturesLeft.{captures_left};

    /// Returns an iterator over the groups of the successive matches, which are those of [`Regex::find_iter`]. The
    /// error is out of memory for the cache of the iterator.
    ///
    /// ```rust
    /// let regex = Regex::new(rt.alloc(), "a(b)?")?;
    /// let mut participates = Vec::new(rt.alloc());
    /// for captures in regex.captures_iter("ab a")? {
    ///     participates.push(captures?.get(1).is_some())?;
    /// }
    /// assert_eq!(rt; participates.as_slice(), [true, false].as_slice());
    /// ```
    pub fn captures_iter<'r, 'h>(
        &'r self,
        haystack: &'h str,
    ) -> Result<CaptureMatches<'r, 'h>, AllocError>
        ensures { IfOk result (λ m. captures_left m ≡ captures_in self.now haystack.now) }
    {
        CaptureMatches::new(self, haystack)
    }
}

impl<'r, 'h> fmt::Debug for CaptureMatches<'r, 'h> {
    fn fmt<W: fmt::Write>(&self, f: &mut fmt::Formatter<W>) -> fmt::Result {
        f.debug_struct("CaptureMatches")
            .field("haystack", &self.haystack)
            .finish_non_exhaustive()
    }
}
