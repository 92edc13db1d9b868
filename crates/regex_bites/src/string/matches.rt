//! The successive matches in a text.

ghost use Rattle.std.specs.Prelude.{◌≡◌, ◌≤◌, ◌^◌, IfOk, length, None, map};
ghost use Rattle.bites_spec.specs.Regex.{IsCompiled};
ghost use Rattle.bites_spec.specs.Captured.{excerpt};
ghost use Rattle.bites_spec.specs.Iteration.{spans_in};
ghost use Rattle.bites_bytes.specs.Matches as over_bytes;
ghost use Rattle.std.specs.List.{AllByRecursion};
ghost use Rattle.std.proofs.Props.{props};
ghost use Rattle.regex_bites.specs.Borders.{IsPart};
ghost use Rattle.regex_bites.specs.Order.{BeginFrom};

use crate::string::{Match, Regex};
use bites_bytes::bytes;
use std::alloc::AllocError;
use std::fmt;
use std::iter::FusedIterator;

/// An iterator over the successive matches, from left to right.
///
/// Each search continues where the match before it ended. An empty match right there is dropped, and the search
/// continues one character later. No search allocates.
pub struct Matches<'r, 'h> {
    matches: bytes::Matches<'r, 'h>,
    pub(super) haystack: &'h str,
    pub ghost parts: { AllByRecursion (IsPart haystack.now) (over_bytes.matches_left matches) } by { Prim.hlevel props },
}

// A caller that drops one relies on this function, and on no type below it.
impl<'r, 'h> Drop for Matches<'r, 'h> {
    fn drop(self) {
        let Matches {
            matches: _,
            haystack: _,
        } = self;
    }
}

impl<'r, 'h> Matches<'r, 'h> {
    ghost use Rattle.std.specs.Iterator.{YieldsFirstBy};
    ghost use Rattle.regex_bites.specs.Matched.{excerpt_of};
    ghost use Rattle.regex_bites.specs.Matches.{matches_left, spans_left, haystack_of_matches};

    pub(super) fn new(regex: &'r Regex, haystack: &'h str) -> Result<Matches<'r, 'h>, AllocError>
        ensures left { IfOk result (λ m. matches_left m
            ≡ map (excerpt haystack.now) (spans_in regex.now haystack.now)) }
        ensures haystack { IfOk result (λ m. haystack_of_matches m ≡ haystack.now) }
        ensures in_order { IfOk result (λ m. BeginFrom 0 (spans_left m)) }
        ensures compiled { IsCompiled regex.now }
    {
        let regex = regex.over_bytes();
        let matches = regex.find_iter(haystack.as_bytes())?;
        Ok(Matches { matches, haystack })
    }

    // Returns the next match.
    pub(super) fn step(&mut self) -> Option<Match<'h>>
        ensures steps { YieldsFirstBy excerpt_of matches_left self.old result self.new }
        ensures same { haystack_of_matches self.new ≡ haystack_of_matches self.old }
    {
        let found = self.matches.next();
        Match::of_found(self.haystack, found)
    }

    /// Returns the number of matches that are left. It searches for each of them, and allocates nothing.
    pub fn count(self) -> usize
        ensures left { result ≡ length (matches_left self.entry) }
        ensures bound { result ≤ 2 ^ 63 }
    {
        let Matches {
            matches,
            haystack: _,
        } = self;
        matches.count()
    }
}

impl<'r, 'h> Iterator for Matches<'r, 'h> {
    ghost use Rattle.std.specs.Iterator.{YieldsFirstBy, item_count};
    ghost use Rattle.bites_bytes.specs.Hints.{IsHint};
    ghost use Rattle.regex_bites.specs.Matched.{excerpt_of};
    ghost use Rattle.regex_bites.specs.Matches.{matches_left};

    type Item = Match<'h>;

    ghost next_gives = { YieldsFirstBy excerpt_of matches_left };

    ghost remaining = { item_count matches_left };

    fn next(&mut self) -> Option<Match<'h>> {
        self.step()
    }

    fn size_hint(&self) -> (usize, Option<usize>)
        ensures { IsHint matches_left self.now result (0, None) }
    {
        (0, None)
    }
}

impl<'r, 'h> FusedIterator for Matches<'r, 'h> {}

impl Regex {
    ghost use Rattle.regex_bites.specs.Matches.{matches_left};

    /// Returns an iterator over the successive matches, which don't overlap. The error is out of memory for the cache
    /// of the iterator; its items cannot fail.
    ///
    /// A search may read to the end of the haystack, so at worst all searches take time that grows with the square of
    /// its length.
    ///
    /// ```rust
    /// let regex = Regex::new(rt.alloc(), "a*")?;
    /// let mut ends = Vec::new(rt.alloc());
    /// for found in regex.find_iter("aab")? {
    ///     ends.push(found.end())?;
    /// }
    /// assert_eq!(rt; ends.as_slice(), [2, 3].as_slice());
    /// ```
    pub fn find_iter<'r, 'h>(&'r self, haystack: &'h str) -> Result<Matches<'r, 'h>, AllocError>
        ensures { IfOk result (λ m. matches_left m
            ≡ map (excerpt haystack.now) (spans_in self.now haystack.now)) }
    {
        Matches::new(self, haystack)
    }
}

impl<'r, 'h> fmt::Debug for Matches<'r, 'h> {
    fn fmt<W: fmt::Write>(&self, f: &mut fmt::Formatter<W>) -> fmt::Result {
        f.debug_struct("Matches")
            .field("haystack", &self.haystack)
            .finish_non_exhaustive()
    }
}
