//! The successive matches in a text, by the memory of a searcher.

ghost use Rattle.std.specs.Prelude.{map, None, IsCharBoundary};
ghost use Rattle.std.specs.Option.{ForSome};
ghost use Rattle.bites_spec.specs.Captured.{excerpt};
ghost use Rattle.bites_spec.specs.Iteration.{spans_in};

use crate::string::{Match, Searcher};
use std::fmt;
use std::iter::FusedIterator;

/// An iterator over the successive matches, from left to right. [`Searcher::find_iter`] makes it.
///
/// Each search continues where the match before it ended. An empty match right there is dropped, and the search
/// continues one character later. No search allocates.
#[derive(Drop)]
pub struct Matches<'s, 'h> {
    searcher: &'s mut Searcher,
    pub(super) haystack: &'h str,
    // Where the last match ended, if there was one.
    last: Option<usize>,
    pub ghost border: { ForSome last (IsCharBoundary haystack.now) },
}

impl<'s, 'h> Matches<'s, 'h> {
    ghost use Rattle.regex_bites.specs.Searcher.{Begins, StepsTo};

    // Returns an iterator that has returned no match yet.
    pub(super) fn new(searcher: &'s mut Searcher, haystack: &'h str) -> Matches<'s, 'h>
        ensures { Begins searcher.entry.ghost_name searcher.old haystack.now result }
    {
        Matches {
            searcher,
            haystack,
            last: None,
        }
    }

    // Returns the next match.
    pub(super) fn step(&mut self) -> Option<Match<'h>>
        ensures { StepsTo self.old result self.new }
    {
        let found = self.searcher.find_next(self.haystack, self.last)?;
        self.last = Some(found.end());
        Some(found)
    }
}

impl<'s, 'h> Iterator for Matches<'s, 'h> {
    ghost use Rattle.std.specs.Iterator.{item_count};
    ghost use Rattle.bites_bytes.specs.Hints.{IsHint};
    ghost use Rattle.regex_bites.specs.Searcher.{Steps, matches_left};

    type Item = Match<'h>;

    ghost next_gives = { Steps };

    ghost remaining = { item_count matches_left };

    fn next(&mut self) -> Option<Match<'h>> {
        self.step()
    }

    fn size_hint(&self) -> (usize, Option<usize>)
        ensures { IsHint matches_left self.now result (0, None) }
    {
        (0, None)
    }
}

impl<'s, 'h> FusedIterator for Matches<'s, 'h> {}

impl Searcher {
    ghost use Rattle.regex_bites.specs.Searcher.{Borrows};

    /// Returns an iterator over the successive matches, which don't overlap, like [`Regex::find_iter`]. It allocates
    /// nothing.
    ///
    /// A search may read to the end of the haystack, so at worst all searches take time that grows with the square of
    /// its length.
    ///
    /// ```rust
    /// let mut searcher = Searcher::new(Regex::new(rt.alloc(), "a*")?)?;
    /// let mut ends = Vec::new(rt.alloc());
    /// for found in searcher.find_iter("aab") {
    ///     ends.push(found.end())?;
    /// }
    /// assert_eq!(rt; ends.as_slice(), [2, 3].as_slice());
    /// ```
    ///
    /// For proofs: the searcher is the same after the iterator as before it, by the parts `same_reference` and
    /// `stays`.
    pub fn find_iter<'s, 'h>(&'s mut self, haystack: &'h str) -> Matches<'s, 'h>
        ensures { Borrows (map (excerpt haystack.now) (spans_in self.old haystack.now)) self.entry.ghost_name self.old result }
    {
        Matches::new(self, haystack)
    }
}

impl<'s, 'h> fmt::Debug for Matches<'s, 'h> {
    fn fmt<W: fmt::Write>(&self, f: &mut fmt::Formatter<W>) -> fmt::Result {
        f.debug_struct("Matches")
            .field("haystack", &self.haystack)
            .field("last", &self.last)
            .finish_non_exhaustive()
    }
}
