//! The successive matches in a haystack.

ghost use Rattle.std.specs.Prelude.{◌≡◌, ◌≤◌, ◌<◌, ◌^◌, IfOk, length, None, map, unwrap_or, is_some};
ghost use Rattle.std.specs.Option.{ForSome};
ghost use Rattle.bites_spec.specs.Counts.{fit_of};
ghost use Rattle.bites_spec.specs.Captured.{excerpt};
ghost use Rattle.bites_spec.specs.Iteration.{spans_in};
ghost use Rattle.bites_bytes.specs.Calls.{BothFit, KeepsAnd};

use crate::bytes::{Cache, CaptureLocations, Match, Regex};
use std::alloc::AllocError;
use std::fmt;
use std::iter::FusedIterator;

// A position among the successive matches, where the next search goes on. The caller gives each search its cache.
#[derive(Drop)]
pub(super) struct Cursor<'r, 'h> {
    pub(super) regex: &'r Regex,
    pub(super) haystack: &'h [u8],
    // Where the last match ended, if there was one.
    last: Option<usize>,
    pub ghost within: { ForSome last (λ e. e ≤ length haystack.now) },
    pub ghost bounded: { length haystack.now < 2 ^ 63 },
}

impl<'r, 'h> Cursor<'r, 'h> {
    ghost use Rattle.bites_bytes.specs.Matches.{Begins, IsLastEnd, StepsTo, StepsWith, regex_of, haystack_of, last_of};

    // Returns a cursor before the first match.
    pub(super) fn new(regex: &'r Regex, haystack: &'h [u8]) -> Cursor<'r, 'h>
        ensures { Begins regex.now haystack.now result }
    {
        Cursor {
            regex,
            haystack,
            last: None,
        }
    }

    // Returns whether a match was found already.
    pub(super) fn has_begun(&self) -> bool
        ensures { result ≡ is_some (last_of self.now) }
    {
        self.last.is_some()
    }

    // Returns where the last match ended, or 0 before the first.
    pub(super) fn end_of_last(&self) -> usize
        ensures { IsLastEnd (haystack_of self.now) (last_of self.now) result }
    {
        self.last.unwrap_or(0)
    }

    // Returns the next match.
    pub(super) fn step(&mut self, cache: &mut Cache) -> Option<Match<'h>>
        requires { cache.old.fits ≡ fit_of (regex_of self.old).program }
        ensures { KeepsAnd cache.old.fits cache.new.fits (StepsTo self.old result self.new) }
    {
        let found = self.regex.find_next_with(cache, self.haystack, self.last)?;
        self.last = Some(found.end());
        Some(found)
    }

    // Like [`Cursor::step`], but also writes the slots of the match into the locations.
    pub(super) fn step_with(
        &mut self,
        cache: &mut Cache,
        locations: &mut CaptureLocations,
    ) -> Option<Match<'h>>
        requires { BothFit (regex_of self.old) cache.old locations.old }
        ensures { KeepsAnd cache.old.fits cache.new.fits
            (StepsWith self.old result self.new locations.old locations.new) }
    {
        let (regex, haystack) = (self.regex, self.haystack);
        let found = regex.captures_read_next_with(cache, locations, haystack, self.last)?;
        self.last = Some(found.end());
        Some(found)
    }
}

/// An iterator over the successive matches, from left to right.
///
/// Each search continues where the match before it ended. An empty match right there is dropped, and the search
/// continues one character later. No search allocates.
pub struct Matches<'r, 'h> {
    pub(super) cursor: Cursor<'r, 'h>,
    cache: Cache,
    pub ghost fits: { cache.fits ≡ fit_of cursor.regex.now.program },
}

// A caller that drops one relies on this function, and on no type below it.
impl<'r, 'h> Drop for Matches<'r, 'h> {
    fn drop(self) {
        let Matches {
            cursor: _,
            cache: _,
        } = self;
    }
}

impl<'r, 'h> Matches<'r, 'h> {
    ghost use Rattle.bites_bytes.specs.Matches.{Begins, StepsTo, StepsWith, cursor_of, matches_left, regex_of_matches};

    pub(super) fn new(regex: &'r Regex, haystack: &'h [u8]) -> Result<Matches<'r, 'h>, AllocError>
        ensures { IfOk result (λ m. Begins regex.now haystack.now (cursor_of m)) }
    {
        Ok(Matches {
            cursor: Cursor::new(regex, haystack),
            cache: regex.cache()?,
        })
    }

    // Returns the next match, and writes its slots into the locations.
    pub(super) fn step_with(&mut self, locations: &mut CaptureLocations) -> Option<Match<'h>>
        requires { length locations.old ≡ (regex_of_matches self.old).program.slots }
        ensures { StepsWith (cursor_of self.old) result (cursor_of self.new) locations.old locations.new }
    {
        self.cursor.step_with(&mut self.cache, locations)
    }

    // Returns the next match.
    pub(super) fn step(&mut self) -> Option<Match<'h>>
        ensures { StepsTo (cursor_of self.old) result (cursor_of self.new) }
    {
        self.cursor.step(&mut self.cache)
    }

    /// Returns the number of matches that are left. It searches for each of them, and allocates nothing.
    pub fn count(mut self) -> usize
        ensures left { result ≡ length (matches_left self.entry) }
        ensures bound { result ≤ 2 ^ 63 }
    {
        let mut number = 0;
        while self.step().is_some() {
            number += 1;
        }
        number
    }
}

impl<'r, 'h> Iterator for Matches<'r, 'h> {
    ghost use Rattle.std.specs.Iterator.{YieldsFirstBy, item_count};
    ghost use Rattle.bites_bytes.specs.Hints.{IsHint};
    ghost use Rattle.bites_bytes.specs.Matched.{excerpt_of};
    ghost use Rattle.bites_bytes.specs.Matches.{matches_left};

    type Item = Match<'h>;

    ghost next_gives = { YieldsFirstBy excerpt_of matches_left };

    ghost remaining = { item_count matches_left };

    fn next(&mut self) -> Option<Match<'h>> {
        self.step()
    }

    fn size_hint(&self) -> (usize, Option<usize>)
        ensures { IsHint matches_left self.now result (0, None) }
    {
        (0, None)
    }
}

impl<'r, 'h> FusedIterator for Matches<'r, 'h> {}

impl Regex {
    ghost use Rattle.bites_bytes.specs.Matches.{matches_left};

    /// Returns an iterator over the successive matches, which don't overlap. The error is out of memory for the cache
    /// of the iterator; its items cannot fail.
    ///
    /// A search may read to the end of the haystack, so at worst all searches take time that grows with the square of
    /// its length.
    ///
    /// ```rust
    /// let regex = Regex::new(rt.alloc(), "a*")?;
    /// let mut ends = Vec::new(rt.alloc());
    /// for found in regex.find_iter(b"aab")? {
    ///     ends.push(found.end())?;
    /// }
    /// assert_eq!(rt; ends.as_slice(), [2, 3].as_slice());
    /// ```
    pub fn find_iter<'r, 'h>(&'r self, haystack: &'h [u8]) -> Result<Matches<'r, 'h>, AllocError>
        ensures { IfOk result (λ m. matches_left m
            ≡ map (excerpt haystack.now) (spans_in self.now haystack.now)) }
    {
        Matches::new(self, haystack)
    }
}

impl<'r, 'h> fmt::Debug for Matches<'r, 'h> {
    fn fmt<W: fmt::Write>(&self, f: &mut fmt::Formatter<W>) -> fmt::Result {
        f.debug_struct("Matches")
            .field("regex", &self.cursor.regex)
            .field("haystack", &self.cursor.haystack)
            .field("last", &self.cursor.last)
            .finish_non_exhaustive()
    }
}
