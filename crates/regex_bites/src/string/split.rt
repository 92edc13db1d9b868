//! The pieces of a text between its matches.

ghost use Rattle.std.specs.Prelude.{◌≡◌, true, ℕ, length, IfOk, None, IsCharBoundary};
ghost use Rattle.bites_spec.specs.Iteration.{pieces_in, pieces_up_to};
ghost use Rattle.regex_bites.specs.Order.{BeginFrom, BeginFrom-prop};
ghost use Rattle.regex_bites.specs.Matches.{haystack_of_matches, spans_left};

use crate::string::{Matches, Regex};
use std::alloc::AllocError;
use std::iter::FusedIterator;

/// An iterator over the pieces between the successive matches. There is one more piece than there are matches.
#[derive(Debug)]
pub struct Split<'r, 'h> {
    matches: Matches<'r, 'h>,
    // Where the next piece begins: at the end of the match before, if there was one.
    begin: usize,
    // Whether the last piece was returned.
    done: bool,
    ghost border: { IsCharBoundary (haystack_of_matches matches) begin },
    ghost in_order: { BeginFrom begin (spans_left matches) } by { BeginFrom-prop begin (spans_left matches) },
}

// A caller that drops one relies on this function, and on no type below it.
impl<'r, 'h> Drop for Split<'r, 'h> {
    fn drop(self) {
        let Split {
            matches: _,
            begin: _,
            done: _,
        } = self;
    }
}

impl<'r, 'h> Split<'r, 'h> {
    ghost use Rattle.std.specs.Iterator.{YieldsFirstBy};
    ghost use Rattle.regex_bites.specs.Split.{StepsOn, pieces_by, pieces_left, at_most_left, text_now};
    ghost use Rattle.std.specs.Prelude.{[]};

    // Returns an iterator that has returned no piece yet.
    fn new(regex: &'r Regex, haystack: &'h str) -> Result<Split<'r, 'h>, AllocError>
        ensures all { IfOk result (λ s. pieces_left s ≡ pieces_in regex.now haystack.now) }
        ensures limited { IfOk result (λ s. (n : ℕ)
            → at_most_left n s ≡ pieces_up_to regex.now haystack.now n) }
    {
        Ok(Split {
            matches: Matches::new(regex, haystack)?,
            begin: 0,
            done: false,
        })
    }

    // Returns the next piece.
    fn step(&mut self) -> Option<&'h str>
        ensures { StepsOn self.old result self.new }
    {
        if self.done {
            return None;
        }
        let haystack = self.matches.haystack;
        let begin = self.begin;
        match self.matches.step() {
            Some(found) => {
                self.begin = found.end();
                Some(&haystack[begin..found.start()])
            }
            None => {
                self.done = true;
                Some(&haystack[begin..haystack.len()])
            }
        }
    }

    // Returns the rest of the haystack as the last piece.
    fn rest(&mut self) -> Option<&'h str>
        ensures steps { YieldsFirstBy text_now (λ s. pieces_by s []) self.old result self.new }
        ensures done { self.new.done ≡ true }
    {
        if self.done {
            return None;
        }
        self.done = true;
        let haystack = self.matches.haystack;
        Some(&haystack[self.begin..haystack.len()])
    }

    /// Returns the number of pieces that are left. It searches for each match that is left, and allocates nothing.
    pub fn count(self) -> usize
        ensures { result ≡ length (pieces_left self.entry) }
    {
        let Split {
            matches,
            begin: _,
            done,
        } = self;
        if done {
            return 0;
        }
        matches.count() + 1
    }
}

impl<'r, 'h> Iterator for Split<'r, 'h> {
    ghost use Rattle.std.specs.Iterator.{YieldsFirstBy, item_count};
    ghost use Rattle.bites_bytes.specs.Hints.{IsHint};
    ghost use Rattle.regex_bites.specs.Split.{pieces_left, text_now};

    type Item = &'h str;

    ghost next_gives = { YieldsFirstBy text_now pieces_left };

    ghost remaining = { item_count pieces_left };

    fn next(&mut self) -> Option<&'h str> {
        self.step()
    }

    fn size_hint(&self) -> (usize, Option<usize>)
        ensures { IsHint pieces_left self.now result (0, None) }
    {
        (0, None)
    }
}

impl<'r, 'h> FusedIterator for Split<'r, 'h> {}

/// An iterator over at most a given number of pieces. The last of them is the whole rest of the haystack.
#[derive(Debug)]
pub struct SplitN<'r, 'h> {
    split: Split<'r, 'h>,
    // How many pieces may still come.
    left: usize,
}

// A caller that drops one relies on this function, and on no type below it.
impl<'r, 'h> Drop for SplitN<'r, 'h> {
    fn drop(self) {
        let SplitN { split: _, left: _ } = self;
    }
}

impl<'r, 'h> SplitN<'r, 'h> {
    ghost use Rattle.std.specs.Iterator.{YieldsFirstBy};
    ghost use Rattle.regex_bites.specs.Split.{limited_left, text_now};

    // Returns the next piece: the whole rest, if no more may come after it.
    fn step(&mut self) -> Option<&'h str>
        ensures { YieldsFirstBy text_now limited_left self.old result self.new }
    {
        if self.left == 0 {
            return None;
        }
        self.left -= 1;
        if self.left == 0 {
            self.split.rest()
        } else {
            self.split.step()
        }
    }

    /// Returns the number of pieces that are left. It searches for the matches between them, and allocates nothing.
    pub fn count(mut self) -> usize
        ensures { result ≡ length (limited_left self.entry) }
    {
        let limit = self.left;
        let mut number = 0;
        while number < limit && self.step().is_some() {
            number += 1;
        }
        number
    }
}

impl<'r, 'h> Iterator for SplitN<'r, 'h> {
    ghost use Rattle.std.specs.Iterator.{YieldsFirstBy, item_count};
    ghost use Rattle.bites_bytes.specs.Hints.{IsHint};
    ghost use Rattle.regex_bites.specs.Split.{limited_left, text_now};

    type Item = &'h str;

    ghost next_gives = { YieldsFirstBy text_now limited_left };

    ghost remaining = { item_count limited_left };

    fn next(&mut self) -> Option<&'h str> {
        self.step()
    }

    fn size_hint(&self) -> (usize, Option<usize>)
        ensures { IsHint limited_left self.now result (0, None) }
    {
        (0, None)
    }
}

impl<'r, 'h> FusedIterator for SplitN<'r, 'h> {}

impl Regex {
    ghost use Rattle.regex_bites.specs.Split.{pieces_left, limited_left};

    /// Returns an iterator over the pieces between the matches. The error is out of memory for the cache of the
    /// iterator.
    ///
    /// ```rust
    /// let regex = Regex::new(rt.alloc(), r",\s*")?;
    /// let pieces: Vec<&str> = regex.split("a, b,,c")?.collect(rt.alloc())?;
    /// assert_eq!(rt; pieces.as_slice(), ["a", "b", "", "c"].as_slice());
    /// ```
    pub fn split<'r, 'h>(&'r self, haystack: &'h str) -> Result<Split<'r, 'h>, AllocError>
        ensures { IfOk result (λ s. pieces_left s ≡ pieces_in self.now haystack.now) }
    {
        Split::new(self, haystack)
    }

    /// Returns an iterator over at most `limit` pieces. The last one is the whole rest of the haystack. With
    /// `limit` 0 there are none. The error is out of memory for the cache of the iterator.
    ///
    /// ```rust
    /// let regex = Regex::new(rt.alloc(), r",\s*")?;
    /// let pieces: Vec<&str> = regex.splitn("a, b, c", 2)?.collect(rt.alloc())?;
    /// assert_eq!(rt; pieces.as_slice(), ["a", "b, c"].as_slice());
    /// ```
    pub fn splitn<'r, 'h>(
        &'r self,
        haystack: &'h str,
        limit: usize,
    ) -> Result<SplitN<'r, 'h>, AllocError>
        ensures { IfOk result (λ s. limited_left s ≡ pieces_up_to self.now haystack.now limit) }
    {
        let split = Split::new(self, haystack)?;
        Ok(SplitN { split, left: limit })
    }
}
