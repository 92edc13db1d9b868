//! The pieces of a haystack between its matches.

ghost use Rattle.std.specs.Prelude.{◌≡◌, true, length, IfOk, None};
ghost use Rattle.bites_spec.specs.Iteration.{pieces_in, pieces_up_to};

use crate::bytes::{Matches, Regex};
use std::alloc::AllocError;
use std::iter::FusedIterator;

/// An iterator over the pieces between the successive matches. There is one more piece than there are matches.
#[derive(Debug)]
pub struct Split<'r, 'h> {
    matches: Matches<'r, 'h>,
    // Whether the last piece was returned.
    done: bool,
}

// A caller that drops one relies on this function, and on no type below it.
impl<'r, 'h> Drop for Split<'r, 'h> {
    fn drop(self) {
        let Split {
            matches: _,
            done: _,
        } = self;
    }
}

impl<'r, 'h> Split<'r, 'h> {
    ghost use Rattle.std.specs.Iterator.{YieldsFirstBy};
    ghost use Rattle.bites_bytes.specs.Split.{StepsOn, pieces_by, pieces_left, bytes_at};
    ghost use Rattle.std.specs.Prelude.{[]};

    // Returns the next piece.
    fn step(&mut self) -> Option<&'h [u8]>
        ensures { StepsOn self.old result self.new }
    {
        if self.done {
            return None;
        }
        let haystack = self.matches.cursor.haystack;
        let begin = self.matches.cursor.end_of_last();
        match self.matches.step() {
            Some(found) => Some(&haystack[begin..found.start()]),
            None => {
                self.done = true;
                Some(&haystack[begin..haystack.len()])
            }
        }
    }

    // Returns the rest of the haystack as the last piece.
    fn rest(&mut self) -> Option<&'h [u8]>
        ensures steps { YieldsFirstBy bytes_at (λ s. pieces_by s []) self.old result self.new }
        ensures done { self.new.done ≡ true }
    {
        if self.done {
            return None;
        }
        self.done = true;
        let haystack = self.matches.cursor.haystack;
        Some(&haystack[self.matches.cursor.end_of_last()..haystack.len()])
    }

    /// Returns the number of pieces that are left. It searches for each match that is left, and allocates nothing.
    pub fn count(self) -> usize
        ensures { result ≡ length (pieces_left self.entry) }
    {
        let Split { matches, done } = self;
        if done {
            return 0;
        }
        matches.count() + 1
    }
}

impl<'r, 'h> Iterator for Split<'r, 'h> {
    ghost use Rattle.std.specs.Iterator.{YieldsFirstBy, item_count};
    ghost use Rattle.bites_bytes.specs.Hints.{IsHint};
    ghost use Rattle.bites_bytes.specs.Split.{pieces_left, bytes_at};

    type Item = &'h [u8];

    ghost next_gives = { YieldsFirstBy bytes_at pieces_left };

    ghost remaining = { item_count pieces_left };

    fn next(&mut self) -> Option<&'h [u8]> {
        self.step()
    }

    fn size_hint(&self) -> (usize, Option<usize>)
        ensures { IsHint pieces_left self.now result (0, None) }
    {
        (0, None)
    }
}

impl<'r, 'h> FusedIterator for Split<'r, 'h> {}

/// An iterator over at most a given number of pieces. The last of them is the whole rest of the haystack.
#[derive(Debug)]
pub struct SplitN<'r, 'h> {
    split: Split<'r, 'h>,
    // How many pieces may still come.
    left: usize,
}

// A caller that drops one relies on this function, and on no type below it.
impl<'r, 'h> Drop for SplitN<'r, 'h> {
    fn drop(self) {
        let SplitN { split: _, left: _ } = self;
    }
}

impl<'r, 'h> SplitN<'r, 'h> {
    ghost use Rattle.std.specs.Iterator.{YieldsFirstBy};
    ghost use Rattle.bites_bytes.specs.Split.{limited_left, bytes_at};

    // Returns the next piece: the whole rest, if no more may come after it.
    fn step(&mut self) -> Option<&'h [u8]>
        ensures { YieldsFirstBy bytes_at limited_left self.old result self.new }
    {
        if self.left == 0 {
            return None;
        }
        self.left -= 1;
        if self.left == 0 {
            self.split.rest()
        } else {
            self.split.step()
        }
    }

    /// Returns the number of pieces that are left. It searches for the matches between them, and allocates nothing.
    pub fn count(mut self) -> usize
        ensures { result ≡ length (limited_left self.entry) }
    {
        let limit = self.left;
        let mut number = 0;
        while number < limit && self.step().is_some() {
            number += 1;
        }
        number
    }
}

impl<'r, 'h> Iterator for SplitN<'r, 'h> {
    ghost use Rattle.std.specs.Iterator.{YieldsFirstBy, item_count};
    ghost use Rattle.bites_bytes.specs.Hints.{IsHint};
    ghost use Rattle.bites_bytes.specs.Split.{limited_left, bytes_at};

    type Item = &'h [u8];

    ghost next_gives = { YieldsFirstBy bytes_at limited_left };

    ghost remaining = { item_count limited_left };

    fn next(&mut self) -> Option<&'h [u8]> {
        self.step()
    }

    fn size_hint(&self) -> (usize, Option<usize>)
        ensures { IsHint limited_left self.now result (0, None) }
    {
        (0, None)
    }
}

impl<'r, 'h> FusedIterator for SplitN<'r, 'h> {}

impl Regex {
    ghost use Rattle.bites_bytes.specs.Split.{pieces_left, limited_left};

    /// Returns an iterator over the pieces between the matches. The error is out of memory for the cache of the
    /// iterator.
    ///
    /// ```rust
    /// let regex = Regex::new(rt.alloc(), ",")?;
    /// let mut lengths = Vec::new(rt.alloc());
    /// for piece in regex.split(b"ab,,\xFF")? {
    ///     lengths.push(piece.len())?;
    /// }
    /// assert_eq!(rt; lengths.as_slice(), [2, 0, 1].as_slice());
    /// ```
    pub fn split<'r, 'h>(&'r self, haystack: &'h [u8]) -> Result<Split<'r, 'h>, AllocError>
        ensures { IfOk result (λ s. pieces_left s ≡ pieces_in self.now haystack.now) }
    {
        Ok(Split {
            matches: Matches::new(self, haystack)?,
            done: false,
        })
    }

    /// Returns an iterator over at most `limit` pieces. The last one is the whole rest of the haystack. With
    /// `limit` 0 there are none. The error is out of memory for the cache of the iterator.
    ///
    /// ```rust
    /// let regex = Regex::new(rt.alloc(), ",")?;
    /// let mut lengths = Vec::new(rt.alloc());
    /// for piece in regex.splitn(b"a,b,\xFF", 2)? {
    ///     lengths.push(piece.len())?;
    /// }
    /// assert_eq!(rt; lengths.as_slice(), [1, 3].as_slice());
    /// ```
    pub fn splitn<'r, 'h>(
        &'r self,
        haystack: &'h [u8],
        limit: usize,
    ) -> Result<SplitN<'r, 'h>, AllocError>
        ensures { IfOk result (λ s. limited_left s ≡ pieces_up_to self.now haystack.now limit) }
    {
        let split = Split {
            matches: Matches::new(self, haystack)?,
            done: false,
        };
        Ok(SplitN { split, left: limit })
    }
}
