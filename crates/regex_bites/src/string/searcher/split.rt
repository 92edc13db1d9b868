//! The pieces of a text between its matches, by the memory of a searcher.

ghost use Rattle.std.specs.Prelude.{◌≡◌, None, unwrap_or, IsCharBoundary};
ghost use Rattle.bites_spec.specs.Iteration.{pieces_in};
ghost use Rattle.regex_bites.specs.Searcher.{haystack_of, last_of};

use crate::string::Searcher;
use crate::string::searcher::Matches;
use std::iter::FusedIterator;

/// An iterator over the pieces between the successive matches. [`Searcher::split`] makes it.
///
/// There is one more piece than there are matches.
#[derive(Debug, Drop)]
pub struct Split<'s, 'h> {
    matches: Matches<'s, 'h>,
    // Where the next piece begins: at the end of the match before, if there was one.
    begin: usize,
    // Whether the last piece was returned.
    done: bool,
    ghost border: { IsCharBoundary (haystack_of matches) begin },
    ghost behind: { begin ≡ unwrap_or (last_of matches) 0 },
}

impl<'s, 'h> Split<'s, 'h> {
    ghost use Rattle.regex_bites.specs.SearcherSplit.{Steps};

    // Returns the next piece.
    fn step(&mut self) -> Option<&'h str>
        ensures { Steps self.old result self.new }
    {
        if self.done {
            return None;
        }
        let haystack = self.matches.haystack;
        let begin = self.begin;
        match self.matches.step() {
            Some(found) => {
                self.begin = found.end();
                Some(&haystack[begin..found.start()])
            }
            None => {
                self.done = true;
                Some(&haystack[begin..haystack.len()])
            }
        }
    }
}

impl<'s, 'h> Iterator for Split<'s, 'h> {
    ghost use Rattle.std.specs.Iterator.{item_count};
    ghost use Rattle.bites_bytes.specs.Hints.{IsHint};
    ghost use Rattle.regex_bites.specs.SearcherSplit.{Steps, pieces_left};

    type Item = &'h str;

    ghost next_gives = { Steps };

    ghost remaining = { item_count pieces_left };

    fn next(&mut self) -> Option<&'h str> {
        self.step()
    }

    fn size_hint(&self) -> (usize, Option<usize>)
        ensures { IsHint pieces_left self.now result (0, None) }
    {
        (0, None)
    }
}

impl<'s, 'h> FusedIterator for Split<'s, 'h> {}

impl Searcher {
    ghost use Rattle.regex_bites.specs.SearcherSplit.{Borrows};

    /// Returns an iterator over the pieces between the matches, like [`Regex::split`]. It allocates nothing.
    ///
    /// ```rust
    /// let mut searcher = Searcher::new(Regex::new(rt.alloc(), r",\s*")?)?;
    /// let mut lengths = Vec::new(rt.alloc());
    /// for piece in searcher.split("a, bc,,") {
    ///     lengths.push(piece.len())?;
    /// }
    /// assert_eq!(rt; lengths.as_slice(), [1, 2, 0, 0].as_slice());
    /// ```
    ///
    /// For proofs: the searcher is the same after the iterator as before it, by the parts `same_reference` and
    /// `stays`.
    pub fn split<'s, 'h>(&'s mut self, haystack: &'h str) -> Split<'s, 'h>
        ensures { Borrows (pieces_in self.old haystack.now) self.entry.ghost_name self.old result }
    {
        Split {
            matches: Matches::new(self, haystack),
            begin: 0,
            done: false,
        }
    }
}
