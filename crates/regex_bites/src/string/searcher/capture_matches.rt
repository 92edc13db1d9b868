//! The groups of the successive matches in a text, by the memory of a searcher.

ghost use Rattle.std.specs.Prelude.{None, IsCharBoundary};
ghost use Rattle.std.specs.Option.{ForSome};
ghost use Rattle.bites_spec.specs.Iteration.{captures_in};

use crate::string::{Captures, Searcher};
use std::alloc::AllocError;
use std::fmt;
use std::iter::FusedIterator;

/// An iterator over the groups of the successive matches, from left to right. [`Searcher::captures_iter`] makes it.
///
/// An item is an error if memory runs out for its groups. No item comes after an error.
#[derive(Drop)]
pub struct CaptureMatches<'s, 'h> {
    searcher: &'s mut Searcher,
    haystack: &'h str,
    // Where the last match ended, if there was one.
    last: Option<usize>,
    // Whether memory ran out.
    refused: bool,
    pub ghost border: { ForSome last (IsCharBoundary haystack.now) },
}

impl<'s, 'h> Iterator for CaptureMatches<'s, 'h> {
    ghost use Rattle.std.specs.Iterator.{item_count};
    ghost use Rattle.bites_bytes.specs.Hints.{IsHint};
    ghost use Rattle.regex_bites.specs.SearcherCaptures.{Steps, captures_left};

    type Item = Result<Captures<'h>, AllocError>;

    ghost next_gives = { Steps };

    ghost remaining = { item_count captures_left };

    fn next(&mut self) -> Option<Result<Captures<'h>, AllocError>> {
        if self.refused {
            return None;
        }
        match self.searcher.captures_next(self.haystack, self.last)? {
            Ok(captures) => {
                self.last = Some(captures.whole().end());
                Some(Ok(captures))
            }
            Err(refusal) => {
                self.refused = true;
                Some(Err(refusal))
            }
        }
    }

    fn size_hint(&self) -> (usize, Option<usize>)
        ensures { IsHint captures_left self.now result (0, None) }
    {
        (0, None)
    }
}

impl<'s, 'h> FusedIterator for CaptureMatches<'s, 'h> {}

impl Searcher {
    ghost use Rattle.regex_bites.specs.SearcherCaptures.{Borrows};

    /// Returns an iterator over the groups of the successive matches, like [`Regex::captures_iter`]. It allocates
    /// nothing; each item allocates its groups.
    ///
    /// ```rust
    /// let mut searcher = Searcher::new(Regex::new(rt.alloc(), "a(b)?")?)?;
    /// let mut participates = Vec::new(rt.alloc());
    /// for captures in searcher.captures_iter("ab a") {
    ///     participates.push(captures?.get(1).is_some())?;
    /// }
    /// assert_eq!(rt; participates.as_slice(), [true, false].as_slice());
    /// ```
    ///
    /// For proofs: the searcher is the same after the iterator as before it, by the parts `same_reference` and
    /// `stays`.
    pub fn captures_iter<'s, 'h>(&'s mut self, haystack: &'h str) -> CaptureMatches<'s, 'h>
        ensures { Borrows (captures_in self.old haystack.now) self.entry.ghost_name self.old result }
    {
        CaptureMatches {
            searcher: self,
            haystack,
            last: None,
            refused: false,
        }
    }
}

impl<'s, 'h> fmt::Debug for CaptureMatches<'s, 'h> {
    fn fmt<W: fmt::Write>(&self, f: &mut fmt::Formatter<W>) -> fmt::Result {
        f.debug_struct("CaptureMatches")
            .field("haystack", &self.haystack)
            .field("last", &self.last)
            .field("refused", &self.refused)
            .finish_non_exhaustive()
    }
}
