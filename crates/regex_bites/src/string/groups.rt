//! An iterator over the groups of a match.

ghost use Rattle.std.specs.Prelude.{◌≡◌, Some};

use crate::string::{Captures, Match};
use std::iter::FusedIterator;

/// An iterator over the groups of one match, from group 0 on. An item is `None` if its group doesn't participate.
#[derive(Clone, Copy, Debug)]
pub struct SubCaptureMatches<'c, 'h> {
    captures: &'c Captures<'h>,
    next: usize,
}

impl<'h> Captures<'h> {
    ghost use Rattle.regex_bites.specs.Groups.{sub_captures_left};
    ghost use Rattle.bites_bytes.specs.Groups.{groups_of};

    /// Returns an iterator over the groups, from group 0 on. An item is `None` if its group doesn't participate.
    pub fn iter<'c>(&'c self) -> SubCaptureMatches<'c, 'h>
        ensures { sub_captures_left result ≡ groups_of self.now }
    {
        SubCaptureMatches {
            captures: self,
            next: 0,
        }
    }
}

impl<'c, 'h> Iterator for SubCaptureMatches<'c, 'h> {
    ghost use Rattle.std.specs.Iterator.{YieldsFirstBy, item_count};
    ghost use Rattle.bites_bytes.specs.Hints.{HintsExactly};
    ghost use Rattle.regex_bites.specs.Groups.{sub_captures_left, excerpt_if};

    type Item = Option<Match<'h>>;

    ghost next_gives = { YieldsFirstBy excerpt_if sub_captures_left };

    ghost remaining = { item_count sub_captures_left };

    fn next(&mut self) -> Option<Option<Match<'h>>> {
        if self.next >= self.captures.len() {
            return None;
        }
        let group = self.captures.get(self.next);
        self.next += 1;
        Some(group)
    }

    fn size_hint(&self) -> (usize, Option<usize>)
        ensures { HintsExactly sub_captures_left self.now result }
    {
        let left = self.len();
        (left, Some(left))
    }
}

impl<'c, 'h> ExactSizeIterator for SubCaptureMatches<'c, 'h> {
    fn len(&self) -> usize {
        self.captures.len().saturating_sub(self.next)
    }
}

impl<'c, 'h> FusedIterator for SubCaptureMatches<'c, 'h> {}
