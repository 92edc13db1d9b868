//! The patterns of a set.

ghost use Rattle.std.specs.Prelude.{◌≡◌, map, Some};

use crate::bytes::Regex;
use std::fmt;
use std::iter::FusedIterator;
use std::marker::Model;

/// An iterator over the patterns of a set, in the order in which they were given.
///
/// For proofs: a contract sees the patterns that are left.
#[derive(Drop)]
pub struct SetPatterns<'s> {
    regexes: &'s [Regex],
}

impl<'s> Model for SetPatterns<'s> {
    ghost use Rattle.std.specs.Prelude.{ℕ, List, map};

    ghost Value = { List (List ℕ) };

    ghost view = { λ a. map (λ r. r.pattern) a.regexes.now };
}

impl<'s> SetPatterns<'s> {
    pub(super) fn new(regexes: &'s [Regex]) -> SetPatterns<'s>
        ensures { result ≡ map (λ r. r.pattern) regexes.now }
    {
        SetPatterns { regexes }
    }
}

impl<'s> Iterator for SetPatterns<'s> {
    ghost use Rattle.std.specs.Iterator.{YieldsFirstBy, item_count};
    ghost use Rattle.bites_bytes.specs.Hints.{HintsExactly};
    ghost use Rattle.bites_bytes.specs.Names.{every};
    ghost use Rattle.bites_bytes.specs.Set.{bytes_of};

    type Item = &'s str;

    ghost next_gives = { YieldsFirstBy bytes_of every };

    ghost remaining = { item_count every };

    fn next(&mut self) -> Option<&'s str> {
        let (regex, rest) = self.regexes.split_first()?;
        self.regexes = rest;
        Some(regex.as_str())
    }

    fn size_hint(&self) -> (usize, Option<usize>)
        ensures { HintsExactly every self.now result }
    {
        (self.regexes.len(), Some(self.regexes.len()))
    }
}

impl<'s> ExactSizeIterator for SetPatterns<'s> {
    fn len(&self) -> usize {
        self.size_hint().0
    }
}

impl<'s> FusedIterator for SetPatterns<'s> {}

impl<'s> fmt::Debug for SetPatterns<'s> {
    fn fmt<W: fmt::Write>(&self, f: &mut fmt::Formatter<W>) -> fmt::Result {
        f.debug_struct("SetPatterns")
            .field("left", &self.regexes.len())
            .finish_non_exhaustive()
    }
}
