//! Which patterns of a set match, and what the set's patterns are.

ghost use Rattle.std.specs.Prelude.{◌≡◌, ◌↔◌, ◌<◌, ◌==◌, ℕ, true, length, slice_get, IsTrue, Some};
ghost use Rattle.bites_spec.specs.Set.{numbers_from};

use std::alloc::AllocError;
use std::fmt;
use std::iter::FusedIterator;
use std::marker::Model;

/// Which patterns of a set match a haystack.
///
/// For proofs: a contract sees for each pattern whether it matches.
#[derive(Drop)]
pub struct SetMatches {
    matched: Vec<bool>,
}

impl Model for SetMatches {
    ghost use Rattle.std.specs.Prelude.{Bool, List};

    ghost Value = { List Bool };

    ghost view = { λ a. a.matched.items };
}

impl SetMatches {
    pub(super) fn of(matched: Vec<bool>) -> SetMatches
        ensures { result ≡ matched.items }
    {
        SetMatches { matched }
    }

    /// Returns whether any pattern matches.
    pub fn matched_any(&self) -> bool
        ensures { IsTrue result ↔ ((k : ℕ) × (slice_get self.now k ≡ Some true)) }
    {
        self.matched.contains(&true)
    }

    /// Returns whether all patterns match.
    pub fn matched_all(&self) -> bool
        ensures { IsTrue result ↔ ((k : ℕ) → k < length self.now → slice_get self.now k ≡ Some true) }
    {
        !self.matched.contains(&false)
    }

    /// Returns whether the pattern with this number matches. Patterns are numbered from 0 on, in the order in which
    /// they were given.
    pub fn matched(&self, index: usize) -> bool
        requires { index < length self.now }
        ensures { IsTrue result ↔ (slice_get self.now index ≡ Some true) }
    {
        self.matched[index]
    }

    /// Returns the number of patterns, whether they match or not.
    pub fn len(&self) -> usize
        ensures { result ≡ length self.now }
    {
        self.matched.len()
    }

    /// Returns whether the set has no patterns.
    pub fn is_empty(&self) -> bool
        ensures { result ≡ (length self.now == 0) }
    {
        self.matched.is_empty()
    }

    /// Returns an iterator over the numbers of the patterns that match, in ascending order.
    ///
    /// ```rust
    /// let set = RegexSet::new(rt.alloc(), &["a", "b", "c"])?;
    /// let matches = set.matches(b"cab")?;
    /// assert_eq!(rt; matches.iter().last(), Some(2));
    /// ```
    pub fn iter(&self) -> SetMatchesIter<'_>
        ensures { result ≡ numbers_from 0 self.now }
    {
        SetMatchesIter {
            matched: self.matched.as_slice(),
            next: 0,
        }
    }
}

/// An iterator over the numbers of the patterns that match, in ascending order.
///
/// For proofs: a contract sees the numbers that are left.
#[derive(Drop)]
pub struct SetMatchesIter<'m> {
    matched: &'m [bool],
    next: usize,
}

impl<'m> Model for SetMatchesIter<'m> {
    ghost use Rattle.std.specs.Prelude.{◌≤◌, ℕ, List, drop, length};
    ghost use Rattle.bites_spec.specs.Set.{numbers_from};

    ghost Value = { List ℕ };

    ghost view = { λ a. numbers_from a.next (drop a.next a.matched.now) };

    ghost invariant = { λ a. a.next ≤ length a.matched.now };
}

impl<'m> Iterator for SetMatchesIter<'m> {
    ghost use Rattle.std.specs.Iterator.{YieldsFirst, item_count};
    ghost use Rattle.bites_bytes.specs.Names.{every};

    type Item = usize;

    ghost next_gives = { YieldsFirst every };

    ghost remaining = { item_count every };

    fn next(&mut self) -> Option<usize> {
        while self.next < self.matched.len() {
            let number = self.next;
            self.next += 1;
            if self.matched[number] {
                return Some(number);
            }
        }
        None
    }
}

impl<'m> FusedIterator for SetMatchesIter<'m> {}

impl<'m> Clone for SetMatchesIter<'m> {
    ghost use Rattle.std.specs.Prelude.{⊤};

    ghost is_clone = { λ numbers copy. copy ≡ numbers };

    ghost is_infallible = { λ _. ⊤ };

    /// Returns an iterator over the same numbers. It allocates nothing and cannot fail.
    fn clone(&self) -> Result<SetMatchesIter<'m>, AllocError> {
        Ok(SetMatchesIter {
            matched: self.matched,
            next: self.next,
        })
    }
}

impl<'m> fmt::Debug for SetMatchesIter<'m> {
    fn fmt<W: fmt::Write>(&self, f: &mut fmt::Formatter<W>) -> fmt::Result {
        f.debug_struct("SetMatchesIter")
            .field("matched", &self.matched)
            .field("next", &self.next)
            .finish()
    }
}

impl fmt::Debug for SetMatches {
    fn fmt<W: fmt::Write>(&self, f: &mut fmt::Formatter<W>) -> fmt::Result {
        f.write_str("SetMatches(")?;
        f.debug_list().entries(self.iter()).finish()?;
        f.write_str(")")
    }
}
