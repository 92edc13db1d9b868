//! A set of patterns over texts.

ghost use Rattle.std.specs.Prelude.{◌≡◌, ◌↔◌, ◌==◌, [], length, map, is_some, IsTrue, IfOk};
ghost use Rattle.bites_spec.specs.Utf8.{places};
ghost use Rattle.bites_spec.specs.Set.{AreMatched, HasMatchOfAny, set_by_default, fits_of, fits_for};
ghost use Rattle.bites_bytes.specs.Calls.{KeepsAnd};
ghost use Rattle.regex_bites.specs.Borders.{MaySearchSet, MayStart, MayWriteSet};
ghost use Rattle.bites_bytes.specs.Set.{ArePrepared, BuildsSet, has_any_table};

use bites_bytes::bytes::{self, SetError, SetMatches, SetPatterns, TableSize};
use std::alloc::{AllocError, Global};
use std::fmt;
use std::marker::Model;

/// A set of patterns over texts. A search returns which of them match.
///
/// ```rust
/// let set = RegexSet::new(rt.alloc(), &["[a-z]+", r"\d+", "foo"])?;
/// let matches = set.matches("food")?;
/// let mut numbers = Vec::new(rt.alloc());
/// for number in matches.iter() {
///     numbers.push(number)?;
/// }
/// assert_eq!(rt; numbers.as_slice(), [0, 2].as_slice());
/// ```
///
/// A search of the set searches for each pattern in turn, so its time is the sum of theirs. With [`RegexSetBuilder::prefilter`] it
/// passes over a pattern that is known not to match by a literal.
///
/// For proofs: a contract sees the regex of each pattern.
pub struct RegexSet {
    set: bytes::RegexSet,
}

// A caller that drops one relies on this function, and on no type below it.
impl Drop for RegexSet {
    fn drop(self) {
        let RegexSet { set: _ } = self;
    }
}

impl Model for RegexSet {
    ghost use Rattle.std.specs.Coded.{codes};
    ghost use Rattle.std.specs.Prelude.{List};
    ghost use Rattle.bites_syntax.specs.TreeCode.{tree_code};
    ghost use Rattle.bites_spec.specs.Regex as spec;

    ghost Value = { List spec.Regex };

    ghost coded = { Prim.hlevel (codes, tree_code) };

    ghost view = { λ a. a.set };
}

/// The memory for searches of a set: one cache for each pattern. It is made by [`RegexSet::cache`] and reused by the
/// methods whose names end in `_with`.
///
/// For proofs: a contract sees which regexes each cache fits, and what its last search visited.
pub struct SetCache {
    cache: bytes::SetCache,
}

// A caller that drops one relies on this function, and on no type below it.
impl Drop for SetCache {
    fn drop(self) {
        let SetCache { cache: _ } = self;
    }
}

impl Model for SetCache {
    ghost use Rattle.std.specs.Prelude.{List};
    ghost use Rattle.bites_spec.specs.Counts.{Room};

    ghost Value = { List Room };

    ghost view = { λ a. a.cache };
}

impl SetCache {
    /// Returns whether searches of this set may use the cache. They may if the set has as many patterns as the one
    /// that it was made for, and each of its caches fits.
    pub fn fits(&self, set: &RegexSet) -> bool
        ensures { IsTrue result ↔ (fits_of self.now ≡ fits_for set.now) }
    {
        self.cache.fits(&set.set)
    }
}

impl RegexSet {
    /// Compiles patterns, with all flags off and the default limits of [`RegexSetBuilder::new`].
    ///
    /// The error names the first pattern that is refused, with the message of its first fault, or of the first limit
    /// that it exceeds. It may also be out of memory.
    ///
    /// ```rust
    /// let error = RegexSet::new(rt.alloc(), &["a", "(b"])
    ///     .err()
    ///     .ok_or("no error")?;
    /// assert_eq!(rt; error.index(), 1);
    /// assert_eq!(rt; error.error(), Error::UnclosedGroup);
    /// ```
    ///
    /// For proofs: a set is made exactly if the grammar reads each pattern as a tree and all limits hold for each,
    /// unless memory runs out.
    pub fn new(alloc: Global, patterns: &[&str]) -> Result<RegexSet, SetError>
        ensures { BuildsSet (set_by_default (map (λ p. p.now) patterns.now)) result }
    {
        Ok(RegexSet {
            set: bytes::RegexSet::new(alloc, patterns)?,
        })
    }

    /// Returns the set without patterns, which matches nothing. It allocates nothing.
    pub fn empty(alloc: Global) -> RegexSet
        ensures { result ≡ [] }
    {
        RegexSet {
            set: bytes::RegexSet::empty(alloc),
        }
    }

    // Returns the set over texts of these patterns and programs.
    pub(super) fn from_bytes(set: bytes::RegexSet) -> RegexSet
        ensures { result ≡ set }
    {
        RegexSet { set }
    }

    /// Returns the number of patterns.
    pub fn len(&self) -> usize
        ensures { result ≡ length self.now }
    {
        self.set.len()
    }

    /// Returns whether the set has no patterns.
    pub fn is_empty(&self) -> bool
        ensures { result ≡ (length self.now == 0) }
    {
        self.set.is_empty()
    }

    /// Returns an iterator over the patterns, in the order in which they were given.
    ///
    /// ```rust
    /// let set = RegexSet::new(rt.alloc(), &["a+", "b"])?;
    /// assert_eq!(rt; set.patterns().next(), Some("a+"));
    /// ```
    pub fn patterns(&self) -> SetPatterns<'_>
        ensures { result ≡ map (λ r. r.pattern) self.now }
    {
        self.set.patterns()
    }

    /// Returns a set with the same patterns and programs, with tables of at most so many bytes together as
    /// [`RegexSetBuilder::dfa_size_limit`] says, and with the switch of [`RegexSetBuilder::prefilter`]. It finds the same,
    /// and caches of the one fit the other.
    ///
    /// It shares the programs with this set. If the switch is set, and isn't set in this set, each pattern is read again to
    /// find its literal. The error is out of memory for the list of regexes. A pattern has no table if memory for that runs out.
    /// It has no literal if memory for its reading runs out, or if it exceeds the default of
    /// [`RegexSetBuilder::nest_limit`].
    ///
    /// ```rust
    /// let set = RegexSet::new(rt.alloc(), &["a+", "b"])?;
    /// let bare = set.prepared(0, false)?;
    /// assert!(rt; set.table_size().is_some() && bare.table_size().is_none());
    /// assert!(rt; bare.is_match("caa")?);
    /// ```
    pub fn prepared(&self, dfa_size_limit: usize, prefilter: bool) -> Result<RegexSet, AllocError>
        ensures { IfOk result (λ set. KeepsAnd (fits_for self.now) (fits_for set)
            (ArePrepared dfa_size_limit prefilter self.now set)) }
    {
        Ok(RegexSet {
            set: self.set.prepared(dfa_size_limit, prefilter)?,
        })
    }

    /// Returns how large the tables of all patterns are together, or `None` if no pattern has one.
    ///
    /// They are whole if each pattern has a table, and each transition of each table is known.
    pub fn table_size(&self) -> Option<TableSize>
        ensures { is_some result ≡ has_any_table self.now }
    {
        self.set.table_size()
    }

    /// Allocates a cache for the methods whose names end in `_with`. The error is out of memory.
    ///
    /// Make it once and reuse it. No search makes it larger.
    ///
    /// ```rust
    /// let set = RegexSet::new(rt.alloc(), &["a", "b"])?;
    /// let mut cache = set.cache()?;
    /// assert!(rt; cache.fits(&set));
    /// assert!(rt; set.is_match_with(&mut cache, "cab"));
    /// assert!(rt; !set.is_match_with(&mut cache, "c"));
    /// ```
    pub fn cache(&self) -> Result<SetCache, AllocError>
        ensures { IfOk result (λ c. fits_of c ≡ fits_for self.now) }
    {
        Ok(SetCache {
            cache: self.set.cache()?,
        })
    }
}

impl RegexSet {
    /// Returns whether any pattern matches anywhere in the haystack. The error is out of memory.
    ///
    /// The search stops at the first end of a match of the first pattern that matches.
    pub fn is_match(&self, haystack: &str) -> Result<bool, AllocError>
        ensures { IfOk result (λ found. IsTrue found ↔ HasMatchOfAny self.now haystack.now (places haystack.now 0)) }
    {
        self.set.is_match(haystack.as_bytes())
    }

    /// Returns whether any pattern matches at or after `start`, an offset in bytes. Past the end of the haystack
    /// nothing matches. A start within the haystack must be at a character boundary, as `str::is_char_boundary`
    /// tests. The error is out of memory.
    ///
    /// Assertions look at the bytes before `start` too, so this differs from a search of the slice that begins there.
    pub fn is_match_at(&self, haystack: &str, start: usize) -> Result<bool, AllocError>
        requires { MayStart haystack.now start }
        ensures { IfOk result (λ found. IsTrue found ↔ HasMatchOfAny self.now haystack.now
            (places haystack.now start)) }
    {
        self.set.is_match_at(haystack.as_bytes(), start)
    }

    /// Like [`RegexSet::is_match`], but with a cache that fits. It allocates nothing and cannot fail.
    pub fn is_match_with(&self, cache: &mut SetCache, haystack: &str) -> bool
        requires { fits_of cache.old ≡ fits_for self.now }
        ensures { KeepsAnd (fits_of cache.old) (fits_of cache.new)
            (IsTrue result ↔ HasMatchOfAny self.now haystack.now (places haystack.now 0)) }
    {
        self.set
            .is_match_with(&mut cache.cache, haystack.as_bytes())
    }

    /// Like [`RegexSet::is_match_at`], but with a cache that fits. It allocates nothing and cannot fail.
    pub fn is_match_at_with(&self, cache: &mut SetCache, haystack: &str, start: usize) -> bool
        requires { MaySearchSet self.now haystack.now start cache.old }
        ensures { KeepsAnd (fits_of cache.old) (fits_of cache.new)
            (IsTrue result ↔ HasMatchOfAny self.now haystack.now (places haystack.now start)) }
    {
        self.set
            .is_match_at_with(&mut cache.cache, haystack.as_bytes(), start)
    }

    /// Returns which patterns match anywhere in the haystack. The error is out of memory.
    ///
    /// The search for a pattern stops at the first end of a match.
    pub fn matches(&self, haystack: &str) -> Result<SetMatches, AllocError>
        ensures { IfOk result (AreMatched self.now haystack.now (places haystack.now 0)) }
    {
        self.set.matches(haystack.as_bytes())
    }

    /// Returns which patterns match at or after `start`, an offset in bytes. Past the end of the haystack nothing
    /// matches. A start within the haystack must be at a character boundary, as `str::is_char_boundary` tests. The
    /// error is out of memory.
    ///
    /// Assertions look at the bytes before `start` too, so this differs from a search of the slice that begins there.
    pub fn matches_at(&self, haystack: &str, start: usize) -> Result<SetMatches, AllocError>
        requires { MayStart haystack.now start }
        ensures { IfOk result (AreMatched self.now haystack.now (places haystack.now start)) }
    {
        self.set.matches_at(haystack.as_bytes(), start)
    }

    /// Like [`RegexSet::matches`], but with a cache that fits. The error is out of memory for what it returns.
    pub fn matches_with(
        &self,
        cache: &mut SetCache,
        haystack: &str,
    ) -> Result<SetMatches, AllocError>
        requires { fits_of cache.old ≡ fits_for self.now }
        ensures { KeepsAnd (fits_of cache.old) (fits_of cache.new)
            (IfOk result (AreMatched self.now haystack.now (places haystack.now 0))) }
    {
        self.set.matches_with(&mut cache.cache, haystack.as_bytes())
    }

    /// Like [`RegexSet::matches_at`], but with a cache that fits. The error is out of memory for what it returns.
    pub fn matches_at_with(
        &self,
        cache: &mut SetCache,
        haystack: &str,
        start: usize,
    ) -> Result<SetMatches, AllocError>
        requires { MaySearchSet self.now haystack.now start cache.old }
        ensures { KeepsAnd (fits_of cache.old) (fits_of cache.new)
            (IfOk result (AreMatched self.now haystack.now (places haystack.now start))) }
    {
        self.set
            .matches_at_with(&mut cache.cache, haystack.as_bytes(), start)
    }

    /// Writes for each pattern whether it matches at or after `start`, an offset in bytes, with a cache that fits. A
    /// start within the haystack must be at a character boundary. The slice has an entry for each pattern. It
    /// allocates nothing and cannot fail.
    pub fn matches_read_at_with(
        &self,
        cache: &mut SetCache,
        haystack: &str,
        start: usize,
        matched: &mut [bool],
    )
        requires { MayWriteSet self.now haystack.now start cache.old matched.old }
        ensures { KeepsAnd (fits_of cache.old) (fits_of cache.new)
            (AreMatched self.now haystack.now (places haystack.now start) matched.new) }
    {
        self.set
            .matches_read_at_with(&mut cache.cache, haystack.as_bytes(), start, matched)
    }
}

impl Clone for RegexSet {
    ghost is_clone = { λ set copy. copy ≡ set };

    /// Returns a set that shares the programs, and may go to another thread. The error is out of memory for the list
    /// of them.
    fn clone(&self) -> Result<RegexSet, AllocError> {
        Ok(RegexSet {
            set: self.set.clone()?,
        })
    }
}

impl fmt::Debug for RegexSet {
    fn fmt<W: fmt::Write>(&self, f: &mut fmt::Formatter<W>) -> fmt::Result {
        fmt::Debug::fmt(&self.set, f)
    }
}

impl fmt::Debug for SetCache {
    fn fmt<W: fmt::Write>(&self, f: &mut fmt::Formatter<W>) -> fmt::Result {
        fmt::Debug::fmt(&self.cache, f)
    }
}
