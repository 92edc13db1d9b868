//! A set of patterns.

ghost use Rattle.std.specs.Prelude.{◌≡◌, ◌↔◌, ◌==◌, [], length, map, is_some, IsTrue, IfOk};
ghost use Rattle.bites_spec.specs.Utf8.{places};
ghost use Rattle.bites_spec.specs.Set.{AreMatched, HasMatchOfAny, set_by_default, fits_of, fits_for};
ghost use Rattle.bites_bytes.specs.Calls.{KeepsAnd};
ghost use Rattle.bites_bytes.specs.Set.{ArePrepared, BuildsSet, MayWriteEach, has_any_table};

use crate::bytes::set_builder::table_bytes;
use crate::bytes::set_search::{match_any, match_each};
use crate::bytes::{Cache, Regex, RegexSetBuilder, SetError, SetMatches, SetPatterns, TableSize};
use std::alloc::{AllocError, Global};
use std::fmt;
use std::marker::Model;

/// A set of patterns. A search returns which of them match.
///
/// ```rust
/// let set = RegexSet::new(rt.alloc(), &["[a-z]+", r"\d+", "foo"])?;
/// let matches = set.matches(b"\xFFfood")?;
/// let mut numbers = Vec::new(rt.alloc());
/// for number in matches.iter() {
///     numbers.push(number)?;
/// }
/// assert_eq!(rt; numbers.as_slice(), [0, 2].as_slice());
/// ```
///
/// A search of the set searches for each pattern in turn, so its time is the sum of theirs. With [`RegexSetBuilder::prefilter`] it
/// passes over a pattern that is known not to match by a literal.
///
/// For proofs: a contract sees the regex of each pattern.
pub struct RegexSet {
    alloc: Global,
    regexes: Vec<Regex>,
}

// A caller that drops one relies on this function, and on no type below it.
impl Drop for RegexSet {
    fn drop(self) {
        let RegexSet {
            alloc: _,
            regexes: _,
        } = self;
    }
}

impl Model for RegexSet {
    ghost use Rattle.std.specs.Coded.{codes};
    ghost use Rattle.std.specs.Prelude.{List};
    ghost use Rattle.bites_syntax.specs.TreeCode.{tree_code};
    ghost use Rattle.bites_spec.specs.Regex as spec;

    ghost Value = { List spec.Regex };

    ghost coded = { Prim.hlevel (codes, tree_code) };

    ghost view = { λ a. a.regexes.items };
}

/// The memory for searches of a set: one cache for each pattern. It is made by [`RegexSet::cache`] and reused by the
/// methods whose names end in `_with`.
///
/// For proofs: a contract sees which regexes each cache fits, and what its last search visited.
pub struct SetCache {
    caches: Vec<Cache>,
}

// A caller that drops one relies on this function, and on no type below it.
impl Drop for SetCache {
    fn drop(self) {
        let SetCache { caches: _ } = self;
    }
}

impl Model for SetCache {
    ghost use Rattle.std.specs.Prelude.{List};
    ghost use Rattle.bites_spec.specs.Counts.{Room};

    ghost Value = { List Room };

    ghost view = { λ a. a.caches.items };
}

impl SetCache {
    /// Returns whether searches of this set may use the cache. They may if the set has as many patterns as the one
    /// that it was made for, and each of its caches fits.
    pub fn fits(&self, set: &RegexSet) -> bool
        ensures { IsTrue result ↔ (fits_of self.now ≡ fits_for set.now) }
    {
        self.caches.len() == set.len() && fit_each(self.caches.as_slice(), set.regexes.as_slice())
    }
}

impl RegexSet {
    /// Compiles patterns, with all flags off and the default limits of [`RegexSetBuilder::new`].
    ///
    /// The error names the first pattern that is refused, with the message of its first fault, or of the first limit
    /// that it exceeds. It may also be out of memory.
    ///
    /// ```rust
    /// let error = RegexSet::new(rt.alloc(), &["a", "(b"])
    ///     .err()
    ///     .ok_or("no error")?;
    /// assert_eq!(rt; error.index(), 1);
    /// assert_eq!(rt; error.error(), Error::UnclosedGroup);
    /// ```
    ///
    /// For proofs: a set is made exactly if the grammar reads each pattern as a tree and all limits hold for each,
    /// unless memory runs out.
    pub fn new(alloc: Global, patterns: &[&str]) -> Result<RegexSet, SetError>
        ensures { BuildsSet (set_by_default (map (λ p. p.now) patterns.now)) result }
    {
        RegexSetBuilder::new(alloc, patterns)?.build()
    }

    /// Returns the set without patterns, which matches nothing. It allocates nothing.
    pub fn empty(alloc: Global) -> RegexSet
        ensures { result ≡ [] }
    {
        RegexSet {
            alloc,
            regexes: Vec::new(alloc),
        }
    }

    // Returns the set of these regexes.
    pub(super) fn from_regexes(alloc: Global, regexes: Vec<Regex>) -> RegexSet
        ensures { result ≡ regexes.items }
    {
        RegexSet { alloc, regexes }
    }

    /// Returns the number of patterns.
    pub fn len(&self) -> usize
        ensures { result ≡ length self.now }
    {
        self.regexes.len()
    }

    /// Returns whether the set has no patterns.
    pub fn is_empty(&self) -> bool
        ensures { result ≡ (length self.now == 0) }
    {
        self.regexes.is_empty()
    }

    /// Returns an iterator over the patterns, in the order in which they were given.
    ///
    /// ```rust
    /// let set = RegexSet::new(rt.alloc(), &["a+", "b"])?;
    /// assert_eq!(rt; set.patterns().next(), Some("a+"));
    /// ```
    pub fn patterns(&self) -> SetPatterns<'_>
        ensures { result ≡ map (λ r. r.pattern) self.now }
    {
        SetPatterns::new(self.regexes.as_slice())
    }

    /// Returns a set with the same patterns and programs, with tables of at most so many bytes together as
    /// [`RegexSetBuilder::dfa_size_limit`] says, and with the switch of [`RegexSetBuilder::prefilter`]. It finds the same,
    /// and caches of the one fit the other.
    ///
    /// It shares the programs with this set. If the switch is set, and isn't set in this set, each pattern is read again to
    /// find its literal. The error is out of memory for the list of regexes. A pattern has no table if memory for that runs out.
    /// It has no literal if memory for its reading runs out, or if it exceeds the default of
    /// [`RegexSetBuilder::nest_limit`].
    ///
    /// ```rust
    /// let set = RegexSet::new(rt.alloc(), &["a+", "b"])?;
    /// let bare = set.prepared(0, false)?;
    /// assert!(rt; set.table_size().is_some() && bare.table_size().is_none());
    /// assert!(rt; bare.is_match(b"caa")?);
    /// ```
    pub fn prepared(&self, dfa_size_limit: usize, prefilter: bool) -> Result<RegexSet, AllocError>
        ensures { IfOk result (λ set. KeepsAnd (fits_for self.now) (fits_for set)
            (ArePrepared dfa_size_limit prefilter self.now set)) }
    {
        Ok(RegexSet {
            alloc: self.alloc,
            regexes: prepare_each(
                self.alloc,
                self.regexes.as_slice(),
                dfa_size_limit,
                prefilter,
            )?,
        })
    }

    /// Returns how large the tables of all patterns are together, or `None` if no pattern has one.
    ///
    /// They are whole if each pattern has a table, and searches come to known transitions alone.
    pub fn table_size(&self) -> Option<TableSize>
        ensures { is_some result ≡ has_any_table self.now }
    {
        tables_size(self.regexes.as_slice())
    }

    /// Allocates a cache for the methods whose names end in `_with`. The error is out of memory.
    ///
    /// Make it once and reuse it. No search makes it larger.
    pub fn cache(&self) -> Result<SetCache, AllocError>
        ensures { IfOk result (λ c. fits_of c ≡ fits_for self.now) }
    {
        Ok(SetCache {
            caches: caches(self.alloc, self.regexes.as_slice())?,
        })
    }
}

impl RegexSet {
    /// Returns whether any pattern matches anywhere in the haystack. The error is out of memory.
    ///
    /// The search stops at the first end of a match of the first pattern that matches.
    pub fn is_match(&self, haystack: &[u8]) -> Result<bool, AllocError>
        ensures { IfOk result (λ found. IsTrue found ↔ HasMatchOfAny self.now haystack.now (places haystack.now 0)) }
    {
        self.is_match_at(haystack, 0)
    }

    /// Returns whether any pattern matches at or after `start`, an offset in bytes. Past the end of the haystack
    /// nothing matches. The error is out of memory.
    ///
    /// Assertions look at the bytes before `start` too, so this differs from a search of the slice that begins there.
    pub fn is_match_at(&self, haystack: &[u8], start: usize) -> Result<bool, AllocError>
        ensures { IfOk result (λ found. IsTrue found ↔ HasMatchOfAny self.now haystack.now
            (places haystack.now start)) }
    {
        let mut cache = self.cache()?;
        Ok(self.is_match_at_with(&mut cache, haystack, start))
    }

    /// Like [`RegexSet::is_match`], but with a cache that fits. It allocates nothing and cannot fail.
    pub fn is_match_with(&self, cache: &mut SetCache, haystack: &[u8]) -> bool
        requires { fits_of cache.old ≡ fits_for self.now }
        ensures { KeepsAnd (fits_of cache.old) (fits_of cache.new)
            (IsTrue result ↔ HasMatchOfAny self.now haystack.now (places haystack.now 0)) }
    {
        self.is_match_at_with(cache, haystack, 0)
    }

    /// Like [`RegexSet::is_match_at`], but with a cache that fits. It allocates nothing and cannot fail.
    pub fn is_match_at_with(&self, cache: &mut SetCache, haystack: &[u8], start: usize) -> bool
        requires { fits_of cache.old ≡ fits_for self.now }
        ensures { KeepsAnd (fits_of cache.old) (fits_of cache.new)
            (IsTrue result ↔ HasMatchOfAny self.now haystack.now (places haystack.now start)) }
    {
        let caches = cache.caches.as_mut_slice();
        match_any(self.regexes.as_slice(), caches, haystack, start)
    }

    /// Returns which patterns match anywhere in the haystack. The error is out of memory.
    ///
    /// The search for a pattern stops at the first end of a match.
    pub fn matches(&self, haystack: &[u8]) -> Result<SetMatches, AllocError>
        ensures { IfOk result (AreMatched self.now haystack.now (places haystack.now 0)) }
    {
        self.matches_at(haystack, 0)
    }

    /// Returns which patterns match at or after `start`, an offset in bytes. Past the end of the haystack nothing
    /// matches. The error is out of memory.
    ///
    /// Assertions look at the bytes before `start` too, so this differs from a search of the slice that begins there.
    pub fn matches_at(&self, haystack: &[u8], start: usize) -> Result<SetMatches, AllocError>
        ensures { IfOk result (AreMatched self.now haystack.now (places haystack.now start)) }
    {
        let mut cache = self.cache()?;
        self.matches_at_with(&mut cache, haystack, start)
    }

    /// Like [`RegexSet::matches`], but with a cache that fits. The error is out of memory for what it returns.
    pub fn matches_with(
        &self,
        cache: &mut SetCache,
        haystack: &[u8],
    ) -> Result<SetMatches, AllocError>
        requires { fits_of cache.old ≡ fits_for self.now }
        ensures { KeepsAnd (fits_of cache.old) (fits_of cache.new)
            (IfOk result (AreMatched self.now haystack.now (places haystack.now 0))) }
    {
        self.matches_at_with(cache, haystack, 0)
    }

    /// Like [`RegexSet::matches_at`], but with a cache that fits. The error is out of memory for what it returns.
    pub fn matches_at_with(
        &self,
        cache: &mut SetCache,
        haystack: &[u8],
        start: usize,
    ) -> Result<SetMatches, AllocError>
        requires { fits_of cache.old ≡ fits_for self.now }
        ensures { KeepsAnd (fits_of cache.old) (fits_of cache.new)
            (IfOk result (AreMatched self.now haystack.now (places haystack.now start))) }
    {
        let mut matched = vec![in self.alloc; false; self.len()]?;
        self.matches_read_at_with(cache, haystack, start, matched.as_mut_slice());
        Ok(SetMatches::of(matched))
    }

    /// Writes for each pattern whether it matches at or after `start`, an offset in bytes, with a cache that fits.
    /// The slice has an entry for each pattern. It allocates nothing and cannot fail.
    pub fn matches_read_at_with(
        &self,
        cache: &mut SetCache,
        haystack: &[u8],
        start: usize,
        matched: &mut [bool],
    )
        requires { MayWriteEach self.now cache.old matched.old }
        ensures { KeepsAnd (fits_of cache.old) (fits_of cache.new)
            (AreMatched self.now haystack.now (places haystack.now start) matched.new) }
    {
        let caches = cache.caches.as_mut_slice();
        match_each(self.regexes.as_slice(), caches, haystack, start, matched);
    }
}

// Returns the regexes with the switch of searches for a literal, and with tables of at most so many bytes together. Each table
// may take what those before it leave. A set has no searches at one offset.
fn prepare_each(
    alloc: Global,
    regexes: &[Regex],
    dfa_size_limit: usize,
    prefilter: bool,
) -> Result<Vec<Regex>, AllocError>
    ensures { IfOk result (λ v. ArePrepared dfa_size_limit prefilter regexes.now v.items) }
{
    let mut prepared = Vec::new(alloc);
    let mut left = dfa_size_limit;
    for regex in regexes {
        let made = regex.prepared_unanchored(left, prefilter)?;
        left = left.saturating_sub(table_bytes(&made));
        prepared.push(made)?;
    }
    Ok(prepared)
}

// Returns how large the tables of the regexes are together, if any has one.
fn tables_size(regexes: &[Regex]) -> Option<TableSize>
    ensures { is_some result ≡ has_any_table regexes.now }
{
    let mut is_any = false;
    let mut size = TableSize {
        lists: 0,
        bytes: 0,
        is_whole: true,
    };
    for regex in regexes {
        let own = regex.table_size();
        is_any |= own.is_some();
        size = plus(size, own);
    }
    if is_any { Some(size) } else { None }
}

// Returns the size of some tables and of the table of one more regex, if that has one. Without it they are not whole.
fn plus(size: TableSize, own: Option<TableSize>) -> TableSize {
    match own {
        Some(own) => TableSize {
            lists: size.lists.saturating_add(own.lists),
            bytes: size.bytes.saturating_add(own.bytes),
            is_whole: size.is_whole && own.is_whole,
        },
        None => TableSize {
            is_whole: false,
            ..size
        },
    }
}

// Returns a cache for each regex.
fn caches(alloc: Global, regexes: &[Regex]) -> Result<Vec<Cache>, AllocError>
    ensures { IfOk result (λ v. fits_of v.items ≡ fits_for regexes.now) }
{
    let mut caches = Vec::new(alloc);
    for regex in regexes {
        caches.push(regex.cache()?)?;
    }
    Ok(caches)
}

// Returns whether each cache fits its regex.
fn fit_each(caches: &[Cache], regexes: &[Regex]) -> bool
    requires { length caches.now ≡ length regexes.now }
    ensures { IsTrue result ↔ (fits_of caches.now ≡ fits_for regexes.now) }
{
    for (number, regex) in regexes.iter().enumerate() {
        if !caches[number].fits(regex) {
            return false;
        }
    }
    true
}

impl Clone for RegexSet {
    ghost is_clone = { λ set copy. copy ≡ set };

    /// Returns a set that shares the programs, and may go to another thread. The error is out of memory for the list
    /// of them.
    fn clone(&self) -> Result<RegexSet, AllocError> {
        Ok(RegexSet {
            alloc: self.alloc,
            regexes: self.regexes.clone()?,
        })
    }
}

impl fmt::Debug for RegexSet {
    fn fmt<W: fmt::Write>(&self, f: &mut fmt::Formatter<W>) -> fmt::Result {
        f.write_str("RegexSet(")?;
        f.debug_list().entries(self.patterns()).finish()?;
        f.write_str(")")
    }
}

impl fmt::Debug for SetCache {
    fn fmt<W: fmt::Write>(&self, f: &mut fmt::Formatter<W>) -> fmt::Result {
        f.debug_struct("SetCache").finish_non_exhaustive()
    }
}
