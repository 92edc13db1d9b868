//! A regex with the cache for its searches.

ghost use Rattle.std.specs.Prelude.{◌≡◌, ◌↔◌, length, option_map, IfOk, IsTrue};
ghost use Rattle.bites_spec.specs.Counts.{fit_of};
ghost use Rattle.bites_spec.specs.Found.{HasMatch, IsLeastEnd};
ghost use Rattle.bites_spec.specs.Full.{IsFullMatch};
ghost use Rattle.bites_spec.specs.Captured.{FindsMatch};
ghost use Rattle.bites_spec.specs.Utf8.{places, start_alone};
ghost use Rattle.bites_bytes.specs.Matched.{excerpt_of};
ghost use Rattle.bites_bytes.specs.Calls.{AfterNext, BothFit, FindsCaptured, FindsCapturedFull, FindsNext, KeepsAnd, ReadsGroups};
ghost use Rattle.bites_bytes.specs.NextCaptured.{FindsNextCaptured};
ghost use Rattle.bites_bytes.specs.Replaced.{IsReplacement};

mod capture_matches;
mod matches;
mod split;

use crate::bytes::{Cache, CaptureLocations, Captures, Match, Regex, Replacer};
pub use capture_matches::CaptureMatches;
pub use matches::Matches;
pub use split::Split;
use std::alloc::AllocError;
use std::borrow::CowSlice;
use std::fmt;
use std::marker::Model;

/// A regex with the memory for its searches.
///
/// It searches like [`Regex`], and no search allocates a cache. So make one before a loop over many haystacks. Each
/// thread takes one of its own, made of a clone of the regex.
///
/// ```rust
/// let mut searcher = Searcher::new(Regex::new(rt.alloc(), r"\d+")?)?;
/// assert!(rt; searcher.is_match(b"in 2010"));
/// assert!(rt; !searcher.is_match(b"in\xFF"));
/// ```
///
/// For proofs: a contract sees the regex, which no search changes. That the cache fits is an invariant of the type.
pub struct Searcher {
    regex: Regex,
    cache: Cache,
    // Where a search for groups writes their offsets.
    locations: CaptureLocations,
}

// A caller that drops one relies on this function, and on no type below it.
impl Drop for Searcher {
    fn drop(self) {
        let Searcher {
            regex: _,
            cache: _,
            locations: _,
        } = self;
    }
}

impl Model for Searcher {
    ghost use Rattle.std.specs.Coded.{codes};
    ghost use Rattle.std.specs.Prelude.{◌≡◌, length};
    ghost use Rattle.bites_syntax.specs.TreeCode.{tree_code};
    ghost use Rattle.bites_spec.specs.Regex as spec;
    ghost use Rattle.bites_spec.specs.Counts.{fit_of};

    ghost Value = { spec.Regex };

    ghost coded = { Prim.hlevel (codes, tree_code) };

    ghost view = { λ a. a.regex };

    ghost invariant = { λ a. (a.cache.fits ≡ fit_of a.regex.program) × (length a.locations ≡ a.regex.program.slots) };
}

impl Searcher {
    /// Returns a searcher for the regex. The error is out of memory.
    pub fn new(regex: Regex) -> Result<Searcher, AllocError>
        ensures { IfOk result (λ s. s ≡ regex) }
    {
        let cache = regex.cache()?;
        let locations = regex.capture_locations()?;
        Ok(Searcher {
            regex,
            cache,
            locations,
        })
    }

    /// Returns the regex.
    pub fn regex(&self) -> &Regex
        ensures { result.now ≡ self.now }
    {
        &self.regex
    }

    /// Returns whether the pattern matches anywhere in the haystack, like [`Regex::is_match`]. It allocates nothing.
    ///
    /// The search stops at the first end of a match, and visits each state of the program at most once at each
    /// offset.
    pub fn is_match(&mut self, haystack: &[u8]) -> bool
        ensures { KeepsAnd self.old self.new
            (IsTrue result ↔ HasMatch self.old.tree haystack.now (places haystack.now 0)) }
    {
        self.regex.is_match_with(&mut self.cache, haystack)
    }

    /// Returns whether the pattern matches at or after `start`, an offset in bytes, like [`Regex::is_match_at`]. It
    /// allocates nothing.
    ///
    /// The search stops at the first end of a match, and visits each state of the program at most once at each
    /// offset.
    ///
    /// ```rust
    /// let mut searcher = Searcher::new(Regex::new(rt.alloc(), r"\bb")?)?;
    /// assert!(rt; searcher.is_match_at(b"b\xFFab b", 1));
    /// assert!(rt; !searcher.is_match_at(b"b\xFFab", 1));
    /// ```
    pub fn is_match_at(&mut self, haystack: &[u8], start: usize) -> bool
        ensures { KeepsAnd self.old self.new
            (IsTrue result ↔ HasMatch self.old.tree haystack.now (places haystack.now start)) }
    {
        self.regex
            .is_match_at_with(&mut self.cache, haystack, start)
    }

    /// Returns the least offset at which any match ends, in bytes, like [`Regex::shortest_match`]. It allocates
    /// nothing.
    ///
    /// The search visits each state of the program at most once at each offset.
    ///
    /// ```rust
    /// let mut searcher = Searcher::new(Regex::new(rt.alloc(), "a+")?)?;
    /// assert_eq!(rt; searcher.shortest_match(b"\xFFaaa"), Some(2));
    /// ```
    pub fn shortest_match(&mut self, haystack: &[u8]) -> Option<usize>
        ensures { KeepsAnd self.old self.new
            (IsLeastEnd self.old.tree haystack.now (places haystack.now 0) result) }
    {
        self.regex.shortest_match_with(&mut self.cache, haystack)
    }

    /// Returns whether a match is the whole haystack, like [`Regex::is_full_match`]. It allocates nothing.
    ///
    /// Each search visits each state of the program at most once at each offset.
    pub fn is_full_match(&mut self, haystack: &[u8]) -> bool
        ensures { KeepsAnd self.old self.new (IsTrue result ↔ IsFullMatch self.old.tree haystack.now) }
    {
        self.regex.is_full_match_with(&mut self.cache, haystack)
    }

    /// Returns the leftmost match in the haystack, like [`Regex::find`]. It allocates nothing.
    ///
    /// Each search visits each state of the program at most once at each offset. For the longest match a call may make two.
    pub fn find<'h>(&mut self, haystack: &'h [u8]) -> Option<Match<'h>>
        ensures { KeepsAnd self.old self.new
            (FindsMatch self.old haystack.now (places haystack.now 0) (option_map excerpt_of result)) }
    {
        self.regex.find_with(&mut self.cache, haystack)
    }

    /// Returns the leftmost match at or after `start`, an offset in bytes, like [`Regex::find_at`]. It allocates
    /// nothing.
    ///
    /// Each search visits each state of the program at most once at each offset. For the longest match a call may make two.
    pub fn find_at<'h>(&mut self, haystack: &'h [u8], start: usize) -> Option<Match<'h>>
        ensures { KeepsAnd self.old self.new
            (FindsMatch self.old haystack.now (places haystack.now start) (option_map excerpt_of result)) }
    {
        self.regex.find_at_with(&mut self.cache, haystack, start)
    }

    /// Returns the match that begins at `start`, an offset in bytes, like [`Regex::find_anchored_at`]. It allocates
    /// nothing.
    ///
    /// The search stops when no match that begins there can continue.
    pub fn find_anchored_at<'h>(&mut self, haystack: &'h [u8], start: usize) -> Option<Match<'h>>
        ensures { KeepsAnd self.old self.new
            (FindsMatch self.old haystack.now (start_alone haystack.now start) (option_map excerpt_of result)) }
    {
        self.regex
            .find_anchored_at_with(&mut self.cache, haystack, start)
    }

    /// Returns the first match after one that ends at `last`, an offset in bytes, or the first of all for `None`, like
    /// [`Regex::find_next_with`]. It allocates nothing.
    pub fn find_next<'h>(&mut self, haystack: &'h [u8], last: Option<usize>) -> Option<Match<'h>>
        ensures { KeepsAnd self.old self.new
            (FindsNext self.old haystack.now last (option_map excerpt_of result)) }
    {
        self.regex.find_next_with(&mut self.cache, haystack, last)
    }

    /// Returns the groups of the leftmost match in the haystack, like [`Regex::captures`]. It allocates the groups
    /// alone, and nothing if nothing matches. The error is out of memory.
    ///
    /// At worst a search for groups takes time that grows with states times slots times characters.
    pub fn captures<'h>(&mut self, haystack: &'h [u8]) -> Result<Option<Captures<'h>>, AllocError>
        ensures { KeepsAnd self.old self.new
            (IfOk result (FindsCaptured self.old haystack.now (places haystack.now 0))) }
    {
        self.captures_at(haystack, 0)
    }

    /// Returns the groups of the leftmost match at or after `start`, an offset in bytes, like [`Regex::captures_at`].
    /// It allocates the groups alone, and nothing if nothing matches. The error is out of memory.
    ///
    /// ```rust
    /// let mut searcher = Searcher::new(Regex::new(rt.alloc(), "a(.)")?)?;
    /// let captures = searcher.captures_at(b"ab ac", 1)?.ok_or("no match")?;
    /// let group = captures.get(1).ok_or("no group")?;
    /// assert_eq!(rt; group.range(), 4..5);
    /// ```
    pub fn captures_at<'h>(
        &mut self,
        haystack: &'h [u8],
        start: usize,
    ) -> Result<Option<Captures<'h>>, AllocError>
        ensures { KeepsAnd self.old self.new
            (IfOk result (FindsCaptured self.old haystack.now (places haystack.now start))) }
    {
        let found = self
            .locations
            .find(&self.regex, &mut self.cache, haystack, start, false);
        Captures::of_found(&self.regex, haystack, &self.locations, found.is_some())
    }

    /// Returns the groups of the match that begins at `start`, an offset in bytes, like
    /// [`Regex::captures_anchored_at`]. It allocates the groups alone, and nothing if nothing matches. The error is out
    /// of memory.
    ///
    /// ```rust
    /// let mut searcher = Searcher::new(Regex::new(rt.alloc(), "([a-z]+)(=?)")?)?;
    /// let captures = searcher.captures_anchored_at(b"\xFFx=1", 1)?.ok_or("no match")?;
    /// let name = captures.get(1).ok_or("no name")?;
    /// assert_eq!(rt; name.range(), 1..2);
    /// assert!(rt; searcher.captures_anchored_at(b"1x", 0)?.is_none());
    /// ```
    pub fn captures_anchored_at<'h>(
        &mut self,
        haystack: &'h [u8],
        start: usize,
    ) -> Result<Option<Captures<'h>>, AllocError>
        ensures { KeepsAnd self.old self.new
            (IfOk result (FindsCaptured self.old haystack.now (start_alone haystack.now start))) }
    {
        let found = self
            .locations
            .find(&self.regex, &mut self.cache, haystack, start, true);
        Captures::of_found(&self.regex, haystack, &self.locations, found.is_some())
    }

    /// Returns the leftmost match, and writes the offsets of each group into `locations`, like
    /// [`Regex::captures_read`]. It allocates nothing.
    ///
    /// The locations must fit the regex ([`CaptureLocations::fits`]). They are unchanged if nothing matches.
    ///
    /// ```rust
    /// let mut searcher = Searcher::new(Regex::new(rt.alloc(), "a(b)?")?)?;
    /// let mut locations = searcher.regex().capture_locations()?;
    /// assert!(rt; searcher.captures_read(&mut locations, b"\xFFab").is_some());
    /// assert_eq!(rt; locations.get(1), Some((2, 3)));
    /// ```
    pub fn captures_read<'h>(
        &mut self,
        locations: &mut CaptureLocations,
        haystack: &'h [u8],
    ) -> Option<Match<'h>>
        requires { length locations.old ≡ self.old.program.slots }
        ensures { KeepsAnd self.old self.new
            (ReadsGroups self.old haystack.now (places haystack.now 0) (option_map excerpt_of result) locations.old locations.new) }
    {
        self.regex
            .captures_read_with(&mut self.cache, locations, haystack)
    }

    /// Returns the groups of the first match after one that ends at `last`, an offset in bytes, or of the first of all
    /// for `None`. It allocates the groups alone. In their place the error is out of memory.
    pub fn captures_next<'h>(
        &mut self,
        haystack: &'h [u8],
        last: Option<usize>,
    ) -> Option<Result<Captures<'h>, AllocError>>
        ensures { KeepsAnd self.old self.new (FindsNextCaptured self.old haystack.now last result) }
    {
        self.regex
            .captures_next_with(&mut self.cache, &mut self.locations, haystack, last)
    }

    /// Returns the groups of a match that is the whole haystack, like [`Regex::captures_full`]. It allocates the groups
    /// alone, and nothing if there is no such match. The error is out of memory.
    pub fn captures_full<'h>(
        &mut self,
        haystack: &'h [u8],
    ) -> Result<Option<Captures<'h>>, AllocError>
        ensures { KeepsAnd self.old self.new (IfOk result (FindsCapturedFull self.old haystack.now)) }
    {
        let found = self
            .locations
            .find_full(&self.regex, &mut self.cache, haystack);
        Captures::of_found(&self.regex, haystack, &self.locations, found)
    }

    /// Returns the haystack with its first match replaced, like [`Regex::replace`]. The error is out of memory.
    ///
    /// It allocates only the new bytes, and the groups if the replacer asks for them. The haystack is borrowed exactly
    /// if nothing matches.
    ///
    /// ```rust
    /// let mut searcher = Searcher::new(Regex::new(rt.alloc(), r"\d+")?)?;
    /// let hidden = searcher.replace(b"1 and 2", b"n".as_slice())?;
    /// assert_eq!(rt; hidden.as_slice(), b"n and 2".as_slice());
    /// ```
    pub fn replace<'h, R: Replacer + Drop>(
        &mut self,
        haystack: &'h [u8],
        replacer: R,
    ) -> Result<CowSlice<'h, u8>, AllocError>
        requires { (state : R) → R.can_replace state }
        ensures { KeepsAnd self.old self.new
            (IsReplacement R.replaces R.answers self.old haystack.now 1 replacer result) }
    {
        self.replacen(haystack, 1, replacer)
    }

    /// Returns the haystack with all its matches replaced, like [`Regex::replace_all`]. The error is out of memory.
    ///
    /// It allocates only the new bytes, and the groups if the replacer asks for them. The haystack is borrowed exactly
    /// if nothing matches.
    pub fn replace_all<'h, R: Replacer + Drop>(
        &mut self,
        haystack: &'h [u8],
        replacer: R,
    ) -> Result<CowSlice<'h, u8>, AllocError>
        requires { (state : R) → R.can_replace state }
        ensures { KeepsAnd self.old self.new
            (IsReplacement R.replaces R.answers self.old haystack.now 0 replacer result) }
    {
        self.replacen(haystack, 0, replacer)
    }

    /// Returns the haystack with its first `limit` matches replaced, or all of them if `limit` is 0, like
    /// [`Regex::replacen`]. The error is out of memory.
    ///
    /// It allocates only the new bytes, and the groups if the replacer asks for them. The haystack is borrowed exactly
    /// if nothing matches.
    pub fn replacen<'h, R: Replacer + Drop>(
        &mut self,
        haystack: &'h [u8],
        limit: usize,
        replacer: R,
    ) -> Result<CowSlice<'h, u8>, AllocError>
        requires { (state : R) → R.can_replace state }
        ensures { KeepsAnd self.old self.new
            (IsReplacement R.replaces R.answers self.old haystack.now limit replacer result) }
    {
        self.regex
            .replacen_with(&mut self.cache, haystack, limit, replacer)
    }
}

impl Regex {
    /// Like [`Regex::captures_read_next_with`], but returns the groups. It allocates these alone. In their place the
    /// error is out of memory.
    pub fn captures_next_with<'h>(
        &self,
        cache: &mut Cache,
        locations: &mut CaptureLocations,
        haystack: &'h [u8],
        last: Option<usize>,
    ) -> Option<Result<Captures<'h>, AllocError>>
        requires { BothFit self.now cache.old locations.old }
        ensures { AfterNext self.now last cache.old cache.new (KeepsAnd (length locations.old) (length locations.new)
            (FindsNextCaptured self.now haystack.now last result)) }
    {
        self.captures_read_next_with(cache, locations, haystack, last)?;
        Some(Captures::of(self, haystack, locations))
    }
}

impl fmt::Debug for Searcher {
    fn fmt<W: fmt::Write>(&self, f: &mut fmt::Formatter<W>) -> fmt::Result {
        f.debug_tuple("Searcher").field(&self.regex).finish()
    }
}
