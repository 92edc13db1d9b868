//! Searches for a match that begins at one offset, and for matches of the whole haystack.

ghost use Rattle.std.specs.Prelude.{◌≡◌, ◌↔◌, option_map, IsTrue, IfOk};
ghost use Rattle.bites_spec.specs.Counts.{fit_of};
ghost use Rattle.bites_spec.specs.Captured.{FindsMatch};
ghost use Rattle.bites_bytes.specs.Calls.{BothFit, CapturesAnchoredWith, CapturesFullWith, FindsAnchoredWith, FindsCaptured, FindsCapturedFull};
ghost use Rattle.bites_bytes.specs.Calls.{ReadsAnchoredWith, ReadsFullWith, TestsAnchoredWith, TestsFullWith};
ghost use Rattle.bites_spec.specs.Full.{IsFullMatch};
ghost use Rattle.bites_spec.specs.Found.{HasMatch};
ghost use Rattle.bites_spec.specs.Utf8.{start_alone};
ghost use Rattle.bites_bytes.specs.Matched.{excerpt_of};

use crate::bytes::{Cache, CaptureLocations, Captures, Match, Regex};
use bites_machine::slot::Slot;
use std::alloc::AllocError;

impl Regex {
    /// Returns the match that begins at `start`, an offset in bytes: the preferred one, or with
    /// [`RegexBuilder::leftmost_longest`] the longest. Past the end of the haystack nothing matches. The error is out
    /// of memory.
    ///
    /// The search stops when no match that begins there can continue, so it reads no further than a match could go.
    /// Assertions look at the bytes before `start` too, so this differs from a search of the slice that begins there.
    ///
    /// ```rust
    /// let regex = Regex::new(rt.alloc(), "[a-z]+")?;
    /// let found = regex.find_anchored_at(b"ab 1cd", 1)?.ok_or("no match")?;
    /// assert_eq!(rt; found.range(), 1..2);
    /// assert_eq!(rt; regex.find_anchored_at(b"ab 1cd", 3)?, None);
    /// ```
    pub fn find_anchored_at<'h>(
        &self,
        haystack: &'h [u8],
        start: usize,
    ) -> Result<Option<Match<'h>>, AllocError>
        ensures { IfOk result
            (λ m. FindsMatch self.now haystack.now (start_alone haystack.now start) (option_map excerpt_of m)) }
    {
        let mut cache = Cache::for_slots(self.program(), 2)?;
        Ok(self.first_match(&mut cache, haystack, start, true))
    }

    /// Like [`Regex::find_anchored_at`], but with a cache that fits. It allocates nothing and cannot fail.
    ///
    /// The search visits each state of the program at most once at each offset.
    pub fn find_anchored_at_with<'h>(
        &self,
        cache: &mut Cache,
        haystack: &'h [u8],
        start: usize,
    ) -> Option<Match<'h>>
        requires { cache.old.fits ≡ fit_of self.now.program }
        ensures { FindsAnchoredWith excerpt_of self.now haystack.now start result cache.old cache.new }
    {
        self.first_match(cache, haystack, start, true)
    }

    /// Returns whether a match begins at `start`, an offset in bytes. Past the end of the haystack nothing matches.
    /// The error is out of memory.
    ///
    /// The search stops at the first end of such a match.
    pub fn is_match_anchored_at(&self, haystack: &[u8], start: usize) -> Result<bool, AllocError>
        ensures { IfOk result (λ found. IsTrue found ↔ HasMatch self.now.tree haystack.now
            (start_alone haystack.now start)) }
    {
        let mut cache = Cache::for_slots(self.program(), 0)?;
        Ok(cache.is_match(self, haystack, start, true))
    }

    /// Like [`Regex::is_match_anchored_at`], but with a cache that fits. It allocates nothing and cannot fail.
    ///
    /// The search visits each state of the program at most once at each offset.
    pub fn is_match_anchored_at_with(
        &self,
        cache: &mut Cache,
        haystack: &[u8],
        start: usize,
    ) -> bool
        requires { cache.old.fits ≡ fit_of self.now.program }
        ensures { TestsAnchoredWith self.now haystack.now start result cache.old cache.new }
    {
        cache.is_match(self, haystack, start, true)
    }

    /// Returns the groups of the match that begins at `start`, as [`Regex::find_anchored_at`] finds it. Past the end
    /// of the haystack nothing matches. The error is out of memory.
    ///
    /// `([a-z]+)(=?)` on `x=1` at 0 has `x` as group 1 and `=` as group 2.
    pub fn captures_anchored_at<'h>(
        &self,
        haystack: &'h [u8],
        start: usize,
    ) -> Result<Option<Captures<'h>>, AllocError>
        ensures { IfOk result (FindsCaptured self.now haystack.now (start_alone haystack.now start)) }
    {
        let mut cache = self.cache()?;
        self.captures_anchored_at_with(&mut cache, haystack, start)
    }

    /// Like [`Regex::captures_anchored_at`], but with a cache that fits. It allocates the groups alone.
    pub fn captures_anchored_at_with<'h>(
        &self,
        cache: &mut Cache,
        haystack: &'h [u8],
        start: usize,
    ) -> Result<Option<Captures<'h>>, AllocError>
        requires { cache.old.fits ≡ fit_of self.now.program }
        ensures { CapturesAnchoredWith self.now haystack.now start result cache.old cache.new }
    {
        Captures::find(self, cache, haystack, start, true)
    }

    /// Like [`Regex::find_anchored_at_with`], but also writes the offsets of each group into `locations`, which must
    /// fit this regex. It allocates nothing and cannot fail.
    ///
    /// The locations are unchanged if nothing matches. The search visits each state of the program at most once at
    /// each offset.
    pub fn captures_read_anchored_at_with<'h>(
        &self,
        cache: &mut Cache,
        locations: &mut CaptureLocations,
        haystack: &'h [u8],
        start: usize,
    ) -> Option<Match<'h>>
        requires { BothFit self.now cache.old locations.old }
        ensures { ReadsAnchoredWith excerpt_of self.now haystack.now start result
            locations.old locations.new cache.old cache.new }
    {
        locations.find(self, cache, haystack, start, true)
    }

    /// Returns whether any match of the pattern is the whole haystack. The error is out of memory.
    ///
    /// `a|ab` matches the whole of `ab`, and so does `(a|b)*`. `a` does not.
    ///
    /// With a whole table it searches for the first match from the start. That one mostly is the whole haystack, or there is none. If it ends
    /// before the haystack does, a second search looks for the longest one. With
    /// [`RegexBuilder::leftmost_longest`] that search is the only one.
    pub fn is_full_match(&self, haystack: &[u8]) -> Result<bool, AllocError>
        ensures { IfOk result (λ found. IsTrue found ↔ IsFullMatch self.now.tree haystack.now) }
    {
        let mut cache = Cache::for_slots(self.program(), 2)?;
        Ok(cache.find_full(self, haystack, &mut [Slot::unwritten(); 2]))
    }

    /// Like [`Regex::is_full_match`], but with a cache that fits. It allocates nothing and cannot fail.
    ///
    /// Each search visits each state of the program at most once at each offset.
    pub fn is_full_match_with(&self, cache: &mut Cache, haystack: &[u8]) -> bool
        requires { cache.old.fits ≡ fit_of self.now.program }
        ensures { TestsFullWith self.now haystack.now result cache.old cache.new }
    {
        cache.find_full(self, haystack, &mut [Slot::unwritten(); 2])
    }

    /// Returns the groups of a match that is the whole haystack. Of several parses it is the preferred one. The error
    /// is out of memory. It searches as [`Regex::is_full_match`] does.
    ///
    /// ```rust
    /// let regex = Regex::new(rt.alloc(), "(a|ab)(c|bcd)?")?;
    /// let captures = regex.captures_full(b"abcd")?.ok_or("no match")?;
    /// let second = captures.get(2).ok_or("no group")?;
    /// assert_eq!(rt; second.as_bytes(), b"bcd".as_slice());
    /// ```
    pub fn captures_full<'h>(&self, haystack: &'h [u8]) -> Result<Option<Captures<'h>>, AllocError>
        ensures { IfOk result (FindsCapturedFull self.now haystack.now) }
    {
        let mut cache = self.cache()?;
        self.captures_full_with(&mut cache, haystack)
    }

    /// Like [`Regex::captures_full`], but with a cache that fits. It allocates the groups alone.
    ///
    /// [`Regex::captures_read_full_with`] allocates nothing. Each search visits each state of the program at most once
    /// at each offset.
    pub fn captures_full_with<'h>(
        &self,
        cache: &mut Cache,
        haystack: &'h [u8],
    ) -> Result<Option<Captures<'h>>, AllocError>
        requires { cache.old.fits ≡ fit_of self.now.program }
        ensures { CapturesFullWith self.now haystack.now result cache.old cache.new }
    {
        let mut locations = self.capture_locations()?;
        if !locations.find_full(self, cache, haystack) {
            return Ok(None);
        }
        Ok(Some(Captures::new(self, haystack, locations)?))
    }

    /// Like [`Regex::captures_full_with`], but writes the offsets of each group into `locations`, which must fit this
    /// regex, and returns whether a match is the whole haystack. It allocates nothing and cannot fail.
    ///
    /// Without such a match the locations may hold the groups of another one. Each search visits each state of the
    /// program at most once at each offset.
    ///
    /// ```rust
    /// let regex = Regex::new(rt.alloc(), "(a|ab)(c|bcd)?")?;
    /// let mut cache = regex.cache()?;
    /// let mut locations = regex.capture_locations()?;
    /// assert!(rt; regex.captures_read_full_with(&mut cache, &mut locations, b"abcd"));
    /// assert_eq!(rt; locations.get(2), Some((1, 4)));
    /// assert!(rt; !regex.captures_read_full_with(&mut cache, &mut locations, b"abcd\xFF"));
    /// ```
    pub fn captures_read_full_with(
        &self,
        cache: &mut Cache,
        locations: &mut CaptureLocations,
        haystack: &[u8],
    ) -> bool
        requires { BothFit self.now cache.old locations.old }
        ensures { ReadsFullWith self.now haystack.now result locations.old locations.new cache.old cache.new }
    {
        locations.find_full(self, cache, haystack)
    }
}
