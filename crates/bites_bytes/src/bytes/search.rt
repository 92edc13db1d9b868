//! Searches that return where a match is.

ghost use Rattle.std.specs.Prelude.{◌≡◌, None, replicate, length, option_map, IfOk, MatchResult};
ghost use Rattle.bites_spec.specs.Counts.{fit_of};
ghost use Rattle.bites_spec.specs.Captured.{FindsMatch};
ghost use Rattle.bites_bytes.specs.Calls.{AfterNext, BothFit, FindsBy, FindsNext, FindsWith, ReadsGroups, ReadsWith};
ghost use Rattle.bites_bytes.specs.Rooms.{HasRoom};
ghost use Rattle.bites_spec.specs.Utf8.{places};
ghost use Rattle.bites_bytes.specs.Matched.{excerpt_of};

use crate::bytes::{Cache, CaptureLocations, Match, Regex};
use bites_machine::slot::Slot;
use std::alloc::AllocError;

impl Regex {
    /// Allocates a cache for the methods whose names end in `_with`. The error is out of memory.
    ///
    /// Make it once and reuse it. Its memory grows with the states and targets of the program times its slots. No
    /// search makes it larger.
    pub fn cache(&self) -> Result<Cache, AllocError>
        ensures { IfOk result (λ c. c.fits ≡ fit_of self.now.program) }
    {
        Cache::new(self.program())
    }

    /// Allocates locations for the groups of this regex, in which no group participates yet. The error is out of
    /// memory.
    pub fn capture_locations(&self) -> Result<CaptureLocations, AllocError>
        ensures { IfOk result (λ l. l ≡ replicate self.now.program.slots None) }
    {
        CaptureLocations::new(self.alloc(), self.program().slots())
    }

    /// Returns the leftmost match in the haystack. The error is out of memory.
    ///
    /// Of the matches that begin there it is the one that the pattern prefers, or the longest with
    /// [`RegexBuilder::leftmost_longest`]. Each search visits each state of the program at most once at each offset. For the
    /// longest match a call may make two.
    ///
    /// ```rust
    /// let regex = Regex::new(rt.alloc(), "a+")?;
    /// let found = regex.find(b"\xFFaab")?.ok_or("no match")?;
    /// assert_eq!(rt; found.range(), 1..3);
    /// assert_eq!(rt; found.as_bytes(), b"aa".as_slice());
    /// ```
    pub fn find<'h>(&self, haystack: &'h [u8]) -> Result<Option<Match<'h>>, AllocError>
        ensures { IfOk result (λ m. FindsMatch self.now haystack.now (places haystack.now 0)
            (option_map excerpt_of m)) }
    {
        self.find_at(haystack, 0)
    }

    /// Returns the leftmost match at or after `start`, an offset in bytes. Past the end of the haystack nothing
    /// matches. The error is out of memory.
    ///
    /// Assertions look at the bytes before `start` too, so this differs from a search of the slice that begins there.
    ///
    /// ```rust
    /// let regex = Regex::new(rt.alloc(), r"\bb")?;
    /// let found = regex.find_at(b"ab b", 1)?.ok_or("no match")?;
    /// assert_eq!(rt; found.range(), 3..4);
    /// ```
    pub fn find_at<'h>(
        &self,
        haystack: &'h [u8],
        start: usize,
    ) -> Result<Option<Match<'h>>, AllocError>
        ensures { IfOk result (λ m. FindsMatch self.now haystack.now (places haystack.now start)
            (option_map excerpt_of m)) }
    {
        let mut cache = Cache::for_slots(self.program(), 2)?;
        Ok(self.first_match(&mut cache, haystack, start, false))
    }

    /// Like [`Regex::find`], but with a cache. It allocates nothing and cannot fail.
    ///
    /// The cache must fit this regex ([`Cache::fits`]); it does if [`Regex::cache`] of this regex or of a clone made
    /// it.
    ///
    /// ```rust
    /// let regex = Regex::new(rt.alloc(), "a+")?;
    /// let mut cache = regex.cache()?;
    /// let found = regex.find_with(&mut cache, b"baa").ok_or("no match")?;
    /// assert_eq!(rt; found.range(), 1..3);
    /// ```
    pub fn find_with<'h>(&self, cache: &mut Cache, haystack: &'h [u8]) -> Option<Match<'h>>
        requires { cache.old.fits ≡ fit_of self.now.program }
        ensures { FindsWith excerpt_of self.now haystack.now 0 result cache.old cache.new }
    {
        self.find_at_with(cache, haystack, 0)
    }

    /// Like [`Regex::find_at`], but with a cache that fits. It allocates nothing and cannot fail.
    ///
    /// Each search visits each state of the program at most once at each offset. For the longest match a call may make two.
    pub fn find_at_with<'h>(
        &self,
        cache: &mut Cache,
        haystack: &'h [u8],
        start: usize,
    ) -> Option<Match<'h>>
        requires { cache.old.fits ≡ fit_of self.now.program }
        ensures { FindsWith excerpt_of self.now haystack.now start result cache.old cache.new }
    {
        self.first_match(cache, haystack, start, false)
    }

    // The same with a cache that may have two slots alone. An anchored search is for a match that begins at `start`.
    #[inline(always)]
    pub(super) fn first_match<'h>(
        &self,
        cache: &mut Cache,
        haystack: &'h [u8],
        start: usize,
        anchored: bool,
    ) -> Option<Match<'h>>
        requires { HasRoom cache.old.fits self.now.program 2 }
        ensures { FindsBy excerpt_of anchored self.now haystack.now start result cache.old cache.new }
    {
        cache.find(self, haystack, start, anchored, &mut [Slot::unwritten(); 2])
    }

    /// Returns the first match after one that ends at `last`, an offset in bytes, or the first of all for `None`. The
    /// cache must fit. It allocates nothing and cannot fail.
    ///
    /// The matches that it returns in turn, each for the end of the one before, are those of [`Regex::find_iter`]. An
    /// empty match at `last` is dropped, and then a second search continues one character later.
    ///
    /// ```rust
    /// let regex = Regex::new(rt.alloc(), "a*")?;
    /// let mut cache = regex.cache()?;
    /// let next = regex
    ///     .find_next_with(&mut cache, b"ab", Some(1))
    ///     .ok_or("no match")?;
    /// assert_eq!(rt; next.range(), 2..2);
    /// assert_eq!(rt; regex.find_next_with(&mut cache, b"ab", Some(2)), None);
    /// ```
    #[inline(always)]
    pub fn find_next_with<'h>(
        &self,
        cache: &mut Cache,
        haystack: &'h [u8],
        last: Option<usize>,
    ) -> Option<Match<'h>>
        requires { cache.old.fits ≡ fit_of self.now.program }
        ensures { AfterNext self.now last cache.old cache.new (FindsNext self.now haystack.now last (option_map excerpt_of result)) }
    {
        cache.find_next(self, haystack, last, &mut [Slot::unwritten(); 2])
    }

    /// Returns the leftmost match like [`Regex::find`], and writes the offsets of each group into `locations`. The
    /// error is out of memory.
    ///
    /// The locations must fit this regex ([`CaptureLocations::fits`]). They are unchanged if nothing matches, and
    /// after an error. At worst a search for groups takes time that grows with states times slots times characters.
    ///
    /// ```rust
    /// let regex = Regex::new(rt.alloc(), "a(b)?")?;
    /// let mut locations = regex.capture_locations()?;
    /// let found = regex.captures_read(&mut locations, b"\xFFab")?;
    /// assert!(rt; found.is_some());
    /// assert_eq!(rt; locations.get(1), Some((2, 3)));
    /// ```
    pub fn captures_read<'h>(
        &self,
        locations: &mut CaptureLocations,
        haystack: &'h [u8],
    ) -> Result<Option<Match<'h>>, AllocError>
        requires { length locations.old ≡ self.now.program.slots }
        ensures { MatchResult result (λ m. ReadsGroups self.now haystack.now (places haystack.now 0)
            (option_map excerpt_of m) locations.old locations.new) (λ _. locations.new ≡ locations.old) }
    {
        self.captures_read_at(locations, haystack, 0)
    }

    /// Returns the leftmost match at or after `start` like [`Regex::find_at`], and writes the offsets of each group
    /// into `locations`. Past the end of the haystack nothing matches. The error is out of memory.
    ///
    /// The locations must fit this regex. They are unchanged if nothing matches, and after an error.
    pub fn captures_read_at<'h>(
        &self,
        locations: &mut CaptureLocations,
        haystack: &'h [u8],
        start: usize,
    ) -> Result<Option<Match<'h>>, AllocError>
        requires { length locations.old ≡ self.now.program.slots }
        ensures { MatchResult result (λ m. ReadsGroups self.now haystack.now (places haystack.now start)
            (option_map excerpt_of m) locations.old locations.new) (λ _. locations.new ≡ locations.old) }
    {
        let mut cache = self.cache()?;
        Ok(self.captures_read_at_with(&mut cache, locations, haystack, start))
    }

    /// Like [`Regex::captures_read`], but with a cache that fits. It allocates nothing and cannot fail.
    pub fn captures_read_with<'h>(
        &self,
        cache: &mut Cache,
        locations: &mut CaptureLocations,
        haystack: &'h [u8],
    ) -> Option<Match<'h>>
        requires { BothFit self.now cache.old locations.old }
        ensures { ReadsWith excerpt_of self.now haystack.now 0 result locations.old locations.new cache.old cache.new }
    {
        self.captures_read_at_with(cache, locations, haystack, 0)
    }

    /// Like [`Regex::captures_read_at`], but with a cache that fits. It allocates nothing and cannot fail.
    ///
    /// Each search visits each state of the program at most once at each offset. For the longest match a call may make two.
    #[inline(always)]
    pub fn captures_read_at_with<'h>(
        &self,
        cache: &mut Cache,
        locations: &mut CaptureLocations,
        haystack: &'h [u8],
        start: usize,
    ) -> Option<Match<'h>>
        requires { BothFit self.now cache.old locations.old }
        ensures { ReadsWith excerpt_of self.now haystack.now start result locations.old locations.new cache.old cache.new }
    {
        locations.find(self, cache, haystack, start, false)
    }
}
