//! Searches of texts that return where a match is.

ghost use Rattle.std.specs.Prelude.{◌≡◌, length, option_map, IfOk, MatchResult};
ghost use Rattle.bites_spec.specs.Counts.{fit_of};
ghost use Rattle.bites_spec.specs.Captured.{FindsMatch};
ghost use Rattle.bites_spec.specs.Utf8.{places};
ghost use Rattle.bites_bytes.specs.Calls.{BothFit, FindsWith};
ghost use Rattle.regex_bites.specs.Matched.{excerpt_of};
ghost use Rattle.regex_bites.specs.Borders.{MayRead, MayReadAlone, MaySearch, MayStart, ReadsText, ReadsWith};

use crate::string::{Cache, CaptureLocations, Match, Regex};
use std::alloc::AllocError;

impl Regex {
    /// Returns the leftmost match in the haystack. The error is out of memory.
    ///
    /// Of the matches that begin there it is the one that the pattern prefers, or the longest with
    /// [`RegexBuilder::leftmost_longest`]. Each search visits each state of the program at most once at each offset. For the
    /// longest match a call may make two.
    ///
    /// ```rust
    /// let regex = Regex::new(rt.alloc(), r"\d+")?;
    /// let found = regex.find("é 12 345")?.ok_or("no match")?;
    /// assert_eq!(rt; found.range(), 3..5);
    /// assert_eq!(rt; found.as_str(), "12");
    /// ```
    pub fn find<'h>(&self, haystack: &'h str) -> Result<Option<Match<'h>>, AllocError>
        ensures { IfOk result (λ m. FindsMatch self.now haystack.now (places haystack.now 0)
            (option_map excerpt_of m)) }
    {
        self.find_at(haystack, 0)
    }

    /// Returns the leftmost match at or after `start`, an offset in bytes. Past the end of the haystack nothing
    /// matches. A start within the haystack must be at a character boundary, as `str::is_char_boundary` tests. The
    /// error is out of memory.
    ///
    /// Assertions look at the bytes before `start` too, so this differs from a search of the slice that begins there.
    ///
    /// ```rust
    /// let regex = Regex::new(rt.alloc(), r"\bb")?;
    /// let found = regex.find_at("ab b", 1)?.ok_or("no match")?;
    /// assert_eq!(rt; found.range(), 3..4);
    /// ```
    pub fn find_at<'h>(
        &self,
        haystack: &'h str,
        start: usize,
    ) -> Result<Option<Match<'h>>, AllocError>
        requires { MayStart haystack.now start }
        ensures { IfOk result (λ m. FindsMatch self.now haystack.now (places haystack.now start)
            (option_map excerpt_of m)) }
    {
        let found = self.over_bytes().find_at(haystack.as_bytes(), start)?;
        Ok(Match::of_found(haystack, found))
    }

    /// Like [`Regex::find`], but with a cache. It allocates nothing and cannot fail.
    ///
    /// The cache must fit this regex ([`Cache::fits`]); it does if [`Regex::cache`] of this regex or of a clone made
    /// it.
    ///
    /// ```rust
    /// let regex = Regex::new(rt.alloc(), "a+")?;
    /// let mut cache = regex.cache()?;
    /// let found = regex.find_with(&mut cache, "baa").ok_or("no match")?;
    /// assert_eq!(rt; found.range(), 1..3);
    /// ```
    pub fn find_with<'h>(&self, cache: &mut Cache, haystack: &'h str) -> Option<Match<'h>>
        requires { cache.old.fits ≡ fit_of self.now.program }
        ensures { FindsWith excerpt_of self.now haystack.now 0 result cache.old cache.new }
    {
        self.find_at_with(cache, haystack, 0)
    }

    /// Like [`Regex::find_at`], but with a cache that fits. It allocates nothing and cannot fail.
    ///
    /// Each search visits each state of the program at most once at each offset. For the longest match a call may make two.
    pub fn find_at_with<'h>(
        &self,
        cache: &mut Cache,
        haystack: &'h str,
        start: usize,
    ) -> Option<Match<'h>>
        requires { MaySearch self.now haystack.now start cache.old }
        ensures { FindsWith excerpt_of self.now haystack.now start result cache.old cache.new }
    {
        let found = self
            .over_bytes()
            .find_at_with(&mut cache.cache, haystack.as_bytes(), start);
        Match::of_found(haystack, found)
    }

    /// Returns the leftmost match like [`Regex::find`], and writes the offsets of each group into `locations`. The
    /// error is out of memory.
    ///
    /// The locations must fit this regex ([`CaptureLocations::fits`]). They are unchanged if nothing matches, and
    /// after an error. At worst a search for groups takes time that grows with states times slots times characters.
    ///
    /// ```rust
    /// let regex = Regex::new(rt.alloc(), "a(b)?")?;
    /// let mut locations = regex.capture_locations()?;
    /// let found = regex.captures_read(&mut locations, "xab")?;
    /// assert!(rt; found.is_some());
    /// assert_eq!(rt; locations.get(1), Some((2, 3)));
    /// ```
    pub fn captures_read<'h>(
        &self,
        locations: &mut CaptureLocations,
        haystack: &'h str,
    ) -> Result<Option<Match<'h>>, AllocError>
        requires { length locations.old ≡ self.now.program.slots }
        ensures { MatchResult result (λ m. ReadsText excerpt_of self.now haystack.now (places haystack.now 0) m
            locations.old locations.new) (λ _. locations.new ≡ locations.old) }
    {
        self.captures_read_at(locations, haystack, 0)
    }

    /// Returns the leftmost match at or after `start` like [`Regex::find_at`], and writes the offsets of each group
    /// into `locations`. Past the end of the haystack nothing matches. A start within the haystack must be at a
    /// character boundary, as `str::is_char_boundary` tests. The error is out of memory.
    ///
    /// The locations must fit this regex. They are unchanged if nothing matches, and after an error.
    pub fn captures_read_at<'h>(
        &self,
        locations: &mut CaptureLocations,
        haystack: &'h str,
        start: usize,
    ) -> Result<Option<Match<'h>>, AllocError>
        requires { MayReadAlone self.now haystack.now start locations.old }
        ensures { MatchResult result (λ m. ReadsText excerpt_of self.now haystack.now (places haystack.now start) m
            locations.old locations.new) (λ _. locations.new ≡ locations.old) }
    {
        let mut cache = self.cache()?;
        Ok(self.captures_read_at_with(&mut cache, locations, haystack, start))
    }

    /// Like [`Regex::captures_read`], but with a cache that fits. It allocates nothing and cannot fail.
    pub fn captures_read_with<'h>(
        &self,
        cache: &mut Cache,
        locations: &mut CaptureLocations,
        haystack: &'h str,
    ) -> Option<Match<'h>>
        requires { BothFit self.now cache.old locations.old }
        ensures { ReadsWith excerpt_of self.now haystack.now 0 result locations.old locations.new cache.old cache.new }
    {
        self.captures_read_at_with(cache, locations, haystack, 0)
    }

    /// Like [`Regex::captures_read_at`], but with a cache that fits. It allocates nothing and cannot fail.
    ///
    /// Each search visits each state of the program at most once at each offset. For the longest match a call may make two.
    pub fn captures_read_at_with<'h>(
        &self,
        cache: &mut Cache,
        locations: &mut CaptureLocations,
        haystack: &'h str,
        start: usize,
    ) -> Option<Match<'h>>
        requires { MayRead self.now haystack.now start cache.old locations.old }
        ensures { ReadsWith excerpt_of self.now haystack.now start result locations.old locations.new cache.old cache.new }
    {
        let found = self.over_bytes().captures_read_at_with(
            &mut cache.cache,
            &mut locations.locations,
            haystack.as_bytes(),
            start,
        );
        Match::of_found(haystack, found)
    }
}
