//! Searches that return where a match in a text ends first.

ghost use Rattle.std.specs.Prelude.{◌≡◌, IfOk};
ghost use Rattle.bites_spec.specs.Counts.{fit_of};
ghost use Rattle.bites_spec.specs.Utf8.{places};
ghost use Rattle.regex_bites.specs.Borders.{EndsWith, IsLeastBorder, MaySearch, MayStart};

use crate::string::{Cache, Regex};
use std::alloc::AllocError;

impl Regex {
    /// Returns the least offset at which any match ends, in bytes. The error is out of memory.
    ///
    /// The match need not be the one that [`Regex::find`] returns.
    ///
    /// ```rust
    /// let regex = Regex::new(rt.alloc(), "a+")?;
    /// assert_eq!(rt; regex.shortest_match("xaaa")?, Some(2));
    /// ```
    pub fn shortest_match(&self, haystack: &str) -> Result<Option<usize>, AllocError>
        ensures { IfOk result (IsLeastBorder self.now haystack.now (places haystack.now 0)) }
    {
        self.shortest_match_at(haystack, 0)
    }

    /// Returns the least offset at which any match ends that begins at or after `start`, an offset in bytes. Past the
    /// end of the haystack nothing matches. A start within the haystack must be at a character boundary, as
    /// `str::is_char_boundary` tests. The error is out of memory.
    ///
    /// Assertions look at the bytes before `start` too, so this differs from a search of the slice that begins there.
    pub fn shortest_match_at(
        &self,
        haystack: &str,
        start: usize,
    ) -> Result<Option<usize>, AllocError>
        requires { MayStart haystack.now start }
        ensures { IfOk result (IsLeastBorder self.now haystack.now (places haystack.now start)) }
    {
        let end = self
            .over_bytes()
            .shortest_match_at(haystack.as_bytes(), start)?;
        Ok(end)
    }

    /// Like [`Regex::shortest_match`], but with a cache that fits. It allocates nothing and cannot fail.
    pub fn shortest_match_with(&self, cache: &mut Cache, haystack: &str) -> Option<usize>
        requires { cache.old.fits ≡ fit_of self.now.program }
        ensures { EndsWith self.now haystack.now 0 result cache.old cache.new }
    {
        self.shortest_match_at_with(cache, haystack, 0)
    }

    /// Like [`Regex::shortest_match_at`], but with a cache that fits. It allocates nothing and cannot fail.
    ///
    /// The search visits each state of the program at most once at each offset.
    pub fn shortest_match_at_with(
        &self,
        cache: &mut Cache,
        haystack: &str,
        start: usize,
    ) -> Option<usize>
        requires { MaySearch self.now haystack.now start cache.old }
        ensures { EndsWith self.now haystack.now start result cache.old cache.new }
    {
        self.over_bytes()
            .shortest_match_at_with(&mut cache.cache, haystack.as_bytes(), start)
    }
}
