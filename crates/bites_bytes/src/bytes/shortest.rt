//! Searches that return where a match ends first.

ghost use Rattle.std.specs.Prelude.{◌≡◌, IfOk};
ghost use Rattle.bites_spec.specs.Found.{IsLeastEnd};
ghost use Rattle.bites_spec.specs.Counts.{fit_of};
ghost use Rattle.bites_bytes.specs.Calls.{EndsWith};
ghost use Rattle.bites_spec.specs.Utf8.{places};

use crate::bytes::{Cache, Regex};
use std::alloc::AllocError;

impl Regex {
    /// Returns the least offset at which any match ends, in bytes. The error is out of memory.
    ///
    /// The match need not be the one that [`Regex::find`] returns.
    ///
    /// ```rust
    /// let regex = Regex::new(rt.alloc(), "a+")?;
    /// assert_eq!(rt; regex.shortest_match(b"xaaa")?, Some(2));
    /// ```
    pub fn shortest_match(&self, haystack: &[u8]) -> Result<Option<usize>, AllocError>
        ensures { IfOk result (λ end. IsLeastEnd self.now.tree haystack.now (places haystack.now 0) end) }
    {
        self.shortest_match_at(haystack, 0)
    }

    /// Returns the least offset at which any match ends that begins at or after `start`, an offset in bytes. Past the
    /// end of the haystack nothing matches. The error is out of memory.
    ///
    /// Assertions look at the bytes before `start` too, so this differs from a search of the slice that begins there.
    pub fn shortest_match_at(
        &self,
        haystack: &[u8],
        start: usize,
    ) -> Result<Option<usize>, AllocError>
        ensures { IfOk result (λ end. IsLeastEnd self.now.tree haystack.now (places haystack.now start) end) }
    {
        let mut cache = Cache::for_slots(self.program(), 2)?;
        Ok(cache.shortest(self, haystack, start))
    }

    /// Like [`Regex::shortest_match`], but with a cache that fits. It allocates nothing and cannot fail.
    pub fn shortest_match_with(&self, cache: &mut Cache, haystack: &[u8]) -> Option<usize>
        requires { cache.old.fits ≡ fit_of self.now.program }
        ensures { EndsWith self.now haystack.now 0 result cache.old cache.new }
    {
        self.shortest_match_at_with(cache, haystack, 0)
    }

    /// Like [`Regex::shortest_match_at`], but with a cache that fits. It allocates nothing and cannot fail.
    ///
    /// The search visits each state of the program at most once at each offset.
    pub fn shortest_match_at_with(
        &self,
        cache: &mut Cache,
        haystack: &[u8],
        start: usize,
    ) -> Option<usize>
        requires { cache.old.fits ≡ fit_of self.now.program }
        ensures { EndsWith self.now haystack.now start result cache.old cache.new }
    {
        cache.shortest(self, haystack, start)
    }
}
