//! Searches that return whether the pattern matches.

ghost use Rattle.std.specs.Prelude.{◌≡◌, ◌↔◌, IsTrue, IfOk};
ghost use Rattle.bites_spec.specs.Found.{HasMatch};
ghost use Rattle.bites_spec.specs.Counts.{fit_of};
ghost use Rattle.bites_bytes.specs.Calls.{TestsWith};
ghost use Rattle.bites_spec.specs.Utf8.{places};

use crate::bytes::{Cache, Regex};
use std::alloc::AllocError;

impl Regex {
    /// Returns whether the pattern matches anywhere in the haystack. The error is out of memory.
    ///
    /// The search stops at the first end of a match, and visits each state of the program at most once at each
    /// offset.
    ///
    /// ```rust
    /// let regex = Regex::new(rt.alloc(), r"\bfoo\b")?;
    /// assert!(rt; regex.is_match(b"\xFFfoo\xFF")?);
    /// assert!(rt; !regex.is_match(b"food")?);
    /// ```
    pub fn is_match(&self, haystack: &[u8]) -> Result<bool, AllocError>
        ensures { IfOk result (λ found. IsTrue found ↔ HasMatch self.now.tree haystack.now (places haystack.now 0)) }
    {
        self.is_match_at(haystack, 0)
    }

    /// Returns whether the pattern matches at or after `start`, an offset in bytes. Past the end of the haystack
    /// nothing matches. The error is out of memory.
    ///
    /// Assertions look at the bytes before `start` too, so this differs from a search of the slice that begins there.
    pub fn is_match_at(&self, haystack: &[u8], start: usize) -> Result<bool, AllocError>
        ensures { IfOk result (λ found. IsTrue found ↔ HasMatch self.now.tree haystack.now
            (places haystack.now start)) }
    {
        let mut cache = Cache::for_slots(self.program(), 0)?;
        Ok(cache.is_match(self, haystack, start, false))
    }

    /// Like [`Regex::is_match`], but with a cache that fits. It allocates nothing and cannot fail.
    pub fn is_match_with(&self, cache: &mut Cache, haystack: &[u8]) -> bool
        requires { cache.old.fits ≡ fit_of self.now.program }
        ensures { TestsWith self.now haystack.now 0 result cache.old cache.new }
    {
        self.is_match_at_with(cache, haystack, 0)
    }

    /// Like [`Regex::is_match_at`], but with a cache that fits. It allocates nothing and cannot fail.
    ///
    /// The search visits each state of the program at most once at each offset.
    #[inline(always)]
    pub fn is_match_at_with(&self, cache: &mut Cache, haystack: &[u8], start: usize) -> bool
        requires { cache.old.fits ≡ fit_of self.now.program }
        ensures { TestsWith self.now haystack.now start result cache.old cache.new }
    {
        cache.is_match(self, haystack, start, false)
    }
}
