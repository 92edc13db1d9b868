//! Searches that return whether the pattern matches a text.

ghost use Rattle.std.specs.Prelude.{◌≡◌, ◌↔◌, IsTrue, IfOk};
ghost use Rattle.bites_spec.specs.Found.{HasMatch};
ghost use Rattle.bites_spec.specs.Counts.{fit_of};
ghost use Rattle.bites_spec.specs.Utf8.{places};
ghost use Rattle.bites_bytes.specs.Calls.{TestsWith};
ghost use Rattle.regex_bites.specs.Borders.{MaySearch, MayStart};

use crate::string::{Cache, Regex};
use std::alloc::AllocError;

impl Regex {
    /// Returns whether the pattern matches anywhere in the haystack. The error is out of memory.
    ///
    /// The search stops at the first end of a match, and visits each state of the program at most once at each
    /// offset.
    ///
    /// ```rust
    /// let regex = Regex::new(rt.alloc(), r"^\d+$")?;
    /// assert!(rt; regex.is_match("2010")?);
    /// assert!(rt; !regex.is_match("in 2010")?);
    /// ```
    pub fn is_match(&self, haystack: &str) -> Result<bool, AllocError>
        ensures { IfOk result (λ found. IsTrue found ↔ HasMatch self.now.tree haystack.now (places haystack.now 0)) }
    {
        self.is_match_at(haystack, 0)
    }

    /// Returns whether the pattern matches at or after `start`, an offset in bytes. Past the end of the haystack
    /// nothing matches. A start within the haystack must be at a character boundary, as `str::is_char_boundary`
    /// tests. The error is out of memory.
    ///
    /// Assertions look at the bytes before `start` too, so this differs from a search of the slice that begins there.
    pub fn is_match_at(&self, haystack: &str, start: usize) -> Result<bool, AllocError>
        requires { MayStart haystack.now start }
        ensures { IfOk result (λ found. IsTrue found ↔ HasMatch self.now.tree haystack.now
            (places haystack.now start)) }
    {
        self.over_bytes().is_match_at(haystack.as_bytes(), start)
    }

    /// Like [`Regex::is_match`], but with a cache that fits. It allocates nothing and cannot fail.
    pub fn is_match_with(&self, cache: &mut Cache, haystack: &str) -> bool
        requires { cache.old.fits ≡ fit_of self.now.program }
        ensures { TestsWith self.now haystack.now 0 result cache.old cache.new }
    {
        self.is_match_at_with(cache, haystack, 0)
    }

    /// Like [`Regex::is_match_at`], but with a cache that fits. It allocates nothing and cannot fail.
    ///
    /// The search visits each state of the program at most once at each offset.
    pub fn is_match_at_with(&self, cache: &mut Cache, haystack: &str, start: usize) -> bool
        requires { MaySearch self.now haystack.now start cache.old }
        ensures { TestsWith self.now haystack.now start result cache.old cache.new }
    {
        self.over_bytes()
            .is_match_at_with(&mut cache.cache, haystack.as_bytes(), start)
    }
}
