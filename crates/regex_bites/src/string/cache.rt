//! The memory of searches.

ghost use Rattle.std.specs.Prelude.{◌≡◌, ◌↔◌, IsTrue, IfOk};
ghost use Rattle.bites_spec.specs.Counts.{fit_of};

use crate::string::Regex;
use bites_bytes::bytes;
use std::alloc::AllocError;
use std::fmt;
use std::marker::Model;

/// The memory of searches, made by [`Regex::cache`] and reused by the methods whose names end in `_with`.
///
/// No search makes it larger, and none changes what a later search returns.
///
/// For proofs: a contract sees which regexes it fits, what the last search visited, and how many searches it was used for.
pub struct Cache {
    // The memory of searches over bytes.
    pub(super) cache: bytes::Cache,
}

// A caller that drops one relies on this function, and on no type below it.
impl Drop for Cache {
    fn drop(self) {
        let Cache { cache: _ } = self;
    }
}

impl Model for Cache {
    ghost use Rattle.bites_spec.specs.Counts.{Room};

    ghost Value = { Room };

    ghost view = { λ a. a.cache };
}

impl Cache {
    /// Returns whether searches with this regex may use the cache. They may if it was made for a program with as many
    /// states, slots and targets.
    pub fn fits(&self, regex: &Regex) -> bool
        ensures { IsTrue result ↔ (self.now.fits ≡ fit_of regex.now.program) }
    {
        self.cache.fits(regex.over_bytes())
    }
}

impl Regex {
    /// Allocates a cache for the methods whose names end in `_with`. The error is out of memory.
    ///
    /// Make it once and reuse it. Its memory grows with the states and targets of the program times its slots. No
    /// search makes it larger.
    ///
    /// ```rust
    /// let regex = Regex::new(rt.alloc(), r"\d")?;
    /// let mut cache = regex.cache()?;
    /// assert!(rt; cache.fits(&regex));
    /// assert!(rt; regex.is_match_with(&mut cache, "b1"));
    /// assert!(rt; !regex.is_match_with(&mut cache, "b"));
    /// ```
    pub fn cache(&self) -> Result<Cache, AllocError>
        ensures { IfOk result (λ c. c.fits ≡ fit_of self.now.program) }
    {
        Ok(Cache {
            cache: self.over_bytes().cache()?,
        })
    }
}

impl fmt::Debug for Cache {
    fn fmt<W: fmt::Write>(&self, f: &mut fmt::Formatter<W>) -> fmt::Result {
        fmt::Debug::fmt(&self.cache, f)
    }
}
