//! How calls on one regex agree.

ghost use Rattle.std.specs.Prelude.{◌≡◌, option_map, IfOk};
ghost use Rattle.bites_spec.specs.Counts.{fit_of};
ghost use Rattle.bites_bytes.specs.Matched as bytes;
ghost use Rattle.regex_bites.specs.Matched as texts;

/// Over byte strings.
pub mod over_bytes {
    use regex_bites::bytes::{Cache, Match, Regex};
    use std::alloc::AllocError;

    /// Returns the first match by a cache that served another search before, and by a fresh one: they are the same.
    pub fn find_with_used_cache<'h>(
        regex: &Regex,
        cache: &mut Cache,
        other: &[u8],
        haystack: &'h [u8],
    ) -> Result<(Option<Match<'h>>, Option<Match<'h>>), AllocError>
        requires { cache.old.fits ≡ fit_of regex.now.program }
        ensures { IfOk result
            (λ r. option_map bytes.excerpt_of r.0 ≡ option_map bytes.excerpt_of r.1) }
    {
        let _other = regex.find_with(cache, other);
        let kept = regex.find_with(cache, haystack);
        let fresh = regex.find(haystack)?;
        Ok((kept, fresh))
    }
}

/// Over texts.
pub mod over_texts {
    use regex_bites::{Cache, Match, Regex};
    use std::alloc::AllocError;

    /// Returns the first match by a cache that served another search before, and by a fresh one: they are the same.
    pub fn find_with_used_cache<'h>(
        regex: &Regex,
        cache: &mut Cache,
        other: &str,
        haystack: &'h str,
    ) -> Result<(Option<Match<'h>>, Option<Match<'h>>), AllocError>
        requires { cache.old.fits ≡ fit_of regex.now.program }
        ensures { IfOk result
            (λ r. option_map texts.excerpt_of r.0 ≡ option_map texts.excerpt_of r.1) }
    {
        let _other = regex.find_with(cache, other);
        let kept = regex.find_with(cache, haystack);
        let fresh = regex.find(haystack)?;
        Ok((kept, fresh))
    }
}
