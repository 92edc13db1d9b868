//! Caches that are kept, and groups that are read after their regex is dropped.

use crate::expect::expect_equal;
use bites_bytes::bytes::{Cache, Captures, Error, Regex};
use std::alloc::Global;
use std::ops::Range;

// Returns whether the cache fits the regex of the pattern, and if so the first match.
fn found(
    alloc: Global,
    cache: &mut Cache,
    pattern: &str,
    haystack: &str,
) -> Result<(bool, Option<(usize, usize)>), Error> {
    let regex = Regex::new(alloc, pattern)?;
    if !cache.fits(&regex) {
        return Ok((false, None));
    }
    match regex.find_with(cache, haystack.as_bytes()) {
        Some(found) => Ok((true, Some((found.start(), found.end())))),
        None => Ok((true, None)),
    }
}

// Returns a cache for the regex of a pattern. The regex is dropped.
fn cache_of(alloc: Global, pattern: &str) -> Result<Cache, Error> {
    Ok(Regex::new(alloc, pattern)?.cache()?)
}

/// The programs of `a` and `b` have 4 states, 2 slots and 3 targets each.
#[test]
fn one_cache_for_haystacks_and_regexes(rt: HostRuntime) -> Result<(), Error> {
    let mut cache = cache_of(rt.alloc(), "a")?;
    for (pattern, haystack, wanted) in &[
        ("a", "xa", (true, Some((1, 2)))),
        ("b", "ab", (true, Some((1, 2)))),
        ("a", "xa", (true, Some((1, 2)))),
        ("a", "", (true, None)),
        ("ab", "ab", (false, None)),
    ] {
        let found = found(rt.alloc(), &mut cache, pattern, haystack);
        expect_equal(&rt, &found, &Ok(*wanted), pattern);
    }
    Ok(())
}

// Returns the groups of a match. The regex is dropped.
fn captures_of<'h>(
    alloc: Global,
    pattern: &str,
    haystack: &'h [u8],
) -> Result<Option<Captures<'h>>, Error> {
    Ok(Regex::new(alloc, pattern)?.captures(haystack)?)
}

// Returns where the group of this name stands.
fn range_of(captures: &Captures<'_>, name: &str) -> Option<Range<usize>> {
    Some(captures.name(name)?.range())
}

#[test]
fn captures_outlive_their_regex(rt: HostRuntime) -> Result<(), Error> {
    let range = match captures_of(rt.alloc(), "a(?<x>b)", b"cab")? {
        Some(captures) => range_of(&captures, "x"),
        None => None,
    };
    expect_equal(&rt, &range, &Some(2..3), "x");
    Ok(())
}
