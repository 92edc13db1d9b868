//! Groups of a match of the whole haystack, over bytes and over texts.

use crate::expect::expect_equal;
use bites_bytes::bytes::{self, Error};
use regex_bites::Regex;
use std::alloc::Global;

const PATTERN: &str = "(a|ab)(c|bcd)?";

// Returns whether a match is the whole haystack, and if so where its second group stands.
fn read_in_bytes(alloc: Global, haystack: &str) -> Result<(bool, Option<(usize, usize)>), Error> {
    let regex = bytes::Regex::new(alloc, PATTERN)?;
    let mut cache = regex.cache()?;
    let mut locations = regex.capture_locations()?;
    if !regex.captures_read_full_with(&mut cache, &mut locations, haystack.as_bytes()) {
        return Ok((false, None));
    }
    Ok((true, locations.get(2)))
}

// The same over texts.
fn read_in_text(alloc: Global, haystack: &str) -> Result<(bool, Option<(usize, usize)>), Error> {
    let regex = Regex::new(alloc, PATTERN)?;
    let mut cache = regex.cache()?;
    let mut locations = regex.capture_locations()?;
    if !regex.captures_read_full_with(&mut cache, &mut locations, haystack) {
        return Ok((false, None));
    }
    Ok((true, locations.get(2)))
}

/// Of the parses of the whole haystack the first counts, as worked out by hand: `a` and `bcd`, `ab` and `c`, and `ab` alone.
#[test]
fn groups_of_a_whole_haystack(rt: HostRuntime) {
    let alloc = rt.alloc();
    for (haystack, wanted) in &[
        ("abcd", (true, Some((1, 4)))),
        ("abc", (true, Some((2, 3)))),
        ("ab", (true, None)),
        ("abd", (false, None)),
    ] {
        expect_equal(&rt, &read_in_bytes(alloc, haystack), &Ok(*wanted), haystack);
        expect_equal(&rt, &read_in_text(alloc, haystack), &Ok(*wanted), haystack);
    }
}
