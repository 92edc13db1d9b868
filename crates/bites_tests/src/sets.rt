//! Which patterns of a set match, with and without its search for literals.

use crate::expect::expect_equal;
use bites_bytes::bytes::RegexSet;
use std::alloc::AllocError;
use std::test::Fail;

/// Patterns with literals of each kind: of three bytes, in both cases, one of several, repeated, of one byte, of two, at the end and at the
/// start; without one; in a group that is repeated; and at the end of a pattern that matches at the start alone.
const PATTERNS: [&str; 11] = [
    "foo",
    "(?i)BAR",
    "ab|cdef|ghi",
    r"\.{3}",
    "x",
    "qu",
    "[0-9]+ms$",
    "^zap",
    "é",
    "(?:ha){2}",
    "^[a-z]*q$",
];

// Returns which patterns match at or after `start`, a bit for each.
fn matched(set: &RegexSet, haystack: &str, start: usize) -> Result<u32, AllocError> {
    let matches = set.matches_at(haystack.as_bytes(), start)?;
    let mut bits = 0u32;
    for number in (0..matches.len()).rev() {
        bits = bits
            .wrapping_mul(2)
            .wrapping_add(u32::from(matches.matched(number)));
    }
    Ok(bits)
}

/// Each row has a haystack, a start, and a bit for each pattern that matches from there on, that of the first pattern last. All were worked
/// out by hand.
#[test]
fn matches_by_hand(rt: HostRuntime) -> Result<(), Fail> {
    let plain = RegexSet::new(rt.alloc(), &PATTERNS)?;
    let prepared = plain.prepared(1 << 20, true)?;
    for (haystack, start, bits) in &[
        ("", 0, 0),
        ("fo", 0, 0),
        ("a foo, BaR", 0, 0b11),
        ("a foo, BaR", 3, 0b10),
        ("fo o. .. abc", 0, 0b100),
        ("cde ghi", 0, 0b100),
        ("zap... 12ms", 0, 0b11001000),
        ("zap... 12ms", 1, 0b01001000),
        ("12ms zap b\u{E4}r", 0, 0),
        ("qu\u{E9}x", 0, 0b100110000),
        ("haha", 0, 0b1000000000),
        ("hah ah aha", 0, 0),
        ("abq", 0, 0b10000000100),
        ("abq", 1, 0),
        ("abqu", 0, 0b100100),
    ] {
        expect_equal(
            &rt,
            &matched(&plain, haystack, *start),
            &Ok(*bits),
            haystack,
        );
        expect_equal(
            &rt,
            &matched(&prepared, haystack, *start),
            &Ok(*bits),
            haystack,
        );
    }
    Ok(())
}
