//! Long patterns: the grammar and the limits decide on each of them quickly.

use crate::expect::expect_equal;
use bites_bytes::bytes::{Error, Regex};
use std::alloc::{AllocError, Global};

/// How many times the marked part of a long pattern is repeated.
const MANY: usize = 1000000;

/// Returns the pattern with its part between `«` and `»` repeated [`MANY`] times.
fn long(alloc: Global, pattern: &str) -> Result<String, AllocError> {
    let (front, rest) = pattern.split_once('«').unwrap_or((pattern, ""));
    let (part, back) = rest.split_once('»').unwrap_or((rest, ""));
    let parts = part.repeat(alloc, MANY)?;
    format!(in alloc; "{front}{parts}{back}")
}

/// Returns the least end of a match of the pattern.
fn shortest(alloc: Global, pattern: &str, haystack: &str) -> Result<Option<usize>, Error> {
    let regex = Regex::new(alloc, pattern)?;
    Ok(regex.shortest_match(haystack.as_bytes())?)
}

/// Like [`shortest`], for a pattern with a part that is repeated.
fn shortest_of_long(alloc: Global, pattern: &str, haystack: &str) -> Result<Option<usize>, Error> {
    let pattern = long(alloc, pattern)?;
    shortest(alloc, &pattern, haystack)
}

#[test]
fn long_patterns_are_refused(rt: HostRuntime) {
    for (pattern, error) in &[
        ("a«*»", Error::TooMuchNesting),
        ("a«?»", Error::TooMuchNesting),
        ("a«{2}»", Error::TooMuchNesting),
        ("«(»", Error::TooMuchNesting),
        ("«(?:»", Error::TooMuchNesting),
        ("«[»", Error::NestedClass),
        // The height of the tree is checked after every other fault.
        ("a«*»(", Error::UnclosedGroup),
        ("«a»", Error::TooBig),
        ("«|»", Error::TooBig),
        ("«()»", Error::TooBig),
        ("«(?:)»", Error::TooBig),
        ("a{«1»}", Error::InvalidDecimal),
        ("a{«1»", Error::InvalidDecimal),
        ("\\x{«F»}", Error::BraceHexInvalid),
        ("\\x{«0»", Error::BraceHexUnclosed),
        ("[«a»", Error::UnclosedAfterMember),
        ("[«-»", Error::UnclosedAfterDash),
        ("(?x)[« »", Error::UnclosedClass),
        ("(?<«a»", Error::UnclosedName),
        ("\\b{«a»", Error::UnclosedBoundary),
        ("\\b{«a»}", Error::UnrecognizedBoundary),
        ("(?«i»)", Error::DuplicateFlag),
    ] {
        let answer = shortest_of_long(rt.alloc(), pattern, "");
        expect_equal(&rt, &answer, &Err(*error), pattern);
    }
}

#[test]
fn long_patterns_match(rt: HostRuntime) {
    for (pattern, haystack, end) in &[
        ("a«*»{0}", "a", 0),
        ("a«?»{0}", "a", 0),
        ("a«{1}»", "ba", 2),
        ("(?:«a»){0}", "a", 0),
        ("(?x)« »a", "ba", 2),
        ("(?x)«#(\n»a", "ba", 2),
        ("(?x)a#«(»", "ba", 2),
        ("(?x)[a« »]", "ba", 2),
        ("a{« »2}", "aaa", 2),
        ("(?x)a{2«#\n»}", "aaa", 2),
        ("[«a»]", "ba", 2),
        ("[«a-c»]", "dc", 2),
        ("[«-»]", "a-", 2),
        ("a{«0»2}", "aaa", 2),
        ("\\x{«0»61}", "ba", 2),
        ("(?<«a»>b)", "ab", 2),
    ] {
        let answer = shortest_of_long(rt.alloc(), pattern, haystack);
        expect_equal(&rt, &answer, &Ok(Some(*end)), pattern);
    }
}

#[test]
fn searches_never_turn_back(rt: HostRuntime) -> Result<(), Error> {
    let haystack = "a".repeat(rt.alloc(), 10000)?;
    for (pattern, end) in &[
        ("(?:a*)*b", None),
        ("(?:a|a)*b", None),
        ("(?:a*)*(?:a*)*$", Some(10000)),
        ("(?:a?){30}a{30}", Some(30)),
        ("(?:a*?){30}b", None),
        ("(?:(?:a{1,9}){1,9}){1,9}b", None),
    ] {
        let answer = shortest(rt.alloc(), pattern, &haystack);
        expect_equal(&rt, &answer, &Ok(*end), pattern);
    }
    Ok(())
}
