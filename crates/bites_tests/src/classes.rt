//! Classes of characters that a table tells apart.

use crate::compiled::program;
use crate::expect::expect_equal;
use bites_table::classes::Classes;
use bites_text::error::Error;
use std::alloc::Global;
use std::process::Abort;

// Returns the classes of the pattern's program, or `None` if there are too many.
fn classes_of(alloc: Global, pattern: &str) -> Result<Option<Classes>, Error> {
    let program = program(alloc, pattern)?;
    Ok(Classes::new(alloc, &program))
}

// Returns the number of the pattern's classes, or `None` if there are too many.
fn len(alloc: Global, pattern: &str) -> Result<Option<usize>, Error> {
    match classes_of(alloc, pattern)? {
        Some(classes) => Ok(Some(classes.len())),
        None => Ok(None),
    }
}

fn expect_len(rt: &(impl Abort + AllocGlobal), pattern: &str, wanted: Option<usize>) {
    expect_equal(rt, &len(rt.alloc(), pattern), &Ok(wanted), pattern);
}

// Returns whether two characters are of one class of the pattern.
fn are_alike(alloc: Global, pattern: &str, pair: &[char; 2]) -> Result<bool, Error> {
    match classes_of(alloc, pattern)? {
        Some(classes) => Ok(classes.of(Some(pair[0])) == classes.of(Some(pair[1]))),
        None => Err(Error::Memory),
    }
}

/// Each row has a pattern, the number of its classes with that of the end, two characters of one class, and two that are
/// told apart. All were worked out by hand.
#[test]
fn counted_by_hand(rt: HostRuntime) {
    for (pattern, wanted, alike, apart) in &[
        ("[a-z]+", 3, ['b', 'y'], ['z', '{']),
        (r"\w+", 3, ['0', '_'], ['_', '`']),
        ("(?i)k", 3, ['K', 'k'], ['k', 'l']),
        (r"\b", 3, ['A', '9'], ['9', ':']),
        (".", 3, ['\r', 'é'], ['\n', '\r']),
        ("^a$", 3, ['\n', 'b'], ['a', 'b']),
        ("(?m)^a", 4, ['\r', 'b'], ['\n', 'b']),
        ("(?m)a$", 4, ['\r', 'b'], ['\n', 'b']),
        ("(?Rm)a$", 5, ['b', 'c'], ['\r', 'b']),
        (r"\ba", 4, ['b', 'Z'], ['a', 'b']),
        ("[a-c]|[b-d]", 5, ['b', 'c'], ['a', 'b']),
        ("x[^x]x", 3, ['w', 'y'], ['w', 'x']),
        ("é|[α-ω]", 4, ['β', 'ψ'], ['é', 'ê']),
        (
            r"[\x{D7FF}\x{E001}]",
            3,
            ['\u{D7FF}', '\u{E001}'],
            ['\u{D7FF}', '\u{E000}'],
        ),
        (
            r"\x{10FFFF}",
            3,
            ['a', '\u{10FFFE}'],
            ['\u{10FFFE}', '\u{10FFFF}'],
        ),
    ] {
        expect_len(&rt, pattern, Some(*wanted));
        expect_equal(
            &rt,
            &are_alike(rt.alloc(), pattern, alike),
            &Ok(true),
            pattern,
        );
        expect_equal(
            &rt,
            &are_alike(rt.alloc(), pattern, apart),
            &Ok(false),
            pattern,
        );
    }
}

// Returns the number of classes of a pattern of 253 different characters and these.
fn len_of_many(alloc: Global, others: &str) -> Result<Option<usize>, Error> {
    let mut pattern = String::new(alloc);
    for number in 0x400..0x4FDu32 {
        pattern.push(char::from_u32(number).unwrap_or('a'))?;
    }
    pattern.push_str(others)?;
    len(alloc, &pattern)
}

/// Where all characters are one class, and where each has its own and one is too many.
#[test]
fn one_class_and_too_many(rt: HostRuntime) {
    expect_len(&rt, "(?s).*", Some(2));
    for (others, wanted) in &[("", Some(255)), ("a", None)] {
        let found = len_of_many(rt.alloc(), others);
        expect_equal(&rt, &found, &Ok(*wanted), others);
    }
}
