//! The errors: their messages, and what comparisons and copies promise.

ghost use Rattle.std.specs.Prelude.{◌≡◌, ◌↔◌, IsTrue, Ok};

use crate::expect::expect_equal;
use bites_text::error::Error;
use regex_bites::RegexBuilder;
use std::alloc::{AllocError, Global};
use std::process::Abort;

// What `==` and `clone` promise their callers.
fn same(a: &Error, b: &Error) -> bool
    ensures { IsTrue result ↔ (a.now ≡ b.now) }
{
    a == b
}

fn copied(error: &Error) -> Result<Error, AllocError>
    ensures { result ≡ Ok error.now }
{
    error.clone()
}

// Compares the name of an error and the message of its copy with this text.
fn expect_shown(
    rt: &(impl Abort + AllocGlobal),
    error: &Error,
    text: &str,
) -> Result<(), AllocError> {
    let copy = copied(error)?;
    let shown = format!(in rt.alloc(); "{error:?}: {copy}")?;
    expect_equal(rt, &shown.as_str(), &text, text);
    expect_equal(rt, &text.ends_with(error.text()), &true, text);
    expect_equal(rt, &error.is_memory(), &same(error, &Error::Memory), text);
    Ok(())
}

/// The messages that no row has, and one that rows have.
#[test]
fn texts(rt: HostRuntime) -> Result<(), AllocError> {
    for (error, text) in &[
        (
            Error::UnclosedGroup,
            "UnclosedGroup: found open group without closing ')'",
        ),
        (
            Error::TooManySlots,
            "TooManySlots: capture group slots exhausted",
        ),
    ] {
        expect_shown(&rt, error, text)?;
    }
    expect_shown(&rt, &Error::from(AllocError), "Memory: out of memory")
}

// Returns what is written of the first fault of a pattern with its place, or the empty text.
fn shown_fault(alloc: Global, pattern: &str) -> Result<String, Error> {
    match RegexBuilder::new(alloc, pattern)?.syntax_error()? {
        Some(fault) => Ok(format!(in alloc; "{fault}")?),
        None => Ok(String::new(alloc)),
    }
}

/// The message that refuses a pattern is written with its place.
#[test]
fn faults_with_their_places(rt: HostRuntime) -> Result<(), Error> {
    for (pattern, text) in &[
        (
            "(*a",
            "uncounted repetition operator must be applied to a sub-expression at offset 1",
        ),
        (
            "\u{e9}*)",
            "found closing ')' without matching '(' at offset 3",
        ),
        ("a", ""),
    ] {
        let shown = shown_fault(rt.alloc(), pattern)?;
        expect_equal(&rt, &shown.as_str(), text, pattern);
    }
    Ok(())
}

#[test]
fn comparisons(rt: HostRuntime) {
    let name = Error::DuplicateName;
    expect_equal(&rt, &same(&name, &Error::DuplicateName), &true, "alike");
    expect_equal(
        &rt,
        &same(&name, &Error::DuplicateFlag),
        &false,
        "not alike",
    );
}
