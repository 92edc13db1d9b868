//! The text of `Debug` of a regex, a match, captures and the size of a table.

use crate::expect::expect_equal;
use bites_bytes::bytes;
use regex_bites::{Error, Regex, TableSize};
use std::fmt::Debug;
use std::process::Abort;

const PATTERN: &str = "(?<x>a)|b";

// Compares what `Debug` shows of a value with this text.
fn expect_shown<T: Debug>(rt: &(impl Abort + AllocGlobal), value: &T, wanted: &str) {
    let shown = format!(in rt.alloc(); "{value:?}");
    let shown = match &shown {
        Ok(shown) => shown.as_str(),
        Err(_) => "out of memory",
    };
    expect_equal(rt, &shown, &wanted, wanted);
}

#[test]
fn debug_shows_pattern_places_and_groups_of_bytes(rt: HostRuntime) -> Result<(), Error> {
    let regex = bytes::Regex::new(rt.alloc(), PATTERN)?;
    expect_shown(&rt, &regex, "Regex(\"(?<x>a)|b\")");
    let found = "Ok(Some(Match { start: 0, end: 1, bytes: [98] }))";
    expect_shown(&rt, &regex.find(b"b"), found);
    let captures = "Ok(Some(Captures({0: 0..1/[98], 1/\"x\": None})))";
    expect_shown(&rt, &regex.captures(b"b"), captures);
    Ok(())
}

#[test]
fn debug_shows_pattern_places_and_groups_of_texts(rt: HostRuntime) -> Result<(), Error> {
    let regex = Regex::new(rt.alloc(), PATTERN)?;
    expect_shown(&rt, &regex, "Regex(\"(?<x>a)|b\")");
    let found = "Ok(Some(Match { start: 0, end: 1, string: \"b\" }))";
    expect_shown(&rt, &regex.find("b"), found);
    let captures = "Ok(Some(Captures({0: 0..1/\"b\", 1/\"x\": None})))";
    expect_shown(&rt, &regex.captures("b"), captures);
    Ok(())
}

#[test]
fn debug_shows_the_size_of_a_table(rt: HostRuntime) {
    let size = TableSize {
        lists: 5,
        bytes: 300,
        is_whole: true,
    };
    let wanted = "TableSize { lists: 5, bytes: 300, is_whole: true }";
    expect_shown(&rt, &size, wanted);
}
