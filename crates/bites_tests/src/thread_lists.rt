//! Tables of thread lists: how many lists they have, and what is passed at once.

use crate::compiled::program;
use crate::expect::expect_equal;
use bites_table::kind::Kind;
use bites_table::table::{AtOnePlace, Table};
use bites_text::error::Error;
use std::alloc::Global;

// Returns the table of the pattern that takes at most so many bytes, with lists for these searches at one place.
fn table_of(
    alloc: Global,
    pattern: &str,
    limit: usize,
    at_one_place: AtOnePlace,
) -> Result<Option<Table>, Error> {
    let program = program(alloc, pattern)?;
    Ok(Table::new(alloc, &program, limit, at_one_place))
}

// Returns how many thread lists such a table has, and whether it is whole, if there is one.
fn lists(
    alloc: Global,
    pattern: &str,
    limit: usize,
    at_one_place: AtOnePlace,
) -> Result<Option<(usize, bool)>, Error> {
    match table_of(alloc, pattern, limit, at_one_place)? {
        Some(table) => {
            let size = table.size();
            Ok(Some((size.lists, size.is_whole)))
        }
        None => Ok(None),
    }
}

/// Each row has a pattern, a limit, the searches at one place for which there are lists, and the number of its thread lists and whether they
/// are whole. All were worked out by hand.
#[test]
fn lists_counted_by_hand(rt: HostRuntime) {
    for (pattern, limit, at_one_place, wanted) in &[
        ("a", 1 << 20, AtOnePlace::First, Some((5, true))),
        ("a", 1 << 20, AtOnePlace::Nothing, Some((4, true))),
        ("a", 1 << 20, AtOnePlace::Longest, Some((6, true))),
        ("^a", 1 << 20, AtOnePlace::First, Some((8, true))),
        ("^a", 1 << 20, AtOnePlace::Nothing, Some((7, true))),
        ("a", 0, AtOnePlace::First, None),
        ("a", 1, AtOnePlace::First, None),
    ] {
        let found = lists(rt.alloc(), pattern, *limit, *at_one_place);
        expect_equal(&rt, &found, &Ok(*wanted), pattern);
    }
}

// Returns where a search from the first byte of the haystack on stops to skip, if it begins by skipping, and whether nothing is
// found from there on any more. `kind` is that of the byte before.
fn passed(
    alloc: Global,
    pattern: &str,
    kind: Kind,
    haystack: &[u8],
) -> Result<(Option<usize>, bool), Error> {
    match table_of(alloc, pattern, 1 << 20, AtOnePlace::First)? {
        Some(table) => Ok(passed_by(&table, kind, haystack)),
        None => Err(Error::Memory),
    }
}

fn passed_by(table: &Table, kind: Kind, haystack: &[u8]) -> (Option<usize>, bool) {
    let number = table.root(false, kind);
    let skipped_to = match table.skip(number) {
        Some(skip) => Some(skip.set.skip_while(haystack, 0)),
        None => None,
    };
    (skipped_to, table.rest(number).is_some())
}

/// Each row has a pattern, the kind of the byte before, a haystack, where a search from its first byte on stops to skip, and
/// whether nothing is found from there on any more. All were worked out by hand.
#[test]
fn passed_at_once_by_hand(rt: HostRuntime) {
    for (pattern, kind, haystack, skipped_to, rests) in &[
        ("a", Kind::Other, "xyza", Some(3), false),
        ("a", Kind::Other, "xé a", Some(1), false),
        ("^a", Kind::Edge, "xyza", None, false),
        ("^a", Kind::Other, "xyza", None, true),
        ("^a$", Kind::Other, "xyza", None, true),
        ("a$", Kind::Other, "xyza", Some(3), false),
        (r"\ba", Kind::WordByte, "xya a", None, false),
        ("[etaoi]", Kind::Other, "xyza", None, false),
        (r"^ab\b", Kind::Edge, "xyza", None, false),
        (r"^ab\b", Kind::Other, "xyza", None, true),
        (r"^ab\b", Kind::WordByte, "xyza", None, true),
        (r"(?m)^a\b", Kind::Other, "xyza", None, false),
        (r"(?m)^a\b", Kind::WordByte, "xyz a", None, false),
        (r"(?:^|\b{start-half}^)a", Kind::Other, "xyza", None, false),
        (
            r"(?:^|\b{start-half}^)a",
            Kind::WordByte,
            "xyz a",
            None,
            false,
        ),
    ] {
        let found = passed(rt.alloc(), pattern, *kind, haystack.as_bytes());
        expect_equal(&rt, &found, &Ok((*skipped_to, *rests)), pattern);
    }
}
