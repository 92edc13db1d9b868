//! The tables of a set, which share a limit, and a search by a table that is traced.

use crate::expect::expect_equal;
use bites_bytes::bytes::{Error, How, Regex, RegexSet, SetError, Stretch};
use std::alloc::{AllocError, Global};
use std::test::Fail;

// Returns how many bytes the tables of the set take with this limit, and whether they are whole.
fn taken(set: &RegexSet, limit: usize) -> Result<(usize, bool), AllocError> {
    match set.prepared(limit, false)?.table_size() {
        Some(size) => Ok((size.bytes, size.is_whole)),
        None => Ok((0, false)),
    }
}

// Returns how many bytes the table of a pattern takes in a set, which never searches at one offset.
fn taken_alone(alloc: Global, pattern: &str) -> Result<usize, Error> {
    let regex = Regex::new(alloc, pattern)?.prepared_unanchored(1 << 20, false)?;
    match regex.table_size() {
        Some(size) => Ok(size.bytes),
        None => Ok(0),
    }
}

// Returns a set of two patterns.
fn set(alloc: Global) -> Result<RegexSet, SetError> {
    RegexSet::new(alloc, &["(b+)c", "^ad"])
}

// Returns whether the tables of the set take at most as many bytes as this limit.
fn fits(set: &RegexSet, limit: usize) -> Result<bool, AllocError> {
    Ok(taken(set, limit)?.0 <= limit)
}

#[test]
fn tables_of_a_set_keep_their_limit(rt: HostRuntime) -> Result<(), SetError> {
    let set = set(rt.alloc())?;
    for limit in &[0, 100, 1000, 1500, 2000, 3000, 4000] {
        expect_equal(&rt, &fits(&set, *limit), &Ok(true), "a limit");
    }
    Ok(())
}

// Returns how many bytes the tables of two patterns take together, each alone.
fn taken_apart(alloc: Global, first: &str, second: &str) -> Result<usize, Error> {
    let first = taken_alone(alloc, first)?;
    let second = taken_alone(alloc, second)?;
    Ok(first.saturating_add(second))
}

/// With ample room the tables are those that the patterns have alone.
#[test]
fn tables_of_a_set_are_those_of_its_patterns(rt: HostRuntime) -> Result<(), Fail> {
    let both = taken_apart(rt.alloc(), "(b+)c", "^ad")?;
    let set = set(rt.alloc())?;
    let taken = taken(&set, 1 << 20);
    expect_equal(&rt, &taken, &Ok((both, true)), "ample room");
    Ok(())
}

/// A builder makes the same tables.
#[test]
fn a_set_is_built_with_its_tables(rt: HostRuntime) -> Result<(), Fail> {
    let set = set(rt.alloc())?;
    let prepared = set.prepared(1 << 20, false)?;
    expect_equal(
        &rt,
        &set.table_size(),
        &prepared.table_size(),
        "a set as it is built",
    );
    Ok(())
}

// Returns where a stretch begins, and the name of how it is passed.
fn shown(stretch: &Stretch) -> (usize, &'static str) {
    let how = match stretch.how {
        How::Skipped { .. } => "skipped",
        How::Passed { .. } => "passed",
        How::Walked => "walked",
    };
    (stretch.from, how)
}

// Returns whether a search finds a match, and the stretch of this number, if there is one.
fn stretch(
    regex: &Regex,
    number: usize,
) -> Result<(bool, Option<(usize, &'static str)>), AllocError> {
    let traced = regex.trace_at(b"xyza", 1)?;
    Ok(match traced.stretches.get(number) {
        Some(stretch) => (traced.is_found, Some(shown(stretch))),
        None => (traced.is_found, None),
    })
}

/// With a table a search skips what can't begin a match. The list is not compared.
#[test]
fn searches_by_a_table_are_traced(rt: HostRuntime) -> Result<(), Error> {
    let regex = Regex::new(rt.alloc(), "a")?;
    for (number, wanted) in &[
        (0, Some((1, "skipped"))),
        (1, Some((3, "passed"))),
        (2, Some((4, "passed"))),
        (3, None),
    ] {
        let found = stretch(&regex, *number);
        expect_equal(&rt, &found, &Ok((true, *wanted)), "with a table");
    }
    Ok(())
}

fn without_table(alloc: Global, pattern: &str) -> Result<Regex, Error> {
    Ok(Regex::new(alloc, pattern)?.prepared(0, false)?)
}

/// Without a table a search is walked.
#[test]
fn searches_without_a_table_are_traced(rt: HostRuntime) -> Result<(), Error> {
    let regex = without_table(rt.alloc(), "a")?;
    let traced = regex.trace_at(b"xyza", 1)?;
    let walked = [Stretch {
        from: 1,
        how: How::Walked,
    }];
    expect_equal(
        &rt,
        &traced.stretches.as_slice(),
        &walked.as_slice(),
        "without a table",
    );
    Ok(())
}
