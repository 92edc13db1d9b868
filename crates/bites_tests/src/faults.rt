//! Faults of the program `bites`: which comes first, and what is reported.

use crate::expect::expect_equal;
use crate::words::{expect_faults, run_on};
use bites_cli::{refuse_words, run};
use std::alloc::AllocError;
use std::io::{self, Read, Write};
use std::process::Abort;

const USAGE: &str =
    "bites: usage: bites is|find|captures|split PATTERN or bites replace PATTERN TEMPLATE\n";

const CLOSING: &str = "bites: found closing ')' without matching '('\n";

const UNCLOSED: &str = "bites: found open group without closing ')'\n";

const BARE: &str = "bites: uncounted repetition operator must be applied to a sub-expression\n";

const NOT_READ: &str = "bites: cannot read standard input\n";

const NOT_WRITTEN: &str = "bites: cannot write standard output\n";

/// A line for each word, for which something is written over `banana`.
const LINES: &[&str] = &[
    "is a",
    "find a",
    "captures (a)",
    "split a",
    "replace a <$0>",
];

/// A line for each word, whose pattern is refused.
const UNOPENED: &[&str] = &[
    "is a)",
    "find a)",
    "captures a)",
    "split a)",
    "replace a) b",
];

/// Gives its bytes and then ends or fails.
#[derive(Drop)]
struct Source<'a> {
    left: &'a [u8],
    /// Whether it fails behind its bytes.
    is_broken: bool,
}

impl<'a> Source<'a> {
    fn whole(bytes: &'a [u8]) -> Source<'a> {
        Source {
            left: bytes,
            is_broken: false,
        }
    }
}

impl<'a> Read for Source<'a> {
    fn read(&mut self, buf: &mut [u8]) -> io::Result<usize> {
        if self.is_broken && self.left.is_empty() {
            return Err(io::Error::from(io::ErrorKind::Other));
        }
        self.left.read(buf)
    }
}

/// Takes `room` bytes and then fails. It counts its calls.
#[derive(Drop)]
struct Full {
    room: usize,
    calls: u64,
    /// Whether it fails when it is flushed.
    is_stuck: bool,
}

impl Full {
    fn with_room(room: usize) -> Full {
        Full {
            room,
            calls: 0,
            is_stuck: false,
        }
    }

    /// Returns what takes all bytes, and fails when it is flushed.
    fn stuck() -> Full {
        Full {
            room: usize::MAX,
            calls: 0,
            is_stuck: true,
        }
    }
}

impl Write for Full {
    fn write(&mut self, buf: &[u8]) -> io::Result<usize> {
        self.calls = self.calls.saturating_add(1);
        if self.room == 0 {
            return Err(io::Error::from(io::ErrorKind::StorageFull));
        }
        let taken = buf.len().min(self.room);
        self.room -= taken;
        Ok(taken)
    }

    fn flush(&mut self) -> io::Result<()> {
        if self.is_stuck {
            return Err(io::Error::from(io::ErrorKind::Other));
        }
        Ok(())
    }
}

/// Compares the status and what is reported for a line over these streams.
fn expect_told(
    rt: &(impl Abort + AllocGlobal),
    line: &str,
    mut input: Source<'_>,
    out: &mut Full,
    wanted: (u8, &str),
) {
    let mut err = Vec::new(rt.alloc());
    let status = run_on(rt.alloc(), line, &mut input, out, &mut err);
    let wanted = (Ok(wanted.0), wanted.1.as_bytes());
    expect_equal(rt, &(status, err.as_slice()), &wanted, line);
}

/// Compares what is reported for a line whose input fails, before anything is written.
fn expect_told_unwritten(rt: &(impl Abort + AllocGlobal), line: &str, told: &str) {
    let mut out = Full::with_room(0);
    let input = Source {
        left: b"ban",
        is_broken: true,
    };
    expect_told(rt, line, input, &mut out, (2, told));
    expect_equal(rt, &out.calls, &0, line);
}

/// Compares what is reported for a line whose output fails.
fn expect_not_written(rt: &(impl Abort + AllocGlobal), line: &str, input: &[u8], mut out: Full) {
    expect_told(rt, line, Source::whole(input), &mut out, (2, NOT_WRITTEN));
}

#[test]
fn words_and_patterns(rt: HostRuntime) {
    expect_faults(
        &rt,
        &[
            ("", USAGE),
            ("is", USAGE),
            ("replace", USAGE),
            ("is a b", USAGE),
            ("find a b", USAGE),
            ("captures a b", USAGE),
            ("split a b", USAGE),
            ("replace a", USAGE),
            ("replace a b c", USAGE),
            ("are a", USAGE),
            ("IS a", USAGE),
            (" a", USAGE),
            ("a is", USAGE),
            ("replaced a b", USAGE),
            // The words come before the pattern.
            ("find ( b", USAGE),
            ("replace (", USAGE),
            ("is (", UNCLOSED),
            ("find (", UNCLOSED),
            ("captures (", UNCLOSED),
            ("split (", UNCLOSED),
            ("replace ( $0", UNCLOSED),
            ("is *a", BARE),
        ],
    );
}

#[test]
fn no_words(rt: HostRuntime) {
    let mut out = Vec::new(rt.alloc());
    let mut err = Vec::new(rt.alloc());
    let mut input: &[u8] = b"a";
    let status = run(rt.alloc(), &[], &mut input, &mut out, &mut err);
    expect_equal(
        &rt,
        &(status, err.as_slice()),
        &(2, USAGE.as_bytes()),
        "no words",
    );
}

#[test]
fn words_that_are_refused(rt: HostRuntime) {
    for (kind, told) in &[
        (io::ErrorKind::OutOfMemory, "bites: out of memory\n"),
        (io::ErrorKind::InvalidData, USAGE),
    ] {
        let mut err = Vec::new(rt.alloc());
        let status = refuse_words(&io::Error::from(*kind), &mut err);
        expect_equal(&rt, &(status, err.as_slice()), &(2, told.as_bytes()), told);
    }
}

#[test]
fn patterns_come_before_reading(rt: HostRuntime) {
    for line in UNOPENED {
        expect_told_unwritten(&rt, line, CLOSING);
    }
}

#[test]
fn reading_comes_before_writing(rt: HostRuntime) {
    for line in LINES {
        expect_told_unwritten(&rt, line, NOT_READ);
    }
}

#[test]
fn writing(rt: HostRuntime) {
    for line in LINES {
        expect_not_written(&rt, line, b"banana", Full::with_room(2));
        expect_not_written(&rt, line, b"banana", Full::stuck());
    }
}

#[test]
fn writing_fails_in_mid_stream(rt: HostRuntime) -> Result<(), AllocError> {
    let many = "a".repeat(rt.alloc(), 20000)?;
    for line in &["find a", "captures (a)", "split a", "replace a <$0>"] {
        expect_not_written(&rt, line, many.as_bytes(), Full::with_room(10000));
    }
    Ok(())
}

#[test]
fn faults_that_cannot_be_told(rt: HostRuntime) {
    let mut input: &[u8] = b"banana";
    let mut out = Full::with_room(0);
    let mut err = Full::with_room(0);
    let status = run_on(rt.alloc(), "find a", &mut input, &mut out, &mut err);
    expect_equal(&rt, &status, &Ok(2), "find a");
}

#[test]
fn lines_are_written_together(rt: HostRuntime) -> Result<(), AllocError> {
    let many = "a".repeat(rt.alloc(), 500)?;
    for line in &["find a", "captures (a)", "split a"] {
        let mut out = Full::with_room(100000);
        expect_told(&rt, line, Source::whole(many.as_bytes()), &mut out, (0, ""));
        expect_equal(&rt, &(out.calls < 5), &true, line);
    }
    Ok(())
}
