//! Runs of the program `bites` on the words of a line.

use crate::expect::expect_equal;
use bites_cli::run;
use std::alloc::{AllocError, Global};
use std::io::{Read, Write};
use std::process::Abort;

/// Returns the words of a line, separated by single spaces. Two spaces, or a space at the end, give an empty word.
fn words_of(alloc: Global, line: &str) -> Result<Vec<String>, AllocError> {
    let mut words = Vec::new(alloc);
    for word in line.split(' ') {
        words.push(String::from_str(alloc, word)?)?;
    }
    Ok(words)
}

/// Runs the program on the words of a line and these streams.
pub fn run_on<R: Read, W: Write, E: Write>(
    alloc: Global,
    line: &str,
    input: &mut R,
    out: &mut W,
    err: &mut E,
) -> Result<u8, AllocError> {
    let words = words_of(alloc, line)?;
    Ok(run(alloc, words.as_slice(), input, out, err))
}

/// Compares the status and what is written on both streams.
fn expect(rt: &(impl Abort + AllocGlobal), line: &str, mut input: &[u8], wanted: (u8, &str, &str)) {
    let mut out = Vec::new(rt.alloc());
    let mut err = Vec::new(rt.alloc());
    let status = run_on(rt.alloc(), line, &mut input, &mut out, &mut err);
    let left = (status, out.as_slice(), err.as_slice());
    let wanted = (Ok(wanted.0), wanted.1.as_bytes(), wanted.2.as_bytes());
    expect_equal(rt, &left, &wanted, line);
}

/// Compares the status and what is written for each line and its input. Nothing may be reported.
pub fn expect_answers(rt: &(impl Abort + AllocGlobal), rows: &[(&str, &[u8], u8, &str)]) {
    for (line, input, status, out) in rows {
        expect(rt, line, input, (*status, out, ""));
    }
}

/// Compares what is reported for each line that has a fault, with an input that matches. Nothing may be written.
pub fn expect_faults(rt: &(impl Abort + AllocGlobal), rows: &[(&str, &str)]) {
    for (line, told) in rows {
        expect(rt, line, b"a", (2, "", told));
    }
}
