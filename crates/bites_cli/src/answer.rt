//! What each word of the program writes. Offsets count bytes from the start of the haystack.
//!
//! The error of each call is that of the writer, or out of memory.

use crate::request::Task;
use bites_bytes::bytes::{Captures, Regex};
use std::borrow::CowSlice;
use std::io::{self, Write};

/// Whether something matched: the result of a run without a fault.
#[derive(Clone, Copy)]
pub(crate) enum Outcome {
    Found,
    Nothing,
}

/// Writes what the task asks for.
pub(crate) fn write_answer<W: Write>(
    regex: &Regex,
    task: Task<'_>,
    haystack: &[u8],
    out: &mut W,
) -> io::Result<Outcome> {
    match task {
        Task::Is => is_match(regex, haystack, out),
        Task::Find => find(regex, haystack, out),
        Task::Captures => captures(regex, haystack, out),
        Task::Split => split(regex, haystack, out),
        Task::Replace(template) => replace(regex, haystack, template.as_bytes(), out),
    }
}

// Writes `match` if the regex matches somewhere, else `none`.
fn is_match<W: Write>(regex: &Regex, haystack: &[u8], out: &mut W) -> io::Result<Outcome> {
    if regex.is_match(haystack)? {
        out.write_all(b"match\n")?;
        Ok(Outcome::Found)
    } else {
        out.write_all(b"none\n")?;
        Ok(Outcome::Nothing)
    }
}

// Writes a line `start..end` for each match.
fn find<W: Write>(regex: &Regex, haystack: &[u8], out: &mut W) -> io::Result<Outcome> {
    let mut outcome = Outcome::Nothing;
    for found in regex.find_iter(haystack)? {
        writeln!(out, "{}..{}", found.start(), found.end())?;
        outcome = Outcome::Found;
    }
    Ok(outcome)
}

// Writes a line with all groups for each match.
fn captures<W: Write>(regex: &Regex, haystack: &[u8], out: &mut W) -> io::Result<Outcome> {
    let mut outcome = Outcome::Nothing;
    for captures in regex.captures_iter(haystack)? {
        write_groups(&captures?, out)?;
        outcome = Outcome::Found;
    }
    Ok(outcome)
}

// Writes all groups on one line, from group 0 on: `start..end`, or `-` for one that doesn't participate.
fn write_groups<W: Write>(captures: &Captures<'_>, out: &mut W) -> io::Result<()> {
    let mut parting: &[u8] = b"";
    for group in captures.iter() {
        out.write_all(parting)?;
        match group {
            Some(found) => write!(out, "{}..{}", found.start(), found.end())?,
            None => out.write_all(b"-")?,
        }
        parting = b" ";
    }
    out.write_all(b"\n")
}

// Writes a line `start..end` for each piece. The pieces lie before the first match, between matches and after the last.
fn split<W: Write>(regex: &Regex, haystack: &[u8], out: &mut W) -> io::Result<Outcome> {
    let mut outcome = Outcome::Nothing;
    let mut start = 0;
    for found in regex.find_iter(haystack)? {
        writeln!(out, "{start}..{}", found.start())?;
        start = found.end();
        outcome = Outcome::Found;
    }
    writeln!(out, "{start}..{}", haystack.len())?;
    Ok(outcome)
}

// Writes the haystack with each match replaced by what the template stands for.
fn replace<W: Write>(
    regex: &Regex,
    haystack: &[u8],
    template: &[u8],
    out: &mut W,
) -> io::Result<Outcome> {
    let replaced = regex.replace_all(haystack, template)?;
    out.write_all(replaced.as_slice())?;
    // The haystack is borrowed exactly if nothing matches.
    match replaced {
        CowSlice::Borrowed(_) => Ok(Outcome::Nothing),
        CowSlice::Owned(_) => Ok(Outcome::Found),
    }
}
