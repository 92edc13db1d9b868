//! What the program `bites` does, over any reader and writers. The program itself passes the standard streams.
#![tactic(auto)]

mod answer;
mod fault;
mod request;

use answer::{Outcome, write_answer};
use bites_bytes::bytes::{Regex, RegexBuilder};
use fault::Fault;
use request::Request;
use std::alloc::Global;
use std::io::{self, BufWriter, Read, Write};

/// Runs the program on the words after its name. It reads `input` to its end as bytes.
///
/// The words are `is`, `find`, `captures` or `split` and a pattern, or `replace`, a pattern and a template.
///
/// - `is` writes `match` or `none`.
/// - `find` and `split` write a line `start..end` for each match or piece, in bytes from the start of the input.
/// - `captures` writes a line for each match: all its groups from 0 on as `start..end` or `-`, separated by spaces.
/// - `replace` writes the input with each match replaced by what the template stands for, and nothing else.
///
/// Returns the status: 0 if something matched, 1 if nothing did, 2 for a fault. Faults are found in this order: the
/// words, the pattern, reading, writing. Out of memory is found when it happens. What was written before a fault stays.
/// A fault is one line on `err`, and the status is 2 even if that line can't be written.
pub fn run<R: Read, W: Write, E: Write>(
    alloc: Global,
    words: &[String],
    input: &mut R,
    out: &mut W,
    err: &mut E,
) -> u8 {
    match command(alloc, words, input, out) {
        Ok(Outcome::Found) => 0,
        Ok(Outcome::Nothing) => 1,
        Err(fault) => tell(&fault, err),
    }
}

/// Writes one line to `err` that says why the words could not be read: out of memory, or the usage if a word is not
/// UTF-8, which can't be a pattern here. Returns the status 2.
pub fn refuse_words<E: Write>(error: &io::Error, err: &mut E) -> u8 {
    tell(&Fault::of_words(error), err)
}

// Writes the line of a fault. Returns the status 2, even if the line can't be written.
fn tell<E: Write>(fault: &Fault, err: &mut E) -> u8 {
    let _written = writeln!(err, "bites: {fault}");
    2
}

// Does what the words ask for.
fn command<R: Read, W: Write>(
    alloc: Global,
    words: &[String],
    input: &mut R,
    out: &mut W,
) -> Result<Outcome, Fault> {
    let request = Request::read(words)?;
    let mut builder = RegexBuilder::new(alloc, request.pattern)?;
    let regex = builder.prefilter(true).build()?;
    let haystack = read_all(alloc, input)?;
    match write_buffered(alloc, &regex, request, haystack.as_slice(), out) {
        Ok(outcome) => Ok(outcome),
        Err(error) => Err(Fault::of_writing(&error)),
    }
}

// Reads all bytes of the input.
fn read_all<R: Read>(alloc: Global, input: &mut R) -> Result<Vec<u8>, Fault> {
    let mut bytes = Vec::new(alloc);
    match input.read_to_end(&mut bytes) {
        Ok(_) => Ok(bytes),
        Err(error) => Err(Fault::of_reading(&error)),
    }
}

// Writes the answer through a buffer, so that there is no system call for each line.
fn write_buffered<W: Write>(
    alloc: Global,
    regex: &Regex,
    request: Request<'_>,
    haystack: &[u8],
    out: &mut W,
) -> io::Result<Outcome> {
    let mut buffered = BufWriter::new(alloc, out)?;
    let outcome = write_answer(regex, request.task, haystack, &mut buffered)?;
    buffered.flush()?;
    Ok(outcome)
}
