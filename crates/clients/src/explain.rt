//! `explain [-i] [-l] [-m] [-R] [-s] [-U] [-x] [--json] PATTERN`: writes a page that shows a search, place by place.
//! Its help says the rest (`explain/help.rt`).

mod haystack;
pub(crate) mod help;
mod json;
mod options;
mod order;
mod output;
mod page;
mod program_json;
mod report_json;
mod searches;
mod subject;
mod text;
mod tree_json;

use bites_filter::fault::Fault;
use bites_text::error::Error;
use haystack::read_haystack;
use options::{Form, Options};
use output::Output;
use searches::Report;
use std::alloc::{AllocError, Global};
use subject::{Refusal, Subject};

/// Does what the words ask for. Returns the status, or `None` if they are not words that it takes.
pub(crate) fn run(rt: &HostRuntime, words: &[String]) -> Result<Option<u8>, Fault> {
    let Some(options) = Options::read(words) else {
        return Ok(None);
    };
    Ok(Some(explain(rt, &options)?))
}

// Reads the haystack, and writes what is asked for. Returns the status.
fn explain(rt: &HostRuntime, options: &Options<'_>) -> Result<u8, Fault> {
    let haystack = read_haystack(rt.alloc(), &mut rt.stdin())?;
    answer(rt, options, &haystack)
}

// Writes what is asked for over this haystack. Returns the status.
fn answer(rt: &HostRuntime, options: &Options<'_>, haystack: &[u8]) -> Result<u8, Fault> {
    let mut out = Output::new(rt)?;
    let status = write(rt.alloc(), options, haystack, &mut out)?;
    out.finish()?;
    Ok(status)
}

// Writes what is found, or that the pattern is refused. Returns the status. The error is out of memory.
fn write(
    alloc: Global,
    options: &Options<'_>,
    haystack: &[u8],
    out: &mut Output,
) -> Result<u8, AllocError> {
    match Subject::read(alloc, options) {
        Ok(subject) => write_report(alloc, options, &subject, haystack, out),
        Err(Error::Memory) => Err(AllocError),
        Err(error) => write_refused(alloc, options, error, out),
    }
}

// Writes the report in the form that is asked for. Returns the status. The error is out of memory.
fn write_report(
    alloc: Global,
    options: &Options<'_>,
    subject: &Subject,
    haystack: &[u8],
    out: &mut Output,
) -> Result<u8, AllocError> {
    let report = Report::new(alloc, options, subject, haystack)?;
    match options.form {
        Form::Page => page::write_report(alloc, &report, out),
        Form::Json => report_json::write_report(&report, out),
    }
    Ok(0)
}

// Writes that the pattern is refused, in the form that is asked for. Returns the status. The error is out of memory.
fn write_refused(
    alloc: Global,
    options: &Options<'_>,
    error: Error,
    out: &mut Output,
) -> Result<u8, AllocError> {
    let refusal = Refusal::of(alloc, options, error)?;
    match options.form {
        Form::Page => page::write_refused(options, &refusal, out),
        Form::Json => report_json::write_refused(options, &refusal, out),
    }
    Ok(1)
}
