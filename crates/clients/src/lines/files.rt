//! The files that are searched.

use super::filter::{Filter, search};
use super::help::HELP;
use super::options::Show;
use bites_filter::fault::Fault;
use bites_filter::program::open;
use std::fs;
use std::io::{BufReader, Read, Write};

/// The name of standard input, where it is written.
pub(crate) const STANDARD_INPUT: &str = "(standard input)";

/// Searches the files in turn, or standard input if there are none. Reports each file that can't be read, and goes on.
///
/// Returns the status: 2 if a file could not be read, else 0 if a line is selected, else 1. For [`Show::Nothing`] the
/// first line that is selected ends the search with status 0.
pub(crate) fn search_files<'n, W: Write>(
    rt: &HostRuntime,
    filter: &mut Filter<'n>,
    files: &'n [String],
    out: &mut W,
) -> Result<u8, Fault> {
    let quiet = matches!(filter.format.show, Show::Nothing);
    if files.is_empty() {
        let any = search_input(rt, filter, rt.stdin(), out)?;
        return Ok(if any { 0 } else { 1 });
    }
    let mut status = 1;
    for name in files {
        match search_file(rt, filter, name.as_str(), out) {
            Ok(true) if quiet => return Ok(0),
            Ok(true) if status == 1 => status = 0,
            Ok(_) => {}
            Err(fault @ (Fault::File { .. } | Fault::Read(_))) => {
                status = fault.tell(HELP.program, &mut rt.stderr());
            }
            Err(fault) => return Err(fault),
        }
    }
    Ok(status)
}

// Searches the file of this name, or standard input for `-`. Returns whether a line is selected.
fn search_file<'n, W: Write>(
    rt: &HostRuntime,
    filter: &mut Filter<'n>,
    name: &'n str,
    out: &mut W,
) -> Result<bool, Fault> {
    if name == "-" {
        filter.format.name = STANDARD_INPUT;
        return search_input(rt, filter, rt.stdin(), out);
    }
    filter.format.name = name;
    let file = match fs::open(rt, name) {
        Ok(file) => file,
        Err(error) => return Err(Fault::of_file(rt.alloc(), name, error)),
    };
    match search_input(rt, filter, file, out) {
        Err(Fault::Read(error)) => Err(Fault::of_file(rt.alloc(), name, error)),
        searched => searched,
    }
}

// How many bytes are read at once.
const BUFFER: usize = 1 << 16;

// Searches an input through a buffer. Returns whether a line is selected.
fn search_input<R: Read + Drop, W: Write>(
    rt: &HostRuntime,
    filter: &mut Filter<'_>,
    input: R,
    out: &mut W,
) -> Result<bool, Fault> {
    let mut input = open(BufReader::with_capacity(rt.alloc(), BUFFER, input))?;
    search(rt.alloc(), filter, &mut input, out)
}
