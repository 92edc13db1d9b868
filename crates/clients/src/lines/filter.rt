//! The lines in which a pattern matches somewhere, or the others.

ghost use Rattle.std.specs.Prelude.{◌≡◌, not, IfOk, IfSome, MatchBool};
ghost use Rattle.bites_filter.specs.Lines.{lines_of};
ghost use Rattle.clients.specs.Selected.{IsAnySelected, IsFiltered, IsSearched};

use super::options::{Format, Show};
use super::shown::{write_ending, write_name, write_shown};
use bites_bytes::bytes::Searcher;
use bites_filter::fault::Fault;
use bites_filter::lines::{
    LineTask, Tries, each_line, len_of_lines, next_line, skip_lines, without_line_feed,
};
use std::alloc::Global;
use std::io::{self, BufRead, Write};

/// Which lines are selected, and what is written of them.
#[derive(Drop)]
pub struct Filter<'n> {
    /// The regex that is searched for in each line, without the line feed at its end.
    pub searcher: Searcher,
    /// Whether to select the lines in which the regex doesn't match.
    pub invert: bool,
    /// What to write of each line.
    pub format: Format<'n>,
}

impl<'n> Filter<'n> {
    ghost use Rattle.clients.specs.Selected.{IsAskedFor};

    // Returns whether the line is selected.
    fn selects(&mut self, line: &[u8]) -> bool
        ensures asked { MatchBool result (IsAskedFor self.old.searcher.tree self.old.invert line.now)
            (IsAskedFor self.old.searcher.tree (not self.old.invert) line.now) }
        ensures same { self.new ≡ self.old }
    {
        self.searcher.is_match(without_line_feed(line)) != self.invert
    }
}

impl<'n> LineTask for Filter<'n> {
    ghost use Rattle.clients.specs.Filtered.{Filters};

    ghost does = { Filters };

    fn skip(&self, buffer: &[u8]) -> usize {
        if self.invert {
            return 0;
        }
        match self.searcher.regex().find_candidate_at(buffer, 0) {
            Some(at) => len_of_lines(&buffer[..at]),
            None => len_of_lines(buffer),
        }
    }

    fn line<W: Write>(&mut self, number: u64, line: &[u8], out: &mut W) -> io::Result<bool> {
        if !self.selects(line) {
            return Ok(false);
        }
        write_shown(&mut self.searcher, self.format, number, line, out)?;
        Ok(true)
    }
}

/// Searches the lines of an input, and writes what the filter's format asks for. Returns whether a line is selected.
///
/// For [`Show::Name`] and [`Show::Nothing`] it reads no further than the first such line. After a fault, what was
/// written before it stays.
pub fn search<R: BufRead, W: Write>(
    alloc: Global,
    filter: &mut Filter<'_>,
    input: &mut R,
    out: &mut W,
) -> Result<bool, Fault>
    ensures { IfOk result (λ any. IfSome (R.Read.remaining input.old) (λ bytes.
        IsSearched filter.old.searcher filter.old.invert filter.old.format filter.old.format.show (lines_of bytes)
        any (W.contents out.old) (W.contents out.new))) }
{
    match filter.format.show {
        Show::Lines | Show::Matches | Show::Count => {
            let count = write_lines(alloc, filter, input, out)?;
            Ok(count > 0)
        }
        Show::Name => {
            let any = any_line(alloc, filter, input)?;
            match write_name(filter.format.name, any, out) {
                Ok(()) => Ok(any),
                Err(error) => Err(Fault::of_writing(&error)),
            }
        }
        Show::Nothing => any_line(alloc, filter, input),
    }
}

// Writes what is shown of each line that is selected, in their order, and what is asked for at the end. Returns how
// many there are.
fn write_lines<R: BufRead, W: Write>(
    alloc: Global,
    filter: &mut Filter<'_>,
    input: &mut R,
    out: &mut W,
) -> Result<u64, Fault>
    ensures { IfOk result (λ count. IfSome (R.Read.remaining input.old) (λ bytes.
        IsFiltered filter.old.searcher filter.old.invert filter.old.format (lines_of bytes)
        count (W.contents out.old) (W.contents out.new))) }
{
    let format = filter.format;
    let count = each_line(alloc, filter, input, out)?;
    match write_ending(format, count, out) {
        Ok(()) => Ok(count),
        Err(error) => Err(Fault::of_writing(&error)),
    }
}

// Returns whether a line is selected. It reads no further than the first.
fn any_line<R: BufRead>(
    alloc: Global,
    filter: &mut Filter<'_>,
    input: &mut R,
) -> Result<bool, Fault>
    ensures any { IfOk result (λ any. IfSome (R.Read.remaining input.old) (λ bytes.
        IsAnySelected filter.old.searcher.tree filter.old.invert (lines_of bytes) any)) }
    ensures same { filter.new ≡ filter.old }
{
    let mut line = Vec::new(alloc);
    let mut tries = Tries::new();
    for _ in 0..u64::MAX {
        skip_lines(filter, input, &mut tries)?;
        if !next_line(input, &mut line)? {
            return Ok(false);
        }
        if filter.selects(&line) {
            return Ok(true);
        }
    }
    Err(Fault::too_long())
}
