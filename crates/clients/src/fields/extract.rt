//! The fields of all lines of a log.

ghost use Rattle.std.specs.Prelude.{ℕ, List, IfOk, IfSome};
ghost use Rattle.std.specs.Io.KnownBytes.{Appends};
ghost use Rattle.bites_filter.specs.Lines.{lines_of};
ghost use Rattle.clients.specs.Rows.{told, AreExtracted};

use super::entry::Log;
use bites_filter::csv::write_row;
use bites_filter::fault::Fault;
use bites_filter::lines::{LineTask, each_line, without_line_feed};
use std::alloc::Global;
use std::io::{self, BufRead, Write};

/// A reader of entries, and a writer for the reports of lines that don't have the format.
#[derive(Drop)]
pub struct Extractor<E: Drop> {
    pub log: Log,
    pub err: E,
}

impl<E: Write + Drop> LineTask for Extractor<E> {
    ghost use Rattle.clients.specs.Rows.{Extracts};

    ghost does = { Extracts (λ s. E.contents s.err) };

    fn line<W: Write>(&mut self, number: u64, line: &[u8], out: &mut W) -> io::Result<bool> {
        let mut fields = [""; 7];
        if self.log.entry(without_line_feed(line), &mut fields)? {
            write_row(fields.as_slice(), out)?;
            return Ok(false);
        }
        tell(number, &mut self.err)?;
        Ok(true)
    }
}

// Reports that the line of this number does not have the format.
fn tell<E: Write>(number: u64, err: &mut E) -> io::Result<()>
    ensures { IfOk result (λ _. Appends (E.contents err.old) (E.contents err.new) (told number)) }
{
    writeln!(err, "fields: line {number} is not in the common log format")
}

/// Writes the fields of each line of the input that has the format, and reports each other line. Returns the number of
/// the other lines.
///
/// After a fault, what was written before it stays.
pub fn extract_fields<R: BufRead, W: Write, E: Write + Drop>(
    alloc: Global,
    extractor: &mut Extractor<E>,
    input: &mut R,
    out: &mut W,
) -> Result<u64, Fault>
    ensures { IfOk result (λ bad. IfSome (R.Read.remaining input.old) (λ bytes. (text : List ℕ) × (reports : List ℕ)
        × AreExtracted 0 (lines_of bytes) text reports bad
        × Appends (W.contents out.old) (W.contents out.new) text
        × Appends (E.contents extractor.old.err) (E.contents extractor.new.err) reports)) }
{
    let bad = each_line(alloc, extractor, input, out)?;
    Ok(bad)
}
