//! Lines with their matches replaced.

ghost use Rattle.std.specs.Prelude.{ℕ, List, IfSome, OnOk};
ghost use Rattle.std.specs.Io.KnownBytes.{Appends};
ghost use Rattle.bites_filter.specs.Lines.{lines_of};
ghost use Rattle.clients.specs.Edited.{AreEdited};

use bites_bytes::bytes::Searcher;
use bites_filter::fault::Fault;
use bites_filter::lines::{LineTask, each_line, line_feed, without_line_feed};
use bites_filter::substitute::substitute;
use std::alloc::Global;
use std::io::{self, BufRead, Write};

/// What is replaced in each line, and by what.
#[derive(Drop)]
pub struct Editor<'t> {
    /// The regex that is searched for in each line, without the line feed at its end.
    pub searcher: Searcher,
    /// The template of what replaces each match.
    pub template: &'t [u8],
    /// How many matches of a line are replaced, or 0 for all.
    pub limit: usize,
}

impl<'t> LineTask for Editor<'t> {
    ghost use Rattle.bites_filter.specs.Lines.{WritesLine};
    ghost use Rattle.clients.specs.Edits.{Edits};

    ghost does = { WritesLine (λ s. s) Edits };

    fn line<W: Write>(&mut self, _number: u64, line: &[u8], out: &mut W) -> io::Result<bool> {
        let text = without_line_feed(line);
        let edited = substitute(&mut self.searcher, text, self.limit, self.template)?;
        out.write_all(edited.as_slice())?;
        out.write_all(line_feed(line))?;
        Ok(true)
    }
}

/// Writes each line with its first matches replaced, as many as the editor's limit says. After a fault, what was
/// written before it stays.
pub fn edit_lines<R: BufRead, W: Write>(
    alloc: Global,
    editor: &mut Editor<'_>,
    input: &mut R,
    out: &mut W,
) -> Result<(), Fault>
    ensures { OnOk result (IfSome (R.Read.remaining input.old) (λ bytes. (text : List ℕ)
        × AreEdited editor.old.searcher editor.old.template.now editor.old.limit (lines_of bytes) text
        × Appends (W.contents out.old) (W.contents out.new) text)) }
{
    each_line(alloc, editor, input, out)?;
    Ok(())
}
