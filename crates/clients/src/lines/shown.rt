//! What is written of a line that is selected.

ghost use Rattle.std.specs.Prelude.{◌≡◌, ◌∷◌, ◌++◌, [], List, ℕ, cond, map, flat_map, decimal, IfOk};
ghost use Rattle.std.specs.Io.KnownBytes.{Appends};
ghost use Rattle.bites_spec.specs.Captured.{excerpt, text_of};
ghost use Rattle.bites_spec.specs.Iteration.{spans_in};
ghost use Rattle.clients.specs.Selected.{IsShown, name_label, label, labelled, labelled_match, ending};

use super::options::{Format, Show};
use bites_bytes::bytes::Searcher;
use bites_filter::lines::without_line_feed;
use std::io::{self, Write};

// Writes what is shown of the line of this number.
pub(crate) fn write_shown<W: Write>(
    searcher: &mut Searcher,
    format: Format<'_>,
    number: u64,
    line: &[u8],
    out: &mut W,
) -> io::Result<()>
    ensures shown { IfOk result (λ _. (text : List ℕ) × IsShown searcher.old format.entry format.entry.show number line.now text
        × Appends (W.contents out.old) (W.contents out.new) text) }
    ensures same { searcher.new ≡ searcher.old }
{
    let text = without_line_feed(line);
    match format.show {
        Show::Lines => write_line(format, number, text, out),
        Show::Matches => {
            // The proof takes from here that the regex is compiled, and that its matches are those of its tree.
            searcher.regex().as_str();
            bites_spec::finds_are_successive();
            write_matches(searcher, format, number, text, out)
        }
        Show::Count | Show::Name | Show::Nothing => Ok(()),
    }
}

// Writes each match that is not empty on a line of its own.
fn write_matches<W: Write>(
    searcher: &mut Searcher,
    format: Format<'_>,
    number: u64,
    text: &[u8],
    out: &mut W,
) -> io::Result<()>
    ensures all { IfOk result (λ _. Appends (W.contents out.old) (W.contents out.new)
        (flat_map (λ e. labelled_match (label format.entry number) (text_of e))
        (map (excerpt text.now) (spans_in searcher.old text.now)))) }
    ensures same { searcher.new ≡ searcher.old }
{
    for found in searcher.find_iter(text) {
        write_match(format, number, found.as_bytes(), out)?;
    }
    Ok(())
}

// Writes the text on a line of its own, if it is not empty.
fn write_match<W: Write>(
    format: Format<'_>,
    number: u64,
    text: &[u8],
    out: &mut W,
) -> io::Result<()>
    ensures { IfOk result (λ _. Appends (W.contents out.old) (W.contents out.new)
        (labelled_match (label format.entry number) text.now)) }
{
    match text {
        [] => Ok(()),
        _ => write_line(format, number, text, out),
    }
}

// Writes the text on a line of its own, after what stands before it.
fn write_line<W: Write>(format: Format<'_>, number: u64, text: &[u8], out: &mut W) -> io::Result<()>
    ensures { IfOk result (λ _. Appends (W.contents out.old) (W.contents out.new)
        (labelled (label format.entry number) text.now)) }
{
    write_name_label(format, out)?;
    write_number_label(format.numbered, number, out)?;
    out.write_all(text)?;
    out.write_all(b"\n")
}

// Writes the name and a colon, if they are asked for.
fn write_name_label<W: Write>(format: Format<'_>, out: &mut W) -> io::Result<()>
    ensures { IfOk result (λ _. Appends (W.contents out.old) (W.contents out.new) (name_label format.entry)) }
{
    if !format.named {
        return Ok(());
    }
    out.write_all(format.name.as_bytes())?;
    out.write_all(b":")
}

// Writes the number and a colon, if they are asked for.
fn write_number_label<W: Write>(numbered: bool, number: u64, out: &mut W) -> io::Result<()>
    ensures { IfOk result (λ _. Appends (W.contents out.old) (W.contents out.new)
        (cond numbered (decimal number ++ 58 ∷ []) [])) }
{
    if !numbered {
        return Ok(());
    }
    write!(out, "{number}:")
}

// Writes how many lines are selected, if that is asked for.
pub(crate) fn write_ending<W: Write>(format: Format<'_>, count: u64, out: &mut W) -> io::Result<()>
    ensures { IfOk result (λ _. Appends (W.contents out.old) (W.contents out.new)
        (ending format.entry format.entry.show count)) }
{
    match format.show {
        Show::Count => {
            write_name_label(format, out)?;
            writeln!(out, "{count}")
        }
        Show::Lines | Show::Matches | Show::Name | Show::Nothing => Ok(()),
    }
}

// Writes the name on a line of its own, if a line is selected.
pub(crate) fn write_name<W: Write>(name: &str, any: bool, out: &mut W) -> io::Result<()>
    ensures { IfOk result (λ _. Appends (W.contents out.old) (W.contents out.new)
        (cond any (name.now ++ 10 ∷ []) [])) }
{
    if !any {
        return Ok(());
    }
    out.write_all(name.as_bytes())?;
    out.write_all(b"\n")
}
