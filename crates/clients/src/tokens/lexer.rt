//! The tokens of a text.

ghost use Rattle.std.specs.Prelude.{◌≡◌, ◌+◌, ◌≤◌, true, length, All, MatchOption, IfOk};
ghost use Rattle.std.specs.Io.KnownBytes.{Appends};
ghost use Rattle.clients.specs.Tokens.{AreWritten, line_at, token_line, escaped, escaped_byte};

use bites_filter::table::{Rule, furthest, name_of};
use std::io::{self, Write};

/// Where the tokens stop: the line and the byte of the text, both counted from 1.
#[derive(Clone, Copy)]
pub struct Stop {
    pub line: usize,
    pub byte: usize,
}

/// Writes the tokens of the text, each on a line. Returns the offset at which they stop: the end of the text, or the
/// first offset from which no rule matches any byte. The error is that of the writer.
pub fn write_tokens<W: Write>(rules: &mut [Rule], text: &[u8], out: &mut W) -> io::Result<usize>
    requires { All (λ r. r.regex.leftmost_longest ≡ true) rules.old }
    ensures { IfOk result (AreWritten rules.old text.now (W.contents out.old) (W.contents out.new)) }
{
    let mut start = 0;
    let mut token = furthest(rules, text, 0);
    while token.end > start {
        write_token(name_of(rules, token.rule), &text[start..token.end], out)?;
        start = token.end;
        token = furthest(rules, text, start);
    }
    out.flush()?;
    Ok(start)
}

// Writes the line of a token: the name of its rule, a tab and its text, both escaped.
fn write_token<W: Write>(name: &str, text: &[u8], out: &mut W) -> io::Result<()>
    ensures { IfOk result (λ _. Appends (W.contents out.old) (W.contents out.new) (token_line name.now text.now)) }
{
    write_escaped(name.as_bytes(), out)?;
    out.write_all(b"\t")?;
    write_escaped(text, out)?;
    out.write_all(b"\n")
}

// Writes the text with each tab as `\t`, each line feed as `\n` and each backslash as `\\`.
fn write_escaped<W: Write>(text: &[u8], out: &mut W) -> io::Result<()>
    ensures { IfOk result (λ _. Appends (W.contents out.old) (W.contents out.new) (escaped text.now)) }
{
    for byte in text {
        write_byte(*byte, out)?;
    }
    Ok(())
}

fn write_byte<W: Write>(byte: u8, out: &mut W) -> io::Result<()>
    ensures { IfOk result (λ _. Appends (W.contents out.old) (W.contents out.new) (escaped_byte byte)) }
{
    match byte {
        b'\\' => out.write_all(b"\\\\"),
        b'\t' => out.write_all(b"\\t"),
        b'\n' => out.write_all(b"\\n"),
        _ => out.write_all(&[byte]),
    }
}

/// Returns the line and the byte of an offset, or `None` for the end of the text.
pub fn stop_at(text: &[u8], end: usize) -> Option<Stop>
    requires { end ≤ length text.now }
    ensures { MatchOption result (end ≡ length text.now) (λ s. (s.byte ≡ end + 1) × (s.line ≡ line_at text.now end)) }
{
    if end == text.len() {
        return None;
    }
    let feeds = text[..end].iter().filter(|byte| **byte == b'\n').count();
    Some(Stop {
        line: feeds + 1,
        byte: end + 1,
    })
}
