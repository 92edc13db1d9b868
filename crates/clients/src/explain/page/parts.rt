//! What a tree and a program have in common, in words.

use super::escape::write_shown_char;
use crate::explain::output::Output;
use bites_syntax::look::Look;

/// How many ranges of a class are written.
const MOST_RANGES: usize = 24;

/// Writes a character.
pub(super) fn write_character(c: char, out: &mut Output) {
    out.put("<code>");
    write_shown_char(c, out);
    out.put("</code>");
}

/// Writes the first ranges of a class, and how many others there are.
pub(super) fn write_class(ranges: &[(char, char)], out: &mut Output) {
    out.put(if ranges.is_empty() {
        "no character"
    } else {
        "one of"
    });
    for (first, last) in ranges.iter().take(MOST_RANGES) {
        out.put(" ");
        write_range(*first, *last, out);
    }
    if ranges.len() > MOST_RANGES {
        out.put_number(" and ", ranges.len() - MOST_RANGES);
        out.put(" more ranges");
    }
}

fn write_range(first: char, last: char, out: &mut Output) {
    write_character(first, out);
    if first < last {
        out.put("&#8211;");
        write_character(last, out);
    }
}

/// Returns what an assertion says.
pub(super) fn look_words(look: &Look) -> &'static str {
    match look {
        Look::Start => "at the start of the haystack",
        Look::End => "at the end of the haystack",
        Look::StartLF => "at the start of a line",
        Look::EndLF => "at the end of a line",
        Look::StartCRLF => "at the start of a line, also after a carriage return",
        Look::EndCRLF => "at the end of a line, also before a carriage return",
        Look::Word => "at the start or end of a word",
        Look::WordNegate => "not at the start or end of a word",
        Look::WordStart => "at the start of a word",
        Look::WordEnd => "at the end of a word",
        Look::WordStartHalf => "no word byte before",
        Look::WordEndHalf => "no word byte after",
    }
}
