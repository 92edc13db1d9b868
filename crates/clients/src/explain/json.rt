//! Parts of a JSON document that several of its values share.

use super::output::Output;
use bites_syntax::look::Look;

/// Writes a list of numbers.
pub(crate) fn write_numbers(numbers: &[u32], out: &mut Output) {
    out.begin("[");
    for number in numbers {
        out.put_item(*number as usize);
    }
    out.end("]");
}

/// Writes ranges of characters: of each its first and its last one, by their numbers.
pub(crate) fn write_ranges(ranges: &[(char, char)], out: &mut Output) {
    out.begin("[");
    for (first, last) in ranges {
        out.part();
        out.put_character("[", *first);
        out.put_character(",", *last);
        out.put("]");
    }
    out.end("]");
}

/// Writes an offset, or `null`.
pub(crate) fn write_offset(offset: Option<usize>, out: &mut Output) {
    match offset {
        Some(offset) => out.put_number("", offset),
        None => out.put("null"),
    }
}

/// Returns the name of an assertion.
pub(crate) fn look_name(look: &Look) -> &'static str {
    match look {
        Look::Start => "start",
        Look::End => "end",
        Look::StartLF => "start_lf",
        Look::EndLF => "end_lf",
        Look::StartCRLF => "start_crlf",
        Look::EndCRLF => "end_crlf",
        Look::Word => "word",
        Look::WordNegate => "word_negate",
        Look::WordStart => "word_start",
        Look::WordEnd => "word_end",
        Look::WordStartHalf => "word_start_half",
        Look::WordEndHalf => "word_end_half",
    }
}
