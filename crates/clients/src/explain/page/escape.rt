//! Texts of a page.

use crate::explain::haystack::Piece;
use crate::explain::output::Output;
use crate::explain::text::is_plain;

/// The characters that can't be seen, or change how others are seen: the first and the last one of each range.
static HIDDEN: &[(char, char)] = &[
    ('\0', '\x1F'),
    ('\x7F', '\u{A0}'),
    ('\u{AD}', '\u{AD}'),
    ('\u{34F}', '\u{34F}'),
    ('\u{61C}', '\u{61C}'),
    ('\u{115F}', '\u{1160}'),
    ('\u{1680}', '\u{1680}'),
    ('\u{17B4}', '\u{17B5}'),
    ('\u{180B}', '\u{180F}'),
    ('\u{2000}', '\u{200F}'),
    ('\u{2028}', '\u{202F}'),
    ('\u{205F}', '\u{206F}'),
    ('\u{3000}', '\u{3000}'),
    ('\u{3164}', '\u{3164}'),
    ('\u{E000}', '\u{F8FF}'),
    ('\u{FE00}', '\u{FE0F}'),
    ('\u{FEFF}', '\u{FEFF}'),
    ('\u{FFA0}', '\u{FFA0}'),
    ('\u{FFF0}', '\u{FFFB}'),
    ('\u{FFFE}', '\u{FFFF}'),
    ('\u{E0000}', '\u{10FFFF}'),
];

/// Writes a text so that each of its characters can be seen.
pub(super) fn write_shown(text: &str, out: &mut Output) {
    for c in text.chars() {
        write_shown_char(c, out);
    }
}

/// Writes the pieces so that each can be seen.
pub(super) fn write_pieces(pieces: &[Piece<'_>], out: &mut Output) {
    for piece in pieces {
        write_piece(piece, out);
    }
}

/// Writes a piece so that it can be seen. Bytes that are no character are written by their numbers.
pub(super) fn write_piece(piece: &Piece<'_>, out: &mut Output) {
    match piece.decoded {
        Some(c) => write_shown_char(c, out),
        None => write_bytes(piece.bytes, out),
    }
}

fn write_bytes(bytes: &[u8], out: &mut Output) {
    out.put("<i>");
    for byte in bytes {
        write!(out, "\\x{byte:02X}");
    }
    out.put("</i>");
}

/// Writes a character so that it can be seen.
pub(super) fn write_shown_char(c: char, out: &mut Output) {
    match c {
        '\n' => out.put("<i>\\n</i>"),
        '\r' => out.put("<i>\\r</i>"),
        '\t' => out.put("<i>\\t</i>"),
        _ if is_hidden(c) => write!(out, "<i>\\u{{{:X}}}</i>", c as u32),
        _ => write_char(c, out),
    }
}

// Returns whether a character can't be seen, or changes how others are seen.
fn is_hidden(c: char) -> bool {
    for (first, last) in HIDDEN {
        if *first <= c && c <= *last {
            return true;
        }
    }
    false
}

// Writes a character: visible ASCII as it is, but for the marks of HTML, and any other character by its number.
fn write_char(c: char, out: &mut Output) {
    if is_plain(c) || c == '\\' {
        write!(out, "{c}")
    } else {
        out.put_character("&#", c);
        out.put(";");
    }
}
