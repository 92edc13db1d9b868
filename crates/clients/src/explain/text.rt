//! Texts of a JSON document.

ghost use Rattle.std.specs.Prelude.{◌≡◌, ◌≤◌, flat_map, chars, IfOk};
ghost use Rattle.std.specs.Io.KnownBytes.{Appends};
ghost use Rattle.clients.specs.Json.{digit, unit, is_plain, pair, written_char, quoted, StaysInPlace};
ghost use Rattle.clients.specs.Haystack.{character_of};

use super::haystack::Piece;
use std::io::{self, Write};

/// Writes the text between quotes.
pub(crate) fn write_text<W: Write>(text: &str, out: &mut W) -> io::Result<()>
    ensures { IfOk result (λ _. Appends (W.contents out.old) (W.contents out.new)
        (quoted (flat_map written_char (chars text.now)))) }
{
    out.write_all(b"\"")?;
    write_chars(text, out)?;
    out.write_all(b"\"")
}

/// Writes the characters of the pieces between quotes, with U+FFFD for each piece that is no character.
pub(crate) fn write_lossy<W: Write>(pieces: &[Piece<'_>], out: &mut W) -> io::Result<()>
    ensures { IfOk result (λ _. Appends (W.contents out.old) (W.contents out.new)
        (quoted (flat_map (λ p. written_char (character_of p)) pieces.now))) }
{
    out.write_all(b"\"")?;
    write_pieces(pieces, out)?;
    out.write_all(b"\"")
}

fn write_chars<W: Write>(text: &str, out: &mut W) -> io::Result<()>
    ensures { IfOk result (λ _. Appends (W.contents out.old) (W.contents out.new)
        (flat_map written_char (chars text.now))) }
{
    for c in text.chars() {
        write_char(c, out)?;
    }
    Ok(())
}

fn write_pieces<W: Write>(pieces: &[Piece<'_>], out: &mut W) -> io::Result<()>
    ensures { IfOk result (λ _. Appends (W.contents out.old) (W.contents out.new)
        (flat_map (λ p. written_char (character_of p)) pieces.now)) }
{
    for piece in pieces {
        write_char(piece.character(), out)?;
    }
    Ok(())
}

// Writes a character of a text: as it is, or by the numbers of its UTF-16.
fn write_char<W: Write>(c: char, out: &mut W) -> io::Result<()>
    ensures { IfOk result (λ _. Appends (W.contents out.old) (W.contents out.new) (written_char c)) }
{
    let number = c as u32;
    if is_plain(c) {
        out.write_all(&[(number % 128) as u8])
    } else if number < 0x10000 {
        write_unit(number, out)
    } else {
        write_pair(number, out)
    }
}

// Writes the two numbers that UTF-16 has for a character above U+FFFF.
fn write_pair<W: Write>(number: u32, out: &mut W) -> io::Result<()>
    requires { 65536 ≤ number }
    ensures { IfOk result (λ _. Appends (W.contents out.old) (W.contents out.new) (pair number)) }
{
    write_unit(0xD800 + (number - 0x10000) / 1024, out)?;
    write_unit(0xDC00 + number % 1024, out)?;
    Ok(())
}

/// Returns whether the character is written as it is: it is visible, of ASCII, and means nothing in JSON or HTML.
pub(crate) fn is_plain(c: char) -> bool
    ensures { result ≡ is_plain c }
{
    matches!(c, ' '..='~') && !matches!(c, '"' | '\\' | '<' | '>' | '&' | '\'')
}

// Writes `\u` and the four digits of a number.
fn write_unit<W: Write>(number: u32, out: &mut W) -> io::Result<()>
    ensures { IfOk result (λ _. Appends (W.contents out.old) (W.contents out.new) (unit number)) }
{
    out.write_all(&[
        b'\\',
        b'u',
        digit(number / 4096),
        digit(number / 256),
        digit(number / 16),
        digit(number),
    ])
}

// Returns the last hexadecimal digit of a number.
fn digit(number: u32) -> u8
    ensures { result ≡ digit number }
{
    let digit = (number % 16) as u8;
    if digit < 10 {
        b'0' + digit
    } else {
        b'a' + (digit - 10)
    }
}

/// For proofs: nothing in a text ends it, or the element that the document stands in.
pub(crate) fn texts_stay_in_place()
    ensures { StaysInPlace }
{}
