//! Characters in bytes, against the published table and against std.

use crate::expect::expect_equal;
use bites_text::utf8::{decode, decode_lossy, is_word_byte};

/// The table of well-formed byte sequences, a range for each byte.
const ROWS: &[&[(u8, u8)]] = &[
    &[(0x00, 0x7F)],
    &[(0xC2, 0xDF), (0x80, 0xBF)],
    &[(0xE0, 0xE0), (0xA0, 0xBF), (0x80, 0xBF)],
    &[(0xE1, 0xEC), (0x80, 0xBF), (0x80, 0xBF)],
    &[(0xED, 0xED), (0x80, 0x9F), (0x80, 0xBF)],
    &[(0xEE, 0xEF), (0x80, 0xBF), (0x80, 0xBF)],
    &[(0xF0, 0xF0), (0x90, 0xBF), (0x80, 0xBF), (0x80, 0xBF)],
    &[(0xF1, 0xF3), (0x80, 0xBF), (0x80, 0xBF), (0x80, 0xBF)],
    &[(0xF4, 0xF4), (0x80, 0x8F), (0x80, 0xBF), (0x80, 0xBF)],
];

/// Each byte at an end of a range of the table, and the bytes next to it.
const BYTES: &[u8] = &[
    0x00, 0x7F, 0x80, 0x8F, 0x90, 0x9F, 0xA0, 0xBF, 0xC0, 0xC1, 0xC2, 0xDF, 0xE0, 0xE1, 0xEC, 0xED,
    0xEE, 0xEF, 0xF0, 0xF1, 0xF3, 0xF4, 0xF5, 0xFF,
];

/// Returns how many of the first bytes the row fits.
fn fitting(row: &[(u8, u8)], bytes: &[u8]) -> usize {
    let mut len = 0usize;
    for ((low, high), byte) in row.iter().zip(bytes) {
        if byte < low || high < byte {
            return len;
        }
        len = len.saturating_add(1);
    }
    len
}

/// Returns whether the bytes begin with a whole row, and the length of the first piece.
fn by_table(bytes: &[u8]) -> (bool, usize) {
    let mut longest = bytes.len().min(1);
    for row in ROWS {
        let len = fitting(row, bytes);
        if len == row.len() {
            return (true, len);
        }
        longest = longest.max(len);
    }
    (false, longest)
}

/// Returns the first piece as std's own decoder of lossy text reads it.
fn by_std(bytes: &[u8]) -> (Option<char>, usize) {
    match bytes.utf8_chunks().next() {
        None => (None, 0),
        Some(chunk) => match chunk.valid().chars().next() {
            Some(c) => (Some(c), c.len_utf8()),
            None => (None, chunk.invalid().len()),
        },
    }
}

/// Returns whether both decoders agree with the table and with std.
fn agree(bytes: &[u8]) -> bool {
    let (decoded, len) = decode(bytes);
    let lossy = (decoded.unwrap_or('\u{FFFD}'), len);
    decode_lossy(bytes) == lossy
        && (decoded, len) == by_std(bytes)
        && (decoded.is_some(), len) == by_table(bytes)
}

/// Like [`agree`], but for each prefix of the bytes.
fn agree_on_fronts(bytes: &[u8]) -> bool {
    for len in 0..=bytes.len() {
        if !agree(bytes.get(..len).unwrap_or(bytes)) {
            return false;
        }
    }
    true
}

/// Returns the last digit of a number to the base 24, as one of [`BYTES`].
fn last_digit(number: usize) -> u8 {
    BYTES.get(number % 24).copied().unwrap_or(0)
}

#[test]
fn boundary_bytes(rt: HostRuntime) {
    for number in 0..24 * 24 * 24 * 24 {
        let bytes = [
            last_digit(number / (24 * 24 * 24)),
            last_digit(number / (24 * 24)),
            last_digit(number / 24),
            last_digit(number),
        ];
        expect_equal(&rt, &(bytes, agree(&bytes)), &(bytes, true), "decoded");
    }
}

#[test]
fn short_boundary_bytes(rt: HostRuntime) {
    for number in 0..24 * 24 * 24 {
        let bytes = [
            last_digit(number / (24 * 24)),
            last_digit(number / 24),
            last_digit(number),
        ];
        expect_equal(
            &rt,
            &(bytes, agree_on_fronts(&bytes)),
            &(bytes, true),
            "decoded",
        );
    }
}

#[test]
fn worked_pieces(rt: HostRuntime) {
    for (bytes, piece) in &[
        (b"".as_slice(), (None, 0)),
        (b"\xF0\x82\x82\xAC", (None, 1)),
        (b"\xF0\x9D\x9D", (None, 3)),
        (b"\xE2\x98\xF0", (None, 2)),
        (b"\xED\xA0\x80", (None, 1)),
        (b"\xFF", (None, 1)),
        (b"\xE2\x98\x83!", (Some('\u{2603}'), 3)),
        (b"\xF4\x8F\xBF\xBF", (Some('\u{10FFFF}'), 4)),
    ] {
        expect_equal(&rt, &(*bytes, decode(bytes)), &(*bytes, *piece), "decoded");
    }
}

#[test]
fn word_bytes(rt: HostRuntime) {
    let word = b"0123456789ABCDEFGHIJKLMNOPQRSTUVWXYZ_abcdefghijklmnopqrstuvwxyz";
    for byte in 0..=255 {
        expect_equal(
            &rt,
            &(byte, is_word_byte(byte)),
            &(byte, word.contains(&byte)),
            "a byte",
        );
    }
}
