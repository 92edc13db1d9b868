//! Decoding of UTF-8, for bytes that need not be UTF-8.
//!
//! Bytes are cut into pieces. A piece is a whole character, the longest prefix of one, or one byte that begins no
//! character.

ghost use Rattle.std.specs.Prelude.{◌≡◌, ◌∷◌, ◌<◌, ◌≤◌, IfNone, IfSome, IsSomeAnd, length};
ghost use Rattle.bites_spec.specs.Look as look;
ghost use Rattle.bites_spec.specs.Range.{in_range};
ghost use Rattle.bites_spec.specs.Utf8.{character, continuation, front_piece};
ghost use Rattle.bites_text.specs.Rows.{lies_at, second_range};

/// Returns the first piece of the bytes: its character, or `None` if it is not a whole one, and its length in bytes.
/// The length is 1 to 4, and 0 if there are no bytes.
///
/// It reads at most four bytes.
#[inline(always)]
pub fn decode(bytes: &[u8]) -> (Option<char>, usize)
    ensures decoded { result.0 ≡ (front_piece bytes.now).decoded }
    ensures len { result.1 ≡ (front_piece bytes.now).len }
    ensures short { result.1 ≤ 4 }
    ensures within { result.1 ≤ length bytes.now }
    ensures further { 0 < length bytes.now → 0 < result.1 }
{
    let [first, rest @ ..] = bytes else {
        return (None, 0);
    };
    match *first {
        0x00..=0x7F => (Some(char::from(*first)), 1),
        0xC2..=0xDF => decode_two(*first, rest),
        0xE0..=0xEF => decode_three(*first, rest),
        0xF0..=0xF4 => decode_four(*first, rest),
        _ => (None, 1),
    }
}

/// Like [`decode`], but returns U+FFFD where the piece is not a whole character.
#[inline(always)]
pub fn decode_lossy(bytes: &[u8]) -> (char, usize)
    ensures decoded { result.0 ≡ character (front_piece bytes.now) }
    ensures len { result.1 ≡ (front_piece bytes.now).len }
    ensures short { result.1 ≤ 4 }
    ensures within { result.1 ≤ length bytes.now }
    ensures further { 0 < length bytes.now → 0 < result.1 }
{
    let (decoded, len) = decode(bytes);
    (decoded.unwrap_or(char::REPLACEMENT_CHARACTER), len)
}

/// Returns the number of bytes of the character past ASCII that the bytes begin with, or `None` if they begin with no whole
/// one. The number is at least 2.
///
/// It reads at most four bytes, and doesn't work out which character they are.
#[inline(always)]
pub fn whole_len_past_ascii(bytes: &[u8]) -> Option<usize>
    ensures len { IfSome result (λ n. n ≡ (front_piece bytes.now).len) }
    ensures past_ascii { IfSome result (λ n. IsSomeAnd (front_piece bytes.now).decoded (λ c. 128 ≤ c)) }
    ensures none { IfNone result (IfSome (front_piece bytes.now).decoded (λ c. c < 128)) }
    ensures several { IfSome result (λ n. 2 ≤ n) }
    ensures within { IfSome result (λ n. n ≤ length bytes.now) }
{
    if bytes.len() < 2 {
        return None;
    }
    let first = bytes[0];
    match first {
        0xC2..=0xDF if has_continuation(bytes, 1) => Some(2),
        0xE0..=0xEF if has_continuation(bytes, 2) && has_second(first, bytes) => Some(3),
        0xF0..=0xF4
            if has_continuation(bytes, 2)
                && has_continuation(bytes, 3)
                && has_second(first, bytes) => Some(4),
        _ => None,
    }
}

/// Returns whether the byte is one of `0` to `9`, `A` to `Z`, `a` to `z` and `_`.
pub const fn is_word_byte(byte: u8) -> bool
    ensures { result ≡ look.is_word_byte byte }
{
    matches!(byte, b'0'..=b'9' | b'A'..=b'Z' | b'a'..=b'z' | b'_')
}

/// Decodes the first piece, whose first byte is that of a character of two bytes.
#[inline(never)]
fn decode_two(first: u8, rest: &[u8]) -> (Option<char>, usize)
    requires from { 0xC2 ≤ first }
    requires to { first ≤ 0xDF }
    ensures decoded { result.0 ≡ (front_piece (first ∷ rest.now)).decoded }
    ensures len { result.1 ≡ (front_piece (first ∷ rest.now)).len }
{
    match *rest {
        [second, ..] if is_continuation(second) => {
            let value = u32::from(first - 0xC0) * 64 + u32::from(second - 0x80);
            (char::from_u32(value), 2)
        }
        _ => (None, 1),
    }
}

/// Decodes the first piece, whose first byte is that of a character of three bytes.
#[inline(never)]
fn decode_three(first: u8, rest: &[u8]) -> (Option<char>, usize)
    requires from { 0xE0 ≤ first }
    requires to { first ≤ 0xEF }
    ensures decoded { result.0 ≡ (front_piece (first ∷ rest.now)).decoded }
    ensures len { result.1 ≡ (front_piece (first ∷ rest.now)).len }
{
    match *rest {
        [] => (None, 1),
        [second, ..] if !is_second(first, second) => (None, 1),
        [second, third, ..] if is_continuation(third) => {
            let high = u32::from(first - 0xE0) * 64 + u32::from(second - 0x80);
            (char::from_u32(high * 64 + u32::from(third - 0x80)), 3)
        }
        _ => (None, 2),
    }
}

/// Decodes the first piece, whose first byte is that of a character of four bytes.
#[inline(never)]
fn decode_four(first: u8, rest: &[u8]) -> (Option<char>, usize)
    requires from { 0xF0 ≤ first }
    requires to { first ≤ 0xF4 }
    ensures decoded { result.0 ≡ (front_piece (first ∷ rest.now)).decoded }
    ensures len { result.1 ≡ (front_piece (first ∷ rest.now)).len }
{
    match *rest {
        [] => (None, 1),
        [second, ..] if !is_second(first, second) => (None, 1),
        [_] => (None, 2),
        [_, third, ..] if !is_continuation(third) => (None, 2),
        [second, third, fourth, ..] if is_continuation(fourth) => {
            let high = u32::from(first - 0xF0) * 64 + u32::from(second - 0x80);
            let low = u32::from(third - 0x80) * 64 + u32::from(fourth - 0x80);
            (char::from_u32(high * 4096 + low), 4)
        }
        _ => (None, 3),
    }
}

/// Returns whether the byte at place 1 may follow `first`, the first byte of a character of three or four bytes.
#[inline(always)]
fn has_second(first: u8, bytes: &[u8]) -> bool
    ensures { result ≡ lies_at (second_range first) bytes.now 1 }
{
    1 < bytes.len() && is_second(first, bytes[1])
}

/// Returns whether a continuation byte stands at the place.
#[inline(always)]
fn has_continuation(bytes: &[u8], place: usize) -> bool
    ensures { result ≡ lies_at continuation bytes.now place }
{
    place < bytes.len() && is_continuation(bytes[place])
}

/// Returns whether `second` may follow `first`, the first byte of a character of three or four bytes.
#[inline(always)]
const fn is_second(first: u8, second: u8) -> bool
    ensures { result ≡ in_range (second_range first) second }
{
    match first {
        0xE0 => matches!(second, 0xA0..=0xBF),
        0xED => matches!(second, 0x80..=0x9F),
        0xF0 => matches!(second, 0x90..=0xBF),
        0xF4 => matches!(second, 0x80..=0x8F),
        _ => is_continuation(second),
    }
}

/// Returns whether the byte is a continuation byte.
#[inline(always)]
const fn is_continuation(byte: u8) -> bool
    ensures { result ≡ in_range continuation byte }
{
    matches!(byte, 0x80..=0xBF)
}
