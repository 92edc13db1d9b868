//! The numbers that calls return to C.

ghost use Rattle.std.specs.Prelude.{◌≡◌, [], ◌++◌, length, take, drop};
ghost use Rattle.bites_c.specs.Codes.{IsMessage, answer_text};
ghost use Rattle.bites_c.specs.Put.{with_nul};

use bites_text::error::of_number;

/// The call is done.
pub(crate) const DONE: u32 = 0;

/// The number of an error that is out of memory.
pub(crate) const NO_MEMORY: u32 = 58;

/// There is a match.
pub(crate) const MATCH: u32 = 100;

/// There is no match.
pub(crate) const NO_MATCH: u32 = 101;

/// The bytes are not UTF-8.
pub(crate) const NOT_UTF8: u32 = 102;

/// A handle holds nothing.
pub(crate) const EMPTY_HANDLE: u32 = 103;

/// The cache was made for a regex of another size.
pub(crate) const UNFIT_CACHE: u32 = 104;

/// The room that the caller gave is too small.
pub(crate) const TOO_SMALL: u32 = 105;

/// No group has the name, or the group has no name.
pub(crate) const NO_NAME: u32 = 106;

/// A span does not lie in the haystack.
pub(crate) const BAD_SPAN: u32 = 107;

/// An offset lies within a character.
pub(crate) const NOT_BORDER: u32 = 108;

/// Returns the message of a number, or the empty text if no error has the number.
pub(crate) fn text(code: u32) -> &'static str
    ensures { IsMessage code result.now [] }
{
    match of_number(code) {
        Some(error) => error.text(),
        None => "",
    }
}

/// Returns what a number from 100 on says, or the empty text if it says nothing.
pub(crate) fn answer_text(code: u32) -> &'static str
    ensures { result.now ≡ answer_text code }
{
    match code {
        MATCH => "a match was found",
        NO_MATCH => "no match was found",
        NOT_UTF8 => "a text is not UTF-8",
        EMPTY_HANDLE => "a handle holds nothing",
        UNFIT_CACHE => "the cache was made for a regex of another size",
        TOO_SMALL => "the room for the result is too small",
        NO_NAME => "no group has this number or name, or the group has no name",
        BAD_SPAN => "a span does not lie in the haystack",
        NOT_BORDER => "an offset lies within a character",
        _ => "",
    }
}

/// Returns the message of an error's number, or what another number says.
pub(crate) fn message(code: u32) -> &'static str
    ensures { IsMessage code result.now (answer_text code) }
{
    match of_number(code) {
        Some(error) => error.text(),
        None => answer_text(code),
    }
}

/// Puts as many of the first bytes of `text` into `out` as leave a byte, and a NUL after them. Without room nothing is
/// put. Returns the length of `text`.
pub(crate) fn put_with_nul(text: &[u8], out: &mut [u8]) -> usize
    ensures { (result ≡ length text.now) × (out.new ≡ with_nul text.now out.old) }
{
    let Some(most) = out.len().checked_sub(1) else {
        return text.len();
    };
    let n = text.len().min(most);
    let (front, rest) = out.split_at_mut(n);
    front.copy_from_slice(&text[..n]);
    rest[0] = 0;
    text.len()
}

/// Copies as many of the first bytes of `text` as fit into `buf`. Returns the length of `text`.
pub(crate) fn put(text: &[u8], buf: &mut [u8]) -> usize
    ensures { (result ≡ length text.now)
        × (buf.new ≡ take (length buf.old) text.now ++ drop (length text.now) buf.old) }
{
    let n = text.len().min(buf.len());
    let (front, _) = buf.split_at_mut(n);
    front.copy_from_slice(&text[..n]);
    text.len()
}
