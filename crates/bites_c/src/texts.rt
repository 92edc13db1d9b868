//! What a regex over texts requires of its arguments.

ghost use Rattle.std.specs.Prelude.{◌≡◌, ◌↔◌, IsTrue, IsUtf8, MatchBool, MatchOption, ⊤};
ghost use Rattle.bites_c.specs.Codes.{not_border};
ghost use Rattle.bites_c.specs.Texts.{AreUtf8, AsksAfter, AsksFrom, IsBorder};

use crate::codes::{NOT_BORDER, NOT_UTF8};

/// Returns the number that refuses a search from `start` on, if it is refused.
pub(crate) fn fault_from(is_text: bool, haystack: &[u8], start: usize) -> Option<u32>
    ensures { MatchOption result
        (IsTrue is_text → IsUtf8 haystack.now × IsBorder haystack.now start)
        (λ n. AsksFrom is_text haystack.now start n ⊤ ⊥) }
{
    if !is_text {
        return None;
    }
    if str::from_utf8(haystack).is_err() {
        return Some(NOT_UTF8);
    }
    fault_at(haystack, start)
}

/// Returns the number that refuses a search after a match that ends at `last`, or for the first match, if it is
/// refused. After a match the haystack is not checked again, so finding all matches checks it once.
pub(crate) fn fault_after(is_text: bool, haystack: &[u8], last: Option<usize>) -> Option<u32>
    ensures { MatchOption result
        (IsTrue is_text → MatchOption last (IsUtf8 haystack.now) (IsBorder haystack.now))
        (λ n. AsksAfter is_text haystack.now last n ⊤ ⊥) }
{
    if !is_text {
        return None;
    }
    match last {
        Some(end) => fault_at(haystack, end),
        None if str::from_utf8(haystack).is_err() => Some(NOT_UTF8),
        None => None,
    }
}

// Returns the number that refuses a search from this offset, if it is refused.
fn fault_at(haystack: &[u8], place: usize) -> Option<u32>
    ensures { MatchOption result (IsBorder haystack.now place)
        (λ n. (n ≡ not_border) × (IsBorder haystack.now place → ⊥)) }
{
    if is_border(haystack, place) {
        None
    } else {
        Some(NOT_BORDER)
    }
}

/// Returns whether the regex is over texts and one of these is not UTF-8.
pub(crate) fn refuses(is_text: bool, haystack: &[u8], other: &[u8]) -> bool
    ensures { MatchBool result (IsTrue is_text × (AreUtf8 haystack.now other.now → ⊥))
        (IsTrue is_text → AreUtf8 haystack.now other.now) }
{
    is_text && (str::from_utf8(haystack).is_err() || str::from_utf8(other).is_err())
}

/// Returns whether this offset is not within a character. No offset past the end is.
pub(crate) fn is_border(haystack: &[u8], place: usize) -> bool
    ensures { IsTrue result ↔ IsBorder haystack.now place }
{
    match haystack.get(place) {
        Some(byte) => *byte < 0x80 || *byte >= 0xC0,
        None => true,
    }
}
