//! The span of a match or of a group, as C reads it.

ghost use Rattle.std.specs.Prelude.{◌≡◌, ◌↔◌, IsTrue, is_some, length, option_map};
ghost use Rattle.bites_spec.specs.Match.{span};
ghost use Rattle.bites_spec.specs.Slots.{span_between};
ghost use Rattle.bites_bytes.specs.Matched.{excerpt_of};
ghost use Rattle.bites_c.specs.Put.{PutsPiece, PutsSpan, last_for_c, span_for_c};
ghost use Rattle.bites_c.specs.Replaced.{SpanLiesWithin, span_from_c};
ghost use Rattle.bites_c.specs.Texts.{LiesAtBorders};

use crate::codes::{MATCH, NO_MATCH};
use crate::texts::is_border;
use bites_bytes::bytes::Match;
use bites_machine::slot::Slot;

/// Two offsets, in bytes from the start of the haystack. Both are the greatest number if a group does not participate.
#[repr(C)]
#[derive(Clone, Copy)]
pub struct BitesSpan {
    pub start: usize,
    pub end: usize,
}

impl BitesSpan {
    /// Returns the span between two slots, or the greatest number twice if neither is written. Nothing is tested: an unwritten slot
    /// holds that number, so the compiler copies both.
    #[inline(always)]
    pub(crate) fn of(start: Slot, end: Slot) -> BitesSpan
        requires { is_some start ≡ is_some end }
        ensures { result ≡ span_for_c (span_between start end) }
    {
        BitesSpan {
            start: start.place().unwrap_or(usize::MAX),
            end: end.place().unwrap_or(usize::MAX),
        }
    }

    /// Returns the two offsets, or `None` for the greatest number twice.
    pub(crate) fn ends(self) -> Option<(usize, usize)>
        ensures { option_map (λ s. span s.0 s.1) result ≡ span_from_c self }
    {
        if self.start == usize::MAX && self.end == usize::MAX {
            None
        } else {
            Some((self.start, self.end))
        }
    }

    /// Returns whether the span lies in the haystack, or is the greatest number twice.
    pub(crate) fn lies_within(self, haystack: &[u8]) -> bool
        ensures { IsTrue result ↔ SpanLiesWithin (length haystack.now) self }
    {
        match self.ends() {
            Some((start, end)) => start <= end && end <= haystack.len(),
            None => true,
        }
    }

    /// Returns whether the span neither begins nor ends within a character, or is the greatest number twice.
    pub(crate) fn has_borders(self, haystack: &[u8]) -> bool
        ensures { IsTrue result ↔ LiesAtBorders haystack.now self }
    {
        match self.ends() {
            Some((start, end)) => is_border(haystack, start) && is_border(haystack, end),
            None => true,
        }
    }
}

/// Returns the end of the previous match, if there was one.
pub(crate) fn last(end: usize) -> Option<usize>
    ensures { result ≡ last_for_c end }
{
    if end == usize::MAX { None } else { Some(end) }
}

/// Puts the span into `out`, if there is one. Returns the number for C.
pub(crate) fn put(found: Option<Match<'_>>, out: &mut BitesSpan) -> u32
    ensures { PutsSpan (option_map (λ m. (excerpt_of m).span) found.entry) result out.old out.new }
{
    match found {
        Some(found) => {
            *out = BitesSpan {
                start: found.start(),
                end: found.end(),
            };
            MATCH
        }
        None => NO_MATCH,
    }
}

/// Puts the piece before the span into `piece`, and the end of the span into `last`. If there is no span, the piece
/// goes up to the end of the haystack, and `last` is unchanged. The piece begins at the end of the previous match, or
/// at 0 if there was none, and no later than at the end of the haystack.
pub(crate) fn put_piece(
    found: Option<Match<'_>>,
    len: usize,
    last: &mut usize,
    piece: &mut BitesSpan,
) -> u32
    ensures { PutsPiece (option_map (λ m. (excerpt_of m).span) found.entry) len result last.old last.new piece.new }
{
    let start = self::last(*last).unwrap_or(0).min(len);
    match found {
        Some(found) => {
            *piece = BitesSpan {
                start,
                end: found.start(),
            };
            *last = found.end();
            MATCH
        }
        None => {
            *piece = BitesSpan { start, end: len };
            NO_MATCH
        }
    }
}
