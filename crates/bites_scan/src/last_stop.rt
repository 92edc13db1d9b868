//! The last byte of a set.

ghost use Rattle.std.specs.Prelude.{◌+◌, ◌≤◌, length};
ghost use Rattle.bites_scan.specs.Stops.{IsLastStop, IsTail};

use crate::lanes::{LANES, highest, load, mask_of};
use crate::stops::Stops;

/// Returns the offset behind the last byte from `start` up to `end` that is in the set, or `start`.
#[inline(always)]
pub(crate) fn behind_last_stop<S: Stops>(
    set: &S,
    haystack: &[u8],
    start: usize,
    end: usize,
) -> usize
    requires ordered { start ≤ end }
    requires within { end ≤ length haystack.now }
    ensures { IsLastStop (S.stops set.now) haystack.now start end result }
{
    let mut at = end;
    'vectors: while at - start >= LANES {
        let tail = tail_of_16(set, haystack, at - LANES);
        if tail < LANES {
            return at - tail;
        }
        at -= LANES;
    }
    'bytes: while at > start {
        if set.stops_at(haystack[at - 1]) {
            break;
        }
        at -= 1;
    }
    at
}

/// Returns how many of the 16 bytes from `at` on come after the last that is in the set.
#[inline(always)]
fn tail_of_16<S: Stops>(set: &S, haystack: &[u8], at: usize) -> usize
    requires { at + 16 ≤ length haystack.now }
    ensures { IsTail (S.stops set.now) haystack.now at 16 result }
{
    let mask = mask_of(set.lanes(load(haystack, at)));
    if mask == 0 {
        LANES
    } else {
        LANES - 1 - highest(mask)
    }
}
