//! The first byte of a set.

ghost use Rattle.std.specs.Prelude.{◌+◌, ◌≤◌, ◌<◌, length};
ghost use Rattle.bites_scan.specs.Stops.{IsFirstStop, IsRun};

use crate::lanes::{LANES, WIDE, either, load, mask_of, mask_of_four};
use crate::stops::Stops;

/// Returns the first offset from `from` on whose byte is in the set, or the length of the haystack.
#[inline(always)]
pub(crate) fn first_stop<S: Stops>(set: &S, haystack: &[u8], from: usize) -> usize
    requires { from ≤ length haystack.now }
    ensures { IsFirstStop (S.stops set.now) haystack.now from result }
{
    if haystack.len() - from < LANES {
        return first_by_one(set, haystack, from);
    }
    // Most stops are near, so the first step is a short one.
    let near = run_of_16(set, haystack, from);
    if near < LANES {
        return from + near;
    }
    let mut at = from + LANES;
    'wide: while haystack.len() - at >= WIDE {
        let run = run_of_64(set, haystack, at);
        if run < WIDE {
            return at + run;
        }
        at += WIDE;
    }
    'narrow: while haystack.len() - at >= LANES {
        let run = run_of_16(set, haystack, at);
        if run < LANES {
            return at + run;
        }
        at += LANES;
    }
    // The last vector overlaps bytes that were seen to be outside the set.
    let last = haystack.len() - LANES;
    last + run_of_16(set, haystack, last)
}

#[inline(always)]
fn first_by_one<S: Stops>(set: &S, haystack: &[u8], from: usize) -> usize
    requires { from ≤ length haystack.now }
    ensures { IsFirstStop (S.stops set.now) haystack.now from result }
{
    let mut at = from;
    'bytes: while at < haystack.len() {
        if set.stops_at(haystack[at]) {
            break;
        }
        at += 1;
    }
    at
}

/// Returns how many of the 16 bytes from `at` on come before the first that is in the set.
#[inline(always)]
fn run_of_16<S: Stops>(set: &S, haystack: &[u8], at: usize) -> usize
    requires { at + 16 ≤ length haystack.now }
    ensures { IsRun (S.stops set.now) haystack.now at 16 result }
{
    let mask = mask_of(set.lanes(load(haystack, at)));
    if mask == 0 {
        LANES
    } else {
        mask.trailing_zeros() as usize
    }
}

/// Returns how many of the 64 bytes from `at` on come before the first that is in the set.
#[inline(always)]
fn run_of_64<S: Stops>(set: &S, haystack: &[u8], at: usize) -> usize
    requires { at + 64 ≤ length haystack.now }
    ensures { IsRun (S.stops set.now) haystack.now at 64 result }
{
    let a = set.lanes(load(haystack, at));
    let b = set.lanes(load(haystack, at + 16));
    let c = set.lanes(load(haystack, at + 32));
    let d = set.lanes(load(haystack, at + 48));
    if mask_of(either(either(a, b), either(c, d))) == 0 {
        return WIDE;
    }
    mask_of_four(a, b, c, d).trailing_zeros() as usize
}
