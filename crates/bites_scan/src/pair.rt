//! The first offset of a literal: vectors compare two of its bytes, and where both agree all bytes are compared.

ghost use Rattle.std.specs.Prelude.{◌≡◌, ◌↔◌, ◌+◌, ◌≤◌, ◌<◌, ℕ, true, IsTrue, length, slice_index, slice_index_or, false};
ghost use Rattle.std.specs.Int.{bit_at};
ghost use Rattle.bites_scan.specs.Lanes.{marks};
ghost use Rattle.bites_scan.specs.Literal.{IsOutcomeOf, IsOutcomeWithin, OccursAt};
ghost use Rattle.bites_scan.specs.Offsets.{Marks, NoneOccurs};

use crate::failures::Failures;
use crate::folding::Folding;
use crate::lanes::{LANES, WIDE, either, from_bit, load, lowest, mask_of, mask_of_four, without};
use crate::literal::Outcome;
use std::simd::prelude::*;

/// How many compares may fail at first.
const FREE_COMPARES: usize = 64;

/// For how many bytes that the search goes on one more compare may fail.
const BYTES_FOR_A_COMPARE: usize = 4;

/// A literal, and two indices into it whose bytes are compared first.
#[derive(Clone, Copy, Drop)]
pub(crate) struct Pair<'n> {
    pub needle: &'n [u8],
    pub first: usize,
    pub second: usize,
    ghost first_within: { first < length needle.now },
    ghost second_within: { second < length needle.now },
}

/// Returns the indices of the two rarest bytes. They are equal if there is only one byte.
pub(crate) fn rarest_two<F: Folding>(needle: &[u8]) -> (usize, usize)
    requires { 0 < length needle.now }
    ensures first { result.0 < length needle.now }
    ensures second { result.1 < length needle.now }
{
    let first = rarest::<F>(needle, 0);
    let second = if needle.len() == 1 {
        0
    } else if first == 0 {
        rarest::<F>(needle, 1)
    } else {
        rarest::<F>(&needle[..first], 0)
    };
    (first, second)
}

/// Returns the index of the rarest byte from `from` on.
fn rarest<F: Folding>(needle: &[u8], from: usize) -> usize
    requires { from < length needle.now }
    ensures onward { from ≤ result }
    ensures within { result < length needle.now }
{
    let mut best = from;
    for k in from..needle.len() {
        if F::rank(needle[k]) < F::rank(needle[best]) {
            best = k;
        }
    }
    best
}

impl<'n> Pair<'n> {
    /// Searches from `from` on, until the literal is found or too many compares have failed.
    #[inline(always)]
    pub(crate) fn search<F: Folding>(&self, haystack: &[u8], from: usize) -> Outcome
        requires { from ≤ length haystack.now }
        ensures { IsOutcomeOf F.fold haystack.now self.now.needle.now from result }
    {
        if haystack.len() - from < self.needle.len() {
            return Outcome::Nowhere;
        }
        let end = haystack.len() - self.needle.len() + 1;
        let mut failures = Failures::none(from);
        let mut at = from;
        'wide: while end - at >= WIDE {
            at = self.quiet_until::<F>(haystack, at, end);
            if end - at < WIDE {
                break;
            }
            match self.first_of_64::<F>(haystack, at, &mut failures) {
                Outcome::Nowhere => at += WIDE,
                outcome => return outcome,
            }
        }
        self.search_rest::<F>(haystack, at, end, failures)
    }

    /// Goes on with a search where fewer than 64 offsets are left. The last vector has the last 16 of all offsets, and tests those that
    /// are left.
    #[inline(always)]
    fn search_rest<F: Folding>(
        &self,
        haystack: &[u8],
        start: usize,
        end: usize,
        mut failures: Failures,
    ) -> Outcome
        requires within { start ≤ end }
        requires room { end + length self.now.needle.now ≡ length haystack.now + 1 }
        ensures { IsOutcomeOf F.fold haystack.now self.now.needle.now start result }
    {
        if end < LANES {
            return self.search_by_one::<F>(haystack, start, end);
        }
        let mut at = start;
        'narrow: while end - at >= LANES {
            match self.first_of_16::<F>(haystack, at, at, &mut failures) {
                Outcome::Nowhere => at += LANES,
                outcome => return outcome,
            }
        }
        self.first_of_16::<F>(haystack, end - LANES, at, &mut failures)
    }

    /// Goes on with a search, offset by offset, where a vector has no room.
    #[inline(always)]
    fn search_by_one<F: Folding>(&self, haystack: &[u8], start: usize, end: usize) -> Outcome
        requires within { start ≤ end }
        requires room { end + length self.now.needle.now ≡ length haystack.now + 1 }
        ensures { IsOutcomeOf F.fold haystack.now self.now.needle.now start result }
    {
        let at = self.first_by_one::<F>(haystack, start, end);
        if at < end {
            return Outcome::Found {
                start: at,
                end: at + self.needle.len(),
            };
        }
        Outcome::Nowhere
    }

    /// Returns the first offset of the literal before `end`, or `end`. All bytes are compared only where the rarest one agrees.
    #[inline(always)]
    fn first_by_one<F: Folding>(&self, haystack: &[u8], start: usize, end: usize) -> usize
        requires within { start ≤ end }
        requires room { end + length self.now.needle.now ≡ length haystack.now + 1 }
        ensures onward { start ≤ result }
        ensures none { NoneOccurs (OccursAt F.fold haystack.now self.now.needle.now) start result }
        ensures occurs { result < end → OccursAt F.fold haystack.now self.now.needle.now result }
    {
        let mut at = start;
        'offsets: while at < end {
            if self.agrees_at::<F>(haystack, at) && occurs_at::<F>(self.needle, haystack, at) {
                break;
            }
            at += 1;
        }
        at
    }

    /// Goes past offsets at which the two bytes do not both agree, 64 a step. It is a loop of its own, so that it keeps all it needs in
    /// registers.
    #[inline(always)]
    fn quiet_until<F: Folding>(&self, haystack: &[u8], from: usize, end: usize) -> usize
        requires ordered { from ≤ end }
        requires room { end + length self.now.needle.now ≡ length haystack.now + 1 }
        ensures onward { from ≤ result }
        ensures within { result ≤ end }
        ensures none { NoneOccurs (OccursAt F.fold haystack.now self.now.needle.now) from result }
    {
        let mut at = from;
        'wide: while end - at >= WIDE {
            let a = self.lanes::<F>(haystack, at);
            let b = self.lanes::<F>(haystack, at + 16);
            let c = self.lanes::<F>(haystack, at + 32);
            let d = self.lanes::<F>(haystack, at + 48);
            if mask_of(either(either(a, b), either(c, d))) != 0 {
                break;
            }
            at += WIDE;
        }
        at
    }

    /// Tests the 64 offsets from `at` on, until the literal is found or too many compares have failed.
    #[inline(always)]
    fn first_of_64<F: Folding>(
        &self,
        haystack: &[u8],
        at: usize,
        failures: &mut Failures,
    ) -> Outcome
        requires { at + 63 + length self.now.needle.now ≤ length haystack.now }
        ensures { IsOutcomeWithin F.fold haystack.now self.now.needle.now at (at + 64) result }
    {
        let a = self.lanes::<F>(haystack, at);
        let b = self.lanes::<F>(haystack, at + 16);
        let c = self.lanes::<F>(haystack, at + 32);
        let d = self.lanes::<F>(haystack, at + 48);
        let mask = mask_of_four(a, b, c, d);
        self.first_marked::<F>(haystack, at, mask, failures)
    }

    /// Tests those of the 16 offsets from `base` on that stand at or after `at`, until the literal is found or too many compares have
    /// failed.
    #[inline(always)]
    fn first_of_16<F: Folding>(
        &self,
        haystack: &[u8],
        base: usize,
        at: usize,
        failures: &mut Failures,
    ) -> Outcome
        requires behind { base ≤ at }
        requires near { at ≤ base + 16 }
        requires room { base + 15 + length self.now.needle.now ≤ length haystack.now }
        ensures { IsOutcomeWithin F.fold haystack.now self.now.needle.now at (base + 16) result }
    {
        let mask = from_bit(mask_of(self.lanes::<F>(haystack, base)), at - base);
        self.first_marked::<F>(haystack, base, mask, failures)
    }

    /// Tests the offsets that a mask marks, until the literal is found or too many compares have failed.
    #[inline(always)]
    fn first_marked<F: Folding>(
        &self,
        haystack: &[u8],
        base: usize,
        mask: u64,
        failures: &mut Failures,
    ) -> Outcome
        requires { (k : ℕ) → bit_at mask k ≡ 1 → base + k + length self.now.needle.now ≤ length haystack.now }
        ensures { (start end : ℕ) → Marks (OccursAt F.fold haystack.now self.now.needle.now) base start end mask →
            IsOutcomeWithin F.fold haystack.now self.now.needle.now start end result }
    {
        let mut left = mask;
        'marked: while left != 0 {
            let lane = lowest(left);
            let offset = base + lane;
            if occurs_at::<F>(self.needle, haystack, offset) {
                return Outcome::Found {
                    start: offset,
                    end: offset + self.needle.len(),
                };
            }
            if failures.are_too_many(1, offset, FREE_COMPARES, BYTES_FOR_A_COMPARE) {
                return Outcome::Tired(offset + 1);
            }
            left = without(left, lane);
        }
        Outcome::Nowhere
    }

    /// Returns whether the rarest byte of the literal agrees here.
    #[inline(always)]
    fn agrees_at<F: Folding>(&self, haystack: &[u8], at: usize) -> bool
        requires { at + length self.now.needle.now ≤ length haystack.now }
        ensures { OccursAt F.fold haystack.now self.now.needle.now at → IsTrue result }
    {
        F::agree(haystack[at + self.first], self.needle[self.first])
    }

    /// Marks each lane at whose offset the two bytes agree.
    #[inline(always)]
    fn lanes<F: Folding>(&self, haystack: &[u8], at: usize) -> u8x16
        requires { at + 15 + length self.now.needle.now ≤ length haystack.now }
        ensures { (k : ℕ) → k < 16 → OccursAt F.fold haystack.now self.now.needle.now (at + k)
            → slice_index_or (marks result) k false ≡ true }
    {
        let first = F::lanes(load(haystack, at + self.first), self.needle[self.first]);
        let second = F::lanes(load(haystack, at + self.second), self.needle[self.second]);
        both(first, second)
    }
}

/// Marks each lane that is full in two vectors.
#[inline(always)]
fn both(a: u8x16, b: u8x16) -> u8x16
    ensures { (k : ℕ) → k < 16 → slice_index a k ≡ 255 → slice_index b k ≡ 255
        → slice_index_or (marks result) k false ≡ true }
{
    a & b
}

/// Returns whether the literal occurs here.
#[inline(always)]
fn occurs_at<F: Folding>(needle: &[u8], haystack: &[u8], at: usize) -> bool
    requires { at + length needle.now ≤ length haystack.now }
    ensures { IsTrue result ↔ OccursAt F.fold haystack.now needle.now at }
{
    F::are_equal(&haystack[at..at + needle.len()], needle)
}
