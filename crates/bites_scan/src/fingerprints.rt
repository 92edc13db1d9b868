//! Three bytes of each of several literals, looked up for 16 or 64 offsets at once.

ghost use Rattle.std.specs.Prelude.{◌≡◌, ℕ, ◌+◌, ◌≤◌, ◌<◌, false, true, length, slice_index_or};
ghost use Rattle.std.specs.Int.{bit_at};
ghost use Rattle.bites_scan.specs.Buckets.{Knows};
ghost use Rattle.bites_scan.specs.Lanes.{marks};
ghost use Rattle.bites_scan.specs.Literal.{Needle, NeedleOccursAt};

use crate::buckets::Buckets;
use crate::lanes::{either, load, mask_of, mask_of_four};
use crate::literal::Literal;
use std::simd::prelude::*;

/// In which buckets literals have the byte at a place, the next one and the one after that.
#[derive(Clone, Copy, Drop)]
pub(crate) struct Fingerprints {
    pub place: u8,
    first: Buckets,
    second: Buckets,
    third: Buckets,
}

impl Fingerprints {
    /// Returns the fingerprints of no literal, for the three bytes from this place on.
    pub(crate) fn empty(place: u8) -> Fingerprints {
        Fingerprints {
            place,
            first: Buckets::empty(),
            second: Buckets::empty(),
            third: Buckets::empty(),
        }
    }

    /// Puts three bytes of a literal into a bucket.
    pub(crate) fn add(&mut self, literal: &Literal, bucket: usize)
        requires { bucket < 8 }
        ensures added { Knows self.new literal.now }
        ensures kept { (n : Needle) → Knows self.old n → Knows self.new n }
    {
        let place = self.place as usize;
        self.first.add(literal, place, bucket);
        self.second.add(literal, place + 1, bucket);
        self.third.add(literal, place + 2, bucket);
    }

    /// Returns a bit for each of 16 offsets at which a literal may occur.
    #[inline(always)]
    pub(crate) fn mask_of_16(&self, haystack: &[u8], at: usize) -> u64
        requires { at + self.now.place + 18 ≤ length haystack.now }
        ensures within { (k : ℕ) → bit_at result k ≡ 1 → k < 16 }
        ensures covers { (n : Needle) → Knows self.now n → (k : ℕ) → k < 16 → NeedleOccursAt haystack.now (at + k) n → bit_at result k ≡ 1 }
    {
        mask_of(self.lanes(haystack, at))
    }

    /// Returns a bit for each of 64 offsets at which a literal may occur.
    #[inline(always)]
    pub(crate) fn mask_of_64(&self, haystack: &[u8], at: usize) -> u64
        requires { at + self.now.place + 66 ≤ length haystack.now }
        ensures within { (k : ℕ) → bit_at result k ≡ 1 → k < 64 }
        ensures covers { (n : Needle) → Knows self.now n → (k : ℕ) → k < 64 → NeedleOccursAt haystack.now (at + k) n → bit_at result k ≡ 1 }
    {
        let a = self.lanes(haystack, at);
        let b = self.lanes(haystack, at + 16);
        let c = self.lanes(haystack, at + 32);
        let d = self.lanes(haystack, at + 48);
        if mask_of(either(either(a, b), either(c, d))) == 0 {
            return 0;
        }
        mask_of_four(a, b, c, d)
    }

    /// Marks each lane at whose offset a literal may occur.
    #[inline(always)]
    fn lanes(&self, haystack: &[u8], at: usize) -> u8x16
        requires { at + self.now.place + 18 ≤ length haystack.now }
        ensures { (n : Needle) → Knows self.now n → (k : ℕ) → k < 16 → NeedleOccursAt haystack.now (at + k) n
            → slice_index_or (marks result) k false ≡ true }
    {
        let window = at + self.place as usize;
        let first = self.first.lanes(load(haystack, window));
        let second = self.second.lanes(load(haystack, window + 1));
        let third = self.third.lanes(load(haystack, window + 2));
        first & second & third
    }
}
