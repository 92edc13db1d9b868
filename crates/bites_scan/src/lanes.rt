//! Vectors of 16 bytes, lane by lane. A lane that isn't 0 is marked.

ghost use Rattle.std.specs.Prelude.{◌≡◌, ◌≢◌, ℕ, ◌+◌, ◌≤◌, ◌<◌, ◌++◌, length};
ghost use Rattle.std.specs.Int.{bit_at};
ghost use lib.Lanes.{chunk};
ghost use Rattle.bites_scan.specs.Lanes.{marks, mask};

use std::simd::prelude::*;

/// How many lanes a vector has.
pub(crate) const LANES: usize = 16;

/// How many bytes or offsets a step of a wide loop tests.
pub(crate) const WIDE: usize = 4 * LANES;

/// Returns the 16 bytes from `at` on.
#[inline(always)]
pub(crate) fn load(bytes: &[u8], at: usize) -> u8x16
    requires { at + 16 ≤ length bytes.now }
    ensures { result ≡ chunk at 16 bytes.now }
{
    u8x16::from_slice(&bytes[at..])
}

/// Returns a bit for each lane that is marked.
#[inline(always)]
pub(crate) fn mask_of(lanes: u8x16) -> u64
    ensures bits { result ≡ mask (marks lanes) }
    ensures small { result < 65536 }
{
    lanes.simd_ne(u8x16::splat(0)).to_bitmask()
}

/// Marks each lane that is marked in one of two vectors.
#[inline(always)]
pub(crate) fn either(a: u8x16, b: u8x16) -> u8x16
    ensures { mask (marks result) ≡ 0 → (mask (marks a) ≡ 0) × (mask (marks b) ≡ 0) }
{
    a | b
}

/// Returns a bit for each lane of four vectors that is marked.
#[inline(always)]
pub(crate) fn mask_of_four(a: u8x16, b: u8x16, c: u8x16, d: u8x16) -> u64
    ensures { result ≡ mask (marks a ++ (marks b ++ (marks c ++ marks d))) }
{
    mask_of(a) + (mask_of(b) << 16) + (mask_of(c) << 32) + (mask_of(d) << 48)
}

/// Clears the bits below this one.
#[inline(always)]
pub(crate) fn from_bit(mask: u64, bit: usize) -> u64
    requires { bit < 64 }
    ensures below { (k : ℕ) → k < bit → bit_at result k ≡ 0 }
    ensures kept { (k : ℕ) → bit ≤ k → bit_at result k ≡ bit_at mask k }
{
    mask & !((1 << bit) - 1)
}

/// Returns the lowest bit that is set.
#[inline(always)]
pub(crate) fn lowest(mask: u64) -> usize
    requires { mask ≢ 0 }
    ensures bound { result < 64 }
    ensures set { bit_at mask result ≡ 1 }
    ensures below { (k : ℕ) → k < result → bit_at mask k ≡ 0 }
{
    mask.trailing_zeros() as usize
}

/// Returns the highest bit that is set.
#[inline(always)]
pub(crate) fn highest(mask: u64) -> usize
    requires { mask ≢ 0 }
    ensures bound { result < 64 }
    ensures set { bit_at mask result ≡ 1 }
    ensures above { (k : ℕ) → result < k → bit_at mask k ≡ 0 }
{
    63 - mask.leading_zeros() as usize
}

/// Clears a bit that is set.
#[inline(always)]
pub(crate) fn without(mask: u64, bit: usize) -> u64
    requires bound { bit < 64 }
    requires set { bit_at mask bit ≡ 1 }
    ensures smaller { result < mask }
    ensures kept { (k : ℕ) → k < 64 → k ≢ bit → bit_at result k ≡ bit_at mask k }
{
    mask & !(1 << bit)
}
