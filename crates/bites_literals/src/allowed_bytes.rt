//! Which bytes may stand at each offset of a text.

ghost use Rattle.std.specs.Prelude.{◌≡◌, ◌↔◌, ◌⊎◌, ◌+◌, ◌≤◌, ◌<◌, ℕ, length, IsTrue};
ghost use Rattle.bites_spec.specs.Range.{in_ranges};
ghost use Rattle.bites_literals.specs.AllowedBytes.{Fits, LieBetween, MayStand};

use std::marker::Model;
use std::simd::prelude::*;

/// How many offsets there are.
pub(crate) const OFFSETS: usize = 64;

/// How many bytes a vector has.
const LANES: usize = 16;

/// For each offset below [`OFFSETS`] the bytes that may stand there.
///
/// For proofs: a contract sees the masks.
#[derive(Drop)]
pub(crate) struct AllowedBytes {
    /// For each byte, a bit for each offset at which it may stand.
    masks: [u64; 256],
    /// The least and the greatest byte that may stand at each offset. The least is greater where none may stand.
    least: [u8; OFFSETS],
    greatest: [u8; OFFSETS],
    /// Whether all bytes between these may stand at each offset.
    are_ranges: bool,
}

impl Model for AllowedBytes {
    ghost use Rattle.std.specs.Prelude.{ℕ, List};
    ghost use Rattle.bites_literals.specs.AllowedBytes.{AreBounds};

    ghost Value = { List ℕ };

    ghost view = { λ a. a.masks };

    ghost invariant = { λ a. AreBounds a.are_ranges a.masks a.least a.greatest };
}

impl AllowedBytes {
    /// Allows no byte at any offset.
    pub(crate) fn none() -> AllowedBytes
        ensures { (k b : ℕ) → MayStand result k b → ⊥ }
    {
        AllowedBytes {
            masks: [0; 256],
            least: [255; OFFSETS],
            greatest: [0; OFFSETS],
            are_ranges: true,
        }
    }

    /// Allows the characters of these ranges at an offset. Returns whether all of them are ASCII.
    pub(crate) fn allow_all(&mut self, offset: usize, ranges: &[(char, char)]) -> bool
        requires { offset < 64 }
        ensures stand { IsTrue result → (c : ℕ) → IsTrue (in_ranges ranges.now c) → (c < 128) × MayStand self.new offset c }
        ensures only { (k b : ℕ) → MayStand self.new k b → MayStand self.old k b ⊎ ((k ≡ offset) × IsTrue (in_ranges ranges.now b)) }
        ensures kept { (k b : ℕ) → MayStand self.old k b → MayStand self.new k b }
    {
        for range in ranges {
            let (first, last) = *range;
            if !first.is_ascii() || !last.is_ascii() {
                return false;
            }
            self.allow(offset, first as u8, last as u8);
        }
        true
    }

    /// Allows the bytes from the first to the last at an offset.
    pub(crate) fn allow(&mut self, offset: usize, first: u8, last: u8)
        requires offset { offset < 64 }
        requires ascii { last < 128 }
        ensures stand { (b : ℕ) → first ≤ b → b ≤ last → MayStand self.new offset b }
        ensures only { (k b : ℕ) → MayStand self.new k b → MayStand self.old k b ⊎ ((k ≡ offset) × (first ≤ b) × (b ≤ last)) }
        ensures kept { (k b : ℕ) → MayStand self.old k b → MayStand self.new k b }
    {
        if self.least[offset] <= self.greatest[offset] {
            self.are_ranges = false;
        }
        self.least[offset] = first;
        self.greatest[offset] = last;
        set_bits(&mut self.masks, offset, first, last);
    }

    /// Returns whether the haystack begins with so many bytes that may stand there.
    #[inline(always)]
    pub(crate) fn fit(&self, haystack: &[u8], len: usize) -> bool
        requires short { len ≤ 64 }
        requires within { len ≤ length haystack.now }
        ensures { IsTrue result ↔ Fits self.now haystack.now 0 len }
    {
        if self.are_ranges && len >= LANES {
            return lie_between(haystack, &self.least, &self.greatest, len);
        }
        for offset in 0..len {
            if self.masks[usize::from(haystack[offset])] >> offset & 1 == 0 {
                return false;
            }
        }
        true
    }
}

/// Sets the bit of an offset for the bytes from the first to the last.
fn set_bits(masks: &mut [u64; 256], offset: usize, first: u8, last: u8)
    requires offset { offset < 64 }
    requires ascii { last < 128 }
    ensures stand { (b : ℕ) → first ≤ b → b ≤ last → MayStand masks.new offset b }
    ensures only { (k b : ℕ) → MayStand masks.new k b → MayStand masks.old k b ⊎ ((k ≡ offset) × (first ≤ b) × (b ≤ last)) }
    ensures kept { (k b : ℕ) → MayStand masks.old k b → MayStand masks.new k b }
{
    for byte in first..last + 1 {
        masks[usize::from(byte)] |= 1 << offset;
    }
}

/// Returns whether each of the first `len` bytes lies between its bounds. The last vector may overlap the one before it.
fn lie_between(haystack: &[u8], least: &[u8; OFFSETS], greatest: &[u8; OFFSETS], len: usize) -> bool
    requires long { 16 ≤ len }
    requires short { len ≤ 64 }
    requires within { len ≤ length haystack.now }
    ensures { IsTrue result ↔ LieBetween least.now greatest.now haystack.now 0 len }
{
    let last = len - LANES;
    let mut at = 0;
    while at < last {
        if !lanes_lie_between(haystack, least, greatest, at) {
            return false;
        }
        at += LANES;
    }
    lanes_lie_between(haystack, least, greatest, last)
}

/// Returns whether each of the 16 bytes from an offset on lies between its bounds.
#[inline(always)]
fn lanes_lie_between(haystack: &[u8], least: &[u8], greatest: &[u8], at: usize) -> bool
    requires haystack { at + 16 ≤ length haystack.now }
    requires least { at + 16 ≤ length least.now }
    requires greatest { at + 16 ≤ length greatest.now }
    ensures { IsTrue result ↔ LieBetween least.now greatest.now haystack.now at (at + 16) }
{
    let bytes = u8x16::from_slice(&haystack[at..]);
    let below = bytes.simd_lt(u8x16::from_slice(&least[at..]));
    let above = bytes.simd_gt(u8x16::from_slice(&greatest[at..]));
    below.to_bitmask() == 0 && above.to_bitmask() == 0
}
