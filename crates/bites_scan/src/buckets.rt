//! Bytes in eight buckets, tested by two look-ups of half bytes.

ghost use Rattle.std.specs.Prelude.{◌≡◌, ◌/◌, ◌<◌, ℕ, map, slice_index, bit_and};
ghost use Rattle.std.specs.Int.{bit_at};
ghost use Rattle.bites_scan.specs.Buckets.{HoldsPlace, StaysIn, buckets_of};

use crate::literal::Literal;
use std::simd::prelude::*;

/// Which bytes are in which of eight buckets: those with the bit of the bucket in the cells of their low and their high half.
#[derive(Clone, Copy, Drop)]
pub(crate) struct Buckets {
    low: [u8; 16],
    high: [u8; 16],
}

impl Buckets {
    /// Returns buckets with no byte in them.
    pub(crate) fn empty() -> Buckets {
        Buckets {
            low: [0; 16],
            high: [0; 16],
        }
    }

    /// Puts the byte at this place of a literal into a bucket, in both cases if the literal is caseless.
    ///
    /// If the literal ends before this place, all bytes are put there.
    pub(crate) fn add(&mut self, literal: &Literal, place: usize, bucket: usize)
        requires { bucket < 8 }
        ensures holds { HoldsPlace self.new bucket literal.now place }
        ensures stays { StaysIn self.old self.new }
    {
        let bytes = literal.bytes();
        if place >= bytes.len() {
            mark_all(&mut self.low, bucket);
            mark_all(&mut self.high, bucket);
            return;
        }
        let byte = bytes[place];
        mark(&mut self.low, (byte & 15) as usize, bucket);
        mark(&mut self.high, (byte >> 4) as usize, bucket);
        if literal.is_caseless() {
            mark(&mut self.high, ((byte ^ 0x20) >> 4) as usize, bucket);
        }
    }

    /// Returns the buckets of each byte.
    #[inline(always)]
    pub(crate) fn lanes(&self, bytes: u8x16) -> u8x16
        ensures { result ≡ map (buckets_of self.now) bytes }
    {
        by_low_half(&self.low, bytes) & by_high_half(&self.high, bytes)
    }
}

/// Sets the bit of a bucket in a cell.
fn mark(cells: &mut [u8; 16], at: usize, bucket: usize)
    requires within { at < 16 }
    requires small { bucket < 8 }
    ensures set { bit_at (slice_index cells.new at) bucket ≡ 1 }
    ensures stays { (k b : ℕ) → bit_at (slice_index cells.old k) b ≡ 1 → bit_at (slice_index cells.new k) b ≡ 1 }
{
    cells[at] |= 1 << bucket;
}

/// Sets the bit of a bucket in all cells.
fn mark_all(cells: &mut [u8; 16], bucket: usize)
    requires { bucket < 8 }
    ensures set { (k : ℕ) → k < 16 → bit_at (slice_index cells.new k) bucket ≡ 1 }
    ensures stays { (k b : ℕ) → bit_at (slice_index cells.old k) b ≡ 1 → bit_at (slice_index cells.new k) b ≡ 1 }
{
    for at in 0..16usize {
        mark(cells, at, bucket);
    }
}

/// Reads the cell of the low half of each byte.
#[inline(always)]
fn by_low_half(cells: &[u8; 16], bytes: u8x16) -> u8x16
    ensures { result ≡ map (λ byte. slice_index cells.now (bit_and byte 15)) bytes }
{
    u8x16::from_array(*cells).swizzle_dyn_within::<16>(bytes & u8x16::splat(15))
}

/// Reads the cell of the high half of each byte.
#[inline(always)]
fn by_high_half(cells: &[u8; 16], bytes: u8x16) -> u8x16
    ensures { result ≡ map (λ byte. slice_index cells.now (byte / 16)) bytes }
{
    u8x16::from_array(*cells).swizzle_dyn_within::<16>(bytes >> u8x16::splat(4))
}
