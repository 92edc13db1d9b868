//! Which bytes count as equal.

ghost use Rattle.std.specs.Prelude.{◌≡◌, ◌↔◌, ◌<◌, ℕ, IsTrue, map, slice_index};
ghost use Rattle.std.specs.Char.{to_ascii_lowercase};

use crate::rank::rank;
use std::simd::prelude::*;

/// Which bytes count as equal: those that fold to one number.
pub(crate) trait Folding {
    ghost fold: { ℕ → ℕ };

    fn are_equal(a: &[u8], b: &[u8]) -> bool
        ensures { IsTrue result ↔ (map fold a.now ≡ map fold b.now) };

    /// Returns whether a byte agrees with another, as each does that counts as equal to it. Others may agree too.
    fn agree(byte: u8, other: u8) -> bool
        ensures { fold byte ≡ fold other → IsTrue result };

    /// Fills each lane whose byte counts as equal to this one. Others may be filled too.
    fn lanes(bytes: u8x16, byte: u8) -> u8x16
        ensures { (k : ℕ) → k < 16 → fold (slice_index bytes k) ≡ fold byte → slice_index result k ≡ 255 };

    /// Returns how often a byte like this one occurs in texts, as a rank. Only speed depends on it.
    fn rank(byte: u8) -> u8;
}

/// Each byte is equal to itself alone.
pub(crate) struct Exact;

/// A letter of ASCII is equal in both cases.
pub(crate) struct Caseless;

impl Folding for Exact {
    ghost fold = { λ byte. byte };

    #[inline(always)]
    fn are_equal(a: &[u8], b: &[u8]) -> bool {
        a == b
    }

    #[inline(always)]
    fn agree(byte: u8, other: u8) -> bool {
        byte == other
    }

    #[inline(always)]
    fn lanes(bytes: u8x16, byte: u8) -> u8x16 {
        bytes
            .simd_eq(u8x16::splat(byte))
            .select(u8x16::splat(255), u8x16::splat(0))
    }

    fn rank(byte: u8) -> u8 {
        rank(byte)
    }
}

impl Folding for Caseless {
    ghost fold = { to_ascii_lowercase };

    #[inline(always)]
    fn are_equal(a: &[u8], b: &[u8]) -> bool {
        a.eq_ignore_ascii_case(b)
    }

    #[inline(always)]
    fn agree(byte: u8, other: u8) -> bool {
        byte | 0x20 == other | 0x20
    }

    #[inline(always)]
    fn lanes(bytes: u8x16, byte: u8) -> u8x16 {
        (bytes | u8x16::splat(0x20))
            .simd_eq(u8x16::splat(byte | 0x20))
            .select(u8x16::splat(255), u8x16::splat(0))
    }

    fn rank(byte: u8) -> u8 {
        rank(byte.to_ascii_lowercase())
    }
}
