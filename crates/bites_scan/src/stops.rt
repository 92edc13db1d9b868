//! Sets of bytes at which a search can stop, with a test of 16 bytes at once.

ghost use Rattle.std.specs.Prelude.{◌≡◌, ◌||◌, ◌==◌, ℕ, ◌+◌, ◌-◌, ◌%◌, Bool, map, nat_le};
ghost use Rattle.bites_scan.specs.Lanes.{marks};

use std::simd::prelude::*;

/// A set of bytes.
pub(crate) trait Stops {
    ghost stops: { Self → ℕ → Bool };

    /// Marks each lane whose byte is in the set.
    fn lanes(&self, bytes: u8x16) -> u8x16
        ensures { marks result ≡ map (stops self.now) bytes };

    /// Returns whether the byte is in the set.
    fn stops_at(&self, byte: u8) -> bool
        ensures { result ≡ stops self.now byte };
}

/// One byte.
#[derive(Clone, Copy, Drop)]
pub(crate) struct OneByte {
    pub byte: u8,
}

/// Up to three bytes.
#[derive(Clone, Copy, Drop)]
pub(crate) struct ThreeBytes {
    pub a: u8,
    pub b: u8,
    pub c: u8,
}

/// The byte `first` and the `more` bytes after it, where 0 comes after 255.
#[derive(Clone, Copy, Drop)]
pub(crate) struct CyclicRange {
    pub first: u8,
    pub more: u8,
}

impl Stops for OneByte {
    ghost stops = { λ s byte. byte == s.byte };

    #[inline(always)]
    fn lanes(&self, bytes: u8x16) -> u8x16 {
        bytes
            .simd_eq(u8x16::splat(self.byte))
            .select(u8x16::splat(255), u8x16::splat(0))
    }

    #[inline(always)]
    fn stops_at(&self, byte: u8) -> bool {
        byte == self.byte
    }
}

impl Stops for ThreeBytes {
    ghost stops = { λ s byte. byte == s.a || byte == s.b || byte == s.c };

    #[inline(always)]
    fn lanes(&self, bytes: u8x16) -> u8x16 {
        let a = bytes.simd_eq(u8x16::splat(self.a));
        let b = bytes.simd_eq(u8x16::splat(self.b));
        let c = bytes.simd_eq(u8x16::splat(self.c));
        (a | b | c).select(u8x16::splat(255), u8x16::splat(0))
    }

    #[inline(always)]
    fn stops_at(&self, byte: u8) -> bool {
        byte == self.a || byte == self.b || byte == self.c
    }
}

impl Stops for CyclicRange {
    ghost stops = { λ s byte. nat_le ((byte + (256 - s.first)) % 256) s.more };

    #[inline(always)]
    fn lanes(&self, bytes: u8x16) -> u8x16 {
        (bytes - u8x16::splat(self.first))
            .simd_le(u8x16::splat(self.more))
            .select(u8x16::splat(255), u8x16::splat(0))
    }

    #[inline(always)]
    fn stops_at(&self, byte: u8) -> bool {
        byte.wrapping_sub(self.first) <= self.more
    }
}
