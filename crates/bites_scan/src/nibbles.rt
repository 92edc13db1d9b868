//! Any set of bytes, tested by three look-ups of half bytes.

ghost use Rattle.std.specs.Prelude.{◌≡◌, ◌/◌, ◌<◌, false, not, map, slice_index, slice_index_or, bit_and, bit_xor};
ghost use Rattle.bites_scan.specs.Forms.{Agree};
ghost use Rattle.bites_scan.specs.Halves.{IsColumn, bits, nibbles_stop};

use crate::stops::Stops;
use std::simd::prelude::*;

/// The bit that the high half of a byte stands for, in a column of the bytes below 128 or of the others.
const BITS: [u8; 16] = [1, 2, 4, 8, 16, 32, 64, 128, 1, 2, 4, 8, 16, 32, 64, 128];

/// Any set of bytes: a column of eight bits for each low half of a byte, once for bytes below 128 and once for the others.
#[derive(Clone, Copy, Drop)]
pub(crate) struct Nibbles {
    low: [u8; 16],
    high: [u8; 16],
}

impl Nibbles {
    /// Returns the set of the bytes whose flag is not set.
    pub(crate) fn outside(flags: &[bool; 256]) -> Nibbles
        ensures { Agree (nibbles_stop result) (λ byte. not (slice_index_or flags.now byte false)) }
    {
        let mut low = [0; 16];
        let mut high = [0; 16];
        for half in 0..16usize {
            low[half] = column(flags, half);
            high[half] = column(flags, 128 + half);
        }
        Nibbles { low, high }
    }
}

/// Returns a bit for each of the eight bytes `first`, `first + 16` and so on that is outside the flags.
#[inline(always)]
fn column(flags: &[bool; 256], first: usize) -> u8
    requires { first < 144 }
    ensures { IsColumn (λ byte. not (slice_index_or flags.now byte false)) first result }
{
    u8::from(!flags[first])
        + 2 * u8::from(!flags[first + 16])
        + 4 * u8::from(!flags[first + 32])
        + 8 * u8::from(!flags[first + 48])
        + 16 * u8::from(!flags[first + 64])
        + 32 * u8::from(!flags[first + 80])
        + 64 * u8::from(!flags[first + 96])
        + 128 * u8::from(!flags[first + 112])
}

/// Reads the table at the low half of each byte below 128, and 0 at the others.
#[inline(always)]
fn by_low_half(table: &[u8; 16], bytes: u8x16) -> u8x16
    ensures { result ≡ map (λ byte. slice_index table.now (bit_and byte 143)) bytes }
{
    u8x16::from_array(*table).swizzle_dyn_within::<16>(bytes & u8x16::splat(0x8f))
}

/// Reads the bits at the high half of each byte.
#[inline(always)]
fn by_high_half(bytes: u8x16) -> u8x16
    ensures { result ≡ map (λ byte. slice_index bits (byte / 16)) bytes }
{
    u8x16::from_array(BITS).swizzle_dyn_within::<16>(bytes >> u8x16::splat(4))
}

/// Turns the top bit of each byte.
#[inline(always)]
fn turned(bytes: u8x16) -> u8x16
    ensures { result ≡ map (λ byte. bit_xor byte 128) bytes }
{
    bytes ^ u8x16::splat(0x80)
}

impl Stops for Nibbles {
    ghost stops = { nibbles_stop };

    #[inline(always)]
    fn lanes(&self, bytes: u8x16) -> u8x16 {
        let columns = by_low_half(&self.low, bytes) | by_low_half(&self.high, turned(bytes));
        columns & by_high_half(bytes)
    }

    #[inline(always)]
    fn stops_at(&self, byte: u8) -> bool {
        let half = (byte & 0x0f) as usize;
        let column = if byte < 128 {
            self.low[half]
        } else {
            self.high[half]
        };
        column & BITS[(byte >> 4) as usize] != 0
    }
}
