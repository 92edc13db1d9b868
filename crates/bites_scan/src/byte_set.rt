//! A set of bytes to skip.

ghost use Rattle.std.specs.Prelude.{◌≡◌, ◌≤◌, ◌<◌, Bool, List, false, not, length, slice_index_or};
ghost use Rattle.bites_scan.specs.Forms.{StopsOutside, form_stops};
ghost use Rattle.bites_scan.specs.Stops.{AreWords, IsFirstStop, IsLastStop};

use crate::form::Form;
use crate::nibbles::Nibbles;
use std::marker::Model;
use std::snapshot::Snapshot;

/// A set of bytes to skip. It takes 72 bytes and owns no memory.
///
/// For proofs: a contract sees it as a flag for each byte.
#[derive(Drop)]
pub struct ByteSet {
    form: Form,
    // A bit for each byte outside the set.
    stops: [u64; 4],
    flags: Snapshot<[bool; 256]>,
    ghost agrees: { StopsOutside form flags.value },
    ghost words: { AreWords (form_stops form) stops },
}

impl Model for ByteSet {
    ghost Value = { List Bool };

    ghost view = { λ s. s.flags.value };
}

impl ByteSet {
    /// Returns the set of the bytes whose flag is set.
    pub fn new(flags: &[bool; 256]) -> ByteSet
        ensures { result ≡ flags.now }
    {
        let (form, stops) = Form::of(Nibbles::outside(flags));
        ByteSet {
            form,
            stops,
            flags: Snapshot::of(flags),
        }
    }

    /// Returns the first offset from `from` on whose byte is not in the set, or the length of the haystack.
    ///
    /// It looks at the first byte alone, since a search often asks where nothing is to be skipped. Then it reads up to 64 bytes a step,
    /// and none if all bytes are in the set.
    #[inline(always)]
    pub fn skip_while(&self, haystack: &[u8], from: usize) -> usize
        requires { from ≤ length haystack.now }
        ensures { IsFirstStop (λ byte. not (slice_index_or self.now byte false)) haystack.now from result }
    {
        if from < haystack.len() && self.stops_at(haystack[from]) {
            return from;
        }
        self.skip_more(haystack, from)
    }

    // Returns whether a byte is outside the set.
    #[inline(always)]
    fn stops_at(&self, byte: u8) -> bool
        ensures { result ≡ not (slice_index_or self.now byte false) }
    {
        self.stops[(byte / 64) as usize] >> (byte % 64) & 1 == 1
    }

    // Returns the first offset as `skip_while` does. It is a call, so that the loop of a search keeps its registers.
    #[inline(never)]
    fn skip_more(&self, haystack: &[u8], from: usize) -> usize
        requires { from ≤ length haystack.now }
        ensures { IsFirstStop (λ byte. not (slice_index_or self.now byte false)) haystack.now from result }
    {
        self.form.first_stop(haystack, from)
    }

    /// Returns the least offset from `start` on from which all bytes up to `end` are in the set.
    ///
    /// It reads 16 bytes a step, the last ones first, and none if all bytes are in the set.
    pub fn skip_back(&self, haystack: &[u8], start: usize, end: usize) -> usize
        requires ordered { start ≤ end }
        requires within { end ≤ length haystack.now }
        ensures { IsLastStop (λ byte. not (slice_index_or self.now byte false)) haystack.now start end result }
    {
        self.form.behind_last_stop(haystack, start, end)
    }
}
