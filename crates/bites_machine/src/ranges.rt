//! Ranges of characters that a state takes.

ghost use Rattle.std.specs.Prelude.{◌≡◌, ℕ, ◌<◌, ◌≤◌, ◌^◌, IfOk, true};
ghost use Rattle.bites_spec.specs.Range.{in_range, in_ranges};
ghost use Rattle.bites_spec.specs.Program.{AreRanges};
ghost use Rattle.bites_machine.specs.Bits.{has_bit, HasAscii, ReachesPast};

use bites_syntax::range_list::RangeList;
use std::alloc::{AllocError, Global};
use std::marker::Model;

/// Inclusive ranges of characters, with a bit for each ASCII character.
///
/// For proofs: contracts see the list of the ranges.
#[derive(Drop)]
pub struct Ranges {
    list: RangeList,
    /// A bit for each ASCII character: whether it lies in one of the ranges.
    ascii: [u64; 2],
    /// Whether one of the ranges ends above ASCII.
    past_ascii: bool,
}

impl Model for Ranges {
    ghost use Rattle.std.specs.Prelude.{List};
    ghost use Rattle.bites_spec.specs.Range.{Range};
    ghost use Rattle.bites_machine.specs.Bits.{HasAscii, ReachesPast};

    ghost Value = { List Range };

    ghost view = { λ a. a.list };

    ghost invariant = { λ a. HasAscii a.ascii a.list × ReachesPast a.past_ascii a.list };
}

impl Ranges {
    /// Returns the ranges as a slice.
    #[inline]
    pub fn as_slice(&self) -> &[(char, char)]
        ensures { result.now ≡ self.now }
    {
        self.list.as_slice()
    }

    /// Copies the ranges of a list. Allocates only if the list itself is allocated.
    pub(crate) fn copy_of(alloc: Global, list: &RangeList) -> Result<Ranges, AllocError>
        ensures { IfOk result (λ ranges. ranges ≡ list.now) }
    {
        Ok(Ranges::new(list.copy(alloc)?))
    }

    // Makes ranges of a list, and finds their ASCII bits.
    #[inline(always)]
    fn new(list: RangeList) -> Ranges
        ensures { result ≡ list }
    {
        let ascii = words_of(list.as_slice());
        let past_ascii = reaches_past_ascii(list.as_slice());
        Ranges {
            list,
            ascii,
            past_ascii,
        }
    }

    /// Returns a copy of the ranges. Allocates only if their list is allocated.
    pub(crate) fn copy(&self, alloc: Global) -> Result<Ranges, AllocError>
        ensures { IfOk result (λ copy. copy ≡ self.now) }
    {
        let list = self.list.copy(alloc)?;
        Ok(Ranges {
            list,
            ascii: self.ascii,
            past_ascii: self.past_ascii,
        })
    }

    /// Returns whether the ASCII character of this number lies in one of the ranges.
    #[inline(always)]
    pub(crate) fn takes_ascii(&self, number: u32) -> bool
        requires { number < 128 }
        ensures { result ≡ in_ranges self.now number }
    {
        let _known = &self.list;
        (self.ascii[(number / 64) as usize] >> (number % 64)) & 1 == 1
    }

    /// Returns whether the character lies in one of the ranges, which are in ascending order.
    ///
    /// Takes one look for an ASCII character, and for any other if all ranges are ASCII. Else a binary search takes at
    /// most as many looks as the number of ranges has bits.
    #[inline]
    pub fn takes(&self, ch: char) -> bool
        requires { AreRanges self.now }
        ensures { result ≡ in_ranges self.now ch }
    {
        if ch.is_ascii() {
            self.takes_ascii(ch as u32)
        } else {
            self.past_ascii && is_in_ranges(self.list.as_slice(), ch)
        }
    }
}

impl From<Vec<(char, char)>> for Ranges {
    ghost from_gives = { λ list ranges. ranges ≡ list.items };

    /// Makes ranges of a vector. Allocates nothing.
    fn from(list: Vec<(char, char)>) -> Ranges {
        Ranges::new(list.into())
    }
}

// Returns a bit for each ASCII character, 64 a word: whether it lies in one of the ranges.
fn words_of(ranges: &[(char, char)]) -> [u64; 2]
    ensures { HasAscii result ranges.now }
{
    let bits = ascii_of(ranges);
    [(bits & 0xFFFF_FFFF_FFFF_FFFF) as u64, (bits >> 64) as u64]
}

// Returns whether one of the ranges ends above ASCII.
fn reaches_past_ascii(ranges: &[(char, char)]) -> bool
    ensures { ReachesPast result ranges.now }
{
    for (_, last) in ranges {
        if *last > '\u{7F}' {
            return true;
        }
    }
    false
}

// Returns a bit for each ASCII character: whether it lies in one of the ranges.
fn ascii_of(ranges: &[(char, char)]) -> u128
    ensures { (c : ℕ) → c < 128 → has_bit result c ≡ in_ranges ranges.now c }
{
    let mut bits = 0u128;
    for (first, last) in ranges {
        bits |= ascii_within(*first, *last);
    }
    bits
}

// Returns a bit for each ASCII character: whether it lies between these two, inclusive.
fn ascii_within(first: char, last: char) -> u128
    ensures { (c : ℕ) → c < 128 → has_bit result c ≡ in_range (first, last) c }
{
    let (first, last) = (first as u32, last as u32);
    if first > last || first > 127 {
        return 0;
    }
    let last = last.min(127);
    // Most ranges lie in one word, whose bits take fewer steps.
    if last < 64 {
        u128::from(bits_within(first, last))
    } else if first >= 64 {
        u128::from(bits_within(first - 64, last - 64)) << 64
    } else {
        (u128::MAX << first) & (u128::MAX >> (127 - last))
    }
}

// Returns a word with the bits from `first` to `last` set.
#[inline(always)]
fn bits_within(first: u32, last: u32) -> u64
    requires order { first ≤ last }
    requires word { last < 64 }
    ensures bits { (c : ℕ) → has_bit result c ≡ in_range (first, last) c }
    ensures fits { result < 2 ^ 64 }
{
    (u64::MAX << first) & (u64::MAX >> (63 - last))
}

// Finds by binary search whether the character lies in one of the ranges, which are in ascending order. It may be
// missed if they are not.
#[inline(never)]
#[tactic(auto, using(crate::proofs::compile::BitLemmas::hit))]
fn is_in_ranges(ranges: &[(char, char)], c: char) -> bool
    ensures found { result ≡ true → in_ranges ranges.now c ≡ true }
    ensures rising { AreRanges ranges.now → result ≡ in_ranges ranges.now c }
{
    let mut low = 0;
    let mut high = ranges.len();
    while low < high {
        let middle = low + (high - low) / 2;
        let (first, last) = ranges[middle];
        if last < c {
            low = middle + 1;
        } else if c < first {
            high = middle;
        } else {
            return true;
        }
    }
    false
}
