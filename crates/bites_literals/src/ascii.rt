//! Sets of bytes of ASCII.

ghost use Rattle.std.specs.Prelude.{◌≡◌, ◌↔◌, ℕ, ◌⊎◌, ◌<◌, ◌≤◌, true, false, IsTrue, slice_index_or};
ghost use Rattle.bites_spec.specs.Range.{in_ranges};
ghost use Rattle.bites_literals.specs.Ascii.{Has};

/// A set of bytes of ASCII: one bit for each.
#[derive(Clone, Copy, Drop)]
pub(crate) struct AsciiSet {
    bits: u128,
}

impl AsciiSet {
    /// Returns the empty set.
    pub(crate) fn none() -> AsciiSet
        ensures { (byte : ℕ) → Has result byte → ⊥ }
    {
        AsciiSet { bits: 0 }
    }

    /// Returns the set of one byte.
    pub(crate) fn of_byte(byte: u8) -> AsciiSet
        requires { byte < 128 }
        ensures has { Has result byte }
        ensures only { (other : ℕ) → other < 128 → Has result other → other ≡ byte }
    {
        AsciiSet::range(char::from(byte), char::from(byte))
    }

    /// Returns the set of the characters of the ranges that are ASCII.
    pub(crate) fn of(ranges: &[(char, char)]) -> AsciiSet
        ensures has { (c : ℕ) → c < 128 → in_ranges ranges.now c ≡ true → Has result c }
        ensures only { (c : ℕ) → c < 128 → Has result c → in_ranges ranges.now c ≡ true }
    {
        let mut set = AsciiSet::none();
        for range in ranges {
            set = set.union(AsciiSet::range(range.0, range.1));
        }
        set
    }

    /// Returns the set of the characters from the first to the last that are ASCII.
    fn range(first: char, last: char) -> AsciiSet
        ensures has { (c : ℕ) → c < 128 → first ≤ c → c ≤ last → Has result c }
        ensures only { (c : ℕ) → c < 128 → Has result c → (first ≤ c) × (c ≤ last) }
    {
        let (first, last) = (first as u32, (last as u32).min(127));
        if last < first {
            return AsciiSet::none();
        }
        let up_to_last = u128::MAX >> (127 - last);
        let before_first = (1 << first) - 1;
        AsciiSet {
            bits: up_to_last - before_first,
        }
    }

    /// Returns the set of the bytes of both.
    pub(crate) fn union(self, other: AsciiSet) -> AsciiSet
        ensures has { (byte : ℕ) → Has self byte ⊎ Has other byte → Has result byte }
        ensures only { (byte : ℕ) → Has result byte → Has self byte ⊎ Has other byte }
    {
        AsciiSet {
            bits: self.bits | other.bits,
        }
    }

    /// Returns the set of all other bytes of ASCII.
    pub(crate) fn complement(self) -> AsciiSet
        ensures has { (byte : ℕ) → byte < 128 → (Has self byte → ⊥) → Has result byte }
        ensures only { (byte : ℕ) → byte < 128 → Has result byte → Has self byte → ⊥ }
    {
        AsciiSet { bits: !self.bits }
    }

    /// Returns whether the set has the byte.
    pub(crate) fn contains(self, byte: u8) -> bool
        requires { byte < 128 }
        ensures { IsTrue result ↔ Has self byte }
    {
        self.bits >> byte & 1 == 1
    }

    /// Returns a flag for each byte: whether it is in the set, or `others` if it is not ASCII.
    pub(crate) fn flags(self, others: bool) -> [bool; 256]
        ensures ascii { (byte : ℕ) → byte < 128 → slice_index_or result byte false ≡ true ↔ Has self byte }
        ensures others { (byte : ℕ) → 128 ≤ byte → byte < 256 → slice_index_or result byte false ≡ others }
    {
        let mut flags = [others; 256];
        for byte in 0..128u8 {
            flags[usize::from(byte)] = self.contains(byte);
        }
        flags
    }

    /// Returns whether the set has all bytes of ASCII.
    pub(crate) fn is_full(self) -> bool {
        self.bits == u128::MAX
    }
}
