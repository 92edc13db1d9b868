//! Which runs of three bytes stand in a haystack.

ghost use Rattle.std.specs.Prelude.{◌≡◌, ◌↔◌, ℕ, ◌+◌, ◌*◌, ◌%◌, ◌<◌, List, length, bit_or, IsTrue};
ghost use Rattle.bites_scan.specs.Literal.{Needle, NeedleOccursAt};
ghost use Rattle.bites_scan.specs.Trigrams.{AreTrigramsOf, HasTrigram, trigram_at};

use crate::literal::Literal;

/// The hashes of the runs of three bytes that stand in a haystack. A literal doesn't occur there if one of its runs has none of them.
///
/// There are 4,096 hashes, one bit for each. A haystack of 100 bytes has at most 100 of them, and one of 2,000 bytes two fifths.
#[derive(Drop)]
pub struct Trigrams {
    words: [u64; 64],
}

impl Trigrams {
    /// Returns the hashes of all runs of three bytes in the haystack. Allocates nothing.
    pub fn of(haystack: &[u8]) -> Trigrams
        ensures { AreTrigramsOf result haystack.now }
    {
        let mut trigrams = Trigrams { words: [0; 64] };
        let mut hash = 0;
        // The first two hashes are of one byte and of two, which no run has. They are added too, so that no turn of the loop has a test.
        for at in 0..haystack.len() {
            hash = next(hash, haystack[at]);
            trigrams.add(hash);
        }
        trigrams
    }

    /// Adds a hash.
    #[inline(always)]
    fn add(&mut self, hash: usize)
        requires { hash < 4096 }
        ensures added { HasTrigram self.new hash }
        ensures kept { (other : ℕ) → HasTrigram self.old other → HasTrigram self.new other }
    {
        self.words[hash / 64] |= 1 << (hash % 64);
    }

    /// Returns whether a hash is there.
    #[inline(always)]
    fn has(&self, hash: usize) -> bool
        requires { hash < 4096 }
        ensures { IsTrue result ↔ HasTrigram self.now hash }
    {
        self.words[hash / 64] >> (hash % 64) & 1 == 1
    }

    /// Returns whether the literal may occur in the haystack: whether the hashes of the runs around its two rarest bytes are there. It may if
    /// it has fewer than three bytes.
    pub fn may_hold(&self, literal: &Literal) -> bool
        ensures { (haystack : List ℕ) (at : ℕ) → AreTrigramsOf self.now haystack → NeedleOccursAt haystack at literal.now → IsTrue result }
    {
        let bytes = literal.bytes();
        let (first, second) = literal.rarest();
        self.has_around(bytes, second) && self.has_around(bytes, first)
    }

    /// Returns whether the hash of a run around an offset of a literal is there.
    #[inline(always)]
    fn has_around(&self, bytes: &[u8], offset: usize) -> bool
        ensures { (haystack : List ℕ) (from : ℕ) (n : Needle) → AreTrigramsOf self.now haystack → n.bytes ≡ bytes.now →
            NeedleOccursAt haystack from n → IsTrue result }
    {
        if bytes.len() < 3 {
            return true;
        }
        let at = offset.saturating_sub(1).min(bytes.len() - 3);
        self.has(trigram(bytes, at))
    }
}

/// Returns the hash of three bytes from that of the two before the last one, whatever came before these. It is the same for both cases of a
/// letter.
#[inline(always)]
fn next(hash: usize, byte: u8) -> usize
    requires { hash < 4096 }
    ensures is { result ≡ (16 * hash + bit_or byte 32) % 4096 }
    ensures within { result < 4096 }
{
    (16 * hash + (byte | 32) as usize) % 4096
}

/// Returns the hash of the three bytes from an offset on.
#[inline(always)]
fn trigram(bytes: &[u8], at: usize) -> usize
    requires { at + 2 < length bytes.now }
    ensures within { result < 4096 }
    ensures there { (haystack : List ℕ) (from : ℕ) (n : Needle) → n.bytes ≡ bytes.now → NeedleOccursAt haystack from n →
        result ≡ trigram_at haystack (from + at) }
{
    next(next(next(0, bytes[at]), bytes[at + 1]), bytes[at + 2])
}
