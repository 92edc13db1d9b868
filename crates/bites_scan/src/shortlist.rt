//! Which literals may occur at an offset, by the three bytes there.

ghost use Rattle.std.specs.Prelude.{◌≡◌, ℕ, ◌+◌, ◌≤◌, ◌<◌, length, slice_index};
ghost use Rattle.std.specs.Int.{bit_at};
ghost use Rattle.bites_scan.specs.Literal.{Needle, NeedleOccursAt};
ghost use Rattle.bites_scan.specs.Shortlist.{Lists, hash_of};

use crate::literal::Literal;

/// Sets of up to 64 numbers of literals: for each hash of three bytes those that may occur there.
#[derive(Clone, Copy, Drop)]
pub(crate) struct Shortlist {
    by_hash: [u64; 256],
    /// The literals of one byte or two.
    short: u64,
}

impl Shortlist {
    /// Returns a list of no literals.
    pub(crate) fn empty() -> Shortlist {
        Shortlist {
            by_hash: [0; 256],
            short: 0,
        }
    }

    /// Lists a literal under the hash of its first three bytes. A shorter one is listed under each hash.
    pub(crate) fn add(&mut self, literal: &Literal, number: usize)
        requires { number < 64 }
        ensures added { Lists self.new literal.now number }
        ensures kept { (n : Needle) (k : ℕ) → Lists self.old n k → Lists self.new n k }
    {
        let bytes = literal.bytes();
        if bytes.len() < 3 {
            self.short |= 1 << number;
            list_under_all(&mut self.by_hash, number);
        } else {
            list_under(
                &mut self.by_hash,
                hash(bytes[0], bytes[1], bytes[2]),
                number,
            );
        }
    }

    /// Returns the literals that may occur here.
    #[inline(always)]
    pub(crate) fn at(&self, haystack: &[u8], at: usize) -> u64
        requires { at ≤ length haystack.now }
        ensures { (n : Needle) (k : ℕ) → Lists self.now n k → NeedleOccursAt haystack.now at n → bit_at result k ≡ 1 }
    {
        if haystack.len() - at < 3 {
            return self.short;
        }
        self.by_hash[hash(haystack[at], haystack[at + 1], haystack[at + 2])]
    }
}

/// Lists a literal under one hash.
fn list_under(by_hash: &mut [u64; 256], hash: usize, number: usize)
    requires within { hash < 256 }
    requires small { number < 64 }
    ensures listed { bit_at (slice_index by_hash.new hash) number ≡ 1 }
    ensures kept { (h k : ℕ) → bit_at (slice_index by_hash.old h) k ≡ 1 → bit_at (slice_index by_hash.new h) k ≡ 1 }
{
    by_hash[hash] |= 1 << number;
}

/// Lists a literal under each hash.
fn list_under_all(by_hash: &mut [u64; 256], number: usize)
    requires { number < 64 }
    ensures listed { (h : ℕ) → h < 256 → bit_at (slice_index by_hash.new h) number ≡ 1 }
    ensures kept { (h k : ℕ) → bit_at (slice_index by_hash.old h) k ≡ 1 → bit_at (slice_index by_hash.new h) k ≡ 1 }
{
    for hash in 0..256usize {
        list_under(by_hash, hash, number);
    }
}

/// Returns the hash of three bytes. It is the same for both cases of a letter.
#[inline(always)]
fn hash(a: u8, b: u8, c: u8) -> usize
    ensures same { result ≡ hash_of a b c }
    ensures within { result < 256 }
{
    ((a | 32) as usize + 5 * (b | 32) as usize + 25 * (c | 32) as usize) % 256
}
