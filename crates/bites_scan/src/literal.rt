//! A literal that a haystack is searched for.

ghost use Rattle.std.specs.Prelude.{◌≡◌, ◌↔◌, ◌≤◌, ◌<◌, ◌==◌, ◌&&◌, IsTrue, [], ◌∷◌, false, length, not, take};
ghost use Rattle.bites_scan.specs.Literal.{Needle, IsOutcome, folding, needle, DifferFrom, NeedleOccursAt};
ghost use Rattle.bites_scan.specs.Offsets.{IsSettled, offset_of};

use crate::first_stop::first_stop;
use crate::folding::{Caseless, Exact, Folding};
use crate::pair::{Pair, rarest_two};
use crate::stops::OneByte;
use std::marker::Model;

/// How many bytes a literal has at most.
pub const MAX_LEN: usize = 32;

/// A literal of 1 to 32 bytes that a haystack is searched for. It owns no memory.
///
/// For proofs: a contract sees it as its bytes, and whether letters of ASCII count as equal in both cases.
#[derive(Drop)]
pub struct Literal {
    bytes: [u8; MAX_LEN],
    len: usize,
    first: usize,
    second: usize,
    caseless: bool,
    ghost short: { len ≤ 32 },
    ghost first_within: { first < len },
    ghost second_within: { second < len },
}

impl Model for Literal {
    ghost use Rattle.bites_scan.specs.Literal.{Needle, needle};
    ghost use Rattle.std.specs.Prelude.{take};

    ghost Value = { Needle };

    ghost view = { λ l. needle (take l.len l.bytes) l.caseless };
}

/// What a search found.
#[derive(Clone, Copy, Debug, Drop, PartialEq)]
pub enum Outcome {
    /// The literal occurs first at `start`, and ends at `end` there.
    Found { start: usize, end: usize },
    /// The literal does not occur.
    Nowhere,
    /// Too many offsets looked like the literal and were not. The literal does not occur before this offset.
    Tired(usize),
}

impl Outcome {
    /// Returns the offset that the search has come to: where the literal was found, or where the search grew tired.
    #[inline(always)]
    pub fn offset(self) -> Option<usize>
        ensures { result ≡ offset_of self }
    {
        match self {
            Outcome::Found { start, .. } => Some(start),
            Outcome::Nowhere => None,
            Outcome::Tired(at) => Some(at),
        }
    }
}

impl Literal {
    /// Returns a literal of these bytes. If `caseless` is set, letters of ASCII count as equal in both cases.
    pub fn new(bytes: &[u8], caseless: bool) -> Literal
        requires some { 0 < length bytes.now }
        requires short { length bytes.now ≤ 32 }
        ensures { result ≡ needle bytes.now caseless }
    {
        let mut own = [0; MAX_LEN];
        own[..bytes.len()].copy_from_slice(bytes);
        let (first, second) = if caseless {
            rarest_two::<Caseless>(bytes)
        } else {
            rarest_two::<Exact>(bytes)
        };
        Literal {
            bytes: own,
            len: bytes.len(),
            first,
            second,
            caseless,
        }
    }

    /// Searches from `from` on, until the literal is found or too many offsets only looked like it.
    ///
    /// The two rarest bytes of the literal are compared at 64 offsets a step. At an offset where both agree all bytes are
    /// compared. Of `n` bytes that the search passes, at most 65 + n / 4 are offsets at which this fails. Where case counts, a literal
    /// of one byte is looked for by that byte alone.
    pub fn search(&self, haystack: &[u8], from: usize) -> Outcome
        requires { from ≤ length haystack.now }
        ensures { IsOutcome self.now haystack.now from result }
    {
        if self.is_one_byte() {
            return self.search_byte(haystack, from);
        }
        let pair = Pair {
            needle: &self.bytes[..self.len],
            first: self.first,
            second: self.second,
        };
        if self.caseless {
            pair.search::<Caseless>(haystack, from)
        } else {
            pair.search::<Exact>(haystack, from)
        }
    }

    /// Returns whether the literal is one byte, and case counts.
    #[inline(always)]
    pub fn is_one_byte(&self) -> bool
        ensures { result ≡ ((length self.now.bytes == 1) && not self.now.caseless) }
    {
        self.len == 1 && !self.caseless
    }

    /// Searches like [`search`](Self::search) for a literal of one byte, in as little code as may be. It never grows tired.
    #[inline(always)]
    pub fn search_byte(&self, haystack: &[u8], from: usize) -> Outcome
        requires one { length self.now.bytes ≡ 1 }
        requires exact { self.now.caseless ≡ false }
        requires from { from ≤ length haystack.now }
        ensures outcome { IsOutcome self.now haystack.now from result }
        ensures settled { IsSettled result }
    {
        search_byte(self.bytes[0], haystack, from)
    }

    /// Returns whether the literal occurs here.
    pub(crate) fn occurs_at(&self, haystack: &[u8], at: usize) -> bool
        requires { at ≤ length haystack.now }
        ensures { IsTrue result ↔ NeedleOccursAt haystack.now at self.now }
    {
        let needle = &self.bytes[..self.len];
        if haystack.len() - at < needle.len() {
            return false;
        }
        let here = &haystack[at..at + needle.len()];
        if self.caseless {
            Caseless::are_equal(here, needle)
        } else {
            Exact::are_equal(here, needle)
        }
    }

    /// Returns whether the literals occur together at no place: whether they differ in a byte up to the end of the shorter one. Letters of
    /// ASCII count as equal in both cases, unless case counts in both literals.
    pub fn differs_from(&self, other: &Literal) -> bool
        ensures { IsTrue result ↔ DifferFrom self.now other.now }
    {
        let both = self.len().min(other.len());
        let (own, others) = (&self.bytes()[..both], &other.bytes()[..both]);
        if self.is_caseless() | other.is_caseless() {
            !Caseless::are_equal(own, others)
        } else {
            !Exact::are_equal(own, others)
        }
    }

    /// Returns the number of bytes.
    #[inline(always)]
    pub fn len(&self) -> usize
        ensures { result ≡ length self.now.bytes }
    {
        self.len
    }

    /// Returns the bytes.
    #[inline(always)]
    pub(crate) fn bytes(&self) -> &[u8]
        ensures { result.now ≡ self.now.bytes }
    {
        &self.bytes[..self.len]
    }

    /// Returns the offsets of the two rarest bytes. Only speed depends on it.
    #[inline(always)]
    pub(crate) fn rarest(&self) -> (usize, usize) {
        (self.first, self.second)
    }

    /// Returns whether letters of ASCII count as equal in both cases.
    #[inline(always)]
    pub(crate) fn is_caseless(&self) -> bool
        ensures { result ≡ self.now.caseless }
    {
        self.caseless
    }

    /// Returns a number that puts literals in the order of the three bytes at this place, in whichever case. Only speed depends
    /// on it.
    pub(crate) fn order_at(&self, place: usize) -> u32
        requires { place ≤ 29 }
    {
        u32::from_be_bytes([
            0,
            self.bytes[place] | 0x20,
            self.bytes[place + 1] | 0x20,
            self.bytes[place + 2] | 0x20,
        ])
    }

    /// Returns how often the three bytes at this place occur in texts, or `u32::MAX` if the literal ends before. Only speed
    /// depends on it.
    pub(crate) fn cost_at(&self, place: usize) -> u32
        requires { place ≤ 29 }
    {
        if place + 3 > self.len {
            return u32::MAX;
        }
        self.rank_at(place) + self.rank_at(place + 1) + self.rank_at(place + 2)
    }

    /// Returns the rank of a byte, as `Folding::rank`.
    fn rank_at(&self, place: usize) -> u32
        requires { place < 32 }
        ensures { result < 256 }
    {
        let byte = self.bytes[place];
        if self.caseless {
            Caseless::rank(byte) as u32
        } else {
            Exact::rank(byte) as u32
        }
    }
}

/// Searches for one byte from `from` on.
#[inline(always)]
fn search_byte(byte: u8, haystack: &[u8], from: usize) -> Outcome
    requires { from ≤ length haystack.now }
    ensures outcome { IsOutcome (needle (byte ∷ []) false) haystack.now from result }
    ensures settled { IsSettled result }
{
    let start = first_stop(&OneByte { byte }, haystack, from);
    if start < haystack.len() {
        Outcome::Found {
            start,
            end: start + 1,
        }
    } else {
        Outcome::Nowhere
    }
}
