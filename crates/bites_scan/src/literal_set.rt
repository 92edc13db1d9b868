//! Several literals that a haystack is searched for together.

ghost use Rattle.std.specs.Prelude.{None, ◌≡◌, ◌↔◌, ◌+◌, ◌≤◌, ◌<◌, ℕ, List, IfSome, IsSome, IsTrue, length};
ghost use Rattle.std.specs.Int.{bit_at};
ghost use Rattle.bites_scan.specs.Known.{AreAsLong, AreKnown};
ghost use Rattle.bites_scan.specs.LiteralSet.{AreCandidates, IsSetOutcome, IsSetOutcomeWithin, SomeOccursAt, StandsUpTo};
ghost use Rattle.bites_scan.specs.Offsets.{Marks, NoneOccurs};
ghost use Rattle.bites_scan.specs.Trigrams.{AreTrigramsOf};

use crate::choice::{bucket_of, place_of};
use crate::failures::Failures;
use crate::fingerprints::Fingerprints;
use crate::lanes::{LANES, WIDE, from_bit, lowest, without};
use crate::literal::{Literal, Outcome};
use crate::shortlist::Shortlist;
use crate::trigrams::Trigrams;
use std::marker::Model;

/// How many literals a set has at most.
pub const MOST_LITERALS: usize = 64;

/// How many bytes the fingerprints read beyond the first byte of the last offset.
const AHEAD: usize = 2;

/// How many tests may fail at first, be it of an offset or of a literal there.
const FREE_TESTS: usize = 16;

/// For how many bytes that the search goes on one more test may fail.
const BYTES_FOR_A_TEST: usize = 32;

/// Literals that a haystack is searched for together: at least one, and at most 64.
///
/// For proofs: a contract sees it as the list of its literals.
#[derive(Drop)]
pub struct LiteralSet {
    literals: Vec<Literal>,
    fingerprints: Fingerprints,
    shortlist: Shortlist,
    // No literal is shorter.
    least: usize,
    ghost known: { ∥ AreKnown literals.items (length literals.items) fingerprints shortlist ∥₁ },
    ghost long: { AreAsLong literals.items (length literals.items) least },
}

impl Model for LiteralSet {
    ghost use Rattle.bites_scan.specs.Literal.{Needle};
    ghost use Rattle.std.specs.Prelude.{List};

    ghost Value = { List Needle };

    ghost view = { λ s. s.literals.items };
}

impl LiteralSet {
    /// Returns a set of the literals, or `None` if there are none of them or more than 64. It allocates nothing.
    pub fn new(literals: Vec<Literal>) -> Option<LiteralSet>
        ensures same { IfSome result (λ set. set ≡ literals.items) }
        ensures few { IsSome result ↔ ((0 < length literals.items) × (length literals.items ≤ 64)) }
    {
        if literals.is_empty() || literals.len() > MOST_LITERALS {
            return None;
        }
        let place = place_of(&literals);
        let least = least_len(&literals);
        let mut fingerprints = Fingerprints::empty(place);
        let mut shortlist = Shortlist::empty();
        for number in 0..literals.len() {
            fingerprints.add(&literals[number], bucket_of(&literals, number, place));
            shortlist.add(&literals[number], number);
        }
        Some(LiteralSet {
            literals,
            fingerprints,
            shortlist,
            least,
        })
    }

    /// Searches from `from` on, until one of the literals is found or too many offsets only looked like one.
    ///
    /// Vectors look up three bytes for each of 64 offsets a step. Where one bucket has all three, the literals are compared
    /// that have the same hash. Of `n` bytes that the search passes, at most 17 + n / 32 are offsets at which this fails, and
    /// at most 80 + n / 32 literals are compared in vain.
    // What it calls stands in it, since most haystacks are short.
    pub fn search(&self, haystack: &[u8], from: usize) -> Outcome
        requires { from ≤ length haystack.now }
        ensures { IsSetOutcome self.now haystack.now from result }
    {
        let mut failures = Failures::none(from);
        let mut at = from;
        'wide: while let Some(mask) = self.mask_of_64(haystack, at) {
            match self.first_marked(haystack, at, mask, &mut failures) {
                Outcome::Found { start, end } => return Outcome::Found { start, end },
                Outcome::Tired(offset) => return Outcome::Tired(offset),
                Outcome::Nowhere => at += WIDE,
            }
        }
        self.search_rest(haystack, from, at, failures)
    }

    /// Returns whether one of the literals may occur in a haystack with these runs of three bytes.
    pub fn may_occur(&self, trigrams: &Trigrams) -> bool
        ensures { (haystack : List ℕ) (at : ℕ) → AreTrigramsOf trigrams.now haystack → SomeOccursAt self.now haystack at → IsTrue result }
    {
        for literal in &self.literals {
            if trigrams.may_hold(literal) {
                return true;
            }
        }
        false
    }

    /// Goes on with a search, 16 offsets a step.
    #[inline(always)]
    fn search_rest(
        &self,
        haystack: &[u8],
        from: usize,
        start: usize,
        mut failures: Failures,
    ) -> Outcome
        requires onward { from ≤ start }
        requires within { start ≤ length haystack.now }
        requires none { NoneOccurs (SomeOccursAt self.now haystack.now) from start }
        ensures { IsSetOutcome self.now haystack.now from result }
    {
        let mut at = start;
        'narrow: while let Some((base, mask)) = self.mask_of_16(haystack, at) {
            match self.first_marked(haystack, base, mask, &mut failures) {
                Outcome::Found { start, end } => return Outcome::Found { start, end },
                Outcome::Tired(offset) => return Outcome::Tired(offset),
                Outcome::Nowhere => at = base + LANES,
            }
        }
        self.search_by_one(haystack, from, at, failures)
    }

    /// Goes on with a search, offset by offset, up to the last one at which the shortest literal has room.
    #[inline(always)]
    fn search_by_one(
        &self,
        haystack: &[u8],
        from: usize,
        start: usize,
        mut failures: Failures,
    ) -> Outcome
        requires onward { from ≤ start }
        requires within { start ≤ length haystack.now }
        requires none { NoneOccurs (SomeOccursAt self.now haystack.now) from start }
        ensures { IsSetOutcome self.now haystack.now from result }
    {
        let mut at = start;
        'offsets: while at.saturating_add(self.least) <= haystack.len() {
            let candidates = self.candidates(haystack, at);
            if let Some(end) = self.end_of_one(candidates, haystack, at) {
                return Outcome::Found { start: at, end };
            }
            if at < haystack.len() && are_too_many(&mut failures, candidates.count_ones(), at) {
                return Outcome::Tired(at + 1);
            }
            at += 1;
        }
        Outcome::Nowhere
    }

    /// Returns where the 16 offsets of a vector begin, and a bit for each of them from `at` on at which a literal may occur. Near the end
    /// they begin before `at`. Returns `None` where no vector has one from `at` on.
    #[inline(always)]
    fn mask_of_16(&self, haystack: &[u8], at: usize) -> Option<(usize, u64)>
        requires { at ≤ length haystack.now }
        ensures { IfSome result (λ r. (at < r.0 + 16) × (r.0 + 16 ≤ length haystack.now)
            × Marks (SomeOccursAt self.now haystack.now) r.0 at (r.0 + 16) r.1) }
    {
        let read = LANES + AHEAD + self.fingerprints.place as usize;
        if haystack.len() < read {
            return None;
        }
        let base = at.min(haystack.len() - read);
        if at - base >= LANES {
            return None;
        }
        let mask = self.fingerprints.mask_of_16(haystack, base);
        Some((base, from_bit(mask, at - base)))
    }

    /// Returns a bit for each of 64 offsets at which a literal may occur, or `None` near the end.
    #[inline(always)]
    fn mask_of_64(&self, haystack: &[u8], at: usize) -> Option<u64>
        requires { at ≤ length haystack.now }
        ensures { IfSome result (λ mask. (at + 64 ≤ length haystack.now) × Marks (SomeOccursAt self.now haystack.now) at at (at + 64) mask) }
    {
        if haystack.len() - at < WIDE + AHEAD + self.fingerprints.place as usize {
            return None;
        }
        Some(self.fingerprints.mask_of_64(haystack, at))
    }

    /// Returns the literals that may occur here, as bits.
    #[inline(always)]
    fn candidates(&self, haystack: &[u8], at: usize) -> u64
        requires { at ≤ length haystack.now }
        ensures { AreCandidates self.now haystack.now at result }
    {
        self.shortlist.at(haystack, at)
    }

    /// Tests the offsets that a mask marks, until a literal is found or too many tests have failed.
    #[inline(always)]
    fn first_marked(
        &self,
        haystack: &[u8],
        base: usize,
        mask: u64,
        failures: &mut Failures,
    ) -> Outcome
        requires { (k : ℕ) → bit_at mask k ≡ 1 → base + k < length haystack.now }
        ensures { (from end : ℕ) → Marks (SomeOccursAt self.now haystack.now) base from end mask →
            IsSetOutcomeWithin self.now haystack.now from end result }
    {
        let mut left = mask;
        'marked: while left != 0 {
            let lane = lowest(left);
            let offset = base + lane;
            let candidates = self.candidates(haystack, offset);
            if let Some(end) = self.end_of_one(candidates, haystack, offset) {
                return Outcome::Found { start: offset, end };
            }
            if are_too_many(failures, candidates.count_ones().max(1), offset) {
                return Outcome::Tired(offset + 1);
            }
            left = without(left, lane);
        }
        Outcome::Nowhere
    }

    /// Returns where a literal ends that occurs here, or `None` if none does. Only the candidates are compared.
    fn end_of_one(&self, candidates: u64, haystack: &[u8], at: usize) -> Option<usize>
        requires within { at ≤ length haystack.now }
        requires listed { AreCandidates self.now haystack.now at candidates }
        ensures some { IfSome result (StandsUpTo self.now haystack.now at) }
        ensures none { result ≡ None → SomeOccursAt self.now haystack.now at → ⊥ }
    {
        let mut left = candidates;
        'candidates: while left != 0 {
            let number = lowest(left);
            if number < self.literals.len() && self.literals[number].occurs_at(haystack, at) {
                return Some(at + self.literals[number].len());
            }
            left = without(left, number);
        }
        None
    }
}

/// Counts tests that failed. Returns whether they are too many for a search that has come to `at`.
#[inline(always)]
fn are_too_many(failures: &mut Failures, more: u32, at: usize) -> bool {
    failures.are_too_many(more, at, FREE_TESTS, BYTES_FOR_A_TEST)
}

/// Returns a number of bytes that each literal has at least: that of the shortest one.
fn least_len(literals: &[Literal]) -> usize
    ensures { AreAsLong literals.now (length literals.now) result }
{
    let mut least = usize::MAX;
    for index in 0..literals.len() {
        least = least.min(literals[index].len());
    }
    least
}
