//! Trees that match one byte of a class of ASCII, or as many as stand one after another.

ghost use Rattle.std.specs.Prelude.{◌≤◌, length, true, None, IfSome};
ghost use Rattle.bites_spec.specs.Tree as spec;
ghost use Rattle.bites_literals.specs.Begins.{BeginsBy, IsCandidate, IsWithin};
ghost use Rattle.bites_literals.specs.ByteRun.{IsByteRun, IsByteRunOf};

use crate::ascii::AsciiSet;
use crate::class::is_ascii;
use crate::prefilter::Begin;
use bites_scan::byte_set::ByteSet;
use bites_syntax::tree::{Kind, Tree};

/// The bytes of a class of ASCII, where a match is one of them, or a run of them that is as long as can be.
#[derive(Drop)]
pub(crate) struct ByteRun {
    /// All other bytes.
    others: ByteSet,
    /// The bytes of the class, if a match goes on over them.
    own: Option<ByteSet>,
}

impl ByteRun {
    /// Returns the bytes, if the tree is such a class, or its greedy repetition of one turn or more.
    pub(crate) fn of(tree: &Tree) -> Option<ByteRun>
        ensures { IfSome result (IsByteRunOf tree.now) }
    {
        match tree.kind() {
            Kind::Class(class) => ByteRun::of_ranges(class.ranges(), false),
            Kind::Repetition {
                min,
                max,
                greedy,
                sub,
            } if *min == 1 && max.is_none() && *greedy => ByteRun::repeated(sub),
            _ => None,
        }
    }

    /// Returns the bytes of the tree's greedy repetition, if the tree is such a class.
    fn repeated(tree: &Tree) -> Option<ByteRun>
        ensures { IfSome result (IsByteRunOf (spec.repetition 1 None true tree.now)) }
    {
        match tree.kind() {
            Kind::Class(class) => ByteRun::of_ranges(class.ranges(), true),
            _ => None,
        }
    }

    /// Returns the bytes of the ranges, if these are of ASCII.
    fn of_ranges(ranges: &[(char, char)], repeats: bool) -> Option<ByteRun>
        ensures { IfSome result (IsByteRun ranges.now repeats) }
    {
        if !is_ascii(ranges) {
            return None;
        }
        let set = AsciiSet::of(ranges);
        let own = if repeats {
            Some(ByteSet::new(&set.flags(false)))
        } else {
            None
        };
        Some(ByteRun {
            others: ByteSet::new(&set.complement().flags(true)),
            own,
        })
    }

    /// Returns the first match from `start` on. It reads the bytes up to the end of that match, or to the end of the haystack. If
    /// `with_end` isn't set, it returns the first byte of the match instead, and reads no further.
    #[inline(never)]
    pub(crate) fn begin(&self, haystack: &[u8], start: usize, with_end: bool) -> Begin
        requires { start ≤ length haystack.now }
        ensures within { IsWithin result (length haystack.now) }
        ensures begins { (t : spec.Tree) → IsByteRunOf t self.now → BeginsBy with_end t haystack.now start result }
    {
        let at = self.others.skip_while(haystack, start);
        if at >= haystack.len() {
            return Begin::Nowhere;
        }
        let end = match &self.own {
            Some(own) if with_end => own.skip_while(haystack, at + 1),
            _ => at + 1,
        };
        Begin::Match { start: at, end }
    }

    /// Returns the first offset from `start` on at which a byte of the class stands. No part before it matches.
    pub(crate) fn candidate(&self, haystack: &[u8], start: usize) -> Option<usize>
        requires { start ≤ length haystack.now }
        ensures { (t : spec.Tree) → IsByteRunOf t self.now → IsCandidate t haystack.now start result }
    {
        let at = self.others.skip_while(haystack, start);
        if at >= haystack.len() {
            return None;
        }
        Some(at)
    }
}
