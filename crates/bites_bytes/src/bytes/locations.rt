//! The offsets of the groups of a match.

ghost use Rattle.std.specs.Prelude.{◌≡◌, ◌/◌, ◌↔◌, None, replicate, length, option_map, IsTrue, IfOk};
ghost use Rattle.bites_spec.specs.Match.{span};
ghost use Rattle.bites_spec.specs.Slots.{group_in};
ghost use Rattle.bites_bytes.specs.Calls.{AfterNext, BothFit, KeepsAnd, ReadsNext};
ghost use Rattle.bites_bytes.specs.Matched.{excerpt_of};
ghost use Rattle.bites_bytes.specs.NextMatch.{ReadsFull, ReadsSlots};

use crate::bytes::{Cache, Match, Regex};
use bites_machine::slot::Slot;
use std::alloc::{AllocError, Global};
use std::fmt;
use std::marker::Model;

/// The offsets of the groups of a match, in memory that is reused. [`Regex::captures_read`] writes them.
///
/// For proofs: a contract sees the two slots of each group, which are known if the group participates.
pub struct CaptureLocations {
    alloc: Global,
    slots: Vec<Slot>,
}

// A caller that drops one relies on this function, and on no type below it.
impl Drop for CaptureLocations {
    fn drop(self) {
        let CaptureLocations { alloc: _, slots: _ } = self;
    }
}

impl Model for CaptureLocations {
    ghost use Rattle.std.specs.Prelude.{ℕ, List, Option};

    ghost Value = { List (Option ℕ) };

    ghost view = { λ a. a.slots.items };
}

impl CaptureLocations {
    // Allocates `count` slots, none of them known.
    pub(super) fn new(alloc: Global, count: usize) -> Result<CaptureLocations, AllocError>
        ensures { IfOk result (λ l. l ≡ replicate count None) }
    {
        Ok(CaptureLocations {
            alloc,
            slots: vec![in alloc; Slot::unwritten(); count]?,
        })
    }

    /// Returns the offsets in bytes where the group with this number begins and ends. Returns `None` if the group
    /// doesn't participate, and for numbers from [`CaptureLocations::len`] on.
    pub fn get(&self, group: usize) -> Option<(usize, usize)>
        ensures { option_map (λ s. span s.0 s.1) result ≡ group_in self.now group }
    {
        if group >= self.len() {
            return None;
        }
        let (start, end) = (self.slots[2 * group], self.slots[2 * group + 1]);
        Some((start.place()?, end.place()?))
    }

    /// Returns the slots of all groups, two for each: where the group begins, and where it ends. The group participates if both
    /// are written.
    pub fn slots(&self) -> &[Slot]
        ensures { result.now ≡ self.now }
    {
        &self.slots
    }

    /// Returns the number of groups, group 0 counted.
    pub fn len(&self) -> usize
        ensures { result ≡ length self.now / 2 }
    {
        self.slots.len() / 2
    }

    /// Returns whether the regex has as many groups, so that its searches may write these locations.
    pub fn fits(&self, regex: &Regex) -> bool
        ensures { IsTrue result ↔ (length self.now ≡ regex.now.program.slots) }
    {
        self.slots.len() == regex.program().slots()
    }

    // Returns the match that a search finds, one that begins at `start` if it is anchored, and writes its slots. Without a
    // match they are unchanged.
    #[inline(always)]
    pub(super) fn find<'h>(
        &mut self,
        regex: &Regex,
        cache: &mut Cache,
        haystack: &'h [u8],
        start: usize,
        anchored: bool,
    ) -> Option<Match<'h>>
        requires { BothFit regex.now cache.old self.old }
        ensures { ReadsSlots excerpt_of anchored regex.now haystack.now start result self.old self.new cache.old cache.new }
    {
        cache.find(regex, haystack, start, anchored, &mut self.slots)
    }

    // Writes the slots of the preferred match of the whole haystack, and returns whether there is one. Without one they
    // may be written too.
    pub(super) fn find_full(&mut self, regex: &Regex, cache: &mut Cache, haystack: &[u8]) -> bool
        requires { BothFit regex.now cache.old self.old }
        ensures { ReadsFull regex.now haystack.now result self.old self.new cache.old cache.new }
    {
        cache.find_full(regex, haystack, &mut self.slots)
    }
}

impl Regex {
    /// Like [`Regex::find_next_with`], but also writes the offsets of each group into `locations`, which must fit this
    /// regex. If nothing matches, the locations may hold the groups of an empty match that was dropped.
    #[inline(always)]
    pub fn captures_read_next_with<'h>(
        &self,
        cache: &mut Cache,
        locations: &mut CaptureLocations,
        haystack: &'h [u8],
        last: Option<usize>,
    ) -> Option<Match<'h>>
        requires { BothFit self.now cache.old locations.old }
        ensures { AfterNext self.now last cache.old cache.new (KeepsAnd (length locations.old) (length locations.new)
            (ReadsNext self.now haystack.now last (option_map excerpt_of result) locations.new)) }
    {
        cache.find_next(self, haystack, last, &mut locations.slots)
    }
}

impl Clone for CaptureLocations {
    ghost is_clone = { λ locations copy. copy ≡ locations };

    /// Returns locations with the same offsets. The error is out of memory.
    fn clone(&self) -> Result<CaptureLocations, AllocError> {
        Ok(CaptureLocations {
            alloc: self.alloc,
            slots: self.slots.clone()?,
        })
    }
}

impl fmt::Debug for CaptureLocations {
    fn fmt<W: fmt::Write>(&self, f: &mut fmt::Formatter<W>) -> fmt::Result {
        f.debug_tuple("CaptureLocations")
            .field(&self.slots)
            .finish()
    }
}
