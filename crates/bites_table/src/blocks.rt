//! A partition of intervals of characters into blocks, which sets of characters refine one after another.

ghost use Rattle.std.specs.Prelude.{◌≡◌, ◌<◌, ◌≤◌, ◌||◌, ◌&&◌, ◌==◌, ℕ, List, length, nat_le, IfSome, IfOk};
ghost use Rattle.std.specs.List.Sorted.{IsStrictlyIncreasing};
ghost use Rattle.bites_spec.specs.Range.{in_range, in_ranges};
ghost use Rattle.bites_table.specs.Blocks.{at, AreIntervals, AreBlocks, IsMoved, IsFiner, IsSplitBy, IsInterval};

use std::alloc::{AllocError, Global};

// How many numbers of blocks there may be for each interval. In a split each block gets at most one new number, and where there is no
// room for as many as there are intervals, blocks are numbered anew first.
const NUMBERS_OF_INTERVAL: usize = 4;

/// The greatest number of blocks. One number of a byte is left for the end, and one for what is no class.
pub(crate) const MOST_CLASSES: u32 = 254;

/// The block of each interval. The numbers of blocks lie below `len`, and some may have no interval.
#[derive(Drop)]
pub(crate) struct Blocks {
    pub of: Vec<u32>,
    pub len: u32,
    /// The block to which the intervals of each block moved in the last split in which some did.
    pub moved: Vec<u32>,
}

impl Blocks {
    /// Puts so many intervals into one block. The error is out of memory.
    pub(crate) fn new(alloc: Global, intervals: usize) -> Result<Blocks, AllocError>
        ensures blocks { IfOk result AreBlocks }
        ensures len { IfOk result (λ b. length b.of.items ≡ intervals) }
    {
        Ok(Blocks {
            of: vec![in alloc; 0; intervals]?,
            len: 1,
            moved: vec![in alloc; 0; intervals.saturating_mul(NUMBERS_OF_INTERVAL)]?,
        })
    }

    /// Splits each block by whether the intervals begin in the ranges. Returns `None` if there are too many blocks.
    ///
    /// Takes a binary search for each range, and time in the number of intervals that begin in the ranges.
    pub(crate) fn split(&mut self, begins: &[u32], ranges: &[(char, char)]) -> Option<()>
        requires blocks { AreBlocks self.old }
        requires len { length self.old.of.items ≡ length begins.now }
        requires begins { AreIntervals begins.now }
        ensures { IfSome result (λ _. IsSplitBy begins.now (in_ranges ranges.now) self.old self.new) }
    {
        if self.of.len().saturating_add(self.len as usize) > self.moved.len() {
            self.renumber()?;
        }
        self.split_few(begins, ranges)
    }

    // Splits blocks, whose numbers are small enough.
    fn split_few(&mut self, begins: &[u32], ranges: &[(char, char)]) -> Option<()>
        requires blocks { AreBlocks self.old }
        requires len { length self.old.of.items ≡ length begins.now }
        requires begins { AreIntervals begins.now }
        ensures { IfSome result (λ _. IsSplitBy begins.now (in_ranges ranges.now) self.old self.new) }
    {
        let from = self.len;
        for (first, last) in ranges {
            self.move_range(begins, from, *first as u32, *last as u32)?;
        }
        Some(())
    }

    // Moves the intervals that begin in the range.
    fn move_range(&mut self, begins: &[u32], from: u32, first: u32, last: u32) -> Option<()>
        requires from { from ≤ self.old.len }
        requires len { length self.old.of.items ≡ length begins.now }
        requires begins { AreIntervals begins.now }
        ensures moved { IfSome result (λ _. (old : List ℕ) → IsMoved from old self.old → IsMoved from old self.new) }
        ensures len { IfSome result (λ _. length self.new.of.items ≡ length begins.now) }
        ensures from { IfSome result (λ _. from ≤ self.new.len) }
        ensures marks { IfSome result (λ _. (k : ℕ) → k < length begins.now →
            nat_le from (at self.new.of.items k)
            ≡ (nat_le from (at self.old.of.items k) || in_range (first, last) (at begins.now k))) }
    {
        let mut interval = interval_of(begins, 0, first);
        if begins[interval] < first {
            interval += 1;
        }
        while interval < begins.len() && begins[interval] <= last {
            self.move_interval(from, interval)?;
            interval += 1;
        }
        Some(())
    }

    // Moves an interval out of its block, unless it has moved.
    fn move_interval(&mut self, from: u32, interval: usize) -> Option<()>
        requires within { interval < length self.old.of.items }
        requires from { from ≤ self.old.len }
        ensures moved { IfSome result (λ _. (old : List ℕ) → IsMoved from old self.old → IsMoved from old self.new) }
        ensures from { IfSome result (λ _. from ≤ self.new.len) }
        ensures len { IfSome result (λ _. length self.new.of.items ≡ length self.old.of.items) }
        ensures marks { IfSome result (λ _. (k : ℕ) → k < length self.old.of.items →
            nat_le from (at self.new.of.items k)
            ≡ (nat_le from (at self.old.of.items k) || (k == interval))) }
    {
        let block = self.of[interval];
        if block >= from {
            return Some(());
        }
        let mut to = *self.moved.get(block as usize)?;
        if to < from {
            to = self.len;
            self.len = self.len.checked_add(1)?;
            self.moved[block as usize] = to;
        }
        self.of[interval] = to;
        Some(())
    }

    /// Numbers the blocks anew, from 0 on in the order of their first intervals. Returns `None` if there are too many.
    pub(crate) fn renumber(&mut self) -> Option<()>
        requires blocks { AreBlocks self.old }
        requires some { 0 < length self.old.of.items }
        ensures blocks { IfSome result (λ _. AreBlocks self.new) }
        ensures len { IfSome result (λ _. length self.new.of.items ≡ length self.old.of.items) }
        ensures finer { IfSome result (λ _. IsFiner self.old.of.items self.new.of.items) }
    {
        let from = self.len;
        for interval in 0..self.of.len() {
            self.move_interval(from, interval)?;
        }
        self.len = self.len.checked_sub(from)?;
        for interval in 0..self.of.len() {
            self.of[interval] = self.of[interval].checked_sub(from)?;
        }
        self.moved.fill(0);
        if self.len > MOST_CLASSES {
            return None;
        }
        Some(())
    }
}

/// Returns the last interval that begins at the number or below it, by a binary search from an interval on that does.
pub(crate) fn interval_of(begins: &[u32], from: usize, number: u32) -> usize
    requires from { from < length begins.now }
    requires begun { at begins.now from ≤ number }
    requires rising { IsStrictlyIncreasing begins.now }
    ensures { IsInterval begins.now number result }
{
    let mut low = from;
    let mut high = begins.len();
    while high - low > 1 {
        let middle = low + (high - low) / 2;
        if begins[middle] <= number {
            low = middle;
        } else {
            high = middle;
        }
    }
    low
}
