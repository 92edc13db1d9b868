//! What a search by a table reads of it, with the record of what it visits.

ghost use Rattle.std.specs.Prelude.{◌≡◌, ◌<◌, ◌≤◌, ℕ, Option, None, IfSome, IfNone, bit_and};
ghost use Rattle.bites_table.specs.Packed.{IsRow, IsKnown, Tells, row_of, lists_in, stride};
ghost use Rattle.bites_table.specs.Standing.{IsOver};
ghost use Rattle.bites_table.specs.Searches.{asked, HasBits, IsSame, Held, IsHeldAt, IsLent, IsFresh};
ghost use Rattle.bites_table.specs.declared.table.cell.Cell as cell;

use crate::table::Table;
use crate::table::cell::{ALL, Cell, MORE, MORE_FOR_ALL, mask};
use bites_machine::program::Program;
use bites_machine::vm::{Counted, Input, MatchKind};

/// What is searched by which table, and the record of what was visited.
///
/// A search reads the transitions through it alone. It lends one at a place, at most once, and records what it visits.
#[derive(Drop)]
pub(crate) struct Search<'a> {
    pub program: &'a Program,
    pub table: &'a Table,
    pub input: &'a Input<'a>,
    pub counted: Counted<'a>,
}

/// A search between two places: the place, and where the cells of its thread list begin.
#[derive(Clone, Copy, Drop)]
pub(crate) struct Standing {
    pub place: usize,
    pub row: usize,
}

/// What a search for so many slots reads at each byte: the table and its cells, the bit of cells over which it has to look, and the
/// bits over which it has more to do than to keep a hit.
#[derive(Clone, Copy, Drop)]
pub(crate) struct Width<'a> {
    pub table: &'a Table,
    pub cells: &'a [Cell],
    pub slots: usize,
    pub bit: u8,
    pub more: u8,
}

// A transition that was lent: where the cells of the next thread list begin, the number of what it does or the index of the slot that is
// written, and the register whose row begins or ends.
#[derive(Clone, Copy, Drop)]
pub(crate) struct Lent {
    pub next: usize,
    pub act: usize,
    pub begins: u8,
}

impl<'a> Search<'a> {
    /// Returns the width of a search for so many slots. A search for a match with the least end is over at a hit, so it has always more to
    /// do.
    #[inline(always)]
    pub(crate) fn width(&self, slots: usize) -> Width<'a>
        ensures slots { result.slots ≡ slots }
        ensures bits { HasBits self.now result }
    {
        let more = if matches!(self.input.kind, MatchKind::Earliest) {
            ALL
        } else if slots == 2 {
            MORE
        } else {
            MORE_FOR_ALL
        };
        Width {
            table: self.table,
            cells: self.table.cells(),
            slots,
            bit: mask(self.table.slots(), slots),
            more,
        }
    }
}

impl Search<'_> {
    // Lends the transition of a thread list over a class, and records that it was made at the place, unless it does
    // something of these kinds.
    #[inline(always)]
    pub(crate) fn lend(
        &mut self,
        cells: &[Cell],
        at: Standing,
        class: usize,
        unless: u8,
    ) -> Option<Lent>
        requires cells { cells.now ≡ self.old.table.now.cells }
        requires row { IsRow self.old.table.now at.row }
        requires class { class < stride self.old.table.now }
        requires unless { (n c : ℕ) (a : cell.Cell) → Tells self.old.table.now n c a → bit_and a.doing unless ≡ 0 → IsKnown self.old.table.now n c a }
        requires fresh { (n : ℕ) → at.row ≡ row_of self.old.table.now n → IsFresh self.old n class at.place }
        ensures lent { IfSome result (λ l. (n : ℕ) → at.row ≡ row_of self.old.table.now n →
            IsLent self.old self.new n class unless at.place l) }
        ensures kept { IfNone result (self.new.counted.walked ≡ self.old.counted.walked) }
        ensures same { IsSame self.old self.new }
    {
        let cell = self.table.cell(cells, at.row, class);
        if cell.doing & unless != 0 {
            return None;
        }
        self.counted
            .record_transition(&cell.seen, &cell.looks, at.place);
        Some(Lent {
            next: cell.next as usize,
            act: cell.act as usize,
            begins: cell.begins,
        })
    }

    // Goes on over bytes that leave the search at its thread list, which has this number.
    #[inline(always)]
    fn skip(&mut self, at: Standing, number: usize) -> Standing
        requires number { at.row ≡ row_of self.old.table.now number }
        requires within { number < lists_in self.old.table.now }
        requires stands { (h : Held) × IsHeldAt self.old at h }
        ensures stands { (h : Held) → IsHeldAt self.old at h → IsHeldAt self.new result h }
        ensures onward { at.place ≤ result.place }
        ensures same { IsSame self.old self.new }
    {
        let Some(skip) = self.table.skip(number) else {
            return at;
        };
        let place = skip.set.skip_while(self.input.haystack, at.place);
        self.counted
            .record_transitions(&skip.seen, &skip.looks, at.place, place - at.place);
        Standing { place, row: at.row }
    }

    // Goes on from a thread list, which has this number, over what leads back to it. Returns `None` where the search is over,
    // since nothing is found any more.
    #[inline(always)]
    pub(crate) fn settle(&mut self, at: Standing, number: usize) -> Option<Standing>
        requires number { at.row ≡ row_of self.old.table.now number }
        requires within { number < lists_in self.old.table.now }
        requires stands { (h : Held) × IsHeldAt self.old at h }
        ensures stands { IfSome result (λ to. (h : Held) → IsHeldAt self.old at h → IsHeldAt self.new to h) }
        ensures onward { IfSome result (λ to. at.place ≤ to.place) }
        ensures over { IfNone result ((h : Held) → IsHeldAt self.old at h →
            IsOver (asked self.new h.before) h.is_found h.slots self.new.counted.walked) }
        ensures same { IsSame self.old self.new }
    {
        let Some(rest) = self.table.rest(number) else {
            return Some(self.skip(at, number));
        };
        self.counted
            .record_rest(&rest.seen, &rest.looks, self.input.haystack, at.place);
        None
    }
}
