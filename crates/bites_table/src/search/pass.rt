//! Where a search by a table has least to do: its loops over bytes of ASCII, and the same for one piece of the haystack.

ghost use Rattle.std.specs.Prelude.{◌≡◌, Bool, ◌*◌, ◌+◌, ◌<◌, ◌≤◌, ℕ, true, List, Option, None, IfSome, IfNone, MatchOption, length};
ghost use Rattle.bites_machine.specs.SlotTable.{no_slot};
ghost use Rattle.bites_table.specs.Steps.{with_spare};
ghost use Rattle.bites_table.specs.Standing.{IsAsked};
ghost use Rattle.bites_table.specs.Searches.{asked, RunsAct, IsSame, IsPieceAt, Held, StandsAt, CanGoOnBy, CanGoOnWith, CanPass, HasPassed, HitsAt, IsHitThere, hit_slots};

use crate::search::place::Piece;
use crate::search::record::{Lent, Search, Standing, Width};
use crate::steps::{end_row, pass_rows, run_steps, write_row};
use crate::table::Table;
use crate::table::cell::STEPS;
use bites_machine::slot::Slot;

impl Search<'_> {
    // Returns the byte at a place as a piece of the haystack, or `None` at the end. Past ASCII its class is one over which nothing is
    // known. The haystack and the width are read once for all places.
    #[inline(always)]
    fn byte_at(&self, haystack: &[u8], width: Width<'_>, place: usize) -> Option<Piece>
        requires table { width.table.now ≡ self.now.table.now }
        requires haystack { haystack.now ≡ self.now.input.now.haystack.now }
        ensures piece { IfSome result (λ p. (before : List (Option ℕ)) → IsAsked (asked self.now before) →
            IsPieceAt self.now before place p.class p.len) }
        ensures len { IfSome result (λ p. p.len ≡ 1) }
    {
        if place >= haystack.len() {
            return None;
        }
        let class = width.table.class_of_byte(haystack[place]);
        Some(Piece { class, len: 1 })
    }

    // Goes on over a piece of the haystack over which it has not to look. With two slots a row may begin, and with all one slot may be
    // written.
    #[inline(always)]
    fn pass_quiet(
        &mut self,
        piece: Piece,
        width: Width<'_>,
        at: Standing,
        registers: &mut [Slot],
    ) -> Option<Standing>
        ghost before: { List (Option ℕ) }
        requires on { CanPass self.old width before at registers.old }
        requires piece { IsPieceAt self.old before at.place piece.class piece.len }
        requires some { 0 < piece.len }
        ensures stands { IfSome result (HasPassed self.old self.new width.entry before at registers.old registers.new) }
        ensures kept { IfNone result (self.new.counted.walked ≡ self.old.counted.walked × registers.new ≡ registers.old) }
        ensures same { IsSame self.old self.new }
    {
        let lent = self.lend(width.cells, at, piece.class, width.bit)?;
        pass_rows(registers, width.bit, lent.begins, lent.act, at.place);
        Some(Standing {
            place: at.place + piece.len,
            row: lent.next,
        })
    }

    // Goes on over a character past ASCII by `pass_quiet`, since no loop does so.
    #[inline(always)]
    fn pass_past_ascii(
        &mut self,
        piece: Piece,
        width: Width<'_>,
        at: Standing,
        registers: &mut [Slot],
    ) -> Option<Standing>
        ghost before: { List (Option ℕ) }
        requires on { CanPass self.old width before at registers.old }
        requires piece { IsPieceAt self.old before at.place piece.class piece.len }
        ensures stands { IfSome result (HasPassed self.old self.new width.entry before at registers.old registers.new) }
        ensures kept { IfNone result (self.new.counted.walked ≡ self.old.counted.walked × registers.new ≡ registers.old) }
        ensures same { IsSame self.old self.new }
    {
        if piece.len <= 1 {
            return None;
        }
        self.pass_quiet(piece, width, at, registers)
    }

    // Goes on over a piece of the haystack, if it has no more to do there than to run steps.
    #[inline(always)]
    fn pass_steps(
        &mut self,
        piece: Piece,
        width: Width<'_>,
        at: Standing,
        registers: &mut [Slot],
    ) -> Option<Standing>
        ghost before: { List (Option ℕ) }
        requires on { CanPass self.old width before at registers.old }
        requires piece { IsPieceAt self.old before at.place piece.class piece.len }
        requires some { 0 < piece.len }
        ensures stands { IfSome result (HasPassed self.old self.new width.entry before at registers.old registers.new) }
        ensures kept { IfNone result (self.new.counted.walked ≡ self.old.counted.walked × registers.new ≡ registers.old) }
        ensures same { IsSame self.old self.new }
    {
        if width.slots == 2 {
            return None;
        }
        let lent = self.lend(width.cells, at, piece.class, STEPS)?;
        run_act(self.table, lent.act, registers, width.slots, at.place);
        Some(Standing {
            place: at.place + piece.len,
            row: lent.next,
        })
    }

    // Lends the transition over a piece of the haystack over which somebody comes to a match, and all rows are kept. Without such a
    // transition nothing changes.
    #[inline(always)]
    fn lend_hit(&mut self, piece: Piece, width: Width<'_>, at: Standing) -> Option<Lent>
        requires on { (h : Held) × CanGoOnWith self.old width at h }
        requires piece { (h : Held) → CanGoOnWith self.old width at h → IsPieceAt self.old h.before at.place piece.class piece.len }
        requires some { 0 < piece.len }
        ensures hit { IfSome result (λ l. (h : Held) → CanGoOnWith self.old width.entry at h → HitsAt self.new width.entry h at piece.len l) }
        ensures kept { IfNone result (self.new.counted.walked ≡ self.old.counted.walked) }
        ensures same { IsSame self.old self.new }
    {
        // For proofs: the row of a hit comes from a register that is there.
        width.table.hits_are_held();
        self.lend(width.cells, at, piece.class, width.more)
    }

    // Goes on over one byte of ASCII by `pass_quiet`.
    #[inline(always)]
    pub(crate) fn pass_one(
        &mut self,
        haystack: &[u8],
        width: Width<'_>,
        at: Standing,
        registers: &mut [Slot],
    ) -> Option<Standing>
        ghost before: { List (Option ℕ) }
        requires on { CanPass self.old width before at registers.old }
        requires haystack { haystack.now ≡ self.old.input.now.haystack.now }
        ensures stands { IfSome result (HasPassed self.old self.new width.entry before at registers.old registers.new) }
        ensures kept { IfNone result (self.new.counted.walked ≡ self.old.counted.walked × registers.new ≡ registers.old) }
        ensures same { IsSame self.old self.new }
    {
        let piece = self.byte_at(haystack, width, at.place)?;
        self.pass_quiet(piece, width, at, registers)
    }

    // Goes on from byte to byte by `pass_one`. This loop has so little to do that it keeps all it needs at hand.
    #[inline(always)]
    pub(super) fn pass_quietly(
        &mut self,
        haystack: &[u8],
        width: Width<'_>,
        from: Standing,
        registers: &mut [Slot],
    ) -> Standing
        ghost before: { List (Option ℕ) }
        requires on { CanPass self.old width before from registers.old }
        requires haystack { haystack.now ≡ self.old.input.now.haystack.now }
        ensures stands { (f : Bool) (l : List (Option ℕ)) → CanGoOnBy self.old width.entry before from registers.old f l →
            StandsAt self.new before result registers.new f l }
        ensures onward { from.place ≤ result.place }
        ensures same { IsSame self.old self.new }
    {
        let mut at = from;
        'bytes: while let Some(to) = self.pass_one(haystack, width, at, registers) {
            at = to;
        }
        at
    }

    // Lends the transition over the next byte by `lend_hit`.
    #[inline(always)]
    fn lend_next_hit(&mut self, haystack: &[u8], width: Width<'_>, at: Standing) -> Option<Lent>
        requires on { (h : Held) × CanGoOnWith self.old width at h }
        requires haystack { haystack.now ≡ self.old.input.now.haystack.now }
        ensures hit { IfSome result (λ l. (h : Held) → CanGoOnWith self.old width.entry at h → HitsAt self.new width.entry h at 1 l) }
        ensures kept { IfNone result (self.new.counted.walked ≡ self.old.counted.walked) }
        ensures same { IsSame self.old self.new }
    {
        let piece = self.byte_at(haystack, width, at.place)?;
        self.lend_hit(piece, width, at)
    }

    // Goes on over further bytes of ASCII over which somebody comes to a match, as long as the thread list leads back to itself. None of
    // these matches is written. Returns where the search stands then, and the transition of the last match. This loop needn't wait for the
    // list at each byte.
    #[inline(always)]
    fn repeat_hits(
        &mut self,
        haystack: &[u8],
        width: Width<'_>,
        from: Standing,
        hit: Lent,
        registers: &[Slot],
    ) -> (Standing, Lent)
        ghost before: { List (Option ℕ) }
        requires on { CanGoOnBy self.old width before from registers.now true
            (hit_slots width.table.now width.slots registers.now hit from.place) }
        requires haystack { haystack.now ≡ self.old.input.now.haystack.now }
        requires there { IsHitThere width.table.now width.slots hit }
        ensures stands { StandsAt self.new before result.0 registers.now true
            (hit_slots width.entry.table.now width.entry.slots registers.now result.1 result.0.place) }
        ensures there { IsHitThere width.entry.table.now width.entry.slots result.1 }
        ensures onward { from.place ≤ result.0.place }
        ensures same { IsSame self.old self.new }
    {
        let mut at = from;
        let mut hit = hit;
        'bytes: while let Some(lent) = self.lend_next_hit(haystack, width, at) {
            let place = at.place + 1;
            hit = lent;
            if lent.next != at.row {
                let row = lent.next;
                return (Standing { place, row }, hit);
            }
            at.place = place;
        }
        (at, hit)
    }

    // Goes on over a piece of the haystack over which somebody comes to a match, and from a byte of ASCII over further such bytes. Writes the
    // last of these matches.
    #[inline(always)]
    fn pass_hits(
        &mut self,
        haystack: &[u8],
        piece: Piece,
        width: Width<'_>,
        from: Standing,
        registers: &[Slot],
        was_found: bool,
        slots: &mut [Slot],
    ) -> Option<Standing>
        ghost before: { List (Option ℕ) }
        requires on { CanGoOnBy self.old width before from registers.now was_found slots.old }
        requires haystack { haystack.now ≡ self.old.input.now.haystack.now }
        requires piece { IsPieceAt self.old before from.place piece.class piece.len }
        requires some { 0 < piece.len }
        ensures stands { MatchOption result (StandsAt self.new before from registers.now was_found slots.new)
            (λ to. StandsAt self.new before to registers.now true slots.new × (from.place < to.place)) }
        ensures same { IsSame self.old self.new }
    {
        let first = self.lend_hit(piece, width, from)?;
        let next = Standing {
            place: from.place + piece.len,
            row: first.next,
        };
        if piece.len > 1 {
            write_hit(width, first, registers, from.place, slots);
            return Some(next);
        }
        let (to, hit) = self.repeat_hits(haystack, width, next, first, registers);
        write_hit(width, hit, registers, to.place - 1, slots);
        Some(to)
    }

    // Goes on over a piece of the haystack that `pass_one` didn't pass, if it has little to do there. Returns whether something is found, too.
    #[inline(always)]
    pub(super) fn pass_piece(
        &mut self,
        haystack: &[u8],
        piece: Piece,
        width: Width<'_>,
        at: Standing,
        registers: &mut [Slot],
        was_found: bool,
        slots: &mut [Slot],
    ) -> Option<(Standing, bool)>
        ghost before: { List (Option ℕ) }
        requires on { CanGoOnBy self.old width before at registers.old was_found slots.old }
        requires haystack { haystack.now ≡ self.old.input.now.haystack.now }
        requires piece { IsPieceAt self.old before at.place piece.class piece.len }
        ensures stands { MatchOption result (StandsAt self.new before at registers.new was_found slots.new)
            (λ r. StandsAt self.new before r.0 registers.new r.1 slots.new × (at.place < r.0.place)) }
        ensures same { IsSame self.old self.new }
    {
        if let Some(to) = self.pass_past_ascii(piece, width, at, registers) {
            return Some((to, was_found));
        }
        if piece.len == 0 {
            return None;
        }
        if let Some(to) = self.pass_steps(piece, width, at, registers) {
            return Some((to, was_found));
        }
        let to = self.pass_hits(haystack, piece, width, at, registers, was_found, slots)?;
        Some((to, true))
    }
}

// Writes the slots of a match that was kept over a transition and that ends at the place.
#[inline(always)]
fn write_hit(width: Width<'_>, hit: Lent, registers: &[Slot], place: usize, slots: &mut [Slot])
    requires room { with_spare * width.slots ≤ length registers.now }
    requires slots { length slots.old ≡ width.slots }
    requires there { IsHitThere width.table.now width.slots hit }
    requires place { place < no_slot }
    ensures { slots.new ≡ hit_slots width.entry.table.now width.entry.slots registers.now hit (place + 1) }
{
    if width.slots == 2 {
        end_row(registers, hit.begins, place, slots);
    } else if let Some(thread) = &width.table.act(hit.act).hit {
        write_row(&thread.source, registers, place, slots);
    }
}

// Runs the steps of what a transition does, which has this number, at a place.
#[inline(always)]
fn run_act(table: &Table, act: usize, registers: &mut [Slot], width: usize, place: usize)
    requires act { act < length table.now.acts }
    requires room { with_spare * width ≤ length registers.old }
    requires place { place < no_slot }
    ensures { RunsAct table.now act width place registers.old registers.new }
{
    let act = table.act(act);
    run_steps(table.steps(act.steps), registers, width, place);
}
