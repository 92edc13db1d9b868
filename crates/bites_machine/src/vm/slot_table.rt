//! The table of slots: each thread has a row, which it may share with other threads.

ghost use Rattle.std.specs.Prelude.{◌≡◌, ◌≢◌, ◌++◌, List, ◌∷◌, [], drop, map, replicate, ℕ, ◌+◌, ◌<◌, ◌≤◌, None, IfOk, length, sum, take, if◌then◌else◌, nat_lt, slice_index, slice_index_or, slice_set, vec_capacity};
ghost use lib.Seq.{paste};
ghost use Rattle.bites_machine.specs.SlotTable.{no_slot, slots_at, with_pending, one_more, one_less, with_counts, with_rows, awaiting, IsHeld, CanShare, CanRead, CanCopy, CanMove, KeepsRoom, IsSetUp, Takes};
ghost use Rattle.bites_machine.specs.Used.{IsUsed, ForksTo};

use crate::slot::Slot;
use std::alloc::{AllocError, Global};
use std::marker::Model;

/// Rows of slots, whose memory is reserved at once. Each row counts its users.
///
/// Row 0 is empty: it is never written and never counted, and any number of threads may use it. A new row is one that
/// has lost its users, or else the first one that was never taken. So the memory of a row that no search needs is never
/// touched.
#[derive(Drop)]
pub struct SlotTable {
    // How many rows there are, how many slots one may have, and how many it has in this search.
    row_count: usize,
    max_slots: usize,
    slots_per_row: usize,
    // The slots of the rows that were taken in this search, one row after another.
    slots: Vec<Slot>,
    // The number of users of each of these rows.
    ref_counts: Vec<usize>,
    // The rows among these that have no user.
    free: Vec<usize>,
    // The slots that the current closure has written so far.
    pending: Vec<u32>,
}

impl Model for SlotTable {
    ghost use Rattle.std.specs.Prelude.{◌*◌, ◌≤◌, vec_capacity};
    ghost use Rattle.bites_machine.specs.SlotTable.{Pool, rows_of, ref_counts_of, AreTaken};

    ghost Value = { Pool };

    ghost view = { λ a. record {
      rows = rows_of a.slots_per_row a.row_count a.slots.items;
      ref_counts = ref_counts_of a.row_count a.ref_counts.items;
      pending = a.pending.items;
      slots_per_row = a.slots_per_row;
      max_slots = a.max_slots;
    } };

    ghost invariant = { λ a. AreTaken a.row_count a.slots_per_row a.max_slots a.slots.items a.ref_counts.items a.free.items
        × (a.row_count * a.max_slots ≤ vec_capacity a.slots)
        × (a.row_count ≤ vec_capacity a.ref_counts)
        × (a.row_count ≤ vec_capacity a.free) };
}

impl SlotTable {
    /// Allocates `rows` rows of at most `max_slots` slots, with room for `pending` pending slots. The error is out of
    /// memory.
    pub(super) fn new(
        alloc: Global,
        rows: usize,
        max_slots: usize,
        pending: usize,
    ) -> Result<SlotTable, AllocError>
        requires { 0 < rows }
        ensures ref_counts { IfOk result (λ r. r.ref_counts ≡ replicate rows 0) }
        ensures pending { IfOk result (λ r. length r.pending ≡ pending) }
        ensures max_slots { IfOk result (λ r. r.max_slots ≡ max_slots) }
    {
        let slots = rows.checked_mul(max_slots).ok_or(AllocError)?;
        let slots = Vec::with_capacity(alloc, slots)?;
        let mut ref_counts = Vec::with_capacity(alloc, rows)?;
        ref_counts.push(0)?;
        Ok(SlotTable {
            row_count: rows,
            max_slots,
            slots_per_row: 0,
            slots,
            ref_counts,
            free: Vec::with_capacity(alloc, rows)?,
            pending: vec![in alloc; 0; pending]?,
        })
    }

    /// Prepares a search with `slots_per_row` slots in each row. No row has users then, and row 0 is empty.
    pub(super) fn setup_search(&mut self, slots_per_row: usize)
        requires { slots_per_row ≤ self.old.max_slots }
        ensures set_up { IsSetUp slots_per_row self.new }
        ensures room { KeepsRoom self.old self.new }
    {
        self.free.clear();
        self.ref_counts.truncate(1);
        // Row 0 is left from the search before, and stays if its width is unchanged.
        if slots_per_row == self.slots_per_row {
            self.slots.truncate(slots_per_row);
        } else {
            self.slots_per_row = slots_per_row;
            self.slots.clear();
            let _ = self.slots.resize(slots_per_row, Slot::unwritten());
        }
    }

    /// Returns the number of rows.
    pub(super) fn len(&self) -> usize
        ensures { result ≡ length self.now.ref_counts }
    {
        self.row_count
    }

    /// Does nothing.
    ///
    /// For proofs: row 0 has no counted users.
    #[inline(always)]
    pub(super) fn first_is_free(&self)
        ensures { slice_index self.now.ref_counts 0 ≡ 0 }
    {
        let _known = &self.ref_counts;
    }

    /// Makes the slot pending at the index `pending_len`, if rows have that slot. Returns the number of pending slots
    /// after that.
    #[inline(always)]
    pub(super) fn set_pending(
        &mut self,
        pending_len: usize,
        slot: u32,
        slots_per_row: usize,
    ) -> usize
        requires room { pending_len < length self.old.pending }
        requires slots_per_row { slots_per_row ≡ self.old.slots_per_row }
        ensures count { result ≡ (if nat_lt slot self.old.slots_per_row then pending_len + 1 else pending_len) }
        ensures pending { self.new ≡ awaiting (if nat_lt slot self.old.slots_per_row
            then slice_set self.old.pending pending_len slot else self.old.pending) self.old }
    {
        if (slot as usize) < slots_per_row {
            self.pending[pending_len] = slot;
            pending_len + 1
        } else {
            pending_len
        }
    }

    /// Adds a user to the row.
    #[inline(always)]
    pub(super) fn retain(&mut self, row: usize)
        requires { CanShare row self.old }
        ensures { self.new ≡ with_counts (one_more self.old.ref_counts row) self.old }
    {
        if row != 0 {
            self.ref_counts[row] += 1;
        }
    }

    /// Returns a row for a thread that continues from this row with the first `pending_len` pending slots: the row
    /// itself if that is 0, else a copy with `place` in these slots.
    #[inline(always)]
    pub(super) fn fork(&mut self, row: usize, pending_len: usize, place: usize) -> usize
        requires used { (users : List ℕ) × IsUsed self.old (row ∷ users) }
        requires copied { CanCopy place row pending_len self.old }
        ensures { ForksTo place row pending_len result self.old self.new }
    {
        if pending_len == 0 {
            self.retain(row);
            row
        } else {
            self.copy(row, pending_len, place)
        }
    }

    /// Removes a user from the row.
    #[inline(always)]
    pub(super) fn release(&mut self, row: usize)
        requires { IsHeld self.old row }
        ensures { self.new ≡ with_counts (one_less self.old.ref_counts row) self.old }
    {
        if row == 0 {
            return;
        }
        let count = self.ref_counts[row] - 1;
        self.ref_counts[row] = count;
        if count == 0 {
            let _ = self.free.push(row);
        }
    }

    /// Copies the row to a new one with one user, with `place` in the first `pending_len` pending slots. Returns the
    /// new row.
    #[inline(never)]
    pub(super) fn copy(&mut self, row: usize, pending_len: usize, place: usize) -> usize
        requires { CanCopy place row pending_len self.old }
        ensures { Takes result
            (with_pending place (take pending_len self.old.pending) (slots_at self.old row))
            self.old self.new }
    {
        let from = row * self.slots_per_row;
        let Some(fresh) = self.free.pop() else {
            let fresh = self.ref_counts.len();
            let _ = self.ref_counts.push(1);
            push_row(
                &mut self.slots,
                from,
                self.slots_per_row,
                &self.pending[..pending_len],
                place,
            );
            return fresh;
        };
        self.ref_counts[fresh] = 1;
        let to = fresh * self.slots_per_row;
        copy_row(
            &mut self.slots,
            from,
            to,
            self.slots_per_row,
            &self.pending[..pending_len],
            place,
        );
        fresh
    }

    /// Writes the slots into a new row with one user. Returns the row.
    pub(super) fn load(&mut self, slots: &[Slot]) -> usize
        requires slots_per_row { length slots.now ≡ self.old.slots_per_row }
        requires room { sum self.old.ref_counts + 1 < length self.old.ref_counts }
        ensures { Takes result slots.now self.old self.new }
    {
        let row = self.copy(0, 0, 0);
        self.overwrite(row, slots);
        row
    }

    // Writes the slots into a row that has a user.
    fn overwrite(&mut self, row: usize, slots: &[Slot])
        requires slots_per_row { length slots.now ≡ self.old.slots_per_row }
        requires other { row ≢ 0 }
        requires used { 0 < slice_index self.old.ref_counts row }
        ensures { self.new ≡ with_rows (slice_set self.old.rows row slots.now) self.old }
    {
        overwrite_row(&mut self.slots, row * self.slots_per_row, slots);
    }

    /// Writes the row into the slice, with `place` in the first `pending_len` pending slots.
    #[inline(always)]
    pub(super) fn write_match(
        &self,
        row: usize,
        pending_len: usize,
        place: usize,
        slots: &mut [Slot],
    )
        requires read { CanRead row pending_len self.now }
        requires slots_per_row { length slots.old ≡ self.now.slots_per_row }
        requires place { place < no_slot }
        ensures { slots.new ≡ with_pending place (take pending_len self.now.pending) (slots_at self.now row) }
    {
        self.write_row(row, slots);
        write_pending(slots, &self.pending[..pending_len], place);
    }

    // Writes the row into the slice.
    #[inline(always)]
    fn write_row(&self, row: usize, slots: &mut [Slot])
        requires used { IsHeld self.now row }
        requires slots_per_row { length slots.old ≡ self.now.slots_per_row }
        ensures { slots.new ≡ slots_at self.now row }
    {
        let from = row * self.slots_per_row;
        copy_slots(slots, &self.slots[from..from + slots.len()]);
    }
}

// Copies `slots_per_row` slots from one index to another. Rows are short: a loop costs less than a call that copies
// memory.
fn copy_within(slots: &mut [Slot], from: usize, to: usize, slots_per_row: usize)
    requires { CanMove from to slots_per_row (length slots.old) }
    ensures { slots.new ≡ paste slots.old to (drop from slots.old) slots_per_row }
{
    for k in 0..slots_per_row {
        slots[to + k] = slots[from + k];
    }
}

// Copies a row into the slice.
#[inline(always)]
fn copy_slots(slots: &mut [Slot], row: &[Slot])
    requires { length slots.old ≡ length row.now }
    ensures { slots.new ≡ row.now }
{
    for k in 0..slots.len() {
        slots[k] = row[k];
    }
}

// Appends a copy of a row, with `place` in the pending slots.
fn push_row(slots: &mut Vec<Slot>, from: usize, slots_per_row: usize, pending: &[u32], place: usize)
    requires from { from + slots_per_row ≤ length slots.old.items }
    requires room { length slots.old.items + slots_per_row ≤ vec_capacity slots.old }
    requires place { place < no_slot }
    requires pending { (k : ℕ) → k < length pending.now → slice_index pending.now k < slots_per_row }
    ensures items { slots.new.items ≡ slots.old.items
        ++ with_pending place pending.now (take slots_per_row (drop from slots.old.items)) }
    ensures capacity { vec_capacity slots.old ≤ vec_capacity slots.new }
{
    let to = slots.len();
    let _ = slots.extend_from_within(from..from + slots_per_row);
    write_pending(&mut slots[to..], pending, place);
}

// Copies a row to an index, with `place` in the pending slots.
fn copy_row(
    slots: &mut [Slot],
    from: usize,
    to: usize,
    slots_per_row: usize,
    pending: &[u32],
    place: usize,
)
    requires moved { CanMove from to slots_per_row (length slots.old) }
    requires place { place < no_slot }
    requires pending { (k : ℕ) → k < length pending.now → slice_index pending.now k < slots_per_row }
    ensures { slots.new ≡ take to slots.old
        ++ (with_pending place pending.now (take slots_per_row (drop from slots.old))
        ++ drop (to + slots_per_row) slots.old) }
{
    copy_within(slots, from, to, slots_per_row);
    write_pending(&mut slots[to..to + slots_per_row], pending, place);
}

// Writes a row to an index.
fn overwrite_row(slots: &mut [Slot], to: usize, row: &[Slot])
    requires { to + length row.now ≤ length slots.old }
    ensures { slots.new ≡ take to slots.old ++ (row.now ++ drop (to + length row.now) slots.old) }
{
    slots[to..to + row.len()].copy_from_slice(row);
}

// Writes the place to each of the pending slots of a row.
#[inline(always)]
fn write_pending(slots: &mut [Slot], pending: &[u32], place: usize)
    requires pending { (k : ℕ) → k < length pending.now → slice_index pending.now k < length slots.old }
    requires place { place < no_slot }
    ensures { slots.new ≡ with_pending place pending.now slots.old }
{
    for slot in pending {
        slots[*slot as usize] = Slot::at(place);
    }
}
