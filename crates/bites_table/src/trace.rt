//! How a search by a table comes over the places of a haystack, for people to look at.
//!
//! It goes on by the functions of the search itself, and takes more time and memory.

ghost use Rattle.std.specs.Prelude.{◌≡◌, ◌+◌, ◌<◌, ◌≤◌, [], List, Option, None, false, length, reverse, IfOk, OnOk, ℕ};
ghost use Rattle.bites_spec.specs.Utf8.{piece};
ghost use Rattle.bites_table.specs.Packed.{IsRow, row_of, lists_in};
ghost use Rattle.bites_table.specs.Standing.{Asked, IsOver};
ghost use Rattle.bites_table.specs.Searches.{asked, IsSame, Held, IsHeldAt, CanGoOn, CanBegin, CanWalk, TurnsTo, StopsSo};
ghost use Rattle.bites_table.specs.Trace.{ComesTo, Says, LeadTo, LeadSo};

use crate::search::place::piece_at;
use crate::search::record::{Search, Standing};
use crate::search::run::{MOST_LEAVES, Turn};
use bites_machine::slot::Slot;
use bites_machine::vm;
use std::alloc::AllocError;

/// How a search comes over places.
#[derive(Clone, Copy, PartialEq, Eq, Debug, Drop)]
pub enum How {
    /// As the Pike VM, which explores the states.
    Walked,
    /// By a transition of the table, from the thread list of this number. It comes over one place.
    Passed { list: usize },
    /// All at once. Each byte leads the thread list of this number back to itself.
    Skipped { list: usize },
}

/// How a search comes over the places from one on, up to where the next stretch begins.
#[derive(Clone, Copy, PartialEq, Eq, Debug, Drop)]
pub struct Stretch {
    /// The first place, in bytes.
    pub from: usize,
    pub how: How,
}

/// A search, and how it came over the places from its start on.
#[derive(Drop)]
pub struct TracedSearch {
    /// Whether a match was found.
    pub is_found: bool,
    /// The stretches, in order. Behind a last one that is passed no place is looked at: the search is over, or nothing is
    /// found any more.
    pub stretches: Vec<Stretch>,
}

// Appends a stretch.
fn push(stretches: &mut Vec<Stretch>, from: usize, how: How) -> Result<(), AllocError>
    ensures { OnOk result ((s : Asked) (to : ℕ) → LeadTo s (reverse stretches.old.items) from → Says s from how to →
        LeadTo s (reverse stretches.new.items) to) }
{
    stretches.push(Stretch { from, how })?;
    Ok(())
}

impl Search<'_> {
    // Goes on over one place.
    fn turn(
        &mut self,
        at: Standing,
        registers: &mut [Slot],
        was_found: bool,
        slots: &mut [Slot],
    ) -> Turn
        ghost before: { List (Option ℕ) }
        requires on { CanGoOn self.old (length slots.old) before at registers.old was_found slots.old }
        ensures turns { TurnsTo self.new before at registers.new was_found slots.new result }
        ensures same { IsSame self.old self.new }
    {
        let haystack = self.input.haystack;
        let width = self.width(slots.len());
        match self.pass_one(haystack, width, at, registers) {
            Some(to) => Turn::Goes {
                to,
                is_found: was_found,
            },
            None => self.step(width, at, registers, was_found, slots),
        }
    }

    // Returns the place behind the one where the search stands.
    fn next_place(&self, at: Standing) -> usize
        requires { at.place ≤ length self.now.input.now.haystack.now }
        ensures { result ≡ at.place + (piece self.now.input.now.haystack.now at.place).len }
    {
        at.place + piece_at(self.table, self.input.haystack, at.place).len
    }

    // Notes that bytes were skipped from a place up to where the search stands, if there are some.
    fn note_skip(
        &self,
        from: usize,
        to: Standing,
        stretches: &mut Vec<Stretch>,
    ) -> Result<(), AllocError>
        requires onward { from ≤ to.place }
        requires row { IsRow self.now.table.now to.row }
        ensures { OnOk result ((s : Asked) → LeadTo s (reverse stretches.old.items) from →
            ((n : ℕ) → to.row ≡ row_of self.now.table.now n → ComesTo s to.place n) →
            LeadTo s (reverse stretches.new.items) to.place) }
    {
        if from >= to.place {
            return Ok(());
        }
        let list = self.table.number(to.row);
        push(stretches, from, How::Skipped { list })?;
        Ok(())
    }

    // Goes on by the table until the search is over, or to a place whose transition is not known. Notes how it comes over
    // each place.
    fn trace_on(
        &mut self,
        from: Standing,
        registers: &mut [Slot],
        was_found: bool,
        slots: &mut [Slot],
        stretches: &mut Vec<Stretch>,
    ) -> Result<(bool, Option<Standing>), AllocError>
        ghost before: { List (Option ℕ) }
        requires on { CanGoOn self.old (length slots.old) before from registers.old was_found slots.old }
        requires lead { LeadTo (asked self.old before) (reverse stretches.old.items) from.place }
        ensures stops { IfOk result (λ r. StopsSo self.new before registers.new slots.new r.0 r.1) }
        ensures lead { IfOk result (λ r. LeadSo (asked self.old before) (reverse stretches.new.items) r.1) }
        ensures same { IsSame self.old self.new }
    {
        let mut at = from;
        let mut is_found = was_found;
        'places: loop {
            let list = self.table.number(at.row);
            match self.turn(at, registers, is_found, slots) {
                Turn::Goes {
                    to,
                    is_found: found,
                } => {
                    push(stretches, at.place, How::Passed { list })?;
                    let next = self.next_place(at);
                    self.note_skip(next, to, stretches)?;
                    at = to;
                    is_found = found;
                }
                Turn::Ends { is_found } => {
                    push(stretches, at.place, How::Passed { list })?;
                    return Ok((is_found, None));
                }
                Turn::Leaves => return Ok((is_found, Some(at))),
            }
        }
    }

    // Goes on from a thread list, which has this number, as `settle` does. Notes what is skipped.
    fn trace_settled(
        &mut self,
        at: Standing,
        number: usize,
        stretches: &mut Vec<Stretch>,
    ) -> Result<Option<Standing>, AllocError>
        requires number { at.row ≡ row_of self.old.table.now number }
        requires within { number < lists_in self.old.table.now }
        requires stands { (h : Held) × IsHeldAt self.old at h }
        ensures stops { IfOk result (λ r. (h : Held) → IsHeldAt self.old at h →
            StopsSo self.new h.before h.registers h.slots h.is_found r) }
        ensures lead { IfOk result (λ r. (h : Held) → IsHeldAt self.old at h →
            LeadTo (asked self.old h.before) (reverse stretches.old.items) at.place →
            LeadSo (asked self.old h.before) (reverse stretches.new.items) r) }
        ensures same { IsSame self.old self.new }
    {
        let Some(to) = self.settle(at, number) else {
            return Ok(None);
        };
        self.note_skip(at.place, to, stretches)?;
        Ok(Some(to))
    }

    // Goes on as the Pike VM, until the search is over or comes back to the table.
    fn trace_walked(
        &mut self,
        cache: &mut vm::Memory,
        at: Standing,
        registers: &[Slot],
        is_found: bool,
        until_idle: bool,
        slots: &mut [Slot],
        stretches: &mut Vec<Stretch>,
    ) -> Result<(bool, Option<Standing>), AllocError>
        ghost before: { List (Option ℕ) }
        requires on { CanGoOn self.old (length slots.old) before at registers.now is_found slots.old }
        requires walks { CanWalk self.old cache.old.fits (length slots.old) }
        requires lead { LeadTo (asked self.old before) (reverse stretches.old.items) at.place }
        ensures stops { IfOk result (λ r. StopsSo self.new before registers.now slots.new r.0 r.1) }
        ensures lead { IfOk result (λ r. LeadSo (asked self.old before) (reverse stretches.new.items) r.1) }
        ensures whole { IfOk result (λ r. until_idle ≡ false → r.1 ≡ None) }
        ensures same { IsSame self.old self.new }
        ensures fits { cache.new.fits ≡ cache.old.fits }
        ensures searches { cache.new.searches ≡ cache.old.searches }
    {
        push(stretches, at.place, How::Walked)?;
        let (is_found, back) = self.resume(cache, at, registers, is_found, until_idle, slots);
        let Some((at, number)) = back else {
            return Ok((is_found, None));
        };
        let to = self.trace_settled(at, number, stretches)?;
        Ok((is_found, to))
    }

    /// Searches, and notes how it comes over the places. Returns whether something was found.
    pub(crate) fn trace(
        &mut self,
        cache: &mut vm::Memory,
        registers: &mut [Slot],
        slots: &mut [Slot],
        stretches: &mut Vec<Stretch>,
    ) -> Result<bool, AllocError>
        ghost before: { List (Option ℕ) }
        requires begins { CanBegin self.old before registers.old slots.old }
        requires walks { CanWalk self.old cache.old.fits (length slots.old) }
        requires empty { stretches.old.items ≡ [] }
        ensures over { IfOk result (λ found. IsOver (asked self.new before) found slots.new self.new.counted.walked) }
        ensures lead { OnOk result (LeadSo (asked self.old before) (reverse stretches.new.items) None) }
        ensures same { IsSame self.old self.new }
        ensures fits { cache.new.fits ≡ cache.old.fits }
        ensures searches { cache.new.searches ≡ cache.old.searches }
    {
        let (at, number) = self.root(self.input.start);
        let begun = self.trace_settled(at, number, stretches)?;
        let Some(mut at) = begun else {
            return Ok(false);
        };
        let mut is_found = false;
        let mut leaves = 0;
        'leaves: loop {
            let (found, left) = self.trace_on(at, registers, is_found, slots, stretches)?;
            let Some(place) = left else {
                return Ok(found);
            };
            leaves += 1;
            let until_idle = leaves < MOST_LEAVES;
            let (found, back) = self.trace_walked(
                cache, place, registers, found, until_idle, slots, stretches,
            )?;
            let Some(place) = back else {
                return Ok(found);
            };
            at = place;
            is_found = found;
        }
    }
}
