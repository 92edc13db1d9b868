//! A search by a table from place to place.

ghost use Rattle.std.specs.Prelude.{not, if◌then◌else◌, ◌≡◌, ◌*◌, ◌+◌, ◌<◌, ◌≤◌, ◌||◌, ◌&&◌, ◌==◌, ℕ, false, true, List, Option, Some, None, length, is_some, option_map};
ghost use Rattle.bites_machine.specs.Inputs.{is_earliest, is_longest};
ghost use Rattle.bites_machine.specs.SlotTable.{no_slot};
ghost use Rattle.bites_table.specs.Kinds.{kind_of};
ghost use Rattle.bites_table.specs.Steps.{with_spare};
ghost use Rattle.bites_table.specs.Built.{frame_of};
ghost use Rattle.bites_table.specs.Packed.{IsHeldHit, row_of, classes_in, lists_in, stride};
ghost use Rattle.bites_table.specs.Standing.{IsOver, slots_after};
ghost use Rattle.bites_table.specs.Searches.{asked, IsSame, IsPieceAt, StandsAt, CanGoOn, CanGoOnBy, CanBegin, CanWalk, TurnsTo, StopsSo, ResumesTo};
ghost use Rattle.bites_spec.specs.Look.{before};
ghost use Rattle.bites_spec.specs.Utf8.{piece as piece_of};
ghost use Rattle.bites_machine.specs.Ends.{next_character};
ghost use Rattle.bites_table.specs.Explored.{number_in};

use crate::search::place::{Piece, kind_before, piece_at};
use crate::search::record::{Search, Standing, Width};
use crate::steps::{end_row, run_steps, write_row};
use crate::table::act::Act;
use crate::table::cell::{ENDS, UNKNOWN, WHOLE};
use bites_machine::slot::Slot;
use bites_machine::vm::{self, MatchKind, Resumed};

// How often one search goes on as the Pike VM before it does so to its end.
pub(crate) const MOST_LEAVES: usize = 32;

// What comes after a place.
#[derive(Clone, Copy, Drop)]
pub(crate) enum Turn {
    // The search goes on at the next place.
    Goes { to: Standing, is_found: bool },
    // The search is over.
    Ends { is_found: bool },
    // The transition is not known.
    Leaves,
}

// How the search stopped going by the table: whether it is over, and whether something is found. If it is not over, the transition
// from where it stands is not known. A call returns this in registers.
#[derive(Clone, Copy, Drop)]
pub(crate) struct Stop {
    is_over: bool,
    is_found: bool,
}

impl Search<'_> {
    // Goes on over what stands at a place.
    #[inline(always)]
    fn step_over(
        &mut self,
        piece: Piece,
        at: Standing,
        registers: &mut [Slot],
        was_found: bool,
        slots: &mut [Slot],
    ) -> Turn
        ghost before: { List (Option ℕ) }
        requires on { CanGoOn self.old (length slots.old) before at registers.old was_found slots.old }
        requires class { piece.class ≡ (classes_in self.old.table.now).class_of (next_character self.old.input.now.haystack.now at.place) }
        requires known { piece.class < stride self.old.table.now }
        requires len { piece.len ≡ (piece_of self.old.input.now.haystack.now at.place).len }
        requires within { at.place + piece.len < no_slot }
        ensures turns { TurnsTo self.new before at registers.new was_found slots.new result }
        ensures same { IsSame self.old self.new }
    {
        let table = self.table;
        let Some(lent) = self.lend(table.cells(), at, piece.class, UNKNOWN) else {
            return Turn::Leaves;
        };
        let act = self.table.act(lent.act);
        let is_found = keep_hit(act, registers, at.place, was_found, slots);
        if self.is_over(act, piece.len, is_found) {
            return Turn::Ends { is_found };
        }
        run_steps(
            self.table.steps(act.steps),
            registers,
            slots.len(),
            at.place,
        );
        let to = Standing {
            place: at.place + piece.len,
            row: lent.next,
        };
        match self.settle(to, act.next as usize) {
            Some(to) => Turn::Goes { to, is_found },
            None => Turn::Ends { is_found },
        }
    }

    // Ends a search for two slots at a piece of the haystack where it has only to keep a hit and is over. Returns whether it did.
    #[inline(always)]
    fn end_with_hit(
        &mut self,
        piece: Piece,
        width: Width<'_>,
        at: Standing,
        registers: &[Slot],
        was_found: bool,
        slots: &mut [Slot],
    ) -> bool
        ghost before: { List (Option ℕ) }
        requires on { CanGoOnBy self.old width before at registers.now was_found slots.old }
        requires piece { IsPieceAt self.old before at.place piece.class piece.len }
        ensures stands { result ≡ false → StandsAt self.new before at registers.now was_found slots.new }
        ensures over { result ≡ true → IsOver (asked self.new before) true slots.new self.new.counted.walked }
        ensures same { IsSame self.old self.new }
    {
        if width.slots != 2 {
            return false;
        }
        let Some(last) = self.lend(width.cells, at, piece.class, ENDS) else {
            return false;
        };
        end_row(registers, last.begins, at.place, slots);
        true
    }

    // Goes on over one place, in as little code as may be.
    pub(crate) fn step(
        &mut self,
        width: Width<'_>,
        at: Standing,
        registers: &mut [Slot],
        was_found: bool,
        slots: &mut [Slot],
    ) -> Turn
        ghost before: { List (Option ℕ) }
        requires on { CanGoOnBy self.old width before at registers.old was_found slots.old }
        ensures turns { TurnsTo self.new before at registers.new was_found slots.new result }
        ensures same { IsSame self.old self.new }
    {
        let piece = piece_at(width.table, self.input.haystack, at.place);
        self.step_over(piece, at, registers, was_found, slots)
    }

    // Goes on over what stands at a place where a byte of ASCII is not passed by `pass_one`, as quickly as may be.
    #[inline(always)]
    fn advance(
        &mut self,
        haystack: &[u8],
        width: Width<'_>,
        at: Standing,
        registers: &mut [Slot],
        was_found: bool,
        slots: &mut [Slot],
    ) -> Turn
        ghost before: { List (Option ℕ) }
        requires on { CanGoOnBy self.old width before at registers.old was_found slots.old }
        requires haystack { haystack.now ≡ self.old.input.now.haystack.now }
        ensures turns { TurnsTo self.new before at registers.new was_found slots.new result }
        ensures same { IsSame self.old self.new }
    {
        let piece = piece_at(width.table, haystack, at.place);
        let passed = self.pass_piece(haystack, piece, width, at, registers, was_found, slots);
        if let Some((to, is_found)) = passed {
            return Turn::Goes { to, is_found };
        }
        if self.end_with_hit(piece, width, at, registers, was_found, slots) {
            return Turn::Ends { is_found: true };
        }
        self.step_over(piece, at, registers, was_found, slots)
    }

    // Returns whether the search is over after a place.
    #[inline(always)]
    fn is_over(&self, act: &Act, len: usize, is_found: bool) -> bool
        ensures { result ≡ ((len == 0) || (act.now.is_over || (is_found && is_earliest self.now.input.now.kind))) }
    {
        len == 0 || act.is_over || is_found && matches!(self.input.kind, MatchKind::Earliest)
    }

    // Goes on by the table until the search is over, or up to a place whose transition is not known. It stands there then.
    #[inline(always)]
    fn go_on_by(
        &mut self,
        width: Width<'_>,
        at: &mut Standing,
        registers: &mut [Slot],
        was_found: bool,
        slots: &mut [Slot],
    ) -> Stop
        ghost before: { List (Option ℕ) }
        requires on { CanGoOnBy self.old width before at.old registers.old was_found slots.old }
        ensures stops { StopsSo self.new before registers.new slots.new result.is_found (if result.is_over then None else Some at.new) }
        ensures same { IsSame self.old self.new }
    {
        let haystack = self.input.haystack;
        let mut here = *at;
        let mut is_found = was_found;
        'places: loop {
            here = self.pass_quietly(haystack, width, here, registers);
            match self.advance(haystack, width, here, registers, is_found, slots) {
                Turn::Goes {
                    to,
                    is_found: found,
                } => {
                    here = to;
                    is_found = found;
                }
                Turn::Ends { is_found } => {
                    return Stop {
                        is_over: true,
                        is_found,
                    };
                }
                Turn::Leaves => {
                    *at = here;
                    return Stop {
                        is_over: false,
                        is_found,
                    };
                }
            }
        }
    }

    // The same for two slots. It is a function of its own, so that its loop has only to do what these need.
    #[inline(never)]
    fn go_on_by_two(
        &mut self,
        at: &mut Standing,
        registers: &mut [Slot],
        was_found: bool,
        slots: &mut [Slot],
    ) -> Stop
        ghost before: { List (Option ℕ) }
        requires on { CanGoOn self.old (length slots.old) before at.old registers.old was_found slots.old }
        requires two { length slots.old ≡ 2 }
        ensures stops { StopsSo self.new before registers.new slots.new result.is_found (if result.is_over then None else Some at.new) }
        ensures same { IsSame self.old self.new }
    {
        self.go_on_by(self.width(2), at, registers, was_found, slots)
    }

    // The same for no slots.
    #[inline(never)]
    fn go_on_by_none(
        &mut self,
        at: &mut Standing,
        registers: &mut [Slot],
        was_found: bool,
        slots: &mut [Slot],
    ) -> Stop
        ghost before: { List (Option ℕ) }
        requires on { CanGoOn self.old (length slots.old) before at.old registers.old was_found slots.old }
        requires none { length slots.old ≡ 0 }
        ensures stops { StopsSo self.new before registers.new slots.new result.is_found (if result.is_over then None else Some at.new) }
        ensures same { IsSame self.old self.new }
    {
        self.go_on_by(self.width(0), at, registers, was_found, slots)
    }

    // The same for all slots. A table serves no other number of slots.
    #[inline(never)]
    fn go_on_by_all(
        &mut self,
        at: &mut Standing,
        registers: &mut [Slot],
        was_found: bool,
        slots: &mut [Slot],
    ) -> Stop
        ghost before: { List (Option ℕ) }
        requires on { CanGoOn self.old (length slots.old) before at.old registers.old was_found slots.old }
        ensures stops { StopsSo self.new before registers.new slots.new result.is_found (if result.is_over then None else Some at.new) }
        ensures same { IsSame self.old self.new }
    {
        let width = self.width(slots.len());
        if width.bit != WHOLE {
            return Stop {
                is_over: false,
                is_found: was_found,
            };
        }
        self.go_on_by(width, at, registers, was_found, slots)
    }

    // The same, by one of them.
    #[inline(always)]
    fn go_on(
        &mut self,
        at: &mut Standing,
        registers: &mut [Slot],
        was_found: bool,
        slots: &mut [Slot],
    ) -> Stop
        ghost before: { List (Option ℕ) }
        requires on { CanGoOn self.old (length slots.old) before at.old registers.old was_found slots.old }
        ensures stops { StopsSo self.new before registers.new slots.new result.is_found (if result.is_over then None else Some at.new) }
        ensures same { IsSame self.old self.new }
    {
        match slots.len() {
            0 => self.go_on_by_none(at, registers, was_found, slots),
            2 => self.go_on_by_two(at, registers, was_found, slots),
            _ => self.go_on_by_all(at, registers, was_found, slots),
        }
    }

    // Returns where the table begins at a place where no thread is left and the start is walked.
    pub(crate) fn root(&self, place: usize) -> (Standing, usize)
        requires { place ≤ length self.now.input.now.haystack.now }
        ensures place { result.0.place ≡ place }
        ensures row { result.0.row ≡ row_of self.now.table.now result.1 }
        ensures number { result.1 ≡ number_in (if self.now.input.now.anchored then self.now.table.now.here else self.now.table.now.everywhere)
            (kind_of (before self.now.input.now.haystack.now place)) }
        ensures within { result.1 < lists_in self.now.table.now }
    {
        let number = match self.table.only_root(self.input.anchored) {
            Some(number) => number,
            None => {
                let kind = kind_before(self.input.haystack, place);
                self.table.root(self.input.anchored, kind)
            }
        };
        let row = self.table.row(number);
        (Standing { place, row }, number)
    }

    // Returns whether the start is walked at a place: until something is found, and at the first place alone if the search is
    // anchored.
    pub(crate) fn starts_at(&self, place: usize, is_found: bool) -> bool
        ensures { result ≡ (not is_found && (not self.now.input.now.anchored || (place == self.now.input.now.start))) }
    {
        !is_found && (!self.input.anchored || place == self.input.start)
    }

    // Returns the place where the threads of the search were started, as the Pike VM notes it: for the longest match alone.
    fn noted_start(&self) -> usize
        ensures { result ≡ (if is_longest self.now.input.now.kind then self.now.input.now.start else 0) }
    {
        match self.input.kind {
            MatchKind::Longest => self.input.start,
            _ => 0,
        }
    }

    // Goes on as the Pike VM, until the search is over or no thread is left. Returns where the table begins then, with the number of
    // that thread list.
    pub(crate) fn resume(
        &mut self,
        cache: &mut vm::Memory,
        at: Standing,
        registers: &[Slot],
        is_found: bool,
        until_idle: bool,
        slots: &mut [Slot],
    ) -> (bool, Option<(Standing, usize)>)
        ghost before: { List (Option ℕ) }
        requires on { CanGoOn self.old (length slots.old) before at registers.now is_found slots.old }
        requires walks { CanWalk self.old cache.old.fits (length slots.old) }
        ensures comes { ResumesTo self.new before registers.now slots.new result.0 result.1 }
        ensures whole { until_idle ≡ false → result.1 ≡ None }
        ensures same { IsSame self.old self.new }
        ensures fits { cache.new.fits ≡ cache.old.fits }
        ensures searches { cache.new.searches ≡ cache.old.searches }
    {
        let number = self.table.number(at.row);
        let from = Resumed {
            place: at.place,
            starts: self.starts_at(at.place, is_found),
            is_found,
            threads: self.table.threads(number),
            started: self.noted_start(),
            registers,
            until_idle,
        };
        let first = self.program.start();
        let stopped = cache.resume(&mut self.counted, first, self.input, &from, slots);
        let Some(place) = stopped.idle else {
            return (stopped.is_found, None);
        };
        (stopped.is_found, Some(self.root(place)))
    }

    // Goes on as the Pike VM, until the search is over or comes back to the table.
    #[inline(never)]
    fn leave(
        &mut self,
        cache: &mut vm::Memory,
        at: Standing,
        registers: &[Slot],
        is_found: bool,
        until_idle: bool,
        slots: &mut [Slot],
    ) -> (bool, Option<Standing>)
        ghost before: { List (Option ℕ) }
        requires on { CanGoOn self.old (length slots.old) before at registers.now is_found slots.old }
        requires walks { CanWalk self.old cache.old.fits (length slots.old) }
        ensures stops { StopsSo self.new before registers.now slots.new result.0 result.1 }
        ensures whole { until_idle ≡ false → result.1 ≡ None }
        ensures same { IsSame self.old self.new }
        ensures fits { cache.new.fits ≡ cache.old.fits }
        ensures searches { cache.new.searches ≡ cache.old.searches }
    {
        let (is_found, back) = self.resume(cache, at, registers, is_found, until_idle, slots);
        match back {
            None => (is_found, None),
            Some((at, number)) => (is_found, self.settle(at, number)),
        }
    }

    /// Searches, and returns whether something was found.
    #[inline(always)]
    pub(crate) fn run(
        &mut self,
        cache: &mut vm::Memory,
        registers: &mut [Slot],
        slots: &mut [Slot],
    ) -> bool
        ghost before: { List (Option ℕ) }
        requires begins { CanBegin self.old before registers.old slots.old }
        requires walks { CanWalk self.old cache.old.fits (length slots.old) }
        ensures over { IsOver (asked self.new before) result slots.new self.new.counted.walked }
        ensures same { IsSame self.old self.new }
        ensures fits { cache.new.fits ≡ cache.old.fits }
        ensures searches { cache.new.searches ≡ cache.old.searches }
    {
        let (at, number) = self.root(self.input.start);
        let Some(mut at) = self.settle(at, number) else {
            return false;
        };
        let mut is_found = false;
        let mut leaves = 0;
        'leaves: loop {
            let stop = self.go_on(&mut at, registers, is_found, slots);
            if stop.is_over {
                return stop.is_found;
            }
            leaves += 1;
            let until_idle = leaves < MOST_LEAVES;
            let (found, back) = self.leave(cache, at, registers, stop.is_found, until_idle, slots);
            let Some(place) = back else {
                return found;
            };
            at = place;
            is_found = found;
        }
    }
}

// Keeps the slots of a thread that comes to a match. Returns whether something is found.
#[inline(always)]
fn keep_hit(
    act: &Act,
    registers: &[Slot],
    place: usize,
    was_found: bool,
    slots: &mut [Slot],
) -> bool
    requires register { IsHeldHit act.now.hit }
    requires room { with_spare * length slots.old ≤ length registers.now }
    requires place { place < no_slot }
    ensures slots { slots.new ≡ slots_after (length slots.old) place registers.now (option_map frame_of act.now.hit) slots.old }
    ensures found { result ≡ (is_some act.now.hit || was_found) }
{
    match &act.hit {
        None => was_found,
        Some(hit) => {
            write_row(&hit.source, registers, place, slots);
            true
        }
    }
}
