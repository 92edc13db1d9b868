//! A table of thread lists as a search reads it.

ghost use Rattle.std.specs.Prelude.{◌≡◌, ◌<◌, ◌≤◌, ◌*◌, ℕ, Some, IfSome, length, map, slice_get, slice_range, if◌then◌else◌};
ghost use Rattle.bites_spec.specs.Walks.{Among};
ghost use Rattle.bites_machine.specs.declared.vm.resume.RegisterThread.{RegisterThread};
ghost use Rattle.bites_table.specs.Kinds as kinds;
ghost use Rattle.bites_table.specs.Built.{kind_as};
ghost use Rattle.bites_table.specs.Table.{list_at};
ghost use Rattle.bites_table.specs.Explored.{number_in};
ghost use Rattle.bites_table.specs.declared.table.act.Act.{Act};
ghost use Rattle.bites_table.specs.Steps.{NameRegisters, most_registers};
ghost use Rattle.bites_table.specs.Stays.{IsSkip, IsRest};
ghost use Rattle.bites_table.specs.Packed.{table_in, classes_in, lists_in, stride, row_of, IsRow, Tells, IsPartOf, IsHeldHit, AreHeldHits, thread_with_register, IsTableOf};

pub mod act;
pub mod cell;
pub(crate) mod layout;
mod sequence;
pub mod skip;

use crate::classes::Classes;
use crate::explore::graph::Graph;
use crate::explore::roots::Roots;
use crate::explore::stays::Stays;
use crate::explore::{Budget, explore};
use crate::kind::Kind;
use crate::steps::Step;
use crate::table::act::{Act, Part, part_of};
use crate::table::cell::Cell;
use crate::table::layout::lay_out;
use crate::table::skip::{Rest, Skip, Stay};
use bites_machine::program::Program;
use bites_machine::vm::RegisterThread;
use std::alloc::Global;
use std::marker::Model;
use std::snapshot::Snapshot;

/// The searches at one place for which a table has thread lists with their transitions.
#[derive(Clone, Copy, PartialEq, Eq, Debug, Drop)]
pub enum AtOnePlace {
    /// None: such a search goes on as the Pike VM at once.
    Nothing,
    /// Those for the first match in order of preference.
    First,
    /// Those for the longest match.
    Longest,
}

// Where the threads of a thread list stand.
#[derive(Drop)]
pub(crate) struct ListEntry {
    pub threads: Part,
}

/// How large a table is.
#[derive(Clone, Copy, PartialEq, Eq, Debug)]
pub struct TableSize {
    /// The number of its thread lists.
    pub lists: usize,
    /// The number of bytes that its lists and transitions take.
    pub bytes: usize,
    /// Whether each transition is known that was asked for.
    pub is_whole: bool,
}

/// The thread lists of a program and the transitions between them, made before a search. It is never changed.
///
/// For proofs: a contract sees the classes, the graph of thread lists, where searches begin, and what transitions do.
pub struct Table {
    classes: Classes,
    slots: usize,
    stride: usize,
    cells: Vec<Cell>,
    acts: Vec<Act>,
    steps: Vec<Step>,
    lists: Vec<ListEntry>,
    threads: Vec<RegisterThread>,
    stays: Stays,
    everywhere: Roots,
    here: Roots,
    // Whether these are for the longest match.
    is_longest: bool,
    // Whether searches begin at one list, whatever byte stands before.
    has_one_root: bool,
    is_whole: bool,
    graph: Snapshot<Graph>,
}

// A caller that drops one relies on this function, and on no type below it.
impl Drop for Table {
    fn drop(self) {
        let Table {
            classes: _,
            slots: _,
            stride: _,
            cells: _,
            acts: _,
            steps: _,
            lists: _,
            threads: _,
            stays: _,
            everywhere: _,
            here: _,
            is_longest: _,
            has_one_root: _,
            is_whole: _,
            graph: _,
        } = self;
    }
}

impl Model for Table {
    ghost use Rattle.bites_table.specs.Packed.{Packed};

    ghost Value = { Packed };

    ghost use Rattle.bites_table.specs.Layout.{packed_in, IsLaidOut};

    ghost view = { packed_in };

    ghost invariant = { IsLaidOut };
}

impl Table {
    /// Makes the table of a program, of at most so many bytes and with a number of looks at states that is linear in the
    /// program. What is not made is unknown. Transitions of lists for searches at one place are left out if none are asked for, and
    /// all others were made.
    ///
    /// Returns `None` if the limit is too small for the lists where searches begin, if the program tells too many classes
    /// apart, or if memory runs out.
    pub fn new(
        alloc: Global,
        program: &Program,
        limit: usize,
        at_one_place: AtOnePlace,
    ) -> Option<Table>
        ensures { IfSome result (IsTableOf program.now.program) }
    {
        if limit == 0 {
            return None;
        }
        let classes = Classes::new(alloc, program)?;
        let budget = Budget::new(program, limit);
        let Ok(explored) = explore(alloc, program, &classes, budget, at_one_place) else {
            return None;
        };
        let table = lay_out(alloc, program.slots(), classes, explored)?;
        if table.size().bytes > limit {
            return None;
        }
        Some(table)
    }

    /// Returns whether each transition is known that was asked for.
    #[inline(always)]
    pub fn is_whole(&self) -> bool {
        self.is_whole
    }

    /// Returns whether the lists for searches at one place are those for the longest match.
    #[inline(always)]
    pub fn is_longest(&self) -> bool
        ensures { result ≡ self.now.longest }
    {
        self.is_longest
    }

    /// Returns how large the table is.
    pub fn size(&self) -> TableSize
        ensures { result.lists ≡ lists_in self.now }
    {
        let cells = self.cells.len().saturating_mul(size_of::<Cell>());
        let acts = self.acts.len().saturating_mul(size_of::<Act>());
        let steps = self.steps.len().saturating_mul(size_of::<Step>());
        let lists = self.lists.len().saturating_mul(size_of::<ListEntry>());
        let threads = self
            .threads
            .len()
            .saturating_mul(size_of::<RegisterThread>());
        let skips = self.stays.skips.len().saturating_mul(size_of::<Skip>());
        let stays = self.stays.lists.len().saturating_mul(size_of::<Stay>());
        TableSize {
            lists: self.lists.len(),
            bytes: cells
                .saturating_add(acts)
                .saturating_add(steps)
                .saturating_add(lists)
                .saturating_add(threads)
                .saturating_add(skips)
                .saturating_add(stays),
            is_whole: self.is_whole,
        }
    }

    /// Returns the number of slots of the program.
    #[inline(always)]
    pub fn slots(&self) -> usize
        ensures { result ≡ self.now.slots }
    {
        self.slots
    }

    /// Returns the class of a byte of ASCII. Each other byte gives the column in which nothing is known.
    #[inline(always)]
    pub fn class_of_byte(&self, byte: u8) -> usize
        ensures ascii { byte < 128 → result ≡ (classes_in self.now).class_of (Some byte) }
        ensures past { 128 ≤ byte → result ≡ (classes_in self.now).len }
        ensures within { result < stride self.now }
    {
        self.classes.of_byte(byte) as usize
    }

    /// Returns the class of a character, or of the end.
    pub fn class_of(&self, ch: Option<char>) -> usize
        ensures class { result ≡ (classes_in self.now).class_of ch }
        ensures within { result < stride self.now }
    {
        self.classes.of(ch)
    }

    /// Returns the class of the end.
    #[inline(always)]
    pub fn class_of_end(&self) -> usize
        ensures class { result ≡ (classes_in self.now).class_of None }
        ensures within { result < stride self.now }
    {
        self.classes.end()
    }

    /// Returns the class of each character past ASCII, if they stand in one interval.
    #[inline(always)]
    pub fn class_past_ascii(&self) -> Option<usize>
        ensures class { IfSome result (λ k. (c : ℕ) → 128 ≤ c → k ≡ (classes_in self.now).class_of (Some c)) }
        ensures within { IfSome result (λ k. k < stride self.now) }
    {
        self.classes.class_past_ascii()
    }

    /// Returns the number of the thread list where a search begins, if it is the same behind all bytes.
    #[inline(always)]
    pub fn only_root(&self, anchored: bool) -> Option<usize>
        ensures number { IfSome result (λ n. (k : kinds.Kind) → n ≡ number_in (if anchored then self.now.here else self.now.everywhere) k) }
        ensures within { IfSome result (λ n. n < lists_in self.now) }
    {
        if !self.has_one_root {
            return None;
        }
        Some(self.root(anchored, Kind::Other))
    }

    /// Returns the number of the thread list where a search begins behind a byte of this kind.
    pub fn root(&self, anchored: bool, kind: Kind) -> usize
        ensures number { result ≡ number_in (if anchored then self.now.here else self.now.everywhere) (kind_as kind) }
        ensures within { result < lists_in self.now }
    {
        let roots = if anchored { self.here } else { self.everywhere };
        roots.of(kind) as usize
    }

    /// Returns the place of the first cell of a thread list.
    #[inline(always)]
    pub fn row(&self, number: usize) -> usize
        requires { number < lists_in self.now }
        ensures { result ≡ row_of self.now number }
    {
        number * self.stride
    }

    /// Returns the number of the thread list whose first cell stands there.
    pub fn number(&self, row: usize) -> usize
        requires { IsRow self.now row }
        ensures number { row ≡ row_of self.now result }
        ensures within { result < lists_in self.now }
    {
        row / self.stride
    }

    /// Returns all cells. A loop keeps them at hand.
    #[inline(always)]
    pub fn cells(&self) -> &[Cell]
        ensures { result.now ≡ self.now.cells }
    {
        &self.cells
    }

    /// Returns the cell of a thread list, by the place of its first cell, and a class, of the cells of the table. The class comes
    /// first, since a search knows it before the list, for which it has to wait.
    #[inline(always)]
    pub fn cell<'c>(&self, cells: &'c [Cell], row: usize, class: usize) -> &'c Cell
        requires cells { cells.now ≡ self.now.cells }
        requires row { IsRow self.now row }
        requires class { class < stride self.now }
        ensures { (n : ℕ) → row ≡ row_of self.now n → Tells self.now n class result.now }
    {
        // For proofs: the cells tell of the table.
        let _known = &self.cells;
        let column = &cells[class..];
        &column[row]
    }

    /// Returns what a transition does.
    #[inline(always)]
    pub fn act(&self, number: usize) -> &Act
        requires { number < length self.now.acts }
        ensures act { slice_get self.now.acts number ≡ Some result.now }
        ensures steps { IsPartOf (length self.now.steps) result.now.steps }
        ensures held { IsHeldHit result.now.hit }
    {
        &self.acts[number]
    }

    /// For proofs: the row of each hit comes from a register that a search has, if it comes from one.
    #[inline(always)]
    pub(crate) fn hits_are_held(&self)
        ensures { AreHeldHits self.now.acts }
    {
        let _known = &self.acts;
    }

    /// Returns the steps of a part.
    #[inline(always)]
    pub fn steps(&self, part: Part) -> &[Step]
        requires { IsPartOf (length self.now.steps) part }
        ensures steps { result.now ≡ slice_range self.now.steps part.from part.to }
        ensures names { NameRegisters result.now }
    {
        part_of(&self.steps, part)
    }

    /// Returns the threads of a thread list, in order of preference, each with its register.
    pub fn threads(&self, number: usize) -> &[RegisterThread]
        requires { number < lists_in self.now }
        ensures threads { map thread_with_register result.now ≡ (list_at (table_in self.now) number).threads }
        ensures held { (t : RegisterThread) → Among result.now t → t.register < most_registers }
    {
        part_of(&self.threads, self.lists[number].threads)
    }

    /// Returns the bytes that a search passes at once from a thread list, if there are some.
    #[inline(always)]
    pub fn skip(&self, number: usize) -> Option<&Skip>
        ensures { IfSome result (λ s. IsSkip (table_in self.now) (classes_in self.now) number s.now) }
    {
        if number >= self.stays.lists.len() {
            return None;
        }
        let skip = self.stays.lists[number].skip? as usize;
        Some(&self.stays.skips[skip])
    }

    /// Returns what is visited at each place from there on, if nothing is found from a thread list any more.
    #[inline(always)]
    pub fn rest(&self, number: usize) -> Option<&Rest>
        ensures { IfSome result (λ r. IsRest (table_in self.now) (classes_in self.now) number r.now) }
    {
        if number >= self.stays.lists.len() {
            return None;
        }
        self.stays.lists[number].rest.as_ref()
    }
}
