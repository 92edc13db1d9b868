//! Thread lists and the transitions between them, by their numbers.

ghost use Rattle.std.specs.Prelude.{◌≡◌, ◌<◌, ◌+◌, ◌*◌, ℕ, true, ◌++◌, [], length, map, option_map, None, Some, IfSome, IfNone, IfOk, replicate, slice_get, slice_set, slice_range};
ghost use Rattle.bites_table.specs.Graph as graphs;
ghost use Rattle.bites_table.specs.Graph.{cell_at, registers_at, with_list, with_cells, with_outcome, AddsList, AddsOutcome};
ghost use Rattle.bites_table.specs.Made.{NamesAt};
ghost use Rattle.bites_table.specs.Stays.{HasOutcome};
ghost use Rattle.bites_table.specs.Stored.{IsPart, numbered, outcome_of, cell_of};

use crate::explore::index::{Index, Place};
use crate::kind::Kind;
use crate::thread_list::{Frame, Source, Starts, Thread, ThreadList};
use std::alloc::{AllocError, Global};
use std::marker::Model;
use std::snapshot::Snapshot;

/// A part of a vector, from an index up to another.
#[derive(Clone, Copy, Drop)]
pub(crate) struct Part {
    pub from: usize,
    pub to: usize,
}

// Returns a part of a vector.
fn part_of<T>(items: &[T], part: Part) -> &[T]
    requires { IsPart (length items.now) part }
    ensures { result.now ≡ slice_range items.now part.from part.to }
{
    &items[part.from..part.to]
}

// How many outcomes are compared with one before it is added. Those of one list are added one after another, and few differ.
const LATEST_OUTCOMES: usize = 8;

// A graph begins with room for so many lists of each state, but no more than these, and for so many outcomes of each list.
const LISTS_OF_STATE: usize = 2;

const MOST_ROOM: usize = 512;

const OUTCOMES_OF_LIST: usize = 2;

// A thread list whose threads stand with those of all lists, with the number of its registers.
#[derive(Clone, Copy, Drop)]
pub(crate) struct StoredList {
    pub threads: Part,
    pub registers: usize,
    pub starts: Starts,
    pub kind: Kind,
}

// An outcome whose moves stand with those of all outcomes.
#[derive(Clone, Copy, Drop)]
pub(crate) struct StoredOutcome {
    pub next: u32,
    pub moves: Part,
    pub hit: Option<Frame>,
}

/// What a transition leads to: the number of the next thread list, the source of each of its registers, and the thread that
/// comes to a match.
#[derive(Clone, Copy, Drop)]
pub(crate) struct Outcome<'a> {
    pub next: u32,
    pub moves: &'a [Source],
    pub hit: Option<Frame>,
}

/// A transition: the number of its outcome. For proofs, with no size, the states that its walk visited and the number of
/// looks that it took.
#[derive(Drop)]
pub(crate) struct Cell {
    pub outcome: u32,
    pub seen: Snapshot<Vec<u32>>,
    pub looks: Snapshot<usize>,
}

/// Thread lists, and the transitions from each of them over each class, by their numbers.
#[derive(Drop)]
pub(crate) struct Graph {
    classes: usize,
    lists: Vec<StoredList>,
    threads: Vec<Thread>,
    cells: Vec<Option<Cell>>,
    outcomes: Vec<StoredOutcome>,
    moves: Vec<Source>,
    index: Index,
}

impl Model for Graph {
    ghost use Rattle.bites_table.specs.Graph.{Graph};
    ghost use Rattle.bites_table.specs.Stored.{graph_of, IsStored};

    ghost Value = { Graph };

    ghost view = { graph_of };

    ghost invariant = { IsStored };
}

impl Graph {
    /// Makes a graph without lists for so many classes of a program with so many states. The error is out of memory.
    pub(crate) fn new(alloc: Global, classes: usize, states: usize) -> Result<Graph, AllocError>
        ensures { IfOk result (λ g. g ≡ record { classes = classes; lists = []; cells = []; outcomes = [] }) }
    {
        let lists = states.saturating_mul(LISTS_OF_STATE).min(MOST_ROOM);
        let cells = lists.saturating_mul(classes);
        let outcomes = lists.saturating_mul(OUTCOMES_OF_LIST);
        Ok(Graph {
            classes,
            lists: Vec::with_capacity(alloc, lists)?,
            threads: Vec::with_capacity(alloc, lists)?,
            cells: Vec::with_capacity(alloc, cells)?,
            outcomes: Vec::with_capacity(alloc, outcomes)?,
            moves: Vec::with_capacity(alloc, outcomes)?,
            index: Index::new(alloc, lists)?,
        })
    }

    /// Returns the number of classes.
    pub(crate) fn classes(&self) -> usize
        ensures { result ≡ self.now.classes }
    {
        self.classes
    }

    /// Returns the number of lists.
    pub(crate) fn lists(&self) -> usize
        ensures { result ≡ length self.now.lists }
    {
        self.lists.len()
    }

    /// Returns a list.
    pub(crate) fn list(&self, number: usize) -> ThreadList<'_>
        requires { number < length self.now.lists }
        ensures { slice_get self.now.lists number ≡ Some (numbered result (registers_at self.now number)) }
    {
        let StoredList {
            threads,
            starts,
            kind,
            ..
        } = self.lists[number];
        ThreadList {
            threads: part_of(&self.threads, threads),
            starts,
            kind,
        }
    }

    /// Returns the number of registers of a list.
    pub(crate) fn registers(&self, number: usize) -> usize
        requires { number < length self.now.lists }
        ensures { result ≡ registers_at self.now number }
    {
        self.lists[number].registers
    }

    /// Returns the number of a list, which is added if it is new. Returns `None`, and adds nothing, if memory or numbers run
    /// out.
    #[inline(always)]
    pub(crate) fn add_list(&mut self, list: &ThreadList<'_>, registers: usize) -> Option<u32>
        ensures added { IfSome result (λ n. AddsList self.old (numbered list.now registers) n self.new) }
        ensures refused { IfNone result (self.new ≡ self.old) }
    {
        let hash = Index::hash_of(list);
        if let Some(number) = self.find(list, registers, hash) {
            return Some(number);
        }
        let number = self.push_list(list, registers)?;
        let _ = self.index.insert(hash, number);
        Some(number)
    }

    // Adds a list. Returns its number.
    #[inline(always)]
    fn push_list(&mut self, list: &ThreadList<'_>, registers: usize) -> Option<u32>
        ensures number { IfSome result (λ n. n ≡ length self.old.lists) }
        ensures added { IfSome result (λ _. self.new ≡ with_list self.old (numbered list.now registers)) }
        ensures refused { IfNone result (self.new ≡ self.old) }
    {
        let number = u32::try_from(self.lists.len()).ok()?;
        let from = self.threads.len();
        self.threads.extend_from_slice(list.threads).ok()?;
        let to = self.threads.len();
        let stored = StoredList {
            threads: Part { from, to },
            registers,
            starts: list.starts,
            kind: list.kind,
        };
        self.lists.push(stored).ok()?;
        Some(number)
    }

    // Returns the number of a list, if it was added before.
    fn find(&self, list: &ThreadList<'_>, registers: usize, hash: u32) -> Option<u32>
        ensures { IfSome result (λ n. slice_get self.now.lists n ≡ Some (numbered list.now registers)) }
    {
        let mut place = self.index.first(hash);
        for _ in 0..self.index.len() {
            let Place { hash: own, number } = self.index.at(place)?;
            if own == hash && self.is_list(number as usize, list, registers) {
                return Some(number);
            }
            place = self.index.after(place);
        }
        None
    }

    // Returns whether this list has that number.
    fn is_list(&self, number: usize, list: &ThreadList<'_>, registers: usize) -> bool
        ensures { result ≡ true → slice_get self.now.lists number ≡ Some (numbered list.now registers) }
    {
        if number >= self.lists.len() {
            return false;
        }
        let own = self.list(number);
        self.registers(number) == registers
            && own.starts == list.starts
            && own.kind == list.kind
            && own.threads == list.threads
    }

    /// Returns the number of outcomes.
    pub(crate) fn outcomes(&self) -> usize
        ensures { result ≡ length self.now.outcomes }
    {
        self.outcomes.len()
    }

    /// Returns the outcome with a number.
    pub(crate) fn outcome(&self, number: usize) -> Outcome<'_>
        requires { number < length self.now.outcomes }
        ensures { slice_get self.now.outcomes number ≡ Some (outcome_of result) }
    {
        let StoredOutcome { next, moves, hit } = self.outcomes[number];
        Outcome {
            next,
            moves: part_of(&self.moves, moves),
            hit,
        }
    }

    /// Returns the outcome of a list over a class, if the transition is known.
    pub(crate) fn outcome_over(&self, number: usize, class: usize) -> Option<Outcome<'_>>
        ensures { IfSome result (λ o. HasOutcome self.now number class (outcome_of o)) }
    {
        let outcome = self.named_over(number, class)? as usize;
        if outcome >= self.outcomes.len() {
            return None;
        }
        Some(self.outcome(outcome))
    }

    // Returns the number of the outcome of a list over a class, if the transition is known.
    fn named_over(&self, number: usize, class: usize) -> Option<u32>
        ensures { IfSome result (λ o. (x : graphs.Cell) × (cell_at self.now number class ≡ Some x) × (x.outcome ≡ o)) }
    {
        if class >= self.classes {
            return None;
        }
        self.outcome_at(number.checked_mul(self.classes), class)
    }

    /// Returns the number of the outcome over a class in the row that begins at this index, if the transition is known.
    pub(crate) fn outcome_at(&self, first: Option<usize>, class: usize) -> Option<u32>
        ensures { IfSome result (NamesAt self.now first class) }
    {
        let first = first?;
        let index = first.checked_add(class)?;
        if index >= self.cells.len() {
            return None;
        }
        match &self.cells[index] {
            None => None,
            Some(cell) => Some(cell.outcome),
        }
    }

    /// Returns the number of an outcome, which is added if it leads to a new list, or is none of the latest. Returns `None`, and
    /// adds nothing, if memory or numbers run out.
    pub(crate) fn add_outcome(&mut self, outcome: &Outcome<'_>, is_new: bool) -> Option<u32>
        ensures added { IfSome result (λ n. AddsOutcome self.old (outcome_of outcome.now) n self.new) }
        ensures refused { IfNone result (self.new ≡ self.old) }
    {
        if !is_new {
            if let Some(number) = self.find_outcome(outcome) {
                return Some(number);
            }
        }
        self.push_outcome(outcome)
    }

    // Returns the number of an outcome, if it is one of the latest.
    fn find_outcome(&self, outcome: &Outcome<'_>) -> Option<u32>
        ensures { IfSome result (λ n. slice_get self.now.outcomes n ≡ Some (outcome_of outcome.now)) }
    {
        let first = self.outcomes.len().saturating_sub(LATEST_OUTCOMES);
        for number in first..self.outcomes.len() {
            if self.outcomes[number].next == outcome.next && self.is_outcome(number, outcome) {
                return u32::try_from(number).ok();
            }
        }
        None
    }

    // Returns whether this outcome has that number.
    fn is_outcome(&self, number: usize, outcome: &Outcome<'_>) -> bool
        ensures { result ≡ true → slice_get self.now.outcomes number ≡ Some (outcome_of outcome.now) }
    {
        if number >= self.outcomes.len() {
            return false;
        }
        let own = self.outcome(number);
        own.next == outcome.next && own.hit == outcome.hit && own.moves == outcome.moves
    }

    // Adds an outcome. Returns its number.
    fn push_outcome(&mut self, outcome: &Outcome<'_>) -> Option<u32>
        ensures number { IfSome result (λ n. n ≡ length self.old.outcomes) }
        ensures added { IfSome result (λ _. self.new ≡ with_outcome self.old (outcome_of outcome.now)) }
        ensures refused { IfNone result (self.new ≡ self.old) }
    {
        let number = u32::try_from(self.outcomes.len()).ok()?;
        let from = self.moves.len();
        self.moves.extend_from_slice(outcome.moves).ok()?;
        let to = self.moves.len();
        let stored = StoredOutcome {
            next: outcome.next,
            moves: Part { from, to },
            hit: outcome.hit,
        };
        self.outcomes.push(stored).ok()?;
        Some(number)
    }

    /// Returns the transitions that are known, list after list.
    pub(crate) fn cells(&self) -> &[Option<Cell>]
        ensures { map (option_map cell_of) result.now ≡ self.now.cells }
    {
        &self.cells
    }

    /// Returns the transitions that are known, list after list, without the graph.
    pub(crate) fn into_cells(self) -> Vec<Option<Cell>>
        ensures { map (option_map cell_of) result.items ≡ self.cells }
    {
        self.cells
    }

    /// Adds the transitions of a list. None of them is known yet. Returns the index of the first of them, or `None` if those
    /// of a list before it were not added, those of this list were, or memory runs out.
    pub(crate) fn add_row(&mut self, number: usize) -> Option<usize>
        ensures added { (n : ℕ) × (self.new ≡ with_cells self.old (self.old.cells ++ replicate n None))
            × IfSome result (λ first. (first ≡ length self.old.cells) × (first ≡ number * self.old.classes) × (n ≡ self.old.classes)) }
    {
        let first = self.cells.len();
        if number.checked_mul(self.classes) != Some(first) {
            return None;
        }
        push_unknown(&mut self.cells, self.classes).ok()?;
        Some(first)
    }

    /// Puts the transition over a class into the row that begins at this index.
    pub(crate) fn set(&mut self, first: usize, class: usize, cell: Cell)
        requires { first + class < length self.old.cells }
        ensures { self.new ≡ with_cells self.old (slice_set self.old.cells (first + class) (Some (cell_of cell))) }
    {
        self.cells[first + class] = Some(cell);
    }

    /// Returns how many bytes the graph takes with a row more, if each of its transitions leads to a list that is not there
    /// yet. No memory has so many that they wrap.
    pub(crate) fn bytes_with_row(&self) -> usize {
        let list = size_of::<StoredList>() + size_of::<Thread>();
        let transition = size_of::<Option<Cell>>() + size_of::<StoredOutcome>() + list;
        let lists = self.lists.len().wrapping_mul(size_of::<StoredList>());
        let threads = self.threads.len().wrapping_mul(size_of::<Thread>());
        let cells = self.cells.len().wrapping_mul(size_of::<Option<Cell>>());
        let outcomes = self.outcomes.len().wrapping_mul(size_of::<StoredOutcome>());
        let moves = self.moves.len().wrapping_mul(size_of::<Source>());
        lists
            .wrapping_add(threads)
            .wrapping_add(cells)
            .wrapping_add(outcomes)
            .wrapping_add(moves)
            .wrapping_add(self.classes.wrapping_mul(transition))
    }
}

// Adds so many transitions that are not known.
fn push_unknown(cells: &mut Vec<Option<Cell>>, count: usize) -> Result<(), AllocError>
    ensures { (n : ℕ) × (cells.new.items ≡ cells.old.items ++ replicate n None) × IfOk result (λ _. n ≡ count) }
{
    let Some(len) = cells.len().checked_add(count) else {
        return Err(AllocError);
    };
    cells.resize_with(len, || None)
}
