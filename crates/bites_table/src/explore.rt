//! Makes the thread lists of a program and the transitions between them, before any search.

ghost use Rattle.std.specs.Prelude.{◌≡◌, ◌<◌, ◌≤◌, ◌+◌, ◌*◌, ◌⊎◌, ◌++◌, ℕ, [], true, is_some, length, map, reverse, None, Some, IfSome, IfOk, slice_index_or};
ghost use Rattle.bites_spec.specs.Program as programs;
ghost use Rattle.bites_spec.specs.Program.{IsWellFormed};
ghost use Rattle.bites_machine.specs.Bits.{has_bit};
ghost use Rattle.bites_table.specs.Kinds as kinds;
ghost use Rattle.bites_table.specs.Kinds.{kind_of, AreAlikeKinds};
ghost use Rattle.bites_spec.specs.Closure.{WalksTo};
ghost use Rattle.bites_table.specs.Takers.{AssertsAs, takers_by, taken};
ghost use Rattle.bites_table.specs.Transition.{starts_after, everywhere, cuts_off};
ghost use Rattle.bites_table.specs.AlikeKinds.{TellsApart};
ghost use Rattle.bites_table.specs.Table.{list_at, starts_of};
ghost use Rattle.bites_table.specs.Classes.{classes_of};
ghost use Rattle.bites_table.specs.Built.{kind_as, starts_as, frame_of, walking_of};
ghost use Rattle.bites_table.specs.Registers.{AreAssigned};
ghost use Rattle.bites_table.specs.declared.kind.Kind.TheVariants.{Edge};
ghost use Rattle.bites_table.specs.Graph as graphs;
ghost use Rattle.bites_table.specs.Graph.{table_of};
ghost use Rattle.bites_table.specs.Stays.{AreStays};
ghost use Rattle.bites_table.specs.Made.{Grows, IsMade, IsRow, AreNoted, IsRowOf, IsOutcomeOf, NamesAt, IsFilled, visits_of};
ghost use Rattle.bites_table.specs.Explored.{program_in, classes_in, AreRoots, IsContext, IsMaking, IsExplored};

pub(crate) mod after;
pub(crate) mod base;
pub(crate) mod graph;
pub(crate) mod index;
pub(crate) mod rests;
pub(crate) mod roots;
pub(crate) mod stays;
pub(crate) mod taken;

use crate::alike_kinds::AlikeKinds;
use crate::classes::Classes;
use crate::explore::after::{are_plain, kinds_after, kinds_among, kinds_before};
use crate::explore::base::{Base, Noted};
use crate::explore::graph::{Cell, Graph, Outcome};
use crate::explore::roots::{Roots, add_roots};
use crate::explore::stays::{Stays, find_stays};
use crate::explore::taken::{
    CLASSES, alike_classes, bit_of, bits_of, first_of, refused_classes, taken_classes,
};
use crate::kind::{Here, Kind};
use crate::registers::Assigned;
use crate::steps::MOST_REGISTERS;
use crate::table::AtOnePlace;
use crate::thread_list::{Starts, ThreadList, has_bit};
use crate::visited::{ROOM, Visited};
use crate::walk::{self, Walk};
use bites_machine::program::Program;
use std::alloc::{AllocError, Global};
use std::snapshot::Snapshot;

// How many looks at states a table may take, for each state of the program and in all.
const LOOKS_OF_A_STATE: usize = 75;

const MOST_LOOKS: usize = 1 << 20;

// No graph has more lists.
const MOST_LISTS: usize = 1 << 32;

/// How much may be taken to explore a program.
#[derive(Clone, Copy, Drop)]
pub struct Budget {
    /// The number of looks at states.
    pub looks: usize,
    /// The number of bytes from which on no more transitions are made.
    pub bytes: usize,
}

impl Budget {
    /// Returns a budget with so many bytes, and looks in proportion to the states of the program.
    pub fn new(program: &Program, bytes: usize) -> Budget {
        let looks = program.len().saturating_mul(LOOKS_OF_A_STATE);
        Budget {
            looks: looks.min(MOST_LOOKS),
            bytes,
        }
    }
}

/// The thread lists of a program with the transitions between them.
#[derive(Drop)]
pub(crate) struct Explored {
    pub graph: Graph,
    /// The lists that walk the start at each place.
    pub everywhere: Roots,
    /// The lists that walk the start at one place alone.
    pub here: Roots,
    /// Whether these are for the longest match.
    pub is_longest: bool,
    pub stays: Stays,
    /// Whether each transition is known that was asked for.
    pub is_whole: bool,
}

// What transitions are made of.
#[derive(Clone, Copy, Drop)]
pub(crate) struct Context<'a> {
    program: &'a Program,
    classes: &'a Classes,
    // For each class the kind before which assertions hold as before it, and the one after which they hold as after it.
    after: &'a [Kind],
    before: &'a [Kind],
    // Whether these are the same for all classes.
    is_plain: bool,
    // The kinds among the former.
    kinds: &'a [Kind],
    // For each state the classes that it takes.
    taken: &'a [u64],
}

// A list whose transitions begin at `first`, and its walk before a byte of a kind: the number of looks, where the start is
// walked after it, and where the transitions of the start begin if the walk ends with a noted one.
#[derive(Clone, Copy, Drop)]
struct Row {
    number: usize,
    first: usize,
    kind: Kind,
    looks: usize,
    starts: Starts,
    base: Option<usize>,
}

// The memory that is kept from one transition to the next, and what is left of the budget.
#[derive(Drop)]
pub(crate) struct Memory {
    // The walk of a list, without a noted one that it ends with.
    walk: Walk,
    // The states that both visited, if a walk ended so.
    seen: Vec<u32>,
    assigned: Assigned,
    base: Base,
    budget: Budget,
}

impl Memory {
    fn new(alloc: Global, program: &Program, budget: Budget) -> Result<Memory, AllocError>
        ensures { IfOk result (λ m. (p : programs.Program) (g : graphs.Graph) → AreNoted p g m.base) }
    {
        Ok(Memory {
            walk: Walk::new(alloc, program)?,
            seen: Vec::with_capacity(alloc, ROOM)?,
            assigned: Assigned::new(alloc),
            base: Base::new(alloc),
            budget,
        })
    }
}

/// Makes the thread lists that searches of the program come to, and the transitions between them, breadth first, as far as the
/// budget and the memory go. Those of searches at one place are left out if none are asked for and all others were made. The
/// error is out of memory for the first lists.
pub(crate) fn explore(
    alloc: Global,
    program: &Program,
    classes: &Classes,
    budget: Budget,
    at_one_place: AtOnePlace,
) -> Result<Explored, AllocError>
    ensures explored { IfOk result (λ e. IsExplored program.now.program (classes_of classes.now) e) }
    ensures stays { IfOk result (λ e. AreStays (table_of e.graph) (classes_of classes.now) e.stays.skips.items e.stays.lists.items) }
{
    let kinds = AlikeKinds::of(program);
    let after = kinds_after(alloc, classes, kinds)?;
    let before = kinds_before(alloc, classes, kinds)?;
    let (among, present) = kinds_among(&after);
    let taken = taken_classes(alloc, program, classes)?;
    let is_plain = are_plain(&after, &before);
    let context = Context {
        program,
        classes,
        after: &after,
        before: &before,
        is_plain,
        kinds: &among[..present],
        taken: &taken,
    };
    let mut memory = Memory::new(alloc, program, budget)?;
    let mut graph = Graph::new(alloc, after.len(), program.len())?;
    let followed = follow_roots(&context, &mut memory, &mut graph, kinds, at_one_place);
    let Some(followed) = followed else {
        return Err(AllocError);
    };
    memory.budget = budget;
    let Some(stays) = find_stays(alloc, &context, &mut memory, &graph) else {
        return Err(AllocError);
    };
    Ok(Explored {
        graph,
        everywhere: followed.everywhere,
        here: followed.here,
        is_longest: followed.is_longest,
        stays,
        is_whole: followed.is_whole,
    })
}

// The lists where searches from a place on begin, and those where searches at one place do, and whether all was made that was asked for.
#[derive(Clone, Copy, Drop)]
struct Followed {
    everywhere: Roots,
    here: Roots,
    is_longest: bool,
    is_whole: bool,
}

// Adds the lists where searches begin, and follows them. Those of searches at one place are followed if some are asked for, or if not all
// others were made. Returns `None` if memory or numbers run out for these lists.
fn follow_roots(
    context: &Context<'_>,
    memory: &mut Memory,
    graph: &mut Graph,
    kinds: AlikeKinds,
    at_one_place: AtOnePlace,
) -> Option<Followed>
    requires { IsMaking context.now graph.old memory.old.base }
    ensures making { IsMaking context.now graph.new memory.new.base }
    ensures everywhere { IfSome result (λ r. TellsApart (program_in context.now) kinds → AreRoots (program_in context.now) graph.new everywhere r.everywhere) }
    ensures here { IfSome result (λ r. TellsApart (program_in context.now) kinds → AreRoots (program_in context.now) graph.new (starts_of r.is_longest true true) r.here) }
{
    let everywhere = add_roots(graph, kinds, Starts::Everywhere)?;
    let is_whole = follow(context, memory, graph, 0) == graph.lists();
    let lists = graph.lists();
    let is_longest = matches!(at_one_place, AtOnePlace::Longest);
    let here = add_roots(graph, kinds, starts_here(is_longest))?;
    let followed = Followed {
        everywhere,
        here,
        is_longest,
        is_whole,
    };
    if is_whole && matches!(at_one_place, AtOnePlace::Nothing) {
        return Some(followed);
    }
    let are_all = follow(context, memory, graph, lists) == graph.lists();
    // Both are known, so there is no branch.
    Some(Followed {
        is_whole: is_whole & are_all,
        ..followed
    })
}

// Returns where a search at one place walks the start.
fn starts_here(is_longest: bool) -> Starts
    ensures { starts_as result ≡ starts_of is_longest true true }
{
    if is_longest {
        Starts::LongestHere
    } else {
        Starts::Here
    }
}

// Makes the transitions of all lists from this number on, also of those that are added meanwhile. Returns the number of the
// first list whose transitions are not all made.
fn follow(context: &Context<'_>, memory: &mut Memory, graph: &mut Graph, first: usize) -> usize
    requires { IsMaking context.now graph.old memory.old.base }
    ensures making { IsMaking context.now graph.new memory.new.base }
    ensures grows { Grows graph.old graph.new }
{
    for number in first..MOST_LISTS {
        if number >= graph.lists() || graph.bytes_with_row() > memory.budget.bytes {
            return number;
        }
        if make_row(context, memory, graph, number).is_none() {
            return number;
        }
    }
    first
}

// Makes the transitions of a list. Returns `None` if the budget or the memory was used up before.
fn make_row(
    context: &Context<'_>,
    memory: &mut Memory,
    graph: &mut Graph,
    number: usize,
) -> Option<()>
    requires making { IsMaking context.now graph.old memory.old.base }
    requires within { number < length graph.old.lists }
    ensures making { IsMaking context.now graph.new memory.new.base }
    ensures grows { Grows graph.old graph.new }
{
    let first = graph.add_row(number)?;
    for kind in context.kinds {
        let row = walk_row(context, memory, graph, number, first, *kind)?;
        let left = share(context, memory, graph, &row)?;
        add_cells(context, memory, graph, &row, left)?;
        note(context, memory, graph, &row)?;
    }
    Some(())
}

// Walks a list before a byte of the kind. Returns `None` if the budget or the memory was used up before.
fn walk_row(
    context: &Context<'_>,
    memory: &mut Memory,
    graph: &Graph,
    number: usize,
    first: usize,
    kind: Kind,
) -> Option<Row>
    requires within { number < length graph.now.lists }
    requires noted { AreNoted (program_in context.now) graph.now memory.old.base }
    ensures row { IfSome result (λ r. IsRowOf (program_in context.now) graph.now memory.new.walk memory.new.seen.items r) }
    ensures number { IfSome result (λ r. r.number ≡ number) }
    ensures first { IfSome result (λ r. r.first ≡ first) }
    ensures kind { IfSome result (λ r. r.kind ≡ kind) }
    ensures base { memory.new.base ≡ memory.old.base }
    ensures well_formed { IsWellFormed (program_in context.now) }
{
    let list = graph.list(number);
    let program = context.program;
    let here = Here {
        before: list.kind,
        after: kind,
    };
    let Memory {
        walk,
        seen,
        base,
        budget,
        assigned: _,
    } = memory;
    let looks = walk::walk_threads(walk, program, &list, &here, budget.looks)?;
    let row = Row {
        number,
        first,
        kind,
        looks,
        starts: list.starts,
        base: None,
    };
    if list.starts == Starts::Everywhere && walk.is_at_start(program) {
        if let Some(noted) = base.after(&walk.visited, &here) {
            return join_noted(noted, &walk.visited, seen, budget, row);
        }
    }
    walk_to_end(walk, program, &here, budget, row)
}

// Ends the walk of a row with a noted one. Returns `None` if the budget or the memory was used up before.
fn join_noted(
    noted: &Noted,
    visited: &Visited,
    seen: &mut Vec<u32>,
    budget: &mut Budget,
    row: Row,
) -> Option<Row>
    ensures row { IfSome result (λ r. r ≡ record {
      number = row.number;
      first = row.first;
      kind = row.kind;
      looks = row.looks + noted.now.looks;
      starts = row.starts;
      base = Some noted.now.first;
    }) }
    ensures seen { IfSome result (λ _. reverse seen.new.items ≡ noted.now.visited ++ visited.now) }
{
    seen.clear();
    visited.push_to(seen)?;
    noted.visited.push_to(seen)?;
    let looks = row.looks.checked_add(noted.looks)?;
    budget.looks = budget.looks.checked_sub(looks)?;
    Some(Row {
        looks,
        base: Some(noted.first),
        ..row
    })
}

// Walks what is left of a row. Returns `None` if the budget or the memory was used up before.
fn walk_to_end(
    walk: &mut Walk,
    program: &Program,
    here: &Here,
    budget: &mut Budget,
    row: Row,
) -> Option<Row>
    requires { row.looks ≤ budget.old.looks }
    ensures walks { IfSome result (λ r. WalksTo
        (takers_by (cuts_off (starts_as row.starts)) (kind_as here.now.before) (kind_as here.now.after)) program.now.program
        (walking_of walk.old row.looks) (walking_of walk.new r.looks)) }
    ensures over { IfSome result (λ _. walk.new.stack ≡ []) }
    ensures starts { IfSome result (λ r. starts_as r.starts ≡ starts_after (is_some walk.new.hit) (starts_as row.starts)) }
    ensures row { IfSome result (λ r. r ≡ record {
      number = row.number;
      first = row.first;
      kind = row.kind;
      looks = r.looks;
      starts = r.starts;
      base = row.base;
    }) }
{
    let looks = walk::walk_on(walk, program, here, row.starts, row.looks, budget.looks)?;
    budget.looks -= looks;
    Some(Row {
        looks,
        starts: row.starts.after(walk.hit.is_some()),
        ..row
    })
}

// Returns whether a character leads to lists of the kind.
fn is_led_to(context: &Context<'_>, kind: Kind) -> bool {
    for class in 0..context.classes.end().min(context.before.len()) {
        if context.before[class] == kind {
            return true;
        }
    }
    false
}

// Notes the walk of the start alone, if it was one that found nothing and that other lists may end with. Returns `None` if memory
// runs out.
fn note(context: &Context<'_>, memory: &mut Memory, graph: &Graph, row: &Row) -> Option<()>
    requires within { row.now.number < length graph.now.lists }
    requires begins { row.now.first ≡ row.now.number * graph.now.classes }
    requires row { IsRowOf (program_in context.now) graph.now memory.old.walk memory.old.seen.items row.now }
    requires noted { AreNoted (program_in context.now) graph.now memory.old.base }
    ensures { AreNoted (program_in context.now) graph.now memory.new.base }
{
    let list = graph.list(row.number);
    if row.starts != Starts::Everywhere
        || !list.threads.is_empty()
        || !is_led_to(context, list.kind)
    {
        return Some(());
    }
    match row.base {
        Some(_) => Some(()),
        None => {
            let here = Here {
                before: list.kind,
                after: row.kind,
            };
            let states = context.program.len();
            let visited = &mut memory.walk.visited;
            memory
                .base
                .note(visited, states, here, row.first, row.looks)
        }
    }
}

// Puts the transitions that a list shares with the start, if its walk ends with a noted one: those over classes that none of its own
// threads takes. Returns a bit for each of the first classes that is left.
fn share(context: &Context<'_>, memory: &Memory, graph: &mut Graph, row: &Row) -> Option<u64>
    requires making { IsMaking context.now graph.old memory.now.base }
    requires at { IsRow graph.old row.now.number row.now.first }
    requires within { row.now.number < length graph.old.lists }
    requires row { IsRowOf (program_in context.now) graph.old memory.now.walk memory.now.seen.items row.now }
    ensures { IsFilled (program_in context.now) (classes_in context.now) graph.old graph.new }
{
    if row.base.is_none() {
        return Some(bits_of(context.after.len()));
    }
    let refused = refused_classes(context.taken, &memory.walk.takers);
    for class in 0..context.after.len().min(CLASSES) {
        if has_bit(refused, class) && context.after[class] == row.kind {
            let outcome = graph.outcome_at(row.base, class)?;
            set_cell(memory, graph, row, class, outcome);
        }
    }
    Some(bits_of(context.after.len()) & !refused)
}

// Puts a transition of a list.
fn set_cell(memory: &Memory, graph: &mut Graph, row: &Row, class: usize, outcome: u32)
    requires at { IsRow graph.old row.now.number row.now.first }
    requires class { class < graph.old.classes }
    ensures { (p : programs.Program) (k : kinds.Classes) → row.now.number < length graph.old.lists → IsMade p k graph.old →
        AssertsAs p (list_at (table_of graph.old) row.now.number).kind (kind_as row.now.kind) (k.member class) →
        IsOutcomeOf p k graph.old memory.now.walk memory.now.seen.items row.now class outcome → IsFilled p k graph.old graph.new }
{
    let cell = Cell {
        outcome,
        seen: visits(memory, row),
        looks: Snapshot::of(&row.looks),
    };
    graph.set(row.first, class, cell);
}

// Returns what the walk of a row visited, for proofs.
fn visits(memory: &Memory, row: &Row) -> Snapshot<Vec<u32>>
    ensures { reverse result.value.items ≡ visits_of memory.now.walk memory.now.seen.items row.now.base }
{
    match row.base {
        None => memory.walk.visited.states(),
        Some(_) => Snapshot::of(&memory.seen),
    }
}

// Makes the transitions of a list over the classes that are left, after its walk.
fn add_cells(
    context: &Context<'_>,
    memory: &mut Memory,
    graph: &mut Graph,
    row: &Row,
    left: u64,
) -> Option<()>
    requires well_formed { IsWellFormed (program_in context.now) }
    requires making { IsMaking context.now graph.old memory.old.base }
    requires at { IsRow graph.old row.now.number row.now.first }
    requires within { row.now.number < length graph.old.lists }
    requires row { IsRowOf (program_in context.now) graph.old memory.old.walk memory.old.seen.items row.now }
    ensures making { IsMaking context.now graph.new memory.new.base }
    ensures grows { Grows graph.old graph.new }
    ensures len { length graph.new.cells ≡ length graph.old.cells }
    ensures walk { memory.new.walk ≡ memory.old.walk }
    ensures seen { memory.new.seen.items ≡ memory.old.seen.items }
{
    let mut left = left;
    let mut class = 0;
    for _ in 0..context.after.len() {
        class = first_left(left, class);
        if class >= context.after.len() {
            return Some(());
        }
        if context.after[class] == row.kind {
            let outcome = add_outcome(context, memory, graph, row, class)?;
            left = set_alike(context, memory, graph, row, class, outcome, left);
        }
        class += 1;
    }
    Some(())
}

// Returns the first class from this one on that has its bit, or is none of the first classes.
fn first_left(left: u64, class: usize) -> usize {
    if class >= CLASSES {
        return class;
    }
    let next = class + first_of(left >> class);
    next.min(CLASSES)
}

// Puts the transition over a class, and over each class after it that is alike, with its outcome. Returns what is left.
fn set_alike(
    context: &Context<'_>,
    memory: &Memory,
    graph: &mut Graph,
    row: &Row,
    class: usize,
    outcome: u32,
    left: u64,
) -> u64
    requires making { IsMaking context.now graph.old memory.now.base }
    requires at { IsRow graph.old row.now.number row.now.first }
    requires within { row.now.number < length graph.old.lists }
    requires class { class < length context.now.after.now }
    requires kind { row.now.kind ≡ slice_index_or context.now.after.now class Edge }
    requires outcome { IsOutcomeOf (program_in context.now) (classes_in context.now) graph.old memory.now.walk memory.now.seen.items
        row.now class outcome }
    ensures { IsFilled (program_in context.now) (classes_in context.now) graph.old graph.new }
{
    set_cell(memory, graph, row, class, outcome);
    // What stays the same meanwhile is read once.
    let context = *context;
    let row = *row;
    let mut left = left & !bit_of(class);
    let alike = alike_classes(context.taken, &memory.walk.takers, class, left);
    let mut others = alike;
    while others != 0 {
        let other = first_of(others);
        let rest = others & (others - 1);
        if other < context.after.len() && is_alike(&context, graph, &row, alike, class, other) {
            set_cell(memory, graph, &row, other, outcome);
            // Only the bit of this class differs in these two, and `left` has it.
            left ^= others ^ rest;
        }
        others = rest;
    }
    left
}

// Returns whether the list that the walk ends with, if there is one, leads over both classes to one outcome.
fn ends_alike(graph: &Graph, row: &Row, class: usize, other: usize) -> bool
    ensures { result ≡ true → (row.now.base ≡ None) ⊎ (n : ℕ) × NamesAt graph.now row.now.base class n × NamesAt graph.now row.now.base other n }
{
    if row.base.is_none() {
        return true;
    }
    let Some(outcome) = graph.outcome_at(row.base, class) else {
        return false;
    };
    graph.outcome_at(row.base, other) == Some(outcome)
}

// Returns whether a class has its bit, assertions see it as they see the other, as the character after and before, and the list
// that the walk ends with leads over both to one outcome.
fn is_alike(
    context: &Context<'_>,
    graph: &Graph,
    row: &Row,
    alike: u64,
    class: usize,
    other: usize,
) -> bool
    requires context { IsContext context.now }
    requires class { class < length context.now.after.now }
    requires other { other < length context.now.after.now }
    ensures bit { result ≡ true → has_bit alike other ≡ true }
    ensures after { result ≡ true → slice_index_or context.now.after.now other Edge
        ≡ slice_index_or context.now.after.now class Edge }
    ensures before { result ≡ true → AreAlikeKinds (program_in context.now)
        (kind_of ((classes_in context.now).member class)) (kind_of ((classes_in context.now).member other)) }
    ensures ends { result ≡ true → (row.now.base ≡ None) ⊎ (n : ℕ) × NamesAt graph.now row.now.base class n × NamesAt graph.now row.now.base other n }
{
    has_bit(alike, other)
        && have_same_kinds(context, class, other)
        && ends_alike(graph, row, class, other)
}

// Returns whether the same kinds stand for both classes.
fn have_same_kinds(context: &Context<'_>, class: usize, other: usize) -> bool
    requires context { IsContext context.now }
    requires class { class < length context.now.after.now }
    requires other { other < length context.now.after.now }
    ensures after { result ≡ true → slice_index_or context.now.after.now other Edge
        ≡ slice_index_or context.now.after.now class Edge }
    ensures before { result ≡ true → (class < length context.now.before.now) × (other < length context.now.before.now)
        × (slice_index_or context.now.before.now other Edge ≡ slice_index_or context.now.before.now class Edge) }
{
    context.is_plain
        || class.max(other) < context.before.len()
            && context.after[other] == context.after[class]
            && context.before[other] == context.before[class]
}

// Adds the outcome of a walk over a class. Returns its number.
fn add_outcome(
    context: &Context<'_>,
    memory: &mut Memory,
    graph: &mut Graph,
    row: &Row,
    class: usize,
) -> Option<u32>
    requires well_formed { IsWellFormed (program_in context.now) }
    requires making { IsMaking context.now graph.old memory.old.base }
    requires within { row.now.number < length graph.old.lists }
    requires class { class < length context.now.after.now }
    requires kind { row.now.kind ≡ slice_index_or context.now.after.now class Edge }
    requires row { IsRowOf (program_in context.now) graph.old memory.old.walk memory.old.seen.items row.now }
    ensures making { IsMaking context.now graph.new memory.new.base }
    ensures grows { Grows graph.old graph.new }
    ensures cells { graph.new.cells ≡ graph.old.cells }
    ensures walk { memory.new.walk ≡ memory.old.walk }
    ensures seen { memory.new.seen.items ≡ memory.old.seen.items }
    ensures outcome { IfSome result (IsOutcomeOf (program_in context.now) (classes_in context.now) graph.new memory.new.walk memory.new.seen.items
        row.now class) }
{
    if class >= context.before.len() {
        return None;
    }
    assign(context, memory, graph, row, class)?;
    // A search has rows for no more registers.
    let registers = memory.assigned.moves.len();
    if registers > MOST_REGISTERS {
        return None;
    }
    let next = ThreadList {
        threads: &memory.assigned.threads,
        starts: row.starts,
        kind: context.before[class],
    };
    let lists = graph.lists();
    let next = graph.add_list(&next, registers)?;
    let outcome = Outcome {
        next,
        moves: &memory.assigned.moves,
        hit: memory.walk.hit,
    };
    graph.add_outcome(&outcome, next as usize >= lists)
}

// Assigns the threads that take a class at the end of a walk, with those of the list that it ends with.
fn assign(
    context: &Context<'_>,
    memory: &mut Memory,
    graph: &Graph,
    row: &Row,
    class: usize,
) -> Option<()>
    requires well_formed { IsWellFormed (program_in context.now) }
    requires making { IsMaking context.now graph.now memory.old.base }
    requires class { class < length context.now.after.now }
    requires kind { row.now.kind ≡ slice_index_or context.now.after.now class Edge }
    ensures assigned { IfSome result (λ _. (is : IsRowOf (program_in context.now) graph.now memory.new.walk memory.new.seen.items row.now) →
        AreAssigned memory.new.assigned (taken (program_in context.now) ((classes_in context.now).member class)
        (map frame_of memory.new.walk.takers.items ++ is.rest))) }
    ensures walk { memory.new.walk ≡ memory.old.walk }
    ensures seen { memory.new.seen.items ≡ memory.old.seen.items }
    ensures base { memory.new.base ≡ memory.old.base }
{
    let ch = context.classes.member(class);
    let takers = &memory.walk.takers;
    memory
        .assigned
        .assign(context.program, context.taken, takers, class, ch)?;
    match row.base {
        None => Some(()),
        Some(_) => {
            let outcome = graph.outcome(graph.outcome_at(row.base, class)? as usize);
            let rest = graph.list(outcome.next as usize);
            memory.assigned.push_moved(rest.threads, outcome.moves)
        }
    }
}
