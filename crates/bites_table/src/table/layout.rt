//! Lays a graph of thread lists out as a table.

ghost use Rattle.std.specs.Prelude.{◌≡◌, ◌≢◌, ◌<◌, ◌≤◌, ◌+◌, ◌*◌, ◌++◌, ℕ, suc, List, Option, true, false, None, Some, IfSome, length, map, option_map, drop, slice_get, bit_and, ◌==◌, if◌then◌else◌};
ghost use Rattle.std.specs.Option.{option_flatten};
ghost use Rattle.std.specs.Vec.Iter.{into_iter_items, into_iter_len};
ghost use Rattle.bites_spec.specs.Walks.{Among};
ghost use Rattle.bites_machine.specs.Bits.{has_bit};
ghost use Rattle.bites_table.specs.Built.{list_of, source_of};
ghost use Rattle.bites_table.specs.Sources.{row_of_register, write};
ghost use Rattle.bites_table.specs.Classes.{classes_of};
ghost use Rattle.bites_table.specs.Stays.{AreStays};
ghost use Rattle.bites_table.specs.Graph.{cell_at, table_of, AreHeld};
ghost use Rattle.bites_table.specs.Graph as graphs;
ghost use Rattle.bites_table.specs.Stored.{outcome_of, cell_of};
ghost use Rattle.bites_table.specs.Steps.{NameRegisters, most_registers, with_spare};
ghost use Rattle.bites_table.specs.Packed.{Packed, IsHeldHit, BeginsRow, classes_in, is_dead, Tells};
ghost use Rattle.bites_table.specs.LaidOut.{register_thread, AreHeldBelow, AreFirstLists, AreFirstActs, masked, IsOwn, IsKept, IsKeptOrBegun, IsWritten, WritesIndex, DoesNothing, PassesByBits, IndicesByBits, EndsHit, HitsByBits, WholeHitsByBits, GoesOnByBits, EndsByBits, IsAct, IsNamed, Names, Fits, AreLaid};
ghost use Rattle.bites_table.specs.Explored.{HasOneRoot};
ghost use Rattle.bites_table.specs.Layout.{AreCells, AreWithin};
ghost use Rattle.bites_table.specs.declared.thread_list.Thread.{Thread};
ghost use Rattle.bites_table.specs.declared.steps.Step.{Step};
ghost use Rattle.bites_table.specs.declared.table.act.Act as act;

use crate::classes::Classes;
use crate::explore::Explored;
use crate::explore::graph::{Cell as GraphCell, Graph, Outcome};
use crate::explore::roots::Roots;
use crate::explore::stays::Stays;
use crate::steps::{MOST_REGISTERS, SPARE, Step};
use crate::table::act::{Act, Part};
use crate::table::cell::{ALL, Cell, ENDS, MORE, MORE_FOR_ALL, STEPS, UNKNOWN, WHOLE};
use crate::table::sequence::{keeps_row, push_steps};
use crate::table::{ListEntry, Table};
use crate::thread_list::{Frame, Source, Thread, ThreadList};
use bites_machine::vm::RegisterThread;
use std::alloc::Global;
use std::snapshot::Snapshot;
use std::vec::IntoIter;

// The bits of the searches that look at what a transition does: all, and those for slots.
const EACH: u8 = 7;

const FOR_SLOTS: u8 = 6;

// The bits of a cell over which each search has more to do.
const BUSY: u8 = EACH | MORE | MORE_FOR_ALL | STEPS | ENDS;

// The bits of the first two slots.
const FIRST_SLOTS: u64 = 3;

/// Lays out the graph of thread lists. Returns `None` if it doesn't fit, or if memory runs out.
pub(super) fn lay_out(
    alloc: Global,
    slots: usize,
    classes: Classes,
    explored: Explored,
) -> Option<Table>
    requires stays { AreStays (table_of explored.graph) (classes_of classes) explored.stays.skips.items explored.stays.lists.items }
    ensures intervals { IfSome result (λ t. t.intervals ≡ classes) }
    ensures graph { IfSome result (λ t. t.graph ≡ explored.graph) }
    ensures everywhere { IfSome result (λ t. t.everywhere ≡ explored.everywhere) }
    ensures here { IfSome result (λ t. t.here ≡ explored.here) }
    ensures longest { IfSome result (λ t. t.longest ≡ explored.is_longest) }
    ensures classes { IfSome result (λ t. t.graph.classes ≡ (classes_in t).len) }
{
    let Explored {
        graph,
        everywhere,
        here,
        is_longest,
        stays,
        is_whole,
    } = explored;
    if !fits(&graph, &classes, everywhere, here) {
        return None;
    }
    let value = Snapshot::of(&graph);
    let Lists { entries, threads } = lists_of(alloc, &graph)?;
    let stride = classes.len() + 1;
    let Acts {
        acts,
        steps,
        names,
        ..
    } = acts_of(alloc, &graph, &stays, slots, stride)?;
    let cells = cells_of(alloc, graph, &stays, &names, stride)?;
    Some(Table {
        classes,
        slots,
        stride,
        cells,
        acts,
        steps,
        lists: entries,
        threads,
        stays,
        everywhere,
        here,
        is_longest,
        has_one_root: have_one_root(everywhere, here),
        is_whole,
        graph: value,
    })
}

// Returns whether the graph has these classes, and the lists of these roots.
fn fits(graph: &Graph, classes: &Classes, everywhere: Roots, here: Roots) -> bool
    ensures classes { result ≡ true → graph.now.classes ≡ (classes_of classes.now).len }
    ensures everywhere { result ≡ true → AreWithin (length graph.now.lists) everywhere }
    ensures here { result ≡ true → AreWithin (length graph.now.lists) here }
{
    let lists = graph.lists();
    graph.classes() == classes.len() && are_within(everywhere, lists) && are_within(here, lists)
}

// Returns whether the lists of the roots are there.
fn are_within(roots: Roots, lists: usize) -> bool
    ensures { result ≡ true → AreWithin lists roots }
{
    (roots.edge as usize) < lists
        && (roots.line_feed as usize) < lists
        && (roots.carriage_return as usize) < lists
        && (roots.word_byte as usize) < lists
        && (roots.other as usize) < lists
}

// Returns whether searches begin at one list, whatever byte stands before, and also those from one place.
fn have_one_root(everywhere: Roots, here: Roots) -> bool
    ensures { result ≡ true → HasOneRoot everywhere × HasOneRoot here }
{
    everywhere.has_one_root() && here.has_one_root()
}

// Entries of lists, and the threads of all.
#[derive(Drop)]
struct Lists {
    entries: Vec<ListEntry>,
    threads: Vec<RegisterThread>,
}

fn lists_of(alloc: Global, graph: &Graph) -> Option<Lists>
    ensures { IfSome result (AreFirstLists graph.now (length graph.now.lists)) }
{
    let mut lists = Lists {
        entries: Vec::with_capacity(alloc, graph.lists()).ok()?,
        threads: Vec::with_capacity(alloc, graph.lists()).ok()?,
    };
    for number in 0..graph.lists() {
        push_list(&mut lists, graph, number)?;
    }
    Some(lists)
}

// Adds the entry of a list.
fn push_list(lists: &mut Lists, graph: &Graph, number: usize) -> Option<()>
    requires within { number < length graph.now.lists }
    requires first { AreFirstLists graph.now number lists.old }
    ensures { IfSome result (λ _. AreFirstLists graph.now (number + 1) lists.new) }
{
    let list = graph.list(number);
    let from = u32::try_from(lists.threads.len()).ok()?;
    push_threads(&mut lists.threads, list.threads)?;
    let to = u32::try_from(lists.threads.len()).ok()?;
    let entry = ListEntry {
        threads: Part { from, to },
    };
    lists.entries.push(entry).ok()?;
    Some(())
}

fn push_threads(all: &mut Vec<RegisterThread>, threads: &[Thread]) -> Option<()>
    ensures threads { IfSome result (λ _. all.new.items ≡ all.old.items ++ map register_thread threads.now) }
    ensures held { IfSome result (λ _. AreHeldBelow most_registers all.old.items → AreHeldBelow most_registers all.new.items) }
{
    for thread in threads {
        let Thread { state, register } = *thread;
        if register as usize >= MOST_REGISTERS {
            return None;
        }
        all.push(RegisterThread { state, register }).ok()?;
    }
    Some(())
}

// What outcomes do, with the steps of all and with what their cells have, and memory in which steps are found.
#[derive(Drop)]
struct Acts {
    acts: Vec<Act>,
    steps: Vec<Step>,
    found: Vec<Step>,
    names: Vec<Name>,
}

// What the cells of an outcome have.
#[derive(Clone, Copy, Drop)]
struct Name {
    next: u32,
    act: u16,
    doing: u8,
    begins: u8,
}

fn acts_of(alloc: Global, graph: &Graph, stays: &Stays, slots: usize, stride: usize) -> Option<Acts>
    ensures { IfSome result (AreFirstActs graph.now slots stride (length graph.now.outcomes)) }
{
    let mut acts = Acts {
        acts: Vec::with_capacity(alloc, graph.outcomes()).ok()?,
        steps: Vec::with_capacity(alloc, graph.outcomes()).ok()?,
        found: Vec::new(alloc),
        names: Vec::with_capacity(alloc, graph.outcomes()).ok()?,
    };
    for number in 0..graph.outcomes() {
        push_act(&mut acts, graph, stays, slots, stride, number)?;
    }
    Some(acts)
}

// Adds what an outcome does.
fn push_act(
    acts: &mut Acts,
    graph: &Graph,
    stays: &Stays,
    slots: usize,
    stride: usize,
    number: usize,
) -> Option<()>
    requires within { number < length graph.now.outcomes }
    requires first { AreFirstActs graph.now slots stride number acts.old }
    ensures { IfSome result (λ _. AreFirstActs graph.now slots stride (number + 1) acts.new) }
{
    let outcome = graph.outcome(number);
    if outcome.next as usize >= graph.lists() || !has_register(outcome.hit) {
        return None;
    }
    let next = graph.list(outcome.next as usize);
    let stops = has_rest(stays, outcome.next as usize);
    let act = act_of(
        &mut acts.steps,
        &mut acts.found,
        &outcome,
        &next,
        stops,
        slots,
    );
    acts.acts.push(act).ok()?;
    acts.names.push(name_of(act, number, stride)).ok()?;
    Some(())
}

// Returns what the cells of an outcome have. Nothing is known there if a number doesn't fit.
fn name_of(act: Act, number: usize, stride: usize) -> Name
    ensures { Names act number stride result }
{
    match name_in(act, number, stride) {
        Some(name) => name,
        None => Name {
            next: 0,
            act: 0,
            doing: ALL,
            begins: SPARE,
        },
    }
}

fn name_in(act: Act, number: usize, stride: usize) -> Option<Name>
    ensures { IfSome result (IsNamed act number stride) }
{
    let number = u16::try_from(number).ok()?;
    Some(Name {
        next: row_of(act.next as usize, stride)?,
        act: named(act, number),
        doing: act.doing,
        begins: act.begins,
    })
}

// Returns whether a search passes all that is left of the haystack at once from the list.
fn has_rest(stays: &Stays, list: usize) -> bool {
    match stays.lists.get(list) {
        None => false,
        Some(stay) => stay.rest.is_some(),
    }
}

// Returns whether the row of a hit comes from a register that is there, if it comes from one.
fn has_register(hit: Option<Frame>) -> bool
    ensures { result ≡ true → IsHeldHit hit }
{
    let Some(frame) = hit else {
        return true;
    };
    match frame.source.register {
        None => true,
        Some(register) => (register as usize) < MOST_REGISTERS,
    }
}

// What a search has to look at for an outcome: the bits of its cells, the register whose row begins where a search for two slots has
// not to look, or ends where it has only to keep a hit, and the index of the slot that one for all slots writes where it has not to
// look.
#[derive(Clone, Copy, Drop)]
struct Looks {
    doing: u8,
    begins: u8,
    index: u16,
}

// Each search has to look, and has more to do.
const BUSY_LOOKS: Looks = Looks {
    doing: BUSY,
    begins: SPARE,
    index: 0,
};

// Returns what an outcome does. If no steps make its moves, it is not known. If a search stops at the next list, since it
// passes all that is left at once from there, no search goes on without a look.
fn act_of(
    steps: &mut Vec<Step>,
    found: &mut Vec<Step>,
    outcome: &Outcome<'_>,
    next: &ThreadList<'_>,
    stops: bool,
    slots: usize,
) -> Act
    ensures grows { (more : List Step) × (steps.new.items ≡ steps.old.items ++ more) }
    ensures names { NameRegisters steps.old.items → NameRegisters steps.new.items }
    ensures act { IsAct slots steps.new.items (outcome_of outcome.now) (list_of next.now) result }
{
    let unknown = Part { from: 0, to: 0 };
    let each = Looks {
        doing: ALL,
        begins: SPARE,
        index: 0,
    };
    if !are_held(next.threads, outcome.moves.len()) {
        return act_with(outcome, next, unknown, each);
    }
    match push_steps(steps, found, outcome.moves) {
        Some(part) => act_with(outcome, next, part, looks_of(outcome, next, stops, slots)),
        None => act_with(outcome, next, unknown, each),
    }
}

// Returns what a search has to look at, where each thread has one of the registers of the moves.
fn looks_of(outcome: &Outcome<'_>, next: &ThreadList<'_>, stops: bool, slots: usize) -> Looks
    requires held { AreHeld (length outcome.now.moves.now) next.now.threads.now }
    requires few { length outcome.now.moves.now ≤ most_registers }
    ensures passes { PassesByBits slots (outcome_of outcome.now) (list_of next.now) result.begins result.index result.doing }
    ensures indices { IndicesByBits result.doing }
    ensures hits { HitsByBits (outcome_of outcome.now) (list_of next.now) result.begins result.doing }
    ensures whole_hits { WholeHitsByBits (outcome_of outcome.now) (list_of next.now) result.doing }
    ensures goes { GoesOnByBits (outcome_of outcome.now) (list_of next.now) result.doing }
    ensures ends { EndsByBits (outcome_of outcome.now) (list_of next.now) result.begins result.doing }
{
    if outcome.hit.is_some() {
        return hit_looks(outcome, next, stops);
    }
    if stops || is_dead(next) {
        return BUSY_LOOKS;
    }
    let Some(begins) = begun_register(outcome.moves) else {
        return Looks {
            doing: FOR_SLOTS | MORE | MORE_FOR_ALL | ENDS,
            begins: SPARE,
            index: 0,
        };
    };
    match written_index(outcome.moves, slots) {
        Some(index) => Looks {
            doing: UNKNOWN | MORE | MORE_FOR_ALL | STEPS | ENDS,
            begins,
            index,
        },
        None => Looks {
            doing: WHOLE | MORE | MORE_FOR_ALL | ENDS,
            begins,
            index: 0,
        },
    }
}

// Returns what a search has to look at for an outcome where somebody comes to a match.
fn hit_looks(outcome: &Outcome<'_>, next: &ThreadList<'_>, stops: bool) -> Looks
    ensures passes { (slots : ℕ) → PassesByBits slots (outcome_of outcome.now) (list_of next.now) result.begins result.index result.doing }
    ensures indices { IndicesByBits result.doing }
    ensures hits { HitsByBits (outcome_of outcome.now) (list_of next.now) result.begins result.doing }
    ensures whole_hits { WholeHitsByBits (outcome_of outcome.now) (list_of next.now) result.doing }
    ensures goes { GoesOnByBits (outcome_of outcome.now) (list_of next.now) result.doing }
    ensures ends { EndsByBits (outcome_of outcome.now) (list_of next.now) result.begins result.doing }
{
    let Some(begins) = ended_register(outcome.hit) else {
        return BUSY_LOOKS;
    };
    if is_dead(next) {
        return Looks {
            doing: EACH | MORE | MORE_FOR_ALL | STEPS,
            begins,
            index: 0,
        };
    }
    if stops || !are_kept(next.threads, outcome.moves, FIRST_SLOTS) {
        return BUSY_LOOKS;
    }
    if are_kept(next.threads, outcome.moves, u64::MAX) {
        return Looks {
            doing: EACH | STEPS | ENDS,
            begins,
            index: 0,
        };
    }
    Looks {
        doing: EACH | MORE_FOR_ALL | STEPS | ENDS,
        begins,
        index: 0,
    }
}

// Returns the index, counted over all rows, of the slot that a search for all slots writes, if it has no more to do than that.
fn written_index(moves: &[Source], slots: usize) -> Option<u16>
    requires few { length moves.now ≤ most_registers }
    ensures within { IfSome result (λ w. w < with_spare * slots) }
    ensures alike { IfSome result (λ w. (r : ℕ) → r < length moves.now → WritesIndex moves.now slots w r) }
{
    let (register, slot) = only_written(moves)?;
    if slot as usize >= slots {
        return None;
    }
    let row = row_of(register as usize, slots)?;
    let index = row.checked_add(slot)?;
    short(index)
}

// Returns the only register that gets another row than its own, and the slot that is written there, or a slot of the spare register
// if there is none. Each other keeps its row.
fn only_written(moves: &[Source]) -> Option<(u32, u32)>
    requires few { length moves.now ≤ most_registers }
    ensures few { IfSome result (λ w. w.0 < with_spare) }
    ensures written { IfSome result (λ w. (r : ℕ) → r < length moves.now → IsWritten moves.now w.0 w.1 r) }
{
    let mut register = SPARE as u32;
    let mut slot = 0;
    for number in 0..moves.len() {
        if !keeps_row(moves[number], number as u32) {
            slot = moves[number].writes.trailing_zeros();
            if register != SPARE as u32 || !is_written(moves[number], number as u32, slot) {
                return None;
            }
            register = number as u32;
        }
    }
    Some((register, slot))
}

// Returns whether the source is the row of the register in which the slot is written.
fn is_written(source: Source, register: u32, slot: u32) -> bool
    ensures { result ≡ true → source_of source ≡ write slot (row_of_register register) }
{
    match Source::of_register(register).write(slot) {
        Some(written) => source == written,
        None => false,
    }
}

// Returns the register whose row ends in a hit, if of the first two slots the second alone is written.
fn ended_register(hit: Option<Frame>) -> Option<u8>
    ensures few { IfSome result (λ r. r < most_registers) }
    ensures ends { IfSome result (EndsHit hit) }
{
    let frame = hit?;
    let register = frame.source.register?;
    if register as usize >= MOST_REGISTERS
        || frame.source.has_written(0)
        || !frame.source.has_written(1)
    {
        return None;
    }
    u8::try_from(register).ok()
}

// Returns the register whose row begins, or the spare one, if each other keeps its row in the first two slots.
fn begun_register(moves: &[Source]) -> Option<u8>
    requires few { length moves.now ≤ most_registers }
    ensures few { IfSome result (λ r. r < with_spare) }
    ensures begun { IfSome result (λ r. (t : Thread) → t.register < length moves.now → IsKeptOrBegun moves.now r t) }
{
    let mut begins = SPARE;
    for register in 0..moves.len() {
        if !is_own(moves[register], register as u32, FIRST_SLOTS) {
            if begins != SPARE || !is_begun(moves[register]) {
                return None;
            }
            begins = register as u8;
        }
    }
    Some(begins)
}

// Returns whether a row begins: of the first two slots the first is written, and no register is its source.
fn is_begun(source: Source) -> bool
    ensures { result ≡ true → BeginsRow (source_of source) }
{
    source.register.is_none() && source.has_written(0) && !source.has_written(1)
}

// Returns whether each thread has one of so many registers.
fn are_held(threads: &[Thread], registers: usize) -> bool
    ensures { result ≡ true → AreHeld registers threads.now }
{
    for thread in threads {
        if thread.register as usize >= registers {
            return false;
        }
    }
    true
}

fn act_with(outcome: &Outcome<'_>, next: &ThreadList<'_>, steps: Part, looks: Looks) -> Act
    ensures { result ≡ record { hit = outcome.now.hit; steps = steps; next = outcome.now.next; is_over = is_dead (list_of next.now); doing = looks.doing; begins = looks.begins; index = looks.index } }
{
    Act {
        hit: outcome.hit,
        steps,
        next: outcome.next,
        is_over: is_dead(next),
        doing: looks.doing,
        begins: looks.begins,
        index: looks.index,
    }
}

// Returns whether no thread is left and none begins.
fn is_dead(list: &ThreadList<'_>) -> bool
    ensures { result ≡ is_dead (list_of list.now) }
{
    !list.starts.is_walked() && list.threads.is_empty()
}

/// Returns whether an outcome only leads on: nobody comes to a match, the search is not over, and each thread keeps its row.
pub(crate) fn does_nothing(outcome: &Outcome<'_>, next: &ThreadList<'_>) -> bool
    ensures { result ≡ true → DoesNothing (outcome_of outcome.now) (list_of next.now) }
{
    outcome.hit.is_none() && !is_dead(next) && are_kept(next.threads, outcome.moves, u64::MAX)
}

// Returns whether each thread has the row of the register of its own number, and no slot of the mask is written there.
fn are_kept(threads: &[Thread], moves: &[Source], mask: u64) -> bool
    ensures { result ≡ true → (t : Thread) → Among threads.now t → IsKept moves.now mask t }
{
    for thread in threads {
        if !is_kept(*thread, moves, mask) {
            return false;
        }
    }
    true
}

fn is_kept(thread: Thread, moves: &[Source], mask: u64) -> bool
    ensures { result ≡ true → IsKept moves.now mask thread }
{
    let register = thread.register;
    if register as usize >= moves.len() {
        return false;
    }
    is_own(moves[register as usize], register, mask)
}

// Returns whether the source is the row of the register, in which no slot of the mask is written.
fn is_own(source: Source, register: u32, mask: u64) -> bool
    ensures { result ≡ true → IsOwn register mask source }
{
    source.register == Some(register) && is_clear(source.writes, mask)
}

// Returns whether no slot of the mask is written.
fn is_clear(writes: u64, mask: u64) -> bool
    ensures { result ≡ true → (k : ℕ) → masked mask k ≡ true → has_bit writes k ≡ false }
{
    writes & mask == 0
}

// Returns the cells of all lists, row after row. Each row has one more, in which nothing is known.
fn cells_of(
    alloc: Global,
    graph: Graph,
    stays: &Stays,
    names: &[Name],
    stride: usize,
) -> Option<Vec<Cell>>
    ensures { IfSome result (λ cells. (x : Packed) → x.graph ≡ graph → Fits x names.now stride → AreCells x cells.items) }
{
    let lists = graph.lists();
    let classes = graph.classes();
    let mut left = graph.into_cells().into_iter();
    let mut cells = Vec::with_capacity(alloc, lists.checked_mul(stride)?).ok()?;
    for number in 0..lists {
        let skips = skipping_row(stays, number, stride);
        push_row(alloc, &mut cells, &mut left, classes, names, skips)?;
    }
    Some(cells)
}

// Returns where the cells of a list begin, if a search skips bytes from it.
fn skipping_row(stays: &Stays, list: usize, stride: usize) -> Option<u32> {
    stays.lists.get(list)?.skip?;
    row_of(list, stride)
}

// Adds the row of a list. Its last class is that of the end. A search skips bytes from few lists. For the others the compiler leaves out
// of the loop what is tested for each cell.
fn push_row(
    alloc: Global,
    cells: &mut Vec<Cell>,
    left: &mut IntoIter<Option<GraphCell>>,
    classes: usize,
    names: &[Name],
    skips: Option<u32>,
) -> Option<()>
    requires { into_iter_len left.old ≡ length (into_iter_items left.old) }
    ensures len { IfSome result (λ _. into_iter_len left.new ≡ length (into_iter_items left.new)) }
    ensures row { IfSome result (λ _. (x : Packed) (stride n : ℕ) → x.graph.classes ≡ classes → Fits x names.now stride →
        AreLaid x n 0 (into_iter_items left.old) cells.old.items →
        AreLaid x (suc n) 0 (into_iter_items left.new) cells.new.items) }
{
    let before_end = classes.checked_sub(1)?;
    match skips {
        None => push_cells(alloc, cells, left, before_end, names, None)?,
        Some(_) => push_cells(alloc, cells, left, before_end, names, skips)?,
    }
    let end = next_cell(left);
    cells.push(packed(alloc, end, names, skips, true)).ok()?;
    cells.push(unknown(alloc)).ok()?;
    Some(())
}

// Adds the cells of so many classes of a list, from the first one on. The class of the end is not among them.
#[inline(always)]
fn push_cells(
    alloc: Global,
    cells: &mut Vec<Cell>,
    left: &mut IntoIter<Option<GraphCell>>,
    count: usize,
    names: &[Name],
    skips: Option<u32>,
) -> Option<()>
    requires { into_iter_len left.old ≡ length (into_iter_items left.old) }
    ensures len { IfSome result (λ _. into_iter_len left.new ≡ length (into_iter_items left.new)) }
    ensures row { IfSome result (λ _. (x : Packed) (stride n : ℕ) → count < x.graph.classes → Fits x names.now stride →
        AreLaid x n 0 (into_iter_items left.old) cells.old.items →
        AreLaid x n count (into_iter_items left.new) cells.new.items) }
{
    cells.reserve(count).ok()?;
    for _ in 0..count {
        let cell = next_cell(left);
        cells.push_reserved(packed(alloc, cell, names, skips, false));
    }
    Some(())
}

// Returns the next transition, if it is known.
fn next_cell(left: &mut IntoIter<Option<GraphCell>>) -> Option<GraphCell>
    requires { into_iter_len left.old ≡ length (into_iter_items left.old) }
    ensures len { into_iter_len left.new ≡ length (into_iter_items left.new) }
    ensures next { (cells : List (Option graphs.Cell)) (k : ℕ) → map (option_map cell_of) (into_iter_items left.old) ≡ drop k cells →
        (option_map cell_of result ≡ option_flatten (slice_get cells k))
        × (map (option_map cell_of) (into_iter_items left.new) ≡ drop (suc k) cells) }
{
    match left.next() {
        Some(cell) => cell,
        None => None,
    }
}

// Returns the cell of a transition, in which nothing is known if the transition isn't, or if its outcome has no name.
fn packed(
    alloc: Global,
    cell: Option<GraphCell>,
    names: &[Name],
    skips: Option<u32>,
    is_end: bool,
) -> Cell
    ensures { (x : Packed) (stride n c : ℕ) → Fits x names.now stride → cell_at x.graph n c ≡ option_map cell_of cell → Tells x n c result }
{
    let Some(cell) = cell else {
        return unknown(alloc);
    };
    match known(cell, names, skips, is_end) {
        Some(cell) => cell,
        None => unknown(alloc),
    }
}

// Returns the cell of a transition, or `None` if its outcome has no name.
fn known(cell: GraphCell, names: &[Name], skips: Option<u32>, is_end: bool) -> Option<Cell>
    ensures { IfSome result (λ a. (x : Packed) (stride n c : ℕ) → Fits x names.now stride → cell_at x.graph n c ≡ Some (cell_of cell) →
        Tells x n c a) }
{
    let GraphCell {
        outcome,
        seen,
        looks,
    } = cell;
    if outcome as usize >= names.len() {
        return None;
    }
    let name = names[outcome as usize];
    if !is_looked_at(name, skips, is_end) {
        return Some(Cell {
            next: name.next,
            act: name.act,
            doing: name.doing,
            begins: name.begins,
            seen,
            looks,
        });
    }
    let act = short(outcome)?;
    Some(Cell {
        next: name.next,
        act,
        doing: BUSY,
        begins: SPARE,
        seen,
        looks,
    })
}

// Returns whether a search looks at a cell with this name whatever its transition does, in a row where bytes may be skipped. It looks at the
// cells by which the list leads back to itself there, so that it skips. It doesn't look where another list leads there: in dates and addresses
// there is often one byte alone between two numbers, and a transition passes that sooner. No loop passes the end, so its cell names what is done.
fn is_looked_at(name: Name, skips: Option<u32>, is_end: bool) -> bool
    ensures { result ≡ true → name.doing ≢ 255 }
{
    let is_unnamed = is_end && name.doing & UNKNOWN != 0;
    (is_unnamed || skips == Some(name.next)) && name.doing != ALL
}

// Returns the index of a slot where the cells of an act have one, or else the number of the act.
fn named(act: Act, number: u16) -> u16
    ensures { result ≡ (if bit_and act.doing 4 == 0 then act.index else number) }
{
    if act.doing & WHOLE == 0 {
        act.index
    } else {
        number
    }
}

fn short(number: u32) -> Option<u16>
    ensures { IfSome result (λ n. n ≡ number) }
{
    u16::try_from(number).ok()
}

fn row_of(list: usize, stride: usize) -> Option<u32>
    ensures { IfSome result (λ row. row ≡ list * stride) }
{
    u32::try_from(list.checked_mul(stride)?).ok()
}

// Returns a cell in which nothing is known.
fn unknown(alloc: Global) -> Cell
    ensures { (x : Packed) (n c : ℕ) → Tells x n c result }
{
    Cell {
        next: 0,
        act: 0,
        doing: ALL,
        begins: SPARE,
        seen: Snapshot::of(&Vec::new(alloc)),
        looks: Snapshot::of(&0),
    }
}
