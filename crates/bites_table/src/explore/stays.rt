//! Lists that lead back to themselves, which a search leaves at once.

ghost use Rattle.std.specs.Prelude.{◌≡◌, ◌<◌, ◌∷◌, ◌++◌, ℕ, List, false, true, length, Some, IfSome, reverse, slice_get, slice_index_or};
ghost use Rattle.bites_spec.specs.Walks.{Among};
ghost use Rattle.bites_table.specs.Table.{Table, list_at};
ghost use Rattle.bites_table.specs.Classes.{classes_of};
ghost use Rattle.bites_table.specs.Graph.{table_of};
ghost use Rattle.bites_table.specs.Built.{kind_as};
ghost use Rattle.bites_table.specs.Made.{IsWalked};
ghost use Rattle.bites_table.specs.Explored.{program_in, classes_in, StoresTable};
ghost use Rattle.bites_table.specs.Stays.{LeadsBack, IsSkip, IsStay, AreStays, WalksSo, AllWalkSo, StaysOver, IsKept};
ghost use Rattle.bites_table.specs.declared.kind.Kind.TheVariants.{Edge};
ghost use Rattle.bites_table.specs.declared.table.skip.Skip.{Skip};

use crate::classes::Classes;
use crate::explore::graph::Graph;
use crate::explore::rests::{find_rest, quiet_next};
use crate::explore::{Context, Memory};
use crate::kind::Kind;
use crate::table::layout::does_nothing;
use crate::table::skip::{Skip, Stay};
use crate::thread_list::ThreadList;
use crate::walk;
use bites_machine::program::Program;
use bites_scan::byte_set::ByteSet;
use std::alloc::Global;
use std::snapshot::Snapshot;

// How many of a thousand letters of a text may stop a skip. With more of them a transition for each byte takes less time.
const MOST_STOPS: u32 = 100;

// How many of a thousand letters of English texts are each of the small ones.
const FREQUENCIES: [u32; 26] = [
    82, 15, 28, 43, 127, 22, 20, 61, 70, 1, 8, 40, 24, 67, 75, 19, 1, 60, 63, 91, 28, 10, 24, 1,
    20, 1,
];

/// What a search passes at once from each list, by their numbers.
#[derive(Drop)]
pub(crate) struct Stays {
    pub skips: Vec<Skip>,
    pub lists: Vec<Stay>,
}

/// A walk of a list, whose states are noted in the memory: the kind of the byte after it, and the number of its looks.
#[derive(Clone, Copy, Drop)]
pub(crate) struct Walked {
    pub kind: Kind,
    pub looks: usize,
}

/// Finds what a search passes at once from each list. Returns `None` if memory runs out.
pub(crate) fn find_stays(
    alloc: Global,
    context: &Context<'_>,
    memory: &mut Memory,
    graph: &Graph,
) -> Option<Stays>
    requires { StoresTable context.now graph.now }
    ensures { IfSome result (λ s. AreStays (table_of graph.now) (classes_in context.now) s.skips.items s.lists.items) }
{
    let mut stays = Stays {
        skips: Vec::new(alloc),
        lists: Vec::with_capacity(alloc, graph.lists()).ok()?,
    };
    for number in 0..graph.lists() {
        let stay = find_stay(alloc, context, memory, graph, &mut stays.skips, number);
        stays.lists.push(stay).ok()?;
    }
    Some(stays)
}

// Finds what a search passes at once from a list. Nothing is passed from a list that does something over a blank.
fn find_stay(
    alloc: Global,
    context: &Context<'_>,
    memory: &mut Memory,
    graph: &Graph,
    skips: &mut Vec<Skip>,
    number: usize,
) -> Stay
    requires stores { StoresTable context.now graph.now }
    requires within { number < length graph.now.lists }
    ensures grows { (more : List Skip) × (skips.new.items ≡ skips.old.items ++ more) }
    ensures stay { IsStay (table_of graph.now) (classes_in context.now) skips.new.items number result }
{
    let mut stay = Stay {
        skip: None,
        rest: None,
    };
    let blank = usize::from(context.classes.of_byte(b' '));
    let Some(next) = quiet_next(graph, number, blank) else {
        return stay;
    };
    if begin_alike(context.program, graph, number, next) {
        stay.rest = find_rest(alloc, context, memory, graph, number);
    }
    if stay.rest.is_none() && next == number {
        stay.skip = find_skip(alloc, context, memory, graph, skips, number);
    }
    stay
}

// Returns whether the walks of two lists begin at the same state. Others are not the same.
fn begin_alike(program: &Program, graph: &Graph, number: usize, other: usize) -> bool
    requires within { number < length graph.now.lists }
    requires other { other < length graph.now.lists }
{
    first_state(program, &graph.list(number)) == first_state(program, &graph.list(other))
}

// Returns the first state that a walk of the list visits, if it visits one.
fn first_state(program: &Program, list: &ThreadList<'_>) -> u32 {
    match list.threads.first() {
        Some(thread) => thread.state,
        None => program.start(),
    }
}

// Adds what a search skips from a list, if there is something. Returns its number.
fn find_skip(
    alloc: Global,
    context: &Context<'_>,
    memory: &mut Memory,
    graph: &Graph,
    skips: &mut Vec<Skip>,
    number: usize,
) -> Option<u32>
    requires stores { StoresTable context.now graph.now }
    requires within { number < length graph.now.lists }
    ensures grows { (more : List Skip) × (skips.new.items ≡ skips.old.items ++ more) }
    ensures skip { IfSome result (λ i. (s : Skip) × (slice_get skips.new.items i ≡ Some s)
        × IsSkip (table_of graph.now) (classes_in context.now) number s) }
{
    let skip = skip_from(alloc, context, memory, graph, number)?;
    let number = u32::try_from(skips.len()).ok()?;
    skips.push(skip).ok()?;
    Some(number)
}

// Returns whether few letters of an English text stop a skip over these classes. Else a search would stop to skip again and again.
fn are_common(classes: &Classes, keeps: &[bool; 256]) -> bool {
    let mut stops = 0u32;
    for letter in 0..FREQUENCIES.len() {
        let class = classes.of_byte(b'a' + letter as u8);
        if !keeps[usize::from(class)] {
            stops = stops.wrapping_add(FREQUENCIES[letter]);
        }
    }
    stops <= MOST_STOPS
}

// Finds what a search skips from a list that stays over a blank. Else a blank would stop the skip, and one ends each word of a text.
// Returns `None` if the list stays over too few bytes, or if memory or the budget runs out.
fn skip_from(
    alloc: Global,
    context: &Context<'_>,
    memory: &mut Memory,
    graph: &Graph,
    number: usize,
) -> Option<Skip>
    requires stores { StoresTable context.now graph.now }
    requires within { number < length graph.now.lists }
    ensures { IfSome result (IsSkip (table_of graph.now) (classes_in context.now) number) }
{
    let blank = usize::from(context.classes.of_byte(b' '));
    let first = context.after.get(blank).copied()?;
    let walked = walk_once(context, memory, graph, number, first)?;
    let kinds = alike_kinds(alloc, context, memory, graph, number, walked)?;
    let keeps = kept_by(context, graph, number, first, &kinds);
    skip_of(context.classes, &keeps, &memory.seen, walked.looks)
}

// Returns a skip over the bytes of some classes, if there are enough of them. It stands apart, so that only lists that stay somewhere
// pay for its flags.
#[inline(never)]
fn skip_of(classes: &Classes, keeps: &[bool; 256], seen: &Vec<u32>, looks: usize) -> Option<Skip>
    ensures { IfSome result (λ s. (tab : Table) (n : ℕ) → StaysOver tab n keeps.now (reverse seen.now.items) looks →
        IsSkip tab (classes_of classes.now) n s) }
{
    if !are_common(classes, keeps) {
        return None;
    }
    let flags = classes.bytes(&keeps[..classes.len()]);
    Some(Skip {
        set: ByteSet::new(&flags),
        seen: Snapshot::of(seen),
        looks: Snapshot::of(&looks),
    })
}

// Returns whether the list leads over the class back to itself quietly.
fn leads_back(graph: &Graph, number: usize, class: usize) -> bool
    requires { number < length graph.now.lists }
    ensures { result ≡ true → LeadsBack (table_of graph.now) number class }
{
    let Some(outcome) = graph.outcome_over(number, class) else {
        return false;
    };
    let list = graph.list(number);
    outcome.next as usize == number && does_nothing(&outcome, &list)
}

/// Walks a list before a byte of the kind, and notes the states that this visits. Returns `None` if memory or the budget runs out.
pub(crate) fn walk_once(
    context: &Context<'_>,
    memory: &mut Memory,
    graph: &Graph,
    number: usize,
    kind: Kind,
) -> Option<Walked>
    requires { number < length graph.now.lists }
    ensures kind { IfSome result (λ w. w.kind ≡ kind) }
    ensures walks { IfSome result (λ w. WalksSo (program_in context.now) (list_at (table_of graph.now) number) (kind_as kind)
        (reverse memory.new.seen.items) w.looks) }
{
    let looks = walk_again(context, memory, graph, number, kind)?;
    memory.seen.clear();
    memory.walk.visited.push_to(&mut memory.seen)?;
    Some(Walked { kind, looks })
}

// Walks a list before a byte of the kind. Returns the number of looks.
fn walk_again(
    context: &Context<'_>,
    memory: &mut Memory,
    graph: &Graph,
    number: usize,
    kind: Kind,
) -> Option<usize>
    requires { number < length graph.now.lists }
    ensures walked { IfSome result (IsWalked (program_in context.now) (list_at (table_of graph.now) number) (kind_as kind) memory.new.walk) }
    ensures seen { memory.new.seen ≡ memory.old.seen }
{
    let list = graph.list(number);
    let budget = memory.budget.looks;
    let looks = walk::walk_list(&mut memory.walk, context.program, &list, kind, budget)?;
    memory.budget.looks = budget - looks;
    Some(looks)
}

/// Returns the other kinds before which the walk of the list is like the one that is noted.
pub(crate) fn alike_kinds(
    alloc: Global,
    context: &Context<'_>,
    memory: &mut Memory,
    graph: &Graph,
    number: usize,
    walked: Walked,
) -> Option<Vec<Kind>>
    requires { number < length graph.now.lists }
    ensures seen { memory.new.seen ≡ memory.old.seen }
    ensures kinds { IfSome result (λ ks. AllWalkSo (program_in context.now) (list_at (table_of graph.now) number) ks.items
        (reverse memory.old.seen.items) walked.looks) }
{
    let mut kinds = Vec::new(alloc);
    for kind in context.kinds {
        add_alike(context, memory, graph, number, *kind, walked, &mut kinds)?;
    }
    Some(kinds)
}

// Adds a kind, if it is another one, and if the walk of the list before it is like the one that is noted.
fn add_alike(
    context: &Context<'_>,
    memory: &mut Memory,
    graph: &Graph,
    number: usize,
    kind: Kind,
    walked: Walked,
    kinds: &mut Vec<Kind>,
) -> Option<()>
    requires { number < length graph.now.lists }
    ensures seen { memory.new.seen ≡ memory.old.seen }
    ensures kinds { IfSome result (λ _. AllWalkSo (program_in context.now) (list_at (table_of graph.now) number) kinds.old.items
        (reverse memory.old.seen.items) walked.looks →
        AllWalkSo (program_in context.now) (list_at (table_of graph.now) number) kinds.new.items
        (reverse memory.old.seen.items) walked.looks) }
{
    if kind == walked.kind || !is_walked_so(context, memory, graph, number, kind, walked.looks) {
        return Some(());
    }
    kinds.push(kind).ok()?;
    Some(())
}

/// Returns whether the walk of the list before a byte of the kind visits the states that are noted, with so many looks.
pub(crate) fn is_walked_so(
    context: &Context<'_>,
    memory: &mut Memory,
    graph: &Graph,
    number: usize,
    kind: Kind,
    looks: usize,
) -> bool
    requires { number < length graph.now.lists }
    ensures walks { result ≡ true → WalksSo (program_in context.now) (list_at (table_of graph.now) number) (kind_as kind)
        (reverse memory.old.seen.items) looks }
    ensures seen { memory.new.seen ≡ memory.old.seen }
{
    let Some(own) = walk_again(context, memory, graph, number, kind) else {
        return false;
    };
    own == looks && memory.walk.visited.are(&memory.seen)
}

// Returns for each class whether the list leads over it back to itself quietly, after a walk before one of these kinds.
fn kept_by(
    context: &Context<'_>,
    graph: &Graph,
    number: usize,
    first: Kind,
    kinds: &[Kind],
) -> [bool; 256]
    requires { number < length graph.now.lists }
    ensures { (c : ℕ) → slice_index_or result c false ≡ true →
        IsKept (table_of graph.now) number (first ∷ kinds.now) context.now.after.now c }
{
    let mut keeps = [false; 256];
    for class in 0..context.classes.len() {
        keeps[class] = is_among(first, kinds, context.after, class)
            && leads_back(graph, number, class);
    }
    keeps
}

/// Returns whether the kind after which the class is walked is the first one or one of the others.
pub(crate) fn is_among(first: Kind, others: &[Kind], after: &[Kind], class: usize) -> bool
    ensures within { result ≡ true → class < length after.now }
    ensures among { result ≡ true → Among (first ∷ others.now) (slice_index_or after.now class Edge) }
{
    if class >= after.len() {
        return false;
    }
    has_kind(first, others, after[class])
}

// Returns whether the kind is the first one or one of the others.
fn has_kind(first: Kind, others: &[Kind], kind: Kind) -> bool
    ensures { result ≡ true → Among (first ∷ others.now) kind }
{
    kind == first || others.contains(&kind)
}
