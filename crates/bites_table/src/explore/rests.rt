//! Lists from which nothing is found any more, where a search ends at once.

ghost use Rattle.std.specs.Prelude.{◌≡◌, ◌<◌, ◌∷◌, ◌++◌, ℕ, List, true, IfSome, length, reverse, slice_index_or};
ghost use Rattle.bites_spec.specs.Walks.{Among};
ghost use Rattle.bites_table.specs.Table.{list_at};
ghost use Rattle.bites_table.specs.Graph.{table_of};
ghost use Rattle.bites_table.specs.Explored.{program_in, classes_in, StoresTable};
ghost use Rattle.bites_table.specs.Stays.{LeadsQuietly, LeadsAmong, EndsQuietly, IsCalm, IsRest, AllWalkSo};
ghost use Rattle.bites_table.specs.declared.kind.Kind.TheVariants.{Edge};
ghost use Rattle.bites_table.specs.declared.table.skip.Rest.{Rest};

use crate::explore::graph::Graph;
use crate::explore::stays::{Walked, alike_kinds, is_among, is_walked_so, walk_once};
use crate::explore::{Context, Memory};
use crate::kind::Kind;
use crate::table::layout::does_nothing;
use crate::table::skip::Rest;
use std::alloc::Global;
use std::snapshot::Snapshot;

// A set of lists from which nothing is found any more has fewer lists than this.
const MOST_TOGETHER: usize = 8;

// Returns whether the list leads quietly over each class before this one.
fn are_quiet(graph: &Graph, number: usize, end: usize) -> bool
    ensures { result ≡ true → (c : ℕ) → c < end → LeadsQuietly (table_of graph.now) number c }
{
    for class in 0..end {
        let Some(_) = quiet_next(graph, number, class) else {
            return false;
        };
    }
    true
}

/// Returns the list to which a list leads over the class, if it does so quietly.
pub(crate) fn quiet_next(graph: &Graph, number: usize, class: usize) -> Option<usize>
    ensures quiet { IfSome result (λ _. LeadsQuietly (table_of graph.now) number class) }
    ensures within { IfSome result (λ next. next < length graph.now.lists) }
{
    let outcome = graph.outcome_over(number, class)?;
    let next = outcome.next as usize;
    if next >= graph.lists() || !does_nothing(&outcome, &graph.list(next)) {
        return None;
    }
    Some(next)
}

// Returns whether the kinds after which the classes before this one are walked are all among these.
fn are_all_among(first: Kind, others: &[Kind], after: &[Kind], end: usize) -> bool
    ensures { result ≡ true → (c : ℕ) → c < end → (c < length after.now) × Among (first ∷ others.now) (slice_index_or after.now c Edge) }
{
    for class in 0..end {
        if !is_among(first, others, after, class) {
            return false;
        }
    }
    true
}

// Returns whether nobody comes to a match at the end, after the same walk.
fn ends_quietly(
    context: &Context<'_>,
    graph: &Graph,
    number: usize,
    first: Kind,
    others: &[Kind],
) -> bool
    requires { StoresTable context.now graph.now }
    ensures { result ≡ true → (seen : List ℕ) (looks : ℕ) →
        AllWalkSo (program_in context.now) (list_at (table_of graph.now) number) (first ∷ others.now) seen looks →
        EndsQuietly (table_of graph.now) (classes_in context.now) number seen looks }
{
    let end = context.classes.end();
    let Some(outcome) = graph.outcome_over(number, end) else {
        return false;
    };
    outcome.hit.is_none() && is_among(first, others, context.after, end)
}

/// Finds whether nothing is found any more from a list: whether all lists that it leads to have the same walk, and nothing is
/// found from them. Returns `None` too if memory or the budget runs out, or if these lists are many.
pub(crate) fn find_rest(
    alloc: Global,
    context: &Context<'_>,
    memory: &mut Memory,
    graph: &Graph,
    number: usize,
) -> Option<Rest>
    requires stores { StoresTable context.now graph.now }
    requires within { number < length graph.now.lists }
    ensures { IfSome result (IsRest (table_of graph.now) (classes_in context.now) number) }
{
    let end = context.classes.end();
    if !are_quiet(graph, number, end) || graph.outcome_over(number, end)?.hit.is_some() {
        return None;
    }
    let first = context.after.first().copied()?;
    let walked = walk_once(context, memory, graph, number, first)?;
    follow_calm(alloc, context, memory, graph, number, walked)?;
    Some(Rest {
        seen: Snapshot::of(&memory.seen),
        looks: Snapshot::of(&walked.looks),
    })
}

// Goes through all lists that a list leads to. Returns `None` unless the walk of each is like the one that is noted, and nothing is found
// from it, or if memory or the budget runs out, or if these lists are many.
fn follow_calm(
    alloc: Global,
    context: &Context<'_>,
    memory: &mut Memory,
    graph: &Graph,
    number: usize,
    walked: Walked,
) -> Option<()>
    requires { StoresTable context.now graph.now }
    ensures { IfSome result (λ _. (r : Rest) → r.seen.value ≡ memory.new.seen → r.looks.value ≡ walked.looks →
        IsRest (table_of graph.now) (classes_in context.now) number r) }
{
    let end = context.classes.end();
    let mut lists = Vec::new(alloc);
    lists.push(number).ok()?;
    for i in 0..MOST_TOGETHER {
        if i >= lists.len() {
            return Some(());
        }
        let list = lists[i];
        if !is_calm(alloc, context, memory, graph, list, walked) {
            return None;
        }
        add_next(graph, list, end, &mut lists)?;
    }
    None
}

// Returns whether the walk of a list is like the one that is noted, before each character and before the end, and nothing is found over
// any of them.
fn is_calm(
    alloc: Global,
    context: &Context<'_>,
    memory: &mut Memory,
    graph: &Graph,
    number: usize,
    walked: Walked,
) -> bool
    requires { StoresTable context.now graph.now }
    ensures calm { result ≡ true → IsCalm (table_of graph.now) (classes_in context.now) number (reverse memory.old.seen.items) walked.looks }
    ensures seen { memory.new.seen ≡ memory.old.seen }
{
    let Walked { kind, looks } = walked;
    let end = context.classes.end();
    if number >= graph.lists() || !are_quiet(graph, number, end) {
        return false;
    }
    if !is_walked_so(context, memory, graph, number, kind, looks) {
        return false;
    }
    let Some(kinds) = alike_kinds(alloc, context, memory, graph, number, walked) else {
        return false;
    };
    if !are_all_among(kind, &kinds, context.after, end) {
        return false;
    }
    ends_quietly(context, graph, number, kind, &kinds)
}

// Adds the lists that a list leads to over the classes before this one. Returns `None` if a transition is not known, or if
// memory runs out.
fn add_next(graph: &Graph, number: usize, end: usize, lists: &mut Vec<usize>) -> Option<()>
    ensures grows { (more : List ℕ) × (lists.new.items ≡ lists.old.items ++ more) }
    ensures closed { IfSome result (λ _. (c : ℕ) → c < end → LeadsAmong (table_of graph.now) lists.new.items number c) }
{
    for class in 0..end {
        let next = graph.outcome_over(number, class)?.next as usize;
        add_list(lists, next)?;
    }
    Some(())
}

// Adds a list, unless it is there.
fn add_list(lists: &mut Vec<usize>, number: usize) -> Option<()>
    ensures grows { (more : List ℕ) × (lists.new.items ≡ lists.old.items ++ more) }
    ensures added { IfSome result (λ _. Among lists.new.items number) }
{
    if !lists.contains(&number) {
        lists.push(number).ok()?;
    }
    Some(())
}
