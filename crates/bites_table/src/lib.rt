//! Tables of thread lists: what a search can know before it begins, and the transitions between them.
//!
//! Each function of this file has an empty body, and its contract is a law about the definitions in `specs/`.
#![tactic(auto)]

ghost use Rattle.bites_table.specs.Example.{ExampleIsTable, ExampleEnds, TransitionsRefuse};
ghost use Rattle.bites_table.specs.Laws.{LeadsByKind, KindIsPassed, AlikeByTaking, AlikeWithoutAssertions, WalksAreMapped, TransitionIsOne, TransitionSearches, Begins, Runs, Passes, Ends, ComesBack};

pub mod alike_kinds;
mod blocks;
mod bounds;
pub mod cache;
pub mod classes;
mod distinctions;
mod explore;
pub mod kind;
mod registers;
pub mod search;
mod stack;
pub mod steps;
pub mod table;
pub mod thread_list;
pub mod trace;
mod visited;
pub mod walk;

pub fn states_lead_by_kind()
    ensures { LeadsByKind }
{}

pub fn kind_is_passed()
    ensures { KindIsPassed }
{}

pub fn characters_are_alike_by_taking()
    ensures { AlikeByTaking }
{}

pub fn characters_are_alike_without_assertions()
    ensures { AlikeWithoutAssertions }
{}

pub fn walks_are_mapped<T, U>()
    ensures { WalksAreMapped T U }
{}

pub fn transition_is_one()
    ensures { TransitionIsOne }
{}

pub fn transition_searches()
    ensures { TransitionSearches }
{}

pub fn search_by_table_begins()
    ensures { Begins }
{}

pub fn search_by_table_runs()
    ensures { Runs }
{}

pub fn search_by_table_passes()
    ensures { Passes }
{}

pub fn search_by_table_ends()
    ensures { Ends }
{}

pub fn search_comes_back_to_table()
    ensures { ComesBack }
{}

pub fn example_is_table()
    ensures { ExampleIsTable }
{}

pub fn example_ends()
    ensures { ExampleEnds }
{}

pub fn transitions_refuse()
    ensures { TransitionsRefuse }
{}
