//! The lists without threads, where searches begin.

ghost use Rattle.std.specs.Prelude.{◌≡◌, true, IfSome};
ghost use Rattle.bites_spec.specs.Program.{Program};
ghost use Rattle.bites_table.specs.Kinds.{Classes};
ghost use Rattle.bites_table.specs.AlikeKinds.{TellsApart};
ghost use Rattle.bites_table.specs.Graph.{IsRoot};
ghost use Rattle.bites_table.specs.Built.{kind_as, starts_as};
ghost use Rattle.bites_table.specs.Made.{Grows, IsMade};
ghost use Rattle.bites_table.specs.Explored.{AreRoots, HasOneRoot, number_in};

use crate::alike_kinds::AlikeKinds;
use crate::explore::graph::Graph;
use crate::kind::Kind;
use crate::thread_list::{Starts, ThreadList};

/// For each kind of the byte before, the number of a list without threads.
#[derive(Clone, Copy, Drop)]
pub(crate) struct Roots {
    pub edge: u32,
    pub line_feed: u32,
    pub carriage_return: u32,
    pub word_byte: u32,
    pub other: u32,
}

impl Roots {
    /// Returns the number of the list for a kind.
    pub(crate) fn of(&self, kind: Kind) -> u32
        ensures { result ≡ number_in self.now (kind_as kind) }
    {
        match kind {
            Kind::Edge => self.edge,
            Kind::LineFeed => self.line_feed,
            Kind::CarriageReturn => self.carriage_return,
            Kind::WordByte => self.word_byte,
            Kind::Other => self.other,
        }
    }

    /// Returns whether all kinds have one root.
    pub(crate) fn has_one_root(&self) -> bool
        ensures { result ≡ true → HasOneRoot self.now }
    {
        let one = self.other;
        self.edge == one
            && self.line_feed == one
            && self.carriage_return == one
            && self.word_byte == one
    }
}

/// Adds the lists without threads that walk the start so, one for each kind that assertions tell apart. Returns `None` if
/// memory or numbers run out.
pub(crate) fn add_roots(graph: &mut Graph, kinds: AlikeKinds, starts: Starts) -> Option<Roots>
    ensures made { (p : Program) (k : Classes) → IsMade p k graph.old → IsMade p k graph.new }
    ensures grows { Grows graph.old graph.new }
    ensures cells { graph.new.cells ≡ graph.old.cells }
    ensures roots { IfSome result (λ r. (p : Program) → TellsApart p kinds →
        AreRoots p graph.new (starts_as starts) r) }
{
    let edge = add_root(graph, kinds, starts, Kind::Edge)?;
    let line_feed = next_root(graph, kinds, starts, Kind::LineFeed, Kind::Edge, edge)?;
    let carriage_return = next_root(
        graph,
        kinds,
        starts,
        Kind::CarriageReturn,
        Kind::LineFeed,
        line_feed,
    )?;
    let word_byte = next_root(
        graph,
        kinds,
        starts,
        Kind::WordByte,
        Kind::CarriageReturn,
        carriage_return,
    )?;
    let other = next_root(graph, kinds, starts, Kind::Other, Kind::WordByte, word_byte)?;
    Some(Roots {
        edge,
        line_feed,
        carriage_return,
        word_byte,
        other,
    })
}

// Adds the list for a kind. Returns its number.
fn add_root(graph: &mut Graph, kinds: AlikeKinds, starts: Starts, kind: Kind) -> Option<u32>
    ensures made { (p : Program) (k : Classes) → IsMade p k graph.old → IsMade p k graph.new }
    ensures grows { Grows graph.old graph.new }
    ensures cells { graph.new.cells ≡ graph.old.cells }
    ensures root { IfSome result (λ n. (p : Program) → TellsApart p kinds →
        IsRoot p graph.new (kind_as kind) (starts_as starts) n) }
{
    let list = ThreadList {
        threads: &[],
        starts,
        kind: kinds.first_before(kind),
    };
    graph.add_list(&list, 0)
}

// Returns the number of the root of the kind before, if it is alike, and else adds the list for a kind.
fn next_root(
    graph: &mut Graph,
    kinds: AlikeKinds,
    starts: Starts,
    kind: Kind,
    before: Kind,
    number: u32,
) -> Option<u32>
    ensures made { (p : Program) (k : Classes) → IsMade p k graph.old → IsMade p k graph.new }
    ensures grows { Grows graph.old graph.new }
    ensures cells { graph.new.cells ≡ graph.old.cells }
    ensures root { IfSome result (λ n. (p : Program) → TellsApart p kinds →
        IsRoot p graph.old (kind_as before) (starts_as starts) number →
        IsRoot p graph.new (kind_as kind) (starts_as starts) n) }
{
    if kinds.first_before(kind) == kinds.first_before(before) {
        return Some(number);
    }
    add_root(graph, kinds, starts, kind)
}
