//! The set of the states that were visited at a place, with generations.

ghost use Rattle.std.specs.Prelude.{◌≡◌, ◌<◌, false, true, not, IfOk, length, replicate, slice_index_or, slice_set};

use std::alloc::{AllocError, Global};
use std::marker::Model;

/// A set of states with generations. Clearing it takes constant time, unless the generations run out.
///
/// For proofs: contracts see for each state whether it is a member.
#[derive(Drop)]
pub struct StateSet {
    // For each state the generation in which it was last inserted.
    generations: Vec<u64>,
    generation: u64,
}

impl Model for StateSet {
    ghost use Rattle.std.specs.Prelude.{List, Bool, map, length, ◌==◌, ◌≤◌};
    ghost use Rattle.bites_machine.specs.StateSet.{AreGenerations, members_of};

    ghost Value = { List Bool };

    ghost view = { λ a. members_of a.generation a.generations.items };

    ghost invariant = { λ a. AreGenerations a.generation a.generations.items };
}

impl StateSet {
    /// Allocates an empty set for the given number of states. The error is out of memory.
    pub(super) fn new(alloc: Global, states: usize) -> Result<StateSet, AllocError>
        ensures { IfOk result (λ m. length m ≡ states) }
    {
        let generations = vec![in alloc; 0; states]?;
        Ok(StateSet {
            generations,
            generation: 1,
        })
    }

    /// Removes all states. If no generation is left, resets the generation of each state and starts again.
    #[inline(always)]
    #[tactic(auto, using(std::proofs::lemmas::Grind::common_steps, crate::proofs::tables::StateSetLemmas::no_members, crate::proofs::tables::StateSetLemmas::none_at_first))]
    pub(super) fn clear(&mut self)
        ensures { self.new ≡ replicate (length self.old) false }
    {
        if self.generation < u64::MAX {
            self.generation += 1;
            return;
        }
        self.generations.fill(0);
        self.generation = 1;
    }

    /// Inserts the state. Returns whether it was not a member.
    #[inline(always)]
    #[tactic(auto, using(std::proofs::lemmas::Grind::common_steps, crate::proofs::tables::StateSetLemmas::inserted, crate::proofs::tables::StateSetLemmas::inserted_again))]
    pub(super) fn insert(&mut self, state: u32) -> bool
        requires { state < length self.old }
        ensures new { result ≡ not (slice_index_or self.old state false) }
        ensures inserted { self.new ≡ slice_set self.old state true }
    {
        if self.generations[state as usize] == self.generation {
            return false;
        }
        self.generations[state as usize] = self.generation;
        true
    }
}
