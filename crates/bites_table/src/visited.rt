//! The states that a walk visited.

ghost use Rattle.std.specs.Prelude.{◌≡◌, ◌==◌, ℕ, true, false, [], ◌∷◌, ◌++◌, not, slice_index_or, IfSome, IfOk, reverse, if◌then◌else◌};
ghost use Rattle.std.specs.List.{list_any};
ghost use Rattle.bites_table.specs.Visited.{AreApart};

use std::alloc::{AllocError, Global};
use std::marker::Model;
use std::snapshot::Snapshot;

/// How many states or threads a walk has room for at first.
pub(crate) const ROOM: usize = 16;

// So many states are copied faster one by one than all at once. Most walks visit no more.
const MOST_ONE_BY_ONE: usize = 8;

/// A set of states, with a list of them. Clearing it takes as long as it has members.
///
/// For proofs: contracts see the members, the last one first.
#[derive(Drop)]
pub(crate) struct Visited {
    // For each state whether it is a member.
    members: Vec<bool>,
    states: Vec<u32>,
}

impl Model for Visited {
    ghost use Rattle.std.specs.Prelude.{ℕ, List, reverse};
    ghost use Rattle.bites_table.specs.Visited.{AreMembers};

    ghost Value = { List ℕ };

    ghost view = { λ a. reverse a.states.items };

    ghost invariant = { λ a. AreMembers a.members.items (reverse a.states.items) };
}

impl Visited {
    /// Allocates an empty set for the given number of states. The error is out of memory.
    pub(crate) fn new(alloc: Global, len: usize) -> Result<Visited, AllocError>
        ensures { IfOk result (λ v. v ≡ []) }
    {
        Ok(Visited {
            members: vec![in alloc; false; len]?,
            states: Vec::with_capacity(alloc, len.min(ROOM))?,
        })
    }

    /// Inserts a state. Returns whether it was not a member, or `None` if there is no such state or memory runs out.
    #[inline(always)]
    pub(crate) fn insert(&mut self, state: u32) -> Option<bool>
        ensures is_new { IfSome result (λ n. n ≡ not (list_any (λ s. s == state) self.old)) }
        ensures states { IfSome result (λ n. self.new ≡ (if n then state ∷ self.old else self.old)) }
    {
        if *self.members.get(state as usize)? {
            return Some(false);
        }
        self.states.push(state).ok()?;
        self.members[state as usize] = true;
        Some(true)
    }

    /// Returns whether none of these is a member.
    pub(crate) fn is_apart(&self, others: &Visited) -> bool
        ensures { result ≡ true → AreApart self.now others.now }
    {
        are_apart(&self.members, &others.states)
    }

    /// Removes all states.
    pub(crate) fn clear(&mut self)
        ensures { self.new ≡ [] }
    {
        while let Some(state) = self.states.pop() {
            self.members[state as usize] = false;
        }
    }

    /// Adds the members to a list, in the order in which they were inserted. Returns `None` if memory runs out.
    #[inline(always)]
    pub(crate) fn push_to(&self, states: &mut Vec<u32>) -> Option<()>
        ensures { IfSome result (λ _. reverse states.new.items ≡ self.now ++ reverse states.old.items) }
    {
        if self.states.len() > MOST_ONE_BY_ONE {
            return states.extend_from_slice(&self.states).ok();
        }
        for state in &self.states {
            states.push(*state).ok()?;
        }
        Some(())
    }

    /// Returns whether the members are these, in the order in which they were inserted.
    pub(crate) fn are(&self, states: &[u32]) -> bool
        ensures { result ≡ true → self.now ≡ reverse states.now }
    {
        self.states.as_slice() == states
    }

    /// Returns the members, for proofs.
    pub(crate) fn states(&self) -> Snapshot<Vec<u32>>
        ensures { reverse result.value.items ≡ self.now }
    {
        Snapshot::of(&self.states)
    }
}

// Returns whether none of the states is a member.
fn are_apart(members: &[bool], states: &[u32]) -> bool
    ensures { result ≡ true → (q : ℕ) → list_any (λ s. s == q) states.now ≡ true → slice_index_or members.now q false ≡ false }
{
    for state in states {
        if is_member(members, *state) {
            return false;
        }
    }
    true
}

fn is_member(members: &[bool], state: u32) -> bool
    ensures { result ≡ slice_index_or members.now state false }
{
    let state = state as usize;
    state < members.len() && members[state]
}
