//! What a search does at each place, for people to look at.
//!
//! It walks each place as the definitions do, and each thread owns its slots. So it takes far more time and memory than a
//! search.

ghost use Rattle.std.specs.Prelude.{◌≡◌, ℕ, suc, ◌+◌, ◌++◌, ◌<◌, ◌≤◌, ◌&&◌, [], List, None, Some, true, false, not, is_some, length, map, reverse, slice_set, if◌then◌else◌, IfOk, OnOk};
ghost use Rattle.std.specs.Option.{option_or, option_copied};
ghost use Rattle.bites_spec.specs.Program as program;
ghost use Rattle.bites_spec.specs.Program.{Configuration, at, targets_of, HasRanges};
ghost use Rattle.bites_spec.specs.Closure.{dropped};
ghost use Rattle.bites_spec.specs.PikeVm.{kept, started, thread_on, visited, Searching};
ghost use Rattle.bites_machine.specs.Inputs.{is_longest, is_earliest};
ghost use Rattle.bites_machine.specs.SlotTable.{no_slot};
ghost use Rattle.bites_machine.specs.States.{state_of};
ghost use Rattle.bites_machine.specs.Traced.{IsTraced, IsTracedSearch, Traces, Walks, searching_of, walking_of};

use super::Input;
use super::closure::holds;
use super::pikevm::{is_over, piece_at, starts_on};
use super::position::Position;
use crate::program::Program;
use crate::slot::Slot;
use crate::state::State;
use crate::targets::Targets;
use std::alloc::{AllocError, Global};
use std::collections::{BTreeSet, VecDeque};
use std::marker::Model;
use std::mem;

/// A thread: the state that it continues from, and its slots. For the longest match also where it was started.
#[derive(Drop)]
pub struct TracedThread {
    state: u32,
    start: usize,
    slots: Vec<Slot>,
}

impl Model for TracedThread {
    ghost use Rattle.bites_spec.specs.PikeVm as machine;

    ghost Value = { machine.Thread };

    ghost view = { λ a. record { state = a.state; start = a.start; slots = a.slots.items } };
}

impl TracedThread {
    // Returns a thread at the start of the program, in which no slot is written. The error is out of memory.
    fn started(
        alloc: Global,
        program: &Program,
        here: &Position<'_>,
    ) -> Result<TracedThread, AllocError>
        ensures { IfOk result (λ t. t ≡ started here.now.haystack.now here.now.longest program.now.program
            program.now.program.slots here.now.place) }
    {
        Ok(TracedThread {
            state: program.start(),
            start: if here.longest { here.place } else { 0 },
            slots: vec![in alloc; Slot::unwritten(); program.slots()]?,
        })
    }

    // Returns the thread, which now continues from another state.
    fn at(self, state: u32) -> TracedThread
        ensures { result ≡ record { state = state; start = self.start; slots = self.slots } }
    {
        TracedThread { state, ..self }
    }

    // Returns the thread with the place in the slot, if it has the slot.
    fn with_write(self, slot: u32, place: usize) -> TracedThread
        requires { place < no_slot }
        ensures { result ≡ record { state = self.state; start = self.start; slots = slice_set self.slots slot (Some place) } }
    {
        let mut slots = self.slots;
        if let Some(written) = slots.get_mut(slot as usize) {
            *written = Slot::at(place);
        }
        TracedThread { slots, ..self }
    }

    /// Returns the number of the state.
    pub fn state(&self) -> u32
        ensures { result ≡ self.now.state }
    {
        self.state
    }

    /// Returns where the thread was started, if the longest match is searched for, else 0.
    pub fn start(&self) -> usize
        ensures { result ≡ self.now.start }
    {
        self.start
    }

    /// Returns the slots.
    pub fn slots(&self) -> &[Slot]
        ensures { result.now ≡ self.now.slots }
    {
        &self.slots
    }
}

impl Clone for TracedThread {
    ghost is_clone = { λ thread copy. copy ≡ thread };

    /// Returns a copy. The error is out of memory.
    fn clone(&self) -> Result<TracedThread, AllocError> {
        Ok(TracedThread {
            state: self.state,
            start: self.start,
            slots: self.slots.clone()?,
        })
    }
}

/// What a search does at a place.
#[derive(Drop)]
pub struct TracedPlace {
    place: usize,
    starts: bool,
    threads: Vec<TracedThread>,
    visited: Vec<u32>,
    first_match: Option<TracedThread>,
}

impl Model for TracedPlace {
    ghost use Rattle.bites_machine.specs.Traced as traced;

    ghost Value = { traced.Place };

    ghost view = { λ a. record {
      place = a.place;
      starts = a.starts;
      threads = a.threads.items;
      visited = a.visited.items;
      first_match = a.first_match;
    } };
}

impl TracedPlace {
    /// Returns the offset of the place, in bytes.
    pub fn place(&self) -> usize
        ensures { result ≡ self.now.place }
    {
        self.place
    }

    /// Returns whether the start of the program is walked here. Then it is the last of the threads.
    pub fn starts(&self) -> bool
        ensures { result ≡ self.now.starts }
    {
        self.starts
    }

    /// Returns the threads that are walked here, in order of preference.
    pub fn threads(&self) -> &[TracedThread]
        ensures { result.now ≡ self.now.threads }
    {
        &self.threads
    }

    /// Returns the states that are visited here, in order.
    pub fn visited(&self) -> &[u32]
        ensures { result.now ≡ self.now.visited }
    {
        &self.visited
    }

    /// Returns the first thread that comes to a match here.
    pub fn first_match(&self) -> Option<&TracedThread>
        ensures { option_copied result ≡ self.now.first_match }
    {
        self.first_match.as_ref()
    }
}

// Puts a copy of the thread before the others for each target of a split, the preferred one first. The error is out of
// memory.
fn push_targets(
    stack: &mut VecDeque<TracedThread>,
    targets: &Targets,
    reverse: bool,
    thread: &TracedThread,
) -> Result<(), AllocError>
    ensures { OnOk result ((i : ℕ) → stack.new.items ≡ map (thread_on thread.now.start thread.now.slots)
        (map (λ q. at q i) (targets_of (program.splits targets.now reverse))) ++ stack.old.items) }
{
    let mut number = targets.len();
    while number > 0 {
        number -= 1;
        let target = targets.in_order(reverse, number);
        stack.push_front(thread.clone()?.at(target))?;
    }
    Ok(())
}

/// The walk of one place.
#[derive(Drop)]
struct Walk {
    // The threads that are still to be walked, in order of preference.
    stack: VecDeque<TracedThread>,
    // The states that were visited, in order.
    visited: Vec<u32>,
    // The threads that took the character, in order of preference.
    next: Vec<TracedThread>,
    first_match: Option<TracedThread>,
}

impl Walk {
    // Walks a place with these threads. The error is out of memory.
    fn of(
        alloc: Global,
        program: &Program,
        here: &Position<'_>,
        threads: Vec<TracedThread>,
    ) -> Result<Walk, AllocError>
        ensures walks { IfOk result (λ w. Walks here.now.haystack.now here.now.longest here.now.place
            program.now.program threads.items w) }
        ensures over { IfOk result (λ w. w.stack.items ≡ []) }
    {
        let mut walk = Walk {
            stack: VecDeque::from(threads),
            visited: Vec::new(alloc),
            next: Vec::new(alloc),
            first_match: None,
        };
        // For proofs: a program is well-formed.
        let _known = program.start();
        let mut visited_set = BTreeSet::new(alloc);
        while let Some(thread) = walk.stack.pop_front() {
            let is_new = visited_set.insert(thread.state)?;
            // No thread is at a number past the end, where the definitions have a state that leads nowhere.
            let state = program.states().get(thread.state as usize);
            walk.visit(here, is_new, state.unwrap_or(&State::Fail), thread)?;
        }
        Ok(walk)
    }

    // Follows a state with the thread that came to it, if it is visited for the first time at this place. The error is out
    // of memory.
    #[tactic(auto, unfolding(bites_spec::specs::Closure::visited))]
    fn visit(
        &mut self,
        here: &Position<'_>,
        is_new: bool,
        state: &State,
        thread: TracedThread,
    ) -> Result<(), AllocError>
        requires { HasRanges (state_of state.now) }
        ensures { OnOk result ((looks : ℕ) → walking_of self.new (suc looks) ≡ (if is_new
            then visited here.now.haystack.now here.now.longest here.now.place (state_of state.now) thread
            self.old.stack.items (walking_of self.old looks)
            else dropped self.old.stack.items (walking_of self.old looks))) }
    {
        if !is_new {
            return Ok(());
        }
        self.visited.push(thread.state)?;
        match state {
            State::Char { target, ch } if here.is_char(*ch) => {
                Ok(self.next.push(thread.at(*target))?)
            }
            State::Ranges { target, ranges } if here.is_in(ranges) => {
                Ok(self.next.push(thread.at(*target))?)
            }
            State::Goto { target, look } if holds(look, here) => {
                Ok(self.stack.push_front(thread.at(*target))?)
            }
            State::Capture { target, slot } => {
                let thread = thread.with_write(*slot, here.place);
                Ok(self.stack.push_front(thread.at(*target))?)
            }
            State::Splits { targets, reverse } => {
                push_targets(&mut self.stack, targets, *reverse, &thread)
            }
            State::Match => {
                self.record_match(here.longest, thread);
                Ok(())
            }
            State::Char { .. } | State::Ranges { .. } | State::Goto { .. } | State::Fail => Ok(()),
        }
    }

    // Records that the thread came to a match, if it is the first one here. Removes the threads that the first one leaves
    // no room for: all, or for the longest match those that were started after it.
    fn record_match(&mut self, longest: bool, thread: TracedThread)
        ensures first_match { self.new.first_match ≡ option_or self.old.first_match (Some thread) }
        ensures stack { self.new.stack.items
            ≡ kept [] longest (option_or self.old.first_match (Some thread)) self.old.stack.items }
        ensures next { self.new.next ≡ self.old.next }
        ensures visited { self.new.visited ≡ self.old.visited }
    {
        let first = self.first_match.take().unwrap_or(thread);
        let start = first.start;
        if longest {
            self.stack.retain(|thread| thread.start() <= start);
        } else {
            self.stack.clear();
        }
        self.first_match = Some(first);
    }
}

// A search between two places.
#[derive(Drop)]
struct Between {
    threads: Vec<TracedThread>,
    starts: bool,
    best: Option<TracedThread>,
}

impl Between {
    // Searches one place, and goes to the next one. Returns what is done there. The error is out of memory.
    fn step(
        &mut self,
        alloc: Global,
        program: &Program,
        here: &Position<'_>,
        anchored: bool,
    ) -> Result<TracedPlace, AllocError>
        ensures { IfOk result (λ x. (visits : List Configuration) (looks : ℕ) →
            (later : List Configuration) × (more : ℕ) × Traces here.now.haystack.now here.now.longest
            program.now.program program.now.program.slots anchored
            (searching_of self.old here.now.place visits looks)
            (searching_of self.new (here.now.place + here.now.ch_len) later more) x) }
    {
        let starts = self.starts;
        let mut threads = mem::replace(&mut self.threads, Vec::new(alloc));
        if starts {
            threads.push(TracedThread::started(alloc, program, here)?)?;
        }
        let walk = Walk::of(alloc, program, here, threads.clone()?)?;
        let Walk {
            stack: _,
            visited,
            next,
            first_match,
        } = walk;
        if let Some(thread) = &first_match {
            self.best = Some(thread.clone()?);
        }
        self.starts = starts_on(starts, anchored, &first_match);
        self.threads = next;
        Ok(TracedPlace {
            place: here.place,
            starts,
            threads,
            visited,
            first_match,
        })
    }
}

/// A search, place by place.
#[derive(Drop)]
pub struct TracedSearch {
    /// What is done at each place, in order.
    pub places: Vec<TracedPlace>,
    /// Whether the search is over. If not, as many places were searched as were asked for.
    pub is_over: bool,
    /// The thread at the best match.
    pub best: Option<TracedThread>,
}

/// Searches as the input asks, and returns what is done at each place, but at most at `most` places. A start past the end
/// of the haystack finds nothing at no place.
///
/// The time is that of the copies of slots: at most the targets of the program and one, times its slots, at each place.
/// Each copy also looks into a set of states. The error is out of memory.
///
/// For proofs: this is the machine of the definitions, whose visits and match are those of [`search_input`] with a slice
/// for all slots ([`traced_search_is_search`]).
///
/// [`search_input`]: super::search_input
pub fn trace(
    alloc: Global,
    program: &Program,
    input: &Input<'_>,
    most: usize,
) -> Result<TracedSearch, AllocError>
    ensures traced { IfOk result (λ r. input.now.start ≤ length input.now.haystack.now →
        (t : Searching) × IsTraced input.now.haystack.now (is_longest input.now.kind) program.now.program
        program.now.program.slots input.now.anchored (is_earliest input.now.kind) input.now.start
        r.is_over (reverse r.places.items) t × (r.best ≡ t.best)) }
    ensures past { IfOk result (λ r. length input.now.haystack.now < input.now.start →
        (r.places.items ≡ []) × (r.is_over ≡ true) × (r.best ≡ None)) }
    ensures most { IfOk result (λ r. r.is_over ≡ false → length r.places.items ≡ most) }
{
    let mut places = Vec::new(alloc);
    let mut search = Between {
        threads: Vec::new(alloc),
        starts: true,
        best: None,
    };
    let mut place = input.start;
    let mut ends = place > input.haystack.len();
    let earliest = input.kind.is_earliest();
    while !ends && places.len() < most {
        let here = piece_at(input.haystack, place, input.kind.is_longest());
        places.push(search.step(alloc, program, &here, input.anchored)?)?;
        let is_found = search.best.is_some();
        let threads = search.threads.len();
        ends = is_over(here.ch_len, earliest, is_found, search.starts, threads);
        place += here.ch_len;
    }
    Ok(TracedSearch {
        places,
        is_over: ends,
        best: search.best,
    })
}

/// For proofs: a search with a slice for all slots has the answer, the slots and the visits of each trace that is over.
pub fn traced_search_is_search()
    ensures { IsTracedSearch }
{}
