//! The states of a program as a search reads them: at most once at each place, and each visit is recorded.

ghost use Rattle.std.specs.Prelude.{◌≡◌, ◌<◌, suc, length, reverse};
ghost use Rattle.bites_spec.specs.Utf8.{places};
ghost use Rattle.bites_spec.specs.Walks.{IsNew, AllApart};
ghost use Rattle.bites_spec.specs.Program.{state_at, at, IsWellFormed};
ghost use Rattle.bites_machine.specs.States.{state_of, states_of};
ghost use Rattle.bites_machine.specs.Trace.{after_place, after_each, nothing_recorded, record_of_run, IsVisited, ReadsVisits};
ghost use Rattle.bites_machine.specs.Scratch.{CountsStep};
ghost use Rattle.std.specs.List.{range_with_len};

use super::bytes::Bytes;
use super::recorded::FirstRun;
use crate::state::State;
use std::marker::Model;
use std::mem;
use std::snapshot::Snapshot;

/// What a search did, the latest first.
#[derive(Drop)]
enum History {
    Nothing,
    Visit {
        earlier: Snapshot<History>,
        state: u32,
        place: usize,
    },
    Step {
        earlier: Snapshot<History>,
    },
    // Places of one byte each. A transition visited the same states at each of them.
    Transitions {
        earlier: Snapshot<History>,
        seen: Snapshot<Snapshot<Vec<u32>>>,
        looks: Snapshot<Snapshot<usize>>,
        place: usize,
        count: usize,
    },
    // All places from one on. A transition visited the same states at each of them.
    Rest {
        earlier: Snapshot<History>,
        seen: Snapshot<Snapshot<Vec<u32>>>,
        looks: Snapshot<Snapshot<usize>>,
        haystack: Bytes,
        place: usize,
    },
    // A run that was found without a walk, and nothing else.
    Run {
        run: FirstRun,
    },
}

/// The visits and the number of steps of a search. No visit stands there twice, and what was read was visited.
///
/// For proofs: contracts alone see it. Its size is 0.
#[derive(Drop)]
pub struct Trace {
    history: Snapshot<History>,
}

impl Model for Trace {
    ghost use Rattle.bites_spec.specs.Counts.{Record};

    ghost Value = { Record };

    ghost use Rattle.bites_machine.specs.Trace.{record_of};

    ghost view = { λ a. record_of a.history.value };

    ghost use Rattle.bites_spec.specs.Walks.{AllApart};
    ghost use Rattle.bites_machine.specs.Trace.{ReadsVisits};

    ghost invariant = { λ a. AllApart (record_of a.history.value).visits × ReadsVisits (record_of a.history.value) };
}

const _: () = prove!(size_of::<Trace>() == 0);

impl Trace {
    /// Returns an empty record.
    pub(super) fn new() -> Trace
        ensures { result ≡ nothing_recorded }
    {
        Trace {
            history: Snapshot::of(&History::Nothing),
        }
    }

    /// Returns the record of a search that visited the run, and read none of its states.
    fn of_run(run: FirstRun) -> Trace
        requires { IsWellFormed run.program.value.program }
        ensures { result ≡ record_of_run run }
    {
        Trace {
            history: Snapshot::of(&History::Run { run }),
        }
    }

    // Records that a state was read, which was not visited before.
    fn visit(&mut self, state: u32, place: usize)
        requires { IsNew (at state place) self.old.visits }
        ensures { IsVisited (at state place) self.old self.new }
    {
        let earlier = mem::replace(&mut self.history, Snapshot::of(&History::Nothing));
        let visit = History::Visit {
            earlier,
            state,
            place,
        };
        self.history = Snapshot::of(&visit);
    }
}

/// How many searches a cache has begun, for proofs.
#[derive(Drop)]
enum Begun {
    Nothing,
    Search { earlier: Snapshot<Begun> },
}

/// The number of searches of a cache.
///
/// For proofs: contracts alone see it. Its size is 0.
#[derive(Drop)]
pub struct Searches {
    begun: Snapshot<Begun>,
}

impl Model for Searches {
    ghost use Rattle.std.specs.Prelude.{ℕ};
    ghost use Rattle.bites_machine.specs.Trace.{count_of};

    ghost Value = { ℕ };

    ghost view = { λ a. count_of a.begun.value };
}

const _: () = prove!(size_of::<Searches>() == 0);

impl Searches {
    /// Returns the number of no searches.
    pub(super) fn none() -> Searches
        ensures { result ≡ 0 }
    {
        Searches {
            begun: Snapshot::of(&Begun::Nothing),
        }
    }

    /// Counts a search.
    pub(super) fn add(&mut self)
        ensures { self.new ≡ suc self.old }
    {
        let earlier = mem::replace(&mut self.begun, Snapshot::of(&Begun::Nothing));
        let search = Begun::Search { earlier };
        self.begun = Snapshot::of(&search);
    }
}

/// The states of a program during one search, with the record of what was visited.
///
/// A search reads the states through it alone. It lends a state until the next call, and at most once at each place.
/// `Cache::begin` makes it. A search by a table records here what its transitions visit; for this alone it is public.
#[derive(Drop)]
pub struct Counted<'p> {
    states: &'p [State],
    walked: Trace,
}

impl<'p> Counted<'p> {
    ghost use Rattle.std.specs.Borrow.{sem};
    ghost use Rattle.bites_machine.specs.Lending.{Visits};

    /// Returns these states with an empty record.
    pub(super) fn new(states: &'p [State]) -> Counted<'p>
        ensures states { result.states ≡ states.entry }
        ensures walked { result.walked ≡ nothing_recorded }
    {
        Counted {
            states,
            walked: Trace::new(),
        }
    }

    /// Counts a step: an attempt to visit a state.
    pub(super) fn step(&mut self)
        ensures { CountsStep self.old self.new }
    {
        let history = &mut self.walked.history;
        let earlier = mem::replace(history, Snapshot::of(&History::Nothing));
        let step = History::Step { earlier };
        *history = Snapshot::of(&step);
    }

    /// Visits a state at a place where it was not visited before, and lends it until the next call.
    pub(super) fn visit(&mut self, state: u32, place: usize) -> &State
        requires known { state < length self.old.states.now }
        requires fresh { IsNew (at state place) self.old.walked.visits }
        ensures state { state_of result.now ≡ state_at (states_of self.old.states.now) state }
        ensures* visited { sem 𝓛 (Visits self.entry state place) }
    {
        self.walked.visit(state, place);
        &self.states[state as usize]
    }

    /// Records that a transition, whose walk visited these states and took so many looks, was made at a place.
    ///
    /// Costs nothing at run time.
    #[inline(always)]
    pub fn record_transition(
        &mut self,
        seen: &Snapshot<Vec<u32>>,
        looks: &Snapshot<usize>,
        place: usize,
    )
        requires fresh { AllApart
            (after_place (reverse seen.now.value.items) looks.now.value place self.old.walked).visits }
        ensures walked { self.new.walked
            ≡ after_place (reverse seen.now.value.items) looks.now.value place self.old.walked }
        ensures states { self.new.states ≡ self.old.states }
    {
        self.record_transitions(seen, looks, place, 1);
    }

    /// Records the same for each of `count` places one byte each, from `place` on.
    // It is not inlined by force: loops of searches that hold many copies of it would themselves no longer be inlined.
    pub fn record_transitions(
        &mut self,
        seen: &Snapshot<Vec<u32>>,
        looks: &Snapshot<usize>,
        place: usize,
        count: usize,
    )
        requires fresh { AllApart
            (after_each (reverse seen.now.value.items) looks.now.value (range_with_len place count)
            self.old.walked).visits }
        ensures walked { self.new.walked
            ≡ after_each (reverse seen.now.value.items) looks.now.value (range_with_len place count)
            self.old.walked }
        ensures states { self.new.states ≡ self.old.states }
    {
        let history = &mut self.walked.history;
        let earlier = mem::replace(history, Snapshot::of(&History::Nothing));
        let transitions = History::Transitions {
            earlier,
            seen: Snapshot::of(seen),
            looks: Snapshot::of(looks),
            place,
            count,
        };
        *history = Snapshot::of(&transitions);
    }

    /// Records the same for all places of the haystack from `place` on, with its end.
    pub fn record_rest(
        &mut self,
        seen: &Snapshot<Vec<u32>>,
        looks: &Snapshot<usize>,
        haystack: &[u8],
        place: usize,
    )
        requires fresh { AllApart
            (after_each (reverse seen.now.value.items) looks.now.value (places haystack.now place)
            self.old.walked).visits }
        ensures walked { self.new.walked
            ≡ after_each (reverse seen.now.value.items) looks.now.value (places haystack.now place)
            self.old.walked }
        ensures states { self.new.states ≡ self.old.states }
    {
        let history = &mut self.walked.history;
        let earlier = mem::replace(history, Snapshot::of(&History::Nothing));
        let rest = History::Rest {
            earlier,
            seen: Snapshot::of(seen),
            looks: Snapshot::of(looks),
            haystack: Bytes::of(haystack),
            place,
        };
        *history = Snapshot::of(&rest);
    }

    /// Records that a search found the run, and walked nowhere.
    ///
    /// Costs nothing at run time.
    #[inline(always)]
    pub(super) fn record_run(&mut self, run: FirstRun)
        requires { IsWellFormed run.program.value.program }
        ensures walked { self.new.walked ≡ record_of_run run }
        ensures states { self.new.states ≡ self.old.states }
    {
        self.walked = Trace::of_run(run);
    }

    /// Returns the record.
    pub(super) fn into_trace(self) -> Trace
        ensures walked { result ≡ self.entry.walked }
        ensures read { ReadsVisits result }
    {
        let Counted { states: _, walked } = self;
        // For proofs: what was read was visited.
        let _known = &walked.history;
        walked
    }
}
