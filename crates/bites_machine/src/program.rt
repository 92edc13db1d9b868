ghost use Rattle.std.specs.Prelude.{◌≡◌, ◌≢◌, ◌<◌, ◌≤◌, ◌^◌, ℕ, length, None, Some, IfSome, IfNone, IfOk, IfErr, OnOk, slice_index_or, string_bytes, sum_by};
ghost use Rattle.std.specs.Option.{option_copied, SomeIff};
ghost use Rattle.bites_spec.specs.Program.{state_at, targets, targets_of, IsWellFormed};
ghost use Rattle.bites_spec.specs.ProgramFaults.{first_fault};
ghost use Rattle.bites_machine.specs.States.{state_of, states_of, program_of};
ghost use Rattle.bites_spec.specs.Contents.{contents_of_states};
ghost use Rattle.bites_machine.specs.Contents.{contents_by, patterned};
ghost use Rattle.bites_machine.specs.Bad.{IsBad};

pub use crate::compiler::{compile, compile_with_groups};
pub use crate::fault::BadProgram;
use crate::fault::first_fault_of;
use crate::group_names::GroupNames;
pub use crate::ranges::Ranges;
pub use crate::state::State;
pub use crate::targets::Targets;
use std::alloc::Global;
use std::marker::Model;

/// A well-formed program, with the pattern that it was compiled from and the names of its groups.
pub struct Program {
    alloc: Global,
    states: Vec<State>,
    start: u32,
    slots: usize,
    targets: usize,
    pattern: String,
    names: GroupNames,
    static_captures_len: Option<usize>,
}

// A caller that drops one relies on this function, and on no type below it.
impl Drop for Program {
    fn drop(self) {
        let Program {
            alloc: _,
            states: _,
            start: _,
            slots: _,
            targets: _,
            pattern: _,
            names: _,
            static_captures_len: _,
        } = self;
    }
}

impl Model for Program {
    ghost use Rattle.bites_spec.specs.Contents.{Contents};

    ghost Value = { Contents };

    ghost use Rattle.bites_machine.specs.Fields.{contents_of, IsSound};

    ghost view = { contents_of };

    ghost invariant = { IsSound };
}

impl Program {
    /// Makes a program of these states, with the empty pattern and no names.
    ///
    /// The error is the first fault: of the number of states, of the number of slots, of the start, then of each state
    /// in order. `Memory` comes last, only if the number of edges does not fit in a `usize`: the call allocates
    /// nothing.
    pub fn from_states(
        alloc: Global,
        states: Vec<State>,
        start: u32,
        slots: u32,
    ) -> Result<Program, BadProgram>
        ensures made { IfOk result (λ p. p ≡ contents_of_states
            (program_of states.items start slots)) }
        ensures no_fault { OnOk result (first_fault (program_of states.items start slots) ≡ None) }
        ensures refused { IfErr result (IsBad (program_of states.items start slots)) }
    {
        if states.len() > 4294967295 {
            return Err(BadProgram::TooMany);
        }
        if slots < 2 || slots % 2 != 0 {
            return Err(BadProgram::BadSlot);
        }
        if start as usize >= states.len() {
            return Err(BadProgram::BadStart);
        }
        if let Some(fault) = first_fault_of(&states, slots) {
            return Err(fault);
        }
        let pattern = String::new(alloc);
        let names = GroupNames::none(alloc, 0);
        let program = Program::new(alloc, states, start, slots as usize, pattern, names, None);
        program.ok_or(BadProgram::Memory)
    }

    /// Makes a program of states that have no fault. Returns `None` if the number of edges does not fit in a `usize`.
    pub(crate) fn new(
        alloc: Global,
        states: Vec<State>,
        start: u32,
        slots: usize,
        pattern: String,
        names: GroupNames,
        static_captures_len: Option<usize>,
    ) -> Option<Program>
        requires { first_fault (program_of states.items start slots) ≡ None }
        ensures made { IfSome result (λ p. p
            ≡ contents_by states.items start slots pattern names static_captures_len) }
        ensures none { IfNone result (2 ^ 64 ≤ targets (program_of states.items start slots)) }
    {
        let targets = edges(&states)?;
        Some(Program {
            alloc,
            states,
            start,
            slots,
            targets,
            pattern,
            names,
            static_captures_len,
        })
    }

    /// Returns the program with this pattern in place of its own. Copies nothing.
    pub fn with_pattern(mut self, pattern: String) -> Program
        ensures { result ≡ patterned (string_bytes pattern) self }
    {
        self.pattern = pattern;
        self
    }

    /// Returns the allocator that the program was made with.
    pub fn alloc(&self) -> Global {
        self.alloc
    }

    /// Returns the state with this number.
    pub fn state(&self, number: u32) -> &State
        requires { number < length self.now.program.states }
        ensures { state_of result.now ≡ state_at self.now.program.states number }
    {
        &self.states[number as usize]
    }

    /// Returns all states, in order of their numbers.
    pub fn states(&self) -> &[State]
        ensures { states_of result.now ≡ self.now.program.states }
    {
        &self.states
    }

    /// Returns the number of the state where a run starts.
    pub fn start(&self) -> u32
        ensures start { result ≡ self.now.program.start }
        ensures well_formed { IsWellFormed self.now.program }
    {
        let _known = &self.states;
        self.start
    }

    /// Returns the number of states.
    #[allow(clippy::len_without_is_empty)]
    pub fn len(&self) -> usize
        ensures { result ≡ length self.now.program.states }
    {
        self.states.len()
    }

    /// Returns the number of slots: two for each group, or the number that was given if the program was made of states.
    pub fn slots(&self) -> usize
        ensures { result ≡ self.now.program.slots }
    {
        self.slots
    }

    /// Returns the number of edges.
    pub fn targets(&self) -> usize
        ensures { result ≡ targets self.now.program }
    {
        self.targets
    }

    /// Returns the pattern that the program was compiled from, or the empty text if it was made of states.
    pub fn pattern(&self) -> &str
        ensures { result.now ≡ self.now.pattern }
    {
        &self.pattern
    }

    /// Returns the number of groups of the pattern, group 0 counted, or 0 if the program was made of states.
    pub fn groups(&self) -> usize
        ensures { result ≡ length self.now.names }
    {
        self.names.len()
    }

    /// Returns the name of the group with this number, if there is such a group and it has one.
    pub fn name(&self, group: usize) -> Option<&str>
        ensures { option_copied result ≡ slice_index_or self.now.names group None }
    {
        self.names.get(group)
    }

    /// Returns the number of the first group with this name.
    pub fn index_of(&self, name: &str) -> Option<usize>
        ensures found { IfSome result (λ i. slice_index_or self.now.names i None ≡ Some name.now) }
        ensures first { IfSome result (λ i. (j : ℕ) → j < i →
            slice_index_or self.now.names j None ≢ Some name.now) }
        ensures absent { IfNone result ((j : ℕ) →
            slice_index_or self.now.names j None ≢ Some name.now) }
    {
        for i in 0..self.names.len() {
            if let Some(own) = self.name(i)
                && own == name
            {
                return Some(i);
            }
        }
        None
    }

    /// Returns a lower bound on the number of groups that participate in any match, group 0 counted, if the form of the
    /// pattern gives one.
    pub fn static_captures_len(&self) -> Option<usize>
        ensures { result ≡ self.now.static_captures_len }
    {
        self.static_captures_len
    }
}

/// Returns the number of edges of the states, if it fits in a `usize`.
fn edges(states: &[State]) -> Option<usize>
    ensures { SomeIff result (sum_by (λ s. length (targets_of s)) (states_of states.now) < 2 ^ 64)
        (sum_by (λ s. length (targets_of s)) (states_of states.now)) }
{
    let mut count = 0usize;
    for state in states {
        count = count.checked_add(state.edges())?;
    }
    Some(count)
}
