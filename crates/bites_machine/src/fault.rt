//! Finds why states are not a program.

ghost use Rattle.std.specs.Prelude.{◌≡◌, MatchOption, IfSome, IfNone, nat_lt, length, Some, None};
ghost use Rattle.std.specs.List.{list_all};
ghost use Rattle.bites_spec.specs.Walks.{first_among};
ghost use Rattle.bites_spec.specs.Program.{targets_of};
ghost use Rattle.bites_spec.specs.ProgramFaults as faults;
ghost use Rattle.bites_machine.specs.States.{state_of, states_of};
ghost use Rattle.bites_machine.specs.Bad.{IsFault, fault_text};

use crate::state::State;
use std::fmt;

/// Why states are not a program.
#[derive(Clone, Copy, Debug, PartialEq, Eq)]
pub enum BadProgram {
    /// There are more than 4294967295 states.
    TooMany,
    /// The number of slots is odd or below 2, or a state writes to a slot that is not there.
    BadSlot,
    /// The start is not the number of a state.
    BadStart,
    /// A state leads to a number that no state has.
    BadTarget,
    /// A range starts above its end, or not above the end of the range before.
    BadRanges,
    /// The number of edges is too large for a `usize`.
    Memory,
}

impl BadProgram {
    /// Returns the message: one line of ASCII without a line end.
    pub const fn text(&self) -> &'static str
        ensures { result.now ≡ fault_text self.now }
    {
        match self {
            BadProgram::TooMany => "too many states",
            BadProgram::BadSlot => "a slot is out of range",
            BadProgram::BadStart => "the start is no state",
            BadProgram::BadTarget => "a target is no state",
            BadProgram::BadRanges => "ranges are out of order",
            BadProgram::Memory => "out of memory",
        }
    }
}

impl fmt::Display for BadProgram {
    ghost output = { λ fault. Some (fault_text fault) };

    fn fmt<W: fmt::Write>(&self, f: &mut fmt::Formatter<W>) -> fmt::Result {
        f.write_str(self.text())
    }
}

impl std::error::Error for BadProgram {}

/// Returns the first fault of a state in a program of `len` states and `slots` slots.
pub fn fault_of(state: &State, len: usize, slots: u32) -> Option<BadProgram>
    ensures { MatchOption result (faults.fault_of len slots (state_of state.now) ≡ None)
        (IsFault (faults.fault_of len slots (state_of state.now))) }
{
    if !leads_below(state, len) {
        Some(BadProgram::BadTarget)
    } else if !has_ranges(state) {
        Some(BadProgram::BadRanges)
    } else if !has_slot(state, slots) {
        Some(BadProgram::BadSlot)
    } else {
        None
    }
}

/// Returns the first fault of the states, each checked in order.
pub fn first_fault_of(states: &[State], slots: u32) -> Option<BadProgram>
    ensures none { IfNone result
        (first_among (faults.fault_of (length states.now) slots) (states_of states.now)
        ≡ None) }
    ensures some { IfSome result
        (IsFault (first_among (faults.fault_of (length states.now) slots) (states_of states.now))) }
{
    for state in states {
        if let Some(fault) = fault_of(state, states.len(), slots) {
            return Some(fault);
        }
    }
    None
}

#[tactic(auto, using(crate::proofs::compile::BadLemmas::list_all_splits))]
fn leads_below(state: &State, len: usize) -> bool
    ensures { result ≡ list_all (λ q. nat_lt q len) (targets_of (state_of state.now)) }
{
    match state {
        State::Char { target, .. }
        | State::Ranges { target, .. }
        | State::Goto { target, .. }
        | State::Capture { target, .. } => (*target as usize) < len,
        State::Splits { targets, .. } => are_below(targets.as_slice(), len),
        State::Fail | State::Match => true,
    }
}

fn are_below(targets: &[u32], len: usize) -> bool
    ensures { result ≡ list_all (λ q. nat_lt q len) targets.now }
{
    targets.iter().all(|target| (*target as usize) < len)
}

fn has_ranges(state: &State) -> bool
    ensures { result ≡ faults.has_ranges (state_of state.now) }
{
    match state {
        State::Ranges { ranges, .. } => are_ranges(ranges.as_slice()),
        _ => true,
    }
}

fn has_slot(state: &State, slots: u32) -> bool
    ensures { result ≡ faults.has_slot slots (state_of state.now) }
{
    match state {
        State::Capture { slot, .. } => *slot < slots,
        _ => true,
    }
}

fn are_ranges(ranges: &[(char, char)]) -> bool
    ensures { result ≡ faults.are_ranges ranges.now }
{
    let mut last: Option<char> = None;
    for (start, end) in ranges {
        if start > end || last.is_some_and(|last| *start <= last) {
            return false;
        }
        last = Some(*end);
    }
    true
}
