ghost use Rattle.std.specs.Prelude.{◌≡◌, ◌<◌, length, slice_index};
ghost use Rattle.bites_spec.specs.Program.{targets_of, takes, HasRanges};

use crate::ranges::Ranges;
use crate::targets::Targets;
use bites_syntax::look::Look;

/// A state of a program: what it requires at an offset, and the numbers of the states that it leads to.
#[derive(Drop)]
pub enum State {
    /// Takes this character.
    Char { target: u32, ch: char },
    /// Takes a character of one of the ranges, which are inclusive.
    Ranges { target: u32, ranges: Ranges },
    /// Leads to each target; the first is preferred, or the last if `reverse` is set.
    Splits { targets: Targets, reverse: bool },
    /// Leads on if the assertion holds, or always if there is none.
    Goto { target: u32, look: Option<Look> },
    /// Writes the offset to a slot, and leads on.
    Capture { target: u32, slot: u32 },
    /// Leads nowhere.
    Fail,
    /// Reports a match.
    Match,
}

impl State {
    ghost use Rattle.bites_machine.specs.States.{state_of};

    /// Returns the number of edges.
    pub fn edges(&self) -> usize
        ensures { result ≡ length (targets_of (state_of self.now)) }
    {
        match self {
            State::Char { .. }
            | State::Ranges { .. }
            | State::Goto { .. }
            | State::Capture { .. } => 1,
            State::Splits { targets, .. } => targets.len(),
            State::Fail | State::Match => 0,
        }
    }

    /// Returns the target with this number in order of preference. Number 0 is the preferred one.
    pub fn target(&self, number: usize) -> u32
        requires { number < length (targets_of (state_of self.now)) }
        ensures { result ≡ slice_index (targets_of (state_of self.now)) number }
    {
        match self {
            State::Char { target, .. }
            | State::Ranges { target, .. }
            | State::Goto { target, .. }
            | State::Capture { target, .. } => *target,
            State::Splits { targets, reverse } => targets.in_order(*reverse, number),
            State::Fail | State::Match => 0,
        }
    }

    /// Returns whether the state takes the character.
    #[inline]
    pub fn takes(&self, ch: char) -> bool
        requires { HasRanges (state_of self.now) }
        ensures { result ≡ takes (state_of self.now) ch }
    {
        match self {
            State::Char { ch: own, .. } => ch == *own,
            State::Ranges { ranges, .. } => ranges.takes(ch),
            _ => false,
        }
    }
}
