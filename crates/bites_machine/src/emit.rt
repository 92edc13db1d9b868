//! Writes the states of a program, from its end backwards.

ghost use Rattle.std.specs.Prelude.{◌≡◌, ◌<◌, ◌≤◌, length, slice_set, None, Some, IfOk};
ghost use Rattle.bites_spec.specs.Tree as spec;
ghost use Rattle.bites_spec.specs.Tree.{trees_of, is_nullable, IsReduced, AllAreReduced};
ghost use Rattle.bites_machine.specs.States.{state_of};
ghost use Rattle.bites_machine.specs.Emitted.{emitted, pushed, class_state, choice, again, bounded, loop, star, optional_loop, repeated, grouped, emit, emit_all};

use crate::ranges::Ranges;
use crate::state::State;
use crate::targets::Targets;
use bites_syntax::measure::is_nullable;
use bites_syntax::tree::{Class, Kind, Tree};
use std::alloc::{AllocError, Global};
use std::marker::Model;

/// The states that were written so far, which are at most 4294967295.
///
/// For proofs: contracts see the states of the specification that these represent.
#[derive(Drop)]
pub struct States {
    alloc: Global,
    list: Vec<State>,
}

impl Model for States {
    ghost use Rattle.std.specs.Prelude.{◌≤◌, List, length};
    ghost use Rattle.bites_spec.specs.Program as spec;

    ghost Value = { List spec.State };

    ghost use Rattle.bites_machine.specs.States.{states_of};

    ghost view = { λ a. states_of a.list.items };

    ghost invariant = { λ a. length a.list.items ≤ 4294967295 };
}

impl States {
    ghost use Rattle.std.specs.Prelude.{[]};
    ghost use Rattle.bites_machine.specs.States.{states_of};

    /// Returns an empty list with room for `capacity` states.
    pub fn with_capacity(alloc: Global, capacity: usize) -> Result<States, AllocError>
        ensures { IfOk result (λ states. states ≡ []) }
    {
        let list = Vec::with_capacity(alloc, capacity)?;
        Ok(States { alloc, list })
    }

    /// Returns the states as a vector.
    pub fn into_vec(self) -> Vec<State>
        ensures states { states_of result.items ≡ self }
        ensures few { length self ≤ 4294967295 }
    {
        self.list
    }

    /// Writes one more state. Returns its number. The error is out of memory, or that no number is left.
    pub fn push(&mut self, state: State) -> Result<u32, AllocError>
        ensures { IfOk result (λ number. emitted self.new number
            ≡ pushed self.old (state_of state)) }
    {
        if self.list.len() >= 4294967295 {
            return Err(AllocError);
        }
        let number = self.list.len() as u32;
        self.list.push(state)?;
        Ok(number)
    }

    /// Overwrites the state with this number.
    fn put(&mut self, number: u32, state: State)
        requires { number < length self.old }
        ensures { self.new ≡ slice_set self.old number (state_of state) }
    {
        self.list[number as usize] = state;
    }

    /// Writes the state of a class.
    fn class(&mut self, class: &Class, to: u32) -> Result<u32, AllocError>
        ensures { IfOk result (λ from. emitted self.new from
            ≡ pushed self.old (class_state class.now to)) }
    {
        let ranges = Ranges::copy_of(self.alloc, class.list())?;
        self.ranges(ranges, to)
    }

    /// Writes a chain of `count` states of a class. The ranges are prepared once and then copied.
    fn classes(&mut self, count: u32, class: &Class, to: u32) -> Result<u32, AllocError>
        ensures { IfOk result (λ from. emitted self.new from
            ≡ again count (emit (spec.class class.now)) to self.old) }
    {
        let ranges = Ranges::copy_of(self.alloc, class.list())?;
        let mut from = to;
        for _ in 0..count {
            from = self.ranges(ranges.copy(self.alloc)?, from)?;
        }
        Ok(from)
    }

    /// Writes a state that takes these ranges, or `Fail` if there are none.
    fn ranges(&mut self, ranges: Ranges, to: u32) -> Result<u32, AllocError>
        ensures { IfOk result (λ from. emitted self.new from
            ≡ pushed self.old (class_state ranges to)) }
    {
        if ranges.as_slice().is_empty() {
            return self.push(State::Fail);
        }
        self.push(State::Ranges { target: to, ranges })
    }

    /// Writes a split between two states. The first is preferred if it is greedy, else the second.
    fn choose(&mut self, greedy: bool, round: u32, leave: u32) -> Result<u32, AllocError>
        ensures { IfOk result (λ from. emitted self.new from
            ≡ pushed self.old (choice greedy round leave)) }
    {
        let state = self.choice(greedy, round, leave);
        self.push(state)
    }

    /// Returns a split between two states. The first is preferred if it is greedy, else the second.
    fn choice(&self, greedy: bool, round: u32, leave: u32) -> State
        ensures { state_of result ≡ choice greedy round leave }
    {
        State::Splits {
            targets: Targets::two(self.alloc, round, leave),
            reverse: !greedy,
        }
    }

    /// Writes the states of a tree, which lead on to the state `to`. Returns the number of the state where they are
    /// entered.
    #[cycle(emit)]
    #[tactic(auto, using(crate::proofs::compile::EmittedLemmas::emit_same, crate::proofs::compile::EmittedLemmas::tree_by_kind), unfolding(crate::specs::Emitted::emit, crate::specs::Emitted::emit_all, crate::specs::Emitted::emit_each))]
    pub fn emit(&mut self, tree: &Tree, to: u32) -> Result<u32, AllocError>
        requires { IsReduced tree.now }
        ensures { IfOk result (λ from. emitted self.new from ≡ emit tree.now to self.old) }
    {
        match tree.kind() {
            Kind::Empty => self.push(State::Goto {
                target: to,
                look: None,
            }),
            Kind::Char(c) => self.push(State::Char { target: to, ch: *c }),
            Kind::Class(class) => self.class(class, to),
            Kind::Look(look) => self.push(State::Goto {
                target: to,
                look: Some(*look),
            }),
            Kind::Repetition {
                min,
                max,
                greedy,
                sub,
            } => match max {
                None => self.unbounded(*min, *greedy, sub, to),
                Some(max) => self.counted(*min, *max, *greedy, sub, to),
            },
            Kind::Capture { index, sub, .. } => self.group(*index, sub, to),
            Kind::Concat(parts) => self.sequence(parts, to),
            Kind::Alternation(parts) => self.alternation(parts, to),
        }
    }

    #[cycle(emit)]
    pub fn group(&mut self, index: u32, sub: &Tree, to: u32) -> Result<u32, AllocError>
        requires { IsReduced sub.now }
        ensures { IfOk result (λ from. emitted self.new from
            ≡ grouped index (emit sub.now) to self.old) }
    {
        let slot = index.checked_mul(2).ok_or(AllocError)?;
        let closing = self.push(State::Capture {
            target: to,
            slot: slot + 1,
        })?;
        let body = self.emit(sub, closing)?;
        self.push(State::Capture { target: body, slot })
    }

    /// Writes at least `min` turns, without an upper bound.
    #[cycle(emit)]
    fn unbounded(&mut self, min: u32, greedy: bool, sub: &Tree, to: u32) -> Result<u32, AllocError>
        requires { IsReduced sub.now }
        ensures { IfOk result (λ from. emitted self.new from
            ≡ repeated min None greedy (is_nullable sub.now) (emit sub.now) to self.old) }
    {
        if min > 0 {
            let from = self.looped(greedy, sub, to)?;
            self.copies(min - 1, sub, from)
        } else if is_nullable(sub) {
            self.optional_loop(greedy, sub, to)
        } else {
            self.star(greedy, sub, to)
        }
    }

    /// Writes `min` to `max` turns.
    #[cycle(emit)]
    fn counted(
        &mut self,
        min: u32,
        max: u32,
        greedy: bool,
        sub: &Tree,
        to: u32,
    ) -> Result<u32, AllocError>
        requires order { min ≤ max }
        requires some { 1 ≤ max }
        requires reduced { IsReduced sub.now }
        ensures { IfOk result (λ from. emitted self.new from
            ≡ repeated min (Some max) greedy (is_nullable sub.now) (emit sub.now) to
            self.old) }
    {
        if min == max {
            let from = self.emit(sub, to)?;
            self.copies(min - 1, sub, from)
        } else if min == 0 && max > 1 {
            let from = self.bounded(max, greedy, sub, to)?;
            self.push(State::Goto {
                target: from,
                look: None,
            })
        } else {
            let from = self.bounded(max - min, greedy, sub, to)?;
            self.copies(min, sub, from)
        }
    }

    /// Writes a chain of `count` copies.
    #[cycle(emit)]
    fn copies(&mut self, count: u32, sub: &Tree, to: u32) -> Result<u32, AllocError>
        requires { IsReduced sub.now }
        ensures { IfOk result (λ from. emitted self.new from
            ≡ again count (emit sub.now) to self.old) }
    {
        // One copy alone has nothing to share.
        if count > 1 {
            if let Kind::Class(class) = sub.kind() {
                return self.classes(count, class, to);
            }
        }
        let mut from = to;
        for _ in 0..count {
            from = self.emit(sub, from)?;
        }
        Ok(from)
    }

    /// Writes up to `count` copies, and one state that all exits lead to.
    #[cycle(emit)]
    fn bounded(&mut self, count: u32, greedy: bool, sub: &Tree, to: u32) -> Result<u32, AllocError>
        requires { IsReduced sub.now }
        ensures { IfOk result (λ from. emitted self.new from
            ≡ bounded count greedy (emit sub.now) to self.old) }
    {
        let out = self.push(State::Goto {
            target: to,
            look: None,
        })?;
        let mut from = out;
        for _ in 0..count {
            let round = self.emit(sub, from)?;
            from = self.choose(greedy, round, out)?;
        }
        Ok(from)
    }

    /// Writes the body, and after it a split that repeats it or leaves.
    #[cycle(emit)]
    fn looped(&mut self, greedy: bool, sub: &Tree, to: u32) -> Result<u32, AllocError>
        requires { IsReduced sub.now }
        ensures { IfOk result (λ from. emitted self.new from
            ≡ loop greedy (emit sub.now) to self.old) }
    {
        let again = self.push(State::Fail)?;
        let from = self.emit(sub, again)?;
        let state = self.choice(greedy, from, to);
        self.put(again, state);
        Ok(from)
    }

    /// Writes a split that enters the body or leaves. The body leads back to the split.
    #[cycle(emit)]
    fn star(&mut self, greedy: bool, sub: &Tree, to: u32) -> Result<u32, AllocError>
        requires { IsReduced sub.now }
        ensures { IfOk result (λ from. emitted self.new from
            ≡ star greedy (emit sub.now) to self.old) }
    {
        let from = self.push(State::Fail)?;
        let round = self.emit(sub, from)?;
        let state = self.choice(greedy, round, to);
        self.put(from, state);
        Ok(from)
    }

    /// Writes a split that enters a loop or leaves. Both lead on to one state.
    #[cycle(emit)]
    fn optional_loop(&mut self, greedy: bool, sub: &Tree, to: u32) -> Result<u32, AllocError>
        requires { IsReduced sub.now }
        ensures { IfOk result (λ from. emitted self.new from
            ≡ optional_loop greedy (emit sub.now) to self.old) }
    {
        let out = self.push(State::Goto {
            target: to,
            look: None,
        })?;
        let round = self.looped(greedy, sub, out)?;
        self.choose(greedy, round, out)
    }

    #[cycle(emit)]
    fn sequence(&mut self, parts: &[Tree], to: u32) -> Result<u32, AllocError>
        requires { AllAreReduced (trees_of parts.now) }
        ensures { IfOk result (λ from. emitted self.new from
            ≡ emit_all (trees_of parts.now) to self.old) }
    {
        let mut from = to;
        for i in (0..parts.len()).rev() {
            from = self.emit(&parts[i], from)?;
        }
        Ok(from)
    }

    #[cycle(emit)]
    fn alternation(&mut self, parts: &[Tree], to: u32) -> Result<u32, AllocError>
        requires { AllAreReduced (trees_of parts.now) }
        ensures { IfOk result (λ from. emitted self.new from
            ≡ emit (spec.alternation (trees_of parts.now)) to self.old) }
    {
        let out = self.push(State::Goto {
            target: to,
            look: None,
        })?;
        let mut rounds = Vec::with_capacity(self.alloc, parts.len())?;
        for part in parts {
            rounds.push(self.emit(part, out)?)?;
        }
        self.push(State::Splits {
            targets: rounds.into(),
            reverse: false,
        })
    }
}
