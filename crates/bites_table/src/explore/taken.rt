//! Which classes states take, and which of them the same threads take.

ghost use Rattle.std.specs.Prelude.{◌≡◌, ◌<◌, ◌≤◌, ◌==◌, ℕ, [], true, map, IfOk, slice_get};
ghost use Rattle.bites_spec.specs.Program as programs;
ghost use Rattle.bites_spec.specs.Program.{state_at, takes, HasRanges};
ghost use Rattle.bites_machine.specs.Bits.{has_bit};
ghost use Rattle.bites_machine.specs.Ends.{takes_by, targets_over};
ghost use Rattle.bites_machine.specs.States.{state_of};
ghost use Rattle.bites_table.specs.Kinds as kinds;
ghost use Rattle.bites_table.specs.Takers.{taken};
ghost use Rattle.bites_table.specs.Built.{frame_of};
ghost use Rattle.bites_table.specs.Classes.{classes_of};
ghost use Rattle.bites_table.specs.Explored.{AreTaken};

use crate::classes::Classes;
use crate::thread_list::{Frame, has_bit};
use bites_machine::program::Program;
use bites_machine::state::State;
use std::alloc::{AllocError, Global};

// A state has a bit for so many classes, the first ones. Any other is taken alone.
pub(crate) const CLASSES: usize = 64;

/// Returns for each state a bit for each class: whether the state takes it. The error is out of memory.
pub(crate) fn taken_classes(
    alloc: Global,
    program: &Program,
    classes: &Classes,
) -> Result<Vec<u64>, AllocError>
    ensures { IfOk result (λ bits. AreTaken program.now.program (classes_of classes.now) bits.items) }
{
    program.start();
    let mut bits = Vec::with_capacity(alloc, program.len())?;
    for state in program.states() {
        bits.push(taken_by(state, classes))?;
    }
    Ok(bits)
}

// Returns a bit for each class: whether the state takes it.
fn taken_by(state: &State, classes: &Classes) -> u64
    requires { HasRanges (state_of state.now) }
    ensures { (c : ℕ) → c < 64 → has_bit result c ≡ takes_by (takes (state_of state.now)) ((classes_of classes.now).member c) }
{
    match state {
        State::Char { ch, .. } => class_with(classes, *ch),
        State::Ranges { .. } => taken_among(state, classes),
        _ => 0,
    }
}

// Returns the bit of the class whose member is the character, if it is one of the first.
fn class_with(classes: &Classes, ch: char) -> u64
    ensures { (c : ℕ) → c < 64 → has_bit result c ≡ takes_by (λ d. d == ch) ((classes_of classes.now).member c) }
{
    match classes.with_member(ch) {
        Some(class) => bit_of(class),
        None => 0,
    }
}

// Returns a bit for each of the first classes that the state takes, which tries each of them.
fn taken_among(state: &State, classes: &Classes) -> u64
    requires { HasRanges (state_of state.now) }
    ensures { (c : ℕ) → c < 64 → has_bit result c ≡ takes_by (takes (state_of state.now)) ((classes_of classes.now).member c) }
{
    let mut bits = 0u64;
    for class in 0..classes.len().min(CLASSES) {
        if takes(state, classes.member(class)) {
            bits |= 1u64 << class;
        }
    }
    bits
}

// Returns whether the state takes the character. None takes the end.
fn takes(state: &State, ch: Option<char>) -> bool
    requires { HasRanges (state_of state.now) }
    ensures { result ≡ takes_by (takes (state_of state.now)) ch }
{
    match ch {
        None => false,
        Some(ch) => match state {
            State::Char { ch: own, .. } => ch == *own,
            _ => state.takes(ch),
        },
    }
}

/// Returns a bit for each of some classes: whether those of the threads that take it are those that take this one. There is no bit if no
/// other class has one.
pub(crate) fn alike_classes(bits: &[u64], takers: &[Frame], class: usize, among: u64) -> u64
    ensures { (p : programs.Program) (k : kinds.Classes) → AreTaken p k bits.now → (c : ℕ) → has_bit result c ≡ true →
        taken p (k.member c) (map frame_of takers.now) ≡ taken p (k.member class) (map frame_of takers.now) }
{
    if class >= CLASSES {
        return 0;
    }
    let mut alike = among;
    for taker in takers {
        let state = taker.state as usize;
        if state >= bits.len() {
            return 0;
        }
        let own = bits[state];
        alike &= if has_bit(own, class) { own } else { !own };
        if alike == 0 {
            return 0;
        }
    }
    alike
}

/// Returns whether the state is known not to take the class.
pub(crate) fn is_refused(bits: &[u64], state: u32, class: usize) -> bool
    ensures { result ≡ true → (p : programs.Program) (k : kinds.Classes) → AreTaken p k bits.now →
        targets_over (k.member class) (state_at p.states state) ≡ [] }
{
    let state = state as usize;
    if class >= CLASSES || state >= bits.len() || has_bit(bits[state], class) {
        return false;
    }
    true
}

/// Returns a bit for each class that none of the threads takes.
pub(crate) fn refused_classes(bits: &[u64], takers: &[Frame]) -> u64
    ensures { (p : programs.Program) (k : kinds.Classes) → AreTaken p k bits.now → (c : ℕ) → has_bit result c ≡ true →
        taken p (k.member c) (map frame_of takers.now) ≡ [] }
{
    let mut refused = u64::MAX;
    for taker in takers {
        let state = taker.state as usize;
        if state >= bits.len() {
            return 0;
        }
        refused &= !bits[state];
    }
    refused
}

/// Returns the bits of so many classes, as far as they have some.
pub(crate) fn bits_of(classes: usize) -> u64 {
    bit_of(classes).wrapping_sub(1)
}

/// Returns the first class that has its bit, or 64 if none has.
pub(crate) fn first_of(bits: u64) -> usize
    ensures { result ≤ 64 }
{
    bits.trailing_zeros() as usize
}

/// Returns the bit of a class. Only the first ones have one.
pub(crate) fn bit_of(class: usize) -> u64
    ensures { (c : ℕ) → c < 64 → has_bit result c ≡ (c == class) }
{
    if class < CLASSES { 1u64 << class } else { 0 }
}
