//! Where the characters begin that a program tells apart.

ghost use Rattle.std.specs.Prelude.{◌≡◌, ◌++◌, [], if◌then◌else◌, IfOk, IfSome};
ghost use Rattle.bites_machine.specs.States.{state_of, states_of};
ghost use Rattle.bites_table.specs.Blocks.{AreIntervals};
ghost use Rattle.bites_table.specs.Bounds.{ends_of, bounds_after, bounds_of_state, bounds_of, bounds_of_kinds, AreBounds};

use crate::distinctions::Distinctions;
use crate::visited::ROOM;
use bites_machine::state::State;
use std::alloc::{AllocError, Global};

// For how many bounds of each state there is room at first.
const BOUNDS_OF_STATE: usize = 2;

// The characters of the kinds, in ranges.
pub(crate) const LINE_FEED: [(char, char); 1] = [('\n', '\n')];

pub(crate) const CARRIAGE_RETURN: [(char, char); 1] = [('\r', '\r')];

pub(crate) const WORD: [(char, char); 4] = [('0', '9'), ('A', 'Z'), ('_', '_'), ('a', 'z')];

/// Returns rising numbers from 0 on. No state takes one of two characters and not the other if none of these numbers lies
/// above one and not above the other, and their kinds are not told apart either. Returns `None` if memory runs out.
pub(crate) fn bounds(alloc: Global, states: &[State], kinds: Distinctions) -> Option<Vec<u32>>
    ensures bounds { IfSome result (λ bounds. AreBounds (states_of states.now) kinds bounds.items) }
    ensures begins { IfSome result (λ bounds. AreIntervals bounds.items) }
{
    let room = states.len().saturating_mul(BOUNDS_OF_STATE).max(ROOM);
    let mut bounds = Vec::with_capacity(alloc, room).ok()?;
    bounds.push(0).ok()?;
    push_kinds(&mut bounds, kinds).ok()?;
    push_states(&mut bounds, states).ok()?;
    bounds.sort_unstable();
    bounds.dedup();
    Some(bounds)
}

fn push_kinds(bounds: &mut Vec<u32>, kinds: Distinctions) -> Result<(), AllocError>
    ensures { IfOk result (λ _. bounds.new.items ≡ bounds.old.items ++ bounds_of_kinds kinds) }
{
    push_if(bounds, kinds.line, &LINE_FEED)?;
    push_if(bounds, kinds.carriage_return, &CARRIAGE_RETURN)?;
    push_if(bounds, kinds.word, &WORD)
}

fn push_if(bounds: &mut Vec<u32>, wanted: bool, ranges: &[(char, char)]) -> Result<(), AllocError>
    ensures { IfOk result (λ _. bounds.new.items
        ≡ bounds.old.items ++ (if wanted then ends_of ranges.now else [])) }
{
    if wanted {
        push_ranges(bounds, ranges)?;
    }
    Ok(())
}

fn push_states(bounds: &mut Vec<u32>, states: &[State]) -> Result<(), AllocError>
    ensures { IfOk result (λ _. bounds.new.items ≡ bounds.old.items ++ bounds_of (states_of states.now)) }
{
    for state in states {
        push_state(bounds, state)?;
    }
    Ok(())
}

fn push_state(bounds: &mut Vec<u32>, state: &State) -> Result<(), AllocError>
    ensures { IfOk result (λ _. bounds.new.items ≡ bounds.old.items ++ bounds_of_state (state_of state.now)) }
{
    match state {
        State::Char { ch, .. } => push_ranges(bounds, &[(*ch, *ch)]),
        State::Ranges { ranges, .. } => push_ranges(bounds, ranges.as_slice()),
        _ => Ok(()),
    }
}

fn push_ranges(bounds: &mut Vec<u32>, ranges: &[(char, char)]) -> Result<(), AllocError>
    ensures { IfOk result (λ _. bounds.new.items ≡ bounds.old.items ++ ends_of ranges.now) }
{
    for (first, last) in ranges {
        bounds.push(*first as u32)?;
        push_after(bounds, *last)?;
    }
    Ok(())
}

// Pushes the next character, if there is one.
fn push_after(bounds: &mut Vec<u32>, ch: char) -> Result<(), AllocError>
    ensures { IfOk result (λ _. bounds.new.items ≡ bounds.old.items ++ bounds_after ch) }
{
    match ch {
        char::MAX => {}
        '\u{D7FF}' => bounds.push(0xE000)?,
        _ => bounds.push(ch as u32 + 1)?,
    }
    Ok(())
}
