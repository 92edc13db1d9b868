//! The epsilon closure of one thread at one place.

ghost use Rattle.std.specs.Bool.{MatchBool};
ghost use Rattle.std.specs.Option.{option_or};
ghost use Rattle.std.specs.Prelude.{false, suc, ⊤, IfOk, MatchOption, ◌≡◌, ◌+◌, ◌*◌, ◌++◌, ◌∷◌, ◌<◌, ◌≤◌, [], drop, take, length, Some, if◌then◌else◌, is_some, option_map, option_to_list};
ghost use Rattle.bites_spec.specs.Program as program;
ghost use Rattle.bites_spec.specs.Program.{targets_of, at, state_at};
ghost use Rattle.bites_syntax.specs.View.{look_of};
ghost use Rattle.bites_machine.specs.Explore.{IsReady, Explores};
ghost use Rattle.bites_machine.specs.Scratch.{walk_state, CountsVisit, AddsThread, CanAdd, HoldsRow};
ghost use Rattle.bites_machine.specs.SlotTable.{no_slot, slots_at, with_pending, CanRead};
ghost use Rattle.bites_machine.specs.Stack.{with_frames, framed};
ghost use Rattle.bites_machine.specs.States.{states_of};
ghost use Rattle.bites_machine.specs.Sweep.{CanClose, ClosesThread, HasRoom};
ghost use Rattle.bites_machine.specs.Threads.{Listed};
ghost use Rattle.bites_machine.specs.Visits.{cuts, lets_on, CanFollow, VisitsTo};

use super::counted::Counted;
use super::position::Position;
use super::slot_table::SlotTable;
use super::stack::{Frame, Stack};
use super::state_set::StateSet;
use super::threads::{Thread, Threads};
use crate::slot::Slot;
use crate::state::State;
use crate::targets::Targets;
use bites_syntax::look::Look;
use std::alloc::{AllocError, Global};

/// The first match that a thread reached at a place: the match state, and the place where the thread was started.
#[derive(Clone, Copy, Drop)]
pub struct FirstMatch {
    pub state: u32,
    pub start: usize,
}

/// The working memory of the closures of one place. All but the rows of slots is empty when a place begins.
#[derive(Drop)]
pub struct Scratch {
    pub visited_set: StateSet,
    pub stack: Stack,
    pub rows: SlotTable,
    pub next: Threads,
    pub first_match: Option<FirstMatch>,
}

// Returns how many rows searches of so many states with so many frames need: one for each thread of two places, one for each frame,
// and one more. Returns None if there are too many to count.
fn rows_in(states: usize, frames: usize) -> Option<usize>
    ensures { MatchOption result ⊤ (λ rows. rows ≡ suc (frames + states * 2)) }
{
    let threads = states.checked_mul(2)?;
    let rows = frames.checked_add(threads)?;
    rows.checked_add(1)
}

impl Scratch {
    /// Allocates the memory for searches of a program with so many states, slots and targets. The error is out of memory.
    pub(super) fn new(
        alloc: Global,
        states: usize,
        slots: usize,
        targets: usize,
    ) -> Result<Scratch, AllocError>
        ensures { IfOk result (λ s. (list : Listed) → list.room ≡ states →
            HasRoom (record { states = states; slots = slots; targets = targets }) s list) }
    {
        let frames = targets.checked_add(1).ok_or(AllocError)?;
        let rows = rows_in(states, frames).ok_or(AllocError)?;
        Ok(Scratch {
            visited_set: StateSet::new(alloc, states)?,
            stack: Stack::new(alloc, frames)?,
            rows: SlotTable::new(alloc, rows, slots, states)?,
            next: Threads::new(alloc, states)?,
            first_match: None,
        })
    }
}

// Visits a state that was not visited at this place, and follows it. Returns the frame that is explored next, if the
// state leads to one.
#[inline(always)]
fn follow(
    counted: &mut Counted<'_>,
    scratch: &mut Scratch,
    here: &Position<'_>,
    thread: Thread,
    frame: Frame,
    slots: &mut [Slot],
) -> Option<Frame>
    requires { CanFollow here.now thread frame (walk_state counted.old scratch.old slots.old) }
    ensures visited { CountsVisit (at frame.state here.now.place) counted.old counted.new }
    ensures moves { VisitsTo here.now.haystack.now here.now.longest here.now.place
        (state_at (states_of counted.old.states.now) frame.state)
        thread frame scratch.old scratch.new slots.old slots.new result }
{
    let pending_len = frame.pending_len;
    match counted.visit(frame.state, here.place) {
        State::Char { target, ch } => {
            let takes = here.is_char(*ch);
            step_char(scratch, here.place, thread, pending_len, *target, takes);
            None
        }
        State::Ranges { target, ranges } => {
            let takes = here.is_in(ranges);
            step_char(scratch, here.place, thread, pending_len, *target, takes);
            None
        }
        State::Splits { targets, reverse } => {
            split(&mut scratch.stack, targets, *reverse, pending_len)
        }
        State::Goto { target, look } => {
            let state = *target;
            if holds(look, here) {
                Some(Frame { state, pending_len })
            } else {
                None
            }
        }
        State::Capture { target, slot } => {
            let state = *target;
            let pending_len = scratch.rows.set_pending(pending_len, *slot, slots.len());
            Some(Frame { state, pending_len })
        }
        State::Fail => None,
        State::Match => {
            record_match(scratch, here.place, thread, frame, here.longest, slots);
            None
        }
    }
}

// Adds a thread to those of the next place, which continues from the target, if the character is taken.
#[inline(always)]
fn step_char(
    scratch: &mut Scratch,
    place: usize,
    thread: Thread,
    pending_len: usize,
    target: u32,
    takes: bool,
)
    requires { CanAdd place pending_len thread scratch.old }
    ensures { MatchBool takes (AddsThread place target pending_len thread scratch.old scratch.new)
        (scratch.new ≡ scratch.old) }
{
    if takes {
        let row = scratch.rows.fork(thread.row, pending_len, place);
        scratch.next.push(Thread {
            state: target,
            row,
            start: thread.start,
        });
    }
}

// Returns whether the assertion holds here. No assertion always holds.
#[inline(always)]
pub(super) fn holds(look: &Option<Look>, here: &Position<'_>) -> bool
    ensures { result ≡ lets_on (option_map look_of look.now)
        here.now.haystack.now here.now.place }
{
    match look {
        None => true,
        Some(look) => look.is_match(here.haystack, here.place),
    }
}

// Pushes all targets of a split but the preferred one. Returns the frame of the preferred one, if there are targets.
#[inline(always)]
fn split(stack: &mut Stack, targets: &Targets, reverse: bool, pending_len: usize) -> Option<Frame>
    requires { length stack.old.frames + length targets.now ≤ stack.old.room }
    ensures frames { option_to_list result ++ stack.new.frames
        ≡ framed pending_len (targets_of (program.splits targets.now reverse)) ++ stack.old.frames }
    ensures room { stack.new.room ≡ stack.old.room }
{
    match targets.len() {
        0 => return None,
        2 => {
            let state = targets.least_preferred(reverse);
            stack.push(Frame { state, pending_len });
        }
        _ => push_each(stack, targets, reverse, pending_len),
    }
    let state = targets.preferred(reverse);
    Some(Frame { state, pending_len })
}

// Pushes all targets but the preferred one. The second in order of preference is then uppermost.
#[inline(never)]
fn push_each(stack: &mut Stack, targets: &Targets, reverse: bool, pending_len: usize)
    requires { length stack.old.frames + length targets.now ≤ stack.old.room }
    ensures { stack.new ≡ with_frames (framed pending_len
        (drop 1 (targets_of (program.splits targets.now reverse))) ++ stack.old.frames) stack.old }
{
    let mut number = targets.len();
    while number > 1 {
        number -= 1;
        let state = targets.in_order(reverse, number);
        stack.push(Frame { state, pending_len });
    }
}

// Records that the thread reached a match, and writes its slots if it is the first one at this place. Drops the frames
// that are left, unless the longest match is asked for.
#[inline(always)]
fn record_match(
    scratch: &mut Scratch,
    place: usize,
    thread: Thread,
    frame: Frame,
    longest: bool,
    slots: &mut [Slot],
)
    requires read { CanRead thread.row frame.pending_len scratch.old.rows }
    requires slots_per_row { length slots.old ≡ scratch.old.rows.slots_per_row }
    requires place { place < no_slot }
    ensures first_match { scratch.new.first_match ≡ option_or scratch.old.first_match
        (Some (record { state = frame.state; start = thread.start })) }
    ensures slots { slots.new ≡ (if is_some scratch.old.first_match then slots.old
        else with_pending place (take frame.pending_len scratch.old.rows.pending)
        (slots_at scratch.old.rows thread.row)) }
    ensures frames { scratch.new.stack.frames ≡ (if longest then scratch.old.stack.frames else []) }
    ensures room { scratch.new.stack.room ≡ scratch.old.stack.room }
    ensures visited_set { scratch.new.visited_set ≡ scratch.old.visited_set }
    ensures rows { scratch.new.rows ≡ scratch.old.rows }
    ensures next { scratch.new.next ≡ scratch.old.next }
{
    if scratch.first_match.is_none() {
        scratch
            .rows
            .write_match(thread.row, frame.pending_len, place, slots);
        scratch.first_match = Some(FirstMatch {
            state: frame.state,
            start: thread.start,
        });
    }
    if !longest {
        scratch.stack.clear();
    }
}

// Explores one frame: visits its state, if it was not visited at this place. Returns the frame that is explored next,
// if there is one.
#[inline(always)]
fn explore(
    counted: &mut Counted<'_>,
    scratch: &mut Scratch,
    here: &Position<'_>,
    thread: Thread,
    frame: Frame,
    slots: &mut [Slot],
) -> Option<Frame>
    requires ready { IsReady here.now thread (frame ∷ scratch.old.stack.frames)
        (walk_state counted.old scratch.old slots.old) }
    requires used { HoldsRow scratch.old thread }
    ensures { Explores here.now thread frame (walk_state counted.old scratch.old slots.old)
        (walk_state counted.new scratch.new slots.new) result }
{
    counted.step();
    if !scratch.visited_set.insert(frame.state) {
        return scratch.stack.pop();
    }
    match follow(counted, scratch, here, thread, frame, slots) {
        Some(frame) => Some(frame),
        None => scratch.stack.pop(),
    }
}

// Explores all states that a thread reaches without taking a character, and releases its row.
#[inline(always)]
pub(super) fn epsilon_closure(
    counted: &mut Counted<'_>,
    scratch: &mut Scratch,
    here: &Position<'_>,
    thread: Thread,
    slots: &mut [Slot],
)
    requires close { CanClose here.now thread (walk_state counted.old scratch.old slots.old) }
    requires kept { cuts here.now.longest thread.start scratch.old.first_match ≡ false }
    ensures { ClosesThread here.now thread (walk_state counted.old scratch.old slots.old)
        (walk_state counted.new scratch.new slots.new) }
{
    let mut next = Some(Frame {
        state: thread.state,
        pending_len: 0,
    });
    while let Some(frame) = next {
        next = explore(counted, scratch, here, thread, frame, slots);
    }
    scratch.rows.release(thread.row);
}
