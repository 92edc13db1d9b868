//! The walk of a thread list: the closures of its threads, one after the other. All of it stands in each caller, as one loop.

ghost use Rattle.std.specs.Prelude.{◌≡◌, ◌∷◌, ◌++◌, ◌<◌, ◌≤◌, [], ℕ, suc, true, length, map, None, IfSome, List, option_map};
ghost use Rattle.bites_spec.specs.Program.{targets_of, IsWellFormed};
ghost use Rattle.bites_spec.specs.Program as program;
ghost use Rattle.bites_spec.specs.Closure.{WalksTo, stepped, visited};
ghost use Rattle.bites_machine.specs.States.{state_of};
ghost use Rattle.bites_table.specs.Sources.{thread_with, unwritten, on_row, row_of_register};
ghost use Rattle.bites_table.specs.Takers.{takers_by};
ghost use Rattle.bites_table.specs.Transition.{begun, cuts_off};
ghost use Rattle.bites_table.specs.Built.{kind_as, starts_as, source_of, frame_of, thread_as, list_of, walking_of};
ghost use Rattle.bites_table.specs.Made.{IsWalked};

use crate::kind::{Here, Kind};
use crate::stack::Stack;
use crate::thread_list::{Frame, Source, Starts, Thread, ThreadList};
use crate::visited::{ROOM, Visited};
use bites_machine::program::{Program, Targets};
use bites_machine::state::State;
use std::alloc::{AllocError, Global};

/// The memory of a walk: the threads that are still to be walked, the states that were visited, the threads at states that
/// take characters, and the first thread that came to a match. It is kept from one walk to the next.
#[derive(Drop)]
pub struct Walk {
    pub(crate) stack: Stack,
    pub(crate) visited: Visited,
    pub(crate) takers: Vec<Frame>,
    pub(crate) hit: Option<Frame>,
}

impl Walk {
    /// Allocates the memory for walks of this program. The error is out of memory.
    pub fn new(alloc: Global, program: &Program) -> Result<Walk, AllocError> {
        Ok(Walk {
            stack: Stack::new(alloc, ROOM)?,
            visited: Visited::new(alloc, program.len())?,
            takers: Vec::with_capacity(alloc, ROOM)?,
            hit: None,
        })
    }

    /// Returns whether nothing was found, and only the start is left to be walked.
    pub(crate) fn is_at_start(&self, program: &Program) -> bool
        ensures stack { result ≡ true → map frame_of self.now.stack ≡ thread_with unwritten program.now.program.start ∷ [] }
        ensures nothing { result ≡ true → self.now.hit ≡ None }
    {
        let start = Frame {
            state: program.start(),
            source: Source::unwritten(),
        };
        self.hit.is_none() && self.stack.is(start)
    }

    /// Forgets all threads and states.
    pub(crate) fn clear(&mut self)
        ensures { walking_of self.new 0 ≡ record { stack = []; seen = []; next = []; first_match = None; looks = 0 } }
    {
        self.stack.clear();
        self.visited.clear();
        self.takers.clear();
        self.hit = None;
    }
}

/// Walks a thread list before a byte of the kind, up to the states that take characters. Returns the number of looks, or
/// `None` if the budget has fewer, a slot or a state has no number here, or memory runs out.
#[inline(always)]
pub(crate) fn walk_list(
    walk: &mut Walk,
    program: &Program,
    list: &ThreadList<'_>,
    after: Kind,
    budget: usize,
) -> Option<usize>
    ensures walked { IfSome result (IsWalked program.now.program (list_of list.now) (kind_as after) walk.new) }
    ensures within { IfSome result (λ looks. looks ≤ budget) }
    ensures well_formed { IsWellFormed program.now.program }
{
    let before = list.kind;
    let here = Here { before, after };
    begin(walk, program, list)?;
    walk_on(walk, program, &here, list.starts, 0, budget)
}

/// Walks the threads of a list at a place, and at most the start is left. Returns as `walk_list` does.
#[inline(always)]
pub(crate) fn walk_threads(
    walk: &mut Walk,
    program: &Program,
    list: &ThreadList<'_>,
    here: &Here,
    budget: usize,
) -> Option<usize>
    ensures walked { IfSome result (λ looks. WalksTo
        (takers_by (cuts_off (starts_as list.now.starts)) (kind_as here.now.before) (kind_as here.now.after)) program.now.program
        (begun program.now.program (list_of list.now)) (walking_of walk.new looks)) }
    ensures within { IfSome result (λ looks. looks ≤ budget) }
    ensures well_formed { IsWellFormed program.now.program }
{
    begin(walk, program, list)?;
    run(walk, program, here, list.starts, 0, budget, 1)
}

/// Walks what is left after so many looks. Returns as `walk_list` does.
#[inline(always)]
pub(crate) fn walk_on(
    walk: &mut Walk,
    program: &Program,
    here: &Here,
    starts: Starts,
    looks: usize,
    budget: usize,
) -> Option<usize>
    requires { looks ≤ budget }
    ensures walks { IfSome result (λ all. WalksTo
        (takers_by (cuts_off (starts_as starts)) (kind_as here.now.before) (kind_as here.now.after)) program.now.program
        (walking_of walk.old looks) (walking_of walk.new all)) }
    ensures over { IfSome result (λ _. walk.new.stack ≡ []) }
    ensures within { IfSome result (λ all. all ≤ budget) }
{
    run(walk, program, here, starts, looks, budget, 0)
}

// Begins the walk of a thread list. Returns `None` if memory runs out.
#[inline(always)]
fn begin(walk: &mut Walk, program: &Program, list: &ThreadList<'_>) -> Option<()>
    ensures begun { IfSome result (λ _. walking_of walk.new 0 ≡ begun program.now.program (list_of list.now)) }
    ensures well_formed { IsWellFormed program.now.program }
{
    walk.clear();
    let state = program.start();
    if list.starts.is_walked() {
        let source = Source::unwritten();
        walk.stack.push(Frame { state, source })?;
    }
    push_threads(&mut walk.stack, list.threads)
}

// Pushes threads, each with the row of its register as it is. The preferred one is then uppermost.
#[inline(always)]
fn push_threads(stack: &mut Stack, threads: &[Thread]) -> Option<()>
    ensures { IfSome result (λ _. map frame_of stack.new
        ≡ map (on_row row_of_register) (map thread_as threads.now) ++ map frame_of stack.old) }
{
    let mut number = threads.len();
    while number > 0 {
        number -= 1;
        let Thread { state, register } = threads[number];
        let source = Source::of_register(register);
        stack.push(Frame { state, source })?;
    }
    Some(())
}

// Walks the uppermost thread after so many looks, until no more than some are left. Returns the number of looks, or `None` if
// the budget has fewer, a slot or a state has no number here, or memory runs out.
#[inline(always)]
fn run(
    walk: &mut Walk,
    program: &Program,
    here: &Here,
    starts: Starts,
    looks: usize,
    budget: usize,
    left: usize,
) -> Option<usize>
    requires { looks ≤ budget }
    ensures walks { IfSome result (λ all. WalksTo
        (takers_by (cuts_off (starts_as starts)) (kind_as here.now.before) (kind_as here.now.after)) program.now.program
        (walking_of walk.old looks) (walking_of walk.new all)) }
    ensures over { IfSome result (λ _. length walk.new.stack ≤ left) }
    ensures within { IfSome result (λ all. all ≤ budget) }
{
    for looks in looks..budget {
        if walk.stack.len() <= left {
            return Some(looks);
        }
        let frame = walk.stack.pop()?;
        turn(walk, program, here, starts, frame)?;
    }
    if walk.stack.len() > left {
        return None;
    }
    Some(budget)
}

// Walks one thread: one step of the walk, and one look.
#[inline(always)]
#[tactic(auto, unfolding(bites_spec::specs::Closure::stepped))]
fn turn(walk: &mut Walk, program: &Program, here: &Here, starts: Starts, frame: Frame) -> Option<()>
    ensures { IfSome result (λ _. (looks : ℕ) → walking_of walk.new (suc looks)
        ≡ stepped (takers_by (cuts_off (starts_as starts)) (kind_as here.now.before) (kind_as here.now.after)) program.now.program
        (frame_of frame ∷ map frame_of walk.old.stack) (walking_of walk.old looks)) }
{
    if frame.state as usize >= program.len() {
        return None;
    }
    if !walk.visited.insert(frame.state)? {
        return Some(());
    }
    follow(walk, here, starts, program.state(frame.state), frame)
}

// Follows a state that is visited for the first time.
#[inline(always)]
#[tactic(auto, unfolding(bites_spec::specs::Closure::visited))]
fn follow(walk: &mut Walk, here: &Here, starts: Starts, state: &State, frame: Frame) -> Option<()>
    ensures { IfSome result (λ _. (seen : List ℕ) (looks : ℕ) → walk.old.visited ≡ frame.state ∷ seen →
        walking_of walk.new (suc looks)
        ≡ visited (takers_by (cuts_off (starts_as starts)) (kind_as here.now.before) (kind_as here.now.after)) (state_of state.now)
        (frame_of frame) (map frame_of walk.old.stack) (record {
          stack = map frame_of walk.old.stack;
          seen = seen;
          next = map frame_of walk.old.takers.items;
          first_match = option_map frame_of walk.old.hit;
          looks = looks;
        })) }
{
    let source = frame.source;
    match state {
        State::Char { .. } | State::Ranges { .. } => walk.takers.push(frame).ok(),
        State::Splits { targets, reverse } => {
            push_targets(&mut walk.stack, targets, *reverse, source)
        }
        State::Goto { target, look } => {
            let state = *target;
            match look {
                Some(look) if !here.holds(*look) => Some(()),
                _ => walk.stack.push(Frame { state, source }),
            }
        }
        State::Capture { target, slot } => {
            let state = *target;
            let source = source.write(*slot)?;
            walk.stack.push(Frame { state, source })
        }
        State::Fail => Some(()),
        State::Match => {
            if walk.hit.is_none() {
                walk.hit = Some(frame);
            }
            if starts.cuts_off() {
                walk.stack.clear();
            }
            Some(())
        }
    }
}

// Pushes all targets of a split. The preferred one is then uppermost.
#[inline(always)]
fn push_targets(stack: &mut Stack, targets: &Targets, reverse: bool, source: Source) -> Option<()>
    ensures { IfSome result (λ _. map frame_of stack.new ≡ map (thread_with (source_of source))
        (targets_of (program.splits targets.now reverse)) ++ map frame_of stack.old) }
{
    let mut number = targets.len();
    while number > 0 {
        number -= 1;
        let state = targets.in_order(reverse, number);
        stack.push(Frame { state, source })?;
    }
    Some(())
}
