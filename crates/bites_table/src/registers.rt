//! The threads that take a character, and their registers.

ghost use Rattle.std.specs.Prelude.{◌≡◌, ◌<◌, ◌∷◌, ◌++◌, [], List, length, map, IfSome, slice_index_or};
ghost use Rattle.std.specs.Option.{option_to_list};
ghost use Rattle.bites_spec.specs.Program.{HasRanges, IsWellFormed};
ghost use Rattle.bites_machine.specs.Ends.{targets_over};
ghost use Rattle.bites_machine.specs.States.{state_of};
ghost use Rattle.bites_table.specs.Kinds.{Classes};
ghost use Rattle.bites_table.specs.Explored.{AreTaken};
ghost use Rattle.bites_table.specs.Sources as sources;
ghost use Rattle.bites_table.specs.Sources.{thread_with, on_row};
ghost use Rattle.bites_table.specs.Takers.{taken};
ghost use Rattle.bites_table.specs.Transition.{source_at};
ghost use Rattle.bites_table.specs.Built.{source_of, frame_of, thread_as};
ghost use Rattle.bites_table.specs.Registers.{AreAssigned};
ghost use Rattle.bites_table.specs.declared.thread_list.Source.{Source};

use crate::explore::taken::is_refused;
use crate::thread_list::{Frame, Source, Thread};
use bites_machine::program::Program;
use bites_machine::state::State;
use std::alloc::Global;

/// Threads with registers, and the source of each register. The memory is kept from one character to the next.
#[derive(Drop)]
pub(crate) struct Assigned {
    pub threads: Vec<Thread>,
    pub moves: Vec<Source>,
}

impl Assigned {
    pub(crate) fn new(alloc: Global) -> Assigned {
        Assigned {
            threads: Vec::new(alloc),
            moves: Vec::new(alloc),
        }
    }

    /// Moves the threads at states that take the class, whose member is the character, and gives each a register, in order of
    /// preference. Threads with equal sources share one. Returns `None` if memory or numbers run out.
    #[inline(always)]
    pub(crate) fn assign(
        &mut self,
        program: &Program,
        bits: &[u64],
        takers: &[Frame],
        class: usize,
        ch: Option<char>,
    ) -> Option<()>
        requires { IsWellFormed program.now.program }
        ensures { IfSome result (λ _. (k : Classes) → AreTaken program.now.program k bits.now → k.member class ≡ ch →
            AreAssigned self.new (taken program.now.program ch (map frame_of takers.now))) }
    {
        self.threads.clear();
        self.moves.clear();
        for taker in takers {
            if !is_refused(bits, taker.state, class) {
                if taker.state as usize >= program.len() {
                    return None;
                }
                match target_over(program.state(taker.state), ch) {
                    None => {}
                    Some(state) => self.push(state, taker.source)?,
                }
            }
        }
        Some(())
    }

    /// Adds threads whose registers have such sources. Returns `None` if memory or numbers run out.
    #[inline(always)]
    pub(crate) fn push_moved(&mut self, threads: &[Thread], moves: &[Source]) -> Option<()>
        ensures { IfSome result (λ _. (ts : List (sources.Thread sources.Source)) → AreAssigned self.old ts →
            AreAssigned self.new (ts ++ map (on_row (source_at (map source_of moves.now))) (map thread_as threads.now))) }
    {
        for thread in threads {
            let register = thread.register as usize;
            if register >= moves.len() {
                return None;
            }
            self.push(thread.state, moves[register])?;
        }
        Some(())
    }

    // Adds a thread.
    #[inline(always)]
    fn push(&mut self, state: u32, source: Source) -> Option<()>
        ensures { IfSome result (λ _. (ts : List (sources.Thread sources.Source)) → AreAssigned self.old ts →
            AreAssigned self.new (ts ++ thread_with (source_of source) state ∷ [])) }
    {
        let register = register_of(&mut self.moves, source)?;
        self.threads.push(Thread { state, register }).ok()?;
        Some(())
    }
}

// Returns where a state leads over the character, if it takes it.
fn target_over(state: &State, ch: Option<char>) -> Option<u32>
    requires { HasRanges (state_of state.now) }
    ensures { option_to_list result ≡ targets_over ch (state_of state.now) }
{
    let ch = ch?;
    match state {
        State::Char { target, .. } | State::Ranges { target, .. } if state.takes(ch) => Some(
            *target,
        ),
        _ => None,
    }
}

// Returns the register of a source, which is added if it is new.
#[inline(always)]
fn register_of(moves: &mut Vec<Source>, source: Source) -> Option<u32>
    ensures kept { IfSome result (λ _. (more : List Source) × (moves.new.items ≡ moves.old.items ++ more)) }
    ensures within { IfSome result (λ r. r < length moves.new.items) }
    ensures is { IfSome result (λ r. (d : Source) → slice_index_or moves.new.items r d ≡ source) }
{
    for (register, own) in moves.iter().enumerate() {
        if *own == source {
            return u32::try_from(register).ok();
        }
    }
    let register = u32::try_from(moves.len()).ok()?;
    moves.push(source).ok()?;
    Some(register)
}
