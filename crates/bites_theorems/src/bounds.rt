//! The bounds on visits and looks are reached: no smaller ones would hold of every search.

ghost use Rattle.std.specs.Prelude.{◌≡◌, ◌+◌, ◌*◌, length, IfOk};
ghost use Rattle.bites_spec.specs.Utf8.{places};
ghost use Rattle.bites_spec.specs.Program.{targets};
ghost use Rattle.bites_spec.specs.Counts.{fit_of};
ghost use Rattle.bites_spec.specs.Refutations.{dead_end};

use bites_machine::program::{BadProgram, Program, State};
use bites_machine::vm::{Cache, search};
use std::alloc::Global;

/// Makes a program of two states: one that leads to the other, and one that leads nowhere.
pub fn dead_end_program(alloc: Global) -> Result<Program, BadProgram>
    ensures { IfOk result (λ p. p.program ≡ dead_end) }
{
    let leads_on = State::Goto {
        target: 1,
        look: None,
    };
    let Ok(states) = vec![in alloc; leads_on, State::Fail] else {
        return Err(BadProgram::Memory);
    };
    Program::from_states(alloc, states, 0, 2)
}

/// Searches a haystack with this program. On every haystack and from every start the search makes as many visits and as
/// many looks as the bounds allow.
pub fn search_dead_end(program: &Program, cache: &mut Cache, haystack: &[u8], start: usize) -> bool
    requires program { program.now.program ≡ dead_end }
    requires cache { cache.old.fits ≡ fit_of program.now.program }
    ensures visits { length cache.new.walked.visits
        ≡ length dead_end.states * length (places haystack.now start) }
    ensures looks { cache.new.walked.looks
        ≡ (targets dead_end + 1) * length (places haystack.now start) }
{
    search(program, cache, haystack, start, false, &mut [])
}
