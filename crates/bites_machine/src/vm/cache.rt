//! The cache of searches by the Pike VM.

ghost use Rattle.std.specs.Prelude.{◌≡◌, ◌↔◌, ◌≤◌, IfOk, IsTrue, length};
ghost use Rattle.bites_spec.specs.Counts.{fit_of, HasRoomFor, IsSlotCount};
ghost use Rattle.bites_machine.specs.Inputs.{CanAsk, IsSearch};
ghost use Rattle.bites_machine.specs.Sweep.{frames_for, rows_for};

use super::Input;
use super::memory::Memory;
use crate::program::Program;
use crate::slot::Slot;
use std::alloc::AllocError;
use std::marker::Model;

/// The working memory for searches of a program, or of others with as many states, slots and targets, with room for the slots that a
/// search finds. No search allocates more.
pub struct Cache {
    memory: Memory,
    found: Vec<Slot>,
}

// A caller that drops one relies on this function, and on no type below it.
impl Drop for Cache {
    fn drop(self) {
        let Cache {
            memory: _,
            found: _,
        } = self;
    }
}

impl Model for Cache {
    ghost use Rattle.std.specs.Prelude.{◌≡◌, length};
    ghost use Rattle.bites_spec.specs.Counts.{Room};

    ghost Value = { Room };

    ghost view = { λ a. a.memory };

    ghost invariant = { λ a. length a.found.items ≡ a.memory.fits.slots };
}

impl Cache {
    /// Allocates a cache for searches of the program. The error is out of memory.
    ///
    /// Takes 60 bytes for each state, 16 for each frame and 8 for each slot. For each row it reserves 16 bytes, and 8 for each slot; the
    /// memory of a row is first written when a search needs the row.
    pub fn new(program: &Program) -> Result<Cache, AllocError>
        ensures { IfOk result (λ cache. cache.fits ≡ fit_of program.now.program) }
    {
        Ok(Cache {
            memory: Memory::new(program)?,
            found: vec![in program.alloc(); Slot::unwritten(); program.slots()]?,
        })
    }

    /// Returns the number of rows of slots: two for each state, one for each target, and two more. No search
    /// changes it.
    pub fn rows(&self) -> usize
        ensures { result ≡ rows_for self.now.fits }
    {
        self.memory.rows()
    }

    /// Returns the number of frames that the stack of a closure holds: one for each target, and one more. No search
    /// changes it.
    pub fn frames(&self) -> usize
        ensures { result ≡ frames_for self.now.fits }
    {
        self.memory.frames()
    }

    /// Returns whether the cache was made for a program with as many states, slots and targets.
    pub fn fits_program(&self, program: &Program) -> bool
        ensures { IsTrue result ↔ (self.now.fits ≡ fit_of program.now.program) }
    {
        self.memory.fits_program(program)
    }

    // Finds the match that the input asks for, as `search_input` does.
    pub(super) fn search(
        &mut self,
        program: &Program,
        input: &Input<'_>,
        slots: &mut [Option<usize>],
    ) -> bool
        requires { CanAsk program.now.program self.old.fits (length slots.old) }
        ensures search { IsSearch program.now.program input.now.haystack.now input.now.start input.now.anchored
            input.now.kind result slots.old slots.new self.old self.new }
        ensures read { self.new.walked.read ≡ self.new.walked.visits }
    {
        // For proofs: a program has two slots at least.
        program.start();
        search_first(&mut self.memory, program, input, &mut self.found, slots)
    }
}

// Searches for as many slots as are given. A match fills the first so many of `found`, from where they are read into `slots`.
fn search_first(
    memory: &mut Memory,
    program: &Program,
    input: &Input<'_>,
    found: &mut [Slot],
    slots: &mut [Option<usize>],
) -> bool
    requires fits { HasRoomFor memory.old.fits program.now.program (length slots.old) }
    requires slots { IsSlotCount program.now.program (length slots.old) }
    requires found { length slots.old ≤ length found.old }
    ensures search { IsSearch program.now.program input.now.haystack.now input.now.start input.now.anchored
        input.now.kind result slots.old slots.new memory.old memory.new }
    ensures read { memory.new.walked.read ≡ memory.new.walked.visits }
    ensures found { length found.new ≡ length found.old }
{
    let found = &mut found[..slots.len()];
    if !memory.search(program, input, found) {
        return false;
    }
    read_places(found, slots);
    true
}

// Writes the places of as many slots.
fn read_places(found: &[Slot], slots: &mut [Option<usize>])
    requires { length slots.old ≡ length found.now }
    ensures { slots.new ≡ found.now }
{
    for k in 0..slots.len() {
        slots[k] = found[k].place();
    }
}
