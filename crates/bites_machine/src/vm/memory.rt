//! The working memory of searches, allocated once.

ghost use Rattle.std.specs.Prelude.{◌≡◌, ◌≤◌, ◌↔◌, ℕ, suc, List, [], IfOk, IsTrue, Option, None, length, map, false, true};
ghost use Rattle.bites_spec.specs.Program as program;
ghost use Rattle.bites_spec.specs.Counts.{fit_of, fit_with, HasRoomFor, IsSlotCount, IsWalked};
ghost use Rattle.bites_spec.specs.Utf8.{places};
ghost use Rattle.bites_machine.specs.States.{states_of};
ghost use Rattle.bites_machine.specs.Explore.{ReadsAll};
ghost use Rattle.bites_machine.specs.Trace.{HasRun, ReadsVisits};
ghost use Rattle.bites_machine.specs.Sweep.{IsProgramOf, HasReached, frames_for, rows_for};
ghost use Rattle.bites_machine.specs.Resume.{HaveRows, thread_in, StopsAt};
ghost use Rattle.bites_machine.specs.Inputs.{is_longest, is_earliest, IsSearch};

use super::closure::Scratch;
use super::counted::{Counted, Searches, Trace};
use super::recorded::FirstRun;
use super::resume::{self, Resumed, Stopped};
use super::threads::Threads;
use super::{Input, pikevm};
use crate::program::Program;
use crate::slot::Slot;
use std::alloc::AllocError;
use std::marker::Model;

/// The working memory for searches of a program, or of others with as many states, slots and targets: the threads of
/// two places, a stack, a visited set, and rows of slots. No search allocates more.
pub struct Memory {
    states: usize,
    slots: usize,
    targets: usize,
    scratch: Scratch,
    threads: Threads,
    walked: Trace,
    searches: Searches,
}

// A caller that drops one relies on this function, and on no type below it.
impl Drop for Memory {
    fn drop(self) {
        let Memory {
            states: _,
            slots: _,
            targets: _,
            scratch: _,
            threads: _,
            walked: _,
            searches: _,
        } = self;
    }
}

impl Model for Memory {
    ghost use Rattle.bites_spec.specs.Counts.{Room};
    ghost use Rattle.bites_machine.specs.Sweep.{HasRoom};

    ghost Value = { Room };

    ghost view = { λ a. record {
      fits = record { states = a.states; slots = a.slots; targets = a.targets };
      walked = a.walked;
      searches = a.searches;
    } };

    ghost invariant = { λ a.
        HasRoom (record { states = a.states; slots = a.slots; targets = a.targets }) a.scratch a.threads };
}

impl Memory {
    /// Allocates the memory for searches of the program. The error is out of memory.
    ///
    /// Takes 60 bytes for each state and 16 for each frame. For each row it reserves 16 bytes, and 8 for each slot; the
    /// memory of a row is first written when a search needs the row.
    pub fn new(program: &Program) -> Result<Memory, AllocError>
        ensures { IfOk result (λ memory. memory.fits ≡ fit_of program.now.program) }
    {
        Memory::for_slots(program, program.slots())
    }

    /// Allocates the memory for searches of the program that ask for at most so many slots. The error is out of memory.
    pub fn for_slots(program: &Program, slots: usize) -> Result<Memory, AllocError>
        ensures { IfOk result (λ memory. memory.fits ≡ fit_with program.now.program slots) }
    {
        let alloc = program.alloc();
        let states = program.len();
        let targets = program.targets();
        let scratch = Scratch::new(alloc, states, slots, targets)?;
        Ok(Memory {
            states,
            slots,
            targets,
            scratch,
            threads: Threads::new(alloc, states)?,
            walked: Trace::new(),
            searches: Searches::none(),
        })
    }

    /// Returns the number of rows of slots: two for each state, one for each target, and two more. No search
    /// changes it.
    pub fn rows(&self) -> usize
        ensures { result ≡ rows_for self.now.fits }
    {
        self.scratch.rows.len()
    }

    /// Returns the number of frames that the stack of a closure holds: one for each target, and one more. No search
    /// changes it.
    pub fn frames(&self) -> usize
        ensures { result ≡ frames_for self.now.fits }
    {
        self.scratch.stack.room()
    }

    /// Returns whether the memory was made for a program with as many states, slots and targets.
    pub fn fits_program(&self, program: &Program) -> bool
        ensures { IsTrue result ↔ (self.now.fits ≡ fit_of program.now.program) }
    {
        self.states == program.len()
            && self.slots == program.slots()
            && self.targets == program.targets()
    }

    /// Begins a search of the program: returns its states with an empty record. Counts the search.
    pub fn begin<'p>(&mut self, program: &'p Program) -> Counted<'p>
        ensures states { states_of result.states.now ≡ program.now.program.states }
        ensures visits { result.walked.visits ≡ [] }
        ensures read { result.walked.read ≡ [] }
        ensures looks { result.walked.looks ≡ 0 }
        ensures searches { self.new.searches ≡ suc self.old.searches }
        ensures fits { self.new.fits ≡ self.old.fits }
    {
        self.searches.add();
        Counted::new(program.states())
    }

    /// Searches on as the input asks, from a place where another kind of search stopped, with the threads that it left.
    /// Returns how it stopped, and writes the slots of a match that it found. It may be resumed again. The program starts
    /// in the state `first`.
    ///
    /// Allocates nothing.
    pub fn resume(
        &mut self,
        counted: &mut Counted<'_>,
        first: u32,
        input: &Input<'_>,
        from: &Resumed<'_>,
        slots: &mut [Slot],
    ) -> Stopped
        requires start { input.now.start ≤ length input.now.haystack.now }
        requires registers { HaveRows from.now.registers.now (length slots.old) from.now.threads.now }
        requires reached { (p : program.Program)
            × IsProgramOf p (states_of counted.old.states.now) first
            × HasRoomFor self.old.fits p (length slots.old) × (length slots.old ≤ p.slots)
            × (before : List (Option ℕ)) × HasReached p input.now.haystack.now
            (is_longest input.now.kind) input.now.anchored (is_earliest input.now.kind) input.now.start before
            from.now.place from.now.starts from.now.is_found counted.old.walked
            (map (thread_in from.now.started from.now.registers.now (length slots.old)) from.now.threads.now) slots.old }
        ensures stopped { (p : program.Program) →
            IsProgramOf p (states_of counted.old.states.now) first →
            (before : List (Option ℕ)) → HasReached p input.now.haystack.now
            (is_longest input.now.kind) input.now.anchored (is_earliest input.now.kind) input.now.start before
            from.now.place from.now.starts from.now.is_found counted.old.walked
            (map (thread_in from.now.started from.now.registers.now (length slots.old)) from.now.threads.now) slots.old →
            StopsAt p input.now.haystack.now (is_longest input.now.kind) input.now.anchored
            (is_earliest input.now.kind) input.now.start before result.is_found result.idle slots.new
            counted.new.walked }
        ensures whole { from.now.until_idle ≡ false → result.idle ≡ None }
        ensures states { counted.new.states ≡ counted.old.states }
        ensures read { ReadsAll counted.old.walked counted.new.walked }
        ensures len { length slots.new ≡ length slots.old }
        ensures fits { self.new.fits ≡ self.old.fits }
        ensures searches { self.new.searches ≡ self.old.searches }
    {
        let (scratch, threads) = (&mut self.scratch, &mut self.threads);
        threads.clear();
        scratch.rows.setup_search(slots.len());
        resume::load(&mut scratch.rows, threads, from, slots.len());
        pikevm::run(counted, scratch, threads, first, input, from, slots)
    }

    /// Ends a search: its record is the one of the last search.
    pub fn finish(&mut self, counted: Counted<'_>)
        ensures walked { self.new.walked ≡ counted.entry.walked }
        ensures read { ReadsVisits self.new.walked }
        ensures fits { self.new.fits ≡ self.old.fits }
        ensures searches { self.new.searches ≡ self.old.searches }
    {
        self.walked = counted.into_trace();
    }

    /// Records a search that found the first run from a place on by other means than a walk: by a comparison with the haystack, say,
    /// where all runs are alike. It visited that run, and read none of its states.
    ///
    /// Costs nothing at run time.
    #[inline(always)]
    pub fn record_run(&mut self, program: &Program, haystack: &[u8], place: usize)
        requires { HasRun program.now.program haystack.now place }
        ensures walked { IsWalked program.now.program haystack.now place (places haystack.now place) true self.new.walked }
        ensures fits { self.new.fits ≡ self.old.fits }
        ensures searches { self.new.searches ≡ suc self.old.searches }
    {
        // For proofs: a program is well-formed.
        program.start();
        let mut counted = self.begin(program);
        counted.record_run(FirstRun::of(program, haystack, place));
        self.finish(counted);
    }

    /// Finds the match that the input asks for, as `search_input` does. The memory may have been made for fewer slots than
    /// the program has, if it was made for as many as the slice has.
    ///
    /// It stands in each caller up to the walk, since a search for a literal that isn't there starts past the end.
    #[inline(always)]
    pub fn search(&mut self, program: &Program, input: &Input<'_>, slots: &mut [Slot]) -> bool
        requires fits { HasRoomFor self.old.fits program.now.program (length slots.old) }
        requires slots { IsSlotCount program.now.program (length slots.old) }
        ensures search { IsSearch program.now.program input.now.haystack.now input.now.start
            input.now.anchored input.now.kind result slots.old slots.new self.old self.new }
        ensures read { self.new.walked.read ≡ self.new.walked.visits }
    {
        let mut counted = self.begin(program);
        let first = program.start();
        let is_found = if input.start <= input.haystack.len() {
            let from = Resumed::at_start(input.start);
            self.resume(&mut counted, first, input, &from, slots)
                .is_found
        } else {
            false
        };
        self.finish(counted);
        is_found
    }
}
