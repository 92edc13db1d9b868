//! The working memory of searches by a table, allocated once.

ghost use Rattle.std.specs.Prelude.{◌≡◌, ◌*◌, ◌≤◌, ◌↔◌, ℕ, suc, false, true, [], ◌∷◌, IfOk, IfSome, IsTrue, None, length, reverse};
ghost use Rattle.bites_spec.specs.Counts.{fit_of, fit_with, HasRoomFor, IsSlotCount, IsWalked};
ghost use Rattle.bites_spec.specs.Utf8.{places};
ghost use Rattle.bites_machine.specs.Sweep.{SearchResult};
ghost use Rattle.bites_machine.specs.Trace.{HasRun, ReadsVisits};
ghost use Rattle.bites_machine.specs.Inputs.{is_longest, is_earliest, IsSearch};
ghost use Rattle.bites_table.specs.Packed.{IsTableOf};
ghost use Rattle.bites_table.specs.Standing.{IsServed};
ghost use Rattle.bites_table.specs.Searches.{Serves};
ghost use Rattle.bites_table.specs.Steps.{with_spare};
ghost use Rattle.bites_table.specs.Trace.{LeadTo, asked_of};
ghost use Rattle.bites_table.specs.declared.trace.How.TheVariants.{Walked};

use crate::search::record::Search;
use crate::steps::REGISTERS;
use crate::table::Table;
use crate::trace::{How, Stretch, TracedSearch};
use bites_machine::program::Program;
use bites_machine::slot::Slot;
use bites_machine::vm::{self, Input, MatchKind};
use std::alloc::AllocError;
use std::marker::Model;

/// The working memory for searches of a program, or of others with as many states, slots and targets: that of the Pike VM,
/// and the rows of a table's registers. No search allocates more.
pub struct Cache {
    machine: vm::Memory,
    registers: Vec<Slot>,
}

// A caller that drops one relies on this function, and on no type below it.
impl Drop for Cache {
    fn drop(self) {
        let Cache {
            machine: _,
            registers: _,
        } = self;
    }
}

impl Model for Cache {
    ghost use Rattle.bites_spec.specs.Counts.{Room};
    ghost use Rattle.std.specs.Prelude.{◌≡◌, ◌*◌, length};
    ghost use Rattle.bites_table.specs.Steps.{with_spare};

    ghost Value = { Room };

    ghost view = { λ a. a.machine };

    ghost invariant = { λ a. length a.registers.items ≡ with_spare * a.machine.fits.slots };
}

impl Cache {
    /// Allocates a cache for searches of the program. The error is out of memory.
    ///
    /// Takes as much as the cache of the Pike VM, and for each slot 520 bytes more.
    pub fn new(program: &Program) -> Result<Cache, AllocError>
        ensures { IfOk result (λ cache. cache.fits ≡ fit_of program.now.program) }
    {
        Cache::for_slots(program, program.slots())
    }

    /// Allocates a cache for searches of the program that ask for at most so many slots. The error is out of memory.
    pub fn for_slots(program: &Program, slots: usize) -> Result<Cache, AllocError>
        ensures { IfOk result (λ cache. cache.fits ≡ fit_with program.now.program slots) }
    {
        let registers = registers_for(program, slots)?;
        let machine = vm::Memory::for_slots(program, slots)?;
        Ok(Cache { machine, registers })
    }

    /// Returns whether the cache was made for a program with as many states, slots and targets.
    pub fn fits_program(&self, program: &Program) -> bool
        ensures { IsTrue result ↔ (self.now.fits ≡ fit_of program.now.program) }
    {
        self.machine.fits_program(program)
    }

    /// Finds the match that the input asks for, and writes its first `slots.len()` slots. Returns whether there is one;
    /// `slots` is unchanged if not. A start past the end of the haystack finds nothing. The cache may have been made for
    /// fewer slots than the program has, if it was made for as many as the slice has.
    ///
    /// With a table of the program it reads at each place one transition, as far as transitions are known, and else explores the
    /// states as the Pike VM. Visits each state of the program at most once at each offset, and allocates nothing. An anchored
    /// search stops when no thread is left. A table serves searches for the longest match at one place if its lists for searches at
    /// one place are made for these, and then no other search at one place. For the longest match from a place on none is used.
    ///
    /// For proofs: the contract is that of the Pike VM's search. Without a table each visit was the reading of a state.
    #[inline(always)]
    pub fn search(
        &mut self,
        program: &Program,
        table: Option<&Table>,
        input: &Input<'_>,
        slots: &mut [Slot],
    ) -> bool
        requires fits { HasRoomFor self.old.fits program.now.program (length slots.old) }
        requires slots { IsSlotCount program.now.program (length slots.old) }
        requires table { IfSome table (λ t. IsTableOf program.now.program t.now) }
        ensures search { IsSearch program.now.program input.now.haystack.now input.now.start
            input.now.anchored input.now.kind result slots.old slots.new self.old self.new }
        ensures read { table.entry ≡ None → self.new.walked.read ≡ self.new.walked.visits }
    {
        // For proofs: a program is well-formed.
        program.start();
        match table {
            Some(table) if serves(table, input) => self.search_by_table(
                program, table, input, slots,
            ),
            _ => self.machine.search(program, input, slots),
        }
    }

    /// Finds the match that the input asks for, as [`Cache::search`] does, and returns how the search came over the places, for
    /// people to look at. A search that makes no use of a table is one stretch, which is walked.
    ///
    /// The error is out of memory. It takes memory for each place that is passed.
    ///
    /// For proofs: each stretch begins where the one before it ends, the first one at the start. A place that is passed, and one
    /// that bytes were skipped to, has the thread list that is named: the Pike VM comes there with its threads.
    pub fn trace(
        &mut self,
        program: &Program,
        table: Option<&Table>,
        input: &Input<'_>,
        slots: &mut [Slot],
    ) -> Result<TracedSearch, AllocError>
        requires fits { HasRoomFor self.old.fits program.now.program (length slots.old) }
        requires slots { IsSlotCount program.now.program (length slots.old) }
        requires table { IfSome table (λ t. IsTableOf program.now.program t.now) }
        ensures lead { IfOk result (λ r. IfSome table.entry (λ t. (end : ℕ) ×
            LeadTo (asked_of program.now.program t.now input.now slots.old) (reverse r.stretches.items) end)) }
        ensures walked { IfOk result (λ r. table.entry ≡ None →
            r.stretches.items ≡ record { from = input.now.start; how = Walked } ∷ []) }
        ensures searched { IfOk result (λ r. input.now.start ≤ length input.now.haystack.now →
            SearchResult program.now.program input.now.haystack.now (is_longest input.now.kind)
            input.now.anchored (is_earliest input.now.kind) input.now.start r.is_found slots.old slots.new
            self.new.walked) }
        ensures fits { self.new.fits ≡ self.old.fits }
    {
        // For proofs: a program is well-formed.
        program.start();
        match table {
            Some(table) if serves(table, input) => self.trace_by_table(
                program, table, input, slots,
            ),
            _ => {
                let stretch = Stretch {
                    from: input.start,
                    how: How::Walked,
                };
                let stretches = vec![in program.alloc(); stretch]?;
                let is_found = self.machine.search(program, input, slots);
                Ok(TracedSearch {
                    is_found,
                    stretches,
                })
            }
        }
    }

    /// Records a search that found the first run from a place on by other means than a walk, as [`vm::Memory::record_run`] does.
    #[inline(always)]
    pub fn record_run(&mut self, program: &Program, haystack: &[u8], place: usize)
        requires { HasRun program.now.program haystack.now place }
        ensures walked { IsWalked program.now.program haystack.now place (places haystack.now place) true self.new.walked }
        ensures fits { self.new.fits ≡ self.old.fits }
        ensures searches { self.new.searches ≡ suc self.old.searches }
    {
        self.machine.record_run(program, haystack, place);
    }

    // Finds the match that the input asks for by a table, and returns how the search came over the places.
    fn trace_by_table(
        &mut self,
        program: &Program,
        table: &Table,
        input: &Input<'_>,
        slots: &mut [Slot],
    ) -> Result<TracedSearch, AllocError>
        requires { Serves program.now.program table.now input.now self.old.fits (length slots.old) }
        ensures lead { IfOk result (λ r. (end : ℕ) ×
            LeadTo (asked_of program.now.program table.now input.now slots.old) (reverse r.stretches.items) end) }
        ensures searched { IfOk result (λ r. SearchResult program.now.program input.now.haystack.now (is_longest input.now.kind)
            input.now.anchored (is_earliest input.now.kind) input.now.start r.is_found slots.old slots.new self.new.walked) }
        ensures fits { self.new.fits ≡ self.old.fits }
    {
        // For proofs: a program is well-formed, and has two slots at least.
        program.start();
        let mut stretches = Vec::new(program.alloc());
        let mut search = Search {
            program,
            table,
            input,
            counted: self.machine.begin(program),
        };
        let is_found = search.trace(
            &mut self.machine,
            &mut self.registers,
            slots,
            &mut stretches,
        )?;
        let Search { counted, .. } = search;
        self.machine.finish(counted);
        Ok(TracedSearch {
            is_found,
            stretches,
        })
    }

    // Finds the match that the input asks for by a table.
    #[inline(always)]
    fn search_by_table(
        &mut self,
        program: &Program,
        table: &Table,
        input: &Input<'_>,
        slots: &mut [Slot],
    ) -> bool
        requires { Serves program.now.program table.now input.now self.old.fits (length slots.old) }
        ensures searched { SearchResult program.now.program input.now.haystack.now (is_longest input.now.kind) input.now.anchored
            (is_earliest input.now.kind) input.now.start result slots.old slots.new self.new.walked }
        ensures reads { ReadsVisits self.new.walked }
        ensures fits { self.new.fits ≡ self.old.fits }
        ensures searches { self.new.searches ≡ suc self.old.searches }
    {
        // For proofs: a program is well-formed, and has two slots at least.
        program.start();
        let mut search = Search {
            program,
            table,
            input,
            counted: self.machine.begin(program),
        };
        let is_found = search.run(&mut self.machine, &mut self.registers, slots);
        let Search { counted, .. } = search;
        self.machine.finish(counted);
        is_found
    }
}

// Allocates the rows of all registers of a table, for so many slots. The error is out of memory.
fn registers_for(program: &Program, slots: usize) -> Result<Vec<Slot>, AllocError>
    ensures { IfOk result (λ registers. length registers.items ≡ with_spare * slots) }
{
    let len = slots.checked_mul(REGISTERS).ok_or(AllocError)?;
    vec![in program.alloc(); Slot::unwritten(); len]
}

// Returns whether a table serves such a search: it has lists for one that begins so, and a start past the end finds nothing.
fn serves(table: &Table, input: &Input<'_>) -> bool
    ensures within { result ≡ true → input.now.start ≤ length input.now.haystack.now }
    ensures served { result ≡ true → IsServed table.now (is_longest input.now.kind) input.now.anchored }
{
    let is_longest = matches!(input.kind, MatchKind::Longest);
    input.start <= input.haystack.len() && is_longest == (input.anchored && table.is_longest())
}
