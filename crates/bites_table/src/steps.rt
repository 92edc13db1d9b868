//! Steps that move the rows of registers.

ghost use Rattle.std.specs.Prelude.{Option, ◌≡◌, ◌≢◌, ◌*◌, ◌+◌, ◌<◌, ◌≤◌, ℕ, List, [], ◌∷◌, Some, None, IfSome, length, replicate, slice_index, slice_index_or, slice_set, if◌then◌else◌};
ghost use Rattle.bites_machine.specs.SlotTable.{no_slot};
ghost use Rattle.bites_machine.specs.Bits.{has_bit};
ghost use Rattle.std.specs.Option.{option_map_or};
ghost use Rattle.bites_machine.specs.Resume.{row_in};
ghost use Rattle.bites_table.specs.Sources as sources;
ghost use Rattle.bites_table.specs.Sources.{row_at};
ghost use Rattle.bites_table.specs.Transition.{source_at};
ghost use Rattle.bites_table.specs.Built.{source_of};
ghost use Rattle.bites_table.specs.Packed.{passed_row};
ghost use Rattle.bites_table.specs.Steps.{with_spare, own_rows, after_step, after_steps, NamesRegisters, NameRegisters, AreRows};

use crate::table::cell::{TWO, WHOLE};
use crate::thread_list::Source;
use bites_machine::slot::Slot;

/// The greatest number of registers of a thread list.
pub const MOST_REGISTERS: usize = 64;

/// The number of registers of a search: those of a thread list, and a spare one.
pub const REGISTERS: usize = 65;

/// The register that no thread has.
pub const SPARE: u8 = 64;

/// A step that changes the row of one register.
#[derive(Clone, Copy, PartialEq, Eq, Drop)]
pub enum Step {
    /// The row of a register becomes that of another.
    Copy { to: u8, from: u8 },
    /// Nothing is written in the row of a register.
    Blank { to: u8 },
    /// The place is written to a slot of the row of a register.
    Write { register: u8, slot: u8 },
}

/// Runs the steps at a place, on the rows of all registers, one after another. A slot that rows of this width don't have is
/// not written.
#[inline(always)]
pub fn run_steps(steps: &[Step], registers: &mut [Slot], width: usize, place: usize)
    requires names { NameRegisters steps.now }
    requires room { with_spare * width ≤ length registers.old }
    requires place { place < no_slot }
    ensures { (r : ℕ) → r < with_spare → row_in registers.new width r
        ≡ row_at width place (row_in registers.old width) (source_at (after_steps steps.now own_rows) r) }
{
    for step in steps {
        run_step(*step, registers, width, place);
    }
}

// Runs one step.
#[inline(always)]
fn run_step(step: Step, registers: &mut [Slot], width: usize, place: usize)
    requires names { NamesRegisters step }
    requires room { with_spare * width ≤ length registers.old }
    requires place { place < no_slot }
    ensures { (ss : List sources.Source) → length ss ≡ with_spare → (before : List (Option ℕ)) → AreRows before width place ss registers.old →
        AreRows before width place (after_step step ss) registers.new }
{
    match step {
        Step::Copy { to, from } => copy_row(registers, width, to, from),
        Step::Blank { to } => blank_row(registers, width, to),
        Step::Write { register, slot } => {
            if (slot as usize) < width {
                registers[register as usize * width + slot as usize] = Slot::at(place);
            }
        }
    }
}

// Copies the row of a register to another. But for two slots, as most searches have, that is a call, so that the loop of a search
// keeps its registers.
#[inline(always)]
fn copy_row(registers: &mut [Slot], width: usize, to: u8, from: u8)
    requires room { with_spare * width ≤ length registers.old }
    requires to { to < with_spare }
    requires from { from < with_spare }
    ensures copied { row_in registers.new width to ≡ row_in registers.old width from }
    ensures others { (r : ℕ) → r < with_spare → r ≢ to → row_in registers.new width r ≡ row_in registers.old width r }
{
    if width == 2 {
        copy_two(registers, to, from);
    } else {
        copy_slots(registers, width, to, from);
    }
}

// The same for two slots.
#[inline(always)]
fn copy_two(registers: &mut [Slot], to: u8, from: u8)
    requires room { with_spare * 2 ≤ length registers.old }
    requires to { to < with_spare }
    requires from { from < with_spare }
    ensures copied { row_in registers.new 2 to ≡ row_in registers.old 2 from }
    ensures others { (r : ℕ) → r < with_spare → r ≢ to → row_in registers.new 2 r ≡ row_in registers.old 2 r }
{
    let first = to as usize * 2;
    let source = from as usize * 2;
    registers[first] = registers[source];
    registers[first + 1] = registers[source + 1];
}

// The same for any number of slots, as a call.
#[inline(never)]
fn copy_slots(registers: &mut [Slot], width: usize, to: u8, from: u8)
    requires room { with_spare * width ≤ length registers.old }
    requires to { to < with_spare }
    requires from { from < with_spare }
    ensures copied { row_in registers.new width to ≡ row_in registers.old width from }
    ensures others { (r : ℕ) → r < with_spare → r ≢ to → row_in registers.new width r ≡ row_in registers.old width r }
{
    let source = from as usize * width;
    registers.copy_within(source..source + width, to as usize * width);
}

// Writes to no slot of the row of a register. But for two slots that is a call, too.
#[inline(always)]
fn blank_row(registers: &mut [Slot], width: usize, to: u8)
    requires room { with_spare * width ≤ length registers.old }
    requires to { to < with_spare }
    ensures blank { row_in registers.new width to ≡ replicate width None }
    ensures others { (r : ℕ) → r < with_spare → r ≢ to → row_in registers.new width r ≡ row_in registers.old width r }
{
    if width == 2 {
        blank_slots(registers, 2, to);
    } else {
        blank_more_slots(registers, width, to);
    }
}

// The same for any number of slots, as a call. For up to three groups beside the whole match it has no loop, which would be a call of
// `memset`.
#[inline(never)]
fn blank_more_slots(registers: &mut [Slot], width: usize, to: u8)
    requires room { with_spare * width ≤ length registers.old }
    requires to { to < with_spare }
    ensures blank { row_in registers.new width to ≡ replicate width None }
    ensures others { (r : ℕ) → r < with_spare → r ≢ to → row_in registers.new width r ≡ row_in registers.old width r }
{
    match width {
        4 => blank_slots(registers, 4, to),
        6 => blank_slots(registers, 6, to),
        8 => blank_slots(registers, 8, to),
        _ => blank_slots(registers, width, to),
    }
}

// The same, slot by slot.
#[inline(always)]
fn blank_slots(registers: &mut [Slot], width: usize, to: u8)
    requires room { with_spare * width ≤ length registers.old }
    requires to { to < with_spare }
    ensures blank { row_in registers.new width to ≡ replicate width None }
    ensures others { (r : ℕ) → r < with_spare → r ≢ to → row_in registers.new width r ≡ row_in registers.old width r }
{
    let first = to as usize * width;
    for slot in 0..width {
        registers[first + slot] = Slot::unwritten();
    }
}

/// Writes what a search writes where it has not to look, by the bit of its slots: with two the row of a register begins at the
/// place, and with all the place is written to the slot with an index, counted over all rows.
#[inline(always)]
pub fn pass_rows(registers: &mut [Slot], bit: u8, register: u8, index: usize, place: usize)
    ghost width: { ℕ }
    requires room { with_spare * width ≤ length registers.old }
    requires two { bit ≡ 2 → width ≡ 2 }
    requires register { register < with_spare }
    requires index { bit ≡ 4 → index < with_spare * width }
    requires place { place < no_slot }
    ensures { (r : ℕ) → r < with_spare →
        row_in registers.new width r ≡ row_at width place (row_in registers.old width) (passed_row bit width register index r) }
{
    if bit == TWO {
        let first = register as usize * 2;
        registers[first] = Slot::at(place);
        registers[first + 1] = Slot::unwritten();
    } else if bit == WHOLE {
        registers[index] = Slot::at(place);
    }
}

/// Writes the row of a register into two slots, but the place to the second of them.
#[inline(always)]
pub fn end_row(registers: &[Slot], register: u8, place: usize, slots: &mut [Slot])
    requires room { with_spare * 2 ≤ length registers.now }
    requires register { register < with_spare }
    requires width { length slots.old ≡ 2 }
    requires place { place < no_slot }
    ensures { slots.new ≡ slice_index_or registers.now (register * 2) None ∷ Some place ∷ [] }
{
    slots[0] = registers[register as usize * 2];
    slots[1] = Slot::at(place);
}

/// Writes the row that a source stands for at a place into as many slots.
pub fn write_row(source: &Source, registers: &[Slot], place: usize, slots: &mut [Slot])
    requires register { IfSome source.now.register (λ r. r * length slots.old + length slots.old ≤ length registers.now) }
    requires place { place < no_slot }
    ensures { slots.new ≡ row_at (length slots.old) place (row_in registers.now (length slots.old)) (source_of source.now) }
{
    let width = slots.len();
    // Two slots, as most searches have, are written without a loop.
    if width == 2 {
        slots[0] = slot_at(
            source.has_written(0),
            source.register,
            registers,
            width,
            0,
            place,
        );
        slots[1] = slot_at(
            source.has_written(1),
            source.register,
            registers,
            width,
            1,
            place,
        );
    } else if width > 0 {
        write_slots(source, registers, place, slots);
    }
}

// Writes the row, and then the place to the slots that are written. It is a call, so that the loop of a search keeps its registers.
#[inline(never)]
fn write_slots(source: &Source, registers: &[Slot], place: usize, slots: &mut [Slot])
    requires register { IfSome source.now.register (λ r. r * length slots.old + length slots.old ≤ length registers.now) }
    requires place { place < no_slot }
    ensures { slots.new ≡ row_at (length slots.old) place (row_in registers.now (length slots.old)) (source_of source.now) }
{
    read_row(source.register, registers, slots);
    write_places(source.writes, place, slots);
}

// Writes the row of a register into as many slots, or without one leaves them unwritten.
#[inline(always)]
fn read_row(register: Option<u32>, registers: &[Slot], slots: &mut [Slot])
    requires { IfSome register (λ r. r * length slots.old + length slots.old ≤ length registers.now) }
    ensures { slots.new ≡ option_map_or (row_in registers.now (length slots.old)) register (replicate (length slots.old) None) }
{
    match register {
        None => slots.fill(Slot::unwritten()),
        Some(register) => {
            let first = register as usize * slots.len();
            slots.copy_from_slice(&registers[first..first + slots.len()]);
        }
    }
}

// Writes a place to the slots of these bits.
#[inline(always)]
fn write_places(writes: u64, place: usize, slots: &mut [Slot])
    requires { place < no_slot }
    ensures len { length slots.new ≡ length slots.old }
    ensures slots { (k : ℕ) → k < length slots.old → slice_index_or slots.new k None
        ≡ (if has_bit writes k then Some place else slice_index_or slots.old k None) }
{
    let mut left = writes;
    'left: while left != 0 {
        let slot = left.trailing_zeros();
        write_place(slots, slot as usize, place);
        left &= !(1 << slot);
    }
}

// Writes a place to a slot, if it is there.
#[inline(always)]
fn write_place(slots: &mut [Slot], slot: usize, place: usize)
    requires { place < no_slot }
    ensures { slots.new ≡ slice_set slots.old slot (Some place) }
{
    if slot < slots.len() {
        slots[slot] = Slot::at(place);
    }
}

// Returns a slot of the row of a register, or the place if it is written there.
#[inline(always)]
fn slot_at(
    is_written: bool,
    register: Option<u32>,
    registers: &[Slot],
    width: usize,
    slot: usize,
    place: usize,
) -> Slot
    requires register { IfSome register (λ r. r * width + width ≤ length registers.now) }
    requires within { slot < width }
    requires place { place < no_slot }
    ensures { result ≡ (if is_written then Some place else
        option_map_or (λ r. slice_index_or registers.now (r * width + slot) None) register None) }
{
    if is_written {
        Slot::at(place)
    } else {
        read_slot(register, registers, width, slot)
    }
}

// Returns a slot of the row of a register.
#[inline(always)]
fn read_slot(register: Option<u32>, registers: &[Slot], width: usize, slot: usize) -> Slot
    requires register { IfSome register (λ r. r * width + width ≤ length registers.now) }
    requires within { slot < width }
    ensures { result ≡ option_map_or (λ r. slice_index_or registers.now (r * width + slot) None) register None }
{
    match register {
        None => Slot::unwritten(),
        Some(register) => registers[register as usize * width + slot],
    }
}
