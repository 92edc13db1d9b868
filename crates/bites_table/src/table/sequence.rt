//! Steps, one after another, for moves that are made at once.

ghost use Rattle.std.specs.Prelude.{◌≡◌, ◌++◌, ◌<◌, ◌≤◌, ℕ, List, [], true, false, length, map, Some, IfSome, slice_range, slice_index_or, slice_set};
ghost use Rattle.bites_table.specs.Sources.{row_of_register};
ghost use Rattle.bites_table.specs.Transition.{source_at};
ghost use Rattle.bites_table.specs.Built.{source_of};
ghost use Rattle.bites_table.specs.Steps.{NameRegisters, MakeMoves, most_registers, with_spare, sources_after, base_of, Gives, HasRows, IsOrder};
ghost use Rattle.bites_table.specs.Packed.{IsPartOf};
ghost use Rattle.bites_table.specs.declared.steps.Step.{Step};

use crate::steps::{MOST_REGISTERS, REGISTERS, SPARE, Step};
use crate::table::act::Part;
use crate::thread_list::Source;

const SLOTS: usize = 64;

/// Appends steps that make the moves, found in the memory of `found`. Returns where they stand, or `None` if there are too many
/// registers, or if memory or numbers run out.
pub(crate) fn push_steps(
    steps: &mut Vec<Step>,
    found: &mut Vec<Step>,
    moves: &[Source],
) -> Option<Part>
    ensures grows { (more : List Step) × (steps.new.items ≡ steps.old.items ++ more) }
    ensures part { IfSome result (λ part. IsPartOf (length steps.new.items) part) }
    ensures names { NameRegisters steps.old.items → NameRegisters steps.new.items }
    ensures few { IfSome result (λ _. length moves.now ≤ most_registers) }
    ensures moves { IfSome result (λ part. MakeMoves (slice_range steps.new.items part.from part.to) (map source_of moves.now)) }
{
    if are_own(moves) {
        return Some(Part { from: 0, to: 0 });
    }
    find_steps(found, moves)?;
    let from = u32::try_from(steps.len()).ok()?;
    let to = from.checked_add(u32::try_from(found.len()).ok()?)?;
    steps.extend_from_slice(found).ok()?;
    Some(Part { from, to })
}

// Returns whether each register keeps its row as it is, and there are few.
fn are_own(moves: &[Source]) -> bool
    ensures few { result ≡ true → length moves.now ≤ most_registers }
    ensures moves { result ≡ true → MakeMoves [] (map source_of moves.now) }
{
    if moves.len() > MOST_REGISTERS {
        return false;
    }
    for to in 0..moves.len() {
        if !keeps_row(moves[to], to as u32) {
            return false;
        }
    }
    true
}

/// Returns whether the source is the row of the register as it is.
pub(crate) fn keeps_row(source: Source, register: u32) -> bool
    ensures { result ≡ true → source_of source ≡ row_of_register register }
{
    source == Source::of_register(register)
}

// Finds steps for the moves: those of a register as soon as no other needs its row. Returns `None` if there are too many
// registers, or if memory runs out.
fn find_steps(steps: &mut Vec<Step>, moves: &[Source]) -> Option<()>
    ensures few { IfSome result (λ _. length moves.now ≤ most_registers) }
    ensures names { IfSome result (λ _. NameRegisters steps.new.items) }
    ensures moves { IfSome result (λ _. MakeMoves steps.new.items (map source_of moves.now)) }
{
    steps.clear();
    if moves.len() > MOST_REGISTERS {
        return None;
    }
    let mut order = Order::of(moves);
    for _ in 0..2 * REGISTERS {
        if order.push_free(steps, moves)? {
            return Some(());
        }
    }
    None
}

// Which registers have the rows that are moved to them; for each register how many rows that are still to be moved come from
// it; and the one whose row was copied to the spare register.
#[derive(Drop)]
struct Order {
    is_done: [bool; MOST_REGISTERS],
    users: [u8; MOST_REGISTERS],
    spared: Option<u32>,
}

impl Order {
    fn of(moves: &[Source]) -> Order
        ensures { IsOrder moves.now result [] }
    {
        Order {
            is_done: [false; MOST_REGISTERS],
            users: users_of(moves),
            spared: None,
        }
    }

    // Moves its row to each register whose own row no other needs. If there is none, one that is left is spared. Returns whether
    // none is left.
    fn push_free(&mut self, steps: &mut Vec<Step>, moves: &[Source]) -> Option<bool>
        requires few { length moves.now ≤ most_registers }
        requires order { IsOrder moves.now self.old steps.old.items }
        ensures order { IfSome result (λ _. IsOrder moves.now self.new steps.new.items) }
        ensures done { result ≡ Some true → (r : ℕ) → r < length moves.now → slice_index_or self.new.is_done r false ≡ true }
    {
        let mut left = None;
        let mut is_some = false;
        for to in 0..moves.len() {
            if self.is_done[to] {
                continue;
            }
            if self.users[to] == 0 {
                self.push_move(steps, moves, to)?;
                is_some = true;
            } else {
                left = Some(to);
            }
        }
        let Some(to) = left else {
            return Some(true);
        };
        if !is_some {
            self.spare(steps, moves, to)?;
        }
        Some(false)
    }

    // Moves its row to a register.
    fn push_move(&mut self, steps: &mut Vec<Step>, moves: &[Source], to: usize) -> Option<()>
        requires few { length moves.now ≤ most_registers }
        requires within { to < length moves.now }
        requires order { IsOrder moves.now self.old steps.old.items }
        requires left { slice_index_or self.old.is_done to false ≡ false }
        ensures order { IfSome result (λ _. IsOrder moves.now self.new steps.new.items) }
        ensures done { IfSome result (λ _. self.new.is_done ≡ slice_set self.old.is_done to true) }
    {
        let source = moves[to];
        self.push_base(steps, to as u8, source)?;
        push_writes(steps, to as u8, source)?;
        self.is_done[to] = true;
        Some(())
    }

    // Moves the row that a source comes from to a register.
    fn push_base(&mut self, steps: &mut Vec<Step>, to: u8, source: Source) -> Option<()>
        requires within { to < most_registers }
        requires rows { HasRows self.old steps.old.items }
        requires left { slice_index_or self.old.is_done to false ≡ false }
        ensures gives { IfSome result (λ _. Gives steps.old.items steps.new.items to (base_of source)) }
        ensures done { self.new.is_done ≡ self.old.is_done }
        ensures spared { self.new.spared ≡ self.old.spared }
    {
        let Some(register) = source.register else {
            steps.push(Step::Blank { to }).ok()?;
            return Some(());
        };
        let from = self.place_of(register)?;
        if from != to {
            steps.push(Step::Copy { to, from }).ok()?;
            self.users[register as usize] = self.users[register as usize].saturating_sub(1);
        }
        Some(())
    }

    // Returns the register where the row of a register still stands.
    fn place_of(&self, register: u32) -> Option<u8>
        ensures within { IfSome result (λ _. register < most_registers) }
        ensures few { IfSome result (λ f. f ≤ most_registers) }
        ensures row { IfSome result (λ f. (steps : List Step) → HasRows self.now steps →
            source_at (sources_after steps) f ≡ row_of_register register) }
    {
        if register as usize >= MOST_REGISTERS {
            return None;
        }
        if !self.is_done[register as usize] {
            return u8::try_from(register).ok();
        }
        if self.spared == Some(register) {
            Some(SPARE)
        } else {
            None
        }
    }

    // Copies the row of a register that is left to the spare one, where the others then read it.
    fn spare(&mut self, steps: &mut Vec<Step>, moves: &[Source], to: usize) -> Option<()>
        requires within { to < most_registers }
        requires order { IsOrder moves.now self.old steps.old.items }
        requires left { slice_index_or self.old.is_done to false ≡ false }
        ensures { IfSome result (λ _. IsOrder moves.now self.new steps.new.items) }
    {
        let step = Step::Copy {
            to: SPARE,
            from: to as u8,
        };
        steps.push(step).ok()?;
        self.spared = Some(to as u32);
        self.users[to] = 0;
        Some(())
    }
}

// Returns for each register how many rows of others come from it.
fn users_of(moves: &[Source]) -> [u8; MOST_REGISTERS] {
    let mut users = [0u8; MOST_REGISTERS];
    for (to, source) in moves.iter().enumerate() {
        if let Some(from) = source.register {
            let from = from as usize;
            if from < MOST_REGISTERS && from != to {
                users[from] = users[from].saturating_add(1);
            }
        }
    }
    users
}

// Writes the slots of a source to a register that has the row which it comes from.
fn push_writes(steps: &mut Vec<Step>, register: u8, source: Source) -> Option<()>
    requires within { register < with_spare }
    requires base { source_at (sources_after steps.old.items) register ≡ base_of source }
    ensures { IfSome result (λ _. Gives steps.old.items steps.new.items register (source_of source)) }
{
    let mut own = Source {
        register: source.register,
        writes: 0,
    };
    let mut left = source.writes;
    for _ in 0..SLOTS {
        if left == 0 {
            break;
        }
        let slot = u8::try_from(left.trailing_zeros()).ok()?;
        own = own.write(u32::from(slot))?;
        steps.push(Step::Write { register, slot }).ok()?;
        left &= left.wrapping_sub(1);
    }
    if own != source {
        return None;
    }
    Some(())
}
