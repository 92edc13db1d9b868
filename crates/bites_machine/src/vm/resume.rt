//! A search that goes on between two places, with threads that another kind of search has left.

ghost use Rattle.std.specs.Prelude.{◌≡◌, ◌+◌, ◌<◌, ◌≤◌, [], true, false, length, map};
ghost use Rattle.bites_machine.specs.Resume.{HaveRows, thread_in};
ghost use Rattle.bites_machine.specs.Scratch.{row_of, thread_of};
ghost use Rattle.bites_machine.specs.SlotTable.{KeepsShape};
ghost use Rattle.bites_machine.specs.Used.{IsUsed};

use super::slot_table::SlotTable;
use super::threads::{Thread, Threads};
use crate::slot::Slot;

/// A thread whose row of slots lies in a register: the state that it continues from, and the number of the register.
#[derive(Clone, Copy, Drop)]
pub struct RegisterThread {
    pub state: u32,
    pub register: u32,
}

/// Where a search goes on, and with which threads, in order of preference.
#[derive(Clone, Copy, Drop)]
pub struct Resumed<'t> {
    pub place: usize,
    /// Whether the start is explored there, after the threads.
    pub starts: bool,
    pub is_found: bool,
    pub threads: &'t [RegisterThread],
    /// The place where these threads were started, if the search is for the longest match. Else it is 0.
    pub started: usize,
    /// The rows of the registers, one after another, each as wide as the slice that the search fills.
    pub registers: &'t [Slot],
    /// Whether the search stops where no thread is left, though the start is still explored.
    pub until_idle: bool,
}

impl Resumed<'_> {
    /// Returns the start of a search, which has no threads.
    pub(super) fn at_start(place: usize) -> Resumed<'static>
        ensures place { result.place ≡ place }
        ensures starts { result.starts ≡ true }
        ensures is_found { result.is_found ≡ false }
        ensures threads { result.threads.now ≡ [] }
        ensures until_idle { result.until_idle ≡ false }
    {
        Resumed {
            place,
            starts: true,
            is_found: false,
            threads: &[],
            started: 0,
            registers: &[],
            until_idle: false,
        }
    }
}

/// How a search stopped: whether a match was found, and if the search is not over, the place where no thread is left.
#[derive(Clone, Copy, Drop)]
pub struct Stopped {
    pub is_found: bool,
    pub idle: Option<usize>,
}

/// Appends the threads to an empty list, each with a row of its own.
pub(super) fn load(
    rows: &mut SlotTable,
    threads: &mut Threads,
    from: &Resumed<'_>,
    slots_per_row: usize,
)
    requires empty { threads.old.threads ≡ [] }
    requires used { IsUsed rows.old [] }
    requires slots_per_row { slots_per_row ≡ rows.old.slots_per_row }
    requires room { length from.now.threads.now ≤ threads.old.room }
    requires more { length from.now.threads.now + 1 < length rows.old.ref_counts }
    requires registers { HaveRows from.now.registers.now slots_per_row from.now.threads.now }
    ensures used { IsUsed rows.new (map row_of threads.new.threads) }
    ensures threads { map (thread_of rows.new) threads.new.threads
        ≡ map (thread_in from.now.started from.now.registers.now slots_per_row) from.now.threads.now }
    ensures room { threads.new.room ≡ threads.old.room }
    ensures kept { KeepsShape rows.old rows.new }
{
    let mut index = 0;
    while index < from.threads.len() {
        let RegisterThread { state, register } = from.threads[index];
        let first = register as usize * slots_per_row;
        rows.first_is_free();
        let row = rows.load(&from.registers[first..first + slots_per_row]);
        threads.push(Thread {
            state,
            row,
            start: from.started,
        });
        index += 1;
    }
}
