//! Thread lists, and where the rows of their threads come from.

ghost use Rattle.std.specs.Prelude.{◌≡◌, IfSome};
ghost use Rattle.bites_machine.specs.Bits.{has_bit};
ghost use Rattle.bites_table.specs.Sources.{unwritten, row_of_register, write};
ghost use Rattle.bites_table.specs.Transition.{starts_after, is_walked, cuts_off};
ghost use Rattle.bites_table.specs.Built.{source_of, starts_as};

use crate::kind::Kind;

// The number of slots that a source can name.
const SLOTS: u32 = 64;

/// A thread of a thread list: the state that it continues from, and the register that holds its row of slots.
#[derive(Clone, Copy, PartialEq, Eq, Drop)]
pub struct Thread {
    pub state: u32,
    pub register: u32,
}

/// Where a search walks the start of the program, and whether it is for the longest match.
#[derive(Clone, Copy, PartialEq, Eq, Debug)]
pub enum Starts {
    /// At each place until something is found.
    Everywhere,
    /// At this place alone.
    Here,
    /// No more.
    Nowhere,
    /// At this place alone, in a search for the longest match.
    LongestHere,
    /// No more, in a search for the longest match.
    LongestNowhere,
}

impl Starts {
    /// Returns whether the start is walked at this place.
    pub(crate) fn is_walked(self) -> bool
        ensures { result ≡ is_walked (starts_as self) }
    {
        !matches!(self, Starts::Nowhere | Starts::LongestNowhere)
    }

    /// Returns whether a match cuts off the threads after it, as all do but in a search for the longest one.
    pub(crate) fn cuts_off(self) -> bool
        ensures { result ≡ cuts_off (starts_as self) }
    {
        !matches!(self, Starts::LongestHere | Starts::LongestNowhere)
    }

    /// Returns where the start is walked after this place, by whether something was found here.
    pub(crate) fn after(self, found: bool) -> Starts
        ensures { starts_as result ≡ starts_after found (starts_as self) }
    {
        match self {
            Starts::Everywhere if !found => Starts::Everywhere,
            Starts::Everywhere | Starts::Here | Starts::Nowhere => Starts::Nowhere,
            Starts::LongestHere | Starts::LongestNowhere => Starts::LongestNowhere,
        }
    }
}

/// The threads of a place in order of preference, where the start is walked after them, and the kind of the byte before.
#[derive(Clone, Copy, Drop)]
pub struct ThreadList<'a> {
    pub threads: &'a [Thread],
    pub starts: Starts,
    pub kind: Kind,
}

/// Where a row of slots comes from: from a register, or if there is none from the row in which nothing is written; with a
/// bit for each slot that is written at this place.
#[derive(Clone, Copy, PartialEq, Eq, Drop)]
pub struct Source {
    pub register: Option<u32>,
    pub writes: u64,
}

impl Source {
    /// Returns the row in which nothing is written.
    pub(crate) fn unwritten() -> Source
        ensures { source_of result ≡ unwritten }
    {
        Source {
            register: None,
            writes: 0,
        }
    }

    /// Returns the row of a register as it is.
    pub(crate) fn of_register(register: u32) -> Source
        ensures { source_of result ≡ row_of_register register }
    {
        Source {
            register: Some(register),
            writes: 0,
        }
    }

    /// Returns whether a slot is written.
    pub(crate) fn has_written(&self, slot: usize) -> bool
        ensures { result ≡ has_bit self.now.writes slot }
    {
        has_bit(self.writes, slot)
    }

    /// Returns the row with one more slot written, or `None` if no bit is left for the slot.
    pub(crate) fn write(self, slot: u32) -> Option<Source>
        ensures { IfSome result (λ s. source_of s ≡ write slot (source_of self)) }
    {
        if slot >= SLOTS {
            return None;
        }
        Some(Source {
            register: self.register,
            writes: self.writes | 1u64 << slot,
        })
    }
}

/// Returns whether the bit of that number is 1.
pub(crate) fn has_bit(bits: u64, number: usize) -> bool
    ensures { result ≡ has_bit bits number }
{
    number < SLOTS as usize && bits >> number & 1 == 1
}

/// A thread of a walk: the state that it is at, and where its row comes from.
#[derive(Clone, Copy, PartialEq, Eq, Drop)]
pub struct Frame {
    pub state: u32,
    pub source: Source,
}
