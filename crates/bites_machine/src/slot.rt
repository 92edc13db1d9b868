//! A slot of a match.

ghost use Rattle.std.specs.Prelude.{◌≡◌, ◌<◌, None, Some};
ghost use Rattle.bites_machine.specs.SlotTable.{no_slot};

use std::fmt;
use std::marker::Model;

/// Where a group begins or ends: an offset in bytes, or nothing if the group doesn't participate. It takes one word, half as many as an
/// option.
///
/// For proofs: a contract sees an option.
#[derive(Clone, Copy, Drop)]
pub struct Slot {
    // The offset. The greatest number stands for nothing: no offset is as great, since a slice has fewer than 2^63 bytes.
    word: usize,
}

impl Model for Slot {
    ghost use Rattle.std.specs.Prelude.{ℕ, Option};
    ghost use Rattle.bites_machine.specs.SlotTable.{slot_of, word_of};

    ghost Value = { Option ℕ };

    ghost view = { λ a. slot_of a.word };

    ghost inverse = { λ slot. record { word = word_of slot } };
}

impl Slot {
    /// Returns a slot in which nothing is written.
    #[inline(always)]
    pub fn unwritten() -> Slot
        ensures { result ≡ None }
    {
        Slot { word: usize::MAX }
    }

    /// Returns a slot in which the place is written.
    #[inline(always)]
    pub fn at(place: usize) -> Slot
        requires { place < no_slot }
        ensures { result ≡ Some place }
    {
        Slot { word: place }
    }

    /// Returns the place that is written in the slot.
    #[inline(always)]
    pub fn place(self) -> Option<usize>
        ensures { result ≡ self }
    {
        if self.word == usize::MAX {
            None
        } else {
            Some(self.word)
        }
    }
}

impl fmt::Debug for Slot {
    fn fmt<W: fmt::Write>(&self, f: &mut fmt::Formatter<W>) -> fmt::Result {
        self.place().fmt(f)
    }
}
