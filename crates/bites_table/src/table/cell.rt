//! The cells of a table, one for each thread list and class.

ghost use Rattle.std.specs.Prelude.{◌≡◌};
ghost use Rattle.bites_table.specs.Packed.{mask_of};

use std::snapshot::Snapshot;

/// The bit of a cell that names nothing that its transition does, or that is not known.
pub const UNKNOWN: u8 = 8;

/// The bit of a cell over which a search for two slots has more to do than to keep a hit.
pub const MORE: u8 = 16;

/// The bit of a cell over which a search has more to do than to run steps.
pub const STEPS: u8 = 32;

/// The bit of a cell, unless a search for two slots is over there with a hit that it has only to keep.
pub const ENDS: u8 = 64;

/// The bit of a cell over which a search for all slots has more to do than to keep a hit.
pub const MORE_FOR_ALL: u8 = 128;

/// All bits: a search of any width has to look.
pub const ALL: u8 = 255;

/// A transition as a search reads it first. It takes 8 bytes.
#[derive(Drop)]
pub struct Cell {
    /// The place of the first cell of the next thread list.
    pub next: u32,
    /// The number of what the transition does. Where a search for all slots has not to look, it is the index of the
    /// slot that such a search writes, counted over the rows of all registers: of one of the spare register if no slot is written.
    pub act: u16,
    /// A bit for each width of a search that has to look at what the transition does, one for a cell that doesn't name it, one for
    /// a search for two slots that has more to do than to keep a hit, one for such a search that isn't over there with a hit, one
    /// for a search that has more to do than to run steps, and one for a search for all slots that has more to do than to keep a hit.
    pub doing: u8,
    /// The register whose row begins at the place, in a search for two slots that has not to look. It is the spare one if no
    /// row begins. Where such a search has only to keep a hit, it is the register of the hit, whose match ends at the place.
    pub begins: u8,
    /// For proofs, the states that the transition visits.
    pub seen: Snapshot<Vec<u32>>,
    /// For proofs, the number of its looks.
    pub looks: Snapshot<usize>,
}

const _: () = prove!(size_of::<Cell>() == 8);

/// The bit of a search for two slots.
pub const TWO: u8 = 2;

/// The bit of a search for all slots of the program.
pub const WHOLE: u8 = 4;

/// Returns the bit of a search for so many slots of those of the program.
#[inline(always)]
pub const fn mask(slots: usize, width: usize) -> u8
    ensures { result ≡ mask_of slots width }
{
    if width == 0 {
        1
    } else if width == 2 {
        TWO
    } else if width == slots {
        WHOLE
    } else {
        ALL
    }
}
