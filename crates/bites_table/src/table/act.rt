//! What transitions do, besides leading to another thread list.

ghost use Rattle.std.specs.Prelude.{◌≡◌, length, slice_range};
ghost use Rattle.bites_table.specs.Packed.{IsPartOf};

use crate::thread_list::Frame;

/// A part of a vector, from an index up to another.
#[derive(Clone, Copy, Drop)]
pub struct Part {
    pub from: u32,
    pub to: u32,
}

/// Returns a part of a vector.
#[inline(always)]
pub(crate) fn part_of<T>(items: &[T], part: Part) -> &[T]
    requires { IsPartOf (length items.now) part }
    ensures { result.now ≡ slice_range items.now part.from part.to }
{
    &items[part.from as usize..part.to as usize]
}

/// What a transition does.
#[derive(Clone, Copy, Drop)]
pub struct Act {
    /// The thread that comes to a match.
    pub hit: Option<Frame>,
    /// The steps that move the rows of registers.
    pub steps: Part,
    /// The number of the next thread list.
    pub next: u32,
    /// Whether no thread is left there, and the start is walked no more.
    pub is_over: bool,
    /// The bits of its cells.
    pub doing: u8,
    /// The register whose row begins or ends, for its cells.
    pub begins: u8,
    /// The index, counted over the rows of all registers, of the slot that a search for all slots writes where it has not to look, for its
    /// cells.
    pub index: u16,
}
