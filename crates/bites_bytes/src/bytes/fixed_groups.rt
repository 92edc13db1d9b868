//! The slots of a match whose place and width are known.

ghost use Rattle.std.specs.Prelude.{◌≤◌, IfSome};
ghost use Rattle.bites_bytes.specs.FixedGroups.{HoldsGroups};

use bites_literals::fixed_width::{FixedWidth, Group};
use bites_machine::slot::Slot;
use std::alloc::Global;

/// Returns `count` slots with where the match and its groups begin and end. Nothing is written in the slots of a group that doesn't
/// participate. Returns `None` if memory runs out.
pub(super) fn slots_of(alloc: Global, fixed: &FixedWidth, count: usize) -> Option<Vec<Slot>>
    requires some { 2 ≤ count }
    requires short { fixed.now.len ≤ 64 }
    ensures { IfSome result (λ slots. HoldsGroups fixed.now count slots.items) }
{
    let mut slots = vec![in alloc; Slot::unwritten(); count].ok()?;
    for group in fixed.groups() {
        let Group { number, start, end } = *group;
        let first = 2 * number as usize;
        if first + 1 < count {
            slots[first] = Slot::at(start as usize);
            slots[first + 1] = Slot::at(end as usize);
        }
    }
    slots[0] = Slot::at(0);
    slots[1] = Slot::at(fixed.len());
    Some(slots)
}
