//! What is known of the matches of a pattern before a search.

ghost use Rattle.std.specs.Prelude.{◌≤◌, IfSome};
ghost use Rattle.bites_bytes.specs.FixedGroups.{IsPrefilterWithSlots};

use crate::bytes::fixed_groups::slots_of;
use bites_literals::prefilter::Prefilter;
use bites_machine::slot::Slot;
use bites_syntax::tree::Tree;
use std::alloc::Global;

/// From where a search has to begin, and the slots of the one match, if it is known that there is no other.
#[derive(Drop)]
pub(super) struct PrefilterWithSlots {
    pub prefilter: Prefilter,
    pub slots: Option<Vec<Slot>>,
}

impl PrefilterWithSlots {
    /// Returns what is known of the tree's matches, if that is worth a search, and if there is memory for it. A match has `count`
    /// slots.
    pub(super) fn of(alloc: Global, tree: &Tree, count: usize) -> Option<PrefilterWithSlots>
        requires { 2 ≤ count }
        ensures { IfSome result (IsPrefilterWithSlots tree.now count) }
    {
        let prefilter = Prefilter::of(alloc, tree)?;
        let slots = match prefilter.fixed_width() {
            Some(fixed) => Some(slots_of(alloc, fixed, count)?),
            None => None,
        };
        Some(PrefilterWithSlots { prefilter, slots })
    }
}
