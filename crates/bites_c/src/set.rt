//! The handle of a set that C holds.

ghost use Rattle.std.specs.Prelude.{◌≡◌};
ghost use Rattle.std.specs.declared.option.Option.{Option as Maybe};
ghost use Rattle.std.specs.declared.option.Option.TheVariants.{Some};
ghost use Rattle.std.specs.Coded.{codes, coded_option};
ghost use Rattle.bites_syntax.specs.TreeCode.{tree_code};
ghost use Rattle.bites_c.specs.Sets.{SetHeld as Content};
ghost use Rattle.bites_c.specs.contracts.held_set.HeldSet.{the_row};
ghost use Rattle.bites_c.specs.Holding.{holds};

use crate::handle::{ForC, Handle};
use crate::held_set::HeldSet;
use std::alloc::Global;
use std::marker::{Model, Send};

/// What C holds between calls: the pointer to a set, or null. C begins with null and never copies it.
#[repr(C)]
pub struct BitesSet {
    at: *mut (),
    alloc: Global,
    pub ghost held: { Maybe Content } by { coded_option (Prim.hlevel (codes, tree_code)) },
}

impl Model for BitesSet {
    ghost also_owns = { λ h. holds the_row h.alloc h.at h.held };
}

// A set shares its programs with its clones by a count that any thread may change.
unsafe impl Send for BitesSet {}

impl BitesSet {
    /// Returns a handle that holds this set.
    pub(crate) fn of(held: Box<HeldSet, Global>) -> BitesSet
        ensures { result.held ≡ Some held.value }
    {
        BitesSet::from_handle(Handle::of(held))
    }
}

impl ForC for BitesSet {
    type Held = HeldSet;

    ghost holding = { λ h. h.held };

    fn into_handle(self) -> Handle<HeldSet> {
        let BitesSet { at, alloc } = self;
        Handle {
            at: at as *mut HeldSet,
            alloc,
        }
    }

    fn from_handle(handle: Handle<HeldSet>) -> BitesSet
        ensures { result.held ≡ handle.held }
    {
        let Handle { at, alloc } = handle;
        BitesSet {
            at: at as *mut (),
            alloc,
        }
    }
}

impl Drop for BitesSet {
    fn drop(self) {
        self.into_handle().free();
    }
}
