//! The handle of a regex that C holds.

ghost use Rattle.std.specs.Prelude.{◌≡◌};
ghost use Rattle.std.specs.declared.option.Option.{Option as Maybe};
ghost use Rattle.std.specs.declared.option.Option.TheVariants.{Some};
ghost use Rattle.std.specs.Coded.{codes, coded_option};
ghost use Rattle.bites_syntax.specs.TreeCode.{tree_code};
ghost use Rattle.bites_c.specs.declared.held.Held.{Held as Content};
ghost use Rattle.bites_c.specs.contracts.held.Held.{the_row};
ghost use Rattle.bites_c.specs.Holding.{holds};

use crate::handle::{ForC, Handle};
use crate::held::Held;
use std::alloc::Global;
use std::marker::{Model, Send};

/// What C holds between calls: the pointer to a regex, or null. C begins with null and never copies it.
#[repr(C)]
pub struct Bites {
    at: *mut (),
    alloc: Global,
    pub ghost held: { Maybe Content } by { coded_option (Prim.hlevel (codes, tree_code)) },
}

impl Model for Bites {
    ghost also_owns = { λ h. holds the_row h.alloc h.at h.held };
}

// A regex shares its program with its clones by a count that any thread may change.
unsafe impl Send for Bites {}

impl Bites {
    /// Returns a handle that holds this regex.
    pub(crate) fn of(held: Box<Held, Global>) -> Bites
        ensures { result.held ≡ Some held.value }
    {
        Bites::from_handle(Handle::of(held))
    }
}

impl ForC for Bites {
    type Held = Held;

    ghost holding = { λ h. h.held };

    fn into_handle(self) -> Handle<Held> {
        let Bites { at, alloc } = self;
        Handle {
            at: at as *mut Held,
            alloc,
        }
    }

    fn from_handle(handle: Handle<Held>) -> Bites
        ensures { result.held ≡ handle.held }
    {
        let Handle { at, alloc } = handle;
        Bites {
            at: at as *mut (),
            alloc,
        }
    }
}

impl Drop for Bites {
    fn drop(self) {
        self.into_handle().free();
    }
}
