//! The handle of a search cache that C holds.

ghost use Rattle.std.specs.Prelude.{◌≡◌};
ghost use Rattle.std.specs.declared.option.Option.{Option as Maybe};
ghost use Rattle.std.specs.declared.option.Option.TheVariants.{Some};
ghost use Rattle.std.specs.Coded.{codes, coded_option};
ghost use Rattle.bites_spec.specs.Counts.{Room as SearchRoom};
ghost use Rattle.bites_c.specs.contracts.room.Room.{the_row};
ghost use Rattle.bites_c.specs.Holding.{holds};

use crate::handle::{ForC, Handle};
use crate::room::Room;
use std::alloc::Global;
use std::marker::{Model, Send};

/// What C holds between calls: the pointer to the room for searches, or null. C begins with null and never copies it.
#[repr(C)]
pub struct BitesCache {
    at: *mut (),
    alloc: Global,
    pub ghost room: { Maybe SearchRoom } by { coded_option (Prim.hlevel codes) },
}

impl Model for BitesCache {
    ghost also_owns = { λ h. holds the_row h.alloc h.at h.room };
}

unsafe impl Send for BitesCache {}

impl BitesCache {
    /// Returns a handle that holds this room.
    pub(crate) fn of(held: Box<Room, Global>) -> BitesCache
        ensures { result.room ≡ Some held.value }
    {
        BitesCache::from_handle(Handle::of(held))
    }
}

impl ForC for BitesCache {
    type Held = Room;

    ghost holding = { λ h. h.room };

    fn into_handle(self) -> Handle<Room> {
        let BitesCache { at, alloc } = self;
        Handle {
            at: at as *mut Room,
            alloc,
        }
    }

    fn from_handle(handle: Handle<Room>) -> BitesCache
        ensures { result.room ≡ handle.held }
    {
        let Handle { at, alloc } = handle;
        BitesCache {
            at: at as *mut (),
            alloc,
        }
    }
}

impl Drop for BitesCache {
    fn drop(self) {
        self.into_handle().free();
    }
}
