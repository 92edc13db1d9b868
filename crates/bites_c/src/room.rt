//! The memory for searches that a cache handle holds.

ghost use Rattle.std.specs.Prelude.{◌≡◌, ◌≤◌, ◌+◌, ◌*◌, ◌/◌, ℕ, IfOk, is_some, length};
ghost use Rattle.bites_spec.specs.Counts.{fit_of};
ghost use Rattle.bites_spec.specs.Slots.{slot_in};
ghost use Rattle.bites_c.specs.Put.{PutsFront};

use crate::span::BitesSpan;
use bites_bytes::bytes::{Cache, CaptureLocations, Regex};
use std::alloc::AllocError;
use std::marker::Model;

/// The memory for a regex's searches and for its groups. A contract sees which regexes it fits, and what the last
/// search did.
#[derive(Drop)]
pub struct Room {
    pub(crate) cache: Cache,
    pub(crate) locations: CaptureLocations,
}

impl Model for Room {
    ghost use Rattle.std.specs.Prelude.{◌≡◌, length};
    ghost use Rattle.bites_spec.specs.Counts as spec;

    ghost Value = { spec.Room };

    ghost view = { λ a. a.cache };

    ghost invariant = { λ a. length a.locations ≡ a.cache.fits.slots };
}

impl Room {
    /// Makes room for searches with this regex. The error is out of memory.
    pub(crate) fn new(regex: &Regex) -> Result<Room, AllocError>
        ensures { IfOk result (λ c. c.fits ≡ fit_of regex.now.program) }
    {
        Ok(Room {
            cache: regex.cache()?,
            locations: regex.capture_locations()?,
        })
    }
}

/// Puts the groups into the first places of `groups`.
pub(crate) fn put_groups(locations: &CaptureLocations, groups: &mut [BitesSpan])
    requires room { length locations.now / 2 ≤ length groups.old }
    requires both { (k : ℕ) → is_some (slot_in locations.now (2 * k)) ≡ is_some (slot_in locations.now (2 * k + 1)) }
    ensures { PutsFront locations.now groups.old groups.new }
{
    let slots = locations.slots();
    for group in 0..slots.len() / 2 {
        groups[group] = BitesSpan::of(slots[2 * group], slots[2 * group + 1]);
    }
}
