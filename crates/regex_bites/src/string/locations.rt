//! The offsets of the groups of a match.

ghost use Rattle.std.specs.Prelude.{◌≡◌, ◌/◌, ◌↔◌, None, replicate, length, option_map, IsTrue, IfOk};
ghost use Rattle.bites_spec.specs.Match.{span};
ghost use Rattle.bites_spec.specs.Slots.{group_in};

use crate::string::Regex;
use bites_bytes::bytes::{self, Slot};
use std::alloc::AllocError;
use std::fmt;
use std::marker::Model;

/// The offsets of the groups of a match, in memory that is reused. [`Regex::captures_read`] writes them.
///
/// For proofs: a contract sees the two slots of each group, which are known if the group participates.
#[derive(Drop)]
pub struct CaptureLocations {
    // The locations of a search over bytes.
    pub(super) locations: bytes::CaptureLocations,
}

impl Model for CaptureLocations {
    ghost use Rattle.std.specs.Prelude.{ℕ, List, Option};

    ghost Value = { List (Option ℕ) };

    ghost view = { λ a. a.locations };
}

impl CaptureLocations {
    /// Returns the offsets in bytes where the group with this number begins and ends. Returns `None` if the group
    /// doesn't participate, and for numbers from [`CaptureLocations::len`] on.
    pub fn get(&self, group: usize) -> Option<(usize, usize)>
        ensures { option_map (λ s. span s.0 s.1) result ≡ group_in self.now group }
    {
        self.locations.get(group)
    }

    /// Returns the slots of all groups, two for each: where the group begins, and where it ends. The group participates if both
    /// are written.
    pub fn slots(&self) -> &[Slot]
        ensures { result.now ≡ self.now }
    {
        self.locations.slots()
    }

    /// Returns the number of groups, group 0 counted.
    pub fn len(&self) -> usize
        ensures { result ≡ length self.now / 2 }
    {
        self.locations.len()
    }

    /// Returns whether the regex has as many groups, so that its searches may write these locations.
    pub fn fits(&self, regex: &Regex) -> bool
        ensures { IsTrue result ↔ (length self.now ≡ regex.now.program.slots) }
    {
        self.locations.fits(regex.over_bytes())
    }
}

impl Clone for CaptureLocations {
    ghost is_clone = { λ locations copy. copy ≡ locations };

    /// Returns locations with the same offsets. The error is out of memory.
    fn clone(&self) -> Result<CaptureLocations, AllocError> {
        Ok(CaptureLocations {
            locations: self.locations.clone()?,
        })
    }
}

impl Regex {
    /// Allocates locations for the groups of this regex, in which no group participates yet. The error is out of
    /// memory.
    pub fn capture_locations(&self) -> Result<CaptureLocations, AllocError>
        ensures { IfOk result (λ l. l ≡ replicate self.now.program.slots None) }
    {
        Ok(CaptureLocations {
            locations: self.over_bytes().capture_locations()?,
        })
    }
}

impl fmt::Debug for CaptureLocations {
    fn fmt<W: fmt::Write>(&self, f: &mut fmt::Formatter<W>) -> fmt::Result {
        fmt::Debug::fmt(&self.locations, f)
    }
}
