//! The targets of a split.

ghost use Rattle.std.specs.Prelude.{◌≡◌, ◌<◌, ◌-◌, [], ◌∷◌, length, slice_index};
ghost use Rattle.bites_spec.specs.Program as program;
ghost use Rattle.bites_spec.specs.Program.{targets_of};

use std::alloc::Global;
use std::marker::Model;

/// The numbers of the states that a split leads to. Two of them are stored inline.
///
/// The `reverse` of the state says whether the first or the last is preferred.
///
/// For proofs: contracts see the list of the numbers.
#[derive(Drop)]
pub struct Targets {
    len: usize,
    /// The first and the last target.
    ends: [u32; 2],
    /// All targets, unless there are two.
    list: Vec<u32>,
}

impl Model for Targets {
    ghost use Rattle.std.specs.Prelude.{List, ℕ};
    ghost use Rattle.bites_machine.specs.Bits.{HasEnds, all_targets};

    ghost Value = { List ℕ };

    ghost view = { λ a. all_targets a.len a.ends a.list.items };

    ghost invariant = { λ a. HasEnds a.len a.ends (all_targets a.len a.ends a.list.items) };
}

impl Targets {
    /// Returns two targets. Allocates nothing.
    pub(crate) fn two(alloc: Global, first: u32, second: u32) -> Targets
        ensures { result ≡ first ∷ second ∷ [] }
    {
        Targets {
            len: 2,
            ends: [first, second],
            list: Vec::new(alloc),
        }
    }

    /// Returns the targets as a slice.
    #[inline]
    pub fn as_slice(&self) -> &[u32]
        ensures { result.now ≡ self.now }
    {
        if self.len == 2 {
            &self.ends
        } else {
            &self.list
        }
    }

    /// Returns the number of targets.
    #[allow(clippy::len_without_is_empty)]
    #[inline]
    pub fn len(&self) -> usize
        ensures { result ≡ length self.now }
    {
        let _known = &self.list;
        self.len
    }

    /// Returns the target that is preferred to all others.
    #[inline]
    pub fn preferred(&self, reverse: bool) -> u32
        requires { 0 < length self.now }
        ensures { result ≡ slice_index (targets_of (program.splits self.now reverse)) 0 }
    {
        let _known = &self.list;
        if reverse { self.ends[1] } else { self.ends[0] }
    }

    /// Returns the target to which all others are preferred.
    #[inline]
    pub fn least_preferred(&self, reverse: bool) -> u32
        requires { 0 < length self.now }
        ensures { result ≡ slice_index (targets_of (program.splits self.now reverse))
            (length self.now - 1) }
    {
        let _known = &self.list;
        if reverse { self.ends[0] } else { self.ends[1] }
    }

    /// Returns the target with this number in order of preference. Number 0 is the preferred one.
    pub fn in_order(&self, reverse: bool, number: usize) -> u32
        requires { number < length self.now }
        ensures { result ≡ slice_index (targets_of (program.splits self.now reverse)) number }
    {
        let targets = self.as_slice();
        if reverse {
            targets[targets.len() - 1 - number]
        } else {
            targets[number]
        }
    }
}

impl From<Vec<u32>> for Targets {
    ghost from_gives = { λ list targets. targets ≡ list.items };

    /// Makes targets of a vector. Allocates nothing.
    fn from(list: Vec<u32>) -> Targets {
        let len = list.len();
        let ends = match list.as_slice() {
            [] => [0, 0],
            [only] => [*only, *only],
            [first, .., last] => [*first, *last],
        };
        Targets { len, ends, list }
    }
}
