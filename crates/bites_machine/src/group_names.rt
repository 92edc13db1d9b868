//! The names of the groups of a pattern.

ghost use Rattle.std.specs.Prelude.{◌≡◌, ◌<◌, ◌^◌, length, replicate, None, slice_index_or};
ghost use Rattle.std.specs.Option.{option_copied};
ghost use Rattle.bites_machine.specs.Names.{bytes_of};

use std::alloc::Global;
use std::marker::Model;

/// The name of each group of a pattern, if it has one. Groups without a name after the last stored one are only
/// counted.
///
/// For proofs: contracts see the list of the names.
#[derive(Drop)]
pub struct GroupNames {
    // The names of the first groups.
    names: Vec<Option<String>>,
    // How many groups without a name come after them.
    unnamed: usize,
}

impl Model for GroupNames {
    ghost use Rattle.std.specs.Prelude.{◌+◌, ◌<◌, ◌^◌, List, ℕ, Option, length};
    ghost use Rattle.bites_machine.specs.Names.{names_by};

    ghost Value = { List (Option (List ℕ)) };

    ghost view = { λ a. names_by a.names.items a.unnamed };

    ghost invariant = { λ a. length a.names.items + a.unnamed < 2 ^ 64 };
}

impl GroupNames {
    /// Returns `count` groups without a name. Allocates nothing.
    pub(crate) fn none(alloc: Global, count: usize) -> GroupNames
        ensures { result ≡ replicate count None }
    {
        GroupNames {
            names: Vec::new(alloc),
            unnamed: count,
        }
    }

    /// Returns groups with these names.
    pub(crate) fn of(names: Vec<Option<String>>) -> GroupNames
        ensures { result ≡ bytes_of names.items }
    {
        GroupNames { names, unnamed: 0 }
    }

    /// Returns the number of groups.
    pub(crate) fn len(&self) -> usize
        ensures { result ≡ length self.now }
    {
        self.names.len() + self.unnamed
    }

    /// Returns the name of the group with this number, if there is such a group and it has one.
    pub(crate) fn get(&self, group: usize) -> Option<&str>
        ensures { option_copied result ≡ slice_index_or self.now group None }
    {
        match self.names.get(group) {
            Some(Some(name)) => Some(name.as_str()),
            _ => None,
        }
    }
}
