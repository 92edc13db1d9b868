//! The groups that a pattern opens.

ghost use Rattle.std.specs.Prelude.{◌≡◌, ◌<◌, ◌++◌, ◌∷◌, [], None, OnOk, length, slice_index_or};
ghost use Rattle.std.specs.Option.{option_copied};

use crate::name::Name;
use std::alloc::{AllocError, Global};
use std::marker::Model;

/// Group 0 and each numbered group that a pattern opens, in the order of their numbers, each with its name if it has
/// one.
///
/// For proofs: a contract sees the list of these names, each as its bytes. Group 0 has none.
pub struct Groups {
    /// The groups after group 0.
    names: Vec<Option<Name>>,
}

// A caller that drops one relies on this function, and on no type below it.
impl Drop for Groups {
    fn drop(self) {
        let Groups { names: _ } = self;
    }
}

impl Model for Groups {
    ghost use Rattle.std.specs.Prelude.{ℕ, List, Option, None, ◌∷◌};

    ghost Value = { List (Option (List ℕ)) };

    ghost view = { λ a. None ∷ a.names.items };
}

impl Groups {
    /// Returns group 0 alone.
    pub(crate) fn new(alloc: Global) -> Groups
        ensures { result ≡ None ∷ [] }
    {
        Groups {
            names: Vec::new(alloc),
        }
    }

    /// Opens a group with the next number. The only error is out of memory.
    pub(crate) fn push(&mut self, name: Option<Name>) -> Result<(), AllocError>
        ensures { OnOk result (self.new ≡ self.old ++ name ∷ []) }
    {
        self.names.push(name)?;
        Ok(())
    }

    /// Returns the number of groups, including group 0.
    #[allow(clippy::len_without_is_empty)]
    pub fn len(&self) -> usize
        ensures len { result ≡ length self.now }
        ensures some { 0 < result }
    {
        self.names.len() + 1
    }

    /// Returns the name of the group with this number, if there is such a group and it has one.
    pub fn name(&self, number: usize) -> Option<&str>
        ensures { option_copied result ≡ slice_index_or self.now number None }
    {
        let names = &self.names;
        if number == 0 {
            return None;
        }
        match names.get(number - 1) {
            Some(Some(name)) => Some(name.as_str()),
            _ => None,
        }
    }
}
