//! The names of a regex's groups.

ghost use Rattle.std.specs.Prelude.{◌≡◌, ◌<◌, ◌^◌, length, Some};

use bites_machine::program::Program;
use std::alloc::AllocError;
use std::fmt;
use std::iter::FusedIterator;
use std::marker::Model;

/// An iterator over the names of the groups, from group 0 on. An item is `None` if its group has no name.
///
/// For proofs: a contract sees the names that are left.
#[derive(Drop)]
pub struct CaptureNames<'r> {
    program: &'r Program,
    left: usize,
}

impl<'r> Model for CaptureNames<'r> {
    ghost use Rattle.std.specs.Prelude.{◌-◌, ◌≤◌, ℕ, List, Option, drop, length};

    ghost Value = { List (Option (List ℕ)) };

    ghost view = { λ a. drop (length a.program.now.names - a.left) a.program.now.names };

    ghost invariant = { λ a. a.left ≤ length a.program.now.names };
}

impl<'r> CaptureNames<'r> {
    pub(crate) fn new(program: &'r Program) -> CaptureNames<'r>
        ensures left { result ≡ program.now.names }
        ensures fits { length result < 2 ^ 64 }
    {
        CaptureNames {
            program,
            left: program.groups(),
        }
    }
}

impl<'r> Clone for CaptureNames<'r> {
    ghost use Rattle.std.specs.Prelude.{⊤};

    ghost is_clone = { λ names copy. copy ≡ names };

    ghost is_infallible = { λ _. ⊤ };

    /// Returns an iterator over the same names. It allocates nothing and cannot fail.
    fn clone(&self) -> Result<CaptureNames<'r>, AllocError> {
        Ok(CaptureNames {
            program: self.program,
            left: self.left,
        })
    }
}

impl<'r> Iterator for CaptureNames<'r> {
    ghost use Rattle.std.specs.Iterator.{YieldsFirstBy, item_count};
    ghost use Rattle.bites_bytes.specs.Hints.{HintsExactly};
    ghost use Rattle.bites_bytes.specs.Names.{every, bytes_of};

    type Item = Option<&'r str>;

    ghost next_gives = { YieldsFirstBy bytes_of every };

    ghost remaining = { item_count every };

    fn next(&mut self) -> Option<Option<&'r str>> {
        if self.left == 0 {
            return None;
        }
        let name = self.program.name(self.program.groups() - self.left);
        self.left -= 1;
        Some(name)
    }

    fn size_hint(&self) -> (usize, Option<usize>)
        ensures { HintsExactly every self.now result }
    {
        (self.left, Some(self.left))
    }
}

impl<'r> ExactSizeIterator for CaptureNames<'r> {
    fn len(&self) -> usize {
        self.size_hint().0
    }
}

impl<'r> FusedIterator for CaptureNames<'r> {}

impl<'r> fmt::Debug for CaptureNames<'r> {
    fn fmt<W: fmt::Write>(&self, f: &mut fmt::Formatter<W>) -> fmt::Result {
        f.debug_struct("CaptureNames")
            .field("left", &self.left)
            .finish_non_exhaustive()
    }
}
