//! A box that C holds by its pointer, and the names that C has for it.

ghost use Rattle.std.specs.Prelude.{◌≡◌, MatchOption};
ghost use Rattle.std.specs.declared.option.Option.{Option as Maybe};
ghost use Rattle.std.specs.declared.option.Option.TheVariants.{None, Some};
ghost use Rattle.std.specs.Coded.{coded_option};
ghost use Rattle.bites_c.specs.Holding.{holds};

use std::alloc::Global;
use std::marker::Model;

/// The pointer to the box of a value, or null.
pub(crate) struct Handle<T> {
    pub(crate) at: *mut T,
    pub(crate) alloc: Global,
    pub ghost held: { Maybe T } by { coded_option T.code },
}

impl<T> Model for Handle<T> {
    ghost also_owns = { λ h. holds T.row h.alloc h.at h.held };
}

impl<T: Drop> Handle<T> {
    /// Returns a handle that holds nothing.
    pub(crate) fn empty(alloc: Global) -> Handle<T>
        ensures { result.held ≡ None }
    {
        Handle {
            at: std::ptr::null_mut(),
            alloc,
        }
    }

    /// Returns a handle that holds this value.
    pub(crate) fn of(held: Box<T, Global>) -> Handle<T>
        ensures { result.held ≡ Some held.value }
    {
        let (at, alloc) = Box::into_raw_with_allocator(held);
        Handle { at, alloc }
    }

    /// Returns the value that the handle holds, if it holds one.
    pub(crate) fn into_box(self) -> Option<Box<T, Global>>
        ensures { MatchOption result (self.held ≡ None) (λ b. self.held ≡ Some b.value) }
    {
        let Handle { at, alloc } = self;
        if at.is_null() {
            return None;
        }
        Some(unsafe { Box::from_raw(alloc, at) })
    }

    /// Frees the value that the handle holds, if it holds one.
    pub(crate) fn free(self) {
        match self.into_box() {
            Some(held) => free(held),
            None => {}
        }
    }
}

// Frees what a handle held. It is out of line, since a call puts back what it took into a handle that is empty.
#[cold]
#[inline(never)]
fn free<T: Drop>(held: Box<T, Global>) {
    drop(held);
}

/// A handle as C knows it: a struct with a name of its own, since no struct with a type parameter goes to C.
pub(crate) trait ForC: Sized {
    /// What the handle holds.
    type Held: Drop;

    ghost holding: { Self → Maybe Self.Held };

    /// Returns the same handle without its name.
    fn into_handle(self) -> Handle<Self::Held>
        ensures { result.held ≡ Self.holding self };

    /// Returns the same handle under its name.
    fn from_handle(handle: Handle<Self::Held>) -> Self
        ensures { Self.holding result ≡ handle.held };

    /// Returns a handle that holds nothing.
    fn empty(alloc: Global) -> Self
        ensures { Self.holding result ≡ None }
    {
        Self::from_handle(Handle::empty(alloc))
    }

    /// Takes out the value that the handle holds, if it holds one. Then the handle holds nothing.
    #[inline(always)]
    fn take(&mut self, alloc: Global) -> Option<Box<Self::Held, Global>>
        ensures taken { MatchOption result (Self.holding self.old ≡ None) (λ b. Self.holding self.old ≡ Some b.value) }
        ensures left { Self.holding self.new ≡ None }
    {
        std::mem::replace(self, Self::empty(alloc))
            .into_handle()
            .into_box()
    }
}
