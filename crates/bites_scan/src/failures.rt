//! How much of a search was in vain. Only speed depends on it.

ghost use Rattle.std.specs.Prelude.{◌<◌};

/// The tests of a search that failed.
#[derive(Clone, Copy, Drop)]
pub(crate) struct Failures {
    // Where the search began.
    from: usize,
    count: usize,
}

impl Failures {
    /// Returns no failures of a search that begins at `from`.
    #[inline(always)]
    pub(crate) fn none(from: usize) -> Failures {
        Failures { from, count: 0 }
    }

    /// Counts tests that failed. Returns whether they are too many for a search that has come to `at`: more than `free`, and one for
    /// each so many bytes that it has passed.
    #[inline(always)]
    pub(crate) fn are_too_many(&mut self, more: u32, at: usize, free: usize, bytes: usize) -> bool
        requires { 0 < bytes }
    {
        self.count = self.count.saturating_add(more as usize);
        self.count > (at.saturating_sub(self.from) / bytes).saturating_add(free)
    }
}
