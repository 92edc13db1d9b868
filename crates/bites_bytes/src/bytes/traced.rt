//! Searches that say how they come over the places of a haystack.

ghost use Rattle.std.specs.Prelude.{IfOk};
ghost use Rattle.bites_bytes.specs.Traced.{IsTraced};

use crate::bytes::Regex;
use bites_machine::slot::Slot;
use bites_machine::vm::Input;
use bites_table::trace::TracedSearch;
use std::alloc::AllocError;

impl Regex {
    /// Searches for the groups of the leftmost match at or after `start`, and returns how the search came over the places, for
    /// people to look at. Places before the first stretch can't begin a match, since the literal that the regex looks for
    /// first comes later. Some patterns are traced as any other, although a search for their match alone compares bytes and goes by no
    /// place: a text, as `error`; a choice of a few texts, as `error|warn`; a class of ASCII, as `[,;]`, or that class with a greedy `+`, as
    /// `\d+`; and one that matches texts of one width at the start of the haystack alone.
    ///
    /// The error is out of memory. It takes memory for each place that is passed by the table.
    ///
    /// For proofs: this is a search of the machine of the definitions, and each stretch that names a thread list begins, or if
    /// bytes were skipped ends, where the machine has the threads of that list.
    pub fn trace_at(&self, haystack: &[u8], start: usize) -> Result<TracedSearch, AllocError>
        ensures { IfOk result (IsTraced self.now haystack.now start) }
    {
        let input = Input {
            haystack,
            start: self.begin(haystack, start, false).place(haystack),
            anchored: false,
            kind: self.kind(),
        };
        let mut slots = vec![in self.alloc(); Slot::unwritten(); self.program().slots()]?;
        let mut cache = self.cache()?;
        cache.trace(self, &input, &mut slots)
    }
}
