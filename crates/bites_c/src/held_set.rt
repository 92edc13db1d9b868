//! What a handle of a set holds.

ghost use Rattle.std.specs.Prelude.{◌≡◌, ◌↔◌, ◌++◌, ◌≤◌, ℕ, true, length, map, drop, slice_get, is_some, IsTrue, IfOk, Some};
ghost use Rattle.bites_spec.specs.Set.{HasMatchOfAny};
ghost use Rattle.bites_spec.specs.Utf8.{places};
ghost use Rattle.bites_bytes.specs.Calls.{KeepsAnd};
ghost use Rattle.bites_bytes.specs.Set.{has_any_table};
ghost use Rattle.bites_c.specs.Sets.{IsPreparedSet, PutsMatchedIn, byte_of, set_held};

use crate::codes::{MATCH, NO_MATCH, TOO_SMALL};
use crate::text::BitesSize;
use bites_bytes::bytes::{RegexSet, SetCache, TableSize};
use std::alloc::{AllocError, Global};
use std::marker::Model;

/// A set, the memory for its searches, and whether they are over texts.
#[derive(Drop)]
pub struct HeldSet {
    set: RegexSet,
    cache: SetCache,
    // Which patterns matched last: a search writes here, so it allocates nothing.
    matched: Vec<bool>,
    is_text: bool,
}

impl Model for HeldSet {
    ghost use Rattle.std.specs.Coded.{codes};
    ghost use Rattle.std.specs.Prelude.{◌≡◌, length};
    ghost use Rattle.bites_syntax.specs.TreeCode.{tree_code};
    ghost use Rattle.bites_spec.specs.Set.{fits_of, fits_for};
    ghost use Rattle.bites_c.specs.Sets.{SetHeld, set_held};

    ghost Value = { SetHeld };

    ghost coded = { Prim.hlevel (codes, tree_code) };

    ghost view = { λ a. set_held a.set a.is_text };

    ghost invariant = { λ a. (fits_of a.cache ≡ fits_for a.set) × (length a.matched.items ≡ length a.set) };
}

impl HeldSet {
    /// Makes room for searches of this set. The error is out of memory.
    pub(crate) fn new(alloc: Global, set: RegexSet, is_text: bool) -> Result<HeldSet, AllocError>
        ensures { IfOk result (λ h. h ≡ set_held set is_text) }
    {
        let cache = set.cache()?;
        let matched = vec![in alloc; false; set.len()]?;
        Ok(HeldSet {
            set,
            cache,
            matched,
            is_text,
        })
    }

    /// Returns a set that shares the programs of this one. The error is out of memory.
    pub(crate) fn copy(&self, alloc: Global) -> Result<HeldSet, AllocError>
        ensures { IfOk result (λ h. h ≡ self.now) }
    {
        HeldSet::new(alloc, self.set.clone()?, self.is_text)
    }

    /// Returns the same set with tables of at most so many bytes together. Its searches look for literals first. The error is
    /// out of memory.
    pub(crate) fn prepared(
        &self,
        alloc: Global,
        dfa_size_limit: usize,
    ) -> Result<HeldSet, AllocError>
        ensures { IfOk result (IsPreparedSet dfa_size_limit self.now) }
    {
        HeldSet::new(
            alloc,
            self.set.prepared(dfa_size_limit, true)?,
            self.is_text,
        )
    }

    /// Returns how large the tables of all patterns are together, if any has one.
    pub(crate) fn table_size(&self) -> Option<TableSize>
        ensures { is_some result ≡ has_any_table self.now.regexes }
    {
        self.set.table_size()
    }

    /// Returns whether searches are over texts.
    pub(crate) fn is_text(&self) -> bool
        ensures { result ≡ self.now.is_text }
    {
        self.is_text
    }

    /// Returns the number of patterns.
    pub(crate) fn len(&self) -> usize
        ensures { result ≡ length self.now.regexes }
    {
        self.set.len()
    }

    /// Returns whether any pattern matches at or after `start`.
    pub(crate) fn is_match(&mut self, haystack: &[u8], start: usize) -> bool
        ensures { KeepsAnd self.old self.new
            (IsTrue result ↔ HasMatchOfAny self.old.regexes haystack.now (places haystack.now start)) }
    {
        self.set.is_match_at_with(&mut self.cache, haystack, start)
    }

    /// Puts for each pattern whether it matches at or after `start` into the first bytes of `out`, if there are enough.
    /// The size is the number of patterns.
    pub(crate) fn matches(&mut self, haystack: &[u8], start: usize, out: &mut [u8]) -> BitesSize
        ensures { KeepsAnd self.old self.new ((result.size ≡ length self.old.regexes)
            × PutsMatchedIn self.old.regexes haystack.now (places haystack.now start) result.code out.old out.new) }
    {
        let size = self.set.len();
        if out.len() < size {
            return BitesSize {
                code: TOO_SMALL,
                size,
            };
        }
        let matched = self.matched.as_mut_slice();
        self.set
            .matches_read_at_with(&mut self.cache, haystack, start, matched);
        put_entries(matched, out);
        let code = if has_entry(matched) { MATCH } else { NO_MATCH };
        BitesSize { code, size }
    }
}

// Returns whether an entry is true.
fn has_entry(matched: &[bool]) -> bool
    ensures { IsTrue result ↔ ((k : ℕ) × (slice_get matched.now k ≡ Some true)) }
{
    matched.contains(&true)
}

// Puts the entries into the first bytes of `out`, each as 0 or 1.
fn put_entries(matched: &[bool], out: &mut [u8])
    requires { length matched.now ≤ length out.old }
    ensures { out.new ≡ map byte_of matched.now ++ drop (length matched.now) out.old }
{
    for (number, is_matched) in matched.iter().enumerate() {
        out[number] = u8::from(*is_matched);
    }
}
