//! A compiled regular expression over texts.

ghost use Rattle.std.specs.Prelude.{◌≡◌, ◌<◌, is_some, IfOk};
ghost use Rattle.bites_spec.specs.Tree.{Tree, captures_len};
ghost use Rattle.bites_spec.specs.Measure.{static_captures_len};
ghost use Rattle.bites_spec.specs.Regex.{IsCompiled};
ghost use Rattle.bites_spec.specs.Settings.{by_default};
ghost use Rattle.bites_bytes.specs.Parts.{AreGroupNames, IsGroupCount, IsPatternOf, IsPrepared};
ghost use Rattle.bites_bytes.specs.Settings.{Builds};

use bites_bytes::bytes;
use bites_bytes::bytes::{CaptureNames, TableSize};
use bites_text::error::Error;
use std::alloc::{AllocError, Global};
use std::fmt;
use std::marker::Model;

/// A compiled regular expression, which searches texts. A clone shares the program and its table, and may go to another
/// thread.
///
/// For proofs: a contract sees the pattern, the flags, the tree that the grammar reads the pattern as, whether there is a
/// table, and whether searches look for a literal first.
pub struct Regex {
    alloc: Global,
    regex: bytes::Regex,
}

// A caller that drops one relies on this function, and on no type below it.
impl Drop for Regex {
    fn drop(self) {
        let Regex { alloc: _, regex: _ } = self;
    }
}

impl Model for Regex {
    ghost use Rattle.std.specs.Coded.{codes};
    ghost use Rattle.bites_syntax.specs.TreeCode.{tree_code};
    ghost use Rattle.bites_spec.specs.Regex as spec;

    ghost Value = { spec.Regex };

    ghost coded = { Prim.hlevel (codes, tree_code) };

    ghost view = { λ a. a.regex };

    ghost invariant = { λ a. spec.IsCompiled a.regex };
}

impl Regex {
    /// Compiles a pattern with all flags off and the default limits of [`RegexBuilder::new`].
    ///
    /// The error is the message of the pattern's first fault, or of the first limit that the pattern exceeds, or out
    /// of memory.
    ///
    /// ```rust
    /// assert!(rt; Regex::new(rt.alloc(), "(a)").is_ok());
    /// let error = Regex::new(rt.alloc(), "(a").err();
    /// assert_eq!(rt; error, Some(Error::UnclosedGroup));
    /// ```
    ///
    /// For proofs: a regex is made exactly if the grammar reads the pattern as a tree and all limits hold, unless
    /// memory runs out.
    pub fn new(alloc: Global, pattern: &str) -> Result<Regex, Error>
        ensures { Builds (by_default pattern.now) result }
    {
        let regex = bytes::Regex::new(alloc, pattern)?;
        Ok(Regex::from_bytes(alloc, regex))
    }

    // Returns the regex over texts with this pattern and program.
    pub(super) fn from_bytes(alloc: Global, regex: bytes::Regex) -> Regex
        ensures { result ≡ regex }
    {
        // For proofs: the contract of `as_str` says that the regex is compiled.
        regex.as_str();
        Regex { alloc, regex }
    }

    pub(super) fn alloc(&self) -> Global {
        self.alloc
    }

    // Returns the regex over bytes.
    pub(super) fn over_bytes(&self) -> &bytes::Regex
        ensures same { result.now ≡ self.now }
        ensures compiled { IsCompiled self.now }
    {
        &self.regex
    }

    /// Returns a regex with the same pattern and program, with a table of at most so many bytes as
    /// [`RegexBuilder::dfa_size_limit`] says, and with the switch of [`RegexBuilder::prefilter`]. It finds the same, and
    /// caches of the one fit the other.
    ///
    /// It shares the program with this regex. If the switch is set, and isn't set in this regex, the pattern is read again to
    /// find its literal. The error, out of memory, comes only if the count of clones is full. If memory for the table runs
    /// out, there is none. There is no literal if memory for the reading runs out, or if the pattern exceeds the default of
    /// [`RegexBuilder::nest_limit`].
    ///
    /// A lexer searches at one offset, and a router for a match of the whole haystack. A regex that never does so gets a smaller table
    /// from [`Regex::prepared_unanchored`].
    pub fn prepared(&self, dfa_size_limit: usize, prefilter: bool) -> Result<Regex, AllocError>
        ensures { IfOk result (IsPrepared dfa_size_limit prefilter self.now) }
    {
        let regex = self.regex.prepared(dfa_size_limit, prefilter)?;
        Ok(Regex::from_bytes(self.alloc, regex))
    }

    /// Returns a regex as [`Regex::prepared`] does, but its table has no thread lists for searches for a match at one offset, as
    /// [`Regex::find_anchored_at`], or of the whole haystack, as [`Regex::is_full_match`]. They find the same, and take as long as
    /// without a table.
    ///
    /// Such a table takes up to a third less time to make, and up to 43 % fewer bytes. If matches begin at the start of
    /// the haystack alone, as those of `^a`, it is the table of [`Regex::prepared`]. Searches at one offset use it then, if each
    /// transition is known.
    ///
    /// With [`RegexBuilder::leftmost_longest`] it is never that table, and each search for a match ends with one at the offset where
    /// the match begins. So such a regex is faster with [`Regex::prepared`].
    pub fn prepared_unanchored(
        &self,
        dfa_size_limit: usize,
        prefilter: bool,
    ) -> Result<Regex, AllocError>
        ensures { IfOk result (IsPrepared dfa_size_limit prefilter self.now) }
    {
        let regex = self.regex.prepared_unanchored(dfa_size_limit, prefilter)?;
        Ok(Regex::from_bytes(self.alloc, regex))
    }

    /// Returns how large the table is that searches use, or `None` if there is none: because the limit was 0 or too small, because the
    /// pattern has too many classes of characters or too many states to find these, or because memory ran out.
    pub fn table_size(&self) -> Option<TableSize>
        ensures { is_some result ≡ self.now.has_table }
    {
        self.regex.table_size()
    }

    /// Returns the pattern.
    ///
    /// For proofs: the contract also says what holds of every regex. Its tree is what the pattern is read as, and its
    /// program is built from that tree. A caller whose proof needs that calls it.
    pub fn as_str(&self) -> &str
        ensures { IsPatternOf self.now result.now }
    {
        self.regex.as_str()
    }
}

impl Regex {
    /// Returns the number of groups, group 0 counted. It is one more than the greatest group number that is left in
    /// the tree.
    ///
    /// With [`RegexBuilder::keep_dropped_groups`] it is one more than the number of groups that the pattern opens.
    pub fn captures_len(&self) -> usize
        ensures { IsGroupCount self.now result }
    {
        self.regex.captures_len()
    }

    /// Returns a lower bound on the groups that participate in any match, group 0 counted, if the pattern's form
    /// gives one.
    pub fn static_captures_len(&self) -> Option<usize>
        ensures { result ≡ static_captures_len self.now.tree }
    {
        self.regex.static_captures_len()
    }

    /// Returns an iterator over the names of the groups, from group 0 on. An item is `None` if its group has no name;
    /// group 0 has none.
    ///
    /// A group that the tree drops keeps its name only with [`RegexBuilder::keep_dropped_groups`].
    pub fn capture_names(&self) -> CaptureNames<'_>
        ensures { AreGroupNames self.now result }
    {
        self.regex.capture_names()
    }
}

impl Clone for Regex {
    ghost is_clone = { λ regex copy. copy ≡ regex };

    /// Returns a regex that shares the program, and may go to another thread. It copies nothing: the error, out of
    /// memory, comes only if the count of clones is full.
    fn clone(&self) -> Result<Regex, AllocError> {
        Ok(Regex {
            alloc: self.alloc,
            regex: self.regex.clone()?,
        })
    }
}

impl fmt::Display for Regex {
    ghost use Rattle.std.specs.Prelude.{Some};

    ghost output = { λ regex. Some regex.pattern };

    fn fmt<W: fmt::Write>(&self, f: &mut fmt::Formatter<W>) -> fmt::Result {
        f.write_str(self.as_str())
    }
}

impl fmt::Debug for Regex {
    fn fmt<W: fmt::Write>(&self, f: &mut fmt::Formatter<W>) -> fmt::Result {
        f.debug_tuple("Regex").field(&self.as_str()).finish()
    }
}
