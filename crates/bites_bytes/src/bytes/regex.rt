//! A compiled regular expression and its searches.

ghost use Rattle.std.specs.Prelude.{◌≡◌, ◌<◌, ◌≤◌, ◌/◌, ◌^◌, ℕ, List, Bool, true, false, IsTrue, IfOk, IfSome, MatchResult, is_some};
ghost use Rattle.bites_spec.specs.Tree.{Tree, captures_len};
ghost use Rattle.bites_spec.specs.Measure.{static_captures_len};
ghost use Rattle.bites_spec.specs.Found.{HasMatch};
ghost use Rattle.bites_scan.specs.Trigrams.{AreTrigramsOf};
ghost use Rattle.bites_spec.specs.Regex.{IsCompiled, with_prefilter, with_table};
ghost use Rattle.bites_spec.specs.Expansion.{index_in};
ghost use Rattle.bites_spec.specs.Settings.{by_default};
ghost use Rattle.bites_bytes.specs.Calls.{IsCandidate};
ghost use Rattle.bites_bytes.specs.NextMatch.{BeginsFrom, ExploresAs, kind_of};
ghost use Rattle.bites_bytes.specs.Parts.{AreGroupNames, HoldsProgram, HoldsTable, IsGroupCount, IsPatternOf, IsPrepared, UsesTable, regex_of};
ghost use Rattle.bites_syntax.specs.FlagsView.{flags_of};
ghost use Rattle.bites_bytes.specs.Settings.{Builds};
ghost use Rattle.bites_table.specs.Packed.{IsTableOf};
ghost use Rattle.bites_literals.specs.Begins.{BeginsAtStart};
ghost use Rattle.bites_bytes.specs.FixedGroups.{AreFixed, IsPrefilterWithSlots};
ghost use Rattle.bites_machine.specs.declared.vm.MatchKind.TheVariants.{Longest};

use crate::bytes::builder::NEST_LIMIT;
use crate::bytes::prefilter_with_slots::PrefilterWithSlots;
use crate::bytes::{CaptureNames, RegexBuilder};
use bites_literals::prefilter::{Begin, Serves};
use bites_literals::tree::is_at_start;
use bites_machine::program::Program;
use bites_machine::slot::Slot;
use bites_machine::vm::MatchKind;
use bites_scan::trigrams::Trigrams;
use bites_syntax::parse::{Flags, parse};
use bites_syntax::tree::Tree;
use bites_table::table::{AtOnePlace, Table, TableSize};
use bites_text::error::Error;
use std::alloc::{AllocError, Global};
use std::fmt;
use std::marker::Model;
use std::snapshot::Snapshot;
use std::sync::Arc;

/// What a regex and its clones share.
#[derive(Drop)]
pub(super) struct Compiled {
    flags: Flags,
    program: Program,
    // Whether searches return the longest match.
    leftmost_longest: bool,
    // Whether matches are known to begin at the start of the haystack alone.
    at_start: bool,
    // For proofs: these take no memory, and only contracts speak of them.
    tree: Snapshot<Tree>,
    keep_dropped_groups: Snapshot<bool>,
}

impl Model for Compiled {
    ghost use Rattle.std.specs.Coded.{codes};
    ghost use Rattle.bites_syntax.specs.FlagsView.{flags_of};
    ghost use Rattle.bites_syntax.specs.TreeCode.{tree_code};
    ghost use Rattle.bites_spec.specs.Regex as spec;
    ghost use Rattle.bites_bytes.specs.Parts.{regex_of};
    ghost use Rattle.bites_literals.specs.Begins.{BeginsAtStart};
    ghost use Rattle.std.specs.Prelude.{◌≡◌, true};

    ghost Value = { spec.Regex };

    ghost coded = { Prim.hlevel (codes, tree_code) };

    ghost view = { λ a. regex_of (flags_of a.flags) a.tree.value
        a.keep_dropped_groups.value a.leftmost_longest a.program };

    ghost invariant = { λ a. spec.IsCompiled (regex_of (flags_of a.flags) a.tree.value
        a.keep_dropped_groups.value a.leftmost_longest a.program)
        × (a.at_start ≡ true → BeginsAtStart a.tree.value) };
}

impl Compiled {
    // Returns the program, which is built from the tree.
    pub(super) fn program(&self) -> &Program
        ensures { HoldsProgram self.now result.now }
    {
        &self.program
    }

    // Makes a table of the program of at most so many bytes, with lists for searches at one place if they are asked for: those of the
    // match that searches return. Returns `None` for 0, and if memory runs out. Where the first match begins at the start of the
    // haystack alone, a search for it at one place needs no lists of its own.
    fn make_table(&self, alloc: Global, dfa_size_limit: usize, anchored: bool) -> Option<Arc<Table>>
        ensures of { IfSome result (λ t. IsTableOf self.now.program t.value) }
        ensures none { dfa_size_limit ≡ 0 → is_some result ≡ false }
    {
        if dfa_size_limit == 0 {
            return None;
        }
        let at_one_place = if !anchored {
            AtOnePlace::Nothing
        } else if self.leftmost_longest {
            AtOnePlace::Longest
        } else if self.at_start {
            AtOnePlace::Nothing
        } else {
            AtOnePlace::First
        };
        let table = Table::new(alloc, &self.program, dfa_size_limit, at_one_place)?;
        Arc::new(alloc, table).ok()
    }

    // Reads the pattern again, and returns a prefilter of its tree, if one is worth a search. Returns `None` too if memory runs
    // out, and if the pattern exceeds the default of `RegexBuilder::nest_limit`.
    fn make_prefilter(&self, alloc: Global) -> Option<Arc<PrefilterWithSlots>>
        ensures { IfSome result (λ known. IsPrefilterWithSlots self.now.tree self.now.program.slots known.value) }
    {
        let Ok(tree) = parse(alloc, self.program.pattern(), self.flags, NEST_LIMIT) else {
            return None;
        };
        prefilter_of(alloc, &tree, self.program.slots())
    }

    // Returns whether searches return the longest match.
    fn leftmost_longest(&self) -> bool
        ensures { result ≡ self.now.leftmost_longest }
    {
        self.leftmost_longest
    }

    // Returns whether matches are known to begin at the start of the haystack alone.
    fn is_at_start(&self) -> bool
        ensures { result ≡ true → BeginsAtStart self.now.tree }
    {
        self.at_start
    }

    // Returns the number of the first group with this name.
    pub(super) fn group_index(&self, name: &str) -> Option<usize>
        ensures { result ≡ index_in self.now.names name.now }
    {
        self.program.index_of(name)
    }
}

// Returns what is known of the tree's matches, if that is worth a search, and if there is memory for it. A match has `count` slots.
fn prefilter_of(alloc: Global, tree: &Tree, count: usize) -> Option<Arc<PrefilterWithSlots>>
    requires { 2 ≤ count }
    ensures { IfSome result (λ known. IsPrefilterWithSlots tree.now count known.value) }
{
    let prefilter = PrefilterWithSlots::of(alloc, tree, count)?;
    Arc::new(alloc, prefilter).ok()
}

/// A compiled regular expression, which searches byte strings. A clone shares the program and its table, and may go to
/// another thread.
///
/// ```rust
/// let regex = Regex::new(rt.alloc(), "^.!")?;
/// assert!(rt; regex.is_match(b"\xE2\x82!")?);
/// assert!(rt; !regex.is_match(b"\xFF\xFF!")?);
/// ```
///
/// For proofs: a contract sees the pattern, the flags, the tree that the grammar reads the pattern as, whether there is a
/// table, and whether searches look for a literal first.
pub struct Regex {
    alloc: Global,
    compiled: Arc<Compiled>,
    table: Option<Arc<Table>>,
    // Whether thread lists for searches at one place were asked for with the table.
    anchored: bool,
    // Whether searches ask first what is known of matches.
    prefilter: bool,
    // What is known of the pattern's matches: the literals or bytes that searches look for, or the one match.
    known: Option<Arc<PrefilterWithSlots>>,
}

// A caller that drops one relies on this function, and on no type below it.
impl Drop for Regex {
    fn drop(self) {
        let Regex {
            alloc: _,
            compiled: _,
            table: _,
            anchored: _,
            prefilter: _,
            known: _,
        } = self;
    }
}

impl Model for Regex {
    ghost use Rattle.std.specs.Prelude.{is_some, IfSome};
    ghost use Rattle.std.specs.Coded.{codes};
    ghost use Rattle.bites_syntax.specs.TreeCode.{tree_code};
    ghost use Rattle.bites_spec.specs.Regex as spec;
    ghost use Rattle.bites_table.specs.Packed.{IsTableOf};
    ghost use Rattle.bites_bytes.specs.FixedGroups.{IsPrefilterWithSlots};

    ghost Value = { spec.Regex };

    ghost coded = { Prim.hlevel (codes, tree_code) };

    ghost view = { λ a. spec.with_prefilter a.prefilter (spec.with_table (is_some a.table) a.compiled.value) };

    ghost invariant = { λ a. IfSome a.table (λ t. IsTableOf a.compiled.value.program t.value)
        × IfSome a.known (λ known. IsPrefilterWithSlots a.compiled.value.tree a.compiled.value.program.slots known.value) };
}

impl Regex {
    /// Compiles a pattern with all flags off and the default limits of [`RegexBuilder::new`].
    ///
    /// The error is the message of the pattern's first fault, or of the first limit that the pattern exceeds, or out
    /// of memory.
    ///
    /// For proofs: a regex is made exactly if the grammar reads the pattern as a tree and all limits hold, unless
    /// memory runs out.
    pub fn new(alloc: Global, pattern: &str) -> Result<Regex, Error>
        ensures { Builds (by_default pattern.now) result }
    {
        RegexBuilder::new(alloc, pattern)?.into_regex()
    }

    // Returns a regex of a tree and its program, without a table. Its searches look for a literal of the tree first, or don't.
    pub(crate) fn from_parts(
        alloc: Global,
        tree: &Tree,
        flags: Flags,
        keep_dropped_groups: bool,
        leftmost_longest: bool,
        program: Program,
        prefilter: bool,
    ) -> Result<Regex, Error>
        requires { IsCompiled (regex_of (flags_of flags) tree.now keep_dropped_groups leftmost_longest program) }
        ensures { MatchResult result (λ r. r ≡ with_prefilter prefilter
            (regex_of (flags_of flags) tree.now keep_dropped_groups leftmost_longest program)) (λ e. e ≡ Error.Memory) }
    {
        let compiled = Compiled {
            flags,
            program,
            leftmost_longest,
            at_start: is_at_start(tree),
            tree: Snapshot::of(tree),
            keep_dropped_groups: Snapshot::of(&keep_dropped_groups),
        };
        let slots = compiled.program.slots();
        Ok(Regex {
            alloc,
            compiled: Arc::new(alloc, compiled)?,
            table: None,
            anchored: false,
            prefilter,
            known: if prefilter {
                prefilter_of(alloc, tree, slots)
            } else {
                None
            },
        })
    }

    // Returns the regex with a table of at most so many bytes, if there is memory for one, with thread lists for searches at one place if
    // they are asked for. With 0 there is none.
    pub(crate) fn with_table(self, dfa_size_limit: usize, anchored: bool) -> Regex
        ensures same { (b : Bool) × (result ≡ with_table b self) }
        ensures none { dfa_size_limit ≡ 0 → result.has_table ≡ false }
    {
        let Regex {
            alloc,
            compiled,
            table: _,
            anchored: _,
            prefilter,
            known,
        } = self;
        let table = compiled.make_table(alloc, dfa_size_limit, anchored);
        Regex {
            alloc,
            compiled,
            table,
            anchored,
            prefilter,
            known,
        }
    }

    // Returns the regex whose searches look for a literal first, or don't. The pattern is read again to find the literal if
    // those of this regex don't.
    fn with_prefilter(self, yes: bool) -> Regex
        ensures { result ≡ with_prefilter yes self }
    {
        let Regex {
            alloc,
            compiled,
            table,
            anchored,
            prefilter,
            known,
        } = self;
        let known = if yes && !prefilter {
            compiled.make_prefilter(alloc)
        } else {
            known
        };
        Regex {
            alloc,
            compiled,
            table,
            anchored,
            prefilter: yes,
            known,
        }
    }

    // Returns which searches ask first where to begin.
    #[inline(always)]
    pub(super) fn asked_by(&self) -> Serves {
        match &self.known {
            Some(known) if self.prefilter => known.prefilter.serves(),
            _ => Serves::NoSearch,
        }
    }

    // Returns the slots of the one match of the pattern, if it is known that there is no other.
    #[inline(always)]
    pub(super) fn fixed_slots(&self) -> Option<&[Slot]>
        ensures { IfSome result (λ slots. AreFixed self.now.tree self.now.program.slots slots.now) }
    {
        let Some(known) = &self.known else {
            return None;
        };
        match &known.slots {
            Some(slots) => Some(slots),
            None => None,
        }
    }

    // Returns whether searches look for a literal, if there is one.
    pub(super) fn has_prefilter(&self) -> bool {
        self.prefilter
    }

    // Returns whether the pattern may match anywhere in a haystack with these runs of three bytes, as far as its literals show.
    pub(super) fn may_match(&self, haystack: &[u8], trigrams: &Trigrams) -> bool
        ensures { (starts : List ℕ) → AreTrigramsOf trigrams.now haystack.now → HasMatch self.now.tree haystack.now starts → IsTrue result }
    {
        match &self.known {
            Some(known) if self.prefilter => known.prefilter.may_match(haystack, trigrams),
            _ => true,
        }
    }

    // Returns from where a search explores that may begin at `start`: the first place from which the pattern may match, as far
    // as its prefilter shows. Where `Prefilter::begin` tells the match, and there is a table, this is the match. `with_end` asks where it
    // ends, for which a search may have to read over all of it.
    #[inline(always)]
    pub(super) fn begin(&self, haystack: &[u8], start: usize, with_end: bool) -> Begin
        ensures { BeginsFrom with_end self.now haystack.now start result }
    {
        if !self.prefilter || start > haystack.len() {
            return Begin::From(start);
        }
        let Some(known) = &self.known else {
            return Begin::From(start);
        };
        let with_end = with_end && self.table.is_some();
        let begin = known.prefilter.begin(haystack, start, with_end);
        if self.table.is_none() {
            // Without a table a search reads each state that it visits.
            return Begin::From(begin.place(haystack));
        }
        begin
    }

    /// Returns an offset in bytes from `start` on such that no part of the haystack matches that lies from `start` on and
    /// ends before it, if that part is searched as a haystack of its own. Returns `None` if no part from `start` on matches.
    ///
    /// A filter of lines asks it to skip lines that can't match: a line that ends before the offset doesn't match, and the
    /// line that the offset lies in may match. With [`RegexBuilder::prefilter`] the offset is where a literal stands that
    /// each match holds, where one of several stands with which matches begin, or where the search for these was given up.
    /// For a class of ASCII, or that class with a greedy `+`, it is where a byte of the class stands. Otherwise it is `start`. The
    /// time is at most linear in the bytes from `start` up to the offset, or to the end. How far it comes is no contract.
    ///
    /// ```rust
    /// let mut builder = RegexBuilder::new(rt.alloc(), r"^Mary\b")?;
    /// let regex = builder.prefilter(true).build()?;
    /// assert_eq!(rt; regex.find_candidate_at(b"Tom\nMary\n", 0), Some(4));
    /// assert_eq!(rt; regex.find_candidate_at(b"Tom\nSue\n", 0), None);
    /// ```
    pub fn find_candidate_at(&self, haystack: &[u8], start: usize) -> Option<usize>
        ensures { IsCandidate self.now.tree haystack.now start result }
    {
        if start > haystack.len() {
            return None;
        }
        if !self.prefilter {
            return Some(start);
        }
        match &self.known {
            Some(known) => known.prefilter.candidate(haystack, start),
            None => Some(start),
        }
    }

    // Returns what the regex shares with its clones, but for the table, what is known of its matches, and the switch of searches that ask for that.
    pub(super) fn compiled(&self) -> &Arc<Compiled>
        ensures { self.now ≡ with_prefilter self.now.prefilter (with_table self.now.has_table result.now.value) }
    {
        &self.compiled
    }

    // Returns the table, if there is one.
    pub(super) fn table(&self) -> Option<&Table>
        ensures { HoldsTable self.now result }
    {
        match &self.table {
            Some(table) => Some(table),
            None => None,
        }
    }

    // Returns the table that a search uses, if one serves it. A table without thread lists for searches at one place serves none of
    // these.
    #[inline(always)]
    pub(super) fn table_for(&self, anchored: bool) -> Option<&Table>
        ensures { UsesTable self.now result }
    {
        if anchored && !self.anchored {
            return None;
        }
        self.table()
    }

    // Returns whether there is a table, and all of it is known.
    #[inline(always)]
    pub(super) fn has_whole_table(&self) -> bool {
        match &self.table {
            Some(table) => table.is_whole(),
            None => false,
        }
    }

    // For proofs: returns whether there is a table.
    pub(super) fn has_table(&self) -> Snapshot<bool>
        ensures { result.value ≡ self.now.has_table }
    {
        Snapshot::of(&self.table.is_some())
    }

    // For proofs: returns whether searches look for a literal first.
    pub(super) fn prefilter(&self) -> Snapshot<bool>
        ensures { result.value ≡ self.now.prefilter }
    {
        Snapshot::of(&self.prefilter)
    }

    /// Returns a regex with the same pattern and program, with a table of at most so many bytes as
    /// [`RegexBuilder::dfa_size_limit`] says, and with the switch of [`RegexBuilder::prefilter`]. It finds the same, and
    /// caches of the one fit the other.
    ///
    /// It shares the program with this regex. If the switch is set, and isn't set in this regex, the pattern is read again to
    /// find its literal. The error, out of memory, comes only if the count of clones is full. If memory for the table runs
    /// out, there is none. There is no literal if memory for the reading runs out, or if the pattern exceeds the default of
    /// [`RegexBuilder::nest_limit`].
    ///
    /// A lexer searches at one offset, and a router for a match of the whole haystack. A regex that never does so gets a smaller table
    /// from [`Regex::prepared_unanchored`].
    pub fn prepared(&self, dfa_size_limit: usize, prefilter: bool) -> Result<Regex, AllocError>
        ensures { IfOk result (IsPrepared dfa_size_limit prefilter self.now) }
    {
        self.prepared_for(dfa_size_limit, prefilter, true)
    }

    /// Returns a regex as [`Regex::prepared`] does, but its table has no thread lists for searches for a match at one offset, as
    /// [`Regex::find_anchored_at`], or of the whole haystack, as [`Regex::is_full_match`]. They find the same, and take as long as
    /// without a table.
    ///
    /// Such a table takes up to a third less time to make, and up to 43 % fewer bytes. If matches begin at the start of
    /// the haystack alone, as those of `^a`, it is the table of [`Regex::prepared`]. Searches at one offset use it then, if each
    /// transition is known.
    ///
    /// With [`RegexBuilder::leftmost_longest`] it is never that table, and each search for a match ends with one at the offset where
    /// the match begins. So such a regex is faster with [`Regex::prepared`].
    pub fn prepared_unanchored(
        &self,
        dfa_size_limit: usize,
        prefilter: bool,
    ) -> Result<Regex, AllocError>
        ensures { IfOk result (IsPrepared dfa_size_limit prefilter self.now) }
    {
        self.prepared_for(dfa_size_limit, prefilter, false)
    }

    // Returns a regex as `prepared` does, with thread lists for searches at one place if they are asked for.
    fn prepared_for(
        &self,
        dfa_size_limit: usize,
        prefilter: bool,
        anchored: bool,
    ) -> Result<Regex, AllocError>
        ensures { IfOk result (IsPrepared dfa_size_limit prefilter self.now) }
    {
        let table = self
            .compiled
            .make_table(self.alloc, dfa_size_limit, anchored);
        let regex = self.share(table, anchored)?;
        Ok(regex.with_prefilter(prefilter))
    }

    // Returns a regex that shares the program and what is known of its matches, and has this table, which has thread lists for searches
    // at one place if they were asked for. The error comes only if the count of clones is full.
    fn share(&self, table: Option<Arc<Table>>, anchored: bool) -> Result<Regex, AllocError>
        requires { IfSome table (λ t. IsTableOf self.now.program t.value) }
        ensures { IfOk result (λ r. r ≡ with_table (is_some table) self.now) }
    {
        Ok(Regex {
            alloc: self.alloc,
            compiled: self.compiled.clone()?,
            table,
            anchored,
            prefilter: self.prefilter,
            known: self.known.clone()?,
        })
    }

    /// Returns how large the table is that searches use, or `None` if there is none: because the limit was 0 or too small, because the
    /// pattern has too many classes of characters or too many states to find these, or because memory ran out.
    pub fn table_size(&self) -> Option<TableSize>
        ensures { is_some result ≡ self.now.has_table }
    {
        match self.table() {
            Some(table) => Some(table.size()),
            None => None,
        }
    }

    pub(super) fn program(&self) -> &Program
        ensures { HoldsProgram self.now result.now }
    {
        self.compiled.program()
    }

    // Returns whether a search for a match of this kind explores at its start alone, by whether that was asked for. Where matches begin
    // at the start of the haystack alone, a whole table has no lists for that, and those of other searches find the same. A search for
    // the longest match at one place needs lists of its own.
    #[inline(always)]
    pub(super) fn explores_at(&self, asked: bool, kind: MatchKind) -> bool
        ensures explores { ExploresAs self.now.tree asked result }
        ensures longest { kind ≡ Longest → result ≡ asked }
    {
        if !asked || matches!(kind, MatchKind::Longest) {
            return asked;
        }
        if self.has_whole_table() {
            !self.compiled.is_at_start()
        } else {
            asked
        }
    }

    // Returns which match searches are asked for: the longest one, or the preferred one.
    pub(super) fn kind(&self) -> MatchKind
        ensures { result ≡ kind_of self.now }
    {
        if self.compiled.leftmost_longest() {
            MatchKind::Longest
        } else {
            MatchKind::First
        }
    }

    pub(super) fn alloc(&self) -> Global {
        self.alloc
    }

    /// Returns the pattern.
    ///
    /// For proofs: the contract also says what holds of every regex. Its tree is what the pattern is read as, and its
    /// program is built from that tree. A caller whose proof needs that calls it.
    pub fn as_str(&self) -> &str
        ensures { IsPatternOf self.now result.now }
    {
        self.program().pattern()
    }
}

impl Regex {
    /// Returns the number of groups, group 0 counted. It is one more than the greatest group number that is left in
    /// the tree.
    ///
    /// With [`RegexBuilder::keep_dropped_groups`] it is one more than the number of groups that the pattern opens.
    pub fn captures_len(&self) -> usize
        ensures { IsGroupCount self.now result }
    {
        self.program().slots() / 2
    }

    /// Returns a lower bound on the groups that participate in any match, group 0 counted, if the pattern's form
    /// gives one.
    pub fn static_captures_len(&self) -> Option<usize>
        ensures { result ≡ static_captures_len self.now.tree }
    {
        self.program().static_captures_len()
    }

    /// Returns an iterator over the names of the groups, from group 0 on. An item is `None` if its group has no name;
    /// group 0 has none.
    ///
    /// A group that the tree drops keeps its name only with [`RegexBuilder::keep_dropped_groups`].
    pub fn capture_names(&self) -> CaptureNames<'_>
        ensures { AreGroupNames self.now result }
    {
        CaptureNames::new(self.program())
    }
}

impl Clone for Regex {
    ghost is_clone = { λ regex copy. copy ≡ regex };

    /// Returns a regex that shares the program, and may go to another thread. It copies nothing: the error, out of
    /// memory, comes only if the count of clones is full.
    fn clone(&self) -> Result<Regex, AllocError> {
        self.share(self.table.clone()?, self.anchored)
    }
}

impl fmt::Display for Regex {
    ghost use Rattle.std.specs.Prelude.{Some};

    ghost output = { λ regex. Some regex.pattern };

    fn fmt<W: fmt::Write>(&self, f: &mut fmt::Formatter<W>) -> fmt::Result {
        f.write_str(self.as_str())
    }
}

impl fmt::Debug for Regex {
    fn fmt<W: fmt::Write>(&self, f: &mut fmt::Formatter<W>) -> fmt::Result {
        f.debug_tuple("Regex").field(&self.as_str()).finish()
    }
}
