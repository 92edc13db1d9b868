//! The builder of regexes.

ghost use Rattle.std.specs.Prelude.{◌≡◌, ◌≢◌, ◌*◌, false, IfOk, IfErr, MatchOption, MatchResult, OnOk, chars, length, string_bytes};
ghost use Rattle.bites_spec.specs.Measure as measure;
ghost use Rattle.bites_spec.specs.Measure.{HasItsGroups, TreeLimitsWith, static_captures_len};
ghost use Rattle.bites_spec.specs.Built.{Built, IsCompilable};
ghost use Rattle.bites_spec.specs.Program.{IsWellFormed};
ghost use Rattle.bites_machine.specs.Compiled as compiled;
ghost use Rattle.bites_spec.specs.Tree.{Tree};
ghost use Rattle.bites_spec.specs.Settings.{Accepts, by_default};
ghost use Rattle.bites_syntax.specs.Placed.{RefusesAt};
ghost use Rattle.bites_bytes.specs.Settings.{Builds, IsRead, Refuses};
ghost use Rattle.bites_bytes.specs.HandsBack.{HandsBack};
ghost use Rattle.bites_bytes.specs.Parts.{chosen};

use crate::bytes::{Regex, SyntaxError};
use bites_machine::program::{Program, compile, compile_with_groups};
use bites_syntax::groups::Groups;
use bites_syntax::parse::{Flags, parse_with_groups};
use bites_syntax::syntax_error::syntax_error;
use bites_syntax::tree as syntax;
use bites_text::error::Error;
use std::alloc::{AllocError, Global};
use std::fmt;
use std::marker::Model;

/// The default of [`RegexBuilder::size_limit`], in its units.
const SIZE_LIMIT: usize = 10 * (1 << 20);

/// The default of [`RegexBuilder::nest_limit`].
pub(super) const NEST_LIMIT: u32 = 50;

/// The default of [`RegexBuilder::dfa_size_limit`], in bytes.
const DFA_SIZE_LIMIT: usize = 1 << 20;

// The limits on the size of a program, on the height of a tree, and on the bytes of a table.
#[derive(Clone, Copy, Debug)]
struct Limits {
    size: usize,
    nest: u32,
    dfa_size: usize,
}

/// A builder of regexes: a pattern with flags and limits.
///
/// ```rust
/// let mut builder = RegexBuilder::new(rt.alloc(), "abc")?;
/// builder.case_insensitive(true);
/// let regex = builder.build()?;
/// assert!(rt; regex.is_match(b"\xFFABC")?);
/// ```
///
/// For proofs: a contract sees these settings.
pub struct RegexBuilder {
    alloc: Global,
    pattern: String,
    flags: Flags,
    limits: Limits,
    keep_dropped_groups: bool,
    leftmost_longest: bool,
    prefilter: bool,
}

// A caller that drops one relies on this function, and on no type below it.
impl Drop for RegexBuilder {
    fn drop(self) {
        let RegexBuilder {
            alloc: _,
            pattern: _,
            flags: _,
            limits: _,
            keep_dropped_groups: _,
            leftmost_longest: _,
            prefilter: _,
        } = self;
    }
}

impl Model for RegexBuilder {
    ghost use Rattle.std.specs.Prelude.{string_bytes};
    ghost use Rattle.bites_syntax.specs.FlagsView.{flags_of};
    ghost use Rattle.bites_spec.specs.Settings.{Settings, settings};

    ghost Value = { Settings };

    ghost view = { λ a. settings (string_bytes a.pattern) (flags_of a.flags)
        a.limits.size a.limits.nest a.limits.dfa_size a.keep_dropped_groups a.leftmost_longest a.prefilter };
}

impl RegexBuilder {
    /// Returns a builder for this pattern, with all flags off, a size limit of 10 MiB (10485760), a nesting limit of 50,
    /// and a limit of 1 MiB (1048576) for the table. The pattern is not read yet.
    ///
    /// The error is out of memory for a copy of the pattern.
    pub fn new(alloc: Global, pattern: &str) -> Result<RegexBuilder, Error>
        ensures { MatchResult result (λ b. b ≡ by_default pattern.now) (λ e. e ≡ Error.Memory) }
    {
        Ok(RegexBuilder {
            alloc,
            pattern: String::from_str(alloc, pattern)?,
            flags: Flags::default(),
            limits: Limits {
                size: SIZE_LIMIT,
                nest: NEST_LIMIT,
                dfa_size: DFA_SIZE_LIMIT,
            },
            keep_dropped_groups: false,
            leftmost_longest: false,
            prefilter: false,
        })
    }

    /// Sets the flag `i`: an ASCII letter matches in both of its cases. Off by default.
    pub fn case_insensitive(&mut self, yes: bool) -> &mut RegexBuilder
        ensures { HandsBack self.entry result
            (record self.old { flags = record self.old.flags { case_insensitive = yes } }) }
    {
        self.flags.case_insensitive = yes;
        self
    }

    /// Sets the flag `m`: `^` and `$` match at the ends of each line too. Off by default.
    pub fn multi_line(&mut self, yes: bool) -> &mut RegexBuilder
        ensures { HandsBack self.entry result
            (record self.old { flags = record self.old.flags { multi_line = yes } }) }
    {
        self.flags.multi_line = yes;
        self
    }

    /// Sets the flag `s`: `.` matches every character. Off by default.
    ///
    /// Without it `.` doesn't match LF. With the flag `R` it doesn't match CR either, before LF or alone.
    pub fn dot_matches_new_line(&mut self, yes: bool) -> &mut RegexBuilder
        ensures { HandsBack self.entry result
            (record self.old { flags = record self.old.flags { dot_matches_new_line = yes } }) }
    {
        self.flags.dot_matches_new_line = yes;
        self
    }

    /// Sets the flag `R`: CR and CR LF end lines as LF does, for `^` and `$` with the flag `m` and for `.` without
    /// `s`. Off by default.
    pub fn crlf(&mut self, yes: bool) -> &mut RegexBuilder
        ensures { HandsBack self.entry result
            (record self.old { flags = record self.old.flags { crlf = yes } }) }
    {
        self.flags.crlf = yes;
        self
    }

    /// Sets the flag `U`: repetitions are lazy, and greedy with a `?` after the operator. Off by default.
    pub fn swap_greed(&mut self, yes: bool) -> &mut RegexBuilder
        ensures { HandsBack self.entry result
            (record self.old { flags = record self.old.flags { swap_greed = yes } }) }
    {
        self.flags.swap_greed = yes;
        self
    }

    /// Sets the flag `x`: white space between the parts of the pattern means nothing, and a `#` begins a comment. Off
    /// by default.
    pub fn ignore_whitespace(&mut self, yes: bool) -> &mut RegexBuilder
        ensures { HandsBack self.entry result
            (record self.old { flags = record self.old.flags { ignore_whitespace = yes } }) }
    {
        self.flags.ignore_whitespace = yes;
        self
    }

    /// Sets the greatest size of the program, roughly in bytes. The default is 10 MiB (10485760). A build that
    /// exceeds it is refused with [`Error::TooBig`] before any state is made.
    ///
    /// A state counts 32, a target of a state that splits 4, and a range of characters 8. Each group number from 0 to
    /// the greatest that is left counts 16, and the name of a group its bytes and 4.
    pub fn size_limit(&mut self, limit: usize) -> &mut RegexBuilder
        ensures { HandsBack self.entry result (record self.old { size_limit = limit }) }
    {
        self.limits.size = limit;
        self
    }

    /// Sets how many groups may be open at once, and how tall the tree of the pattern may be. The default is 50. A
    /// build that exceeds it is refused with [`Error::TooMuchNesting`].
    ///
    /// The parser's recursion goes as deep as this limit, so a limit far above the default needs a large call stack.
    pub fn nest_limit(&mut self, limit: u32) -> &mut RegexBuilder
        ensures { HandsBack self.entry result (record self.old { nest_limit = limit }) }
    {
        self.limits.nest = limit;
        self
    }

    /// Sets how many bytes the table of thread lists may take that a build makes for the searches. The default is 1 MiB
    /// (1048576), which ordinary patterns stay far below. With 0 no table is made.
    ///
    /// The limit changes the time of a build and of searches, and never what they return. What the table doesn't know
    /// is explored by the search itself. If memory runs out for the table, the regex is built without one.
    pub fn dfa_size_limit(&mut self, limit: usize) -> &mut RegexBuilder
        ensures { HandsBack self.entry result (record self.old { dfa_size_limit = limit }) }
    {
        self.limits.dfa_size = limit;
        self
    }

    pub(super) fn table_limit(&self) -> usize {
        self.limits.dfa_size
    }

    /// Sets whether groups are kept that the tree of the pattern drops, as it does for `(a){0}`. Off by default.
    ///
    /// A group that is kept has its number and its name, and counts for the size limit. It never participates in a
    /// match.
    pub fn keep_dropped_groups(&mut self, yes: bool) -> &mut RegexBuilder
        ensures { HandsBack self.entry result (record self.old { keep_dropped_groups = yes }) }
    {
        self.keep_dropped_groups = yes;
        self
    }

    /// Sets whether searches return the longest of the leftmost matches instead of the one that the pattern prefers.
    /// Off by default.
    ///
    /// Of several parses of the longest match they return the groups of the preferred one. All methods that return
    /// matches, groups, pieces or replaced bytes follow this flag. [`Regex::is_match`] and [`Regex::shortest_match`]
    /// return the same either way.
    ///
    /// The longest match begins where the preferred one does. A whole table finds that place, and a second search, from there alone, finds
    /// the longest match. The table has thread lists for that search too.
    ///
    /// ```rust
    /// let mut builder = RegexBuilder::new(rt.alloc(), "sam|samwise")?;
    /// builder.leftmost_longest(true);
    /// let regex = builder.build()?;
    /// let found = regex.find(b"samwise")?.ok_or("no match")?;
    /// assert_eq!(rt; found.range(), 0..7);
    /// ```
    pub fn leftmost_longest(&mut self, yes: bool) -> &mut RegexBuilder
        ensures { HandsBack self.entry result (record self.old { leftmost_longest = yes }) }
    {
        self.leftmost_longest = yes;
        self
    }

    /// Sets whether searches look for a literal first that each match holds, if the pattern has one. Off by default.
    ///
    /// It changes the time of searches, and never what they return. A search looks for the literal from its start on,
    /// many bytes at a time, and explores the states of the program from the first place from which a match can hold it.
    /// Without the literal nothing matches. If each match begins with one of a few texts, as of `cat|dog`, the search looks
    /// for the first of these. If each match ends at the end of the haystack, as of `[a-z]+$`, the search
    /// explores only the places near the end from which one can. If matches begin at the start of the haystack alone, the
    /// literal is looked for only in a haystack of at most 256 bytes, and only if the search may go on for long, as that of
    /// `^.*error`.
    ///
    /// With a table, a pattern that is a class of ASCII, as `[,;]`, or that class with a greedy `+`, as `\w+`, is found by
    /// its bytes. If matches begin at the start of the haystack alone and have one width of at most 64 bytes, the search
    /// compares the first bytes of the haystack. It does so only for patterns of ASCII without branches, in which each
    /// repetition has one count and the only assertions are the start and the end.
    ///
    /// Searches at one offset and for matches of the whole haystack do none of this.
    pub fn prefilter(&mut self, yes: bool) -> &mut RegexBuilder
        ensures { HandsBack self.entry result (record self.old { prefilter = yes }) }
    {
        self.prefilter = yes;
        self
    }

    /// Returns a builder for another pattern, with the same flags, limits and options.
    ///
    /// The error is out of memory for a copy of the pattern.
    pub fn with_pattern(&self, pattern: &str) -> Result<RegexBuilder, AllocError>
        ensures { IfOk result (λ b. b ≡ record self.now { pattern = pattern.now }) }
    {
        Ok(RegexBuilder {
            alloc: self.alloc,
            pattern: String::from_str(self.alloc, pattern)?,
            flags: self.flags,
            limits: self.limits,
            keep_dropped_groups: self.keep_dropped_groups,
            leftmost_longest: self.leftmost_longest,
            prefilter: self.prefilter,
        })
    }

    /// Returns a regex of this pattern, in time linear in the pattern, the size limit and the limit of the table, except
    /// for the sorting of classes and of group names.
    ///
    /// The error is the message of the pattern's first fault, or of the first limit that the pattern exceeds, or out
    /// of memory. A refused build leaves the builder unchanged, and it may be used again.
    ///
    /// For proofs: a regex is built exactly if the grammar reads the pattern as a tree and all limits hold, unless
    /// memory runs out.
    pub fn build(&self) -> Result<Regex, Error>
        ensures { Builds self.now result }
    {
        let (tree, groups) = self.read()?;
        self.copy()?.compiled(&tree, &groups, true)
    }

    /// Returns the regex that [`RegexBuilder::build`] returns, but consumes the builder, so that the pattern is not
    /// copied again.
    ///
    /// For proofs: the contract is that of [`RegexBuilder::build`].
    pub fn into_regex(self) -> Result<Regex, Error>
        ensures { Builds self result }
    {
        self.into_regex_for(true)
    }

    // Returns a regex as `into_regex` does, whose table has thread lists for searches at one place if they are asked for.
    pub(super) fn into_regex_for(self, anchored: bool) -> Result<Regex, Error>
        ensures { Builds self result }
    {
        let (tree, groups) = self.read()?;
        self.compiled(&tree, &groups, anchored)
    }

    /// Returns where the pattern is refused and with which message, or None if the grammar reads it within the nesting
    /// limit. The error is out of memory. The work is that of reading the pattern.
    ///
    /// The message is the one that [`RegexBuilder::build`] returns. None is also returned where a build exceeds one of
    /// the limits on the program: its size, its states or its groups.
    ///
    /// ```rust
    /// let builder = RegexBuilder::new(rt.alloc(), "a(b|*)")?;
    /// let fault = builder.syntax_error()?.ok_or("no error")?;
    /// assert_eq!(rt; *fault.error(), Error::NothingToRepeat);
    /// assert_eq!(rt; fault.offset(), Some(4));
    /// ```
    ///
    /// For proofs: there is none exactly if the grammar reads the pattern as a tree within its limits, unless memory
    /// runs out. The offset is that of the first fault.
    pub fn syntax_error(&self) -> Result<Option<SyntaxError>, AllocError>
        ensures { IfOk result (λ found. MatchOption found
            ((t : Tree) × measure.Limits (chars self.now.pattern) self.now.flags self.now.nest_limit t)
            (RefusesAt (chars self.now.pattern) self.now.flags self.now.nest_limit)) }
    {
        syntax_error(self.alloc, &self.pattern, self.flags, self.limits.nest)
    }

    // Reads the pattern. Returns its tree, and all groups that it opens.
    fn read(&self) -> Result<(syntax::Tree, Groups), Error>
        ensures read { IfOk result (λ r. IsRead self.now r.0 r.1) }
        ensures refused { IfErr result (λ e. e ≢ Error.Memory → (t : Tree) →
            Accepts self.now t → ⊥) }
        ensures message { IfErr result (λ e. e ≢ Error.Memory → Refuses self.now e) }
    {
        parse_with_groups(self.alloc, &self.pattern, self.flags, self.limits.nest)
    }

    fn copy(&self) -> Result<RegexBuilder, AllocError>
        ensures { IfOk result (λ b. b ≡ self.now) }
    {
        self.with_pattern(&self.pattern)
    }

    // Returns the regex of the tree that was read from the pattern, and of all groups that the pattern opens. Its table has thread lists
    // for searches at one place if they are asked for.
    fn compiled(self, tree: &syntax::Tree, groups: &Groups, anchored: bool) -> Result<Regex, Error>
        requires { IsRead self tree.now groups.now }
        ensures { Builds self result }
    {
        let RegexBuilder {
            alloc,
            pattern,
            flags,
            limits,
            keep_dropped_groups: keep,
            leftmost_longest,
            prefilter,
        } = self;
        let program = compile_kept(alloc, tree, groups, keep, limits.size)?;
        let program = program.with_pattern(pattern);
        let regex = Regex::from_parts(
            alloc,
            tree,
            flags,
            keep,
            leftmost_longest,
            program,
            prefilter,
        )?;
        Ok(regex.with_table(limits.dfa_size, anchored))
    }
}

// Compiles the tree with all of the groups, or with those that are left in the tree. The pattern is still to be given
// to the program, which then owns it without a copy.
fn compile_kept(
    alloc: Global,
    tree: &syntax::Tree,
    groups: &Groups,
    keep: bool,
    size_limit: usize,
) -> Result<Program, Error>
    requires compilable { IsCompilable tree.now }
    requires groups { HasItsGroups groups.now tree.now }
    ensures names { IfOk result (λ p. p.names ≡ chosen keep groups.now tree.now) }
    ensures slots { IfOk result
        (λ p. p.program.slots ≡ 2 * length (chosen keep groups.now tree.now)) }
    ensures static_len { IfOk result
        (λ p. p.static_captures_len ≡ static_captures_len tree.now) }
    ensures built { IfOk result (λ p. Built tree.now p.program) }
    ensures well_formed { IfOk result (λ p. IsWellFormed p.program) }
    ensures limits { OnOk result
        (TreeLimitsWith size_limit (chosen keep groups.now tree.now) tree.now) }
    ensures refused { IfErr result
        (compiled.RefusesTree size_limit (chosen keep groups.now tree.now) tree.now) }
{
    if keep {
        compile_with_groups(alloc, tree, groups, "", size_limit)
    } else {
        compile(alloc, tree, "", size_limit)
    }
}

impl fmt::Debug for RegexBuilder {
    fn fmt<W: fmt::Write>(&self, f: &mut fmt::Formatter<W>) -> fmt::Result {
        f.debug_struct("RegexBuilder")
            .field("pattern", &self.pattern)
            .field("flags", &self.flags)
            .field("limits", &self.limits)
            .field("keep_dropped_groups", &self.keep_dropped_groups)
            .field("leftmost_longest", &self.leftmost_longest)
            .field("prefilter", &self.prefilter)
            .finish()
    }
}
