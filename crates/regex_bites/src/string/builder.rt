//! The builder of regexes.

ghost use Rattle.std.specs.Prelude.{◌≡◌, IfOk, MatchOption, MatchResult, chars};
ghost use Rattle.bites_spec.specs.Measure.{Limits};
ghost use Rattle.bites_spec.specs.Tree.{Tree};
ghost use Rattle.bites_spec.specs.Settings.{by_default};
ghost use Rattle.bites_syntax.specs.Placed.{RefusesAt};
ghost use Rattle.bites_bytes.specs.HandsBack.{HandsBack};
ghost use Rattle.bites_bytes.specs.Settings.{Builds};

use crate::string::{Regex, SyntaxError};
use bites_bytes::bytes;
use bites_text::error::Error;
use std::alloc::{AllocError, Global};
use std::fmt;
use std::marker::Model;

/// A builder of regexes: a pattern with flags and limits.
///
/// ```rust
/// let mut builder = RegexBuilder::new(rt.alloc(), "abc")?;
/// builder.case_insensitive(true);
/// let regex = builder.build()?;
/// assert!(rt; regex.is_match("xABCx")?);
/// ```
///
/// For proofs: a contract sees these settings.
pub struct RegexBuilder {
    alloc: Global,
    builder: bytes::RegexBuilder,
}

// A caller that drops one relies on this function, and on no type below it.
impl Drop for RegexBuilder {
    fn drop(self) {
        let RegexBuilder {
            alloc: _,
            builder: _,
        } = self;
    }
}

impl Model for RegexBuilder {
    ghost use Rattle.bites_spec.specs.Settings.{Settings};

    ghost Value = { Settings };

    ghost view = { λ a. a.builder };
}

impl RegexBuilder {
    /// Returns a builder for this pattern, with all flags off, a size limit of 10 MiB (10485760), a nesting limit of 50,
    /// and a limit of 1 MiB (1048576) for the table. The pattern is not read yet.
    ///
    /// The error is out of memory for a copy of the pattern.
    pub fn new(alloc: Global, pattern: &str) -> Result<RegexBuilder, Error>
        ensures { MatchResult result (λ b. b ≡ by_default pattern.now) (λ e. e ≡ Error.Memory) }
    {
        Ok(RegexBuilder {
            alloc,
            builder: bytes::RegexBuilder::new(alloc, pattern)?,
        })
    }

    /// Sets the flag `i`: an ASCII letter matches in both of its cases. Off by default.
    pub fn case_insensitive(&mut self, yes: bool) -> &mut RegexBuilder
        ensures { HandsBack self.entry result
            (record self.old { flags = record self.old.flags { case_insensitive = yes } }) }
    {
        self.builder.case_insensitive(yes);
        self
    }

    /// Sets the flag `m`: `^` and `$` match at the ends of each line too. Off by default.
    pub fn multi_line(&mut self, yes: bool) -> &mut RegexBuilder
        ensures { HandsBack self.entry result
            (record self.old { flags = record self.old.flags { multi_line = yes } }) }
    {
        self.builder.multi_line(yes);
        self
    }

    /// Sets the flag `s`: `.` matches every character. Off by default.
    ///
    /// Without it `.` doesn't match LF. With the flag `R` it doesn't match CR either, before LF or alone.
    pub fn dot_matches_new_line(&mut self, yes: bool) -> &mut RegexBuilder
        ensures { HandsBack self.entry result
            (record self.old { flags = record self.old.flags { dot_matches_new_line = yes } }) }
    {
        self.builder.dot_matches_new_line(yes);
        self
    }

    /// Sets the flag `R`: CR and CR LF end lines as LF does, for `^` and `$` with the flag `m` and for `.` without
    /// `s`. Off by default.
    pub fn crlf(&mut self, yes: bool) -> &mut RegexBuilder
        ensures { HandsBack self.entry result
            (record self.old { flags = record self.old.flags { crlf = yes } }) }
    {
        self.builder.crlf(yes);
        self
    }

    /// Sets the flag `U`: repetitions are lazy, and greedy with a `?` after the operator. Off by default.
    pub fn swap_greed(&mut self, yes: bool) -> &mut RegexBuilder
        ensures { HandsBack self.entry result
            (record self.old { flags = record self.old.flags { swap_greed = yes } }) }
    {
        self.builder.swap_greed(yes);
        self
    }

    /// Sets the flag `x`: white space between the parts of the pattern means nothing, and a `#` begins a comment. Off
    /// by default.
    pub fn ignore_whitespace(&mut self, yes: bool) -> &mut RegexBuilder
        ensures { HandsBack self.entry result
            (record self.old { flags = record self.old.flags { ignore_whitespace = yes } }) }
    {
        self.builder.ignore_whitespace(yes);
        self
    }

    /// Sets the greatest size of the program, roughly in bytes. The default is 10 MiB (10485760). A build that
    /// exceeds it is refused with [`Error::TooBig`] before any state is made.
    ///
    /// A state counts 32, a target of a state that splits 4, and a range of characters 8. Each group number from 0 to
    /// the greatest that is left counts 16, and the name of a group its bytes and 4.
    pub fn size_limit(&mut self, limit: usize) -> &mut RegexBuilder
        ensures { HandsBack self.entry result (record self.old { size_limit = limit }) }
    {
        self.builder.size_limit(limit);
        self
    }

    /// Sets how many groups may be open at once, and how tall the tree of the pattern may be. The default is 50. A
    /// build that exceeds it is refused with [`Error::TooMuchNesting`].
    ///
    /// The parser's recursion goes as deep as this limit, so a limit far above the default needs a large call stack.
    pub fn nest_limit(&mut self, limit: u32) -> &mut RegexBuilder
        ensures { HandsBack self.entry result (record self.old { nest_limit = limit }) }
    {
        self.builder.nest_limit(limit);
        self
    }

    /// Sets how many bytes the table of thread lists may take that a build makes for the searches. The default is 1 MiB
    /// (1048576), which ordinary patterns stay far below. With 0 no table is made.
    ///
    /// The limit changes the time of a build and of searches, and never what they return. What the table doesn't know
    /// is explored by the search itself. If memory runs out for the table, the regex is built without one.
    pub fn dfa_size_limit(&mut self, limit: usize) -> &mut RegexBuilder
        ensures { HandsBack self.entry result (record self.old { dfa_size_limit = limit }) }
    {
        self.builder.dfa_size_limit(limit);
        self
    }

    /// Sets whether groups are kept that the tree of the pattern drops, as it does for `(a){0}`. Off by default.
    ///
    /// A group that is kept has its number and its name, and counts for the size limit. It never participates in a
    /// match.
    pub fn keep_dropped_groups(&mut self, yes: bool) -> &mut RegexBuilder
        ensures { HandsBack self.entry result (record self.old { keep_dropped_groups = yes }) }
    {
        self.builder.keep_dropped_groups(yes);
        self
    }

    /// Sets whether searches return the longest of the leftmost matches instead of the one that the pattern prefers.
    /// Off by default.
    ///
    /// Of several parses of the longest match they return the groups of the preferred one. All methods that return
    /// matches, groups, pieces or replaced text follow this flag. [`Regex::is_match`] and [`Regex::shortest_match`]
    /// return the same either way.
    ///
    /// The longest match begins where the preferred one does. A whole table finds that place, and a second search, from there alone, finds
    /// the longest match. The table has thread lists for that search too.
    ///
    /// ```rust
    /// let mut builder = RegexBuilder::new(rt.alloc(), "sam|samwise")?;
    /// builder.leftmost_longest(true);
    /// let regex = builder.build()?;
    /// let found = regex.find("samwise")?.ok_or("no match")?;
    /// assert_eq!(rt; found.as_str(), "samwise");
    /// ```
    pub fn leftmost_longest(&mut self, yes: bool) -> &mut RegexBuilder
        ensures { HandsBack self.entry result (record self.old { leftmost_longest = yes }) }
    {
        self.builder.leftmost_longest(yes);
        self
    }

    /// Sets whether searches look for a literal first that each match holds, if the pattern has one. Off by default.
    ///
    /// It changes the time of searches, and never what they return. A search looks for the literal from its start on,
    /// many bytes at a time, and explores the states of the program from the first place from which a match can hold it.
    /// Without the literal nothing matches. If each match begins with one of a few texts, as of `cat|dog`, the search looks
    /// for the first of these. If each match ends at the end of the haystack, as of `[a-z]+$`, the search
    /// explores only the places near the end from which one can. If matches begin at the start of the haystack alone, the
    /// literal is looked for only in a haystack of at most 256 bytes, and only if the search may go on for long, as that of
    /// `^.*error`.
    ///
    /// With a table, a pattern that is a class of ASCII, as `[,;]`, or that class with a greedy `+`, as `\w+`, is found by
    /// its bytes. If matches begin at the start of the haystack alone and have one width of at most 64 bytes, the search
    /// compares the first bytes of the haystack. It does so only for patterns of ASCII without branches, in which each
    /// repetition has one count and the only assertions are the start and the end.
    ///
    /// Searches at one offset and for matches of the whole haystack do none of this.
    pub fn prefilter(&mut self, yes: bool) -> &mut RegexBuilder
        ensures { HandsBack self.entry result (record self.old { prefilter = yes }) }
    {
        self.builder.prefilter(yes);
        self
    }

    /// Returns a regex of this pattern, in time linear in the pattern, the size limit and the limit of the table, except
    /// for the sorting of classes and of group names.
    ///
    /// The error is the message of the pattern's first fault, or of the first limit that the pattern exceeds, or out
    /// of memory. A refused build leaves the builder unchanged, and it may be used again.
    ///
    /// For proofs: a regex is built exactly if the grammar reads the pattern as a tree and all limits hold, unless
    /// memory runs out.
    pub fn build(&self) -> Result<Regex, Error>
        ensures { Builds self.now result }
    {
        let regex = self.builder.build()?;
        Ok(Regex::from_bytes(self.alloc, regex))
    }

    /// Returns where the pattern is refused and with which message, or None if the grammar reads it within the nesting
    /// limit. The error is out of memory. The work is that of reading the pattern.
    ///
    /// The message is the one that [`RegexBuilder::build`] returns. None is also returned where a build exceeds one of
    /// the limits on the program: its size, its states or its groups.
    ///
    /// ```rust
    /// let builder = RegexBuilder::new(rt.alloc(), "a(b|*)")?;
    /// let fault = builder.syntax_error()?.ok_or("no error")?;
    /// assert_eq!(rt; *fault.error(), Error::NothingToRepeat);
    /// assert_eq!(rt; fault.offset(), Some(4));
    /// ```
    ///
    /// For proofs: there is none exactly if the grammar reads the pattern as a tree within its limits, unless memory
    /// runs out. The offset is that of the first fault.
    pub fn syntax_error(&self) -> Result<Option<SyntaxError>, AllocError>
        ensures { IfOk result (λ found. MatchOption found
            ((t : Tree) × Limits (chars self.now.pattern) self.now.flags self.now.nest_limit t)
            (RefusesAt (chars self.now.pattern) self.now.flags self.now.nest_limit)) }
    {
        self.builder.syntax_error()
    }
}

impl fmt::Debug for RegexBuilder {
    fn fmt<W: fmt::Write>(&self, f: &mut fmt::Formatter<W>) -> fmt::Result {
        fmt::Debug::fmt(&self.builder, f)
    }
}
