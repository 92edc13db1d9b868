//! The builder of sets of patterns over texts.

ghost use Rattle.std.specs.Prelude.{◌≡◌, map, MatchResult};
ghost use Rattle.bites_spec.specs.Set.{set_by_default};
ghost use Rattle.bites_text.specs.declared.error.Error.TheVariants.{Memory};
ghost use Rattle.bites_bytes.specs.HandsBack.{HandsBack};
ghost use Rattle.bites_bytes.specs.Set.{BuildsSet};

use crate::string::RegexSet;
use bites_bytes::bytes::{self, SetError};
use std::alloc::Global;
use std::fmt;
use std::marker::Model;

/// A builder of sets: patterns, with flags and limits for all of them.
///
/// ```rust
/// let mut builder = RegexSetBuilder::new(rt.alloc(), &["foo", "bar"])?;
/// builder.case_insensitive(true);
/// let set = builder.build()?;
/// assert!(rt; set.is_match("xBAR")?);
/// ```
///
/// For proofs: a contract sees the patterns and these settings.
pub struct RegexSetBuilder {
    builder: bytes::RegexSetBuilder,
}

// A caller that drops one relies on this function, and on no type below it.
impl Drop for RegexSetBuilder {
    fn drop(self) {
        let RegexSetBuilder { builder: _ } = self;
    }
}

impl Model for RegexSetBuilder {
    ghost use Rattle.bites_spec.specs.Set.{SetSettings};

    ghost Value = { SetSettings };

    ghost view = { λ a. a.builder };
}

impl RegexSetBuilder {
    /// Returns a builder for these patterns, with all flags off, for each pattern a size limit of 10 MiB (10485760) and a
    /// nesting limit of 50, and a limit of 1 MiB (1048576) for all tables together. The patterns are not read yet.
    ///
    /// The error is out of memory for a copy of a pattern.
    pub fn new(alloc: Global, patterns: &[&str]) -> Result<RegexSetBuilder, SetError>
        ensures { MatchResult result (λ b. b ≡ set_by_default (map (λ p. p.now) patterns.now))
            (λ e. e.error ≡ Memory) }
    {
        Ok(RegexSetBuilder {
            builder: bytes::RegexSetBuilder::new(alloc, patterns)?,
        })
    }

    /// Sets the flag `i`: an ASCII letter matches in both of its cases. Off by default.
    pub fn case_insensitive(&mut self, yes: bool) -> &mut RegexSetBuilder
        ensures { HandsBack self.entry result (record self.old {
          all = record self.old.all { flags = record self.old.all.flags { case_insensitive = yes } };
        }) }
    {
        self.builder.case_insensitive(yes);
        self
    }

    /// Sets the flag `m`: `^` and `$` match at the ends of each line too. Off by default.
    pub fn multi_line(&mut self, yes: bool) -> &mut RegexSetBuilder
        ensures { HandsBack self.entry result (record self.old {
          all = record self.old.all { flags = record self.old.all.flags { multi_line = yes } };
        }) }
    {
        self.builder.multi_line(yes);
        self
    }

    /// Sets the flag `s`: `.` matches every character. Off by default.
    ///
    /// Without it `.` doesn't match LF. With the flag `R` it doesn't match CR either, before LF or alone.
    pub fn dot_matches_new_line(&mut self, yes: bool) -> &mut RegexSetBuilder
        ensures { HandsBack self.entry result (record self.old {
          all = record self.old.all { flags = record self.old.all.flags { dot_matches_new_line = yes } };
        }) }
    {
        self.builder.dot_matches_new_line(yes);
        self
    }

    /// Sets the flag `R`: CR and CR LF end lines as LF does, for `^` and `$` with the flag `m` and for `.` without
    /// `s`. Off by default.
    pub fn crlf(&mut self, yes: bool) -> &mut RegexSetBuilder
        ensures { HandsBack self.entry result (record self.old {
          all = record self.old.all { flags = record self.old.all.flags { crlf = yes } };
        }) }
    {
        self.builder.crlf(yes);
        self
    }

    /// Sets the flag `U`: repetitions are lazy, and greedy with a `?` after the operator. Off by default.
    pub fn swap_greed(&mut self, yes: bool) -> &mut RegexSetBuilder
        ensures { HandsBack self.entry result (record self.old {
          all = record self.old.all { flags = record self.old.all.flags { swap_greed = yes } };
        }) }
    {
        self.builder.swap_greed(yes);
        self
    }

    /// Sets the flag `x`: white space between the parts of a pattern means nothing, and a `#` begins a comment. Off by
    /// default.
    pub fn ignore_whitespace(&mut self, yes: bool) -> &mut RegexSetBuilder
        ensures { HandsBack self.entry result (record self.old {
          all = record self.old.all { flags = record self.old.all.flags { ignore_whitespace = yes } };
        }) }
    {
        self.builder.ignore_whitespace(yes);
        self
    }

    /// Sets the greatest size of each program, as [`RegexBuilder::size_limit`] does for one. The default is 10 MiB
    /// (10485760) for each pattern.
    pub fn size_limit(&mut self, limit: usize) -> &mut RegexSetBuilder
        ensures { HandsBack self.entry result (record self.old { all = record self.old.all { size_limit = limit } }) }
    {
        self.builder.size_limit(limit);
        self
    }

    /// Sets how many groups may be open at once in a pattern, and how tall its tree may be, as
    /// [`RegexBuilder::nest_limit`] does for one. The default is 50.
    pub fn nest_limit(&mut self, limit: u32) -> &mut RegexSetBuilder
        ensures { HandsBack self.entry result (record self.old { all = record self.old.all { nest_limit = limit } }) }
    {
        self.builder.nest_limit(limit);
        self
    }

    /// Sets how many bytes the tables of all patterns together may take, as [`RegexBuilder::dfa_size_limit`] does for one.
    /// The default is 1 MiB (1048576), and with 0 no tables are made. Each pattern's table may take what those of the
    /// patterns before it leave.
    ///
    /// Which patterns match is the same either way.
    pub fn dfa_size_limit(&mut self, limit: usize) -> &mut RegexSetBuilder
        ensures { HandsBack self.entry result (record self.old { all = record self.old.all { dfa_size_limit = limit } }) }
    {
        self.builder.dfa_size_limit(limit);
        self
    }

    /// Sets whether groups are kept that the tree of a pattern drops, as it does for `(a){0}`. Off by default.
    ///
    /// Such a group counts for the size limit. Which patterns match is the same either way.
    pub fn keep_dropped_groups(&mut self, yes: bool) -> &mut RegexSetBuilder
        ensures { HandsBack self.entry result (record self.old { all = record self.old.all { keep_dropped_groups = yes } }) }
    {
        self.builder.keep_dropped_groups(yes);
        self
    }

    /// Sets the same switch as [`RegexBuilder::leftmost_longest`]. Off by default.
    ///
    /// Which patterns match is the same either way.
    pub fn leftmost_longest(&mut self, yes: bool) -> &mut RegexSetBuilder
        ensures { HandsBack self.entry result (record self.old { all = record self.old.all { leftmost_longest = yes } }) }
    {
        self.builder.leftmost_longest(yes);
        self
    }

    /// Sets the same switch as [`RegexBuilder::prefilter`]. Off by default.
    ///
    /// Which patterns match is the same either way. If the set has four patterns or more, and the haystack has at most 32 bytes for each and
    /// 2,048 in all, a search first looks up which runs of three bytes stand in the haystack. If each match of a pattern holds a
    /// literal, the runs around its two rarest bytes have to be there, else the pattern is not searched for. How many are passed over
    /// so is no contract.
    pub fn prefilter(&mut self, yes: bool) -> &mut RegexSetBuilder
        ensures { HandsBack self.entry result (record self.old { all = record self.old.all { prefilter = yes } }) }
    {
        self.builder.prefilter(yes);
        self
    }

    /// Returns a set of these patterns. The time is that of building each of them.
    ///
    /// The error names the first pattern that is refused, with the message of its first fault, or of the first limit
    /// that it exceeds. It may also be out of memory. A refused build leaves the builder unchanged, and it may be used
    /// again.
    ///
    /// For proofs: a set is built exactly if the grammar reads each pattern as a tree and all limits hold for each,
    /// unless memory runs out.
    pub fn build(&self) -> Result<RegexSet, SetError>
        ensures { BuildsSet self.now result }
    {
        Ok(RegexSet::from_bytes(self.builder.build()?))
    }
}

impl fmt::Debug for RegexSetBuilder {
    fn fmt<W: fmt::Write>(&self, f: &mut fmt::Formatter<W>) -> fmt::Result {
        fmt::Debug::fmt(&self.builder, f)
    }
}
