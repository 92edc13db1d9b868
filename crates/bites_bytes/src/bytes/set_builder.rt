//! The builder of sets of patterns.

ghost use Rattle.std.specs.Prelude.{◌≡◌, ◌≢◌, ◌∷◌, ◌++◌, [], Some, map, string_bytes, IfOk, IfErr, MatchResult};
ghost use Rattle.bites_spec.specs.Tree.{Tree};
ghost use Rattle.bites_spec.specs.Regex as spec;
ghost use Rattle.bites_spec.specs.Settings.{Accepts};
ghost use Rattle.bites_spec.specs.Set.{AreBuilt, IsBuilt, set_by_default, set_settings, with_pattern};
ghost use Rattle.bites_bytes.specs.HandsBack.{HandsBack};
ghost use Rattle.bites_bytes.specs.Set.{BuildsOne, BuildsSet, IsRefused, refusal_text};
ghost use Rattle.bites_bytes.specs.Settings.{Refuses};

use crate::bytes::{Regex, RegexBuilder, RegexSet};
use bites_text::error::Error;
use std::alloc::{AllocError, Global};
use std::fmt;
use std::marker::Model;

/// Why a set was refused: the number of a pattern, and the error of that pattern.
///
/// For proofs: a contract sees both.
#[derive(Drop)]
pub struct SetError {
    index: usize,
    error: Error,
}

impl Model for SetError {
    ghost use Rattle.bites_bytes.specs.Set.{Refusal};

    ghost Value = { Refusal };

    ghost view = { λ a. record { index = a.index; error = a.error } };
}

impl SetError {
    fn of(index: usize, error: Error) -> SetError
        ensures index { result.index ≡ index }
        ensures error { result.error ≡ error }
    {
        SetError { index, error }
    }

    /// Returns the number of the first pattern that is refused, or of the one at which memory ran out. Patterns are
    /// numbered from 0 on, in the order in which they were given.
    pub fn index(&self) -> usize
        ensures { result ≡ self.now.index }
    {
        self.index
    }

    /// Returns the message of that pattern's first fault, or of the first limit that it exceeds, or out of memory.
    pub fn error(&self) -> Error
        ensures { result ≡ self.now.error }
    {
        self.error
    }
}

impl fmt::Display for SetError {
    ghost output = { λ refusal. Some (refusal_text refusal) };

    fn fmt<W: fmt::Write>(&self, f: &mut fmt::Formatter<W>) -> fmt::Result {
        write!(f, "pattern {}: {}", self.index, self.error.text())
    }
}

impl fmt::Debug for SetError {
    fn fmt<W: fmt::Write>(&self, f: &mut fmt::Formatter<W>) -> fmt::Result {
        f.debug_struct("SetError")
            .field("index", &self.index)
            .field("error", &self.error)
            .finish()
    }
}

impl std::error::Error for SetError {}

/// A builder of sets: patterns, with flags and limits for all of them.
///
/// ```rust
/// let mut builder = RegexSetBuilder::new(rt.alloc(), &["foo", "bar"])?;
/// builder.case_insensitive(true);
/// let set = builder.build()?;
/// assert!(rt; set.is_match(b"\xFFBAR")?);
/// ```
///
/// For proofs: a contract sees the patterns and these settings.
pub struct RegexSetBuilder {
    alloc: Global,
    patterns: Vec<String>,
    // The settings of all patterns. Its own pattern is empty.
    all: RegexBuilder,
}

// A caller that drops one relies on this function, and on no type below it.
impl Drop for RegexSetBuilder {
    fn drop(self) {
        let RegexSetBuilder {
            alloc: _,
            patterns: _,
            all: _,
        } = self;
    }
}

impl Model for RegexSetBuilder {
    ghost use Rattle.std.specs.Prelude.{map, string_bytes};
    ghost use Rattle.bites_spec.specs.Set.{SetSettings, set_settings};

    ghost Value = { SetSettings };

    ghost view = { λ a. set_settings (map string_bytes a.patterns.items) a.all };
}

impl RegexSetBuilder {
    /// Returns a builder for these patterns, with all flags off, for each pattern a size limit of 10 MiB (10485760) and a
    /// nesting limit of 50, and a limit of 1 MiB (1048576) for all tables together. The patterns are not read yet.
    ///
    /// The error is out of memory for a copy of a pattern.
    pub fn new(alloc: Global, patterns: &[&str]) -> Result<RegexSetBuilder, SetError>
        ensures { MatchResult result (λ b. b ≡ set_by_default (map (λ p. p.now) patterns.now))
            (λ e. e.error ≡ Error.Memory) }
    {
        let all = match RegexBuilder::new(alloc, "") {
            Ok(all) => all,
            Err(error) => return Err(SetError::of(0, error)),
        };
        Ok(RegexSetBuilder {
            alloc,
            patterns: copies(alloc, patterns)?,
            all,
        })
    }

    /// Sets the flag `i`: an ASCII letter matches in both of its cases. Off by default.
    pub fn case_insensitive(&mut self, yes: bool) -> &mut RegexSetBuilder
        ensures { HandsBack self.entry result (record self.old {
          all = record self.old.all { flags = record self.old.all.flags { case_insensitive = yes } };
        }) }
    {
        self.all.case_insensitive(yes);
        self
    }

    /// Sets the flag `m`: `^` and `$` match at the ends of each line too. Off by default.
    pub fn multi_line(&mut self, yes: bool) -> &mut RegexSetBuilder
        ensures { HandsBack self.entry result (record self.old {
          all = record self.old.all { flags = record self.old.all.flags { multi_line = yes } };
        }) }
    {
        self.all.multi_line(yes);
        self
    }

    /// Sets the flag `s`: `.` matches every character. Off by default.
    ///
    /// Without it `.` doesn't match LF. With the flag `R` it doesn't match CR either, before LF or alone.
    pub fn dot_matches_new_line(&mut self, yes: bool) -> &mut RegexSetBuilder
        ensures { HandsBack self.entry result (record self.old {
          all = record self.old.all { flags = record self.old.all.flags { dot_matches_new_line = yes } };
        }) }
    {
        self.all.dot_matches_new_line(yes);
        self
    }

    /// Sets the flag `R`: CR and CR LF end lines as LF does, for `^` and `$` with the flag `m` and for `.` without
    /// `s`. Off by default.
    pub fn crlf(&mut self, yes: bool) -> &mut RegexSetBuilder
        ensures { HandsBack self.entry result (record self.old {
          all = record self.old.all { flags = record self.old.all.flags { crlf = yes } };
        }) }
    {
        self.all.crlf(yes);
        self
    }

    /// Sets the flag `U`: repetitions are lazy, and greedy with a `?` after the operator. Off by default.
    pub fn swap_greed(&mut self, yes: bool) -> &mut RegexSetBuilder
        ensures { HandsBack self.entry result (record self.old {
          all = record self.old.all { flags = record self.old.all.flags { swap_greed = yes } };
        }) }
    {
        self.all.swap_greed(yes);
        self
    }

    /// Sets the flag `x`: white space between the parts of a pattern means nothing, and a `#` begins a comment. Off by
    /// default.
    pub fn ignore_whitespace(&mut self, yes: bool) -> &mut RegexSetBuilder
        ensures { HandsBack self.entry result (record self.old {
          all = record self.old.all { flags = record self.old.all.flags { ignore_whitespace = yes } };
        }) }
    {
        self.all.ignore_whitespace(yes);
        self
    }

    /// Sets the greatest size of each program, as [`RegexBuilder::size_limit`] does for one. The default is 10 MiB
    /// (10485760) for each pattern.
    pub fn size_limit(&mut self, limit: usize) -> &mut RegexSetBuilder
        ensures { HandsBack self.entry result (record self.old { all = record self.old.all { size_limit = limit } }) }
    {
        self.all.size_limit(limit);
        self
    }

    /// Sets how many groups may be open at once in a pattern, and how tall its tree may be, as
    /// [`RegexBuilder::nest_limit`] does for one. The default is 50.
    pub fn nest_limit(&mut self, limit: u32) -> &mut RegexSetBuilder
        ensures { HandsBack self.entry result (record self.old { all = record self.old.all { nest_limit = limit } }) }
    {
        self.all.nest_limit(limit);
        self
    }

    /// Sets how many bytes the tables of all patterns together may take, as [`RegexBuilder::dfa_size_limit`] does for one.
    /// The default is 1 MiB (1048576), and with 0 no tables are made. Each pattern's table may take what those of the
    /// patterns before it leave.
    ///
    /// Which patterns match is the same either way.
    pub fn dfa_size_limit(&mut self, limit: usize) -> &mut RegexSetBuilder
        ensures { HandsBack self.entry result (record self.old { all = record self.old.all { dfa_size_limit = limit } }) }
    {
        self.all.dfa_size_limit(limit);
        self
    }

    /// Sets whether groups are kept that the tree of a pattern drops, as it does for `(a){0}`. Off by default.
    ///
    /// Such a group counts for the size limit. Which patterns match is the same either way.
    pub fn keep_dropped_groups(&mut self, yes: bool) -> &mut RegexSetBuilder
        ensures { HandsBack self.entry result (record self.old { all = record self.old.all { keep_dropped_groups = yes } }) }
    {
        self.all.keep_dropped_groups(yes);
        self
    }

    /// Sets the same switch as [`RegexBuilder::leftmost_longest`]. Off by default.
    ///
    /// Which patterns match is the same either way.
    pub fn leftmost_longest(&mut self, yes: bool) -> &mut RegexSetBuilder
        ensures { HandsBack self.entry result (record self.old { all = record self.old.all { leftmost_longest = yes } }) }
    {
        self.all.leftmost_longest(yes);
        self
    }

    /// Sets the same switch as [`RegexBuilder::prefilter`]. Off by default.
    ///
    /// Which patterns match is the same either way. If the set has four patterns or more, and the haystack has at most 32 bytes for each and
    /// 2,048 in all, a search first looks up which runs of three bytes stand in the haystack. If each match of a pattern holds a
    /// literal, the runs around its two rarest bytes have to be there, else the pattern is not searched for. How many are passed over
    /// so is no contract.
    pub fn prefilter(&mut self, yes: bool) -> &mut RegexSetBuilder
        ensures { HandsBack self.entry result (record self.old { all = record self.old.all { prefilter = yes } }) }
    {
        self.all.prefilter(yes);
        self
    }

    /// Returns a set of these patterns. The time is that of building each of them.
    ///
    /// The error names the first pattern that is refused, with the message of its first fault, or of the first limit
    /// that it exceeds. It may also be out of memory. A refused build leaves the builder unchanged, and it may be used
    /// again.
    ///
    /// For proofs: a set is built exactly if the grammar reads each pattern as a tree and all limits hold for each,
    /// unless memory runs out.
    pub fn build(&self) -> Result<RegexSet, SetError>
        ensures { BuildsSet self.now result }
    {
        let regexes = built(self.alloc, &self.all, self.patterns.as_slice())?;
        Ok(RegexSet::from_regexes(self.alloc, regexes))
    }
}

// Returns a copy of each pattern.
fn copies(alloc: Global, patterns: &[&str]) -> Result<Vec<String>, SetError>
    ensures { MatchResult result (λ v. map string_bytes v.items ≡ map (λ p. p.now) patterns.now)
        (λ e. e.error ≡ Error.Memory) }
{
    let mut copies = Vec::new(alloc);
    for (index, pattern) in patterns.iter().enumerate() {
        if push_copy(alloc, &mut copies, pattern).is_err() {
            return Err(SetError::of(index, Error::Memory));
        }
    }
    Ok(copies)
}

// Adds a copy of the pattern.
fn push_copy(alloc: Global, copies: &mut Vec<String>, pattern: &str) -> Result<(), Error>
    ensures copied { IfOk result (λ _. map string_bytes copies.new.items
        ≡ map string_bytes copies.old.items ++ pattern.now ∷ []) }
{
    copies.push(String::from_str(alloc, pattern)?)?;
    Ok(())
}

// Returns a regex for each pattern, all with the settings of one builder.
fn built(alloc: Global, all: &RegexBuilder, patterns: &[String]) -> Result<Vec<Regex>, SetError>
    ensures built { IfOk result (λ v. AreBuilt (set_settings (map string_bytes patterns.now) all.now) v.items) }
    ensures refused { IfErr result (λ e. e.error ≢ Error.Memory →
        IsRefused (set_settings (map string_bytes patterns.now) all.now) e) }
{
    let mut regexes = Vec::new(alloc);
    let mut left = all.table_limit();
    for (index, pattern) in patterns.iter().enumerate() {
        if let Err(error) = add_regex(all, pattern.as_str(), &mut left, &mut regexes) {
            return Err(SetError::of(index, error));
        }
    }
    Ok(regexes)
}

// Adds the regex of one pattern. Its table may take the bytes that are left, and those that it takes are no longer left.
fn add_regex(
    all: &RegexBuilder,
    pattern: &str,
    left: &mut usize,
    regexes: &mut Vec<Regex>,
) -> Result<(), Error>
    ensures added { IfOk result (λ _. (r : spec.Regex) × (regexes.new.items ≡ regexes.old.items ++ r ∷ [])
        × IsBuilt (with_pattern all.now pattern.now) r) }
    ensures refused { IfErr result (λ e. e ≢ Error.Memory → (t : Tree) →
        Accepts (with_pattern all.now pattern.now) t → ⊥) }
    ensures message { IfErr result (λ e. e ≢ Error.Memory → Refuses (with_pattern all.now pattern.now) e) }
{
    let regex = regex_of(all, pattern, *left)?;
    *left = left.saturating_sub(table_bytes(&regex));
    regexes.push(regex)?;
    Ok(())
}

pub(super) fn table_bytes(regex: &Regex) -> usize {
    match regex.table_size() {
        Some(size) => size.bytes,
        None => 0,
    }
}

// Returns the regex of one pattern, with a table of at most so many bytes. A set has no searches at one offset.
fn regex_of(all: &RegexBuilder, pattern: &str, limit: usize) -> Result<Regex, Error>
    ensures { BuildsOne (with_pattern all.now pattern.now) result }
{
    limited(all, pattern, limit)?.into_regex_for(false)
}

// Returns the builder of one pattern, with this limit on its table.
fn limited(all: &RegexBuilder, pattern: &str, limit: usize) -> Result<RegexBuilder, AllocError>
    ensures { IfOk result (λ b. b ≡ record (with_pattern all.now pattern.now) { dfa_size_limit = limit }) }
{
    let mut builder = all.with_pattern(pattern)?;
    builder.dfa_size_limit(limit);
    Ok(builder)
}

impl fmt::Debug for RegexSetBuilder {
    fn fmt<W: fmt::Write>(&self, f: &mut fmt::Formatter<W>) -> fmt::Result {
        f.debug_struct("RegexSetBuilder")
            .field("patterns", &self.patterns)
            .field("all", &self.all)
            .finish()
    }
}
