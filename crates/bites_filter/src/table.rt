//! Tables of patterns: each line is a name, a space and a pattern. A blank line says nothing, nor does one that begins
//! with `#`.

ghost use Rattle.std.specs.Prelude.{◌≡◌, ◌<◌, ◌≤◌, ℕ, List, true, false, length, All, IfOk, MatchOption};
ghost use Rattle.std.specs.Io.BufRead.{strip_last};
ghost use Rattle.bites_spec.specs.Settings.{settings, no_flags};
ghost use Rattle.bites_filter.specs.Table.{IsRule, IsEntry, AreEntries, says_nothing, is_blank, IsReach, IsFurthest, ReadingsAreOneList, name_at, without_end};
ghost use Rattle.bites_filter.specs.Lines.{lines_of};

use crate::fault::{Fault, RuleFault};
use crate::lines::next_line;
use crate::refused::build;
use bites_bytes::bytes::{Error, RegexBuilder, Searcher};
use std::alloc::Global;
use std::marker::Model;
use std::rt::Files;
use std::{fs, str};

/// What a line of a table stands for.
pub trait Entry: Sized {
    /// Relates a name, a pattern and the entry of both.
    ghost is: { List ℕ → List ℕ → Self → Type 0 };

    /// Makes the entry of a name and a pattern. The fault is that the pattern is not accepted, or out of memory.
    fn read(alloc: Global, name: &str, pattern: &str) -> Result<Self, Fault>
        ensures { IfOk result (is name.now pattern.now) };
}

/// A named pattern.
///
/// A contract sees the name and the regex.
#[derive(Drop)]
pub struct Rule {
    name: String,
    searcher: Searcher,
}

impl Model for Rule {
    ghost use Rattle.std.specs.Coded.{codes};
    ghost use Rattle.std.specs.Prelude.{string_bytes};
    ghost use Rattle.bites_syntax.specs.TreeCode.{tree_code};
    ghost use Rattle.bites_filter.specs.Table.{NamedRegex, named};

    ghost Value = { NamedRegex };

    ghost coded = { Prim.hlevel (codes, tree_code) };

    ghost view = { λ a. named (string_bytes a.name) a.searcher };
}

impl Entry for Rule {
    ghost is = { IsRule };

    fn read(alloc: Global, name: &str, pattern: &str) -> Result<Rule, Fault> {
        let builder = longest(alloc, pattern)?;
        let regex = build(alloc, &builder, pattern)?;
        let searcher = Searcher::new(regex)?;
        Ok(Rule {
            name: String::from_str(alloc, name)?,
            searcher,
        })
    }
}

// Returns the builder of a regex that searches for the longest match.
fn longest(alloc: Global, pattern: &str) -> Result<RegexBuilder, Error>
    ensures { IfOk result (λ b. b ≡ settings pattern.now no_flags 10485760 50 1048576 false true false) }
{
    let mut builder = RegexBuilder::new(alloc, pattern)?;
    builder.leftmost_longest(true);
    Ok(builder)
}

impl Rule {
    /// Returns the name.
    pub fn name(&self) -> &str
        ensures { result.now ≡ self.now.name }
    {
        &self.name
    }

    /// Returns the end of the longest match that begins at `start`, or `start` if there is none. It allocates nothing.
    pub fn reach(&mut self, text: &[u8], start: usize) -> usize
        requires longest { self.old.regex.leftmost_longest ≡ true }
        requires within { start ≤ length text.now }
        ensures reach { IsReach self.old.regex.tree text.now start result }
        ensures same { self.new ≡ self.old }
    {
        bites_spec::match_is_parse();
        bites_spec::found_lies();
        bites_spec::finds_some();
        bites_spec::searches_have_starts();
        bites_spec::start_is_alone();
        match self.searcher.find_anchored_at(text, start) {
            Some(found) => found.end(),
            None => start,
        }
    }
}

/// Returns the bytes of the file of this name. The fault is that it can't be read, or out of memory.
pub fn read_file(rt: &(impl Files + AllocGlobal), name: &str) -> Result<Vec<u8>, Fault> {
    match fs::read(rt, name) {
        Ok(bytes) => Ok(bytes),
        Err(error) => Err(Fault::of_file(rt.alloc(), name, error)),
    }
}

/// Reads a table. The fault is that a line has no space or is not UTF-8, that a pattern is not accepted, or out of
/// memory.
pub fn read_table<E: Entry + Drop>(alloc: Global, table: &[u8]) -> Result<Vec<E>, Fault>
    ensures { IfOk result (λ entries. AreEntries E.is (lines_of table.now) entries.items) }
{
    let mut left = table;
    let mut line = Vec::new(alloc);
    let mut entries = Vec::new(alloc);
    for number in 0..u64::MAX {
        if !next_line(&mut left, &mut line)? {
            return Ok(entries);
        }
        if let Some(entry) = read_line(alloc, number + 1, without_line_end(&line))? {
            match entries.push(entry) {
                Ok(()) => {}
                Err(_) => return Err(Fault::Pattern(Error::Memory)),
            }
        }
    }
    Err(Fault::too_long())
}

// Reads the entry of the line of this number, which has no line end. A line that says nothing has none.
fn read_line<E: Entry>(alloc: Global, number: u64, line: &[u8]) -> Result<Option<E>, Fault>
    ensures { IfOk result (λ entry. MatchOption entry (says_nothing line.now ≡ true)
        (λ x. (says_nothing line.now ≡ false) × IsEntry E.is line.now x)) }
{
    if says_nothing(line) {
        return Ok(None);
    }
    let entry = read_entry(alloc, number, line)?;
    Ok(Some(entry))
}

// Returns whether the line is blank, or begins with `#`.
fn says_nothing(line: &[u8]) -> bool
    ensures { result ≡ says_nothing line.now }
{
    match line {
        [b'#', ..] => true,
        _ => is_blank(line),
    }
}

// Returns whether nothing but spaces and tabs stands in the line.
fn is_blank(line: &[u8]) -> bool
    ensures { result ≡ is_blank line.now }
{
    line.iter().all(|byte| *byte == b' ' || *byte == b'\t')
}

// Reads the entry of the line of this number, which has no line end.
fn read_entry<E: Entry>(alloc: Global, number: u64, line: &[u8]) -> Result<E, Fault>
    ensures { IfOk result (IsEntry E.is line.now) }
{
    let Ok(text) = str::from_utf8(line) else {
        return Err(RuleFault::NotUtf8.at_line(number));
    };
    let Some((name, pattern)) = text.split_once(' ') else {
        return Err(RuleFault::NoPattern.at_line(number));
    };
    match E::read(alloc, name, pattern) {
        Ok(entry) => Ok(entry),
        Err(fault) => Err(fault.at_line(number)),
    }
}

// Returns the line without the line feed that ends it, and without a carriage return before that.
fn without_line_end(line: &[u8]) -> &[u8]
    ensures { result.now ≡ without_end line.now }
{
    match line {
        [rest @ .., b'\n'] => without_carriage_return(rest),
        _ => line,
    }
}

fn without_carriage_return(text: &[u8]) -> &[u8]
    ensures { result.now ≡ strip_last 13 text.now }
{
    match text {
        [rest @ .., b'\r'] => rest,
        _ => text,
    }
}

/// Reads a table of rules that find the longest match. The faults are those of [`read_table`].
pub fn read_rules(alloc: Global, table: &[u8]) -> Result<Vec<Rule>, Fault>
    ensures rules { IfOk result (λ rules. AreEntries IsRule (lines_of table.now) rules.items) }
    ensures longest { IfOk result (λ rules. All (λ r. r.regex.leftmost_longest ≡ true) rules.items) }
{
    let rules = read_table(alloc, table)?;
    Ok(rules)
}

/// Returns the name of the rule with this number.
pub fn name_of(rules: &[Rule], rule: usize) -> &str
    requires { rule < length rules.now }
    ensures { result.now ≡ name_at rules.now rule }
{
    rules[rule].name()
}

/// What is read from one offset: the number of a rule, and the end of its match.
#[derive(Clone, Copy, Debug)]
pub struct Reading {
    pub rule: usize,
    pub end: usize,
}

/// Returns the rule whose longest match from `start` ends last, or the first of several such rules. If no rule matches
/// any byte from there, the end is `start`.
pub fn furthest(rules: &mut [Rule], text: &[u8], start: usize) -> Reading
    requires longest { All (λ r. r.regex.leftmost_longest ≡ true) rules.old }
    requires within { start ≤ length text.now }
    ensures furthest { IsFurthest rules.old text.now start result.rule result.end }
    ensures same { rules.new ≡ rules.old }
{
    let mut reading = Reading {
        rule: 0,
        end: start,
    };
    for (number, rule) in rules.iter_mut().enumerate() {
        let end = rule.reach(text, start);
        if end > reading.end {
            reading = Reading { rule: number, end };
        }
    }
    reading
}

/// The law that the readings of a text from one offset on are one list.
pub fn readings_are_one_list()
    ensures { ReadingsAreOneList }
{}
