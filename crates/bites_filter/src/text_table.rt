//! Tables of patterns over texts. A search takes the first pattern that matches a whole text.

ghost use Rattle.std.specs.Prelude.{◌≡◌, ◌<◌, true, false, length, option_map, MatchOption, IfOk, IfSome, IsUtf8};
ghost use Rattle.bites_spec.specs.Full.{FindsGroupsFull};
ghost use Rattle.bites_spec.specs.Settings.{settings, no_flags};
ghost use Rattle.bites_filter.specs.Lines.{lines_of};
ghost use Rattle.bites_filter.specs.Table.{IsTextRule, AreEntries, NoneMatches, IsFirst, name_at};

use crate::fault::Fault;
use crate::refused::build_text;
use crate::table::{Entry, read_table};
use bites_text::error::Error;
use regex_bites::{Captures, RegexBuilder, Searcher};
use std::alloc::{AllocError, Global};
use std::marker::Model;
use std::str;

/// A named pattern over texts.
///
/// A contract sees the name and the regex.
#[derive(Drop)]
pub struct TextRule {
    name: String,
    searcher: Searcher,
}

impl Model for TextRule {
    ghost use Rattle.std.specs.Coded.{codes};
    ghost use Rattle.std.specs.Prelude.{string_bytes};
    ghost use Rattle.bites_syntax.specs.TreeCode.{tree_code};
    ghost use Rattle.bites_filter.specs.Table.{NamedRegex, named};

    ghost Value = { NamedRegex };

    ghost coded = { Prim.hlevel (codes, tree_code) };

    ghost view = { λ a. named (string_bytes a.name) a.searcher };
}

impl Entry for TextRule {
    ghost is = { IsTextRule };

    fn read(alloc: Global, name: &str, pattern: &str) -> Result<TextRule, Fault> {
        let builder = longest(alloc, pattern)?;
        let regex = build_text(alloc, &builder, pattern)?;
        Ok(TextRule {
            name: String::from_str(alloc, name)?,
            searcher: Searcher::new(regex)?,
        })
    }
}

// Returns the builder of a regex that searches for the longest match. So one search tells whether the whole text matches, also where a
// shorter match comes first.
fn longest(alloc: Global, pattern: &str) -> Result<RegexBuilder, Error>
    ensures { IfOk result (λ b. b ≡ settings pattern.now no_flags 10485760 50 1048576 false true false) }
{
    let mut builder = RegexBuilder::new(alloc, pattern)?;
    builder.leftmost_longest(true);
    Ok(builder)
}

impl TextRule {
    // Returns the groups of a match that is the whole text, if there is one.
    fn captures_full<'t>(&mut self, text: &'t str) -> Result<Option<Captures<'t>>, AllocError>
        ensures found { IfOk result (λ c.
            FindsGroupsFull self.old.regex text.now (option_map (λ x. x.slots) c)) }
        ensures text { IfOk result (λ c. IfSome c (λ x. x.haystack ≡ text.now)) }
        ensures same { self.new ≡ self.old }
    {
        self.searcher.captures_full(text)
    }
}

/// The rules of a table, in its order.
///
/// A contract sees the list of their names and regexes.
#[derive(Drop)]
pub struct TextTable {
    rules: Vec<TextRule>,
}

impl Model for TextTable {
    ghost use Rattle.std.specs.Coded.{codes};
    ghost use Rattle.std.specs.Prelude.{List};
    ghost use Rattle.bites_syntax.specs.TreeCode.{tree_code};
    ghost use Rattle.bites_filter.specs.Table.{NamedRegex};

    ghost Value = { List NamedRegex };

    ghost coded = { Prim.hlevel (codes, tree_code) };

    ghost view = { λ a. a.rules.items };
}

/// The number of a rule that matches a whole text, and the groups of its match.
#[derive(Drop)]
pub struct FullMatch<'t> {
    pub rule: usize,
    pub groups: Captures<'t>,
}

impl TextTable {
    /// Reads a table. The faults are those of [`read_table`].
    pub fn read(alloc: Global, table: &[u8]) -> Result<TextTable, Fault>
        ensures { IfOk result (λ rules. AreEntries IsTextRule (lines_of table.now) rules) }
    {
        let rules = read_table(alloc, table)?;
        Ok(TextTable { rules })
    }

    /// Returns the name of the rule with this number.
    pub fn name(&self, rule: usize) -> &str
        requires { rule < length self.now }
        ensures { result.now ≡ name_at self.now rule }
    {
        let rule = &self.rules[rule];
        &rule.name
    }

    /// Returns the first rule that matches the whole text, with the groups of that match. No rule matches a text that
    /// isn't UTF-8. The error is out of memory.
    pub fn first_full<'t>(&mut self, text: &'t [u8]) -> Result<Option<FullMatch<'t>>, AllocError>
        ensures first { IfOk result (λ r. MatchOption r (IsUtf8 text.now → NoneMatches self.old text.now)
            (λ x. IsFirst self.old text.now x.rule x.groups.slots)) }
        ensures text { IfOk result (λ r. IfSome r (λ x. IsUtf8 text.now × (x.groups.haystack ≡ text.now))) }
        ensures same { self.new ≡ self.old }
    {
        match str::from_utf8(text) {
            Ok(text) => first_full(self.rules.as_mut_slice(), text),
            Err(_) => Ok(None),
        }
    }
}

// Returns the first rule that matches the whole text, with the groups of that match. A `&str` is UTF-8 anyway. The
// contract says so since the contract of the method does.
fn first_full<'t>(
    rules: &mut [TextRule],
    text: &'t str,
) -> Result<Option<FullMatch<'t>>, AllocError>
    ensures first { IfOk result (λ r. MatchOption r (IsUtf8 text.now → NoneMatches rules.old text.now)
        (λ x. IsFirst rules.old text.now x.rule x.groups.slots)) }
    ensures text { IfOk result (λ r. IfSome r (λ x. x.groups.haystack ≡ text.now)) }
    ensures same { rules.new ≡ rules.old }
{
    for (number, rule) in rules.iter_mut().enumerate() {
        if let Some(groups) = rule.captures_full(text)? {
            return Ok(Some(FullMatch {
                rule: number,
                groups,
            }));
        }
    }
    Ok(None)
}
