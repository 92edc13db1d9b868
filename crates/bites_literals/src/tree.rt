//! What is known of each match of a tree, part by part.

ghost use Rattle.bites_spec.specs.Tree.{sequence, alternation, trees_of};
ghost use Rattle.bites_literals.specs.Facts.{AreFacts};
ghost use Rattle.bites_literals.specs.Begins.{BeginsAtStart};
ghost use Rattle.std.specs.Prelude.{◌≡◌, ℕ, List, true};
ghost use Rattle.bites_spec.specs.Match.{MatchesOne};

use crate::ascii::AsciiSet;
use crate::class::{facts_of_char, facts_of_class};
use crate::facts::Facts;
use bites_syntax::look::Look;
use bites_syntax::tree::{Kind, Tree};

/// Returns what is known of each match of the tree.
#[cycle(facts)]
pub(crate) fn facts_of(tree: &Tree) -> Facts
    ensures { AreFacts tree.now result }
{
    match tree.kind() {
        Kind::Look(Look::End) => Facts::end(),
        Kind::Empty => Facts::empty(),
        Kind::Look(_) => Facts::look(),
        Kind::Char(c) => facts_of_char(*c),
        Kind::Class(class) => facts_of_class(class),
        Kind::Repetition { min, max, sub, .. } => facts_of(sub).repeated(*min, *max),
        Kind::Capture { sub, .. } => facts_of(sub),
        Kind::Concat(parts) => facts_of_sequence(parts),
        Kind::Alternation(parts) => facts_of_alternation(parts),
    }
}

/// Returns what is known of each match of the trees one after another.
#[cycle(facts)]
pub(crate) fn facts_of_sequence(parts: &[Tree]) -> Facts
    ensures { AreFacts (sequence (trees_of parts.now)) result }
{
    let mut facts = Facts::empty();
    for i in (0..parts.len()).rev() {
        facts = facts_of(&parts[i]).followed_by(&facts);
    }
    facts
}

/// Returns what is known of each match of one of the trees.
#[cycle(facts)]
fn facts_of_alternation(parts: &[Tree]) -> Facts
    ensures { AreFacts (alternation (trees_of parts.now)) result }
{
    let mut facts = Facts::none();
    for i in (0..parts.len()).rev() {
        facts = facts_of(&parts[i]).or(&facts);
    }
    facts
}

// How deep a tree is looked into by the tests below.
pub(crate) const MOST_DEPTH: u32 = 100;

/// Returns whether the tree is a choice. No literal is known that each match of a choice holds.
pub(crate) fn is_choice(tree: &Tree) -> bool {
    let mut part = tree;
    for _ in 0..MOST_DEPTH {
        match part.kind() {
            Kind::Capture { sub, .. } => part = sub,
            Kind::Repetition { min, sub, .. } if *min > 0 => part = sub,
            Kind::Alternation(_) => return true,
            _ => return false,
        }
    }
    false
}

/// Returns whether matches are known to begin at the start of the haystack alone.
///
/// They are if the first part of the tree is that start, or if that of each branch of a choice is.
pub fn is_at_start(tree: &Tree) -> bool
    ensures { result ≡ true → BeginsAtStart tree.now }
{
    let first = first_part(tree);
    match first.kind() {
        Kind::Alternation(branches) => all_begin_with_start(branches),
        _ => is_start(first),
    }
}

/// Returns whether the start of the haystack is the first part of each of the trees.
fn all_begin_with_start(branches: &[Tree]) -> bool
    ensures { result ≡ true → (hay : List ℕ) (i j : ℕ) → MatchesOne hay (trees_of branches.now) i j → i ≡ 0 }
{
    for branch in branches {
        if !is_start(first_part(branch)) {
            return false;
        }
    }
    true
}

/// Returns whether the tree is the start of the haystack.
fn is_start(tree: &Tree) -> bool
    ensures { result ≡ true → BeginsAtStart tree.now }
{
    match tree.kind() {
        Kind::Look(Look::Start) => true,
        _ => false,
    }
}

/// Returns a part with which each match of the tree begins: it looks into groups and sequences.
fn first_part(tree: &Tree) -> &Tree
    ensures { BeginsAtStart result.now → BeginsAtStart tree.now }
{
    let mut part = tree;
    for _ in 0..MOST_DEPTH {
        match part.kind() {
            Kind::Capture { sub, .. } => part = sub,
            Kind::Concat(parts) => match parts.first() {
                Some(first) => part = first,
                None => return part,
            },
            _ => return part,
        }
    }
    part
}

/// Returns whether the last part of the tree, or of its last branch, is the end of the haystack.
pub(crate) fn is_at_end(tree: &Tree) -> bool {
    let mut part = tree;
    for _ in 0..MOST_DEPTH {
        match part.kind() {
            Kind::Look(Look::End) => return true,
            Kind::Capture { sub, .. } => part = sub,
            Kind::Concat(parts) | Kind::Alternation(parts) => match parts.last() {
                Some(last) => part = last,
                None => return false,
            },
            _ => return false,
        }
    }
    false
}

/// Returns which bytes of ASCII may stand in the first part of the tree that is no assertion, if that is a repetition without a bound.
/// Groups and bounded repetitions are looked into, and of a choice the last branch, which is mostly the long one. Only speed depends on
/// it.
pub(crate) fn first_repeated(tree: &Tree) -> Option<AsciiSet> {
    let mut part = tree;
    for _ in 0..MOST_DEPTH {
        match part.kind() {
            Kind::Repetition { max: None, sub, .. } => return Some(facts_of(sub).ascii),
            Kind::Repetition { sub, .. } | Kind::Capture { sub, .. } => part = sub,
            Kind::Concat(parts) => part = first_behind_looks(parts)?,
            Kind::Alternation(parts) => part = parts.last()?,
            _ => return None,
        }
    }
    None
}

/// Returns the first of the trees that is no assertion.
fn first_behind_looks(parts: &[Tree]) -> Option<&Tree> {
    for part in parts {
        if !matches!(part.kind(), Kind::Look(_)) {
            return Some(part);
        }
    }
    None
}
