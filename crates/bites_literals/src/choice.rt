//! Texts such that each match of a tree begins with one of them.

ghost use Rattle.std.specs.Prelude.{None, true, ◌≡◌, ◌↔◌, ◌+◌, ◌<◌, ◌≤◌, ℕ, List, drop, length, IfOk, IfSome, IsTrue};
ghost use Rattle.bites_spec.specs.Tree as spec;
ghost use Rattle.bites_spec.specs.Tree.{sequence, alternation, trees_of};
ghost use Rattle.std.specs.List.{AllPairs};
ghost use Rattle.bites_scan.specs.Literal.{DifferFrom};
ghost use Rattle.bites_literals.specs.Choice.{AllFrom, AreAdded, AreBranches, BeginsWithOne, IsChoice, IsOneOf, MatchAlike, StandsBefore};
ghost use Rattle.bites_literals.specs.Facts.{AreFacts};
ghost use Rattle.bites_literals.specs.Texts.{Stands, bytes_of};

use crate::facts::Facts;
use crate::text::Text;
use crate::tree::{MOST_DEPTH, facts_of, facts_of_sequence, is_choice};
use bites_scan::literal::{Literal, MAX_LEN};
use bites_scan::literal_set::{LiteralSet, MOST_LITERALS};
use bites_syntax::tree::{Kind, Tree};
use std::alloc::{AllocError, Global};

/// How many bytes a text has at least.
const LEAST_LEN: usize = 2;

/// How many bytes each of many texts has at least. A search for a set compares three bytes at once, so it stops often for
/// shorter texts.
const LEAST_LEN_OF_MANY: usize = 3;

/// How many texts are not many.
const FEW_TEXTS: usize = 16;

/// Literals such that each match of a tree begins with one of them.
#[derive(Drop)]
pub(crate) struct Choice {
    /// They take two kilobytes, so they stand elsewhere.
    pub set: Box<LiteralSet>,
    /// Whether a match is one of them and nothing else, each of them is a match wherever it stands, and no two of different lengths stand
    /// at one place.
    pub is_match: bool,
}

/// Returns literals, if they are worth a search and there is memory for them.
pub(crate) fn choice_of(alloc: Global, tree: &Tree) -> Option<Choice>
    ensures { IfSome result (IsChoice tree.now) }
{
    if let Some(texts) = texts_alone(alloc, tree) {
        return boxed(alloc, texts, true);
    }
    let texts = texts_of(alloc, tree)?;
    if texts.len() > FEW_TEXTS && some_is_short(&texts) {
        return None;
    }
    boxed(alloc, texts, false)
}

/// Returns the texts as a choice. It is a call, so that no room for a set is cleared where there is none.
#[inline(never)]
fn boxed(alloc: Global, texts: Vec<Literal>, is_match: bool) -> Option<Choice>
    ensures set { IfSome result (λ choice. choice.set.value ≡ texts.items) }
    ensures is_match { IfSome result (λ choice. choice.is_match ≡ is_match) }
{
    let set = Box::new(alloc, LiteralSet::new(texts)?).ok()?;
    Some(Choice { set, is_match })
}

/// Returns texts, if the tree is a choice of a few of them, no two stand at one place, and there is memory for them.
fn texts_alone(alloc: Global, tree: &Tree) -> Option<Vec<Literal>>
    ensures { IfSome result (λ texts. IsOneOf tree.now texts.items) }
{
    let texts = texts_of_branches(alloc, branches_of(tree)?)?;
    if !are_apart(&texts) {
        return None;
    }
    Some(texts)
}

/// Returns the branches of the tree, if it is a choice, also within groups.
fn branches_of(tree: &Tree) -> Option<&[Tree]>
    ensures { IfSome result (λ parts. MatchAlike (alternation (trees_of parts.now)) tree.now) }
{
    let mut part = tree;
    for _ in 0..MOST_DEPTH {
        match part.kind() {
            Kind::Capture { sub, .. } => part = sub,
            Kind::Alternation(parts) => return Some(parts),
            _ => return None,
        }
    }
    None
}

/// Returns the text of each branch, if these are a few, each is a text and nothing else, and there is memory for them.
fn texts_of_branches(alloc: Global, parts: &[Tree]) -> Option<Vec<Literal>>
    ensures { IfSome result (λ texts. AreBranches (alternation (trees_of parts.now)) texts.items) }
{
    if parts.len() > FEW_TEXTS {
        return None;
    }
    let mut texts = Vec::new(alloc);
    for number in 0..parts.len() {
        let facts = facts_of(&parts[number]);
        if !facts.whole || !facts.exact || facts.front.len() < LEAST_LEN {
            return None;
        }
        texts.push(facts.front.literal()).ok()?;
    }
    Some(texts)
}

/// Returns whether no two of the texts occur at one place.
fn are_apart(texts: &[Literal]) -> bool
    ensures { IsTrue result ↔ AllPairs DifferFrom texts.now }
{
    for first in 0..texts.len() {
        if !is_apart(texts, first) {
            return false;
        }
    }
    true
}

/// Returns whether none of the later texts occurs where this one does.
fn is_apart(texts: &[Literal], first: usize) -> bool
    requires { first < length texts.now }
    ensures { IsTrue result ↔ AllFrom (first + 1) first texts.now }
{
    for second in first + 1..texts.len() {
        if !texts[first].differs_from(&texts[second]) {
            return false;
        }
    }
    true
}

/// Returns whether one of many texts is too short for a search. Only speed depends on it.
fn some_is_short(texts: &[Literal]) -> bool {
    for text in texts {
        if text.len() < LEAST_LEN_OF_MANY {
            return true;
        }
    }
    false
}

/// Returns texts, if there is memory for them. Each match of the tree begins with one of them.
fn texts_of(alloc: Global, tree: &Tree) -> Option<Vec<Literal>>
    ensures { IfSome result (λ texts. BeginsWithOne tree.now texts.items) }
{
    let mut texts = Vec::new(alloc);
    match add_texts(&Text::empty(), tree, &mut texts) {
        Ok(true) => Some(texts),
        _ => None,
    }
}

/// Adds texts to those before. Returns whether one of all these stands wherever `front` stands and the tree matches behind it. If
/// not, they are of no use.
#[cycle(texts)]
fn add_texts(front: &Text, tree: &Tree, texts: &mut Vec<Literal>) -> Result<bool, AllocError>
    ensures { IfOk result (AreAdded front.now tree.now texts.old.items texts.new.items) }
{
    match tree.kind() {
        Kind::Capture { sub, .. } => add_texts(front, sub, texts),
        Kind::Repetition { min, sub, .. } if *min > 0 => add_texts(front, sub, texts),
        Kind::Concat(parts) => add_texts_of_sequence(front, parts, texts),
        Kind::Alternation(parts) => add_texts_of_each(front, parts, texts),
        _ => add_front(front, &facts_of(tree), texts),
    }
}

/// The same for the trees one after another. The first ones that are a text and nothing else make the front longer.
#[cycle(texts)]
fn add_texts_of_sequence(
    front: &Text,
    parts: &[Tree],
    texts: &mut Vec<Literal>,
) -> Result<bool, AllocError>
    ensures { IfOk result (AreAdded front.now (sequence (trees_of parts.now)) texts.old.items texts.new.items) }
{
    let (longer, passed) = front_of(front, parts);
    if passed < parts.len() && is_choice(&parts[passed]) {
        return add_texts(&longer, &parts[passed], texts);
    }
    add_front(&longer, &facts_of_sequence(&parts[passed..]), texts)
}

/// The same for one of the trees.
#[cycle(texts)]
fn add_texts_of_each(
    front: &Text,
    parts: &[Tree],
    texts: &mut Vec<Literal>,
) -> Result<bool, AllocError>
    ensures { IfOk result (AreAdded front.now (alternation (trees_of parts.now)) texts.old.items texts.new.items) }
{
    if parts.len() > MOST_LITERALS {
        return Ok(false);
    }
    for branch in 0..parts.len() {
        if !add_texts(front, &parts[branch], texts)? {
            return Ok(false);
        }
    }
    Ok(true)
}

/// Returns the front with what the first of the parts add to it, and how many these are. They end before a choice, and before a
/// part that is more than a text.
fn front_of(front: &Text, parts: &[Tree]) -> (Text, usize)
    ensures within { result.1 ≤ length parts.now }
    ensures stands { StandsBefore front.now (trees_of parts.now) result.0 (trees_of (drop result.1 parts.now)) }
{
    let mut longer = *front;
    for i in 0..parts.len() {
        if is_choice(&parts[i]) {
            return (longer, i);
        }
        let facts = facts_of(&parts[i]);
        if !facts.whole || longer.len() + facts.front.len() > MAX_LEN {
            return (longer, i);
        }
        longer = longer.followed_by(&facts.front);
    }
    (longer, parts.len())
}

/// Adds the front with what each match begins with, if both together have enough bytes.
fn add_front(front: &Text, facts: &Facts, texts: &mut Vec<Literal>) -> Result<bool, AllocError>
    ensures { (t : spec.Tree) → AreFacts t facts.now → IfOk result (AreAdded front.now t texts.old.items texts.new.items) }
{
    let text = joined(front, &facts.front);
    if text.len() < LEAST_LEN || texts.len() >= MOST_LITERALS {
        return Ok(false);
    }
    texts.push(text.literal())?;
    Ok(true)
}

/// Returns the text and the next one after it, or the text alone if both together are too long.
fn joined(text: &Text, next: &Text) -> Text
    ensures { (hay : List ℕ) (i : ℕ) → Stands text.now.caseless (bytes_of text.now) hay i →
        Stands next.now.caseless (bytes_of next.now) hay (i + length (bytes_of text.now)) →
        Stands result.caseless (bytes_of result) hay i }
{
    if text.len() + next.len() > MAX_LEN {
        return *text;
    }
    text.followed_by(next)
}
