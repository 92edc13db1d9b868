//! Measures of trees.

ghost use Rattle.std.specs.Prelude.{◌≡◌, ◌<◌, ◌^◌, min, length};
ghost use Rattle.bites_spec.specs.Measure.{height, tallest, static_count, static_sum, static_agreed};
ghost use Rattle.bites_spec.specs.Tree.{is_nullable, all_are_nullable, some_is_nullable, groups_in, groups_in_all, greatest, captures_len, trees_of};

use crate::tree::{Kind, Tree};

/// Returns the height of a tree. It is 0 without parts, and else one more than the height of the
/// tallest part. Where the height doesn't fit a `u32`, the result is `u32::MAX`.
#[cycle(height)]
pub fn height(tree: &Tree) -> u32
    ensures { result ≡ min (height tree.now) 4294967295 }
{
    match tree.kind() {
        Kind::Empty | Kind::Char(_) | Kind::Class(_) | Kind::Look(_) => 0,
        Kind::Repetition { sub, .. } | Kind::Capture { sub, .. } => height(sub).saturating_add(1),
        Kind::Concat(parts) | Kind::Alternation(parts) => tallest(parts).saturating_add(1),
    }
}

/// Returns the height of the tallest tree.
#[cycle(height)]
fn tallest(parts: &[Tree]) -> u32
    ensures { result ≡ min (tallest (trees_of parts.now)) 4294967295 }
{
    let mut most = 0;
    for part in parts {
        most = height(part).max(most);
    }
    most
}

/// Returns whether the tree is nullable: whether its form alone lets it match the empty text.
#[cycle(nullable)]
pub fn is_nullable(tree: &Tree) -> bool
    ensures { result ≡ is_nullable tree.now }
{
    match tree.kind() {
        Kind::Empty | Kind::Look(_) => true,
        Kind::Char(_) | Kind::Class(_) => false,
        Kind::Repetition { min, sub, .. } => *min == 0 || is_nullable(sub),
        Kind::Capture { sub, .. } => is_nullable(sub),
        Kind::Concat(parts) => all_are_nullable(parts),
        Kind::Alternation(parts) => some_is_nullable(parts),
    }
}

/// Returns whether all trees are nullable.
#[cycle(nullable)]
fn all_are_nullable(parts: &[Tree]) -> bool
    ensures { result ≡ all_are_nullable (trees_of parts.now) }
{
    for part in parts {
        if !is_nullable(part) {
            return false;
        }
    }
    true
}

/// Returns whether one of the trees is nullable.
#[cycle(nullable)]
fn some_is_nullable(parts: &[Tree]) -> bool
    ensures { result ≡ some_is_nullable (trees_of parts.now) }
{
    for part in parts {
        if is_nullable(part) {
            return true;
        }
    }
    false
}

/// Returns one more than the greatest group number in the tree.
pub fn captures_len(tree: &Tree) -> usize
    ensures { result ≡ captures_len tree.now }
{
    greatest_group(tree) as usize + 1
}

/// Returns the greatest group number in the tree, or 0 if there is none.
#[cycle(groups)]
fn greatest_group(tree: &Tree) -> u32
    ensures { result ≡ greatest (groups_in tree.now) }
{
    match tree.kind() {
        Kind::Empty | Kind::Char(_) | Kind::Class(_) | Kind::Look(_) => 0,
        Kind::Repetition { sub, .. } => greatest_group(sub),
        Kind::Capture { index, sub, .. } => greatest_group(sub).max(*index),
        Kind::Concat(parts) | Kind::Alternation(parts) => greatest_group_of(parts),
    }
}

/// Returns the greatest group number in the trees, or 0 if there is none.
#[cycle(groups)]
fn greatest_group_of(parts: &[Tree]) -> u32
    ensures { result ≡ greatest (groups_in_all (trees_of parts.now)) }
{
    let mut most = 0;
    for part in parts {
        most = greatest_group(part).max(most);
    }
    most
}

/// Returns a lower bound on the groups of the tree that participate in any match, if the tree's form gives one.
#[cycle(count)]
pub fn static_count(tree: &Tree) -> Option<usize>
    requires { length (groups_in tree.now) < 2 ^ 64 }
    ensures { result ≡ static_count tree.now }
{
    match tree.kind() {
        Kind::Empty | Kind::Char(_) | Kind::Class(_) | Kind::Look(_) => Some(0),
        Kind::Repetition { min, sub, .. } => {
            let count = static_count(sub)?;
            if *min == 0 && count != 0 {
                None
            } else {
                Some(count)
            }
        }
        Kind::Capture { sub, .. } => Some(static_count(sub)? + 1),
        Kind::Concat(parts) => static_sum(parts),
        Kind::Alternation(parts) => static_agreed(parts),
    }
}

/// Returns the sum of the static counts of the trees, if each has one.
#[cycle(count)]
fn static_sum(parts: &[Tree]) -> Option<usize>
    requires { length (groups_in_all (trees_of parts.now)) < 2 ^ 64 }
    ensures { result ≡ static_sum (trees_of parts.now) }
{
    let mut sum = 0;
    for part in parts {
        sum += static_count(part)?;
    }
    Some(sum)
}

/// Returns the static count of each tree, if there are trees and all have the same.
#[cycle(count)]
fn static_agreed(parts: &[Tree]) -> Option<usize>
    requires { length (groups_in_all (trees_of parts.now)) < 2 ^ 64 }
    ensures { result ≡ static_agreed (trees_of parts.now) }
{
    let [first, rest @ ..] = parts else {
        return None;
    };
    let count = static_count(first)?;
    for part in rest {
        if static_count(part)? != count {
            return None;
        }
    }
    Some(count)
}
