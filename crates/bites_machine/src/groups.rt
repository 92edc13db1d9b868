//! The groups of a program: their names, their size, and how many participate in any match.

ghost use Rattle.std.specs.Prelude.{◌≡◌, ◌+◌, ◌<◌, ◌≤◌, ◌==◌, length, replicate, None, IfOk, OnOk, sum_by, option_map, string_bytes};
ghost use Rattle.bites_spec.specs.Tree.{trees_of, sequence, groups_in, groups_in_all, greatest, captures_len, names_in, names_in_all, IsReduced};
ghost use Rattle.bites_spec.specs.Measure.{name_size, group_size, groups_of, groups_left, size_of, static_captures_len};
ghost use Rattle.std.specs.Option.{option_copied};
ghost use Rattle.bites_machine.specs.Sizes.{held};
ghost use Rattle.bites_machine.specs.Names.{bytes_of, filled};
ghost use Rattle.bites_machine.specs.Compiled.{AreLeft};

use crate::group_names::GroupNames;
use bites_syntax::groups::Groups;
use bites_syntax::measure::static_count;
use bites_syntax::tree::{Kind, Name, Tree};
use std::alloc::{AllocError, Global};

/// Returns the size of the names of the tree's groups, which saturates.
#[cycle(size_of_names)]
fn size_of_names(tree: &Tree) -> usize
    ensures { result ≡ held (sum_by name_size (names_in tree.now)) }
{
    match tree.kind() {
        Kind::Empty | Kind::Char(_) | Kind::Class(_) | Kind::Look(_) => 0,
        Kind::Repetition { sub, .. } => size_of_names(sub),
        Kind::Capture {
            name: Some(name),
            sub,
            ..
        } => size_of_text(name.as_str()).saturating_add(size_of_names(sub)),
        Kind::Capture { sub, .. } => size_of_names(sub),
        Kind::Concat(parts) | Kind::Alternation(parts) => size_of_names_of_all(parts),
    }
}

#[cycle(size_of_names)]
#[tactic(auto, using(bites_syntax::proofs::TreeParts::read_below, std::proofs::lemmas::Grind::common_steps))]
fn size_of_names_of_all(parts: &[Tree]) -> usize
    ensures { result ≡ held (sum_by name_size (names_in_all (trees_of parts.now))) }
{
    let mut all = 0usize;
    for part in parts {
        all = all.saturating_add(size_of_names(part));
    }
    all
}

fn size_of_text(text: &str) -> usize
    ensures { result ≡ held (name_size text.now) }
{
    text.len().saturating_add(4)
}

/// Returns a lower bound on the number of groups that participate in any match, group 0 counted, if the form of the
/// tree gives one. All group numbers of the tree are below `captures`; if that is 1, the tree is not walked.
pub fn static_captures_len(tree: &Tree, captures: usize) -> Option<usize>
    requires reduced { IsReduced tree.now }
    requires room { (size_of tree.now).states ≤ 4294967295 }
    requires captures { captures_len tree.now ≤ captures }
    ensures { result ≡ static_captures_len tree.now }
{
    if captures == 1 {
        return Some(1);
    }
    Some(1 + static_count(tree)?)
}

/// Writes the name of each group of the tree to its index.
#[cycle(write_names)]
fn write_names(
    alloc: Global,
    tree: &Tree,
    names: &mut Vec<Option<String>>,
) -> Result<(), AllocError>
    requires { greatest (groups_in tree.now) < length names.old.items }
    ensures { OnOk result (bytes_of names.new.items
        ≡ filled (groups_of tree.now) (bytes_of names.old.items)) }
{
    match tree.kind() {
        Kind::Empty | Kind::Char(_) | Kind::Class(_) | Kind::Look(_) => Ok(()),
        Kind::Repetition { sub, .. } => write_names(alloc, sub, names),
        Kind::Capture { index, name, sub } => {
            names[*index as usize] = copy_of_text(alloc, name.as_ref().map(Name::as_str))?;
            write_names(alloc, sub, names)
        }
        Kind::Concat(parts) | Kind::Alternation(parts) => write_names_of_all(alloc, parts, names),
    }
}

#[cycle(write_names)]
fn write_names_of_all(
    alloc: Global,
    parts: &[Tree],
    names: &mut Vec<Option<String>>,
) -> Result<(), AllocError>
    requires { greatest (groups_in_all (trees_of parts.now)) < length names.old.items }
    ensures { OnOk result (bytes_of names.new.items
        ≡ filled (groups_of (sequence (trees_of parts.now))) (bytes_of names.old.items)) }
{
    for part in parts {
        write_names(alloc, part, names)?;
    }
    Ok(())
}

/// Returns `count` groups without a name.
fn no_names(alloc: Global, count: usize) -> Result<Vec<Option<String>>, AllocError>
    ensures { IfOk result (λ names. bytes_of names.items ≡ replicate count None) }
{
    let mut names = Vec::with_capacity(alloc, count)?;
    for _ in 0..count {
        names.push(None)?;
    }
    Ok(names)
}

/// Returns the name of each group that is left in the tree, from group 0 on.
#[tactic(auto, using(crate::proofs::compile::GroupLemmas::groupless_left, crate::proofs::compile::GroupLemmas::filled_groups_left))]
pub fn names_left(alloc: Global, tree: &Tree, captures: usize) -> Result<GroupNames, AllocError>
    requires { AreLeft captures tree.now }
    ensures { IfOk result (λ names. names ≡ groups_left tree.now) }
{
    if captures == 1 {
        return Ok(GroupNames::none(alloc, 1));
    }
    let mut names = no_names(alloc, captures)?;
    write_names(alloc, tree, &mut names)?;
    Ok(GroupNames::of(names))
}

/// Returns the size of the groups that are left in the tree, which saturates.
#[tactic(auto, using(crate::proofs::compile::GroupLemmas::groupless_left, crate::proofs::compile::GroupLemmas::left_have_size))]
pub fn size_of_groups_left(tree: &Tree, captures: usize) -> usize
    requires { AreLeft captures tree.now }
    ensures { result ≡ held (sum_by group_size (groups_left tree.now)) }
{
    if captures == 1 {
        return 16;
    }
    captures
        .saturating_mul(16)
        .saturating_add(size_of_names(tree))
}

fn size_of_group(name: Option<&str>) -> usize
    ensures { result ≡ held (group_size (option_copied name.entry)) }
{
    match name {
        Some(name) => size_of_text(name).saturating_add(16),
        None => 16,
    }
}

/// Returns the size of these groups, which saturates.
pub fn size_of_groups(groups: &Groups) -> usize
    ensures { result ≡ held (sum_by group_size groups.now) }
{
    let mut all = 0usize;
    for i in 0..groups.len() {
        all = all.saturating_add(size_of_group(groups.name(i)));
    }
    all
}

/// Returns the name of each of these groups.
pub fn names_of(alloc: Global, groups: &Groups) -> Result<GroupNames, AllocError>
    ensures { IfOk result (λ names. names ≡ groups.now) }
{
    let mut names = Vec::with_capacity(alloc, groups.len())?;
    for i in 0..groups.len() {
        names.push(copy_of_text(alloc, groups.name(i))?)?;
    }
    Ok(GroupNames::of(names))
}

fn copy_of_text(alloc: Global, name: Option<&str>) -> Result<Option<String>, AllocError>
    ensures { IfOk result (λ copy. option_map string_bytes copy ≡ option_copied name.entry) }
{
    match name {
        Some(name) => Ok(Some(String::from_str(alloc, name)?)),
        None => Ok(None),
    }
}
