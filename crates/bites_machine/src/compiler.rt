//! Compiles the tree of a pattern to a program.

ghost use Rattle.std.specs.Prelude.{MatchResult, ◌≡◌, ◌+◌, ◌*◌, ◌<◌, ◌≤◌, ◌^◌, ℕ, IfOk, IfErr, OnOk, length};
ghost use Rattle.std.specs.Option.{SomeIff};
ghost use Rattle.bites_spec.specs.Tree.{greatest, captures_len, IsReduced};
ghost use Rattle.bites_spec.specs.Measure.{states, size_of, groups_left, static_captures_len, HasItsGroups, TreeLimits, TreeLimitsWith};
ghost use Rattle.bites_spec.specs.Program.{IsWellFormed};
ghost use Rattle.bites_spec.specs.Built.{Built, IsCompilable};
ghost use Rattle.bites_machine.specs.Classes.{HasClasses};
ghost use Rattle.bites_machine.specs.Sizes.{held, held_size, size_by};
ghost use Rattle.bites_machine.specs.States.{program_of};
ghost use Rattle.bites_machine.specs.Compiled.{program_of_tree, LimitsBy, RefusesTree, RefusesBy, CanBuild, IsMadeOf};

use crate::emit::States;
use crate::group_names::GroupNames;
use crate::groups::{
    names_left, names_of, size_of_groups, size_of_groups_left, static_captures_len,
};
use crate::program::Program;
use crate::size::{Size, size_of};
use crate::state::State;
use bites_syntax::groups::Groups;
use bites_syntax::measure::captures_len;
use bites_syntax::tree::Tree;
use bites_text::error::Error;
use std::alloc::{AllocError, Global};

/// Compiles a tree to a program, which keeps a copy of `pattern` and the groups that are left in the tree.
///
/// `size_limit` is roughly bytes: 32 for each state, 4 for each target of a split, 8 for each range, 16 for each group
/// number from 0 to the greatest, and for each name its bytes and 4.
///
/// The limits are checked before any state is made. The error is `TooBig` if the program is larger than `size_limit`;
/// else `TooManyStates` if it has more than 4294967295 states; else `TooManySlots` if a group number is above
/// 2147483647. Any other error is `Memory`: out of memory.
pub fn compile(
    alloc: Global,
    tree: &Tree,
    pattern: &str,
    size_limit: usize,
) -> Result<Program, Error>
    requires { IsCompilable tree.now }
    ensures pattern { IfOk result (λ p. p.pattern ≡ pattern.now) }
    ensures names { IfOk result (λ p. p.names ≡ groups_left tree.now) }
    ensures slots { IfOk result (λ p. p.program.slots ≡ 2 * captures_len tree.now) }
    ensures static_len { IfOk result
        (λ p. p.static_captures_len ≡ static_captures_len tree.now) }
    ensures built { IfOk result (λ p. Built tree.now p.program) }
    ensures well_formed { IfOk result (λ p. IsWellFormed p.program) }
    ensures limits { OnOk result (TreeLimits size_limit tree.now) }
    ensures refused { IfErr result (RefusesTree size_limit (groups_left tree.now) tree.now) }
{
    let captures = captures_len(tree);
    let size_of_groups = size_of_groups_left(tree, captures);
    let states = within_limits(tree, captures, size_of_groups, size_limit)?;
    let names = names_left(alloc, tree, captures)?;
    with_names(alloc, tree, states, names, pattern)
}

/// Like [`compile`], but the program has all of `groups`, which may be more than those left in the tree. The limits
/// count these groups instead.
pub fn compile_with_groups(
    alloc: Global,
    tree: &Tree,
    groups: &Groups,
    pattern: &str,
    size_limit: usize,
) -> Result<Program, Error>
    requires compilable { IsCompilable tree.now }
    requires groups { HasItsGroups groups.now tree.now }
    ensures pattern { IfOk result (λ p. p.pattern ≡ pattern.now) }
    ensures names { IfOk result (λ p. p.names ≡ groups.now) }
    ensures slots { IfOk result (λ p. p.program.slots ≡ 2 * length groups.now) }
    ensures static_len { IfOk result
        (λ p. p.static_captures_len ≡ static_captures_len tree.now) }
    ensures built { IfOk result (λ p. Built tree.now p.program) }
    ensures well_formed { IfOk result (λ p. IsWellFormed p.program) }
    ensures limits { OnOk result (TreeLimitsWith size_limit groups.now tree.now) }
    ensures refused { IfErr result (RefusesTree size_limit groups.now tree.now) }
{
    let states = within_limits(tree, groups.len(), size_of_groups(groups), size_limit)?;
    let names = names_of(alloc, groups)?;
    with_names(alloc, tree, states, names, pattern)
}

/// Checks the limits, the size first, with `captures` groups of the given size. Returns the number of states of the
/// program.
fn within_limits(
    tree: &Tree,
    captures: usize,
    size_of_groups: usize,
    size_limit: usize,
) -> Result<usize, Error>
    requires { IsReduced tree.now }
    ensures { MatchResult result (λ _. LimitsBy size_limit captures size_of_groups tree.now × HasClasses tree.now)
        (RefusesBy size_limit captures size_of_groups tree.now) }
{
    let size = size_of(tree);
    match program_size(tree, size, size_of_groups) {
        Some(total) if total <= size_limit => {}
        _ => return Err(Error::TooBig),
    }
    if size.states() > 4294967292 {
        return Err(Error::TooManyStates);
    }
    if captures > 2147483648 {
        return Err(Error::TooManySlots);
    }
    Ok(size.states() + 3)
}

/// Returns the size of the tree's program with groups of the given size, if it fits in a `usize`.
fn program_size(tree: &Tree, size: Size, size_of_groups: usize) -> Option<usize>
    requires { size ≡ held_size (size_of tree.now) }
    ensures { SomeIff result (size_by size_of_groups tree.now < 2 ^ 64)
        (size_by size_of_groups tree.now) }
{
    let states = size.states().saturating_add(3).checked_mul(32)?;
    let targets = size.targets().checked_mul(4)?;
    let ranges = size.ranges().checked_mul(8)?;
    states
        .checked_add(targets)?
        .checked_add(ranges)?
        .checked_add(size_of_groups)
}

/// Builds the program of a tree that is within the limits, with two slots for each group of `names`. Reserves room for
/// `capacity` states at once.
fn with_names(
    alloc: Global,
    tree: &Tree,
    capacity: usize,
    names: GroupNames,
    pattern: &str,
) -> Result<Program, Error>
    requires { CanBuild (length names) tree.now }
    ensures made { IfOk result (IsMadeOf tree.now pattern.now names) }
    ensures refused { IfErr result (λ e. e ≡ Error.Memory) }
{
    let (states, start) = whole_states(alloc, tree, capacity)?;
    let slots = 2 * names.len();
    let at_least = static_captures_len(tree, names.len());
    let pattern = String::from_str(alloc, pattern)?;
    let program = Program::new(alloc, states, start, slots, pattern, names, at_least);
    program.ok_or(Error::Memory)
}

/// Writes the states of the match and of group 0 around the tree. Returns them with the number of the start state.
fn whole_states(
    alloc: Global,
    tree: &Tree,
    capacity: usize,
) -> Result<(Vec<State>, u32), AllocError>
    requires { IsReduced tree.now }
    ensures program { IfOk result (λ made. (n : ℕ) → program_of made.0.items made.1 (2 * n)
        ≡ program_of_tree n tree.now) }
    ensures few { IfOk result (λ _. length (program_of_tree 0 tree.now).states ≤ 4294967295) }
{
    let mut states = States::with_capacity(alloc, capacity)?;
    let last = states.push(State::Match)?;
    let start = states.group(0, tree, last)?;
    Ok((states.into_vec(), start))
}
