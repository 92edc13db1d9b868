//! The builder of classes.

ghost use Rattle.std.specs.Prelude.{◌≡◌, ℕ, ◌+◌, ◌-◌, ◌≤◌, ◌&&◌, ◌||◌, nat_le, [], ◌∷◌, ◌++◌, All, IfOk, OnOk, OnErr};
ghost use Rattle.std.specs.List.Sorted.{IsNonDecreasingBy};
ghost use Rattle.bites_spec.specs.Range.{in_range, in_ranges};
ghost use Rattle.bites_spec.specs.Class.{AreCanonical, IsRange, Lists, folded, following, is_lower, is_upper};
ghost use Rattle.bites_syntax.specs.Cases.{other_case};

use crate::class::{Class, following};
use std::alloc::{AllocError, Global};
use std::marker::Model;

/// Collects ranges for a class. They may come in any order and overlap.
///
/// For proofs: a contract sees their list.
#[derive(Drop)]
pub struct ClassBuilder {
    ranges: Vec<(char, char)>,
}

impl Model for ClassBuilder {
    ghost use Rattle.std.specs.Prelude.{List, All};
    ghost use Rattle.bites_spec.specs.Range.{Range};
    ghost use Rattle.bites_spec.specs.Class.{IsRange};

    ghost Value = { List Range };

    ghost view = { λ a. a.ranges.items };

    ghost invariant = { λ a. All IsRange a.ranges.items };
}

impl ClassBuilder {
    /// Returns a builder without ranges.
    pub fn new(alloc: Global) -> ClassBuilder
        ensures { result ≡ [] }
    {
        ClassBuilder {
            ranges: Vec::new(alloc),
        }
    }

    /// Adds the characters from `start` to `end`. An error leaves the builder unchanged.
    pub fn push(&mut self, start: char, end: char) -> Result<(), AllocError>
        requires { start ≤ end }
        ensures pushed { OnOk result (self.new ≡ self.old ++ (start, end) ∷ []) }
        ensures kept { OnErr result (self.new ≡ self.old) }
    {
        self.ranges.push((start, end))?;
        Ok(())
    }

    /// Adds the characters of canonical ranges, such as those of a class. An error leaves the
    /// builder unchanged.
    pub fn extend(&mut self, ranges: &[(char, char)]) -> Result<(), AllocError>
        requires { AreCanonical ranges.now }
        ensures added { OnOk result (self.new ≡ self.old ++ ranges.now) }
        ensures kept { OnErr result (self.new ≡ self.old) }
    {
        self.ranges.extend_from_slice(ranges)?;
        Ok(())
    }

    /// Adds the other case of each ASCII letter. An error leaves the builder unchanged.
    pub fn add_cases(&mut self, alloc: Global) -> Result<(), AllocError>
        ensures folded { OnOk result ((c : ℕ) →
            in_ranges self.new c ≡ folded (in_ranges self.old) c) }
        ensures kept { OnErr result (self.new ≡ self.old) }
    {
        let others = other_cases(alloc, &self.ranges)?;
        self.ranges.extend_from_slice(&others.ranges)?;
        Ok(())
    }

    /// Returns the class of the characters in the ranges. The only error is out of memory.
    pub fn build(mut self, alloc: Global) -> Result<Class, AllocError>
        ensures { IfOk result (λ class. Lists class (in_ranges self)) }
    {
        self.ranges.sort_unstable_by_key(|range| range.0);
        Ok(Class::from_ranges(merge(alloc, &self.ranges)?))
    }

    /// Adds the upper cases of the lower case letters from `start` to `end`.
    fn push_upper_case(&mut self, start: char, end: char) -> Result<(), AllocError>
        ensures { OnOk result
            ((c : ℕ) → in_ranges self.new c
            ≡ (in_ranges self.old c || (is_upper c && in_range (start, end) (c + 32)))) }
    {
        let (low, high) = (start.max('a'), end.min('z'));
        if low <= high {
            self.push(low.to_ascii_uppercase(), high.to_ascii_uppercase())?;
        }
        Ok(())
    }

    /// Adds the lower cases of the upper case letters from `start` to `end`.
    fn push_lower_case(&mut self, start: char, end: char) -> Result<(), AllocError>
        ensures { OnOk result
            ((c : ℕ) → in_ranges self.new c
            ≡ (in_ranges self.old c || (is_lower c && in_range (start, end) (c - 32)))) }
    {
        let (low, high) = (start.max('A'), end.min('Z'));
        if low <= high {
            self.push(low.to_ascii_lowercase(), high.to_ascii_lowercase())?;
        }
        Ok(())
    }
}

/// Returns a builder with the other cases of the ASCII letters in the ranges.
fn other_cases(alloc: Global, ranges: &[(char, char)]) -> Result<ClassBuilder, AllocError>
    ensures { IfOk result
        (λ others. (c : ℕ) → in_ranges others c ≡ other_case (in_ranges ranges.now) c) }
{
    let mut others = ClassBuilder::new(alloc);
    'ranges: for range in ranges {
        others.push_upper_case(range.0, range.1)?;
        others.push_lower_case(range.0, range.1)?;
    }
    Ok(others)
}

/// Merges ranges that are sorted by their starts into the canonical ranges of the same characters.
fn merge(alloc: Global, ranges: &[(char, char)]) -> Result<Vec<(char, char)>, AllocError>
    requires ranges { All IsRange ranges.now }
    requires sorted { IsNonDecreasingBy (λ range. range.0) ranges.now }
    ensures { IfOk result (λ merged. Lists merged.items (in_ranges ranges.now)) }
{
    let mut merged = Vec::new(alloc);
    let mut last = None;
    'ranges: for range in ranges {
        last = match last {
            Some(before) if touches(before, *range) => Some((before.0, before.1.max(range.1))),
            Some(before) => {
                merged.push(before)?;
                Some(*range)
            }
            None => Some(*range),
        };
    }
    let Some(range) = last else {
        return Ok(merged);
    };
    merged.push(range)?;
    Ok(merged)
}

/// Returns whether no character lies between the end of a range and the start of another.
fn touches(range: (char, char), other: (char, char)) -> bool
    ensures { result ≡ nat_le other.0 (following range.1) }
{
    following(range.1).is_none_or(|next| other.0 <= next)
}
