//! Counts the states of a tree, their targets and their ranges, before any state is made.

ghost use Rattle.std.specs.Prelude.{◌≡◌, ◌≤◌, IfSome};
ghost use Rattle.bites_spec.specs.Tree.{is_nullable, trees_of, sequence, IsReduced, AllAreReduced};
ghost use Rattle.bites_spec.specs.Measure as measure;
ghost use Rattle.bites_machine.specs.Classes.{HasClasses, AllHaveClasses};
ghost use Rattle.bites_machine.specs.Sizes.{held_size, both_sizes};

use bites_syntax::measure::is_nullable;
use bites_syntax::tree::{Kind, Tree};
use std::marker::Model;

/// How many states a tree compiles to, with the number of targets of splits and of ranges. Each number saturates.
#[derive(Clone, Copy)]
pub struct Size {
    states: usize,
    targets: usize,
    ranges: usize,
}

impl Model for Size {
    ghost use Rattle.bites_spec.specs.Measure as measure;

    ghost Value = { measure.Size };

    ghost view = { λ a. measure.size a.states a.targets a.ranges };

    ghost inverse = { λ s. record { states = s.states; targets = s.targets; ranges = s.ranges } };
}

impl Size {
    fn new(states: usize, targets: usize, ranges: usize) -> Size
        ensures { result ≡ measure.size states targets ranges }
    {
        Size {
            states,
            targets,
            ranges,
        }
    }

    /// Returns the number of states.
    pub fn states(self) -> usize
        ensures { result ≡ self.states }
    {
        self.states
    }

    /// Returns the number of targets of splits.
    pub fn targets(self) -> usize
        ensures { result ≡ self.targets }
    {
        self.targets
    }

    /// Returns the number of ranges.
    pub fn ranges(self) -> usize
        ensures { result ≡ self.ranges }
    {
        self.ranges
    }

    /// Returns the sum of both sizes.
    fn with(self, other: Size) -> Size
        ensures { result ≡ held_size (both_sizes self other) }
    {
        Size {
            states: self.states.saturating_add(other.states),
            targets: self.targets.saturating_add(other.targets),
            ranges: self.ranges.saturating_add(other.ranges),
        }
    }

    /// Returns the size of `count` copies, plus the given numbers of states and targets.
    fn copies(self, count: usize, states: usize, targets: usize) -> Size
        ensures { result ≡ held_size (measure.copies count states targets self) }
    {
        Size {
            states: self.states.saturating_mul(count).saturating_add(states),
            targets: self.targets.saturating_mul(count).saturating_add(targets),
            ranges: self.ranges.saturating_mul(count),
        }
    }
}

/// Returns the size of the states that a tree compiles to.
#[cycle(size)]
pub fn size_of(tree: &Tree) -> Size
    requires { IsReduced tree.now }
    ensures size { result ≡ held_size (measure.size_of tree.now) }
    ensures classes { HasClasses tree.now }
{
    match tree.kind() {
        Kind::Empty | Kind::Char(_) | Kind::Look(_) => Size::new(1, 0, 0),
        Kind::Class(class) => Size::new(1, 0, class.ranges().len()),
        Kind::Repetition { min, max, sub, .. } => size_of_repetition(*min, *max, sub),
        Kind::Capture { sub, .. } => size_of(sub).copies(1, 2, 0),
        Kind::Concat(parts) => size_of_all(parts),
        Kind::Alternation(parts) => size_of_all(parts).with(Size::new(2, parts.len(), 0)),
    }
}

#[cycle(size)]
fn size_of_repetition(min: u32, max: Option<u32>, sub: &Tree) -> Size
    requires reduced { IsReduced sub.now }
    requires order { IfSome max (λ most. min ≤ most) }
    ensures size { result
        ≡ held_size
        (measure.repeated_size min max (is_nullable sub.now) (measure.size_of sub.now)) }
    ensures classes { HasClasses sub.now }
{
    let body = size_of(sub);
    let least = min as usize;
    let Some(max) = max else {
        return if least > 0 {
            body.copies(least, 1, 2)
        } else if is_nullable(sub) {
            body.copies(1, 3, 4)
        } else {
            body.copies(1, 1, 2)
        };
    };
    let most = max as usize;
    if least == 0 && most == 1 {
        body.copies(1, 2, 2)
    } else if least == 0 {
        body.copies(most, most + 2, 2 * most)
    } else if least == most {
        body.copies(most, 0, 0)
    } else {
        body.copies(most, most - least + 1, 2 * (most - least))
    }
}

#[cycle(size)]
fn size_of_all(parts: &[Tree]) -> Size
    requires { AllAreReduced (trees_of parts.now) }
    ensures size { result ≡ held_size (measure.size_of (sequence (trees_of parts.now))) }
    ensures classes { AllHaveClasses (trees_of parts.now) }
{
    let mut all = Size::new(0, 0, 0);
    for part in parts {
        all = all.with(size_of(part));
    }
    all
}
