//! Lists of ranges of characters.

ghost use Rattle.std.specs.Prelude.{◌≡◌, [], ◌∷◌, IfOk, IfSome};
ghost use Rattle.bites_spec.specs.Class.{Lists};
ghost use Rattle.bites_spec.specs.RangesOf.{ranges_of};
ghost use Rattle.bites_syntax.specs.Ranges.{constant_set};

use crate::named_class::NamedClass;
use std::alloc::{AllocError, Global};
use std::marker::Model;

/// A set of characters whose ranges are a constant.
#[derive(Clone, Copy)]
pub enum Constant {
    /// The characters of a named class.
    Named(NamedClass),
    /// All except those of a named class.
    Others(NamedClass),
    /// All except a line feed and a carriage return.
    NoLineEnd,
}

impl Constant {
    /// Returns the canonical ranges of the set.
    pub(crate) fn ranges(self) -> &'static [(char, char)]
        ensures { Lists result.now (constant_set self) }
    {
        match self {
            Constant::Named(name) => name.ranges(),
            Constant::Others(name) => name.others(),
            Constant::NoLineEnd => &[('\0', '\t'), ('\x0B', '\x0C'), ('\x0E', char::MAX)],
        }
    }
}

/// A list of ranges of characters, each with its ends.
///
/// One or two ranges are stored in place, and a constant by its name. Only a longer list that a pattern spells out is
/// allocated.
///
/// For proofs: a contract sees the list of the ranges.
#[derive(Drop)]
pub struct RangeList {
    kept: Kept,
}

#[derive(Drop)]
enum Kept {
    One([(char, char); 1]),
    Two([(char, char); 2]),
    Constant(Constant),
    Many(Vec<(char, char)>),
}

impl Model for RangeList {
    ghost use Rattle.std.specs.Prelude.{List};
    ghost use Rattle.bites_spec.specs.Range.{Range};
    ghost use Rattle.bites_syntax.specs.Ranges.{kept_ranges};

    ghost Value = { List Range };

    ghost view = { λ a. kept_ranges a.kept };
}

impl RangeList {
    ghost use Rattle.bites_syntax.specs.Ranges.{kept_ranges};

    /// Returns the list of one range. It allocates nothing.
    pub fn one(range: (char, char)) -> RangeList
        ensures { result ≡ range ∷ [] }
    {
        RangeList {
            kept: Kept::One([range]),
        }
    }

    /// Returns the list of two ranges. It allocates nothing.
    pub fn two(first: (char, char), second: (char, char)) -> RangeList
        ensures { result ≡ first ∷ second ∷ [] }
    {
        RangeList {
            kept: Kept::Two([first, second]),
        }
    }

    /// Returns the ranges of a constant set. It allocates nothing.
    pub fn constant(set: Constant) -> RangeList
        ensures { result ≡ ranges_of (constant_set set) }
    {
        RangeList {
            kept: Kept::Constant(set),
        }
    }

    /// Returns the ranges as a slice.
    pub fn as_slice(&self) -> &[(char, char)]
        ensures { result.now ≡ self.now }
    {
        match &self.kept {
            Kept::One(ranges) => ranges,
            Kept::Two(ranges) => ranges,
            Kept::Constant(set) => set.ranges(),
            Kept::Many(ranges) => ranges,
        }
    }

    /// Returns a copy of the ranges. It allocates only if this list is allocated. The error is out of memory.
    pub fn copy(&self, alloc: Global) -> Result<RangeList, AllocError>
        ensures { IfOk result (λ copy. copy ≡ self.now) }
    {
        let kept = match &self.kept {
            Kept::One(ranges) => Kept::One(*ranges),
            Kept::Two(ranges) => Kept::Two(*ranges),
            Kept::Constant(set) => Kept::Constant(*set),
            Kept::Many(ranges) => Kept::Many(Vec::from_slice(alloc, ranges)?),
        };
        Ok(RangeList { kept })
    }
}

/// Returns the list of these ranges, if they can be stored in place.
fn in_place(ranges: &[(char, char)]) -> Option<RangeList>
    ensures { IfSome result (λ list. list ≡ ranges.now) }
{
    match ranges {
        [only] => Some(RangeList::one(*only)),
        [first, second] => Some(RangeList::two(*first, *second)),
        _ => None,
    }
}

impl From<Vec<(char, char)>> for RangeList {
    ghost from_gives = { λ list ranges. ranges ≡ list.items };

    /// Returns the ranges of this list. It allocates nothing.
    fn from(list: Vec<(char, char)>) -> RangeList {
        match in_place(&list) {
            Some(ranges) => ranges,
            None => RangeList {
                kept: Kept::Many(list),
            },
        }
    }
}
