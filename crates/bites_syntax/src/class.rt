//! Sets of characters.

ghost use Rattle.std.specs.Prelude.{◌≡◌, ◌<◌, true, codes, if◌then◌else◌, IsTrue, [], IfOk, MatchOption};
ghost use Rattle.bites_spec.specs.Range.{in_ranges};
ghost use Rattle.bites_spec.specs.Class.{AreCanonical, Lists, complement, following, is_scalar, is_letter, members, none, single};
ghost use Rattle.bites_spec.specs.Grammar.{two_cases};
ghost use Rattle.bites_spec.specs.Pattern.{one_of};
ghost use Rattle.bites_syntax.specs.Ranges.{constant_set};
ghost use Rattle.bites_syntax.specs.View.{named_of};

use crate::named_class::NamedClass;
use crate::range_list::{Constant, RangeList};
use std::alloc::{AllocError, Global};
use std::marker::Model;

/// A set of characters.
///
/// Its ranges are canonical: they rise, and between each two there is a character that belongs to neither.
///
/// For proofs: a contract sees the list of these ranges.
#[derive(Drop)]
pub struct Class {
    ranges: RangeList,
}

impl Model for Class {
    ghost use Rattle.std.specs.Prelude.{List};
    ghost use Rattle.bites_spec.specs.Range.{Range};
    ghost use Rattle.bites_spec.specs.Class.{AreCanonical};

    ghost Value = { List Range };

    ghost view = { λ a. a.ranges };

    ghost invariant = { λ a. AreCanonical a.ranges };
}

impl Class {
    /// Returns the empty class.
    pub fn new(alloc: Global) -> Class
        ensures { result ≡ [] }
    {
        Class::from_ranges(Vec::new(alloc))
    }

    /// Returns the class with these canonical ranges.
    pub fn from_ranges(ranges: Vec<(char, char)>) -> Class
        requires { AreCanonical ranges.items }
        ensures { result ≡ ranges.items }
    {
        Class {
            ranges: ranges.into(),
        }
    }

    /// Returns the class of a constant set. It allocates nothing.
    pub fn constant(set: Constant) -> Class
        ensures { Lists result (constant_set set) }
    {
        Class {
            ranges: RangeList::constant(set),
        }
    }

    /// Returns the class of the characters of a named class.
    pub fn named(name: NamedClass) -> Class
        ensures { Lists result (members (named_of name)) }
    {
        Class::constant(Constant::Named(name))
    }

    /// Returns the class of all characters except those of a named class.
    pub fn all_but_named(name: NamedClass) -> Class
        ensures { Lists result (complement (members (named_of name))) }
    {
        Class::constant(Constant::Others(name))
    }

    /// Returns the class of all characters that lie in none of these canonical ranges. The only
    /// error is out of memory.
    pub fn all_but(alloc: Global, ranges: &[(char, char)]) -> Result<Class, AllocError>
        requires { AreCanonical ranges.now }
        ensures { IfOk result (λ class. Lists class (complement (in_ranges ranges.now))) }
    {
        Ok(Class::from_ranges(gaps(alloc, ranges)?))
    }

    /// Returns the class that a dot stands for: all characters if `matches_new_line`, else all except LF, or with
    /// `crlf` all except LF and CR.
    pub fn dot(matches_new_line: bool, crlf: bool) -> Class
        ensures { Lists result (complement
            (if matches_new_line then none
            else if crlf then one_of (codes "\n\r")
            else single 10)) }
    {
        if matches_new_line {
            return Class {
                ranges: RangeList::one(('\0', char::MAX)),
            };
        }
        if crlf {
            return Class::constant(Constant::NoLineEnd);
        }
        Class {
            ranges: RangeList::two(('\0', '\t'), ('\x0B', char::MAX)),
        }
    }

    /// Returns the class of both cases of an ASCII letter.
    pub fn two_cases(letter: char) -> Class
        requires { IsTrue (is_letter letter) }
        ensures { result ≡ two_cases letter }
    {
        let (upper, lower) = (letter.to_ascii_uppercase(), letter.to_ascii_lowercase());
        Class {
            ranges: RangeList::two((upper, upper), (lower, lower)),
        }
    }

    /// Returns the canonical ranges of the class, from the lowest to the highest.
    pub fn ranges(&self) -> &[(char, char)]
        ensures ranges { result.now ≡ self.now }
        ensures canonical { AreCanonical self.now }
    {
        self.ranges.as_slice()
    }

    /// Returns the list of the canonical ranges.
    pub fn list(&self) -> &RangeList
        ensures ranges { result.now ≡ self.now }
        ensures canonical { AreCanonical self.now }
    {
        &self.ranges
    }

    /// Returns whether the character belongs to the class.
    pub fn contains(&self, c: char) -> bool
        ensures { result ≡ in_ranges self.now c }
    {
        self.ranges().iter().any(|r| r.0 <= c && c <= r.1)
    }

    /// Returns the class of all other characters. The only error is out of memory.
    pub fn negate(&self, alloc: Global) -> Result<Class, AllocError>
        ensures { IfOk result (λ class. Lists class (complement (in_ranges self.now))) }
    {
        Class::all_but(alloc, self.ranges())
    }
}

/// Returns the ranges between these canonical ranges, before the first and after the last.
fn gaps(alloc: Global, ranges: &[(char, char)]) -> Result<Vec<(char, char)>, AllocError>
    requires { AreCanonical ranges.now }
    ensures { IfOk result (λ others. Lists others.items (complement (in_ranges ranges.now))) }
{
    let mut others = Vec::new(alloc);
    let mut low = '\0';
    'ranges: for range in ranges {
        if low < range.0 {
            others.push((low, preceding(range.0)))?;
        }
        match following(range.1) {
            Some(next) => low = next,
            None => return Ok(others),
        }
    }
    others.push((low, char::MAX))?;
    Ok(others)
}

/// Returns the character after `c`, past the surrogates, or None if `c` is the last.
pub fn following(c: char) -> Option<char>
    ensures { MatchOption result (c ≡ 0x10_FFFF) (λ next. (c < 0x10_FFFF) × (next ≡ following c)) }
{
    match c {
        '\u{D7FF}' => Some('\u{E000}'),
        _ => char::from_u32(c as u32 + 1),
    }
}

/// Returns the character before `c`, past the surrogates. `c` must not be the first.
fn preceding(c: char) -> char
    requires { 0 < c }
    ensures next { following result ≡ c }
    ensures scalar { is_scalar result ≡ true }
{
    match c {
        '\u{E000}' => '\u{D7FF}',
        _ => char::from_u32(c as u32 - 1).unwrap(),
    }
}
