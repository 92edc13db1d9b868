//! Numbers in a pattern.

ghost use Rattle.std.specs.Prelude.{◌≡◌, ◌<◌, ◌≤◌};
ghost use Rattle.std.specs.Char.{digit_value};
ghost use Rattle.bites_spec.specs.Pattern.{number};
ghost use Rattle.bites_syntax.specs.FlagsView.{flags_of};
ghost use Rattle.bites_syntax.specs.Numbers.{AgreeBelow};
ghost use Rattle.bites_syntax.specs.Parts.{ReadsOn};
ghost use Rattle.bites_syntax.specs.Sets.{members_of};
ghost use Rattle.bites_syntax.specs.Steps.{each_of};

use crate::cursor::{Characters, Cursor};
use crate::flags::Flags;

/// The least number that doesn't fit a `u32`. A number above it is read as this one.
pub(crate) const TOO_LARGE: u64 = 4294967296;

/// Returns the value of a digit or a letter, and 36 for any other character.
fn digit_value(c: char) -> u32
    ensures { result ≡ digit_value c }
{
    c.to_digit(36).unwrap_or(36)
}

/// Reads a run of digits of the set, with the gap after each. Returns the number that they write in this base, or
/// `TOO_LARGE` if it is too large.
pub(crate) fn number(cursor: &mut Cursor<'_>, flags: Flags, set: Characters, base: u32) -> u64
    requires some { 0 < base }
    requires few { base ≤ 36 }
    ensures value { AgreeBelow TOO_LARGE result
        (number base (each_of (flags_of flags) (members_of set) cursor.old).0) }
    ensures bound { result ≤ TOO_LARGE }
    ensures rest { ReadsOn cursor.old cursor.new
        (cursor.new ≡ (each_of (flags_of flags) (members_of set) cursor.old).1) }
{
    let mut value = 0;
    while let Some(c) = cursor.take(flags, set) {
        value = TOO_LARGE.min(value * u64::from(base) + u64::from(digit_value(c)));
    }
    value
}
