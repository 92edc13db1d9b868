//! Characters by their hexadecimal numbers.

ghost use Rattle.std.specs.Prelude.{◌≡◌, MatchOption, Ok, Some, true, false};
ghost use Rattle.bites_spec.specs.Class.{is_scalar};
ghost use Rattle.bites_spec.specs.Escape.{is_hex_digit};
ghost use Rattle.bites_spec.specs.Message.{fixed_hex_invalid};
ghost use Rattle.bites_spec.specs.Reader.{and_then, exactly, hexadecimal, in_braces, scalar};
ghost use Rattle.bites_syntax.specs.FlagsView.{flags_of};
ghost use Rattle.bites_syntax.specs.Hexadecimal.{AnswersDigit, AnswersNumber, fixed_number};
ghost use Rattle.bites_syntax.specs.Operators.{Answers};
ghost use Rattle.bites_syntax.specs.Parts.{ForEnoughSteps, ReadsOn};
ghost use Rattle.bites_syntax.specs.Steps.{each_of};

use crate::cursor::{Characters, Cursor};
use crate::flags::Flags;
use crate::number::{TOO_LARGE, number};
use crate::refusal::Refusal;
use bites_text::error::Error;

/// Returns the character with this number, if there is one.
fn character(value: u64) -> Option<char>
    ensures { MatchOption result (is_scalar value ≡ false)
        (λ c. (is_scalar value ≡ true) × (c ≡ value)) }
{
    match u32::try_from(value) {
        Ok(code) => char::from_u32(code),
        Err(_) => None,
    }
}

/// Reads one digit.
fn hex_digit(cursor: &mut Cursor<'_>) -> Result<u32, Refusal>
    ensures { ReadsOn cursor.old cursor.new (AnswersDigit result cursor.new cursor.old) }
{
    let start = cursor.ahead();
    match cursor.bump() {
        None => Err(start.fault(Error::FixedHexUnfinished)),
        Some(c) => c.to_digit(16).ok_or(start.fault(Error::FixedHexDigit)),
    }
}

/// Reads `count` digits, with gaps between them. Returns the number that they write, or `TOO_LARGE` if it is too large.
fn exactly(cursor: &mut Cursor<'_>, flags: Flags, count: u32) -> Result<u64, Refusal>
    ensures { ReadsOn cursor.old cursor.new (AnswersNumber TOO_LARGE result cursor.new
        (fixed_number 0 count (flags_of flags) cursor.old)) }
{
    let mut value = 0;
    let mut left = count;
    while left > 0 {
        left -= 1;
        value = TOO_LARGE.min(value * 16 + u64::from(hex_digit(cursor)?));
        if left > 0 {
            cursor.skip(flags);
        }
    }
    Ok(value)
}

/// Reads a number of `count` digits, and returns the character with this number.
fn fixed(cursor: &mut Cursor<'_>, flags: Flags, count: u32) -> Result<char, Refusal>
    ensures { ReadsOn cursor.old cursor.new (Answers (λ c. c) result cursor.new
        (and_then (exactly count (flags_of flags) cursor.old) (scalar fixed_hex_invalid))) }
{
    let value = exactly(cursor, flags, count)?;
    character(value).ok_or(cursor.fault(Error::FixedHexInvalid))
}

/// Reads the rest of a number after its opening brace and the gap there.
fn in_braces(cursor: &mut Cursor<'_>, flags: Flags) -> Result<char, Refusal>
    ensures { ReadsOn cursor.old cursor.new (let digits = each_of (flags_of flags) is_hex_digit cursor.old in
        Answers (λ c. c) result cursor.new (in_braces digits.0 digits.1)) }
{
    let empty = !cursor.is_at(Characters::HexDigit);
    let value = number(cursor, flags, Characters::HexDigit, 16);
    let end = cursor.ahead();
    match cursor.bump() {
        None => Err(end.fault(Error::BraceHexUnclosed)),
        Some('}') if empty => Err(end.fault(Error::BraceHexEmpty)),
        Some('}') => character(value).ok_or(cursor.fault(Error::BraceHexInvalid)),
        Some(_) => Err(end.fault(Error::BraceHexDigit)),
    }
}

/// Reads the number after `x`, `u` or `U` and the gap there. It stands in braces or has `count`
/// digits.
pub(crate) fn hexadecimal(
    cursor: &mut Cursor<'_>,
    flags: Flags,
    count: u32,
) -> Result<char, Refusal>
    ensures { ReadsOn cursor.old cursor.new (ForEnoughSteps cursor.old
        (λ n.
        Answers (λ c. c) result cursor.new
        (hexadecimal n (flags_of flags) count cursor.old))) }
{
    match cursor.peek() {
        None => Err(cursor.fault(Error::HexUnfinished)),
        Some('{') => {
            cursor.bump();
            cursor.skip(flags);
            in_braces(cursor, flags)
        }
        Some(_) => fixed(cursor, flags, count),
    }
}
