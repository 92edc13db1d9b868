//! Operators, which repeat the node before them.

ghost use Rattle.std.specs.Prelude.{◌≡◌, Ok};
ghost use Rattle.bites_spec.specs.Operator.{is_greedy};
ghost use Rattle.bites_spec.specs.Pattern.{skip};
ghost use Rattle.bites_spec.specs.Reader.{after_comma, after_max, after_min, counted, decimal, lazy, plain_operator, whole_count};
ghost use Rattle.bites_syntax.specs.FlagsView.{flags_of};
ghost use Rattle.bites_syntax.specs.Operators.{Answers, bounds_of};
ghost use Rattle.bites_syntax.specs.Parts.{ForEnoughSteps, ReadsOn};

use crate::cursor::{Characters, Cursor};
use crate::flags::Flags;
use crate::number::{TOO_LARGE, number};
use crate::refusal::Refusal;
use bites_text::error::Error;

/// How often an operator repeats a node, and whether it prefers more turns.
#[derive(Clone, Copy)]
pub(crate) struct Bounds {
    pub(crate) min: u32,
    /// None stands for no bound.
    pub(crate) max: Option<u32>,
    pub(crate) greedy: bool,
}

fn is_greedy(flags: Flags, lazy: bool) -> bool
    ensures { result ≡ is_greedy (flags_of flags) lazy }
{
    if flags.swap_greed { lazy } else { !lazy }
}

/// Reads the lazy mark after an operator, if it has one, and returns the operator's bounds.
pub(crate) fn plain_operator(
    cursor: &mut Cursor<'_>,
    flags: Flags,
    min: u32,
    max: Option<u32>,
) -> Bounds
    ensures { ReadsOn cursor.old cursor.new (plain_operator (flags_of flags) min max (lazy cursor.old)
        ≡ Ok (bounds_of result, cursor.new)) }
{
    let is_lazy = cursor.bump_if('?');
    Bounds {
        min,
        max,
        greedy: is_greedy(flags, is_lazy),
    }
}

fn decimal(cursor: &mut Cursor<'_>, flags: Flags) -> Result<u32, Refusal>
    ensures { ReadsOn cursor.old cursor.new (ForEnoughSteps cursor.old
        (λ n. Answers (λ x. x) result cursor.new (decimal n (flags_of flags) cursor.old))) }
{
    cursor.skip_white();
    if !cursor.is_at(Characters::Digit) {
        return Err(cursor.fault(Error::DecimalWithoutDigits));
    }
    let value = number(cursor, flags, Characters::Digit, 10);
    cursor.pass_each(flags, Characters::WhiteSpace);
    if value < TOO_LARGE {
        Ok(value as u32)
    } else {
        Err(cursor.fault(Error::InvalidDecimal))
    }
}

/// Reads the lazy mark after the closing brace, if there is one.
fn whole_count(
    cursor: &mut Cursor<'_>,
    flags: Flags,
    min: u32,
    max: Option<u32>,
) -> Result<Bounds, Refusal>
    ensures { ReadsOn cursor.old cursor.new (Answers bounds_of result cursor.new
        (whole_count (flags_of flags) min max (lazy (skip (flags_of flags) cursor.old)))) }
{
    cursor.skip(flags);
    let lazy = cursor.bump_if('?');
    if let Some(max) = max {
        if max < min {
            return Err(cursor.fault(Error::MinAboveMax));
        }
    }
    Ok(Bounds {
        min,
        max,
        greedy: is_greedy(flags, lazy),
    })
}

fn after_max(cursor: &mut Cursor<'_>, flags: Flags, min: u32, max: u32) -> Result<Bounds, Refusal>
    ensures { ReadsOn cursor.old cursor.new (Answers bounds_of result cursor.new
        (after_max (flags_of flags) min max cursor.old)) }
{
    let start = cursor.ahead();
    match cursor.bump() {
        None => Err(start.fault(Error::UnclosedMax)),
        Some('}') => whole_count(cursor, flags, min, Some(max)),
        Some(_) => Err(start.fault(Error::InvalidCount)),
    }
}

fn after_comma(cursor: &mut Cursor<'_>, flags: Flags, min: u32) -> Result<Bounds, Refusal>
    ensures { ReadsOn cursor.old cursor.new (ForEnoughSteps cursor.old
        (λ n.
        Answers bounds_of result cursor.new (after_comma n (flags_of flags) min cursor.old))) }
{
    match cursor.peek() {
        None => Err(cursor.fault(Error::UnclosedComma)),
        Some('}') => {
            cursor.bump();
            whole_count(cursor, flags, min, None)
        }
        Some(_) => {
            let max = decimal(cursor, flags)?;
            after_max(cursor, flags, min, max)
        }
    }
}

fn after_min(cursor: &mut Cursor<'_>, flags: Flags, min: u32) -> Result<Bounds, Refusal>
    ensures { ReadsOn cursor.old cursor.new (ForEnoughSteps cursor.old
        (λ n. Answers bounds_of result cursor.new (after_min n (flags_of flags) min cursor.old))) }
{
    let start = cursor.ahead();
    match cursor.bump() {
        None => Err(start.fault(Error::UnclosedMin)),
        Some('}') => whole_count(cursor, flags, min, Some(min)),
        Some(',') => {
            cursor.skip(flags);
            after_comma(cursor, flags, min)
        }
        Some(_) => Err(start.fault(Error::InvalidCount)),
    }
}

/// Reads the rest of an operator in braces after its opening brace and the gap there.
pub(crate) fn counted(cursor: &mut Cursor<'_>, flags: Flags) -> Result<Bounds, Refusal>
    ensures { ReadsOn cursor.old cursor.new (ForEnoughSteps cursor.old
        (λ n. Answers bounds_of result cursor.new (counted n (flags_of flags) cursor.old))) }
{
    let Some(_) = cursor.peek() else {
        return Err(cursor.fault(Error::UnclosedCount));
    };
    let min = decimal(cursor, flags)?;
    after_min(cursor, flags, min)
}
