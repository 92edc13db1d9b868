//! Escapes: what a backslash begins.

ghost use Rattle.std.specs.Prelude.{◌≡◌, ◌∷◌, IfOk, OnOk, option_map, string_bytes};
ghost use Rattle.bites_spec.specs.Escape.{assertion_of, boundary_of, class_of, control_of, digits_of, escapes_itself, is_boundary_letter};
ghost use Rattle.bites_spec.specs.Reader.{boundary, boundary_name, escape, meaning_of, simple};
ghost use Rattle.bites_syntax.specs.FlagsView.{flags_of};
ghost use Rattle.bites_syntax.specs.Meanings.{IsMeaning, IsMeaningOf, IsLook};
ghost use Rattle.bites_syntax.specs.Ranges.{constant_set};
ghost use Rattle.bites_syntax.specs.Parts.{Agrees, ForEnoughSteps, ReadsOn};
ghost use Rattle.bites_syntax.specs.Steps.{each_of};
ghost use Rattle.bites_syntax.specs.View.{look_of};

use crate::cursor::{Characters, Cursor};
use crate::flags::Flags;
use crate::hexadecimal::hexadecimal;
use crate::look::Look;
use crate::named_class::NamedClass;
use crate::range_list::Constant;
use crate::refusal::Refusal;
use bites_text::error::Error;
use std::alloc::{AllocError, Global};

/// What an escape stands for.
#[derive(Drop)]
pub(crate) enum Meaning {
    Character(char),
    Characters(Constant),
    Assertion(Look),
}

fn control(c: char) -> Option<char>
    ensures { result ≡ control_of c }
{
    match c {
        'a' => Some('\x07'),
        'f' => Some('\x0C'),
        't' => Some('\t'),
        'n' => Some('\n'),
        'r' => Some('\r'),
        'v' => Some('\x0B'),
        _ => None,
    }
}

fn assertion(c: char) -> Option<Look>
    ensures { option_map look_of result ≡ assertion_of c }
{
    match c {
        'A' => Some(Look::Start),
        'z' => Some(Look::End),
        'B' => Some(Look::WordNegate),
        '<' => Some(Look::WordStart),
        '>' => Some(Look::WordEnd),
        _ => None,
    }
}

fn perl_class(c: char) -> Option<Constant>
    ensures { option_map constant_set result ≡ class_of c }
{
    match c {
        'd' => Some(Constant::Named(NamedClass::Digit)),
        's' => Some(Constant::Named(NamedClass::Space)),
        'w' => Some(Constant::Named(NamedClass::Word)),
        'D' => Some(Constant::Others(NamedClass::Digit)),
        'S' => Some(Constant::Others(NamedClass::Space)),
        'W' => Some(Constant::Others(NamedClass::Word)),
        _ => None,
    }
}

fn escapes_itself(c: char) -> bool
    ensures { result ≡ escapes_itself c }
{
    c.is_ascii() && !c.is_ascii_alphanumeric() && c != '<' && c != '>'
}

/// Returns the number of hexadecimal digits after `x`, `u` or `U` without braces, or None for any other character.
fn digits(c: char) -> Option<u32>
    ensures { result ≡ digits_of c }
{
    match c {
        'x' => Some(2),
        'u' => Some(4),
        'U' => Some(8),
        _ => None,
    }
}

/// Returns what the character after a backslash means alone, or None if it means nothing alone.
fn meaning_alone(c: char) -> Option<Meaning>
    ensures { IsMeaningOf result (meaning_of c) }
{
    if let Some(control) = control(c) {
        return Some(Meaning::Character(control));
    }
    if let Some(look) = assertion(c) {
        return Some(Meaning::Assertion(look));
    }
    if let Some(set) = perl_class(c) {
        return Some(Meaning::Characters(set));
    }
    if escapes_itself(c) {
        return Some(Meaning::Character(c));
    }
    None
}

/// Returns the word boundary with this name, if there is one.
fn boundary_of(name: &str) -> Option<Look>
    ensures { option_map look_of result ≡ boundary_of name.now }
{
    match name {
        "start" => Some(Look::WordStart),
        "end" => Some(Look::WordEnd),
        "start-half" => Some(Look::WordStartHalf),
        "end-half" => Some(Look::WordEndHalf),
        _ => None,
    }
}

/// Reads the name of a word boundary and its closing brace.
fn boundary_name(alloc: Global, cursor: &mut Cursor<'_>, flags: Flags) -> Result<Look, Refusal>
    ensures { ReadsOn cursor.old cursor.new (let name = each_of (flags_of flags) is_boundary_letter cursor.old in
        Agrees IsLook result cursor.new (boundary_name name.0 name.1)) }
{
    let name = letters(alloc, cursor, flags)?;
    let end = cursor.ahead();
    if !cursor.bump_if('}') {
        return Err(end.fault(Error::UnclosedBoundary));
    }
    boundary_of(&name).ok_or(end.fault(Error::UnrecognizedBoundary))
}

/// Reads a run of letters and dashes, with the gap after each.
fn letters(alloc: Global, cursor: &mut Cursor<'_>, flags: Flags) -> Result<String, AllocError>
    ensures letters { IfOk result (λ name. string_bytes name
        ≡ (each_of (flags_of flags) is_boundary_letter cursor.old).0) }
    ensures rest { ReadsOn cursor.old cursor.new (OnOk result (cursor.new ≡ (each_of (flags_of flags) is_boundary_letter
        cursor.old).1)) }
{
    let mut letters = String::new(alloc);
    while let Some(c) = cursor.take(flags, Characters::BoundaryLetter) {
        letters.push(c)?;
    }
    Ok(letters)
}

/// Reads the rest of a word boundary after its `b`.
fn boundary(alloc: Global, cursor: &mut Cursor<'_>, flags: Flags) -> Result<Look, Refusal>
    ensures { ReadsOn cursor.old cursor.new (ForEnoughSteps cursor.old
        (λ n. Agrees IsLook result cursor.new (boundary n (flags_of flags) cursor.old))) }
{
    let mut ahead = cursor.ahead();
    if !ahead.bump_if('{') {
        return Ok(Look::Word);
    }
    ahead.skip(flags);
    match ahead.peek() {
        None => Err(ahead.fault(Error::UnfinishedBoundary)),
        Some(c) if Characters::BoundaryLetter.contains(c) => {
            *cursor = ahead;
            boundary_name(alloc, cursor, flags)
        }
        Some(_) => Ok(Look::Word),
    }
}

/// Reads the rest of an escape after its first character, which is not `b`. The escape begins at `start`.
fn simple(
    cursor: &mut Cursor<'_>,
    start: &Cursor<'_>,
    flags: Flags,
    c: char,
) -> Result<Meaning, Refusal>
    requires { start.now ≡ c ∷ cursor.old }
    ensures { ReadsOn cursor.old cursor.new (ForEnoughSteps cursor.old
        (λ n. Agrees IsMeaning result cursor.new (simple n (flags_of flags) c cursor.old))) }
{
    if let Some(meaning) = meaning_alone(c) {
        return Ok(meaning);
    }
    let Some(count) = digits(c) else {
        return Err(start.fault(Error::UnrecognizedEscape));
    };
    cursor.skip(flags);
    Ok(Meaning::Character(hexadecimal(cursor, flags, count)?))
}

/// Reads the rest of an escape after its backslash.
pub(crate) fn escape(
    alloc: Global,
    cursor: &mut Cursor<'_>,
    flags: Flags,
) -> Result<Meaning, Refusal>
    ensures { ReadsOn cursor.old cursor.new (ForEnoughSteps cursor.old
        (λ n. Agrees IsMeaning result cursor.new (escape n (flags_of flags) cursor.old))) }
{
    let start = cursor.ahead();
    match cursor.bump() {
        None => Err(start.fault(Error::EscapeUnfinished)),
        Some('0'..='9') => Err(start.fault(Error::Backreference)),
        Some('p' | 'P') => Err(start.fault(Error::UnicodeClass)),
        Some('b') => Ok(Meaning::Assertion(boundary(alloc, cursor, flags)?)),
        Some(c) => simple(cursor, &start, flags, c),
    }
}
