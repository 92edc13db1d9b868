//! The names of groups, while a pattern is read.

ghost use Rattle.std.specs.Prelude.{◌≡◌, ◌||◌, ◌∷◌, [], ◌++◌, ℕ, List, chars, true, false, bytes_eq, string_bytes, MatchResult, OnOk};
ghost use Rattle.std.specs.BTreeSet.{contains_text};
ghost use Rattle.bites_spec.specs.Group.{is_name_front, is_name_part, is_name_start, is_number};
ghost use Rattle.bites_spec.specs.Pattern.{Text};
ghost use Rattle.bites_spec.specs.Reader.{name_from, name_unclosed};
ghost use Rattle.bites_text.specs.Messages.{error_of};
ghost use Rattle.bites_syntax.specs.Groups.{AreNames, ends_name};
ghost use Rattle.bites_syntax.specs.Parts.{Agrees, IsFaultOf, ReadsOn};

use crate::cursor::Cursor;
use crate::refusal::Refusal;
use bites_text::error::Error;
use std::alloc::{AllocError, Global};
use std::collections::BTreeSet;
use unicode::properties::{GeneralCategory, is_alphabetic};

/// The names that groups have so far.
#[derive(Drop)]
pub(crate) struct Names {
    texts: BTreeSet<String>,
}

impl Names {
    /// Returns an empty set of names.
    pub(crate) fn new(alloc: Global) -> Names
        ensures { AreNames result [] }
    {
        Names {
            texts: BTreeSet::new(alloc),
        }
    }

    /// Returns whether a group has this name.
    fn contains(&self, name: &str) -> bool
        ensures { result ≡ contains_text self.now.texts name.now }
    {
        self.texts.contains(name)
    }

    /// Adds a name. The only error is out of memory.
    pub(crate) fn insert(&mut self, name: String) -> Result<(), AllocError>
        ensures { OnOk result ((q : List ℕ) →
            contains_text self.new.texts q
            ≡ (bytes_eq (string_bytes name) q || contains_text self.old.texts q)) }
    {
        self.texts.insert(name)?;
        Ok(())
    }
}

fn is_number(c: char) -> bool
    ensures { result ≡ is_number c }
{
    match GeneralCategory::for_char(c) {
        GeneralCategory::DecimalNumber
        | GeneralCategory::LetterNumber
        | GeneralCategory::OtherNumber => true,
        _ => false,
    }
}

/// Returns whether a name may begin with the character.
fn is_name_start(c: char) -> bool
    ensures { result ≡ is_name_start c }
{
    c == '_' || (c != '>' && is_alphabetic(c))
}

/// Returns whether a name may continue with the character.
fn is_name_part(c: char) -> bool
    ensures { result ≡ is_name_part c }
{
    matches!(c, '_' | '.' | '[' | ']') || (c != '>' && (is_alphabetic(c) || is_number(c)))
}

/// Returns whether the character may follow this prefix of a name.
fn may_follow(text: &str, c: char) -> bool
    ensures { is_name_front (chars text.now) ≡ true →
        result ≡ is_name_front (chars text.now ++ c ∷ []) }
{
    if text.is_empty() {
        is_name_start(c)
    } else {
        is_name_part(c)
    }
}

/// Reads the characters of a name, up to its closing bracket or to the end of the pattern.
fn name_text(alloc: Global, cursor: &mut Cursor<'_>) -> Result<String, Refusal>
    ensures text { ReadsOn cursor.old cursor.new (MatchResult result
        (λ text. (names : List Text) →
        name_from names [] cursor.old ≡ name_from names (chars (string_bytes text)) cursor.new)
        (λ e. (names : List Text) → IsFaultOf e (name_from names [] cursor.old))) }
    ensures ends { OnOk result (ends_name cursor.new ≡ true) }
{
    let mut text = String::new(alloc);
    while let Some(c) = cursor.peek() {
        if c == '>' {
            break;
        }
        if !may_follow(&text, c) {
            return Err(cursor.fault(Error::InvalidName));
        }
        text.push(c)?;
        cursor.bump();
    }
    Ok(text)
}

/// Reads a new name and its closing bracket.
pub(crate) fn name(alloc: Global, cursor: &mut Cursor<'_>, names: &Names) -> Result<String, Refusal>
    ensures { ReadsOn cursor.old cursor.new ((all : List Text) → AreNames names.now all →
        Agrees (λ text name. name ≡ chars (string_bytes text)) result cursor.new
        (name_from all [] cursor.old)) }
{
    let text = name_text(alloc, cursor)?;
    let end = cursor.ahead();
    if !cursor.bump_if('>') {
        return Err(end.fault(unclosed_error(&text)));
    }
    if text.is_empty() {
        return Err(end.fault(Error::EmptyName));
    }
    if names.contains(&text) {
        return Err(cursor.fault(Error::DuplicateName));
    }
    Ok(text)
}

/// Returns the error where the pattern ends after this prefix of a name.
fn unclosed_error(text: &str) -> Error
    ensures { result ≡ error_of (name_unclosed (chars text.now)) }
{
    if text.is_empty() {
        Error::MissingName
    } else {
        Error::UnclosedName
    }
}
