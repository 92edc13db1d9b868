//! What opens a group.

ghost use Rattle.std.specs.Prelude.{◌≡◌, ◌∷◌, []};
ghost use Rattle.bites_spec.specs.Group.{begins_look_around, ends_with_dash};
ghost use Rattle.bites_spec.specs.Pattern as pattern;
ghost use Rattle.bites_spec.specs.Pattern.{Text};
ghost use Rattle.bites_spec.specs.Reader.{flags_end, flags_from, flags_unclosed, named_group, no_name, opened};
ghost use Rattle.bites_text.specs.Messages.{error_of};
ghost use Rattle.bites_syntax.specs.Openings.{IsStateOf, IsOpened};
ghost use Rattle.bites_syntax.specs.Parts.{Agrees, ReadsOn};

use crate::cursor::Cursor;
use crate::flags::{Flags, changed, flag_run};
use crate::group_names::{Names, name};
use crate::groups::Groups;
use crate::name::Name;
use crate::refusal::Refusal;
use bites_text::error::Error;
use std::alloc::Global;

/// What the pattern so far decides for the rest.
#[derive(Drop)]
pub(crate) struct ParserState {
    pub(crate) flags: Flags,
    /// The number of numbered groups that were opened.
    pub(crate) groups: u32,
    pub(crate) names: Names,
    /// Group 0, and each numbered group that was opened.
    pub(crate) opened: Groups,
}

/// What stands after an opening parenthesis.
#[derive(Drop)]
pub(crate) enum Opened {
    /// A whole directive; no group is opened.
    Directive,
    Unnumbered,
    /// A numbered group, with its name if it has one.
    Numbered(Option<Name>),
}

/// Returns the error where the pattern ends after these flags.
fn unclosed_error(run: &[char]) -> Error
    ensures { result ≡ error_of (flags_unclosed run.now) }
{
    if run.is_empty() {
        Error::UnclosedQuestion
    } else {
        Error::UnclosedFlags
    }
}

fn ends_with_dash(run: &[char]) -> bool
    ensures { result ≡ ends_with_dash run.now }
{
    match run.last() {
        Some(c) => *c == '-',
        None => false,
    }
}

/// Returns what flags and the character after them open. That character stands at `place`.
fn flags_end(
    run: &[char],
    place: &Cursor<'_>,
    end: char,
    state: &mut ParserState,
) -> Result<Opened, Refusal>
    ensures { (g : pattern.Front) → (rest : Text) → place.now ≡ end ∷ rest → IsStateOf state.old g →
        Agrees (λ o x. IsOpened o state.new g x) result rest (flags_end g run.now end rest) }
{
    if run.is_empty() {
        return if end == ':' {
            Ok(Opened::Unnumbered)
        } else {
            Err(place.fault(Error::EmptyFlags))
        };
    }
    if ends_with_dash(run) {
        return Err(place.fault(Error::DanglingNegation));
    }
    state.flags = changed(run, state.flags);
    if end == ':' {
        Ok(Opened::Unnumbered)
    } else {
        Ok(Opened::Directive)
    }
}

/// Reads flags and what ends them, after the question mark.
fn open_by_flags(
    alloc: Global,
    cursor: &mut Cursor<'_>,
    state: &mut ParserState,
) -> Result<Opened, Refusal>
    ensures { ReadsOn cursor.old cursor.new ((g : pattern.Front) → IsStateOf state.old g →
        Agrees (λ o x. IsOpened o state.new g x) result cursor.new (flags_from g [] cursor.old)) }
{
    let run = flag_run(alloc, cursor)?;
    let place = cursor.ahead();
    match cursor.bump() {
        Some(end) => flags_end(&run, &place, end, state),
        None => Err(place.fault(unclosed_error(&run))),
    }
}

/// Reads a name and its closing bracket, and opens the group of that name.
fn named_group(
    alloc: Global,
    cursor: &mut Cursor<'_>,
    state: &mut ParserState,
) -> Result<Opened, Refusal>
    ensures { ReadsOn cursor.old cursor.new ((g : pattern.Front) → IsStateOf state.old g →
        Agrees (λ o x. IsOpened o state.new g x) result cursor.new (named_group g cursor.old)) }
{
    let Some(groups) = state.groups.checked_add(1) else {
        return Err(cursor.fault(Error::TooManyGroups));
    };
    let text = name(alloc, cursor, &state.names)?;
    state.names.insert(text.clone()?)?;
    state.opened.push(Some(Name::new(alloc, &text)?))?;
    state.groups = groups;
    Ok(Opened::Numbered(Some(Name::from(text))))
}

/// Reads what opens a group that has no name.
fn no_name(
    alloc: Global,
    cursor: &mut Cursor<'_>,
    state: &mut ParserState,
) -> Result<Opened, Refusal>
    ensures { ReadsOn cursor.old cursor.new ((g : pattern.Front) → IsStateOf state.old g →
        Agrees (λ o x. IsOpened o state.new g x) result cursor.new (no_name g cursor.old)) }
{
    if cursor.bump_if('?') {
        return open_by_flags(alloc, cursor, state);
    }
    let Some(groups) = state.groups.checked_add(1) else {
        return Err(cursor.fault(Error::TooManyGroups));
    };
    state.opened.push(None)?;
    state.groups = groups;
    Ok(Opened::Numbered(None))
}

/// Returns whether look-around begins here.
fn begins_look_around(cursor: &Cursor<'_>) -> bool
    ensures { result ≡ begins_look_around cursor.now }
{
    cursor.begins("?=") || cursor.begins("?!") || cursor.begins("?<=") || cursor.begins("?<!")
}

/// Reads what opens a group or is a directive, after the parenthesis and the gap there. An error
/// leaves the cursor and the state unspecified.
pub(crate) fn open_group(
    alloc: Global,
    cursor: &mut Cursor<'_>,
    state: &mut ParserState,
) -> Result<Opened, Refusal>
    ensures { ReadsOn cursor.old cursor.new ((g : pattern.Front) → IsStateOf state.old g →
        Agrees (λ o x. IsOpened o state.new g x) result cursor.new (opened g cursor.old)) }
{
    if begins_look_around(cursor) {
        return Err(cursor.fault(Error::LookAround));
    }
    if cursor.bump_over("?P<") {
        return named_group(alloc, cursor, state);
    }
    if cursor.bump_over("?<") {
        return named_group(alloc, cursor, state);
    }
    no_name(alloc, cursor, state)
}
