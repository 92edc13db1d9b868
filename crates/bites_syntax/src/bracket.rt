//! Classes in brackets.

ghost use Rattle.std.specs.Prelude.{◌≡◌, ℕ, suc, [], ◌≤◌, ◌<◌, Bool, true, false, length, codes, drop, ◌++◌, ◌∷◌, IfOk, map, MatchOption, MatchResult, None, Some};
ghost use Rattle.bites_spec.specs.Class.{Lists, Set, class_name, named_classes, single};
ghost use Rattle.bites_spec.specs.Bracket.{with_cases, with_negation};
ghost use Rattle.bites_spec.specs.Escape as spec;
ghost use Rattle.bites_spec.specs.Pattern.{Text, begins, next_is, one_of, skip};
ghost use Rattle.bites_spec.specs.Reader.{after_dash, after_first, alone, bracket, class_end, class_members, member, named, range};
ghost use Rattle.bites_syntax.specs.FlagsView.{flags_of};
ghost use Rattle.bites_syntax.specs.Meanings.{IsMeaning};
ghost use Rattle.bites_syntax.specs.Members.{Adds, AddsAll, AnswersCaret, AnswersLeading, Has, IsOperatorError, leading_set, members_named, named_at};
ghost use Rattle.bites_syntax.specs.Parts.{Agrees, ForEnoughSteps, ReadsOn, ReadsSome, fault_at};
ghost use Rattle.bites_syntax.specs.View.{named_of};

use crate::class::Class;
use crate::class_builder::ClassBuilder;
use crate::cursor::{Characters, Cursor};
use crate::escape::{Meaning, escape};
use crate::flags::Flags;
use crate::named_class::NamedClass;
use crate::refusal::Refusal;
use bites_text::error::Error;
use std::alloc::{AllocError, Global};

/// Returns the cursor after `opening`, the name of the class and `:]`, if they come next.
fn after_name<'a>(cursor: &Cursor<'a>, opening: &str, name: NamedClass) -> Option<Cursor<'a>>
    ensures { let text = opening.now ++ class_name (named_of name) ++ codes ":]" in
        MatchOption result (begins text cursor.now ≡ false)
        (λ rest. (begins text cursor.now ≡ true) × (rest ≡ drop (length text) cursor.now)) }
{
    let mut ahead = cursor.ahead();
    if !ahead.bump_over(opening) {
        return None;
    }
    if !ahead.bump_over(name.name()) {
        return None;
    }
    if !ahead.bump_over(":]") {
        return None;
    }
    Some(ahead)
}

/// Returns the first of `names` that comes next as a named class, whether it is negated, and the cursor after it.
fn named_at<'a>(cursor: &Cursor<'a>, names: &[NamedClass]) -> Option<(NamedClass, bool, Cursor<'a>)>
    ensures { MatchOption result (named_at cursor.now (map named_of names.now) ≡ None)
        (λ x. named_at cursor.now (map named_of names.now) ≡ Some (named_of x.0, x.1, x.2)) }
{
    'names: for name in names {
        if let Some(after) = after_name(cursor, "[:", *name) {
            return Some((*name, false, after));
        }
        if let Some(after) = after_name(cursor, "[:^", *name) {
            return Some((*name, true, after));
        }
    }
    None
}

/// Returns the class of a named class's characters, or of all others if `negated`.
fn class_named(name: NamedClass, negated: bool) -> Class
    ensures { Lists result (members_named (named_of name) negated) }
{
    if negated {
        Class::all_but_named(name)
    } else {
        Class::named(name)
    }
}

/// Reads a named class, and adds its characters.
fn named(cursor: &mut Cursor<'_>, builder: &mut ClassBuilder) -> Result<(), Refusal>
    ensures { ReadsSome result cursor.old cursor.new (Adds builder.old builder.new result cursor.new
        (λ go set. named go set cursor.old named_classes)) }
{
    let Some((name, negated, after)) = named_at(cursor, &NamedClass::ALL) else {
        return Err(cursor.fault(Error::NestedClass));
    };
    let class = class_named(name, negated);
    builder.extend(class.ranges())?;
    *cursor = after;
    Ok(())
}

/// Reads what may be an end of a range: a character or an escape.
fn class_end(alloc: Global, cursor: &mut Cursor<'_>, flags: Flags) -> Result<Meaning, Refusal>
    ensures { ReadsSome result cursor.old cursor.new ((n : ℕ) → length cursor.old ≤ suc n →
        Agrees IsMeaning result cursor.new (class_end n (flags_of flags) cursor.old)) }
{
    match cursor.bump() {
        None => Err(cursor.fault(Error::UnclosedClass)),
        Some('\\') => escape(alloc, cursor, flags),
        Some(c) => Ok(Meaning::Character(c)),
    }
}

/// Adds the characters of a member that is not a range, after which the cursor stands.
fn add_alone(
    cursor: &Cursor<'_>,
    builder: &mut ClassBuilder,
    member: Meaning,
) -> Result<(), Refusal>
    ensures { (m : spec.Meaning) → IsMeaning member m →
        Adds builder.old builder.new result cursor.now (λ go set. alone go set m cursor.now) }
{
    match member {
        Meaning::Character(c) => builder.push(c, c)?,
        Meaning::Characters(set) => builder.extend(set.ranges())?,
        Meaning::Assertion(_) => return Err(cursor.fault(Error::InvalidClassEscape)),
    }
    Ok(())
}

/// Adds the characters of a range, after which the cursor stands.
fn add_range(
    cursor: &Cursor<'_>,
    builder: &mut ClassBuilder,
    first: Meaning,
    second: Meaning,
) -> Result<(), Refusal>
    ensures { (m k : spec.Meaning) → IsMeaning first m → IsMeaning second k →
        Adds builder.old builder.new result cursor.now (λ go set. range go set m k cursor.now) }
{
    let (Meaning::Character(low), Meaning::Character(high)) = (first, second) else {
        return Err(cursor.fault(Error::RangeOfNoCharacter));
    };
    if high < low {
        return Err(cursor.fault(Error::InvalidRange));
    }
    builder.push(low, high)?;
    Ok(())
}

/// Reads the rest of a member after its first end and the gap there, where a dash comes next. Adds its characters.
fn after_dash(
    alloc: Global,
    cursor: &mut Cursor<'_>,
    flags: Flags,
    builder: &mut ClassBuilder,
    first: Meaning,
) -> Result<(), Refusal>
    ensures { ReadsOn cursor.old cursor.new ((t : Text) → cursor.old ≡ 45 ∷ t → (n : ℕ) → length t ≤ n →
        (m : spec.Meaning) → IsMeaning first m →
        Adds builder.old builder.new result cursor.new
        (λ go set.
        after_dash go n (flags_of flags) set m cursor.old (skip (flags_of flags) t))) }
{
    let mut ahead = cursor.ahead();
    ahead.bump();
    ahead.skip(flags);
    match ahead.peek() {
        None => Err(ahead.fault(Error::UnclosedAfterDash)),
        Some(']' | '-') => add_alone(cursor, builder, first),
        Some(_) => {
            *cursor = ahead;
            let second = class_end(alloc, cursor, flags)?;
            add_range(cursor, builder, first, second)
        }
    }
}

/// Reads the rest of a member after its first end and the gap there. Adds its characters.
fn after_first(
    alloc: Global,
    cursor: &mut Cursor<'_>,
    flags: Flags,
    builder: &mut ClassBuilder,
    first: Meaning,
) -> Result<(), Refusal>
    ensures { ReadsOn cursor.old cursor.new (ForEnoughSteps cursor.old (λ n. (m : spec.Meaning) → IsMeaning first m →
        Adds builder.old builder.new result cursor.new
        (λ go set. after_first go n (flags_of flags) set m cursor.old))) }
{
    match cursor.peek() {
        None => Err(cursor.fault(Error::UnclosedAfterMember)),
        Some('-') => after_dash(alloc, cursor, flags, builder, first),
        Some(_) => add_alone(cursor, builder, first),
    }
}

/// Returns the error of the set operator that comes next, or None if none does.
fn set_operator(cursor: &Cursor<'_>) -> Option<Error>
    ensures { IsOperatorError result cursor.now }
{
    if cursor.begins("&&") {
        Some(Error::ClassIntersection)
    } else if cursor.begins("--") {
        Some(Error::ClassDifference)
    } else if cursor.begins("~~") {
        Some(Error::ClassSymmetricDifference)
    } else {
        None
    }
}

/// Reads a member that is not a named class, and adds its characters.
fn unnamed(
    alloc: Global,
    cursor: &mut Cursor<'_>,
    flags: Flags,
    builder: &mut ClassBuilder,
) -> Result<(), Refusal>
    requires { next_is (one_of (codes "[]")) cursor.old ≡ false }
    ensures { ReadsSome result cursor.old cursor.new ((n : ℕ) → length cursor.old ≤ suc n →
        Adds builder.old builder.new result cursor.new
        (λ go set. member go n (flags_of flags) set cursor.old)) }
{
    if let Some(error) = set_operator(cursor) {
        return Err(cursor.fault(error));
    }
    let first = class_end(alloc, cursor, flags)?;
    cursor.skip(flags);
    after_first(alloc, cursor, flags, builder, first)
}

/// Reads a member, and adds its characters.
fn member(
    alloc: Global,
    cursor: &mut Cursor<'_>,
    flags: Flags,
    builder: &mut ClassBuilder,
) -> Result<(), Refusal>
    requires { next_is (single 93) cursor.old ≡ false }
    ensures { ReadsSome result cursor.old cursor.new ((n : ℕ) → length cursor.old ≤ suc n →
        Adds builder.old builder.new result cursor.new
        (λ go set. member go n (flags_of flags) set cursor.old)) }
{
    match cursor.peek() {
        Some('[') => named(cursor, builder),
        _ => unnamed(alloc, cursor, flags, builder),
    }
}

/// Reads all members and the closing bracket, and adds their characters.
fn members(
    alloc: Global,
    cursor: &mut Cursor<'_>,
    flags: Flags,
    builder: &mut ClassBuilder,
) -> Result<(), Refusal>
    ensures { ReadsOn cursor.old cursor.new (ForEnoughSteps cursor.old
        (λ n.
        AddsAll builder.old builder.new result cursor.new
        (λ set. class_members n (flags_of flags) set cursor.old))) }
{
    cursor.skip(flags);
    'members: while !cursor.bump_if(']') {
        member(alloc, cursor, flags, builder)?;
        cursor.skip(flags);
    }
    Ok(())
}

/// Reads a caret and its gap, if one stands here. Returns whether one did.
fn caret(cursor: &mut Cursor<'_>, flags: Flags) -> Result<bool, Refusal>
    ensures { ReadsOn cursor.old cursor.new ((n : ℕ) → AnswersCaret result cursor.new n (flags_of flags) cursor.old) }
{
    if cursor.peek().is_none() {
        return Err(cursor.fault(Error::UnclosedClass));
    }
    if !cursor.bump_if('^') {
        return Ok(false);
    }
    cursor.skip(flags);
    match cursor.peek() {
        None => Err(cursor.fault(Error::UnclosedAfterCaret)),
        Some(_) => Ok(true),
    }
}

/// Reads the dashes or the closing bracket that stand for themselves before the members. Returns which of them stood
/// there, if any did.
fn leading(cursor: &mut Cursor<'_>, flags: Flags) -> Result<Option<char>, Refusal>
    ensures { ReadsOn cursor.old cursor.new (ForEnoughSteps cursor.old (λ n. (negated : Bool) →
        AnswersLeading result cursor.new n (flags_of flags) negated cursor.old)) }
{
    match cursor.peek() {
        None => Err(cursor.fault(Error::UnclosedClass)),
        Some('-') => {
            cursor.pass_each(flags, Characters::Dash);
            unless_at_end(cursor, '-', Error::UnclosedAfterDash)
        }
        Some(']') => {
            cursor.bump();
            cursor.skip(flags);
            unless_at_end(cursor, ']', Error::UnclosedAfterBracket)
        }
        Some(_) => Ok(None),
    }
}

/// Returns `c`, or the fault of `error` at the end of the pattern.
fn unless_at_end(cursor: &Cursor<'_>, c: char, error: Error) -> Result<Option<char>, Refusal>
    ensures { MatchResult result
        (λ leading. (leading ≡ Some c) × (d : ℕ) × (t : Text) × (cursor.now ≡ d ∷ t))
        (λ e. (e ≡ fault_at error cursor.now) × (cursor.now ≡ [])) }
{
    match cursor.peek() {
        None => Err(cursor.fault(error)),
        Some(_) => Ok(Some(c)),
    }
}

/// Returns a builder with the character that stands for itself before the members, if there is one.
fn start_builder(alloc: Global, leading: Option<char>) -> Result<ClassBuilder, AllocError>
    ensures { IfOk result (λ builder. Has builder (leading_set leading)) }
{
    let mut builder = ClassBuilder::new(alloc);
    if let Some(c) = leading {
        builder.push(c, c)?;
    }
    Ok(builder)
}

/// Returns the class of the builder under the flags, negated if a caret stood before it.
fn finished(
    alloc: Global,
    mut builder: ClassBuilder,
    flags: Flags,
    negated: bool,
) -> Result<Class, AllocError>
    ensures { (set : Set) → Has builder set →
        IfOk result (λ class. Lists class (with_negation negated (with_cases (flags_of flags) set))) }
{
    if flags.case_insensitive {
        builder.add_cases(alloc)?;
    }
    let class = builder.build(alloc)?;
    if negated {
        class.negate(alloc)
    } else {
        Ok(class)
    }
}

/// Reads the rest of a class after its opening bracket and the gap there.
pub(crate) fn bracket(
    alloc: Global,
    cursor: &mut Cursor<'_>,
    flags: Flags,
) -> Result<Class, Refusal>
    ensures { ReadsOn cursor.old cursor.new (ForEnoughSteps cursor.old
        (λ n. Agrees Lists result cursor.new (bracket n (flags_of flags) cursor.old))) }
{
    let negated = caret(cursor, flags)?;
    let leading = leading(cursor, flags)?;
    let mut builder = start_builder(alloc, leading)?;
    members(alloc, cursor, flags, &mut builder)?;
    Ok(finished(alloc, builder, flags, negated)?)
}
