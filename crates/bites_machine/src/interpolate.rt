//! Expands templates: `$$` stands for a `$`, `$name` and `${name}` for what a group matched, and all else for itself.

ghost use Rattle.std.specs.Prelude.{◌≡◌, ◌+◌, ◌<◌, ◌∷◌, ℕ, List, length, if◌then◌else◌, false, true, not, ◌==◌, drop, string_bytes, slice_index, ◌≢◌, MatchOption, IfSome, ◌≤◌, ◌*◌, Some, None, Option};
ghost use Rattle.std.specs.List.{prefix_len};
ghost use Rattle.bites_spec.specs.Look as look;
ghost use Rattle.bites_spec.specs.Walks.{IsNew};
ghost use Rattle.bites_spec.specs.Template.{expansion, group_named, number_in, number_of_digits};
ghost use Rattle.bites_machine.specs.Interpolate.{CutsPart, IsTextFront, BeginsWith};
ghost use Rattle.bites_spec.specs.Expansion.{GivesTexts, GivesNumbers};
ghost use Rattle.bites_spec.specs.Refused.{AppendsUntilRefused, IsFront};

use bites_text::utf8::is_word_byte;
use std::alloc::AllocError;
use std::str;

/// Appends the expansion of a template. `text_of` returns the text that a group matched, and `index_of` the group
/// number of a name. A name without a group and a group without a text expand to nothing.
///
/// The error is out of memory: `dst` is then the old text followed by a prefix of the expansion. The old text stays,
/// whatever the two functions return. The work is linear in the template and in what is appended, apart from the calls.
pub fn string<'t, T, I>(
    template: &str,
    text_of: T,
    index_of: I,
    dst: &mut String,
) -> Result<(), AllocError>
where
    T: Fn(usize) -> Option<&'t str>,
    I: Fn(&str) -> Option<usize>,
    requires texts { T.IsAlwaysCallable text_of }
    requires names { I.IsAlwaysCallable index_of }
    ensures kept { IsFront (string_bytes dst.old) (string_bytes dst.new) }
    ensures expanded { (texts : _) (numbers : _)
        → GivesTexts (T.post text_of) texts → GivesNumbers (I.post index_of) numbers
        → AppendsUntilRefused result (string_bytes dst.old) (string_bytes dst.new)
        (expansion true usize.MAX texts numbers template.now) }
{
    let mut rest = Rest {
        text: template,
        may_close: true,
    };
    while !rest.text.is_empty() {
        let (part, behind) = next_part(rest);
        match part {
            Part::Text(text) => dst.push_str(text)?,
            Part::Name(name) => {
                if let Some(number) = group_named(name, &index_of) {
                    if let Some(text) = text_of(number) {
                        dst.push_str(text)?;
                    }
                }
            }
        }
        rest = behind;
    }
    Ok(())
}

/// Like [`string`], but over bytes. A `$` before braces around bytes that are not UTF-8 stands for itself.
///
/// The error is out of memory: `dst` is then the old bytes followed by a prefix of the expansion. The old bytes stay,
/// whatever the two functions return. The work is linear in the template and in what is appended, apart from the calls.
pub fn bytes<'t, T, I>(
    template: &[u8],
    text_of: T,
    index_of: I,
    dst: &mut Vec<u8>,
) -> Result<(), AllocError>
where
    T: Fn(usize) -> Option<&'t [u8]>,
    I: Fn(&str) -> Option<usize>,
    requires texts { T.IsAlwaysCallable text_of }
    requires names { I.IsAlwaysCallable index_of }
    ensures kept { IsFront dst.old.items dst.new.items }
    ensures expanded { (texts : _) (numbers : _)
        → GivesTexts (T.post text_of) texts → GivesNumbers (I.post index_of) numbers
        → AppendsUntilRefused result dst.old.items dst.new.items
        (expansion false usize.MAX texts numbers template.now) }
{
    let mut rest = template;
    'fronts: loop {
        let (text, behind) = text_front(rest);
        bytes_of_text(text, &text_of, &index_of, dst)?;
        let Some((first, tail)) = behind.split_first() else {
            return Ok(());
        };
        dst.push(*first)?;
        rest = tail;
    }
}

/// Returns the longest prefix that is UTF-8, and the bytes after it.
fn text_front(bytes: &[u8]) -> (&str, &[u8])
    ensures { IsTextFront bytes.now result.0.now result.1.now }
{
    match str::from_utf8(bytes) {
        Ok(text) => (text, &[]),
        Err(fault) => {
            let (front, behind) = bytes.split_at(fault.valid_up_to());
            (str::from_utf8(front).unwrap_or(""), behind)
        }
    }
}

/// Appends the expansion of a template that is a text.
fn bytes_of_text<'t, T, I>(
    template: &str,
    text_of: &T,
    index_of: &I,
    dst: &mut Vec<u8>,
) -> Result<(), AllocError>
where
    T: Fn(usize) -> Option<&'t [u8]>,
    I: Fn(&str) -> Option<usize>,
    requires texts { T.IsAlwaysCallable text_of.now }
    requires names { I.IsAlwaysCallable index_of.now }
    ensures kept { IsFront dst.old.items dst.new.items }
    ensures expanded { (texts : _) (numbers : _)
        → GivesTexts (T.post text_of.now) texts → GivesNumbers (I.post index_of.now) numbers
        → AppendsUntilRefused result dst.old.items dst.new.items
        (expansion true usize.MAX texts numbers template.now) }
{
    let mut rest = Rest {
        text: template,
        may_close: true,
    };
    while !rest.text.is_empty() {
        let (part, behind) = next_part(rest);
        match part {
            Part::Text(text) => dst.extend_from_slice(text.as_bytes())?,
            Part::Name(name) => {
                if let Some(number) = group_named(name, index_of) {
                    if let Some(text) = text_of(number) {
                        dst.extend_from_slice(text)?;
                    }
                }
            }
        }
        rest = behind;
    }
    Ok(())
}

/// Returns the group number of a name. A number means itself.
fn group_named<I>(name: &str, index_of: &I) -> Option<usize>
where
    I: Fn(&str) -> Option<usize>,
    requires { I.IsAlwaysCallable index_of.now }
    ensures { (texts : _) (numbers : _) → GivesNumbers (I.post index_of.now) numbers
        → result ≡ group_named usize.MAX texts numbers name.now }
{
    match number_in(name.as_bytes()) {
        Some(number) => Some(number),
        None => index_of(name),
    }
}

/// A part of a template: a text that stands for itself, or the name of a group.
#[derive(Clone, Copy)]
enum Part<'t> {
    Text(&'t str),
    Name(&'t str),
}

/// The rest of a template.
#[derive(Clone, Copy)]
struct Rest<'t> {
    text: &'t str,
    /// Whether a closing brace may be in it.
    may_close: bool,
    ghost closes: { may_close ≡ false → IsNew 125 text.now },
}

/// Returns the next part, and the rest after it.
#[tactic(auto, using(crate::proofs::templates::InterpolateLemmas::plain_split, crate::proofs::templates::InterpolateLemmas::no_brace_behind))]
fn next_part(rest: Rest<'_>) -> (Part<'_>, Rest<'_>)
    requires { 0 < length rest.text.now }
    ensures { CutsPart rest.entry.text.now result.0 result.1.text.now }
{
    let plain = len_before(b'$', rest.text.as_bytes());
    if plain == 0 {
        return after_dollar(rest);
    }
    let (text, behind) = rest.text.split_at(plain);
    let may_close = rest.may_close;
    (
        Part::Text(text),
        Rest {
            text: behind,
            may_close,
        },
    )
}

/// Returns the part that a `$` begins, and the rest after it.
#[tactic(auto, using(crate::proofs::templates::InterpolateLemmas::dollar_twice))]
fn after_dollar(rest: Rest<'_>) -> (Part<'_>, Rest<'_>)
    requires { BeginsWith 36 rest.text.now }
    ensures { CutsPart rest.entry.text.now result.0 result.1.text.now }
{
    let after = after_first_character(rest);
    match after.text.as_bytes().first() {
        Some(b'$') => (Part::Text("$"), after_first_character(after)),
        Some(b'{') => in_braces(after),
        _ => in_word(after),
    }
}

/// Returns the rest after its first character, which is ASCII.
fn after_first_character(rest: Rest<'_>) -> Rest<'_>
    requires some { 0 < length rest.text.now }
    requires ascii { slice_index rest.text.now 0 < 128 }
    ensures { result.text.now ≡ drop 1 rest.entry.text.now }
{
    let may_close = rest.may_close;
    let text = tail(rest.text);
    Rest { text, may_close }
}

/// Returns the text after its first character, which is ASCII.
fn tail(text: &str) -> &str
    requires some { 0 < length text.now }
    requires ascii { slice_index text.now 0 < 128 }
    ensures { result.now ≡ drop 1 text.now }
{
    &text[1..]
}

/// Returns the part of a `$` before an opening brace, and the rest after it.
#[tactic(auto, using(crate::proofs::templates::InterpolateLemmas::brace_open, crate::proofs::templates::InterpolateLemmas::brace_split))]
fn in_braces(rest: Rest<'_>) -> (Part<'_>, Rest<'_>)
    requires { BeginsWith 123 rest.text.now }
    ensures { CutsPart (36 ∷ rest.entry.text.now) result.0 result.1.text.now }
{
    let inside = after_first_character(rest);
    if !inside.may_close {
        return (Part::Text("$"), rest);
    }
    let end = len_before(b'}', inside.text.as_bytes());
    if end == inside.text.len() {
        let text = rest.text;
        let open = Rest {
            text,
            may_close: false,
        };
        return (Part::Text("$"), open);
    }
    let (name, behind) = inside.text.split_at(end);
    let closing = Rest {
        text: behind,
        may_close: true,
    };
    (Part::Name(name), after_first_character(closing))
}

/// Returns the part of a `$` before neither a `$` nor an opening brace, and the rest after it.
#[tactic(auto, using(crate::proofs::templates::InterpolateLemmas::word_none, crate::proofs::templates::InterpolateLemmas::word_split, crate::proofs::templates::InterpolateLemmas::word_border, crate::proofs::templates::InterpolateLemmas::no_brace_behind))]
fn in_word(rest: Rest<'_>) -> (Part<'_>, Rest<'_>)
    requires dollar { (tail : List ℕ) → rest.text.now ≢ 36 ∷ tail }
    requires brace { (tail : List ℕ) → rest.text.now ≢ 123 ∷ tail }
    ensures { CutsPart (36 ∷ rest.entry.text.now) result.0 result.1.text.now }
{
    let len = word_len(rest.text.as_bytes());
    if len == 0 {
        return (Part::Text("$"), rest);
    }
    let (name, behind) = rest.text.split_at(len);
    let may_close = rest.may_close;
    (
        Part::Name(name),
        Rest {
            text: behind,
            may_close,
        },
    )
}

/// Returns the number of bytes before the first of this value, or of all bytes if there is none.
fn len_before(byte: u8, bytes: &[u8]) -> usize
    ensures { result ≡ prefix_len (λ b. not (b == byte)) bytes.now }
{
    bytes.iter().take_while(|other| **other != byte).count()
}

/// Returns the number of word bytes at the beginning.
fn word_len(bytes: &[u8]) -> usize
    ensures { result ≡ prefix_len look.is_word_byte bytes.now }
{
    bytes.iter().take_while(|byte| is_word_byte(**byte)).count()
}

/// Parses a name as a number, with an optional leading `+`. Returns `None` if it is not a number or too large for a
/// `usize`.
fn number_in(name: &[u8]) -> Option<usize>
    ensures { result ≡ number_in usize.MAX name.now }
{
    match name {
        [] => None,
        [b'+', digits @ ..] => number_of_digits(digits),
        _ => number_of_digits(name),
    }
}

/// Parses digits as a number. Returns `None` if there are none, if another byte is among them, or if the number is too
/// large for a `usize`.
fn number_of_digits(digits: &[u8]) -> Option<usize>
    ensures { result ≡ number_of_digits usize.MAX digits.now }
{
    if digits.is_empty() {
        return None;
    }
    let mut number = 0usize;
    for digit in digits {
        if !digit.is_ascii_digit() {
            return None;
        }
        number = with_digit(number, *digit - b'0')?;
    }
    Some(number)
}

/// Returns the number with one more digit appended, if it fits in a `usize`.
fn with_digit(number: usize, digit: u8) -> Option<usize>
    ensures digits { MatchOption result (usize.MAX < number * 10 + digit)
        (λ longer. longer ≡ number * 10 + digit) }
    ensures fits { IfSome result (λ longer. longer ≤ usize.MAX) }
{
    number.checked_mul(10)?.checked_add(digit as usize)
}
