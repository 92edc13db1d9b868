//! What is known of a character of a class.

ghost use Rattle.std.specs.Prelude.{◌≡◌, ℕ, ◌<◌, true, IfSome, IsTrue};
ghost use Rattle.bites_spec.specs.Range.{in_ranges};
ghost use Rattle.bites_spec.specs.Tree as spec;
ghost use Rattle.bites_literals.specs.Facts.{AreFacts, IsOneLetter};

use crate::ascii::AsciiSet;
use crate::facts::Facts;
use crate::text::Text;
use bites_syntax::class::Class;

/// Returns what is known of a character.
pub(crate) fn facts_of_char(c: char) -> Facts
    ensures { AreFacts (spec.char c) result }
{
    if c.is_ascii() {
        return Facts::one_byte(Text::one(c as u8, false), AsciiSet::of_byte(c as u8));
    }
    Facts::without_text(Some(4), false, AsciiSet::none())
}

/// Returns what is known of a character of the class.
pub(crate) fn facts_of_class(class: &Class) -> Facts
    ensures { AreFacts (spec.class class.now) result }
{
    let ranges = class.ranges();
    let ascii = AsciiSet::of(ranges);
    if let Some(letter) = letter_of(ranges) {
        return Facts::one_byte(Text::one(letter, true), ascii);
    }
    let most = if is_ascii(ranges) { 1 } else { 4 };
    Facts::without_text(Some(most), false, ascii)
}

/// Returns the letter if the ranges are its two cases.
fn letter_of(ranges: &[(char, char)]) -> Option<u8>
    ensures { IfSome result (λ letter. IsOneLetter ranges.now letter) }
{
    if ranges.len() != 2 {
        return None;
    }
    let (upper, end) = ranges[0];
    let (lower, last) = ranges[1];
    if upper == end
        && lower == last
        && upper.is_ascii_uppercase()
        && lower == upper.to_ascii_lowercase()
    {
        Some(lower as u8)
    } else {
        None
    }
}

/// Returns whether all characters of the ranges are ASCII.
pub(crate) fn is_ascii(ranges: &[(char, char)]) -> bool
    ensures { IsTrue result → (c : ℕ) → in_ranges ranges.now c ≡ true → c < 128 }
{
    for range in ranges {
        if !range.1.is_ascii() {
            return false;
        }
    }
    true
}
