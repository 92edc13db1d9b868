//! Haystacks with their matches replaced, and what templates stand for, written into the caller's memory.

ghost use Rattle.std.specs.Prelude.{◌≡◌, ◌≤◌, ℕ, All, IfNone, IfOk, IfSome, IsTrue, List, MatchBool, length, option_map};
ghost use Rattle.bites_spec.specs.Captured.{Captured};
ghost use Rattle.bites_spec.specs.Match.{span};
ghost use Rattle.bites_spec.specs.Pieces.{text_at};
ghost use Rattle.bites_spec.specs.Refused.{AppendsUntilRefused};
ghost use Rattle.bites_spec.specs.Replacer.{answer_text};
ghost use Rattle.bites_c.specs.Put.{PutsMade, PutsNone, PutsReplaced};
ghost use Rattle.bites_c.specs.Replaced.{HoldsIfMatched, SpanLiesWithin, expanded_by, group_from_c};
ghost use Rattle.bites_c.specs.Texts.{AreUtf8, AsksGroups, LiesAtBorders};

use crate::codes::{BAD_SPAN, MATCH, NO_MATCH, NO_MEMORY, NOT_BORDER, NOT_UTF8};
use crate::held::Held;
use crate::replacing::GROWTH;
use crate::span::BitesSpan;
use crate::text::{BitesSize, index_of, put, put_as};
use crate::texts::refuses;
use bites_bytes::bytes::Regex;
use bites_machine::interpolate;
use std::alloc::{AllocError, Global};

/// Puts the haystack with its matches replaced into the first bytes of `out`, if something was replaced and it fits.
/// `len` is the length of the haystack.
pub(crate) fn put_replaced(
    replaced: Result<Option<Vec<u8>>, AllocError>,
    len: usize,
    out: &mut [u8],
) -> BitesSize
    ensures { (cs : List Captured) → (text : List ℕ) → IfOk replaced (HoldsIfMatched (λ v. v.items) cs text) →
        PutsReplaced cs len text result out.old out.new }
{
    match replaced {
        Ok(Some(text)) => put_as(MATCH, text.as_slice(), out),
        Ok(None) => BitesSize {
            code: NO_MATCH,
            size: len,
        },
        Err(_) => BitesSize::refused(NO_MEMORY),
    }
}

/// Puts what the template stands for by these groups into the first bytes of `out`, if nothing is refused and it fits.
pub(crate) fn put_expanded(
    alloc: Global,
    held: &Held,
    haystack: &[u8],
    groups: &[BitesSpan],
    template: &[u8],
    out: &mut [u8],
) -> BitesSize
    ensures { AsksGroups held.now.is_text haystack.now groups.now template.now
        (λ number. PutsNone number result out.old out.new)
        (PutsMade (expanded_by held.now.regex.names groups.now haystack.now template.now) result out.old out.new) }
{
    if let Some(code) = fault_of(held.is_text, haystack, groups, template) {
        return BitesSize::refused(code);
    }
    let Ok(mut text) = Vec::with_capacity(alloc, template.len().saturating_add(GROWTH)) else {
        return BitesSize::refused(NO_MEMORY);
    };
    match expand(&held.regex, haystack, groups, template, &mut text) {
        Ok(()) => put(text.as_slice(), out),
        Err(_) => BitesSize::refused(NO_MEMORY),
    }
}

// Returns the number that refuses the groups, or over texts the haystack or the template, if something is refused.
fn fault_of(is_text: bool, haystack: &[u8], groups: &[BitesSpan], template: &[u8]) -> Option<u32>
    ensures fine { IfNone result ((IsTrue is_text → AreUtf8 haystack.now template.now × All (LiesAtBorders haystack.now) groups.now)
        × All (SpanLiesWithin (length haystack.now)) groups.now) }
    ensures wrong { IfSome result (λ n.
        AsksGroups is_text haystack.now groups.now template.now (λ number. n ≡ number) ⊥) }
{
    if refuses(is_text, haystack, template) {
        return Some(NOT_UTF8);
    }
    if !lie_within(haystack, groups) {
        return Some(BAD_SPAN);
    }
    if is_text && !have_borders(haystack, groups) {
        return Some(NOT_BORDER);
    }
    None
}

// Returns whether each group lies in the haystack or does not participate.
fn lie_within(haystack: &[u8], groups: &[BitesSpan]) -> bool
    ensures { MatchBool result (All (SpanLiesWithin (length haystack.now)) groups.now)
        (All (SpanLiesWithin (length haystack.now)) groups.now → ⊥) }
{
    groups.iter().all(|group| group.lies_within(haystack))
}

// Returns whether no group begins or ends within a character.
fn have_borders(haystack: &[u8], groups: &[BitesSpan]) -> bool
    ensures { MatchBool result (All (LiesAtBorders haystack.now) groups.now)
        (All (LiesAtBorders haystack.now) groups.now → ⊥) }
{
    groups.iter().all(|group| group.has_borders(haystack))
}

// Appends what the template stands for by these groups.
fn expand(
    regex: &Regex,
    haystack: &[u8],
    groups: &[BitesSpan],
    template: &[u8],
    text: &mut Vec<u8>,
) -> Result<(), AllocError>
    requires { All (SpanLiesWithin (length haystack.now)) groups.now }
    ensures { AppendsUntilRefused result text.old.items text.new.items
        (expanded_by regex.now.names groups.now haystack.now template.now) }
{
    interpolate::bytes(
        template,
        |group: usize| text_of(haystack, groups, group),
        |name: &str| index_of(regex, name.as_bytes()),
        text,
    )
}

// Returns what the group of this number matched, if it participated.
fn text_of<'h>(haystack: &'h [u8], groups: &[BitesSpan], group: usize) -> Option<&'h [u8]>
    requires { All (SpanLiesWithin (length haystack.now)) groups.now }
    ensures { answer_text result ≡ option_map (text_at haystack.now) (group_from_c groups.now group) }
{
    match ends_of(groups, group, haystack.len()) {
        Some((start, end)) => Some(&haystack[start..end]),
        None => None,
    }
}

// Returns the span of the group of this number, if it participated. `len` is the length of the haystack.
fn ends_of(groups: &[BitesSpan], group: usize, len: usize) -> Option<(usize, usize)>
    requires { All (SpanLiesWithin len) groups.now }
    ensures ends { option_map (λ s. span s.0 s.1) result ≡ group_from_c groups.now group }
    ensures lies { IfSome result (λ s. (s.0 ≤ s.1) × (s.1 ≤ len)) }
{
    if group >= groups.len() {
        return None;
    }
    groups[group].ends()
}
