//! A haystack whose matches are being replaced, from left to right.

ghost use Rattle.std.specs.Prelude.{◌≡◌, ◌≤◌, ◌++◌, [], None, Some, IfOk, OnOk, IsSome, MatchOption, drop, length, option_map, unwrap_or};
ghost use Rattle.std.specs.Option.{ForSome};
ghost use Rattle.bites_spec.specs.Captured.{AreGroups, captured};
ghost use Rattle.bites_spec.specs.Iteration.{captures_in};
ghost use Rattle.bites_spec.specs.Match.{span};
ghost use Rattle.bites_spec.specs.Pieces.{text_at};
ghost use Rattle.bites_spec.specs.Refused.{AppendsUntilRefused};
ghost use Rattle.bites_spec.specs.Replaced.{span_in};
ghost use Rattle.bites_spec.specs.Replacer.{answer_text, expanded, is_plain};
ghost use Rattle.bites_spec.specs.Slots.{group_in};
ghost use Rattle.bites_bytes.specs.ReplaceLimit.{bound};
ghost use Rattle.bites_c.specs.Handles.{SearchFinds};
ghost use Rattle.bites_c.specs.Replaced.{HoldsIfMatched, with_template, with_text};

use crate::room::Room;
use crate::taken::Search;
use crate::text::index_of;
use bites_bytes::bytes::{CaptureLocations, Regex};
use bites_bytes::replace_limit::{bound, spend};
use bites_machine::interpolate;
use std::alloc::{AllocError, Global};

/// How many bytes a text has room for beyond the length of what it is made from. That is enough for most short texts.
pub(crate) const GROWTH: usize = 32;

/// The haystack up to the end of the last match that was replaced, with the matches replaced.
#[derive(Drop)]
pub(crate) struct Replacing<'h> {
    haystack: &'h [u8],
    // The end of the last match that was replaced, if there was one.
    last: Option<usize>,
    // How many matches may still be replaced, or None for all.
    left: Option<usize>,
    out: Vec<u8>,
    pub ghost within: { ForSome last (λ e. e ≤ length haystack.now) },
}

impl<'h> Replacing<'h> {
    ghost use Rattle.bites_c.specs.Replacing.{Ends, IsFresh, Steps, Writes, captures_left, spans_left};

    // Begins with nothing replaced. At most `limit` matches will be, or all for 0.
    fn new(alloc: Global, haystack: &'h [u8], limit: usize) -> Replacing<'h>
        ensures { IsFresh haystack.now limit result }
    {
        Replacing {
            haystack,
            last: None,
            left: bound(limit),
            out: Vec::new(alloc),
        }
    }

    // Copies what stands before a match, and goes on after the match.
    fn keep_up_to(&mut self, start: usize, end: usize) -> Result<(), AllocError>
        requires order { unwrap_or self.old.last 0 ≤ start }
        requires lies { (start ≤ end) × (end ≤ length self.old.haystack.now) }
        ensures { OnOk result (Writes (span start end) [] self.old self.new) }
    {
        if self.last.is_none() {
            self.out
                .reserve(self.haystack.len().saturating_add(GROWTH))?;
        }
        let begin = self.last.unwrap_or(0);
        self.out.extend_from_slice(&self.haystack[begin..start])?;
        self.last = Some(end);
        Ok(())
    }

    // Replaces the next match by the text, if there is one and the limit allows it. Returns whether it did.
    fn step_by_text(&mut self, search: &mut Search, text: &[u8]) -> Result<bool, AllocError>
        ensures { SearchFinds search.old search.new (IfOk result (λ there.
            Steps (spans_left search.old.held.value.regex) (λ s. s) (λ s. text.now) self.old there self.new)) }
    {
        if !spend(&mut self.left) {
            return Ok(false);
        }
        let Some(found) = search.find_next(self.haystack, self.last) else {
            return Ok(false);
        };
        self.keep_up_to(found.start(), found.end())?;
        self.out.extend_from_slice(text)?;
        Ok(true)
    }

    // Replaces each match by the text, up to the limit.
    fn by_text(&mut self, search: &mut Search, text: &[u8]) -> Result<(), AllocError>
        ensures { SearchFinds search.old search.new (OnOk result
            (Ends (spans_left search.old.held.value.regex) (λ s. s) (λ s. text.now) self.old self.new)) }
    {
        while self.step_by_text(search, text)? {}
        Ok(())
    }

    // Like `step_by_text`, but replaces the match by what the template stands for.
    fn step_by_template(&mut self, search: &mut Search, template: &[u8]) -> Result<bool, AllocError>
        ensures { SearchFinds search.old search.new (IfOk result (λ there.
            Steps (captures_left search.old.held.value.regex) span_in (λ c. expanded c template.now)
            self.old there self.new)) }
    {
        if !spend(&mut self.left) {
            return Ok(false);
        }
        let regex = &search.held.regex;
        let room: &mut Room = &mut search.room;
        let (cache, locations) = (&mut room.cache, &mut room.locations);
        let (haystack, last) = (self.haystack, self.last);
        let Some(found) = regex.captures_read_next_with(cache, locations, haystack, last) else {
            return Ok(false);
        };
        self.keep_up_to(found.start(), found.end())?;
        expand(regex, haystack, &room.locations, template, &mut self.out)?;
        Ok(true)
    }

    // Replaces each match by what the template stands for, up to the limit.
    fn by_template(&mut self, search: &mut Search, template: &[u8]) -> Result<(), AllocError>
        ensures { SearchFinds search.old search.new (OnOk result
            (Ends (captures_left search.old.held.value.regex) span_in (λ c. expanded c template.now)
            self.old self.new)) }
    {
        while self.step_by_template(search, template)? {}
        Ok(())
    }

    // Returns what is written, with the rest of the haystack, or None if nothing was replaced.
    fn finish(self) -> Result<Option<Vec<u8>>, AllocError>
        ensures { IfOk result (λ o. MatchOption o (self.entry.last ≡ None) (λ v. IsSome self.entry.last
            × (v.items ≡ self.entry.out.items ++ drop (unwrap_or self.entry.last 0) self.entry.haystack.now))) }
    {
        let Some(end) = self.last else {
            return Ok(None);
        };
        let mut out = self.out;
        out.extend_from_slice(&self.haystack[end..])?;
        Ok(Some(out))
    }
}

/// Returns the haystack with its first `limit` matches, or all for 0, replaced by the text, or None if nothing matches.
/// The error is out of memory.
pub(crate) fn with_text(
    alloc: Global,
    search: &mut Search,
    haystack: &[u8],
    limit: usize,
    text: &[u8],
) -> Result<Option<Vec<u8>>, AllocError>
    ensures { SearchFinds search.old search.new (IfOk result (HoldsIfMatched (λ v. v.items)
        (captures_in search.old.held.value.regex haystack.now)
        (with_text search.old.held.value.regex haystack.now limit text.now))) }
{
    // For proofs: the regex is compiled, so its captures have the spans of its matches.
    search.held.regex.as_str();
    let mut replacing = Replacing::new(alloc, haystack, limit);
    replacing.by_text(search, text)?;
    replacing.finish()
}

/// Like [`with_text`], but each match is replaced by what the template stands for.
pub(crate) fn with_template(
    alloc: Global,
    search: &mut Search,
    haystack: &[u8],
    limit: usize,
    template: &[u8],
) -> Result<Option<Vec<u8>>, AllocError>
    ensures { SearchFinds search.old search.new (IfOk result (HoldsIfMatched (λ v. v.items)
        (captures_in search.old.held.value.regex haystack.now)
        (with_template search.old.held.value.regex haystack.now limit template.now))) }
{
    // A template with no `$` stands for itself, and needs no groups.
    if is_plain(template) {
        return with_text(alloc, search, haystack, limit, template);
    }
    let mut replacing = Replacing::new(alloc, haystack, limit);
    replacing.by_template(search, template)?;
    replacing.finish()
}

// Returns whether the text contains no `$`.
fn is_plain(text: &[u8]) -> bool
    ensures { result ≡ is_plain text.now }
{
    text.iter().all(|byte| *byte != b'$')
}

// Appends what the template stands for by these groups.
fn expand(
    regex: &Regex,
    haystack: &[u8],
    locations: &CaptureLocations,
    template: &[u8],
    text: &mut Vec<u8>,
) -> Result<(), AllocError>
    requires { AreGroups regex.now haystack.now locations.now }
    ensures { AppendsUntilRefused result text.old.items text.new.items
        (expanded (captured regex.now haystack.now locations.now) template.now) }
{
    interpolate::bytes(
        template,
        |group: usize| text_of(regex, haystack, locations, group),
        |name: &str| index_of(regex, name.as_bytes()),
        text,
    )
}

// Returns what the group of this number matched, if it participated.
fn text_of<'h>(
    regex: &Regex,
    haystack: &'h [u8],
    locations: &CaptureLocations,
    group: usize,
) -> Option<&'h [u8]>
    requires { AreGroups regex.now haystack.now locations.now }
    ensures { answer_text result ≡ option_map (text_at haystack.now) (group_in locations.now group) }
{
    match locations.get(group) {
        Some((start, end)) => Some(&haystack[start..end]),
        None => None,
    }
}
