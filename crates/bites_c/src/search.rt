//! A search with two handles: it takes out what they hold, uses it, and puts it back.

ghost use Rattle.std.specs.Prelude.{◌≡◌, ◌↔◌, IsTrue, IsUtf8, MatchOption, length, option_map, ⊤};
ghost use Rattle.bites_spec.specs.Captured.{FindsMatch};
ghost use Rattle.bites_spec.specs.Full.{IsFullMatch};
ghost use Rattle.bites_spec.specs.Found.{HasMatch, IsLeastEnd};
ghost use Rattle.bites_spec.specs.Iteration.{captures_in};
ghost use Rattle.bites_spec.specs.Utf8.{places, start_alone};
ghost use Rattle.bites_machine.specs.Inputs.{starts_of};
ghost use Rattle.bites_bytes.specs.Calls.{BothFit, FindsNext, ReadsBy};
ghost use Rattle.bites_bytes.specs.Matched.{excerpt_of};
ghost use Rattle.bites_c.specs.Handles.{Begins, SearchFinds};
ghost use Rattle.bites_c.specs.Put.{PutsReplaced};
ghost use Rattle.bites_c.specs.Replaced.{with_template, with_text};
ghost use Rattle.bites_c.specs.Searched.{Lacks, PutsCaptures, PutsNextCaptures, SearchedAfter, SearchedFrom, SearchedOver};
ghost use Rattle.bites_c.specs.Texts.{AreUtf8, IsBorder};

use crate::cache::BitesCache;
use crate::codes::{EMPTY_HANDLE, MATCH, NO_MATCH, NOT_UTF8, TOO_SMALL, UNFIT_CACHE};
use crate::handle::ForC;
use crate::regex::Bites;
use crate::replace::put_replaced;
use crate::replacing;
use crate::room::{Room, put_groups};
use crate::span::BitesSpan;
use crate::taken::Search;
use crate::text::BitesSize;
use crate::texts::{fault_after, fault_from, refuses};
use bites_bytes::bytes::{Cache, CaptureLocations, Match, Regex};
use std::alloc::Global;

/// Takes out what the handles hold, if both hold something and the room fits the regex. Else both are unchanged, and
/// the error is the number for C.
#[inline(always)]
pub(crate) fn begin(alloc: Global, regex: &mut Bites, cache: &mut BitesCache) -> Result<Search, u32>
    ensures { Begins result regex.old regex.new cache.old cache.new (λ _. ⊤) (Lacks regex.old.held cache.old.room) }
{
    let Some(held) = regex.take(alloc) else {
        return Err(EMPTY_HANDLE);
    };
    let Some(room) = cache.take(alloc) else {
        *regex = Bites::of(held);
        return Err(EMPTY_HANDLE);
    };
    if !room.cache.fits(&held.regex) {
        *regex = Bites::of(held);
        *cache = BitesCache::of(room);
        return Err(UNFIT_CACHE);
    }
    Ok(Search { held, room })
}

/// Like [`begin`], but for a search from `start` on. Both handles are also unchanged if the regex refuses the haystack
/// or the start.
#[inline(always)]
pub(crate) fn begin_from(
    alloc: Global,
    regex: &mut Bites,
    cache: &mut BitesCache,
    haystack: &[u8],
    start: usize,
) -> Result<Search, u32>
    ensures { Begins result regex.old regex.new cache.old cache.new
        (λ s. IsTrue s.held.value.is_text → IsUtf8 haystack.now × IsBorder haystack.now start)
        (λ n. SearchedFrom haystack.now start regex.old regex.new cache.old cache.new n ⊤ (λ _. ⊥)) }
{
    let search = begin(alloc, regex, cache)?;
    match fault_from(search.held.is_text, haystack, start) {
        Some(code) => {
            search.end(regex, cache);
            Err(code)
        }
        None => Ok(search),
    }
}

/// Like [`begin`], but for the next match after one that ends at `last`, or for the first match. Both handles are also
/// unchanged if the regex refuses the haystack or the offset.
#[inline(always)]
pub(crate) fn begin_after(
    alloc: Global,
    regex: &mut Bites,
    cache: &mut BitesCache,
    haystack: &[u8],
    last: Option<usize>,
) -> Result<Search, u32>
    ensures { Begins result regex.old regex.new cache.old cache.new
        (λ s. IsTrue s.held.value.is_text → MatchOption last (IsUtf8 haystack.now) (IsBorder haystack.now))
        (λ n. SearchedAfter haystack.now last regex.old regex.new cache.old cache.new n ⊤ (λ _. ⊥)) }
{
    let search = begin(alloc, regex, cache)?;
    match fault_after(search.held.is_text, haystack, last) {
        Some(code) => {
            search.end(regex, cache);
            Err(code)
        }
        None => Ok(search),
    }
}

/// Like [`begin`], but for all matches in the haystack, with a replacement text or template. Both handles are also
/// unchanged if the regex refuses one of the two.
#[inline(always)]
pub(crate) fn begin_over(
    alloc: Global,
    regex: &mut Bites,
    cache: &mut BitesCache,
    haystack: &[u8],
    other: &[u8],
) -> Result<Search, u32>
    ensures { Begins result regex.old regex.new cache.old cache.new
        (λ s. IsTrue s.held.value.is_text → AreUtf8 haystack.now other.now)
        (λ n. SearchedOver haystack.now other.now regex.old regex.new cache.old cache.new n ⊤ (λ _. ⊥)) }
{
    let search = begin(alloc, regex, cache)?;
    if refuses(search.held.is_text, haystack, other) {
        search.end(regex, cache);
        return Err(NOT_UTF8);
    }
    Ok(search)
}

impl Search {
    /// Returns whether a match begins at or after `start`.
    #[inline(always)]
    pub(crate) fn is_match(&mut self, haystack: &[u8], start: usize) -> bool
        ensures { SearchFinds self.old self.new (IsTrue result ↔ HasMatch self.old.held.value.regex.tree haystack.now
            (places haystack.now start)) }
    {
        let regex = &self.held.regex;
        regex.is_match_at_with(&mut self.room.cache, haystack, start)
    }

    /// Returns the least end of any match that begins at or after `start`.
    pub(crate) fn shortest(&mut self, haystack: &[u8], start: usize) -> Option<usize>
        ensures { SearchFinds self.old self.new
            (IsLeastEnd self.old.held.value.regex.tree haystack.now (places haystack.now start) result) }
    {
        let regex = &self.held.regex;
        regex.shortest_match_at_with(&mut self.room.cache, haystack, start)
    }

    /// Returns the first match that begins at or after `start`.
    #[inline(always)]
    pub(crate) fn find<'h>(&mut self, haystack: &'h [u8], start: usize) -> Option<Match<'h>>
        ensures { SearchFinds self.old self.new
            (FindsMatch self.old.held.value.regex haystack.now (places haystack.now start)
            (option_map excerpt_of result)) }
    {
        let regex = &self.held.regex;
        regex.find_at_with(&mut self.room.cache, haystack, start)
    }

    /// Returns the match that begins at `start`.
    pub(crate) fn find_anchored<'h>(
        &mut self,
        haystack: &'h [u8],
        start: usize,
    ) -> Option<Match<'h>>
        ensures { SearchFinds self.old self.new
            (FindsMatch self.old.held.value.regex haystack.now (start_alone haystack.now start)
            (option_map excerpt_of result)) }
    {
        let regex = &self.held.regex;
        regex.find_anchored_at_with(&mut self.room.cache, haystack, start)
    }

    /// Returns whether the pattern matches the whole haystack.
    pub(crate) fn is_full_match(&mut self, haystack: &[u8]) -> bool
        ensures { SearchFinds self.old self.new
            (IsTrue result ↔ IsFullMatch self.old.held.value.regex.tree haystack.now) }
    {
        let regex = &self.held.regex;
        regex.is_full_match_with(&mut self.room.cache, haystack)
    }

    /// Returns the next match after one that ends at `last`, or the first match.
    #[inline(always)]
    pub(crate) fn find_next<'h>(
        &mut self,
        haystack: &'h [u8],
        last: Option<usize>,
    ) -> Option<Match<'h>>
        ensures { SearchFinds self.old self.new
            (FindsNext self.old.held.value.regex haystack.now last (option_map excerpt_of result)) }
    {
        let regex = &self.held.regex;
        regex.find_next_with(&mut self.room.cache, haystack, last)
    }

    /// Puts the groups of the first match that begins at or after `start`, or of the one that begins there if the search is
    /// anchored, into the first places of `groups`, if there is a match and a place for each group. The size is the number
    /// of groups.
    #[inline(always)]
    pub(crate) fn captures(
        &mut self,
        haystack: &[u8],
        start: usize,
        anchored: bool,
        groups: &mut [BitesSpan],
    ) -> BitesSize
        ensures { SearchFinds self.old self.new
            ((result.size ≡ length self.old.held.value.regex.names)
            × PutsCaptures self.old.held.value.regex haystack.now (starts_of haystack.now anchored start)
            result.code groups.old groups.new) }
    {
        let regex = &self.held.regex;
        let size = regex.captures_len();
        if groups.len() < size {
            return BitesSize {
                code: TOO_SMALL,
                size,
            };
        }
        // For proofs: the regex is compiled. The tree finds the slots that its program finds, and they are those of the
        // groups.
        regex.as_str();
        bites_spec::slots_are_found();
        bites_spec::slots_are_groups();
        let room: &mut Room = &mut self.room;
        let (cache, locations) = (&mut room.cache, &mut room.locations);
        let Some(_) = read(regex, cache, locations, haystack, start, anchored) else {
            return BitesSize {
                code: NO_MATCH,
                size,
            };
        };
        put_groups(&room.locations, groups);
        BitesSize { code: MATCH, size }
    }

    /// Like [`captures`](Self::captures), but for the next match after one that ends at `last`, or for the first match.
    pub(crate) fn captures_next(
        &mut self,
        haystack: &[u8],
        last: Option<usize>,
        groups: &mut [BitesSpan],
    ) -> BitesSize
        ensures { SearchFinds self.old self.new
            ((result.size ≡ length self.old.held.value.regex.names)
            × PutsNextCaptures self.old.held.value.regex haystack.now last result.code groups.old groups.new) }
    {
        let regex = &self.held.regex;
        let size = regex.captures_len();
        if groups.len() < size {
            return BitesSize {
                code: TOO_SMALL,
                size,
            };
        }
        regex.as_str();
        let room: &mut Room = &mut self.room;
        let (cache, locations) = (&mut room.cache, &mut room.locations);
        let Some(_) = regex.captures_read_next_with(cache, locations, haystack, last) else {
            return BitesSize {
                code: NO_MATCH,
                size,
            };
        };
        put_groups(&room.locations, groups);
        BitesSize { code: MATCH, size }
    }

    /// Puts the haystack, with its first `limit` matches, or all for 0, replaced by what the template stands for, into
    /// the first bytes of `out`, if there is a match and the text fits.
    pub(crate) fn replace(
        &mut self,
        alloc: Global,
        haystack: &[u8],
        limit: usize,
        template: &[u8],
        out: &mut [u8],
    ) -> BitesSize
        ensures { SearchFinds self.old self.new
            (PutsReplaced (captures_in self.old.held.value.regex haystack.now) (length haystack.now)
            (with_template self.old.held.value.regex haystack.now limit template.now) result out.old out.new) }
    {
        let made = replacing::with_template(alloc, self, haystack, limit, template);
        put_replaced(made, haystack.len(), out)
    }

    /// Like [`replace`](Self::replace), but each match is replaced by the text.
    pub(crate) fn replace_literal(
        &mut self,
        alloc: Global,
        haystack: &[u8],
        limit: usize,
        text: &[u8],
        out: &mut [u8],
    ) -> BitesSize
        ensures { SearchFinds self.old self.new
            (PutsReplaced (captures_in self.old.held.value.regex haystack.now) (length haystack.now)
            (with_text self.old.held.value.regex haystack.now limit text.now) result out.old out.new) }
    {
        let made = replacing::with_text(alloc, self, haystack, limit, text);
        put_replaced(made, haystack.len(), out)
    }

    /// Puts back what was taken out of the handles.
    #[inline(always)]
    pub(crate) fn end(self, regex: &mut Bites, cache: &mut BitesCache)
        ensures regex { regex.new.held ≡ Some self.held.value }
        ensures room { cache.new.room ≡ Some self.room.value }
    {
        *regex = Bites::of(self.held);
        *cache = BitesCache::of(self.room);
    }
}

// Searches for a match from `start` on, or for one that begins there if the search is anchored, and writes its groups.
#[inline(always)]
fn read<'h>(
    regex: &Regex,
    cache: &mut Cache,
    locations: &mut CaptureLocations,
    haystack: &'h [u8],
    start: usize,
    anchored: bool,
) -> Option<Match<'h>>
    requires { BothFit regex.now cache.old locations.old }
    ensures { ReadsBy excerpt_of anchored regex.now haystack.now start result locations.old locations.new
        cache.old cache.new }
{
    if anchored {
        regex.captures_read_anchored_at_with(cache, locations, haystack, start)
    } else {
        regex.captures_read_at_with(cache, locations, haystack, start)
    }
}
