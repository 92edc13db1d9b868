//! The engine for C: handles hold a regex and a search cache by pointers between calls.
//!
//! A function that returns a `u32` returns one of the numbers of `c/bites.h`: 0 if the call is done, 100 for a match,
//! 101 for no match, 1 to 57 for the message that refuses a pattern, 58 for out of memory, and 102 to 108 for what was
//! wrong with the call. A [`BitesSize`] has such a number as its code. Offsets and sizes of texts count bytes.
//!
//! Bit 256 of the flags makes a regex over texts. Then each call with a haystack checks that the haystack is UTF-8,
//! else it returns 102, and that the offset to start from isn't within a character, else it returns 108. A search of a
//! text from such an offset finds matches that begin and end between characters too, by the laws of `bites_spec` on
//! texts.
#![tactic(auto)]

ghost use Rattle.std.specs.Prelude.{◌≡◌, ◌≢◌, ◌↔◌, false, IsSomeAnd, IsUtf8, length, unwrap_or, ⊤};
ghost use Rattle.std.specs.declared.option.Option.TheVariants.{None};
ghost use Rattle.bites_spec.specs.Counts.{fit_of};
ghost use Rattle.bites_spec.specs.Captured.{FindsSpan};
ghost use Rattle.bites_spec.specs.Full.{IsFullMatch};
ghost use Rattle.bites_spec.specs.Found.{HasMatch, IsLeastEnd};
ghost use Rattle.bites_spec.specs.Measure.{static_captures_len};
ghost use Rattle.bites_spec.specs.Regex.{span_at};
ghost use Rattle.bites_spec.specs.Utf8.{places, start_alone};
ghost use Rattle.bites_text.specs.declared.error.Error.{Error as Fault};
ghost use Rattle.bites_text.specs.declared.error.Error.TheVariants.{Memory};
ghost use Rattle.bites_bytes.specs.Settings.{Refuses};
ghost use Rattle.bites_text.specs.Texts.{code_of};
ghost use Rattle.bites_c.specs.Codes.{done, not_utf8, empty_handle};
ghost use Rattle.bites_c.specs.Handles.{MakesHandle, ReadsHandle};
ghost use Rattle.bites_c.specs.Made.{IsMadeBy, IsPrepared};
ghost use Rattle.bites_c.specs.Put.{Puts, PutsSpan, last_for_c, no_table};
ghost use Rattle.bites_c.specs.Searched.{AnswersIf, AnswersPiece, AnswersPlace, AnswersSpan, FindsNext, PutsCaptures, PutsNextCaptures, SearchedAfter, SearchedFrom};
ghost use Rattle.bites_c.specs.Words.{asked, text_in};

mod cache;
mod codes;
mod error_calls;
mod handle;
mod held;
mod held_set;
mod make;
mod make_set;
mod regex;
mod replace;
mod replacing;
mod room;
mod search;
mod set;
mod set_calls;
mod span;
mod table;
mod taken;
mod text;
mod text_calls;
mod texts;

pub use cache::BitesCache;
use codes::{DONE, EMPTY_HANDLE, MATCH, NO_MATCH, NO_MEMORY};
use handle::ForC;
pub use regex::Bites;
pub use set::BitesSet;
pub use span::BitesSpan;
use std::alloc::Global;
pub use table::BitesTable;
pub use text::BitesSize;

/// Compiles the pattern, and puts the regex into `out` instead of the one that it held.
///
/// The bits 1, 2, 4, 8, 16 and 32 of `flags` set the flags i, m, s, R, U and x. With bit 64 searches find the longest
/// match, with bit 128 groups that the tree drops are kept, and with bit 256 searches are over texts. Other bits change
/// nothing.
///
/// Returns 0, 1 to 57 for the message that refuses the pattern, 58 for out of memory, or 102 if the pattern is not
/// UTF-8. Unless it returns 0, `out` holds nothing.
#[unsafe(no_mangle)]
pub extern "C" fn bites_new(
    alloc: Global,
    pattern: &[u8],
    flags: u32,
    size_limit: usize,
    nest_limit: u32,
    out: &mut Bites,
) -> u32
    ensures made { result ≡ done → IsSomeAnd out.new.held (λ h.
        IsMadeBy (asked pattern.now flags size_limit nest_limit) h.regex × (h.is_text ≡ text_in flags)) }
    ensures refused { result ≢ done → out.new.held ≡ None }
    ensures known { result ≢ done → result ≢ not_utf8 → (e : Fault) × (result ≡ code_of e) }
    ensures message { (e : Fault) → result ≡ code_of e → e ≢ Memory →
        Refuses (asked pattern.now flags size_limit nest_limit) e }
    ensures utf8 { result ≡ not_utf8 ↔ (IsUtf8 pattern.now → ⊥) }
{
    *out = Bites::empty(alloc);
    match make::regex(alloc, pattern, flags, size_limit, nest_limit) {
        Ok(made) => {
            *out = made;
            DONE
        }
        Err(code) => code,
    }
}

/// Frees the regex, if there is one.
#[unsafe(no_mangle)]
pub extern "C" fn bites_free(alloc: Global, regex: &mut Bites)
    ensures { regex.new.held ≡ None }
{
    *regex = Bites::empty(alloc);
}

/// Puts a regex that shares the program of `regex` into `out`, instead of the one that it held.
///
/// Returns 0, 58 for out of memory, or 103 if `regex` holds nothing. Unless it returns 0, `out` holds nothing.
#[unsafe(no_mangle)]
pub extern "C" fn bites_clone(alloc: Global, regex: &mut Bites, out: &mut Bites) -> u32
    ensures { MakesHandle regex.old.held regex.new.held out.new.held result (λ h copy. copy ≡ h) }
{
    *out = Bites::empty(alloc);
    let Some(source) = regex.take(alloc) else {
        return EMPTY_HANDLE;
    };
    let copy = make::copy(alloc, &source);
    *regex = Bites::of(source);
    match copy {
        Some(made) => {
            *out = made;
            DONE
        }
        None => NO_MEMORY,
    }
}

/// Puts the regex into `out` with a table of at most so many bytes, which its searches use, instead of the regex that `out`
/// held. Its searches look for a literal first, if each match holds one. Both share the program, and caches of the one fit
/// the other.
///
/// Returns 0, also if there was no memory for the table, 58 for out of memory for the handle, or 103 if `regex` holds
/// nothing. Unless it returns 0, `out` holds nothing.
#[unsafe(no_mangle)]
pub extern "C" fn bites_prepare(
    alloc: Global,
    regex: &mut Bites,
    dfa_size_limit: usize,
    out: &mut Bites,
) -> u32
    ensures { MakesHandle regex.old.held regex.new.held out.new.held result (IsPrepared dfa_size_limit) }
{
    prepare(alloc, regex, dfa_size_limit, true, out)
}

/// Puts the regex into `out` as `bites_prepare` does, but with a table without thread lists for searches at one offset and for a match
/// of the whole haystack.
#[unsafe(no_mangle)]
pub extern "C" fn bites_prepare_unanchored(
    alloc: Global,
    regex: &mut Bites,
    dfa_size_limit: usize,
    out: &mut Bites,
) -> u32
    ensures { MakesHandle regex.old.held regex.new.held out.new.held result (IsPrepared dfa_size_limit) }
{
    prepare(alloc, regex, dfa_size_limit, false, out)
}

// Puts the regex into `out` with a table, which has thread lists for searches at one offset if they are asked for.
fn prepare(
    alloc: Global,
    regex: &mut Bites,
    dfa_size_limit: usize,
    anchored: bool,
    out: &mut Bites,
) -> u32
    ensures { MakesHandle regex.old.held regex.new.held out.new.held result (IsPrepared dfa_size_limit) }
{
    *out = Bites::empty(alloc);
    let Some(source) = regex.take(alloc) else {
        return EMPTY_HANDLE;
    };
    let made = make::prepared(alloc, &source, dfa_size_limit, anchored);
    *regex = Bites::of(source);
    match made {
        Some(made) => {
            *out = made;
            DONE
        }
        None => NO_MEMORY,
    }
}

/// Puts how large the table of the regex is into `out`; it is all zeros if there is none.
///
/// Returns 0, or 103 if `regex` holds nothing. Then `out` is unchanged.
#[unsafe(no_mangle)]
pub extern "C" fn bites_table_size(alloc: Global, regex: &mut Bites, out: &mut BitesTable) -> u32
    ensures { ReadsHandle regex.old.held regex.new.held ((result ≡ empty_handle) × (out.new ≡ out.old)) (λ h.
        (result ≡ done) × (h.regex.has_table ≡ false → out.new ≡ no_table)) }
{
    let Some(held) = regex.take(alloc) else {
        return EMPTY_HANDLE;
    };
    let size = BitesTable::of(held.regex.table_size());
    *regex = Bites::of(held);
    *out = size;
    DONE
}

/// Makes a cache for searches with the regex, and puts it into `out` instead of the one that it held.
///
/// Returns 0, 58 for out of memory, or 103 if `regex` holds nothing. Unless it returns 0, `out` holds nothing.
#[unsafe(no_mangle)]
pub extern "C" fn bites_cache_new(alloc: Global, regex: &mut Bites, out: &mut BitesCache) -> u32
    ensures { MakesHandle regex.old.held regex.new.held out.new.room result (λ h c. c.fits ≡ fit_of h.regex.program) }
{
    *out = BitesCache::empty(alloc);
    let Some(owner) = regex.take(alloc) else {
        return EMPTY_HANDLE;
    };
    let made = make::room(alloc, &owner.regex);
    *regex = Bites::of(owner);
    match made {
        Some(room) => {
            *out = room;
            DONE
        }
        None => NO_MEMORY,
    }
}

/// Frees the cache, if there is one.
#[unsafe(no_mangle)]
pub extern "C" fn bites_cache_free(alloc: Global, cache: &mut BitesCache)
    ensures { cache.new.room ≡ None }
{
    *cache = BitesCache::empty(alloc);
}

/// Returns whether the regex matches anywhere in the haystack. It allocates nothing.
#[unsafe(no_mangle)]
pub extern "C" fn bites_is_match(
    alloc: Global,
    regex: &mut Bites,
    cache: &mut BitesCache,
    haystack: &[u8],
) -> u32
    ensures { SearchedFrom haystack.now 0 regex.old regex.new cache.old cache.new result ⊤ (λ r.
        AnswersIf result (HasMatch r.tree haystack.now (places haystack.now 0))) }
{
    bites_is_match_at(alloc, regex, cache, haystack, 0)
}

/// Returns whether a match begins at or after `start`. Past the end nothing matches. It allocates nothing.
#[unsafe(no_mangle)]
pub extern "C" fn bites_is_match_at(
    alloc: Global,
    regex: &mut Bites,
    cache: &mut BitesCache,
    haystack: &[u8],
    start: usize,
) -> u32
    ensures { SearchedFrom haystack.now start regex.old regex.new cache.old cache.new result ⊤ (λ r.
        AnswersIf result (HasMatch r.tree haystack.now (places haystack.now start))) }
{
    match search::begin_from(alloc, regex, cache, haystack, start) {
        Ok(mut search) => {
            let found = search.is_match(haystack, start);
            search.end(regex, cache);
            if found { MATCH } else { NO_MATCH }
        }
        Err(code) => code,
    }
}

/// Puts the least end of any match that begins at or after `start` into `end`, which is unchanged if there is none. It
/// allocates nothing.
#[unsafe(no_mangle)]
pub extern "C" fn bites_shortest_match_at(
    alloc: Global,
    regex: &mut Bites,
    cache: &mut BitesCache,
    haystack: &[u8],
    start: usize,
    end: &mut usize,
) -> u32
    ensures { SearchedFrom haystack.now start regex.old regex.new cache.old cache.new result (end.new ≡ end.old) (λ r.
        AnswersPlace result end.old end.new (IsLeastEnd r.tree haystack.now (places haystack.now start))) }
{
    match search::begin_from(alloc, regex, cache, haystack, start) {
        Ok(mut search) => {
            let found = search.shortest(haystack, start);
            search.end(regex, cache);
            put_end(found, end)
        }
        Err(code) => code,
    }
}

/// Puts the span of the first match that begins at or after `start` into `out`, which is unchanged if there is none. It
/// allocates nothing.
#[unsafe(no_mangle)]
pub extern "C" fn bites_find_at(
    alloc: Global,
    regex: &mut Bites,
    cache: &mut BitesCache,
    haystack: &[u8],
    start: usize,
    out: &mut BitesSpan,
) -> u32
    ensures { SearchedFrom haystack.now start regex.old regex.new cache.old cache.new result (out.new ≡ out.old) (λ r.
        FindsSpan r haystack.now (places haystack.now start) (span_at r haystack.now (places haystack.now start))
        × PutsSpan (span_at r haystack.now (places haystack.now start)) result out.old out.new) }
{
    match search::begin_from(alloc, regex, cache, haystack, start) {
        Ok(mut search) => {
            let found = search.find(haystack, start);
            search.end(regex, cache);
            span::put(found, out)
        }
        Err(code) => code,
    }
}

/// Puts the span of the match that begins at `start` into `out`, which is unchanged if there is none. That is the
/// preferred one of these matches, or with flag 64 the longest. It allocates nothing.
#[unsafe(no_mangle)]
pub extern "C" fn bites_find_anchored_at(
    alloc: Global,
    regex: &mut Bites,
    cache: &mut BitesCache,
    haystack: &[u8],
    start: usize,
    out: &mut BitesSpan,
) -> u32
    ensures { SearchedFrom haystack.now start regex.old regex.new cache.old cache.new result (out.new ≡ out.old) (λ r.
        FindsSpan r haystack.now (start_alone haystack.now start) (span_at r haystack.now (start_alone haystack.now start))
        × PutsSpan (span_at r haystack.now (start_alone haystack.now start)) result out.old out.new) }
{
    match search::begin_from(alloc, regex, cache, haystack, start) {
        Ok(mut search) => {
            let found = search.find_anchored(haystack, start);
            search.end(regex, cache);
            span::put(found, out)
        }
        Err(code) => code,
    }
}

/// Returns whether any match of the regex is the whole haystack. It allocates nothing.
#[unsafe(no_mangle)]
pub extern "C" fn bites_is_full_match(
    alloc: Global,
    regex: &mut Bites,
    cache: &mut BitesCache,
    haystack: &[u8],
) -> u32
    ensures { SearchedFrom haystack.now 0 regex.old regex.new cache.old cache.new result ⊤ (λ r.
        AnswersIf result (IsFullMatch r.tree haystack.now)) }
{
    match search::begin_from(alloc, regex, cache, haystack, 0) {
        Ok(mut search) => {
            let found = search.is_full_match(haystack);
            search.end(regex, cache);
            if found { MATCH } else { NO_MATCH }
        }
        Err(code) => code,
    }
}

/// Puts the span of the next match after one that ends at `last` into `out`, or of the first match if `last` is the
/// greatest number. `out` is unchanged if there is no such match. It allocates nothing.
///
/// The search goes on at `last`. If it finds an empty match there, it skips that match and goes on one character later.
/// Over texts only the call for the first match checks the haystack. A later call checks only `last`, and its caller
/// passes the haystack that was checked.
#[unsafe(no_mangle)]
pub extern "C" fn bites_find_next(
    alloc: Global,
    regex: &mut Bites,
    cache: &mut BitesCache,
    haystack: &[u8],
    last: usize,
    out: &mut BitesSpan,
) -> u32
    ensures { SearchedAfter haystack.now (last_for_c last) regex.old regex.new cache.old cache.new result (out.new ≡ out.old) (λ r.
        AnswersSpan result out.old out.new (FindsNext r haystack.now (last_for_c last))) }
{
    let last = span::last(last);
    match search::begin_after(alloc, regex, cache, haystack, last) {
        Ok(mut search) => {
            let found = search.find_next(haystack, last);
            search.end(regex, cache);
            span::put(found, out)
        }
        Err(code) => code,
    }
}

/// Puts the next piece of the haystack, as its matches split it, into `piece`.
///
/// The piece begins at `last`, the end of the previous match, or at the start of the haystack if `last` is the greatest
/// number. Returns 100 if [`bites_find_next`] finds a next match: the piece ends where that match begins, and `last`
/// becomes the end of that match. Returns 101 if there is no next match: the piece is the last one, and `last` is
/// unchanged. Otherwise both are unchanged. It allocates nothing.
#[unsafe(no_mangle)]
pub extern "C" fn bites_split_next(
    alloc: Global,
    regex: &mut Bites,
    cache: &mut BitesCache,
    haystack: &[u8],
    last: &mut usize,
    piece: &mut BitesSpan,
) -> u32
    ensures { SearchedAfter haystack.now (last_for_c last.old) regex.old regex.new cache.old cache.new result
        ((last.new ≡ last.old) × (piece.new ≡ piece.old)) (λ r.
        AnswersPiece (length haystack.now) result last.old last.new piece.new (FindsNext r haystack.now (last_for_c last.old))) }
{
    let before = span::last(*last);
    match search::begin_after(alloc, regex, cache, haystack, before) {
        Ok(mut search) => {
            let found = search.find_next(haystack, before);
            search.end(regex, cache);
            span::put_piece(found, haystack.len(), last, piece)
        }
        Err(code) => code,
    }
}

/// Puts the groups of the first match that begins at or after `start` into the first places of `groups`. That is for
/// each group the span that it matched last, or the greatest number twice if it does not participate. It allocates
/// nothing.
///
/// The size is the number of groups. If `groups` has fewer places, the code is 105. Unless the code is 100, `groups` is
/// unchanged.
#[unsafe(no_mangle)]
pub extern "C" fn bites_captures_at(
    alloc: Global,
    regex: &mut Bites,
    cache: &mut BitesCache,
    haystack: &[u8],
    start: usize,
    groups: &mut [BitesSpan],
) -> BitesSize
    ensures { SearchedFrom haystack.now start regex.old regex.new cache.old cache.new result.code
        ((result.size ≡ 0) × (groups.new ≡ groups.old)) (λ r. (result.size ≡ length r.names)
        × PutsCaptures r haystack.now (places haystack.now start) result.code groups.old groups.new) }
{
    match search::begin_from(alloc, regex, cache, haystack, start) {
        Ok(mut search) => {
            let answer = search.captures(haystack, start, false, groups);
            search.end(regex, cache);
            answer
        }
        Err(code) => BitesSize::refused(code),
    }
}

/// Like [`bites_captures_at`], but puts the groups of the match that [`bites_find_anchored_at`] finds. It allocates
/// nothing.
#[unsafe(no_mangle)]
pub extern "C" fn bites_captures_anchored_at(
    alloc: Global,
    regex: &mut Bites,
    cache: &mut BitesCache,
    haystack: &[u8],
    start: usize,
    groups: &mut [BitesSpan],
) -> BitesSize
    ensures { SearchedFrom haystack.now start regex.old regex.new cache.old cache.new result.code
        ((result.size ≡ 0) × (groups.new ≡ groups.old)) (λ r. (result.size ≡ length r.names)
        × PutsCaptures r haystack.now (start_alone haystack.now start) result.code groups.old groups.new) }
{
    match search::begin_from(alloc, regex, cache, haystack, start) {
        Ok(mut search) => {
            let answer = search.captures(haystack, start, true, groups);
            search.end(regex, cache);
            answer
        }
        Err(code) => BitesSize::refused(code),
    }
}

/// Like [`bites_captures_at`], but puts the groups of the match that [`bites_find_next`] finds. It allocates nothing.
#[unsafe(no_mangle)]
pub extern "C" fn bites_captures_next(
    alloc: Global,
    regex: &mut Bites,
    cache: &mut BitesCache,
    haystack: &[u8],
    last: usize,
    groups: &mut [BitesSpan],
) -> BitesSize
    ensures { SearchedAfter haystack.now (last_for_c last) regex.old regex.new cache.old cache.new result.code
        ((result.size ≡ 0) × (groups.new ≡ groups.old)) (λ r. (result.size ≡ length r.names)
        × PutsNextCaptures r haystack.now (last_for_c last) result.code groups.old groups.new) }
{
    let last = span::last(last);
    match search::begin_after(alloc, regex, cache, haystack, last) {
        Ok(mut search) => {
            let answer = search.captures_next(haystack, last, groups);
            search.end(regex, cache);
            answer
        }
        Err(code) => BitesSize::refused(code),
    }
}

/// Puts the offset into `end`, if there is one.
fn put_end(found: Option<usize>, end: &mut usize) -> u32
    ensures { Puts found result end.old end.new }
{
    match found {
        Some(place) => {
            *end = place;
            MATCH
        }
        None => NO_MATCH,
    }
}

/// Returns the number of groups, with group 0, or 0 if there is no regex.
#[unsafe(no_mangle)]
pub extern "C" fn bites_captures_len(alloc: Global, regex: &mut Bites) -> usize
    ensures { ReadsHandle regex.old.held regex.new.held (result ≡ 0) (λ h. result ≡ length h.regex.names) }
{
    let Some(held) = regex.take(alloc) else {
        return 0;
    };
    let len = held.regex.captures_len();
    *regex = Bites::of(held);
    len
}

/// Returns a lower bound on the number of groups that participate in any match, with group 0. Returns 0 if the form of
/// the pattern gives none, or if there is no regex.
#[unsafe(no_mangle)]
pub extern "C" fn bites_static_captures_len(alloc: Global, regex: &mut Bites) -> usize
    ensures { ReadsHandle regex.old.held regex.new.held (result ≡ 0) (λ h.
        result ≡ unwrap_or (static_captures_len h.regex.tree) 0) }
{
    let Some(held) = regex.take(alloc) else {
        return 0;
    };
    let len = held.regex.static_captures_len();
    *regex = Bites::of(held);
    len.unwrap_or(0)
}

/// Returns the version of this library: 65536 times the major number plus 256 times the minor number plus the patch
/// number.
#[unsafe(no_mangle)]
pub extern "C" fn bites_version() -> u32
    ensures { result ≡ 0x00_0106 }
{
    0x00_0106
}
