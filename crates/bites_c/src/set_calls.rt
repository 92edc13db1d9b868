//! The exports about sets.

ghost use Rattle.std.specs.Prelude.{◌≡◌, ◌≢◌, false, IsSomeAnd, length, ⊤};
ghost use Rattle.std.specs.declared.option.Option.TheVariants.{None};
ghost use Rattle.bites_spec.specs.Set.{AreBuilt, HasMatchOfAny};
ghost use Rattle.bites_spec.specs.Utf8.{places};
ghost use Rattle.bites_text.specs.declared.error.Error.{Error as Fault};
ghost use Rattle.bites_text.specs.declared.error.Error.TheVariants.{Memory};
ghost use Rattle.bites_text.specs.Texts.{code_of};
ghost use Rattle.bites_bytes.specs.Set.{IsRefused, has_any_table, refusal};
ghost use Rattle.bites_c.specs.Codes.{bad_span, done, not_utf8, empty_handle};
ghost use Rattle.bites_c.specs.Handles.{MakesHandle, ReadsHandle};
ghost use Rattle.bites_c.specs.Put.{no_table};
ghost use Rattle.bites_c.specs.Searched.{AnswersIf};
ghost use Rattle.bites_c.specs.Sets.{AreEnds, IsPreparedSet, PutsMatchedIn, RefusesCut, SearchedSet, cut_from, set_asked};
ghost use Rattle.bites_c.specs.Words.{text_in};

use crate::codes::{DONE, EMPTY_HANDLE, MATCH, NO_MATCH, NO_MEMORY};
use crate::handle::ForC;
use crate::make_set;
use crate::set::BitesSet;
use crate::table::BitesTable;
use crate::text::BitesSize;
use crate::texts::fault_from;
use std::alloc::Global;

/// Compiles a set of patterns, and puts the set into `out` instead of the one that it held.
///
/// The patterns stand one after another in `patterns`. `ends` has for each pattern the offset where it ends; the next
/// one begins there, and the first at 0. Flags and limits are those of `bites_new`, for each of the patterns.
///
/// The code is 0, 1 to 57 for the message that refuses a pattern, 58 for out of memory, 102 if a pattern is not UTF-8,
/// or 107 if an offset is below the one before it or past the end of `patterns`. The size is the number of patterns, or
/// else the number of the first pattern that the code is about, counted from 0. Unless the code is 0, `out` holds
/// nothing.
#[unsafe(no_mangle)]
pub extern "C" fn bites_set_new(
    alloc: Global,
    patterns: &[u8],
    ends: &[usize],
    flags: u32,
    size_limit: usize,
    nest_limit: u32,
    out: &mut BitesSet,
) -> BitesSize
    ensures made { result.code ≡ done → IsSomeAnd out.new.held (λ h.
        AreBuilt (set_asked (cut_from patterns.now 0 ends.now) flags size_limit nest_limit) h.regexes
        × (h.is_text ≡ text_in flags)) }
    ensures size { result.code ≡ done → result.size ≡ length ends.now }
    ensures ends { result.code ≡ done → AreEnds (length patterns.now) 0 ends.now }
    ensures refused { result.code ≢ done → out.new.held ≡ None }
    ensures known { result.code ≢ done → result.code ≢ not_utf8 → result.code ≢ bad_span →
        (e : Fault) × (result.code ≡ code_of e) }
    ensures message { (e : Fault) → result.code ≡ code_of e → e ≢ Memory →
        IsRefused (set_asked (cut_from patterns.now 0 ends.now) flags size_limit nest_limit) (refusal result.size e) }
    ensures cut { RefusesCut patterns.now ends.now result.code result.size }
{
    *out = BitesSet::empty(alloc);
    match make_set::set(alloc, patterns, ends, flags, size_limit, nest_limit) {
        Ok(made) => {
            *out = made;
            BitesSize {
                code: DONE,
                size: ends.len(),
            }
        }
        Err(answer) => answer,
    }
}

/// Frees the set, if there is one.
#[unsafe(no_mangle)]
pub extern "C" fn bites_set_free(alloc: Global, set: &mut BitesSet)
    ensures { set.new.held ≡ None }
{
    *set = BitesSet::empty(alloc);
}

/// Puts a set that shares the programs of `set` into `out`, instead of the one that it held. The copy has memory of its
/// own for searches.
///
/// Returns 0, 58 for out of memory, or 103 if `set` holds nothing. Unless it returns 0, `out` holds nothing.
#[unsafe(no_mangle)]
pub extern "C" fn bites_set_clone(alloc: Global, set: &mut BitesSet, out: &mut BitesSet) -> u32
    ensures { MakesHandle set.old.held set.new.held out.new.held result (λ h copy. copy ≡ h) }
{
    *out = BitesSet::empty(alloc);
    let Some(source) = set.take(alloc) else {
        return EMPTY_HANDLE;
    };
    let copy = make_set::copy(alloc, &source);
    *set = BitesSet::of(source);
    match copy {
        Some(made) => {
            *out = made;
            DONE
        }
        None => NO_MEMORY,
    }
}

/// Puts the set into `out` with tables of at most so many bytes together, which its searches use, instead of the set that
/// `out` held. Each pattern's table may take what those of the patterns before it leave. Searches of a pattern look for a
/// literal first, if each of its matches holds one. Both sets share the programs.
///
/// Returns 0, also if there was no memory for a table, 58 for out of memory for the handle and what it holds, or 103 if
/// `set` holds nothing. Unless it returns 0, `out` holds nothing.
#[unsafe(no_mangle)]
pub extern "C" fn bites_set_prepare(
    alloc: Global,
    set: &mut BitesSet,
    dfa_size_limit: usize,
    out: &mut BitesSet,
) -> u32
    ensures { MakesHandle set.old.held set.new.held out.new.held result (IsPreparedSet dfa_size_limit) }
{
    *out = BitesSet::empty(alloc);
    let Some(held) = set.take(alloc) else {
        return EMPTY_HANDLE;
    };
    let made = make_set::prepared(alloc, &held, dfa_size_limit);
    *set = BitesSet::of(held);
    match made {
        Some(made) => {
            *out = made;
            DONE
        }
        None => NO_MEMORY,
    }
}

/// Puts how large the tables of all patterns are together into `out`; it is all zeros if there are none. They are whole if
/// each pattern has a table and each transition of each table is known.
///
/// Returns 0, or 103 if `set` holds nothing. Then `out` is unchanged.
#[unsafe(no_mangle)]
pub extern "C" fn bites_set_table_size(
    alloc: Global,
    set: &mut BitesSet,
    out: &mut BitesTable,
) -> u32
    ensures { ReadsHandle set.old.held set.new.held ((result ≡ empty_handle) × (out.new ≡ out.old)) (λ h.
        (result ≡ done) × (has_any_table h.regexes ≡ false → out.new ≡ no_table)) }
{
    let Some(held) = set.take(alloc) else {
        return EMPTY_HANDLE;
    };
    let size = BitesTable::of(held.table_size());
    *set = BitesSet::of(held);
    *out = size;
    DONE
}

/// Returns the number of patterns as the size, with code 0, or the code 103 if `set` holds nothing.
#[unsafe(no_mangle)]
pub extern "C" fn bites_set_len(alloc: Global, set: &mut BitesSet) -> BitesSize
    ensures { ReadsHandle set.old.held set.new.held ((result.code ≡ empty_handle) × (result.size ≡ 0)) (λ h.
        (result.code ≡ done) × (result.size ≡ length h.regexes)) }
{
    let Some(held) = set.take(alloc) else {
        return BitesSize::refused(EMPTY_HANDLE);
    };
    let size = held.len();
    *set = BitesSet::of(held);
    BitesSize { code: DONE, size }
}

/// Returns whether any pattern matches at or after `start`. Past the end nothing matches. It allocates nothing.
#[unsafe(no_mangle)]
pub extern "C" fn bites_set_is_match_at(
    alloc: Global,
    set: &mut BitesSet,
    haystack: &[u8],
    start: usize,
) -> u32
    ensures { SearchedSet haystack.now start set.old.held set.new.held result ⊤ (λ rs.
        AnswersIf result (HasMatchOfAny rs haystack.now (places haystack.now start))) }
{
    let Some(mut held) = set.take(alloc) else {
        return EMPTY_HANDLE;
    };
    if let Some(code) = fault_from(held.is_text(), haystack, start) {
        *set = BitesSet::of(held);
        return code;
    }
    let found = held.is_match(haystack, start);
    *set = BitesSet::of(held);
    if found { MATCH } else { NO_MATCH }
}

/// Puts for each pattern 1 into a byte of `matched` if it matches at or after `start`, and 0 if not. It allocates
/// nothing.
///
/// The code is 100 if any pattern matches, else 101. The size is the number of patterns. If `matched` has fewer bytes,
/// the code is 105, and `matched` is unchanged.
#[unsafe(no_mangle)]
pub extern "C" fn bites_set_matches_at(
    alloc: Global,
    set: &mut BitesSet,
    haystack: &[u8],
    start: usize,
    matched: &mut [u8],
) -> BitesSize
    ensures { SearchedSet haystack.now start set.old.held set.new.held result.code
        ((result.size ≡ 0) × (matched.new ≡ matched.old)) (λ rs. (result.size ≡ length rs)
        × PutsMatchedIn rs haystack.now (places haystack.now start) result.code matched.old matched.new) }
{
    let Some(mut held) = set.take(alloc) else {
        return BitesSize::refused(EMPTY_HANDLE);
    };
    if let Some(code) = fault_from(held.is_text(), haystack, start) {
        *set = BitesSet::of(held);
        return BitesSize::refused(code);
    }
    let answer = held.matches(haystack, start, matched);
    *set = BitesSet::of(held);
    answer
}
