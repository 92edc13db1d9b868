//! Making a set for C.

ghost use Rattle.std.specs.Prelude.{◌≡◌, ◌≢◌, length, map, IfOk, IfErr, IfSome, IsSomeAnd};
ghost use Rattle.std.specs.declared.option.Option.TheVariants.{Some};
ghost use Rattle.bites_spec.specs.Set.{AreBuilt};
ghost use Rattle.bites_text.specs.declared.error.Error.{Error as Fault};
ghost use Rattle.bites_text.specs.declared.error.Error.TheVariants.{Memory};
ghost use Rattle.bites_text.specs.Texts.{code_of};
ghost use Rattle.bites_bytes.specs.Set.{IsRefused, refusal};
ghost use Rattle.bites_c.specs.Codes.{bad_span, done, not_utf8};
ghost use Rattle.bites_c.specs.Sets.{AreEnds, IsPreparedSet, RefusesCut, cut_from, set_asked};
ghost use Rattle.bites_c.specs.Words.{text_in};

use crate::codes::{BAD_SPAN, NO_MEMORY, NOT_UTF8};
use crate::held_set::HeldSet;
use crate::set::BitesSet;
use crate::text::BitesSize;
use bites_bytes::bytes::{RegexSet, RegexSetBuilder, SetError};
use bites_text::error::number;
use std::alloc::Global;

/// Compiles the patterns, and returns a handle of the set. The error has the number for C as its code, and the number
/// of the pattern that it is about as its size.
pub(crate) fn set(
    alloc: Global,
    patterns: &[u8],
    ends: &[usize],
    flags: u32,
    size_limit: usize,
    nest_limit: u32,
) -> Result<BitesSet, BitesSize>
    ensures made { IfOk result (λ b. AreEnds (length patterns.now) 0 ends.now × IsSomeAnd b.held (λ h.
        AreBuilt (set_asked (cut_from patterns.now 0 ends.now) flags size_limit nest_limit) h.regexes
        × (h.is_text ≡ text_in flags))) }
    ensures refused { IfErr result (λ a. a.code ≢ done) }
    ensures known { IfErr result (λ a. a.code ≢ not_utf8 → a.code ≢ bad_span → (e : Fault) × (a.code ≡ code_of e)) }
    ensures message { IfErr result (λ a. (e : Fault) → a.code ≡ code_of e → e ≢ Memory →
        IsRefused (set_asked (cut_from patterns.now 0 ends.now) flags size_limit nest_limit) (refusal a.size e)) }
    ensures cut { IfErr result (λ a. RefusesCut patterns.now ends.now a.code a.size) }
{
    let texts = match cut(alloc, patterns, ends) {
        Ok(texts) => texts,
        Err(answer) => return Err(answer),
    };
    let set = match build(alloc, texts.as_slice(), flags, size_limit, nest_limit) {
        Ok(set) => set,
        Err(error) => {
            return Err(BitesSize {
                code: number(error.error()),
                size: error.index(),
            });
        }
    };
    match held(alloc, set, flags & 256 != 0) {
        Some(made) => Ok(made),
        None => Err(BitesSize::refused(NO_MEMORY)),
    }
}

// Returns the patterns that stand one after another. The error has the number for C as its code, and the number of the
// pattern that it is about as its size.
fn cut<'p>(alloc: Global, patterns: &'p [u8], ends: &[usize]) -> Result<Vec<&'p str>, BitesSize>
    ensures cut { IfOk result (λ v. AreEnds (length patterns.now) 0 ends.now
        × (map (λ p. p.now) v.items ≡ cut_from patterns.now 0 ends.now)) }
    ensures refused { IfErr result (λ a. RefusesCut patterns.now ends.now a.code a.size
        × (a.code ≢ not_utf8 → a.code ≢ bad_span → a.code ≡ code_of Memory)) }
{
    let mut texts = Vec::new(alloc);
    let mut start = 0;
    for (size, end) in ends.iter().enumerate() {
        if *end < start || patterns.len() < *end {
            return Err(BitesSize {
                code: BAD_SPAN,
                size,
            });
        }
        let Ok(text) = str::from_utf8(&patterns[start..*end]) else {
            return Err(BitesSize {
                code: NOT_UTF8,
                size,
            });
        };
        if let Err(_) = texts.push(text) {
            return Err(BitesSize {
                code: NO_MEMORY,
                size,
            });
        }
        start = *end;
    }
    Ok(texts)
}

// Builds a set under the settings that the flags and limits ask for.
fn build(
    alloc: Global,
    patterns: &[&str],
    flags: u32,
    size_limit: usize,
    nest_limit: u32,
) -> Result<RegexSet, SetError>
    ensures built { IfOk result (AreBuilt (set_asked (map (λ p. p.now) patterns.now) flags size_limit nest_limit)) }
    ensures refused { IfErr result (λ e. e.error ≢ Memory →
        IsRefused (set_asked (map (λ p. p.now) patterns.now) flags size_limit nest_limit) e) }
{
    configured(alloc, patterns, flags, size_limit, nest_limit)?.build()
}

fn configured(
    alloc: Global,
    patterns: &[&str],
    flags: u32,
    size_limit: usize,
    nest_limit: u32,
) -> Result<RegexSetBuilder, SetError>
    ensures made { IfOk result (λ b. b ≡ set_asked (map (λ p. p.now) patterns.now) flags size_limit nest_limit) }
    ensures refused { IfErr result (λ e. e.error ≡ Memory) }
{
    let mut builder = RegexSetBuilder::new(alloc, patterns)?;
    builder.case_insensitive(flags & 1 != 0);
    builder.multi_line(flags & 2 != 0);
    builder.dot_matches_new_line(flags & 4 != 0);
    builder.crlf(flags & 8 != 0);
    builder.swap_greed(flags & 16 != 0);
    builder.ignore_whitespace(flags & 32 != 0);
    builder.leftmost_longest(flags & 64 != 0);
    builder.keep_dropped_groups(flags & 128 != 0);
    builder.size_limit(size_limit);
    builder.nest_limit(nest_limit);
    builder.dfa_size_limit(0);
    Ok(builder)
}

// Returns a handle of this set, or `None` for out of memory.
fn held(alloc: Global, set: RegexSet, is_text: bool) -> Option<BitesSet>
    ensures { IfSome result (λ b. IsSomeAnd b.held (λ h. (h.regexes ≡ set) × (h.is_text ≡ is_text))) }
{
    match HeldSet::new(alloc, set, is_text) {
        Ok(held) => boxed(alloc, held),
        Err(_) => None,
    }
}

/// Returns a handle of a set that shares the programs of this one, or `None` for out of memory.
pub(crate) fn copy(alloc: Global, held: &HeldSet) -> Option<BitesSet>
    ensures { IfSome result (λ b. b.held ≡ Some held.now) }
{
    match held.copy(alloc) {
        Ok(held) => boxed(alloc, held),
        Err(_) => None,
    }
}

/// Returns a handle of the same set with tables of at most so many bytes together, or `None` for out of memory. A pattern
/// has no table if there is no memory for it.
pub(crate) fn prepared(alloc: Global, held: &HeldSet, dfa_size_limit: usize) -> Option<BitesSet>
    ensures { IfSome result (λ b. IsSomeAnd b.held (IsPreparedSet dfa_size_limit held.now)) }
{
    match held.prepared(alloc, dfa_size_limit) {
        Ok(held) => boxed(alloc, held),
        Err(_) => None,
    }
}

fn boxed(alloc: Global, held: HeldSet) -> Option<BitesSet>
    ensures { IfSome result (λ b. b.held ≡ Some held) }
{
    match Box::new(alloc, held) {
        Ok(boxed) => Some(BitesSet::of(boxed)),
        Err(_) => None,
    }
}
