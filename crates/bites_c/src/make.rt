//! Making what C holds.

ghost use Rattle.std.specs.Prelude.{◌≡◌, ◌≢◌, ◌↔◌, IfOk, IfErr, IfSome, IsSomeAnd, IsUtf8, MatchOption, chars};
ghost use Rattle.std.specs.declared.option.Option.TheVariants.{Some};
ghost use Rattle.bites_spec.specs.Counts.{fit_of};
ghost use Rattle.bites_spec.specs.Measure.{Limits};
ghost use Rattle.bites_spec.specs.Tree.{Tree};
ghost use Rattle.bites_syntax.specs.Placed.{RefusesAt};
ghost use Rattle.bites_text.specs.declared.error.Error.{Error as Fault};
ghost use Rattle.bites_text.specs.declared.error.Error.TheVariants.{Memory};
ghost use Rattle.bites_bytes.specs.Settings.{Refuses};
ghost use Rattle.bites_text.specs.Texts.{code_of};
ghost use Rattle.bites_c.specs.Codes.{done, not_utf8};
ghost use Rattle.bites_c.specs.Made.{IsMadeBy, IsPrepared};
ghost use Rattle.bites_c.specs.Words.{asked, flags_in, text_in};

use crate::cache::BitesCache;
use crate::codes::{NO_MEMORY, NOT_UTF8};
use crate::held::Held;
use crate::regex::Bites;
use crate::room::Room;
use bites_bytes::bytes::{Regex, RegexBuilder, SyntaxError};
use bites_text::error::{Error, number};
use std::alloc::{AllocError, Global};

/// Compiles the pattern, and returns a handle of the regex. The error is the number for C.
pub(crate) fn regex(
    alloc: Global,
    pattern: &[u8],
    flags: u32,
    size_limit: usize,
    nest_limit: u32,
) -> Result<Bites, u32>
    ensures made { IfOk result (λ b. IsSomeAnd b.held (λ h.
        IsMadeBy (asked pattern.now flags size_limit nest_limit) h.regex × (h.is_text ≡ text_in flags))) }
    ensures refused { IfErr result (λ n. n ≢ done) }
    ensures known { IfErr result (λ n. n ≢ not_utf8 → (e : Fault) × (n ≡ code_of e)) }
    ensures message { IfErr result (λ n. (e : Fault) → n ≡ code_of e → e ≢ Memory →
        Refuses (asked pattern.now flags size_limit nest_limit) e) }
    ensures text { IfOk result (λ _. IsUtf8 pattern.now) }
    ensures utf8 { IfErr result (λ n. n ≡ not_utf8 ↔ (IsUtf8 pattern.now → ⊥)) }
{
    let Ok(text) = str::from_utf8(pattern) else {
        return Err(NOT_UTF8);
    };
    match build(alloc, text, flags, size_limit, nest_limit) {
        Ok(regex) => match boxed(alloc, regex, flags & 256 != 0) {
            Some(handle) => Ok(handle),
            None => Err(NO_MEMORY),
        },
        Err(error) => Err(number(error)),
    }
}

fn build(
    alloc: Global,
    pattern: &str,
    flags: u32,
    size_limit: usize,
    nest_limit: u32,
) -> Result<Regex, Error>
    ensures made { IfOk result (IsMadeBy (asked pattern.now flags size_limit nest_limit)) }
    ensures message { IfErr result (λ e. e ≢ Memory →
        Refuses (asked pattern.now flags size_limit nest_limit) e) }
{
    configured(alloc, pattern, flags, size_limit, nest_limit)?.into_regex()
}

/// Returns where the pattern is refused, if the grammar refuses it. The error is out of memory.
pub(crate) fn syntax_error(
    alloc: Global,
    pattern: &str,
    flags: u32,
    nest_limit: u32,
) -> Result<Option<SyntaxError>, AllocError>
    ensures { IfOk result (λ found. MatchOption found
        ((t : Tree) × Limits (chars pattern.now) (flags_in flags) nest_limit t)
        (RefusesAt (chars pattern.now) (flags_in flags) nest_limit)) }
{
    let Ok(builder) = configured(alloc, pattern, flags, 0, nest_limit) else {
        return Err(AllocError);
    };
    builder.syntax_error()
}

fn configured(
    alloc: Global,
    pattern: &str,
    flags: u32,
    size_limit: usize,
    nest_limit: u32,
) -> Result<RegexBuilder, Error>
    ensures made { IfOk result (λ b. b ≡ asked pattern.now flags size_limit nest_limit) }
    ensures refused { IfErr result (λ e. e ≡ Memory) }
{
    let mut builder = RegexBuilder::new(alloc, pattern)?;
    builder.case_insensitive(flags & 1 != 0);
    builder.multi_line(flags & 2 != 0);
    builder.dot_matches_new_line(flags & 4 != 0);
    builder.crlf(flags & 8 != 0);
    builder.swap_greed(flags & 16 != 0);
    builder.ignore_whitespace(flags & 32 != 0);
    builder.leftmost_longest(flags & 64 != 0);
    builder.keep_dropped_groups(flags & 128 != 0);
    builder.size_limit(size_limit);
    builder.nest_limit(nest_limit);
    builder.dfa_size_limit(0);
    Ok(builder)
}

/// Returns a handle of a regex that shares the program of this one, or `None` for out of memory.
pub(crate) fn copy(alloc: Global, held: &Held) -> Option<Bites>
    ensures { IfSome result (λ b. b.held ≡ Some held.now) }
{
    match held.regex.clone() {
        Ok(regex) => boxed(alloc, regex, held.is_text),
        Err(_) => None,
    }
}

/// Returns a handle of the same regex with a table of at most so many bytes, or `None` for out of memory. The table has thread
/// lists for searches at one offset if they are asked for. If there is no memory for the table, the regex has none. Its
/// searches look for a literal first.
pub(crate) fn prepared(
    alloc: Global,
    held: &Held,
    dfa_size_limit: usize,
    anchored: bool,
) -> Option<Bites>
    ensures { IfSome result (λ b. IsSomeAnd b.held (IsPrepared dfa_size_limit held.now)) }
{
    let regex = if anchored {
        held.regex.prepared(dfa_size_limit, true)
    } else {
        held.regex.prepared_unanchored(dfa_size_limit, true)
    };
    match regex {
        Ok(regex) => boxed(alloc, regex, held.is_text),
        Err(_) => None,
    }
}

// Returns a handle of this regex, or `None` for out of memory.
fn boxed(alloc: Global, regex: Regex, is_text: bool) -> Option<Bites>
    ensures { IfSome result (λ b. IsSomeAnd b.held (λ h. (h.regex ≡ regex) × (h.is_text ≡ is_text))) }
{
    match Box::new(alloc, Held { regex, is_text }) {
        Ok(boxed) => Some(Bites::of(boxed)),
        Err(_) => None,
    }
}

/// Returns a handle of room for searches with this regex, or `None` for out of memory.
pub(crate) fn room(alloc: Global, regex: &Regex) -> Option<BitesCache>
    ensures { IfSome result (λ c. IsSomeAnd c.room (λ r. r.fits ≡ fit_of regex.now.program)) }
{
    match Room::new(regex) {
        Ok(room) => match Box::new(alloc, room) {
            Ok(boxed) => Some(BitesCache::of(boxed)),
            Err(_) => None,
        },
        Err(_) => None,
    }
}
