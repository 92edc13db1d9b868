//! The exports that write a text, or read the names of groups.

ghost use Rattle.std.specs.Prelude.{◌≡◌, ◌≢◌, ◌++◌, drop, length, slice_index_or, take};
ghost use Rattle.std.specs.declared.option.Option.TheVariants.{None};
ghost use Rattle.bites_spec.specs.Expansion.{index_in};
ghost use Rattle.bites_spec.specs.Iteration.{captures_in};
ghost use Rattle.bites_text.specs.Texts.{code_of, error_text};
ghost use Rattle.bites_text.specs.declared.error.Error.{Error as Fault};
ghost use Rattle.bites_c.specs.Codes.{answer_text, empty_handle};
ghost use Rattle.bites_c.specs.Handles.{ReadsHandle};
ghost use Rattle.bites_c.specs.Put.{ReturnsIndex, PutsMade, PutsName, PutsNone, PutsReplaced, with_nul};
ghost use Rattle.bites_c.specs.Replaced.{PutsEscaped, expanded_by, with_template, with_text};
ghost use Rattle.bites_c.specs.Searched.{SearchedOver};
ghost use Rattle.bites_c.specs.Texts.{AsksGroups};

use crate::cache::BitesCache;
use crate::codes::EMPTY_HANDLE;
use crate::handle::ForC;
use crate::regex::Bites;
use crate::span::BitesSpan;
use crate::text::BitesSize;
use crate::{codes, replace, search, text};
use std::alloc::Global;

/// Puts the name of group number `group` into the first bytes of `out`, in UTF-8.
///
/// The code is 0, 105 if the name does not fit, 106 if the group has no name or there is no such group, or 103 if there
/// is no regex. For 0 and 105 the size is the length of the name in bytes. Unless the code is 0, `out` is unchanged.
#[unsafe(no_mangle)]
pub extern "C" fn bites_group_name(
    alloc: Global,
    regex: &mut Bites,
    group: usize,
    out: &mut [u8],
) -> BitesSize
    ensures { ReadsHandle regex.old.held regex.new.held (PutsNone empty_handle result out.old out.new) (λ h.
        PutsName (slice_index_or h.regex.names group None) result out.old out.new) }
{
    let Some(held) = regex.take(alloc) else {
        return BitesSize::refused(EMPTY_HANDLE);
    };
    let answer = text::put_name(&held.regex, group, out);
    *regex = Bites::of(held);
    answer
}

/// Finds the number of the group of this name. The code is 0, and the size is that number. Else the code is 106 if no
/// group has the name, or 103 if there is no regex.
#[unsafe(no_mangle)]
pub extern "C" fn bites_group_index(alloc: Global, regex: &mut Bites, name: &[u8]) -> BitesSize
    ensures { ReadsHandle regex.old.held regex.new.held ((result.code ≡ empty_handle) × (result.size ≡ 0)) (λ h.
        ReturnsIndex (index_in h.regex.names name.now) result) }
{
    let Some(held) = regex.take(alloc) else {
        return BitesSize::refused(EMPTY_HANDLE);
    };
    let answer = text::answer_index(&held.regex, name);
    *regex = Bites::of(held);
    answer
}

/// Puts the pattern in which each character of the text stands for itself into the first bytes of `out`, in UTF-8.
///
/// The code is 0, 105 if the pattern does not fit, 102 if the text is not UTF-8, or 58 for out of memory. For 0 and 105
/// the size is the length of the pattern in bytes. Unless the code is 0, `out` is unchanged.
#[unsafe(no_mangle)]
pub extern "C" fn bites_escape(alloc: Global, text: &[u8], out: &mut [u8]) -> BitesSize
    ensures { PutsEscaped text.now result out.old out.new }
{
    text::put_escaped(alloc, text, out)
}

/// Puts the haystack into the first bytes of `out`, with its first `limit` matches, or all for 0, replaced by what the
/// template stands for.
///
/// The code is 100 if a match was replaced. It is 101 if nothing matches, and then the haystack itself is the text, and
/// the size is its length. It is 105 if the text does not fit. For 100 and 105 the size is the length of the text in
/// bytes. The code is 58 for out of memory. The handles are checked first, as for a search. Over texts the code is then
/// 102 if the haystack or the template is not UTF-8. Unless the code is 100, `out` is unchanged.
#[unsafe(no_mangle)]
pub extern "C" fn bites_replace(
    alloc: Global,
    regex: &mut Bites,
    cache: &mut BitesCache,
    haystack: &[u8],
    limit: usize,
    template: &[u8],
    out: &mut [u8],
) -> BitesSize
    ensures { SearchedOver haystack.now template.now regex.old regex.new cache.old cache.new result.code
        ((result.size ≡ 0) × (out.new ≡ out.old)) (λ r.
        PutsReplaced (captures_in r haystack.now) (length haystack.now) (with_template r haystack.now limit template.now)
        result out.old out.new) }
{
    match search::begin_over(alloc, regex, cache, haystack, template) {
        Ok(mut search) => {
            let answer = search.replace(alloc, haystack, limit, template, out);
            search.end(regex, cache);
            answer
        }
        Err(code) => BitesSize::refused(code),
    }
}

/// Like [`bites_replace`], but each match is replaced by the text. A `$` in it stands for itself.
#[unsafe(no_mangle)]
pub extern "C" fn bites_replace_literal(
    alloc: Global,
    regex: &mut Bites,
    cache: &mut BitesCache,
    haystack: &[u8],
    limit: usize,
    text: &[u8],
    out: &mut [u8],
) -> BitesSize
    ensures { SearchedOver haystack.now text.now regex.old regex.new cache.old cache.new result.code
        ((result.size ≡ 0) × (out.new ≡ out.old)) (λ r.
        PutsReplaced (captures_in r haystack.now) (length haystack.now) (with_text r haystack.now limit text.now)
        result out.old out.new) }
{
    match search::begin_over(alloc, regex, cache, haystack, text) {
        Ok(mut search) => {
            let answer = search.replace_literal(alloc, haystack, limit, text, out);
            search.end(regex, cache);
            answer
        }
        Err(code) => BitesSize::refused(code),
    }
}

/// Puts what the template stands for by these groups into the first bytes of `out`.
///
/// The code is 0, 105 if the text does not fit, 107 if a group does not lie in the haystack, 103 if there is no regex,
/// or 58 for out of memory. For 0 and 105 the size is the length of the text in bytes. Over texts the code is 102 if
/// the haystack or the template is not UTF-8, which comes before 107. It is 108 if a group begins or ends within a
/// character, which comes after 107. Unless the code is 0, `out` is unchanged.
///
/// A group that is the greatest number twice does not participate, and no group after the last of `groups` does.
#[unsafe(no_mangle)]
pub extern "C" fn bites_expand(
    alloc: Global,
    regex: &mut Bites,
    haystack: &[u8],
    groups: &[BitesSpan],
    template: &[u8],
    out: &mut [u8],
) -> BitesSize
    ensures { ReadsHandle regex.old.held regex.new.held (PutsNone empty_handle result out.old out.new) (λ h.
        AsksGroups h.is_text haystack.now groups.now template.now
        (λ number. PutsNone number result out.old out.new)
        (PutsMade (expanded_by h.regex.names groups.now haystack.now template.now) result out.old out.new)) }
{
    let Some(held) = regex.take(alloc) else {
        return BitesSize::refused(EMPTY_HANDLE);
    };
    let answer = replace::put_expanded(alloc, &held, haystack, groups, template, out);
    *regex = Bites::of(held);
    answer
}

/// Puts the message of the number `code`, 1 to 58, into `buf`, as many of its first bytes as fit. Returns the length of
/// the whole message in bytes, or 0 for any other number.
#[unsafe(no_mangle)]
pub extern "C" fn bites_error_text(code: u32, buf: &mut [u8]) -> usize
    ensures len { (e : Fault) → code ≡ code_of e → result ≡ length (error_text e) }
    ensures put { (e : Fault) → code ≡ code_of e →
        buf.new ≡ take (length buf.old) (error_text e) ++ drop (length (error_text e)) buf.old }
    ensures none { ((e : Fault) → code ≢ code_of e) → (result ≡ 0) × (buf.new ≡ buf.old) }
{
    codes::put(codes::text(code).as_bytes(), buf)
}

/// Puts what the number `code` says into `out`, with a NUL after it: the message of an error, 1 to 58, or what a call
/// returned, 100 to 108. Any other number says nothing.
///
/// If `out` is too small, it gets as many of the first bytes as leave room for the NUL. If it has no room, nothing is
/// put. Returns the length of the whole text in bytes, without the NUL.
#[unsafe(no_mangle)]
pub extern "C" fn bites_message(code: u32, out: &mut [u8]) -> usize
    ensures error { (e : Fault) → code ≡ code_of e →
        (result ≡ length (error_text e)) × (out.new ≡ with_nul (error_text e) out.old) }
    ensures answer { ((e : Fault) → code ≢ code_of e) →
        (result ≡ length (answer_text code)) × (out.new ≡ with_nul (answer_text code) out.old) }
{
    codes::put_with_nul(codes::message(code).as_bytes(), out)
}
