//! The texts of the groups of a match that is a whole text.

ghost use Rattle.std.specs.Prelude.{◌≡◌, ◌+◌, length, map, IfOk};
ghost use Rattle.bites_filter.specs.Parts.{HasGroups, Extracts, ExtractsBytes};

use regex_bites::Searcher;
use std::alloc::AllocError;
use std::str;

/// Fills `parts` with the texts of groups 1, 2 and so on of a match that is the whole haystack. Returns whether there is
/// one. All groups must participate in every match, and `parts` must have room for each but group 0.
///
/// The error is out of memory.
pub fn extract_full<'h>(
    searcher: &mut Searcher,
    haystack: &'h str,
    parts: &mut [&'h str],
) -> Result<bool, AllocError>
    requires { HasGroups searcher.old (length parts.old + 1) }
    ensures found { IfOk result (λ found.
        Extracts searcher.old.tree haystack.now found (map (λ part. part.now) parts.new)) }
    ensures same { searcher.new ≡ searcher.old }
{
    // For proofs: the names of the groups are those that are left, and as many of them participate as the tree says.
    bites_spec::each_participates();
    searcher.regex().capture_names();
    let Some(captures) = searcher.captures_full(haystack)? else {
        return Ok(false);
    };
    captures.len();
    for k in 0..parts.len() {
        parts[k] = captures.part(k + 1);
    }
    Ok(true)
}

/// Like [`extract_full`], but takes bytes. Bytes that are not UTF-8 don't match.
pub fn extract_full_bytes<'h>(
    searcher: &mut Searcher,
    haystack: &'h [u8],
    parts: &mut [&'h str],
) -> Result<bool, AllocError>
    requires { HasGroups searcher.old (length parts.old + 1) }
    ensures found { IfOk result (λ found.
        ExtractsBytes searcher.old.tree haystack.now found (map (λ part. part.now) parts.new)) }
    ensures same { searcher.new ≡ searcher.old }
{
    match str::from_utf8(haystack) {
        Ok(text) => extract_full(searcher, text, parts),
        Err(_) => Ok(false),
    }
}
