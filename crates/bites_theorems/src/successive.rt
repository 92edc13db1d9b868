//! The successive matches, the pieces between them, and the haystack with all of them replaced.
//!
//! `as_str` is called for its contract, which says that the regex is compiled. The laws of its results require that.

ghost use Rattle.std.specs.Prelude.{◌≡◌, Some, map, option_map, IfOk};
ghost use Rattle.std.specs.Cow.{cow_slice_items, cow_str_bytes};
ghost use Rattle.bites_spec.specs.Pieces.{joined_by};
ghost use Rattle.bites_spec.specs.Captured.{text_of};
ghost use Rattle.bites_bytes.specs.Matched as bytes;
ghost use Rattle.regex_bites.specs.Matched as texts;
ghost use Rattle.bites_theorems.specs.OnTree.{AreInTurn};

/// Over byte strings.
pub mod over_bytes {
    use regex_bites::bytes::{Match, NoExpand, Regex};
    use std::alloc::{AllocError, Global};
    use std::borrow::CowSlice;

    /// Returns all matches, and group 0 of the groups of all matches: they are the same.
    pub fn matches_and_groups_0<'h>(
        alloc: Global,
        regex: &Regex,
        haystack: &'h [u8],
    ) -> Result<(Vec<Match<'h>>, Vec<Option<Match<'h>>>), AllocError>
        ensures { IfOk result (λ r. map (option_map bytes.excerpt_of) r.1.items
            ≡ map (λ m. Some (bytes.excerpt_of m)) r.0.items) }
    {
        // For proofs: the contract of `as_str` says that the regex is compiled, here and below.
        regex.as_str();
        let matches = regex.find_iter(haystack)?.collect(alloc)?;
        let mut wholes = Vec::new(alloc);
        for captures in regex.captures_iter(haystack)? {
            wholes.push(captures?.get(0))?;
        }
        Ok((matches, wholes))
    }

    /// Returns all matches, and the pieces between them. There is one piece more than there are matches, and pieces and
    /// matches in turn are the haystack.
    pub fn matches_and_pieces<'h>(
        alloc: Global,
        regex: &Regex,
        haystack: &'h [u8],
    ) -> Result<(Vec<Match<'h>>, Vec<&'h [u8]>), AllocError>
        ensures { IfOk result (λ r. AreInTurn haystack.now (map (λ p. p.now) r.1.items)
            (map (λ m. text_of (bytes.excerpt_of m)) r.0.items)) }
    {
        regex.as_str();
        let matches = regex.find_iter(haystack)?.collect(alloc)?;
        let pieces = regex.split(haystack)?.collect(alloc)?;
        Ok((matches, pieces))
    }

    /// Returns the haystack with each match replaced by a text, and the pieces between the matches. The first is the
    /// pieces joined by the text.
    pub fn replaced_and_pieces<'h>(
        alloc: Global,
        regex: &Regex,
        haystack: &'h [u8],
        text: &[u8],
    ) -> Result<(CowSlice<'h, u8>, Vec<&'h [u8]>), AllocError>
        ensures { IfOk result
            (λ r. cow_slice_items r.0 ≡ joined_by text.now (map (λ p. p.now) r.1.items)) }
    {
        regex.as_str();
        let pieces = regex.split(haystack)?.collect(alloc)?;
        let replaced = regex.replace_all(haystack, NoExpand(text))?;
        Ok((replaced, pieces))
    }
}

/// Over texts.
pub mod over_texts {
    use regex_bites::{Match, NoExpand, Regex};
    use std::alloc::{AllocError, Global};
    use std::borrow::CowStr;

    /// Returns all matches, and group 0 of the groups of all matches: they are the same.
    pub fn matches_and_groups_0<'h>(
        alloc: Global,
        regex: &Regex,
        haystack: &'h str,
    ) -> Result<(Vec<Match<'h>>, Vec<Option<Match<'h>>>), AllocError>
        ensures { IfOk result (λ r. map (option_map texts.excerpt_of) r.1.items
            ≡ map (λ m. Some (texts.excerpt_of m)) r.0.items) }
    {
        // For proofs: the contract of `as_str` says that the regex is compiled, here and below.
        regex.as_str();
        let matches = regex.find_iter(haystack)?.collect(alloc)?;
        let mut wholes = Vec::new(alloc);
        for captures in regex.captures_iter(haystack)? {
            wholes.push(captures?.get(0))?;
        }
        Ok((matches, wholes))
    }

    /// Returns all matches, and the pieces between them. There is one piece more than there are matches, and pieces and
    /// matches in turn are the haystack.
    pub fn matches_and_pieces<'h>(
        alloc: Global,
        regex: &Regex,
        haystack: &'h str,
    ) -> Result<(Vec<Match<'h>>, Vec<&'h str>), AllocError>
        ensures { IfOk result (λ r. AreInTurn haystack.now (map (λ p. p.now) r.1.items)
            (map (λ m. text_of (texts.excerpt_of m)) r.0.items)) }
    {
        regex.as_str();
        let matches = regex.find_iter(haystack)?.collect(alloc)?;
        let pieces = regex.split(haystack)?.collect(alloc)?;
        Ok((matches, pieces))
    }

    /// Returns the haystack with each match replaced by a text, and the pieces between the matches. The first is the
    /// pieces joined by the text.
    pub fn replaced_and_pieces<'h>(
        alloc: Global,
        regex: &Regex,
        haystack: &'h str,
        text: &str,
    ) -> Result<(CowStr<'h>, Vec<&'h str>), AllocError>
        ensures { IfOk result
            (λ r. cow_str_bytes r.0 ≡ joined_by text.now (map (λ p. p.now) r.1.items)) }
    {
        regex.as_str();
        let pieces = regex.split(haystack)?.collect(alloc)?;
        let replaced = regex.replace_all(haystack, NoExpand(text))?;
        Ok((replaced, pieces))
    }
}
