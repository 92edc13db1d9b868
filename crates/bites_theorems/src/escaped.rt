//! Texts that are searched for.

ghost use Rattle.std.specs.Prelude.{◌≡◌, ◌≢◌, ◌<◌, chars, option_map, IfOk, IfErr};
ghost use Rattle.bites_spec.specs.Measure.{program_size};
ghost use Rattle.bites_spec.specs.Escaped.{text_tree};
ghost use Rattle.bites_spec.specs.Occurrence.{IsLeftmost};
ghost use Rattle.regex_bites.specs.Matched.{excerpt_of};

use regex_bites::{Error, Match, Regex, escape};
use std::alloc::Global;

/// Builds the regex of an escaped text. Its tree is the characters of the text, one after another.
///
/// The error is that the program of the tree exceeds the default size limit, or out of memory.
pub fn regex_of_text(alloc: Global, text: &str) -> Result<Regex, Error>
    ensures tree { IfOk result (λ r. r.tree ≡ text_tree (chars text.now)) }
    ensures refused { IfErr result (λ e. e ≢ Error.Memory →
        (e ≡ Error.TooBig) × (10485760 < program_size (text_tree (chars text.now)))) }
{
    let pattern = escape(alloc, text)?;
    Regex::new(alloc, &pattern)
}

/// Finds the first occurrence of a text in a haystack.
pub fn find_text<'h>(
    alloc: Global,
    text: &str,
    haystack: &'h str,
) -> Result<Option<Match<'h>>, Error>
    ensures first { IfOk result (λ m. IsLeftmost haystack.now text.now 0
        (option_map (λ x. (excerpt_of x).span) m)) }
    ensures refused { IfErr result (λ e. e ≢ Error.Memory → e ≡ Error.TooBig) }
{
    let regex = regex_of_text(alloc, text)?;
    let found = regex.find(haystack)?;
    Ok(found)
}
