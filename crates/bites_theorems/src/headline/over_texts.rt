//! The headline over texts. A start within the text must be at a character boundary.

ghost use Rattle.std.specs.Prelude.{false, map, IfOk};
ghost use Rattle.bites_bytes.specs.Settings.{Builds};
ghost use Rattle.regex_bites.specs.Matched.{excerpt_of};
ghost use Rattle.bites_theorems.specs.Headline.{AreAllTextMatches, MayRead, TextSearchHeadline};

use regex_bites::{Cache, CaptureLocations, Error, Match, Regex, RegexBuilder};
use std::alloc::{AllocError, Global};

/// Builds a regex. A pattern is accepted exactly if the grammar reads it under the builder's flags as a tree, and all
/// limits hold: the regex has that tree. Otherwise the error is the message of the pattern's first fault, or of the
/// first limit that the tree exceeds. The call may run out of memory in either case. With the limit 0 for its table the
/// regex has none.
pub fn build(builder: &RegexBuilder) -> Result<Regex, Error>
    ensures { Builds builder.now result }
{
    builder.build()
}

/// Returns the first match, exactly if the tree matches at a place from the start on, and writes its groups into the
/// locations. It begins at the first such place. Its end and its groups are those of one parse there: of a longest one
/// if the longest match is asked for, and otherwise, if the tree is plain, of the preferred one. Each group begins and
/// ends at character boundaries.
///
/// The call makes one search of the program, or up to two for the longest match. Of the last one: no state is visited
/// twice at a place. If nothing is found, all that can be reached was visited. Otherwise all of one run was. Where
/// searches look for a literal first, this holds from a place on before which no match begins. The call allocates nothing
/// and cannot fail.
pub fn search<'h>(
    regex: &Regex,
    cache: &mut Cache,
    locations: &mut CaptureLocations,
    haystack: &'h str,
    start: usize,
) -> Option<Match<'h>>
    requires { MayRead regex.now haystack.now start cache.old locations.old }
    ensures { TextSearchHeadline excerpt_of regex.now haystack.now false start result
        locations.new cache.old cache.new }
{
    // For proofs: the contract of `as_str` says that the regex is compiled.
    regex.as_str();
    regex.captures_read_at_with(cache, locations, haystack, start)
}

/// Returns all matches: what the tree finds from the start, and then what it finds after each. Nothing matches between
/// two of them. They stand in order, none overlaps another, and each ends after the one before. All begin and end at
/// character boundaries.
pub fn all_matches<'h>(
    alloc: Global,
    regex: &Regex,
    haystack: &'h str,
) -> Result<Vec<Match<'h>>, AllocError>
    ensures { IfOk result (λ v. AreAllTextMatches regex.now haystack.now (map (λ m. (excerpt_of m).span) v.items)) }
{
    regex.as_str();
    let matches = regex.find_iter(haystack)?.collect(alloc)?;
    Ok(matches)
}
