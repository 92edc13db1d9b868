//! The calls over texts. A start within the text must be at a character boundary.

ghost use Rattle.std.specs.Prelude.{true, map, IfOk};
ghost use Rattle.std.specs.Cow.{cow_str_bytes};
ghost use Rattle.bites_spec.specs.Settings.{by_default};
ghost use Rattle.bites_spec.specs.AllMatches.{AreCaptures};
ghost use Rattle.bites_spec.specs.Utf8.{places, start_alone};
ghost use Rattle.bites_bytes.specs.Calls.{SearchedFrom};
ghost use Rattle.bites_bytes.specs.Settings.{Builds};
ghost use Rattle.regex_bites.specs.Borders.{MaySearch, MayStart};
ghost use Rattle.regex_bites.specs.Matched.{excerpt_of};
ghost use Rattle.bites_theorems.specs.Headline.{AnswersTextEnd, AreFullTextAnswers, AreTextAnswers, MayRead, TextSearchHeadline};
ghost use Rattle.bites_theorems.specs.OnTree.{ArePieces, ArePiecesUpTo, IsReplaced, ReplacesMatches};

use crate::calls::answers::{Answers, Search};
use regex_bites::{Cache, CaptureLocations, Captures, Error, Match, NoExpand, Regex, Replacer};
use std::alloc::{AllocError, Global};
use std::borrow::CowStr;

/// Builds a regex without flags, under the default limits of a builder. A pattern is accepted exactly if the grammar
/// reads it as a tree within these limits. Otherwise the error is the message of its first fault, or of the first limit
/// that the tree exceeds. The call may run out of memory in either case.
pub fn new(alloc: Global, pattern: &str) -> Result<Regex, Error>
    ensures { Builds (by_default pattern.now) result }
{
    Regex::new(alloc, pattern)
}

/// Returns what the searches for a match from the start on return.
///
/// Something matches exactly if the tree matches at a place from the start on. The match begins at the first such place,
/// and is what the tree matches there. If the longest match is asked for, no match there ends after it. Otherwise, if the
/// tree is plain, it ends where the preferred parse there does. The groups are those of one parse there: of a longest one
/// if the longest match is asked for, and if the tree is plain too, of the one of these that the pattern prefers.
/// Otherwise, if the tree is plain, they are those of the parse that the pattern prefers. The match and
/// each group begin and end at character boundaries.
///
/// These answers agree. The match is group 0, each group lies within it, and at least `static_captures_len` groups
/// participate.
pub fn searches<'h>(
    regex: &Regex,
    haystack: &'h str,
    start: usize,
) -> Answers<Match<'h>, Captures<'h>>
    requires { MayStart haystack.now start }
    ensures { AreTextAnswers excerpt_of regex.now haystack.now (places haystack.now start) result }
{
    // For proofs: the contract of `as_str` says that the regex is compiled, here and below.
    regex.as_str();
    Answers {
        is_match: regex.is_match_at(haystack, start),
        find: regex.find_at(haystack, start),
        captures: regex.captures_at(haystack, start),
        static_captures_len: regex.static_captures_len(),
    }
}

/// Returns the same for a match that begins at the start itself.
pub fn anchored_searches<'h>(
    regex: &Regex,
    haystack: &'h str,
    start: usize,
) -> Answers<Match<'h>, Captures<'h>>
    requires { MayStart haystack.now start }
    ensures { AreTextAnswers excerpt_of regex.now haystack.now (start_alone haystack.now start) result }
{
    regex.as_str();
    Answers {
        is_match: regex.is_match_anchored_at(haystack, start),
        find: regex.find_anchored_at(haystack, start),
        captures: regex.captures_anchored_at(haystack, start),
        static_captures_len: regex.static_captures_len(),
    }
}

/// Returns the least end of all matches from the start on, and the first match. Both are there or neither is, and the
/// least end is at most the end of the first match. It is at a character boundary.
pub fn shortest_match<'h>(
    regex: &Regex,
    haystack: &'h str,
    start: usize,
) -> (
    Result<Option<usize>, AllocError>,
    Result<Option<Match<'h>>, AllocError>,
)
    requires { MayStart haystack.now start }
    ensures { AnswersTextEnd excerpt_of regex.now haystack.now (places haystack.now start) result.0 result.1 }
{
    (
        regex.shortest_match_at(haystack, start),
        regex.find_at(haystack, start),
    )
}

/// Returns whether the call finds something. The last search of the program that it makes visits no state twice at a
/// place, so it makes at most as many visits as states times places. If nothing is found, all that can be reached from a
/// place on was visited, and no match begins before that place, which is `start` without `prefilter`. Otherwise all of one
/// run was. A regex without a table reads each state that it visits, at each place where it visits it. For the longest
/// match a call may make two searches, and any other makes one.
pub fn visits(
    regex: &Regex,
    cache: &mut Cache,
    haystack: &str,
    start: usize,
    search: Search,
) -> bool
    requires { MaySearch regex.now haystack.now start cache.old }
    ensures { SearchedFrom regex.now haystack.now start result cache.old cache.new }
{
    match search {
        Search::IsMatch => regex.is_match_at_with(cache, haystack, start),
        Search::ShortestMatch => regex
            .shortest_match_at_with(cache, haystack, start)
            .is_some(),
        Search::Find => regex.find_at_with(cache, haystack, start).is_some(),
    }
}

/// Returns the match that begins at the start itself, and writes its groups into the locations: all of the above in one
/// call. It allocates nothing and cannot fail.
///
/// No state is visited twice at a place. If nothing is found, all that can be reached from the start was visited.
/// Otherwise all of one run was.
pub fn search_anchored<'h>(
    regex: &Regex,
    cache: &mut Cache,
    locations: &mut CaptureLocations,
    haystack: &'h str,
    start: usize,
) -> Option<Match<'h>>
    requires { MayRead regex.now haystack.now start cache.old locations.old }
    ensures { TextSearchHeadline excerpt_of regex.now haystack.now true start result
        locations.new cache.old cache.new }
{
    regex.as_str();
    regex.captures_read_anchored_at_with(cache, locations, haystack, start)
}

/// Returns whether the tree matches the whole haystack, and the groups of such a match: those of one parse of the
/// haystack, and if the tree is plain, of the one that the pattern prefers. Each group begins and ends at character
/// boundaries.
pub fn full_searches<'h>(
    regex: &Regex,
    haystack: &'h str,
) -> (
    Result<bool, AllocError>,
    Result<Option<Captures<'h>>, AllocError>,
)
    ensures { AreFullTextAnswers regex.now haystack.now result.0 result.1 }
{
    (regex.is_full_match(haystack), regex.captures_full(haystack))
}

/// Returns the groups of all matches: those of one parse each, as the tree finds them.
pub fn all_captures<'h>(
    alloc: Global,
    regex: &Regex,
    haystack: &'h str,
) -> Result<Vec<Captures<'h>>, AllocError>
    ensures { IfOk result (λ v. AreCaptures regex.now haystack.now v.items) }
{
    regex.as_str();
    let mut all = Vec::new(alloc);
    for captures in regex.captures_iter(haystack)? {
        all.push(captures?)?;
    }
    Ok(all)
}

/// Returns the pieces between all matches of the tree.
pub fn pieces<'h>(
    alloc: Global,
    regex: &Regex,
    haystack: &'h str,
) -> Result<Vec<&'h str>, AllocError>
    ensures { IfOk result (λ v. ArePieces regex.now haystack.now (map (λ p. p.now) v.items)) }
{
    regex.as_str();
    let pieces = regex.split(haystack)?.collect(alloc)?;
    Ok(pieces)
}

/// Returns at most `limit` of these pieces. The last of them has the whole rest.
pub fn pieces_up_to<'h>(
    alloc: Global,
    regex: &Regex,
    haystack: &'h str,
    limit: usize,
) -> Result<Vec<&'h str>, AllocError>
    ensures { IfOk result (λ v. ArePiecesUpTo regex.now haystack.now limit (map (λ p. p.now) v.items)) }
{
    regex.as_str();
    let pieces = regex.splitn(haystack, limit)?.collect(alloc)?;
    Ok(pieces)
}

/// Returns the haystack with the first `limit` matches of the tree replaced by a text, or all if `limit` is 0.
pub fn replaced_by_text<'h>(
    regex: &Regex,
    haystack: &'h str,
    limit: usize,
    text: &str,
) -> Result<CowStr<'h>, AllocError>
    ensures { IfOk result (λ bytes. IsReplaced regex.now haystack.now limit (λ c. text.now) (cow_str_bytes bytes)) }
{
    regex.as_str();
    let replaced = regex.replacen(haystack, limit, NoExpand(text))?;
    Ok(replaced)
}

/// Returns the haystack with the first `limit` matches of the tree replaced as a replacer says, or all if `limit` is 0.
pub fn replaced_by<'h, R: Replacer + Drop>(
    regex: &Regex,
    haystack: &'h str,
    limit: usize,
    replacer: R,
) -> Result<CowStr<'h>, AllocError>
    requires { (state : R) → R.can_replace state }
    ensures { IfOk result (λ bytes. (end : R) × ReplacesMatches regex.now haystack.now R.replaces R.answers
        limit replacer (cow_str_bytes bytes) end) }
{
    regex.as_str();
    let replaced = regex.replacen(haystack, limit, replacer)?;
    Ok(replaced)
}
