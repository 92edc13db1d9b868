//! Searches of a set: which of its patterns match.

ghost use Rattle.std.specs.Prelude.{◌≡◌, ◌↔◌, ℕ, List, IsTrue, IfSome};
ghost use Rattle.bites_scan.specs.Trigrams.{AreTrigramsOf};
ghost use Rattle.bites_spec.specs.Counts.{fit_of};
ghost use Rattle.bites_spec.specs.Found.{HasMatch};
ghost use Rattle.bites_spec.specs.Utf8.{places};
ghost use Rattle.bites_spec.specs.Set.{AreMatched, HasMatchOfAny, fits_of, fits_for};
ghost use Rattle.bites_bytes.specs.Calls.{KeepsAnd};
ghost use Rattle.bites_bytes.specs.Set.{MayWriteEach};

use crate::bytes::{Cache, Regex};
use bites_scan::trigrams::Trigrams;

// With fewer patterns it takes longer to look up the runs of three bytes of a haystack than to search for each pattern.
const FEWEST_PATTERNS: usize = 4;

// How many bytes a haystack has at most for each pattern. It takes a nanosecond to look up one of its runs, and a search that is spared takes
// some tens of them.
const BYTES_FOR_EACH: usize = 32;

// How many bytes a haystack has at most. A longer one has so many runs that few literals lack one.
const LONGEST_HAYSTACK: usize = 2048;

// Returns whether any regex matches at or after `start`.
pub(super) fn match_any(
    regexes: &[Regex],
    caches: &mut [Cache],
    haystack: &[u8],
    start: usize,
) -> bool
    requires { fits_of caches.old ≡ fits_for regexes.now }
    ensures { KeepsAnd (fits_of caches.old) (fits_of caches.new)
        (IsTrue result ↔ HasMatchOfAny regexes.now haystack.now (places haystack.now start)) }
{
    let trigrams = trigrams_of(regexes, haystack);
    for (number, regex) in regexes.iter().enumerate() {
        if matches_at(regex, &mut caches[number], haystack, start, &trigrams) {
            return true;
        }
    }
    false
}

// Writes for each regex whether it matches at or after `start`.
pub(super) fn match_each(
    regexes: &[Regex],
    caches: &mut [Cache],
    haystack: &[u8],
    start: usize,
    matched: &mut [bool],
)
    requires { MayWriteEach regexes.now caches.old matched.old }
    ensures { KeepsAnd (fits_of caches.old) (fits_of caches.new)
        (AreMatched regexes.now haystack.now (places haystack.now start) matched.new) }
{
    let trigrams = trigrams_of(regexes, haystack);
    for (number, regex) in regexes.iter().enumerate() {
        matched[number] = matches_at(regex, &mut caches[number], haystack, start, &trigrams);
    }
}

// Returns the runs of three bytes that stand in the haystack, if searches look for literals and enough of them may be spared. All regexes
// of a set have the same switch.
fn trigrams_of(regexes: &[Regex], haystack: &[u8]) -> Option<Trigrams>
    ensures { IfSome result (λ trigrams. AreTrigramsOf trigrams haystack.now) }
{
    let longest = regexes
        .len()
        .saturating_mul(BYTES_FOR_EACH)
        .min(LONGEST_HAYSTACK);
    let is_worth = regexes.len() >= FEWEST_PATTERNS && haystack.len() <= longest;
    if is_worth && regexes[0].has_prefilter() {
        Some(Trigrams::of(haystack))
    } else {
        None
    }
}

// Returns whether the regex matches at or after `start`. No search is made if these runs of three bytes show that it doesn't.
#[inline(always)]
fn matches_at(
    regex: &Regex,
    cache: &mut Cache,
    haystack: &[u8],
    start: usize,
    trigrams: &Option<Trigrams>,
) -> bool
    requires fits { cache.old.fits ≡ fit_of regex.now.program }
    requires trigrams { IfSome trigrams.now (λ trigrams. AreTrigramsOf trigrams haystack.now) }
    ensures { KeepsAnd cache.old.fits cache.new.fits
        (IsTrue result ↔ HasMatch regex.now.tree haystack.now (places haystack.now start)) }
{
    if let Some(trigrams) = trigrams
        && !regex.may_match(haystack, trigrams)
    {
        return false;
    }
    regex.is_match_at_with(cache, haystack, start)
}
