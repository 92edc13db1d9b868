//! Texts with their matches replaced.

ghost use Rattle.std.specs.Prelude.{◌≡◌, ◌↔◌, ◌≤◌, ◌++◌, [], ◌∷◌, None, List, IfOk, IfSome, OnOk, OnErr, drop, string_bytes, unwrap_or, IsCharBoundary};
ghost use Rattle.std.specs.Cow.{cow_str_bytes, IsBorrowedStr};
ghost use Rattle.bites_spec.specs.Counts.{fit_of};
ghost use Rattle.bites_spec.specs.Captured.{Captured};
ghost use Rattle.bites_spec.specs.Replace.{Stops};
ghost use Rattle.bites_spec.specs.Replaced.{span_in};
ghost use Rattle.bites_bytes.specs.Calls.{BothFit, FitAnd, KeepsAnd};
ghost use Rattle.bites_bytes.specs.Replaced.{MayReplaceBy};
ghost use Rattle.regex_bites.specs.Replaced.{IsEachReplaced, IsReplacedBy, IsReplacement, IsReplacementBy};

use crate::string::{Cache, CaptureLocations, Captures, Match, Regex, Replacer};
use bites_bytes::replace_limit::{bound, spend};
use std::alloc::{AllocError, Global};
use std::borrow::CowStr;

// A text whose matches are being replaced, from left to right.
#[derive(Drop)]
struct ReplacedText<'h> {
    haystack: &'h str,
    // Where the last match that was replaced ends, if one was.
    last: Option<usize>,
    // The haystack up to there, with its matches replaced.
    out: String,
    ghost border: { IsCharBoundary haystack.now (unwrap_or last 0) },
    ghost fresh: { last ≡ None → string_bytes out ≡ [] },
}

impl<'h> ReplacedText<'h> {
    ghost use Rattle.regex_bites.specs.Matched.{excerpt_of};
    ghost use Rattle.regex_bites.specs.Borders.{IsPart};
    ghost use Rattle.regex_bites.specs.ReplacedText.{Follows, TakesMatch, TakesCaptures, KeepsUpTo, Writes, WritesBy};

    // Returns a text in which nothing is replaced yet.
    fn new(alloc: Global, haystack: &'h str) -> ReplacedText<'h>
        ensures haystack { result.haystack.now ≡ haystack.now }
        ensures last { result.last ≡ None }
        ensures out { string_bytes result.out ≡ [] }
    {
        ReplacedText {
            haystack,
            last: None,
            out: String::new(alloc),
        }
    }

    // Returns the next match, if one more may be replaced.
    fn next_match(
        &self,
        regex: &Regex,
        cache: &mut Cache,
        left: &mut Option<usize>,
    ) -> Option<Match<'h>>
        requires { cache.old.fits ≡ fit_of regex.now.program }
        ensures takes { KeepsAnd cache.old.fits cache.new.fits
            (TakesMatch regex.now self.now left.old result left.new) }
        ensures part { IfSome result (λ m. IsPart self.now.haystack.now (excerpt_of m)) }
    {
        if !spend(left) {
            return None;
        }
        regex.find_next_with(cache, self.haystack, self.last)
    }

    // Returns the groups of the next match, if one more may be replaced, or that memory ran out for them.
    fn next_captures(
        &self,
        regex: &Regex,
        cache: &mut Cache,
        locations: &mut CaptureLocations,
        left: &mut Option<usize>,
    ) -> Option<Result<Captures<'h>, AllocError>>
        requires { BothFit regex.now cache.old locations.old }
        ensures takes { FitAnd cache.old cache.new locations.old locations.new
            (TakesCaptures regex.now self.now left.old result left.new) }
        ensures haystack { IfSome result (λ r. IfOk r (λ c. c.haystack ≡ self.now.haystack.now)) }
    {
        if !spend(left) {
            return None;
        }
        regex.captures_next_with(cache, locations, self.haystack, self.last)
    }

    // Appends the text between the last match and this one, and goes on after it.
    fn keep_up_to(&mut self, found: Match<'h>) -> Result<(), AllocError>
        requires { Follows self.old (excerpt_of found) }
        ensures { OnOk result (KeepsUpTo (excerpt_of found.entry).span self.old self.new) }
    {
        let begin = self.last.unwrap_or(0);
        self.out.push_str(&self.haystack[begin..found.start()])?;
        self.last = Some(found.end());
        Ok(())
    }

    // Replaces a match by the text.
    fn by_text(&mut self, found: Match<'h>, text: &str) -> Result<(), AllocError>
        requires { Follows self.old (excerpt_of found) }
        ensures { OnOk result (Writes (excerpt_of found.entry).span text.now self.old self.new) }
    {
        self.keep_up_to(found)?;
        self.out.push_str(text)
    }

    // Replaces a match by what the replacer gives for its groups.
    fn by<R: Replacer>(
        &mut self,
        captures: &Captures<'h>,
        replacer: &mut R,
    ) -> Result<(), AllocError>
        requires callable { R.can_replace replacer.old }
        requires haystack { captures.now.haystack ≡ self.old.haystack.now }
        requires order { unwrap_or self.old.last 0 ≤ (span_in captures.now).start }
        ensures gives { OnOk result (WritesBy R.replaces captures.now
            self.old replacer.old self.new replacer.new) }
        ensures stops { OnErr result ((rest : List Captured) → Stops R.replaces R.answers R.refuses
            replacer.old (captures.now ∷ rest) replacer.new) }
    {
        self.keep_up_to(captures.whole())?;
        replacer.replace_append(captures, &mut self.out)
    }

    // Returns what is written, and then the rest of the haystack. If nothing was replaced, it borrows the haystack.
    fn finish(self) -> Result<CowStr<'h>, AllocError>
        ensures bytes { IfOk result (λ r. cow_str_bytes r ≡ string_bytes self.entry.out
            ++ drop (unwrap_or self.entry.last 0) self.entry.haystack.now) }
        ensures borrowed { IfOk result (λ r. IsBorrowedStr r ↔ self.entry.last ≡ None) }
    {
        let Some(end) = self.last else {
            return Ok(CowStr::Borrowed(self.haystack));
        };
        let mut out = self.out;
        out.push_str(&self.haystack[end..])?;
        Ok(CowStr::Owned(out))
    }
}

impl Regex {
    // Returns the haystack with its first `limit` matches replaced by the text, or all of them if `limit` is 0.
    pub(super) fn replace_by_text<'h>(
        &self,
        cache: &mut Cache,
        haystack: &'h str,
        limit: usize,
        text: &str,
    ) -> Result<CowStr<'h>, AllocError>
        requires { cache.old.fits ≡ fit_of self.now.program }
        ensures { KeepsAnd cache.old.fits cache.new.fits (IsReplacedBy text.now self.now haystack.now limit result) }
    {
        // For proofs: the contract of `as_str` says that the regex is compiled, here and below.
        self.as_str();
        let mut left = bound(limit);
        let mut out = ReplacedText::new(self.alloc(), haystack);
        while let Some(found) = out.next_match(self, cache, &mut left) {
            out.by_text(found, text)?;
        }
        out.finish()
    }

    // Like [`Regex::replace_by_text`], but replaces each match by what the replacer gives for it.
    pub(super) fn replace_each<'h, R: Replacer>(
        &self,
        cache: &mut Cache,
        locations: &mut CaptureLocations,
        haystack: &'h str,
        limit: usize,
        replacer: &mut R,
    ) -> Result<CowStr<'h>, AllocError>
        requires { MayReplaceBy R.can_replace self.now cache.old locations.old }
        ensures { FitAnd cache.old cache.new locations.old locations.new (IsEachReplaced R.replaces R.answers R.refuses
            self.now haystack.now limit replacer.old result replacer.new) }
    {
        self.as_str();
        let mut left = bound(limit);
        let mut out = ReplacedText::new(self.alloc(), haystack);
        while let Some(captures) = out.next_captures(self, cache, locations, &mut left) {
            out.by(&captures?, replacer)?;
        }
        out.finish()
    }

    // Like [`Regex::replacen`], but with a cache and locations that fit. It allocates only the new text, and the groups if
    // the replacer asks for them.
    pub(super) fn replacen_with<'h, R: Replacer + Drop>(
        &self,
        cache: &mut Cache,
        locations: &mut CaptureLocations,
        haystack: &'h str,
        limit: usize,
        mut replacer: R,
    ) -> Result<CowStr<'h>, AllocError>
        requires { MayReplaceBy R.can_replace self.now cache.old locations.old }
        ensures { FitAnd cache.old cache.new locations.old locations.new
            (IsReplacement R.replaces R.answers self.now haystack.now limit replacer result) }
    {
        if let Some(text) = replacer.no_expansion() {
            return self.replace_by_text(cache, haystack, limit, text);
        }
        self.replace_each(cache, locations, haystack, limit, &mut replacer)
    }

    /// Returns the haystack with its first match replaced. The error is out of memory.
    ///
    /// The haystack is borrowed exactly if nothing matches. In a template `$1` and `$name` stand for groups, as
    /// [`Captures::expand`] describes.
    ///
    /// ```rust
    /// let regex = Regex::new(rt.alloc(), r"(?<last>\w+), (?<first>\w+)")?;
    /// let turned = regex.replace("Curie, Marie", "$first $last")?;
    /// assert_eq!(rt; turned.as_str(), "Marie Curie");
    /// ```
    pub fn replace<'h, R: Replacer + Drop>(
        &self,
        haystack: &'h str,
        replacer: R,
    ) -> Result<CowStr<'h>, AllocError>
        requires { (state : R) → R.can_replace state }
        ensures { IsReplacement R.replaces R.answers self.now haystack.now 1 replacer result }
    {
        self.replacen(haystack, 1, replacer)
    }

    /// Returns the haystack with all its matches replaced. The error is out of memory.
    ///
    /// The haystack is borrowed exactly if nothing matches.
    ///
    /// ```rust
    /// let regex = Regex::new(rt.alloc(), r"\s+")?;
    /// let narrow = regex.replace_all("a  b   c", " ")?;
    /// assert_eq!(rt; narrow.as_str(), "a b c");
    /// ```
    pub fn replace_all<'h, R: Replacer + Drop>(
        &self,
        haystack: &'h str,
        replacer: R,
    ) -> Result<CowStr<'h>, AllocError>
        requires { (state : R) → R.can_replace state }
        ensures { IsReplacement R.replaces R.answers self.now haystack.now 0 replacer result }
    {
        self.replacen(haystack, 0, replacer)
    }

    /// Returns the haystack with its first `limit` matches replaced, or all of them if `limit` is 0. The error is out
    /// of memory.
    ///
    /// The haystack is borrowed exactly if nothing matches. [`Replacer::no_expansion`] is called once. If it returns
    /// a text, each match is replaced by that text. Else [`Replacer::replace_append`] is called for each match in
    /// turn.
    ///
    /// ```rust
    /// let regex = Regex::new(rt.alloc(), "a")?;
    /// let replaced = regex.replacen("aaaa", 2, "b")?;
    /// assert_eq!(rt; replaced.as_str(), "bbaa");
    /// ```
    pub fn replacen<'h, R: Replacer + Drop>(
        &self,
        haystack: &'h str,
        limit: usize,
        mut replacer: R,
    ) -> Result<CowStr<'h>, AllocError>
        requires { (state : R) → R.can_replace state }
        ensures { IsReplacement R.replaces R.answers self.now haystack.now limit replacer result }
    {
        self.replacen_mut(haystack, limit, &mut replacer)
    }

    /// Like [`Regex::replacen`], but with a replacer that is lent. The error is out of memory.
    ///
    /// After an error the replacer has served the first matches in turn, perhaps none of them. At most one more call
    /// was refused, after which no other is made.
    pub fn replacen_mut<'h, R: Replacer>(
        &self,
        haystack: &'h str,
        limit: usize,
        replacer: &mut R,
    ) -> Result<CowStr<'h>, AllocError>
        requires { (state : R) → R.can_replace state }
        ensures { IsReplacementBy R.replaces R.answers R.refuses self.now haystack.now limit replacer.old result replacer.new }
    {
        if let Some(text) = replacer.no_expansion() {
            let mut cache = self.cache()?;
            return self.replace_by_text(&mut cache, haystack, limit, text);
        }
        let mut cache = self.cache()?;
        let mut locations = self.capture_locations()?;
        self.replace_each(&mut cache, &mut locations, haystack, limit, replacer)
    }
}
