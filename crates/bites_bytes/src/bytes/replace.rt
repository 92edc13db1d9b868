//! Haystacks with their matches replaced.

ghost use Rattle.std.specs.Prelude.{◌≡◌, ◌↔◌, ◌⊎◌, ◌++◌, [], None, IfOk, OnOk, OnErr, drop};
ghost use Rattle.std.specs.Cow.{cow_slice_items, IsBorrowedSlice};
ghost use Rattle.bites_spec.specs.Counts.{fit_of};
ghost use Rattle.bites_bytes.specs.Matches.{regex_of, last_of};
ghost use Rattle.bites_spec.specs.Replace.{Stops, GaveSome};
ghost use Rattle.bites_spec.specs.Replaced.{IsRefusedIn};
ghost use Rattle.bites_bytes.specs.Calls.{FitAnd, KeepsAnd};
ghost use Rattle.bites_bytes.specs.Replaced.{IsReplacement, IsReplacementBy, MayReplace, MayReplaceBy};
ghost use Rattle.bites_bytes.specs.ReplaceLimit.{bound};

use crate::bytes::matches::Cursor;
use crate::bytes::{Cache, CaptureLocations, Captures, Regex, Replacer};
use crate::replace_limit::{bound, spend};
use std::alloc::AllocError;
use std::borrow::CowSlice;

// A haystack whose matches are being replaced, from left to right.
#[derive(Drop)]
struct Replacing<'r, 'h> {
    cursor: Cursor<'r, 'h>,
    // How many matches may still be replaced, or None for all.
    left: Option<usize>,
    // The haystack up to the end of the last match that was replaced, with the new texts.
    out: Vec<u8>,
    ghost fresh: { last_of cursor ≡ None → out.items ≡ [] },
}

impl<'r, 'h> Replacing<'r, 'h> {
    ghost use Rattle.bites_bytes.specs.Matches.{Begins};
    ghost use Rattle.bites_bytes.specs.Replacing.{hay_of, begin_of, captures_to_replace, StepsByText, EndsByText, StepsBy, EndsBy};

    // Returns a haystack in which nothing is replaced yet. At most `limit` matches may be, or all if it is 0.
    fn new(regex: &'r Regex, haystack: &'h [u8], limit: usize) -> Replacing<'r, 'h>
        ensures begins { Begins regex.now haystack.now result.cursor }
        ensures left { result.left ≡ bound limit }
        ensures out { result.out.items ≡ [] }
    {
        Replacing {
            cursor: Cursor::new(regex, haystack),
            left: bound(limit),
            out: Vec::new(regex.alloc()),
        }
    }

    // Replaces the next match by the text, if one more may be replaced. Returns whether it did.
    fn step_by_text(&mut self, cache: &mut Cache, text: &[u8]) -> Result<bool, AllocError>
        requires { cache.old.fits ≡ fit_of (regex_of self.old.cursor).program }
        ensures { KeepsAnd cache.old.fits cache.new.fits
            (IfOk result (λ there. StepsByText text.now self.old there self.new)) }
    {
        if !spend(&mut self.left) {
            return Ok(false);
        }
        let haystack = self.cursor.haystack;
        let begin = self.cursor.end_of_last();
        let Some(found) = self.cursor.step(cache) else {
            return Ok(false);
        };
        self.out.extend_from_slice(&haystack[begin..found.start()])?;
        self.out.extend_from_slice(text)?;
        Ok(true)
    }

    // Replaces all matches that may be replaced by the text.
    fn by_text(&mut self, cache: &mut Cache, text: &[u8]) -> Result<(), AllocError>
        requires { cache.old.fits ≡ fit_of (regex_of self.old.cursor).program }
        ensures { KeepsAnd cache.old.fits cache.new.fits (OnOk result (EndsByText text.now self.old self.new)) }
    {
        while self.step_by_text(cache, text)? {}
        Ok(())
    }

    // Replaces the next match by what the replacer gives, if one more may be replaced. Returns whether it did.
    fn step_by<R: Replacer>(
        &mut self,
        cache: &mut Cache,
        locations: &mut CaptureLocations,
        replacer: &mut R,
    ) -> Result<bool, AllocError>
        requires { MayReplaceBy R.can_replace (regex_of self.old.cursor) cache.old locations.old }
        ensures steps { FitAnd cache.old cache.new locations.old locations.new (IfOk result (λ there.
            StepsBy R.replaces R.answers self.old replacer.old there self.new replacer.new)) }
        ensures stops { OnErr result (Stops R.replaces R.answers R.refuses
            replacer.old (captures_to_replace self.old) replacer.new) }
    {
        if !spend(&mut self.left) {
            return Ok(false);
        }
        let haystack = self.cursor.haystack;
        let begin = self.cursor.end_of_last();
        let Some(found) = self.cursor.step_with(cache, locations) else {
            return Ok(false);
        };
        self.out.extend_from_slice(&haystack[begin..found.start()])?;
        let captures = Captures::of(self.cursor.regex, haystack, locations)?;
        replacer.replace_append(&captures, &mut self.out)?;
        Ok(true)
    }

    // Replaces each match that may be replaced by what the replacer gives.
    fn by<R: Replacer>(
        &mut self,
        cache: &mut Cache,
        locations: &mut CaptureLocations,
        replacer: &mut R,
    ) -> Result<(), AllocError>
        requires { MayReplaceBy R.can_replace (regex_of self.old.cursor) cache.old locations.old }
        ensures ends { KeepsAnd cache.old.fits cache.new.fits
            (OnOk result (EndsBy R.replaces R.answers self.old replacer.old self.new replacer.new)) }
        ensures served { OnErr result (GaveSome R.replaces R.answers R.refuses
            replacer.old (captures_to_replace self.old) replacer.new) }
    {
        while self.step_by(cache, locations, replacer)? {}
        Ok(())
    }

    // Returns what is written, and then the rest of the haystack. If nothing was replaced, it borrows the haystack.
    fn finish(self) -> Result<CowSlice<'h, u8>, AllocError>
        ensures bytes { IfOk result (λ r. cow_slice_items r
            ≡ self.entry.out.items ++ drop (begin_of self.entry) (hay_of self.entry)) }
        ensures borrowed { IfOk result (λ r. IsBorrowedSlice r ↔ last_of self.entry.cursor ≡ None) }
    {
        let haystack = self.cursor.haystack;
        if !self.cursor.has_begun() {
            return Ok(CowSlice::Borrowed(haystack));
        }
        let mut out = self.out;
        out.extend_from_slice(&haystack[self.cursor.end_of_last()..])?;
        Ok(CowSlice::Owned(out))
    }
}

impl Regex {
    // Returns the haystack with its first `limit` matches replaced, or all of them if `limit` is 0.
    fn replace_by<'h, R: Replacer>(
        &self,
        cache: &mut Cache,
        haystack: &'h [u8],
        limit: usize,
        replacer: &mut R,
    ) -> Result<CowSlice<'h, u8>, AllocError>
        requires { MayReplace R.can_replace self.now cache.old }
        ensures { KeepsAnd cache.old.fits cache.new.fits (IsReplacementBy R.replaces R.answers
            self.now haystack.now limit replacer.old result replacer.new
            (IsRefusedIn R.replaces R.answers R.refuses self.now haystack.now limit replacer.old replacer.new)) }
    {
        let slots = self.program().slots();
        let mut replacing = Replacing::new(self, haystack, limit);
        if let Some(text) = replacer.no_expansion() {
            replacing.by_text(cache, text)?;
            return replacing.finish();
        }
        let mut locations = CaptureLocations::new(self.alloc(), slots)?;
        replacing.by(cache, &mut locations, replacer)?;
        replacing.finish()
    }

    /// Returns the haystack with its first match replaced. The error is out of memory.
    ///
    /// The haystack is borrowed exactly if nothing matches. In a template `$1` and `$name` stand for groups, as
    /// [`Captures::expand`] describes.
    pub fn replace<'h, R: Replacer + Drop>(
        &self,
        haystack: &'h [u8],
        replacer: R,
    ) -> Result<CowSlice<'h, u8>, AllocError>
        requires { (state : R) → R.can_replace state }
        ensures { IsReplacement R.replaces R.answers self.now haystack.now 1 replacer result }
    {
        self.replacen(haystack, 1, replacer)
    }

    /// Returns the haystack with all its matches replaced. The error is out of memory.
    ///
    /// The haystack is borrowed exactly if nothing matches.
    ///
    /// ```rust
    /// let regex = Regex::new(rt.alloc(), r"(\w)=(\w)")?;
    /// let turned = regex.replace_all(b"a=1, b=2", "$2=$1".as_bytes())?;
    /// assert_eq!(rt; turned.as_slice(), b"1=a, 2=b".as_slice());
    /// ```
    pub fn replace_all<'h, R: Replacer + Drop>(
        &self,
        haystack: &'h [u8],
        replacer: R,
    ) -> Result<CowSlice<'h, u8>, AllocError>
        requires { (state : R) → R.can_replace state }
        ensures { IsReplacement R.replaces R.answers self.now haystack.now 0 replacer result }
    {
        self.replacen(haystack, 0, replacer)
    }

    /// Returns the haystack with its first `limit` matches replaced, or all of them if `limit` is 0. The error is out
    /// of memory.
    ///
    /// The haystack is borrowed exactly if nothing matches. [`Replacer::no_expansion`] is called once. If it returns
    /// bytes, each match is replaced by these. Else [`Replacer::replace_append`] is called for each match in turn.
    ///
    /// ```rust
    /// let regex = Regex::new(rt.alloc(), "a")?;
    /// let replaced = regex.replacen(b"aaa\xFF", 2, b"b".as_slice())?;
    /// assert_eq!(rt; replaced.as_slice(), b"bba\xFF".as_slice());
    /// ```
    pub fn replacen<'h, R: Replacer + Drop>(
        &self,
        haystack: &'h [u8],
        limit: usize,
        mut replacer: R,
    ) -> Result<CowSlice<'h, u8>, AllocError>
        requires { (state : R) → R.can_replace state }
        ensures { IsReplacement R.replaces R.answers self.now haystack.now limit replacer result }
    {
        self.replacen_mut(haystack, limit, &mut replacer)
    }

    /// Like [`Regex::replacen`], but with a replacer that is lent. The error is out of memory.
    ///
    /// After an error the replacer has served the first matches in turn, perhaps none of them. At most one more call
    /// was refused, after which no other is made.
    pub fn replacen_mut<'h, R: Replacer>(
        &self,
        haystack: &'h [u8],
        limit: usize,
        replacer: &mut R,
    ) -> Result<CowSlice<'h, u8>, AllocError>
        requires { (state : R) → R.can_replace state }
        ensures { IsReplacementBy R.replaces R.answers self.now haystack.now limit replacer.old result replacer.new
            ((replacer.new ≡ replacer.old)
            ⊎ IsRefusedIn R.replaces R.answers R.refuses self.now haystack.now limit replacer.old replacer.new) }
    {
        let mut cache = self.cache()?;
        self.replace_by(&mut cache, haystack, limit, replacer)
    }

    /// Like [`Regex::replace_all`], but with a cache that fits.
    ///
    /// It allocates only the new bytes, and the groups if the replacer asks for them. The error is out of memory.
    pub fn replace_all_with<'h, R: Replacer + Drop>(
        &self,
        cache: &mut Cache,
        haystack: &'h [u8],
        replacer: R,
    ) -> Result<CowSlice<'h, u8>, AllocError>
        requires { MayReplace R.can_replace self.now cache.old }
        ensures { KeepsAnd cache.old.fits cache.new.fits
            (IsReplacement R.replaces R.answers self.now haystack.now 0 replacer result) }
    {
        self.replacen_with(cache, haystack, 0, replacer)
    }

    /// Like [`Regex::replacen`], but with a cache that fits.
    ///
    /// It allocates only the new bytes, and the groups if the replacer asks for them. So if nothing matches and
    /// [`Replacer::no_expansion`] returns bytes, it allocates nothing. The error is out of memory.
    ///
    /// ```rust
    /// let regex = Regex::new(rt.alloc(), r"\d+")?;
    /// let mut cache = regex.cache()?;
    /// let first = regex.replacen_with(&mut cache, b"1 and 2", 1, b"n".as_slice())?;
    /// assert_eq!(rt; first.as_slice(), b"n and 2".as_slice());
    /// ```
    pub fn replacen_with<'h, R: Replacer + Drop>(
        &self,
        cache: &mut Cache,
        haystack: &'h [u8],
        limit: usize,
        mut replacer: R,
    ) -> Result<CowSlice<'h, u8>, AllocError>
        requires { MayReplace R.can_replace self.now cache.old }
        ensures { KeepsAnd cache.old.fits cache.new.fits
            (IsReplacement R.replaces R.answers self.now haystack.now limit replacer result) }
    {
        self.replace_by(cache, haystack, limit, &mut replacer)
    }
}
