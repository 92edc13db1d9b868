//! What a match is replaced by: templates, literals, and results of functions.

ghost use Rattle.std.specs.Prelude.{◌≡◌, ℕ, List, Option, Some, None, Ok, Err, OnOk, OnErr, ⊤};
ghost use Rattle.std.specs.Borrow.{sem};
ghost use Rattle.std.specs.Cow.{cow_slice_items};
ghost use Rattle.std.specs.Io.BufRead.{Rests};
ghost use Rattle.bites_spec.specs.Captured.{Captured};
ghost use Rattle.bites_spec.specs.Refused.{Appends};
ghost use Rattle.bites_bytes.specs.HandsBack.{HandsBack};
ghost use Rattle.bites_spec.specs.Replacer.{answer_text, plain_text, is_plain, GivesExpansion, AnswersPlain, BeginsExpansion, BeginsText};

use crate::bytes::Captures;
use std::alloc::AllocError;
use std::borrow::CowSlice;
use std::convert::AsSlice;

/// What a match is replaced by: a template, a literal ([`NoExpand`]) or the result of a function ([`With`]).
///
/// For proofs: an implementation says when [`Replacer::replace_append`] may be called, what it appends, and what
/// [`Replacer::no_expansion`] returns.
pub trait Replacer {
    /// The states in which `replace_append` may be called.
    ghost can_replace: { Self → Type 0 } = { λ _. ⊤ };

    /// Relates a state, the groups of a match, the text that is appended for it, and the state after.
    ghost replaces: { Self → Captured → List ℕ → Self → Type 0 };

    /// Relates a state, the groups of a match, what a refused call has appended, and the state that it leaves.
    ghost refuses: { Self → Captured → List ℕ → Self → Type 0 } = { λ _ _ _ _. ⊤ };

    /// Relates a state, what `no_expansion` returns, and the state after.
    ghost answers: { Self → Option (List ℕ) → Self → Type 0 };

    /// Appends what replaces a match. The error is out of memory; `dst` then still begins with the old bytes.
    fn replace_append(
        &mut self,
        captures: &Captures<'_>,
        dst: &mut Vec<u8>,
    ) -> Result<(), AllocError>
        requires { can_replace self.old }
        ensures appends { OnOk result (Appends (λ text. replaces self.old captures.now text self.new)
            dst.old.items dst.new.items) }
        ensures refused { OnErr result (Appends (λ text. refuses self.old captures.now text self.new)
            dst.old.items dst.new.items) }
        ensures again { OnOk result (can_replace self.new) };

    /// Returns the bytes that replace each match, if they are always the same.
    fn no_expansion(&mut self) -> Option<&[u8]>
        ensures* after_borrow { sem 𝓛 (Rests Self.row self.entry
            (λ new. answers self.old (answer_text result) new)) };

    /// Returns a replacer that forwards both calls to this one, which can be used again afterwards.
    final fn by_ref(&mut self) -> ReplacerRef<'_, Self>
    where
        Self: Sized,
        ensures { HandsBack self.entry result.0 self.old }
    {
        ReplacerRef(self)
    }
}

/// A replacer that forwards both calls to another, made by [`Replacer::by_ref`].
#[derive(Debug, Drop)]
pub struct ReplacerRef<'a, R>(&'a mut R);

impl<'a, R: Replacer> Replacer for ReplacerRef<'a, R> {
    ghost can_replace = { λ s. R.can_replace s.0.now };

    ghost replaces = { λ s captures text t. R.replaces s.0.now captures text t.0.now };

    ghost refuses = { λ s captures text t. R.refuses s.0.now captures text t.0.now };

    ghost answers = { λ s answer t. R.answers s.0.now answer t.0.now };

    fn replace_append(
        &mut self,
        captures: &Captures<'_>,
        dst: &mut Vec<u8>,
    ) -> Result<(), AllocError> {
        self.0.replace_append(captures, dst)
    }

    fn no_expansion(&mut self) -> Option<&[u8]> {
        self.0.no_expansion()
    }
}

/// Replaces each match by what a function returns for its groups. An error of the function is out of memory, and ends
/// the replacement.
#[derive(Drop)]
pub struct With<F>(pub F);

impl<F, T> Replacer for With<F>
where
    F: FnMut(&Captures<'_>) -> Result<T, AllocError>,
    T: AsSlice<u8> + Drop,
{
    ghost can_replace = { λ s. F.IsAlwaysCallable s.0 };

    ghost replaces = { λ s captures text t. (c : _) × (answer : _) × (c.now ≡ captures)
        × F.step s.0 c (Ok answer) t.0 × (text ≡ T.items answer) };

    ghost answers = { λ s answer t. (answer ≡ None) × (t ≡ s) };

    fn replace_append(
        &mut self,
        captures: &Captures<'_>,
        dst: &mut Vec<u8>,
    ) -> Result<(), AllocError> {
        let answer = (self.0)(captures)?;
        dst.extend_from_slice(answer.as_slice())
    }

    fn no_expansion(&mut self) -> Option<&[u8]> {
        None
    }
}

/// Replaces each match by these bytes unchanged: a `$` stands for itself.
///
/// ```rust
/// let regex = Regex::new(rt.alloc(), "(a)")?;
/// let replaced = regex.replace(b"ab", NoExpand(b"$1$1"))?;
/// assert_eq!(rt; replaced.as_slice(), b"$1$1b".as_slice());
/// ```
#[derive(Clone, Copy, Debug)]
pub struct NoExpand<'t>(pub &'t [u8]);

impl<'t> Replacer for NoExpand<'t> {
    ghost replaces = { λ s _ text t. (text ≡ s.0.now) × (t ≡ s) };

    ghost refuses = { BeginsText (λ s. s.0.now) };

    ghost answers = { λ s answer t. (answer ≡ Some s.0.now) × (t ≡ s) };

    fn replace_append(
        &mut self,
        _captures: &Captures<'_>,
        dst: &mut Vec<u8>,
    ) -> Result<(), AllocError> {
        dst.extend_from_slice(self.0)
    }

    fn no_expansion(&mut self) -> Option<&[u8]> {
        Some(self.0)
    }
}

impl<'t> Replacer for &'t [u8] {
    ghost replaces = { GivesExpansion (λ s. s.now) };

    ghost refuses = { BeginsExpansion (λ s. s.now) };

    ghost answers = { AnswersPlain (λ s. s.now) };

    fn replace_append(
        &mut self,
        captures: &Captures<'_>,
        dst: &mut Vec<u8>,
    ) -> Result<(), AllocError> {
        captures.expand(*self, dst)
    }

    fn no_expansion(&mut self) -> Option<&[u8]> {
        plain(*self)
    }
}

impl Replacer for Vec<u8> {
    ghost replaces = { GivesExpansion (λ s. s.items) };

    ghost refuses = { BeginsExpansion (λ s. s.items) };

    ghost answers = { AnswersPlain (λ s. s.items) };

    fn replace_append(
        &mut self,
        captures: &Captures<'_>,
        dst: &mut Vec<u8>,
    ) -> Result<(), AllocError> {
        captures.expand(self.as_slice(), dst)
    }

    fn no_expansion(&mut self) -> Option<&[u8]> {
        plain(self.as_slice())
    }
}

impl<'t> Replacer for &'t Vec<u8> {
    ghost replaces = { GivesExpansion (λ s. s.now.items) };

    ghost refuses = { BeginsExpansion (λ s. s.now.items) };

    ghost answers = { AnswersPlain (λ s. s.now.items) };

    fn replace_append(
        &mut self,
        captures: &Captures<'_>,
        dst: &mut Vec<u8>,
    ) -> Result<(), AllocError> {
        captures.expand(self.as_slice(), dst)
    }

    fn no_expansion(&mut self) -> Option<&[u8]> {
        plain(self.as_slice())
    }
}

impl<'t> Replacer for CowSlice<'t, u8> {
    ghost replaces = { GivesExpansion cow_slice_items };

    ghost refuses = { BeginsExpansion cow_slice_items };

    ghost answers = { AnswersPlain cow_slice_items };

    fn replace_append(
        &mut self,
        captures: &Captures<'_>,
        dst: &mut Vec<u8>,
    ) -> Result<(), AllocError> {
        captures.expand(self.as_slice(), dst)
    }

    fn no_expansion(&mut self) -> Option<&[u8]> {
        plain(self.as_slice())
    }
}

impl<'c, 't> Replacer for &'c CowSlice<'t, u8> {
    ghost replaces = { GivesExpansion (λ s. cow_slice_items s.now) };

    ghost refuses = { BeginsExpansion (λ s. cow_slice_items s.now) };

    ghost answers = { AnswersPlain (λ s. cow_slice_items s.now) };

    fn replace_append(
        &mut self,
        captures: &Captures<'_>,
        dst: &mut Vec<u8>,
    ) -> Result<(), AllocError> {
        captures.expand(self.as_slice(), dst)
    }

    fn no_expansion(&mut self) -> Option<&[u8]> {
        plain(self.as_slice())
    }
}

/// Returns the text, if it holds no `$`.
fn plain(text: &[u8]) -> Option<&[u8]>
    ensures { answer_text result ≡ plain_text text.now }
{
    if is_plain(text) { Some(text) } else { None }
}

/// Returns whether the text holds no `$`.
fn is_plain(text: &[u8]) -> bool
    ensures { result ≡ is_plain text.now }
{
    text.iter().all(|byte| *byte != b'$')
}
