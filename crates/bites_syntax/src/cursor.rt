//! The characters of a pattern that are still to read.

ghost use Rattle.std.specs.Char.{is_whitespace};
ghost use Rattle.std.specs.Prelude.{◌≡◌, ◌||◌, ◌==◌, not, ◌<◌, [], ◌∷◌, length, drop, false, true, chars, MatchOption, OnSome, if◌then◌else◌};
ghost use Rattle.bites_spec.specs.Class.{single};
ghost use Rattle.bites_spec.specs.Pattern.{begins, next_is, skip, skip_blank, skip_white, hash, line_feed};
ghost use Rattle.bites_syntax.specs.FlagsView.{flags_of};
ghost use Rattle.bites_syntax.specs.Parts.{ReadsOn, fault_at};
ghost use Rattle.bites_syntax.specs.Steps.{each_of};

use crate::flags::Flags;
use crate::refusal::Refusal;
use bites_text::error::Error;
use std::marker::Model;

/// The rest of a pattern, from an offset to its end.
///
/// For proofs: a contract sees its characters.
#[derive(Drop)]
pub(crate) struct Cursor<'a> {
    rest: &'a str,
}

impl<'a> Model for Cursor<'a> {
    ghost use Rattle.std.specs.Char.{is_whitespace};
    ghost use Rattle.std.specs.Prelude.{◌≡◌, ◌||◌, ◌==◌, not, List, ℕ, chars, true};
    ghost use Rattle.std.specs.Str.{is_utf8};

    ghost Value = { List ℕ };

    ghost view = { λ c. chars c.rest.now };

    ghost invariant = { λ c. is_utf8 c.rest.now ≡ true };
}

/// A set of characters that the parser reads in runs.
#[derive(Clone, Copy)]
pub(crate) enum Characters {
    Digit,
    HexDigit,
    WhiteSpace,
    /// A letter or a dash, as in `\b{start-half}`.
    BoundaryLetter,
    Dash,
}

impl Characters {
    ghost use Rattle.bites_syntax.specs.Sets.{members_of};

    pub(crate) fn contains(self, c: char) -> bool
        ensures { result ≡ members_of self c }
    {
        match self {
            Characters::Digit => c.is_ascii_digit(),
            Characters::HexDigit => c.is_ascii_hexdigit(),
            Characters::WhiteSpace => c.is_whitespace(),
            Characters::BoundaryLetter => c.is_ascii_alphabetic() || c == '-',
            Characters::Dash => c == '-',
        }
    }
}

/// Returns whether the character is white space or a part of a comment.
fn is_blank(inside_comment: bool, c: char) -> bool
    ensures { result ≡ (inside_comment || is_whitespace c || (c == hash)) }
{
    inside_comment || c.is_whitespace() || c == '#'
}

/// Returns whether a comment goes on after the character.
fn is_inside(inside_comment: bool, c: char) -> bool
    ensures { result ≡ (if inside_comment then not (c == line_feed) else c == hash) }
{
    if inside_comment { c != '\n' } else { c == '#' }
}

impl<'a> Cursor<'a> {
    ghost use Rattle.bites_syntax.specs.Sets.{members_of};

    pub(crate) fn new(pattern: &'a str) -> Cursor<'a>
        ensures { result ≡ chars pattern.now }
    {
        Cursor { rest: pattern }
    }

    /// Returns another cursor at the same offset, to look ahead with.
    pub(crate) fn ahead(&self) -> Cursor<'a>
        ensures { result ≡ self.now }
    {
        Cursor { rest: self.rest }
    }

    /// Returns the fault of this message, if its place is here.
    pub(crate) fn fault(&self, error: Error) -> Refusal
        ensures { result ≡ fault_at error self.now }
    {
        Refusal::At {
            error,
            left: self.rest.len(),
        }
    }

    /// Returns the next character, or None at the end.
    pub(crate) fn peek(&self) -> Option<char>
        ensures { MatchOption result (self.now ≡ []) (λ c. self.now ≡ c ∷ drop 1 self.now) }
    {
        self.rest.chars().next()
    }

    /// Returns whether the next character is in the set.
    pub(crate) fn is_at(&self, set: Characters) -> bool
        ensures { result ≡ next_is (members_of set) self.now }
    {
        match self.peek() {
            Some(c) => set.contains(c),
            None => false,
        }
    }

    /// Moves past the next character and returns it, if there is one.
    pub(crate) fn bump(&mut self) -> Option<char>
        ensures value { MatchOption result (self.old ≡ []) (λ c. self.old ≡ c ∷ self.new) }
        ensures rest { ReadsOn self.old self.new (self.new ≡ drop 1 self.old) }
    {
        let mut chars = self.rest.chars();
        let c = chars.next()?;
        self.rest = chars.as_str();
        Some(c)
    }

    /// Moves past this character if it comes next, and returns whether it does.
    pub(crate) fn bump_if(&mut self, c: char) -> bool
        ensures value { result ≡ next_is (single c) self.old }
        ensures rest { ReadsOn self.old self.new (self.new ≡ (if result then drop 1 self.old else self.old)) }
    {
        let found = self.peek() == Some(c);
        if found {
            self.bump();
        }
        found
    }

    /// Returns the cursor after this ASCII text, if it comes next.
    fn after(&self, text: &str) -> Option<Cursor<'a>>
        ensures { MatchOption result (begins text.now self.now ≡ false)
            (λ rest. (begins text.now self.now ≡ true) × (rest ≡ drop (length text.now) self.now)) }
    {
        let mut ahead = self.ahead();
        for b in text.as_bytes() {
            if !ahead.bump_if(char::from(*b)) {
                return None;
            }
        }
        Some(ahead)
    }

    /// Returns whether this ASCII text comes next.
    pub(crate) fn begins(&self, text: &str) -> bool
        ensures { result ≡ begins text.now self.now }
    {
        self.after(text).is_some()
    }

    /// Moves past this ASCII text if it comes next, and returns whether it does.
    pub(crate) fn bump_over(&mut self, text: &str) -> bool
        ensures value { result ≡ begins text.now self.old }
        ensures rest { ReadsOn self.old self.new
            (self.new ≡ (if result then drop (length text.now) self.old else self.old)) }
    {
        match self.after(text) {
            Some(rest) => {
                *self = rest;
                true
            }
            None => false,
        }
    }

    /// Moves past white space and comments.
    fn skip_blank(&mut self)
        ensures { ReadsOn self.old self.new (self.new ≡ skip_blank false self.old) }
    {
        let mut inside = false;
        while let Some(c) = self.peek() {
            if !is_blank(inside, c) {
                break;
            }
            inside = is_inside(inside, c);
            self.bump();
        }
    }

    /// Moves past the gap that stands here: white space and comments with the flag `x`, nothing without it.
    pub(crate) fn skip(&mut self, flags: Flags)
        ensures { ReadsOn self.old self.new (self.new ≡ skip (flags_of flags) self.old) }
    {
        if flags.ignore_whitespace {
            self.skip_blank();
        }
    }

    /// Moves past white space, under any flags.
    pub(crate) fn skip_white(&mut self)
        ensures { ReadsOn self.old self.new (self.new ≡ skip_white self.old) }
    {
        while let Some(c) = self.peek() {
            if !c.is_whitespace() {
                break;
            }
            self.bump();
        }
    }

    /// Moves past the next character and the gap after it if the set has the character, and returns it.
    pub(crate) fn take(&mut self, flags: Flags, set: Characters) -> Option<char>
        ensures value { ReadsOn self.old self.new (MatchOption result
            ((next_is (members_of set) self.old ≡ false) × (self.new ≡ self.old))
            (λ c. (members_of set c ≡ true) × (self.old ≡ c ∷ drop 1 self.old)
            × (self.new ≡ skip (flags_of flags) (drop 1 self.old)))) }
        ensures progress { OnSome result (length self.new < length self.old) }
    {
        let c = self.peek()?;
        if !set.contains(c) {
            return None;
        }
        self.bump();
        self.skip(flags);
        Some(c)
    }

    /// Moves past a run of characters of the set, with the gap after each.
    pub(crate) fn pass_each(&mut self, flags: Flags, set: Characters)
        ensures { ReadsOn self.old self.new (self.new ≡ (each_of (flags_of flags) (members_of set) self.old).1) }
    {
        while let Some(_) = self.take(flags, set) {}
    }
}
