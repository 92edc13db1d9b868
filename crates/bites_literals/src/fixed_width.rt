//! The one match of a tree that matches at the start of the haystack alone, and there texts of one width alone.

ghost use Rattle.std.specs.Prelude.{◌≡◌, ◌⊎◌, ◌≤◌, ◌<◌, ℕ, List, [], false, length, Option, IfSome, IsTrue, true};
ghost use Rattle.bites_spec.specs.Match.{Parse, ParseAll, Turns};
ghost use Rattle.bites_spec.specs.Range.{in_ranges};
ghost use Rattle.bites_spec.specs.Tree as spec;
ghost use Rattle.bites_spec.specs.Tree.{trees_of};
ghost use Rattle.bites_syntax.specs.View.{look_of};
ghost use Rattle.bites_literals.specs.Begins.{BeginsAtStart, BeginsBy, IsWithin};
ghost use Rattle.bites_literals.specs.FixedWidth.{Adds, IsFixedWidth, IsHere, MayGrow};

use crate::allowed_bytes::{AllowedBytes, OFFSETS};
use crate::prefilter::Begin;
use bites_syntax::look::Look;
use bites_syntax::tree::{Kind, Tree};
use std::alloc::Global;

/// A group of the match: its number, and the offsets in bytes where it begins and ends.
#[derive(Clone, Copy, Drop)]
pub struct Group {
    pub number: u32,
    pub start: u8,
    pub end: u8,
}

/// The one match of a tree: it begins at the start of the haystack, and all its bytes are ASCII.
#[derive(Drop)]
pub struct FixedWidth {
    /// Which bytes may stand at each offset of the match.
    allowed: AllowedBytes,
    /// How many bytes the match has.
    len: usize,
    /// Whether the haystack has to end where the match does.
    ends: bool,
    /// The groups that participate, in the order in which they end.
    groups: Vec<Group>,
}

impl FixedWidth {
    /// Returns the match of a tree that matches at the start of the haystack alone, if it is known to match texts of one width alone, and if
    /// there is memory for it.
    pub(crate) fn of(alloc: Global, tree: &Tree) -> Option<Box<FixedWidth>>
        requires { BeginsAtStart tree.now }
        ensures { IfSome result (λ fixed. IsFixedWidth tree.now fixed.value) }
    {
        let mut fixed = Box::new(alloc, FixedWidth::empty(alloc)).ok()?;
        if !fixed.add(tree) {
            return None;
        }
        Some(fixed)
    }

    /// Returns the match of the empty tree.
    fn empty(alloc: Global) -> FixedWidth
        ensures grows { MayGrow result }
        ensures len { result.len ≡ 0 }
        ensures ends { result.ends ≡ false }
        ensures groups { result.groups.items ≡ [] }
    {
        FixedWidth {
            allowed: AllowedBytes::none(),
            len: 0,
            ends: false,
            groups: Vec::new(alloc),
        }
    }

    /// Adds what the tree matches behind what was added before. Returns whether these are texts of one width alone, and there was memory
    /// for the groups.
    #[cycle(fixed_width)]
    fn add(&mut self, tree: &Tree) -> bool
        requires { MayGrow self.old }
        ensures { IsTrue result → Adds (λ hay i j ms. Parse hay tree.now i j ms) self.old self.new }
    {
        match tree.kind() {
            Kind::Empty => true,
            Kind::Look(look) => self.add_look(*look),
            Kind::Char(c) => self.add_char(*c),
            Kind::Class(class) => self.add_class(class.ranges()),
            Kind::Repetition { min, max, sub, .. } if *max == Some(*min) => {
                self.add_turns(*min, sub)
            }
            Kind::Repetition { .. } => false,
            Kind::Capture { index, sub, .. } => self.add_group(*index, sub),
            Kind::Concat(parts) => self.add_parts(parts),
            Kind::Alternation(_) => false,
        }
    }

    /// The same for so many turns of the tree. Each has to add a byte at least, so that there are not many.
    #[cycle(fixed_width)]
    fn add_turns(&mut self, turns: u32, tree: &Tree) -> bool
        requires { MayGrow self.old }
        ensures { IsTrue result → Adds (λ hay i j ms. Turns (Parse hay tree.now) turns i j ms) self.old self.new }
    {
        for turn in 0..turns {
            let before = self.len;
            if !self.add(tree) || self.len == before {
                return false;
            }
        }
        true
    }

    /// The same for a group of the tree.
    #[cycle(fixed_width)]
    fn add_group(&mut self, number: u32, tree: &Tree) -> bool
        requires { MayGrow self.old }
        ensures { IsTrue result → (name : Option (List ℕ)) → Adds (λ hay i j ms. Parse hay (spec.group number name tree.now) i j ms) self.old self.new }
    {
        let start = self.len;
        if !self.add(tree) {
            return false;
        }
        let group = Group {
            number,
            start: start as u8,
            end: self.len as u8,
        };
        self.groups.push(group).is_ok()
    }

    /// The same for trees one after another.
    #[cycle(fixed_width)]
    fn add_parts(&mut self, parts: &[Tree]) -> bool
        requires { MayGrow self.old }
        ensures { IsTrue result → Adds (λ hay i j ms. ParseAll hay (trees_of parts.now) i j ms) self.old self.new }
    {
        for part in 0..parts.len() {
            if !self.add(&parts[part]) {
                return false;
            }
        }
        true
    }

    /// The same for an assertion: the start of the haystack before any byte, or the end of the haystack.
    fn add_look(&mut self, look: Look) -> bool
        requires { MayGrow self.old }
        ensures { IsTrue result → Adds (λ hay i j ms. Parse hay (spec.look (look_of look)) i j ms) self.old self.new }
    {
        match look {
            Look::Start => self.len == 0,
            Look::End => {
                self.ends = true;
                true
            }
            _ => false,
        }
    }

    /// The same for a character, if it is ASCII.
    fn add_char(&mut self, c: char) -> bool
        requires { MayGrow self.old }
        ensures { IsTrue result → Adds (λ hay i j ms. Parse hay (spec.char c) i j ms) self.old self.new }
    {
        if !self.has_room() || !c.is_ascii() {
            return false;
        }
        self.allowed.allow(self.len, c as u8, c as u8);
        self.len += 1;
        true
    }

    /// The same for a character of these ranges, if all of them are ASCII.
    fn add_class(&mut self, ranges: &[(char, char)]) -> bool
        requires { MayGrow self.old }
        ensures { IsTrue result → Adds (λ hay i j ms. Parse hay (spec.class ranges.now) i j ms) self.old self.new }
    {
        if !self.has_room() || !self.allowed.allow_all(self.len, ranges) {
            return false;
        }
        self.len += 1;
        true
    }

    /// Returns whether one byte more may be added.
    fn has_room(&self) -> bool
        ensures short { IsTrue result → self.now.len < 64 }
        ensures goes_on { IsTrue result → self.now.ends ≡ false }
    {
        self.len < OFFSETS && !self.ends
    }

    /// Returns the match, if it begins at or after `start`.
    #[inline(never)]
    pub(crate) fn begin(&self, haystack: &[u8], start: usize) -> Begin
        requires { start ≤ length haystack.now }
        ensures within { IsWithin result (length haystack.now) }
        ensures begins { (t : spec.Tree) → IsFixedWidth t self.now → BeginsBy true t haystack.now start result }
    {
        if start == 0 && self.is_here(haystack) {
            Begin::Match {
                start,
                end: self.len,
            }
        } else {
            Begin::Nowhere
        }
    }

    /// Returns whether the haystack begins with the match.
    fn is_here(&self, haystack: &[u8]) -> bool
        ensures yes { IsTrue result → IsHere self.now haystack.now }
        ensures no { self.now.len ≤ 64 → IsHere self.now haystack.now → IsTrue result }
    {
        let len = self.len;
        if len > OFFSETS.min(haystack.len()) || self.ends && len != haystack.len() {
            return false;
        }
        self.allowed.fit(haystack, len)
    }

    /// Returns how many bytes the match has.
    #[inline(always)]
    pub fn len(&self) -> usize
        ensures { result ≡ self.now.len }
    {
        self.len
    }

    /// Returns the groups that participate, in the order in which they end.
    #[inline(always)]
    pub fn groups(&self) -> &[Group]
        ensures { result.now ≡ self.now.groups.items }
    {
        self.groups.as_slice()
    }
}
