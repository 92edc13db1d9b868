//! The groups of a match in a text.

ghost use Rattle.std.specs.Prelude.{◌≡◌, ◌+◌, ◌/◌, length, map, take, drop, IfOk, IfSome, IsSome, Some, option_map, option_and_then};
ghost use Rattle.bites_spec.specs.Measure.{static_captures_len};
ghost use Rattle.bites_spec.specs.Slots.{group_in};
ghost use Rattle.bites_spec.specs.Pieces.{text_at};
ghost use Rattle.bites_spec.specs.Counts.{fit_of};
ghost use Rattle.bites_spec.specs.Captured.{AreGroups, captured, excerpt};
ghost use Rattle.bites_spec.specs.Expansion.{index_in};
ghost use Rattle.bites_spec.specs.Utf8.{places};
ghost use Rattle.bites_bytes.specs.Calls.{groups_if, CapturesWith, FindsCaptured};
ghost use Rattle.regex_bites.specs.Borders.{MaySearch, MayStart};

use crate::string::{Cache, CaptureLocations, Match, Regex};
use bites_bytes::bytes;
use bites_bytes::debug::{Key, Part};
use bites_machine::interpolate;
use std::alloc::AllocError;
use std::fmt;
use std::marker::Model;

/// The groups of a match. Group 0 participates; any other may or may not. Each that does begins and ends at a
/// character boundary.
///
/// It shares the program with its regex and may outlive it.
///
/// For proofs: a contract sees the regex, the haystack, and the two slots of each group.
pub struct Captures<'h> {
    captures: bytes::Captures<'h>,
    haystack: &'h str,
}

// A caller that drops one relies on this function, and on no type below it.
impl<'h> Drop for Captures<'h> {
    fn drop(self) {
        let Captures {
            captures: _,
            haystack: _,
        } = self;
    }
}

impl<'h> Model for Captures<'h> {
    ghost use Rattle.std.specs.Coded.{codes};
    ghost use Rattle.bites_syntax.specs.TreeCode.{tree_code};
    ghost use Rattle.bites_spec.specs.Captured as spec;
    ghost use Rattle.regex_bites.specs.Borders.{AreGroupsOf};

    ghost Value = { spec.Captured };

    ghost coded = { Prim.hlevel (codes, tree_code) };

    ghost view = { λ a. a.captures };

    ghost invariant = { λ a. AreGroupsOf a.haystack.now a.captures };
}

impl<'h> Captures<'h> {
    ghost use Rattle.std.specs.Prelude.{string_bytes};
    ghost use Rattle.bites_spec.specs.Expansion.{text_in};
    ghost use Rattle.bites_spec.specs.Refused.{AppendsUntilRefused};
    ghost use Rattle.bites_spec.specs.Replaced.{span_in};
    ghost use Rattle.bites_spec.specs.Replacer.{answer_text, expanded};
    ghost use Rattle.bites_bytes.specs.Groups.{AreParts, IsCountOfGroups};
    ghost use Rattle.regex_bites.specs.Matched.{excerpt_of};
    ghost use Rattle.regex_bites.specs.Borders.{AreGroupsIn, AreGroupsOf, IsPart};

    // Returns groups in the bytes of the text as groups in the text.
    pub(super) fn of(haystack: &'h str, captures: bytes::Captures<'h>) -> Captures<'h>
        requires { AreGroupsOf haystack.now captures }
        ensures { result ≡ captures.entry }
    {
        Captures { captures, haystack }
    }

    // Returns the groups that a search wrote into the locations, if it found a match, and else allocates nothing.
    pub(super) fn of_found(
        regex: &Regex,
        haystack: &'h str,
        locations: &CaptureLocations,
        found: bool,
    ) -> Result<Option<Captures<'h>>, AllocError>
        requires { IfSome (groups_if found locations.now) (AreGroupsIn regex.now haystack.now) }
        ensures { IfOk result (λ c. c ≡ option_map (captured regex.now haystack.now) (groups_if found locations.now)) }
    {
        if !found {
            return Ok(None);
        }
        let captures = bytes::Captures::of(
            regex.over_bytes(),
            haystack.as_bytes(),
            &locations.locations,
        )?;
        Ok(Some(Captures::of(haystack, captures)))
    }

    /// Returns the match of the group with this number; group 0 is the whole match. Returns `None` if the group
    /// doesn't participate, and for numbers from [`Captures::len`] on.
    pub fn get(&self, group: usize) -> Option<Match<'h>>
        ensures { option_map excerpt_of result
            ≡ option_map (excerpt self.now.haystack) (group_in self.now.slots group) }
    {
        let found = self.captures.get(group);
        Match::of_found(self.haystack, found)
    }

    // Returns the whole match, which is group 0.
    pub(super) fn whole(&self) -> Match<'h>
        ensures span { excerpt_of result ≡ excerpt self.now.haystack (span_in self.now) }
        ensures part { IsPart self.now.haystack (excerpt_of result) }
    {
        // For proofs: the contract of `len` says that group 0 participates.
        self.len();
        self.get(0).unwrap()
    }

    /// Returns the match of the group with this name. Returns `None` if the group doesn't participate, and if no
    /// group has the name.
    ///
    /// ```rust
    /// let regex = Regex::new(rt.alloc(), r"(?<hour>\d+):(?<minute>\d+)")?;
    /// let captures = regex.captures("at 12:34")?.ok_or("no match")?;
    /// let minute = captures.name("minute").ok_or("no minute")?;
    /// assert_eq!(rt; minute.as_str(), "34");
    /// ```
    pub fn name(&self, name: &str) -> Option<Match<'h>>
        ensures { option_map excerpt_of result ≡ option_map (excerpt self.now.haystack)
            (option_and_then (group_in self.now.slots) (index_in self.now.regex.names name.now)) }
    {
        match self.captures.group_index(name) {
            Some(group) => self.get(group),
            None => None,
        }
    }

    // Returns the text of the group with this number, if it participates.
    fn group_text(&self, group: usize) -> Option<&'h str>
        ensures { answer_text result ≡ text_in self.now.slots self.now.haystack group }
    {
        match self.get(group) {
            Some(found) => Some(found.as_str()),
            None => None,
        }
    }

    /// Appends the expansion of a template: `$name` and `${name}` stand for the text of the group with that name or
    /// number, `$$` for a `$`, and all else for itself.
    ///
    /// A group that doesn't participate or doesn't exist stands for nothing. The error is out of memory; `dst` is
    /// then the old text followed by a prefix of the expansion.
    ///
    /// ```rust
    /// let regex = Regex::new(rt.alloc(), r"(\d+)-(\d+)")?;
    /// let captures = regex.captures("12-34")?.ok_or("no match")?;
    /// let mut text = String::new(rt.alloc());
    /// captures.expand("${2}th of $1, $$5", &mut text)?;
    /// assert_eq!(rt; text.as_str(), "34th of 12, $5");
    /// ```
    pub fn expand(&self, template: &str, dst: &mut String) -> Result<(), AllocError>
        ensures { AppendsUntilRefused result (string_bytes dst.old) (string_bytes dst.new)
            (expanded self.now template.now) }
    {
        interpolate::string(
            template,
            |group: usize| self.group_text(group),
            |name: &str| self.captures.group_index(name),
            dst,
        )
    }

    /// Returns the number of groups, group 0 counted.
    ///
    /// For proofs: the contract also says what holds of the groups of every match. Group 0 participates, and each
    /// group that does lies in the haystack. A caller whose proof needs that calls it.
    pub fn len(&self) -> usize
        ensures { IsCountOfGroups self.now result }
    {
        self.captures.len()
    }

    /// Returns the text of the group with this number, which must participate.
    pub fn part(&self, group: usize) -> &'h str
        requires { IsSome (group_in self.now.slots group) }
        ensures { Some result.now ≡ option_map (text_at self.now.haystack) (group_in self.now.slots group) }
    {
        self.get(group).unwrap().as_str()
    }

    /// Returns the text of the group with this name, which must participate.
    pub fn part_named(&self, name: &str) -> &'h str
        requires { IsSome (option_and_then (group_in self.now.slots) (index_in self.now.regex.names name.now)) }
        ensures { Some result.now ≡ option_map (text_at self.now.haystack)
            (option_and_then (group_in self.now.slots) (index_in self.now.regex.names name.now)) }
    {
        self.name(name).unwrap().as_str()
    }

    /// Returns the text of the match, and fills `parts` with the texts of the first groups after group 0 that
    /// participate, in the order of their numbers.
    ///
    /// `parts` must be one shorter than [`Regex::static_captures_len`], so that enough groups participate in every
    /// match. For `(?:(a)|(b))+` that is `Some(2)`, and the one part is `a` on `ab`. It allocates nothing.
    pub fn extract(&self, parts: &mut [&'h str]) -> &'h str
        requires { static_captures_len self.now.regex.tree ≡ Some (length parts.old + 1) }
        ensures { AreParts self.now (length parts.old) result.now (map (λ text. text.now) parts.new) }
    {
        let mut filled = 0;
        for group in 1..self.len() {
            if filled == parts.len() {
                break;
            }
            if let Some(text) = self.group_text(group) {
                parts[filled] = text;
                filled += 1;
            }
        }
        self.part(0)
    }

    // Returns where a group begins and ends, and its text, if it participates.
    fn debug_part(&self, group: usize) -> Part<&'h str> {
        match self.get(group) {
            Some(found) => Part(Some((found.start(), found.end(), found.as_str()))),
            None => Part(None),
        }
    }
}

/// The groups by their numbers and names.
#[derive(Clone, Copy)]
struct Groups<'c, 'h>(&'c Captures<'h>);

impl<'c, 'h> fmt::Debug for Groups<'c, 'h> {
    fn fmt<W: fmt::Write>(&self, f: &mut fmt::Formatter<W>) -> fmt::Result {
        let captures = self.0;
        let mut map = f.debug_map();
        for (number, name) in captures.captures.capture_names().enumerate() {
            map.entry(&Key { number, name }, &captures.debug_part(number));
        }
        map.finish()
    }
}

impl<'h> fmt::Debug for Captures<'h> {
    fn fmt<W: fmt::Write>(&self, f: &mut fmt::Formatter<W>) -> fmt::Result {
        f.debug_tuple("Captures").field(&Groups(self)).finish()
    }
}

impl Regex {
    /// Returns the groups of the leftmost match in the haystack. The error is out of memory.
    ///
    /// At worst a search for groups takes time that grows with states times slots times characters.
    ///
    /// ```rust
    /// let regex = Regex::new(rt.alloc(), r"(\w+)=(\w+)?")?;
    /// let captures = regex.captures("key=")?.ok_or("no match")?;
    /// let key = captures.get(1).ok_or("no key")?;
    /// assert_eq!(rt; key.as_str(), "key");
    /// assert_eq!(rt; captures.get(2), None);
    /// ```
    pub fn captures<'h>(&self, haystack: &'h str) -> Result<Option<Captures<'h>>, AllocError>
        ensures { IfOk result (FindsCaptured self.now haystack.now (places haystack.now 0)) }
    {
        self.captures_at(haystack, 0)
    }

    /// Returns the groups of the leftmost match at or after `start`, an offset in bytes. Past the end of the haystack
    /// nothing matches. A start within the haystack must be at a character boundary, as `str::is_char_boundary`
    /// tests. The error is out of memory.
    ///
    /// Assertions look at the bytes before `start` too, so this differs from a search of the slice that begins there.
    pub fn captures_at<'h>(
        &self,
        haystack: &'h str,
        start: usize,
    ) -> Result<Option<Captures<'h>>, AllocError>
        requires { MayStart haystack.now start }
        ensures { IfOk result (FindsCaptured self.now haystack.now (places haystack.now start)) }
    {
        let mut cache = self.cache()?;
        self.captures_at_with(&mut cache, haystack, start)
    }

    /// Like [`Regex::captures`], but with a cache that fits. It allocates the groups alone.
    ///
    /// [`Regex::captures_read_with`] allocates nothing.
    pub fn captures_with<'h>(
        &self,
        cache: &mut Cache,
        haystack: &'h str,
    ) -> Result<Option<Captures<'h>>, AllocError>
        requires { cache.old.fits ≡ fit_of self.now.program }
        ensures { CapturesWith self.now haystack.now 0 result cache.old cache.new }
    {
        self.captures_at_with(cache, haystack, 0)
    }

    /// Like [`Regex::captures_at`], but with a cache that fits. It allocates the groups alone.
    pub fn captures_at_with<'h>(
        &self,
        cache: &mut Cache,
        haystack: &'h str,
        start: usize,
    ) -> Result<Option<Captures<'h>>, AllocError>
        requires { MaySearch self.now haystack.now start cache.old }
        ensures { CapturesWith self.now haystack.now start result cache.old cache.new }
    {
        match self
            .over_bytes()
            .captures_at_with(&mut cache.cache, haystack.as_bytes(), start)?
        {
            Some(captures) => Ok(Some(Captures::of(haystack, captures))),
            None => Ok(None),
        }
    }
}
