//! The groups of a match.

ghost use Rattle.std.specs.Prelude.{◌≡◌, ◌+◌, ◌/◌, length, map, take, drop, IfOk, IfSome, IsSome, Some, option_map, option_and_then};
ghost use Rattle.bites_spec.specs.Measure.{static_captures_len};
ghost use Rattle.bites_spec.specs.Slots.{group_in};
ghost use Rattle.bites_spec.specs.Counts.{fit_of};
ghost use Rattle.bites_bytes.specs.Calls.{groups_if, CapturesBy, CapturesWith, FindsCaptured};
ghost use Rattle.bites_spec.specs.Pieces.{text_at};
ghost use Rattle.bites_spec.specs.Captured.{AreGroups, captured, excerpt};
ghost use Rattle.bites_spec.specs.Utf8.{places};

use crate::bytes::regex::Compiled;
use crate::bytes::{Cache, CaptureLocations, CaptureNames, Match, Regex, SubCaptureMatches};
use crate::debug::{Key, Part};
use bites_machine::interpolate;
use std::alloc::AllocError;
use std::fmt;
use std::marker::Model;
use std::snapshot::Snapshot;
use std::sync::Arc;

/// The groups of a match. Group 0 participates; any other may or may not.
///
/// It shares the program with its regex and may outlive it.
///
/// For proofs: a contract sees the regex, the haystack, and the two slots of each group.
pub struct Captures<'h> {
    compiled: Arc<Compiled>,
    haystack: &'h [u8],
    locations: CaptureLocations,
    // For proofs: whether the regex has a table, and whether its searches look for a literal first. These take no memory, and
    // only contracts speak of them.
    has_table: Snapshot<bool>,
    prefilter: Snapshot<bool>,
}

// A caller that drops one relies on this function, and on no type below it.
impl<'h> Drop for Captures<'h> {
    fn drop(self) {
        let Captures {
            compiled: _,
            haystack: _,
            locations: _,
            has_table: _,
            prefilter: _,
        } = self;
    }
}

impl<'h> Model for Captures<'h> {
    ghost use Rattle.std.specs.Coded.{codes};
    ghost use Rattle.bites_syntax.specs.TreeCode.{tree_code};
    ghost use Rattle.bites_spec.specs.Captured as spec;
    ghost use Rattle.bites_spec.specs.Regex.{with_prefilter, with_table};

    ghost Value = { spec.Captured };

    ghost coded = { Prim.hlevel (codes, tree_code) };

    ghost view = { λ a. spec.captured (with_prefilter a.prefilter.value (with_table a.has_table.value a.compiled.value))
        a.haystack.now a.locations };

    ghost invariant = { λ a.
        spec.AreGroups (with_prefilter a.prefilter.value (with_table a.has_table.value a.compiled.value))
        a.haystack.now a.locations };
}

impl<'h> Captures<'h> {
    ghost use Rattle.bites_spec.specs.Expansion.{index_in, text_in};
    ghost use Rattle.bites_spec.specs.Refused.{AppendsUntilRefused};
    ghost use Rattle.bites_bytes.specs.Groups.{AreParts, IsCountOfGroups};
    ghost use Rattle.bites_bytes.specs.Matched.{excerpt_of};
    ghost use Rattle.bites_spec.specs.Replacer.{answer_text, expanded};

    // Returns the groups of the match that a search finds, one that begins at `start` if it is anchored.
    pub(super) fn find(
        regex: &Regex,
        cache: &mut Cache,
        haystack: &'h [u8],
        start: usize,
        anchored: bool,
    ) -> Result<Option<Captures<'h>>, AllocError>
        requires { cache.old.fits ≡ fit_of regex.now.program }
        ensures { CapturesBy anchored regex.now haystack.now start result cache.old cache.new }
    {
        let mut locations = regex.capture_locations()?;
        if locations
            .find(regex, cache, haystack, start, anchored)
            .is_none()
        {
            return Ok(None);
        }
        Ok(Some(Captures::new(regex, haystack, locations)?))
    }

    // Returns the groups whose offsets the locations have.
    pub(super) fn new(
        regex: &Regex,
        haystack: &'h [u8],
        locations: CaptureLocations,
    ) -> Result<Captures<'h>, AllocError>
        requires { AreGroups regex.now haystack.now locations }
        ensures { IfOk result (λ c. c ≡ captured regex.now haystack.now locations) }
    {
        Ok(Captures {
            compiled: regex.compiled().clone()?,
            haystack,
            locations,
            has_table: regex.has_table(),
            prefilter: regex.prefilter(),
        })
    }

    /// Returns the groups that a search of the regex in the haystack wrote into the locations, as
    /// [`Regex::captures_read`] does if something matches. It allocates a copy of the locations, and the error is out
    /// of memory.
    ///
    /// ```rust
    /// let regex = Regex::new(rt.alloc(), "a(b)?")?;
    /// let mut cache = regex.cache()?;
    /// let mut locations = regex.capture_locations()?;
    /// assert!(rt; regex.captures_read_full_with(&mut cache, &mut locations, b"ab"));
    /// let captures = Captures::of(&regex, b"ab", &locations)?;
    /// let group = captures.get(1).ok_or("no group")?;
    /// assert_eq!(rt; group.range(), 1..2);
    /// ```
    pub fn of(
        regex: &Regex,
        haystack: &'h [u8],
        locations: &CaptureLocations,
    ) -> Result<Captures<'h>, AllocError>
        requires { AreGroups regex.now haystack.now locations.now }
        ensures { IfOk result (λ c. c ≡ captured regex.now haystack.now locations.now) }
    {
        Captures::new(regex, haystack, locations.clone()?)
    }

    // Returns these groups if a match was found, and else allocates nothing.
    pub(super) fn of_found(
        regex: &Regex,
        haystack: &'h [u8],
        locations: &CaptureLocations,
        found: bool,
    ) -> Result<Option<Captures<'h>>, AllocError>
        requires { IfSome (groups_if found locations.now) (AreGroups regex.now haystack.now) }
        ensures { IfOk result (λ c. c ≡ option_map (captured regex.now haystack.now) (groups_if found locations.now)) }
    {
        if !found {
            return Ok(None);
        }
        Ok(Some(Captures::of(regex, haystack, locations)?))
    }

    /// Returns the match of the group with this number; group 0 is the whole match. Returns `None` if the group
    /// doesn't participate, and for numbers from [`Captures::len`] on.
    pub fn get(&self, group: usize) -> Option<Match<'h>>
        ensures { option_map excerpt_of result
            ≡ option_map (excerpt self.now.haystack) (group_in self.now.slots group) }
    {
        Match::at(self.haystack, self.locations.get(group))
    }

    /// Returns the match of the group with this name. Returns `None` if the group doesn't participate, and if no
    /// group has the name.
    ///
    /// ```rust
    /// let regex = Regex::new(rt.alloc(), r"(?<hour>\d+):(?<minute>\d+)")?;
    /// let captures = regex.captures(b"at 12:34")?.ok_or("no match")?;
    /// let minute = captures.name("minute").ok_or("no minute")?;
    /// assert_eq!(rt; minute.as_bytes(), b"34".as_slice());
    /// ```
    pub fn name(&self, name: &str) -> Option<Match<'h>>
        ensures { option_map excerpt_of result ≡ option_map (excerpt self.now.haystack)
            (option_and_then (group_in self.now.slots) (index_in self.now.regex.names name.now)) }
    {
        match self.group_index(name) {
            Some(group) => self.get(group),
            None => None,
        }
    }

    /// Returns the number of the first group with this name, or `None` if no group has it.
    pub fn group_index(&self, name: &str) -> Option<usize>
        ensures { result ≡ index_in self.now.regex.names name.now }
    {
        self.compiled.group_index(name)
    }

    /// Returns an iterator over the names of the groups, from group 0 on. An item is `None` if its group has no name;
    /// group 0 has none.
    pub fn capture_names(&self) -> CaptureNames<'_>
        ensures { result ≡ self.now.regex.names }
    {
        CaptureNames::new(self.compiled.program())
    }

    // Returns the bytes of the group with this number, if it participates.
    fn group_bytes(&self, group: usize) -> Option<&'h [u8]>
        ensures { answer_text result ≡ text_in self.now.slots self.now.haystack group }
    {
        match self.get(group) {
            Some(found) => Some(found.as_bytes()),
            None => None,
        }
    }

    /// Appends the expansion of a template: `$name` and `${name}` stand for the bytes of the group with that name or
    /// number, `$$` for a `$`, and all else for itself.
    ///
    /// A group that doesn't participate or doesn't exist stands for nothing. The error is out of memory; `dst` is
    /// then the old bytes followed by a prefix of the expansion.
    pub fn expand(&self, template: &[u8], dst: &mut Vec<u8>) -> Result<(), AllocError>
        ensures { AppendsUntilRefused result dst.old.items dst.new.items (expanded self.now template.now) }
    {
        interpolate::bytes(
            template,
            |group: usize| self.group_bytes(group),
            |name: &str| self.group_index(name),
            dst,
        )
    }

    /// Returns the number of groups, group 0 counted.
    ///
    /// For proofs: the contract also says what holds of the groups of every match. Group 0 participates, and each
    /// group that does lies in the haystack. A caller whose proof needs that calls it.
    pub fn len(&self) -> usize
        ensures { IsCountOfGroups self.now result }
    {
        self.compiled.program().slots() / 2
    }

    /// Returns the bytes of the group with this number, which must participate.
    pub fn part(&self, group: usize) -> &'h [u8]
        requires { IsSome (group_in self.now.slots group) }
        ensures { Some result.now ≡ option_map (text_at self.now.haystack) (group_in self.now.slots group) }
    {
        self.get(group).unwrap().as_bytes()
    }

    /// Returns the bytes of the group with this name, which must participate.
    pub fn part_named(&self, name: &str) -> &'h [u8]
        requires { IsSome (option_and_then (group_in self.now.slots) (index_in self.now.regex.names name.now)) }
        ensures { Some result.now ≡ option_map (text_at self.now.haystack)
            (option_and_then (group_in self.now.slots) (index_in self.now.regex.names name.now)) }
    {
        self.name(name).unwrap().as_bytes()
    }

    /// Returns the bytes of the match, and fills `parts` with the bytes of the first groups after group 0 that
    /// participate, in the order of their numbers.
    ///
    /// `parts` must be one shorter than [`Regex::static_captures_len`], so that enough groups participate in every
    /// match. For `(?:(a)|(b))+` that is `Some(2)`, and the one part is `a` on `ab`. It allocates nothing.
    pub fn extract(&self, parts: &mut [&'h [u8]]) -> &'h [u8]
        requires { static_captures_len self.now.regex.tree ≡ Some (length parts.old + 1) }
        ensures { AreParts self.now (length parts.old) result.now (map (λ text. text.now) parts.new) }
    {
        let mut filled = 0;
        for group in 1..self.len() {
            if filled == parts.len() {
                break;
            }
            if let Some(text) = self.group_bytes(group) {
                parts[filled] = text;
                filled += 1;
            }
        }
        self.part(0)
    }
}

/// The groups by their numbers and names.
#[derive(Clone, Copy)]
struct Groups<'c, 'h>(&'c Captures<'h>);

impl<'c, 'h> fmt::Debug for Groups<'c, 'h> {
    fn fmt<W: fmt::Write>(&self, f: &mut fmt::Formatter<W>) -> fmt::Result {
        let captures = self.0;
        let mut map = f.debug_map();
        for (number, name) in captures.capture_names().enumerate() {
            map.entry(&Key { number, name }, &captures.debug_part(number));
        }
        map.finish()
    }
}

impl<'h> fmt::Debug for Captures<'h> {
    fn fmt<W: fmt::Write>(&self, f: &mut fmt::Formatter<W>) -> fmt::Result {
        f.debug_tuple("Captures").field(&Groups(self)).finish()
    }
}

impl<'h> Captures<'h> {
    // Returns where a group begins and ends, and its bytes, if it participates.
    fn debug_part(&self, group: usize) -> Part<&'h [u8]> {
        match self.get(group) {
            Some(found) => Part(Some((found.start(), found.end(), found.as_bytes()))),
            None => Part(None),
        }
    }
}

impl Regex {
    /// Returns the groups of the leftmost match in the haystack. The error is out of memory.
    ///
    /// At worst a search for groups takes time that grows with states times slots times characters.
    ///
    /// ```rust
    /// let regex = Regex::new(rt.alloc(), r"(\w+)=(\w+)?")?;
    /// let captures = regex.captures(b"key=")?.ok_or("no match")?;
    /// let key = captures.get(1).ok_or("no key")?;
    /// assert_eq!(rt; key.as_bytes(), b"key".as_slice());
    /// assert_eq!(rt; captures.get(2), None);
    /// ```
    pub fn captures<'h>(&self, haystack: &'h [u8]) -> Result<Option<Captures<'h>>, AllocError>
        ensures { IfOk result (FindsCaptured self.now haystack.now (places haystack.now 0)) }
    {
        self.captures_at(haystack, 0)
    }

    /// Returns the groups of the leftmost match at or after `start`, an offset in bytes. Past the end of the haystack
    /// nothing matches. The error is out of memory.
    ///
    /// Assertions look at the bytes before `start` too, so this differs from a search of the slice that begins there.
    pub fn captures_at<'h>(
        &self,
        haystack: &'h [u8],
        start: usize,
    ) -> Result<Option<Captures<'h>>, AllocError>
        ensures { IfOk result (FindsCaptured self.now haystack.now (places haystack.now start)) }
    {
        let mut cache = self.cache()?;
        self.captures_at_with(&mut cache, haystack, start)
    }

    /// Like [`Regex::captures`], but with a cache that fits. It allocates the groups alone.
    ///
    /// [`Regex::captures_read_with`] allocates nothing.
    pub fn captures_with<'h>(
        &self,
        cache: &mut Cache,
        haystack: &'h [u8],
    ) -> Result<Option<Captures<'h>>, AllocError>
        requires { cache.old.fits ≡ fit_of self.now.program }
        ensures { CapturesWith self.now haystack.now 0 result cache.old cache.new }
    {
        self.captures_at_with(cache, haystack, 0)
    }

    /// Like [`Regex::captures_at`], but with a cache that fits. It allocates the groups alone.
    pub fn captures_at_with<'h>(
        &self,
        cache: &mut Cache,
        haystack: &'h [u8],
        start: usize,
    ) -> Result<Option<Captures<'h>>, AllocError>
        requires { cache.old.fits ≡ fit_of self.now.program }
        ensures { CapturesWith self.now haystack.now start result cache.old cache.new }
    {
        Captures::find(self, cache, haystack, start, false)
    }
}
