//! The memory of searches.

ghost use Rattle.std.specs.Prelude.{◌≡◌, ◌↔◌, ◌≤◌, ◌<◌, ◌+◌, ◌^◌, false, true, length, option_map, IsTrue, IfOk, IfSome};
ghost use Rattle.bites_spec.specs.Counts.{fit_of, fit_with};
ghost use Rattle.bites_bytes.specs.Calls.{BothFit, EndsWith, MakesAtMost, TestsBy};
ghost use Rattle.bites_bytes.specs.Rooms.{HasRoom, MayAsk, MayLeave};
ghost use Rattle.bites_spec.specs.Match.{span};
ghost use Rattle.bites_spec.specs.Slots.{slot_in, group_in};
ghost use Rattle.bites_spec.specs.Utf8.{step_len};
ghost use Rattle.bites_bytes.specs.Matched.{excerpt_of};
ghost use Rattle.bites_bytes.specs.NextMatch.{AsksFew, BeginsBy, FindsRun, IsExplored, IsMatch, IsSearched, LeavesFull, LeavesNext, MatchesFirst, asks_end};
ghost use Rattle.bites_literals.specs.Begins.{place_of};
ghost use Rattle.bites_bytes.specs.FixedGroups.{AreFixed};
ghost use Rattle.bites_bytes.specs.Traced.{IsTracedBy};
ghost use Rattle.bites_machine.specs.declared.vm.MatchKind.TheVariants.{Earliest, Longest};

use crate::bytes::{Match, Regex};
use bites_literals::prefilter::{Begin, Serves};
use bites_machine::program::Program;
use bites_machine::slot::Slot;
use bites_machine::vm::{Input, MatchKind};
use bites_table::cache;
use bites_table::trace::TracedSearch;
use bites_text::utf8::decode_lossy;
use std::alloc::AllocError;
use std::fmt;
use std::marker::Model;

// A literal that stands within so many bytes of the start of a search gains nothing.
const NEAR: usize = 16;

// After so many searches of that kind others leave the literal out.
const PATIENCE: u8 = 8;

// How many searches leave it out before one looks again.
const LEFT_OUT: u8 = 16;

// When a search looks for a literal. Where it stood close to the starts of many searches, most of those that follow leave it out.
// Only speed depends on it.
#[derive(Clone, Copy, Drop)]
struct Tries {
    // How many searches found it there, of those that looked last.
    near: u8,
    // How many searches to come leave it out.
    left_out: u8,
}

impl Tries {
    // Returns the tries before the first search.
    fn new() -> Tries {
        Tries {
            near: 0,
            left_out: 0,
        }
    }

    // Returns whether the next search looks for a literal.
    fn is_next(&mut self) -> bool {
        if self.left_out == 0 {
            return true;
        }
        self.left_out -= 1;
        false
    }

    // Counts what the prefilter told a search from `start` on. A match that it told is not counted, whether or not that answers the
    // search.
    fn count(&mut self, begin: Begin, start: usize) {
        match begin {
            Begin::Nowhere => self.near = 0,
            Begin::From(place) if place >= start.saturating_add(NEAR) => self.near /= 2,
            Begin::From(_) if self.near < PATIENCE => self.near += 1,
            Begin::From(_) => self.left_out = LEFT_OUT,
            Begin::Match { .. } => {}
        }
    }
}

/// The memory of searches, made by [`Regex::cache`] and reused by the methods whose names end in `_with`.
///
/// No search makes it larger, and none changes what a later search returns.
///
/// For proofs: a contract sees which regexes it fits, what the last search visited, and how many searches it was used for.
pub struct Cache {
    room: cache::Cache,
    tries: Tries,
}

// A caller that drops one relies on this function, and on no type below it.
impl Drop for Cache {
    fn drop(self) {
        let Cache { room: _, tries: _ } = self;
    }
}

impl Model for Cache {
    ghost use Rattle.bites_spec.specs.Counts.{Room};

    ghost Value = { Room };

    ghost view = { λ a. a.room };
}

impl Cache {
    pub(super) fn new(program: &Program) -> Result<Cache, AllocError>
        ensures { IfOk result (λ c. c.fits ≡ fit_of program.now.program) }
    {
        Ok(Cache {
            room: cache::Cache::new(program)?,
            tries: Tries::new(),
        })
    }

    // Allocates a cache for searches that ask for at most so many slots.
    pub(super) fn for_slots(program: &Program, slots: usize) -> Result<Cache, AllocError>
        ensures { IfOk result (λ c. c.fits ≡ fit_with program.now.program slots) }
    {
        Ok(Cache {
            room: cache::Cache::for_slots(program, slots)?,
            tries: Tries::new(),
        })
    }

    // Searches as the input asks, and returns whether it finds a match. Writes the slots of the match, as many as are
    // given; without a match they are unchanged.
    //
    // All searches after one another look at a byte for a literal once: a match from there on holds the literal, so the next
    // search begins behind it.
    // All of it stands in each caller, up to the loop over bytes. So a match costs one call, unless a literal is looked for. The search
    // that is made has an input of its own, so that what the caller asks for stays known here.
    #[inline(always)]
    fn search(&mut self, regex: &Regex, asked: &Input<'_>, slots: &mut [Slot]) -> bool
        requires { MayAsk self.old.fits regex.now.program (length slots.old) }
        ensures { IsSearched regex.now asked.now result slots.old slots.new self.old self.new }
    {
        let begin = self.begin(regex, asked);
        let place = begin.place(asked.haystack);
        if let Begin::Match { start, end } = begin {
            if asks_few(asked.kind, slots.len()) {
                return self.take_match(regex, asked.haystack, asked, start, end, slots);
            }
            if !matches!(asked.kind, MatchKind::Earliest) {
                if let Some(fixed) = regex.fixed_slots() {
                    return self.take_groups(regex, fixed, asked.haystack, asked, start, end, slots);
                }
            }
        }
        let input = Input {
            haystack: asked.haystack,
            start: place,
            anchored: regex.explores_at(asked.anchored, asked.kind),
            kind: asked.kind,
        };
        if matches!(asked.kind, MatchKind::Longest) && !input.anchored {
            return self.explore_longest(regex, &input, slots);
        }
        self.explore(regex, &input, slots)
    }

    // Finds the match that the prefilter tells, and writes its ends, as many as are given.
    #[inline(always)]
    fn take_match(
        &mut self,
        regex: &Regex,
        haystack: &[u8],
        asked: &Input<'_>,
        start: usize,
        end: usize,
        slots: &mut [Slot],
    ) -> bool
        requires haystack { haystack.now ≡ asked.now.haystack.now }
        requires few { AsksFew asked.now.kind (length slots.old) }
        requires asked { asked.now.anchored ≡ false }
        requires found { IsMatch (asks_end asked.now.kind) regex.now asked.now.haystack.now asked.now.start start end }
        ensures { IsSearched regex.now asked.now result slots.old slots.new self.old self.new }
    {
        self.room.record_run(regex.program(), haystack, start);
        if slots.len() == 2 {
            slots[0] = Slot::at(start);
            slots[1] = Slot::at(end);
        }
        true
    }

    // Finds the one match of the pattern, and writes its slots, which are `fixed`. It is a call, since it is more than other searches do
    // here.
    #[inline(never)]
    fn take_groups(
        &mut self,
        regex: &Regex,
        fixed: &[Slot],
        haystack: &[u8],
        asked: &Input<'_>,
        start: usize,
        end: usize,
        slots: &mut [Slot],
    ) -> bool
        requires haystack { haystack.now ≡ asked.now.haystack.now }
        requires all { length slots.old ≡ regex.now.program.slots }
        requires kind { asked.now.kind ≡ Earliest → ⊥ }
        requires asked { asked.now.anchored ≡ false }
        requires fixed { AreFixed regex.now.tree regex.now.program.slots fixed.now }
        requires found { IsMatch (asks_end asked.now.kind) regex.now asked.now.haystack.now asked.now.start start end }
        ensures { IsSearched regex.now asked.now result slots.old slots.new self.old self.new }
    {
        self.room.record_run(regex.program(), haystack, start);
        slots.copy_from_slice(fixed);
        true
    }

    // Searches for the longest match from the start of the input on. It begins where the first match does, which a whole table finds. So
    // a search at that place alone finds it. It is a call, so that the loops of other searches keep their registers.
    #[inline(never)]
    fn explore_longest(&mut self, regex: &Regex, input: &Input<'_>, slots: &mut [Slot]) -> bool
        requires may { MayAsk self.old.fits regex.now.program (length slots.old) }
        requires longest { input.now.kind ≡ Longest }
        requires unanchored { input.now.anchored ≡ false }
        ensures { IsExplored regex.now input.now result slots.old slots.new self.old self.new }
    {
        if slots.len() < 2 || !regex.has_whole_table() {
            return self.explore(regex, input, slots);
        }
        let first = Input {
            haystack: input.haystack,
            start: input.start,
            anchored: false,
            kind: MatchKind::First,
        };
        let mut ends = [Slot::unwritten(); 2];
        if !self.explore(regex, &first, &mut ends) {
            return false;
        }
        let Some((start, _)) = ends_in(&ends) else {
            return false;
        };
        let here = Input {
            haystack: input.haystack,
            start,
            anchored: true,
            kind: MatchKind::Longest,
        };
        self.explore(regex, &here, slots)
    }

    // Returns from where a search explores that the input asks for, or its match. The literal is left out for some searches if it
    // stood close to the starts of many before, so that searches for frequent literals take little longer than those without. It is not
    // left out where the prefilter serves each search.
    #[inline(always)]
    fn begin(&mut self, regex: &Regex, input: &Input<'_>) -> Begin
        ensures begins { BeginsBy input.now.anchored regex.now input.now.haystack.now input.now.start (place_of input.now.haystack.now result) }
        ensures found { MatchesFirst regex.now input.now result }
        ensures same { self.new ≡ self.old }
    {
        if input.anchored {
            return Begin::From(input.start);
        }
        let looks = match regex.asked_by() {
            Serves::NoSearch => false,
            Serves::MostSearches => self.tries.is_next(),
            Serves::EachSearch => true,
        };
        if !looks {
            return Begin::From(input.start);
        }
        let begin = regex.begin(input.haystack, input.start, asks_end(input.kind));
        self.tries.count(begin, input.start);
        begin
    }

    // Searches from the start of the input on, with the table of the regex if it serves such a search.
    #[inline(always)]
    fn explore(&mut self, regex: &Regex, input: &Input<'_>, slots: &mut [Slot]) -> bool
        requires { MayAsk self.old.fits regex.now.program (length slots.old) }
        ensures { IsExplored regex.now input.now result slots.old slots.new self.old self.new }
    {
        let program = regex.program();
        // For proofs: the contract of `start` says that a program has two slots at least.
        program.start();
        let table = regex.table_for(input.anchored);
        self.room.search(program, table, input, slots)
    }

    // Searches from the start of the input on, for all slots, and returns how the search came over the places.
    pub(super) fn trace(
        &mut self,
        regex: &Regex,
        input: &Input<'_>,
        slots: &mut [Slot],
    ) -> Result<TracedSearch, AllocError>
        requires { BothFit regex.now self.old slots.old }
        ensures { IfOk result (IsTracedBy regex.now input.now slots.old) }
    {
        self.room
            .trace(regex.program(), regex.table(), input, slots)
    }

    // Returns the match of the kind that the regex searches for, one that begins at `start` if the search is anchored, and
    // writes its slots, as many as are given. Without a match they are unchanged.
    #[inline(always)]
    pub(super) fn find<'h>(
        &mut self,
        regex: &Regex,
        haystack: &'h [u8],
        start: usize,
        anchored: bool,
        slots: &mut [Slot],
    ) -> Option<Match<'h>>
        requires { MayLeave self.old.fits regex.now.program (length slots.old) }
        ensures { FindsRun excerpt_of anchored regex.now haystack.now start result slots.old slots.new self.old self.new }
    {
        let input = Input {
            haystack,
            start,
            anchored,
            kind: regex.kind(),
        };
        if !self.search(regex, &input, slots) {
            return None;
        }
        Match::at(haystack, ends_in(slots))
    }

    // Returns whether there is a match, one that begins at `start` if the search is anchored. It asks for no slots, and stops
    // at the first end of a match.
    #[inline(always)]
    pub(super) fn is_match(
        &mut self,
        regex: &Regex,
        haystack: &[u8],
        start: usize,
        anchored: bool,
    ) -> bool
        requires { HasRoom self.old.fits regex.now.program 0 }
        ensures { TestsBy anchored regex.now haystack.now start result self.old self.new }
    {
        let input = Input {
            haystack,
            start,
            anchored,
            kind: MatchKind::Earliest,
        };
        self.search(regex, &input, &mut [])
    }

    // Returns the least end of all matches.
    pub(super) fn shortest(&mut self, regex: &Regex, haystack: &[u8], start: usize) -> Option<usize>
        requires { HasRoom self.old.fits regex.now.program 2 }
        ensures { EndsWith regex.now haystack.now start result self.old self.new }
    {
        let input = Input {
            haystack,
            start,
            anchored: false,
            kind: MatchKind::Earliest,
        };
        let mut slots = [Slot::unwritten(); 2];
        if !self.search(regex, &input, &mut slots) {
            return None;
        }
        end_in(&slots)
    }

    // Returns the next match after one that ends at `last`, or the first match, and writes its slots, as many as are
    // given. Without a match the slots may be written too.
    #[inline(always)]
    pub(super) fn find_next<'h>(
        &mut self,
        regex: &Regex,
        haystack: &'h [u8],
        last: Option<usize>,
        slots: &mut [Slot],
    ) -> Option<Match<'h>>
        requires { MayLeave self.old.fits regex.now.program (length slots.old) }
        ensures { LeavesNext regex.now haystack.now last (option_map excerpt_of result) (length slots.old) slots.new self.old self.new }
    {
        let start = last.unwrap_or(0);
        let found = self.find(regex, haystack, start, false, slots)?;
        let Some(end) = last else {
            return Some(found);
        };
        // A match that ends where the last one did is empty.
        if found.end() != end {
            return Some(found);
        }
        self.find_later(regex, haystack, end + step_at(haystack, end), slots)
    }

    // Returns the match behind an empty one that was found again. It is a call, since few searches need it.
    #[inline(never)]
    fn find_later<'h>(
        &mut self,
        regex: &Regex,
        haystack: &'h [u8],
        start: usize,
        slots: &mut [Slot],
    ) -> Option<Match<'h>>
        requires { MayLeave self.old.fits regex.now.program (length slots.old) }
        ensures { FindsRun excerpt_of false regex.now haystack.now start result slots.old slots.new self.old self.new }
    {
        self.find(regex, haystack, start, false, slots)
    }

    // Writes the slots of the preferred match of the whole haystack, and returns whether there is one. Without one the
    // slots may be written too.
    pub(super) fn find_full(&mut self, regex: &Regex, haystack: &[u8], slots: &mut [Slot]) -> bool
        requires { MayLeave self.old.fits regex.now.program (length slots.old) }
        ensures { LeavesFull 2 regex.now haystack.now result (length slots.old) slots.new self.old self.new }
    {
        match self.find_full_by_table(regex, haystack, slots) {
            Some(is_found) => is_found,
            None => self.find_full_longest(regex, haystack, slots),
        }
    }

    // Does the same by a whole table: it is the first match from the start, if that ends where the haystack does. Returns `None` where
    // another match may do so, or where no such table serves the search.
    fn find_full_by_table(
        &mut self,
        regex: &Regex,
        haystack: &[u8],
        slots: &mut [Slot],
    ) -> Option<bool>
        requires { MayLeave self.old.fits regex.now.program (length slots.old) }
        ensures full { IfSome result (λ found. LeavesFull 1 regex.now haystack.now found (length slots.old) slots.new self.old self.new) }
        ensures fits { self.new.fits ≡ self.old.fits }
        ensures searches { MakesAtMost 1 self.old self.new }
    {
        let anchored = regex.explores_at(true, MatchKind::First);
        // What is not known would be searched by the Pike VM, and so by the second search again. If the lists at one place are those for
        // the longest match, the second search alone answers.
        let table = regex.table_for(anchored)?;
        if !table.is_whole() || table.is_longest() {
            return None;
        }
        let input = Input {
            haystack,
            start: 0,
            anchored: true,
            kind: MatchKind::First,
        };
        if !self.search(regex, &input, slots) {
            return Some(false);
        }
        if end_in(slots) == Some(haystack.len()) {
            return Some(true);
        }
        None
    }

    // Does the same by one search: it is the longest match from the start, if that ends where the haystack does.
    fn find_full_longest(&mut self, regex: &Regex, haystack: &[u8], slots: &mut [Slot]) -> bool
        requires { MayLeave self.old.fits regex.now.program (length slots.old) }
        ensures { LeavesFull 1 regex.now haystack.now result (length slots.old) slots.new self.old self.new }
    {
        let input = Input {
            haystack,
            start: 0,
            anchored: true,
            kind: MatchKind::Longest,
        };
        if !self.search(regex, &input, slots) {
            return false;
        }
        end_in(slots) == Some(haystack.len())
    }

    /// Returns whether searches with this regex may use the cache. They may if it was made for a program with as many
    /// states, slots and targets.
    pub fn fits(&self, regex: &Regex) -> bool
        ensures { IsTrue result ↔ (self.now.fits ≡ fit_of regex.now.program) }
    {
        self.room.fits_program(regex.program())
    }
}

// Returns whether a search asks where the match ends that the prefilter tells. The least end is not that one.
#[inline(always)]
fn asks_end(kind: MatchKind) -> bool
    ensures { result ≡ asks_end kind }
{
    !matches!(kind, MatchKind::Earliest)
}

// Returns whether a search asks for no slot, or for two and not for those of the least end.
#[inline(always)]
fn asks_few(kind: MatchKind, slots: usize) -> bool
    ensures { IsTrue result ↔ AsksFew kind slots }
{
    slots == 0 || slots == 2 && !matches!(kind, MatchKind::Earliest)
}

// Returns the offsets in the first two slots, if both are known.
fn ends_in(slots: &[Slot]) -> Option<(usize, usize)>
    requires { 2 ≤ length slots.now }
    ensures { option_map (λ s. span s.0 s.1) result ≡ group_in slots.now 0 }
{
    Some((slots[0].place()?, slots[1].place()?))
}

// Returns the offset in the second slot, if it is known.
fn end_in(slots: &[Slot]) -> Option<usize>
    requires { 2 ≤ length slots.now }
    ensures { result ≡ slot_in slots.now 1 }
{
    slots[1].place()
}

// Returns the distance in bytes to the next place: the length of the piece that stands here, or 1 at the end of the
// haystack.
#[tactic(auto, unfolding(bites_spec::specs::Utf8::piece))]
fn step_at(haystack: &[u8], place: usize) -> usize
    requires { place ≤ length haystack.now }
    ensures step { result ≡ step_len haystack.now place }
    ensures fits { place + result < 2 ^ 64 }
{
    let (_, len) = decode_lossy(&haystack[place..]);
    len.max(1)
}

impl fmt::Debug for Cache {
    fn fmt<W: fmt::Write>(&self, f: &mut fmt::Formatter<W>) -> fmt::Result {
        f.debug_struct("Cache").finish_non_exhaustive()
    }
}
