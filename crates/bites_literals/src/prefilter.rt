//! From where a search for a match has to begin.

ghost use Rattle.std.specs.Prelude.{◌≡◌, ◌↔◌, ◌<◌, ◌≤◌, ℕ, List, false, true, Some, length, IfSome, IsTrue};
ghost use Rattle.bites_scan.specs.Trigrams.{AreTrigramsOf};
ghost use Rattle.bites_spec.specs.Match.{Matches};
ghost use Rattle.bites_spec.specs.Tree as spec;
ghost use Rattle.bites_literals.specs.Begins.{BeginsAtStart, BeginsBy, BeginsWithin, Continues, IsOnly, IsPrefilter, IsNear, IsEnd, IsCandidate, IsWithin, IsBack, IsBackAtPiece, IsReachOf, LiesWithin, NoneBefore, place_of};
ghost use Rattle.bites_literals.specs.ByteRun.{IsByteRunOf};
ghost use Rattle.bites_literals.specs.Choice.{BeginsWithOne, IsChoice};
ghost use Rattle.bites_literals.specs.Facts.{AreFacts, IsNeeded};
ghost use Rattle.bites_literals.specs.FixedWidth.{IsFixedWidth};
ghost use Rattle.bites_literals.specs.Texts.{needle_of};

use crate::ascii::AsciiSet;
use crate::between::Between;
use crate::byte_run::ByteRun;
use crate::choice::{Choice, choice_of};
use crate::facts::{Facts, Needed};
use crate::fixed_width::FixedWidth;
use crate::text::Text;
use crate::tree::{facts_of, first_repeated, is_at_end, is_at_start, is_choice};
use bites_scan::literal::{Literal, Outcome};
use bites_scan::literal_set::LiteralSet;
use bites_scan::trigrams::Trigrams;
use bites_syntax::tree::Tree;
use std::alloc::Global;

/// How often the two rarest bytes of a literal may occur, as the sum of their ranks.
const COMMON: u32 = 480;

/// The same for a literal of one byte, whose cost is that of the byte beside the commonest, and more.
const COMMON_BYTE: u32 = 560;

/// How many bytes a literal has at least that is searched for although each match begins with one of several others.
const LONG: usize = 4;

/// How many small letters are a few: a text seldom goes on for long in these and in what is no letter.
const FEW_LETTERS: u32 = 13;

/// How many bytes from the end a search begins at least that looks for a literal, where matches mostly begin near the end.
const FAR_FROM_END: usize = 256;

/// How many bytes a haystack has at most in which a search looks for a literal although matches begin at its start alone.
const SHORT: usize = 256;

/// What bounds the places where matches of a tree begin.
#[derive(Drop)]
pub struct Prefilter {
    end: Option<End>,
    near: Option<Near>,
    choice: Option<Choice>,
    /// The bytes of the class, if the tree is a class of ASCII, or its greedy repetition of one turn or more.
    run: Option<ByteRun>,
    /// The one match, if it is known that there is no other.
    fixed: Option<Box<FixedWidth>>,
    /// When a search looks for literals.
    asks: Asks,
    /// Which searches ask the prefilter.
    serves: Serves,
}

/// Which searches ask a prefilter where to begin. Only speed depends on it.
#[derive(Clone, Copy, Drop)]
pub enum Serves {
    /// None, since it would begin where it begins anyway.
    NoSearch,
    /// Each one, unless many before it asked in vain, since to look for a literal takes time.
    MostSearches,
    /// Each one, since it compares bytes at the start of the haystack, or looks at its end first.
    EachSearch,
}

/// When a search looks for literals.
#[derive(Clone, Copy, Drop)]
enum Asks {
    /// First.
    First,
    /// Only where matches begin far from the end of the haystack. They mostly begin near it, which bounds the search more.
    FarFromEnd,
    /// Only in a haystack of at most [`SHORT`] bytes. Matches begin at its start alone, but a search may go on over most of it. In a
    /// longer one the search mostly ends at the first line feed, and the literal may stand far behind it.
    InShort,
    /// Never, since matches begin at the start of the haystack, which bounds the search more.
    Never,
}

/// What is known of matches if each of them ends at the end of the haystack.
#[derive(Drop)]
struct End {
    /// What each match ends with.
    suffix: Text,
    /// How far before the end a match begins.
    reach: Reach,
}

/// A literal that each match holds, and how far before it the match begins.
#[derive(Drop)]
struct Near {
    literal: Literal,
    reach: Reach,
    /// Whether a match is the literal and nothing else, and the literal a match wherever it stands.
    is_match: bool,
}

/// How far before an offset a match begins that comes to it.
#[derive(Drop)]
enum Reach {
    /// At most so many bytes.
    Bytes(usize),
    /// With these bytes between.
    While(Between),
    /// Anywhere.
    Haystack,
}

/// From where a search for a match has to begin.
#[derive(Clone, Copy, Debug, Drop, PartialEq)]
pub enum Begin {
    /// Nothing matches.
    Nowhere,
    /// No match begins at a place before this one.
    From(usize),
    /// The first match begins at `start`. It ends at `end`, and so does the longest match from there, if the end was asked for. Otherwise
    /// some match from there ends at `end`.
    Match { start: usize, end: usize },
}

impl Begin {
    /// Returns the place from which a search of the haystack explores: one past its end if nothing matches.
    #[inline(always)]
    pub fn place(self, haystack: &[u8]) -> usize
        ensures { result ≡ place_of haystack.now self }
    {
        match self {
            Begin::Nowhere => haystack.len() + 1,
            Begin::From(place) => place,
            Begin::Match { start, .. } => start,
        }
    }
}

impl Prefilter {
    /// Returns a prefilter for the tree if one of these is known: that it is a class of ASCII, or its greedy repetition of one turn or
    /// more; that it has one match alone; that each of its matches holds a literal that is worth a search, or begins with one of a few; or
    /// that each ends at the end of the haystack and not far behind its beginning.
    pub fn of(alloc: Global, tree: &Tree) -> Option<Prefilter>
        ensures { IfSome result (λ prefilter. IsPrefilter tree.now prefilter) }
    {
        if is_at_start(tree) {
            return Prefilter::at_start(alloc, tree);
        }
        if let Some(run) = ByteRun::of(tree) {
            return Some(Prefilter::of_run(run));
        }
        if is_choice(tree) && !is_at_end(tree) {
            return Prefilter::of_parts(None, None, choice_of(alloc, tree), None, Asks::First);
        }
        let facts = facts_of(tree);
        let end = End::of(&facts);
        let near = Near::of(&facts, false);
        if facts.ends && facts.most.is_some() {
            return Prefilter::of_parts(end, near, None, None, Asks::FarFromEnd);
        }
        let choice = if near.is_none() || may_choose(&facts) {
            choice_of(alloc, tree)
        } else {
            None
        };
        let asks = if facts.ends && !may_go_on(facts.ascii) {
            Asks::FarFromEnd
        } else {
            Asks::First
        };
        if choice.is_some() {
            return Prefilter::of_parts(end, None, choice, None, asks);
        }
        Prefilter::of_parts(end, near, None, None, asks)
    }

    /// Returns a prefilter for a tree that matches at the start of the haystack alone: its one match, or else what each match ends with.
    /// A literal is for sets, for filters of lines, and for short haystacks over which a search may go on for long. Several literals are
    /// for the first two. Any other search looks for none, since by a table it ends where no byte leads on from the start.
    fn at_start(alloc: Global, tree: &Tree) -> Option<Prefilter>
        requires { BeginsAtStart tree.now }
        ensures { IfSome result (λ prefilter. IsPrefilter tree.now prefilter) }
    {
        let facts = facts_of(tree);
        let is_long = begins_long(tree);
        let near = Near::of(&facts, is_long);
        let fixed = FixedWidth::of(alloc, tree);
        if fixed.is_some() {
            return Prefilter::of_parts(None, near, None, fixed, Asks::Never);
        }
        let end = if facts.back.len() > 0 {
            End::of(&facts)
        } else {
            None
        };
        let asks = if is_long && near.is_some() {
            Asks::InShort
        } else {
            Asks::Never
        };
        let choice = if near.is_none() && is_choice(tree) {
            choice_of(alloc, tree)
        } else {
            None
        };
        Prefilter::of_parts(end, near, choice, None, asks)
    }

    /// Returns a prefilter for a tree whose matches are a byte of a class each, or a run of these.
    fn of_run(run: ByteRun) -> Prefilter
        ensures { (t : spec.Tree) → IsByteRunOf t run → IsPrefilter t result }
    {
        Prefilter {
            end: None,
            near: None,
            choice: None,
            run: Some(run),
            fixed: None,
            asks: Asks::First,
            serves: Serves::MostSearches,
        }
    }

    /// Returns a prefilter of these parts, if one of them is there.
    fn of_parts(
        end: Option<End>,
        near: Option<Near>,
        choice: Option<Choice>,
        fixed: Option<Box<FixedWidth>>,
        asks: Asks,
    ) -> Option<Prefilter>
        ensures { (t : spec.Tree) → IfSome end (IsEnd t) → IfSome near (IsNear t) → IfSome choice (IsChoice t) →
            IfSome fixed (λ f. IsFixedWidth t f.value) → IfSome result (IsPrefilter t) }
    {
        if end.is_none() && near.is_none() && choice.is_none() && fixed.is_none() {
            return None;
        }
        let serves = match asks {
            Asks::First | Asks::InShort => Serves::MostSearches,
            Asks::FarFromEnd => Serves::EachSearch,
            Asks::Never if end.is_some() || fixed.is_some() => Serves::EachSearch,
            Asks::Never => Serves::NoSearch,
        };
        Some(Prefilter {
            end,
            near,
            choice,
            run: None,
            fixed,
            asks,
            serves,
        })
    }

    /// Returns from where a search of the haystack has to begin that may begin at `start`.
    ///
    /// It searches for the literal, for the first of several, or for a byte of the class, from `start` on. Before the offset that the
    /// search comes to, no match of the tree ends. If each match ends at the end of the haystack, it looks first at how the haystack ends.
    /// Then it goes back from there: at last, at once if matches mostly begin near there, or not at all if each begins at the start of the
    /// haystack. If there is one match alone, it compares it. It reads over the run of a class only if `with_end` asks where that ends.
    #[inline(always)]
    pub fn begin(&self, haystack: &[u8], start: usize, with_end: bool) -> Begin
        requires { start ≤ length haystack.now }
        ensures { (t : spec.Tree) → IsPrefilter t self.now → BeginsBy with_end t haystack.now start result }
    {
        if let Some(end) = &self.end {
            return self.begin_before(end, haystack, start);
        }
        if self.asks_first(haystack) {
            return self.begin_by_literal(haystack, start, with_end);
        }
        match &self.fixed {
            Some(fixed) => fixed.begin(haystack, start),
            None => Begin::From(start),
        }
    }

    /// Returns which searches gain if they ask [`begin`](Self::begin) first.
    #[inline(always)]
    pub fn serves(&self) -> Serves {
        self.serves
    }

    /// Returns whether a search of the haystack looks for literals first.
    #[inline(always)]
    fn asks_first(&self, haystack: &[u8]) -> bool {
        matches!(self.asks, Asks::First)
            || matches!(self.asks, Asks::InShort) && haystack.len() <= SHORT
    }

    /// Returns the one match, if it is known that there is no other.
    #[inline(always)]
    pub fn fixed_width(&self) -> Option<&FixedWidth>
        ensures { (t : spec.Tree) → IsPrefilter t self.now → IfSome result (λ fixed. IsFixedWidth t fixed.now) }
    {
        match &self.fixed {
            Some(fixed) => Some(fixed),
            None => None,
        }
    }

    /// Returns from where the search has to begin, if each match ends at the end of the haystack.
    fn begin_before(&self, end: &End, haystack: &[u8], start: usize) -> Begin
        requires { start ≤ length haystack.now }
        ensures { (t : spec.Tree) → IsPrefilter t self.now → IsEnd t end.now → BeginsBy true t haystack.now start result }
    {
        if !end.suffix.ends(haystack, start) {
            return Begin::Nowhere;
        }
        match self.asks {
            Asks::FarFromEnd => self.begin_by_end(end, haystack, start),
            Asks::First => self.begin_by_both(end, haystack, start),
            Asks::InShort if haystack.len() <= SHORT => {
                self.begin_by_literal(haystack, start, true)
            }
            _ => Begin::From(start),
        }
    }

    /// Returns from where the search has to begin by literals, and then by the end.
    fn begin_by_both(&self, end: &End, haystack: &[u8], start: usize) -> Begin
        requires { start ≤ length haystack.now }
        ensures { (t : spec.Tree) → IsPrefilter t self.now → IsEnd t end.now → BeginsBy true t haystack.now start result }
    {
        match self.begin_by_literal(haystack, start, true) {
            Begin::From(from) => Begin::From(end.back(haystack, from)),
            found => found,
        }
    }

    /// Returns from where the search has to begin by the end, and by literals only if that is far from the end. Nothing matches if
    /// what is left is shorter than the literal.
    fn begin_by_end(&self, end: &End, haystack: &[u8], start: usize) -> Begin
        requires { start ≤ length haystack.now }
        ensures { (t : spec.Tree) → IsPrefilter t self.now → IsEnd t end.now → BeginsBy true t haystack.now start result }
    {
        let from = end.back(haystack, start);
        let left = haystack.len() - from;
        match &self.near {
            Some(near) if left < near.literal.len() => Begin::Nowhere,
            _ if left < FAR_FROM_END => Begin::From(from),
            _ => self.begin_by_literal(haystack, from, true),
        }
    }

    /// Returns an offset from `start` on such that no part of the haystack matches that lies from `start` on and ends before
    /// it, if that part is searched as a haystack of its own: no line, say. Returns `None` if no part from `start` on matches.
    ///
    /// It searches for the literal, for the first of several, or for a byte of the class, and returns the offset that the search comes to.
    pub fn candidate(&self, haystack: &[u8], start: usize) -> Option<usize>
        requires { start ≤ length haystack.now }
        ensures { (t : spec.Tree) → IsPrefilter t self.now → IsCandidate t haystack.now start result }
    {
        if let Some(near) = &self.near {
            return near.candidate(haystack, start);
        }
        if let Some(choice) = &self.choice {
            return candidate_by_set(&choice.set, haystack, start);
        }
        match &self.run {
            Some(run) => run.candidate(haystack, start),
            None => Some(start),
        }
    }

    /// Returns whether some part of a haystack with these runs of three bytes may match: whether it ends as each match does, if each ends
    /// there, and a literal may occur there that each match holds.
    pub fn may_match(&self, haystack: &[u8], trigrams: &Trigrams) -> bool
        ensures { (t : spec.Tree) (i j : ℕ) → IsPrefilter t self.now → AreTrigramsOf trigrams.now haystack.now → Matches haystack.now t i j →
            IsTrue result }
    {
        if let Some(end) = &self.end
            && !end.suffix.ends(haystack, 0)
        {
            return false;
        }
        if let Some(near) = &self.near {
            return trigrams.may_hold(&near.literal);
        }
        match &self.choice {
            Some(choice) => choice.set.may_occur(trigrams),
            None => true,
        }
    }

    /// Returns from where the search has to begin by literals alone, or by the bytes of a class. One byte, a longer literal, several
    /// literals and a class have a call each, so that none does more than it needs.
    #[inline(always)]
    fn begin_by_literal(&self, haystack: &[u8], start: usize, with_end: bool) -> Begin
        requires { start ≤ length haystack.now }
        ensures within { IsWithin result (length haystack.now) }
        ensures begins { (t : spec.Tree) → IsPrefilter t self.now → BeginsBy with_end t haystack.now start result }
    {
        if let Some(near) = &self.near {
            if near.literal.is_one_byte() {
                return near.begin_by_byte(haystack, start);
            }
            return near.begin(haystack, start);
        }
        if let Some(choice) = &self.choice {
            return begin_by_choice(choice, haystack, start);
        }
        match &self.run {
            Some(run) => run.begin(haystack, start, with_end),
            None => Begin::From(start),
        }
    }
}

impl End {
    /// Returns what is known of the end of each match, if each one ends at the end of the haystack and that is of use.
    fn of(facts: &Facts) -> Option<End>
        ensures { (t : spec.Tree) → AreFacts t facts.now → IfSome result (IsEnd t) }
    {
        let reach = Reach::of(facts.most, facts.ascii);
        let tells = facts.back.len() > 0 || !matches!(reach, Reach::Haystack);
        if !facts.ends || !tells {
            return None;
        }
        Some(End {
            suffix: facts.back,
            reach,
        })
    }

    /// Returns from where the search has to begin that may begin at `start`.
    fn back(&self, haystack: &[u8], start: usize) -> usize
        requires { start ≤ length haystack.now }
        ensures within { result ≤ length haystack.now }
        ensures none { (t : spec.Tree) → IsEnd t self.now → NoneBefore t haystack.now start result }
    {
        self.reach.back(haystack, start, haystack.len())
    }
}

impl Near {
    /// Returns a literal of the facts, if it is worth a search. If `is_long` says that a search without it may go on for long, each of
    /// two bytes or more is.
    fn of(facts: &Facts, is_long: bool) -> Option<Near>
        ensures { (t : spec.Tree) → AreFacts t facts.now → IfSome result (IsNear t) }
    {
        if facts.whole && facts.exact {
            return Near::of_text(facts, &facts.in_front(), true, is_long);
        }
        Near::of_text(facts, &facts.rarest(), false, is_long)
    }

    /// Returns the literal of a text that each match holds, if it is worth a search.
    fn of_text(facts: &Facts, needed: &Needed, is_match: bool, is_long: bool) -> Option<Near>
        ensures { (t : spec.Tree) → AreFacts t facts.now → IsNeeded t (Some needed.now) →
            (is_match ≡ true → IsOnly t (needle_of needed.now.text)) → IfSome result (IsNear t) }
    {
        let len = needed.text.len();
        let most = match len {
            // Where it stands is the match, however often that is.
            1 if is_match => u32::MAX,
            1 => COMMON_BYTE,
            _ if is_long => u32::MAX,
            _ => COMMON,
        };
        if len == 0 || needed.cost() > most {
            return None;
        }
        Some(Near {
            literal: needed.text.literal(),
            reach: Reach::of(needed.before, facts.ascii),
            is_match,
        })
    }

    /// Returns from where a search has to begin that may begin at `start`.
    #[inline(never)]
    fn begin(&self, haystack: &[u8], start: usize) -> Begin
        requires { start ≤ length haystack.now }
        ensures within { IsWithin result (length haystack.now) }
        ensures begins { (t : spec.Tree) → IsNear t self.now → BeginsBy true t haystack.now start result }
    {
        let outcome = self.literal.search(haystack, start);
        self.reach.begin_by(outcome, self.is_match, haystack, start)
    }

    /// Returns the same for a literal of one byte.
    #[inline(never)]
    fn begin_by_byte(&self, haystack: &[u8], start: usize) -> Begin
        requires one { length self.now.literal.bytes ≡ 1 }
        requires exact { self.now.literal.caseless ≡ false }
        requires within { start ≤ length haystack.now }
        ensures within { IsWithin result (length haystack.now) }
        ensures begins { (t : spec.Tree) → IsNear t self.now → BeginsBy true t haystack.now start result }
    {
        let outcome = self.literal.search_byte(haystack, start);
        self.reach.begin_by(outcome, self.is_match, haystack, start)
    }

    /// Returns an offset such that no part before it matches.
    fn candidate(&self, haystack: &[u8], start: usize) -> Option<usize>
        requires { start ≤ length haystack.now }
        ensures { (t : spec.Tree) → IsNear t self.now → IsCandidate t haystack.now start result }
    {
        self.literal.search(haystack, start).offset()
    }
}

impl Reach {
    /// Returns how far before an offset a match begins, by how many bytes stand between, and by the bytes that it may hold.
    fn of(before: Option<usize>, ascii: AsciiSet) -> Reach
        ensures { IsReachOf before ascii result }
    {
        match before {
            Some(before) => Reach::Bytes(before),
            None if ascii.is_full() => Reach::Haystack,
            None => Reach::While(Between::of(ascii)),
        }
    }

    /// Returns from where a search has to begin that may begin at `start`, by what the search for a literal returned. Each match comes to
    /// the literal within the reach. If `is_match` is set, a literal that is found is the one match there.
    #[inline(always)]
    fn begin_by(&self, outcome: Outcome, is_match: bool, haystack: &[u8], start: usize) -> Begin
        requires { LiesWithin outcome start (length haystack.now) }
        ensures within { IsWithin result (length haystack.now) }
        ensures begins { BeginsWithin self.now is_match haystack.now start outcome result }
    {
        let Some(at) = outcome.offset() else {
            return Begin::Nowhere;
        };
        let from = self.back(haystack, start, at);
        match outcome {
            Outcome::Found { end, .. } if is_match && from == at => {
                Begin::Match { start: from, end }
            }
            _ => Begin::From(from),
        }
    }

    /// Returns a place from which the search may begin, if no match from `start` on ends before `at`.
    #[inline(always)]
    fn back(&self, haystack: &[u8], start: usize, at: usize) -> usize
        requires ordered { start ≤ at }
        requires within { at ≤ length haystack.now }
        ensures within { result ≤ length haystack.now }
        ensures back { IsBack self.now haystack.now start at result }
    {
        match self {
            Reach::Bytes(before) => back_to_piece(
                haystack,
                start,
                at.saturating_sub(*before).max(start),
            ),
            Reach::While(between) => between.back(haystack, start, at),
            Reach::Haystack => start,
        }
    }
}

/// Returns whether a match may begin with a part that goes on for long. Only speed depends on it.
fn begins_long(tree: &Tree) -> bool {
    match first_repeated(tree) {
        Some(set) => may_go_on(set),
        None => false,
    }
}

/// Returns whether texts go on for long in bytes of the set: if it has the blank and most letters. Only speed depends on it.
fn may_go_on(set: AsciiSet) -> bool {
    set.contains(b' ') && letters_in(set) > FEW_LETTERS
}

/// Returns how many of the small letters are in the set.
fn letters_in(set: AsciiSet) -> u32 {
    let mut count = 0u32;
    for letter in b'a'..b'z' + 1 {
        count = count.wrapping_add(u32::from(set.contains(letter)));
    }
    count
}

/// Returns whether the literal of the facts is short and stands behind where matches begin, so that a search for several that
/// they begin with is worth more. Only speed depends on it.
fn may_choose(facts: &Facts) -> bool {
    facts.front.len() == 0 && facts.rarest().text.len() < LONG
}

/// Returns from where a search has to begin that may begin at `start`, if each match begins with a literal of the choice.
#[inline(never)]
fn begin_by_choice(choice: &Choice, haystack: &[u8], start: usize) -> Begin
    requires { start ≤ length haystack.now }
    ensures within { IsWithin result (length haystack.now) }
    ensures begins { (t : spec.Tree) → IsChoice t choice.now → BeginsBy true t haystack.now start result }
{
    let outcome = choice.set.search(haystack, start);
    Reach::Bytes(0).begin_by(outcome, choice.is_match, haystack, start)
}

/// Returns an offset such that no part before it matches, if each match begins with a literal of the set.
fn candidate_by_set(set: &LiteralSet, haystack: &[u8], start: usize) -> Option<usize>
    requires { start ≤ length haystack.now }
    ensures { (t : spec.Tree) → BeginsWithOne t set.now → IsCandidate t haystack.now start result }
{
    set.search(haystack, start).offset()
}

/// Goes back to a byte that a piece begins with, or to the start.
fn back_to_piece(haystack: &[u8], start: usize, from: usize) -> usize
    requires ordered { start ≤ from }
    requires within { from ≤ length haystack.now }
    ensures { IsBackAtPiece haystack.now start from result }
{
    let mut at = from;
    'bytes: while at > start {
        if at < haystack.len() && !continues(haystack[at]) {
            break;
        }
        at -= 1;
    }
    at
}

/// Returns whether the byte is one that continues a character. A piece has no others behind its first byte.
#[inline(always)]
fn continues(byte: u8) -> bool
    ensures { IsTrue result ↔ Continues byte }
{
    128 <= byte && byte < 192
}
