//! What is known of each match of a tree.

ghost use Rattle.std.specs.Prelude.{◌≡◌, ◌⊎◌, ◌<◌, Bool, true, Some, None, IsTrue};
ghost use Rattle.bites_spec.specs.Tree as spec;
ghost use Rattle.bites_spec.specs.Look as assertion;
ghost use Rattle.bites_spec.specs.Tree.{Tree, Trees};
ghost use Rattle.bites_literals.specs.Texts.{FoldsAs};
ghost use Rattle.bites_literals.specs.Facts.{AreFacts, AreAllFacts, AreSomeFacts, AreEmptyFacts, IsOneByte, IsWithoutText, IsNeeded, IsProduct, IsSum, IsGreatest, IsLater, IsBackBefore, AreTurnsInFront};

use crate::ascii::AsciiSet;
use crate::text::Text;
use bites_scan::literal::MAX_LEN;

/// How much more a text costs that may stand anywhere in a match.
const COST_OF_ANYWHERE: u32 = 20;

/// How much more a text of fewer than two bytes costs. The other bytes of a longer text show where it doesn't stand: `fn ` is rarer in
/// sources than a bracket.
const COST_OF_ONE_BYTE: u32 = 60;

/// What is known of each match of a tree.
#[derive(Clone, Copy, Drop)]
pub(crate) struct Facts {
    /// The greatest number of bytes of a match.
    pub most: Option<usize>,
    /// Whether each match ends at the end of the haystack.
    pub ends: bool,
    /// The bytes of ASCII that a match may hold.
    pub ascii: AsciiSet,
    /// What each match begins with.
    pub front: Text,
    /// Whether a match is that text and nothing else.
    pub whole: bool,
    /// Whether that text is a match wherever it stands.
    pub exact: bool,
    /// What each match ends with.
    pub back: Text,
    /// What each match holds elsewhere.
    pub needed: Option<Needed>,
}

/// A text that each match holds.
#[derive(Clone, Copy, Drop)]
pub(crate) struct Needed {
    pub text: Text,
    /// How many bytes of the match stand before the text, at most.
    pub before: Option<usize>,
}

impl Facts {
    /// Returns what is known of matches that are empty.
    pub(crate) fn empty() -> Facts
        ensures { AreEmptyFacts result }
    {
        Facts {
            most: Some(0),
            ends: false,
            ascii: AsciiSet::none(),
            front: Text::empty(),
            whole: true,
            exact: true,
            back: Text::empty(),
            needed: None,
        }
    }

    /// Returns what is known of matches that are empty and stand where an assertion holds.
    pub(crate) fn look() -> Facts
        ensures { (l : assertion.Look) → AreFacts (spec.look l) result }
    {
        Facts {
            exact: false,
            ..Facts::empty()
        }
    }

    /// Returns what is known of matches that are empty and stand at the end of the haystack.
    pub(crate) fn end() -> Facts
        ensures { AreFacts (spec.look assertion.end) result }
    {
        Facts {
            ends: true,
            ..Facts::look()
        }
    }

    /// Returns what is known where there is no match.
    pub(crate) fn none() -> Facts
        ensures { AreSomeFacts spec.no_tree result }
    {
        Facts::without_text(Some(0), true, AsciiSet::none())
    }

    /// Returns what is known where no text is: the greatest number of bytes, whether each match ends at the end, and the bytes of ASCII.
    pub(crate) fn without_text(most: Option<usize>, ends: bool, ascii: AsciiSet) -> Facts
        ensures { IsWithoutText most ends ascii result }
    {
        Facts {
            most,
            ends,
            ascii,
            front: Text::empty(),
            whole: false,
            exact: false,
            back: Text::empty(),
            needed: None,
        }
    }

    /// Returns what is known of matches that are one character of ASCII. They are the text, and the set has their bytes.
    pub(crate) fn one_byte(text: Text, ascii: AsciiSet) -> Facts
        ensures { IsOneByte text ascii result }
    {
        Facts {
            most: Some(1),
            ends: false,
            ascii,
            front: text,
            whole: true,
            exact: true,
            back: text,
            needed: None,
        }
    }

    /// Returns what is known of a match of this tree and of the next ones after it.
    pub(crate) fn followed_by(&self, rest: &Facts) -> Facts
        ensures { (t : Tree) (ts : Trees) → AreFacts t self.now → AreAllFacts ts rest.now → AreAllFacts (spec.tree_and t ts) result }
    {
        let most = sum(self.most, rest.most);
        let ends = self.ends_before(rest);
        let ascii = self.ascii.union(rest.ascii);
        let back = self.back_before(rest);
        let inside = better(self.needed, later(rest.needed, self.most));
        if self.whole && self.front.len() + rest.front.len() <= MAX_LEN {
            return Facts {
                most,
                ends,
                ascii,
                front: self.front.followed_by(&rest.front),
                whole: rest.whole,
                exact: self.is_exact_before(rest),
                back,
                needed: inside,
            };
        }
        let behind = Some(Needed {
            text: rest.front,
            before: self.most,
        });
        Facts {
            most,
            ends,
            ascii,
            front: self.front,
            whole: false,
            exact: false,
            back,
            needed: better(inside, behind),
        }
    }

    /// Returns whether each match ends at the end of the haystack, if matches of the next trees follow.
    fn ends_before(&self, rest: &Facts) -> bool
        ensures { IsTrue result → (rest.now.ends ≡ true) ⊎ ((self.now.ends ≡ true) × (rest.now.most ≡ Some 0)) }
    {
        rest.ends || self.ends && rest.most == Some(0)
    }

    /// Returns whether both texts as one are a match wherever that stands, if this text is all of its match.
    fn is_exact_before(&self, rest: &Facts) -> bool
        ensures { IsTrue result → (self.now.exact ≡ true) × (rest.now.exact ≡ true) × FoldsAs self.now.front rest.now.front }
    {
        self.exact && rest.exact && self.front.folds_as(&rest.front)
    }

    /// Returns what each match ends with, if matches of the next trees follow.
    fn back_before(&self, rest: &Facts) -> Text
        ensures { IsBackBefore self.now rest.now result }
    {
        if rest.whole && self.back.len() + rest.front.len() <= MAX_LEN {
            self.back.followed_by(&rest.front)
        } else {
            rest.back
        }
    }

    /// Returns what is known of a match of this tree or of the others.
    pub(crate) fn or(&self, others: &Facts) -> Facts
        ensures { (t : Tree) (ts : Trees) → AreFacts t self.now → AreSomeFacts ts others.now → AreSomeFacts (spec.tree_and t ts) result }
    {
        let most = greatest(self.most, others.most);
        let ends = self.ends && others.ends;
        Facts::without_text(most, ends, self.ascii.union(others.ascii))
    }

    /// Returns what is known of a match of this tree repeated.
    pub(crate) fn repeated(&self, min: u32, max: Option<u32>) -> Facts
        ensures { (t : Tree) (greedy : Bool) → AreFacts t self.now → AreFacts (spec.repetition min max greedy t) result }
    {
        let most = product(self.most, max);
        if min == 0 {
            return Facts::without_text(most, false, self.ascii);
        }
        let turns = self.turns_in_front(min);
        let whole = self.are_all(turns, min, max);
        Facts {
            most,
            ends: false,
            ascii: self.ascii,
            front: self.front.repeated(turns),
            whole,
            exact: whole && self.exact,
            back: self.back,
            needed: self.needed,
        }
    }

    /// Returns of how many turns, out of at least so many, the text is known that all together begin with: of one, or of as many as fit
    /// if a match is a text and nothing else.
    fn turns_in_front(&self, min: u32) -> u32
        requires { 0 < min }
        ensures { AreTurnsInFront self.now min result }
    {
        if !self.whole || self.front.len() == 0 {
            return 1;
        }
        min.min((MAX_LEN / self.front.len()) as u32)
    }

    /// Returns whether a match of this tree repeated is the text of so many turns and nothing else.
    fn are_all(&self, turns: u32, min: u32, max: Option<u32>) -> bool
        ensures { IsTrue result → (self.now.whole ≡ true) × (turns ≡ min) × (max ≡ Some min) }
    {
        self.whole && turns == min && max == Some(min)
    }

    /// Returns the rarest text that each match is known to hold.
    pub(crate) fn rarest(&self) -> Needed
        ensures { (t : Tree) → AreFacts t self.now → IsNeeded t (Some result) }
    {
        let front = self.in_front();
        let Some(needed) = self.needed else {
            return front;
        };
        if needed.cost() <= front.cost() {
            needed
        } else {
            front
        }
    }

    /// Returns the text that each match begins with.
    pub(crate) fn in_front(&self) -> Needed
        ensures text { result.text ≡ self.now.front }
        ensures needed { (t : Tree) → AreFacts t self.now → IsNeeded t (Some result) }
    {
        Needed {
            text: self.front,
            before: Some(0),
        }
    }
}

/// Returns the sum, if both numbers are there.
fn sum(a: Option<usize>, b: Option<usize>) -> Option<usize>
    ensures { IsSum a b result }
{
    a?.checked_add(b?)
}

/// Returns the greater number, if both are there.
fn greatest(a: Option<usize>, b: Option<usize>) -> Option<usize>
    ensures { IsGreatest a b result }
{
    Some(a?.max(b?))
}

/// Returns the product, if both numbers are there.
fn product(a: Option<usize>, b: Option<u32>) -> Option<usize>
    ensures { IsProduct a b result }
{
    a?.checked_mul(b? as usize)
}

/// Returns a text that a match holds behind at most so many more bytes.
fn later(needed: Option<Needed>, most: Option<usize>) -> Option<Needed>
    ensures { IsLater needed most result }
{
    let needed = needed?;
    Some(Needed {
        text: needed.text,
        before: sum(most, needed.before),
    })
}

/// Returns the text that is rarer, near the beginning of the match if it can be had.
fn better(a: Option<Needed>, b: Option<Needed>) -> Option<Needed>
    ensures { (result ≡ a) ⊎ (result ≡ b) }
{
    match (a, b) {
        (Some(own), Some(other)) => { if other.cost() < own.cost() { b } else { a } }
        (None, _) => b,
        (_, None) => a,
    }
}

impl Needed {
    /// Returns how much a search for the text is expected to cost. Only speed depends on it.
    pub(crate) fn cost(&self) -> u32 {
        let mut cost = self.text.cost();
        if self.before.is_none() {
            cost = cost.saturating_add(COST_OF_ANYWHERE);
        }
        if self.text.len() < 2 {
            cost = cost.saturating_add(COST_OF_ONE_BYTE);
        }
        cost
    }
}
