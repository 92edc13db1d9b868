//! Kinds of bytes that no assertion of a program tells apart.

ghost use Rattle.std.specs.Prelude.{◌≡◌, MatchOption};
ghost use Rattle.bites_machine.specs.States.{state_of};
ghost use Rattle.bites_syntax.specs.View.{look_of};
ghost use Rattle.bites_table.specs.Built.{kind_as};
ghost use Rattle.bites_table.specs.Distinctions.{after_by, before_by, either, seen};
ghost use Rattle.bites_table.specs.AlikeKinds.{TellsApart, NoneAsserted, IsAsserted, AreAlikeBefore, AreAlikeAfter};

use crate::distinctions::{Distinctions, NOTHING, after, before};
use crate::kind::Kind;
use bites_machine::program::Program;
use bites_machine::state::State;
use bites_syntax::look::Look;

const KINDS: [Kind; 5] = [
    Kind::Edge,
    Kind::LineFeed,
    Kind::CarriageReturn,
    Kind::WordByte,
    Kind::Other,
];

/// What the assertions of a program tell apart of the byte before a place, and of the character after it.
#[derive(Clone, Copy)]
pub(crate) struct AlikeKinds {
    pub before: Distinctions,
    pub after: Distinctions,
}

impl AlikeKinds {
    /// Returns what the assertions of the program tell apart.
    pub(crate) fn of(program: &Program) -> AlikeKinds
        ensures { TellsApart program.now.program result }
    {
        let mut kinds = AlikeKinds {
            before: NOTHING,
            after: NOTHING,
        };
        for state in program.states() {
            if let Some(look) = assertion_of(state) {
                kinds = kinds.or(look);
            }
        }
        kinds
    }

    // Returns what the assertions so far or this one tell apart.
    fn or(self, look: Look) -> AlikeKinds
        ensures before { result.before ≡ either self.before (before_by (look_of look)) }
        ensures after { result.after ≡ either self.after (after_by (look_of look)) }
    {
        AlikeKinds {
            before: self.before.or(before(look)),
            after: self.after.or(after(look)),
        }
    }

    /// Returns the first kind of the byte before that no assertion tells from this one.
    pub(crate) fn first_before(self, kind: Kind) -> Kind
        ensures { AreAlikeBefore self (kind_as result) (kind_as kind) }
    {
        first_seen_alike(self.before, kind)
    }

    /// Returns the first kind of the character after that no assertion tells from this one.
    pub(crate) fn first_after(self, kind: Kind) -> Kind
        ensures { AreAlikeAfter self (kind_as result) (kind_as kind) }
    {
        first_seen_alike(self.after, kind)
    }
}

// Returns the assertion that a state tests, if it tests one.
fn assertion_of(state: &State) -> Option<Look>
    ensures { MatchOption result (NoneAsserted (state_of state.now)) (λ look. IsAsserted (state_of state.now) (look_of look)) }
{
    match state {
        State::Goto { look, .. } => *look,
        _ => None,
    }
}

// Returns the first kind that shows no more than this one does.
fn first_seen_alike(all: Distinctions, kind: Kind) -> Kind
    ensures { seen all (kind_as result) ≡ seen all (kind_as kind) }
{
    for first in KINDS {
        if all.seen(first) == all.seen(kind) {
            return first;
        }
    }
    kind
}
