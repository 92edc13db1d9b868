//! The kinds that stand for each class, as the character after a place and as the one before it.

ghost use Rattle.std.specs.Prelude.{◌≡◌, ◌≤◌, true, IfOk};
ghost use Rattle.bites_spec.specs.Program.{Program};
ghost use Rattle.bites_table.specs.Classes.{classes_of};
ghost use Rattle.bites_table.specs.AlikeKinds.{TellsApart};
ghost use Rattle.bites_table.specs.Explored.{AreAfter, AreBefore, AreSame, ArePlain};

use crate::alike_kinds::AlikeKinds;
use crate::classes::Classes;
use crate::kind::Kind;
use std::alloc::{AllocError, Global};

const KINDS: [Kind; 5] = [
    Kind::Edge,
    Kind::LineFeed,
    Kind::CarriageReturn,
    Kind::WordByte,
    Kind::Other,
];

/// Returns the kinds that are among these, and how many they are.
pub(crate) fn kinds_among(kinds: &[Kind]) -> ([Kind; 5], usize)
    ensures { result.1 ≤ 5 }
{
    let mut among = KINDS;
    let mut len = 0;
    for number in 0..KINDS.len() {
        if kinds.contains(&KINDS[number]) {
            among[len] = KINDS[number];
            len += 1;
        }
    }
    (among, len)
}

/// Returns whether the kinds are the same for all classes.
pub(crate) fn are_plain(after: &[Kind], before: &[Kind]) -> bool
    ensures { result ≡ true → ArePlain after.now before.now }
{
    before.len() == after.len() && are_same(after) && are_same(before)
}

// Returns whether the kinds are all the same.
fn are_same(kinds: &[Kind]) -> bool
    ensures { result ≡ true → AreSame kinds.now }
{
    for kind in kinds {
        if *kind != kinds[0] {
            return false;
        }
    }
    true
}

/// Returns for each class the first kind before which assertions hold as before the class. The error is out of memory.
pub(crate) fn kinds_after(
    alloc: Global,
    classes: &Classes,
    kinds: AlikeKinds,
) -> Result<Vec<Kind>, AllocError>
    ensures { IfOk result (λ after. (p : Program) → TellsApart p kinds → AreAfter p (classes_of classes.now) after.items) }
{
    let mut after = Vec::with_capacity(alloc, classes.len())?;
    for class in 0..classes.len() {
        let kind = kinds.first_after(Kind::of(classes.member(class)));
        after.push(kind)?;
    }
    Ok(after)
}

/// Returns for each class the first kind after which assertions hold as after the class. The error is out of memory.
pub(crate) fn kinds_before(
    alloc: Global,
    classes: &Classes,
    kinds: AlikeKinds,
) -> Result<Vec<Kind>, AllocError>
    ensures { IfOk result (λ before. (p : Program) → TellsApart p kinds → AreBefore p (classes_of classes.now) before.items) }
{
    let mut before = Vec::with_capacity(alloc, classes.len())?;
    for class in 0..classes.len() {
        let kind = kinds.first_before(Kind::of(classes.member(class)));
        before.push(kind)?;
    }
    Ok(before)
}
