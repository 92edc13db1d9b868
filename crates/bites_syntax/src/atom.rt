//! Items of a pattern that are one node and no group: characters, dots, classes, escapes and assertions.

ghost use Rattle.std.specs.Prelude.{◌≡◌};
ghost use Rattle.bites_spec.specs.Escape as escape;
ghost use Rattle.bites_spec.specs.Grammar.{caret_look, dollar_look, dot_set, literal_of};
ghost use Rattle.bites_spec.specs.RangesOf.{ranges_of};
ghost use Rattle.bites_spec.specs.Reader.{node_of};
ghost use Rattle.bites_spec.specs.Tree as spec;
ghost use Rattle.bites_syntax.specs.Atoms.{atom};
ghost use Rattle.bites_syntax.specs.FlagsView.{flags_of};
ghost use Rattle.bites_syntax.specs.Meanings.{IsMeaning};
ghost use Rattle.bites_syntax.specs.Parts.{Agrees, ForEnoughSteps, ReadsOn};
ghost use Rattle.bites_syntax.specs.View.{look_of};

use crate::bracket::bracket;
use crate::class::Class;
use crate::cursor::Cursor;
use crate::escape::{Meaning, escape};
use crate::flags::Flags;
use crate::look::Look;
use crate::refusal::Refusal;
use crate::tree::Tree;
use std::alloc::Global;

/// Returns the tree of a character under the flags in force.
pub(crate) fn literal(flags: Flags, c: char) -> Tree
    ensures { result ≡ literal_of (flags_of flags) c }
{
    if flags.case_insensitive && c.is_ascii_alphabetic() {
        return Tree::class(Class::two_cases(c));
    }
    Tree::char(c)
}

/// Returns the tree of a dot.
fn any(flags: Flags) -> Tree
    ensures { result ≡ spec.class (ranges_of (dot_set (flags_of flags))) }
{
    Tree::class(Class::dot(flags.dot_matches_new_line, flags.crlf))
}

fn line_start(flags: Flags) -> Look
    ensures { look_of result ≡ caret_look (flags_of flags) }
{
    match (flags.multi_line, flags.crlf) {
        (true, true) => Look::StartCRLF,
        (true, false) => Look::StartLF,
        (false, _) => Look::Start,
    }
}

fn line_end(flags: Flags) -> Look
    ensures { look_of result ≡ dollar_look (flags_of flags) }
{
    match (flags.multi_line, flags.crlf) {
        (true, true) => Look::EndCRLF,
        (true, false) => Look::EndLF,
        (false, _) => Look::End,
    }
}

/// Returns the tree of an escape.
fn escape_tree(flags: Flags, meaning: Meaning) -> Tree
    ensures { (m : escape.Meaning) → IsMeaning meaning m →
        result ≡ node_of ranges_of 0 (flags_of flags) m }
{
    match meaning {
        Meaning::Character(c) => literal(flags, c),
        Meaning::Characters(set) => Tree::class(Class::constant(set)),
        Meaning::Assertion(look) => Tree::look(look),
    }
}

/// Reads the rest of a node after its first character, which is `c`.
pub(crate) fn atom(
    alloc: Global,
    cursor: &mut Cursor<'_>,
    flags: Flags,
    c: char,
) -> Result<Tree, Refusal>
    ensures { ReadsOn cursor.old cursor.new (ForEnoughSteps cursor.old (λ n. Agrees (λ tree t. tree
        ≡ t) result cursor.new (atom n (flags_of flags) c cursor.old))) }
{
    match c {
        '[' => {
            cursor.skip(flags);
            let class = bracket(alloc, cursor, flags)?;
            Ok(Tree::class(class))
        }
        '\\' => {
            let meaning = escape(alloc, cursor, flags)?;
            Ok(escape_tree(flags, meaning))
        }
        '.' => Ok(any(flags)),
        '^' => Ok(Tree::look(line_start(flags))),
        '$' => Ok(Tree::look(line_end(flags))),
        _ => Ok(literal(flags, c)),
    }
}
