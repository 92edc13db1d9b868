//! Answers from outside that the definitions of `bites_spec` give, proved by computation.
//!
//! No code is here: each function has an empty body, and its contract says what rows of `bites_rows` answer.
#![tactic(auto)]

ghost use Rattle.std.specs.Prelude.{ℕ, ◌≤◌};
ghost use Rattle.bites_spec.specs.Tree.{Tree, captures_len};
ghost use Rattle.bites_spec.specs.Built.{Built};
ghost use Rattle.bites_machine.specs.Compiled.{program_of_tree};
ghost use Rattle.bites_answers.specs.Evaluated.{LeastParseEndIsLeast};
ghost use Rattle.bites_answers.specs.Messages.{Messages};
ghost use Rattle.bites_answers.specs.Trees.{Trees};
ghost use Rattle.bites_answers.specs.Builds.{Builds};
ghost use Rattle.bites_answers.specs.Searches.{Searches};
ghost use Rattle.bites_answers.specs.Captures.{Captures};
ghost use Rattle.bites_answers.specs.Iterations.{Iterations};
ghost use Rattle.bites_answers.specs.Replacements.{Replacements};

/// The program of each tree, in which runs are looked for, is built from it.
pub fn programs_are_built()
    ensures { (groups : ℕ) → (t : Tree) → captures_len t ≤ groups → Built t (program_of_tree groups t) }
{}

/// The least end that a row asks for is that of a match.
pub fn least_parse_end_is_least()
    ensures { LeastParseEndIsLeast }
{}

pub fn messages_are_answered()
    ensures { Messages }
{}

pub fn trees_are_answered()
    ensures { Trees }
{}

pub fn builds_are_answered()
    ensures { Builds }
{}

pub fn searches_are_answered()
    ensures { Searches }
{}

pub fn captures_are_answered()
    ensures { Captures }
{}

pub fn iterations_are_answered()
    ensures { Iterations }
{}

pub fn replacements_are_answered()
    ensures { Replacements }
{}
