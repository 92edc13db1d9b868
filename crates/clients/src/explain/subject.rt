//! The pattern's tree, program and regex.

ghost use Rattle.std.specs.Prelude.{◌≡◌, IfOk, false, if◌then◌else◌};
ghost use Rattle.bites_machine.specs.declared.vm.MatchKind.TheVariants.{First, Longest};
ghost use Rattle.bites_spec.specs.Settings.{Accepts, settings};
ghost use Rattle.bites_syntax.specs.FlagsView.{flags_of};
ghost use Rattle.clients.specs.Subject.{IsRead};

use super::options::Options;
use bites_bytes::bytes::{Regex, RegexBuilder};
use bites_machine::program::{Program, compile};
use bites_machine::vm::MatchKind;
use bites_syntax::parse::parse;
use bites_syntax::syntax_error::syntax_error;
use bites_syntax::tree::Tree;
use bites_text::error::Error;
use std::alloc::{AllocError, Global};

// The limits of a `RegexBuilder` that is not told others.
const NEST_LIMIT: u32 = 50;

const SIZE_LIMIT: usize = 10_485_760;

/// What a pattern is read as.
pub(crate) struct Subject {
    pub(crate) tree: Tree,
    pub(crate) program: Program,
    pub(crate) regex: Regex,
    /// Which match each search looks for.
    pub(crate) kind: MatchKind,
}

// What drops one relies on this function, and on no type below it.
impl Drop for Subject {
    fn drop(self) {
        let Subject {
            tree: _,
            program: _,
            regex: _,
            kind: _,
        } = self;
    }
}

impl Subject {
    /// Reads the pattern. The error is the message of its first fault, or out of memory.
    ///
    /// For proofs: the regex has this tree too, so its matches are those of the tree, and the program is that of the tree.
    pub(crate) fn read(alloc: Global, options: &Options<'_>) -> Result<Subject, Error>
        ensures { IfOk result (λ s. IsRead options.now s) }
    {
        // For proofs: a pattern is read as one tree.
        bites_spec::patterns_have_one_tree();
        let tree = parse(alloc, options.pattern, options.flags, NEST_LIMIT)?;
        let program = compile(alloc, &tree, options.pattern, SIZE_LIMIT)?;
        Ok(Subject {
            tree,
            program,
            regex: regex_of(alloc, options)?,
            kind: kind_of(options.longest),
        })
    }
}

/// Why a pattern is refused, and where.
#[derive(Drop)]
pub(crate) struct Refusal {
    pub(crate) message: String,
    /// The number of bytes of the pattern before the place that the message is about, if it is about one.
    pub(crate) offset: Option<usize>,
}

impl Refusal {
    /// Returns why and where the pattern is refused with this error.
    pub(crate) fn of(
        alloc: Global,
        options: &Options<'_>,
        error: Error,
    ) -> Result<Refusal, AllocError> {
        let place = syntax_error(alloc, options.pattern, options.flags, NEST_LIMIT)?;
        Ok(Refusal {
            message: error.to_string(alloc)?,
            offset: match place {
                Some(place) => place.offset(),
                None => None,
            },
        })
    }
}

// Returns which match each search looks for.
fn kind_of(longest: bool) -> MatchKind
    ensures { result ≡ (if longest then Longest else First) }
{
    if longest {
        MatchKind::Longest
    } else {
        MatchKind::First
    }
}

// Returns the regex of the pattern.
fn regex_of(alloc: Global, options: &Options<'_>) -> Result<Regex, Error>
    ensures tree { IfOk result (λ r. Accepts (settings options.now.pattern.now (flags_of options.now.flags)
        10485760 50 1048576 false options.now.longest false) r.tree) }
    ensures longest { IfOk result (λ r. r.leftmost_longest ≡ options.now.longest) }
{
    let mut builder = RegexBuilder::new(alloc, options.pattern)?;
    builder
        .case_insensitive(options.flags.case_insensitive)
        .multi_line(options.flags.multi_line)
        .dot_matches_new_line(options.flags.dot_matches_new_line)
        .crlf(options.flags.crlf)
        .swap_greed(options.flags.swap_greed)
        .ignore_whitespace(options.flags.ignore_whitespace)
        .leftmost_longest(options.longest)
        .nest_limit(NEST_LIMIT)
        .size_limit(SIZE_LIMIT);
    builder.build()
}
