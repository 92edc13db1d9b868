//! Where the message of a pattern stands.

ghost use Rattle.std.specs.Prelude.{◌≡◌, IfOk, MatchOption, Some, chars};
ghost use Rattle.bites_spec.specs.Tree as spec;
ghost use Rattle.bites_spec.specs.Measure.{Limits};
ghost use Rattle.bites_syntax.specs.FlagsView.{flags_of};
ghost use Rattle.bites_syntax.specs.Placed.{RefusesAt, placed_text};

use crate::parse::{Flags, read_pattern};
use crate::refusal::Refusal;
use bites_text::error::Error;
use std::alloc::{AllocError, Global};
use std::fmt;
use std::marker::Model;

/// Why a pattern was refused, and where: its message, and the place that the message is about.
///
/// For proofs: a contract sees both.
#[derive(Clone, Copy, Debug, PartialEq, Eq)]
pub struct SyntaxError {
    error: Error,
    offset: Option<usize>,
}

impl Model for SyntaxError {
    ghost use Rattle.bites_syntax.specs.Placed.{Placed};

    ghost Value = { Placed };

    ghost view = { λ a. record { error = a.error; offset = a.offset } };

    ghost inverse = { λ p. record { error = p.error; offset = p.offset } };
}

impl SyntaxError {
    /// Returns the message of the pattern's first fault.
    pub fn error(&self) -> &Error
        ensures { result.now ≡ self.now.error }
    {
        &self.error
    }

    /// Returns the number of bytes of the pattern before the place that the message is about. It is at most the length
    /// of the pattern, and a character begins or ends there. It is None if only the pattern as a whole is too tall.
    pub fn offset(&self) -> Option<usize>
        ensures { result ≡ self.now.offset }
    {
        self.offset
    }
}

impl fmt::Display for SyntaxError {
    ghost output = { λ placed. Some (placed_text placed) };

    fn fmt<W: fmt::Write>(&self, f: &mut fmt::Formatter<W>) -> fmt::Result {
        match self.offset {
            Some(offset) => write!(f, "{} at offset {}", self.error.text(), offset),
            None => f.write_str(self.error.text()),
        }
    }
}

impl std::error::Error for SyntaxError {}

/// Reads a pattern, and returns what [`parse`](crate::parse::parse) refuses it for and where, or None if that returns
/// its tree. The error is out of memory. The work is that of `parse`.
pub fn syntax_error(
    alloc: Global,
    pattern: &str,
    flags: Flags,
    nest_limit: u32,
) -> Result<Option<SyntaxError>, AllocError>
    ensures { IfOk result (λ found. MatchOption found
        ((t : spec.Tree) × Limits (chars pattern.now) (flags_of flags) nest_limit t)
        (RefusesAt (chars pattern.now) (flags_of flags) nest_limit)) }
{
    match read_pattern(alloc, pattern, flags, nest_limit) {
        Ok(_) => Ok(None),
        Err(Refusal::Memory) => Err(AllocError),
        Err(Refusal::TooTall) => Ok(Some(SyntaxError {
            error: Error::TooMuchNesting,
            offset: None,
        })),
        Err(Refusal::At { error, left }) => Ok(Some(SyntaxError {
            error,
            offset: Some(pattern.len() - left),
        })),
    }
}
