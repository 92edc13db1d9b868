//! A pattern that is refused, with the place where its message stands.

ghost use Rattle.std.specs.Prelude.{◌≡◌, IfOk};
ghost use Rattle.bites_spec.specs.Settings.{Accepts};

use crate::fault::Fault;
use bites_bytes::bytes;
use bites_text::error::Error;
use regex_bites::{Regex, RegexBuilder, SyntaxError};
use std::alloc::{AllocError, Global};
use std::fmt;

/// A pattern that is refused.
#[derive(Drop)]
pub struct Refused {
    error: Error,
    pattern: String,
    /// The number of bytes of the pattern before the place that the message is about, if it is about one.
    offset: Option<usize>,
}

/// Builds a regex over byte strings of this pattern, which is the one of the builder. The fault is that the pattern is
/// refused, with the place that the message is about, or out of memory.
pub fn build(
    alloc: Global,
    builder: &bytes::RegexBuilder,
    pattern: &str,
) -> Result<bytes::Regex, Fault>
    ensures longest { IfOk result (λ r. r.leftmost_longest ≡ builder.now.leftmost_longest) }
    ensures accepted { IfOk result (λ r. Accepts builder.now r.tree) }
{
    let error = match builder.build() {
        Ok(regex) => return Ok(regex),
        Err(Error::Memory) => return Err(Fault::Pattern(Error::Memory)),
        Err(error) => error,
    };
    let place = builder.syntax_error()?;
    Err(Fault::Refused(Refused::new(alloc, error, pattern, place)?))
}

/// Builds a regex over texts. The rest is as for [`build`].
pub fn build_text(alloc: Global, builder: &RegexBuilder, pattern: &str) -> Result<Regex, Fault>
    ensures { IfOk result (λ r. Accepts builder.now r.tree) }
{
    let error = match builder.build() {
        Ok(regex) => return Ok(regex),
        Err(Error::Memory) => return Err(Fault::Pattern(Error::Memory)),
        Err(error) => error,
    };
    let place = builder.syntax_error()?;
    Err(Fault::Refused(Refused::new(alloc, error, pattern, place)?))
}

impl Refused {
    // Returns the pattern with the error that refuses it, and with what a builder says of the place.
    fn new(
        alloc: Global,
        error: Error,
        pattern: &str,
        place: Option<SyntaxError>,
    ) -> Result<Refused, AllocError> {
        Ok(Refused {
            error,
            pattern: String::from_str(alloc, pattern)?,
            offset: place.and_then(|place| place.offset()),
        })
    }

    // Writes the pattern, and a caret below the place.
    fn write_place<W: fmt::Write>(&self, offset: usize, f: &mut fmt::Formatter<W>) -> fmt::Result {
        write!(f, "\n  {}\n  ", self.pattern)?;
        let mut at = 0usize;
        for c in self.pattern.chars() {
            if at >= offset {
                break;
            }
            f.write_str(" ")?;
            at = at.saturating_add(c.len_utf8());
        }
        f.write_str("^")
    }
}

impl fmt::Display for Refused {
    fn fmt<W: fmt::Write>(&self, f: &mut fmt::Formatter<W>) -> fmt::Result {
        write!(f, "{}", self.error)?;
        match self.offset {
            Some(offset) if is_plain(&self.pattern) => self.write_place(offset, f),
            _ => Ok(()),
        }
    }
}

// Returns whether each character of the pattern takes one column, as far as can be told.
fn is_plain(pattern: &str) -> bool {
    for c in pattern.chars() {
        if c.is_control() {
            return false;
        }
    }
    true
}
