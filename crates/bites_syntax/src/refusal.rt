//! Why the parser stops.

ghost use Rattle.std.specs.Prelude.{◌≡◌};
ghost use Rattle.bites_syntax.specs.declared.refusal.Refusal.TheVariants.{Memory};
ghost use Rattle.bites_syntax.specs.Parts.{error_by};

use bites_text::error::Error;
use std::alloc::{AllocError, AllocFailed};

/// Why no tree is returned.
#[derive(Clone, Copy)]
pub(crate) enum Refusal {
    /// Memory was refused.
    Memory,
    /// The whole pattern is read, but its tree is too tall.
    TooTall,
    /// The first fault of the pattern.
    At {
        error: Error,
        /// The number of bytes from the fault's place to the end of the pattern.
        left: usize,
    },
}

impl Refusal {
    /// Returns the error of the pattern.
    pub(crate) fn error(self) -> Error
        ensures { result ≡ error_by self }
    {
        match self {
            Refusal::Memory => Error::Memory,
            Refusal::TooTall => Error::TooMuchNesting,
            Refusal::At { error, .. } => error,
        }
    }
}

impl From<AllocError> for Refusal {
    ghost from_gives = { λ _ refusal. refusal ≡ Memory };

    fn from(_refused: AllocError) -> Refusal {
        Refusal::Memory
    }
}

impl<T: Drop> From<AllocFailed<T>> for Refusal {
    ghost from_gives = { λ _ refusal. refusal ≡ Memory };

    fn from(_refused: AllocFailed<T>) -> Refusal {
        Refusal::Memory
    }
}
