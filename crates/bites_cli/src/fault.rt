//! Why a run ends with status 2.

use bites_text::error::Error;
use std::alloc::AllocError;
use std::{fmt, io};

/// A fault. Its text is one line of standard error, without the program's name.
#[derive(Drop)]
pub(crate) enum Fault {
    Usage,
    Pattern(Error),
    Read,
    Write,
}

impl Fault {
    /// Returns why the words could not be read: out of memory, or a word that is not UTF-8, which is a fault of usage.
    pub(crate) fn of_words(error: &io::Error) -> Fault {
        Fault::memory_or(error, Fault::Usage)
    }

    /// Returns why the input could not be read.
    pub(crate) fn of_reading(error: &io::Error) -> Fault {
        Fault::memory_or(error, Fault::Read)
    }

    /// Returns why the output could not be written or made.
    pub(crate) fn of_writing(error: &io::Error) -> Fault {
        Fault::memory_or(error, Fault::Write)
    }

    fn memory_or(error: &io::Error, other: Fault) -> Fault {
        if error.kind() == io::ErrorKind::OutOfMemory {
            Fault::Pattern(Error::Memory)
        } else {
            other
        }
    }
}

impl fmt::Display for Fault {
    fn fmt<W: fmt::Write>(&self, f: &mut fmt::Formatter<W>) -> fmt::Result {
        match self {
            Fault::Usage => f.write_str(
                "usage: bites is|find|captures|split PATTERN or bites replace PATTERN TEMPLATE",
            ),
            Fault::Pattern(error) => write!(f, "{error}"),
            Fault::Read => f.write_str("cannot read standard input"),
            Fault::Write => f.write_str("cannot write standard output"),
        }
    }
}

impl From<Error> for Fault {
    fn from(error: Error) -> Fault {
        Fault::Pattern(error)
    }
}

impl From<AllocError> for Fault {
    fn from(_: AllocError) -> Fault {
        Fault::Pattern(Error::Memory)
    }
}
