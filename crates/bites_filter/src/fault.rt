//! Why a program ends before its input does.

use crate::help::Help;
use crate::refused::Refused;
use bites_text::error::Error;
use std::alloc::{AllocError, Global};
use std::io::{ErrorKind, Write};
use std::{fmt, io};

/// A fault. Its text is one line of standard error, without the program's name. If a pattern is refused and its message is
/// about one place, two more lines follow: the pattern, and a caret below the place. A pattern with a control character
/// has neither.
#[derive(Drop)]
pub enum Fault {
    /// The words after the program's name are not those that it takes. The text is the usage.
    Usage(&'static Help),
    /// The pattern is not accepted, or the program is out of memory.
    Pattern(Error),
    /// The pattern of the command line is not accepted.
    Refused(Refused),
    /// A line of a table is not a rule. The first line has number 1.
    Rule { line: u64, fault: RuleFault },
    /// The file of this name can't be opened or read.
    File { name: String, error: io::Error },
    /// The input can't be read.
    Read(io::Error),
    /// The output can't be written.
    Write,
    /// Nobody reads the output any more.
    Closed,
}

/// Why a line of a table is not a rule.
#[derive(Drop)]
pub enum RuleFault {
    /// It is not UTF-8.
    NotUtf8,
    /// No space stands in it, so it has no pattern.
    NoPattern,
    /// Its pattern is not accepted.
    Refused(Refused),
}

impl RuleFault {
    /// Returns the fault of a table that has this line.
    pub fn at_line(self, line: u64) -> Fault {
        Fault::Rule { line, fault: self }
    }
}

impl Fault {
    /// Returns the fault of a table that has the pattern of this fault in the line of this number. It is this fault itself
    /// if that is not about a pattern.
    pub fn at_line(self, line: u64) -> Fault {
        match self {
            Fault::Refused(refused) => RuleFault::Refused(refused).at_line(line),
            fault => fault,
        }
    }

    /// Returns why the input could not be read.
    pub fn of_reading(error: io::Error) -> Fault {
        if error.kind() == ErrorKind::OutOfMemory {
            Fault::Pattern(Error::Memory)
        } else {
            Fault::Read(error)
        }
    }

    /// Returns the fault of an input that has more lines than can be counted. No input is that long.
    pub fn too_long() -> Fault {
        Fault::Read(ErrorKind::FileTooLarge.into())
    }

    /// Returns why the output could not be written, or its buffer not made.
    pub fn of_writing(error: &io::Error) -> Fault {
        match error.kind() {
            ErrorKind::OutOfMemory => Fault::Pattern(Error::Memory),
            ErrorKind::BrokenPipe => Fault::Closed,
            _ => Fault::Write,
        }
    }

    /// Returns why the file of this name could not be read.
    pub fn of_file(alloc: Global, name: &str, error: io::Error) -> Fault {
        if error.kind() == ErrorKind::OutOfMemory {
            return Fault::Pattern(Error::Memory);
        }
        match String::from_str(alloc, name) {
            Ok(name) => Fault::File { name, error },
            Err(_) => Fault::Pattern(Error::Memory),
        }
    }

    /// Writes the text of the fault. Returns the status of the program, which is 2. For [`Fault::Closed`] it writes
    /// nothing and returns 0.
    pub fn tell<E: Write>(&self, program: &str, err: &mut E) -> u8 {
        if let Fault::Closed = self {
            return 0;
        }
        // The status is 2 even if the text can't be written.
        let _written = writeln!(err, "{program}: {self}");
        2
    }
}

impl fmt::Display for Fault {
    fn fmt<W: fmt::Write>(&self, f: &mut fmt::Formatter<W>) -> fmt::Result {
        match self {
            Fault::Usage(help) => {
                let Help { program, usage, .. } = help;
                write!(f, "usage: {program} {usage}; {program} --help says more")
            }
            Fault::Pattern(error) => write!(f, "{error}"),
            Fault::Refused(refused) => write!(f, "{refused}"),
            Fault::Rule { line, fault } => write!(f, "line {line} of the table {fault}"),
            Fault::File { name, error } => write!(f, "cannot read {name}: {error}"),
            Fault::Read(error) => write!(f, "cannot read standard input: {error}"),
            Fault::Write => f.write_str("cannot write standard output"),
            Fault::Closed => f.write_str("standard output is closed"),
        }
    }
}

impl fmt::Display for RuleFault {
    fn fmt<W: fmt::Write>(&self, f: &mut fmt::Formatter<W>) -> fmt::Result {
        match self {
            RuleFault::NotUtf8 => f.write_str("is not UTF-8"),
            RuleFault::NoPattern => f.write_str("has no pattern"),
            RuleFault::Refused(refused) => write!(f, "has a pattern that is refused: {refused}"),
        }
    }
}

impl From<Error> for Fault {
    fn from(error: Error) -> Fault {
        Fault::Pattern(error)
    }
}

impl From<AllocError> for Fault {
    fn from(_: AllocError) -> Fault {
        Fault::Pattern(Error::Memory)
    }
}
