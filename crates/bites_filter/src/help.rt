//! What a program says of itself.

use crate::fault::Fault;
use std::fmt;
use std::io::Write;

/// The help of a program. The text that `--help` writes is made of it, and so is the usage that a fault names.
pub struct Help {
    /// The name of the program.
    pub program: &'static str,
    /// What it does, in one line.
    pub summary: &'static str,
    /// The words that it takes, in one line.
    pub usage: &'static str,
    /// Sections, each with a title that ends with a colon and lines that are indented.
    pub sections: &'static str,
}

impl fmt::Display for Help {
    fn fmt<W: fmt::Write>(&self, f: &mut fmt::Formatter<W>) -> fmt::Result {
        writeln!(f, "{} - {}\n", self.program, self.summary)?;
        writeln!(f, "Usage:\n  {} {}\n", self.program, self.usage)?;
        f.write_str(self.sections)
    }
}

/// Returns whether the first word asks for the help.
pub fn asks_for_help(words: &[String]) -> bool {
    match words {
        [first, ..] => first.as_str() == "--help",
        [] => false,
    }
}

/// Writes the help. Returns the status 0.
pub fn write_help<W: Write>(help: &Help, out: &mut W) -> Result<u8, Fault> {
    match write!(out, "{help}") {
        Ok(()) => Ok(0),
        Err(error) => Err(Fault::of_writing(&error)),
    }
}
