//! The program of a pattern, which several tests use.

use bites_machine::program::{Program, compile};
use bites_syntax::parse::{Flags, parse};
use bites_text::error::Error;
use std::alloc::Global;

pub fn program(alloc: Global, pattern: &str) -> Result<Program, Error> {
    let tree = parse(alloc, pattern, Flags::default(), 50)?;
    compile(alloc, &tree, pattern, 1 << 20)
}
