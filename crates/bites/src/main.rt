//! `bites`: searches standard input for a pattern.
//!
//! `bites is PATTERN` prints `match` or `none`. `bites find PATTERN` and `bites split PATTERN` print the span of each
//! match or piece. `bites captures PATTERN` prints the groups of each match. `bites replace PATTERN TEMPLATE` prints
//! the input with each match replaced. The status is 0 if something matched, 1 if nothing did, or 2 for a fault, which
//! is one line on standard error.
#![tactic(auto)]

use bites_cli::{refuse_words, run};
use std::process::ExitCode;
use std::rt::Env;
use std::{env, io};

fn main(rt: HostRuntime) -> ExitCode {
    let status = match words(&rt) {
        Ok(words) => run(
            rt.alloc(),
            words.as_slice(),
            &mut rt.stdin(),
            &mut rt.stdout(),
            &mut rt.stderr(),
        ),
        Err(error) => refuse_words(&error, &mut rt.stderr()),
    };
    ExitCode::from(status)
}

// Returns the words after the program's name.
fn words(rt: &(impl Env + AllocGlobal)) -> io::Result<Vec<String>> {
    let mut words = Vec::new(rt.alloc());
    for word in env::args(rt)?.skip(1) {
        words.push(word)?;
    }
    Ok(words)
}
