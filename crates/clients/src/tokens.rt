//! `tokens RULES`: cuts standard input into tokens by rules of a name and a pattern each. Its help says the rest
//! (`tokens/help.rt`).

pub(crate) mod help;
mod lexer;

use bites_filter::fault::Fault;
use bites_filter::program::open;
use bites_filter::table::{read_file, read_rules};
use lexer::{Stop, stop_at, write_tokens};
use std::alloc::Global;
use std::io::{BufWriter, Read, Write};

/// Does what the words ask for. Returns the status: 0 if the whole input is cut into tokens, else 1. It is `None` if
/// they are not words that it takes.
pub(crate) fn run(rt: &HostRuntime, words: &[String]) -> Result<Option<u8>, Fault> {
    let [rules] = words else {
        return Ok(None);
    };
    let table = read_file(rt, rules.as_str())?;
    let Some(stop) = cut(rt.alloc(), &table, &mut rt.stdin(), rt.stdout())? else {
        return Ok(Some(0));
    };
    let Stop { line, byte } = stop;
    // The status is 1 even if the line can't be written.
    let _written = writeln!(
        rt.stderr(),
        "tokens: no rule reads on line {line}, at byte {byte}"
    );
    Ok(Some(1))
}

// Writes the tokens of the input. Returns where they stop, if that is before its end.
fn cut<R: Read, W: Write + Drop>(
    alloc: Global,
    table: &[u8],
    input: &mut R,
    out: W,
) -> Result<Option<Stop>, Fault> {
    let mut rules = read_rules(alloc, table)?;
    let mut text = Vec::new(alloc);
    if let Err(error) = input.read_to_end(&mut text) {
        return Err(Fault::of_reading(error));
    }
    let mut out = open(BufWriter::new(alloc, out))?;
    match write_tokens(&mut rules, &text, &mut out) {
        Ok(end) => Ok(stop_at(&text, end)),
        Err(error) => Err(Fault::of_writing(&error)),
    }
}
