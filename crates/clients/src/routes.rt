//! `routes TABLE`: writes for each path on standard input which route serves it, and the groups of its match. Its help
//! says the rest (`routes/help.rt`).

pub(crate) mod help;
mod paths;

use bites_filter::fault::Fault;
use bites_filter::program::{buffers, flush};
use bites_filter::table::read_file;
use bites_filter::text_table::TextTable;
use paths::{Router, write_routes};

/// Does what the words ask for. Returns the status 0, or `None` if they are not words that it takes.
pub(crate) fn run(rt: &HostRuntime, words: &[String]) -> Result<Option<u8>, Fault> {
    let [table] = words else {
        return Ok(None);
    };
    let table = read_file(rt, table.as_str())?;
    let routes = TextTable::read(rt.alloc(), &table)?;
    let (mut input, mut out) = buffers(rt.alloc(), rt.stdin(), rt.stdout())?;
    write_routes(rt.alloc(), &mut Router { routes }, &mut input, &mut out)?;
    flush(&mut out)?;
    Ok(Some(0))
}
