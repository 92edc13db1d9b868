//! `fields`: writes the fields of a log in the common log format as comma-separated values. Its help says the rest
//! (`fields/help.rt`).

mod entry;
mod extract;
pub(crate) mod help;

use bites_filter::fault::Fault;
use bites_filter::program::{buffers, flush, tell_bad};
use entry::Log;
use extract::{Extractor, extract_fields};
use help::HELP;

/// Writes the fields of each line. Returns the status: 0 if all lines have the format, else 1. It takes no words, and
/// returns `None` if there are any.
pub(crate) fn run(rt: &HostRuntime, words: &[String]) -> Result<Option<u8>, Fault> {
    if !words.is_empty() {
        return Ok(None);
    }
    let (log, err) = (Log::new(rt.alloc())?, rt.stderr());
    let mut extractor = Extractor { log, err };
    let (mut input, mut out) = buffers(rt.alloc(), rt.stdin(), rt.stdout())?;
    let bad = extract_fields(rt.alloc(), &mut extractor, &mut input, &mut out)?;
    flush(&mut out)?;
    Ok(Some(tell_bad(
        HELP.program,
        bad,
        "the common log format",
        &mut extractor.err,
    )))
}
