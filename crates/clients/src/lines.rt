//! `lines [-c] [-i] [-l] [-n] [-o] [-q] [-v] PATTERN [FILE..]`: writes the lines in which a pattern matches somewhere.
//! Its help says the rest (`lines/help.rt`).

mod files;
mod filter;
pub(crate) mod help;
mod options;
mod shown;

use bites_bytes::bytes::{RegexBuilder, Searcher};
use bites_filter::fault::Fault;
use bites_filter::program::{flush, open};
use bites_filter::refused::build;
use files::{STANDARD_INPUT, search_files};
use filter::Filter;
use options::{Format, Options};
use std::alloc::Global;
use std::io::BufWriter;

/// Does what the words ask for. Returns the status, or `None` if they are not words that it takes.
pub(crate) fn run(rt: &HostRuntime, words: &[String]) -> Result<Option<u8>, Fault> {
    let Some(options) = Options::read(words) else {
        return Ok(None);
    };
    let mut filter = filter_of(rt.alloc(), &options)?;
    let mut out = open(BufWriter::new(rt.alloc(), rt.stdout()))?;
    let status = search_files(rt, &mut filter, options.files, &mut out)?;
    flush(&mut out)?;
    Ok(Some(status))
}

// Returns the filter that the options stand for.
fn filter_of<'w>(alloc: Global, options: &Options<'w>) -> Result<Filter<'w>, Fault> {
    let mut builder = RegexBuilder::new(alloc, options.pattern)?;
    builder.case_insensitive(options.case_insensitive);
    builder.prefilter(true);
    Ok(Filter {
        searcher: Searcher::new(build(alloc, &builder, options.pattern)?)?,
        invert: options.invert,
        format: Format {
            name: STANDARD_INPUT,
            named: options.files.len() > 1,
            numbered: options.numbered,
            show: options.show,
        },
    })
}
