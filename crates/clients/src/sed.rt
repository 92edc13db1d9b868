//! `sed [-g] [-i] PATTERN TEMPLATE`: writes each line of standard input with its first match replaced. Its help says
//! the rest (`sed/help.rt`).

mod editor;
pub(crate) mod help;
mod options;

use bites_bytes::bytes::{RegexBuilder, Searcher};
use bites_filter::fault::Fault;
use bites_filter::program::{buffers, flush};
use bites_filter::refused::build;
use editor::{Editor, edit_lines};
use options::Options;

/// Does what the words ask for. Returns the status 0, or `None` if they are not words that it takes.
pub(crate) fn run(rt: &HostRuntime, words: &[String]) -> Result<Option<u8>, Fault> {
    let Some(options) = Options::read(words) else {
        return Ok(None);
    };
    let mut builder = RegexBuilder::new(rt.alloc(), options.pattern)?;
    builder.case_insensitive(options.case_insensitive);
    builder.prefilter(true);
    let mut editor = Editor {
        searcher: Searcher::new(build(rt.alloc(), &builder, options.pattern)?)?,
        template: options.template.as_bytes(),
        limit: if options.all { 0 } else { 1 },
    };
    let (mut input, mut out) = buffers(rt.alloc(), rt.stdin(), rt.stdout())?;
    edit_lines(rt.alloc(), &mut editor, &mut input, &mut out)?;
    flush(&mut out)?;
    Ok(Some(0))
}
