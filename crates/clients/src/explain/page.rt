//! The page: one HTML file that needs nothing else.

mod escape;
mod haystack;
mod matches;
mod parts;
mod program;
mod script;
mod spans;
mod style;
mod tree;

use super::options::Options;
use super::output::Output;
use super::report_json;
use super::searches::Report;
use super::subject::Refusal;
use bites_syntax::parse::Flags;
use escape::{write_shown, write_shown_char};
use script::SCRIPT;
use spans::SPANS;
use std::alloc::Global;
use style::STYLE;

/// What stands at the place where a pattern is refused. The style draws it as a bar.
const MARK: &str = "<b class=\"place\"></b>";

/// Writes the page of a report.
pub(crate) fn write_report(alloc: Global, report: &Report<'_>, out: &mut Output) {
    write_head(report.options, out);
    haystack::write_haystack(report, out);
    out.put(STEPS);
    program::write_program(report, out);
    out.put(TREE);
    tree::write_tree(&report.subject.tree, out);
    out.put("</ul></section>\n");
    matches::write_matches(alloc, report, out);
    out.put(ABOUT);
    report_json::write_report(report, out);
    out.put(SPANS);
    out.put(SCRIPT);
}

/// Writes the page of a pattern that is refused.
pub(crate) fn write_refused(options: &Options<'_>, refusal: &Refusal, out: &mut Output) {
    write_head(options, out);
    out.put("<p id=\"fault\">The pattern is refused: ");
    write_shown(refusal.message.as_str(), out);
    out.put(".</p>\n");
    if let Some(offset) = refusal.offset {
        out.put_number("<p>At offset ", offset);
        out.put(": <code class=\"text\" id=\"read\">");
        write_marked(options.pattern, offset, out);
        out.put("</code></p>\n");
    }
    out.put("</main>\n</body>\n</html>\n");
}

// Writes the pattern with a mark at this offset.
fn write_marked(pattern: &str, offset: usize, out: &mut Output) {
    let mut at = 0usize;
    for c in pattern.chars() {
        if at == offset {
            out.put(MARK);
        }
        write_shown_char(c, out);
        at = at.saturating_add(c.len_utf8());
    }
    if at == offset {
        out.put(MARK);
    }
}

// Writes the page up to its first section.
fn write_head(options: &Options<'_>, out: &mut Output) {
    out.put(HEAD);
    out.put(STYLE);
    out.put(TITLE);
    write_shown(options.pattern, out);
    out.put(if options.longest { LONGEST } else { PREFERRED });
    write_flags(options.flags, out);
    out.put("</p>\n");
}

// Writes what each flag means that is set.
fn write_flags(flags: Flags, out: &mut Output) {
    out.put_if(flags.case_insensitive, " Letters match in both cases.");
    out.put_if(flags.multi_line, " ^ and $ match at lines.");
    out.put_if(flags.dot_matches_new_line, " . matches line feeds.");
    out.put_if(flags.crlf, " Carriage returns end lines.");
    out.put_if(flags.swap_greed, " Repetitions are lazy.");
    out.put_if(flags.ignore_whitespace, " White space means nothing.");
}

// Which match each search looks for.
static LONGEST: &str =
    "</code></p>\n<p>Each search looks for the longest one of the leftmost matches.";

static PREFERRED: &str =
    "</code></p>\n<p>Each search looks for the preferred one of the leftmost matches.";

// What stands before the style.
static HEAD: &str = r#"<!doctype html>
<html lang="en">
<head>
<meta charset="utf-8">
<meta name="viewport" content="width=device-width, initial-scale=1">
<meta name="color-scheme" content="light dark">
<meta http-equiv="Content-Security-Policy" content="default-src 'none'; style-src 'unsafe-inline'; script-src 'unsafe-inline'">
<title>explain: a search, place by place</title>
<style>
"#;

// What stands between the style and the pattern.
static TITLE: &str = "</style>\n</head>\n<body>\n<main>\n<h1>A search, place by place</h1>\n\
    <p>Pattern: <code class=\"text\" id=\"pattern\">";

// The section that the script fills.
static STEPS: &str =
    r#"<section aria-labelledby="steps-title" id="steps"><h2 id="steps-title">Places</h2>
<noscript><p>To step from place to place needs scripts. All else on this page does not.</p></noscript>
<div id="stepper" hidden>
<p class="controls"><button type="button" id="first">First</button> <button type="button" id="back">Back</button>
<input type="range" id="place" min="0" value="0" step="1" aria-label="place">
<button type="button" id="next">Next</button> <button type="button" id="last">Last</button></p>
<pre class="text" id="window" aria-hidden="true"></pre>
<div id="said" role="status"></div>
<div class="wide" id="threads-box" tabindex="0" role="region" aria-labelledby="threads-title">
<table id="threads"><caption id="threads-title">Threads, in order of preference</caption><thead></thead><tbody></tbody></table></div>
<p>The arrow keys step too. A thread has already taken the character before this place.</p>
</div></section>
"#;

static TREE: &str = r#"<section aria-labelledby="tree-title"><h2 id="tree-title">Tree</h2>
<p>What the pattern is read as. With scripts, each item shows its part of the pattern.</p>
<ul class="tree">"#;

// What the page rests on.
static ABOUT: &str =
    r#"<section aria-labelledby="about-title"><h2 id="about-title">What this page rests on</h2>
<p>The tree, the program, the matches and what is done at each place come from calls of the engine that are proved. Proved too: the tree is
what the grammar reads the pattern as, the program is built from it, and a search visits no state twice at a place. The places come from
a call that does the steps of the machine of the definitions, and not from the searches that found the matches, which do the same steps.</p>
<p>Only drawn: where the parts of the tree stand in the pattern, which the page reads once more and shows only if it comes to this tree;
the numbers of the states, which count from the start on in order of preference; words for parts and states; characters
that can't be seen as <i>\n</i>, <i>\u{200B}</i> or, where the bytes are no UTF-8, <i>\xFF</i>.</p></section>
</main>
<script type="application/json" id="data">"#;
