//! The matches with their groups, as a table.

use super::escape::{write_pieces, write_shown};
use crate::explain::haystack::pieces_of;
use crate::explain::output::Output;
use crate::explain::searches::Report;
use bites_bytes::bytes::{Captures, Match};
use std::alloc::{AllocError, Global};

/// How many matches stand in the table.
const MOST: usize = 500;

/// Writes the table of the first matches.
pub(super) fn write_matches(alloc: Global, report: &Report<'_>, out: &mut Output) {
    out.put("<section aria-labelledby=\"matches-title\"><h2 id=\"matches-title\">Matches</h2>\n");
    if report.matches.len() > MOST {
        out.put_number("<p>The first ", MOST);
        out.put(" of them.</p>\n");
    }
    out.put(
        "<div class=\"wide\"><table id=\"matches\"><thead><tr><th scope=\"col\">match</th>\
        <th scope=\"col\">group</th><th scope=\"col\">name</th><th scope=\"col\">offsets</th>\
        <th scope=\"col\">text</th></tr></thead><tbody>\n",
    );
    let written = write_rows(alloc, report, out);
    out.keep(written);
    out.put("</tbody></table></div></section>\n");
}

// Writes the rows of the first matches. The error is out of memory.
fn write_rows(alloc: Global, report: &Report<'_>, out: &mut Output) -> Result<(), AllocError> {
    let regex = &report.subject.regex;
    let mut number = 0;
    for captures in regex.captures_iter(report.haystack)?.take(MOST) {
        number = 1 + number % MOST;
        match captures {
            Ok(captures) => write_groups(alloc, number, &captures, out),
            Err(error) => out.keep(Err(error)),
        }
    }
    Ok(())
}

// Writes a row for each group of a match, from group 0 on.
fn write_groups(alloc: Global, number: usize, captures: &Captures<'_>, out: &mut Output) {
    let mut group = 0;
    for name in captures.capture_names() {
        out.put_number("<tr><th scope=\"row\">", number);
        out.put_number("</th><td>", group);
        out.put("</td><td>");
        write_shown(name.unwrap_or(""), out);
        out.put("</td><td>");
        match captures.get(group) {
            Some(found) => write_group(alloc, found, out),
            None => out.put("no part of the match</td><td>"),
        }
        out.put("</td></tr>\n");
        group = group.saturating_add(1);
    }
}

// Writes where a group begins and ends, and its text.
fn write_group(alloc: Global, found: Match<'_>, out: &mut Output) {
    out.put_number("", found.start());
    out.put_number("&#8211;", found.end());
    out.put("</td><td class=\"text\">");
    match pieces_of(alloc, found.as_bytes()) {
        Ok(pieces) => write_pieces(&pieces, out),
        Err(error) => out.keep(Err(error)),
    }
}
