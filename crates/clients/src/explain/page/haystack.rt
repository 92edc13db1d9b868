//! The haystack with its matches.

use super::escape::write_piece;
use crate::explain::haystack::Piece;
use crate::explain::output::Output;
use crate::explain::searches::Report;
use bites_bytes::bytes::Match;

/// Writes the haystack, in which the matches are marked.
pub(super) fn write_haystack(report: &Report<'_>, out: &mut Output) {
    out.put_number(
        "<section aria-labelledby=\"haystack-title\"><h2 id=\"haystack-title\">Haystack</h2>\n<p>",
        report.haystack.len(),
    );
    out.put_number(" bytes. Matches: <span id=\"count\">", report.matches.len());
    out.put(
        "</span>.</p>\n\
        <pre class=\"text\" id=\"haystack\" tabindex=\"0\" aria-labelledby=\"haystack-title\">",
    );
    let mut next = 0;
    for piece in &report.pieces {
        if write_marked(piece, report.matches.get(next), out) {
            next = next.saturating_add(1);
        }
    }
    if next < report.matches.len() {
        out.put("<mark></mark>");
    }
    out.put("</pre></section>\n");
}

// Writes a piece, and the marks of a match before and after it if the match begins and ends there. Returns whether it ends.
// An empty match has both marks before the piece.
fn write_marked(piece: &Piece<'_>, found: Option<&Match<'_>>, out: &mut Output) -> bool {
    let Some(found) = found else {
        write_line(piece, out);
        return false;
    };
    let begins = found.start() == piece.start;
    let ends_after = !found.is_empty() && found.end() == piece.end();
    out.put_if(begins, "<mark>");
    out.put_if(begins && found.is_empty(), "</mark>");
    write_line(piece, out);
    out.put_if(ends_after, "</mark>");
    ends_after || begins && found.is_empty()
}

// Writes a piece, and a line feed behind the sign for one.
fn write_line(piece: &Piece<'_>, out: &mut Output) {
    write_piece(piece, out);
    out.put_if(piece.decoded == Some('\n'), "\n");
}
