//! All that is shown, as JSON. `docs/EXPLAIN.md` has its form.

use super::haystack::Piece;
use super::json::{write_numbers, write_offset};
use super::options::Options;
use super::output::Output;
use super::program_json::write_program;
use super::searches::{Report, Search};
use super::subject::Refusal;
use super::tree_json::write_tree;
use bites_bytes::bytes::{Captures, How, Regex};
use bites_machine::slot::Slot;
use bites_machine::vm::traced::{TracedPlace, TracedThread};
use std::alloc::AllocError;

/// Writes a report.
pub(crate) fn write_report(report: &Report<'_>, out: &mut Output) {
    let subject = report.subject;
    write_options(report.options, out);
    out.put(",\n\"tree\":");
    write_tree(&subject.tree, out);
    write_names(&subject.regex, out);
    write_program(&subject.program, &report.order, out);
    write_haystack(&report.pieces, out);
    let written = write_matches(&subject.regex, report.haystack, out);
    out.keep(written);
    write_searches(&report.searches, out);
}

/// Writes what is shown of a pattern that is refused.
pub(crate) fn write_refused(options: &Options<'_>, refusal: &Refusal, out: &mut Output) {
    write_options(options, out);
    out.put(",\n\"fault\":{\"message\":");
    out.put_text(refusal.message.as_str());
    out.put(",\"offset\":");
    write_offset(refusal.offset, out);
    out.put("}}\n");
}

// Writes the pattern and the flags.
fn write_options(options: &Options<'_>, out: &mut Output) {
    out.put("{\"pattern\":");
    out.put_text(options.pattern);
    out.put_truth(",\n\"flags\":{\"i\":", options.flags.case_insensitive);
    out.put_truth(",\"l\":", options.longest);
    out.put_truth(",\"m\":", options.flags.multi_line);
    out.put_truth(",\"R\":", options.flags.crlf);
    out.put_truth(",\"s\":", options.flags.dot_matches_new_line);
    out.put_truth(",\"U\":", options.flags.swap_greed);
    out.put_truth(",\"x\":", options.flags.ignore_whitespace);
    out.put("}");
}

// Writes the names of the groups, from group 0 on.
fn write_names(regex: &Regex, out: &mut Output) {
    out.begin(",\n\"groups\":[");
    for name in regex.capture_names() {
        out.part();
        match name {
            Some(name) => out.put_text(name),
            None => out.put("null"),
        }
    }
    out.end("]");
}

// Writes the characters of the haystack, and the pieces that are none, each by its offset and its bytes.
fn write_haystack(pieces: &[Piece<'_>], out: &mut Output) {
    out.put(",\n\"haystack\":");
    out.put_lossy(pieces);
    out.begin(",\n\"invalid\":[");
    for piece in pieces {
        if piece.decoded.is_none() {
            write_piece(piece, out);
        }
    }
    out.end("]");
}

// Writes a piece as an item, by its offset and its bytes.
fn write_piece(piece: &Piece<'_>, out: &mut Output) {
    out.part();
    out.put_number("[", piece.start);
    for byte in piece.bytes {
        out.put_item(*byte as usize);
    }
    out.end("]");
}

// Writes the successive matches. The error is out of memory.
fn write_matches(regex: &Regex, haystack: &[u8], out: &mut Output) -> Result<(), AllocError> {
    out.begin(",\n\"matches\":[");
    for captures in regex.captures_iter(haystack)? {
        match captures {
            Ok(captures) => write_groups(&captures, out),
            Err(error) => out.keep(Err(error)),
        }
    }
    out.end("]");
    Ok(())
}

// Writes a match as an item: where each group begins and ends, from group 0 on.
fn write_groups(captures: &Captures<'_>, out: &mut Output) {
    out.part();
    out.begin("[");
    for number in 0..captures.len() {
        out.part();
        match captures.get(number) {
            Some(found) => {
                out.put_number("[", found.start());
                out.put_number(",", found.end());
                out.put("]");
            }
            None => out.put("null"),
        }
    }
    out.end("]");
}

// Writes the searches, and the end of the data.
fn write_searches(searches: &[Search], out: &mut Output) {
    out.begin(",\n\"searches\":[");
    for search in searches {
        out.part();
        write_search(search, out);
    }
    out.end("]}\n");
}

fn write_search(search: &Search, out: &mut Output) {
    out.put_number("\n{\"start\":", search.start);
    out.put_truth(",\"over\":", search.traced.is_over);
    out.put_truth(",\"repeated\":", search.is_repeated);
    out.put(",\"best\":");
    write_found(search.traced.best.as_ref(), out);
    out.begin(",\"places\":[");
    for place in &search.traced.places {
        write_place(place, search.way_at(place.place()), out);
    }
    out.end("]}");
}

// Writes a place as an item.
fn write_place(place: &TracedPlace, way: Option<How>, out: &mut Output) {
    out.part();
    out.put_number("\n{\"place\":", place.place());
    out.put_truth(",\"starts\":", place.starts());
    out.begin(",\"threads\":[");
    for thread in place.threads() {
        out.part();
        write_thread(thread, out);
    }
    out.end("],\"visited\":");
    write_numbers(place.visited(), out);
    out.put(",\"match\":");
    write_found(place.first_match(), out);
    write_way(way, out);
}

// Writes how the search by the regex comes over a place, and the number of the thread list there, or `null`. Writes the end
// of the place.
fn write_way(way: Option<How>, out: &mut Output) {
    match way {
        Some(How::Passed { list }) => out.put_number(",\"by\":\"passed\",\"list\":", list),
        Some(How::Skipped { list }) => out.put_number(",\"by\":\"skipped\",\"list\":", list),
        Some(How::Walked) => out.put(",\"by\":\"walked\",\"list\":null"),
        None => out.put(",\"by\":\"left\",\"list\":null"),
    }
    out.put("}");
}

// Writes a thread, or `null`.
fn write_found(thread: Option<&TracedThread>, out: &mut Output) {
    match thread {
        Some(thread) => write_thread(thread, out),
        None => out.put("null"),
    }
}

// Writes the state of a thread, its start, and its slots up to the last one that is written.
fn write_thread(thread: &TracedThread, out: &mut Output) {
    out.put_number("[", thread.state() as usize);
    out.put_number(",", thread.start());
    for slot in thread.slots().iter().take(written_len(thread.slots())) {
        out.put(",");
        write_offset(slot.place(), out);
    }
    out.put("]");
}

// Returns the number of slots up to the last one that is written.
fn written_len(slots: &[Slot]) -> usize {
    let mut len = 0;
    for (number, slot) in slots.iter().enumerate() {
        if slot.place().is_some() {
            len = number + 1;
        }
    }
    len
}
