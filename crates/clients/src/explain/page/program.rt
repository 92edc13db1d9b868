//! The program of a pattern, as a table.

use super::parts::{look_words, write_character, write_class};
use crate::explain::order::Order;
use crate::explain::output::Output;
use crate::explain::searches::Report;
use bites_machine::state::State;

/// Writes the table of the states that a run can come to, from the start on.
pub(super) fn write_program(report: &Report<'_>, out: &mut Output) {
    let program = &report.subject.program;
    out.put("<section aria-labelledby=\"program-title\"><h2 id=\"program-title\">Program</h2>\n");
    out.put_number("<p>", program.len());
    out.put_number(" states, ", program.slots());
    out.put(
        " slots. State 0 is the start. A state leads to the states behind the arrow, the preferred one first.</p>\n\
        <div class=\"wide\"><table id=\"program\"><thead><tr><th scope=\"col\">state</th>\
        <th scope=\"col\">what it does</th><th scope=\"col\">leads to</th>\
        <th scope=\"col\" class=\"here\">here</th></tr></thead><tbody>\n",
    );
    for (number, state) in report.order.states().iter().enumerate() {
        if let Some(state) = program.states().get(*state as usize) {
            write_state(number, state, &report.order, out);
        }
    }
    out.put("</tbody></table></div></section>\n");
}

// Writes the row of a state.
fn write_state(number: usize, state: &State, order: &Order, out: &mut Output) {
    out.put_number("<tr><th scope=\"row\">", number);
    out.put("</th><td>");
    write_kind(state, out);
    out.put("</td><td>");
    for edge in 0..state.edges() {
        let parting = if edge == 0 { "&#8594; " } else { ", " };
        match order.number(state.target(edge)) {
            Some(number) => out.put_number(parting, number),
            None => out.put(parting),
        }
    }
    out.put("</td><td class=\"here\"></td></tr>\n");
}

fn write_kind(state: &State, out: &mut Output) {
    match state {
        State::Char { ch, .. } => {
            out.put("takes ");
            write_character(*ch, out)
        }
        State::Ranges { ranges, .. } => {
            out.put("takes ");
            write_class(ranges.as_slice(), out)
        }
        State::Splits { .. } => out.put("splits"),
        State::Goto { look: None, .. } => out.put("goes on"),
        State::Goto {
            look: Some(look),
            ..
        } => {
            out.put("goes on ");
            out.put(look_words(look))
        }
        State::Capture { slot, .. } => write_slot(*slot as usize, out),
        State::Fail => out.put("leads nowhere"),
        State::Match => out.put("match"),
    }
}

// Writes what a state does that writes this slot.
fn write_slot(slot: usize, out: &mut Output) {
    out.put_number("writes slot ", slot);
    out.put_number(": group ", slot / 2);
    out.put(if slot % 2 == 0 { " begins" } else { " ends" });
}
