//! The program of a pattern as JSON.

use super::json::{look_name, write_numbers, write_ranges};
use super::order::Order;
use super::output::Output;
use bites_machine::program::Program;
use bites_machine::state::State;

/// Writes the program: the number of its slots, its start, its states in the order of their numbers, and the order in
/// which people read them.
pub(crate) fn write_program(program: &Program, order: &Order, out: &mut Output) {
    out.put_number(",\n\"program\":{\"slots\":", program.slots());
    out.put_number(",\"start\":", program.start() as usize);
    out.begin(",\"states\":[");
    for state in program.states() {
        out.part();
        write_state(state, out);
    }
    out.end("],\"order\":");
    write_numbers(order.states(), out);
    out.put("}");
}

fn write_state(state: &State, out: &mut Output) {
    out.put("{\"kind\":");
    match state {
        State::Char { ch, .. } => out.put_character("\"char\",\"char\":", *ch),
        State::Ranges { ranges, .. } => {
            out.put("\"class\",\"ranges\":");
            write_ranges(ranges.as_slice(), out);
        }
        State::Splits { .. } => out.put("\"split\""),
        State::Goto { look: None, .. } => out.put("\"goto\""),
        State::Goto {
            look: Some(look),
            ..
        } => {
            out.put("\"look\",\"look\":");
            out.put_text(look_name(look));
        }
        State::Capture { slot, .. } => out.put_number("\"slot\",\"slot\":", *slot as usize),
        State::Fail => out.put("\"fail\""),
        State::Match => out.put("\"match\""),
    }
    write_targets(state, out)
}

// Writes the targets of a state in order of preference, and the end of the state.
fn write_targets(state: &State, out: &mut Output) {
    out.begin(",\"to\":[");
    for number in 0..state.edges() {
        out.put_item(state.target(number) as usize);
    }
    out.end("]}");
}
