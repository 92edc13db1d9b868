//! Comparing a table with the engine's answers.

use crate::answer::{Table, answered, is_row};
use crate::ask::Rooms;
use crate::told::Answer;
use std::alloc::Global;

/// Returns a report on a table: the rows whose answer is not the expected one, with the engine's answers, and the
/// number of rows.
pub fn compared(alloc: Global, name: &str, text: &str, table: &Table) -> Answer {
    let mut report = Answer::new(alloc);
    let mut rooms = Rooms::new();
    let mut rows = 0usize;
    let mut wrong = 0usize;
    for line in text.lines() {
        if is_row(line) {
            rows = rows.saturating_add(1);
            let row = answered(alloc, table, &mut rooms, line);
            if !row.is(line) {
                wrong = wrong.saturating_add(1);
                push_row(name, &row, &mut report);
            }
        }
    }
    push_counts(name, rows, wrong, &mut report);
    report
}

// Adds the line of a row whose answer is wrong.
fn push_row(name: &str, row: &Answer, report: &mut Answer) {
    report.push(name);
    report.push(": ");
    report.push_answer(row);
    report.push("\n");
}

// Adds how many rows there are, and how many are wrong.
fn push_counts(name: &str, rows: usize, wrong: usize, report: &mut Answer) {
    report.push(name);
    report.push_number(": ", rows);
    report.push_number(" rows, ", wrong);
    report.push(" wrong\n");
}
