//! Prints each row of a table with the engine's answer instead of the expected one: `bites_rows < TABLE | diff TABLE
//! -`.
//!
//! With words, which are names of tables, it prints the rows whose answer is not the expected one, and how many rows
//! each table has. A word that is a number says how often a row asks a call that takes no memory; without one it does
//! so once. With the word `limits` each search is asked with each limit on its table, and else with the default alone.
//! `data/README.md` says what a row is. A line that is empty or begins with `#` is printed unchanged. A row is
//! asked in each way that can ask it: over bytes, over texts, over both with `keep_dropped_groups`, and by each call
//! that must give the same answer. An answer that differs from the first one follows it with the name of its way. A
//! line that is not a row has the answer `no row`.
#![tactic(auto)]

mod answer;
mod ask;
mod bytes;
mod call;
mod compare;
mod escaped;
mod fault;
mod items;
mod others;
mod pattern;
mod question;
mod served;
mod settings;
mod surface;
mod texts;
mod told;
mod words;

use crate::answer::{Table, answered, is_row};
use crate::ask::Rooms;
use crate::compare::compared;
use crate::settings::{ALL_LIMITS, ONE_LIMIT};
use std::{env, fs, io};

fn main(rt: HostRuntime) -> io::Result<()> {
    let mut has_names = false;
    let mut table = Table {
        times: 1,
        limits: ONE_LIMIT,
    };
    for word in env::args(&rt)?.skip(1) {
        if !is_setting(word.as_str(), &mut table) {
            has_names = true;
            print_report(&rt, word.as_str(), &table)?;
        }
    }
    if has_names {
        return Ok(());
    }
    print_answers(&rt, &table)
}

// Returns whether a word says how to ask the rows, and does as it says.
fn is_setting(word: &str, table: &mut Table) -> bool {
    if word == "limits" {
        table.limits = ALL_LIMITS;
        return true;
    }
    match word.parse() {
        Ok(times) => {
            table.times = times;
            true
        }
        Err(_) => false,
    }
}

// Prints the report on the table of this name.
fn print_report(rt: &HostRuntime, name: &str, table: &Table) -> io::Result<()> {
    let text = fs::read_to_string(rt, name)?;
    let report = compared(rt.alloc(), name, &text, table);
    print!(rt; "{}", report.text()?)
}

// Prints each line of the input, the rows with the engine's answers.
fn print_answers(rt: &HostRuntime, table: &Table) -> io::Result<()> {
    let mut rooms = Rooms::new();
    for line in rt.lines(rt.alloc()) {
        print_answer(rt, table, &mut rooms, line?.as_str())?;
    }
    Ok(())
}

fn print_answer(rt: &HostRuntime, table: &Table, rooms: &mut Rooms, line: &str) -> io::Result<()> {
    if !is_row(line) {
        return println!(rt; "{line}");
    }
    let row = answered(rt.alloc(), table, rooms, line);
    println!(rt; "{}", row.text()?)
}
