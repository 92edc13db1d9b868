//! A row with its answer.

use crate::ask::{Answers, Rooms, Way};
use crate::call::{Call, Form, Question, Search};
use crate::fault::Fault;
use crate::pattern::push_answer_to;
use crate::question::{Asked, asked_by};
use crate::settings::{Limit, Maker};
use crate::told::Answer;
use std::alloc::{AllocError, Global};

/// The number of the column of the answer, counted from 0.
const ANSWER: usize = 10;

/// The number of the column that says where the pattern is refused, which few rows have.
const PLACE: usize = 12;

/// How the rows of a table are asked.
#[derive(Drop)]
pub struct Table {
    /// How often a call that takes no memory is asked.
    pub times: usize,
    /// The limits on tables that a search is asked with.
    pub limits: &'static [Limit],
}

/// Returns whether a line is a row.
pub fn is_row(line: &str) -> bool {
    !line.is_empty() && !line.starts_with('#')
}

/// Returns the row with the engine's answer instead of the expected one.
pub fn answered(alloc: Global, table: &Table, rooms: &mut Rooms, line: &str) -> Answer {
    let mut row = Answer::new(alloc);
    let columns: Vec<&str> = match line.split('\t').collect(alloc) {
        Ok(columns) => columns,
        Err(error) => {
            row.keep(Err(error));
            return row;
        }
    };
    for (number, column) in columns.iter().enumerate() {
        if number > 0 {
            row.push("\t");
        }
        match number {
            ANSWER | PLACE => {
                let answers = answers_in(alloc, table, rooms, &columns, number);
                row.push_answer(&answers.all);
            }
            _ => row.push(column),
        }
    }
    row
}

// Returns what stands in one of the two columns of answers.
fn answers_in(
    alloc: Global,
    table: &Table,
    rooms: &mut Rooms,
    columns: &[&str],
    number: usize,
) -> Answers {
    let mut answers = Answers::new(alloc);
    match asked_by(alloc, columns, table.times) {
        Ok(mut asked) => {
            if number == PLACE {
                asked.call = Call::Pattern(Question::Place);
            }
            ask(table, rooms, &mut asked, &mut answers);
        }
        Err(Fault::NoRow) => answers.all.push("no row"),
        Err(Fault::Memory) => answers.all.keep(Err(AllocError)),
    }
    answers
}

// Asks what the row asks. A search is asked with each limit of the table.
fn ask(table: &Table, rooms: &mut Rooms, asked: &mut Asked<'_>, answers: &mut Answers) {
    match asked.call {
        Call::Pattern(question) => ask_pattern(asked, question, answers),
        Call::Search(search, form) => {
            for limit in table.limits {
                answers.limit = limit.name;
                asked.settings.dfa_size_limit = limit.bytes;
                asked.settings.prefilter = limit.prefilter;
                ask_search(rooms, asked, search, form, answers);
            }
        }
    }
}

/// A way to ask about a pattern: its name, whether the regex is over texts, and the call that builds it.
struct Build {
    name: &'static str,
    is_text: bool,
    maker: Maker,
}

/// The ways to ask about a pattern.
const BUILDS: &[Build] = &[
    Build {
        name: "over bytes",
        is_text: false,
        maker: Maker::Build,
    },
    Build {
        name: "over bytes by into_regex",
        is_text: false,
        maker: Maker::IntoRegex,
    },
    Build {
        name: "over bytes by Regex::new",
        is_text: false,
        maker: Maker::New,
    },
    Build {
        name: "over texts",
        is_text: true,
        maker: Maker::Build,
    },
    Build {
        name: "over texts by Regex::new",
        is_text: true,
        maker: Maker::New,
    },
];

impl Build {
    // Returns whether a question is asked so. Each way to build is tried if the answer is that of a regex.
    fn is_asked(&self, asked: &Asked<'_>, question: Question) -> bool {
        if self.is_text && !asked.is_text {
            return false;
        }
        match self.maker {
            Maker::Build => true,
            Maker::IntoRegex => question.is_of_regex(),
            Maker::New => question.is_of_regex() && asked.settings.are_default,
        }
    }
}

// Asks about the pattern alone.
fn ask_pattern(asked: &Asked<'_>, question: Question, answers: &mut Answers) {
    for build in BUILDS {
        if build.is_asked(asked, question) {
            answers.way = build.name;
            push_answer_to(
                asked,
                question,
                build.is_text,
                build.maker,
                &mut answers.next,
            );
            answers.take_next("");
        }
    }
}

/// The ways to ask a search.
const WAYS: &[Way] = &[
    Way {
        name: "over bytes ",
        is_text: false,
        keeps_groups: false,
    },
    Way {
        name: "over bytes with all groups ",
        is_text: false,
        keeps_groups: true,
    },
    Way {
        name: "over texts ",
        is_text: true,
        keeps_groups: false,
    },
    Way {
        name: "over texts with all groups ",
        is_text: true,
        keeps_groups: true,
    },
];

// Asks a search in each way that can ask it.
fn ask_search(
    rooms: &mut Rooms,
    asked: &Asked<'_>,
    search: Search,
    form: Form,
    answers: &mut Answers,
) {
    let has_others = search.has_groups() && drops_groups(asked, answers);
    for way in WAYS {
        if (way.keeps_groups && has_others) || (way.is_text && !asked.is_text) {
            continue;
        }
        rooms.ask(asked, search, form, way, answers);
    }
}

// Returns whether the pattern drops groups, so that numbers and names differ if they are kept.
fn drops_groups(asked: &Asked<'_>, answers: &mut Answers) -> bool {
    let len = captures_len(asked, asked.settings.keep_dropped_groups, answers);
    let kept = captures_len(asked, true, answers);
    len > 0 && kept > 0 && len != kept
}

// Returns the number of groups, or 0 if the pattern is refused.
fn captures_len(asked: &Asked<'_>, keeps: bool, answers: &mut Answers) -> usize {
    let mut settings = asked.settings;
    settings.keep_dropped_groups = keeps;
    match settings.bytes(asked.alloc, &asked.pattern) {
        Ok(regex) => regex.captures_len(),
        Err(error) => {
            if error.is_memory() {
                answers.all.keep(Err(AllocError));
            }
            0
        }
    }
}
