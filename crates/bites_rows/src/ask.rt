//! Asking a search by each of its calls, and collecting the answers.

use crate::call::{Form, Search};
use crate::others::{OTHERS, Other};
use crate::question::{Asked, Query, query_of};
use crate::surface::{Surface, push_answer};
use crate::told::Answer;
use crate::{bytes, texts};
use std::alloc::Global;

/// The answers to a row: the first one, and the others that differ from it.
pub struct Answers {
    /// The first answer, and each other one with the name of its way.
    pub all: Answer,
    /// The answer to the next call, which keeps its room from call to call.
    pub next: Answer,
    /// The limit on the table that searches are asked with.
    pub limit: &'static str,
    /// The way in which calls are asked.
    pub way: &'static str,
    // The length of the first answer, or 0 if there is none.
    first_len: usize,
}

// A caller that drops them relies on this function alone.
impl Drop for Answers {
    fn drop(self) {
        let Answers {
            all: _,
            next: _,
            limit: _,
            way: _,
            first_len: _,
        } = self;
    }
}

impl Answers {
    /// Returns no answers.
    pub fn new(alloc: Global) -> Answers {
        Answers {
            all: Answer::new(alloc),
            next: Answer::new(alloc),
            limit: "",
            way: "",
            first_len: 0,
        }
    }

    /// Takes the next answer, which is that of this call and not empty. It is added unless the first one is the same.
    pub fn take_next(&mut self, call: &str) {
        if self.first_len == 0 {
            self.first_len = self.next.len();
            self.all.push_answer(&self.next);
        } else if !self.next.is_front(&self.all, self.first_len) {
            self.all.push(", but ");
            self.all.push(self.limit);
            self.all.push(self.way);
            self.all.push(call);
            self.all.push(": ");
            self.all.push_answer(&self.next);
        }
        self.next.clear();
    }
}

/// The searchers of the row before. Their caches and locations serve this row if they fit.
pub struct Rooms {
    bytes: Option<bytes::Searcher>,
    texts: Option<texts::Searcher>,
}

// A caller that drops them relies on this function alone.
impl Drop for Rooms {
    fn drop(self) {
        let Rooms { bytes: _, texts: _ } = self;
    }
}

/// A way to ask a search: its name, whether it is over texts, and whether it keeps the groups that the pattern drops.
pub struct Way {
    pub name: &'static str,
    pub is_text: bool,
    pub keeps_groups: bool,
}

impl Rooms {
    /// Returns what the first row has.
    pub fn new() -> Rooms {
        Rooms {
            bytes: None,
            texts: None,
        }
    }

    /// Asks the search of a row in this way by its first call and each other one, and adds the answers.
    pub fn ask(
        &mut self,
        asked: &Asked<'_>,
        search: Search,
        form: Form,
        way: &Way,
        answers: &mut Answers,
    ) {
        answers.way = way.name;
        let mut settings = asked.settings;
        if way.keeps_groups {
            settings.keep_dropped_groups = true;
        }
        match query_of(asked, settings, search, form, way.is_text) {
            Some(query) if way.is_text => ask_surface(&mut self.texts, &query, answers),
            Some(query) => ask_surface(&mut self.bytes, &query, answers),
            None => {
                answers.next.push("not asked");
                answers.take_next(asked.word);
            }
        }
    }
}

// Asks a surface, which has the room of the row before.
fn ask_surface<S: Surface + Drop>(kept: &mut Option<S>, query: &Query<'_>, answers: &mut Answers) {
    match S::build(query, kept) {
        Ok(mut surface) => {
            ask_each(&mut surface, query, answers);
            *kept = Some(surface);
        }
        Err(error) => {
            answers.next.push_refusal(error);
            answers.take_next(query.call);
        }
    }
}

// Asks the search of a row by each of its calls.
fn ask_each<S: Surface>(surface: &mut S, query: &Query<'_>, answers: &mut Answers) {
    push_answer(surface, query, query.search, query.form, &mut answers.next);
    answers.take_next(query.call);
    for other in OTHERS {
        if other.word == query.call && !(other.form.is_whole() && query.limit > 0) {
            ask_other(surface, query, other, answers);
        }
    }
}

// Asks one more call, as often as the row says if it takes no memory.
fn ask_other<S: Surface>(surface: &mut S, query: &Query<'_>, other: &Other, answers: &mut Answers) {
    let times = if other.takes_no_memory {
        query.times
    } else {
        1
    };
    for _ in 0..times {
        push_answer(surface, query, other.search, other.form, &mut answers.next);
        answers.take_next(other.call);
    }
}
