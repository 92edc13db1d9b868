//! Answers to questions about patterns alone: trees, builds, messages, sizes, programs, tables, escaped texts and places.

use crate::call::Question;
use crate::question::Asked;
use crate::settings::{Maker, Settings};
use crate::told::Answer;
use crate::words::write_words;
use bites_bytes::bytes::{CaptureNames, TableSize};
use bites_machine::program::compile;
use bites_syntax::parse::parse;
use bites_syntax::tree::escape;
use bites_text::error::Error;
use std::alloc::Global;

/// The greatest size limit that is tried, a power of two.
const GREATEST: usize = 67108864;

/// A pattern, and how a regex of it is built.
#[derive(Drop)]
struct Subject<'a> {
    alloc: Global,
    pattern: &'a str,
    settings: Settings,
    is_text: bool,
}

/// Adds the answer to a question about the pattern of a row, of a regex over bytes or over texts that this call builds.
pub fn push_answer_to(
    asked: &Asked<'_>,
    question: Question,
    is_text: bool,
    maker: Maker,
    answer: &mut Answer,
) {
    let mut settings = asked.settings;
    settings.maker = maker;
    if let Question::Table = question {
        settings.dfa_size_limit = asked.argument;
    }
    let mut subject = Subject {
        alloc: asked.alloc,
        pattern: &asked.pattern,
        settings,
        is_text,
    };
    let told = match question {
        Question::LeastSize => push_least_size(&mut subject, answer),
        Question::Tree => push_tree(&subject, answer),
        Question::Program => push_program(&subject, answer),
        Question::Escape => push_escaped_pattern(&subject, answer),
        Question::Place => push_place(&subject, answer),
        _ if is_text => push_texts(&subject, question, answer),
        _ => push_bytes(&subject, question, answer),
    };
    if let Err(error) = told {
        answer.push_refusal(error);
    }
}

// Adds what the row asks of a regex over bytes.
fn push_bytes(subject: &Subject<'_>, question: Question, answer: &mut Answer) -> Result<(), Error> {
    let regex = subject.settings.bytes(subject.alloc, subject.pattern)?;
    match question {
        Question::Table => push_size(regex.table_size(), answer),
        Question::Build => {
            push_lens(regex.captures_len(), regex.static_captures_len(), answer);
            push_names(regex.capture_names(), answer);
        }
        _ => answer.push("accepted"),
    }
    Ok(())
}

// Adds what the row asks of a regex over texts.
fn push_texts(subject: &Subject<'_>, question: Question, answer: &mut Answer) -> Result<(), Error> {
    let regex = subject.settings.texts(subject.alloc, subject.pattern)?;
    match question {
        Question::Table => push_size(regex.table_size(), answer),
        Question::Build => {
            push_lens(regex.captures_len(), regex.static_captures_len(), answer);
            push_names(regex.capture_names(), answer);
        }
        _ => answer.push("accepted"),
    }
    Ok(())
}

// Adds how much is known of the table: the whole, a part, or none.
fn push_size(size: Option<TableSize>, answer: &mut Answer) {
    answer.push(match size {
        Some(size) if size.is_whole => "whole",
        Some(_) => "part",
        None => "none",
    });
}

// Adds `ok`, the number of groups, and the least number of groups that participate.
fn push_lens(groups: usize, least: Option<usize>, answer: &mut Answer) {
    answer.push_number("ok ", groups);
    match least {
        Some(least) => answer.push_number(" ", least),
        None => answer.push(" -"),
    }
}

// Adds the names, separated by commas. `-` stands for a group without a name.
fn push_names(names: CaptureNames<'_>, answer: &mut Answer) {
    let mut is_first = true;
    for name in names {
        answer.push(if is_first { " " } else { "," });
        answer.push_escaped(name.unwrap_or("-").as_bytes());
        is_first = false;
    }
}

// Adds the tree of the pattern in words.
fn push_tree(subject: &Subject<'_>, answer: &mut Answer) -> Result<(), Error> {
    let settings = &subject.settings;
    let tree = parse(
        subject.alloc,
        subject.pattern,
        settings.flags,
        settings.nest_limit,
    )?;
    let mut words = Answer::new(subject.alloc);
    write_words(&tree, &mut words);
    answer.push_escaped(words.text()?.as_bytes());
    Ok(())
}

// Adds the numbers of states, slots and targets of the program.
fn push_program(subject: &Subject<'_>, answer: &mut Answer) -> Result<(), Error> {
    let settings = &subject.settings;
    let tree = parse(
        subject.alloc,
        subject.pattern,
        settings.flags,
        settings.nest_limit,
    )?;
    let program = compile(subject.alloc, &tree, subject.pattern, settings.size_limit)?;
    answer.push_number("", program.len());
    answer.push_number(" ", program.slots());
    answer.push_number(" ", program.targets());
    Ok(())
}

fn push_escaped_pattern(subject: &Subject<'_>, answer: &mut Answer) -> Result<(), Error> {
    let escaped = escape(subject.alloc, subject.pattern)?;
    answer.push_new(Some(escaped.as_bytes()));
    Ok(())
}

// Adds where the pattern is refused: the number of bytes before the place, `none` for an error without one, or `-` if the grammar
// reads the pattern.
fn push_place(subject: &Subject<'_>, answer: &mut Answer) -> Result<(), Error> {
    let settings = &subject.settings;
    let error = if subject.is_text {
        settings
            .texts_builder(subject.alloc, subject.pattern)?
            .syntax_error()
    } else {
        settings
            .bytes_builder(subject.alloc, subject.pattern)?
            .syntax_error()
    };
    match error? {
        Some(error) => answer.push_end(Ok(error.offset())),
        None => answer.push("-"),
    }
    Ok(())
}

// Adds the least size limit at which the pattern is accepted, or `above` if the greatest one refuses it.
fn push_least_size(subject: &mut Subject<'_>, answer: &mut Answer) -> Result<(), Error> {
    if is_above(subject, GREATEST)? {
        answer.push("above");
        return Ok(());
    }
    let mut refused = 0usize;
    let mut step = GREATEST;
    for _ in 0..GREATEST.ilog2() {
        step /= 2;
        let limit = refused.saturating_add(step);
        if is_above(subject, limit)? {
            refused = limit;
        }
    }
    answer.push_number("", refused.saturating_add(1));
    Ok(())
}

// Returns whether a build with this size limit is refused because of it.
fn is_above(subject: &mut Subject<'_>, size_limit: usize) -> Result<bool, Error> {
    subject.settings.size_limit = size_limit;
    let error = if subject.is_text {
        subject.settings.texts(subject.alloc, subject.pattern).err()
    } else {
        subject.settings.bytes(subject.alloc, subject.pattern).err()
    };
    match error {
        None => Ok(false),
        Some(Error::TooBig) => Ok(true),
        Some(error) => Err(error),
    }
}
