//! Answers as rows write them.

use bites_text::error::Error;
use std::alloc::{AllocError, Global};
use std::convert::Into;
use std::fmt::{Display, Write};
use std::ops::Range;

/// The answer of a row, which is empty before its first part. After memory was refused it takes nothing more, so that only
/// [`Answer::text`] has to say so.
pub struct Answer {
    text: String,
    result: Result<(), AllocError>,
}

// A caller that drops one relies on this function alone.
impl Drop for Answer {
    fn drop(self) {
        let Answer { text: _, result: _ } = self;
    }
}

impl Answer {
    /// Returns an answer without a part.
    pub fn new(alloc: Global) -> Answer {
        Answer {
            text: String::new(alloc),
            result: Ok(()),
        }
    }

    /// Takes all parts away, and keeps the room.
    pub fn clear(&mut self) {
        self.text.clear();
    }

    /// Returns the answer, unless memory was refused.
    pub fn text(&self) -> Result<&str, AllocError> {
        match self.result {
            Ok(()) => Ok(self.text.as_str()),
            Err(error) => Err(error),
        }
    }

    /// Returns the number of bytes.
    pub fn len(&self) -> usize {
        self.text.len()
    }

    /// Returns whether the answer is this text.
    pub fn is(&self, text: &str) -> bool {
        self.result.is_ok() && self.text.as_str() == text
    }

    /// Returns whether the answer is the first part of another one, which is so long.
    pub fn is_front(&self, other: &Answer, len: usize) -> bool {
        self.result.is_ok() && self.len() == len && other.text.starts_with(self.text.as_str())
    }

    /// Adds the text of another answer, or takes nothing more if memory was refused to it.
    pub fn push_answer(&mut self, other: &Answer) {
        match other.result {
            Ok(()) => self.push(other.text.as_str()),
            Err(error) => self.result = Err(error),
        }
    }

    /// Adds a text as it is.
    pub fn push(&mut self, text: &str) {
        if self.result.is_ok() {
            self.result = self.text.push_str(text);
        }
    }

    /// Adds a character as it is.
    pub fn push_char(&mut self, c: char) {
        if self.result.is_ok() {
            self.result = self.text.push(c);
        }
    }

    /// Adds a text, and a number behind it.
    pub fn push_number(&mut self, text: &str, number: usize) {
        self.push(text);
        write!(self, "{number}");
    }

    /// Takes nothing more if memory was refused.
    pub fn keep(&mut self, told: Result<(), AllocError>) {
        if told.is_err() {
            self.result = told;
        }
    }

    /// Adds what `write!` was given.
    pub fn write_fmt<D: Display + Drop>(&mut self, text: D) {
        if self.result.is_ok() {
            self.result = self.text.write_fmt(text);
        }
    }

    /// Adds bytes: one of printable ASCII is itself, `\\` is a backslash, and `\xHH` is any other one.
    pub fn push_escaped(&mut self, bytes: &[u8]) {
        for byte in bytes {
            match *byte {
                b'\\' => self.push("\\\\"),
                b' '..=b'~' => self.push_char(char::from(*byte)),
                other => write!(self, "\\x{other:02X}"),
            }
        }
    }

    /// Adds whether something is so.
    pub fn push_bool(&mut self, is_so: Result<bool, AllocError>) {
        match is_so {
            Ok(true) => self.push("true"),
            Ok(false) => self.push("false"),
            Err(error) => self.result = Err(error),
        }
    }

    /// Adds a span, or `-` for none, after a space unless it is the first part.
    pub fn push_span(&mut self, span: Option<(usize, usize)>) {
        if !self.text.is_empty() {
            self.push(" ");
        }
        match span {
            Some(span) => {
                self.push_number("", span.0);
                self.push_number("..", span.1);
            }
            None => self.push("-"),
        }
    }

    /// Adds a note if an iterator that was asked for some items did not give so many.
    pub fn push_taken(&mut self, taken: usize, wanted: usize) {
        if taken != wanted {
            self.push(" another number of items");
        }
    }

    /// Adds the span of a group, or `-` for one that doesn't participate.
    pub fn push_group<M: Into<Range<usize>> + Drop>(&mut self, group: Option<M>) {
        match group {
            Some(group) => {
                let range: Range<usize> = group.into();
                self.push_span(Some((range.start, range.end)));
            }
            None => self.push_span(None),
        }
    }

    /// Adds the span of a match, or `none`.
    pub fn push_match<M: Into<Range<usize>> + Drop>(
        &mut self,
        found: Result<Option<M>, AllocError>,
    ) {
        match found {
            Ok(Some(found)) => self.push_group(Some(found)),
            Ok(None) => self.push_none(),
            Err(error) => self.result = Err(error),
        }
    }

    /// Adds a text in quotes, after a space unless it is the first part.
    pub fn push_quoted(&mut self, bytes: &[u8]) {
        if !self.text.is_empty() {
            self.push(" ");
        }
        self.push("\"");
        self.push_escaped(bytes);
        self.push("\"");
    }

    /// Adds a note in place of a refusal of memory.
    pub fn note(&mut self, note: &str) {
        self.result = self.text.push_str(note);
    }

    /// Adds the separator of two matches, if there is a match before.
    pub fn push_next(&mut self) {
        if !self.text.is_empty() {
            self.push(";");
        }
    }

    /// Adds `none` if the answer has no part.
    pub fn push_none(&mut self) {
        if self.text.is_empty() {
            self.push("none");
        }
    }

    /// Adds an offset, or `none`.
    pub fn push_end(&mut self, end: Result<Option<usize>, AllocError>) {
        match end {
            Ok(Some(end)) => self.push_number("", end),
            Ok(None) => self.push_none(),
            Err(error) => self.result = Err(error),
        }
    }

    /// Adds `new:` and the escaped text, or `same` for none.
    pub fn push_new(&mut self, new: Option<&[u8]>) {
        match new {
            Some(bytes) => {
                self.push("new:");
                self.push_escaped(bytes);
            }
            None => self.push("same"),
        }
    }

    /// Adds `err: ` and the message of a refused pattern. Out of memory is no answer.
    pub fn push_refusal(&mut self, error: Error) {
        match error {
            Error::Memory => self.result = Err(AllocError),
            error => write!(self, "err: {error}"),
        }
    }
}
