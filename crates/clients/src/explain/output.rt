//! What a report is written to.

use super::haystack::Piece;
use super::text::{write_lossy, write_text};
use bites_filter::fault::Fault;
use bites_filter::program::{flush, open};
use std::alloc::AllocError;
use std::fmt::Display;
use std::io::{self, BufWriter, Stdout, Write};

/// Standard output through a buffer. It keeps its first error and writes nothing more after it, so that only the end has to
/// ask for it.
///
/// It owns the buffer and is of one type, since all that writes a report takes it behind a reference.
pub(crate) struct Output {
    buffer: BufWriter<Stdout>,
    result: io::Result<()>,
    // Whether no item of the list that was begun last is written yet.
    is_first: bool,
}

// What drops one relies on this function, and on no type below it.
impl Drop for Output {
    fn drop(self) {
        let Output {
            buffer: _,
            result: _,
            is_first: _,
        } = self;
    }
}

impl Output {
    /// Returns what writes to standard output. The fault is out of memory.
    pub(crate) fn new(rt: &HostRuntime) -> Result<Output, Fault> {
        Ok(Output {
            buffer: open(BufWriter::new(rt.alloc(), rt.stdout()))?,
            result: Ok(()),
            is_first: false,
        })
    }

    /// Writes a text as it is.
    pub(crate) fn put(&mut self, text: &str) {
        if self.result.is_ok() {
            self.result = self.buffer.write_all(text.as_bytes());
        }
    }

    /// Writes a text, and a number behind it.
    pub(crate) fn put_number(&mut self, text: &str, number: usize) {
        self.put(text);
        write!(self, "{number}");
    }

    /// Writes a text, and the number of a character behind it.
    pub(crate) fn put_character(&mut self, text: &str, c: char) {
        self.put_number(text, c as u32 as usize);
    }

    /// Writes a text, and `true` or `false` behind it.
    pub(crate) fn put_truth(&mut self, text: &str, is_true: bool) {
        self.put(text);
        self.put(if is_true { "true" } else { "false" });
    }

    /// Writes a text if this is true.
    pub(crate) fn put_if(&mut self, is_true: bool, text: &str) {
        if is_true {
            self.put(text);
        }
    }

    /// Writes a text that begins a list of a JSON document.
    pub(crate) fn begin(&mut self, text: &str) {
        self.put(text);
        self.is_first = true;
    }

    /// Writes what stands before an item of a list: a comma, but before the first one nothing.
    pub(crate) fn part(&mut self) {
        if !self.is_first {
            self.put(",");
        }
        self.is_first = false;
    }

    /// Writes a number as an item of a list.
    pub(crate) fn put_item(&mut self, number: usize) {
        self.part();
        self.put_number("", number);
    }

    /// Writes a text that ends a list.
    pub(crate) fn end(&mut self, text: &str) {
        self.put(text);
        self.is_first = false;
    }

    /// Writes what `write!` was given.
    pub(crate) fn write_fmt<D: Display + Drop>(&mut self, text: D) {
        if self.result.is_ok() {
            self.result = self.buffer.write_fmt(text);
        }
    }

    /// Writes a text of a JSON document, between quotes.
    pub(crate) fn put_text(&mut self, text: &str) {
        if self.result.is_ok() {
            self.result = write_text(text, &mut self.buffer);
        }
    }

    /// Writes the characters of the pieces as a text of a JSON document.
    pub(crate) fn put_lossy(&mut self, pieces: &[Piece<'_>]) {
        if self.result.is_ok() {
            self.result = write_lossy(pieces, &mut self.buffer);
        }
    }

    /// Keeps the error of what was to be written, if there was one.
    pub(crate) fn keep(&mut self, written: Result<(), AllocError>) {
        if self.result.is_ok()
            && let Err(error) = written
        {
            self.result = Err(error.into());
        }
    }

    /// Writes what the buffer still holds. The fault is the first error, if there was one.
    pub(crate) fn finish(&mut self) -> Result<(), Fault> {
        match &self.result {
            Ok(()) => flush(&mut self.buffer),
            Err(error) => Err(Fault::of_writing(error)),
        }
    }
}
