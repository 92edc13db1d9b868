//! The lines of an input, one after another.

ghost use Rattle.std.specs.Prelude.{◌≡◌, ◌+◌, ◌≤◌, ℕ, List, Bool, IfOk, IfSome, length, take};
ghost use Rattle.std.specs.Io.KnownBytes.{Appends};
ghost use Rattle.std.specs.Io.BufRead.{strip_last};
ghost use Rattle.bites_filter.specs.Lines.{lines_of, line_feed_of, line_feeds, AreWhole, IsNothingFor, ReadsLine, SkipsLines, DoesEach};

use crate::fault::Fault;
use std::alloc::Global;
use std::io::{self, BufRead, ErrorKind, Write};

// After so many tries in a row that skip nothing, lines are read without one.
const PATIENCE: u8 = 4;

// How many lines are read so before the next try.
const LEFT_OUT: u8 = 16;

/// When a program tries to skip lines. Where it seldom can, most lines are read without a try. Only speed depends on it.
#[derive(Clone, Copy, Drop)]
pub struct Tries {
    // How many tries in a row skipped nothing.
    vain: u8,
    // How many lines to come are read without a try.
    left_out: u8,
}

impl Tries {
    /// Returns the tries before the first line.
    pub fn new() -> Tries {
        Tries {
            vain: 0,
            left_out: 0,
        }
    }

    // Returns whether to try before the next line.
    fn is_next(&mut self) -> bool {
        if self.left_out == 0 {
            return true;
        }
        self.left_out -= 1;
        false
    }

    // Counts a try that skipped so many lines.
    fn count(&mut self, lines: u64) {
        if lines > 0 {
            self.vain = 0;
        } else if self.vain < PATIENCE {
            self.vain += 1;
        } else {
            self.left_out = LEFT_OUT;
        }
    }
}

/// What a program does with each line of its input.
pub trait LineTask {
    /// Relates a state, the number of a line, the line with the line feed that ends it, the bytes that are written for
    /// it, whether it counts, and the state after it.
    ghost does: { Self → ℕ → List ℕ → List ℕ → Bool → Self → Type 0 };

    /// Returns how many bytes at the front of a buffer are lines for which there is nothing to do: nothing is written for
    /// them, and none counts. They end with a line feed.
    fn skip(&self, _buffer: &[u8]) -> usize
        ensures within { result ≤ length _buffer.now }
        ensures nothing { IsNothingFor does self.now (take result _buffer.now) }
    {
        0
    }

    /// Does the work of one line. Returns whether the line counts. The error is that of the writer, or out of memory.
    fn line<W: Write>(&mut self, number: u64, line: &[u8], out: &mut W) -> io::Result<bool>
        ensures { IfOk result (λ counts. (text : List ℕ)
            × does self.old number line.now text counts self.new
            × Appends (W.contents out.old) (W.contents out.new) text) };
}

/// Does the work of each line of the input in turn. Returns how many lines count.
///
/// The lines are numbered from 1. After a fault, what was written before it stays.
pub fn each_line<T: LineTask, R: BufRead, W: Write>(
    alloc: Global,
    task: &mut T,
    input: &mut R,
    out: &mut W,
) -> Result<u64, Fault>
    ensures { IfOk result (λ count. IfSome (R.Read.remaining input.old) (λ bytes.
        (text : List ℕ) × DoesEach T.does 0 (lines_of bytes) task.old text count task.new
        × Appends (W.contents out.old) (W.contents out.new) text)) }
{
    let mut line = Vec::new(alloc);
    let mut tries = Tries::new();
    let mut number = 0;
    let mut count = 0;
    'lines: for _ in 0..u64::MAX {
        number = number_after(number, skip_lines(task, input, &mut tries)?)?;
        if !next_line(input, &mut line)? {
            return Ok(count);
        }
        number = number_after(number, 1)?;
        if do_line(task, number, &line, out)? {
            count += 1;
        }
    }
    Err(Fault::too_long())
}

/// Skips lines that the task has nothing to do for, at the front of what is read and not yet consumed, if it is time for a
/// try. Returns how many.
///
/// What is read may end within a line, so lines may follow that it doesn't skip though there is nothing to do for them.
pub fn skip_lines<T: LineTask, R: BufRead>(
    task: &T,
    input: &mut R,
    tries: &mut Tries,
) -> Result<u64, Fault>
    ensures { IfOk result (λ count. SkipsLines T.does task.now (R.Read.remaining input.old) count
        (R.Read.remaining input.new)) }
{
    if !tries.is_next() {
        return Ok(0);
    }
    let buffer = match input.fill_buf() {
        Ok(buffer) => buffer,
        Err(error) if error.kind() == ErrorKind::Interrupted => return Ok(0),
        Err(error) => return Err(Fault::of_reading(error)),
    };
    let end = task.skip(buffer);
    let count = count_lines(&buffer[..end]);
    input.consume(end);
    tries.count(count);
    Ok(count)
}

// Returns the number of the line so many lines after one of this number.
fn number_after(number: u64, lines: u64) -> Result<u64, Fault>
    ensures { IfOk result (λ n. n ≡ number + lines) }
{
    match number.checked_add(lines) {
        Some(number) => Ok(number),
        None => Err(Fault::too_long()),
    }
}

// How many bytes are counted at once: as many as fit into the sums of a vector of bytes.
const COUNTED: usize = 255;

// Returns how many lines these bytes are, if a line feed ends each of them.
fn count_lines(bytes: &[u8]) -> u64
    ensures { AreWhole bytes.now → result ≡ length (lines_of bytes.now) }
{
    let mut count = 0;
    let mut at = 0;
    'parts: while at < bytes.len() {
        let end = at + (bytes.len() - at).min(COUNTED);
        count += count_line_feeds(&bytes[at..end]) as u64;
        at = end;
    }
    count
}

// Returns how many line feeds there are. The sum is a byte, so that the compiler adds many at once.
fn count_line_feeds(bytes: &[u8]) -> u8
    requires { length bytes.now ≤ 255 }
    ensures { result ≡ line_feeds bytes.now }
{
    let mut count = 0u8;
    for byte in bytes {
        if *byte == b'\n' {
            count += 1;
        }
    }
    count
}

/// Returns how many bytes there are up to the last line feed, with it.
pub fn len_of_lines(bytes: &[u8]) -> usize
    ensures within { result ≤ length bytes.now }
    ensures whole { AreWhole (take result bytes.now) }
{
    let mut end = bytes.len();
    'bytes: while end > 0 && bytes[end - 1] != b'\n' {
        end -= 1;
    }
    end
}

/// Reads the next line, with the line feed that ends it, into `line`, which is cleared first. Returns whether there was
/// one.
pub fn next_line<R: BufRead>(input: &mut R, line: &mut Vec<u8>) -> Result<bool, Fault>
    ensures { IfOk result (λ there. ReadsLine (R.Read.remaining input.old) there line.new.items
        (R.Read.remaining input.new)) }
{
    line.clear();
    match input.read_until(b'\n', line) {
        Ok(0) => Ok(false),
        Ok(_) => Ok(true),
        Err(error) => Err(Fault::of_reading(error)),
    }
}

// Does the work of one line. Returns whether it counts.
fn do_line<T: LineTask, W: Write>(
    task: &mut T,
    number: u64,
    line: &[u8],
    out: &mut W,
) -> Result<bool, Fault>
    ensures { IfOk result (λ counts. (text : List ℕ)
        × T.does task.old number line.now text counts task.new
        × Appends (W.contents out.old) (W.contents out.new) text) }
{
    match task.line(number, line, out) {
        Ok(counts) => Ok(counts),
        Err(error) => Err(Fault::of_writing(&error)),
    }
}

/// Returns the line without the line feed that ends it, if one does.
pub fn without_line_feed(line: &[u8]) -> &[u8]
    ensures { result.now ≡ strip_last 10 line.now }
{
    match line {
        [rest @ .., b'\n'] => rest,
        _ => line,
    }
}

/// Returns the line feed that ends the line, if one does.
pub fn line_feed(line: &[u8]) -> &'static [u8]
    ensures { result.now ≡ line_feed_of line.now }
{
    match line {
        [.., b'\n'] => b"\n",
        _ => b"",
    }
}
