//! What programs share: the words of the command line, buffers, and the status.

use crate::fault::Fault;
use crate::help::Help;
use std::alloc::Global;
use std::io::{BufReader, BufWriter, Read, Write};
use std::process::ExitCode;
use std::rt::Env;
use std::{env, io};

/// Returns the words after the program's name. The fault is out of memory, or the usage if a word is not UTF-8.
pub fn words(rt: &(impl Env + AllocGlobal), help: &'static Help) -> Result<Vec<String>, Fault> {
    match read_words(rt) {
        Ok(words) => Ok(words),
        Err(error) if error.kind() == io::ErrorKind::OutOfMemory => Err(Fault::of_reading(error)),
        Err(_) => Err(Fault::Usage(help)),
    }
}

fn read_words(rt: &(impl Env + AllocGlobal)) -> io::Result<Vec<String>> {
    let mut words = Vec::new(rt.alloc());
    for word in env::args(rt)?.skip(1) {
        words.push(word)?;
    }
    Ok(words)
}

/// Returns buffers over an input and an output. The fault is out of memory.
pub fn buffers<R: Read + Drop, W: Write + Drop>(
    alloc: Global,
    input: R,
    out: W,
) -> Result<(BufReader<R>, BufWriter<W>), Fault> {
    Ok((
        open(BufReader::new(alloc, input))?,
        open(BufWriter::new(alloc, out))?,
    ))
}

/// Returns the buffer, or the fault of making it.
pub fn open<B>(buffer: io::Result<B>) -> Result<B, Fault> {
    match buffer {
        Ok(buffer) => Ok(buffer),
        Err(error) => Err(Fault::of_writing(&error)),
    }
}

/// Writes what the buffer still holds.
pub fn flush<W: Write>(out: &mut W) -> Result<(), Fault> {
    match out.flush() {
        Ok(()) => Ok(()),
        Err(error) => Err(Fault::of_writing(&error)),
    }
}

/// Returns the status of a program that ended with this result. For a fault it writes the line of the fault.
pub fn status<E: Write>(program: &str, ended: Result<u8, Fault>, err: &mut E) -> ExitCode {
    ExitCode::from(match ended {
        Ok(status) => status,
        Err(fault) => fault.tell(program, err),
    })
}

/// Writes how many lines are not in the form that the program takes, if there are any. Returns the status: 0 if there
/// are none, else 1.
pub fn tell_bad<E: Write>(program: &str, bad: u64, form: &str, err: &mut E) -> u8 {
    if bad == 0 {
        return 0;
    }
    let lines_are = if bad == 1 { "line is" } else { "lines are" };
    // The status is 1 even if the line can't be written.
    let _written = writeln!(err, "{program}: {bad} {lines_are} not in {form}");
    1
}
