//! Readers and writers of std as the program's devices.
//!
//! - `streams WORDS` calls the program over a reader and a writer in memory, and `single WORDS`
//!   over such that move one byte a call.
//! - `reader ANSWER WORDS` and `writer ANSWER WORDS` call it over one whose first call is answered
//!   so, `fault` for an error, and later ones with all.
//! - `read ANSWER` reads four bytes from such a reader, and `write ANSWER COUNT` writes so many to
//!   such a writer.

ghost use Rattle.std.specs.Prelude.{◌≤◌, IfOk};

use super::calls::{push_last, words_in};
use super::outcome::{Outcome, push_faults};
use super::trial::Trial;
use crate::lines::{Line, count_in, word_of};
use implib_tool_driver::command::command;
use implib_tool_driver::device::{DeviceFault, Sink, Source};
use implib_tool_driver::host::Host;
use std::alloc::{AllocError, Global};
use std::io;
use std::io::{Read, Write};
use std::test::Fail;

/// A reader that gives one byte a call.
#[derive(Drop)]
struct SingleReader<'a>(&'a [u8]);

impl io::Read for SingleReader<'_> {
    fn read(&mut self, buf: &mut [u8]) -> io::Result<usize> {
        let room = buf.len().min(1);
        self.0.read(&mut buf[..room])
    }
}

/// A writer that takes one byte a call.
#[derive(Drop)]
struct SingleWriter(Vec<u8>);

impl io::Write for SingleWriter {
    fn write(&mut self, buf: &[u8]) -> io::Result<usize> {
        let count = buf.len().min(1);
        self.0.write(&buf[..count])
    }

    fn flush(&mut self) -> io::Result<()> {
        Ok(())
    }
}

/// A reader and a writer that answers its first call so, `None` for a fault, and later ones with
/// all.
#[derive(Drop)]
struct First(Option<usize>);

impl First {
    fn answer(&mut self, room: usize) -> io::Result<usize>
        ensures { IfOk result (λ n. n ≤ room) }
    {
        let first = self.0;
        self.0 = Some(room);
        match first {
            Some(count) => Ok(count.min(room)),
            None => Err(io::Error::from(io::ErrorKind::Interrupted)),
        }
    }
}

impl io::Read for First {
    fn read(&mut self, buf: &mut [u8]) -> io::Result<usize> {
        self.answer(buf.len())
    }
}

impl io::Write for First {
    fn write(&mut self, buf: &[u8]) -> io::Result<usize> {
        self.answer(buf.len())
    }

    fn flush(&mut self) -> io::Result<()> {
        Ok(())
    }
}

/// The first answer of a device.
fn first_in(word: &str) -> Result<First, Fail> {
    match word {
        "fault" => Ok(First(None)),
        count => Ok(First(Some(count_in(count)?))),
    }
}

/// The answer to a line about streams.
pub fn answer_stream(text: &mut String, trial: &mut Trial, line: &Line) -> Result<(), Fail> {
    let (first, rest) = word_of(line.rest);
    match line.word {
        "streams" => Ok(answer_streams(text, trial, line.rest)?),
        "single" => Ok(answer_single(text, trial, line.rest)?),
        "reader" => Ok(answer_reader(text, trial, first_in(first)?, rest)?),
        "writer" => Ok(answer_writer(text, trial, first_in(first)?, rest)?),
        "read" => Ok(answer_read(text, first_in(first)?)?),
        _ => Ok(answer_write(text, first_in(first)?, count_in(rest)?)?),
    }
}

/// The status of a call over streams, and what was written of faults.
fn run_over<R: io::Read + Drop, W: io::Write + Drop>(
    alloc: Global,
    words: &str,
    reader: R,
    writer: W,
) -> Result<(u8, Vec<u8>), AllocError> {
    let arguments = words_in(alloc, words)?;
    let mut said = Vec::new(alloc);
    let mut reader = Host::new(reader);
    let mut writer = Host::new(writer);
    let mut faults = Host::new(&mut said);
    let status = command(
        alloc,
        arguments.as_slice(),
        &mut reader,
        &mut writer,
        &mut faults,
    );
    drop(faults);
    Ok((status, said))
}

/// Appends what came of a call over streams.
fn push_status(
    text: &mut String,
    trial: &mut Trial,
    written: Vec<u8>,
    ended: (u8, Vec<u8>),
) -> Result<(), AllocError> {
    let (status, faults) = ended;
    let outcome = Outcome {
        status,
        written,
        faults,
        late_calls: 0,
    };
    push_last(text, trial, outcome)
}

/// Calls the program over streams in memory.
fn answer_streams(text: &mut String, trial: &mut Trial, words: &str) -> Result<(), AllocError> {
    let input = trial.input()?;
    let mut written = Vec::new(trial.alloc);
    let ended = run_over(trial.alloc, words, input.as_slice(), &mut written)?;
    push_status(text, trial, written, ended)
}

/// Calls the program over streams in memory that move one byte a call.
fn answer_single(text: &mut String, trial: &mut Trial, words: &str) -> Result<(), AllocError> {
    let input = trial.input()?;
    let mut writer = SingleWriter(Vec::new(trial.alloc));
    let reader = SingleReader(input.as_slice());
    let ended = run_over(trial.alloc, words, reader, &mut writer)?;
    push_status(text, trial, writer.0, ended)
}

/// Calls the program over a reader with this first answer.
fn answer_reader(
    text: &mut String,
    trial: &mut Trial,
    first: First,
    words: &str,
) -> Result<(), AllocError> {
    let mut written = Vec::new(trial.alloc);
    let ended = run_over(trial.alloc, words, first, &mut written)?;
    push_status(text, trial, written, ended)
}

/// Calls the program over a writer with this first answer. What it took is not known.
fn answer_writer(
    text: &mut String,
    trial: &Trial,
    first: First,
    words: &str,
) -> Result<(), AllocError> {
    let input = trial.input()?;
    let (status, faults) = run_over(trial.alloc, words, input.as_slice(), first)?;
    write!(text, "  status {status}")?;
    push_faults(trial.alloc, text, faults.as_slice())?;
    text.push('\n')
}

/// Appends the answer of a device, and whether it has failed then.
fn push_moved(
    text: &mut String,
    had_failed: bool,
    moved: Result<usize, DeviceFault>,
    has_failed: bool,
) -> Result<(), AllocError> {
    text.push_str(if had_failed {
        "  failed before, "
    } else {
        "  "
    })?;
    match moved {
        Ok(count) => write!(text, "{count}")?,
        Err(_) => text.push_str("a fault")?,
    }
    text.push_str(if has_failed {
        ", failed\n"
    } else {
        ", sound\n"
    })
}

/// Reads four bytes from a reader with this first answer.
fn answer_read(text: &mut String, first: First) -> Result<(), AllocError> {
    let mut host = Host::new(first);
    let mut buffer = [0; 4];
    let had_failed = Source::has_failed(&host);
    let moved = Source::read(&mut host, &mut buffer);
    push_moved(text, had_failed, moved, Source::has_failed(&host))
}

/// Writes bytes, four at most, to a writer with this first answer.
fn answer_write(text: &mut String, first: First, count: usize) -> Result<(), AllocError> {
    let mut host = Host::new(first);
    let bytes = [0; 4];
    let had_failed = Sink::has_failed(&host);
    let moved = Sink::write(&mut host, &bytes[..count.min(4)]);
    push_moved(text, had_failed, moved, Sink::has_failed(&host))
}
