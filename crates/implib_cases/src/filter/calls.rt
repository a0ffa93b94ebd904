//! Calls of the program, over the input and the devices of a case. `''` is an empty word.
//!
//! - `call WORDS` calls it with these arguments.
//! - `retried WORDS` calls it once more where memory was refused.
//! - `run MACHINE FLAVOUR` makes a run by itself, and tells the text of the error.
//! - `perform WORDS` calls it with a command line, the program's name included, and `unread KIND`
//!   with one that cannot be read.
//! - `apart WORDS` calls it for each document by itself, with ample devices, and tells whether the
//!   listings, one after another, are what was written last.
//! - `each_read STEP COUNT WORDS` and `each_write STEP COUNT WORDS` call it with a device that
//!   moves at most STEP bytes in a call, and fails after no call, after one, and so on below COUNT.

use super::devices::{AMPLE, MemorySink, MemorySource, Pace, SINGLE};
use super::outcome::{Answers, Outcome, push_late, push_outcome};
use super::trial::Trial;
use crate::lines::{Line, count_in, word_of};
use implib::{Flavor, MachineType};
use implib_tool_driver::command::command;
use implib_tool_driver::program::perform;
use implib_tool_driver::run::run;
use std::alloc::{AllocError, Global};
use std::io;
use std::io::ErrorKind;
use std::process::ExitCode;
use std::test::Fail;

/// The devices of a call.
#[derive(Clone, Copy)]
pub struct Devices {
    pub reads: Pace,
    pub writes: Pace,
    pub tears: bool,
}

/// Devices that move all bytes at once, always.
const AMPLE_DEVICES: Devices = Devices {
    reads: AMPLE,
    writes: AMPLE,
    tears: false,
};

/// The devices of a case.
fn devices_of(trial: &Trial) -> Devices {
    Devices {
        reads: trial.reads,
        writes: trial.writes,
        tears: trial.tears,
    }
}

/// The answer to a line that calls.
pub fn answer_call(text: &mut String, trial: &mut Trial, line: &Line) -> Result<(), Fail> {
    match line.word {
        "call" => Ok(answer_once(text, trial, line.rest)?),
        "retried" => Ok(answer_retried(text, trial, line.rest)?),
        "run" => answer_run(text, trial, line.rest),
        "perform" => Ok(answer_perform(text, trial, line.rest)?),
        "unread" => answer_unread(text, trial, line.rest),
        "apart" => Ok(answer_apart(text, trial, line.rest)?),
        "each_read" | "each_write" => answer_each(text, trial, line),
        word => Err(Fail::new(format_args!("{word} is no word of a case"))),
    }
}

/// The words of a text.
pub fn words_in(alloc: Global, text: &str) -> Result<Vec<String>, AllocError> {
    let mut words = Vec::new(alloc);
    for word in text.split_whitespace() {
        let word = if word == "''" { "" } else { word };
        words.push(String::from_str(alloc, word)?)?;
    }
    Ok(words)
}

/// What a call does, over devices in memory. That of faults takes a byte a call.
fn called(
    alloc: Global,
    words: &str,
    input: &[u8],
    devices: &Devices,
) -> Result<Outcome, AllocError> {
    let arguments = words_in(alloc, words)?;
    let mut reader = MemorySource::new(input, devices.reads);
    let mut writer = MemorySink::new(alloc, devices.writes, devices.tears)?;
    let mut faults = MemorySink::new(alloc, SINGLE, false)?;
    let status = command(
        alloc,
        arguments.as_slice(),
        &mut reader,
        &mut writer,
        &mut faults,
    );
    Ok(Outcome {
        status,
        late_calls: reader.late_calls().saturating_add(writer.late_calls()),
        written: writer.into_bytes(),
        faults: faults.into_bytes(),
    })
}

/// Appends what came of a call, and has what it wrote be what was written last.
pub fn push_last(text: &mut String, trial: &mut Trial, outcome: Outcome) -> Result<(), AllocError> {
    text.push_str("  ")?;
    push_outcome(trial.alloc, text, &outcome)?;
    trial.written = outcome.written;
    text.push('\n')
}

/// Calls the program.
fn answer_once(text: &mut String, trial: &mut Trial, words: &str) -> Result<(), AllocError> {
    let input = trial.input()?;
    let outcome = called(trial.alloc, words, input.as_slice(), &devices_of(trial))?;
    push_last(text, trial, outcome)
}

/// Calls the program, and once more where memory was refused.
fn answer_retried(text: &mut String, trial: &mut Trial, words: &str) -> Result<(), AllocError> {
    let input = trial.input()?;
    let outcome = called(trial.alloc, words, input.as_slice(), &devices_of(trial))?;
    let is_refused = outcome.faults.as_slice() == b"implib: out of memory\n".as_slice();
    push_last(text, trial, outcome)?;
    if is_refused {
        return answer_once(text, trial, words);
    }
    Ok(())
}

/// Makes a run.
fn answer_run(text: &mut String, trial: &mut Trial, words: &str) -> Result<(), Fail> {
    let (machine, flavor) = word_of(words);
    let machine: MachineType = machine.parse()?;
    let flavor: Flavor = flavor.parse()?;
    let input = trial.input()?;
    let mut reader = MemorySource::new(input.as_slice(), trial.reads);
    let mut writer = MemorySink::new(trial.alloc, trial.writes, trial.tears)?;
    match run(trial.alloc, &mut reader, &mut writer, machine, flavor) {
        Ok(()) => text.push_str("  done")?,
        Err(error) => write!(text, "  {error}")?,
    }
    push_late(
        text,
        reader.late_calls().saturating_add(writer.late_calls()),
    )?;
    trial.written = writer.into_bytes();
    Ok(text.push('\n')?)
}

/// The status of an exit code.
fn status_of(code: ExitCode) -> u8 {
    for status in 0..u8::MAX {
        if code == ExitCode::from(status) {
            return status;
        }
    }
    u8::MAX
}

/// Calls the program with a command line, if it can be read.
fn answer_performed(
    text: &mut String,
    trial: &mut Trial,
    command_line: io::Result<Vec<String>>,
) -> Result<(), AllocError> {
    let input = trial.input()?;
    let mut reader = MemorySource::new(input.as_slice(), trial.reads);
    let mut writer = MemorySink::new(trial.alloc, trial.writes, trial.tears)?;
    let mut faults = MemorySink::new(trial.alloc, SINGLE, false)?;
    let code = perform(
        trial.alloc,
        command_line.map(|list| list.into_iter()),
        &mut reader,
        &mut writer,
        &mut faults,
    );
    let outcome = Outcome {
        status: status_of(code),
        late_calls: reader.late_calls().saturating_add(writer.late_calls()),
        written: writer.into_bytes(),
        faults: faults.into_bytes(),
    };
    push_last(text, trial, outcome)
}

/// Calls the program with a command line.
fn answer_perform(text: &mut String, trial: &mut Trial, words: &str) -> Result<(), AllocError> {
    let words = words_in(trial.alloc, words)?;
    answer_performed(text, trial, Ok(words))
}

/// Calls the program with a command line that cannot be read.
fn answer_unread(text: &mut String, trial: &mut Trial, kind: &str) -> Result<(), Fail> {
    let kind = match kind {
        "memory" => ErrorKind::OutOfMemory,
        "data" => ErrorKind::InvalidData,
        _ => return Err(Fail::new(format_args!("{kind} is no kind of errors"))),
    };
    Ok(answer_performed(text, trial, Err(io::Error::from(kind)))?)
}

/// Calls the program for each document by itself.
fn answer_apart(text: &mut String, trial: &Trial, words: &str) -> Result<(), AllocError> {
    let mut all = Vec::new(trial.alloc);
    for document in trial.documents.iter() {
        let outcome = called(trial.alloc, words, document.as_slice(), &AMPLE_DEVICES)?;
        all.extend_from_slice(outcome.written.as_slice())?;
    }
    let answer = if all == trial.written {
        "the same"
    } else {
        "another"
    };
    writeln!(text, "  {answer} listing")
}

/// Calls the program with a device that fails after 0, 1, 2 and more calls.
fn answer_each(text: &mut String, trial: &Trial, line: &Line) -> Result<(), Fail> {
    let (step, rest) = word_of(line.rest);
    let (count, words) = word_of(rest);
    let (step, count) = (count_in(step)?, count_in(count)?);
    let input = trial.input()?;
    let mut answers = Answers::new(trial.alloc);
    for calls in 0..count {
        let mut devices = AMPLE_DEVICES;
        if line.word == "each_read" {
            devices.reads = Pace { step, calls };
        } else {
            devices.writes = Pace { step, calls };
        }
        let outcome = called(trial.alloc, words, input.as_slice(), &devices)?;
        let mut answer = String::new(trial.alloc);
        push_outcome(trial.alloc, &mut answer, &outcome)?;
        answers.add(text, calls, answer)?;
    }
    Ok(answers.end(text, count)?)
}
